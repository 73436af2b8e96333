//! The includes of a source.
ghost use Rattle.std.specs.Prelude.{◌≡◌, nat_eq, codes, option_copied, IfOk};
ghost use Rattle.std.specs.List.{starts_with};
ghost use Rattle.compose_lex.specs.Fault.{skip_blanks};
ghost use Rattle.compose_read.specs.Lines.{without_mark};
ghost use Rattle.compose_read.specs.Visits.{raw_include};
ghost use Rattle.compose_find.specs.Includes as includes;

use arrayvec::ArrayVec;
use compose_lex::{LineContent, lex_line_into};
use compose_text::{blank_len, first_line};
use std::alloc::{AllocError, Global};
use std::marker::Model;

/// An include of a source.
#[derive(Debug, Drop)]
pub struct Include {
    /// The number of its line, counted from 1.
    pub line: usize,
    /// The text between the quotes of its string, with its escapes.
    pub raw: String,
}

impl Model for Include {
    ghost use Rattle.std.specs.Prelude.{string_bytes};
    ghost use Rattle.compose_find.specs.Includes as includes;

    ghost Value = { includes.Include };

    ghost view = { λ i. record { line = i.line; raw = string_bytes i.raw } };
}

/// Returns the includes of a source in order, as reading a table finds them; a line that is not
/// UTF-8 or is faulty is no include. Takes memory for the includes alone. O(bytes): for a line that
/// begins with another word only its end and its blanks are searched for.
///
/// Errors: `AllocError` if memory runs out.
pub fn includes_of(alloc: Global, source: &[u8]) -> Result<Vec<Include>, AllocError>
    ensures { IfOk result (λ found. found.items ≡ includes.includes_of source.now) }
{
    let mut found = Vec::new(alloc);
    let mut rest = without_mark(source);
    let mut line = 0;
    while let Some((bytes, behind)) = first_line(rest) {
        line += 1;
        if let Some(raw) = raw_include(bytes) {
            found.push(Include {
                line,
                raw: String::from_str(alloc, raw)?,
            })?;
        }
        rest = behind;
    }
    Ok(found)
}

/// Returns the bytes without a UTF-8 byte order mark at their beginning.
fn without_mark(bytes: &[u8]) -> &[u8]
    ensures { result.now ≡ without_mark bytes.now }
{
    bytes.strip_prefix(&[0xef, 0xbb, 0xbf]).unwrap_or(bytes)
}

/// Returns the raw text of the line's include, if it is one. O(bytes), or O(blanks) for a line that
/// begins with another word.
fn raw_include(line: &[u8]) -> Option<&str>
    ensures { option_copied result ≡ raw_include line.now }
{
    if !begins_include(line) {
        return None;
    }
    let Ok(text) = str::from_utf8(line) else {
        return None;
    };
    let mut events = ArrayVec::new();
    match lex_line_into(text, &mut events) {
        Ok(LineContent::Include(raw)) => Some(raw),
        _ => None,
    }
}

/// Returns whether the line begins with the word `include`, after blanks.
fn begins_include(line: &[u8]) -> bool
    ensures { result ≡ starts_with nat_eq (skip_blanks line.now) (codes "include") }
{
    line[blank_len(line)..].starts_with(b"include")
}
