//! The line of a list that accepts a finding.
ghost use Rattle.std.specs.Prelude.{◌≡◌, ◌++◌, IfOk, OnOk, string_bytes};
ghost use Rattle.compose_lint.specs.Accepted as words;

use crate::comment::behind;
use crate::file_lines::is_blank;
use crate::report::kind_word;
use crate::row::Row;
use compose_shown::is_unsafe;
use compose_text::blank_len;
use std::alloc::{AllocError, Global};
use std::fmt::Write;

/// Returns the word of the kind, a colon and a blank, and the line of the finding, without blanks
/// at its ends. O(bytes of the line).
pub(crate) fn listed_text(alloc: Global, row: &Row<'_>) -> Result<String, AllocError>
    ensures { IfOk result (λ text. string_bytes text ≡ words.listed_text row.now) }
{
    let line = String::from_utf8_lossy(alloc, without_blanks(row.bytes))?;
    let mut text = String::from_str(alloc, kind_word(row.finding.kind))?;
    text.push_str(": ")?;
    push_characters(&mut text, &line)?;
    Ok(text)
}

/// Returns the line without blanks at its ends.
fn without_blanks(line: &[u8]) -> &[u8]
    ensures { result.now ≡ words.without_blanks line.now }
{
    without_last_blanks(behind(line, blank_len(line)))
}

/// Returns the line without blanks at its end.
fn without_last_blanks(line: &[u8]) -> &[u8]
    ensures { result.now ≡ words.without_last_blanks line.now }
{
    let mut end = line.len();
    while 0 < end && is_blank(line[end - 1]) {
        end -= 1;
    }
    &line[..end]
}

/// Adds the characters of a line of a Compose file.
fn push_characters(text: &mut String, line: &str) -> Result<(), AllocError>
    ensures { OnOk result
        (string_bytes text.new ≡ string_bytes text.old ++ words.listed_characters line.now) }
{
    for character in line.chars() {
        push_character(text, character)?;
    }
    Ok(())
}

/// Adds a character of a line of a Compose file.
fn push_character(text: &mut String, character: char) -> Result<(), AllocError>
    ensures { OnOk result
        (string_bytes text.new ≡ string_bytes text.old ++ words.listed_character character) }
{
    let number = u32::from(character);
    if number != 9 && is_unsafe(number) {
        write!(text, "\\u{{{number:x}}}")?;
        return Ok(());
    }
    text.push(character)
}
