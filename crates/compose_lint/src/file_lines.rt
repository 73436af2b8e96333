//! How a line is written, if other readers of Compose files treat it differently.
ghost use Rattle.std.specs.Prelude.{◌≡◌, ◌==◌, take, drop, position, option_copied, false, not, is_some};
ghost use Rattle.std.specs.List.{list_any};
ghost use Rattle.std.specs.Option.{option_map_or};
ghost use Rattle.compose_text.specs.Bytes.{is_blank};
ghost use Rattle.compose_read.specs.Visits.{raw_include};
ghost use Rattle.compose_lint.specs.Productions.{written_of};
ghost use Rattle.compose_lint.specs.FileLines as words;

use crate::lines::LintLine;
use crate::production::{Written, production_of};
use arrayvec::ArrayVec;
use compose_lex::{LineContent, lex_line_into};
use memchr::{memchr, memchr2};

/// Returns whether the line is a definition or an include. O(bytes).
pub(crate) fn has_content(line: &[u8]) -> bool
    ensures { result ≡ words.has_content line.now }
{
    production_of(line).is_some() || raw_include(line).is_some()
}

/// Returns the raw text of the line's include, if it is one. O(bytes).
fn raw_include(line: &[u8]) -> Option<&str>
    ensures { option_copied result ≡ raw_include line.now }
{
    let Ok(text) = str::from_utf8(line) else {
        return None;
    };
    let mut events = ArrayVec::new();
    match lex_line_into(text, &mut events) {
        Ok(LineContent::Include(name)) => Some(name),
        _ => None,
    }
}

/// Returns whether the bytes begin with a UTF-8 byte order mark.
pub(crate) fn has_mark(bytes: &[u8]) -> bool
    ensures { result ≡ words.has_mark bytes.now }
{
    bytes.starts_with(&[0xef, 0xbb, 0xbf])
}

/// Returns whether the line is the first one of these bytes, and follows a byte order mark. O(bytes
/// of the line).
pub(crate) fn is_after_mark(bytes: &[u8], line: &LintLine<'_>) -> bool
    ensures { result ≡ words.is_after_mark bytes.now line.now }
{
    line.line() == 1 && has_mark(bytes) && has_content(line.bytes())
}

/// Returns whether the bytes don't end in a newline.
pub(crate) fn is_unended(bytes: &[u8]) -> bool
    ensures { result ≡ words.is_unended bytes.now }
{
    match bytes.last() {
        Some(byte) => *byte != b'\n',
        None => true,
    }
}

/// Returns whether the line is a definition without a result name, or an include. O(bytes).
pub(crate) fn ends_in_string(line: &[u8]) -> bool
    ensures { result ≡ words.ends_in_string line.now }
{
    is_nameless(line) || raw_include(line).is_some()
}

/// Returns whether the line is a definition without a result name.
fn is_nameless(line: &[u8]) -> bool
    ensures { result
        ≡ option_map_or (λ p. not (is_some p.name)) (written_of line.now) false }
{
    match production_of(line) {
        Some(production) => production.written.result_name().is_none(),
        None => false,
    }
}

/// Returns whether the line is the last one of these bytes, and no newline follows it. O(bytes of
/// the line).
pub(crate) fn is_without_newline(bytes: &[u8], lines: usize, line: &LintLine<'_>) -> bool
    ensures { result ≡ words.is_without_newline bytes.now lines line.now }
{
    line.line() == lines && is_unended(bytes) && ends_in_string(line.bytes())
}

/// Returns whether the bytes end in a backslash.
pub(crate) fn ends_in_backslash(line: &[u8]) -> bool
    ensures { result ≡ words.ends_in_backslash line.now }
{
    match line.last() {
        Some(byte) => *byte == b'\\',
        None => false,
    }
}

/// Returns whether the line before this one in its file ends in a backslash.
fn follows_backslash(lines: &[LintLine<'_>], line: &LintLine<'_>) -> bool
    ensures { result ≡ words.follows_backslash lines.now line.now }
{
    if line.line() < 2 {
        return false;
    }
    match lines.get(line.line() - 2) {
        Some(before) => ends_in_backslash(before.bytes()),
        None => false,
    }
}

/// Returns whether libX11 joins the line to the comment on the line before. O(bytes of the line).
pub(crate) fn is_joined(lines: &[LintLine<'_>], line: &LintLine<'_>) -> bool
    ensures { result ≡ words.is_joined lines.now line.now }
{
    follows_backslash(lines, line) && has_content(line.bytes())
}

/// Returns whether the byte begins a string or a comment.
fn begins_string_or_comment(byte: u8) -> bool
    ensures { result ≡ words.begins_string_or_comment byte }
{
    byte == b'"' || byte == b'#'
}

/// Returns the index at which the string or the comment begins, if there is one.
fn head_end(line: &[u8]) -> Option<usize>
    ensures { result ≡ position words.begins_string_or_comment line.now }
{
    memchr2(b'"', b'#', line)
}

/// Returns the number of bytes before the string or the comment. O(bytes).
pub(crate) fn head_len(line: &[u8]) -> usize
    ensures { result ≡ words.head_len line.now }
{
    match head_end(line) {
        Some(end) => end,
        None => line.len(),
    }
}

/// Returns whether a carriage return precedes the string or the comment.
fn has_return_before(line: &[u8]) -> bool
    ensures { result ≡ list_any (λ b. b == 13) (take (words.head_len line.now) line.now) }
{
    line.iter().take(head_len(line)).any(|byte| *byte == b'\r')
}

/// Returns whether a carriage return is between the string and the comment.
fn has_return_after(line: &[u8], raw: &str) -> bool
    ensures { result ≡ list_any (λ b. b == 13) (words.tail line.now raw.now) }
{
    line.iter()
        .skip(head_len(line))
        .skip(2)
        .skip(raw.len())
        .take_while(|byte| **byte != b'#')
        .any(|byte| *byte == b'\r')
}

/// Returns whether a carriage return is outside of the string and the comment. O(bytes).
pub(crate) fn has_return(line: &[u8], written: &Written<'_>) -> bool
    ensures { result ≡ words.has_return line.now written.now }
{
    match memchr(b'\r', line) {
        Some(_) => has_return_outside(line, written),
        None => false,
    }
}

/// Does the work of `has_return` for a line that may have a carriage return.
fn has_return_outside(line: &[u8], written: &Written<'_>) -> bool
    ensures { result ≡ words.has_return line.now written.now }
{
    if has_return_before(line) {
        return true;
    }
    match written.raw_text() {
        Some(raw) => has_return_after(line, raw),
        None => false,
    }
}

/// Returns whether the line is an include with a carriage return before its string. O(bytes).
pub(crate) fn has_return_in_include(line: &[u8]) -> bool
    ensures { result ≡ words.has_return_in_include line.now }
{
    match memchr(b'\r', line) {
        Some(_) => raw_include(line).is_some() && has_return_before(line),
        None => false,
    }
}

/// Returns whether these bytes are `<` and a blank, or a blank and `>`.
fn is_spaced(first: u8, second: u8) -> bool
    ensures { result ≡ words.is_spaced (first, second) }
{
    (first == b'<' && is_blank(second)) || (is_blank(first) && second == b'>')
}

/// Returns whether the byte is a blank.
pub(crate) fn is_blank(byte: u8) -> bool
    ensures { result ≡ is_blank byte }
{
    matches!(byte, b' ' | b'\t' | b'\r')
}

/// Returns whether a blank is next to a key name, inside the `<` and `>`. O(bytes).
pub(crate) fn has_spaced_name(line: &[u8]) -> bool
    ensures { result ≡ words.has_spaced_name line.now }
{
    has_spaced_name_after(b':', line)
}

/// Returns whether a blank is next to a key name in `first` and then `line`.
fn has_spaced_name_after(first: u8, line: &[u8]) -> bool
    ensures { result ≡ words.has_spaced_name_after first line.now }
{
    let mut before = first;
    for byte in line {
        if begins_string_or_comment(*byte) {
            return false;
        }
        if is_spaced(before, *byte) {
            return true;
        }
        before = *byte;
    }
    false
}
