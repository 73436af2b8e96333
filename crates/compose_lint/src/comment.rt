//! The comment of a line.
ghost use Rattle.std.specs.Prelude.{◌≡◌, ◌==◌, drop, position, option_copied};
ghost use Rattle.compose_lint.specs.Productions as words;

use crate::file_lines::head_len;
use crate::production::Written;
use memchr::memchr;

/// Returns the comment of a line whose string and result name are `written`, if the line has both a
/// string and a comment: the text after the first `#` after the string, without white space at its
/// ends. O(bytes).
pub(crate) fn comment_beside<'a>(line: &'a [u8], written: Option<&Written<'_>>) -> Option<&'a str>
    ensures { option_copied result ≡ words.comment_beside line.now (option_copied written.entry) }
{
    comment_in(after_string(line, written?.raw_text()?))
}

/// Returns the bytes after the string with this raw text. O(bytes).
fn after_string<'a>(line: &'a [u8], raw: &str) -> &'a [u8]
    ensures { result.now ≡ words.after_string line.now raw.now }
{
    behind(behind(behind(line, head_len(line)), 2), raw.len())
}

/// Returns the bytes after the first `count` ones.
pub(crate) fn behind(bytes: &[u8], count: usize) -> &[u8]
    ensures { result.now ≡ drop count bytes.now }
{
    match bytes.get(count..) {
        Some(rest) => rest,
        None => &[],
    }
}

/// Returns the text after the first `#` of these bytes, if there is one.
fn comment_in(bytes: &[u8]) -> Option<&str>
    ensures { option_copied result ≡ words.comment_in bytes.now }
{
    match comment_at(bytes) {
        Some(at) => trimmed(behind(behind(bytes, at), 1)),
        None => None,
    }
}

/// Returns the index of the first `#` of these bytes, if there is one.
fn comment_at(bytes: &[u8]) -> Option<usize>
    ensures { result ≡ position (λ b. b == 35) bytes.now }
{
    memchr(b'#', bytes)
}

/// Returns the bytes as a text without white space at its ends, if they are UTF-8.
fn trimmed(bytes: &[u8]) -> Option<&str>
    ensures { option_copied result ≡ words.trimmed bytes.now }
{
    match str::from_utf8(bytes) {
        Ok(text) => Some(text.trim()),
        Err(_) => None,
    }
}
