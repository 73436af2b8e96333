//! Does a file begin like a Compose file?
ghost use Rattle.std.specs.Prelude.{◌≡◌, Some, None};
ghost use Rattle.compose_messages.specs.Beginning as words;

use crate::lines::text_or_nothing;
use arrayvec::ArrayVec;
use compose_lex::{LineContent, lex_line_into};
use compose_text::first_line;

/// Whether the first line that is not blank and not a comment is a production or an include.
/// O(bytes up to there).
pub(crate) fn begins_as_table(bytes: &[u8]) -> bool
    ensures { result ≡ words.begins_as_table bytes.now }
{
    let mut rest = bytes;
    while let Some((line, others)) = first_line(rest) {
        if let Some(is_table) = line_of_table(line) {
            return is_table;
        }
        rest = others;
    }
    false
}

/// Whether the line is a production or an include; `None` for a blank line or a comment.
fn line_of_table(line: &[u8]) -> Option<bool>
    ensures { result ≡ words.line_of_table line.now }
{
    let mut events = ArrayVec::new();
    match lex_line_into(text_or_nothing(line), &mut events) {
        Ok(LineContent::Blank) => None,
        Ok(_) => Some(true),
        Err(_) => Some(false),
    }
}
