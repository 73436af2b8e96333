//! The tokens of a line, each read at the beginning of the rest of the line. A function takes the
//! length of the whole line, for the offset of a fault, and the rest.
ghost use Rattle.std.specs.Prelude.{◌≡◌, ◌<◌};
ghost use Rattle.compose_text.specs.Bytes.{is_name_byte, leading, behind};
ghost use Rattle.compose_lex.specs.Fault as fault;
ghost use Rattle.compose_lex.specs.Lexed.{Is};

use crate::LexFault;
use crate::scan::plain_len;
use compose_text::{blank_len, name_len};

/// Returns the offset in the line at which the rest begins.
pub(crate) fn offset(line_len: usize, rest: &str) -> usize
    ensures { result ≡ fault.offset line_len rest.now }
{
    line_len.saturating_sub(rest.len())
}

/// Returns what follows the leading blanks. O(blanks).
pub(crate) fn skip_blanks(text: &str) -> &str
    ensures { result.now ≡ fault.skip_blanks text.now }
{
    &text[blank_len(text.as_bytes())..]
}

/// Returns the leading bytes of a name, perhaps none, and the rest after them. O(bytes of the
/// name).
pub(crate) fn split_name(text: &str) -> (&str, &str)
    ensures name { result.0.now ≡ leading is_name_byte text.now }
    ensures rest { result.1.now ≡ behind is_name_byte text.now }
{
    let len = name_len(text.as_bytes());
    (&text[..len], &text[len..])
}

/// Reads a name; returns it and the rest after it.
pub(crate) fn name_at(line_len: usize, rest: &str) -> Result<(&str, &str), LexFault>
    ensures { Is (λ x. (x.0.now, x.1.now)) result (fault.name_at line_len rest.now) }
{
    let (name, behind) = split_name(rest);
    if name.is_empty() {
        return Err(LexFault::BadToken {
            at: offset(line_len, rest),
        });
    }
    Ok((name, behind))
}

/// Reads this ASCII byte; returns the rest after it.
pub(crate) fn byte_at(line_len: usize, wanted: u8, rest: &str) -> Result<&str, LexFault>
    requires { wanted < 128 }
    ensures { Is (λ x. x.now) result (fault.byte_at line_len wanted rest.now) }
{
    match rest.as_bytes().first() {
        Some(byte) if *byte == wanted => Ok(&rest[1..]),
        _ => Err(LexFault::BadToken {
            at: offset(line_len, rest),
        }),
    }
}

/// Reads a string, after its opening quote: returns the raw text, and the rest after the closing
/// quote. O(bytes of the string).
pub(crate) fn string_at(line_len: usize, rest: &str) -> Result<(&str, &str), LexFault>
    ensures { Is (λ x. (x.0.now, x.1.now)) result (fault.string_at line_len rest.now) }
{
    let bytes = rest.as_bytes();
    let mut taken = false;
    for at in plain_len(bytes)..bytes.len() {
        if taken {
            taken = false;
        } else if bytes[at] == b'"' {
            return Ok((&rest[..at], &rest[at + 1..]));
        } else {
            taken = bytes[at] == b'\\';
        }
    }
    Err(LexFault::UnclosedString {
        at: offset(line_len, rest).saturating_sub(1),
    })
}

/// Checks that only a comment is left, or nothing.
pub(crate) fn end_at(line_len: usize, rest: &str) -> Result<(), LexFault>
    ensures { Is (λ _. tt) result (fault.end_at line_len rest.now) }
{
    match rest.as_bytes().first() {
        None | Some(b'#') => Ok(()),
        Some(_) => Err(LexFault::BadToken {
            at: offset(line_len, rest),
        }),
    }
}
