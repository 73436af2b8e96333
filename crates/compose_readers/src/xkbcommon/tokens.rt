//! The tokens of a line, none of which goes beyond its end.
ghost use Rattle.std.specs.Prelude.{◌≡◌, ◌<◌, length, IfSome};
ghost use Rattle.compose_text.specs.Bytes.{behind};
ghost use Rattle.compose_readers.specs.Files.{is_empty, is_space};

use crate::cause::Cause;
use compose_text::name_len;

/// The bytes that a name, a word or a string may have at most, less one.
pub(crate) const BUFFER: usize = 1023;

/// A token.
#[derive(Clone, Copy, Drop)]
pub(crate) enum Token<'a> {
    /// The end of the line, or a comment.
    End,
    /// What stands between `<` and `>`.
    Key(&'a [u8]),
    /// A colon.
    Colon,
    /// An exclamation mark.
    Mark,
    /// A tilde.
    Tilde,
    /// What stands between quotes, with its escapes.
    Raw(&'a [u8]),
    /// A word.
    Word(&'a [u8]),
    /// None.
    Fault(Cause),
}

/// Returns whether a byte is a blank.
fn is_space(byte: u8) -> bool
    ensures { result ≡ is_space byte }
{
    matches!(byte, b' ' | 9..=13)
}

/// Returns what follows the leading blanks. O(blanks).
pub(crate) fn skip_spaces(bytes: &[u8]) -> &[u8]
    ensures { result.now ≡ behind is_space bytes.now }
{
    let mut rest = bytes;
    while let Some((first, behind)) = rest.split_first() {
        if !is_space(*first) {
            return rest;
        }
        rest = behind;
    }
    rest
}

/// Returns whether a line has nothing but blanks and a comment. O(blanks).
pub(crate) fn is_blank(line: &[u8]) -> bool
    ensures { result ≡ is_empty line.now }
{
    match skip_spaces(line).first() {
        None | Some(b'#') => true,
        Some(_) => false,
    }
}

/// Reads a name, after its `<`. O(bytes of the name).
fn key_at(rest: &[u8]) -> (Token<'_>, &[u8]) {
    let Some(end) = rest.iter().position(|byte| *byte == b'>') else {
        return (Token::Fault(Cause::OpenKey), rest);
    };
    if end >= BUFFER {
        return (Token::Fault(Cause::LongName), rest);
    }
    (Token::Key(&rest[..end]), &rest[end + 1..])
}

/// Returns where the closing quote of a string is, in what follows the opening one.
fn end_of_string(rest: &[u8]) -> Option<usize>
    ensures { IfSome result (λ end. end < length rest.now) }
{
    let mut taken = false;
    for at in 0..rest.len() {
        if taken {
            taken = false;
        } else if rest[at] == b'"' {
            return Some(at);
        } else {
            taken = rest[at] == b'\\';
        }
    }
    None
}

/// Reads a string, after its opening quote. O(bytes of the string).
fn string_at(rest: &[u8]) -> (Token<'_>, &[u8]) {
    match end_of_string(rest) {
        Some(end) => (Token::Raw(&rest[..end]), &rest[end + 1..]),
        None => (Token::Fault(Cause::OpenString), rest),
    }
}

/// Reads a word. O(bytes of the word).
fn word_at(rest: &[u8]) -> (Token<'_>, &[u8]) {
    let len = name_len(rest);
    let (word, behind) = (&rest[..len], &rest[len..]);
    if word.len() >= BUFFER {
        return (Token::Fault(Cause::LongName), rest);
    }
    (Token::Word(word), behind)
}

/// Reads the next token; returns it and the rest of the line. O(bytes of the token).
pub(crate) fn token_at(line: &[u8]) -> (Token<'_>, &[u8]) {
    let rest = skip_spaces(line);
    let Some((first, behind)) = rest.split_first() else {
        return (Token::End, rest);
    };
    match *first {
        b'#' => (Token::End, &[]),
        b'<' => key_at(behind),
        b':' => (Token::Colon, behind),
        b'!' => (Token::Mark, behind),
        b'~' => (Token::Tilde, behind),
        b'"' => string_at(behind),
        b'a'..=b'z' | b'A'..=b'Z' | b'_' => word_at(rest),
        _ => (Token::Fault(Cause::OddByte), behind),
    }
}
