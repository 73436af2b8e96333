//! The tokens of a line of libxkbcommon, each read at the beginning of the rest of the line.
ghost use Rattle.std.specs.Prelude.{◌≡◌, ◌∷◌, ◌<◌, drop, false, true, option_map, MatchOption};
ghost use Rattle.compose_text.specs.Bytes.{is_name_byte, leading, behind};
ghost use Rattle.compose_lex.specs.Fault.{inside_from};
ghost use Rattle.compose_xkbcommon.specs.Grammar as grammar;
ghost use Rattle.compose_xkbcommon.specs.Scanned.{read};

use compose_text::name_len;

/// Returns whether a byte is a blank.
fn is_space(byte: u8) -> bool
    ensures { result ≡ grammar.is_space byte }
{
    matches!(byte, b' ' | 9..=13)
}

/// Returns whether a word begins with this byte: a letter or an underscore.
pub(crate) fn is_word_first(byte: u8) -> bool
    ensures { result ≡ grammar.is_word_first byte }
{
    byte.is_ascii_alphabetic() || byte == b'_'
}

/// Returns what follows the leading blanks. O(blanks).
pub(crate) fn skip_spaces(bytes: &[u8]) -> &[u8]
    ensures { result.now ≡ grammar.skip_spaces bytes.now }
{
    let mut rest = bytes;
    while let Some((first, behind)) = rest.split_first() {
        if !is_space(*first) {
            return rest;
        }
        rest = behind;
    }
    rest
}

/// Returns what follows this byte, if it comes first.
pub(crate) fn behind_byte(wanted: u8, rest: &[u8]) -> Option<&[u8]>
    ensures { MatchOption result (grammar.is_next wanted rest.now ≡ false)
        (λ more. (grammar.is_next wanted rest.now ≡ true) × (more.now ≡ drop 1 rest.now)) }
{
    let (first, behind) = rest.split_first()?;
    if *first == wanted { Some(behind) } else { None }
}

/// Returns the leading bytes of a name, perhaps none, and the rest. O(bytes of the name).
pub(crate) fn split_name(rest: &[u8]) -> (&str, &[u8])
    ensures name { result.0.now ≡ leading is_name_byte rest.now }
    ensures rest { result.1.now ≡ behind is_name_byte rest.now }
{
    let len = name_len(rest);
    match str::from_utf8(&rest[..len]) {
        Ok(name) => (name, &rest[len..]),
        Err(_) => ("", rest),
    }
}

/// Reads a word; returns it and the rest.
pub(crate) fn word_at(rest: &[u8]) -> Option<(&str, &[u8])>
    ensures { read result ≡ grammar.word_at rest.now }
{
    if !is_word_first(*rest.first()?) {
        return None;
    }
    Some(split_name(rest))
}

/// Reads a key: a name between `<` and `>`; returns the name and the rest.
pub(crate) fn named_key_at(rest: &[u8]) -> Option<(&str, &[u8])>
    ensures { read result ≡ grammar.named_key_at rest.now }
{
    let (name, more) = split_name(behind_byte(b'<', rest)?);
    let behind = behind_byte(b'>', more)?;
    if name.is_empty() {
        return None;
    }
    Some((name, behind))
}

/// Reads a string, after its opening quote: returns the raw text, and the rest after the closing
/// quote. O(bytes of the string).
pub(crate) fn inside_at(rest: &[u8]) -> Option<(&[u8], &[u8])>
    ensures { read result ≡ inside_from false rest.now }
{
    let mut taken = false;
    for at in 0..rest.len() {
        if taken {
            taken = false;
        } else if rest[at] == b'"' {
            return Some((&rest[..at], &rest[at + 1..]));
        } else {
            taken = rest[at] == b'\\';
        }
    }
    None
}
