//! The words of a repertoire's lines.
ghost use Rattle.std.specs.Prelude.{◌≡◌, ◌<◌, ◌∷◌, [], length, false, slice_index, MatchOption};
ghost use Rattle.compose_text.specs.Bytes.{is_blank};
ghost use Rattle.keysym_core.specs.Names as names;
ghost use Rattle.compose_cert.specs.Repertoire as repertoire;

use crate::numeral::{Notation, value_of};
use keysym_core::Keysym;

/// Returns a keysym: `0x` and one to eight digits of either case, up to the largest keysym.
pub fn number_form(word: &[u8]) -> Option<Keysym>
    ensures { result ≡ names.number_form word.now }
{
    let (zero, others) = word.split_first()?;
    let (letter, digits) = others.split_first()?;
    if *zero != b'0' || *letter != b'x' {
        return None;
    }
    if digits.is_empty() || digits.len() > 8 {
        return None;
    }
    let number = value_of(digits, Notation::EitherHexadecimal, Keysym::GREATEST)?;
    Keysym::new(number)
}

/// Returns a character: `U+` and four to six digits of either case.
pub fn character_form(word: &[u8]) -> Option<char>
    ensures { result ≡ repertoire.character_form word.now }
{
    if !word.starts_with(b"U+") {
        return None;
    }
    let digits = &word[2..];
    if digits.len() < 4 || digits.len() > 6 {
        return None;
    }
    let number = value_of(digits, Notation::EitherHexadecimal, 0x10ffff)?;
    char::from_u32(number)
}

/// Returns the first word of the bytes and what follows it, or `None` if there are only blanks.
/// O(bytes up to its end).
pub fn first_word(bytes: &[u8]) -> Option<(&[u8], &[u8])>
    ensures { MatchOption result (repertoire.words_in bytes.now ≡ [])
        (λ x. repertoire.words_in bytes.now ≡ x.0.now ∷ repertoire.words_in x.1.now) }
{
    let start = without_blanks(bytes);
    if start.is_empty() {
        return None;
    }
    Some(split_at_blank(start))
}

/// Returns the bytes from the first one that is no blank.
fn without_blanks(bytes: &[u8]) -> &[u8]
    ensures same { repertoire.words_in result.now ≡ repertoire.words_in bytes.now }
    ensures first { 0 < length result.now → is_blank (slice_index result.now 0) ≡ false }
{
    for (index, byte) in bytes.iter().enumerate() {
        if !is_blank(*byte) {
            return &bytes[index..];
        }
    }
    &[]
}

/// Returns the word at the beginning of the bytes, and what follows the blank that ends it.
fn split_at_blank(bytes: &[u8]) -> (&[u8], &[u8])
    requires some { 0 < length bytes.now }
    requires first { is_blank (slice_index bytes.now 0) ≡ false }
    ensures { repertoire.words_in bytes.now ≡ result.0.now ∷ repertoire.words_in result.1.now }
{
    for (index, byte) in bytes.iter().enumerate() {
        if is_blank(*byte) {
            return (&bytes[..index], &bytes[index + 1..]);
        }
    }
    (bytes, &[])
}

/// Returns whether the byte is a space, a tab or a carriage return.
fn is_blank(byte: u8) -> bool
    ensures { result ≡ is_blank byte }
{
    matches!(byte, b' ' | b'\t' | b'\r')
}

/// Returns what comes before a comment.
pub fn before_comment(line: &[u8]) -> &[u8]
    ensures { result.now ≡ repertoire.before_comment line.now }
{
    for (index, byte) in line.iter().enumerate() {
        if *byte == b'#' {
            return &line[..index];
        }
    }
    line
}
