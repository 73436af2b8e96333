//! The words of a certificate's lines.
ghost use Rattle.std.specs.Prelude.{◌≡◌, ◌++◌, ◌∷◌, [], ◌<◌, length, Some, MatchOption};
ghost use Rattle.compose_text.specs.Lines.{divide};
ghost use Rattle.compose_cert.specs.Numerals.{padded, IsSpelled};
ghost use Rattle.compose_cert.specs.Reading as reading;

use crate::numeral::{Notation, number_in, value_of};
use keysym_core::Keysym;

/// Returns a 32-bit number in decimal digits.
pub fn number_of(word: &[u8]) -> Option<u32>
    ensures { result ≡ reading.number_of word.now }
{
    number_in(word, Notation::Decimal, u32::MAX)
}

/// Returns a keysym in lower-case hexadecimal digits.
pub fn keysym_of(word: &[u8]) -> Option<Keysym>
    ensures { result ≡ reading.keysym_of word.now }
{
    let number = number_in(word, Notation::LowerHexadecimal, Keysym::GREATEST)?;
    Keysym::new(number)
}

/// Returns a character: `U+` and upper-case hexadecimal digits, padded with zeros to four digits.
pub fn character_of(word: &[u8]) -> Option<char>
    ensures { result ≡ reading.character_of word.now }
{
    if !word.starts_with(b"U+") {
        return None;
    }
    let number = code_point(&word[2..])?;
    char::from_u32(number)
}

/// Returns a number up to `10FFFF` in at least four digits; more than four don't begin with a zero.
fn code_point(digits: &[u8]) -> Option<u32>
    ensures { IsSpelled padded 0x10ffff digits.now result }
{
    if digits.len() < 4 {
        return None;
    }
    if digits.len() > 4 && digits[0] == b'0' {
        return None;
    }
    value_of(digits, Notation::UpperHexadecimal, 0x10ffff)
}

/// Splits the bytes at the first such byte. Returns what comes before and after it. O(bytes
/// before).
pub fn split_at_byte(bytes: &[u8], at: u8) -> Option<(&[u8], &[u8])>
    ensures cases { MatchOption result (divide at bytes.now ≡ bytes.now ∷ [])
        (λ x. divide at bytes.now ≡ x.0.now ∷ divide at x.1.now) }
    ensures shorter { MatchOption result (Unit {0}) (λ x. length x.1.now < length bytes.now) }
{
    for (index, byte) in bytes.iter().enumerate() {
        if *byte == at {
            return Some((&bytes[..index], &bytes[index + 1..]));
        }
    }
    None
}
