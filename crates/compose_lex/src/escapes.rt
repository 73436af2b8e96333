//! Decoding of the escapes in a raw text, one byte each. Octal and hexadecimal codes take as many
//! digits as possible.
ghost use Rattle.std.specs.Prelude.{◌≡◌, ◌≤◌, ◌<◌, ◌+◌, ◌==◌, ◌||◌, ◌++◌, ◌∷◌, [], ℕ, List, nat_lt, length, take, drop, Some, None, Ok, Err, MatchResult, IfOk};
ghost use Rattle.std.specs.Char.{digit_value};
ghost use Rattle.std.specs.Str.Parse.{digits_value};
ghost use Rattle.compose_text.specs.Bytes.{leading};
ghost use Rattle.compose_lex.specs.Escape as escapes;
ghost use Rattle.compose_lex.specs.Steps.{IsByte, escape_byte, piece_byte, IsDecoded};

use crate::LexFault;
use arrayvec::ArrayVec;

/// The first 255 bytes of a text, and the number of bytes in all of it.
pub(crate) type Decoded = (ArrayVec<u8, 255>, usize);

/// Returns the number that the leading digits write, and the number of these digits.
fn code_of(radix: u32, bytes: &[u8]) -> (u32, usize)
    requires low { 2 ≤ radix }
    requires high { radix ≤ 16 }
    requires few { length bytes.now ≤ 3 }
    ensures value { result.0
        ≡ digits_value radix (leading (λ d. nat_lt (digit_value d) radix) bytes.now) }
    ensures len { result.1 ≡ length (leading (λ d. nat_lt (digit_value d) radix) bytes.now) }
{
    let mut value = 0;
    for (len, byte) in bytes.iter().enumerate() {
        let Some(digit) = char::from(*byte).to_digit(radix) else {
            return (value, len);
        };
        value = value * radix + digit;
    }
    (value, bytes.len())
}

/// Like `code_of`, but reads at most `most` bytes.
fn code_at(radix: u32, most: usize, rest: &[u8]) -> (u32, usize)
    requires low { 2 ≤ radix }
    requires high { radix ≤ 16 }
    requires few { most ≤ 3 }
    ensures value { result.0
        ≡ digits_value radix (leading (λ d. nat_lt (digit_value d) radix) (take most rest.now)) }
    ensures len { result.1
        ≡ length (leading (λ d. nat_lt (digit_value d) radix) (take most rest.now)) }
{
    if rest.len() < most {
        return code_of(radix, rest);
    }
    code_of(radix, &rest[..most])
}

/// Returns the byte with this code, and `len`, the number of bytes that the code takes.
fn byte_of(at: usize, code: u32, len: usize) -> Result<(u8, usize), LexFault>
    ensures { IsByte (escapes.byte_of code) len (LexFault.BadCode at) result }
{
    if code == 0 || code > 255 {
        return Err(LexFault::BadCode { at });
    }
    Ok((code as u8, len))
}

/// Returns the byte for a letter after a backslash.
fn letter_escape(at: usize, letter: u8) -> Result<(u8, usize), LexFault>
    ensures { IsByte (escapes.letter_escape letter) 1 (LexFault.UnknownEscape at) result }
{
    match letter {
        b'\\' | b'"' => Ok((letter, 1)),
        b'n' => Ok((b'\n', 1)),
        b'r' => Ok((b'\r', 1)),
        b't' => Ok((b'\t', 1)),
        _ => Err(LexFault::UnknownEscape { at }),
    }
}

/// Returns whether this byte begins a hexadecimal code.
fn begins_hexadecimal(byte: u8) -> bool
    ensures { result ≡ (byte == 120 || byte == 88) }
{
    byte == b'x' || byte == b'X'
}

/// Decodes an escape, given what follows its backslash: returns the byte, and the number of bytes
/// that the escape takes after the backslash.
fn escape_at(at: usize, rest: &[u8]) -> Result<(u8, usize), LexFault>
    ensures { IsByte (escape_byte rest.now) (escapes.escape_len rest.now)
        (escapes.escape_fault at rest.now) result }
{
    let Some((first, digits)) = rest.split_first() else {
        return Err(LexFault::UnknownEscape { at });
    };
    if begins_hexadecimal(*first) {
        let (code, len) = code_at(16, 2, digits);
        return byte_of(at, code, 1 + len);
    }
    let (code, len) = code_at(8, 3, rest);
    if len > 0 {
        return byte_of(at, code, len);
    }
    letter_escape(at, *first)
}

/// Decodes the piece that begins with this byte: returns the byte that it stands for, and the
/// number of bytes that it takes after the first.
fn piece_at(at: usize, first: u8, behind: &[u8]) -> Result<(u8, usize), LexFault>
    ensures { IsByte (piece_byte first behind.now) (escapes.first_len (first ∷ behind.now))
        (escapes.escape_fault at behind.now) result }
{
    if first == b'\\' {
        return escape_at(at, behind);
    }
    Ok((first, 0))
}

/// Keeps one more byte, if there is room.
fn keep(kept: &mut ArrayVec<u8, 255>, byte: u8)
    ensures { kept.new.items ≡ take 255 (kept.old.items ++ byte ∷ []) }
{
    if !kept.is_full() {
        kept.push(byte);
    }
}

/// Decodes a raw text, or returns the leftmost bad escape as an error. O(bytes).
pub(crate) fn decode(raw: &[u8]) -> Result<Decoded, LexFault>
    ensures { MatchResult result
        (λ x. (bytes : List ℕ) × (escapes.bytes_from 0 0 raw.now ≡ Ok bytes)
        × IsDecoded x.0.items x.1 bytes) (λ e. escapes.bytes_from 0 0 raw.now ≡ Err e) }
{
    let mut kept = ArrayVec::new();
    let mut len = 0;
    let mut at = 0;
    while let Some((first, behind)) = raw[at..].split_first() {
        let (byte, taken) = piece_at(at, *first, behind)?;
        keep(&mut kept, byte);
        len += 1;
        at += 1 + taken;
    }
    Ok((kept, len))
}
