//! Numbers in the only way that a certificate writes them: without leading zeros, and with letters
//! in one case.
ghost use Rattle.std.specs.Prelude.{◌≡◌, ◌<◌, ◌≤◌, Some, None, if◌then◌else◌, ◌&&◌, nat_le, IsTrue};
ghost use Rattle.std.specs.List.{list_all};
ghost use Rattle.std.specs.Str.Parse.{digits_value};
ghost use Rattle.std.specs.Char.{digit_value};
ghost use Rattle.compose_cert.specs.Numerals.{radix, numeral, is_digit, is_one_case, IsSpelled};

/// The digits in which a number is written.
#[derive(Clone, Copy)]
pub enum Notation {
    /// Decimal digits.
    Decimal,
    /// Hexadecimal digits, with `a` to `f`.
    LowerHexadecimal,
    /// Hexadecimal digits, with `A` to `F`.
    UpperHexadecimal,
    /// Hexadecimal digits, with letters of either case.
    EitherHexadecimal,
}

impl Notation {
    /// Returns the number of different digits.
    fn radix(self) -> u64
        ensures { result ≡ radix self }
    {
        match self {
            Notation::Decimal => 10,
            Notation::LowerHexadecimal => 16,
            Notation::UpperHexadecimal => 16,
            Notation::EitherHexadecimal => 16,
        }
    }

    /// Returns the value of a digit, or `None` if the byte is no digit.
    fn digit(self, byte: u8) -> Option<u8>
        ensures { result ≡ (if is_digit self byte then Some (digit_value byte) else None) }
    {
        match (self, byte) {
            (_, b'0'..=b'9') => Some(byte - b'0'),
            (Notation::LowerHexadecimal, b'a'..=b'f') => Some(byte - b'a' + 10),
            (Notation::UpperHexadecimal, b'A'..=b'F') => Some(byte - b'A' + 10),
            (Notation::EitherHexadecimal, b'a'..=b'f') => Some(byte - b'a' + 10),
            (Notation::EitherHexadecimal, b'A'..=b'F') => Some(byte - b'A' + 10),
            _ => None,
        }
    }
}

/// Returns the number up to `most` that has these digits. O(digits).
pub fn number_in(word: &[u8], notation: Notation, most: u32) -> Option<u32>
    requires { IsTrue (is_one_case notation) }
    ensures { IsSpelled (numeral notation) most word.now result }
{
    if word.is_empty() {
        return None;
    }
    if word.len() > 1 && word[0] == b'0' {
        return None;
    }
    value_of(word, notation, most)
}

/// Returns the value of the digits, with leading zeros or without, if it is at most `most`.
/// O(digits).
pub fn value_of(word: &[u8], notation: Notation, most: u32) -> Option<u32>
    ensures { result
        ≡ (if list_all (is_digit notation) word.now
        && nat_le (digits_value (radix notation) word.now) most then Some
        (digits_value (radix notation) word.now) else None) }
{
    let mut value = 0u32;
    for byte in word {
        let digit = notation.digit(*byte)?;
        let more = u64::from(value) * notation.radix() + u64::from(digit);
        if more > u64::from(most) {
            return None;
        }
        value = more as u32;
    }
    Some(value)
}
