//! Numbers in hexadecimal digits.
ghost use Rattle.std.specs.Prelude.{◌≡◌, ◌≤◌, ◌<◌, length, Some, None, SomeIff, if◌then◌else◌};
ghost use Rattle.std.specs.Char.{digit_value};
ghost use Rattle.std.specs.List.{list_all};
ghost use Rattle.compose_text.specs.Numbers as words;

/// Returns the number that `low` to `high` hexadecimal digits of either case write; `None` if there
/// are fewer or more, or other bytes. O(1): there are at most eight.
#[inline(never)]
pub fn hexadecimal_number(low: usize, high: usize, digits: &[u8]) -> Option<u32>
    requires { high ≤ 8 }
    ensures { result
        ≡ (if words.is_hexadecimal low high digits.now then Some
        (words.hexadecimal digits.now) else None) }
{
    if digits.len() < low || high < digits.len() {
        return None;
    }
    hexadecimal(digits)
}

/// The value of each byte as a hexadecimal digit of either case, and 16 if it is none. A branch for
/// each kind of digit would be mispredicted.
#[rattlefmt::skip]
const DIGIT_VALUES: [u8; 256] = [
    16, 16, 16, 16, 16, 16, 16, 16, 16, 16, 16, 16, 16, 16, 16, 16, // 0x00
    16, 16, 16, 16, 16, 16, 16, 16, 16, 16, 16, 16, 16, 16, 16, 16, // 0x10
    16, 16, 16, 16, 16, 16, 16, 16, 16, 16, 16, 16, 16, 16, 16, 16, // 0x20
    0, 1, 2, 3, 4, 5, 6, 7, 8, 9, 16, 16, 16, 16, 16, 16, // 0x30
    16, 10, 11, 12, 13, 14, 15, 16, 16, 16, 16, 16, 16, 16, 16, 16, // 0x40
    16, 16, 16, 16, 16, 16, 16, 16, 16, 16, 16, 16, 16, 16, 16, 16, // 0x50
    16, 10, 11, 12, 13, 14, 15, 16, 16, 16, 16, 16, 16, 16, 16, 16, // 0x60
    16, 16, 16, 16, 16, 16, 16, 16, 16, 16, 16, 16, 16, 16, 16, 16, // 0x70
    16, 16, 16, 16, 16, 16, 16, 16, 16, 16, 16, 16, 16, 16, 16, 16, // 0x80
    16, 16, 16, 16, 16, 16, 16, 16, 16, 16, 16, 16, 16, 16, 16, 16, // 0x90
    16, 16, 16, 16, 16, 16, 16, 16, 16, 16, 16, 16, 16, 16, 16, 16, // 0xa0
    16, 16, 16, 16, 16, 16, 16, 16, 16, 16, 16, 16, 16, 16, 16, 16, // 0xb0
    16, 16, 16, 16, 16, 16, 16, 16, 16, 16, 16, 16, 16, 16, 16, 16, // 0xc0
    16, 16, 16, 16, 16, 16, 16, 16, 16, 16, 16, 16, 16, 16, 16, 16, // 0xd0
    16, 16, 16, 16, 16, 16, 16, 16, 16, 16, 16, 16, 16, 16, 16, 16, // 0xe0
    16, 16, 16, 16, 16, 16, 16, 16, 16, 16, 16, 16, 16, 16, 16, 16, // 0xf0
];

/// Returns the value of a hexadecimal digit. O(1).
fn digit_value(byte: u8) -> Option<u32>
    ensures { SomeIff result (digit_value byte < 16) (digit_value byte) }
{
    let value = DIGIT_VALUES[byte as usize];
    if value < 16 {
        Some(u32::from(value))
    } else {
        None
    }
}

/// Returns the number that at most eight hexadecimal digits write; `None` if one is not a digit.
fn hexadecimal(digits: &[u8]) -> Option<u32>
    requires { length digits.now ≤ 8 }
    ensures { result
        ≡ (if list_all words.is_hexadecimal_digit digits.now then Some
        (words.hexadecimal digits.now) else None) }
{
    let mut number = 0;
    for digit in digits {
        let value = digit_value(*digit)?;
        number = number * 16 + value;
    }
    Some(number)
}
