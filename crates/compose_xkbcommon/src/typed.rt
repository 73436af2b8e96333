//! The text of a string, by the escapes of libxkbcommon.
ghost use Rattle.std.specs.Prelude.{◌≡◌, ◌≤◌, ◌==◌, ◌++◌, if◌then◌else◌, length, take, Some, None, IfOk, OnOk, option_map, option_to_list, nat_lt, string_bytes};
ghost use Rattle.std.specs.Char.{digit_value};
ghost use Rattle.std.specs.List.{list_any};
ghost use Rattle.std.specs.Str.Parse.{digits_value};
ghost use Rattle.compose_text.specs.Bytes.{leading};
ghost use Rattle.compose_lex.specs.Escape as escapes;
ghost use Rattle.compose_xkbcommon.specs.Text as words;

use std::alloc::{AllocError, Global};

/// Returns the number that the leading digits write, and the number of these digits.
fn code_of(radix: u32, bytes: &[u8]) -> (u32, usize)
    requires low { 2 ≤ radix }
    requires high { radix ≤ 16 }
    requires few { length bytes.now ≤ 3 }
    ensures value { result.0
        ≡ digits_value radix (leading (λ d. nat_lt (digit_value d) radix) bytes.now) }
    ensures len { result.1 ≡ length (leading (λ d. nat_lt (digit_value d) radix) bytes.now) }
{
    let mut value = 0;
    for (len, byte) in bytes.iter().enumerate() {
        let Some(digit) = char::from(*byte).to_digit(radix) else {
            return (value, len);
        };
        value = value * radix + digit;
    }
    (value, bytes.len())
}

/// Like `code_of`, but reads at most `most` bytes.
fn code_at(radix: u32, most: usize, rest: &[u8]) -> (u32, usize)
    requires low { 2 ≤ radix }
    requires high { radix ≤ 16 }
    requires few { most ≤ 3 }
    ensures value { result.0
        ≡ digits_value radix (leading (λ d. nat_lt (digit_value d) radix) (take most rest.now)) }
    ensures len { result.1
        ≡ length (leading (λ d. nat_lt (digit_value d) radix) (take most rest.now)) }
{
    if rest.len() < most {
        return code_of(radix, rest);
    }
    code_of(radix, &rest[..most])
}

/// Returns the byte with this code; `None` for 0 and above 255.
fn byte_of(code: u32) -> Option<u8>
    ensures { result ≡ escapes.byte_of code }
{
    if code == 0 || code > 255 {
        return None;
    }
    Some(code as u8)
}

/// Decodes an escape, given what follows its backslash: returns the byte that it stands for, if
/// there is one, and the number of bytes that the escape takes after the backslash.
fn escape_at(rest: &[u8]) -> (Option<u8>, usize)
    ensures byte { option_to_list result.0 ≡ words.escape_bytes rest.now }
    ensures len { result.1 ≡ words.escape_len rest.now }
{
    let Some((first, digits)) = rest.split_first() else {
        return (None, 0);
    };
    match *first {
        b'\\' | b'"' => (Some(*first), 1),
        b'x' | b'X' => {
            let (code, len) = code_at(16, 2, digits);
            (byte_of(code), 1 + len)
        }
        _ => {
            let (code, len) = code_at(8, 3, rest);
            (byte_of(code), len)
        }
    }
}

/// Decodes a byte of a raw text, or the escape that begins there: returns the byte that it stands
/// for, if there is one, and the number of bytes that it takes after the first.
fn piece_at(first: u8, behind: &[u8]) -> (Option<u8>, usize)
    ensures byte { option_to_list result.0
        ≡ (if first == 92 then words.escape_bytes behind.now else option_to_list (Some first)) }
    ensures len { result.1 ≡ (if first == 92 then words.escape_len behind.now else 0) }
{
    if first == b'\\' {
        return escape_at(behind);
    }
    (Some(first), 0)
}

/// Appends the byte, if there is one.
fn push_if(bytes: &mut Vec<u8>, byte: Option<u8>) -> Result<(), AllocError>
    ensures { OnOk result (bytes.new.items ≡ bytes.old.items ++ option_to_list byte) }
{
    if let Some(byte) = byte {
        bytes.push(byte)?;
    }
    Ok(())
}

/// Returns the bytes that a raw text stands for. O(bytes).
fn typed(alloc: Global, raw: &[u8]) -> Result<Vec<u8>, AllocError>
    ensures { IfOk result (λ bytes. bytes.items ≡ words.typed raw.now) }
{
    let mut bytes = Vec::new(alloc);
    let mut at = 0;
    while let Some((first, behind)) = raw[at..].split_first() {
        let (byte, taken) = piece_at(*first, behind);
        push_if(&mut bytes, byte)?;
        at += 1 + taken;
    }
    Ok(bytes)
}

/// Returns whether one of these bytes is 0.
fn has_zero(bytes: &[u8]) -> bool
    ensures { result ≡ list_any (λ b. b == 0) bytes.now }
{
    bytes.contains(&0)
}

/// Returns the text that a raw text stands for; `None` if it is longer than 255 bytes, has a byte
/// 0, or is not UTF-8. O(bytes).
pub fn typed_text(alloc: Global, raw: &[u8]) -> Result<Option<String>, AllocError>
    ensures { IfOk result
        (λ text. option_map string_bytes text
        ≡ (if words.is_typed (words.typed raw.now) then Some (words.typed raw.now) else None)) }
{
    let bytes = typed(alloc, raw)?;
    if bytes.len() > 255 || has_zero(&bytes) {
        return Ok(None);
    }
    match String::from_utf8(bytes) {
        Ok(text) => Ok(Some(text)),
        Err(_) => Ok(None),
    }
}
