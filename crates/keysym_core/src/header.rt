//! The definitions in the lines of a header.
ghost use Rattle.std.specs.Prelude.{◌≡◌, ◌<◌, ◌≤◌, length, option_copied, position, not, ◌==◌, IfSome};
ghost use Rattle.compose_text.specs.Numbers.{is_hexadecimal_digit};
ghost use Rattle.keysym_core.specs.Header as words;
ghost use Rattle.compose_text.specs.Bytes.{is_blank, is_name_byte};
ghost use Rattle.keysym_core.specs.Header.{run_length};

use compose_text::hexadecimal_number;
use std::marker::Model;
use std::str;

/// The definition in a line: a name with its value, and the character in the comment after it.
#[derive(Drop)]
pub(crate) struct HeaderEntry<'a> {
    pub name: &'a str,
    pub value: u32,
    pub character: Option<char>,
}

impl<'a> Model for HeaderEntry<'a> {
    ghost use Rattle.keysym_core.specs.Header as words;

    ghost Value = { words.HeaderEntry };

    ghost view = { λ e. record { name = e.name.now; value = e.value; character = e.character } };
}

/// Returns the definition that follows `#define XK_`; `None` if it is not a definition. O(n) in the
/// bytes.
pub(crate) fn entry_of(bytes: &[u8]) -> Option<HeaderEntry<'_>>
    ensures { result ≡ words.entry_of bytes.now }
{
    let name_length = name_length(bytes);
    let (name, others) = bytes.split_at(name_length);
    let blank_length = blank_length(others);
    if name_length == 0 || blank_length == 0 {
        return None;
    }
    valued_entry(str::from_utf8(name).unwrap(), &others[blank_length..])
}

/// Returns the entry of this name with its value, and the character in the comment after it.
fn valued_entry<'a>(name: &'a str, number: &[u8]) -> Option<HeaderEntry<'a>>
    ensures { result ≡ words.valued_entry name.now number.now }
{
    let digits_on = number.strip_prefix(b"0x")?;
    let (digits, rest) = digits_on.split_at(digit_length(digits_on));
    let value = hexadecimal_number(1, 8, digits)?;
    let text = comment_text(&rest[blank_length(rest)..])?;
    Some(HeaderEntry {
        name,
        value,
        character: noted_character(text),
    })
}

/// Returns the text of the comment at the end of a line, which is empty without a comment; `None`
/// if something else is there.
fn comment_text(rest: &[u8]) -> Option<&[u8]>
    ensures { option_copied result ≡ words.comment_text rest.now }
{
    if rest.is_empty() {
        return Some(rest);
    }
    rest.strip_prefix(b"/*")
}

/// Returns the character at the beginning of a comment, as in ` U+03B1 GREEK SMALL LETTER ALPHA `.
fn noted_character(text: &[u8]) -> Option<char>
    ensures { result ≡ words.noted_character text.now }
{
    let text = &text[blank_length(text)..];
    numbered_character(text.strip_prefix(b"(").unwrap_or(text))
}

/// Returns the character of four to six digits after `U+`.
fn numbered_character(bytes: &[u8]) -> Option<char>
    ensures { result ≡ words.numbered_character bytes.now }
{
    let digits_on = bytes.strip_prefix(b"U+")?;
    let digits = &digits_on[..digit_length(digits_on)];
    graphic_character(hexadecimal_number(4, 6, digits)?)
}

/// Returns the character with this number; `None` for control characters, surrogates and numbers
/// above 10FFFF.
fn graphic_character(number: u32) -> Option<char>
    ensures { result ≡ words.graphic_character number }
{
    match number {
        0..=0x1f | 0x7f..=0x9f => None,
        _ => char::from_u32(number),
    }
}

/// Returns the number of leading bytes of a name.
fn name_length(bytes: &[u8]) -> usize
    ensures same { result ≡ run_length is_name_byte bytes.now }
    ensures within { result ≤ length bytes.now }
{
    name_end(bytes).unwrap_or(bytes.len())
}

/// Returns the index of the first byte that is not of a name.
fn name_end(bytes: &[u8]) -> Option<usize>
    ensures same { result ≡ position (λ b. not (is_name_byte b)) bytes.now }
    ensures within { IfSome result (λ end. end < length bytes.now) }
{
    bytes.iter().position(|byte| !is_name_byte(*byte))
}

/// Returns the number of leading blanks.
fn blank_length(bytes: &[u8]) -> usize
    ensures same { result ≡ run_length is_blank bytes.now }
    ensures within { result ≤ length bytes.now }
{
    blank_end(bytes).unwrap_or(bytes.len())
}

/// Returns the index of the first byte that is not a blank.
fn blank_end(bytes: &[u8]) -> Option<usize>
    ensures same { result ≡ position (λ b. not (is_blank b)) bytes.now }
    ensures within { IfSome result (λ end. end < length bytes.now) }
{
    bytes.iter().position(|byte| !is_blank(*byte))
}

/// Returns the number of leading hexadecimal digits.
fn digit_length(bytes: &[u8]) -> usize
    ensures same { result ≡ run_length is_hexadecimal_digit bytes.now }
    ensures within { result ≤ length bytes.now }
{
    digit_end(bytes).unwrap_or(bytes.len())
}

/// Returns the index of the first byte that is not a hexadecimal digit.
fn digit_end(bytes: &[u8]) -> Option<usize>
    ensures same { result ≡ position (λ b. not (is_hexadecimal_digit b)) bytes.now }
    ensures within { IfSome result (λ end. end < length bytes.now) }
{
    bytes.iter().position(|byte| !is_hexadecimal_digit(*byte))
}

fn is_name_byte(byte: u8) -> bool
    ensures { result ≡ is_name_byte byte }
{
    matches!(byte, b'a'..=b'z' | b'A'..=b'Z' | b'0'..=b'9' | b'_')
}

fn is_blank(byte: u8) -> bool
    ensures { result ≡ is_blank byte }
{
    matches!(byte, b' ' | b'\t' | b'\r')
}

fn is_hexadecimal_digit(byte: u8) -> bool
    ensures { result ≡ is_hexadecimal_digit byte }
{
    byte.is_ascii_hexdigit()
}
