//! The place of a fault in its line, as an offset in bytes.
ghost use Rattle.std.specs.Prelude.{◌≡◌, ◌≤◌, ◌+◌, min, length, option_copied};
ghost use Rattle.std.specs.Str.Lossy.{utf8_valid_len};
ghost use Rattle.compose_messages.specs.Places as places;

use crate::lines::text_or_nothing;
use arrayvec::ArrayVec;
use compose_lex::{LexFault, LineContent, lex_line_into};
use compose_read::ReadFault;
use compose_text::blank_len;

#[tactic(auto, using(std::proofs::lemmas::List::Sums::count_by_more_yes, std::proofs::lemmas::List::Sums::count_by_more_no, std::proofs::lemmas::List::take_min))]
/// Returns the column of this offset: one more than the number of characters before it. O(bytes of
/// the line).
pub(crate) fn column_at(line: &[u8], offset: usize) -> usize
    ensures { result ≡ places.column_at line.now offset }
{
    let mut column = 1;
    for byte in &line[..offset.min(line.len())] {
        if begins_character(*byte) {
            column += 1;
        }
    }
    column
}

/// Whether the byte is the first of a UTF-8 character.
pub(crate) fn begins_character(byte: u8) -> bool
    ensures { result ≡ places.begins_character byte }
{
    !matches!(byte, 0x80..=0xbf)
}

/// Returns the offset of a fault in its line, but at most that of the line's end. O(bytes of the
/// line).
pub(crate) fn offset_of(line: &[u8], fault: &ReadFault) -> usize
    ensures { result ≡ min (places.offset_of line.now fault.now) (length line.now) }
{
    let offset = match fault {
        ReadFault::NotUtf8 { .. } => valid_len(line),
        ReadFault::Lex { fault, .. } => lex_offset(line, fault),
        ReadFault::UnknownKeysym { index, .. } | ReadFault::IgnoredKeysym { index, .. } => {
            keysym_offset(line, *index)
        }
        ReadFault::MissingInclude { .. } | ReadFault::IncludeDepth { .. } => first_of(b'"', line),
        _ => 0,
    };
    offset.min(line.len())
}

/// Returns the number of bytes before the first that are not UTF-8.
fn valid_len(line: &[u8]) -> usize
    ensures { result ≡ utf8_valid_len line.now }
{
    match str::from_utf8(line) {
        Ok(_) => line.len(),
        Err(error) => error.valid_up_to(),
    }
}

/// Returns the offset of the fault of a line.
fn lex_offset(line: &[u8], fault: &LexFault) -> usize
    ensures { min result (length line.now)
        ≡ min (places.lex_offset line.now fault.now) (length line.now) }
{
    match fault {
        LexFault::BadToken { at }
        | LexFault::ModifierList { at }
        | LexFault::UnclosedString { at } => *at,
        LexFault::UnknownEscape { at } | LexFault::BadCode { at } => {
            first_of(b'"', line).saturating_add(1).saturating_add(*at)
        }
        LexFault::NoResult => first_of(b':', line),
        LexFault::TooManyKeysyms => nth_of(b'<', 32, line),
        _ => first_of(b'"', line),
    }
}

/// Returns the offset of the event with this index, or of the result keysym.
fn keysym_offset(line: &[u8], index: usize) -> usize
    ensures { min result (length line.now)
        ≡ min (places.keysym_offset line.now index) (length line.now) }
{
    let mut events = ArrayVec::new();
    match lex_line_into(text_or_nothing(line), &mut events) {
        Ok(LineContent::Production { .. }) if index < events.len() => nth_of(b'<', index, line),
        Ok(LineContent::Production { raw_text, .. }) => result_offset(line, raw_text),
        _ => 0,
    }
}

/// Returns the offset of the name of the result keysym.
fn result_offset(line: &[u8], raw_text: Option<&str>) -> usize
    ensures { min result (length line.now)
        ≡ min (places.result_offset line.now (option_copied raw_text.entry)) (length line.now) }
{
    let end = text_end(line, raw_text);
    if end >= line.len() {
        return line.len();
    }
    end.saturating_add(blank_len(&line[end..]))
}

/// Returns the offset of the end of the string, or of the colon if there is no string.
fn text_end(line: &[u8], raw_text: Option<&str>) -> usize
    ensures { min result (length line.now)
        ≡ min (places.text_end line.now (option_copied raw_text.entry)) (length line.now) }
{
    match raw_text {
        Some(raw) => first_of(b'"', line)
            .saturating_add(2)
            .saturating_add(raw.len()),
        None => first_of(b':', line).saturating_add(1),
    }
}

/// Returns the offset of the first such byte, or of the end if there is none.
pub(crate) fn first_of(byte: u8, line: &[u8]) -> usize
    ensures { result ≡ places.first_of byte line.now }
{
    nth_of(byte, 0, line)
}

/// Returns the offset of the byte that follows `count` others of its kind, or of the end if there
/// is none.
fn nth_of(byte: u8, count: usize, line: &[u8]) -> usize
    ensures { result ≡ places.nth_of byte count line.now }
{
    let mut left = count;
    for (at, other) in line.iter().enumerate() {
        if *other == byte {
            if left == 0 {
                return at;
            }
            left -= 1;
        }
    }
    line.len()
}
