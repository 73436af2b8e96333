//! What a line has at a fault: a name, or a token in place of the expected one.
ghost use Rattle.std.specs.Prelude.{◌≡◌, ◌≤◌, ◌<◌, ◌==◌, None, IfSome, length};
ghost use Rattle.std.specs.List.{list_any, position};
ghost use Rattle.std.specs.Option.{unwrap_or};
ghost use Rattle.compose_text.specs.Bytes.{begins, is_blank, is_name_byte};
ghost use Rattle.compose_messages.specs.Places.{begins_character};
ghost use Rattle.compose_messages.specs.Tokens as tokens;

use crate::lines::text_or_nothing;
use crate::offsets::begins_character;
use arrayvec::ArrayVec;
use compose_lex::{LineContent, lex_line_into};
use compose_text::{blank_len, name_len};

/// Returns the name of the event with this index, or of the result keysym; for an include, the raw
/// text.
pub(crate) fn named(line: &[u8], index: usize) -> &str
    ensures { result.now ≡ tokens.named line.now index }
{
    let mut events = ArrayVec::new();
    match lex_line_into(text_or_nothing(line), &mut events) {
        Ok(LineContent::Include(raw)) => raw,
        Ok(LineContent::Production { result_name, .. }) => {
            if index < events.len() {
                events[index]
            } else {
                result_name.unwrap_or("")
            }
        }
        _ => "",
    }
}

/// Returns the words for what may follow these bytes of a line.
pub(crate) fn expected_after(before: &[u8]) -> &'static str
    ensures { result.now ≡ tokens.expected_after before.now }
{
    match last_solid(before) {
        None => "\"<\" or the word include",
        Some(b'<') => "the name of a keysym",
        Some(b'>') => "\":\" or \"<\"",
        Some(b':') => "a string or the name of a keysym",
        Some(b'"') => expected_after_string(before),
        Some(_) => expected_after_name(before),
    }
}

/// Returns the words for what may follow a string.
fn expected_after_string(before: &[u8]) -> &'static str
    ensures { result.now ≡ tokens.expected_after_string before.now }
{
    if begins_production(before) {
        "the name of a keysym or the end of the line"
    } else {
        "the end of the line"
    }
}

/// Whether a line that begins with these bytes is a production.
fn begins_production(before: &[u8]) -> bool
    ensures { result ≡ tokens.begins_production before.now }
{
    before[blank_len(before)..].starts_with(b"<")
}

/// Whether a list of modifiers begins with this word in Compose(5).
pub(crate) fn is_modifier(word: &str) -> bool
    ensures { result ≡ tokens.is_modifier word.now }
{
    word == "!"
        || word == "~"
        || word == "None"
        || word == "Ctrl"
        || word == "Lock"
        || word == "Caps"
        || word == "Shift"
        || word == "Alt"
        || word == "Meta"
}

/// Returns the words for what may follow a name or the word `include`.
fn expected_after_name(before: &[u8]) -> &'static str
    ensures { result.now ≡ tokens.expected_after_name before.now }
{
    if contains(before, b':') {
        "the end of the line"
    } else if contains(before, b'<') {
        "\">\""
    } else {
        "a string"
    }
}

/// Whether the byte is one of these.
pub(crate) fn contains(bytes: &[u8], byte: u8) -> bool
    ensures { result ≡ list_any (λ b. b == byte) bytes.now }
{
    bytes.iter().any(|other| *other == byte)
}

/// Returns the last byte that is not a blank.
pub(crate) fn last_solid(bytes: &[u8]) -> Option<u8>
    ensures { result ≡ tokens.last_solid None bytes.now }
{
    let mut last = None;
    for byte in bytes {
        if !is_blank(*byte) {
            last = Some(*byte);
        }
    }
    last
}

/// Whether the byte is a blank.
pub(crate) fn is_blank(byte: u8) -> bool
    ensures { result ≡ is_blank byte }
{
    byte == b' ' || byte == b'\t' || byte == b'\r'
}

/// Returns the token at this offset, if it is UTF-8; nothing at the end.
pub(crate) fn found_at(line: &[u8], at: usize) -> &str
    ensures { result.now ≡ tokens.found_at line.now at }
{
    if at >= line.len() {
        return "";
    }
    text_or_nothing(first_token(&line[at..]))
}

/// Returns the name at the start, or otherwise the first character.
fn first_token(rest: &[u8]) -> &[u8]
    ensures { result.now ≡ tokens.first_token rest.now }
{
    let Some((_, others)) = rest.split_first() else {
        return rest;
    };
    if begins_name(rest) {
        &rest[..name_len(rest)]
    } else {
        &rest[..1 + character_rest(others)]
    }
}

/// Whether the line's rest begins with a name.
fn begins_name(rest: &[u8]) -> bool
    ensures { result ≡ begins is_name_byte rest.now }
{
    match rest.first() {
        Some(byte) => byte.is_ascii_alphanumeric() || *byte == b'_',
        None => false,
    }
}

/// Returns the number of bytes before the first that begins a character.
fn character_rest(bytes: &[u8]) -> usize
    ensures value { result ≡ unwrap_or (position begins_character bytes.now) (length bytes.now) }
    ensures within { result ≤ length bytes.now }
{
    next_character(bytes).unwrap_or(bytes.len())
}

/// Returns the index of the first byte that begins a character.
fn next_character(bytes: &[u8]) -> Option<usize>
    ensures value { result ≡ position begins_character bytes.now }
    ensures within { IfSome result (λ at. at < length bytes.now) }
{
    bytes.iter().position(|byte| begins_character(*byte))
}
