//! Properties of a definition that other readers treat differently.
ghost use Rattle.std.specs.Prelude.{◌≡◌, false};
ghost use Rattle.std.specs.Char.{is_ascii_digit};
ghost use Rattle.compose_text.specs.Bytes.{begins};
ghost use Rattle.compose_lint.specs.Readers as words;

use crate::definition::LineDefinition;
use crate::production::Written;

/// Returns whether the sequence has ten keysyms or more. O(1).
pub(crate) fn has_ten_keysyms(definition: &LineDefinition<'_>) -> bool
    ensures { result ≡ words.has_ten_keysyms definition.now }
{
    definition.sequence().len() >= 10
}

/// Returns whether the sequence has eleven keysyms or more. O(1).
pub(crate) fn has_eleven_keysyms(definition: &LineDefinition<'_>) -> bool
    ensures { result ≡ words.has_eleven_keysyms definition.now }
{
    definition.sequence().len() >= 11
}

/// Returns whether the keysym 0 is in the sequence. O(keysyms).
pub(crate) fn has_no_symbol(definition: &LineDefinition<'_>) -> bool
    ensures { result ≡ words.has_no_symbol definition.now }
{
    definition
        .sequence()
        .iter()
        .any(|keysym| keysym.value() == 0)
}

/// Returns whether the text has 255 bytes. O(1).
pub(crate) fn has_longest_text(definition: &LineDefinition<'_>) -> bool
    ensures { result ≡ words.has_longest_text definition.now }
{
    definition.text().len() >= 255
}

/// Returns whether the text has a byte 0. O(bytes).
pub(crate) fn has_nul(definition: &LineDefinition<'_>) -> bool
    ensures { result ≡ words.has_nul definition.now }
{
    definition.text().as_bytes().iter().any(|byte| *byte == 0)
}

/// Returns whether a keysym above 0xffff is in the sequence. O(keysyms).
pub(crate) fn has_wide_keysym(definition: &LineDefinition<'_>) -> bool
    ensures { result ≡ words.has_wide_keysym definition.now }
{
    definition
        .sequence()
        .iter()
        .any(|keysym| keysym.value() > 0xffff)
}

/// Returns whether the name of the result begins with a digit. O(1).
pub(crate) fn has_digit_name(written: &Written<'_>) -> bool
    ensures { result ≡ words.has_digit_name written.now }
{
    match written.result_name() {
        Some(name) => begins_with_digit(name.as_bytes()),
        None => false,
    }
}

/// Returns whether the first byte is a digit.
fn begins_with_digit(name: &[u8]) -> bool
    ensures { result ≡ begins is_ascii_digit name.now }
{
    match name.first() {
        Some(byte) => byte.is_ascii_digit(),
        None => false,
    }
}

/// Returns whether the line has no string. O(1).
pub(crate) fn has_no_string(written: &Written<'_>) -> bool
    ensures { result ≡ words.has_no_string written.now }
{
    written.raw_text().is_none()
}

/// Returns whether the string has one of the escapes `\n`, `\r` and `\t`. O(bytes).
pub(crate) fn has_letter_escape(written: &Written<'_>) -> bool
    ensures { result ≡ words.has_letter_escape written.now }
{
    match written.raw_text() {
        Some(raw) => has_letter_escape_in(raw.as_bytes()),
        None => false,
    }
}

/// Returns whether one of the letters n, r and t follows a backslash that begins an escape.
fn has_letter_escape_in(raw: &[u8]) -> bool
    ensures { result ≡ words.has_letter_escape_from false raw.now }
{
    let mut taken = false;
    for byte in raw {
        if taken && matches!(*byte, b'n' | b'r' | b't') {
            return true;
        }
        taken = !taken && *byte == b'\\';
    }
    false
}
