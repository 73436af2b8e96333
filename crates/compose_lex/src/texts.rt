//! The text that a string's raw text stands for.
ghost use Rattle.std.specs.Prelude.{◌≡◌, ◌==◌, ◌≤◌, ◌<◌, ◌++◌, ℕ, List, length, not, true, false, Ok, Err, IfOk, OnOk, string_bytes};
ghost use Rattle.std.specs.List.{list_any};
ghost use Rattle.std.specs.Str.{IsUtf8};
ghost use Rattle.compose_lex.specs.Escape as escapes;
ghost use Rattle.compose_lex.specs.Lexed.{Is, Returns, PushReturns};
ghost use Rattle.compose_lex.specs.Steps.{len_check, IsDecoded};

use crate::escapes::decode;
use crate::{LexFault, law_one_text};
use std::alloc::Global;

/// Checks that a text has 1 to 255 bytes.
fn check_len(len: usize) -> Result<(), LexFault>
    ensures exact { Is (λ _. tt) result (len_check len) }
    ensures fits { OnOk result (len ≤ 255) }
{
    match len {
        0 => Err(LexFault::EmptyText),
        1..=255 => Ok(()),
        _ => Err(LexFault::TextTooLong),
    }
}

/// Returns whether a raw text has a backslash.
fn has_escapes(raw: &str) -> bool
    ensures { result ≡ list_any (λ b. b == 92) raw.now }
{
    raw.as_bytes().contains(&b'\\')
}

/// Returns the text that a raw text was decoded to, of `len` bytes, given its first 255 bytes.
fn decoded_text(kept: &[u8], len: usize) -> Result<&str, LexFault>
    ensures exact { (bytes : List ℕ) → IsDecoded kept.now len bytes
        → Is (λ text. text.now) result (escapes.text_or (Ok bytes)) }
    ensures kept { IfOk result (λ text. text.now ≡ kept.now) }
{
    check_len(len)?;
    match str::from_utf8(kept) {
        Ok(text) => Ok(text),
        Err(_) => Err(LexFault::TextNotUtf8),
    }
}

/// Returns the text that a raw text stands for. Takes memory once, for the text. O(bytes).
///
/// Errors: the fault of the raw text: its leftmost bad escape, or a text that is empty, longer than
/// 255 bytes or not UTF-8; `NoMemory` if memory runs out.
pub fn unescape(alloc: Global, raw: &str) -> Result<String, LexFault>
    ensures exact { Returns string_bytes result (escapes.text_of raw.now) }
    ensures found { IfOk result
        (λ text. escapes.Unescapes raw.now (string_bytes text)
        × escapes.IsText (string_bytes text)) }
{
    let mut text = String::new(alloc);
    push_text(&mut text, raw)?;
    Ok(text)
}

/// Appends a raw text without a backslash.
fn push_plain(text: &mut String, raw: &str) -> Result<(), LexFault>
    ensures { PushReturns (string_bytes text.old) (string_bytes text.new) result
        (escapes.text_or (Ok raw.now)) }
{
    check_len(raw.len())?;
    text.push_str(raw)?;
    Ok(())
}

/// Appends the text of a raw text with escapes.
fn push_unescaped(text: &mut String, raw: &str) -> Result<(), LexFault>
    ensures { PushReturns (string_bytes text.old) (string_bytes text.new) result
        (escapes.text_of raw.now) }
{
    let (bytes, len) = decode(raw.as_bytes())?;
    text.push_str(decoded_text(bytes.as_slice(), len)?)?;
    Ok(())
}

/// Appends the text that a raw text stands for to another text, which an error leaves as it was. A
/// raw text without a backslash is appended as it is. Takes memory only to grow the text. O(bytes).
///
/// Errors: the fault of the raw text, as for `unescape`; `NoMemory` if memory runs out.
pub fn push_text(text: &mut String, raw: &str) -> Result<(), LexFault>
    ensures exact { PushReturns (string_bytes text.old) (string_bytes text.new) result
        (escapes.text_of raw.now) }
    ensures found { OnOk result
        ((bytes : List ℕ) × (string_bytes text.new ≡ string_bytes text.old ++ bytes)
        × escapes.Unescapes raw.now bytes × escapes.IsText bytes) }
{
    law_one_text();
    if has_escapes(raw) {
        push_unescaped(text, raw)
    } else {
        push_plain(text, raw)
    }
}
