//! Findings in a text alone.
ghost use Rattle.std.specs.Prelude.{◌≡◌, IfOk, bytes_eq, encode_utf8, option_copied, string_bytes};
ghost use Rattle.std.specs.Option.{option_and_then};
ghost use Rattle.keysym_core.specs.Names.{value, character_of};
ghost use Rattle.compose_lint.specs.Texts as words;

use crate::definition::LineDefinition;
use crate::production::Written;
use keysym_core::Names;
use std::alloc::{AllocError, Global};
use unicode_normalization::char::canonical_combining_class;
use unicode_normalization::{is_nfc, to_nfc};

/// Returns whether the text has one combining mark twice in a row. O(characters).
pub(crate) fn repeats_mark(text: &str) -> bool
    ensures { result ≡ words.repeats_mark text.now }
{
    text.chars()
        .zip(text.chars().skip(1))
        .any(|pair| pair.0 == pair.1 && is_mark(pair.0))
}

/// Returns whether the character combines with the one before it.
fn is_mark(character: char) -> bool
    ensures { result ≡ words.is_mark character }
{
    canonical_combining_class(character) != 0
}

/// Returns whether the text is in normal form C. O(characters).
pub(crate) fn is_normal(alloc: Global, text: &str) -> Result<bool, AllocError>
    ensures { IfOk result (λ is. is ≡ words.is_normal text.now) }
{
    is_nfc(alloc, text)
}

/// Returns the text in normal form C. O(characters).
pub(crate) fn normal_form(alloc: Global, text: &str) -> Result<String, AllocError>
    ensures { IfOk result (λ form. string_bytes form ≡ words.normal_form text.now) }
{
    to_nfc(alloc, text)
}

/// Returns whether the line has a string, and after it the name of a keysym with another character.
pub(crate) fn has_other_character(
    names: &Names,
    written: &Written<'_>,
    definition: &LineDefinition<'_>,
) -> bool
    ensures { result ≡ words.has_other_character names.now written.now definition.now }
{
    if written.raw_text().is_none() {
        return false;
    }
    match named_character(names, written.result_name()) {
        Some(character) => !is_text_of(character, definition.text()),
        None => false,
    }
}

/// Returns the character of the keysym with this name, if both exist.
fn named_character(names: &Names, name: Option<&str>) -> Option<char>
    ensures { result
        ≡ option_and_then
        (λ name. option_and_then (character_of names.now) (value names.now name))
        (option_copied name.entry) }
{
    names.text_of(names.lookup(name?)?)
}

/// Returns whether the text is this character alone.
fn is_text_of(character: char, text: &str) -> bool
    ensures { result ≡ bytes_eq (encode_utf8 character) text.now }
{
    let mut room = [0; 4];
    character.encode_utf8(&mut room) == text
}
