//! The names that write a keysym by its number: `U00E9` and `0xe9`.
ghost use Rattle.std.specs.Prelude.{◌≡◌, ◌∷◌, Some, IfOk, string_bytes, true};
ghost use Rattle.keysym_core.specs.Names as words;
ghost use Rattle.std.specs.Fmt.{digits};
ghost use Rattle.keysym_core.specs.Printed.{form_of, at_least_four};

use crate::keysym::Keysym;
use compose_text::hexadecimal_number;
use std::alloc::{AllocError, Global};

/// Returns the keysym that a name writes in one of the two forms. O(1): no form is longer than ten
/// bytes. It is inlined except for the digits, so a name in neither form costs only one or two
/// tests of its first bytes.
#[inline(always)]
pub(crate) fn form_value(name: &[u8]) -> Option<Keysym>
    ensures { result ≡ words.form_value name.now }
{
    match character_form(name) {
        Some(keysym) => Some(keysym),
        None => number_form(name),
    }
}

/// Returns the keysym that a name writes as the letter `U` and four to six digits.
#[inline(always)]
fn character_form(name: &[u8]) -> Option<Keysym>
    ensures { result ≡ words.character_form name.now }
{
    let (first, digits) = name.split_first()?;
    if *first != b'U' {
        return None;
    }
    let character = hexadecimal_number(4, 6, digits)?;
    keysym_of_character(character)
}

/// Returns the keysym that a name writes as `0x` and one to eight digits.
#[inline(always)]
fn number_form(name: &[u8]) -> Option<Keysym>
    ensures { result ≡ words.number_form name.now }
{
    let (first, others) = name.split_first()?;
    let (second, digits) = others.split_first()?;
    if *first != b'0' || *second != b'x' {
        return None;
    }
    let number = hexadecimal_number(1, 8, digits)?;
    Keysym::new(number)
}

/// Returns the keysym of a character: its own number in Latin-1, else `0x01000000` added; `None`
/// for control characters, surrogates and numbers above 10FFFF.
pub(crate) fn keysym_of_character(character: u32) -> Option<Keysym>
    ensures { result ≡ words.keysym_of_character character }
{
    match character {
        0..=0x1f | 0x7f..=0x9f | 0xd800..=0xdfff => None,
        0x20..=0xff => Keysym::new(character),
        0x100..=0x10_ffff => Keysym::new(character + 0x0100_0000),
        _ => None,
    }
}

/// Returns the form that writes this keysym: `U` and the number of its character, or `0x` and its
/// own number. O(1).
///
/// Errors: `AllocError` if memory runs out.
pub(crate) fn form_of(alloc: Global, keysym: Keysym) -> Result<String, AllocError>
    ensures same { IfOk result (λ text. string_bytes text ≡ form_of keysym) }
    ensures found { IfOk result (λ text. words.form_value (string_bytes text) ≡ Some keysym) }
{
    let number = keysym.value();
    match number {
        0x0100_0100..=0x0100_d7ff | 0x0100_e000..=0x0110_ffff => {
            character_text(alloc, number - 0x0100_0000)
        }
        _ => format!(in alloc; "0x{number:x}"),
    }
}

/// Returns the letter `U` and at least four upper case digits.
fn character_text(alloc: Global, character: u32) -> Result<String, AllocError>
    ensures { IfOk result
        (λ text. string_bytes text ≡ 85 ∷ at_least_four (digits 16 true character)) }
{
    format!(in alloc; "U{character:04X}")
}
