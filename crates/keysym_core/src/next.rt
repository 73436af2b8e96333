//! The least keysym whose character does not depend on a header.
ghost use Rattle.std.specs.Prelude.{◌≡◌, ◌⊎◌, Some};
ghost use Rattle.keysym_core.specs.Names.{keysym_of_character};
ghost use Rattle.keysym_core.specs.GivenCharacters.{keypad_keysym};
ghost use Rattle.keysym_core.specs.Next.{IsLeastFrom, lesser};

use crate::form::keysym_of_character;
use crate::keysym::Keysym;

/// Returns the least keysym not below `low` that has this character without a header. O(1).
pub(crate) fn next_fixed(character: u32, low: u32) -> Option<Keysym>
    ensures { IsLeastFrom low
        (λ k. (keysym_of_character character ≡ Some k) ⊎
        (keypad_keysym character ≡ Some k)) result }
{
    let own = from_low(keysym_of_character(character), low);
    let keypad = from_low(keypad_keysym(character), low);
    lesser(own, keypad)
}

/// Returns the keypad digit of a character.
fn keypad_keysym(character: u32) -> Option<Keysym>
    ensures { result ≡ keypad_keysym character }
{
    match character {
        0x30..=0x39 => Keysym::new(character - 0x30 + 0xffb0),
        _ => None,
    }
}

/// Returns the keysym, unless it is below `low`.
fn from_low(keysym: Option<Keysym>, low: u32) -> Option<Keysym>
    ensures { IsLeastFrom low (λ k. keysym ≡ Some k) result }
{
    let found = keysym?;
    if found.value() < low {
        return None;
    }
    Some(found)
}

/// Returns the lesser of two keysyms, either of which may be missing.
pub(crate) fn lesser(one: Option<Keysym>, other: Option<Keysym>) -> Option<Keysym>
    ensures { result ≡ lesser one other }
{
    match (one, other) {
        (Some(first), Some(second)) => {
            if first.value() <= second.value() {
                Some(first)
            } else {
                Some(second)
            }
        }
        (Some(first), None) => Some(first),
        (None, second) => second,
    }
}
