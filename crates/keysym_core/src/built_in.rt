//! The built-in names: what reading their header gives, as data.
ghost use Rattle.std.specs.Prelude.{◌≡◌, ◌≤◌, ◌<◌, ◌+◌, ◌-◌, ◌&&◌, not, ℕ, List, true, IfSome, Some, length, take, drop, option_copied, option_map, slice_get};
ghost use Rattle.keysym_core.specs.Names.{row_value, first_character, value, form_value};
ghost use Rattle.keysym_core.specs.Keysym.{max_keysym};
ghost use Rattle.keysym_core.specs.Next.{IsLeastFrom};
ghost use Rattle.keysym_core.specs.Printed.{first_name};
ghost use Rattle.keysym_core.specs.BuiltIn.{built_in, built_in_rows, built_in_characters};
ghost use Rattle.keysym_core.specs.Places.{index_of, name_hash};
ghost use Rattle.keysym_core.specs.declared.built_in_rows.TheConstants.{TEXT, STARTS, KEYSYMS};
ghost use Rattle.keysym_core.specs.declared.built_in_places.TheConstants.{NAME_SHIFTS, NAME_INDEXES};
ghost use Rattle.keysym_core.specs.GivenCharacters.{HasCountingRows, ArePairsOfKeysyms, gives, is_fixed, rank};
ghost use Rattle.std.specs.List.Sorted.{IsNonDecreasingBy};

use crate::built_in_characters::{BY_CHARACTER, CHARACTERS};
use crate::built_in_places::{
    CHARACTER_INDEXES, CHARACTER_SHIFTS, KEYSYM_INDEXES, KEYSYM_SHIFTS, NAME_HINTS, NAME_INDEXES,
    NAME_SHIFTS,
};
use crate::built_in_rows::{KEYSYMS, STARTS, TEXT};
use crate::character_index;
use crate::form::form_value;
use crate::hints::slot_of;
use crate::keysym::Keysym;
use crate::places::{index_of, keysym_hash, name_hash};
use crate::same::is_same;
use std::str;

/// Returns the keysym of a name, by the built-in names or by its form. O(1) for most names, else
/// O(n) in the bytes of the name.
#[inline(always)]
pub(crate) fn lookup(name: &str) -> Option<Keysym>
    ensures { result ≡ value built_in name.now }
{
    match form_value(name.as_bytes()) {
        Some(keysym) => Some(keysym),
        None => row_value(name),
    }
}

/// Returns the keysym of a built-in name. O(1) for a name that stands at its hint, as most do;
/// else O(n) in the bytes of the name.
#[inline(always)]
fn row_value(name: &str) -> Option<Keysym>
    ensures { result ≡ row_value built_in_rows name.now }
{
    match value_at(hint_of(name.as_bytes()), name) {
        Some(keysym) => Some(keysym),
        None => value_by_hash(name),
    }
}

/// Returns the keysym of the built-in name with this index, if it is this name. If it is not, and
/// the hash of this name leads to this index, then no row has this name. O(1).
#[inline(always)]
fn value_at(index: usize, name: &str) -> Option<Keysym>
    ensures found { IfSome result (λ k. row_value built_in_rows name.now ≡ Some k) }
    ensures placed { index ≡ index_of NAME_SHIFTS NAME_INDEXES (name_hash name.now)
        → result ≡ row_value built_in_rows name.now }
{
    let (known, keysym) = row_at(index)?;
    if !is_same(known, name.as_bytes()) {
        return None;
    }
    Keysym::new(keysym)
}

/// Returns the keysym of a built-in name. O(n) in the bytes of the name. It is a function of its
/// own, so that a look-up by a hint is short enough to be inlined.
#[inline(never)]
fn value_by_hash(name: &str) -> Option<Keysym>
    ensures { result ≡ row_value built_in_rows name.now }
{
    let hash = name_hash(name.as_bytes());
    value_at(index_of(&NAME_SHIFTS, &NAME_INDEXES, hash), name)
}

/// Returns the index at which a name most likely stands. O(1).
#[inline(always)]
fn hint_of(name: &[u8]) -> usize {
    let slot = slot_of(name, NAME_HINTS.len() * 64);
    match NAME_HINTS.get(slot / 64) {
        Some(hints) => usize::from(hints[slot % 64]),
        None => 0,
    }
}

/// Returns the first built-in name of a keysym. The name looks up as the keysym, and so does each
/// form of the keysym. O(n) in the bytes of the name.
pub(crate) fn first_name(keysym: Keysym) -> Option<&'static str>
    ensures same { option_copied result ≡ first_name built_in_rows keysym }
    ensures found { IfSome result (λ name. value built_in name.now ≡ Some keysym) }
    ensures forms { (n : List ℕ) → form_value n ≡ Some keysym → value built_in n ≡ Some keysym }
{
    let hash = keysym_hash(keysym.value());
    let (name, known) = row_at(index_of(&KEYSYM_SHIFTS, &KEYSYM_INDEXES, hash))?;
    if known != keysym.value() {
        return None;
    }
    Some(str::from_utf8(name).unwrap())
}

/// Returns the character that the header of the built-in names assigns to a keysym. O(1).
pub(crate) fn given_character(keysym: Keysym) -> Option<char>
    ensures { result ≡ first_character built_in_characters keysym }
{
    let hash = keysym_hash(keysym.value());
    let (known, character) = CHARACTERS.get(index_of(&CHARACTER_SHIFTS, &CHARACTER_INDEXES, hash))?;
    if *known != keysym.value() {
        return None;
    }
    Some(*character)
}

/// Returns the least keysym not below `low` whose text is this character by the header of the
/// built-in names. O(log n) in their characters.
pub(crate) fn next_given(character: char, low: u32) -> Option<Keysym>
    requires { low ≤ max_keysym + 1 }
    ensures { IsLeastFrom low
        (λ k. (not (is_fixed k) && gives built_in_characters character k) ≡ true) result }
{
    character_index::next_given(by_character(), character, low)
}

/// Returns the keysym and the character of each row that is used for texts, in the order by
/// character and then by keysym. O(1).
fn by_character() -> &'static [(u32, char)]
    ensures counting { HasCountingRows result.now built_in_characters }
    ensures keysyms { ArePairsOfKeysyms result.now }
    ensures sorted { IsNonDecreasingBy rank result.now }
{
    &BY_CHARACTER
}

/// Returns the built-in name with this index, as bytes, and its keysym. O(1).
fn row_at(index: usize) -> Option<(&'static [u8], u32)>
    ensures { option_map (λ r. record { name = r.0.now; value = r.1 }) result
        ≡ slice_get built_in_rows index }
{
    let keysym = keysym_at(index)?;
    let start = start_at(index)?;
    let end = start_at(index + 1)?;
    Some((text_between(start, end), keysym))
}

/// Returns the keysym of the built-in name with this index. O(1).
fn keysym_at(index: usize) -> Option<u32>
    ensures same { result ≡ slice_get KEYSYMS index }
    ensures inside { IfSome result (λ keysym. index < length KEYSYMS) }
{
    let keysym = KEYSYMS.get(index)?;
    Some(*keysym)
}

/// Returns where the built-in name with this index starts in the text of all names. O(1).
fn start_at(index: usize) -> Option<usize>
    ensures { result ≡ slice_get STARTS index }
{
    let start = STARTS.get(index)?;
    Some(usize::from(*start))
}

/// Returns a part of the text of all names. O(1).
fn text_between(start: usize, end: usize) -> &'static [u8]
    requires order { start ≤ end }
    requires inside { end ≤ length TEXT.now }
    ensures { result.now ≡ take (end - start) (drop start TEXT.now) }
{
    &TEXT.as_bytes()[start..end]
}
