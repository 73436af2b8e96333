//! The characters of keysyms.
ghost use Rattle.std.specs.Prelude.{◌≡◌, ◌≢◌, ◌≤◌, ◌<◌, length, map, take, unwrap_or};
ghost use Rattle.compose_c.specs.Characters as words;
ghost use Rattle.compose_c.specs.Characters.{AreCharacters, ReportsNames};

use crate::fault::{FaultRecord, of_names};
use keysym_core::{Keysym, Names};
use std::alloc::Global;

/// Does the work of `composecheck_characters`.
pub fn characters(
    alloc: Global,
    header: &[u8],
    keysyms: &[u32],
    target: &mut [u32],
    fault: &mut FaultRecord,
) -> u32
    ensures done { result ≡ 0 → AreCharacters header.now keysyms.now
        (take (length keysyms.now) target.new) }
    ensures refused { result ≡ 1 → ReportsNames header.now fault.new }
    ensures wide { result ≡ 2 → length target.old < length keysyms.now }
    ensures few { result ≤ 2 }
    ensures untouched { result ≢ 0 → target.new ≡ target.old }
    ensures same_fault { result ≢ 1 → fault.new ≡ fault.old }
{
    if target.len() < keysyms.len() {
        return 2;
    }
    match Names::read(alloc, header) {
        Ok(names) => {
            put_characters(&names, keysyms, target);
            0
        }
        Err(refused) => {
            *fault = of_names(&refused);
            1
        }
    }
}

/// Puts the characters of the keysyms at the front of the target. O(keysyms).
fn put_characters(names: &Names, keysyms: &[u32], target: &mut [u32])
    requires { length keysyms.now ≤ length target.old }
    ensures { take (length keysyms.now) target.new
        ≡ map (words.character_number names.now) keysyms.now }
{
    for index in 0..keysyms.len() {
        target[index] = character_number(names, keysyms[index]);
    }
}

/// Returns the code point of the character of the keysym with this number; 0 if it has none, or if
/// the number is not a keysym.
fn character_number(names: &Names, number: u32) -> u32
    ensures { result ≡ words.character_number names.now number }
{
    match Keysym::new(number) {
        Some(keysym) => number_of(names.text_of(keysym)),
        None => 0,
    }
}

/// Returns the code point of the character, or 0 for none.
fn number_of(character: Option<char>) -> u32
    ensures { result ≡ unwrap_or character 0 }
{
    match character {
        Some(character) => u32::from(character),
        None => 0,
    }
}
