//! The characters that people need, and the keys that they have.
ghost use Rattle.std.specs.Prelude.{◌≡◌, ◌≢◌, ◌<◌, ◌≤◌, ◌++◌, ◌∷◌, [], length, nat_lt, Some, Ok, Err, OnOk, IfErr, IsOk, slice_get, IsTrue};
ghost use Rattle.std.specs.List.{list_any, list_all};
ghost use Rattle.compose_text.specs.Numbers.{is_between};
ghost use Rattle.compose_model.specs.Certificate as model;
ghost use Rattle.compose_model.specs.Certificate.{keys_rise};
ghost use Rattle.compose_cert.specs.Repertoire.{IsRepertoire, IsOrdered, ranges_rise, with_entry, repertoire_of};
ghost use Rattle.compose_cert.specs.CertificateReturns.{RepertoireReturns};

use crate::RepertoireFault;
use crate::entry::{LineEntry, line_entry};
use compose_text::first_line;
use keysym_core::Keysym;
use std::alloc::Global;
use std::marker::Model;

/// Characters in strictly increasing order, and keys in ranges.
#[derive(Drop)]
pub struct Repertoire {
    characters: Vec<char>,
    keys: Vec<(Keysym, Keysym)>,
}

impl Model for Repertoire {
    ghost Value = { model.Repertoire };

    ghost view = { λ r. record { characters = r.characters.items; keys = r.keys.items } };

    ghost invariant = { λ r. IsRepertoire
        (record { characters = r.characters.items; keys = r.keys.items }) };
}

impl Repertoire {
    /// Reads a repertoire. O(bytes).
    ///
    /// Errors: that of the first faulty line, `BadLine`, `NotRising` or `TooMany`; or `NoMemory`.
    pub fn read(alloc: Global, bytes: &[u8]) -> Result<Repertoire, RepertoireFault>
        ensures { RepertoireReturns result (repertoire_of bytes.now) }
    {
        let mut characters = Vec::new(alloc);
        let mut keys = Vec::new(alloc);
        let mut rest = bytes;
        let mut line = 1;
        while let Some((text, behind)) = first_line(rest) {
            let entry = line_entry(text).ok_or(RepertoireFault::BadLine { line })?;
            add_entry(&mut characters, &mut keys, entry, line)?;
            line += 1;
            rest = behind;
        }
        Ok(Repertoire { characters, keys })
    }

    /// Returns the characters, which are strictly increasing. O(1).
    pub fn characters(&self) -> &[char]
        ensures { result.now ≡ self.now.characters }
    {
        self.characters.as_slice()
    }

    /// Returns the first and the last keysym of each range of keys, in increasing order. O(1).
    pub fn ranges(&self) -> &[(Keysym, Keysym)]
        ensures { result.now ≡ self.now.keys }
    {
        self.keys.as_slice()
    }

    /// Returns the number of characters, at most 65,536; they are strictly increasing. O(1).
    pub fn count(&self) -> usize
        ensures count { result ≡ length self.now.characters }
        ensures sound { IsRepertoire self.now }
    {
        self.characters.len()
    }

    /// Returns the character at this index, counted from 0. O(1).
    pub fn char_at(&self, index: usize) -> char
        requires { index < length self.now.characters }
        ensures { slice_get self.now.characters index ≡ Some result }
    {
        self.characters[index]
    }

    /// Returns whether the keysym is one of the keys. O(log ranges).
    pub fn is_key(&self, keysym: Keysym) -> bool
        ensures { result ≡ model.is_key self.now keysym }
    {
        is_in_ranges(&self.keys, keysym)
    }
}

/// Adds the content of line `line`. Ranges increase and come before the characters, which increase
/// as well.
fn add_entry(
    characters: &mut Vec<char>,
    keys: &mut Vec<(Keysym, Keysym)>,
    entry: LineEntry,
    line: usize,
) -> Result<(), RepertoireFault>
    requires sound { IsRepertoire
        (record { characters = characters.old.items; keys = keys.old.items }) }
    requires ordered { IsOrdered entry }
    ensures sound { OnOk result
        (IsRepertoire (record { characters = characters.new.items; keys = keys.new.items })) }
    ensures ok { OnOk result
        (with_entry line (Some entry)
        (record { characters = characters.old.items; keys = keys.old.items })
        ≡ Ok (record { characters = characters.new.items; keys = keys.new.items })) }
    ensures err { IfErr result
        (λ e. e ≢ RepertoireFault.NoMemory
        → with_entry line (Some entry)
        (record { characters = characters.old.items; keys = keys.old.items }) ≡ Err e) }
    ensures fault_first { IfErr result
        (λ e. e ≡ RepertoireFault.NoMemory
        → IsOk
        (with_entry line (Some entry)
        (record { characters = characters.old.items; keys = keys.old.items }))) }
{
    match entry {
        LineEntry::Nothing => Ok(()),
        LineEntry::Keys(first, last) => {
            if !characters.is_empty() {
                return Err(RepertoireFault::BadLine { line });
            }
            if !is_above_ranges(keys, first) {
                return Err(RepertoireFault::NotRising { line });
            }
            if keys.len() >= MOST {
                return Err(RepertoireFault::TooMany);
            }
            keys.push((first, last))?;
            Ok(())
        }
        LineEntry::Character(character) => {
            if !is_above_characters(characters, character) {
                return Err(RepertoireFault::NotRising { line });
            }
            if characters.len() >= MOST {
                return Err(RepertoireFault::TooMany);
            }
            characters.push(character)?;
            Ok(())
        }
    }
}

/// Returns whether the keysym is above all ranges, that is, above the last one. O(1).
fn is_above_ranges(ranges: &[(Keysym, Keysym)], keysym: Keysym) -> bool
    requires { IsTrue (ranges_rise ranges.now) }
    ensures { result ≡ list_all (λ r. nat_lt r.1 keysym) ranges.now }
{
    if ranges.is_empty() {
        return true;
    }
    let (_, last) = ranges[ranges.len() - 1];
    last.value() < keysym.value()
}

/// Returns whether the character is above all characters, that is, above the last one. O(1).
fn is_above_characters(characters: &[char], character: char) -> bool
    requires { IsTrue (keys_rise characters.now) }
    ensures { result ≡ list_all (λ d. nat_lt d character) characters.now }
{
    if characters.is_empty() {
        return true;
    }
    characters[characters.len() - 1] < character
}

/// The largest number of ranges, and of characters.
const MOST: usize = 65_536;

/// Returns whether one of the ranges has the keysym, by binary search. O(log ranges).
fn is_in_ranges(ranges: &[(Keysym, Keysym)], keysym: Keysym) -> bool
    requires { IsTrue (ranges_rise ranges.now) }
    ensures { result ≡ list_any (λ r. is_between r.0 r.1 keysym) ranges.now }
{
    let number = keysym.value();
    let mut low = 0;
    let mut high = ranges.len();
    while low < high {
        let middle = low + (high - low) / 2;
        let (first, last) = ranges[middle];
        if number < first.value() {
            high = middle;
        } else if last.value() < number {
            low = middle + 1;
        } else {
            return true;
        }
    }
    false
}
