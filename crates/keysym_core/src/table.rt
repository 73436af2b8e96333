//! The rows of names and characters, with an index by value.
ghost use Rattle.std.specs.Prelude.{◌≡◌, ◌∷◌, [], ◌++◌, map, OnOk, IfOk, IsTrue, Some, None, List, ℕ, IfSome, option_copied, option_map, slice_get, true, filter, length};
ghost use Rattle.keysym_core.specs.Names.{row_value, first_character, value, form_value};
ghost use Rattle.keysym_core.specs.GivenCharacters.{HasCountingRows, ArePairsOfKeysyms, counts, is_fixed, row_of, with_character};
ghost use Rattle.keysym_core.specs.Printed.{first_name};
ghost use Rattle.keysym_core.specs.Table.{name_rows, character_rows, is_addable, are_addable, index_from, FirstNamesLookUp, agrees_with_form};
ghost use Rattle.std.specs.List.{list_all};

use crate::form::form_value;
use crate::hints::Hints;
use crate::keysym::Keysym;
use indexmap::IndexMap;
use std::alloc::{AllocError, Global};
use std::marker::Model;

/// Names with their values, and keysyms with the characters assigned to them, each in the order in
/// which they were added.
#[derive(Drop)]
pub(crate) struct NameTable {
    names: IndexMap<String, Keysym>,
    /// The index in `names` of the first name of each value.
    indexes: IndexMap<Keysym, usize>,
    characters: IndexMap<Keysym, char>,
}

impl Model for NameTable {
    ghost use Rattle.keysym_core.specs.Names.{KeysymNames};
    ghost use Rattle.keysym_core.specs.Table.{name_rows, character_rows, IsTable};

    ghost Value = { KeysymNames };

    ghost view = { λ t. record {
      names = name_rows t.names.entries;
      characters =
          character_rows t.characters.entries;
    } };

    ghost invariant = { λ t. IsTable t.indexes.entries (name_rows t.names.entries)
        (character_rows t.characters.entries) };
}

impl NameTable {
    /// The greatest number of names.
    pub(crate) const MOST: usize = 16384;

    /// Returns the number of names. O(1).
    pub(crate) fn count(&self) -> usize
        ensures { result ≡ length self.now.names }
    {
        self.names.len()
    }

    /// Returns a table without names. Takes no memory.
    fn new(alloc: Global) -> NameTable
        ensures { result ≡ record { names = []; characters = [] } }
    {
        NameTable {
            names: IndexMap::new(alloc),
            indexes: IndexMap::new(alloc),
            characters: IndexMap::new(alloc),
        }
    }

    /// Returns a table of these names with their values. O(n) in the names.
    pub(crate) fn of_rows(alloc: Global, rows: &[(&str, u32)]) -> Result<NameTable, AllocError>
        requires { IsTrue
            (are_addable [] (map (λ r. record { name = r.0.now; value = r.1 }) rows.now)) }
        ensures { IfOk result
            (λ table. table
            ≡ record {
              names =
                  map (λ r. record { name = r.0.now; value = r.1 }) rows.now;
              characters = [];
            }) }
    {
        let mut table = NameTable::new(alloc);
        for (name, value) in rows {
            let keysym = Keysym::new(*value).unwrap();
            table.add_name(name, keysym)?;
        }
        Ok(table)
    }

    /// Returns the keysym of a name. A name in one of the two forms needs no search, since a row
    /// with that name agrees with the form. O(1).
    #[inline(always)]
    pub(crate) fn lookup(&self, name: &str, hints: &Hints) -> Option<Keysym>
        ensures { result ≡ value self.now name.now }
    {
        let names = &self.names;
        match form_value(name.as_bytes()) {
            Some(keysym) => Some(keysym),
            None => value_by_hint(names, name, hints.index_of(name.as_bytes())),
        }
    }

    /// Returns the value of the row with this name. O(1).
    pub(crate) fn row_value(&self, name: &str) -> Option<Keysym>
        ensures { result ≡ row_value self.now.names name.now }
    {
        self.names.get(name).copied()
    }

    /// Returns the character that is assigned to a keysym. O(1).
    pub(crate) fn given_character(&self, keysym: Keysym) -> Option<char>
        ensures { result ≡ first_character self.now.characters keysym }
    {
        self.characters.get(&keysym).copied()
    }

    /// Returns the first name with this value, in the order of the rows. The name looks up as the
    /// value, and so does each form of the keysym. O(1).
    pub(crate) fn first_name(&self, keysym: Keysym) -> Option<&str>
        ensures same { option_copied result ≡ first_name self.now.names keysym }
        ensures found { IfSome result (λ name. value self.now name.now ≡ Some keysym) }
        ensures forms { (n : List ℕ) → form_value n ≡ Some keysym → value self.now n ≡ Some keysym }
    {
        let index = self.first_index(keysym)?;
        self.name_at(index)
    }

    /// Returns the index of the first row with this value. O(1).
    fn first_index(&self, keysym: Keysym) -> Option<usize>
        ensures same { result ≡ index_from keysym 0 self.now.names }
        ensures first_names { FirstNamesLookUp self.now.names }
        ensures agree { list_all agrees_with_form self.now.names ≡ true }
    {
        self.indexes.get(&keysym).copied()
    }

    /// Returns the name of the row at an index. O(1).
    fn name_at(&self, index: usize) -> Option<&str>
        ensures { option_copied result
            ≡ option_map (λ row. row.name) (slice_get self.now.names index) }
    {
        let (name, _) = self.names.get_index(index)?;
        Some(name.as_str())
    }

    /// Returns hints for the index of each name. O(n) in the names.
    pub(crate) fn hints(&self, alloc: Global) -> Result<Hints, AllocError> {
        Hints::new(alloc, &self.names)
    }

    /// Returns the keysym and the character of each row that is used for texts. O(n) in the rows.
    pub(crate) fn counting_pairs(&self, alloc: Global) -> Result<Vec<(u32, char)>, AllocError>
        ensures counting { IfOk result (λ pairs. HasCountingRows pairs.items self.now.characters) }
        ensures keysyms { IfOk result (λ pairs. ArePairsOfKeysyms pairs.items) }
    {
        counting_pairs(alloc, &self.characters)
    }

    /// Assigns a character to a keysym, if it has none yet. O(1).
    pub(crate) fn give_character(
        &mut self,
        keysym: Keysym,
        character: char,
    ) -> Result<(), AllocError>
        ensures { OnOk result
            (self.new
            ≡ record self.old {
              characters =
                  with_character self.old.characters keysym character;
            }) }
    {
        if self.given_character(keysym).is_some() {
            return Ok(());
        }
        prove!(keysym.value() <= Keysym::GREATEST);
        self.characters.insert(keysym, character)?;
        Ok(())
    }

    /// Adds a new name after the others. O(1).
    pub(crate) fn add_name(&mut self, name: &str, value: Keysym) -> Result<(), AllocError>
        requires { IsTrue (is_addable self.old.names (record { name = name.now; value = value })) }
        ensures { OnOk result
            (self.new
            ≡ record self.old {
              names =
                  self.old.names ++ record { name = name.now; value = value } ∷ [];
            }) }
    {
        let alloc = *self.names.allocator();
        let index = self.names.len();
        let kept = String::from_str(alloc, name)?;
        self.indexes.reserve(1)?;
        self.names.insert(kept, value)?;
        if self.indexes.get(&value).is_none() {
            self.indexes.insert(value, index)?;
        }
        Ok(())
    }
}

/// Returns the value of the row with this name, trying the hinted index first. O(1), and without a
/// hash if the name has that index.
#[inline(always)]
fn value_by_hint(rows: &IndexMap<String, Keysym>, name: &str, hint: usize) -> Option<Keysym>
    ensures { result ≡ row_value (name_rows rows.now.entries) name.now }
{
    if let Some((hinted, keysym)) = rows.get_index(hint) {
        if hinted.as_str() == name {
            return Some(*keysym);
        }
    }
    value_by_hash(rows, name)
}

/// Returns the value of the row with this name. O(1). It is a function of its own, so that a
/// look-up by a hint is short enough to be inlined.
#[inline(never)]
fn value_by_hash(rows: &IndexMap<String, Keysym>, name: &str) -> Option<Keysym>
    ensures { result ≡ row_value (name_rows rows.now.entries) name.now }
{
    rows.get(name).copied()
}

/// Returns the keysym and the character of each row that is used for texts.
fn counting_pairs(
    alloc: Global,
    characters: &IndexMap<Keysym, char>,
) -> Result<Vec<(u32, char)>, AllocError>
    ensures { IfOk result
        (λ pairs. pairs.items ≡ filter (λ pair. counts (row_of pair)) characters.now.entries) }
{
    characters
        .iter()
        .map(|(keysym, character)| (keysym.value(), *character))
        .filter(|pair| !is_fixed(pair.0))
        .collect(alloc)
}

/// Returns whether the text of a keysym is fixed, whatever character a header assigns to it.
fn is_fixed(keysym: u32) -> bool
    ensures { result ≡ is_fixed keysym }
{
    matches!(
        keysym,
        0x20..=0x7e | 0xa0..=0xff | 0x0100_0100..=0x0110_ffff | 0xffb0..=0xffb9
    )
}
