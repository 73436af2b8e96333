//! The characters that people need, each with the best keys that were found for it so far.
ghost use Rattle.std.specs.Prelude.{◌≡◌, ◌<◌, ◌≤◌, ℕ, [], ◌∷◌, ◌++◌, map, length, get_or, encode_utf8, MatchOption, IsTrue, IfOk, Some, None, is_some};
ghost use Rattle.std.specs.Option.{option_map};
ghost use Rattle.compose_model.specs.Certificate.{keys_rise};
ghost use Rattle.compose_walk.specs.Evidence.{comes_first};
ghost use Rattle.compose_make.specs.Wanted.{better, offered_row, characters_of, typing_by};

use arrayvec::ArrayVec;
use compose_cert::Typing;
use keysym_core::Keysym;
use std::alloc::{AllocError, Global};
use std::cmp::Ordering;
use std::marker::Model;

/// A character that is wanted, and keys that type it, if some were found.
#[derive(Drop)]
pub struct Wanted {
    character: char,
    keys: Option<ArrayVec<Keysym, 32>>,
}

impl Model for Wanted {
    ghost use Rattle.std.specs.Option.{option_map};
    ghost use Rattle.compose_make.specs.Wanted.{WantedCharacter};

    ghost Value = { WantedCharacter };

    ghost view = { λ w. record {
      character = w.character;
      keys =
          option_map (λ k. k.items) w.keys;
    } };
}

impl Wanted {
    /// Makes a row for the character, with this key, if it has one.
    pub fn new(character: char, key: Option<Keysym>) -> Wanted
        ensures { result ≡ record { character = character; keys = option_map (λ k. k ∷ []) key } }
    {
        let keys = match key {
            Some(keysym) => Some(with_key(&[], keysym)),
            None => None,
        };
        Wanted { character, keys }
    }

    /// Returns the character.
    pub fn character(&self) -> char
        ensures { result ≡ self.now.character }
    {
        self.character
    }

    /// Returns the typing by the keys that were found, if some were. `Err(AllocError)` if memory
    /// runs out.
    pub fn typing(&self, alloc: Global) -> Result<Option<Typing>, AllocError>
        ensures { IfOk result
            (λ typing. typing ≡ option_map (typing_by self.now.character) self.now.keys) }
    {
        match &self.keys {
            Some(keys) => Ok(Some(Typing::new(self.character, keys.as_slice().to_vec(alloc)?))),
            None => Ok(None),
        }
    }

    /// Whether keys were found.
    pub fn has_keys(&self) -> bool
        ensures { result ≡ is_some self.now.keys }
    {
        self.keys.is_some()
    }

    /// Takes these keys if they come before the row's keys.
    fn offer(&mut self, keys: &[Keysym])
        requires { length keys.now ≤ 32 }
        ensures { self.new ≡ record self.old { keys = better self.old.keys keys.now } }
    {
        if let Some(known) = &self.keys
            && !comes_first(keys, known.as_slice())
        {
            return;
        }
        self.keys = Some(copied(keys));
    }
}

/// Copies these keys.
fn copied(keys: &[Keysym]) -> ArrayVec<Keysym, 32>
    requires { length keys.now ≤ 32 }
    ensures { result.items ≡ keys.now }
{
    let mut copy = ArrayVec::<Keysym, 32>::new();
    copy.try_extend_from_slice(keys).unwrap();
    copy
}

/// Returns these keys and one more.
pub fn with_key(keys: &[Keysym], key: Keysym) -> ArrayVec<Keysym, 32>
    requires { length keys.now < 32 }
    ensures { result.items ≡ keys.now ++ key ∷ [] }
{
    let mut longer = copied(keys);
    longer.push(key);
    longer
}

/// Whether these keys are fewer than the other ones, or as many and before them.
fn comes_first(keys: &[Keysym], other: &[Keysym]) -> bool
    ensures { result ≡ comes_first keys.now other.now }
{
    if keys.len() == other.len() {
        return keys.cmp(other) == Ordering::Less;
    }
    keys.len() < other.len()
}

/// Returns the index of the character, if it is wanted. O(log n).
fn index_of(rows: &[Wanted], character: char) -> Option<usize>
    requires { IsTrue (keys_rise (characters_of rows.now)) }
    ensures { MatchOption result
        ((k : ℕ) → k < length rows.now → get_or (characters_of rows.now) k 0 ≡ character → ⊥)
        (λ i. (i < length rows.now) × (get_or (characters_of rows.now) i 0 ≡ character)) }
{
    let mut low = 0;
    let mut high = rows.len();
    while low < high {
        let middle = low + (high - low) / 2;
        let there = rows[middle].character();
        if there == character {
            return Some(middle);
        }
        if there < character {
            low = middle + 1;
        } else {
            high = middle;
        }
    }
    None
}

/// Returns the character, if the text is a single one.
fn single_character(text: &str) -> Option<char>
    ensures { MatchOption result ((c : ℕ) → text.now ≡ encode_utf8 c → ⊥)
        (λ c. text.now ≡ encode_utf8 c) }
{
    let mut characters = text.chars();
    let Some(first) = characters.next() else {
        return None;
    };
    match characters.next() {
        Some(_) => None,
        None => Some(first),
    }
}

/// Offers these keys, which give the text, to the row of its character. O(log n), and at most 32
/// keys compared.
pub fn offer_text(rows: &mut [Wanted], text: &str, keys: &[Keysym])
    requires rise { IsTrue (keys_rise (characters_of rows.old)) }
    requires few { length keys.now ≤ 32 }
    ensures { rows.new ≡ map (offered_row text.now keys.now) rows.old }
{
    let Some(character) = single_character(text) else {
        return;
    };
    if let Some(index) = index_of(rows, character) {
        rows[index].offer(keys);
    }
}
