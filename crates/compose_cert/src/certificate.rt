//! Certificates as values.
ghost use Rattle.std.specs.Prelude.{◌≡◌, ◌<◌, ◌≤◌, [], length, map, Some, None, slice_get, if◌then◌else◌, nat_le, Ok, IfOk, IfErr, string_bytes, IsTrue};
ghost use Rattle.std.specs.List.{list_all};
ghost use Rattle.compose_model.specs.Certificate as model;
ghost use Rattle.compose_cert.specs.CertificateReturns.{CertificateReturns};
ghost use Rattle.compose_cert.specs.Reading.{certificate_of};
ghost use Rattle.compose_cert.specs.Spelling.{max_count, are_counted, is_typed, is_counted, Spells};

use crate::CertFault;
use crate::pairs::IndexedPairs;
use crate::read::{count_at, fresh_at, number_at, pairs_at, typings_at, version_at};
use crate::write::{add_fresh, add_head, add_pairs, add_typings};
use keysym_core::Keysym;
use std::alloc::Global;
use std::marker::Model;

/// A character, and the keys that type it.
#[derive(Drop)]
pub struct Typing {
    character: char,
    keys: Vec<Keysym>,
}

impl Model for Typing {
    ghost Value = { model.Typing };

    ghost view = { λ t. record { character = t.character; keys = t.keys.items } };
}

impl Typing {
    /// Makes a typing of a character and the keys that type it.
    pub fn new(character: char, keys: Vec<Keysym>) -> Typing
        ensures { result ≡ record { character = character; keys = keys.items } }
    {
        Typing { character, keys }
    }

    /// Returns the character. O(1).
    pub fn character(&self) -> char
        ensures { result ≡ self.now.character }
    {
        self.character
    }

    /// Returns the keys that type the character. O(1).
    pub fn keys(&self) -> &[Keysym]
        ensures { result.now ≡ self.now.keys }
    {
        self.keys.as_slice()
    }
}

/// A certificate: what a checker reads to verify that a new table follows an old one.
#[derive(Drop)]
pub struct Certificate {
    bound: u32,
    pairs: IndexedPairs,
    typings: Vec<Typing>,
    fresh: Vec<Keysym>,
}

impl Model for Certificate {
    ghost Value = { model.Certificate };

    ghost view = { λ c. record {
      bound = c.bound;
      pairs = c.pairs;
      typings =
          c.typings.items;
      fresh = c.fresh.items;
    } };

    ghost invariant = { λ c. IsTrue
        (is_counted
        (record {
          bound = c.bound;
          pairs = c.pairs;
          typings = c.typings.items;
          fresh =
              c.fresh.items;
        })) };
}

impl Certificate {
    /// Makes a certificate without fresh keysyms. `None` if there are more than 1,048,576 pairs,
    /// typings or keys of one typing, or if a typing has no keys. O(pairs + typings).
    pub fn new(bound: u32, pairs: Vec<(u32, u32)>, typings: Vec<Typing>) -> Option<Certificate>
        ensures { result
            ≡ (if are_counted pairs.items typings.items then Some
            (record {
              bound = bound;
              pairs = pairs.items;
              typings = typings.items;
              fresh =
                  [];
            }) else None) }
    {
        if pairs.len() > MOST || typings.len() > MOST || !are_typed(&typings) {
            return None;
        }
        let fresh = Vec::new(*pairs.allocator());
        Some(Certificate {
            bound,
            pairs: IndexedPairs::new(pairs),
            typings,
            fresh,
        })
    }

    /// Reads the certificate that the bytes spell. O(bytes).
    ///
    /// Errors: that of the first faulty line, `NotText` or `TooLarge`; or `NoMemory`.
    pub fn read(alloc: Global, bytes: &[u8]) -> Result<Certificate, CertFault>
        ensures exact { CertificateReturns result (certificate_of bytes.now) }
        ensures found { IfOk result (λ c. Spells bytes.now c) }
        ensures only { (c : model.Certificate) → Spells bytes.now c
            → CertificateReturns result (Ok c) }
    {
        read_lines(alloc, bytes)
    }

    /// Returns the text that spells the certificate. O(its length).
    ///
    /// Errors: `NoMemory` only.
    pub fn write_text(&self, alloc: Global) -> Result<String, CertFault>
        ensures ok { IfOk result (λ text. Spells (string_bytes text) self.now) }
        ensures err { IfErr result (λ e. e ≡ CertFault.NoMemory) }
    {
        let mut text = String::new(alloc);
        add_head(&mut text, self.bound, self.pair_count(), &self.fresh)?;
        add_pairs(&mut text, self.pairs())?;
        add_typings(&mut text, &self.typings)?;
        add_fresh(&mut text, &self.fresh)?;
        Ok(text)
    }

    /// Returns the bound: the largest number of keysyms that may be pending. O(1).
    pub fn bound(&self) -> u32
        ensures { result ≡ self.now.bound }
    {
        self.bound
    }

    /// Returns the pairs, each the number of an old node and the number of a new node. O(1).
    pub fn pairs(&self) -> &[(u32, u32)]
        ensures { result.now ≡ self.now.pairs }
    {
        self.pairs.as_slice()
    }

    /// Returns the number of pairs. O(1).
    pub fn pair_count(&self) -> usize
        ensures { result ≡ length self.now.pairs }
    {
        self.pairs().len()
    }

    /// Returns the pair at this index, counted from 0: the number of an old node and that of a new
    /// node. O(1).
    pub fn pair(&self, index: usize) -> (u32, u32)
        requires { index < length self.now.pairs }
        ensures { slice_get self.now.pairs index ≡ Some result }
    {
        self.pairs()[index]
    }

    /// Returns whether these numbers are a pair. The pairs have to be strictly increasing. O(log
    /// pairs of the old node) if they are one, and else O(log pairs).
    pub fn has_pair(&self, old: u32, new: u32) -> bool
        requires { IsTrue (model.pairs_rise self.now.pairs) }
        ensures { result ≡ model.has_pair self.now.pairs old new }
    {
        self.pairs.contains(old, new)
    }

    /// Returns the typings. O(1).
    pub fn typings(&self) -> &[Typing]
        ensures { result.now ≡ self.now.typings }
    {
        self.typings.as_slice()
    }

    /// Returns the number of typings. O(1).
    pub fn typing_count(&self) -> usize
        ensures { result ≡ length self.now.typings }
    {
        self.typings.len()
    }

    /// Returns the typing at this index, counted from 0. O(1).
    pub fn typing(&self, index: usize) -> &Typing
        requires { index < length self.now.typings }
        ensures { slice_get self.now.typings index ≡ Some result.now }
    {
        &self.typings[index]
    }

    /// Returns the number of fresh keysyms. O(1).
    pub fn fresh_count(&self) -> usize
        ensures { result ≡ length self.now.fresh }
    {
        self.fresh.len()
    }

    /// Returns the fresh keysym at this index, counted from 0. O(1).
    pub fn fresh(&self, index: usize) -> Keysym
        requires { index < length self.now.fresh }
        ensures { slice_get self.now.fresh index ≡ Some result }
    {
        self.fresh[index]
    }

    /// Replaces the fresh keysyms of the certificate by these; `None` if there are more than
    /// 1,048,576. O(1).
    pub fn with_fresh(self, fresh: Vec<Keysym>) -> Option<Certificate>
        ensures { result
            ≡ (if nat_le (length fresh.items) max_count then Some
            (record self { fresh = fresh.items }) else None) }
    {
        if fresh.len() > MOST {
            return None;
        }
        let Certificate {
            bound,
            pairs,
            typings,
            fresh: _,
        } = self;
        Some(Certificate {
            bound,
            pairs,
            typings,
            fresh,
        })
    }

    /// Returns the fresh keysyms. O(1).
    pub fn fresh_keys(&self) -> &[Keysym]
        ensures { result.now ≡ self.now.fresh }
    {
        self.fresh.as_slice()
    }
}

/// Reads the certificate from its lines; the first faulty line is the error.
fn read_lines(alloc: Global, bytes: &[u8]) -> Result<Certificate, CertFault>
    ensures { CertificateReturns result (certificate_of bytes.now) }
{
    let (version, rest) = version_at(bytes)?;
    let (bound, rest) = number_at(rest, b"bound ", 2)?;
    let (pair_count, rest) = count_at(rest, b"pairs ", 3)?;
    let (pairs, rest) = pairs_at(alloc, rest, pair_count, 4)?;
    let (typing_count, rest) = count_at(rest, b"typings ", 4 + pair_count)?;
    let (typings, rest) = typings_at(alloc, rest, typing_count, 5 + pair_count)?;
    let fresh = fresh_at(alloc, version, rest, 5 + pair_count + typing_count)?;
    let indexed = IndexedPairs::read(alloc, pairs)?;
    Ok(Certificate {
        bound,
        pairs: indexed,
        typings,
        fresh,
    })
}

/// The largest number of pairs, typings, keys of one typing and fresh keysyms.
pub const MOST: usize = 1_048_576;

/// Returns whether each typing has 1 to 1,048,576 keys.
fn are_typed(typings: &[Typing]) -> bool
    ensures { result ≡ list_all is_typed typings.now }
{
    for typing in typings {
        let count = typing.keys().len();
        if count == 0 || count > MOST {
            return false;
        }
    }
    true
}
