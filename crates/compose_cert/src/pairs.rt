//! Pairs of nodes, with an index.
ghost use Rattle.std.specs.Prelude.{◌≡◌, ℕ, slice_range, IfOk, IfErr, IsTrue, true};
ghost use Rattle.compose_model.specs.Certificate as words;

use crate::CertFault;
use std::alloc::Global;
use std::marker::Model;

/// Pairs of the numbers of an old and a new node, and the index at which the pairs of each old node
/// begin.
#[derive(Drop)]
pub struct IndexedPairs {
    pairs: Vec<(u32, u32)>,
    begins: Vec<usize>,
}

impl Model for IndexedPairs {
    ghost use Rattle.std.specs.Prelude.{ℕ, List};

    ghost Value = { List (ℕ × ℕ) };

    ghost view = { λ p. p.pairs.items };
}

impl IndexedPairs {
    /// Makes the pairs with their index. O(pairs).
    ///
    /// Errors: `NoMemory` only.
    pub fn read(alloc: Global, pairs: Vec<(u32, u32)>) -> Result<IndexedPairs, CertFault>
        ensures ok { IfOk result (λ indexed. indexed ≡ pairs.items) }
        ensures err { IfErr result (λ fault. fault ≡ CertFault.NoMemory) }
    {
        let begins = begins_of(alloc, &pairs)?;
        Ok(IndexedPairs { pairs, begins })
    }

    /// Makes the pairs with their index, or without it if memory runs out. O(pairs).
    pub fn new(pairs: Vec<(u32, u32)>) -> IndexedPairs
        ensures { result ≡ pairs.items }
    {
        let alloc = *pairs.allocator();
        let begins = match begins_of(alloc, &pairs) {
            Ok(begins) => begins,
            Err(_refused) => Vec::new(alloc),
        };
        IndexedPairs { pairs, begins }
    }

    /// Returns the pairs. O(1).
    pub fn as_slice(&self) -> &[(u32, u32)]
        ensures { result.now ≡ self.now }
    {
        self.pairs.as_slice()
    }

    /// Returns whether these numbers are a pair. The pairs have to be strictly increasing. O(log
    /// pairs of the old node) if they are one, and else O(log pairs).
    pub fn contains(&self, old: u32, new: u32) -> bool
        requires { IsTrue (words.pairs_rise self.now) }
        ensures { result ≡ words.has_pair self.now old new }
    {
        is_found(self.pairs_of(old), old, new) || is_found(&self.pairs, old, new)
    }

    /// Returns the pairs of the old node, as far as they are in the index. O(1).
    fn pairs_of(&self, old: u32) -> &[(u32, u32)]
        ensures { (begin : ℕ) × ((end : ℕ) × (result.now ≡ slice_range self.now begin end)) }
    {
        let count = self.pairs.len();
        let begin = self.begin_of(old as usize, count);
        let end = self.begin_of(old as usize + 1, count);
        if begin <= end && end <= count {
            return &self.pairs[begin..end];
        }
        &self.pairs[..0]
    }

    /// Returns the index at which the pairs of the old node with this number begin, or `end` if the
    /// node is not in the index. O(1).
    fn begin_of(&self, old: usize, end: usize) -> usize {
        match self.begins.get(old) {
            Some(begin) => *begin,
            None => end,
        }
    }
}

/// Returns whether these numbers are found among the pairs by binary search. O(log pairs).
fn is_found(pairs: &[(u32, u32)], old: u32, new: u32) -> bool
    ensures is_there { result ≡ true → words.has_pair pairs.now old new ≡ true }
    ensures exact { IsTrue (words.pairs_rise pairs.now)
        → result ≡ words.has_pair pairs.now old new }
{
    pairs.binary_search(&(old, new)).is_ok()
}

/// Returns the indexes at which the pairs of each old node begin, up to the first number that has
/// none. O(pairs).
fn begins_of(alloc: Global, pairs: &[(u32, u32)]) -> Result<Vec<usize>, CertFault>
    ensures { IfErr result (λ fault. fault ≡ CertFault.NoMemory) }
{
    let mut begins = Vec::new(alloc);
    for (index, pair) in pairs.iter().enumerate() {
        if pair.0 as usize == begins.len() {
            begins.push(index)?;
        }
    }
    Ok(begins)
}
