//! All differences of two tables, as one value.
ghost use Rattle.std.specs.Prelude.{◌≡◌, ◌↔◌, [], IsTrue, length, slice_get};
ghost use Rattle.std.specs.Option.{option_copied};

use crate::evidence::Counterexample;
use std::marker::Model;

/// All differences of two tables, the shortest first and those of the same length in the order of
/// their keys.
#[derive(Debug, Drop)]
pub struct Differences {
    differences: Vec<Counterexample>,
}

impl Model for Differences {
    ghost use Rattle.std.specs.Prelude.{List};
    ghost use Rattle.compose_walk.specs.Evidence.{Evidence};

    ghost Value = { List Evidence };

    ghost view = { λ d. d.differences.items };
}

impl Differences {
    /// Wraps these differences. O(1).
    pub(crate) fn new(differences: Vec<Counterexample>) -> Differences
        ensures { result ≡ differences.items }
    {
        Differences { differences }
    }

    /// Returns the number of differences. O(1).
    pub fn count(&self) -> usize
        ensures { result ≡ length self.now }
    {
        self.differences.len()
    }

    /// Whether there is no difference: the new table follows. O(1).
    pub fn is_empty(&self) -> bool
        ensures { IsTrue result ↔ (self.now ≡ []) }
    {
        self.differences.is_empty()
    }

    /// Returns the difference at this index, if there is one. O(1).
    pub fn get(&self, index: usize) -> Option<&Counterexample>
        ensures { option_copied result ≡ slice_get self.now index }
    {
        self.differences.get(index)
    }

    /// Returns the differences in order. O(1).
    pub fn as_slice(&self) -> &[Counterexample]
        ensures { result.now ≡ self.now }
    {
        self.differences.as_slice()
    }
}
