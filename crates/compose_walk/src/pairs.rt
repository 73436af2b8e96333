//! Pairs of an old and a new node.
ghost use Rattle.std.specs.Prelude.{◌≡◌, ◌<◌, ◌++◌, ◌∷◌, [], length, map, take, drop, slice_get, Some, IfOk, IfErr};

use std::marker::Model;

/// Pairs of an old node's number and a new node's number.
#[derive(Debug, Drop)]
pub struct Pairs {
    pairs: Vec<(u32, u32)>,
}

impl Model for Pairs {
    ghost use Rattle.std.specs.Prelude.{ℕ, List};

    ghost Value = { List (ℕ × ℕ) };

    ghost view = { λ p. p.pairs.items };
}

impl Pairs {
    /// Wraps these pairs. O(1).
    pub fn new(pairs: Vec<(u32, u32)>) -> Pairs
        ensures { result ≡ pairs.items }
    {
        Pairs { pairs }
    }

    /// Returns the pairs. O(1).
    pub fn as_slice(&self) -> &[(u32, u32)]
        ensures { result.now ≡ self.now }
    {
        self.pairs.as_slice()
    }

    /// Returns the pairs as a vector. O(1).
    pub fn into_vec(self) -> Vec<(u32, u32)>
        ensures { result.items ≡ self }
    {
        self.pairs
    }
}
