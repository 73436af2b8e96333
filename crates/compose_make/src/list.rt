//! Typings, one after another.
ghost use Rattle.std.specs.Prelude.{◌≡◌};

use compose_cert::Typing;
use std::marker::Model;

/// Typings, one after another.
#[derive(Drop)]
pub struct TypingList {
    typings: Vec<Typing>,
}

impl Model for TypingList {
    ghost use Rattle.std.specs.Prelude.{List};
    ghost use Rattle.compose_model.specs.Certificate as model;

    ghost Value = { List model.Typing };

    ghost view = { λ l. l.typings.items };
}

impl TypingList {
    /// Wraps these typings. O(1).
    pub fn new(typings: Vec<Typing>) -> TypingList
        ensures { result ≡ typings.items }
    {
        TypingList { typings }
    }

    /// Returns the typings. O(1).
    pub fn as_slice(&self) -> &[Typing]
        ensures { result.now ≡ self.now }
    {
        self.typings.as_slice()
    }

    /// Returns the typings as a vector. O(1).
    pub fn into_vec(self) -> Vec<Typing>
        ensures { result.items ≡ self }
    {
        self.typings
    }
}
