//! Evidence that a new table does not follow an old one.
ghost use Rattle.std.specs.Prelude.{◌≡◌};

use arrayvec::{ArrayString, ArrayVec};
use keysym_core::Keysym;
use std::marker::Model;

/// How the tables differ at a key.
#[derive(Clone, Copy, Debug, PartialEq, Eq, Drop)]
pub enum Kind {
    /// They commit different texts.
    Text,
    /// The new table cancels.
    Cancelled,
    /// The old table is at rest, and a key is pending in the new one.
    Waiting,
}

/// Keys at whose last one the tables first differ, and the texts that they commit there.
#[derive(Debug, Drop)]
pub struct Counterexample {
    /// The keys, from 1 to 32 of them. The tables differ at the last one.
    pub keys: ArrayVec<Keysym, 32>,
    /// How the tables differ at the last key.
    pub kind: Kind,
    /// The text that the old table commits at the last key, or nothing.
    pub old_text: ArrayString<255>,
    /// The text that the new table commits at the last key, or nothing.
    pub new_text: ArrayString<255>,
}

impl Model for Counterexample {
    ghost use Rattle.compose_walk.specs.Evidence.{Evidence};
    ghost use Rattle.compose_walk.specs.Kinds.{kind_of};

    ghost Value = { Evidence };

    ghost view = { λ x. record {
      keys = x.keys.items;
      kind = kind_of x.kind;
      old_text =
          x.old_text.bytes;
      new_text = x.new_text.bytes;
    } };
}
