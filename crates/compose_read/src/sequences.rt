//! Settled sequences with their texts.
use crate::rows::Rows;
use keysym_core::Keysym;
use std::marker::Model;

/// The settled sequences of a table, in rising order, without duplicates, and none a prefix of
/// another; at most 100,000.
#[derive(Drop)]
pub struct Sequences {
    rows: Rows,
}

impl Model for Sequences {
    ghost use Rattle.std.specs.Prelude.{◌≤◌, List, length};
    ghost use Rattle.compose_model.specs.Table.{Definition};
    ghost use Rattle.compose_read.specs.Read.{max_definitions};
    ghost use Rattle.compose_read.specs.Settle.{IsSettled};

    ghost Value = { List Definition };

    ghost view = { λ s. s.rows };

    ghost invariant = { λ s. IsSettled s.rows × (length s.rows ≤ max_definitions) };
}

impl Sequences {
    ghost use Rattle.std.specs.Prelude.{◌≡◌, ◌<◌, ◌≤◌, length, Some, slice_get, option_map};
    ghost use Rattle.compose_read.specs.Read.{max_definitions};
    ghost use Rattle.compose_read.specs.Settle.{IsSettled};

    /// Returns the sequences of these rows.
    pub(crate) fn from_rows(rows: Rows) -> Sequences
        requires settled { IsSettled rows }
        requires few { length rows ≤ max_definitions }
        ensures { result ≡ rows }
    {
        Sequences { rows }
    }

    /// Returns the number of sequences, at most 100,000. O(1).
    pub fn len(&self) -> usize
        ensures count { result ≡ length self.now }
        ensures settled { IsSettled self.now }
        ensures few { result ≤ max_definitions }
    {
        self.rows.len()
    }

    /// Returns the sequence at this index. O(1).
    pub fn sequence(&self, index: usize) -> &[Keysym]
        requires { index < length self.now }
        ensures { option_map (λ d. d.sequence) (slice_get self.now index) ≡ Some result.now }
    {
        self.rows.sequence(index)
    }

    /// Returns the text of the sequence at this index. O(1).
    pub fn text(&self, index: usize) -> &str
        requires { index < length self.now }
        ensures { option_map (λ d. d.text) (slice_get self.now index) ≡ Some result.now }
    {
        self.rows.text(index)
    }
}
