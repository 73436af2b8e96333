//! The definitions of a table in reading order.
use crate::rows::Rows;
use keysym_core::Keysym;
use std::marker::Model;

/// The definitions of a table in reading order, including repeated and overlapping sequences; at
/// most 100,000.
#[derive(Drop)]
pub struct Definitions {
    rows: Rows,
}

impl Model for Definitions {
    ghost use Rattle.std.specs.Prelude.{◌≤◌, List, length, IsTrue};
    ghost use Rattle.compose_model.specs.Table.{Definition, is_table};
    ghost use Rattle.compose_read.specs.Read.{max_definitions};

    ghost Value = { List Definition };

    ghost view = { λ d. d.rows };

    ghost invariant = { λ d. IsTrue (is_table d.rows) × (length d.rows ≤ max_definitions) };
}

impl Definitions {
    ghost use Rattle.std.specs.Prelude.{◌≡◌, ◌<◌, ◌≤◌, length, Some, slice_get, option_map, IsTrue};
    ghost use Rattle.compose_model.specs.Table.{is_table};
    ghost use Rattle.compose_read.specs.Read.{max_definitions};

    /// Returns the definitions of these rows.
    pub(crate) fn from_rows(rows: Rows) -> Definitions
        requires table { IsTrue (is_table rows) }
        requires few { length rows ≤ max_definitions }
        ensures { result ≡ rows }
    {
        Definitions { rows }
    }

    /// Returns the number of definitions, at most 100,000. O(1).
    pub fn len(&self) -> usize
        ensures count { result ≡ length self.now }
        ensures table { IsTrue (is_table self.now) }
        ensures few { result ≤ max_definitions }
    {
        self.rows.len()
    }

    /// Returns the sequence of the definition at this index. O(1).
    pub fn sequence(&self, index: usize) -> &[Keysym]
        requires { index < length self.now }
        ensures { option_map (λ d. d.sequence) (slice_get self.now index) ≡ Some result.now }
    {
        self.rows.sequence(index)
    }

    /// Returns the text of the definition at this index. O(1).
    pub fn text(&self, index: usize) -> &str
        requires { index < length self.now }
        ensures { option_map (λ d. d.text) (slice_get self.now index) ≡ Some result.now }
    {
        self.rows.text(index)
    }

    /// Returns the rows of the definitions.
    pub(crate) fn into_rows(self) -> Rows
        ensures same { result ≡ self }
        ensures table { IsTrue (is_table self) }
        ensures few { length self ≤ max_definitions }
    {
        self.rows
    }
}
