//! The result of a walk.
use crate::evidence::Counterexample;
use crate::pairs::Pairs;

/// The result of a walk through an old and a new table.
#[derive(Debug, Drop)]
pub enum Walk {
    /// The new table follows: each old node, in order, with the new node that is pending after its
    /// keys.
    Follows(Pairs),
    /// It does not: the least of the shortest counterexamples.
    Differs(Counterexample),
}
