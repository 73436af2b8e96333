//! The sequences of a table that give a text, and the number of those that go on from a node.
//!
//! A [`TextIndex`] is built from a table once, for some texts. It then finds the leaves of all
//! sequences that give one of them, the shortest first, and those of the same length in order: the
//! first of them is the shortest way to type the text. [`first_longer`] returns the shortest
//! sequence that goes on from a node.
//!
//! ```text
//! <Multi_key> <x> <y> : "é"     leaf 0
//! <dead_acute> <e>    : "é"     leaf 1
//!
//! let index = TextIndex::of_texts(alloc, &table, &["é"])?;
//! index.leaves_with(&table, "é")    // [LeafId(1), LeafId(0)]
//! ```
//!
//! [`sort_by_text`] puts any leaves in the order of their texts, and [`sequences_after`] counts the
//! sequences that go on from a node.
#![tactic(auto)]

mod counts;
mod lengths;
mod longer;
mod text_index;

pub use counts::sequences_after;
pub use longer::first_longer;
pub use text_index::{TextIndex, sort_by_text, text_of};
