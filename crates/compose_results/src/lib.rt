//! The result keysyms of a table's sequences.
//!
//! A line of a Compose file gives a string, the name of a keysym, or both. A table keeps the texts.
//! [`read_results`] reads a table and besides finds a keysym for each of its leaves: the one named
//! on the line that counts, or otherwise the first keysym of the text's character.
//!
//! ```text
//! <a> : "x" F1       # F1
//! <b> : "é"          # eacute: the first keysym of é
//! <c> : "xyz"        # none, which is 0
//! ```
#![tactic(auto)]

mod lines;
mod name;
mod named;
mod results;

pub use results::{ResultTable, read_first_results, read_results};
