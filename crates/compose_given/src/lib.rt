//! What commands are given: the environment as a value, the names, and tables that are named by
//! their manifests or as Compose files on the system; and the reading of it. What a command reads is
//! a value, a [`Wanted`], and [`read_parts`] reads it for every command.
//!
//! ```text
//! let read = read_parts(alloc, &mut files, &environment, &wanted)?;
//! ```
#![tactic(auto)]

mod chosen;
mod environment;
mod given_table;
mod names;
mod reading;
mod wanted;

pub use chosen::{ChosenFile, NotedTable, chosen_table, file_or_own, joined, places_of};
pub use environment::{Environment, PlaceArguments, Variable};
pub use given_table::read_table;
pub use names::{read_names, read_names_for};
pub use reading::read_parts;
pub use wanted::{ReadParts, Wanted, WantedTable};
