//! Reads a migration, that is, a move from an old compose table to a new one: the keysym names, the
//! keysyms of the arguments, and both tables, each read once. The checker and the crates that
//! explain differences and make certificates start from it. The first part in that order that has a
//! fault is refused. The other parts of a command's input are read here too, since a [`Refusal`]
//! names the first part that is refused.
//!
//! ```text
//! let migration: Migration<PackedTable> = Migration::read(alloc, input)?;
//! walk(alloc, &migration.old, &migration.new, &migration.names, &migration.keys)
//! ```
#![tactic(auto)]

mod keys;
mod migration;
mod parts;
mod read_table;
mod refusal;

pub use keys::look_up_keys;
pub use migration::{Migration, MigrationInput, Named, TableInput};
pub use parts::{read_certificate, read_only_table, read_repertoire};
pub use read_table::ReadTable;
pub use refusal::{Refusal, Side};
