//! The input of a command, read once: names, tables, and other texts.
//!
//! Everything is read through a [`ReadOnce`](compose_folder::ReadOnce), so that each path is opened
//! once in a run. It is returned as a value: the bytes that were read, or the [`Fault`] with the
//! reason why there are none. Nothing is printed here.
//!
//! ```text
//! let names = NameFiles::read(&mut files, alloc, &["builtin"])?;
//! // By a manifest.
//! let table = TableFiles::listed(&mut files, alloc, "table", "table.manifest")?;
//! // A Compose file, includes followed.
//! let table = TableFiles::found(&mut files, alloc, places, "old", "en_US", rule)?;
//! ```
#![tactic(auto)]

mod fault;
mod headers;
mod names;
mod places;
mod search;
mod tables;
mod texts;

pub use fault::{Fault, Unopened};
pub use headers::{add_names, line_count};
pub use names::{Header, NameFiles};
pub use places::Places;
pub use search::find_files;
pub use tables::{LocaleTable, TableFiles, files_note};
pub use texts::read_text;
