//! The arguments of the command line of `composecheck`, as requests.
//!
//! A command that reads files and answers is a variant of [`Question`], any other one a variant of
//! [`CommandRequest`]. Each is a row of `commands`, and a line of `question_of` or `request_of`.
//!
//! ```text
//! read_command_line(alloc, &arguments)?.request    // type table.manifest a b
//!
//! Request::Answer(Question::Keys {
//!     table: TypeTable::Manifest("table.manifest"),
//!     keys: ["a", "b"],
//! })
//! ```
#![tactic(auto)]

mod client_arguments;
mod command_line;
mod commands;
mod diff_arguments;
mod given_tables;
mod how_arguments;
mod lint_arguments;
mod list_arguments;
mod manifest_arguments;
mod merge_arguments;
mod name_lists;
mod question;
mod request;
mod rows;
mod serve_arguments;
mod status_arguments;
mod table_arguments;
mod update_arguments;

pub use client_arguments::{LoadArguments, SessionArguments};
pub use diff_arguments::{DiffArguments, DiffColor, DiffForm};
pub use given_tables::{BothTables, FilePair, TablePaths, TypeTable};
pub use how_arguments::HowArguments;
pub use lint_arguments::LintArguments;
pub use list_arguments::{ListArguments, ListAsArguments, ListSort, TableReader};
pub use manifest_arguments::ManifestArguments;
pub use merge_arguments::MergeArguments;
pub use question::Question;
pub use request::{CommandLine, CommandRequest, read_command_line};
pub use serve_arguments::{ServeArguments, Served, ServedFiles};
pub use status_arguments::{StatusArguments, StatusForm};
pub use table_arguments::TableArguments;
pub use update_arguments::{TakingArguments, UpdateArguments};
