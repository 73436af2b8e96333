//! The table of a Compose file as another reader has it: what it types, and what became of the rest.
//!
//! [`read_files`] reads a file and all files to which includes lead from it, and [`list_as`] returns
//! the lines of the definitions that the reader takes, and a report of what it doesn't, or why it
//! refuses the table.
//!
//! ```text
//! <Multi_key> <a> <b> : "y"  # home/.XCompose:2
//!
//! composecheck: home/.XCompose:1: overridden by the longer sequence of home/.XCompose:2
//! composecheck: home/.XCompose:3: left out: an unknown name of a key
//! libxkbcommon 1.7 takes 1 of 3 definitions of 1 file
//! ```
#![tactic(auto)]

mod judged;
mod line;
mod listed;
mod reading;
mod report;
mod run;

pub use listed::{ListedAs, list_as};
pub use reading::read_files;
pub use run::run_list_as;
