//! The commands that read files and answer, as one function: from the question, the environment and
//! the contents of the files to what is printed and how the run ends. Nothing is printed here, and
//! files are read through a [`ReadOnce`](compose_folder::ReadOnce) alone.
//!
//! ```text
//! let form = fault_form(options.verbose, &request);
//! let outcome = run_question::<PackedTable, _>(
//!     alloc, &mut files, &environment, options, form, &question,
//! )?;
//! print(rt, &outcome)
//! ```
#![tactic(auto)]

mod answering;
mod faults;
mod questions;

pub use answering::run_question;
pub use faults::{fault_form, fault_in_form};
