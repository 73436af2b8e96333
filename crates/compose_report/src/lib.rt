//! What a command prints, and how its run ends. An [`Outcome`] is a value. It is made from an
//! answer or a refusal (with what `-v` adds), from what a command tells, from unreadable input, from
//! an exchange with a service, or from clap's response to the arguments. One function prints it. A
//! contract can't say whether a stream accepts a text. So the end of a run is specified for both
//! cases: the text was written, or it could not be.
//!
//! ```text
//! let outcome = outcome_of::<PackedTable>(alloc, verbose, &given, answered)?;
//! exit_code(print(rt, &outcome))
//! ```
#![tactic(auto)]

mod answers;
mod arguments;
mod exchange;
mod faults;
mod form;
mod outcome;
mod printing;
mod reporting;
mod told;

pub use answers::{outcome_of, outcome_with, reported_text, worded_outcome, worded_refusal};
pub use arguments::arguments_outcome;
pub use exchange::exchange_outcome;
pub use faults::{fault_outcome, fault_worded};
pub use form::Form;
pub use outcome::Outcome;
pub use printing::{exit_code, no_memory, print, print_beside_file, written};
pub use reporting::report;
pub use told::Told;
