//! `explain`, from the folder to the outcome: one function for tables that are named by their
//! manifests and for Compose files. Each table is read once, and what was parsed is what `-v` looks
//! at.
//!
//! ```text
//! let outcome = run_explain::<PackedTable, _>(alloc, &mut files, &environment, &asked)?;
//! ```
#![tactic(auto)]

mod explaining;
mod question;
mod running;
mod sides;

pub use explaining::explain_tables;
pub use question::Explain;
pub use running::run_explain;
pub use sides::Side;
