//! The answer of a `composecheck` command, why it has none, and how it ends.
//!
//! A command is a function from its input to `Result<Answer, Refusal>`: what is printed on standard
//! output, or why there is no answer. [`Ended::of`] returns how it ends. The parts of each
//! command's input are defined here, since a refusal names the first that is refused.
//!
//! ```text
//! Ended::of(&Err(Refusal::NoMemory)).status()    // 3
//! ```
#![tactic(auto)]

mod answer;
mod refusal;

pub use answer::{Answer, Ended};
pub use compose_migration::Refusal;
pub use refusal::fresh_refusal;
