//! The command `serve` over values: how a service begins from the bytes of its files, and the lines
//! for connections.
//!
//! ```text
//! let input = BeginInput { header, repertoire, rule, certificate };
//! match begin::<PackedTable>(alloc, &input, sources) {
//!     Ok(service) => ..,                            // listening
//!     Err(BeginFault::Invalid(fault)) => ..,        // printed as `check` prints it
//!     Err(BeginFault::Refused(refusal)) => ..,
//! }
//! ```
#![tactic(auto)]

mod connection;
mod fresh;
mod journal;
mod start;

pub use connection::{end_text, unprinted_after, unprinted_text};
pub use fresh::allow_fresh;
pub use journal::{LoadEnd, chosen_text, load_text, table_text};
pub use start::{BeginFault, BeginInput, begin};
