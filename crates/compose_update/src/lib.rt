//! Updates of the table from which a service starts: a new table replaces it only if nobody's
//! typing changes.
//!
//! [`decide_update`] is the decision, over values. It returns the bytes to store from then on, and
//! the certificate with which a running service takes the new table; or why everything stays as it
//! is. [`law_update`] says what that guarantees.
//!
//! ```text
//! match decide_update::<PackedTable>(alloc, &input)? {
//!     Update::Replaced { stored, certificate } => ..,    // load it, then replace the stored bytes
//!     Update::Refused(text) => ..,                       // the lines that `make` prints
//! }
//! ```
#![tactic(auto)]

mod deciding;
mod law;

pub use deciding::{Update, UpdateFault, UpdateInput, decide_update};
pub use law::law_update;
