//! Fresh keysyms of a migration, and the faults of certificates.
//!
//! A certificate may list fresh keysyms: keysyms that the old table does not have, and for which
//! the move to a new table promises nothing. [`check_fresh`] returns the first condition on them
//! that fails. The faults of a certificate are defined here, since both the checker and the crates
//! that look for differences and make certificates report them.
//!
//! ```text
//! // a sequence of the old table has the keysym a
//! check_fresh(&old, &[a])    // Some(CheckFault::FreshUsed { keysym: a })
//! ```
#![tactic(auto)]

mod fault;
mod fresh;

pub use fault::CheckFault;
pub use fresh::{MAX_FRESH, check_fresh, is_among};
