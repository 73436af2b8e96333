//! The making of certificates: the least typing of each character that people need, and the walk
//! through an old and a new table.
//!
//! The checker doesn't use this crate, and trusts nothing that comes from it. [`find_typings`]
//! finds for each character of a repertoire a shortest list of keys that types it in the new table,
//! the first in order if several are equally short. [`make`] makes the whole certificate, or
//! returns a shortest list of keys on which the tables differ, or the first character that can't be
//! typed.
//!
//! ```text
//! match make(alloc, &old, &new, &names, &repertoire, &fresh)? {
//!     Made::Made(certificate) => certificate.write_text(alloc)?,
//!     ..
//! }
//! ```
#![tactic(auto)]

mod depth;
mod list;
mod maker;
mod pass;
mod plain;
mod typings;
mod wanted;

pub use compose_walk::{
    Counterexample, Differences, Kind, MakeFault, Pairs, Walk, differences, explain, explain_all,
    walk,
};
pub use list::TypingList;
pub use maker::{Made, make};
pub use typings::{Typings, find_typings, untypable};
