//! A service that keeps its table: each load that it takes is kept before it is swapped in, so that
//! a start after a cut, at whatever moment, goes on with the table that was served, or with one that
//! follows it.
//!
//! A [`Keep`] is where the table is kept; its contract says what a start may find, at each moment of
//! a call. A [`Keeper`] is a service with a `Keep`. Its steps are those of the machine in
//! `compose_machine`, in which a load that can't be kept is one for which there is no memory.
//! [`law_keeping`] says what a cut leaves, after any run.
//!
//! ```text
//! let mut keeper: Keeper<PackedTable, Disk> = Keeper::resume(alloc, names, repertoire, disk)?;
//! keeper.answer_into(alloc, &request, &mut reply);    // a load: judged, kept, swapped in, answered
//! ```
#![tactic(auto)]

mod keep;
mod keeper;
mod laws;
mod scripted;
mod stream;

pub use keep::{Keep, KeptTable, NotKept};
pub use keeper::{Keeper, ResumeFault};
pub use laws::{law_keeping, law_next_load};
pub use scripted::Scripted;
