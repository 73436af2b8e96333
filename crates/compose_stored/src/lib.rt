//! The folder of the table in use: the calls by which its files change, in an order in which a
//! power cut at any moment leaves the old table or the new one, whole.
//!
//! | File | [`Name`] | What it has |
//! |---|---|---|
//! | `table` | [`Table`](Name::Table) | the table in use |
//! | `table.new` | [`NewTable`](Name::NewTable) | any part of a table that is being stored |
//! | `previous` | [`Previous`](Name::Previous) | the table before the last change, or none |
//! | `previous.new` | [`NewPrevious`](Name::NewPrevious) | the table in use, while it is kept as the previous one |
//! | `next` | [`Next`](Name::Next) | a table that the owner chose, until the service takes it |
//! | `next.new` | [`NewNext`](Name::NewNext) | any part of a table that is being handed over |
//!
//! Nobody reads a file whose name ends with `.new`: what is left of one is removed before the next
//! is written. The files change through [`StateFiles`] alone; a function here makes at most eight
//! calls of it, and takes no memory.
//!
//! The contracts hold whatever the folder was before, with what an earlier power cut left there.
//! They speak of a file system on which changes reach the disk in the order in which they were
//! made, as a journal keeps it ([`law_power_cuts`]): at each moment the old table or the new one is
//! there, whole ([`law_whole_tables`]). An error is the reason of a call that failed.
//!
//! ```text
//! store(&mut files, bytes)?;        // the table in use, and the one before it is kept
//! hand_over(&mut files, bytes)?;    // the next table
//! use_next(&mut files)?;            // it is the table in use, and the one before it is kept
//! ```
#![tactic(auto)]

mod files;
mod laws;
mod steps;
mod storing;

pub use files::{Name, StateFiles};
pub use laws::{law_power_cuts, law_whole_tables};
pub use storing::{drop_next, hand_over, rewrite, store, use_next};
