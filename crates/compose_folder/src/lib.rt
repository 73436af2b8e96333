//! The files that a run reads, each of them once.
//!
//! A [`Folder`] returns the bytes of the file under a path, or the reason why it cannot be read.
//! [`ReadOnce`] asks a folder for each path at most once, however often the path is read, and keeps
//! the result, also if it is an error. So any file may be a pipe, and reading a path again returns
//! what was read the first time. [`Disk`] is the folder that the program uses; [`Memory`] is a
//! folder of known files, which keeps the list of paths that it was asked for.
//!
//! ```text
//! let mut files = ReadOnce::new(alloc, Disk::new(rt));
//! files.read(alloc, "en_US")?    // opened here
//! files.read(alloc, "en_US")?    // a copy of what was read
//! files.read(alloc, "-")?        // standard input, to its end
//! ```
#![tactic(auto)]

mod disk;
mod known;
mod once;
mod reading;

pub use disk::Disk;
pub use known::Memory;
pub use once::ReadOnce;
pub use reading::{Folder, Unread};
