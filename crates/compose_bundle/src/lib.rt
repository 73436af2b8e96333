//! Bundles: the payload of a load, with the sources of a table, the root first, and the text of a
//! certificate.
//!
//! `IsBundle` in the specs defines which bytes are which bundle, and `law_one_bundle` is the law
//! that a payload is at most one. A service reads bundles with [`read_bundle`]; a client that sends
//! a load writes one with [`write_bundle`].
//!
//! ```text
//! 0001                        one source
//! 0001 72  00000000           its name, r, and its content, which is empty
//! 00000034 636f6d70..         a certificate of 52 bytes
//! ```
#![tactic(auto)]

mod law;
mod read;
mod write;

pub use law::law_one_bundle;
pub use read::{Bundle, read_bundle};
use thiserror::Error;
pub use write::write_bundle;

/// Why a bundle can't be read or written.
#[derive(Clone, Copy, Debug, PartialEq, Eq, Drop, Error)]
pub enum BundleFault {
    /// The bytes are not a bundle.
    #[error("1 Form")]
    Form,
    /// No load can carry the bundle: it has no source, a name has more than 65,535 bytes, or the
    /// whole has more than 8,388,608 bytes.
    #[error("2 TooLarge")]
    TooLarge,
    /// A memory allocation failed.
    #[error("3 NoMemory")]
    NoMemory,
}
