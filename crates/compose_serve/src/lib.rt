//! The typing service on a stream of bytes.
//!
//! [`serve`] reads frames from a reader, has each request answered, and writes the reply before it
//! reads the next frame. A stream may be cut anywhere and may be hostile. For each way in which it
//! can end, the contract of `serve` says which requests were answered, what was written, to the
//! byte, and that the service is in the state to which these requests lead.
//!
//! A reader is a [`Pull`] and a writer is a [`Push`]. Their contracts say which bytes are left or
//! written, if that is known, and whether they are marked as failed. A [`Device`] makes them from
//! any reader and writer of std, such as the two directions of a socket.
//!
//! ```text
//! read     01 00000007 00000000  02 00000007 00000004 0000fe50
//! written  81 00000007 00000000  82 00000007 00000002 01 01
//! ```
#![tactic(auto)]

mod device;
mod ends;
mod next;
mod serving;
mod streams;

pub use device::Device;
pub use ends::{ServeFault, StreamEnd};
pub use serving::{Responder, serve};
pub use streams::{Failed, Pull, Push};
