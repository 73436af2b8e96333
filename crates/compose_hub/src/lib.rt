//! Many connections to one service at once, over the sockets of a service.
//!
//! [`serve_at_once`] waits until a connection may be accepted or one is ready, and gives each ready
//! connection its turns (`compose_many::turn_on`). One thread does it all, so requests are answered
//! one after another, whatever connection they come on. It is generic over its [`Sockets`] and their
//! [`Readiness`], and knows only what their contracts state: which bytes each stream read and wrote,
//! and what each wait reported. [`PolledSockets`] make the few calls of [`SocketCalls`];
//! [`poll_listener`] has those of a Unix listener and its connections.
//!
//! Its bounds: a limited number of connections is served at once, and further ones are left in the
//! listener's queue, as a service leaves them that takes one connection after another; so a client
//! waits and is not refused. The unsent replies of a connection are bounded. At most 8 connections
//! hold more than 68 KiB of a load at a time, so that many clients that begin a load cannot fill
//! the memory. Room for more goes to the connection that has waited longest for it; if nothing more
//! of a load comes for ten seconds while others wait, its connection is ended. A connection that
//! has had 4 turns, or whose load was answered, waits for the others. If there is a limit on how
//! long a connection may be idle, one that neither sends nor takes anything for longer is ended.
#![tactic(auto)]

mod calls;
mod client;
mod ends;
mod marked;
mod polled;
mod server;
mod sockets;
mod unix;
mod waits;

pub use calls::SocketCalls;
pub use client::Limits;
pub use ends::{ConnectionEnd, EndReport};
pub use mio::Interest;
pub use polled::PolledSockets;
pub use server::serve_at_once;
pub use sockets::{AcceptedStream, Readiness, Ready, Sockets};
pub use unix::{PolledReadiness, UnixCalls, poll_listener};
