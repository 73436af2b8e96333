//! A connection to the typing service as a value, for a program that serves many of them at once.
//!
//! `compose_serve` serves one stream to its end, and waits whenever the stream makes it wait. Here
//! a [`Connection`] keeps the bytes that came and are not yet answered, and those that are not yet
//! sent. [`turn_on`] does as much as can be done without waiting: it sends, it answers up to one
//! load, and it reads a piece if all is sent. So one thread can give turns to many connections,
//! each when its stream is ready.
//!
//! The streams of all connections are one value, [`Streams`], which finds a stream by the number of
//! its connection. By its contract, a turn of `turn_on` is a list of events of its own connection.
//! The bytes that it reads from the stream with its number, and writes to it, are those that come
//! and are sent in these events, and no other stream changes. How a connection ends is defined in
//! the terms that `serve` uses for a stream. The laws state what follows for many connections, in
//! any order: each gets the replies to its own requests alone, all of them together are one run of
//! the service, and each stream reads and writes the bytes of its own connection alone
//! ([`law_connections`], [`law_streams`], [`law_ends`]).
//!
//! A reader is a [`TryPull`] and a writer a [`TryPush`], which return `WouldBlock` instead of
//! waiting. [`Nonblocking`] makes them from any reader and writer of std that do not wait, and
//! [`StreamTable`] makes streams from lists of them.
#![tactic(auto)]

mod connection;
mod laws;
mod nonblocking;
mod numbered;
mod owners;
mod streams;
mod table;
mod turn;

pub use connection::Connection;
pub use laws::{law_connections, law_ends, law_own_sessions};
pub use nonblocking::Nonblocking;
pub use numbered::{Streams, law_streams};
pub use owners::{Owner, Owners, close_own};
pub use streams::{TryError, TryPull, TryPush};
pub use table::StreamTable;
pub use turn::{Turn, TurnLimits, turn_on};
