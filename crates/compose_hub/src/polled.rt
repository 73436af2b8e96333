//! A listener and its connections, as sockets that are polled.
ghost use Rattle.std.specs.Prelude.{◌≡◌, ◌≢◌, ◌⊎◌, ℕ, [], ◌∷◌, List, None, nat_eq};
ghost use Rattle.std.specs.HashMap.{get};
ghost use Rattle.compose_hub.specs.Sockets.{KeepsBytes, StaysFailed};
ghost use Rattle.compose_hub.specs.Calls.{Call, AreAccepting, calls_more, watches_both};
ghost use Rattle.compose_hub.specs.Polled.{polled_at};

use crate::calls::SocketCalls;
use crate::marked::Marked;
use crate::sockets::{AcceptedStream, Sockets};
use compose_many::{Streams, TryError};
use indexmap::IndexMap;
use mio::Interest;
use std::alloc::Global;
use std::io::ErrorKind;

/// A listener and the connections that were accepted, each of which is watched: it is reported as
/// it becomes ready.
///
/// The bytes of a stream are not known to contracts, since the system holds them. Why a stream read
/// or wrote none is known.
#[derive(Drop)]
pub struct PolledSockets<S: SocketCalls> {
    system: S,
    streams: IndexMap<u64, Marked<S::Stream>>,
}

impl<S: SocketCalls> PolledSockets<S> {
    /// Returns the sockets of a listener without connections. O(1).
    pub fn new(system: S, alloc: Global) -> PolledSockets<S>
        ensures none { (number : ℕ) → get nat_eq result.streams number ≡ None }
        ensures calls { S.calls result.system ≡ S.calls system }
    {
        PolledSockets {
            system,
            streams: IndexMap::new(alloc),
        }
    }

    /// Accepts a connection under this number, and has it watched under this key.
    fn accept_watched(&mut self, number: u64, key: usize) -> AcceptedStream
        ensures bytes { KeepsBytes number (λ c. polled_at self.old.streams c)
            (λ c. polled_at self.new.streams c) }
        ensures calls { (made : List Call) × AreAccepting key result made
            × (S.calls self.new.system ≡ calls_more (S.calls self.old.system) made) }
    {
        if self.streams.contains_key(&number) {
            return AcceptedStream::GivenUp;
        }
        match self.system.accept_next() {
            Ok(stream) => self.admit(number, key, stream),
            Err(error) => refused(error.kind()),
        }
    }

    /// Keeps a stream under this number, watched under this key, if it can be watched and there is
    /// memory for it.
    fn admit(&mut self, number: u64, key: usize, stream: S::Stream) -> AcceptedStream
        ensures bytes { KeepsBytes number (λ c. polled_at self.old.streams c)
            (λ c. polled_at self.new.streams c) }
        ensures calls { S.calls self.new.system
            ≡ calls_more (S.calls self.old.system) (watches_both key ∷ []) }
        ensures either { (result ≡ AcceptedStream.Connection)
            ⊎ (result ≡ AcceptedStream.GivenUp) }
    {
        let mut stream = stream;
        let interest = Interest::READABLE | Interest::WRITABLE;
        if self.system.watch(&mut stream, key, interest).is_err() {
            return AcceptedStream::GivenUp;
        }
        match self.streams.insert(number, Marked::new(stream)) {
            Ok(_) => AcceptedStream::Connection,
            Err(_) => AcceptedStream::GivenUp,
        }
    }

    /// Closes the connection with this number, if there is one.
    fn close_watched(&mut self, number: u64)
        ensures bytes { KeepsBytes number (λ c. polled_at self.old.streams c)
            (λ c. polled_at self.new.streams c) }
        ensures failed { StaysFailed (polled_at self.old.streams number)
            (polled_at self.new.streams number) }
        ensures closed { get nat_eq self.new.streams number ≡ None }
        ensures calls { S.calls self.new.system ≡ S.calls self.old.system }
    {
        let _ = self.streams.swap_remove(&number);
    }
}

/// Returns what an error of accepting means: only `WouldBlock` means that no connection waits.
fn refused(kind: ErrorKind) -> AcceptedStream
    ensures waits { kind ≡ ErrorKind.WouldBlock → result ≡ AcceptedStream.NoneWaits }
    ensures aborted { kind ≡ ErrorKind.ConnectionAborted → result ≡ AcceptedStream.GivenUp }
    ensures interrupted { kind ≡ ErrorKind.Interrupted → result ≡ AcceptedStream.GivenUp }
    ensures none { result ≢ AcceptedStream.Connection }
{
    match kind {
        ErrorKind::WouldBlock => AcceptedStream::NoneWaits,
        ErrorKind::ConnectionAborted | ErrorKind::Interrupted => AcceptedStream::GivenUp,
        _ => AcceptedStream::Fails,
    }
}

impl<S: SocketCalls> Streams for PolledSockets<S> {
    ghost stream = { λ s c. polled_at s.streams c };

    /// Reads the socket once. Errors: also `Failed` if no stream has this number. O(1) besides the
    /// read.
    fn try_pull(&mut self, number: u64, piece: &mut [u8]) -> Result<usize, TryError> {
        match self.streams.get_mut(&number) {
            Some(stream) => stream.try_pull(piece),
            None => Err(TryError::Failed),
        }
    }

    /// Writes to the socket once. Errors: also `Failed` if no stream has this number. O(1) besides
    /// the write.
    fn try_push(&mut self, number: u64, piece: &[u8]) -> Result<usize, TryError> {
        match self.streams.get_mut(&number) {
            Some(stream) => stream.try_push(piece),
            None => Err(TryError::Failed),
        }
    }
}

impl<S: SocketCalls> Sockets for PolledSockets<S> {
    ghost attempts = { λ s. None };

    /// Attempts once to accept. A connection is given up if its number is in use, or if it can't be
    /// watched or kept.
    fn accept(&mut self, number: u64, key: usize) -> AcceptedStream {
        self.accept_watched(number, key)
    }

    /// Closes the socket. O(1).
    fn close(&mut self, number: u64) {
        self.close_watched(number)
    }
}
