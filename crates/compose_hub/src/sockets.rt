//! The sockets of a service: a source of connections, their streams, and what is ready of them.
ghost use Rattle.std.specs.Prelude.{◌≡◌, [], ◌∷◌, ℕ, Option, List, MatchResult};
ghost use Rattle.std.specs.Duration.{as_nanos};
ghost use Rattle.compose_hub.specs.Sockets.{KeepsBytes, StaysFailed, one_more};
ghost use Rattle.compose_hub.specs.Waits.{Wait, waits_more};

use compose_many::Streams;
use std::io;
use std::time::Duration;

/// The result of an attempt to accept a connection.
#[derive(Clone, Copy, Debug, PartialEq, Eq, Drop)]
pub enum AcceptedStream {
    /// A connection was accepted. Its stream is the one with the number that was given.
    Connection,
    /// No connection waits.
    NoneWaits,
    /// The next connection was given up, for example because it was aborted; others may wait.
    GivenUp,
    /// No connection can be accepted for now, for example because too many files are open.
    Fails,
}

/// What is ready.
#[derive(Clone, Copy, Debug, PartialEq, Eq, Drop)]
pub enum Ready {
    /// A connection may be accepted.
    Listener,
    /// The stream of the connection that was accepted under this key can be read or written, or has
    /// ended.
    Key(usize),
}

/// The sockets of a service: a listener, and the streams of the connections that were accepted.
/// Which of them are ready is reported by a [`Readiness`].
///
/// A stream exists from the start, with what its client will send. A connection that is accepted
/// gets the number of its stream.
pub trait Sockets: Streams {
    /// The number of attempts to accept a connection, if they are counted.
    ghost attempts: { Self → Option ℕ };

    /// Accepts the next connection under this number, if one waits. From now on it is reported as
    /// ready by this key.
    fn accept(&mut self, number: u64, key: usize) -> AcceptedStream
        ensures bytes { KeepsBytes number (Self.stream self.old) (Self.stream self.new) }
        ensures attempt { attempts self.new ≡ one_more (attempts self.old) };

    /// Closes the connection with this number, which is not reported from then on. A stream that
    /// has failed stays so.
    fn close(&mut self, number: u64)
        ensures bytes { KeepsBytes number (Self.stream self.old) (Self.stream self.new) }
        ensures failed { StaysFailed (Self.stream self.old number) (Self.stream self.new number) };
}

/// What tells which sockets are ready, and how much time passes.
pub trait Readiness {
    /// The waits that have ended so far, if they are known.
    ghost waits: { Self → Option (List Wait) };

    /// Waits until something is ready, but no longer than `longest_wait`. Replaces the content of
    /// `ready` by what is ready. Returns the time that has passed since it was last reported, or
    /// since waiting began to be possible; or less.
    ///
    /// Errors: an I/O error of waiting, or of the memory for `ready`.
    fn wait(
        &mut self,
        longest_wait: Option<Duration>,
        ready: &mut Vec<Ready>,
    ) -> io::Result<Duration>
        ensures { MatchResult result
            (λ passed. waits self.new ≡ waits_more (waits self.old)
            (record { ready = ready.new.items; passed = as_nanos passed } ∷ []))
            (λ _. waits self.new ≡ waits self.old) };

    /// Returns the time that has passed since it was last reported, or less.
    fn passed(&mut self) -> Duration
        ensures { waits self.new ≡ waits self.old };
}
