//! A Unix listener and its connections, and what is ready of them.
ghost use Rattle.std.specs.Prelude.{◌≡◌, ℕ, None, IfOk, nat_eq};
ghost use Rattle.std.specs.HashMap.{get};

use crate::calls::SocketCalls;
use crate::polled::PolledSockets;
use crate::sockets::{Readiness, Ready};
use mio::net::{UnixListener, UnixStream};
use mio::{Events, Interest, Poll, Registry, Token};
use std::alloc::Global;
use std::io;
use std::net::Net;
use std::rt::Clock;
use std::time::Duration;

/// The token of the listener.
const LISTENER: Token = Token(usize::MAX);

/// The number of events per wait: the listener and 1,024 connections, so that no ready connection
/// is taken for idle.
const EVENTS: usize = 1_025;

/// The calls of the system on a Unix listener.
#[derive(Drop)]
pub struct UnixCalls {
    listener: UnixListener,
    registry: Registry,
}

impl SocketCalls for UnixCalls {
    type Stream = UnixStream;

    ghost calls = { λ c. None };

    fn accept_next(&mut self) -> io::Result<UnixStream> {
        let (stream, _) = self.listener.accept()?;
        Ok(stream)
    }

    fn watch(&mut self, stream: &mut UnixStream, key: usize, interest: Interest) -> io::Result<()> {
        self.registry.register(stream, Token(key), interest)
    }
}

/// What the system reports as ready of a Unix listener and its connections.
#[derive(Drop)]
pub struct PolledReadiness<'c, C> {
    clock: &'c C,
    /// The time at which the passed time was last asked for.
    asked: Duration,
    poll: Poll,
    events: Events,
}

/// Returns the sockets of a listener that does not wait, and what is ready of them.
///
/// It takes memory for the events of one wait. Errors: an I/O error if that memory runs out, if the
/// system can't poll or watch the listener, or if the clock can't be read.
pub fn poll_listener<'c, C: Clock + Net>(
    clock: &'c C,
    alloc: Global,
    listener: UnixListener,
) -> io::Result<(PolledSockets<UnixCalls>, PolledReadiness<'c, C>)>
    ensures none { IfOk result
        (λ polled. (number : ℕ) → get nat_eq polled.0.streams number ≡ None) }
{
    let mut listener = listener;
    let poll = Poll::new(clock)?;
    let asked = clock.monotonic()?;
    let registry = poll.registry().try_clone()?;
    registry.register(&mut listener, LISTENER, Interest::READABLE)?;
    let events = Events::with_capacity(alloc, EVENTS)?;
    let sockets = PolledSockets::new(UnixCalls { listener, registry }, alloc);
    let readiness = PolledReadiness {
        clock,
        asked,
        poll,
        events,
    };
    Ok((sockets, readiness))
}

impl<C: Clock> Readiness for PolledReadiness<'_, C> {
    ghost waits = { λ r. None };

    /// Waits once. At most 1,025 events are reported at once, the others at the next wait. Errors:
    /// an I/O error of waiting, or of the memory for `ready`.
    fn wait(
        &mut self,
        longest_wait: Option<Duration>,
        ready: &mut Vec<Ready>,
    ) -> io::Result<Duration> {
        ready.clear();
        self.poll.poll(&mut self.events, longest_wait)?;
        for event in &self.events {
            let Token(key) = event.token();
            ready.push(if key == usize::MAX {
                Ready::Listener
            } else {
                Ready::Key(key)
            })?;
        }
        Ok(self.passed())
    }

    /// Measures by the clock. Returns zero if the clock can't be read.
    fn passed(&mut self) -> Duration {
        let Ok(now) = self.clock.monotonic() else {
            return Duration::ZERO;
        };
        let passed = now.saturating_sub(self.asked);
        self.asked = now;
        passed
    }
}
