//! A connection that is served, and what it waits for.
ghost use Rattle.std.specs.Prelude.{◌≡◌, true, false, if◌then◌else◌};
ghost use Rattle.compose_many.specs.Connection.{new_connection};
ghost use Rattle.compose_hub.specs.Ends.{max_held};
ghost use Rattle.compose_hub.specs.Turns.{max_turns, owned};
ghost use Rattle.compose_hub.specs.Serving.{ClientTurnsAs};
ghost use Rattle.compose_hub.specs.Slots.{uses_room, is_stalled, is_idle, idle_in, KeepsShare};

use compose_many::{Connection, Owners, Streams, Turn, TurnLimits, turn_on};
use compose_serve::Responder;
use std::alloc::Global;

/// The number of turns per connection before the next one's.
const TURNS: u32 = 4;

/// The number of bytes that a connection may hold without more room.
const HELD: usize = 65_536;

/// A second, in nanoseconds.
const SECOND: u64 = 1_000_000_000;

/// How long nothing of a load may come while others wait for room, in nanoseconds.
const PATIENCE: u64 = 10_000_000_000;

/// The limits of a service.
#[derive(Clone, Copy, Debug, PartialEq, Eq, Drop)]
pub struct Limits {
    /// The number of connections that are served at once; 0 counts as 1.
    pub at_once: usize,
    /// The number of connections after which the service ends.
    pub connections: u32,
    /// No request of a connection is answered while this many bytes of its replies, or more, are
    /// unsent; 0 counts as 1.
    pub unsent: usize,
    /// The number of seconds after which a connection that waits for its stream is ended; if
    /// `None`, no connection is ended for that.
    pub idle: Option<u32>,
    /// Whether sessions end with the connection on which they were opened.
    pub own_sessions: bool,
}

/// What a connection waits for.
#[derive(Clone, Copy, Debug, PartialEq, Eq, Drop)]
pub(crate) enum WaitsFor {
    /// Only its next turn.
    Turn,
    /// Its stream, until that is ready.
    Stream,
    /// Room, to hold more of a load.
    Room,
}

/// A connection that is served.
#[derive(Drop)]
pub(crate) struct Client {
    connection: Connection,
    number: u32,
    pub(crate) waits_for: WaitsFor,
    has_room: bool,
    /// The time since which it waits, in nanoseconds.
    since: u64,
}

impl Client {
    /// Returns a client that has had no turn, at this time.
    pub(crate) fn new(alloc: Global, number: u32, time: u64) -> Client
        ensures new { (result.number ≡ number) × (result.connection ≡ new_connection)
            × (result.has_room ≡ false) }
        ensures waits { (result.waits_for ≡ WaitsFor.Turn) × (result.since ≡ time) }
    {
        Client {
            connection: Connection::new(alloc),
            number,
            waits_for: WaitsFor::Turn,
            has_room: false,
            since: time,
        }
    }

    /// Returns the number of its connection, counted from 1.
    pub(crate) fn number(&self) -> u32
        ensures { result ≡ self.now.number }
    {
        self.number
    }

    /// Returns the number of bytes that it may hold before it needs room.
    fn most_held(&self) -> usize
        ensures { result ≡ (if self.now.has_room then usize.MAX else max_held) }
    {
        if self.has_room { usize::MAX } else { HELD }
    }

    /// Returns whether it uses the room that it was given.
    pub(crate) fn uses_room(&self) -> bool
        ensures { result ≡ uses_room self.now }
    {
        self.has_room && self.connection.held() >= HELD
    }

    /// Returns whether it uses its room, and nothing came for ten seconds.
    pub(crate) fn is_stalled(&self, time: u64) -> bool
        ensures { result ≡ is_stalled time self.now }
    {
        self.uses_room() && time.saturating_sub(self.since) >= PATIENCE
    }

    /// Returns whether it has waited for its stream for `idle` seconds or longer.
    pub(crate) fn is_idle(&self, idle: Option<u32>, time: u64) -> bool
        ensures { result ≡ is_idle idle time self.now }
    {
        match idle {
            Some(seconds) => {
                self.waits_for == WaitsFor::Stream
                    && time.saturating_sub(self.since) >= u64::from(seconds) * SECOND
            }
            None => false,
        }
    }

    /// Returns the nanoseconds that are left until it has waited for its stream for `idle` seconds,
    /// if it waits for its stream.
    pub(crate) fn idle_in(&self, idle: Option<u32>, time: u64) -> Option<u64>
        ensures { result ≡ idle_in idle time self.now }
    {
        let seconds = idle?;
        if self.waits_for != WaitsFor::Stream {
            return None;
        }
        let waited = time.saturating_sub(self.since);
        Some((u64::from(seconds) * SECOND).saturating_sub(waited))
    }

    /// Returns the time since which it waits.
    pub(crate) fn since(&self) -> u64
        ensures { result ≡ self.now.since }
    {
        self.since
    }

    /// Takes back its room, unless it uses it.
    pub(crate) fn give_back_room(&mut self)
        ensures { self.new ≡ record self.old { has_room = uses_room self.old } }
    {
        self.has_room = self.uses_room();
    }

    /// Gives it room, and its next turn.
    pub(crate) fn take_room(&mut self, time: u64)
        ensures { self.new ≡ record self.old { has_room = true; waits_for = WaitsFor.Turn; since = time } }
    {
        self.has_room = true;
        self.waits_for = WaitsFor::Turn;
        self.since = time;
    }

    /// Sets what it waits for, from this time on.
    pub(crate) fn wait(&mut self, waits_for: WaitsFor, time: u64)
        ensures { self.new ≡ record self.old { waits_for = waits_for; since = time } }
    {
        self.waits_for = waits_for;
        self.since = time;
    }

    /// Takes up to 4 turns, as long as it goes on and no load is answered. Returns what follows the
    /// last turn.
    pub(crate) fn take_turns<N: Streams, A: Responder>(
        &mut self,
        streams: &mut N,
        service: &mut A,
        owners: &mut Owners,
        alloc: Global,
        unsent: usize,
    ) -> Turn
        ensures turns { ClientTurnsAs max_turns unsent A.reading result
            (owned (A.state service.old) owners.old.list)
            (owned (A.state service.new) owners.new.list) (N.stream streams.old) (N.stream streams.new) self.old self.new }
        ensures share { KeepsShare result self.old self.new }
        ensures waits { self.new.waits_for ≡ self.old.waits_for }
    {
        'turns: for _ in 0..TURNS {
            match self.turn(streams, service, owners, alloc, unsent) {
                Turn::GoesOn => {}
                turn => return turn,
            }
        }
        Turn::GoesOn
    }

    /// Takes one turn, on its own stream.
    fn turn<N: Streams, A: Responder>(
        &mut self,
        streams: &mut N,
        service: &mut A,
        owners: &mut Owners,
        alloc: Global,
        unsent: usize,
    ) -> Turn
        ensures turn { ClientTurnsAs 1 unsent A.reading result
            (owned (A.state service.old) owners.old.list)
            (owned (A.state service.new) owners.new.list) (N.stream streams.old) (N.stream streams.new) self.old self.new }
        ensures share { KeepsShare result self.old self.new }
        ensures waits { self.new.waits_for ≡ self.old.waits_for }
    {
        let limits = TurnLimits {
            unsent,
            held: self.most_held(),
        };
        let number = u64::from(self.number);
        turn_on(
            streams,
            &mut self.connection,
            service,
            owners,
            alloc,
            limits,
            number,
        )
    }
}
