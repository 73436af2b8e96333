//! The connections of a service, and their turns.
ghost use Rattle.std.specs.Prelude.{◌≡◌, ◌≢◌, ◌||◌, ◌≤◌, ◌==◌, ◌&&◌, [], ◌∷◌, ℕ, Bool, Option, List, ◌+◌, ◌<◌, ◌^◌, max, length, get_or, slice_set, vec_len, count_by, true, None, IfOk, OnOk};
ghost use Rattle.compose_machine.specs.Machine.{Reading};
ghost use Rattle.compose_many.specs.Connection.{new_connection};
ghost use Rattle.compose_hub.specs.Sockets.{KeepsBytes, one_more, IsMore};
ghost use Rattle.compose_hub.specs.Ends.{ReportedEnd};
ghost use Rattle.compose_hub.specs.Turns.{OwnedService, owned};
ghost use Rattle.compose_hub.specs.Serving.{world, at_now, ServesMany, ServesAll, HasServed, GoesOnServing, AcceptsAs, WaitsSince, AllAreStill, HasNone, SlotIsStill, SlotTurnsAs, ClosesAfter};
ghost use Rattle.compose_hub.specs.Loop.{AllKeepOrAccept, IsLoop};
ghost use Rattle.compose_hub.specs.Round.{EachSlot, TakesTurns, GivesUp, SharesRoom, AllAreKept, IsRound};
ghost use Rattle.compose_hub.specs.Rounds.{queue_after, retried, is_waits, is_wanted, is_done, has_turns, waits_for_room, has_slot, later, wait_for_work, sooner, IsNextIdle, why_ended, SlotGivesUp, queue_with, MarksReady, KeepsRooms, KeepsRoom, is_room_short};
ghost use Rattle.compose_hub.specs.Slots.{slot_uses_room, slot_has_room, given_turn, given_room, kept_room};
ghost use Rattle.compose_hub.specs.Sockets.{AllStay, BytesStay};
ghost use Rattle.std.specs.Option.{option_map, is_none};
ghost use Rattle.std.specs.List.{list_any, list_all};
ghost use Rattle.std.specs.Duration.{as_nanos};

use crate::client::{Client, Limits, WaitsFor};
use crate::ends::{ConnectionEnd, EndReport, tell};
use crate::sockets::{AcceptedStream, Readiness, Ready, Sockets};
use crate::waits::{next_idle, sooner, waits_longest};
use compose_many::{Owners, Turn, close_own};
use compose_serve::Responder;
use std::alloc::Global;
use std::io;
use std::time::Duration;

/// The number of connections that may hold more of a load than the others.
const ROOMS: usize = 8;

/// Whether connections may wait to be accepted.
#[derive(Clone, Copy, Debug, PartialEq, Eq, Drop)]
pub(crate) enum Queue {
    /// No connection waited at the last attempt.
    Empty,
    /// Some may wait.
    Waits,
    /// Some may wait, but none could be accepted at the last attempt.
    Failed,
}

/// The connections, each in a slot of its own. The index of the slot is the key of its stream.
#[derive(Drop)]
struct Server {
    slots: Vec<Option<Client>>,
    accepted: u32,
    queue: Queue,
    /// The open sessions, each with the connection on which it was opened.
    owners: Owners,
    /// How long the server has been serving, in nanoseconds.
    time: u64,
}

/// Serves the connections to the sockets, many at once, until as many as are asked for have ended.
///
/// Whatever is ready, and however it ends, all that happened on the connections is one list of
/// events. In it, each connection goes on from new by its own events, and the service goes on by
/// the requests of all of them as they were answered. The bytes that were read from a stream are
/// those that came in the events of its own connection, and the bytes that were written to it are
/// those that were sent in them. The connections are numbered from 1, up to the number that was
/// asked for. The laws `law_connections` and `law_streams` of `compose_many` apply to this list.
/// Each connection that is reported as ended has ended in the reported way, and if the function
/// returns `Ok`, each was reported once.
///
/// What it does is one round for each wait, and nothing else: it accepts connections into free
/// slots, waits, and takes the round after the wait. In it each connection that was reported as
/// ready and waited for its stream has its turns, those that were idle for too long are ended, free
/// room is given, and the time that passed is counted. Which connections are ready is what the
/// waits report.
///
/// If a connection can't be accepted for a cause that is not its own, such as too many open files,
/// it is tried again after at most a second. A connection that is idle for longer than it may be is
/// ended. If sessions end with their connection, then once a connection has ended a Close is
/// answered for each session that was opened on it and is still open, as if it had been the last
/// request, and the replies are dropped: in the list of events these Closes come after all others
/// of the connection. No session that was opened on another connection is closed for it, whoever
/// opened one with the same number before.
///
/// Errors: an I/O error of waiting, of the memory for the slots, or of the report, which breaks off
/// its round; `TimedOut` after 2^64 - 1 rounds.
///
/// It takes memory for as many slots as connections are served at once. A round costs O(slots)
/// besides the turns in it.
pub fn serve_at_once<N: Sockets, W: Readiness, A: Responder, E: EndReport>(
    sockets: &mut N,
    readiness: &mut W,
    alloc: Global,
    service: &mut A,
    limits: Limits,
    report: &mut E,
) -> io::Result<()>
    ensures serves { ServesMany limits A.reading
        (world (A.state service.old) (N.stream sockets.old) (E.reported report.old))
        (world (A.state service.new) (N.stream sockets.new) (E.reported report.new)) }
    ensures all { OnOk result (ServesAll limits A.reading
        (world (A.state service.old) (N.stream sockets.old) (E.reported report.old))
        (world (A.state service.new) (N.stream sockets.new) (E.reported report.new))) }
    ensures rounds { IsLoop limits A.reading (W.waits readiness.old) (W.waits readiness.new)
        (world (A.state service.old) (N.stream sockets.old) (E.reported report.old))
        (world (A.state service.new) (N.stream sockets.new) (E.reported report.new)) result }
{
    let mut ready = Vec::new(alloc);
    let mut server = Server::new(alloc, limits.at_once)?;
    'rounds: for _ in 0..u64::MAX {
        let behind = !report.catch_up();
        server.accept_all(alloc, sockets, limits);
        if server.is_done(limits) {
            return Ok(());
        }
        let passed = readiness.wait(server.longest_wait(limits, behind), &mut ready)?;
        server.round(
            sockets, readiness, service, alloc, limits, report, &ready, passed,
        )?;
    }
    Err(io::Error::from(io::ErrorKind::TimedOut))
}

impl Server {
    /// Returns a server without connections.
    fn new(alloc: Global, at_once: usize) -> io::Result<Server>
        ensures { IfOk result
            (λ server. (vec_len server.slots ≡ max at_once 1) × HasNone server.slots.items
            × (server.accepted ≡ 0) × (server.owners.list ≡ []) × (server.time ≡ 0)) }
    {
        let mut slots = Vec::new(alloc);
        'slots: for _ in 0..at_once.max(1) {
            slots.push(None)?;
        }
        Ok(Server {
            slots,
            accepted: 0,
            queue: Queue::Waits,
            owners: Owners::new(alloc),
            time: 0,
        })
    }

    /// Returns whether all connections that are asked for have ended.
    fn is_done(&self, limits: Limits) -> bool
        ensures { result ≡ is_done limits self.now.accepted self.now.slots.items }
    {
        self.accepted >= limits.connections && self.all_free()
    }

    /// Returns whether no slot has a connection.
    fn all_free(&self) -> bool
        ensures { result ≡ list_all is_none self.now.slots.items }
    {
        self.slots.iter().all(|slot| slot.is_none())
    }

    /// Returns how long to wait at most for something to become ready; `None` is no limit.
    fn longest_wait(&self, limits: Limits, behind: bool) -> Option<Duration>
        ensures { (idle : Option ℕ) × IsNextIdle limits.idle self.now.time self.now.slots.items idle
            × (option_map as_nanos result ≡ sooner (wait_for_work self.now.queue (has_slot limits self.now.accepted self.now.slots.items)
            (has_turns self.now.slots.items) (waits_for_room self.now.slots.items || behind)) idle) }
    {
        let idle = next_idle(&self.slots, limits.idle, self.time);
        sooner(self.wait_for_work(limits, behind), idle)
    }

    /// Returns the same, but ignores connections that become idle.
    fn wait_for_work(&self, limits: Limits, behind: bool) -> Option<Duration>
        ensures { option_map as_nanos result ≡ wait_for_work self.now.queue (has_slot limits self.now.accepted self.now.slots.items)
            (has_turns self.now.slots.items) (waits_for_room self.now.slots.items || behind) }
    {
        if self.has_turns() || (self.queue == Queue::Waits && self.has_slot(limits)) {
            return Some(Duration::ZERO);
        }
        if self.queue == Queue::Failed || self.waits_for_room() || behind {
            return Some(Duration::from_secs(1));
        }
        None
    }

    /// Returns whether a connection waits only for its next turn.
    fn has_turns(&self) -> bool
        ensures { result ≡ has_turns self.now.slots.items }
    {
        self.slots.iter().any(|slot| match slot {
            Some(client) => client.waits_for == WaitsFor::Turn,
            None => false,
        })
    }

    /// Returns whether a connection waits for room.
    fn waits_for_room(&self) -> bool
        ensures { result ≡ waits_for_room self.now.slots.items }
    {
        self.slots.iter().any(|slot| match slot {
            Some(client) => client.waits_for == WaitsFor::Room,
            None => false,
        })
    }

    /// Returns whether a connection waits for room and none is free. O(slots).
    fn is_room_short(&self) -> bool
        ensures { result ≡ is_room_short self.now.slots.items }
    {
        self.waits_for_room() && rooms_used(&self.slots) >= ROOMS
    }

    /// Returns whether a further connection can be served.
    fn has_slot(&self, limits: Limits) -> bool
        ensures { result ≡ has_slot limits self.now.accepted self.now.slots.items }
    {
        self.accepted < limits.connections && self.any_free()
    }

    /// Returns whether a slot has no connection.
    fn any_free(&self) -> bool
        ensures { result ≡ list_any is_none self.now.slots.items }
    {
        self.slots.iter().any(|slot| slot.is_none())
    }

    /// Takes a round, after a wait that reported these sources as ready, while this much time
    /// passed.
    ///
    /// Each connection that was reported and waited for its stream has its turns, and so has each
    /// whose turn was next. Then those are ended that hold up others, or that were idle for as long
    /// as they may be when the wait began: had anything come by then, the wait would have reported
    /// it. So nothing that came is lost because the process itself was stopped. At last the free
    /// rooms are given to connections that wait for room.
    ///
    /// Errors: an I/O error of the report; then the round is not taken to its end. O(slots), and
    /// what the turns cost.
    fn round<N: Sockets, W: Readiness, A: Responder, E: EndReport>(
        &mut self,
        sockets: &mut N,
        readiness: &mut W,
        service: &mut A,
        alloc: Global,
        limits: Limits,
        report: &mut E,
        ready: &[Ready],
        passed: Duration,
    ) -> io::Result<()>
        ensures happened { HasServed limits A.reading
            (at_now (owned (A.state service.old) self.old.owners.list) (N.stream sockets.old)
            (E.reported report.old))
            (world (A.state service.new) (N.stream sockets.new) (E.reported report.new))
            self.old.accepted self.old.slots.items }
        ensures goes_on { OnOk result (GoesOnServing limits A.reading
            (at_now (owned (A.state service.old) self.old.owners.list) (N.stream sockets.old)
            (E.reported report.old))
            (at_now (owned (A.state service.new) self.new.owners.list) (N.stream sockets.new)
            (E.reported report.new))
            self.old.accepted self.new.accepted self.old.slots.items self.new.slots.items) }
        ensures round { OnOk result (IsRound limits A.reading ready.now (as_nanos passed)
            (at_now (owned (A.state service.old) self.old.owners.list) (N.stream sockets.old)
            (E.reported report.old))
            (at_now (owned (A.state service.new) self.new.owners.list) (N.stream sockets.new)
            (E.reported report.new))
            self.old.time self.new.time self.old.slots.items self.new.slots.items) }
        ensures queue { OnOk result (self.new.queue ≡ queue_with ready.now self.old.queue) }
        ensures rooms { KeepsRooms self.old.slots.items self.new.slots.items }
        ensures waits { W.waits readiness.new ≡ W.waits readiness.old }
    {
        let began = self.time;
        self.count_time(passed);
        self.mark_ready(ready);
        self.take_turns(sockets, readiness, service, alloc, limits, report)?;
        self.give_up(sockets, service, alloc, limits, report, began)?;
        self.share_room();
        Ok(())
    }

    /// Adds the time that has passed.
    fn count_time(&mut self, passed: Duration)
        ensures { self.new ≡ record self.old { time = later self.old.time (as_nanos passed) } }
    {
        self.time = later(self.time, passed);
    }

    /// Accepts the connections that wait, while there is a slot for them. If the last attempt
    /// failed, it tries again.
    fn accept_all<N: Sockets>(&mut self, alloc: Global, sockets: &mut N, limits: Limits)
        ensures goes_on { (reading : Reading) (state : OwnedService) (reported : Option (List ReportedEnd))
            → GoesOnServing limits reading (at_now state (N.stream sockets.old) reported)
            (at_now state (N.stream sockets.new) reported) self.old.accepted
            self.new.accepted self.old.slots.items self.new.slots.items }
        ensures owners { self.new.owners.list ≡ self.old.owners.list }
        ensures rooms { KeepsRooms self.old.slots.items self.new.slots.items }
        ensures tries { is_waits (retried self.old.queue) ≡ true
            → has_slot limits self.old.accepted self.old.slots.items ≡ true
            → IsMore (N.attempts sockets.old) (N.attempts sockets.new) }
        ensures bytes { BytesStay (N.stream sockets.old) (N.stream sockets.new) }
        ensures time { self.new.time ≡ self.old.time }
        ensures slots { AllKeepOrAccept self.old.time self.old.slots.items self.new.slots.items }
    {
        self.queue = retried(self.queue);
        'slots: for (key, slot) in self.slots.iter_mut().enumerate() {
            if !is_wanted(slot, self.queue, self.accepted, limits) {
                continue;
            }
            self.queue = accept_into(slot, &mut self.accepted, alloc, sockets, key, self.time);
        }
    }

    /// Gives each connection that is ready its next turn. If the listener is ready, connections may
    /// wait.
    fn mark_ready(&mut self, ready: &[Ready])
        ensures still { (self.new.accepted ≡ self.old.accepted)
            × AllAreStill self.old.slots.items self.new.slots.items }
        ensures owners { self.new.owners.list ≡ self.old.owners.list }
        ensures time { self.new.time ≡ self.old.time }
        ensures queue { self.new.queue ≡ queue_with ready.now self.old.queue }
        ensures marks { MarksReady ready.now self.old.slots.items self.new.slots.items }
        ensures rooms { KeepsRooms self.old.slots.items self.new.slots.items }
    {
        'ready: for source in ready {
            self.mark(*source);
        }
    }

    /// Marks one source as ready: connections may wait, or a client that waits for its stream has
    /// its next turn.
    fn mark(&mut self, source: Ready)
        ensures still { (self.new.accepted ≡ self.old.accepted)
            × AllAreStill self.old.slots.items self.new.slots.items }
        ensures owners { self.new.owners.list ≡ self.old.owners.list }
        ensures time { self.new.time ≡ self.old.time }
        ensures queue { self.new.queue ≡ queue_with (source ∷ []) self.old.queue }
        ensures marks { MarksReady (source ∷ []) self.old.slots.items self.new.slots.items }
        ensures rooms { KeepsRooms self.old.slots.items self.new.slots.items }
    {
        let Ready::Key(key) = source else {
            self.queue = Queue::Waits;
            return;
        };
        if key < self.slots.len() {
            give_turn(&mut self.slots[key]);
        }
    }

    /// Takes the turns of all connections whose turn is next, in the order of their slots.
    fn take_turns<N: Sockets, W: Readiness, A: Responder, E: EndReport>(
        &mut self,
        sockets: &mut N,
        readiness: &mut W,
        service: &mut A,
        alloc: Global,
        limits: Limits,
        report: &mut E,
    ) -> io::Result<()>
        ensures happened { HasServed limits A.reading
            (at_now (owned (A.state service.old) self.old.owners.list) (N.stream sockets.old)
            (E.reported report.old))
            (world (A.state service.new) (N.stream sockets.new) (E.reported report.new))
            self.old.accepted self.old.slots.items }
        ensures goes_on { OnOk result (GoesOnServing limits A.reading
            (at_now (owned (A.state service.old) self.old.owners.list) (N.stream sockets.old)
            (E.reported report.old))
            (at_now (owned (A.state service.new) self.new.owners.list) (N.stream sockets.new)
            (E.reported report.new))
            self.old.accepted self.new.accepted self.old.slots.items self.new.slots.items) }
        ensures turns { OnOk result (EachSlot (TakesTurns limits A.reading self.old.time)
            (at_now (owned (A.state service.old) self.old.owners.list) (N.stream sockets.old)
            (E.reported report.old))
            (at_now (owned (A.state service.new) self.new.owners.list) (N.stream sockets.new)
            (E.reported report.new))
            self.old.slots.items self.new.slots.items) }
        ensures later { self.old.time ≤ self.new.time }
        ensures queue { self.new.queue ≡ self.old.queue }
        ensures rooms { KeepsRooms self.old.slots.items self.new.slots.items }
        ensures waits { W.waits readiness.new ≡ W.waits readiness.old }
    {
        'slots: for slot in self.slots.iter_mut() {
            let ended = serve_slot(
                slot,
                sockets,
                readiness,
                service,
                &mut self.owners,
                alloc,
                limits.unsent,
                &mut self.time,
            );
            close_sessions(ended, limits.own_sessions, service, &mut self.owners, alloc);
            tell(report, ended)?;
        }
        Ok(())
    }

    /// Takes back the rooms that are not used. O(slots).
    fn give_back_rooms(&mut self)
        ensures accepted { self.new.accepted ≡ self.old.accepted }
        ensures still { AllAreStill self.old.slots.items self.new.slots.items }
        ensures owners { self.new.owners.list ≡ self.old.owners.list }
        ensures time { (self.new.time ≡ self.old.time) × (self.new.queue ≡ self.old.queue) }
        ensures rooms { KeepsRooms self.old.slots.items self.new.slots.items }
        ensures used { count_by slot_has_room self.new.slots.items ≡ count_by slot_uses_room self.new.slots.items }
        ensures kept { AllAreKept self.old.slots.items self.new.slots.items }
    {
        'slots: for slot in self.slots.iter_mut() {
            give_back_room(slot);
        }
    }

    /// Takes back room that is not used, and gives what is free to the connections that have waited
    /// longest for it, so that at most 8 have some. O(slots).
    fn share_room(&mut self)
        ensures still { (self.new.accepted ≡ self.old.accepted)
            × AllAreStill self.old.slots.items self.new.slots.items }
        ensures owners { self.new.owners.list ≡ self.old.owners.list }
        ensures time { (self.new.time ≡ self.old.time) × (self.new.queue ≡ self.old.queue) }
        ensures shared { SharesRoom self.old.time self.old.slots.items self.new.slots.items }
        ensures rooms { KeepsRooms self.old.slots.items self.new.slots.items }
    {
        self.give_back_rooms();
        let used = rooms_used(&self.slots);
        'rooms: for _ in 0..ROOMS.saturating_sub(used) {
            match waits_longest(&self.slots) {
                Some(key) => self.give_room_at(key),
                None => return,
            }
        }
    }

    /// Gives the connection in this slot room.
    fn give_room_at(&mut self, key: usize)
        requires { key < length self.old.slots.items }
        ensures still { (self.new.accepted ≡ self.old.accepted)
            × AllAreStill self.old.slots.items self.new.slots.items }
        ensures owners { self.new.owners.list ≡ self.old.owners.list }
        ensures time { (self.new.time ≡ self.old.time) × (self.new.queue ≡ self.old.queue) }
        ensures given { self.new.slots.items ≡ slice_set self.old.slots.items key
            (given_room self.old.time (get_or self.old.slots.items key None)) }
    {
        give_room(&mut self.slots[key], self.time);
    }

    /// Ends the connections that hold up others, and those that are idle for longer than they may
    /// be. A connection holds up others if it uses its room, others wait for room and none is free,
    /// and nothing of its load came for ten seconds.
    ///
    /// `time` is when the last wait began: what came since then is not known.
    fn give_up<N: Sockets, A: Responder, E: EndReport>(
        &mut self,
        sockets: &mut N,
        service: &mut A,
        alloc: Global,
        limits: Limits,
        report: &mut E,
        time: u64,
    ) -> io::Result<()>
        ensures happened { HasServed limits A.reading
            (at_now (owned (A.state service.old) self.old.owners.list) (N.stream sockets.old)
            (E.reported report.old))
            (world (A.state service.new) (N.stream sockets.new) (E.reported report.new))
            self.old.accepted self.old.slots.items }
        ensures goes_on { OnOk result (GoesOnServing limits A.reading
            (at_now (owned (A.state service.old) self.old.owners.list) (N.stream sockets.old)
            (E.reported report.old))
            (at_now (owned (A.state service.new) self.new.owners.list) (N.stream sockets.new)
            (E.reported report.new))
            self.old.accepted self.new.accepted self.old.slots.items self.new.slots.items) }
        ensures ends { OnOk result (EachSlot (GivesUp limits (is_room_short self.old.slots.items) time A.reading)
            (at_now (owned (A.state service.old) self.old.owners.list) (N.stream sockets.old)
            (E.reported report.old))
            (at_now (owned (A.state service.new) self.new.owners.list) (N.stream sockets.new)
            (E.reported report.new))
            self.old.slots.items self.new.slots.items) }
        ensures time { (self.new.time ≡ self.old.time) × (self.new.queue ≡ self.old.queue) }
        ensures rooms { KeepsRooms self.old.slots.items self.new.slots.items }
    {
        let short = self.is_room_short();
        'slots: for slot in self.slots.iter_mut() {
            let ended = give_up(slot, sockets, limits.idle, short, time);
            close_sessions(ended, limits.own_sessions, service, &mut self.owners, alloc);
            tell(report, ended)?;
        }
        Ok(())
    }
}

/// Returns what is known of a queue before the next attempt: if none could be accepted, it is tried
/// again.
fn retried(queue: Queue) -> Queue
    ensures { result ≡ retried queue }
{
    match queue {
        Queue::Failed => Queue::Waits,
        Queue::Empty | Queue::Waits => queue,
    }
}

/// Returns whether the next connection is accepted into this slot: the slot is free, a connection
/// may wait, and fewer were accepted than are asked for.
fn is_wanted(slot: &Option<Client>, queue: Queue, accepted: u32, limits: Limits) -> bool
    ensures { result ≡ (is_none slot.now && is_wanted queue accepted limits) }
{
    slot.is_none() && queue == Queue::Waits && accepted < limits.connections
}

/// Returns what is known of the queue after an attempt.
fn queue_after(accepted: AcceptedStream) -> Queue
    ensures { result ≡ queue_after accepted }
{
    match accepted {
        AcceptedStream::Connection | AcceptedStream::GivenUp => Queue::Waits,
        AcceptedStream::NoneWaits => Queue::Empty,
        AcceptedStream::Fails => Queue::Failed,
    }
}

/// Gives the connection in this slot its next turn, if it waits for its stream.
fn give_turn(slot: &mut Option<Client>)
    ensures gives { slot.new ≡ given_turn slot.old }
    ensures still { SlotIsStill slot.old slot.new }
    ensures room { KeepsRoom slot.old slot.new }
{
    if let Some(client) = slot {
        if client.waits_for == WaitsFor::Stream {
            client.waits_for = WaitsFor::Turn;
        }
    }
}

/// Gives the connection in this slot room.
fn give_room(slot: &mut Option<Client>, time: u64)
    ensures gives { slot.new ≡ given_room time slot.old }
    ensures still { SlotIsStill slot.old slot.new }
{
    if let Some(client) = slot {
        client.take_room(time);
    }
}

/// Takes back the room of the connection in this slot, unless it uses it.
fn give_back_room(slot: &mut Option<Client>)
    ensures still { SlotIsStill slot.old slot.new }
    ensures room { KeepsRoom slot.old slot.new }
    ensures used { slot_has_room slot.new ≡ slot_uses_room slot.new }
    ensures kept { slot.new ≡ kept_room slot.old }
{
    if let Some(client) = slot {
        client.give_back_room();
    }
}

/// Returns the number of rooms that are used. O(slots).
fn rooms_used(slots: &[Option<Client>]) -> usize
    ensures { result ≡ count_by slot_uses_room slots.now }
{
    let mut used = 0;
    'slots: for slot in slots {
        if uses_room(slot) {
            used += 1;
        }
    }
    used
}

/// Returns whether the connection in this slot uses the room that it was given.
fn uses_room(slot: &Option<Client>) -> bool
    ensures { result ≡ slot_uses_room slot.now }
{
    match slot {
        Some(client) => client.uses_room(),
        None => false,
    }
}

/// Returns `time` plus `passed`, in nanoseconds, or 2^64 - 1 if that is less.
fn later(time: u64, passed: Duration) -> u64
    ensures { result ≡ later time (as_nanos passed) }
{
    time.saturating_add(u64::try_from(passed.as_nanos()).unwrap_or(u64::MAX))
}

/// Accepts the next connection into this slot, if there is one. Returns what is known of the queue
/// then.
fn accept_into<N: Sockets>(
    slot: &mut Option<Client>,
    accepted: &mut u32,
    alloc: Global,
    sockets: &mut N,
    key: usize,
    time: u64,
) -> Queue
    requires { accepted.old + 1 < 2 ^ 32 }
    ensures accepts { AcceptsAs accepted.old accepted.new slot.old slot.new }
    ensures since { accepted.new ≢ accepted.old → WaitsSince WaitsFor.Turn time slot.new }
    ensures room { KeepsRoom slot.old slot.new }
    ensures stay { KeepsBytes (accepted.old + 1) (N.stream sockets.old) (N.stream sockets.new) }
    ensures attempt { N.attempts sockets.new ≡ one_more (N.attempts sockets.old) }
{
    let number = *accepted + 1;
    let came = sockets.accept(u64::from(number), key);
    if came == AcceptedStream::Connection {
        *slot = Some(Client::new(alloc, number, time));
        *accepted = number;
    }
    queue_after(came)
}

/// Takes the turns of the connection in this slot, if its turn is next. If the connection ended,
/// returns its number and how it ended.
fn serve_slot<N: Sockets, W: Readiness, A: Responder>(
    slot: &mut Option<Client>,
    sockets: &mut N,
    readiness: &mut W,
    service: &mut A,
    owners: &mut Owners,
    alloc: Global,
    unsent: usize,
    time: &mut u64,
) -> Option<(u32, ConnectionEnd)>
    ensures turns { SlotTurnsAs unsent time.new A.reading
        (owned (A.state service.old) owners.old.list)
        (owned (A.state service.new) owners.new.list) (N.stream sockets.old) (N.stream sockets.new) slot.old slot.new result }
    ensures room { KeepsRoom slot.old slot.new }
    ensures later { time.old ≤ time.new }
    ensures waits { W.waits readiness.new ≡ W.waits readiness.old }
{
    let Some(client) = slot else {
        return None;
    };
    if client.waits_for != WaitsFor::Turn {
        return None;
    }
    let number = client.number();
    match client.take_turns(sockets, service, owners, alloc, unsent) {
        Turn::GoesOn => pause(client, WaitsFor::Turn, readiness, time),
        Turn::Loaded => pause(client, WaitsFor::Turn, readiness, time),
        Turn::Waits => pause(client, WaitsFor::Stream, readiness, time),
        Turn::NeedsRoom => pause(client, WaitsFor::Room, readiness, time),
        Turn::Ends(how) => {
            *slot = None;
            sockets.close(u64::from(number));
            Some((number, ConnectionEnd::Served(how)))
        }
    }
}

/// If a connection ended and its sessions end with it, answers a Close for each open session that
/// was opened on it.
fn close_sessions<A: Responder>(
    ended: Option<(u32, ConnectionEnd)>,
    own_sessions: bool,
    service: &mut A,
    owners: &mut Owners,
    alloc: Global,
)
    ensures { ClosesAfter ended own_sessions A.reading
        (owned (A.state service.old) owners.old.list)
        (owned (A.state service.new) owners.new.list) }
{
    let Some((number, _)) = ended else {
        return;
    };
    if own_sessions {
        close_own(owners, service, alloc, u64::from(number));
    }
}

/// Makes the client wait for this, from the time that it is now. Its connection has not ended, so
/// the result is `None`.
fn pause<W: Readiness>(
    client: &mut Client,
    waits_for: WaitsFor,
    readiness: &mut W,
    time: &mut u64,
) -> Option<(u32, ConnectionEnd)>
    ensures waits { client.new ≡ record client.old { waits_for = waits_for; since = time.new } }
    ensures none_ended { W.waits readiness.new ≡ W.waits readiness.old }
    ensures later { time.old ≤ time.new }
    ensures none { result ≡ None }
{
    *time = later(*time, readiness.passed());
    client.wait(waits_for, *time);
    None
}

/// Returns why the connection of this client is ended, if it is: it is stalled while room is short,
/// or it is idle.
fn why_ended(client: &Client, idle: Option<u32>, short: bool, time: u64) -> Option<ConnectionEnd>
    ensures { result ≡ why_ended idle short time client.now }
{
    if short && client.is_stalled(time) {
        return Some(ConnectionEnd::Stalled);
    }
    if client.is_idle(idle, time) {
        return Some(ConnectionEnd::Idle);
    }
    None
}

/// Ends the connection in this slot, if there is a cause. Returns its number and how it ended then.
fn give_up<N: Sockets>(
    slot: &mut Option<Client>,
    sockets: &mut N,
    idle: Option<u32>,
    short: bool,
    time: u64,
) -> Option<(u32, ConnectionEnd)>
    ensures gives_up { SlotGivesUp idle short time (N.stream sockets.old) (N.stream sockets.new) slot.old slot.new result }
    ensures room { KeepsRoom slot.old slot.new }
{
    let Some(client) = slot else {
        return None;
    };
    let Some(why) = why_ended(client, idle, short, time) else {
        return None;
    };
    let number = client.number();
    *slot = None;
    sockets.close(u64::from(number));
    Some((number, why))
}
