//! The state of a connection: the bytes that came and are not answered, and the reply bytes that
//! are not sent.
ghost use Rattle.std.specs.Prelude.{◌≡◌, ◌≢◌, ◌+◌, ◌<◌, ◌≤◌, ◌++◌, ℕ, List, [], false, length, take, drop, vec_len, vec_capacity, OnOk, OnErr};
ghost use Rattle.compose_wire.specs.Requests.{request_of};
ghost use Rattle.compose_machine.specs.Laws.{is_load};
ghost use Rattle.compose_many.specs.Connection.{Sends, max_reply};
ghost use Rattle.compose_many.specs.Steps.{IsNextRequest, HasRoom, HasSpace, NextAs, AnswersAs, after_reply};

use crate::owners::Owners;
use compose_serve::Responder;
use compose_wire::{Body, Feeder, Reply, ReplyBody, Request, WireFault, put_reply};
use std::alloc::Global;
use std::marker::Model;

/// The most requests that are answered on one connection.
const MAX_FRAMES: u32 = 16_777_216;

/// The most bytes of a reply.
const MAX_REPLY: usize = 272;

/// Why no further request of a connection is answered.
#[derive(Clone, Copy)]
pub(crate) enum Stop {
    /// A load was answered.
    Loaded,
    /// Less than a whole frame is held.
    NeedsBytes,
    /// The unsent bytes have to be sent first.
    Full,
    /// A faulty frame was refused.
    Refused,
    /// Memory ran out for a reply, for the payload of a load, or for the owner of a session.
    NoMemory,
    /// One more frame came after 16,777,216 answered requests.
    TooManyFrames,
}

/// A connection to the service: the bytes that came and are not answered, and the bytes of replies
/// that are not sent.
#[derive(Drop)]
pub struct Connection {
    feeder: Feeder,
    unsent: Vec<u8>,
    answered: u32,
    refused: bool,
}

impl Model for Connection {
    ghost use Rattle.compose_many.specs.Connection.{ConnectionState};

    ghost Value = { ConnectionState };

    ghost view = { λ c. record {
      held = c.feeder;
      unsent = c.unsent.items;
      answered =
          c.answered;
      refused = c.refused;
    } };
}

impl Connection {
    ghost use Rattle.compose_many.specs.Connection.{new_connection};

    /// Returns a connection on which nothing came. O(1), takes no memory.
    pub fn new(alloc: Global) -> Connection
        ensures { result ≡ new_connection }
    {
        Connection {
            feeder: Feeder::new(alloc),
            unsent: Vec::new(alloc),
            answered: 0,
            refused: false,
        }
    }

    /// Returns the number of bytes that came and are not answered. O(1).
    pub fn held(&self) -> usize
        ensures { result ≡ length self.now.held }
    {
        self.feeder.held()
    }

    /// Returns the bytes of replies that are not sent. O(1).
    pub(crate) fn unsent(&self) -> &[u8]
        ensures { result.now ≡ self.now.unsent }
    {
        self.unsent.as_slice()
    }

    /// Returns whether a faulty frame was refused. O(1).
    pub(crate) fn is_refused(&self) -> bool
        ensures { result ≡ self.now.refused }
    {
        self.refused
    }

    /// Appends a piece that came to the bytes that are held.
    ///
    /// Errors: `NoMemory` if memory runs out; then nothing changes.
    pub(crate) fn receive(&mut self, piece: &[u8]) -> Result<(), WireFault>
        ensures ok { OnOk result
            (self.new ≡ record self.old { held = self.old.held ++ piece.now }) }
        ensures err { OnErr result (piece.now ≢ []) }
    {
        self.feeder.feed(piece)
    }

    /// Removes the first `count` unsent bytes, which were sent.
    pub(crate) fn sent(&mut self, count: usize)
        requires { count ≤ length self.old.unsent }
        ensures { Sends self.old (take count self.old.unsent) self.new }
    {
        remove_prefix(&mut self.unsent, count);
    }

    /// Answers the next request, or returns why it does not. A faulty frame is refused. After a
    /// load it returns `Loaded`.
    ///
    /// Memory for the reply and for the owner of a session is reserved first, so that no request is
    /// answered whose reply or owner can't be kept. `number` is the number of this connection: a
    /// session that is opened is owned by it. `reply` is what the answer is put into; what it was
    /// before is of no effect.
    fn answer_next<S: Responder>(
        &mut self,
        service: &mut S,
        owners: &mut Owners,
        alloc: Global,
        limit: usize,
        number: u64,
        reply: &mut Reply,
    ) -> Result<(), Stop>
        requires { self.old.refused ≡ false }
        ensures { NextAs limit number owners.old.list owners.new.list S.reading
            (S.state service.old) (S.state service.new) self.old self.new result }
    {
        if self.unsent.len() >= limit {
            return Err(Stop::Full);
        }
        let full = self.answered >= MAX_FRAMES;
        if full && !self.unsent.is_empty() {
            return Err(Stop::Full);
        }
        let request = match first_request(&mut self.feeder, &mut self.unsent, owners, alloc) {
            Ok(request) => request,
            Err(Stop::Refused) => {
                append(&mut self.unsent, &[0xff, 0, 0, 0, 0, 0, 0, 0, 2, 0, 10]);
                self.refused = true;
                return Err(Stop::Refused);
            }
            Err(stop) => return Err(stop),
        };
        if full {
            return Err(Stop::TooManyFrames);
        }
        service.answer_into(alloc, &request, reply);
        owners.note(number, &request, reply);
        append(&mut self.unsent, put_reply(reply).as_slice());
        self.answered += 1;
        after_reply(&request)
    }

    /// Answers the requests that are held, in order, until one load is answered or the limit of
    /// unsent bytes is reached. Returns why it stopped.
    pub(crate) fn answer_held<S: Responder>(
        &mut self,
        service: &mut S,
        owners: &mut Owners,
        alloc: Global,
        limit: usize,
        number: u64,
    ) -> Stop
        requires { self.old.refused ≡ false }
        ensures { AnswersAs limit number owners.old.list owners.new.list S.reading
            (S.state service.old) (S.state service.new) self.old self.new result }
    {
        // a reply is large: one is kept, and filled for each request
        let mut reply = Reply {
            session: 0,
            answer: ReplyBody::Opened,
        };
        'answers: loop {
            match self.answer_next(service, owners, alloc, limit, number, &mut reply) {
                Ok(()) => {}
                Err(stop) => return stop,
            }
        }
    }
}

/// Returns what follows the reply to a request: `Loaded` after a load.
fn after_reply(request: &Request) -> Result<(), Stop>
    ensures { result ≡ after_reply (is_load (request_of request.now).body) }
{
    match &request.body {
        Body::Load(_) | Body::LoadLongest(_) => Err(Stop::Loaded),
        Body::Open | Body::Key(_) | Body::Reset | Body::Close | Body::Ask => Ok(()),
    }
}

/// Removes and returns the first request, once there is room for its reply (or for the reply to a
/// faulty frame) and for the owner of a session.
fn first_request(
    feeder: &mut Feeder,
    unsent: &mut Vec<u8>,
    owners: &mut Owners,
    alloc: Global,
) -> Result<Request, Stop>
    ensures so { IsNextRequest result feeder.old feeder.new }
    ensures items { unsent.new.items ≡ unsent.old.items }
    ensures room { HasRoom result (vec_len unsent.new) (vec_capacity unsent.new) }
    ensures owners { owners.new.list ≡ owners.old.list }
    ensures space { HasSpace result owners.new.room }
{
    if feeder.held() == 0 {
        return Err(Stop::NeedsBytes);
    }
    let Ok(()) = unsent.reserve(MAX_REPLY) else {
        return Err(Stop::NoMemory);
    };
    let Ok(()) = owners.reserve_one() else {
        return Err(Stop::NoMemory);
    };
    match feeder.next_request(alloc) {
        Ok(Some(request)) => Ok(request),
        Ok(None) => Err(Stop::NeedsBytes),
        Err(WireFault::NoMemory) => Err(Stop::NoMemory),
        Err(_) => Err(Stop::Refused),
    }
}

/// Appends the bytes, for which there is room already.
fn append(bytes: &mut Vec<u8>, more: &[u8])
    requires { vec_len bytes.old + length more.now ≤ vec_capacity bytes.old }
    ensures { bytes.new.items ≡ bytes.old.items ++ more.now }
{
    bytes.extend_from_slice(more).unwrap();
}

/// Removes the first `count` bytes and moves the rest to the beginning. If none are left, their
/// memory is freed.
fn remove_prefix(bytes: &mut Vec<u8>, count: usize)
    requires { count ≤ vec_len bytes.old }
    ensures items { bytes.new.items ≡ drop count bytes.old.items }
    ensures freed { vec_len bytes.new ≡ 0 → vec_capacity bytes.new ≡ 0 }
{
    let len = bytes.len();
    bytes.as_mut_slice().copy_within(count..len, 0);
    bytes.truncate(len - count);
    if bytes.is_empty() {
        bytes.shrink_to_fit();
    }
}
