//! The owners of the open sessions.
ghost use Rattle.std.specs.Prelude.{◌≡◌, ◌<◌, ◌≤◌, List, [], not, ◌==◌, vec_len, vec_capacity, OnOk};
ghost use Rattle.compose_wire.specs.Messages.{close};
ghost use Rattle.compose_machine.specs.Machine.{Step};
ghost use Rattle.compose_machine.specs.Laws.{Exchange, IsHistory};
ghost use Rattle.compose_many.specs.Owners.{EachOnce, without, of_others, owners_noted, ClosesOwn, ClosesAs};

use compose_serve::Responder;
use compose_wire::{Body, Reply, ReplyBody as Answered, Request};
use std::alloc::{AllocError, Global};
use std::marker::Model;

/// An open session, and the connection on which it was opened.
#[derive(Clone, Copy, Debug, PartialEq, Eq, Drop)]
pub struct Owner {
    /// The number of the session, as in the frames of its client.
    pub session: u32,
    /// The number of the connection, as it was given to `turn_on`.
    pub connection: u64,
}

/// The owners of the open sessions, each session once, in the order in which they were opened.
#[derive(Drop)]
pub struct Owners {
    list: Vec<Owner>,
}

impl Model for Owners {
    ghost use Rattle.std.specs.Prelude.{◌-◌, vec_len, vec_capacity};
    ghost use Rattle.compose_many.specs.Owners.{OwnersState, EachOnce};

    ghost Value = { OwnersState };

    ghost view = { λ o. record {
      list = o.list.items;
      room = vec_capacity o.list - vec_len o.list;
    } };

    ghost invariant = { λ o. EachOnce o.list.items };
}

impl Owners {
    /// Returns no owners. O(1), takes no memory.
    pub fn new(alloc: Global) -> Owners
        ensures { result.list ≡ [] }
    {
        Owners {
            list: Vec::new(alloc),
        }
    }

    /// Makes room for one more owner.
    ///
    /// Errors: `AllocError` if memory runs out. The owners stay as they are in any case.
    pub(crate) fn reserve_one(&mut self) -> Result<(), AllocError>
        ensures list { self.new.list ≡ self.old.list }
        ensures room { OnOk result (1 ≤ self.new.room) }
    {
        self.list.reserve(1)
    }

    /// Notes the answer to a request on the connection with this number: a session that was opened
    /// is owned by it, and one for which a Close was answered has no owner.
    ///
    /// O(owners) for an Open or a Close, O(1) for others. Takes no memory.
    pub(crate) fn note(&mut self, number: u64, request: &Request, reply: &Reply)
        requires { 1 ≤ self.old.room }
        ensures { self.new.list ≡ owners_noted number request.now.session self.old.list request.now.body reply.now.answer }
    {
        note(&mut self.list, number, request, reply);
    }
}

/// Notes the answer to a request, as `Owners::note` does.
fn note(owners: &mut Vec<Owner>, number: u64, request: &Request, reply: &Reply)
    requires { vec_len owners.old < vec_capacity owners.old }
    ensures { owners.new.items ≡ owners_noted number request.now.session owners.old.items request.now.body reply.now.answer }
{
    match &request.body {
        Body::Open => note_open(owners, number, request.session, &reply.answer),
        Body::Close => forget(owners, request.session),
        Body::Key(_) | Body::Reset | Body::Load(_) | Body::LoadLongest(_) | Body::Ask => {}
    }
}

/// Notes the answer to an Open.
fn note_open(owners: &mut Vec<Owner>, number: u64, session: u32, answer: &Answered)
    requires { vec_len owners.old < vec_capacity owners.old }
    ensures { owners.new.items ≡ owners_noted number session owners.old.items Body.Open answer.now }
{
    match answer {
        Answered::Opened => {
            forget(owners, session);
            owners
                .push(Owner {
                    session,
                    connection: number,
                })
                .unwrap();
        }
        Answered::Fed(..)
        | Answered::WasReset
        | Answered::Closed
        | Answered::Loaded(_)
        | Answered::State(..)
        | Answered::Refused(_) => {}
    }
}

/// Removes the owner of this session, if it has one. O(owners).
fn forget(owners: &mut Vec<Owner>, session: u32)
    ensures items { owners.new.items ≡ without session owners.old.items }
    ensures len { vec_len owners.new ≤ vec_len owners.old }
    ensures capacity { vec_capacity owners.new ≡ vec_capacity owners.old }
{
    owners.retain(
        |owner: &Owner| -> bool
            ensures { result ≡ not (owner.now.session == session) }
        { owner.session != session },
    );
}

/// Removes the owners of the sessions of this connection. O(owners).
fn forget_all(owners: &mut Vec<Owner>, number: u64)
    ensures { owners.new.items ≡ of_others number owners.old.items }
{
    owners.retain(
        |owner: &Owner| -> bool
            ensures { result ≡ not (owner.now.connection == number) }
        { owner.connection != number },
    );
}

/// Answers a Close for each session that this connection owns, the one that was opened last first,
/// and drops the replies.
///
/// Afterwards the connection owns no session. O(owners), plus the cost of the answers: a service
/// closes a session the quicker the fewer were opened later.
pub fn close_own<A: Responder>(owners: &mut Owners, service: &mut A, alloc: Global, number: u64)
    ensures { ClosesAs number owners.old.list owners.new.list A.reading (A.state service.old) (A.state service.new) }
{
    close_each(owners.list.as_slice(), service, alloc, number);
    forget_all(&mut owners.list, number);
}

/// Answers a Close for each session that this connection owns, from the last owner to the first.
fn close_each<A: Responder>(owners: &[Owner], service: &mut A, alloc: Global, number: u64)
    requires { EachOnce owners.now }
    ensures { (closed : List Exchange) × ClosesOwn number owners.now closed
        × IsHistory A.reading (A.state service.old) closed (A.state service.new) }
{
    // a reply is large: one is kept, and filled for each session
    let mut reply = Reply {
        session: 0,
        answer: Answered::Opened,
    };
    let mut rest = owners;
    'owners: while let Some((owner, before)) = rest.split_last() {
        if owner.connection == number {
            close(service, alloc, owner.session, &mut reply);
        }
        rest = before;
    }
}

/// Answers a Close of this session into the reply.
fn close<A: Responder>(service: &mut A, alloc: Global, session: u32, reply: &mut Reply)
    ensures { (x : Exchange) × (x.request.session ≡ session) × (x.request.body ≡ close)
        × Step A.reading (A.state service.old) x.request x.reply (A.state service.new) }
{
    let request = Request {
        session,
        body: Body::Close,
    };
    service.answer_into(alloc, &request, reply);
}
