//! Exchanges with a service whose replies are written out: what a client sends, and what it then
//! prints.
ghost use Rattle.std.specs.Prelude.{None, ⊤};

use crate::helpers::{core, expect_text};
use arrayvec::{ArrayString, ArrayVec};
use compose_input::Fault;
use compose_model::Status;
use compose_service_runs::{ClientRequests, Peer, run_exchange};
use compose_wire::{Body, Reply, ReplyBody, Request};
use std::alloc::{AllocError, Global};
use std::fmt::Write;
use std::process::Abort;
use std::test::Fail;

/// The requests of the examples, as they are printed: session 7 is opened, the key a is typed in
/// it, and its state is asked for.
const OPEN: &str = "Request { session: 7, body: Open };";

const OPEN_AND_KEY: &str =
    "Request { session: 7, body: Open };Request { session: 7, body: Key(97) };";

const ALL: &str =
    "Request { session: 7, body: Open };Request { session: 7, body: Key(97) };Request { session: 7, body: Ask };";

/// The notes, which are printed first.
const NOTES: &str = "note: of the table\n";

/// A service whose replies are written out, the last one first; and the requests that it received,
/// as they are printed. After the last reply it closes the connection, or the connection fails.
#[derive(Drop)]
struct Script {
    replies: Vec<Reply>,
    fails: bool,
    asked: String,
}

impl Peer for Script {
    ghost turns = { λ _. None };

    ghost gives = { λ _ _ _. ⊤ };

    fn ask(&mut self, _alloc: Global, request: &Request) -> Result<Option<Reply>, Fault> {
        push_request(&mut self.asked, request)?;
        let reply = self.replies.pop();
        if reply.is_none() && self.fails {
            return Err(Fault::Word);
        }
        Ok(reply)
    }
}

fn push_request(text: &mut String, request: &Request) -> Result<(), AllocError> {
    write!(text, "{request:?};")?;
    Ok(())
}

/// Returns the three requests.
fn requests(alloc: Global) -> Result<Vec<Request>, AllocError> {
    let mut requests = Vec::new(alloc);
    let session = 7;
    requests.push(Request {
        session,
        body: Body::Open,
    })?;
    requests.push(Request {
        session,
        body: Body::Key(0x61),
    })?;
    requests.push(Request {
        session,
        body: Body::Ask,
    })?;
    Ok(requests)
}

fn run(
    alloc: Global,
    script: &mut Script,
    sent: ClientRequests,
) -> Result<Option<String>, AllocError> {
    match run_exchange(alloc, script, sent) {
        Ok(outcome) => Ok(Some(format!(in alloc;
            "{}{}{}",
            outcome.notes, outcome.output, outcome.errors
        )?)),
        Err(_) => Ok(None),
    }
}

/// Expects these requests and this printed text if these are the answers of the service, the last
/// one first.
fn expect(
    rt: &(impl Abort + AllocGlobal),
    row: &str,
    replies: Vec<Reply>,
    asked: &str,
    printed: &str,
) -> Result<(), Fail> {
    let alloc = rt.alloc();
    let mut script = Script {
        replies,
        fails: false,
        asked: String::new(alloc),
    };
    let printed = format!(in alloc; "{NOTES}{printed}")?;
    let text = run(alloc, &mut script, sent_requests(alloc)?)?;
    expect_text(rt, row, &script.asked, asked);
    expect_text(rt, row, text.as_deref().unwrap_or("a fault"), &printed);
    Ok(())
}

/// Returns what the client sends: the three requests, after the notes.
fn sent_requests(alloc: Global) -> Result<ClientRequests, AllocError> {
    Ok(ClientRequests {
        notes: String::from_str(alloc, NOTES)?,
        names: core(alloc)?,
        requests: requests(alloc)?,
    })
}

/// Returns a reply in session 7.
fn reply(answer: ReplyBody) -> Reply {
    Reply { session: 7, answer }
}

#[test]
fn all_is_answered(rt: HostRuntime) -> Result<(), Fail> {
    let mut replies = Vec::new(rt.alloc());
    replies.push(reply(ReplyBody::State(Status::Nothing, ArrayVec::new())))?;
    replies.push(reply(ReplyBody::Fed(Status::Composing, true, ArrayString::new())))?;
    replies.push(reply(ReplyBody::Opened))?;
    expect(&rt, "all", replies, ALL, "composing \"\"\nstate nothing\n")
}

#[test]
fn nothing_is_sent_after_a_refusal(rt: HostRuntime) -> Result<(), Fail> {
    let mut replies = Vec::new(rt.alloc());
    replies.push(reply(ReplyBody::State(Status::Nothing, ArrayVec::new())))?;
    replies.push(reply(ReplyBody::Fed(Status::Composing, true, ArrayString::new())))?;
    replies.push(reply(ReplyBody::Refused(1)))?;
    let printed = "refused: a session with this number is open\n";
    expect(&rt, "refused", replies, OPEN, printed)
}

#[test]
fn nothing_is_sent_after_the_end(rt: HostRuntime) -> Result<(), Fail> {
    let mut replies = Vec::new(rt.alloc());
    replies.push(reply(ReplyBody::Opened))?;
    let printed = "refused: connection: closed before the reply\n";
    expect(&rt, "closed", replies, OPEN_AND_KEY, printed)
}

#[test]
fn nothing_is_printed_after_a_fault(rt: HostRuntime) -> Result<(), Fail> {
    let alloc = rt.alloc();
    let mut replies = Vec::new(alloc);
    replies.push(reply(ReplyBody::Opened))?;
    let mut script = Script {
        replies,
        fails: true,
        asked: String::new(alloc),
    };
    let text = run(alloc, &mut script, sent_requests(alloc)?)?;
    expect_text(&rt, "fault", &script.asked, OPEN_AND_KEY);
    expect_text(
        &rt,
        "fault",
        text.as_deref().unwrap_or("a fault"),
        "a fault",
    );
    Ok(())
}
