//! A client of the typing service as a state machine without input and output.
//!
//! An input method reports what happens: a key, bytes that came, a connection that was made or
//! lost, a timeout. The client returns what to do: bytes to send, a connection to make or to close,
//! and one verdict for each key.
//!
//! ```text
//! press(0xfe51)   Connect
//! connected(7)    Send(01 ..): open session 7
//! 81 .. came      Send(03 .. 02 .. 06 ..): reset it, type the key, ask what is pending
//! 83 .. came      Wait
//! 82 .. came      Wait
//! 86 .. came      Tell(Take), and 0xfe51 is pending
//! ```
//!
//! If a connection is lost before a key was answered, nobody knows whether the service received the
//! key. So on a new connection the session is reset, the pending keys are typed again, and then the
//! key: it counts once.
#![tactic(auto)]

ghost use Rattle.compose_typing.specs.Laws.{OneVerdict};
ghost use Rattle.compose_typing.specs.Loads.{TypesOpening};
ghost use Rattle.compose_typing.specs.Runs.{TypesRun};
ghost use Rattle.compose_typing.specs.Service.{AskedOnce, ClosedOnce, LostOnce, PendingAgain};

mod action;
mod client;
mod frames;
mod stage;
mod typing;

pub use action::{Action, Frames, KeyVerdict, Text};
pub use client::Client;
pub use stage::{KeyAnswer, Stage, Waiting};
pub use typing::TypingSession;

/// Over every list of events, each key has one verdict: it was reported, or the key waits for it.
/// At most one key waits at a time.
pub fn law_one_verdict()
    ensures { OneVerdict }
{}

/// A key counts once, with a service that types over one table: it has one verdict, that of its
/// step in the session, even if the connection is lost after any of its replies, or another client
/// closes the session. What was pending before is pending again on the new connection.
pub fn law_key_once()
    ensures asked { AskedOnce }
    ensures lost { LostOnce }
    ensures closed { ClosedOnce }
    ensures again { PendingAgain }
{}

/// Over all keys, a client's verdicts are those of the table's run over these keys: what is
/// committed is what the table commits. This holds for a service that types over one table and for
/// a session that is open, whichever connections are lost on the way.
pub fn law_types_run()
    ensures { TypesRun }
{}

/// Whatever tables are loaded into the service, and whatever connections are lost, what is typed is
/// what the opening table types, which is the one that the service has at the beginning: its run
/// over the keys, begun anew after each key that had a second loss, which types itself.
///
/// Keys, connections, losses, answers and loads come in any order. Each loaded table has to follow
/// the one before it, no key may be fresh, and the opening table must not cancel.
pub fn law_types_opening()
    ensures { TypesOpening }
{}
