//! A proved client of the typing service for C: the static library behind `composecheck_client.h`.
//!
//! A client is a struct of numbers in the caller's memory, and all zeros are a client that has
//! typed nothing. The library does no input and no output: the caller reports what happens, a key,
//! bytes that came, a connection that was made or lost, a timeout, and does what the action says.
//! It allocates nothing and keeps nothing between two calls.
#![tactic(auto)]

ghost use Rattle.std.specs.Prelude.{◌≡◌, ◌≤◌, ◌<◌, ◌++◌, ℕ, List, [], Some, true, false, take, length};
ghost use Rattle.compose_wire.specs.Messages.{Reply};
ghost use Rattle.compose_wire.specs.Frames.{Fault, reply_bytes};
ghost use Rattle.compose_client.specs.Replies.{ReplyFits, head_fault, HasBadPayload, IsReplyBegun};
ghost use Rattle.compose_typing.specs.TypingSession as machine;
ghost use Rattle.compose_typing.specs.declared.action.Action.TheVariants.{Wait, Tell};
ghost use Rattle.compose_typing.specs.declared.action.KeyVerdict.TheVariants.{Pass};
ghost use Rattle.compose_typing.specs.declared.stage.Waiting.{Waiting};
ghost use Rattle.compose_typing.specs.declared.stage.KeyAnswer.{KeyAnswer};
ghost use Rattle.compose_typing.specs.declared.stage.Stage.TheVariants.{Asking};
ghost use Rattle.compose_typing_c.specs.Actions.{Says, Becomes, Receives};
ghost use Rattle.compose_typing_c.specs.Clients.{answer_of, client_of, held_of, typing_of};

mod action;
mod client;
mod copies;
mod stage;

pub use action::ActionRecord;
use action::put_action;
pub use client::ClientRecord;
use client::{keep, restored};
use compose_typing::{Action, KeyVerdict};
use copies::put_keysyms;
use keysym_core::Keysym;
pub use stage::{AnswerRecord, StageRecord};

/// Handles a key press. A key that is pressed while another one waits passes at once, and so does a
/// number above `0x1fffffff`, which is no keysym. O(pending keys).
#[unsafe(no_mangle)]
pub extern "C" fn composecheck_client_press(
    client: &mut ClientRecord,
    key: u32,
    action: &mut ActionRecord,
)
    ensures pressed { key ≤ 0x1fffffff
        → Becomes (machine.press_outcome (client_of client.old) key) (held_of client.old)
        client.new action.new }
    ensures no_keysym { 0x1fffffff < key → client.new ≡ client.old }
    ensures passes { 0x1fffffff < key → Says action.new (Tell Pass) }
{
    let Some(keysym) = Keysym::new(key) else {
        put_action(action, &Action::Tell(KeyVerdict::Pass));
        return;
    };
    let mut typing = restored(client);
    let next = typing.press(keysym);
    keep(client, &typing);
    put_action(action, &next);
}

/// Handles a new connection; bytes of an earlier one are dropped. The session gets this number,
/// ideally a random one each time, unless it was opened before. O(1).
#[unsafe(no_mangle)]
pub extern "C" fn composecheck_client_connected(
    client: &mut ClientRecord,
    number: u32,
    action: &mut ActionRecord,
)
    ensures { Becomes (machine.connected (client_of client.old) number) [] client.new action.new }
{
    let mut typing = restored(client);
    let next = typing.connected(number);
    keep(client, &typing);
    put_action(action, &next);
}

/// Takes bytes that were received, of which the first `used` ones are then taken. Returns whether
/// they made a reply whole, or are no reply: `action` is then what to do, and the function has to
/// be called again with the remaining bytes, also if there are none. Otherwise all bytes are taken,
/// and there is nothing to do.
///
/// If the client waited for the state of its session, `answer` gets the service's answer to the
/// key. O(pending keys).
#[unsafe(no_mangle)]
pub extern "C" fn composecheck_client_receive(
    client: &mut ClientRecord,
    bytes: &[u8],
    used: &mut usize,
    action: &mut ActionRecord,
    answer: &mut AnswerRecord,
) -> bool
    ensures reply { (r : Reply) (more : List ℕ) → ReplyFits r
        → held_of client.old ++ bytes.now ≡ reply_bytes r ++ more
        → Receives (machine.answered (client_of client.old) r) more bytes.now client.new used.new
        action.new × (result ≡ true) }
    ensures fault { (fault : Fault) → head_fault (held_of client.old ++ bytes.now) ≡ Some fault
        → Receives (machine.give_up_outcome (client_of client.old))
        (held_of client.old ++ bytes.now) bytes.now client.new used.new action.new
        × (result ≡ true) }
    ensures bad_payload { HasBadPayload (held_of client.old ++ bytes.now)
        → Receives (machine.give_up_outcome (client_of client.old))
        (held_of client.old ++ bytes.now) bytes.now client.new used.new action.new
        × (result ≡ true) }
    ensures begun { IsReplyBegun (held_of client.old ++ bytes.now)
        → (typing_of client.new
        ≡ record { client = client_of client.old; held = held_of client.old ++ bytes.now })
        × (used.new ≡ length bytes.now) × Says action.new Wait × (result ≡ false) }
    ensures answer { (w : Waiting) (h : KeyAnswer) → (client_of client.old).stage ≡ Asking w h
        → answer_of answer.new ≡ h }
    ensures used { used.new ≤ length bytes.now }
{
    *answer = client.stage.answer;
    let mut typing = restored(client);
    let (taken, next) = typing.receive(bytes);
    *used = taken;
    keep(client, &typing);
    match next {
        Some(next) => {
            put_action(action, &next);
            true
        }
        None => {
            put_action(action, &Action::Wait);
            false
        }
    }
}

/// Handles a connection that was lost, or could not be made. For each key, it is made again once.
/// O(1).
#[unsafe(no_mangle)]
pub extern "C" fn composecheck_client_lose(client: &mut ClientRecord, action: &mut ActionRecord)
    ensures { Becomes (machine.lost (client_of client.old)) (held_of client.old) client.new
        action.new }
{
    let mut typing = restored(client);
    let next = typing.lose();
    keep(client, &typing);
    put_action(action, &next);
}

/// Handles the end of the time allowed for a key, or for a request without a key. O(1).
#[unsafe(no_mangle)]
pub extern "C" fn composecheck_client_time_out(client: &mut ClientRecord, action: &mut ActionRecord)
    ensures { Becomes (machine.timeout_outcome (client_of client.old)) (held_of client.old)
        client.new action.new }
{
    let mut typing = restored(client);
    let next = typing.time_out();
    keep(client, &typing);
    put_action(action, &next);
}

/// Takes the last pending key back, and asks the service what is pending then. Without a connection
/// nothing is asked, and while a reply is waited for nothing changes. O(pending keys).
#[unsafe(no_mangle)]
pub extern "C" fn composecheck_client_erase(client: &mut ClientRecord, action: &mut ActionRecord)
    ensures { Becomes (machine.erase_outcome (client_of client.old)) (held_of client.old)
        client.new action.new }
{
    let mut typing = restored(client);
    let next = typing.erase();
    keep(client, &typing);
    put_action(action, &next);
}

/// Drops the pending keys: the session is reset before the next key. While a reply is waited for
/// nothing changes. O(1).
#[unsafe(no_mangle)]
pub extern "C" fn composecheck_client_drop(client: &mut ClientRecord)
    ensures { typing_of client.new
        ≡ record { client = machine.dropped (client_of client.old); held = held_of client.old } }
{
    let mut typing = restored(client);
    typing.drop_pending();
    keep(client, &typing);
}

/// Closes the session, if there is a connection; the next key opens another one. While a reply is
/// waited for nothing changes. O(1).
#[unsafe(no_mangle)]
pub extern "C" fn composecheck_client_close(client: &mut ClientRecord, action: &mut ActionRecord)
    ensures { Becomes (machine.close_outcome (client_of client.old)) (held_of client.old)
        client.new action.new }
{
    let mut typing = restored(client);
    let next = typing.close();
    keep(client, &typing);
    put_action(action, &next);
}

/// Puts the pending keys at the front of `keysyms`, and returns their number, at most 31: what an
/// input method shows as preedit. O(pending keys).
#[unsafe(no_mangle)]
pub extern "C" fn composecheck_client_pending(client: &ClientRecord, keysyms: &mut [u32; 31]) -> u32
    ensures value { take result keysyms.new ≡ (client_of client.now).pending }
    ensures count { result ≡ length (client_of client.now).pending }
    ensures few { result ≤ 31 }
{
    let typing = restored(client);
    put_keysyms(typing.client().pending(), keysyms)
}

/// Whether a key waits for its verdict. O(1).
#[unsafe(no_mangle)]
pub extern "C" fn composecheck_client_waits(client: &ClientRecord) -> bool
    ensures { result ≡ machine.waits (client_of client.now).stage }
{
    restored(client).client().stage().waits()
}

/// Whether nothing is waited for, neither a connection nor a reply. O(1).
#[unsafe(no_mangle)]
pub extern "C" fn composecheck_client_is_idle(client: &ClientRecord) -> bool
    ensures { result ≡ machine.is_idle (client_of client.now).stage }
{
    restored(client).client().stage().is_idle()
}
