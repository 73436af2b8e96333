//! Replies of the typing service as bytes.
ghost use Rattle.std.specs.Prelude.{◌≡◌, ◌+◌, ◌*◌, ◌≤◌, ◌++◌, ◌∷◌, length, flat_map, if◌then◌else◌};
ghost use Rattle.std.specs.Int.{to_be_bytes, w32};
ghost use Rattle.compose_wire.specs.Messages as words;
ghost use Rattle.compose_wire.specs.Frames as frames;
ghost use Rattle.compose_wire.specs.Frames.{frame_of};
ghost use Rattle.compose_wire.specs.Replies.{HasReplyValue, bytes_of};

use arrayvec::{ArrayString, ArrayVec};
use compose_model::Status;
use keysym_core::Keysym;

/// The content of a reply.
#[derive(Debug, PartialEq, Eq, Drop)]
pub enum ReplyBody {
    /// The session was opened.
    Opened,
    /// The key was fed: the status after it, whether it was accepted, and the text that it
    /// committed.
    Fed(Status, bool, ArrayString<255>),
    /// The session was reset.
    WasReset,
    /// The session was closed.
    Closed,
    /// The load was accepted: the number of loads that were accepted since the start, with this
    /// one.
    Loaded(u64),
    /// The state of the session: its status and its pending keysyms, the oldest first.
    State(Status, ArrayVec<Keysym, 31>),
    /// The request was refused, for the reason with this code.
    Refused(u16),
}

/// A reply: the session of its request, and the answer.
#[derive(Debug, PartialEq, Eq, Drop)]
pub struct Reply {
    /// The session number of the request.
    pub session: u32,
    /// The answer to the request.
    pub answer: ReplyBody,
}

/// Returns the byte of a status.
fn status_byte(status: Status) -> u8
    ensures { result ≡ frames.status_byte status }
{
    match status {
        Status::Nothing => 0,
        Status::Composing => 1,
        Status::Composed => 2,
        Status::Cancelled => 3,
    }
}

/// Returns the head of a frame: its kind, its session and the length of its payload.
fn head(kind: u8, session: u32, size: u32) -> ArrayVec<u8, 272>
    ensures bytes { result.items ≡ kind ∷ to_be_bytes w32 session ++ to_be_bytes w32 size }
    ensures length { length result.items ≡ 9 }
{
    let mut bytes = ArrayVec::new();
    bytes.push(kind);
    append(&mut bytes, &session.to_be_bytes());
    append(&mut bytes, &size.to_be_bytes());
    bytes
}

/// Appends bytes to those of a frame.
fn append(bytes: &mut ArrayVec<u8, 272>, more: &[u8])
    requires { length bytes.old.items + length more.now ≤ 272 }
    ensures { bytes.new.items ≡ bytes.old.items ++ more.now }
{
    bytes.try_extend_from_slice(more).unwrap();
}

/// Appends keysyms to the bytes of a frame, each in four bytes.
fn append_keysyms(bytes: &mut ArrayVec<u8, 272>, keysyms: &[Keysym])
    requires { length bytes.old.items + 4 * length keysyms.now ≤ 272 }
    ensures { bytes.new.items ≡ bytes.old.items ++ flat_map (to_be_bytes w32) keysyms.now }
{
    for keysym in keysyms {
        append(bytes, &keysym.value().to_be_bytes());
    }
}

/// Returns a frame of this kind with this payload.
fn with_payload(kind: u8, session: u32, payload: &[u8]) -> ArrayVec<u8, 272>
    requires { length payload.now ≤ 263 }
    ensures { result.items ≡ frame_of kind session payload.now }
{
    let mut bytes = head(kind, session, payload.len() as u32);
    append(&mut bytes, payload);
    bytes
}

/// Returns the frame of the reply to a key.
fn fed(session: u32, status: Status, accepted: bool, text: &str) -> ArrayVec<u8, 272>
    requires { length text.now ≤ 255 }
    ensures { result.items
        ≡ frame_of 0x82 session
        (frames.status_byte status ∷ (if accepted then 1 else 0) ∷ text.now) }
{
    let mut bytes = head(0x82, session, text.len() as u32 + 2);
    bytes.push(status_byte(status));
    bytes.push(u8::from(accepted));
    append(&mut bytes, text.as_bytes());
    bytes
}

/// Returns the frame of the reply with the state of a session.
fn state(session: u32, status: Status, pending: &[Keysym]) -> ArrayVec<u8, 272>
    requires { length pending.now ≤ 31 }
    ensures { result.items
        ≡ frame_of 0x86 session
        (frames.status_byte status ∷ length pending.now
        ∷ flat_map (to_be_bytes w32) pending.now) }
{
    let mut bytes = head(0x86, session, pending.len() as u32 * 4 + 2);
    bytes.push(status_byte(status));
    bytes.push(pending.len() as u8);
    append_keysyms(&mut bytes, pending);
    bytes
}

/// Returns the frame of a reply: its kind, its session, the length of its payload and the payload;
/// all numbers are big-endian.
///
/// Allocates nothing; linear in the text or the pending keysyms.
pub fn put_reply(reply: &Reply) -> ArrayVec<u8, 272>
    ensures bytes { result.items ≡ bytes_of reply.now }
    ensures value { (value : words.Reply) → HasReplyValue reply.now value
        → result.items ≡ frames.reply_bytes value }
{
    let session = reply.session;
    match &reply.answer {
        ReplyBody::Opened => with_payload(0x81, session, &[]),
        ReplyBody::Fed(status, accepted, text) => fed(session, *status, *accepted, text.as_str()),
        ReplyBody::WasReset => with_payload(0x83, session, &[]),
        ReplyBody::Closed => with_payload(0x84, session, &[]),
        ReplyBody::Loaded(count) => with_payload(0x85, session, &count.to_be_bytes()),
        ReplyBody::State(status, pending) => state(session, *status, pending.as_slice()),
        ReplyBody::Refused(code) => with_payload(0xff, session, &code.to_be_bytes()),
    }
}
