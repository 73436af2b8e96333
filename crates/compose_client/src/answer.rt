//! Reading the answer of a reply from its payload.
ghost use Rattle.std.specs.Prelude.{◌≡◌, ◌≤◌, length, MatchOption};
ghost use Rattle.compose_client.specs.Replies.{AreKeysyms};
ghost use Rattle.compose_client.specs.Giving.{status_at, keysyms_at, HasLength, ReadsAnswer};

use arrayvec::{ArrayString, ArrayVec};
use compose_model::Status;
use compose_wire::ReplyBody;
use keysym_core::Keysym;

/// Returns the status of a byte; a byte above 3 is read as 3.
fn read_status(byte: u8) -> Status
    ensures { result ≡ status_at byte }
{
    match byte {
        0 => Status::Nothing,
        1 => Status::Composing,
        2 => Status::Composed,
        _ => Status::Cancelled,
    }
}

/// Reads the answer to a key; `None` if the text is not UTF-8.
fn read_fed(payload: &[u8]) -> Option<ReplyBody>
    requires some { 2 ≤ length payload.now }
    requires few { length payload.now ≤ 257 }
    ensures { ReadsAnswer result 0x82 payload.now }
{
    let Ok(text) = str::from_utf8(&payload[2..]) else {
        return None;
    };
    let text = ArrayString::from(text).unwrap();
    Some(ReplyBody::Fed(read_status(payload[0]), payload[1] == 1, text))
}

/// Reads the number of loads that were accepted.
fn read_loaded(payload: &[u8]) -> ReplyBody
    requires { length payload.now ≡ 8 }
    ensures { ReadsAnswer (Some result) 0x85 payload.now }
{
    ReplyBody::Loaded(u64::from_be_bytes([
        payload[0], payload[1], payload[2], payload[3], payload[4], payload[5], payload[6],
        payload[7],
    ]))
}

/// Reads keysyms of four bytes each; `None` if one is above the largest keysym. Fewer than four
/// bytes at the end are ignored.
fn read_keysyms(bytes: &[u8]) -> Option<ArrayVec<Keysym, 31>>
    requires { length bytes.now ≤ 124 }
    ensures { MatchOption result (¬ (AreKeysyms (keysyms_at bytes.now)))
        (λ keysyms. (keysyms.items ≡ keysyms_at bytes.now) × AreKeysyms (keysyms_at bytes.now)) }
{
    let mut keysyms = ArrayVec::new();
    let mut rest = bytes;
    while rest.len() >= 4 {
        let number = u32::from_be_bytes([rest[0], rest[1], rest[2], rest[3]]);
        let Some(keysym) = Keysym::new(number) else {
            return None;
        };
        keysyms.push(keysym);
        rest = &rest[4..];
    }
    Some(keysyms)
}

/// Reads the state of a session; `None` if a keysym is too large.
fn read_state(payload: &[u8]) -> Option<ReplyBody>
    requires some { 2 ≤ length payload.now }
    requires few { length payload.now ≤ 126 }
    ensures { ReadsAnswer result 0x86 payload.now }
{
    let Some(pending) = read_keysyms(&payload[2..]) else {
        return None;
    };
    Some(ReplyBody::State(read_status(payload[0]), pending))
}

/// Reads the code of a refusal; `None` if no refusal has this code.
fn read_refused(payload: &[u8]) -> Option<ReplyBody>
    requires { length payload.now ≡ 2 }
    ensures { ReadsAnswer result 0xff payload.now }
{
    let code = u16::from_be_bytes([payload[0], payload[1]]);
    if code < 1 || code > 10 {
        return None;
    }
    Some(ReplyBody::Refused(code))
}

/// Reads the answer from a payload of this kind.
///
/// `None` only if no reply has this kind and payload. Bytes that no reply has may be read as
/// another reply, so the caller has to compare. Allocates nothing; linear in the payload.
pub(crate) fn read_answer(kind: u8, payload: &[u8]) -> Option<ReplyBody>
    requires { HasLength kind (length payload.now) }
    ensures { ReadsAnswer result kind payload.now }
{
    match kind {
        0x82 => read_fed(payload),
        0x83 => Some(ReplyBody::WasReset),
        0x84 => Some(ReplyBody::Closed),
        0x85 => Some(read_loaded(payload)),
        0x86 => read_state(payload),
        0xff => read_refused(payload),
        _ => Some(ReplyBody::Opened),
    }
}
