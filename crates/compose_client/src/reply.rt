//! The reply at the beginning of the bytes.
ghost use Rattle.std.specs.Prelude.{◌≡◌, ◌≢◌, IsTrue, true, false};
ghost use Rattle.compose_wire.specs.Messages as words;
ghost use Rattle.compose_wire.specs.Frames.{reply_bytes};
ghost use Rattle.compose_wire.specs.Replies.{HasReplyValue};
ghost use Rattle.compose_client.specs.Replies as replies;
ghost use Rattle.compose_client.specs.Giving.{HasLength, IsSize, IsFirst};

use crate::answer::read_answer;
use crate::fault::ReplyFault;
use crate::request::HEAD;
use compose_wire::{Reply, put_reply};

/// Returns whether replies of this kind exist. O(1).
fn is_reply_kind(kind: u8) -> bool
    ensures { result ≡ replies.is_reply_kind kind }
{
    matches!(kind, 0x81..=0x86 | 0xff)
}

/// Returns whether the payload of a reply of this kind may have this length: Fed has 2 to 257
/// bytes, Loaded eight, State 2 to 126, Refused two, and the others have none. O(1).
fn is_reply_length(kind: u8, size: u32) -> bool
    ensures value { result ≡ replies.is_reply_length kind size }
    ensures long { IsTrue result → HasLength kind size }
{
    match kind {
        0x82 => matches!(size, 2..=257),
        0x85 => size == 8,
        0x86 => matches!(size, 2..=126),
        0xff => size == 2,
        _ => size == 0,
    }
}

/// Returns the length of the payload, if there is a whole frame by the length in its head, or
/// `None` if there is less.
///
/// O(1). Errors: `UnknownKind` from the first byte on, `BadLength` from the end of the head on.
fn payload_size(held: &[u8]) -> Result<Option<usize>, ReplyFault>
    ensures { IsSize result held.now }
{
    let Some(&kind) = held.first() else {
        return Ok(None);
    };
    if !is_reply_kind(kind) {
        return Err(ReplyFault::UnknownKind);
    }
    if held.len() < HEAD {
        return Ok(None);
    }
    let size = u32::from_be_bytes([held[5], held[6], held[7], held[8]]);
    if !is_reply_length(kind, size) {
        return Err(ReplyFault::BadLength);
    }
    if held.len() - HEAD < size as usize {
        return Ok(None);
    }
    Ok(Some(size as usize))
}

/// Returns whether the bytes are the frame of this reply.
fn is_frame_of(bytes: &[u8], reply: &Reply) -> bool
    ensures yes { (value : words.Reply) → HasReplyValue reply.now value → result ≡ true
        → reply_bytes value ≡ bytes.now }
    ensures no { (value : words.Reply) → HasReplyValue reply.now value → result ≡ false
        → reply_bytes value ≢ bytes.now }
{
    let written = put_reply(reply);
    written.as_slice() == bytes
}

/// Returns the reply at the beginning of the bytes, and the number of bytes of its frame.
///
/// What was read is written again, and returned only if the bytes are the same. Allocates nothing;
/// at most 266 bytes are read.
pub(crate) fn first_reply(held: &[u8]) -> Result<Option<(Reply, usize)>, ReplyFault>
    ensures { IsFirst result held.now }
{
    let Some(size) = payload_size(held)? else {
        return Ok(None);
    };
    let end = HEAD + size;
    let session = u32::from_be_bytes([held[1], held[2], held[3], held[4]]);
    let Some(answer) = read_answer(held[0], &held[HEAD..end]) else {
        return Err(ReplyFault::BadPayload);
    };
    let reply = Reply { session, answer };
    if !is_frame_of(&held[..end], &reply) {
        return Err(ReplyFault::BadPayload);
    }
    Ok(Some((reply, end)))
}
