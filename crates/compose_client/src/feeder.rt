//! A buffer for the bytes that come back, which are returned as replies, a whole frame at a time.
ghost use Rattle.std.specs.Prelude.{◌≡◌, ◌+◌, ◌≤◌, ◌++◌, ℕ, List, [], length, drop, vec_len, Some, None, Ok, Err, OnOk, OnErr, IsOk, IsOkUnless};
ghost use Rattle.compose_wire.specs.Messages as words;
ghost use Rattle.compose_wire.specs.Frames.{Fault, reply_bytes};
ghost use Rattle.compose_client.specs.Replies.{ReplyFits, head_fault, HasBadPayload, IsReplyBegun};
ghost use Rattle.compose_client.specs.Giving.{Returns, ReturnsReply, reply_fault};

use crate::fault::ReplyFault;
use crate::reply::first_reply;
use compose_wire::Reply;
use std::alloc::Global;
use std::marker::Model;

/// A buffer is not made smaller if it has at most four times this many bytes.
const SPARE: usize = 16_384;

/// The bytes of a stream that were received and not yet returned as replies.
///
/// They are kept in one buffer, after bytes that were returned but not yet dropped; there are never
/// more of these than of the others. When half of the buffer was returned, the rest moves to the
/// beginning, and a buffer more than four times as large as the rest (or as 16 KiB) shrinks to
/// twice that. So each byte is moved a bounded number of times on average, however small the pieces
/// are, and beyond 64 KiB the buffer is at most about eight times as large as the bytes in it that
/// were not returned yet.
#[derive(Debug, Drop)]
pub struct ReplyFeeder {
    buffer: Vec<u8>,
    start: usize,
}

impl Model for ReplyFeeder {
    ghost use Rattle.std.specs.Prelude.{ℕ, ◌+◌, ◌≤◌, List, length, drop};

    ghost Value = { List ℕ };

    ghost view = { λ f. drop f.start f.buffer.items };

    ghost invariant = { λ f. f.start + f.start ≤ length f.buffer.items };
}

impl ReplyFeeder {
    /// Returns an empty feeder, which has no memory yet. O(1).
    pub fn new(alloc: Global) -> ReplyFeeder
        ensures { result ≡ [] }
    {
        ReplyFeeder {
            buffer: Vec::new(alloc),
            start: 0,
        }
    }

    /// Appends the whole piece to the buffered bytes.
    ///
    /// Linear in the piece; the cost of growing the buffer is spread over the bytes received.
    ///
    /// Errors: `NoMemory` if the buffer can't grow; nothing changes then.
    pub fn feed(&mut self, piece: &[u8]) -> Result<(), ReplyFault>
        ensures ok { OnOk result (self.new ≡ self.old ++ piece.now) }
        ensures err { OnErr result (self.new ≡ self.old) }
        ensures no_memory { IsOkUnless result ReplyFault.NoMemory }
        ensures nothing { piece.now ≡ [] → IsOk result }
    {
        self.buffer.extend_from_slice(piece)?;
        Ok(())
    }

    /// Returns the reply with whose frame the buffered bytes begin, and removes it; `None` if there
    /// is less than a whole frame.
    ///
    /// Allocates nothing; O(1) on average, since a frame has at most 266 bytes.
    ///
    /// Errors: `UnknownKind`, `BadLength` or `BadPayload` if the buffered bytes begin with such a
    /// fault; nothing changes, and each further call returns the same: these bytes can't become the
    /// frame of a reply, whatever follows.
    pub fn next_reply(&mut self) -> Result<Option<Reply>, ReplyFault>
        ensures so { Returns result self.old self.new }
        ensures reply { (r : words.Reply) (more : List ℕ) → ReplyFits r
            → self.old ≡ reply_bytes r ++ more → ReturnsReply r more result self.new }
        ensures fault { (fault : Fault) → head_fault self.old ≡ Some fault
            → result ≡ Err (reply_fault fault) }
        ensures bad_payload { HasBadPayload self.old → result ≡ Err ReplyFault.BadPayload }
        ensures none { IsReplyBegun self.old → result ≡ Ok None }
    {
        self.take_first()
    }

    /// Removes the frame with which the buffered bytes begin.
    fn take_first(&mut self) -> Result<Option<Reply>, ReplyFault>
        ensures { Returns result self.old self.new }
    {
        let Some((reply, size)) = first_reply(&self.buffer[self.start..])? else {
            return Ok(None);
        };
        self.start = drop_given(&mut self.buffer, self.start + size);
        Ok(Some(reply))
    }

    /// Returns the number of buffered bytes. O(1).
    pub fn held(&self) -> usize
        ensures { result ≡ length self.now }
    {
        self.buffer.len() - self.start
    }
}

/// Drops the bytes before `start` if they are at least half of all. Returns the index at which the
/// others begin now.
///
/// It moves no more bytes than it drops.
fn drop_given(buffer: &mut Vec<u8>, start: usize) -> usize
    requires { start ≤ vec_len buffer.old }
    ensures held { drop result buffer.new.items ≡ drop start buffer.old.items }
    ensures surplus { result + result ≤ vec_len buffer.new }
{
    let held = buffer.len() - start;
    if start < held {
        return start;
    }
    remove_prefix(buffer, start);
    let room = held.max(SPARE);
    if buffer.capacity() / 4 > room {
        buffer.shrink_to(room * 2);
    }
    0
}

/// Moves the bytes after the first `count` ones to the beginning.
fn remove_prefix(buffer: &mut Vec<u8>, count: usize)
    requires { count ≤ vec_len buffer.old }
    ensures { buffer.new.items ≡ drop count buffer.old.items }
{
    let len = buffer.len();
    buffer.as_mut_slice().copy_within(count..len, 0);
    buffer.truncate(len - count);
}
