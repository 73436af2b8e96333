//! A window of the bytes that come back, from which replies are returned, without an allocation.
ghost use Rattle.std.specs.Prelude.{◌≡◌, ◌≤◌, ◌++◌, ℕ, List, [], length, drop, Some, None, Ok, Err};
ghost use Rattle.compose_wire.specs.Messages as words;
ghost use Rattle.compose_wire.specs.Frames.{Fault, reply_bytes};
ghost use Rattle.compose_client.specs.Replies.{ReplyFits, head_fault, HasBadPayload, IsReplyBegun};
ghost use Rattle.compose_client.specs.Giving.{Returns, ReturnsReply, reply_fault};

use crate::fault::ReplyFault;
use crate::reply::first_reply;
use arrayvec::ArrayVec;
use compose_wire::Reply;
use std::marker::Model;

/// The number of bytes of the longest reply.
const LONGEST: usize = 266;

/// The bytes of a stream that were received and not yet returned as replies, at most 266, which is
/// the longest reply.
#[derive(Drop)]
pub struct ReplyWindow {
    bytes: ArrayVec<u8, 266>,
}

impl Model for ReplyWindow {
    ghost use Rattle.std.specs.Prelude.{ℕ, ◌≤◌, List, length};

    ghost Value = { List ℕ };

    ghost view = { λ w. w.bytes.items };

    ghost invariant = { λ w. length w.bytes.items ≤ 266 };
}

impl ReplyWindow {
    /// Returns an empty window. O(1).
    pub fn new() -> ReplyWindow
        ensures { result ≡ [] }
    {
        ReplyWindow {
            bytes: ArrayVec::new(),
        }
    }

    /// Returns the window with these bytes. O(1).
    pub fn restored(bytes: ArrayVec<u8, 266>) -> ReplyWindow
        ensures { result ≡ bytes.items }
    {
        ReplyWindow { bytes }
    }

    /// Returns the bytes, at most 266. O(1).
    pub fn as_slice(&self) -> &[u8]
        ensures value { result.now ≡ self.now }
        ensures few { length result.now ≤ 266 }
    {
        self.bytes.as_slice()
    }

    /// Appends bytes from the front of the piece, as many as the window has room for, and removes
    /// the reply with whose frame the bytes then begin. Returns the number of appended bytes, and
    /// the reply, or `None` if there is less than a whole frame; the whole piece is appended then.
    ///
    /// Allocates nothing; O(1), since at most 266 bytes are read.
    ///
    /// Errors: `UnknownKind`, `BadLength` or `BadPayload` if the bytes begin with such a fault;
    /// then each further call returns the same: these bytes can't become the frame of a reply,
    /// whatever follows.
    pub fn next_reply(&mut self, piece: &[u8]) -> (usize, Result<Option<Reply>, ReplyFault>)
        ensures so { Returns result.1 (self.old ++ piece.now) (self.new ++ drop result.0 piece.now) }
        ensures used { result.0 ≤ length piece.now }
        ensures all { result.1 ≡ Ok None → result.0 ≡ length piece.now }
        ensures reply { (r : words.Reply) (more : List ℕ) → ReplyFits r
            → self.old ++ piece.now ≡ reply_bytes r ++ more
            → ReturnsReply r more result.1 (self.new ++ drop result.0 piece.now) }
        ensures fault { (fault : Fault) → head_fault (self.old ++ piece.now) ≡ Some fault
            → result.1 ≡ Err (reply_fault fault) }
        ensures bad_payload { HasBadPayload (self.old ++ piece.now)
            → result.1 ≡ Err ReplyFault.BadPayload }
        ensures none { IsReplyBegun (self.old ++ piece.now) → result.1 ≡ Ok None }
    {
        let used = piece.len().min(LONGEST - self.bytes.len());
        self.bytes.try_extend_from_slice(&piece[..used]).unwrap();
        (used, self.take_first())
    }

    /// Removes the frame with which the bytes begin.
    fn take_first(&mut self) -> Result<Option<Reply>, ReplyFault>
        ensures { Returns result self.old self.new }
    {
        let Some((reply, size)) = first_reply(self.bytes.as_slice())? else {
            return Ok(None);
        };
        self.remove_front(size);
        Ok(Some(reply))
    }

    /// Removes this number of bytes at the front. O(1).
    fn remove_front(&mut self, count: usize)
        requires { count ≤ length self.old }
        ensures { self.new ≡ drop count self.old }
    {
        let mut rest = ArrayVec::new();
        rest.try_extend_from_slice(&self.bytes.as_slice()[count..])
            .unwrap();
        self.bytes = rest;
    }
}
