//! A buffer for the bytes of a stream, which are returned as requests, a whole frame at a time.
ghost use Rattle.std.specs.Prelude.{◌≡◌, ◌+◌, ◌≤◌, ◌++◌, ℕ, List, [], length, drop, vec_len, Some, None, Ok, Err, OnOk, OnErr, IsOk, IsOkUnless};
ghost use Rattle.compose_wire.specs.Messages as words;
ghost use Rattle.compose_wire.specs.Messages.{Fits};
ghost use Rattle.compose_wire.specs.Frames.{Fault, frame, fault_at, IsBegun};
ghost use Rattle.compose_wire.specs.Feeding.{Returns, ReturnsRequest, wire_fault};

use crate::fault::WireFault;
use crate::frame::first_request;
use crate::request::Request;
use std::alloc::Global;
use std::marker::Model;

/// A buffer is not made smaller if it has at most four times this many bytes.
const SPARE: usize = 16_384;

/// The bytes of a stream that were received and not yet returned as requests.
///
/// They are kept in one buffer, after bytes that were returned but not yet dropped; there are never
/// more of these than of the others. When half of the buffer was returned, the rest moves to the
/// beginning, and a buffer more than four times as large as the rest (or as 16 KiB) shrinks to
/// twice that. So each byte is moved a bounded number of times on average, however small the pieces
/// are, and the memory of a large load is freed once it was returned.
#[derive(Debug, Drop)]
pub struct Feeder {
    buffer: Vec<u8>,
    start: usize,
}

impl Model for Feeder {
    ghost use Rattle.std.specs.Prelude.{ℕ, ◌+◌, ◌≤◌, List, length, drop};

    ghost Value = { List ℕ };

    ghost view = { λ f. drop f.start f.buffer.items };

    ghost invariant = { λ f. f.start + f.start ≤ length f.buffer.items };
}

impl Feeder {
    /// Returns an empty feeder, which has no memory yet. O(1).
    pub fn new(alloc: Global) -> Feeder
        ensures { result ≡ [] }
    {
        Feeder {
            buffer: Vec::new(alloc),
            start: 0,
        }
    }

    /// Appends the whole piece to the buffered bytes.
    ///
    /// Linear in the piece; the cost of growing the buffer is spread over the bytes received.
    ///
    /// Errors: `NoMemory` if the buffer can't grow; nothing changes then.
    pub fn feed(&mut self, piece: &[u8]) -> Result<(), WireFault>
        ensures ok { OnOk result (self.new ≡ self.old ++ piece.now) }
        ensures err { OnErr result (self.new ≡ self.old) }
        ensures no_memory { IsOkUnless result WireFault.NoMemory }
        ensures nothing { piece.now ≡ [] → IsOk result }
    {
        self.buffer.extend_from_slice(piece)?;
        Ok(())
    }

    /// Returns the request with whose frame the buffered bytes begin, and removes it; `None` if
    /// there is less than a whole frame.
    ///
    /// A load takes one allocation of its payload's size, and time linear in it; all other requests
    /// need no memory, and O(1) time on average. After any request the buffer may shrink; if that
    /// fails, it stays as large as it is.
    ///
    /// Errors: `UnknownKind`, `BadLength` or `TooLong` if the buffered bytes begin with such a
    /// fault; nothing changes, and each further call returns the same. `NoMemory` if there is no
    /// memory for a load's payload; nothing changes, and a later call may return the request.
    pub fn next_request(&mut self, alloc: Global) -> Result<Option<Request>, WireFault>
        ensures so { Returns result self.old self.new }
        ensures request { (q : words.Request) (more : List ℕ) → Fits q
            → self.old ≡ frame q ++ more → ReturnsRequest q more result self.new }
        ensures fault { (fault : Fault) → fault_at self.old ≡ Some fault
            → result ≡ Err (wire_fault fault) }
        ensures none { IsBegun self.old → result ≡ Ok None }
    {
        self.take_first(alloc)
    }

    /// Removes the frame with which the buffered bytes begin.
    fn take_first(&mut self, alloc: Global) -> Result<Option<Request>, WireFault>
        ensures { Returns result self.old self.new }
    {
        let Some((request, size)) = first_request(alloc, &self.buffer[self.start..])? else {
            return Ok(None);
        };
        self.start = drop_given(&mut self.buffer, self.start + size);
        Ok(Some(request))
    }

    /// Returns the number of buffered bytes. O(1).
    pub fn held(&self) -> usize
        ensures { result ≡ length self.now }
    {
        self.buffer.len() - self.start
    }
}

/// Drops the bytes before `start` if they are at least half of all. Returns the index at which the
/// others begin now.
///
/// It moves no more bytes than it drops.
fn drop_given(buffer: &mut Vec<u8>, start: usize) -> usize
    requires { start ≤ vec_len buffer.old }
    ensures held { drop result buffer.new.items ≡ drop start buffer.old.items }
    ensures surplus { result + result ≤ vec_len buffer.new }
{
    let held = buffer.len() - start;
    if start < held {
        return start;
    }
    remove_prefix(buffer, start);
    let room = held.max(SPARE);
    if buffer.capacity() / 4 > room {
        buffer.shrink_to(room * 2);
    }
    0
}

/// Moves the bytes after the first `count` ones to the beginning.
fn remove_prefix(buffer: &mut Vec<u8>, count: usize)
    requires { count ≤ vec_len buffer.old }
    ensures { buffer.new.items ≡ drop count buffer.old.items }
{
    let len = buffer.len();
    buffer.as_mut_slice().copy_within(count..len, 0);
    buffer.truncate(len - count);
}
