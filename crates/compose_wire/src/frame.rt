//! The frame at the beginning of the bytes.
ghost use Rattle.std.specs.Prelude.{◌≡◌, ◌≢◌, [], length, option_map, IfOk, OnErr};
ghost use Rattle.compose_text.specs.Numbers.{is_between};
ghost use Rattle.compose_wire.specs.Frames as frames;
ghost use Rattle.compose_wire.specs.Feeding.{IsSize, IsFirst, IsLoaded, body_at, wire_fault};
ghost use Rattle.compose_wire.specs.Requests.{body_of};

use crate::fault::WireFault;
use crate::request::{Body, Payload, Request};
use std::alloc::{AllocError, Global};

/// The length of a frame's head in bytes: the kind, the session and the length of the payload.
pub(crate) const HEAD: usize = 9;

/// The largest payload of a load, in bytes.
const MAX_PAYLOAD: u32 = 8_388_608;

/// Returns whether requests of this kind exist. O(1).
fn is_kind(kind: u8) -> bool
    ensures { result ≡ is_between 1 7 kind }
{
    matches!(kind, 1..=7)
}

/// Returns the fault of a length that doesn't fit its kind: 5 and 7 are loads of up to the largest
/// payload, 2 is a key of four bytes, and the others have no payload. O(1).
fn length_fault(kind: u8, size: u32) -> Option<WireFault>
    ensures { result ≡ option_map wire_fault (frames.length_fault kind size) }
{
    let is_load = kind == 5 || kind == 7;
    if is_load && size > MAX_PAYLOAD {
        return Some(WireFault::TooLong);
    }
    if is_load || size == (if kind == 2 { 4 } else { 0 }) {
        return None;
    }
    Some(WireFault::BadLength)
}

/// Returns the length of the payload, if the bytes begin with a whole frame, or `None` if they have
/// less than a frame.
///
/// O(1). Errors: `UnknownKind` from the first byte on, `BadLength` or `TooLong` from the end of the
/// head on.
pub(crate) fn payload_size(held: &[u8]) -> Result<Option<usize>, WireFault>
    ensures { IsSize result held.now }
{
    let Some(&kind) = held.first() else {
        return Ok(None);
    };
    if !is_kind(kind) {
        return Err(WireFault::UnknownKind);
    }
    if held.len() < HEAD {
        return Ok(None);
    }
    let size = u32::from_be_bytes([held[5], held[6], held[7], held[8]]);
    if let Some(fault) = length_fault(kind, size) {
        return Err(fault);
    }
    if held.len() - HEAD < size as usize {
        return Ok(None);
    }
    Ok(Some(size as usize))
}

/// Returns a copy of a load's payload, in one allocation of its size. Linear.
fn copied(alloc: Global, bytes: &[u8]) -> Result<Payload, AllocError>
    ensures ok { IfOk result (λ payload. payload ≡ bytes.now) }
    ensures err { OnErr result (bytes.now ≢ []) }
{
    let mut copy = Vec::with_capacity(alloc, bytes.len())?;
    copy.extend_from_slice(bytes).unwrap();
    Ok(Payload::new(copy))
}

/// Returns the body of a request of this kind with this payload.
fn read_body(alloc: Global, kind: u8, payload: &[u8]) -> Result<Body, AllocError>
    requires { kind ≡ 2 → length payload.now ≡ 4 }
    ensures ok { IfOk result (λ body. body_of body ≡ body_at kind payload.now) }
    ensures err { OnErr result (IsLoaded (body_at kind payload.now)) }
{
    match kind {
        1 => Ok(Body::Open),
        2 => {
            let number = u32::from_be_bytes([payload[0], payload[1], payload[2], payload[3]]);
            Ok(Body::Key(number))
        }
        3 => Ok(Body::Reset),
        4 => Ok(Body::Close),
        5 => Ok(Body::Load(copied(alloc, payload)?)),
        6 => Ok(Body::Ask),
        _ => Ok(Body::LoadLongest(copied(alloc, payload)?)),
    }
}

/// Returns the request at the beginning of the bytes, and the number of bytes of its frame. Linear
/// in the payload of a load, else O(1).
pub(crate) fn first_request(
    alloc: Global,
    held: &[u8],
) -> Result<Option<(Request, usize)>, WireFault>
    ensures { IsFirst result held.now }
{
    let Some(size) = payload_size(held)? else {
        return Ok(None);
    };
    let end = HEAD + size;
    let session = u32::from_be_bytes([held[1], held[2], held[3], held[4]]);
    let body = read_body(alloc, held[0], &held[HEAD..end])?;
    Ok(Some((Request { session, body }, end)))
}
