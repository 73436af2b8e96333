//! Writing requests as frames.
ghost use Rattle.std.specs.Prelude.{◌≡◌, ◌<◌, ◌≤◌, ◌↔◌, length, OnOk, IfOk};
ghost use Rattle.compose_wire.specs.Messages.{Fits, AreBytes, max_payload};
ghost use Rattle.compose_wire.specs.Frames.{frame, frame_of, payload as payload_of};
ghost use Rattle.compose_wire.specs.Requests.{request_of};

use crate::fault::RequestFault;
use compose_wire::{Body, Request};
use std::alloc::Global;

/// The length of a frame's head in bytes: the kind, the session and the length of the payload.
pub(crate) const HEAD: usize = 9;

/// The largest payload of a load, in bytes.
const MAX_PAYLOAD: usize = 8_388_608;

/// Returns the frame of a request: its kind, its session, the length of its payload and the
/// payload; all numbers are big-endian.
///
/// Linear in the payload; one allocation of the frame's size.
///
/// Errors: `TooLong` exactly if a load has more than 8,388,608 bytes; `NoMemory` if memory runs
/// out.
pub fn put_request(alloc: Global, request: &Request) -> Result<Vec<u8>, RequestFault>
    ensures ok { IfOk result (λ bytes. bytes.items ≡ frame (request_of request.now)) }
    ensures fits { OnOk result (Fits (request_of request.now)) }
    ensures too_long { (result ≡ Err RequestFault.TooLong)
        ↔ (max_payload < length (payload_of (request_of request.now).body)) }
{
    let session = request.session;
    match &request.body {
        Body::Open => with_payload(alloc, 1, session, &[]),
        Body::Key(keysym) => with_payload(alloc, 2, session, &keysym.to_be_bytes()),
        Body::Reset => with_payload(alloc, 3, session, &[]),
        Body::Close => with_payload(alloc, 4, session, &[]),
        Body::Load(payload) => with_payload(alloc, 5, session, payload.as_slice()),
        Body::Ask => with_payload(alloc, 6, session, &[]),
        Body::LoadLongest(payload) => with_payload(alloc, 7, session, payload.as_slice()),
    }
}

/// Returns a frame of this kind with this payload.
fn with_payload(
    alloc: Global,
    kind: u8,
    session: u32,
    payload: &[u8],
) -> Result<Vec<u8>, RequestFault>
    ensures ok { IfOk result (λ bytes. bytes.items ≡ frame_of kind session payload.now) }
    ensures fits { OnOk result ((length payload.now ≤ max_payload) × AreBytes payload.now) }
    ensures too_long { (result ≡ Err RequestFault.TooLong) ↔ (max_payload < length payload.now) }
{
    if payload.len() > MAX_PAYLOAD {
        return Err(RequestFault::TooLong);
    }
    let mut bytes = Vec::with_capacity(alloc, HEAD + payload.len())?;
    bytes.extend_from_slice(&[kind])?;
    bytes.extend_from_slice(&session.to_be_bytes())?;
    bytes.extend_from_slice(&(payload.len() as u32).to_be_bytes())?;
    bytes.extend_from_slice(payload)?;
    Ok(bytes)
}
