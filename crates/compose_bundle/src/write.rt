//! Writing a bundle as the payload of a load.
ghost use Rattle.std.specs.Prelude.{◌≡◌, ◌<◌, ◌++◌, ◌^◌, length, slice_get, Some, [], ◌∷◌};
ghost use Rattle.std.specs.Int.{to_be_bytes, w16, w32};
ghost use Rattle.compose_read.specs.Lines.{Source};
ghost use Rattle.compose_bundle.specs.Bundle.{source_bytes};
ghost use Rattle.compose_bundle.specs.Written.{Appends, AppendsAlways, HasLengths, Writes};

use crate::BundleFault;
use compose_read::Sources;
use std::alloc::Global;

/// The largest payload of a load, in bytes.
const MAX_PAYLOAD: usize = 8_388_608;

/// Returns the bundle of these sources, the root first, and this certificate, as a payload that
/// `read_bundle` reads as the same bundle. O(bytes).
///
/// Errors: `TooLarge` if no load can carry it: there is no source, a name has more than 65,535
/// bytes, or the payload would have more than 8,388,608. `NoMemory` if memory runs out.
pub fn write_bundle(
    alloc: Global,
    sources: &Sources,
    certificate: &[u8],
) -> Result<Vec<u8>, BundleFault>
    ensures { Writes result (record { sources = sources.now; certificate = certificate.now }) }
{
    let count = sources.count();
    if count == 0 {
        return Err(BundleFault::TooLarge);
    }
    let mut payload = Vec::new(alloc);
    if let Err(fault) = put(&mut payload, &(count as u16).to_be_bytes()) {
        return Err(fault);
    }
    for index in 0..count {
        if let Err(fault) = put_source(&mut payload, sources, index) {
            return Err(fault);
        }
    }
    if let Err(fault) = put_sized_by_4(&mut payload, certificate) {
        return Err(fault);
    }
    Ok(payload)
}

/// Appends the source at this index.
fn put_source(payload: &mut Vec<u8>, sources: &Sources, index: usize) -> Result<(), BundleFault>
    requires { index < length sources.now }
    ensures { (s : Source) × (slice_get sources.now index ≡ Some s)
        × Appends (HasLengths s) payload.old.items (source_bytes s) result payload.new.items }
{
    let name = sources.name(index).unwrap();
    let content = sources.bytes(index);
    if let Err(fault) = put_sized_by_2(payload, name.as_bytes()) {
        return Err(fault);
    }
    put_sized_by_4(payload, content)
}

/// Appends the piece after its length, of two bytes.
fn put_sized_by_2(payload: &mut Vec<u8>, piece: &[u8]) -> Result<(), BundleFault>
    ensures { Appends (length piece.now < 2 ^ 16) payload.old.items
        (to_be_bytes w16 (length piece.now) ++ piece.now) result payload.new.items }
{
    let Ok(size) = u16::try_from(piece.len()) else {
        return Err(BundleFault::TooLarge);
    };
    if let Err(fault) = put(payload, &size.to_be_bytes()) {
        return Err(fault);
    }
    put(payload, piece)
}

/// Appends the piece after its length, of four bytes.
fn put_sized_by_4(payload: &mut Vec<u8>, piece: &[u8]) -> Result<(), BundleFault>
    ensures { Appends (length piece.now < 2 ^ 32) payload.old.items
        (to_be_bytes w32 (length piece.now) ++ piece.now) result payload.new.items }
{
    let Ok(size) = u32::try_from(piece.len()) else {
        return Err(BundleFault::TooLarge);
    };
    if let Err(fault) = put(payload, &size.to_be_bytes()) {
        return Err(fault);
    }
    put(payload, piece)
}

/// Appends the piece if the whole is not larger than the largest payload.
fn put(payload: &mut Vec<u8>, piece: &[u8]) -> Result<(), BundleFault>
    ensures { AppendsAlways payload.old.items piece.now result payload.new.items }
{
    if payload.len() + piece.len() > MAX_PAYLOAD {
        return Err(BundleFault::TooLarge);
    }
    let Ok(()) = payload.extend_from_slice(piece) else {
        return Err(BundleFault::NoMemory);
    };
    Ok(())
}
