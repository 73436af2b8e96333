//! The table in use, as `update` stores it.
ghost use Rattle.std.specs.Prelude.{◌≡◌, ◌++◌, IfOk, IfErr, string_bytes, codes};
ghost use Rattle.compose_bundle.specs.Bundle.{IsBundle};
ghost use Rattle.compose_runs.specs.Stored.{IsDamaged, IsStateFault, damage};

use compose_bundle::{Bundle, BundleFault, read_bundle};
use compose_input::Fault;
use std::alloc::{AllocError, Global};

/// Reads the stored bytes of a bundle. O(bytes).
/// Errors: a refusal of `state`, whose words begin with this place, if the bytes are not a bundle;
/// `NoMemory` if memory runs out.
pub fn read_stored<'b>(alloc: Global, place: &str, bytes: &'b [u8]) -> Result<Bundle<'b>, Fault>
    ensures read { IfOk result
        (λ bundle. IsBundle bytes.entry.now
        (record { sources = bundle.sources; certificate = bundle.certificate.now })) }
    ensures fault { IfErr result (λ fault. IsDamaged place.now bytes.entry.now fault) }
{
    match read_bundle(alloc, bytes) {
        Ok(bundle) => Ok(bundle),
        Err(BundleFault::NoMemory) => Err(Fault::NoMemory),
        Err(_) => Err(state_fault(alloc, place)),
    }
}

/// Returns the fault that the stored bytes are not a bundle.
fn state_fault(alloc: Global, place: &str) -> Fault
    ensures { IsStateFault (place.now ++ damage) result }
{
    Fault::refused("state", state_words(alloc, place))
}

/// Returns its words, which begin with this place.
fn state_words(alloc: Global, place: &str) -> Result<String, AllocError>
    ensures { IfOk result (λ words. string_bytes words ≡ place.now ++ damage) }
{
    format!(in alloc; "{place}1 Form")
}
