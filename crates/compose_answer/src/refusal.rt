//! The refusal of fresh keysyms.
ghost use Rattle.std.specs.Prelude.{◌≡◌};
ghost use Rattle.compose_answer.specs.Refused.{fresh_refused};

use compose_migration::Refusal;
use compose_walk::MakeFault;

/// Returns the refusal of the fresh keysyms for which a walk or a maker has no answer, or that
/// memory ran out.
pub fn fresh_refusal(fault: MakeFault) -> Refusal
    ensures { result ≡ fresh_refused fault }
{
    match fault {
        MakeFault::NoMemory => Refusal::NoMemory,
        MakeFault::BadFresh(fault) => Refusal::Fresh(fault),
        MakeFault::TooManyFresh => Refusal::TooManyFresh,
    }
}
