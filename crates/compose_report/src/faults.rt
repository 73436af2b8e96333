//! The outcome of a run with unreadable input.
ghost use Rattle.std.specs.Prelude.{◌≡◌, IfOk};
ghost use Rattle.compose_report.specs.Outcomes as outcomes;
ghost use Rattle.compose_report.specs.Outcomes.{IsFaultOutcome, IsFaultWorded};

use crate::outcome::Outcome;
use compose_answer::Ended;
use compose_details::{fault_text, fault_words};
use compose_input::Fault;
use std::alloc::{AllocError, Global};

/// Returns the outcome of a run with unreadable input: the refusal on standard error, followed, if
/// `verbose`, by the place of the fault and the reason. O(bytes of a refused manifest).
/// Errors: `AllocError` if memory runs out.
pub fn fault_outcome(alloc: Global, verbose: bool, fault: &Fault) -> Result<Outcome, AllocError>
    ensures { IfOk result (λ outcome. IsFaultOutcome verbose fault.now outcome) }
{
    let text = fault_text(alloc, verbose, fault)?;
    Ok(Outcome::of_errors(alloc, text, end_of_fault(fault)))
}

/// Returns the same outcome for people: the place of the fault and the reason, and the refusal only
/// if there are no details. O(bytes of a refused manifest).
/// Errors: `AllocError` if memory runs out.
pub fn fault_worded(alloc: Global, fault: &Fault) -> Result<Outcome, AllocError>
    ensures { IfOk result (λ outcome. IsFaultWorded fault.now outcome) }
{
    let text = fault_words(alloc, fault)?;
    Ok(Outcome::of_errors(alloc, text, end_of_fault(fault)))
}

/// Returns how a run with unreadable input ends.
fn end_of_fault(fault: &Fault) -> Ended
    ensures { result ≡ outcomes.fault_end fault.now }
{
    match fault {
        Fault::NoMemory => Ended::NoMemory,
        _ => Ended::Refused,
    }
}
