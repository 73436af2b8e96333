//! What is printed of what a command tells: one function for every command.
ghost use Rattle.std.specs.Prelude.{◌≡◌, IfOk, string_bytes};
ghost use Rattle.compose_report.specs.Told.{IsRefusalIn, IsTold, IsToldOutcome};

use crate::answers::{outcome_with, worded_refusal};
use crate::form::Form;
use crate::outcome::Outcome;
use crate::told::Told;
use compose_answer::Refusal;
use compose_details::Given;
use std::alloc::{AllocError, Global};

/// Returns the outcome of what a command tells, or of a refusal in this form, after these notes.
/// O(bytes); for a refusal with details the time of `refusal_details`.
///
/// Errors: `AllocError` if memory runs out.
pub fn report(
    alloc: Global,
    form: Form,
    given: &Given<'_>,
    notes: String,
    told: Result<Told, Refusal>,
) -> Result<Outcome, AllocError>
    ensures { IfOk result
        (λ outcome. IsToldOutcome form given.now (string_bytes notes) told outcome) }
{
    let printed = printed(alloc, form, given, told)?;
    Ok(printed.with_notes(notes))
}

/// Returns the same outcome, without notes.
fn printed(
    alloc: Global,
    form: Form,
    given: &Given<'_>,
    told: Result<Told, Refusal>,
) -> Result<Outcome, AllocError>
    ensures { IfOk result (λ outcome. IsTold form given.now told outcome) }
{
    match told {
        Ok(Told { answer, details }) => outcome_with(alloc, given.arguments, Ok(answer), details),
        Err(refusal) => refused(alloc, form, given, refusal),
    }
}

/// Returns the outcome of a refusal in this form.
fn refused(
    alloc: Global,
    form: Form,
    given: &Given<'_>,
    refusal: Refusal,
) -> Result<Outcome, AllocError>
    ensures { IfOk result (λ outcome. IsRefusalIn form given.now refusal outcome) }
{
    match form {
        Form::Line => outcome_with(alloc, given.arguments, Err(refusal), String::new(alloc)),
        Form::Details => worded_refusal(alloc, true, given, refusal),
        Form::Words => worded_refusal(alloc, false, given, refusal),
    }
}
