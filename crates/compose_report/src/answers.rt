//! The outcome of an answer or of a refusal.
ghost use Rattle.std.specs.Prelude.{◌≡◌, ◌++◌, ℕ, true, List, map, Err, IfOk, string_bytes};
ghost use Rattle.compose_report.specs.Outcomes as outcomes;
ghost use Rattle.compose_report.specs.Outcomes.{IsDetailed, IsOutcome, IsReported, IsNumberedOutcome, IsWorded};

use crate::outcome::Outcome;
use compose_answer::{Answer, Ended, Refusal};
use compose_details::{Given, answer_details, refusal_details};
use compose_shown::Shown;
use compose_tree::BuildTable;
use std::alloc::{AllocError, Global};

/// Returns the outcome of an answer to the input, or of a refusal: the answer on standard output,
/// or one line on standard error. With `verbose` the details follow: for a refusal each faulty line
/// with its file, line and column, and hints; for `no` the keys, and the places of their sequences.
/// O(bytes of the answer); with `verbose` the tables are read once more.
/// Errors: `AllocError` if memory runs out.
pub fn outcome_of<T: BuildTable>(
    alloc: Global,
    verbose: bool,
    given: &Given<'_>,
    answered: Result<Answer, Refusal>,
) -> Result<Outcome, AllocError>
    ensures { IfOk result (λ outcome. IsReported verbose given.now answered outcome) }
{
    worded_outcome::<T>(alloc, true, verbose, given, answered)
}

/// Returns the same outcome; unless `numbered`, for people, who get the line of a refusal only if
/// there are no details. Takes the same time.
/// Errors: `AllocError` if memory runs out.
pub fn worded_outcome<T: BuildTable>(
    alloc: Global,
    numbered: bool,
    verbose: bool,
    given: &Given<'_>,
    answered: Result<Answer, Refusal>,
) -> Result<Outcome, AllocError>
    ensures { IfOk result (λ outcome. IsWorded numbered verbose given.now answered outcome) }
{
    let details = details_of::<T>(alloc, verbose, given, &answered)?;
    numbered_outcome(alloc, numbered, given.arguments, answered, &details)
}

/// Returns the outcome of a refusal of the input, with what `-v` adds; for people unless
/// `numbered`. The tables are read once more.
/// Errors: `AllocError` if memory runs out.
pub fn worded_refusal(
    alloc: Global,
    numbered: bool,
    given: &Given<'_>,
    refusal: Refusal,
) -> Result<Outcome, AllocError>
    ensures { IfOk result (λ outcome. IsWorded numbered true given.now (Err refusal) outcome) }
{
    let details = refusal_details(alloc, given, &refusal)?;
    numbered_outcome(alloc, numbered, given.arguments, Err(refusal), &details)
}

/// Returns what `-v` adds to an answer or to a refusal; an empty text unless `verbose`.
fn details_of<T: BuildTable>(
    alloc: Global,
    verbose: bool,
    given: &Given<'_>,
    answered: &Result<Answer, Refusal>,
) -> Result<String, AllocError>
    ensures { IfOk result
        (λ details. IsDetailed verbose given.now answered.now (string_bytes details)) }
{
    if !verbose {
        return Ok(String::new(alloc));
    }
    match answered {
        Ok(answer) => answer_details::<T>(alloc, given, answer),
        Err(refusal) => refusal_details(alloc, given, refusal),
    }
}

/// Returns the outcome of an answer or a refusal on these arguments, followed by these details.
/// O(bytes).
/// Errors: `AllocError` if memory runs out.
pub fn outcome_with(
    alloc: Global,
    arguments: &[&str],
    answered: Result<Answer, Refusal>,
    details: String,
) -> Result<Outcome, AllocError>
    ensures { IfOk result
        (λ outcome. (own : List ℕ)
        × IsOutcome own (map (λ argument. argument.now) arguments.now) (string_bytes details)
        answered outcome) }
{
    numbered_outcome(alloc, true, arguments, answered, &details)
}

/// Returns the same outcome; for people unless `numbered`.
fn numbered_outcome(
    alloc: Global,
    numbered: bool,
    arguments: &[&str],
    answered: Result<Answer, Refusal>,
    details: &str,
) -> Result<Outcome, AllocError>
    ensures { IfOk result
        (λ outcome. (own : List ℕ)
        × IsNumberedOutcome numbered own (map (λ argument. argument.now) arguments.now) details.now answered
        outcome) }
{
    let own = own_text(alloc, &answered)?;
    outcome_by(alloc, numbered, arguments, answered, details, &own)
}

/// Returns the printed form of the fault of an invalid certificate, or of a refusal; an empty text
/// for another answer.
fn own_text(alloc: Global, answered: &Result<Answer, Refusal>) -> Result<String, AllocError> {
    match answered {
        Ok(Answer::Invalid(fault)) => format!(in alloc; "{fault}"),
        Ok(_) => Ok(String::new(alloc)),
        Err(refusal) => format!(in alloc; "{refusal}"),
    }
}

/// Returns the same outcome, given the printed form of the fault or of the refusal.
fn outcome_by(
    alloc: Global,
    numbered: bool,
    arguments: &[&str],
    answered: Result<Answer, Refusal>,
    details: &str,
    own: &str,
) -> Result<Outcome, AllocError>
    ensures { IfOk result
        (λ outcome. IsNumberedOutcome numbered own.now (map (λ argument. argument.now) arguments.now)
        details.now answered outcome) }
{
    let ended = Ended::of(&answered);
    let line = error_text(alloc, arguments, &answered, own)?;
    let errors = reported_text(alloc, numbered, line, details)?;
    Ok(Outcome {
        notes: String::new(alloc),
        output: output_text(alloc, answered, own)?,
        errors,
        file: None,
        ended,
    })
}

/// Returns the line of a refusal followed by its details; unless `numbered`, the details alone, if
/// there are any. O(bytes).
/// Errors: `AllocError` if memory runs out.
pub fn reported_text(
    alloc: Global,
    numbered: bool,
    line: String,
    details: &str,
) -> Result<String, AllocError>
    ensures { IfOk result
        (λ text. string_bytes text
        ≡ outcomes.reported_text numbered (string_bytes line) details.now) }
{
    if numbered {
        return joined(line, details);
    }
    match details.as_bytes().first() {
        Some(_) => String::from_str(alloc, details),
        None => Ok(line),
    }
}

/// Returns a text followed by another one.
fn joined(first: String, second: &str) -> Result<String, AllocError>
    ensures { IfOk result (λ text. string_bytes text ≡ string_bytes first ++ second.now) }
{
    let mut text = first;
    text.push_str(second)?;
    Ok(text)
}

/// Returns what is printed to standard output.
fn output_text(
    alloc: Global,
    answered: Result<Answer, Refusal>,
    own: &str,
) -> Result<String, AllocError>
    ensures { IfOk result (λ text. string_bytes text ≡ outcomes.output_text own.now answered) }
{
    match answered {
        Ok(Answer::Yes(text) | Answer::No(text)) => Ok(text),
        Ok(Answer::Invalid(_)) => format!(in alloc; "no: {own}\n"),
        Ok(answer) => format!(in alloc; "{answer}"),
        Err(_) => Ok(String::new(alloc)),
    }
}

/// Returns the line of a refusal; an empty text for an answer.
fn error_text(
    alloc: Global,
    arguments: &[&str],
    answered: &Result<Answer, Refusal>,
    own: &str,
) -> Result<String, AllocError>
    ensures { IfOk result
        (λ text. string_bytes text
        ≡ outcomes.error_text own.now (map (λ argument. argument.now) arguments.now)
        answered.now) }
{
    match answered {
        Ok(_) => Ok(String::new(alloc)),
        Err(Refusal::Key { index }) => key_line(alloc, arguments, *index, own),
        Err(Refusal::NoMemory) => String::from_str(alloc, "out of memory\n"),
        Err(_) => format!(in alloc; "{own}\n"),
    }
}

/// Returns the line of a refused argument: the one with this index, which has no keysym.
fn key_line(
    alloc: Global,
    arguments: &[&str],
    index: usize,
    own: &str,
) -> Result<String, AllocError>
    ensures { IfOk result
        (λ text. string_bytes text
        ≡ outcomes.key_line own.now (map (λ argument. argument.now) arguments.now) index) }
{
    match arguments.get(index) {
        Some(argument) => format!(in alloc;
            "refused: key: {argument}\n",
            argument = Shown(argument)
        ),
        None => format!(in alloc; "{own}\n"),
    }
}
