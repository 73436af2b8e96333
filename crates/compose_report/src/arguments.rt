//! The outcome of arguments that are not a command.
ghost use Rattle.std.specs.Prelude.{◌≡◌, IfOk, string_bytes};
ghost use Rattle.compose_report.specs.Arguments as words;
ghost use Rattle.compose_report.specs.Arguments.{IsArgumentsOutcome};
ghost use Rattle.compose_report.specs.Ends.{arguments_end};

use crate::outcome::Outcome;
use clap::error::ErrorKind;
use compose_answer::Ended;
use compose_shown::ShownLines;
use std::alloc::{AllocError, Global};

/// Returns the outcome of arguments for which clap returns this text, of this kind: on standard
/// output the help or the version that they ask for, or on standard error why they are refused.
/// O(bytes).
/// Errors: `AllocError` if memory runs out.
pub fn arguments_outcome(alloc: Global, kind: ErrorKind, text: &str) -> Result<Outcome, AllocError>
    ensures { IfOk result (λ outcome. IsArgumentsOutcome kind text.now outcome) }
{
    Ok(Outcome {
        notes: String::new(alloc),
        output: help_lines(alloc, kind, text)?,
        errors: error_lines(alloc, kind, text)?,
        file: None,
        ended: end_of_arguments(kind),
    })
}

/// Returns the help or the version, if it is asked for; an empty text if the arguments are refused.
fn help_lines(alloc: Global, kind: ErrorKind, text: &str) -> Result<String, AllocError>
    ensures { IfOk result (λ lines. string_bytes lines ≡ words.help_lines kind text.now) }
{
    match kind {
        ErrorKind::DisplayHelp | ErrorKind::DisplayVersion => String::from_str(alloc, text),
        _ => Ok(String::new(alloc)),
    }
}

/// Returns why the arguments are refused; an empty text if they ask for help or the version.
fn error_lines(alloc: Global, kind: ErrorKind, text: &str) -> Result<String, AllocError>
    ensures { IfOk result (λ lines. string_bytes lines ≡ words.error_lines kind text.now) }
{
    match kind {
        ErrorKind::DisplayHelp | ErrorKind::DisplayVersion => Ok(String::new(alloc)),
        ErrorKind::OutOfMemory => String::from_str(alloc, "out of memory\n"),
        _ => format!(in alloc; "{text}", text = ShownLines(text)),
    }
}

/// Returns how a run ends whose arguments are not a command: `Yes` if they ask for help or the
/// version.
fn end_of_arguments(kind: ErrorKind) -> Ended
    ensures { result ≡ arguments_end kind }
{
    match kind {
        ErrorKind::DisplayHelp | ErrorKind::DisplayVersion => Ended::Yes,
        ErrorKind::OutOfMemory => Ended::NoMemory,
        _ => Ended::Refused,
    }
}
