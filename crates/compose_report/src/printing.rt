//! The printing of an outcome.
ghost use Rattle.std.specs.Prelude.{◌≡◌, ◌≤◌};
ghost use Rattle.std.specs.Process.{exit_status};
ghost use Rattle.compose_answer.specs.Ends.{status_of};
ghost use Rattle.compose_report.specs.Ends.{EndsPrinted, written_end};

use crate::outcome::Outcome;
use compose_answer::Ended;
use std::io;
use std::process::ExitCode;

/// Prints an outcome: its notes, its output, and its errors. Returns how the run ends: as the
/// outcome says, or as refused if the output can't be written.
pub fn print(rt: &(impl Print + Eprint), outcome: &Outcome) -> Ended
    ensures { EndsPrinted outcome.now.ended result }
{
    let _ = eprint!(rt; "{}", outcome.notes);
    let ended = written(rt, print!(rt; "{}", outcome.output), outcome.ended);
    let _ = eprint!(rt; "{}", outcome.errors);
    ended
}

/// Prints the rest of an outcome whose output was written to its file: its notes, and its errors.
/// Returns how the run ends.
pub fn print_beside_file(rt: &impl Eprint, outcome: &Outcome) -> Ended
    ensures { result ≡ outcome.now.ended }
{
    let _ = eprint!(rt; "{}{}", outcome.notes, outcome.errors);
    outcome.ended
}

/// Returns how a run ends after printing its output with this result, if it would otherwise end as
/// `ended`. If an answer can't be written, the run ends as refused, and `refused: output` is
/// printed, unless the reader has closed the pipe. A run without an answer ends as `ended` in
/// either case.
pub fn written(rt: &impl Eprint, printed: io::Result<()>, ended: Ended) -> Ended
    ensures { result ≡ written_end printed ended }
{
    match (printed, ended) {
        (Err(error), Ended::Yes | Ended::No) => {
            print_unwritten(rt, &error);
            Ended::Refused
        }
        _ => ended,
    }
}

/// Prints that the answer can't be written, unless its reader has closed the pipe.
fn print_unwritten(rt: &impl Eprint, error: &io::Error) {
    if error.kind() != io::ErrorKind::BrokenPipe {
        let _ = eprintln!(rt; "refused: output");
    }
}

/// Prints that memory ran out, and returns this end of a run. If the line can't be written, the end
/// is the same.
pub fn no_memory(rt: &impl Eprint) -> Ended
    ensures { result ≡ Ended.NoMemory }
{
    let _ = eprintln!(rt; "out of memory");
    Ended::NoMemory
}

/// Returns the exit code for this end of a run: 0 for yes, 1 for no, 2 if the input is refused, 3
/// if memory ran out. O(1).
pub fn exit_code(ended: Ended) -> ExitCode
    ensures status { exit_status result ≡ status_of ended }
    ensures few { exit_status result ≤ 3 }
{
    ExitCode::from(ended.status())
}
