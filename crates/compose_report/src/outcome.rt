//! What a run prints, and how it ends.
ghost use Rattle.std.specs.Prelude.{string_bytes, IfOk};

use compose_answer::Ended;
use std::alloc::{AllocError, Global};

/// What a run prints, in this order, and how it then ends. If the answer can't be written, the run
/// ends as refused.
#[derive(Debug, PartialEq, Eq, Drop)]
pub struct Outcome {
    /// Notes about the files that were read, printed to standard error first.
    pub notes: String,
    /// The output, printed to standard output or written to `file`.
    pub output: String,
    /// The errors, printed to standard error last.
    pub errors: String,
    /// The path of the file to which the output is written instead of standard output.
    pub file: Option<String>,
    /// How the run ends.
    pub ended: Ended,
}

impl Outcome {
    ghost use Rattle.compose_report.specs.Outcomes.{IsNoted, PrintsBoth, PrintsOutput, PrintsErrors};

    /// Returns the outcome of a run that prints this text to standard output alone. Takes no
    /// memory.
    pub fn of_output(alloc: Global, output: String, ended: Ended) -> Outcome
        ensures { PrintsOutput (string_bytes output) ended result }
    {
        Outcome {
            notes: String::new(alloc),
            output,
            errors: String::new(alloc),
            file: None,
            ended,
        }
    }

    /// Returns the outcome of a run that prints this text to standard error alone. Takes no memory.
    pub fn of_errors(alloc: Global, errors: String, ended: Ended) -> Outcome
        ensures { PrintsErrors (string_bytes errors) ended result }
    {
        Outcome {
            notes: String::new(alloc),
            output: String::new(alloc),
            errors,
            file: None,
            ended,
        }
    }

    /// Returns the same outcome, with these notes.
    pub fn with_notes(self, notes: String) -> Outcome
        ensures { IsNoted (string_bytes notes) self result }
    {
        Outcome { notes, ..self }
    }

    /// Returns the outcome of a run that prints what this one does, then what the next one does,
    /// and ends as that does. Neither output goes to a file then. O(bytes).
    ///
    /// Errors: `AllocError` if memory runs out.
    pub fn followed_by(mut self, next: &Outcome) -> Result<Outcome, AllocError>
        ensures { IfOk result (λ both. PrintsBoth self next.now both) }
    {
        self.notes.push_str(&next.notes)?;
        self.output.push_str(&next.output)?;
        self.errors.push_str(&next.errors)?;
        self.file = None;
        self.ended = next.ended;
        Ok(self)
    }
}
