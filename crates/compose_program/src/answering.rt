//! The run of a command that reads files and answers.
ghost use Rattle.std.specs.Prelude.{◌≡◌, map, IfOk};
ghost use Rattle.compose_program.specs.Runs.{IsRun};

use crate::faults::fault_in_form;
use crate::questions::answer;
use compose_arguments::Question;
use compose_folder::{Folder, ReadOnce};
use compose_given::Environment;
use compose_report::{Form, Outcome};
use compose_runs::Options;
use compose_tree::BuildTable;
use std::alloc::{AllocError, Global};

/// Runs a command that reads files and answers: returns what it prints and how its run ends, from
/// the question, the environment and the contents of the files. If the input can't be read or is
/// refused, the outcome says why in this form. Takes the time of the command on its files.
/// Errors: `AllocError` if memory runs out for this message.
pub fn run_question<T: BuildTable, F: Folder>(
    alloc: Global,
    files: &mut ReadOnce<F>,
    environment: &Environment,
    options: Options<'_>,
    form: Form,
    question: &Question<'_>,
) -> Result<Outcome, AllocError>
    ensures kept { files.new.holds ≡ files.old.holds }
    ensures run { IfOk result
        (λ outcome. IsRun files.old.holds environment.now options.entry form question.now outcome) }
{
    match answer::<T, F>(alloc, files, environment, options, question) {
        Ok(outcome) => Ok(outcome),
        Err(fault) => fault_in_form(alloc, form, &fault),
    }
}
