//! The form in which a run prints why its input can't be read or is refused.
ghost use Rattle.std.specs.Prelude.{◌≡◌, IfOk};
ghost use Rattle.compose_program.specs.Faults as spec;
ghost use Rattle.compose_program.specs.Faults.{IsFaultInForm};

use compose_arguments::{BothTables, CommandRequest, DiffForm, Question, Served, TypeTable};
use compose_input::Fault;
use compose_report::{Form, Outcome, fault_outcome, fault_worded};
use std::alloc::{AllocError, Global};

/// Returns the form for this request: details if the answer is in JSON, words if the command is
/// given Compose files, and otherwise the line, with the details if `verbose`. O(1).
pub fn fault_form(verbose: bool, request: &CommandRequest<'_>) -> Form
    ensures { result ≡ spec.fault_form verbose request.now }
{
    if is_json(request) {
        return Form::Details;
    }
    refusal_form(verbose, is_of_files(request))
}

/// Returns the form of a refusal: words if Compose files are given, and otherwise the line, with
/// the details if `verbose`.
pub(crate) fn refusal_form(verbose: bool, are_files: bool) -> Form
    ensures { result ≡ spec.refusal_form verbose are_files }
{
    if are_files {
        return Form::Words;
    }
    if verbose { Form::Details } else { Form::Line }
}

/// Returns the outcome of a run whose input can't be read or is refused, in this form. O(bytes of a
/// refused manifest).
/// Errors: `AllocError` if memory runs out.
pub fn fault_in_form(alloc: Global, form: Form, fault: &Fault) -> Result<Outcome, AllocError>
    ensures { IfOk result (λ outcome. IsFaultInForm form fault.now outcome) }
{
    match form {
        Form::Line => fault_outcome(alloc, false, fault),
        Form::Details => fault_outcome(alloc, true, fault),
        Form::Words => fault_worded(alloc, fault),
    }
}

/// Returns whether the answer is to be in JSON.
fn is_json(request: &CommandRequest<'_>) -> bool
    ensures { result ≡ spec.is_json request.now }
{
    match request {
        CommandRequest::Answer(question) => is_json_answer(question),
        CommandRequest::Update { .. }
        | CommandRequest::TakeBack(_)
        | CommandRequest::Status(_)
        | CommandRequest::Serve { .. }
        | CommandRequest::Load(_)
        | CommandRequest::Session(_) => { false }
    }
}

/// Returns whether the answer to this question is to be in JSON.
fn is_json_answer(question: &Question<'_>) -> bool
    ensures { result ≡ spec.is_json_answer question.now }
{
    match question {
        Question::Diff { arguments, .. } => is_json_form(arguments.form),
        Question::How { arguments, .. } => arguments.json,
        Question::List(arguments) => arguments.json,
        Question::Lint(arguments) => arguments.json,
        Question::Keys { .. }
        | Question::Check { .. }
        | Question::Explain { .. }
        | Question::ListAs(_)
        | Question::Merge { .. }
        | Question::Make { .. }
        | Question::Manifest(_) => false,
    }
}

/// Returns whether this form of `diff` is JSON.
fn is_json_form(form: DiffForm) -> bool
    ensures { result ≡ spec.is_json_form form }
{
    match form {
        DiffForm::Json => true,
        _ => false,
    }
}

/// Returns whether the command is given Compose files instead of manifests.
fn is_of_files(request: &CommandRequest<'_>) -> bool
    ensures { result ≡ spec.is_of_files request.now }
{
    match request {
        CommandRequest::Answer(question) => is_answer_on_files(question),
        CommandRequest::Update { .. } => true,
        CommandRequest::TakeBack(_) | CommandRequest::Status(_) => true,
        CommandRequest::Serve { arguments, .. } => is_served_file(&arguments.served),
        CommandRequest::Load(arguments) => is_file(&arguments.new),
        CommandRequest::Session(arguments) => arguments.files,
    }
}

/// Returns whether a Compose file is served.
fn is_served_file(served: &Served<'_>) -> bool
    ensures { result ≡ spec.is_served_file served.now }
{
    match served {
        Served::Files(files) => is_file(&files.table),
        Served::State { .. } => false,
    }
}

/// Returns whether this question is about Compose files.
fn is_answer_on_files(question: &Question<'_>) -> bool
    ensures { result ≡ spec.is_answer_on_files question.now }
{
    match question {
        Question::Keys { table, .. } => is_file(table),
        Question::Check { tables, .. } => are_files(tables),
        Question::Explain { old, .. } => is_file(old),
        Question::Make { tables, .. } => are_files(tables),
        Question::Diff { .. }
        | Question::Merge { .. }
        | Question::How { .. }
        | Question::List(_)
        | Question::ListAs(_)
        | Question::Lint(_)
        | Question::Manifest(_) => true,
    }
}

/// Returns whether a table is given as its Compose file.
pub(crate) fn is_file(table: &TypeTable<'_>) -> bool
    ensures { result ≡ spec.is_file table.now }
{
    match table {
        TypeTable::Manifest(_) => false,
        TypeTable::File(_) => true,
    }
}

/// Returns whether two tables are given as their Compose files.
fn are_files(tables: &BothTables<'_>) -> bool
    ensures { result ≡ spec.are_files tables.now }
{
    match tables {
        BothTables::Manifests(_) => false,
        BothTables::Files(_) => true,
    }
}
