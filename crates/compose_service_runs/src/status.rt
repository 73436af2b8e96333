//! `status`: what is printed of the table in use.
ghost use Rattle.std.specs.Prelude.{◌≡◌, ◌++◌, IfOk, OnOk, string_bytes};
ghost use Rattle.compose_service_runs.specs.Status as spec;
ghost use Rattle.compose_service_runs.specs.Status.{IsStatusOutcome};

use crate::status_json::push_status_json;
use compose_answer::Ended;
use compose_arguments::StatusForm;
use compose_report::Outcome;
use compose_shown::Shown;
use std::alloc::{AllocError, Global};
use std::fmt::Write;

/// What is stored in a file of the folder.
#[derive(Drop)]
pub struct StoredSummary {
    /// The file that the table came from.
    pub origin: String,
    /// When it was stored, as a date and a time, or an empty text.
    pub stored: String,
    /// The number of its sequences.
    pub sequences: u32,
    /// The number of its files.
    pub files: usize,
    /// The number of names in the files of names; `None` if the names are the built-in ones.
    pub names: Option<u32>,
}

/// A file of the table in use that is not as it was when the table was stored.
#[derive(Drop)]
pub struct Change {
    /// The path of the file.
    pub path: String,
    /// It can't be read; otherwise it has other bytes.
    pub is_gone: bool,
}

/// Whether a service has the folder of the table in use.
#[derive(Drop)]
pub enum ServiceState {
    /// None has it.
    None,
    /// One has it, and listens on the socket at this path.
    Serves(String),
    /// One has it, and can't be reached.
    Unreached,
}

/// The table in use, the one before it, and the service.
#[derive(Drop)]
pub struct Status {
    /// The table in use, if one is stored.
    pub in_use: Option<StoredSummary>,
    /// What has changed in the files of the table in use, in their order.
    pub changes: Vec<Change>,
    /// The table before the last change, if one is kept.
    pub before: Option<StoredSummary>,
    /// Whether a table that the owner chose waits to be taken.
    pub is_next_there: bool,
    /// The service.
    pub service: ServiceState,
}

/// Returns what is printed in this form: status 0 if a table is in use, and otherwise 1. O(bytes).
/// Errors: `AllocError` if memory runs out.
pub fn status_outcome(
    alloc: Global,
    status: &Status,
    form: StatusForm,
) -> Result<Outcome, AllocError>
    ensures { IfOk result (λ outcome. IsStatusOutcome form status.now outcome) }
{
    let mut text = String::new(alloc);
    match form {
        StatusForm::Lines => push_lines(&mut text, status)?,
        StatusForm::Json => push_status_json(&mut text, status)?,
    }
    let ended = match status.in_use {
        Some(_) => Ended::Yes,
        None => Ended::No,
    };
    Ok(Outcome::of_output(alloc, text, ended))
}

/// Adds the lines for people.
fn push_lines(text: &mut String, status: &Status) -> Result<(), AllocError>
    ensures { OnOk result
        (string_bytes text.new ≡ string_bytes text.old ++ spec.status_lines status.now) }
{
    push_table(text, &status.in_use)?;
    push_changes(text, &status.changes)?;
    push_before(text, &status.before)?;
    push_next(text, status.is_next_there)?;
    push_service(text, &status.service)
}

/// Adds the lines about the table in use.
fn push_table(text: &mut String, in_use: &Option<StoredSummary>) -> Result<(), AllocError>
    ensures { OnOk result
        (string_bytes text.new ≡ string_bytes text.old ++ spec.table_lines in_use.now) }
{
    push_stored(text, in_use)?;
    push_stored_names(text, in_use)
}

/// Appends the lines for the table in use, but for its names.
fn push_stored(text: &mut String, in_use: &Option<StoredSummary>) -> Result<(), AllocError>
    ensures { OnOk result
        (string_bytes text.new ≡ string_bytes text.old ++ spec.stored_lines in_use.now) }
{
    let Some(stored) = in_use else {
        return text.push_str("in use: none\n");
    };
    let StoredSummary {
        origin,
        stored,
        sequences,
        files,
        names: _,
    } = stored;
    let origin = Shown(origin);
    write!(
        text,
        "in use: {origin}\nstored: {stored}\nsequences: {sequences}\nfiles: {files}\n"
    )
}

/// Appends the line for the names of the table in use, if one is.
fn push_stored_names(text: &mut String, in_use: &Option<StoredSummary>) -> Result<(), AllocError>
    ensures { OnOk result
        (string_bytes text.new ≡ string_bytes text.old ++ spec.stored_names in_use.now) }
{
    match in_use {
        Some(stored) => push_names(text, stored.names),
        None => Ok(()),
    }
}

/// Adds the line about the names.
fn push_names(text: &mut String, names: Option<u32>) -> Result<(), AllocError>
    ensures { OnOk result
        (string_bytes text.new ≡ string_bytes text.old ++ spec.names_line names) }
{
    match names {
        Some(count) => write!(text, "names: {count}, of files\n"),
        None => text.push_str("names: built in\n"),
    }
}

/// Adds a line for each file that has changed.
fn push_changes(text: &mut String, changes: &[Change]) -> Result<(), AllocError>
    ensures { OnOk result
        (string_bytes text.new ≡ string_bytes text.old ++ spec.change_lines changes.now) }
{
    for change in changes {
        push_change(text, change)?;
    }
    Ok(())
}

/// Adds the line of a file that has changed.
fn push_change(text: &mut String, change: &Change) -> Result<(), AllocError>
    ensures { OnOk result
        (string_bytes text.new ≡ string_bytes text.old ++ spec.change_line change.now) }
{
    let (since, path) = (words_of(change.is_gone), Shown(&change.path));
    write!(text, "{since}{path}\n")
}

/// Returns the words before the path of a file that has changed.
fn words_of(is_gone: bool) -> &'static str
    ensures { result.now ≡ spec.words_of is_gone }
{
    if is_gone {
        "gone since: "
    } else {
        "changed since: "
    }
}

/// Adds the line about the table before the last change.
fn push_before(text: &mut String, before: &Option<StoredSummary>) -> Result<(), AllocError>
    ensures { OnOk result
        (string_bytes text.new ≡ string_bytes text.old ++ spec.before_line before.now) }
{
    let Some(before) = before else {
        return Ok(());
    };
    let (origin, stored) = (Shown(&before.origin), before.stored.as_str());
    write!(text, "before it: {origin}, stored {stored}\n")
}

/// Adds the line about a table that waits to be taken.
fn push_next(text: &mut String, is_there: bool) -> Result<(), AllocError>
    ensures { OnOk result
        (string_bytes text.new ≡ string_bytes text.old ++ spec.next_line is_there) }
{
    if is_there {
        text.push_str("next: a table waits for the service\n")?;
    }
    Ok(())
}

/// Adds the line about the service.
fn push_service(text: &mut String, service: &ServiceState) -> Result<(), AllocError>
    ensures { OnOk result
        (string_bytes text.new ≡ string_bytes text.old ++ spec.service_line service.now) }
{
    match service {
        ServiceState::None => text.push_str("service: none runs\n"),
        ServiceState::Serves(path) => {
            write!(text, "service: serves it on {path}\n", path = Shown(path))
        }
        ServiceState::Unreached => text.push_str("service: runs, and can't be reached\n"),
    }
}
