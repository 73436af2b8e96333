//! `manifest`: the files of a Compose file on the system.
ghost use Rattle.std.specs.Prelude.{◌≡◌, IfOk, IfErr};
ghost use Rattle.compose_runs.specs.Faults.{FailsManifestRun};
ghost use Rattle.compose_runs.specs.Manifest.{IsManifestRun, IsManifestOutcome, IsWrittenManifest, PrintsRefusal};

use compose_answer::Ended;
use compose_arguments::ManifestArguments;
use compose_find::FoundSource;
use compose_folder::{Folder, ReadOnce};
use compose_given::{Environment, PlaceArguments, file_or_own, joined};
use compose_input::{Fault, Places, files_note, find_files};
use compose_manifest::{WriteFault, manifest_text};
use compose_report::Outcome;
use std::alloc::{AllocError, Global};

/// Returns the outcome of `manifest`: the manifest of a Compose file as it is on the system, and
/// notes on those of its files that lie outside of its tree of tables. If no file is given, the
/// user's file is taken, and a note on it comes first. Takes the time of `find_files`.
/// Errors: the fault of the first file that can't be read or is refused; `Word` if a variable of
/// the environment that is needed is not UTF-8; `NoMemory` if memory runs out.
pub fn run_manifest<F: Folder>(
    alloc: Global,
    files: &mut ReadOnce<F>,
    environment: &Environment,
    arguments: &ManifestArguments<'_>,
) -> Result<Outcome, Fault>
    ensures kept { files.new.holds ≡ files.old.holds }
    ensures outcome { IfOk result
        (λ outcome. IsManifestRun files.old.holds environment.now arguments.now outcome) }
    ensures fault { IfErr result
        (λ fault. FailsManifestRun files.old.holds environment.now arguments.now fault) }
{
    let places = environment.places(PlaceArguments {
        system: arguments.system,
        locale: arguments.locale,
        root: arguments.root,
    })?;
    let file = file_or_own(alloc, files, environment, places, arguments.file)?;
    let found = find_files(files, alloc, places, &file.path)?;
    let outcome = manifest_outcome(alloc, places, &file.path, &found.files)?;
    let notes = joined(alloc, &file.note, &outcome.notes)?;
    Ok(outcome.with_notes(notes))
}

/// Returns the outcome of `manifest`, once the files are found.
fn manifest_outcome(
    alloc: Global,
    places: Places<'_>,
    file: &str,
    found: &[FoundSource],
) -> Result<Outcome, AllocError>
    ensures { IfOk result
        (λ outcome. IsManifestOutcome places.entry file.now found.now outcome) }
{
    let notes = files_note(alloc, places, file, found)?;
    Ok(written_manifest(alloc, found)?.with_notes(notes))
}

/// Returns the manifest of these sources, on standard output; a refusal if a manifest can't contain
/// a name or a path.
fn written_manifest(alloc: Global, found: &[FoundSource]) -> Result<Outcome, AllocError>
    ensures { IfOk result (λ outcome. IsWrittenManifest found.now outcome) }
{
    match manifest_text(alloc, found) {
        Ok(text) => Ok(Outcome::of_output(alloc, text, Ended::Yes)),
        Err(WriteFault::NoMemory) => Err(AllocError),
        Err(WriteFault::Unwritable) => refused_manifest(alloc),
    }
}

/// Returns the refusal of a manifest that can't be written.
fn refused_manifest(alloc: Global) -> Result<Outcome, AllocError>
    ensures { IfOk result (λ outcome. PrintsRefusal outcome) }
{
    let line = String::from_str(
        alloc,
        "composecheck: a name or a path can't stand in a manifest, as one with a newline or a tab\n",
    )?;
    Ok(Outcome::of_errors(alloc, line, Ended::Refused))
}
