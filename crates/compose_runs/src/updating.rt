//! `update`: the files that it reads, and what it does with the table in use.
ghost use Rattle.std.specs.Prelude.{◌≡◌, ◌<◌, Some, length, map, option_map, option_copied, slice_get, string_bytes, IfOk, IfErr};
ghost use Rattle.compose_answer.specs.declared.answer.Ended.TheVariants.{No};
ghost use Rattle.compose_diff_rows.specs.Answers.{AnswersDiff};
ghost use Rattle.compose_report.specs.Outcomes.{PrintsOutput};
ghost use Rattle.compose_runs.specs.Faults.{FailsAccepted};
ghost use Rattle.compose_runs.specs.Updating.{FailsStored, IsDecisionDone, IsIntendedList, IsIntendedRun, IsRefusedAs, IsRefusedOrListed, IsRefusedOrIntended, IsRepertoire, IsStoredIfIntended, IsUpdateDone, IsUpdateOf, IsUpdateRefusal, IsUpdateRun, intended_input, update_given};
ghost use Rattle.compose_update.specs.Update.{Updates};

use crate::differing::accept_outcome;
use crate::stored::read_stored;
use compose_answer::{Answer, Ended, Refusal};
use compose_arguments::UpdateArguments;
use compose_details::{Given, GivenTable};
use compose_diff_rows::{DiffFault, DiffInput, Form, diff_migration};
use compose_folder::{Folder, ReadOnce};
use compose_given::{Environment, PlaceArguments, read_names};
use compose_input::{Fault, NameFiles, TableFiles, read_text};
use compose_migration::{MigrationInput, TableInput};
use compose_model::Rule;
use compose_read::Sources;
use compose_report::{Outcome, outcome_with, worded_refusal};
use compose_tree::BuildTable;
use compose_update::{Update, UpdateFault, UpdateInput, decide_update};
use std::alloc::{AllocError, Global};

/// The input of an update: the names, the new table, and the repertoire.
#[derive(Drop)]
pub struct UpdateFiles<'n> {
    /// The names of keysyms: those that are given, or else the built-in ones.
    pub names: NameFiles<'n>,
    /// The new table; the longest of overlapping sequences counts.
    pub new: TableFiles,
    /// The repertoire; an empty one if none is given.
    pub repertoire: Vec<u8>,
    /// The list of intended changes, if one is given.
    pub meant: Option<IntendedChanges>,
}

/// A list of intended changes, as `diff` accepts them.
#[derive(Drop)]
pub struct IntendedChanges {
    /// The path of the list.
    pub path: String,
    /// The bytes of the list.
    pub lines: Vec<u8>,
}

/// The decision of an update.
#[derive(Drop)]
pub enum UpdateRun {
    /// The new table replaces the one in use.
    Replaced {
        /// The bytes that are stored from then on.
        stored: Vec<u8>,
        /// The certificate with which a running service loads the new table, if a table was in use.
        certificate: Option<String>,
    },
    /// Typing changes, and all changes are intended: the new table replaces the one in use at the
    /// next start of the service.
    Meant {
        /// The bytes that are stored from then on.
        stored: Vec<u8>,
    },
    /// Nothing changes: the outcome of the run.
    Refused(Outcome),
}

impl<'n> UpdateFiles<'n> {
    ghost use Rattle.compose_runs.specs.Faults.{FailsUpdateRead};
    ghost use Rattle.compose_runs.specs.Updating.{AreUpdateFiles};

    /// Reads the files of names, the Compose file as it is on the system, the repertoire, and the
    /// list of intended changes, in this order; the names are the built-in ones if none are given.
    /// Takes the time of `find_files`.
    /// Errors: the fault of the first file, in this order, that can't be read or is refused; `Word`
    /// if a variable of the environment that is needed is not UTF-8; `NoMemory` if memory runs out.
    pub fn read<F: Folder>(
        alloc: Global,
        files: &mut ReadOnce<F>,
        environment: &Environment,
        names: &[&'n str],
        arguments: &UpdateArguments<'_>,
    ) -> Result<UpdateFiles<'n>, Fault>
        ensures kept { files.new.holds ≡ files.old.holds }
        ensures read { IfOk result
            (λ read. AreUpdateFiles files.old.holds environment.now
            (map (λ name. name.now) names.now) arguments.now read) }
        ensures fault { IfErr result
            (λ fault. FailsUpdateRead files.old.holds environment.now
            (map (λ name. name.now) names.now) arguments.now fault) }
    {
        let places = environment.places(PlaceArguments {
            system: arguments.system,
            locale: arguments.locale,
            root: None,
        })?;
        let names = read_names(files, alloc, names)?;
        let new = TableFiles::found(files, alloc, places, arguments.file, Rule::Longest)?;
        let repertoire = read_repertoire(alloc, files, arguments.repertoire)?;
        let meant = read_intended(alloc, files, arguments.accept)?;
        Ok(UpdateFiles {
            names,
            new,
            repertoire,
            meant,
        })
    }
}

/// Reads the repertoire at this path; an empty one if none is given.
fn read_repertoire<F: Folder>(
    alloc: Global,
    files: &mut ReadOnce<F>,
    path: Option<&str>,
) -> Result<Vec<u8>, Fault>
    ensures kept { files.new.holds ≡ files.old.holds }
    ensures read { IfOk result
        (λ bytes. IsRepertoire files.old.holds (option_copied path.entry) bytes.items) }
    ensures fault { IfErr result
        (λ fault. FailsAccepted files.old.holds (option_copied path.entry) fault) }
{
    match path {
        Some(path) => read_text(files, alloc, path),
        None => Ok(Vec::new(alloc)),
    }
}

/// Reads the list of intended changes at this path, if one is given.
fn read_intended<F: Folder>(
    alloc: Global,
    files: &mut ReadOnce<F>,
    path: Option<&str>,
) -> Result<Option<IntendedChanges>, Fault>
    ensures kept { files.new.holds ≡ files.old.holds }
    ensures read { IfOk result
        (λ meant. IsIntendedList files.old.holds (option_copied path.entry) meant) }
    ensures fault { IfErr result
        (λ fault. FailsAccepted files.old.holds (option_copied path.entry) fault) }
{
    let Some(path) = path else {
        return Ok(None);
    };
    let lines = read_text(files, alloc, path)?;
    Ok(Some(IntendedChanges {
        path: String::from_str(alloc, path)?,
        lines,
    }))
}

/// Returns what an update does with these files, if these are the stored bytes of the table in use.
/// Takes the time of `decide_update`; if typing changes and a list of intended changes is given,
/// also that of `diff_migration`, and that of `decide_update` once more.
/// Errors: a refusal of `state` if the stored bytes are not a bundle; `NoMemory` if memory runs
/// out.
pub fn run_update<T: BuildTable>(
    alloc: Global,
    files: &UpdateFiles,
    fresh: &[&str],
    stored: Option<&[u8]>,
) -> Result<UpdateRun, Fault>
    ensures run { IfOk result
        (λ run. IsUpdateRun files.now (map (λ name. name.now) fresh.now)
        (option_copied stored.entry) run) }
    ensures fault { IfErr result (λ fault. FailsStored (option_copied stored.entry) fault) }
{
    match stored {
        Some(stored) => update_stored::<T>(alloc, files, fresh, stored),
        None => Ok(update_of::<T>(alloc, files, fresh, None)?),
    }
}

/// Does the same, if bytes are stored.
fn update_stored<T: BuildTable>(
    alloc: Global,
    files: &UpdateFiles,
    fresh: &[&str],
    stored: &[u8],
) -> Result<UpdateRun, Fault>
    ensures run { IfOk result
        (λ run. IsUpdateRun files.now (map (λ name. name.now) fresh.now)
        (Some stored.now) run) }
    ensures fault { IfErr result (λ fault. FailsStored (Some stored.now) fault) }
{
    let bundle = read_stored(alloc, "", stored)?;
    let current = Some(&bundle.sources);
    Ok(update_of::<T>(alloc, files, fresh, current)?)
}

/// Returns what an update does with these files, if a table with these sources is in use.
fn update_of<T: BuildTable>(
    alloc: Global,
    files: &UpdateFiles,
    fresh: &[&str],
    current: Option<&Sources>,
) -> Result<UpdateRun, AllocError>
    ensures { IfOk result
        (λ run. IsUpdateOf files.now (map (λ name. name.now) fresh.now)
        (option_map (λ sources. sources.now) current.entry) run) }
{
    let decided = decided::<T>(alloc, files, fresh, current);
    decision_done::<T>(alloc, files, fresh, current, decided)
}

/// Returns the run of an update with this decision, if a table with these sources is in use.
fn decision_done<T: BuildTable>(
    alloc: Global,
    files: &UpdateFiles,
    fresh: &[&str],
    current: Option<&Sources>,
    decided: Result<Update, UpdateFault>,
) -> Result<UpdateRun, AllocError>
    ensures { IfOk result
        (λ run. IsDecisionDone files.now (map (λ name. name.now) fresh.now) files.now.meant
        (option_map (λ sources. sources.now) current.entry) decided run) }
{
    match decided {
        Ok(Update::Refused(text)) => {
            refused_or_intended::<T>(alloc, files, fresh, &files.meant, current, text)
        }
        decided => update_done(alloc, files, fresh, decided),
    }
}

/// Returns the run of an update if typing would change, as these lines say. They are printed,
/// unless a list of intended changes is given.
fn refused_or_intended<T: BuildTable>(
    alloc: Global,
    files: &UpdateFiles,
    fresh: &[&str],
    meant: &Option<IntendedChanges>,
    current: Option<&Sources>,
    text: String,
) -> Result<UpdateRun, AllocError>
    ensures { IfOk result
        (λ run. IsRefusedOrIntended files.now (map (λ name. name.now) fresh.now) meant.now
        (option_map (λ sources. sources.now) current.entry) text run) }
{
    match meant {
        Some(meant) => refused_or_listed::<T>(alloc, files, fresh, meant, current, text),
        None => Ok(refused_with(alloc, text)),
    }
}

/// Returns the same, if this list of intended changes is given. If no table is in use, the lines
/// are printed.
fn refused_or_listed<T: BuildTable>(
    alloc: Global,
    files: &UpdateFiles,
    fresh: &[&str],
    meant: &IntendedChanges,
    current: Option<&Sources>,
    text: String,
) -> Result<UpdateRun, AllocError>
    ensures { IfOk result
        (λ run. IsRefusedOrListed files.now (map (λ name. name.now) fresh.now) meant.now
        (option_map (λ sources. sources.now) current.entry) text run) }
{
    match current {
        Some(current) => update_if_intended::<T>(alloc, files, fresh, meant, current),
        None => Ok(refused_with(alloc, text)),
    }
}

/// Returns the run of an update that prints these lines, and changes nothing.
fn refused_with(alloc: Global, text: String) -> UpdateRun
    ensures { IsRefusedAs (PrintsOutput (string_bytes text) No) result }
{
    UpdateRun::Refused(Outcome::of_output(alloc, text, Ended::No))
}

/// Returns the decision about these files, if a table with these sources is in use.
fn decided<T: BuildTable>(
    alloc: Global,
    files: &UpdateFiles,
    fresh: &[&str],
    current: Option<&Sources>,
) -> Result<Update, UpdateFault>
    ensures { Updates
        (update_given files.now (map (λ name. name.now) fresh.now)
        (option_map (λ sources. sources.now) current.entry)) result }
{
    let input = UpdateInput {
        header: &files.names.lines,
        fresh,
        current,
        new: &files.new.sources,
        repertoire: &files.repertoire,
    };
    decide_update::<T>(alloc, &input)
}

/// Returns what an update does if typing would change from a table with these sources: the new
/// table is stored if all changes are intended.
fn update_if_intended<T: BuildTable>(
    alloc: Global,
    files: &UpdateFiles,
    fresh: &[&str],
    meant: &IntendedChanges,
    current: &Sources,
) -> Result<UpdateRun, AllocError>
    ensures { IfOk result
        (λ run. IsIntendedRun files.now (map (λ name. name.now) fresh.now) meant.now
        current.now run) }
{
    match intended_answer::<T>(alloc, files, fresh, meant, current) {
        Ok(Answer::Yes(_)) => stored_if_intended::<T>(alloc, files, fresh),
        Ok(answer) => {
            let outcome = outcome_with(alloc, fresh, Ok(answer), String::new(alloc))?;
            Ok(UpdateRun::Refused(outcome))
        }
        Err(DiffFault::Input(refusal)) => {
            let outcome = refused_outcome(alloc, files, fresh, refusal)?;
            Ok(UpdateRun::Refused(outcome))
        }
        Err(DiffFault::Accept(fault)) => {
            let outcome = accept_outcome(alloc, false, Some(&meant.path), &fault)?;
            Ok(UpdateRun::Refused(outcome))
        }
    }
}

/// Returns the answer of `diff` on a table with these sources and the new one, if these changes are
/// intended.
fn intended_answer<T: BuildTable>(
    alloc: Global,
    files: &UpdateFiles,
    fresh: &[&str],
    meant: &IntendedChanges,
    current: &Sources,
) -> Result<Answer, DiffFault>
    ensures { AnswersDiff
        (intended_input files.now (map (λ name. name.now) fresh.now) meant.now current.now) result }
{
    let (old_paths, new_paths) = (source_names(alloc, current)?, files.new.path_texts(alloc)?);
    let tables = MigrationInput {
        header: &files.names.lines,
        key_names: fresh,
        old: TableInput {
            sources: current,
            rule: Rule::Longest,
        },
        new: TableInput {
            sources: &files.new.sources,
            rule: Rule::Longest,
        },
    };
    let input = DiffInput {
        tables,
        old_paths: &old_paths,
        new_paths: &new_paths,
        accepted: &meant.lines,
        lost_alone: false,
        form: Form::Folded,
    };
    diff_migration::<T>(alloc, &input)
}

/// Returns the names of the sources, in their order. O(sources).
/// Errors: `AllocError` if memory runs out.
pub fn source_names<'a>(alloc: Global, sources: &'a Sources) -> Result<Vec<&'a str>, AllocError>
    ensures { IfOk result
        (λ names. map (λ name. name.now) names.items ≡ map (λ source. source.name) sources.now) }
{
    let mut names = Vec::new(alloc);
    for index in 0..sources.count() {
        names.push(source_name(sources, index))?;
    }
    Ok(names)
}

/// Returns the name of the source at this index.
fn source_name<'a>(sources: &'a Sources, index: usize) -> &'a str
    requires { index < length sources.now }
    ensures { option_map (λ source. source.name) (slice_get sources.now index) ≡ Some result.now }
{
    sources.name(index).unwrap()
}

/// Returns the run of an update if all changes are intended: the new table is stored as if no table
/// were in use.
fn stored_if_intended<T: BuildTable>(
    alloc: Global,
    files: &UpdateFiles,
    fresh: &[&str],
) -> Result<UpdateRun, AllocError>
    ensures { IfOk result
        (λ run. IsStoredIfIntended files.now (map (λ name. name.now) fresh.now) run) }
{
    match decided::<T>(alloc, files, fresh, None) {
        Ok(Update::Replaced { stored, .. }) => Ok(UpdateRun::Meant { stored }),
        decided => update_done(alloc, files, fresh, decided),
    }
}

/// Returns the run of an update with this decision, if no list of intended changes matters.
fn update_done(
    alloc: Global,
    files: &UpdateFiles,
    fresh: &[&str],
    decided: Result<Update, UpdateFault>,
) -> Result<UpdateRun, AllocError>
    ensures { IfOk result
        (λ run. IsUpdateDone files.now (map (λ name. name.now) fresh.now) decided run) }
{
    match decided {
        Ok(
            Update::Replaced {
                stored,
                certificate,
            },
        ) => Ok(UpdateRun::Replaced {
            stored,
            certificate,
        }),
        Ok(Update::Refused(text)) => {
            let outcome = Outcome::of_output(alloc, text, Ended::No);
            Ok(UpdateRun::Refused(outcome))
        }
        Err(UpdateFault::Input(refusal)) => {
            let outcome = refused_outcome(alloc, files, fresh, refusal)?;
            Ok(UpdateRun::Refused(outcome))
        }
        Err(UpdateFault::TooLarge) => {
            let line = String::from_str(
                alloc,
                "composecheck: the files and their certificate have more than 8,388,608 bytes\n",
            )?;
            let outcome = Outcome::of_errors(alloc, line, Ended::Refused);
            Ok(UpdateRun::Refused(outcome))
        }
    }
}

/// Returns the outcome of a refused input. The new table stands for both tables, since the one in
/// use was read when it was taken into use. O(bytes of the files).
/// Errors: `AllocError` if memory runs out.
pub fn refused_outcome(
    alloc: Global,
    files: &UpdateFiles,
    fresh: &[&str],
    refusal: Refusal,
) -> Result<Outcome, AllocError>
    ensures { IfOk result
        (λ outcome. IsUpdateRefusal files.now (map (λ name. name.now) fresh.now) refusal outcome) }
{
    let tables = [GivenTable::of(&files.new), GivenTable::of(&files.new)];
    let given = Given::of(&files.names, fresh, &tables);
    worded_refusal(alloc, false, &given, refusal)
}
