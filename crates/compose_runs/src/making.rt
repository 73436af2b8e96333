//! `make`: a certificate.
ghost use Rattle.std.specs.Prelude.{◌≡◌, map, None, IfOk, IfErr, option_copied};
ghost use Rattle.compose_runs.specs.Faults.{FailsMake, FailsMakeFiles};
ghost use Rattle.compose_runs.specs.Making.{IsMakeFilesOutcome, IsMakeFilesRun, IsMakeRun, IsMakeOutcome, AnswersMake, IsWrittenTo, make_given};
ghost use Rattle.compose_runs.specs.Files.{migration_given};
ghost use Rattle.compose_runs.specs.Reports.{IsReport};

use crate::files::MigrationFiles;
use crate::one_table::wants_details;
use crate::options::Options;
use compose_answer::{Answer, Ended, Refusal};
use compose_arguments::{FilePair, TablePaths};
use compose_details::{Given, GivenTable};
use compose_folder::{Folder, ReadOnce};
use compose_given::Environment;
use compose_input::{Fault, read_text};
use compose_report::{Outcome, worded_outcome};
use compose_tool::{make_all_migration, make_migration};
use compose_tree::BuildTable;
use std::alloc::{AllocError, Global};

/// The arguments of `make` except its tables.
#[derive(Clone, Copy, Debug)]
pub struct MakeOptions<'a> {
    /// The path of the repertoire.
    pub repertoire: &'a str,
    /// The names of the fresh keysyms.
    pub fresh: &'a [&'a str],
    /// Whether all characters that can't be typed are printed, not only the first one.
    pub all: bool,
    /// The path of the file to which the certificate is written, instead of standard output.
    pub output: Option<&'a str>,
}

/// Returns the outcome of `make`: the text of a certificate, or why there is none. The files of
/// names are read first, then those of the old table, those of the new one, and the repertoire.
/// Takes the time of reading them and of `make_migration`.
/// Errors: the fault of the first file, in this order, that can't be read or is refused; `NoMemory`
/// if memory runs out.
pub fn run_make<T: BuildTable, F: Folder>(
    alloc: Global,
    files: &mut ReadOnce<F>,
    options: Options<'_>,
    paths: &TablePaths<'_>,
    making: MakeOptions<'_>,
) -> Result<Outcome, Fault>
    ensures kept { files.new.holds ≡ files.old.holds }
    ensures outcome { IfOk result
        (λ outcome. IsMakeRun files.old.holds options.entry paths.now making.entry outcome) }
    ensures fault { IfErr result
        (λ fault. FailsMake files.old.holds (map (λ name. name.now) options.entry.names.now)
        paths.now.old.now paths.now.new.now making.entry.repertoire.now fault) }
{
    let both = MigrationFiles::read(files, alloc, options.names, paths)?;
    let repertoire = read_text(files, alloc, making.repertoire)?;
    let outcome = make_outcome::<T>(alloc, options.verbose, &both, &repertoire, making)?;
    Ok(written_to(alloc, making.output, outcome)?)
}

/// Returns the outcome of `make`, once the files are read.
fn make_outcome<T: BuildTable>(
    alloc: Global,
    verbose: bool,
    both: &MigrationFiles<'_>,
    repertoire: &[u8],
    making: MakeOptions<'_>,
) -> Result<Outcome, AllocError>
    ensures { IfOk result
        (λ outcome. IsMakeOutcome verbose both.now repertoire.now making.entry outcome) }
{
    let answered = make_answer::<T>(alloc, both, repertoire, making);
    make_report::<T>(alloc, true, verbose, both, repertoire, making, answered)
}

/// Returns the outcome of `make` on Compose files as they are on the system. The files of names are
/// read first, then those of the old table, those of the new one, and the repertoire. Takes the
/// time of `find_files` for both tables and of `make_migration`.
/// Errors: the fault of the first file, in this order, that can't be read or is refused; `Word` if
/// a variable of the environment that is needed is not UTF-8; `NoMemory` if memory runs out.
pub fn run_make_files<T: BuildTable, F: Folder>(
    alloc: Global,
    files: &mut ReadOnce<F>,
    environment: &Environment,
    options: Options<'_>,
    pair: &FilePair<'_>,
    making: MakeOptions<'_>,
) -> Result<Outcome, Fault>
    ensures kept { files.new.holds ≡ files.old.holds }
    ensures outcome { IfOk result
        (λ outcome. IsMakeFilesRun files.old.holds environment.now options.entry pair.now
        making.entry outcome) }
    ensures fault { IfErr result
        (λ fault. FailsMakeFiles files.old.holds environment.now
        (map (λ name. name.now) options.entry.names.now) pair.now making.entry.repertoire.now
        fault) }
{
    let both = MigrationFiles::found(files, alloc, environment, options.names, pair)?;
    let repertoire = read_text(files, alloc, making.repertoire)?;
    let outcome = make_files_outcome::<T>(alloc, options.verbose, &both, &repertoire, making)?;
    Ok(written_to(alloc, making.output, outcome)?)
}

/// Returns the outcome of `make` on Compose files, once they are read.
fn make_files_outcome<T: BuildTable>(
    alloc: Global,
    verbose: bool,
    both: &MigrationFiles<'_>,
    repertoire: &[u8],
    making: MakeOptions<'_>,
) -> Result<Outcome, AllocError>
    ensures { IfOk result
        (λ outcome. IsMakeFilesOutcome verbose both.now repertoire.now making.entry outcome) }
{
    let answered = make_answer::<T>(alloc, both, repertoire, making);
    let verbose = wants_details(verbose, &answered);
    let printed = make_report::<T>(alloc, false, verbose, both, repertoire, making, answered)?;
    let notes = both.notes(alloc)?;
    Ok(printed.with_notes(notes))
}

/// Returns the outcome of an answer of `make` or of a refusal; for people unless `numbered`.
fn make_report<T: BuildTable>(
    alloc: Global,
    numbered: bool,
    verbose: bool,
    both: &MigrationFiles<'_>,
    repertoire: &[u8],
    making: MakeOptions<'_>,
    answered: Result<Answer, Refusal>,
) -> Result<Outcome, AllocError>
    ensures { IfOk result
        (λ outcome. IsReport numbered verbose
        (make_given both.now repertoire.now making.entry) answered outcome) }
{
    let tables = [GivenTable::of(&both.old), GivenTable::of(&both.new)];
    let listed = Given::of(&both.names, making.fresh, &tables);
    let given = Given {
        repertoire: making.repertoire,
        repertoire_text: repertoire,
        ..listed
    };
    worded_outcome::<T>(alloc, numbered, verbose, &given, answered)
}

/// Returns the answer of `make`.
fn make_answer<T: BuildTable>(
    alloc: Global,
    both: &MigrationFiles<'_>,
    repertoire: &[u8],
    making: MakeOptions<'_>,
) -> Result<Answer, Refusal>
    ensures { AnswersMake making.entry.all result
        (migration_given both.now (map (λ name. name.now) making.entry.fresh.now))
        repertoire.now }
{
    let input = both.input(making.fresh);
    if making.all {
        make_all_migration::<T>(alloc, &input, repertoire)
    } else {
        make_migration::<T>(alloc, &input, repertoire)
    }
}

/// Returns the same outcome; if its output is a certificate, and there is a path, the output is
/// written to the file at this path.
fn written_to(alloc: Global, path: Option<&str>, outcome: Outcome) -> Result<Outcome, AllocError>
    requires { outcome.file ≡ None }
    ensures { IfOk result (λ written. IsWrittenTo (option_copied path.entry) outcome written) }
{
    let Some(path) = path else {
        return Ok(outcome);
    };
    if outcome.ended != Ended::Yes {
        return Ok(outcome);
    }
    Ok(Outcome {
        file: Some(String::from_str(alloc, path)?),
        ..outcome
    })
}
