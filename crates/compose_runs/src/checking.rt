//! `check`: whether a certificate is valid.
ghost use Rattle.std.specs.Prelude.{◌≡◌, map, IfOk, IfErr};
ghost use Rattle.compose_runs.specs.Faults.{FailsCheck, FailsCheckFiles};
ghost use Rattle.compose_runs.specs.Checking.{IsCheckFilesOutcome, IsCheckFilesRun, IsCheckRun, IsCheckOutcome, AnswersCheck, allowed_names, given_parts};
ghost use Rattle.compose_runs.specs.Reports.{IsReport};

use crate::files::MigrationFiles;
use crate::one_table::wants_details;
use crate::options::Options;
use compose_answer::{Answer, Refusal};
use compose_arguments::{FilePair, TablePaths};
use compose_check::CheckInput;
use compose_details::{Given, GivenTable};
use compose_folder::{Folder, ReadOnce};
use compose_given::Environment;
use compose_input::{Fault, read_text};
use compose_report::{Outcome, worded_outcome};
use compose_tool::{check_allowed, check_migration};
use compose_tree::BuildTable;
use std::alloc::{AllocError, Global};

/// The paths of the files of a check.
#[derive(Clone, Copy)]
pub struct CheckPaths<'a> {
    /// The paths of the tables' manifests.
    pub tables: TablePaths<'a>,
    /// The path of the repertoire.
    pub repertoire: &'a str,
    /// The path of the certificate.
    pub certificate: &'a str,
}

/// The paths of the files of a check except its tables.
#[derive(Clone, Copy)]
pub struct CheckTexts<'a> {
    /// The path of the repertoire.
    pub repertoire: &'a str,
    /// The path of the certificate.
    pub certificate: &'a str,
}

/// The contents of the files of a check.
#[derive(Drop)]
struct CheckFiles<'n> {
    both: MigrationFiles<'n>,
    repertoire: Vec<u8>,
    certificate: Vec<u8>,
}

impl<'n> CheckFiles<'n> {
    ghost use Rattle.compose_check.specs.CheckReturns.{input_of};
    ghost use Rattle.compose_runs.specs.CheckFiles.{AreCheckFiles, AreFoundCheckFiles, check_given};

    /// Reads the files of names, those of both tables, the repertoire and the certificate.
    fn read<F: Folder>(
        files: &mut ReadOnce<F>,
        alloc: Global,
        names: &[&'n str],
        paths: &CheckPaths<'_>,
    ) -> Result<CheckFiles<'n>, Fault>
        ensures kept { files.new.holds ≡ files.old.holds }
        ensures read { IfOk result
            (λ read. AreCheckFiles files.old.holds (map (λ name. name.now) names.now) paths.now
            read) }
        ensures fault { IfErr result
            (λ fault. FailsCheck files.old.holds (map (λ name. name.now) names.now) paths.now
            fault) }
    {
        let both = MigrationFiles::read(files, alloc, names, &paths.tables)?;
        let repertoire = read_text(files, alloc, paths.repertoire)?;
        let certificate = read_text(files, alloc, paths.certificate)?;
        Ok(CheckFiles {
            both,
            repertoire,
            certificate,
        })
    }

    /// Reads the files of names, both Compose files as they are on the system, the repertoire and
    /// the certificate.
    fn found<F: Folder>(
        files: &mut ReadOnce<F>,
        alloc: Global,
        environment: &Environment,
        names: &[&'n str],
        pair: &FilePair<'_>,
        texts: CheckTexts<'_>,
    ) -> Result<CheckFiles<'n>, Fault>
        ensures kept { files.new.holds ≡ files.old.holds }
        ensures read { IfOk result
            (λ read. AreFoundCheckFiles files.old.holds environment.now
            (map (λ name. name.now) names.now) pair.now texts.entry read) }
        ensures fault { IfErr result
            (λ fault. FailsCheckFiles files.old.holds environment.now
            (map (λ name. name.now) names.now) pair.now texts.entry fault) }
    {
        let both = MigrationFiles::found(files, alloc, environment, names, pair)?;
        let repertoire = read_text(files, alloc, texts.repertoire)?;
        let certificate = read_text(files, alloc, texts.certificate)?;
        Ok(CheckFiles {
            both,
            repertoire,
            certificate,
        })
    }

    /// Returns the input of the check.
    fn input(&self) -> CheckInput<'_>
        ensures { input_of result ≡ check_given self.now }
    {
        CheckInput {
            header: &self.both.names.lines,
            old: &self.both.old.sources,
            new: &self.both.new.sources,
            old_rule: self.both.old.rule,
            new_rule: self.both.new.rule,
            repertoire: &self.repertoire,
            certificate: &self.certificate,
        }
    }
}

/// Returns the outcome of `check`: whether the certificate is valid, and, if names are allowed,
/// whether all its fresh keysyms are among those of these names. The files of names are read first,
/// then those of the old table, those of the new one, the repertoire and the certificate. Takes the
/// time of reading them and of `check_allowed`.
/// Errors: the fault of the first file, in this order, that can't be read or is refused; `NoMemory`
/// if memory runs out.
pub fn run_check<T: BuildTable, F: Folder>(
    alloc: Global,
    files: &mut ReadOnce<F>,
    options: Options<'_>,
    paths: &CheckPaths<'_>,
    allowed: Option<&[&str]>,
) -> Result<Outcome, Fault>
    ensures kept { files.new.holds ≡ files.old.holds }
    ensures outcome { IfOk result
        (λ outcome. IsCheckRun files.old.holds options.entry paths.now
        (allowed_names allowed.entry) outcome) }
    ensures fault { IfErr result
        (λ fault. FailsCheck files.old.holds (map (λ name. name.now) options.entry.names.now)
        paths.now fault) }
{
    let check = CheckFiles::read(files, alloc, options.names, paths)?;
    Ok(check_outcome::<T>(alloc, options.verbose, &check, paths, allowed)?)
}

/// Returns the outcome of `check`, once the files are read.
fn check_outcome<T: BuildTable>(
    alloc: Global,
    verbose: bool,
    check: &CheckFiles<'_>,
    paths: &CheckPaths<'_>,
    allowed: Option<&[&str]>,
) -> Result<Outcome, AllocError>
    ensures { IfOk result
        (λ outcome. IsCheckOutcome verbose check.now paths.now (allowed_names allowed.entry)
        outcome) }
{
    let answered = check_answer::<T>(alloc, check, allowed);
    let texts = CheckTexts {
        repertoire: paths.repertoire,
        certificate: paths.certificate,
    };
    check_report::<T>(alloc, true, verbose, check, texts, allowed, answered)
}

/// Returns the outcome of `check` on Compose files as they are on the system. The files of names
/// are read first, then those of the old table, those of the new one, the repertoire and the
/// certificate. Takes the time of `find_files` for both tables and of `check_allowed`.
/// Errors: the fault of the first file, in this order, that can't be read or is refused; `Word` if
/// a variable of the environment that is needed is not UTF-8; `NoMemory` if memory runs out.
pub fn run_check_files<T: BuildTable, F: Folder>(
    alloc: Global,
    files: &mut ReadOnce<F>,
    environment: &Environment,
    options: Options<'_>,
    pair: &FilePair<'_>,
    texts: CheckTexts<'_>,
    allowed: Option<&[&str]>,
) -> Result<Outcome, Fault>
    ensures kept { files.new.holds ≡ files.old.holds }
    ensures outcome { IfOk result
        (λ outcome. IsCheckFilesRun files.old.holds environment.now options.entry pair.now
        texts.entry (allowed_names allowed.entry) outcome) }
    ensures fault { IfErr result
        (λ fault. FailsCheckFiles files.old.holds environment.now
        (map (λ name. name.now) options.entry.names.now) pair.now texts.entry fault) }
{
    let check = CheckFiles::found(files, alloc, environment, options.names, pair, texts)?;
    Ok(check_files_outcome::<T>(alloc, options.verbose, &check, texts, allowed)?)
}

/// Returns the outcome of `check` on Compose files, once they are read.
fn check_files_outcome<T: BuildTable>(
    alloc: Global,
    verbose: bool,
    check: &CheckFiles<'_>,
    texts: CheckTexts<'_>,
    allowed: Option<&[&str]>,
) -> Result<Outcome, AllocError>
    ensures { IfOk result
        (λ outcome. IsCheckFilesOutcome verbose check.now texts.entry
        (allowed_names allowed.entry) outcome) }
{
    let answered = check_answer::<T>(alloc, check, allowed);
    let verbose = wants_details(verbose, &answered);
    let printed = check_report::<T>(alloc, false, verbose, check, texts, allowed, answered)?;
    let notes = check.both.notes(alloc)?;
    Ok(printed.with_notes(notes))
}

/// Returns the outcome of an answer of `check` or of a refusal; for people unless `numbered`.
fn check_report<T: BuildTable>(
    alloc: Global,
    numbered: bool,
    verbose: bool,
    check: &CheckFiles<'_>,
    texts: CheckTexts<'_>,
    allowed: Option<&[&str]>,
    answered: Result<Answer, Refusal>,
) -> Result<Outcome, AllocError>
    ensures { IfOk result
        (λ outcome. IsReport numbered verbose
        (given_parts check.now texts.entry (allowed_names allowed.entry)) answered outcome) }
{
    let tables = [
        GivenTable::of(&check.both.old),
        GivenTable::of(&check.both.new),
    ];
    let listed = Given::of(&check.both.names, allowed.unwrap_or(&[]), &tables);
    let given = Given {
        repertoire: texts.repertoire,
        repertoire_text: &check.repertoire,
        certificate: texts.certificate,
        certificate_text: &check.certificate,
        ..listed
    };
    worded_outcome::<T>(alloc, numbered, verbose, &given, answered)
}

/// Returns the answer of `check`. If `allowed` is given, all fresh keysyms of the certificate have
/// to be among it.
fn check_answer<T: BuildTable>(
    alloc: Global,
    check: &CheckFiles<'_>,
    allowed: Option<&[&str]>,
) -> Result<Answer, Refusal>
    ensures { AnswersCheck (allowed_names allowed.entry) result check.now }
{
    let input = check.input();
    match allowed {
        Some(allowed) => check_allowed::<T>(alloc, &input, allowed),
        None => check_migration::<T>(alloc, &input),
    }
}
