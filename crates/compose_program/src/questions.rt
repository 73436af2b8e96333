//! The outcome of each command that reads files and answers.
ghost use Rattle.std.specs.Prelude.{◌≡◌, map, IfOk, IfErr};
ghost use Rattle.std.specs.Option.{option_map};
ghost use Rattle.compose_program.specs.Questions.{Answers, Fails, AnswersType, FailsToType, AnswersCheck, FailsToCheck, AnswersExplain, FailsToExplain, IsAsked, AnswersMake, FailsToMake};
ghost use Rattle.compose_runs.specs.Checking.{allowed_names};

use crate::faults::{is_file, refusal_form};
use compose_arguments::{BothTables, Question, TypeTable};
use compose_explaining::{Explain, run_explain};
use compose_folder::{Folder, ReadOnce};
use compose_given::Environment;
use compose_input::Fault;
use compose_listed_as::run_list_as;
use compose_merging::run_merge;
use compose_report::Outcome;
use compose_runs::{
    CheckPaths, CheckTexts, MakeOptions, Options, run_check, run_check_files, run_diff, run_how,
    run_lint, run_list, run_make, run_make_files, run_manifest, run_type, run_type_file,
};
use compose_tree::BuildTable;
use std::alloc::Global;

/// Returns the outcome of the command with this question, or why its input can't be read or is
/// refused.
pub(crate) fn answer<T: BuildTable, F: Folder>(
    alloc: Global,
    files: &mut ReadOnce<F>,
    environment: &Environment,
    options: Options<'_>,
    question: &Question<'_>,
) -> Result<Outcome, Fault>
    ensures kept { files.new.holds ≡ files.old.holds }
    ensures outcome { IfOk result
        (λ outcome. Answers files.old.holds environment.now options.entry question.now outcome) }
    ensures fault { IfErr result
        (λ fault. Fails files.old.holds environment.now options.entry question.now fault) }
{
    match question {
        Question::Keys { table, keys } => {
            run_typing::<T, F>(alloc, files, environment, options, table, keys)
        }
        Question::Check {
            tables,
            fresh,
            repertoire,
            certificate,
        } => {
            let texts = CheckTexts {
                repertoire: *repertoire,
                certificate: *certificate,
            };
            let allowed = fresh.as_deref();
            run_checking::<T, F>(alloc, files, environment, options, tables, texts, allowed)
        }
        Question::Explain {
            old,
            new,
            fresh,
            all,
        } => {
            let asked = asked_of(options, *old, *new, fresh, *all);
            run_explain::<T, F>(alloc, files, environment, &asked)
        }
        Question::Diff { arguments, fresh } => {
            run_diff::<T, F>(alloc, files, environment, options.names, arguments, fresh)
        }
        Question::Merge { arguments, fresh } => {
            run_merge::<T, F>(alloc, files, environment, options.names, arguments, fresh)
        }
        Question::How { arguments, texts } => {
            run_how::<T, F>(alloc, files, environment, options.names, arguments, texts)
        }
        Question::List(arguments) => {
            run_list::<T, F>(alloc, files, environment, options.names, arguments)
        }
        Question::ListAs(arguments) => run_list_as(alloc, files, environment, arguments),
        Question::Lint(arguments) => {
            run_lint(alloc, files, environment, options.names, arguments)
        }
        Question::Make {
            tables,
            fresh,
            all,
            repertoire,
            output,
        } => {
            let making = MakeOptions {
                repertoire: *repertoire,
                fresh,
                all: *all,
                output: *output,
            };
            run_making::<T, F>(alloc, files, environment, options, tables, making)
        }
        Question::Manifest(arguments) => run_manifest(alloc, files, environment, arguments),
    }
}

/// Returns the outcome of `type` on a manifest or a Compose file.
fn run_typing<T: BuildTable, F: Folder>(
    alloc: Global,
    files: &mut ReadOnce<F>,
    environment: &Environment,
    options: Options<'_>,
    table: &TypeTable<'_>,
    keys: &[&str],
) -> Result<Outcome, Fault>
    ensures kept { files.new.holds ≡ files.old.holds }
    ensures outcome { IfOk result
        (λ outcome. AnswersType files.old.holds environment.now options.entry table.now
        (map (λ key. key.now) keys.now) outcome) }
    ensures fault { IfErr result
        (λ fault. FailsToType files.old.holds environment.now options.entry table.now
        (map (λ key. key.now) keys.now) fault) }
{
    match table {
        TypeTable::Manifest(path) => run_type::<T, F>(alloc, files, options, *path, keys),
        TypeTable::File(table) => {
            run_type_file::<T, F>(alloc, files, environment, options.names, table, keys)
        }
    }
}

/// Returns the outcome of `check` on manifests or Compose files.
fn run_checking<T: BuildTable, F: Folder>(
    alloc: Global,
    files: &mut ReadOnce<F>,
    environment: &Environment,
    options: Options<'_>,
    tables: &BothTables<'_>,
    texts: CheckTexts<'_>,
    allowed: Option<&[&str]>,
) -> Result<Outcome, Fault>
    ensures kept { files.new.holds ≡ files.old.holds }
    ensures outcome { IfOk result
        (λ outcome. AnswersCheck files.old.holds environment.now options.entry tables.now
        texts.entry (allowed_names allowed.entry) outcome) }
    ensures fault { IfErr result
        (λ fault. FailsToCheck files.old.holds environment.now options.entry tables.now texts.entry
        fault) }
{
    match tables {
        BothTables::Manifests(tables) => {
            let paths = CheckPaths {
                tables: *tables,
                repertoire: texts.repertoire,
                certificate: texts.certificate,
            };
            run_check::<T, F>(alloc, files, options, &paths, allowed)
        }
        BothTables::Files(pair) => {
            run_check_files::<T, F>(alloc, files, environment, options, pair, texts, allowed)
        }
    }
}

/// Returns what `explain` is asked: the answer of both tables, in whichever way they are named.
fn asked_of<'a>(
    options: Options<'a>,
    old: TypeTable<'a>,
    new: TypeTable<'a>,
    fresh: &'a [&'a str],
    all: bool,
) -> Explain<'a>
    ensures { IsAsked options.entry old.entry new.entry (map (λ name. name.now) fresh.now) all
        result }
{
    let are_files = is_file(&old);
    Explain {
        names: options.names,
        are_files,
        old,
        new,
        fresh,
        all,
        verbose: options.verbose,
        form: refusal_form(options.verbose, are_files),
    }
}

/// Returns the outcome of `make` on manifests or Compose files.
fn run_making<T: BuildTable, F: Folder>(
    alloc: Global,
    files: &mut ReadOnce<F>,
    environment: &Environment,
    options: Options<'_>,
    tables: &BothTables<'_>,
    making: MakeOptions<'_>,
) -> Result<Outcome, Fault>
    ensures kept { files.new.holds ≡ files.old.holds }
    ensures outcome { IfOk result
        (λ outcome. AnswersMake files.old.holds environment.now options.entry tables.now
        making.entry outcome) }
    ensures fault { IfErr result
        (λ fault. FailsToMake files.old.holds environment.now options.entry tables.now
        making.entry.repertoire.now fault) }
{
    match tables {
        BothTables::Manifests(paths) => run_make::<T, F>(alloc, files, options, paths, making),
        BothTables::Files(pair) => {
            run_make_files::<T, F>(alloc, files, environment, options, pair, making)
        }
    }
}
