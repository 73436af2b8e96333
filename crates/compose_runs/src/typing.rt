//! `type`: what happens at keys.
ghost use Rattle.std.specs.Prelude.{◌≡◌, map, IfOk, IfErr, option_map, string_bytes};
ghost use Rattle.compose_runs.specs.Faults.{FailsLines, FailsText, FailsType, FailsTypeFile, IsEncodingFault};
ghost use Rattle.compose_runs.specs.Typing.{AreGivenLines, IsKeptType, IsTypeFileOutcome, IsTypeFileRun, IsTypeLinesOutcome, IsTypeRun, IsTypeOutcome, IsTypedFile};

use crate::one_table::TableRead;
use crate::options::Options;
use crate::skipping::{KeptRead, followed};
use crate::written_keys::{borrowed, written_keys};
use compose_arguments::TableArguments;
use compose_details::{Given, GivenTable};
use compose_folder::{Folder, ReadOnce};
use compose_given::Environment;
use compose_input::{Fault, NameFiles, TableFiles, read_text};
use compose_key_lists::{key_lists, refused_line};
use compose_report::{Outcome, outcome_of};
use compose_tool::{type_keys, type_lists};
use compose_tree::BuildTable;
use std::alloc::{AllocError, Global};

/// The message for standard input that is not UTF-8.
const NO_TEXT: &str = "standard input is not UTF-8";

/// Returns the outcome of `type`: these keys are typed with the table of the manifest at this path.
/// The files of names are read first, then those of the table. Takes the time of reading them and
/// of `type_keys`.
/// Errors: the fault of the first file, in this order, that can't be read or is refused; `NoMemory`
/// if memory runs out.
pub fn run_type<T: BuildTable, F: Folder>(
    alloc: Global,
    files: &mut ReadOnce<F>,
    options: Options<'_>,
    table: &str,
    keys: &[&str],
) -> Result<Outcome, Fault>
    ensures kept { files.new.holds ≡ files.old.holds }
    ensures outcome { IfOk result
        (λ outcome. IsTypeRun files.old.holds options.entry table.now
        (map (λ key. key.now) keys.now) outcome) }
    ensures fault { IfErr result
        (λ fault. FailsType files.old.holds (map (λ name. name.now) options.entry.names.now)
        table.now fault) }
{
    let names = NameFiles::read(files, alloc, options.names)?;
    let table = TableFiles::listed(files, alloc, "table", table)?;
    Ok(type_outcome::<T>(alloc, options.verbose, &names, &table, keys)?)
}

/// Returns the outcome of `type`, once the files are read.
fn type_outcome<T: BuildTable>(
    alloc: Global,
    verbose: bool,
    names: &NameFiles<'_>,
    table: &TableFiles,
    keys: &[&str],
) -> Result<Outcome, AllocError>
    ensures { IfOk result
        (λ outcome. IsTypeOutcome verbose names.now table.now (map (λ key. key.now) keys.now)
        outcome) }
{
    let answered = type_keys::<T>(alloc, &names.lines, keys, &table.input());
    let tables = [GivenTable::of(table)];
    let given = Given::of(names, keys, &tables);
    outcome_of::<T>(alloc, verbose, &given, answered)
}

/// Returns the outcome of `type` with a Compose file as it is on the system. The words write the
/// keys, by their names or as their characters; if there are none, the lines of standard input
/// write lists of keys. The files of names are read first, then those of the table, and then
/// standard input. Takes the time of `find_files` and of `type_keys` or `type_lists`.
/// Errors: the fault of the first file, in this order, that can't be read or is refused; `Word` if
/// a variable of the environment that is needed is not UTF-8; `NoMemory` if memory runs out.
pub fn run_type_file<T: BuildTable, F: Folder>(
    alloc: Global,
    files: &mut ReadOnce<F>,
    environment: &Environment,
    names: &[&str],
    arguments: &TableArguments<'_>,
    words: &[&str],
) -> Result<Outcome, Fault>
    ensures kept { files.new.holds ≡ files.old.holds }
    ensures outcome { IfOk result
        (λ outcome. IsTypeFileRun files.old.holds environment.now (map (λ name. name.now) names.now)
        arguments.now (map (λ word. word.now) words.now) outcome) }
    ensures fault { IfErr result
        (λ fault. FailsTypeFile files.old.holds environment.now (map (λ name. name.now) names.now)
        arguments.now (map (λ word. word.now) words.now) fault) }
{
    let read = TableRead::read(alloc, files, environment, names, arguments)?;
    let lines = read_lines(alloc, files, words)?;
    Ok(kept_type_outcome::<T>(alloc, read, arguments.skip_faulty, words, lines)?)
}

/// Reads standard input, if there are no words.
fn read_lines<F: Folder>(
    alloc: Global,
    files: &mut ReadOnce<F>,
    words: &[&str],
) -> Result<Option<String>, Fault>
    ensures kept { files.new.holds ≡ files.old.holds }
    ensures read { IfOk result
        (λ lines. AreGivenLines files.old.holds (map (λ word. word.now) words.now)
        (option_map string_bytes lines)) }
    ensures fault { IfErr result
        (λ fault. FailsLines files.old.holds (map (λ word. word.now) words.now) fault) }
{
    if words.is_empty() {
        let bytes = read_text(files, alloc, "-")?;
        return Ok(Some(text_of(alloc, &bytes)?));
    }
    Ok(None)
}

/// Returns these bytes as a text.
fn text_of(alloc: Global, bytes: &[u8]) -> Result<String, Fault>
    ensures text { IfOk result (λ text. string_bytes text ≡ bytes.now) }
    ensures fault { IfErr result (λ fault. FailsText bytes.now fault) }
{
    match str::from_utf8(bytes) {
        Ok(text) => Ok(String::from_str(alloc, text)?),
        Err(_) => Err(no_text(alloc)),
    }
}

/// Returns the fault that standard input is not UTF-8.
fn no_text(alloc: Global) -> Fault
    ensures { IsEncodingFault result }
{
    Fault::refused("keys", String::from_str(alloc, NO_TEXT))
}

/// Returns the outcome of `type` with a Compose file, once it is read; without its faulty lines, if
/// these are skipped.
fn kept_type_outcome<T: BuildTable>(
    alloc: Global,
    read: TableRead<'_>,
    skip_faulty: bool,
    words: &[&str],
    lines: Option<String>,
) -> Result<Outcome, AllocError>
    ensures { IfOk result
        (λ outcome. IsKeptType read.entry skip_faulty (map (λ word. word.now) words.now)
        (option_map string_bytes lines) outcome) }
{
    let kept = KeptRead::of(alloc, skip_faulty, read)?;
    let KeptRead { read, skipped } = kept;
    let printed = typed_outcome::<T>(alloc, read, words, lines)?;
    followed(printed, &skipped)
}

/// Returns the outcome of `type` with a Compose file and these lines, or with these words if there
/// are no lines.
fn typed_outcome<T: BuildTable>(
    alloc: Global,
    read: TableRead<'_>,
    words: &[&str],
    lines: Option<String>,
) -> Result<Outcome, AllocError>
    ensures { IfOk result
        (λ outcome. IsTypedFile read.entry (map (λ word. word.now) words.now)
        (option_map string_bytes lines) outcome) }
{
    match lines {
        Some(lines) => type_lines_outcome::<T>(alloc, read, &lines),
        None => type_file_outcome::<T>(alloc, read, words),
    }
}

/// Returns the outcome of `type` with a Compose file, once it is read.
fn type_file_outcome<T: BuildTable>(
    alloc: Global,
    read: TableRead<'_>,
    words: &[&str],
) -> Result<Outcome, AllocError>
    ensures { IfOk result
        (λ outcome. IsTypeFileOutcome read.entry (map (λ word. word.now) words.now) outcome) }
{
    let written = written_keys(alloc, &read.names.lines, words)?;
    let keys = borrowed(alloc, &written)?;
    let answered = type_keys::<T>(alloc, &read.names.lines, &keys, &read.table.input());
    read.outcome::<T>(alloc, false, &keys, "", &[], answered)
}

/// Returns the outcome of `type` with a Compose file and the lists of keys that these lines write,
/// once both are read.
fn type_lines_outcome<T: BuildTable>(
    alloc: Global,
    read: TableRead<'_>,
    lines: &str,
) -> Result<Outcome, AllocError>
    ensures { IfOk result (λ outcome. IsTypeLinesOutcome read.entry lines.now outcome) }
{
    let lists = key_lists(alloc, lines)?;
    let written = written_keys(alloc, &read.names.lines, &lists.keys)?;
    let keys = borrowed(alloc, &written)?;
    let table = read.table.input();
    let answered = type_lists::<T>(alloc, &read.names.lines, &keys, &lists.counts, &table);
    let line = refused_line(alloc, &lists.counts, &answered)?;
    let printed = read.outcome::<T>(alloc, false, &keys, "", &[], answered)?;
    followed(printed, &line)
}
