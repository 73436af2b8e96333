//! `lint`: mistakes in Compose files.
ghost use Rattle.std.specs.Prelude.{◌≡◌, ◌||◌, ◌++◌, ◌∷◌, [], map, IfOk, IfErr, Some, option_copied, string_bytes, codes};
ghost use Rattle.compose_lint.specs.Answers.{AnswersLint, asked, table_given};
ghost use Rattle.compose_report.specs.Outcomes.{reported_text};
ghost use Rattle.compose_given.specs.Environment.{ReturnsPlaces};
ghost use Rattle.compose_given.specs.Environment as spec;
ghost use Rattle.compose_given.specs.Faults.{FailsChosenTable, OrMemory};
ghost use Rattle.compose_runs.specs.Faults.{FailsLintRun, FailsTables};
ghost use Rattle.compose_runs.specs.Linting as words;
ghost use Rattle.compose_runs.specs.Linting.{AreReadTables, IsLintAcceptRefusal, IsLintOutcome, IsLintPrinted, IsLintRefusal, IsLintRun, IsReadTable, asked_files, lint_asked, lint_places};

use crate::differing::read_accepted;
use crate::skipping::followed;
use compose_answer::{Answer, Ended, Refusal};
use compose_arguments::LintArguments;
use compose_details::Given;
use compose_diff::AcceptFault;
use compose_folder::{Folder, ReadOnce};
use compose_given::{ChosenFile, Environment, PlaceArguments, file_or_own, read_names};
use compose_input::{Fault, NameFiles, Places, TableFiles};
use compose_lint::{LintFault, LintForm, LintInput, LintTable, Readers, lint_tables};
use compose_messages::{FileMessage, Message, Position};
use compose_model::Rule;
use compose_read::Sources;
use compose_report::{Outcome, outcome_with, reported_text, worded_refusal};
use compose_skipped::SkippedReport;
use std::alloc::{AllocError, Global};
use std::marker::Model;

/// Returns the outcome of `lint`: the findings in the tables of the Compose files, in their order,
/// that are not accepted. The files of names are read first, then those of each table, and the list
/// of accepted findings. Takes the time of `find_files` for each table and of `lint_tables`.
/// Errors: the fault of the first file, in this order, that can't be read or is refused; `Word` if
/// a variable of the environment that is needed is not UTF-8; `NoMemory` if memory runs out.
pub fn run_lint<F: Folder>(
    alloc: Global,
    files: &mut ReadOnce<F>,
    environment: &Environment,
    names: &[&str],
    arguments: &LintArguments<'_>,
) -> Result<Outcome, Fault>
    ensures kept { files.new.holds ≡ files.old.holds }
    ensures outcome { IfOk result
        (λ outcome. IsLintRun files.old.holds environment.now (map (λ name. name.now) names.now)
        arguments.now outcome) }
    ensures fault { IfErr result
        (λ fault. FailsLintRun files.old.holds environment.now (map (λ name. name.now) names.now)
        arguments.now fault) }
{
    let read = LintFiles::read(files, alloc, environment, names, arguments)?;
    Ok(lint_outcome(alloc, &read, arguments)?)
}

/// The Compose file of a table, with a note on it if it was not given, and the files of the table.
#[derive(Drop)]
struct ReadTable {
    file: ChosenFile,
    table: TableFiles,
}

/// The files that `lint` reads.
#[derive(Drop)]
struct LintFiles<'n> {
    names: NameFiles<'n>,
    tables: Vec<ReadTable>,
    accepted: Vec<u8>,
}

impl<'n> LintFiles<'n> {
    ghost use Rattle.compose_runs.specs.Faults.{FailsLintRun};
    ghost use Rattle.compose_runs.specs.Linting.{AreLintFiles};

    /// Reads the files of names, each table as it is on the system, and the list of accepted
    /// findings.
    fn read<F: Folder>(
        files: &mut ReadOnce<F>,
        alloc: Global,
        environment: &Environment,
        names: &[&'n str],
        arguments: &LintArguments<'_>,
    ) -> Result<LintFiles<'n>, Fault>
        ensures kept { files.new.holds ≡ files.old.holds }
        ensures read { IfOk result
            (λ read. AreLintFiles files.old.holds environment.now
            (map (λ name. name.now) names.now) arguments.now read) }
        ensures fault { IfErr result
            (λ fault. FailsLintRun files.old.holds environment.now
            (map (λ name. name.now) names.now) arguments.now fault) }
    {
        let names = read_names(files, alloc, names)?;
        let places = places_of(environment, arguments)?;
        let tables = read_tables(alloc, files, environment, places, &arguments.files)?;
        let accepted = read_accepted(files, alloc, arguments.accept)?;
        Ok(LintFiles {
            names,
            tables,
            accepted,
        })
    }
}

/// Returns where tables lie: as the arguments say, or otherwise the environment.
fn places_of<'a>(
    environment: &'a Environment,
    arguments: &LintArguments<'a>,
) -> Result<Places<'a>, Fault>
    ensures { ReturnsPlaces (lint_places arguments.now) result (spec.places_of environment.now) }
{
    environment.places(PlaceArguments {
        system: arguments.system,
        locale: arguments.locale,
        root: arguments.root,
    })
}

/// Reads the tables of the Compose files at these paths, in their order; if there are none, that of
/// the user's own file.
fn read_tables<F: Folder>(
    alloc: Global,
    files: &mut ReadOnce<F>,
    environment: &Environment,
    places: Places<'_>,
    paths: &[&str],
) -> Result<Vec<ReadTable>, Fault>
    ensures kept { files.new.holds ≡ files.old.holds }
    ensures read { IfOk result
        (λ read. AreReadTables files.old.holds environment.now places.entry
        (asked_files paths.now) read.items) }
    ensures fault { IfErr result
        (λ fault. OrMemory
        (FailsTables files.old.holds environment.now places.entry (asked_files paths.now)) fault) }
{
    if paths.is_empty() {
        return own_table(alloc, files, environment, places);
    }
    given_tables(alloc, files, environment, places, paths)
}

/// Reads the table of the user's own file.
fn own_table<F: Folder>(
    alloc: Global,
    files: &mut ReadOnce<F>,
    environment: &Environment,
    places: Places<'_>,
) -> Result<Vec<ReadTable>, Fault>
    ensures kept { files.new.holds ≡ files.old.holds }
    ensures read { IfOk result
        (λ read. AreReadTables files.old.holds environment.now places.entry (asked_files [])
        read.items) }
    ensures fault { IfErr result
        (λ fault. OrMemory
        (FailsTables files.old.holds environment.now places.entry (asked_files [])) fault) }
{
    let mut read = Vec::new(alloc);
    read.push(read_table(alloc, files, environment, places, None)?)?;
    Ok(read)
}

/// Reads the tables of the Compose files at these paths, in their order.
fn given_tables<F: Folder>(
    alloc: Global,
    files: &mut ReadOnce<F>,
    environment: &Environment,
    places: Places<'_>,
    paths: &[&str],
) -> Result<Vec<ReadTable>, Fault>
    ensures kept { files.new.holds ≡ files.old.holds }
    ensures read { IfOk result
        (λ read. AreReadTables files.old.holds environment.now places.entry
        (map (λ path. Some path.now) paths.now) read.items) }
    ensures fault { IfErr result
        (λ fault. OrMemory
        (FailsTables files.old.holds environment.now places.entry
        (map (λ path. Some path.now) paths.now)) fault) }
{
    let mut read = Vec::new(alloc);
    for path in paths {
        let table = read_table(alloc, files, environment, places, Some(path))?;
        read.push(table)?;
    }
    Ok(read)
}

/// Reads the table of the given Compose file, or otherwise of the user's own.
fn read_table<F: Folder>(
    alloc: Global,
    files: &mut ReadOnce<F>,
    environment: &Environment,
    places: Places<'_>,
    given: Option<&str>,
) -> Result<ReadTable, Fault>
    ensures kept { files.new.holds ≡ files.old.holds }
    ensures read { IfOk result
        (λ read. IsReadTable files.old.holds environment.now places.entry
        (option_copied given.entry) read) }
    ensures fault { IfErr result
        (λ fault. FailsChosenTable files.old.holds environment.now places.entry
        (option_copied given.entry) fault) }
{
    let file = file_or_own(alloc, files, environment, places, given)?;
    let table = TableFiles::found(files, alloc, places, &file.path, Rule::Longest)?;
    Ok(ReadTable { file, table })
}

/// Returns the outcome of `lint`, once the files are read.
fn lint_outcome(
    alloc: Global,
    files: &LintFiles<'_>,
    arguments: &LintArguments<'_>,
) -> Result<Outcome, AllocError>
    ensures { IfOk result (λ outcome. IsLintOutcome files.now arguments.now outcome) }
{
    let answered = lint_answer(alloc, files, arguments);
    let printed = printed_outcome(alloc, files, arguments, answered)?;
    let noted = printed.with_notes(notes_of(alloc, &files.tables)?);
    let skipped = skipped_lines(alloc, files, arguments.skip_faulty)?;
    followed(noted, &skipped)
}

/// Returns the report of skipped lines; an empty text if faulty lines are not skipped.
fn skipped_lines(
    alloc: Global,
    files: &LintFiles<'_>,
    skip_faulty: bool,
) -> Result<String, AllocError>
    ensures { IfOk result
        (λ text. string_bytes text ≡ words.skipped_lines skip_faulty files.now) }
{
    if !skip_faulty {
        return Ok(String::new(alloc));
    }
    skipped_report(alloc, &files.names.lines, &files.tables)
}

/// Returns a line for each faulty line of the tables, in their order, followed by one with their
/// number.
fn skipped_report(alloc: Global, header: &[u8], tables: &[ReadTable]) -> Result<String, AllocError>
    ensures { IfOk result
        (λ text. string_bytes text ≡ words.report_in header.now tables.now) }
{
    let mut report = SkippedReport::new(alloc);
    for read in tables {
        report.push(alloc, header, &read.table)?;
    }
    report.into_text()
}

/// Returns the notes on the files that were not given.
fn notes_of(alloc: Global, tables: &[ReadTable]) -> Result<String, AllocError>
    ensures { IfOk result (λ notes. string_bytes notes ≡ words.notes_in tables.now) }
{
    let mut notes = String::new(alloc);
    for read in tables {
        notes.push_str(&read.file.note)?;
    }
    Ok(notes)
}

/// Returns the answer of `lint` on these files.
fn lint_answer(
    alloc: Global,
    files: &LintFiles<'_>,
    arguments: &LintArguments<'_>,
) -> Result<Answer, LintFault>
    ensures { AnswersLint (lint_asked files.now arguments.now) result }
{
    let pathed = with_paths(alloc, arguments.skip_faulty, &files.tables)?;
    let tables = tables_in(alloc, &pathed)?;
    lint_tables(alloc, &input_of(files, arguments, &tables))
}

/// Returns the input of `lint` on these tables.
fn input_of<'a>(
    files: &'a LintFiles<'_>,
    arguments: &'a LintArguments<'_>,
    tables: &'a [LintTable<'a>],
) -> LintInput<'a>
    ensures { asked result
        ≡ record (lint_asked files.now arguments.now) { tables = map table_given tables.now } }
{
    let (readers, form) = (
        readers_of(&arguments.readers),
        form_of(arguments.write_accept, arguments.json),
    );
    LintInput {
        header: &files.names.lines,
        tables,
        readers,
        is_all: arguments.all,
        accepted: &files.accepted,
        form,
    }
}

/// The sources of a table, the paths of their files, and whether its faulty lines are skipped.
#[derive(Drop)]
struct PathedTable<'a> {
    sources: &'a Sources<'a>,
    paths: Vec<&'a str>,
    skip_faulty: bool,
}

impl<'a> Model for PathedTable<'a> {
    ghost use Rattle.std.specs.Prelude.{map};
    ghost use Rattle.compose_lint.specs.Rows.{Table};

    ghost Value = { Table };

    ghost view = { λ t. record {
      sources = t.sources.now;
      paths = map (λ path. path.now) t.paths.items;
      skip_faulty = t.skip_faulty;
    } };
}

impl<'a> PathedTable<'a> {
    ghost use Rattle.compose_lint.specs.Answers.{table_given};

    /// Returns the table in the form that `lint` takes.
    fn given<'b>(&'b self) -> LintTable<'b>
        ensures { table_given result ≡ self.now }
    {
        LintTable {
            sources: self.sources,
            paths: &self.paths,
            skip_faulty: self.skip_faulty,
        }
    }
}

/// Returns the tables with the paths of their files.
fn with_paths(
    alloc: Global,
    skip_faulty: bool,
    tables: &[ReadTable],
) -> Result<Vec<PathedTable<'_>>, AllocError>
    ensures { IfOk result
        (λ pathed. pathed.items ≡ map (words.table_of skip_faulty) tables.now) }
{
    let mut pathed = Vec::new(alloc);
    for read in tables {
        pathed.push(with_own_paths(alloc, skip_faulty, read)?)?;
    }
    Ok(pathed)
}

/// Returns a table with the paths of its files.
fn with_own_paths(
    alloc: Global,
    skip_faulty: bool,
    read: &ReadTable,
) -> Result<PathedTable<'_>, AllocError>
    ensures { IfOk result (λ pathed. pathed ≡ words.table_of skip_faulty read.now) }
{
    let paths = read.table.path_texts(alloc)?;
    Ok(PathedTable {
        sources: &read.table.sources,
        paths,
        skip_faulty,
    })
}

/// Returns the tables in the form that `lint` takes.
fn tables_in<'a>(
    alloc: Global,
    pathed: &'a [PathedTable<'_>],
) -> Result<Vec<LintTable<'a>>, AllocError>
    ensures { IfOk result (λ given. map table_given given.items ≡ pathed.now) }
{
    let mut given = Vec::new(alloc);
    for table in pathed {
        given.push(table.given())?;
    }
    Ok(given)
}

/// Returns the form in which findings are printed.
fn form_of(write_accept: bool, json: bool) -> LintForm
    ensures { result ≡ words.form_of write_accept json }
{
    match (write_accept, json) {
        (true, _) => LintForm::AcceptList,
        (false, true) => LintForm::Json,
        (false, false) => LintForm::Lines,
    }
}

/// Returns the readers with these words; libX11 and libxkbcommon if there are no words.
fn readers_of(given: &[&str]) -> Readers
    ensures { result ≡ words.readers_of given.now }
{
    let is_usual = given.is_empty();
    Readers {
        libx11: is_asked_for(given, is_usual, "libX11"),
        libxkbcommon: is_asked_for(given, is_usual, "libxkbcommon"),
        gtk3: has_word(given, "gtk3"),
        gtk4: has_word(given, "gtk4"),
    }
}

/// Returns whether the reader with this word is wanted: if the word is given, or if no words are
/// given and it is a default one.
fn is_asked_for(given: &[&str], is_usual: bool, word: &str) -> bool
    ensures { result ≡ (is_usual || words.has_word given.now word.now) }
{
    is_usual || has_word(given, word)
}

/// Returns whether this word is given.
fn has_word(given: &[&str], word: &str) -> bool
    ensures { result ≡ words.has_word given.now word.now }
{
    given.iter().any(|other| *other == word)
}

/// Returns the outcome of an answer or a fault, without notes.
fn printed_outcome(
    alloc: Global,
    files: &LintFiles<'_>,
    arguments: &LintArguments<'_>,
    answered: Result<Answer, LintFault>,
) -> Result<Outcome, AllocError>
    ensures { IfOk result
        (λ outcome. IsLintPrinted files.now arguments.now answered outcome) }
{
    match answered {
        Ok(answer) => outcome_with(alloc, &[], Ok(answer), String::new(alloc)),
        Err(LintFault::Input(refusal)) => {
            refusal_outcome(alloc, arguments.json, &files.names, refusal)
        }
        Err(LintFault::Accept(fault)) => {
            accept_outcome(alloc, arguments.json, arguments.accept, &fault)
        }
    }
}

/// Returns the outcome of a refusal of the names; for people unless `numbered`.
fn refusal_outcome(
    alloc: Global,
    numbered: bool,
    names: &NameFiles<'_>,
    refusal: Refusal,
) -> Result<Outcome, AllocError>
    ensures { IfOk result (λ outcome. IsLintRefusal numbered names.now refusal outcome) }
{
    let given = Given::of(names, &[], &[]);
    worded_refusal(alloc, numbered, &given, refusal)
}

/// Returns the outcome of a refused list of accepted findings; for people unless `numbered`.
fn accept_outcome(
    alloc: Global,
    numbered: bool,
    path: Option<&str>,
    fault: &AcceptFault,
) -> Result<Outcome, AllocError>
    ensures { IfOk result
        (λ outcome. IsLintAcceptRefusal numbered (option_copied path.entry) fault.now outcome) }
{
    let own = format!(in alloc; "{fault}")?;
    let lines = accept_lines(alloc, numbered, &own, path.unwrap_or(""), fault)?;
    Ok(Outcome::of_errors(alloc, lines, Ended::Refused))
}

/// Returns the line of the refusal, given the printed form of the fault, followed by the line of
/// the list.
fn accept_lines(
    alloc: Global,
    numbered: bool,
    own: &str,
    path: &str,
    fault: &AcceptFault,
) -> Result<String, AllocError>
    ensures { IfOk result
        (λ lines. string_bytes lines
        ≡ reported_text numbered (codes "refused: accept: " ++ (own.now ++ 10 ∷ []))
        (words.lint_accept_details path.now fault.now)) }
{
    let line = format!(in alloc; "refused: accept: {own}\n")?;
    let details = accept_details(alloc, path, fault)?;
    reported_text(alloc, numbered, line, &details)
}

/// Returns the message about the refused line of the list of accepted findings.
fn accept_details(alloc: Global, path: &str, fault: &AcceptFault) -> Result<String, AllocError>
    ensures { IfOk result
        (λ lines. string_bytes lines ≡ words.lint_accept_details path.now fault.now) }
{
    let (line, words) = match fault {
        AcceptFault::Stale { line } => (*line, "no finding in these tables is named by the line"),
        AcceptFault::BadLine { line } => {
            (
                *line,
                "expected the word of a kind, \": \" and a line of a Compose file",
            )
        }
        AcceptFault::NoMemory => return Ok(String::new(alloc)),
    };
    let message = FileMessage {
        path,
        position: Some(Position { line, column: 1 }),
        message: Message::Plain(words),
    };
    format!(in alloc; "{message}\n")
}
