//! The files that a command on one Compose file reads.
ghost use Rattle.std.specs.Prelude.{◌≡◌, ◌||◌, ◌++◌, None, Ok, map, option_copied, IfOk, IfErr, string_bytes};
ghost use Rattle.compose_runs.specs.OneTable as words;
ghost use Rattle.compose_runs.specs.OneTable.{table_given};
ghost use Rattle.compose_runs.specs.Reports.{IsReport};

use compose_answer::{Answer, Refusal};
use compose_arguments::TableArguments;
use compose_details::{Given, GivenTable};
use compose_folder::{Folder, ReadOnce};
use compose_given::{Environment, NotedTable, chosen_table, places_of, read_names};
use compose_input::{Fault, NameFiles, TableFiles};
use compose_report::{Outcome, worded_outcome};
use compose_tree::BuildTable;
use std::alloc::{AllocError, Global};

/// The files of names, those of a Compose file, and notes on where they lie.
#[derive(Drop)]
pub(crate) struct TableRead<'n> {
    pub(crate) names: NameFiles<'n>,
    pub(crate) table: TableFiles,
    pub(crate) notes: String,
}

impl<'n> TableRead<'n> {
    ghost use Rattle.compose_runs.specs.Faults.{FailsTableRead};
    ghost use Rattle.compose_runs.specs.OneTable.{IsTableRead, IsTableOutcome};

    /// Reads the files of names, and then the Compose file as it is on the system; if none is
    /// given, that of the user, with a note on it.
    pub(crate) fn read<F: Folder>(
        alloc: Global,
        files: &mut ReadOnce<F>,
        environment: &Environment,
        names: &[&'n str],
        arguments: &TableArguments<'_>,
    ) -> Result<TableRead<'n>, Fault>
        ensures kept { files.new.holds ≡ files.old.holds }
        ensures read { IfOk result
            (λ read. IsTableRead files.old.holds environment.now (map (λ name. name.now) names.now)
            arguments.now read) }
        ensures fault { IfErr result
            (λ fault. FailsTableRead files.old.holds environment.now
            (map (λ name. name.now) names.now) arguments.now fault) }
    {
        let places = places_of(environment, arguments)?;
        let names = read_names(files, alloc, names)?;
        let found = chosen_table(alloc, files, environment, places, arguments)?;
        let NotedTable { table, notes } = found;
        Ok(TableRead {
            names,
            table,
            notes,
        })
    }

    /// Returns the outcome of an answer, or of a refusal with each faulty line of the input; for
    /// people unless `numbered`. The input is the table, the keys with these names, and the
    /// repertoire at this path with this text; without a repertoire, both are empty.
    pub(crate) fn outcome<T: BuildTable>(
        self,
        alloc: Global,
        numbered: bool,
        key_names: &[&str],
        repertoire: &str,
        repertoire_text: &[u8],
        answered: Result<Answer, Refusal>,
    ) -> Result<Outcome, AllocError>
        ensures { IfOk result
            (λ outcome. IsTableOutcome numbered self.entry (map (λ name. name.now) key_names.now)
            repertoire.now repertoire_text.now answered outcome) }
    {
        let outcome = table_report::<T>(
            alloc,
            numbered,
            &self,
            key_names,
            repertoire,
            repertoire_text,
            answered,
        )?;
        Ok(outcome.with_notes(self.notes))
    }
}

/// Returns the outcome of an answer or of a refusal on the same input, without the notes.
fn table_report<T: BuildTable>(
    alloc: Global,
    numbered: bool,
    read: &TableRead<'_>,
    key_names: &[&str],
    repertoire: &str,
    repertoire_text: &[u8],
    answered: Result<Answer, Refusal>,
) -> Result<Outcome, AllocError>
    ensures { IfOk result
        (λ outcome. IsReport numbered (words.is_refused answered)
        (table_given read.now
        (map (λ name. name.now) key_names.now) repertoire.now repertoire_text.now)
        answered outcome) }
{
    let verbose = is_refused(&answered);
    let tables = [GivenTable::of(&read.table)];
    let listed = Given::of(&read.names, key_names, &tables);
    let given = Given {
        repertoire,
        repertoire_text,
        ..listed
    };
    worded_outcome::<T>(alloc, numbered, verbose, &given, answered)
}

/// Returns whether there is no answer. O(1).
pub fn is_refused(answered: &Result<Answer, Refusal>) -> bool
    ensures { result ≡ words.is_refused answered.now }
{
    match answered {
        Ok(_) => false,
        Err(_) => true,
    }
}

/// Returns whether details are printed after the answer or the line of a refusal: if `verbose`, and
/// for a refusal always.
pub(crate) fn wants_details(verbose: bool, answered: &Result<Answer, Refusal>) -> bool
    ensures { result ≡ verbose || words.is_refused answered.now }
{
    verbose || is_refused(answered)
}
