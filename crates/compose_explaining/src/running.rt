//! `explain`, from the folder to the outcome: one function for manifests and for Compose files.
ghost use Rattle.std.specs.Prelude.{◌≡◌, length, map, IfOk, IfErr};
ghost use Rattle.compose_migration.specs.Values.{given_of};
ghost use Rattle.compose_explaining.specs.Explains as words;
ghost use Rattle.compose_explaining.specs.Explains.{FailsExplain, IsExplainOf, IsExplainOutcome, IsExplainRun, IsSideOf};

use crate::explaining::explain_tables;
use crate::question::Explain;
use crate::sides::Side;
use compose_details::{Given, GivenTable};
use compose_folder::{Folder, ReadOnce};
use compose_given::{Environment, NotedTable, ReadParts, Wanted, WantedTable, joined, read_parts};
use compose_input::{Fault, NameFiles, TableFiles};
use compose_migration::MigrationInput;
use compose_report::{Outcome, report};
use compose_tree::BuildTable;
use std::alloc::{AllocError, Global};

/// Returns the outcome of `explain`: how two tables differ, whether they are given by manifests or
/// as Compose files. The files of names are read first, then those of the old table, and those of
/// the new one; each table is read once, also with `-v`.
///
/// Errors: the fault of the first of them that can't be read or is refused; `NoMemory` if memory
/// runs out.
pub fn run_explain<T: BuildTable, F: Folder>(
    alloc: Global,
    files: &mut ReadOnce<F>,
    environment: &Environment,
    asked: &Explain<'_>,
) -> Result<Outcome, Fault>
    ensures kept { files.new.holds ≡ files.old.holds }
    ensures outcome { IfOk result
        (λ outcome. IsExplainRun files.old.holds environment.now asked.now outcome) }
    ensures fault { IfErr result
        (λ fault. FailsExplain files.old.holds environment.now asked.now fault) }
{
    let tables = [
        WantedTable {
            part: "old",
            table: asked.old,
        },
        WantedTable {
            part: "new",
            table: asked.new,
        },
    ];
    let wanted = wanted_by(asked, &tables);
    let read = read_parts(alloc, files, environment, &wanted)?;
    Ok(explain_read::<T>(alloc, asked, &read)?)
}

/// Returns the outcome of `explain` on the two tables that were read.
fn explain_read<T: BuildTable>(
    alloc: Global,
    asked: &Explain<'_>,
    read: &ReadParts<'_>,
) -> Result<Outcome, AllocError>
    requires { length read.now.tables.items ≡ 2 }
    ensures { IfOk result
        (λ outcome. IsExplainOf asked.now read.now.names read.now.tables.items outcome) }
{
    explain_pair::<T>(alloc, asked, &read.names, &read.tables[0], &read.tables[1])
}

/// Returns the outcome of `explain` on these tables.
fn explain_pair<T: BuildTable>(
    alloc: Global,
    asked: &Explain<'_>,
    names: &NameFiles<'_>,
    old: &NotedTable,
    new: &NotedTable,
) -> Result<Outcome, AllocError>
    ensures { IfOk result
        (λ outcome. IsExplainOutcome asked.now names.now old.now new.now outcome) }
{
    let input = input_of(names, asked.fresh, &old.table, &new.table);
    let (old_side, new_side) = (side_of(&old.table), side_of(&new.table));
    let told = explain_tables::<T>(alloc, asked.verbose, asked.all, &input, old_side, new_side);
    let tables = [GivenTable::of(&old.table), GivenTable::of(&new.table)];
    let given = Given::of(names, asked.fresh, &tables);
    let notes = joined(alloc, &old.notes, &new.notes)?;
    report(alloc, asked.form, &given, notes, told)
}

/// Returns the input of a migration between these tables, with these names of fresh keysyms.
fn input_of<'a, 'w>(
    names: &'a NameFiles<'_>,
    fresh: &'a [&'w str],
    old: &'a TableFiles,
    new: &'a TableFiles,
) -> MigrationInput<'a, 'w>
    ensures { given_of result
        ≡ words.input_of names.now old.now new.now (map (λ name. name.now) fresh.now) }
{
    MigrationInput {
        header: &names.lines,
        key_names: fresh,
        old: old.input(),
        new: new.input(),
    }
}

/// Returns what `explain` reads; these are its tables.
fn wanted_by<'a>(asked: &Explain<'a>, tables: &'a [WantedTable<'a>]) -> Wanted<'a>
    ensures { map words.part_of tables.now ≡ words.asked_tables asked.now
        → words.Wants asked.now result }
{
    Wanted {
        names: asked.names,
        are_files: asked.are_files,
        tables,
        texts: &[],
    }
}

/// Returns the paths of a table's files.
fn side_of(files: &TableFiles) -> Side<'_>
    ensures { IsSideOf files.now result }
{
    Side {
        path: &files.path,
        paths: &files.paths,
    }
}
