//! The merge: both tables are read, merged, printed, and read once more.
ghost use Rattle.std.specs.Prelude.{◌≡◌, IfErr, IfOk, IsTrue, List, Ok, string_bytes};
ghost use Rattle.compose_model.specs.Certificate.{keys_rise};
ghost use Rattle.compose_model.specs.Table.{Definition};
ghost use Rattle.compose_tree.specs.TableReturns.{first_table};
ghost use Rattle.compose_merging.specs.Merges.{AnswersMerge, Merges, asked};
ghost use Rattle.compose_merging.specs.Printed.{listed_as};
ghost use Rattle.compose_merging.specs.Steps.{AreRows, IsPlaced, IsTold, ReturnsFresh, placed_parts};

use crate::asking::{MergeInput, Merging, MergingFault};
use crate::fresh::fresh_keys;
use crate::printed::{check_back, table_text};
use crate::report::{Totals, push_all_left_out, push_totals};
use crate::settled::read_settled;
use crate::sides::Side;
use crate::treatment::{Treatment, count_left_out, count_taken, treatments};
use compose_answer::Refusal;
use compose_fresh::check_fresh;
use compose_listing::ListedTable;
use compose_merge::merge;
use compose_migration::{Migration, TableInput};
use compose_places::PlacedTable;
use compose_read::Sequences;
use compose_tree::{BuildTable, ComposeTable, TableFault};
use keysym_core::{Keysym, Names};
use std::alloc::{AllocError, Global};

/// Merges two tables: the merged table as a Compose file, and what is left out of the new one.
///
/// Costs as much as reading both tables twice, once with their places, and merging them, and
/// reading what is printed; and O(rows of the old table) for each line of the report.
///
/// Errors: `Input` with the first part that is refused, in the order names, key names, old table,
/// new table, fresh keysyms, or if memory runs out; `TooLarge` if the merged table is too large for
/// a table; `NotReadBack` if what would be printed is not read as the merged table.
pub fn merge_tables<T: BuildTable>(
    alloc: Global,
    input: &MergeInput<'_, '_>,
) -> Result<Merging, MergingFault>
    ensures { AnswersMerge (asked input.now) result }
{
    match Migration::<PlacedTable<'_, T>>::read(alloc, input.tables) {
        Ok(migration) => merge_read(alloc, input, &migration),
        Err(refusal) => Err(MergingFault::Input(refusal)),
    }
}

/// Does the same, once both tables are read.
fn merge_read<T: BuildTable>(
    alloc: Global,
    input: &MergeInput<'_, '_>,
    migration: &Migration<PlacedTable<'_, T>>,
) -> Result<Merging, MergingFault>
    requires { IsPlaced T.definitions input.now migration.now }
    ensures { AnswersMerge (asked input.now) result }
{
    let fresh = fresh_keysyms(alloc, migration)?;
    let old = rows_of(alloc, &migration.names, input.tables.old)?;
    let new = rows_of(alloc, &migration.names, input.tables.new)?;
    let old_side = Side {
        listed: ListedTable {
            names: &migration.names,
            table: &migration.old.table,
            lines: &migration.old.lines,
            paths: input.old_paths,
        },
        rows: old,
    };
    let new_side = Side {
        listed: ListedTable {
            names: &migration.names,
            table: &migration.new.table,
            lines: &migration.new.lines,
            paths: input.new_paths,
        },
        rows: new,
    };
    merge_sides(alloc, &migration.names, &fresh, &old_side, &new_side)
}

/// Merges two tables that were read.
fn merge_sides<T: BuildTable>(
    alloc: Global,
    names: &Names,
    fresh: &[Keysym],
    old: &Side<'_, T>,
    new: &Side<'_, T>,
) -> Result<Merging, MergingFault>
    requires rise { IsTrue (keys_rise fresh.now) }
    requires old { AreRows T.definitions old.now }
    requires new { AreRows T.definitions new.now }
    ensures { Merges names.now fresh.now (listed_as T.definitions old.now.listed)
        (listed_as T.definitions new.now.listed) result }
{
    // The contract of this call says that the old table has not too many nodes.
    let _ = old.listed.table.node_count();
    let rows = merge::<T>(alloc, names, fresh, &[], &old.rows, &new.rows)?;
    let treatments = treatments(alloc, old.listed.table, names, fresh, &new.rows)?;
    let table = table_text(alloc, &old.listed, &new.listed, &treatments)?;
    check_back::<T>(alloc, names, &table, &rows)?;
    Ok(told(alloc, names, old, new, &treatments, table)?)
}

/// Returns the merge with this table, and the report of it.
fn told<T: ComposeTable>(
    alloc: Global,
    names: &Names,
    old: &Side<'_, T>,
    new: &Side<'_, T>,
    treatments: &[Treatment],
    table: String,
) -> Result<Merging, AllocError>
    ensures { IfOk result
        (λ merging. IsTold old.now.rows treatments.now (string_bytes table) merging) }
{
    let kept = old.rows.len();
    let taken = count_taken(treatments);
    let left_out = count_left_out(treatments);
    let totals = Totals {
        kept,
        taken,
        left_out,
    };
    let report = report_text(alloc, names, old, new, treatments, totals)?;
    Ok(Merging {
        table,
        kept,
        taken,
        left_out,
        report,
    })
}

/// Returns the report.
fn report_text<T: ComposeTable>(
    alloc: Global,
    names: &Names,
    old: &Side<'_, T>,
    new: &Side<'_, T>,
    treatments: &[Treatment],
    totals: Totals,
) -> Result<String, AllocError> {
    let mut report = String::new(alloc);
    push_all_left_out(alloc, &mut report, old, new, treatments)?;
    let fresh = fresh_keys(alloc, old.listed.table, &new.rows, treatments)?;
    push_totals(alloc, &mut report, names, totals, &fresh)?;
    Ok(report)
}

/// Returns the fresh keysyms of a migration in rising order, each once, if the old table has none
/// of them.
fn fresh_keysyms<T: ComposeTable>(
    alloc: Global,
    migration: &Migration<PlacedTable<'_, T>>,
) -> Result<Vec<Keysym>, Refusal>
    ensures { ReturnsFresh (placed_parts T.definitions migration.now) result }
{
    let mut fresh = Vec::from_slice(alloc, &migration.keys)?;
    fresh.sort()?;
    fresh.dedup();
    match check_fresh(&migration.old.table, &fresh) {
        Some(fault) => Err(Refusal::Fresh(fault)),
        None => Ok(fresh),
    }
}

/// Returns the rows of a table that was read without a fault. O(bytes + n log n) for n sequences.
fn rows_of(alloc: Global, names: &Names, input: TableInput<'_>) -> Result<Sequences, Refusal>
    ensures rows { (table : List Definition)
        → first_table names.now input.entry.sources.now input.entry.rule ≡ Ok table
        → IfOk result (λ rows. rows ≡ table) }
    ensures memory { IfErr result (λ refusal. refusal ≡ Refusal.NoMemory) }
{
    match read_rows(alloc, names, input) {
        Ok(rows) => Ok(rows),
        Err(_) => Err(Refusal::NoMemory),
    }
}

/// Returns the rows of a table, or why it is refused.
fn read_rows(alloc: Global, names: &Names, input: TableInput<'_>) -> Result<Sequences, TableFault>
    ensures { (table : List Definition)
        → first_table names.now input.entry.sources.now input.entry.rule ≡ Ok table
        → IfOk result (λ rows. rows ≡ table) }
{
    let Some(root) = input.sources.name(0) else {
        return Err(TableFault::NoMemory);
    };
    read_settled(alloc, names, input.sources, root, input.rule)
}
