//! The rows of two tables.
ghost use Rattle.std.specs.Prelude.{◌≡◌, ◌≤◌, ◌<◌, ◌++◌, ℕ, List, [], map, length, get_or, IfOk, OnOk};
ghost use Rattle.std.specs.Option.{option_map, option_and_then};
ghost use Rattle.keysym_core.specs.Names.{KeysymNames};
ghost use Rattle.compose_model.specs.Nodes.{leaves};
ghost use Rattle.compose_compare.specs.Change.{old_changes};
ghost use Rattle.compose_diff.specs.declared.row.DiffRow.{DiffRow};
ghost use Rattle.compose_places.specs.Counting.{sequence_named};
ghost use Rattle.compose_diff_rows.specs.Rows as words;
ghost use Rattle.compose_diff_rows.specs.Rows.{Written, named_sequence, new_sequence, reported_entry, reported_row, reported_sequence, kept_rows};

use crate::reported::{ReportedSequence, entry_at, is_reported};
use crate::typing::NamedSequence;
use crate::written::WrittenTable;
use compose_compare::Change;
use compose_diff::{DiffRow, NewSequence, TextPlace};
use compose_places::leaf_named;
use compose_tree::{ComposeTable, LeafId};
use keysym_core::Names;
use std::alloc::{AllocError, Global};

/// Returns the rows of these sequences of the old table, and then of these sequences that only the
/// new table has, each with the text and the place that either table has for it. O(keys of all
/// sequences × log edges of a node).
pub(crate) fn reported_rows<'a, T: ComposeTable>(
    alloc: Global,
    names: &Names,
    of_old: &'a [ReportedSequence<'a>],
    of_new: &'a [ReportedSequence<'a>],
    new: &WrittenTable<'a, T>,
) -> Result<Vec<DiffRow<'a>>, AllocError>
    ensures { IfOk result
        (λ rows. map reported_row rows.items
        ≡ map (words.old_row names.now (words.written T.definitions new.now))
        (map reported_sequence of_old.now)
        ++ map words.new_row (map reported_sequence of_new.now)) }
{
    let mut rows = Vec::with_capacity(alloc, of_old.len())?;
    for reported in of_old {
        rows.push(old_row(names, reported, new))?;
    }
    add_new_rows(&mut rows, of_new)?;
    Ok(rows)
}

/// Returns the row of a sequence of the old table.
fn old_row<'a, T: ComposeTable>(
    names: &Names,
    reported: &'a ReportedSequence<'a>,
    new: &WrittenTable<'a, T>,
) -> DiffRow<'a>
    ensures { reported_row result
        ≡ words.old_row names.now (words.written T.definitions new.now) (reported_sequence reported.now) }
{
    let keys = reported.keys.as_slice();
    DiffRow {
        change: reported.change,
        keys,
        old: reported.entry,
        new: entry_named(names, keys, new),
        longer: as_new(&reported.longer),
        typing: as_new(&reported.typing),
    }
}

/// Returns a sequence of the new table as a row has it.
fn as_new<'a>(sequence: &'a Option<NamedSequence<'a>>) -> Option<NewSequence<'a>>
    ensures { option_map new_sequence result ≡ option_map named_sequence sequence.now }
{
    match sequence {
        Some(sequence) => Some(sequence.as_new()),
        None => None,
    }
}

/// Returns what a table has for the sequence with the keys of these names, if it has the sequence.
fn entry_named<'a, T: ComposeTable>(
    names: &Names,
    keys: &[&str],
    written: &WrittenTable<'a, T>,
) -> Option<TextPlace<'a>>
    requires few { length keys.now ≤ 32 }
    ensures { option_map reported_entry result
        ≡ option_and_then (words.entry_of (words.written T.definitions written.now))
        (sequence_named names.now (map (λ key. key.now) keys.now)) }
{
    let leaf = leaf_named(names, written.table, keys)?;
    entry_at(written, leaf)
}

/// Adds the rows of sequences that only the new table has.
fn add_new_rows<'a>(
    rows: &mut Vec<DiffRow<'a>>,
    reported: &'a [ReportedSequence<'a>],
) -> Result<(), AllocError>
    ensures { OnOk result
        (map reported_row rows.new.items
        ≡ map reported_row rows.old.items ++ map words.new_row (map reported_sequence reported.now)) }
{
    for sequence in reported {
        rows.push(DiffRow {
            change: sequence.change,
            keys: sequence.keys.as_slice(),
            old: None,
            new: sequence.entry,
            longer: None,
            typing: None,
        })?;
    }
    Ok(())
}

/// Adds the rows of the kept sequences of the old table, in its order, if these are not reported:
/// each has only what the old table has for it. `changes` holds what happens to each sequence of
/// the old table. O(sequences).
pub(crate) fn add_kept_rows<'a, T: ComposeTable>(
    rows: &mut Vec<DiffRow<'a>>,
    whole: bool,
    changes: &[Change],
    old: &WrittenTable<'a, T>,
) -> Result<(), AllocError>
    requires fits { length changes.now ≡ length (leaves (T.definitions old.now.table.now)) }
    ensures { (names : KeysymNames) (fresh : List ℕ) (new : Written)
        → changes.now ≡ old_changes names fresh (T.definitions old.now.table.now) new.table
        → OnOk result
        ((kept : List DiffRow) × (rows.new.items ≡ rows.old.items ++ kept)
        × (map reported_row kept
        ≡ kept_rows whole names fresh (words.written T.definitions old.now) new)) }
{
    rows.reserve(old.table.leaf_count() as usize)?;
    for leaf in 0..old.table.leaf_count() {
        if !is_reported(whole, changes[leaf as usize]) {
            rows.push(kept_row(LeafId(leaf), old))?;
        }
    }
    Ok(())
}

/// Returns the row of a kept sequence that is not reported.
fn kept_row<'a, T: ComposeTable>(leaf: LeafId, old: &WrittenTable<'a, T>) -> DiffRow<'a>
    requires { leaf.0 < length (leaves (T.definitions old.now.table.now)) }
    ensures { reported_row result
        ≡ words.kept_row (words.written T.definitions old.now)
        (get_or (leaves (T.definitions old.now.table.now)) leaf.0 []) }
{
    DiffRow {
        change: Change::Kept,
        keys: &[],
        old: entry_at(old, leaf),
        new: None,
        longer: None,
        typing: None,
    }
}
