//! The order in which rows are printed.
ghost use Rattle.std.specs.Prelude.{◌≡◌, OnOk, OnErr};
ghost use Rattle.std.specs.List.Sorted.{IsPermutation};
ghost use Rattle.compose_diff.specs.Order as words;
ghost use Rattle.compose_diff.specs.Order.{AreInOrder};

use crate::row::DiffRow;
use compose_compare::Change;
use std::alloc::AllocError;

/// Sorts the rows into the order in which they are printed: changed, waiting, removed, new start,
/// added, kept. Within each group they are sorted by the source and the line of the old table's
/// definition, or else of the new one's. O(rows × log rows).
///
/// Errors: `AllocError` if memory runs out; the rows then stay as they are.
pub fn sort_rows(rows: &mut Vec<DiffRow>) -> Result<(), AllocError>
    ensures same { IsPermutation rows.old.items rows.new.items }
    ensures sorted { OnOk result (AreInOrder rows.new.items) }
    ensures unchanged { OnErr result (rows.new.items ≡ rows.old.items) }
{
    rows.sort_by_key(|row| rank(row))?;
    Ok(())
}

/// Returns the group of a row, and the source and the line of the old table's definition, or else
/// of the new one's.
fn rank(row: &DiffRow) -> (u8, usize, usize)
    ensures { result ≡ words.rank row.now }
{
    match (&row.old, &row.new) {
        (Some(entry), _) | (None, Some(entry)) => (group(row.change), entry.source, entry.line),
        (None, None) => (group(row.change), 0, 0),
    }
}

/// Returns the rank of a change among the groups.
pub(crate) fn group(change: Change) -> u8
    ensures { result ≡ words.group change }
{
    match change {
        Change::Changed => 0,
        Change::Waiting => 1,
        Change::Removed => 2,
        Change::NewStart => 3,
        Change::Added => 4,
        Change::Kept => 5,
    }
}
