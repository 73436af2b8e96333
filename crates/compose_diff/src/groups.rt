//! Rows that share a line, wherever they are in the list.
ghost use Rattle.std.specs.Prelude.{◌≡◌, ℕ, List, ◌++◌, IfOk, OnOk, filter, map, option_map};
ghost use Rattle.std.specs.Borrow.{Bor};
ghost use Rattle.compose_diff.specs.Causes.{has_gone};
ghost use Rattle.compose_diff.specs.Groups as words;
ghost use Rattle.compose_diff.specs.Members.{Key, view, members_at, onto, without};

use crate::cause::{Gone, gone_entry};
use crate::order::group;
use crate::row::DiffRow;
use compose_compare::Change;
use indexmap::IndexMap;
use std::alloc::{AllocError, Global};

/// What the rows of a line have in common: the rank of their change among the changes, the source
/// with which they are gone, and the keys with which they begin.
pub(crate) type Common<'r> = (u8, Option<usize>, &'r [&'r str]);

/// The rows that have the same in common, in order.
pub(crate) type Groups<'r> = IndexMap<Common<'r>, Vec<DiffRow<'r>>>;

/// Returns what the row has in common with the others of its line, if it can share one.
pub(crate) fn common<'r>(gone: &Gone, row: &DiffRow<'r>) -> Option<Common<'r>>
    ensures { option_map view result ≡ words.common (has_gone gone.now) row.now }
{
    if let Some(entry) = gone_entry(gone, row) {
        return Some((group(row.change), Some(entry.source), &[]));
    }
    if can_fold(row.change) && row.keys.len() > 1 {
        return Some((group(row.change), None, fold_keys(row)));
    }
    None
}

/// Returns whether rows to which this happens are folded.
fn can_fold(change: Change) -> bool
    ensures { result ≡ words.can_fold change }
{
    matches!(change, Change::Removed | Change::Added)
}

/// Returns the keys by which rows are folded.
pub(crate) fn fold_keys<'a>(row: &DiffRow<'a>) -> &'a [&'a str]
    ensures { map (λ key. key.now) result.now ≡ words.fold_keys row.now }
{
    let count = row.keys.len().saturating_sub(1).min(2);
    &row.keys[..count]
}

/// Returns the rows that share a line, by what they have in common. O(bytes of the keys).
pub(crate) fn group_rows<'r>(
    alloc: Global,
    gone: &Gone,
    rows: &[DiffRow<'r>],
) -> Result<Groups<'r>, AllocError>
    ensures { IfOk result
        (λ groups. (key : Key)
        → members_at groups (view key) ≡ filter (words.has (has_gone gone.now) (view key)) rows.now) }
{
    let mut groups = IndexMap::new(alloc);
    for row in rows {
        if let Some(key) = common(gone, row) {
            add_row(alloc, &mut groups, key, row)?;
        }
    }
    Ok(groups)
}

/// Adds a row after those that have this in common.
fn add_row<'r>(
    alloc: Global,
    groups: &mut Groups<'r>,
    key: Common<'r>,
    row: &DiffRow<'r>,
) -> Result<(), AllocError>
    ensures { OnOk result
        ((other : Key)
        → members_at groups.new (view other)
        ≡ onto (view key.entry) (view other) row.now (members_at groups.old (view other))) }
{
    let mut members = take_group(alloc, groups, key);
    members.push(*row)?;
    groups.insert(key, members)?;
    Ok(())
}

/// Takes out the rows that have this in common, and returns them: none if they were taken out
/// before.
pub(crate) fn take_group<'r>(
    alloc: Global,
    groups: &mut Groups<'r>,
    key: Common<'r>,
) -> Vec<DiffRow<'r>>
    ensures members { result.items ≡ members_at groups.old (view key.entry) }
    ensures others { (other : Key)
        → members_at groups.new (view other)
        ≡ without (view key.entry) (view other) (members_at groups.old (view other)) }
{
    match groups.swap_remove(&key) {
        Some(members) => members,
        None => Vec::new(alloc),
    }
}
