//! How many sequences `merge` would add.
ghost use Rattle.std.specs.Prelude.{◌≡◌, ◌<◌, ◌≤◌, ℕ, List, [], Some, get_or, length, map};
ghost use Rattle.std.specs.List.{filter};
ghost use Rattle.compose_model.specs.Nodes.{leaves};
ghost use Rattle.compose_compare.specs.Change.{new_changes};
ghost use Rattle.compose_places.specs.Counting as counting;
ghost use Rattle.compose_places.specs.Counting.{AreLines};
ghost use Rattle.compose_merge.specs.Merged.{is_apart, is_taken};
ghost use Rattle.compose_diff_rows.specs.Taken as words;

use crate::reported::keys_at;
use crate::written::WrittenTable;
use compose_compare::Change;
use compose_merge::{Place, place_of};
use compose_places::sequence_named;
use compose_tree::{ComposeTable, LeafId};
use keysym_core::Names;

/// Returns how many sequences of the new table `merge` adds to those of the old one; `changes` holds
/// what happens to each of its sequences. Costs as much as lexing the lines of those that are
/// added, and O(keys × log edges of a node) for each.
pub(crate) fn count_taken<T: ComposeTable>(
    names: &Names,
    changes: &[Option<Change>],
    old: &T,
    new: &WrittenTable<'_, T>,
) -> u32
    requires fits { length changes.now ≡ length (leaves (T.definitions new.now.table.now)) }
    requires lines { AreLines names.now (T.definitions new.now.table.now) new.now.lines.now }
    ensures { (fresh : List ℕ)
        → changes.now
        ≡ new_changes names.now fresh (T.definitions old.now) (T.definitions new.now.table.now)
        → result
        ≡ length
        (filter
        (is_taken names.now fresh (T.definitions old.now) (T.definitions new.now.table.now))
        (leaves (T.definitions new.now.table.now))) }
{
    // This call's contract states that the table is settled.
    let _ = new.table.node_count();
    let mut count = 0;
    for leaf in 0..new.table.leaf_count() {
        if is_taken_at(names, changes[leaf as usize], LeafId(leaf), old, new) {
            count += 1;
        }
    }
    count
}

/// Whether `merge` takes the sequence of this leaf of the new table, to which this happens. Costs as
/// much as lexing its line, if it is added.
fn is_taken_at<T: ComposeTable>(
    names: &Names,
    change: Option<Change>,
    leaf: LeafId,
    old: &T,
    new: &WrittenTable<'_, T>,
) -> bool
    requires in_table { leaf.0 < length (leaves (T.definitions new.now.table.now)) }
    requires lines { AreLines names.now (T.definitions new.now.table.now) new.now.lines.now }
    ensures { (fresh : List ℕ)
        → change
        ≡ words.change_of names.now fresh (T.definitions old.now)
        (T.definitions new.now.table.now) (get_or (leaves (T.definitions new.now.table.now)) leaf.0 [])
        → result
        ≡ is_taken names.now fresh (T.definitions old.now) (T.definitions new.now.table.now)
        (get_or (leaves (T.definitions new.now.table.now)) leaf.0 []) }
{
    // This call's contract states that the table is settled.
    let _ = new.table.node_count();
    if !is_added(change) {
        return false;
    }
    is_apart(names, keys_at(new, leaf).as_slice(), old)
}

/// Whether a sequence to which this happens is added, and is no new start.
fn is_added(change: Option<Change>) -> bool
    ensures { result ≡ words.is_added change }
{
    matches!(change, Some(Change::Added))
}

/// Whether the sequence of these names is none of the table's, and neither begins one nor goes on
/// from one. O(keys × log edges of a node).
fn is_apart<T: ComposeTable>(names: &Names, keys: &[&str], table: &T) -> bool
    requires few { length keys.now ≤ 32 }
    ensures { (s : List ℕ)
        → counting.sequence_named names.now (map (λ key. key.now) keys.now) ≡ Some s → 0 < length s
        → result ≡ is_apart (T.definitions table.now) s }
{
    match sequence_named(names, keys) {
        Some(sequence) if !sequence.is_empty() => {
            matches!(place_of(table, sequence.as_slice()), Place::Apart)
        }
        _ => false,
    }
}
