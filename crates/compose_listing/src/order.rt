//! The order in which sequences are printed.
ghost use Rattle.std.specs.Prelude.{◌≡◌, ℕ, List, map, OnOk};
ghost use Rattle.std.specs.List.{All};
ghost use Rattle.std.specs.List.Sorted.{IsPermutation, IsSortedByKey};
ghost use Rattle.compose_model.specs.Nodes as node_words;
ghost use Rattle.compose_read.specs.Lines.{Visit};
ghost use Rattle.compose_places.specs.Counting.{counting_line};
ghost use Rattle.compose_lookup.specs.TextIndex.{IsLeaf, sequence_at};
ghost use Rattle.compose_listing.specs.Chosen.{AreInOrder, place_cmp};
ghost use Rattle.compose_listing.specs.Leaves as words;

use crate::form::ListOrder;
use crate::listed::{ListedTable, line_at};
use compose_lookup::sort_by_text;
use compose_places::CountingLine;
use compose_tree::{ComposeTable, LeafId};
use std::alloc::AllocError;

/// Puts leaves, which are in the order of their keysyms, into the order that is asked for. O(n log
/// n) comparisons for n leaves.
pub(crate) fn put_in_order<T: ComposeTable>(
    listed: &ListedTable<'_, T>,
    leaves: &mut Vec<LeafId>,
    order: ListOrder,
) -> Result<(), AllocError>
    requires { All (IsLeaf (T.definitions listed.now.table.now)) leaves.old.items }
    ensures in_table { All (IsLeaf (T.definitions listed.now.table.now)) leaves.new.items }
    ensures ordered { (visits : List Visit) → listed.now.lines.now
        ≡ map (counting_line listed.now.names.now visits)
        (node_words.leaves (T.definitions listed.now.table.now))
        → OnOk result
        (AreInOrder order listed.now.names.now visits (T.definitions listed.now.table.now)
        (map (sequence_at (T.definitions listed.now.table.now)) leaves.old.items)
        (map (sequence_at (T.definitions listed.now.table.now)) leaves.new.items)) }
{
    // This call's contract states that the table is settled.
    let _ = listed.table.node_count();
    match order {
        ListOrder::Keys => Ok(()),
        ListOrder::Text => sort_by_text(listed.table, leaves),
        ListOrder::File => sort_by_place(listed.lines, leaves),
    }
}

/// Puts leaves into the order of the places of the lines that count for them. O(n log n) for n
/// leaves.
fn sort_by_place(
    lines: &[Option<CountingLine<'_>>],
    leaves: &mut Vec<LeafId>,
) -> Result<(), AllocError>
    ensures same { IsPermutation leaves.old.items leaves.new.items }
    ensures sorted { OnOk result
        (IsSortedByKey (words.place_at lines.now) place_cmp leaves.new.items) }
{
    leaves.sort_by_key(|leaf| place_at(lines, *leaf))
}

/// Returns the index of the source and the number of the line that counts for a leaf; both are 0 if
/// there is none.
fn place_at(lines: &[Option<CountingLine<'_>>], leaf: LeafId) -> (usize, usize)
    ensures { result ≡ words.place_at lines.now leaf }
{
    match line_at(lines, leaf) {
        Some(line) => (line.place().source, line.place().line),
        None => (0, 0),
    }
}
