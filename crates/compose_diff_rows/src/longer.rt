//! The longer sequence for which a waiting one waits.
ghost use Rattle.std.specs.Prelude.{◌≡◌, ◌<◌, ◌++◌, ℕ, List, Some, false, length, map, MatchOption};
ghost use Rattle.std.specs.Option.{option_map, option_and_then};
ghost use Rattle.compose_model.specs.Nodes as nodes_words;
ghost use Rattle.compose_model.specs.Nodes.{nodes};
ghost use Rattle.compose_model.specs.Table.{is_extended};
ghost use Rattle.compose_places.specs.Counting.{sequence_named};
ghost use Rattle.compose_diff_rows.specs.Rows as words;
ghost use Rattle.compose_diff_rows.specs.Rows.{named_sequence};

use crate::typing::{NamedSequence, sequence_at};
use crate::written::WrittenTable;
use compose_compare::Change;
use compose_lookup::first_longer;
use compose_tree::{ComposeTable, NodeId, Target};
use keysym_core::Names;

/// Returns the longer sequence of the new table for which the sequence with the keys of these names
/// waits, if it does. Costs as much as `longer_named`.
pub(crate) fn longer_now<'a, T: ComposeTable>(
    names: &Names,
    change: Change,
    keys: &[&str],
    new: &WrittenTable<'a, T>,
) -> Option<NamedSequence<'a>>
    ensures { option_map named_sequence result
        ≡ words.longer_named names.now (words.written T.definitions new.now) change
        (map (λ key. key.now) keys.now) }
{
    match change {
        Change::Waiting => longer_named(names, keys, new),
        Change::Kept | Change::Changed | Change::Removed | Change::Added | Change::NewStart => None,
    }
}

/// Returns the first of the shortest sequences of a table that begin with the keys of these names
/// and go on. O(keys × log edges of a node + edges from there on).
fn longer_named<'a, T: ComposeTable>(
    names: &Names,
    keys: &[&str],
    new: &WrittenTable<'a, T>,
) -> Option<NamedSequence<'a>>
    ensures { option_map named_sequence result
        ≡ option_and_then (words.longer_in (words.written T.definitions new.now))
        (sequence_named names.now (map (λ key. key.now) keys.now)) }
{
    // This call's contract states that the table has its root.
    let _ = new.table.node_count();
    let node = node_named(names, new.table, NodeId::ROOT, keys)?;
    let leaf = first_longer(new.table, node)?;
    sequence_at(new, leaf)
}

/// Returns the node to which the keys of these names lead from a node, if each name has a keysym,
/// and a sequence goes on from there.
fn node_named<T: ComposeTable>(
    names: &Names,
    table: &T,
    from: NodeId,
    keys: &[&str],
) -> Option<NodeId>
    requires { from.0 < length (nodes (T.definitions table.now)) }
    ensures { MatchOption result
        ((s : List ℕ) → sequence_named names.now (map (λ key. key.now) keys.now) ≡ Some s
        → is_extended (T.definitions table.now)
        (nodes_words.node (T.definitions table.now) from.0 ++ s) ≡ false)
        (λ node. (s : List ℕ)
        × (sequence_named names.now (map (λ key. key.now) keys.now) ≡ Some s)
        × (node.0 < length (nodes (T.definitions table.now)))
        × (nodes_words.node (T.definitions table.now) node.0
        ≡ nodes_words.node (T.definitions table.now) from.0 ++ s)) }
{
    let Some((key, rest)) = keys.split_first() else {
        return Some(from);
    };
    match table.step(from, names.lookup(key)?)? {
        Target::Node(node) => node_named(names, table, node, rest),
        Target::Leaf(_) => None,
    }
}
