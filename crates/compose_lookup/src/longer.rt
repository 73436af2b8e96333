//! The sequences of a table that go on from a node.
ghost use Rattle.std.specs.Prelude.{◌≡◌, ◌<◌, length, IfSome};
ghost use Rattle.std.specs.Option.{option_map};
ghost use Rattle.compose_model.specs.Table.{is_proper_prefix};
ghost use Rattle.compose_model.specs.Nodes as nodes_words;
ghost use Rattle.compose_model.specs.Nodes.{nodes};
ghost use Rattle.compose_read.specs.Settle.{IsSettled};
ghost use Rattle.compose_lookup.specs.Longer as words;
ghost use Rattle.compose_lookup.specs.Longer.{FindsShortest};
ghost use Rattle.compose_lookup.specs.TextIndex.{sequence_at, IsLeaf};

use compose_tree::{ComposeTable, LeafId, NodeId, Target};

/// A leaf, and the number of keys of its sequence.
#[derive(Clone, Copy)]
pub(crate) struct FoundLeaf {
    pub(crate) keys: u32,
    pub(crate) leaf: LeafId,
}

/// Returns the leaf of the shortest sequence that goes on from the node's keys, and of several of
/// that length the first. O(edges from the node on).
pub fn first_longer<T: ComposeTable>(table: &T, node: NodeId) -> Option<LeafId>
    requires { node.0 < length (nodes (T.definitions table.now)) }
    ensures sequence { option_map (sequence_at (T.definitions table.now)) result
        ≡ words.first_longer (T.definitions table.now)
        (nodes_words.node (T.definitions table.now) node.0) }
    ensures in_table { IfSome result (IsLeaf (T.definitions table.now)) }
{
    // The contract of this call says that the table is settled.
    let _ = table.node_count();
    match shortest_from(table, node) {
        Some(found) => Some(found.leaf),
        None => None,
    }
}

/// Returns the same leaf, with the number of its keys.
fn shortest_from<T: ComposeTable>(table: &T, node: NodeId) -> Option<FoundLeaf>
    requires settled { IsSettled (T.definitions table.now) }
    requires in_range { node.0 < length (nodes (T.definitions table.now)) }
    ensures { FindsShortest (T.definitions table.now)
        (is_proper_prefix (nodes_words.node (T.definitions table.now) node.0)) result }
{
    let keys = table.depth(node) + 1;
    let mut best = None;
    for index in 0..table.edge_count(node) {
        let (_, target) = table.edge(node, index);
        let found = match target {
            Target::Node(child) => shortest_from(table, child),
            Target::Leaf(leaf) => Some(FoundLeaf { keys, leaf }),
        };
        best = sooner(best, found);
    }
    best
}

/// Returns the leaf of the shorter sequence, and of two of the same length the first.
fn sooner(one: Option<FoundLeaf>, other: Option<FoundLeaf>) -> Option<FoundLeaf>
    ensures { result ≡ words.sooner one other }
{
    match (one, other) {
        (None, other) => other,
        (Some(one), None) => Some(one),
        (Some(one), Some(other)) => Some(if is_sooner(other, one) { other } else { one }),
    }
}

/// Whether the first is the leaf of a shorter sequence, or of one as long with a lower number.
fn is_sooner(one: FoundLeaf, other: FoundLeaf) -> bool
    ensures { result ≡ words.is_sooner one other }
{
    one.keys < other.keys || one.keys == other.keys && one.leaf.0 < other.leaf.0
}
