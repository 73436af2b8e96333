//! The number of sequences that go on from a node.
ghost use Rattle.std.specs.Prelude.{◌≡◌, ◌<◌, ◌^◌, length};
ghost use Rattle.compose_model.specs.Nodes as words;
ghost use Rattle.compose_model.specs.Nodes.{nodes, leaves};
ghost use Rattle.compose_read.specs.Settle.{IsSettled};
ghost use Rattle.compose_lookup.specs.Lookup.{count_after};

use compose_tree::{ComposeTable, NodeId, Target};

/// Returns the number of sequences of the table that go on from the node. O(edges from the node
/// on).
pub fn sequences_after<T: ComposeTable>(table: &T, node: NodeId) -> u32
    requires { node.0 < length (nodes (T.definitions table.now)) }
    ensures { result
        ≡ count_after (T.definitions table.now) (words.node (T.definitions table.now) node.0) }
{
    // The contracts of these calls say that the table is settled, and that a `u32` counts its sequences.
    let _ = table.node_count();
    let _ = table.leaf_count();
    count_from(table, node)
}

/// Returns the number of sequences that go on from the node.
fn count_from<T: ComposeTable>(table: &T, node: NodeId) -> u32
    requires settled { IsSettled (T.definitions table.now) }
    requires few { length (leaves (T.definitions table.now)) < 2 ^ 32 }
    requires in_range { node.0 < length (nodes (T.definitions table.now)) }
    ensures { result
        ≡ count_after (T.definitions table.now) (words.node (T.definitions table.now) node.0) }
{
    let mut count = 0;
    for index in 0..table.edge_count(node) {
        let (_, target) = table.edge(node, index);
        match target {
            Target::Node(child) => count += count_from(table, child),
            Target::Leaf(_) => count += 1,
        }
    }
    count
}
