//! The number of keys of each sequence of a table.
ghost use Rattle.std.specs.Prelude.{◌≡◌, ◌<◌, ◌^◌, length, map, IfOk};
ghost use Rattle.compose_model.specs.Table.{is_proper_prefix};
ghost use Rattle.compose_model.specs.Nodes as words;
ghost use Rattle.compose_model.specs.Nodes.{nodes, leaves};
ghost use Rattle.compose_read.specs.Settle.{IsSettled};
ghost use Rattle.compose_compare.specs.Passes.{IsWritten};

use compose_tree::{ComposeTable, NodeId, Target};
use std::alloc::{AllocError, Global};

/// Returns the number of keys of each sequence of the table, by the numbers of its leaves.
/// `Err(AllocError)` if memory runs out. O(edges).
pub fn sequence_lengths<T: ComposeTable>(alloc: Global, table: &T) -> Result<Vec<u32>, AllocError>
    ensures lengths { IfOk result
        (λ lengths. lengths.items ≡ map length (leaves (T.definitions table.now))) }
    ensures few { IfOk result (λ lengths. length lengths.items < 2 ^ 32) }
{
    // The contract of this call says that the table is settled.
    let _ = table.node_count();
    let mut lengths = Vec::new(alloc);
    lengths.resize(table.leaf_count() as usize, 0)?;
    write_lengths(table, NodeId::ROOT, &mut lengths);
    Ok(lengths)
}

/// Writes the length of each sequence that goes on from the node. O(edges from the node on).
fn write_lengths<T: ComposeTable>(table: &T, node: NodeId, lengths: &mut [u32])
    requires settled { IsSettled (T.definitions table.now) }
    requires in_range { node.0 < length (nodes (T.definitions table.now)) }
    requires fits { length lengths.old ≡ length (leaves (T.definitions table.now)) }
    ensures fits { length lengths.new ≡ length (leaves (T.definitions table.now)) }
    ensures written { IsWritten 0 length (T.definitions table.now)
        (is_proper_prefix (words.node (T.definitions table.now) node.0)) lengths.old lengths.new }
{
    let keys = table.depth(node) + 1;
    for index in 0..table.edge_count(node) {
        let (_, target) = table.edge(node, index);
        match target {
            Target::Node(child) => write_lengths(table, child, lengths),
            Target::Leaf(leaf) => lengths[leaf.0 as usize] = keys,
        }
    }
}
