//! Which definition counts for each sequence of a table.
ghost use Rattle.std.specs.Prelude.{◌≡◌, None, map, replicate, false, true, MatchOption, IfOk};
ghost use Rattle.compose_model.specs.Table.{is_sequence};
ghost use Rattle.compose_model.specs.Nodes.{leaves};
ghost use Rattle.compose_read.specs.Settle.{IsSettled};
ghost use Rattle.compose_tree.specs.Targets.{leaf_number};
ghost use Rattle.compose_places.specs.Last.{last_with};

use compose_read::Definitions;
use compose_tree::{ComposeTable, LeafId, NodeId, Target};
use keysym_core::Keysym;
use std::alloc::{AllocError, Global};

/// Returns for each leaf of the table, by its number, the index of the last definition with its
/// sequence, which is the one that counts, or `None` if no definition has it. `Err(AllocError)` if
/// memory runs out. O(keysyms of all definitions × log edges of a node) time, and memory for the
/// leaves.
pub fn last_definitions<T: ComposeTable>(
    alloc: Global,
    definitions: &Definitions,
    table: &T,
) -> Result<Vec<Option<u32>>, AllocError>
    ensures { IfOk result
        (λ last. last.items ≡ map (last_with definitions.now) (leaves (T.definitions table.now))) }
{
    // The contract of this call says that the table is settled.
    let _ = table.node_count();
    let mut last = no_definitions(alloc, table.leaf_count())?;
    for index in 0..definitions.len() {
        if let Some(leaf) = leaf_of(table, definitions.sequence(index)) {
            last[leaf.0 as usize] = Some(index as u32);
        }
    }
    Ok(last)
}

/// Returns `None` for each of this number of leaves.
fn no_definitions(alloc: Global, leaves: u32) -> Result<Vec<Option<u32>>, AllocError>
    ensures { IfOk result (λ last. last.items ≡ replicate leaves None) }
{
    let mut last = Vec::new(alloc);
    while last.len() < leaves as usize {
        last.push(None)?;
    }
    Ok(last)
}

/// Returns the leaf with this sequence, if the table has it. O(keysyms × log edges of a node).
pub(crate) fn leaf_of<T: ComposeTable>(table: &T, sequence: &[Keysym]) -> Option<LeafId>
    requires { IsSettled (T.definitions table.now) }
    ensures { MatchOption result (is_sequence (T.definitions table.now) sequence.now ≡ false)
        (λ leaf. (is_sequence (T.definitions table.now) sequence.now ≡ true)
        × (leaf_number (T.definitions table.now) sequence.now ≡ leaf.0)) }
{
    let mut node = NodeId::ROOT;
    for (index, keysym) in sequence.iter().enumerate() {
        match table.step(node, *keysym)? {
            Target::Node(next) => node = next,
            Target::Leaf(leaf) if index + 1 == sequence.len() => return Some(leaf),
            Target::Leaf(_) => return None,
        }
    }
    None
}
