//! The keysyms that may follow the pending ones of a state.
ghost use Rattle.std.specs.Prelude.{◌≡◌, ◌≤◌, ◌<◌, ◌++◌, ◌∷◌, [], length, MatchOption, slice_get, Some};
ghost use Rattle.compose_model.specs.Nodes as words;
ghost use Rattle.compose_model.specs.Nodes.{nodes, edges};
ghost use Rattle.compose_state.specs.NodeIds.{node_id};

use compose_tree::{ComposeTable, NodeId, Target};
use keysym_core::Keysym;

/// Returns the node after the keysym, if the keysym leads to a node. O(log edges of the node).
pub fn child<T: ComposeTable>(table: &T, node: NodeId, keysym: Keysym) -> Option<NodeId>
    requires { node.0 < length (nodes (T.definitions table.now)) }
    ensures { result
        ≡ node_id (T.definitions table.now)
        (words.node (T.definitions table.now) node.0 ++ keysym ∷ []) }
{
    match table.step(node, keysym) {
        Some(Target::Node(next)) => Some(next),
        Some(Target::Leaf(_)) | None => None,
    }
}

/// Returns the node of these keysyms, if they are a node of the table. O(keysyms × log edges of a
/// node).
pub fn node_of<T: ComposeTable>(table: &T, keysyms: &[Keysym]) -> Option<NodeId>
    ensures { result ≡ node_id (T.definitions table.now) keysyms.now }
{
    let mut node = NodeId::ROOT;
    for index in 0..keysyms.len() {
        node = child(table, node, keysyms[index])?;
    }
    Some(node)
}

/// Returns the keysym of the edge at this index of the node, if there is one.
fn key_at<T: ComposeTable>(table: &T, node: NodeId, index: u32) -> Option<Keysym>
    requires { node.0 < length (nodes (T.definitions table.now)) }
    ensures { MatchOption result
        (length (edges (T.definitions table.now) (words.node (T.definitions table.now) node.0))
        ≤ index)
        (λ keysym. slice_get
        (edges (T.definitions table.now) (words.node (T.definitions table.now) node.0)) index
        ≡ Some keysym) }
{
    if index >= table.edge_count(node) {
        return None;
    }
    let (keysym, _) = table.edge(node, index);
    Some(keysym)
}

/// Returns the keysym at this index, counted from 0, among the keysyms that may follow the pending
/// ones, in increasing order; `None` if there are no more. O(pending keysyms × log edges of a
/// node).
pub fn following<T: ComposeTable>(table: &T, pending: &[Keysym], index: u32) -> Option<Keysym>
    ensures { MatchOption result (length (edges (T.definitions table.now) pending.now) ≤ index)
        (λ keysym. slice_get (edges (T.definitions table.now) pending.now) index ≡ Some keysym) }
{
    match node_of(table, pending) {
        Some(node) => return key_at(table, node, index),
        None => return None,
    }
}
