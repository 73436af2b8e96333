//! The interface of every table: its nodes, leaves and edges by number.
ghost use Rattle.std.specs.Prelude.{◌≡◌, ◌<◌, ◌≤◌, ◌+◌, List, ℕ, Some, None, length, slice_get, MatchOption, IfOk, IfErr};
ghost use Rattle.compose_model.specs.Table.{Definition};
ghost use Rattle.compose_model.specs.Nodes as words;
ghost use Rattle.compose_model.specs.Nodes.{nodes, leaves, edges};
ghost use Rattle.compose_read.specs.Settle.{IsSettled};
ghost use Rattle.compose_tree.specs.Targets.{max_nodes, target_of, leaf_text};

use compose_read::Sequences;
use keysym_core::Keysym;
use std::alloc::{AllocError, AllocFailed, Global};
use thiserror::Error;

/// The number of a node: its index among the nodes in the order of sequences. The root is 0.
#[derive(Clone, Copy, Debug, PartialEq, Eq)]
pub struct NodeId(pub u32);

impl NodeId {
    /// The root: the node of the empty sequence of keysyms.
    pub const ROOT: NodeId = NodeId(0);
}

/// The number of a leaf: the index of its sequence among all sequences in their order.
#[derive(Clone, Copy, Debug, PartialEq, Eq)]
pub struct LeafId(pub u32);

/// The target of an edge.
#[derive(Clone, Copy, Debug, PartialEq, Eq)]
pub enum Target {
    /// The sequence goes on at this node.
    Node(NodeId),
    /// The sequence is complete at this leaf.
    Leaf(LeafId),
}

/// Why a table can't be built.
#[derive(Clone, Copy, Debug, PartialEq, Eq, Drop, Error)]
pub enum BuildFault {
    /// The sequences have more than 1,048,576 nodes.
    #[error("1 TooManyNodes")]
    TooManyNodes,
    /// A memory allocation failed.
    #[error("2 NoMemory")]
    NoMemory,
}

impl From<AllocError> for BuildFault {
    ghost use Rattle.compose_tree.specs.declared.table.BuildFault.TheVariants.{NoMemory};

    ghost from_gives = { λ _ e. e ≡ NoMemory };

    fn from(_error: AllocError) -> BuildFault {
        BuildFault::NoMemory
    }
}

impl<T: Drop> From<AllocFailed<T>> for BuildFault {
    ghost use Rattle.compose_tree.specs.declared.table.BuildFault.TheVariants.{NoMemory};

    ghost from_gives = { λ _ e. e ≡ NoMemory };

    fn from(_error: AllocFailed<T>) -> BuildFault {
        BuildFault::NoMemory
    }
}

/// A compose table by its nodes and edges, in any form. No call allocates memory.
///
/// Its meaning is a list of settled definitions. The nodes are the empty list, which is the root,
/// and the proper prefixes of the sequences; the leaves are the sequences. Both are numbered in the
/// order of sequences.
pub trait ComposeTable: Sized + Drop {
    /// The definitions that are the meaning of the table.
    ghost definitions: { Self → List Definition };

    /// Returns the number of nodes, at least 1 and at most 1,048,576. O(1).
    fn node_count(&self) -> u32
        ensures count { result ≡ length (nodes (definitions self.now)) }
        ensures settled { IsSettled (definitions self.now) }
        ensures some { 1 ≤ result }
        ensures few { result ≤ max_nodes };

    /// Returns the number of leaves. O(1).
    fn leaf_count(&self) -> u32
        ensures { result ≡ length (leaves (definitions self.now)) };

    /// Returns the depth of the node: the number of keysyms that lead to it, at most 31. O(1).
    fn depth(&self, node: NodeId) -> u32
        requires { node.0 < length (nodes (definitions self.now)) }
        ensures value { result ≡ length (words.node (definitions self.now) node.0) }
        ensures few { result ≤ 31 };

    /// Returns the number of edges of the node. O(1).
    fn edge_count(&self, node: NodeId) -> u32
        requires { node.0 < length (nodes (definitions self.now)) }
        ensures { result
            ≡ length (edges (definitions self.now) (words.node (definitions self.now) node.0)) };

    /// Returns the keysym and the target of the edge at this index, counted from 0, among the
    /// node's edges, which are in increasing order of keysyms. O(1).
    fn edge(&self, node: NodeId, index: u32) -> (Keysym, Target)
        requires node_in_range { node.0 < length (nodes (definitions self.now)) }
        requires edge_in_range { index
            < length (edges (definitions self.now) (words.node (definitions self.now) node.0)) }
        ensures keysym { slice_get
            (edges (definitions self.now) (words.node (definitions self.now) node.0)) index
            ≡ Some result.0 }
        ensures target { target_of (definitions self.now)
            (words.node (definitions self.now) node.0) result.0 ≡ Some result.1 };

    /// Returns the index of the edge of this keysym among the node's edges, if the node has one.
    /// O(log edges of the node).
    fn find(&self, node: NodeId, keysym: Keysym) -> Option<u32>
        requires { node.0 < length (nodes (definitions self.now)) }
        ensures { MatchOption result
            (target_of (definitions self.now) (words.node (definitions self.now) node.0) keysym
            ≡ None)
            (λ index.
            (index
            < length
            (edges (definitions self.now)
            (words.node (definitions self.now) node.0)))
            × (slice_get
            (edges (definitions self.now)
            (words.node (definitions self.now) node.0)) index ≡ Some keysym)) };

    /// Returns the target of the edge of this keysym, if the node has one. O(log edges of the
    /// node).
    fn step(&self, node: NodeId, keysym: Keysym) -> Option<Target>
        requires { node.0 < length (nodes (definitions self.now)) }
        ensures { result
            ≡ target_of (definitions self.now) (words.node (definitions self.now) node.0) keysym };

    /// Returns the text of the leaf, at most 255 bytes. O(1).
    fn text(&self, leaf: LeafId) -> &str
        requires { leaf.0 < length (leaves (definitions self.now)) }
        ensures value { leaf_text (definitions self.now) leaf.0 ≡ Some result.now }
        ensures few { length result.now ≤ 255 };
}

/// A compose table that is built from sequences.
pub trait BuildTable: ComposeTable {
    /// Builds the table of these sequences. O(keysyms of all sequences).
    ///
    /// Errors: `TooManyNodes` if they have more than 1,048,576 nodes, or `NoMemory`.
    fn build(alloc: Global, sequences: Sequences) -> Result<Self, BuildFault>
        ensures ok { IfOk result (λ table. Self.definitions table ≡ sequences) }
        ensures few { IfOk result (λ _. length (nodes sequences) ≤ max_nodes) }
        ensures many { IfErr result
            (λ fault. fault ≡ BuildFault.TooManyNodes → max_nodes < length (nodes sequences)) };
}
