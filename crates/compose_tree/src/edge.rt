//! An edge of a node.
use crate::table::Target;
use keysym_core::Keysym;

/// A keysym for which a node has an edge, and the edge's target.
#[derive(Clone, Copy, Debug, PartialEq, Eq)]
pub struct Edge {
    /// The keysym of the edge.
    pub keysym: Keysym,
    /// The node or the leaf to which it leads.
    pub target: Target,
}

/// An edge, and the number of its node.
#[derive(Clone, Copy)]
pub struct NodeEdge {
    /// The number of the node to which the edge belongs.
    pub node: u32,
    /// The edge.
    pub edge: Edge,
}
