//! The plain form of a table: its sequences, and for each node a row of edges.
ghost use Rattle.std.specs.Prelude.{◌≡◌, ◌<◌, ◌++◌, ℕ, [], ◌∷◌, length, nat_eq, option_map, slice_index, MatchOption, OnOk, IfOk};
ghost use Rattle.std.specs.List.{find};
ghost use Rattle.compose_tree.specs.Rows.{keysyms_of, with_edge, gathered_rows, AreAtNodes};

use crate::edge::{Edge, NodeEdge};
use crate::rows::build_rows;
use crate::table::{BuildFault, BuildTable, ComposeTable, LeafId, NodeId, Target};
use compose_read::Sequences;
use keysym_core::Keysym;
use std::alloc::{AllocError, Global};
use std::marker::Model;

/// A node: its depth, and its edges in increasing order of keysyms.
#[derive(Drop)]
struct Row {
    depth: u32,
    edges: Vec<Edge>,
}

impl Model for Row {
    ghost use Rattle.compose_tree.specs.Rows.{NodeRow};

    ghost Value = { NodeRow };

    ghost view = { λ r. record { depth = r.depth; edges = r.edges.items } };
}

impl Row {
    /// Returns the depth of the node: the number of keysyms that lead to it. O(1).
    fn depth(&self) -> u32
        ensures { result ≡ self.now.depth }
    {
        self.depth
    }

    /// Returns its edges in increasing order of keysyms. O(1).
    fn edges(&self) -> &[Edge]
        ensures { result.now ≡ self.now.edges }
    {
        self.edges.as_slice()
    }

    fn push(&mut self, edge: Edge) -> Result<(), AllocError>
        ensures ok { OnOk result
            (self.new ≡ record { depth = self.old.depth; edges = self.old.edges ++ edge ∷ [] }) }
    {
        self.edges.push(edge)?;
        Ok(())
    }
}

/// A table as rows of nodes, together with the sequences. Its `find` and `step` are linear scans,
/// O(edges of the node).
#[derive(Drop)]
pub struct ListTable {
    sequences: Sequences,
    rows: Vec<Row>,
}

impl Model for ListTable {
    ghost use Rattle.std.specs.Prelude.{◌≡◌, ◌≤◌, ◌<◌, List, length};
    ghost use Rattle.compose_model.specs.Table.{Definition};
    ghost use Rattle.compose_model.specs.Nodes.{nodes};
    ghost use Rattle.compose_read.specs.Read.{max_definitions};
    ghost use Rattle.compose_read.specs.Settle.{IsSettled};
    ghost use Rattle.compose_tree.specs.Targets.{max_nodes};
    ghost use Rattle.compose_tree.specs.Rows.{rows_of};

    ghost Value = { List Definition };

    ghost view = { λ t. t.sequences };

    ghost invariant = { λ t. IsSettled t.sequences × (t.rows.items ≡ rows_of t.sequences)
        × (length (nodes t.sequences) ≤ max_nodes) × (length t.sequences ≤ max_definitions) };
}

/// Returns a row without edges for each depth.
fn open_rows(alloc: Global, depths: &[u32]) -> Result<Vec<Row>, AllocError>
    ensures { IfOk result (λ rows. rows.items ≡ gathered_rows 0 depths.now []) }
{
    let mut rows = Vec::with_capacity(alloc, depths.len())?;
    for depth in depths {
        rows.push(Row {
            depth: *depth,
            edges: Vec::new(alloc),
        })?;
    }
    Ok(rows)
}

/// Adds the edge to a node.
fn push_edge(rows: &mut Vec<Row>, node: u32, edge: Edge) -> Result<(), AllocError>
    requires { node < length rows.old.items }
    ensures { OnOk result (rows.new.items ≡ with_edge rows.old.items node edge) }
{
    rows[node as usize].push(edge)
}

/// Returns the rows of nodes of these depths, with these edges.
fn list_rows(alloc: Global, depths: &[u32], edges: &[NodeEdge]) -> Result<Vec<Row>, AllocError>
    requires { AreAtNodes (length depths.now) edges.now }
    ensures { IfOk result (λ rows. rows.items ≡ gathered_rows 0 depths.now edges.now) }
{
    let mut rows = open_rows(alloc, depths)?;
    for node_edge in edges {
        push_edge(&mut rows, node_edge.node, node_edge.edge)?;
    }
    Ok(rows)
}

/// Returns the target of the edge of this keysym, if it is among these.
fn target_in(edges: &[Edge], keysym: Keysym) -> Option<Target>
    ensures { result ≡ option_map (λ e. e.target) (find (λ e. nat_eq e.keysym keysym) edges.now) }
{
    for edge in edges {
        if edge.keysym == keysym {
            return Some(edge.target);
        }
    }
    None
}

/// Returns the index of a keysym among a node's edges. O(edges).
fn index_in(edges: &[Edge], keysym: Keysym) -> Option<usize>
    ensures { MatchOption result
        ((k : ℕ) → k < length edges.now → slice_index (keysyms_of edges.now) k ≡ keysym → ⊥)
        (λ i. (i < length edges.now) × (slice_index (keysyms_of edges.now) i ≡ keysym)) }
{
    for (index, edge) in edges.iter().enumerate() {
        if edge.keysym == keysym {
            return Some(index);
        }
    }
    None
}

impl ListTable {
    ghost use Rattle.std.specs.Prelude.{◌<◌, length};
    ghost use Rattle.compose_model.specs.Nodes as words;
    ghost use Rattle.compose_read.specs.Settle.{IsSettled};
    ghost use Rattle.compose_tree.specs.Rows.{row_of};

    fn row(&self, node: NodeId) -> &Row
        requires { node.0 < length (words.nodes self.now) }
        ensures value { result.now ≡ row_of self.now (words.node self.now node.0) }
        ensures settled { IsSettled self.now }
    {
        &self.rows[node.0 as usize]
    }
}

impl ComposeTable for ListTable {
    ghost definitions = { λ t. t };

    fn node_count(&self) -> u32 {
        self.rows.len() as u32
    }

    fn leaf_count(&self) -> u32 {
        self.sequences.len() as u32
    }

    fn depth(&self, node: NodeId) -> u32 {
        self.row(node).depth()
    }

    fn edge_count(&self, node: NodeId) -> u32 {
        self.row(node).edges().len() as u32
    }

    fn edge(&self, node: NodeId, index: u32) -> (Keysym, Target) {
        let edge = self.row(node).edges()[index as usize];
        (edge.keysym, edge.target)
    }

    fn find(&self, node: NodeId, keysym: Keysym) -> Option<u32> {
        let Some(index) = index_in(self.row(node).edges(), keysym) else {
            return None;
        };
        Some(index as u32)
    }

    fn step(&self, node: NodeId, keysym: Keysym) -> Option<Target> {
        target_in(self.row(node).edges(), keysym)
    }

    fn text(&self, leaf: LeafId) -> &str {
        self.sequences.text(leaf.0 as usize)
    }
}

impl BuildTable for ListTable {
    fn build(alloc: Global, sequences: Sequences) -> Result<Self, BuildFault> {
        let flat = build_rows(alloc, &sequences)?;
        let (depths, edges) = flat.parts();
        let rows = list_rows(alloc, depths, edges)?;
        Ok(ListTable { sequences, rows })
    }
}
