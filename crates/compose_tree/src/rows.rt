//! The rows of a table, built in one pass over its settled sequences.
//!
//! The sequences are in increasing order, so each shares its longest prefix with the one before it.
//! The path of nodes to the last sequence is kept. A sequence adds one edge where it leaves that
//! path, and one node for each of its keysyms after that edge. All edges go into one list, together
//! with their nodes: no node has a vector of its own.
ghost use Rattle.std.specs.Prelude.{◌≡◌, ◌<◌, ◌≤◌, ◌+◌, ◌++◌, ℕ, List, [], ◌∷◌, length, take, drop, Some, slice_get, slice_set, get_or, OnOk, OnErr, IfOk, IfErr};
ghost use Rattle.compose_model.specs.Table.{Definition};
ghost use Rattle.compose_model.specs.Nodes.{nodes};
ghost use Rattle.compose_read.specs.Read.{max_definitions};
ghost use Rattle.compose_read.specs.Settle.{IsSettled};
ghost use Rattle.compose_tree.specs.Targets.{max_nodes};
ghost use Rattle.compose_tree.specs.Rows as words;
ghost use Rattle.compose_tree.specs.Rows.{rows_of, row_at, with_edge, new_rows, next_target, path_of, sequence_at, shared_with_last, counted};

use crate::edge::{Edge, NodeEdge};
use crate::table::{BuildFault, LeafId, NodeId, Target};
use compose_read::Sequences;
use keysym_core::Keysym;
use std::alloc::{AllocError, Global};
use std::marker::Model;

/// The largest number of nodes that a table may have.
pub const MAX_NODES: usize = 1_048_576;

/// The rows of the nodes as flat lists: the depth of each node, and the edges of all nodes in the
/// order in which the sequences add them.
#[derive(Drop)]
pub struct Rows {
    depths: Vec<u32>,
    edges: Vec<NodeEdge>,
}

impl Model for Rows {
    ghost use Rattle.std.specs.Prelude.{List, length};
    ghost use Rattle.compose_tree.specs.Rows.{NodeRow, gathered_rows, AreAtNodes};

    ghost Value = { List NodeRow };

    ghost view = { λ r. gathered_rows 0 r.depths.items r.edges.items };

    ghost invariant = { λ r. AreAtNodes (length r.depths.items) r.edges.items };
}

impl Rows {
    ghost use Rattle.std.specs.Prelude.{◌≡◌, ◌<◌, ◌++◌, [], ◌∷◌, length, OnOk, IfOk};
    ghost use Rattle.compose_tree.specs.Rows.{rows_of, with_edge, gathered_rows, AreAtNodes};

    /// Makes the row of the root alone, with room for two edges per sequence. O(1).
    fn root(alloc: Global, sequence_count: usize) -> Result<Rows, AllocError>
        ensures { IfOk result (λ rows. rows ≡ rows_of []) }
    {
        Ok(Rows {
            depths: vec![in alloc; 0; 1]?,
            edges: Vec::with_capacity(alloc, sequence_count.saturating_mul(2))?,
        })
    }

    /// Returns the number of rows. O(1).
    fn len(&self) -> usize
        ensures { result ≡ length self.now }
    {
        self.depths.len()
    }

    /// Returns the depth of each node, and the edges with their nodes; those of each node are in
    /// increasing order of keysyms. O(1).
    pub fn parts(&self) -> (&[u32], &[NodeEdge])
        ensures rows { gathered_rows 0 result.0.now result.1.now ≡ self.now }
        ensures at_nodes { AreAtNodes (length result.0.now) result.1.now }
    {
        (self.depths.as_slice(), self.edges.as_slice())
    }

    /// Adds a row with one edge after the others.
    fn open(&mut self, depth: u32, edge: Edge) -> Result<(), AllocError>
        requires { length self.old < 4294967296 }
        ensures { OnOk result
            (self.new ≡ self.old ++ record { depth = depth; edges = edge ∷ [] } ∷ []) }
    {
        let node = self.depths.len() as u32;
        self.depths.push(depth)?;
        self.edges.push(NodeEdge { node, edge })?;
        Ok(())
    }

    /// Adds an edge after the others of its node.
    fn push_edge(&mut self, node: u32, edge: Edge) -> Result<(), AllocError>
        requires { node < length self.old }
        ensures { OnOk result (self.new ≡ with_edge self.old node edge) }
    {
        self.edges.push(NodeEdge { node, edge })?;
        Ok(())
    }
}

/// Returns the length of the longest common prefix of two lists.
fn shared_prefix(one: &[Keysym], other: &[Keysym]) -> usize
    ensures { result ≡ words.shared one.now other.now }
{
    let mut count = 0;
    while count < one.len() && count < other.len() && one[count] == other[count] {
        count += 1;
    }
    count
}

/// Returns the sequence at this index.
fn sequence_of(sequences: &Sequences, index: usize) -> &[Keysym]
    requires { index < length sequences.now }
    ensures { result.now ≡ sequence_at sequences.now index }
{
    sequences.sequence(index)
}

/// Returns the target of the edge of the keysym at this index of the sequence: the leaf after the
/// last keysym, else the node.
fn target_at(sequence: &[Keysym], index: usize, node: u32, leaf: u32) -> Target
    requires { index < length sequence.now }
    ensures { result ≡ next_target node leaf (drop (index + 1) sequence.now) }
{
    if index + 1 == sequence.len() {
        Target::Leaf(LeafId(leaf))
    } else {
        Target::Node(NodeId(node))
    }
}

/// Opens a node for each keysym of the sequence from this depth on.
fn open_nodes(
    rows: &mut Rows,
    path: &mut Vec<u32>,
    sequence: &[Keysym],
    from: usize,
    leaf: u32,
) -> Result<(), AllocError>
    requires few { length rows.old + length sequence.now < 2147483648 }
    ensures rows { OnOk result
        (rows.new ≡ rows.old ++ new_rows (length rows.old) leaf from (drop from sequence.now)) }
    ensures path { OnOk result
        (path.new.items ≡ path.old.items ++ counted (length rows.old) (drop from sequence.now)) }
{
    for depth in from..sequence.len() {
        let node = rows.len() as u32;
        let edge = Edge {
            keysym: sequence[depth],
            target: target_at(sequence, depth, node + 1, leaf),
        };
        rows.open(depth as u32, edge)?;
        path.push(node)?;
    }
    Ok(())
}

/// Adds to the rows the sequence at this index. It shares its first `shared` keysyms with the
/// sequence before it, and the rows are those of all sequences before it.
fn add_sequence(
    rows: &mut Rows,
    path: &mut Vec<u32>,
    sequences: &Sequences,
    sequence: &[Keysym],
    shared: usize,
    index: u32,
) -> Result<(), BuildFault>
    requires settled { IsSettled sequences.now }
    requires in_range { index < length sequences.now }
    requires rows { rows.old ≡ rows_of (take index sequences.now) }
    requires path { path.old.items ≡ path_of (take index sequences.now) }
    requires sequence { sequence.now ≡ sequence_at sequences.now index }
    requires shared { shared
        ≡ shared_with_last (take index sequences.now) (sequence_at sequences.now index) }
    requires below { shared < length sequence.now }
    requires few { length rows.old ≤ max_nodes }
    ensures rows { OnOk result (rows.new ≡ rows_of (take (index + 1) sequences.now)) }
    ensures path { OnOk result (path.new.items ≡ path_of (take (index + 1) sequences.now)) }
    ensures few { OnOk result (length rows.new ≤ max_nodes) }
    ensures many { IfErr result
        (λ fault. fault ≡ BuildFault.TooManyNodes → max_nodes < length (nodes sequences.now)) }
{
    let _ = sequences;
    let opened = sequence.len() - (shared + 1);
    if opened > MAX_NODES - rows.len() {
        return Err(BuildFault::TooManyNodes);
    }
    let edge = Edge {
        keysym: sequence[shared],
        target: target_at(sequence, shared, rows.len() as u32, index),
    };
    rows.push_edge(path[shared], edge)?;
    path.truncate(shared + 1);
    open_nodes(rows, path, sequence, shared + 1, index)?;
    Ok(())
}

/// Builds the rows of the sequences, one for each node. O(keysyms of all sequences).
///
/// Errors: `TooManyNodes` if there are more than 1,048,576 nodes, or `NoMemory`.
pub fn build_rows(alloc: Global, sequences: &Sequences) -> Result<Rows, BuildFault>
    ensures rows { IfOk result (λ rows. rows ≡ rows_of sequences.now) }
    ensures few { IfOk result (λ _. length (nodes sequences.now) ≤ max_nodes) }
    ensures leaves { length sequences.now ≤ max_definitions }
    ensures settled { IsSettled sequences.now }
    ensures many { IfErr result
        (λ fault. fault ≡ BuildFault.TooManyNodes → max_nodes < length (nodes sequences.now)) }
{
    let count = sequences.len();
    let mut rows = Rows::root(alloc, count)?;
    let mut path = vec![in alloc; 0u32; 1]?;
    let mut previous: &[Keysym] = &[];
    for index in 0..count as u32 {
        let sequence = sequence_of(sequences, index as usize);
        let shared = shared_prefix(previous, sequence);
        add_sequence(&mut rows, &mut path, sequences, sequence, shared, index)?;
        previous = sequence;
    }
    Ok(rows)
}
