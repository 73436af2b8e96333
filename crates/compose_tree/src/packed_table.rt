//! The packed form of a table: flat arrays.
//!
//! `<a> <b> : "x"`, `<a> <c> : "yz"` and `<d> : "w"` make
//!
//! ```text
//! nodes    number   0        1        end
//!          depth    0        1
//!          first    0        2        4          index of the node's first edge
//!
//! edges    index    0        1        2        3
//!          keysym   a        d        b        c
//!          target   node 1   leaf 2   leaf 0   leaf 1
//!
//! texts    leaf     0        1        2
//!          bytes    x 0 0 1  y z 0 2  w 0 0 1          the text, and its length
//! ```
//!
//! The edges of a node are contiguous, in increasing order of keysyms, and end where those of the
//! next node begin. There are also hints for the index of each edge, two of which a search tries
//! first. The hints are no part of the table's meaning.
ghost use Rattle.std.specs.Prelude.{◌≡◌, ◌<◌, ◌≤◌, ◌+◌, ◌*◌, ◌++◌, ℕ, List, length, IfOk, OnOk, IsTrue};
ghost use Rattle.std.specs.List.{list_all};
ghost use Rattle.std.specs.Str.{is_utf8};
ghost use Rattle.compose_tree.specs.Rows.{counts_of, gathered_rows, target_number, AreAtNodes, HaveNumbersBelow};
ghost use Rattle.compose_tree.specs.Packed as words;
ghost use Rattle.compose_tree.specs.Packed.{packed_edge, packed_target, packed_nodes, packed_edges, different_long, kept_texts, long_text, long_texts, texts_of, with_kept, AreEntries, AreKept, HasLongText};

use crate::edge::{Edge, NodeEdge};
use crate::hints::Hints;
use crate::lent_table::{LentArrays, LentTable};
use crate::packed::{PackedEdge, PackedNode, SHORT_TEXT, TEXT_ENTRY};
use crate::rows::build_rows;
use crate::table::{BuildFault, BuildTable, ComposeTable, LeafId, NodeId, Target};
use compose_read::Sequences;
use indexmap::IndexMap;
use keysym_core::Keysym;
use std::alloc::{AllocError, Global};
use std::marker::Model;

/// A table as flat arrays: 8 bytes per node, 10 bytes per edge (2 of them hints), 4 bytes per
/// leaf, and each text of more than three bytes once.
#[derive(Drop)]
pub struct PackedTable {
    nodes: Vec<PackedNode>,
    edges: Vec<PackedEdge>,
    texts: Vec<u8>,
    long_texts: Vec<u8>,
    hints: Hints,
}

impl Model for PackedTable {
    ghost use Rattle.std.specs.Prelude.{◌≡◌, ◌*◌, List, length};
    ghost use Rattle.compose_model.specs.Table.{Definition};
    ghost use Rattle.compose_tree.specs.Packed.{unpacked, IsPacked};

    ghost Value = { List Definition };

    ghost view = { λ t. unpacked t.nodes.items t.edges.items t.texts.items t.long_texts.items };

    ghost invariant = { λ t. IsPacked t.nodes.items t.edges.items t.texts.items t.long_texts.items
        (unpacked t.nodes.items t.edges.items t.texts.items t.long_texts.items)
        × (length t.hints ≡ 2 * length t.edges.items) };
}

/// Returns the code of a target. There is no branch on the kind of target, since it would often be
/// mispredicted.
fn pack_target(target: Target) -> u32
    requires { target_number target < 2147483648 }
    ensures { result ≡ packed_target target }
{
    let (number, leaf) = match target {
        Target::Node(node) => (node.0, 0),
        Target::Leaf(leaf) => (leaf.0, 1),
    };
    number * 2 + leaf
}

/// Returns the number of edges of each of these nodes.
fn count_edges(alloc: Global, depths: &[u32], edges: &[NodeEdge]) -> Result<Vec<u32>, AllocError>
    requires at_nodes { AreAtNodes (length depths.now) edges.now }
    requires few { length edges.now < 4294967296 }
    ensures { IfOk result (λ counts. counts.items ≡ counts_of (gathered_rows 0 depths.now edges.now)) }
{
    let mut counts = vec![in alloc; 0; depths.len()]?;
    for edge in edges {
        let node = edge.node as usize;
        counts[node] += 1;
    }
    Ok(counts)
}

/// Returns for each node its depth and the offset of its first edge, and after them the end of the
/// edges.
fn pack_nodes(
    alloc: Global,
    depths: &[u32],
    edges: &[NodeEdge],
) -> Result<Vec<PackedNode>, AllocError>
    requires at_nodes { AreAtNodes (length depths.now) edges.now }
    requires few { length edges.now < 4294967296 }
    ensures { IfOk result
        (λ nodes. nodes.items ≡ packed_nodes 0 (gathered_rows 0 depths.now edges.now)) }
{
    let counts = count_edges(alloc, depths, edges)?;
    let mut nodes = Vec::with_capacity(alloc, depths.len().saturating_add(1))?;
    let mut offset = 0;
    for index in 0..depths.len() {
        nodes.push(PackedNode {
            depth: depths[index],
            first: offset,
        })?;
        offset += counts[index];
    }
    nodes.push(PackedNode {
        depth: 0,
        first: offset,
    })?;
    Ok(nodes)
}

/// Returns the packed edge.
fn pack_edge(edge: Edge) -> PackedEdge
    requires { target_number edge.target < 2147483648 }
    ensures { result ≡ packed_edge edge }
{
    PackedEdge {
        keysym: edge.keysym,
        target: pack_target(edge.target),
    }
}

/// Returns the edges of all nodes, each put at its node's next free offset. Notes in the hints the
/// index of each edge among its node's edges.
fn pack_edges(
    alloc: Global,
    nodes: &[PackedNode],
    depths: &[u32],
    edges: &[NodeEdge],
    hints: &mut Hints,
) -> Result<Vec<PackedEdge>, AllocError>
    requires at_nodes { AreAtNodes (length depths.now) edges.now }
    requires numbers { HaveNumbersBelow 2147483648 edges.now }
    requires nodes { nodes.now ≡ packed_nodes 0 (gathered_rows 0 depths.now edges.now) }
    ensures edges { IfOk result
        (λ packed. packed.items ≡ packed_edges (gathered_rows 0 depths.now edges.now)) }
    ensures hints { length hints.new ≡ length hints.old }
{
    let blank = PackedEdge {
        keysym: Keysym::default(),
        target: 0,
    };
    let mut packed = vec![in alloc; blank; nodes[depths.len()].first as usize]?;
    let mut counts = vec![in alloc; 0; depths.len()]?;
    for edge in edges {
        let node = edge.node as usize;
        let count = counts[node];
        let offset = nodes[node].first as usize + count;
        hints.note(NodeId(edge.node), edge.edge.keysym, count);
        packed[offset] = pack_edge(edge.edge);
        counts[node] = count + 1;
    }
    Ok(packed)
}

/// Returns the entry of a text, if the long ones before it take this number of bytes.
fn text_entry(before: usize, text: &[u8]) -> [u8; TEXT_ENTRY]
    requires few { before < 33554432 }
    requires short { length text.now ≤ 255 }
    ensures { result ≡ words.text_entry before text.now }
{
    match text {
        [] => [0, 0, 0, 0],
        [a] => [*a, 0, 0, 1],
        [a, b] => [*a, *b, 0, 2],
        [a, b, c] => [*a, *b, *c, 3],
        _ => [
            (before / 2 % 256) as u8,
            (before / 512 % 256) as u8,
            (before / 131072) as u8,
            text.len() as u8,
        ],
    }
}

/// Adds a text to the long ones, if it is one, and a zero behind it if its length is odd.
fn push_long(long_texts: &mut Vec<u8>, text: &[u8]) -> Result<(), AllocError>
    ensures { OnOk result (long_texts.new.items ≡ long_texts.old.items ++ long_text text.now) }
{
    if text.len() <= SHORT_TEXT {
        return Ok(());
    }
    long_texts.extend_from_slice(text)?;
    if text.len() % 2 == 1 {
        long_texts.push(0)?;
    }
    Ok(())
}

/// Texts of more than three bytes, one after another, and where each of them stands.
#[derive(Drop)]
struct LongTexts<'s> {
    bytes: Vec<u8>,
    places: IndexMap<&'s str, usize>,
}

/// Returns after how many bytes a text stands among the long ones. It is added if it is a long one,
/// and no equal text is there; for a short one 0 is returned. O(bytes), by its hash.
fn place_of<'s>(long_texts: &mut LongTexts<'s>, text: &'s str) -> Result<usize, AllocError>
    requires { AreKept long_texts.old.places.entries long_texts.old.bytes.items }
    ensures kept { OnOk result (AreKept long_texts.new.places.entries long_texts.new.bytes.items) }
    ensures texts { OnOk result
        (kept_texts long_texts.new.places.entries
        ≡ with_kept (kept_texts long_texts.old.places.entries) text.now) }
    ensures place { IfOk result (λ place. HasLongText place text.now long_texts.new.bytes.items) }
    ensures within { IfOk result (λ place. place ≤ length long_texts.new.bytes.items) }
    ensures others { OnOk result
        ((more : List ℕ) × (long_texts.new.bytes.items ≡ long_texts.old.bytes.items ++ more)
        × (length more ≤ length text.now + 1)) }
{
    if text.len() <= SHORT_TEXT {
        return Ok(0);
    }
    if let Some(place) = long_texts.places.get(text) {
        return Ok(*place);
    }
    let place = long_texts.bytes.len();
    push_long(&mut long_texts.bytes, text.as_bytes())?;
    long_texts.places.insert(text, place)?;
    Ok(place)
}

/// Returns the entries of all texts, and the long ones, each kept once.
fn pack_texts(alloc: Global, sequences: &Sequences) -> Result<(Vec<u8>, Vec<u8>), AllocError>
    ensures entries { IfOk result
        (λ packed. AreEntries packed.0.items (texts_of sequences.now) packed.1.items) }
    ensures long { IfOk result
        (λ packed. packed.1.items ≡ long_texts (different_long (texts_of sequences.now))) }
    ensures utf8 { IfOk result (λ _. IsTrue (list_all is_utf8 (texts_of sequences.now))) }
{
    let mut entries = Vec::with_capacity(alloc, sequences.len().saturating_mul(TEXT_ENTRY))?;
    let mut long_texts = LongTexts {
        bytes: Vec::new(alloc),
        places: IndexMap::new(alloc),
    };
    for index in 0..sequences.len() {
        let text = sequences.text(index);
        let place = place_of(&mut long_texts, text)?;
        entries.extend_from_slice(&text_entry(place, text.as_bytes()))?;
    }
    long_texts.bytes.shrink_to_fit();
    Ok((entries, long_texts.bytes))
}

/// Makes a table of these arrays, which are those of the sequences.
fn from_arrays(
    sequences: &Sequences,
    nodes: Vec<PackedNode>,
    edges: Vec<PackedEdge>,
    texts: Vec<u8>,
    long_texts: Vec<u8>,
    hints: Hints,
) -> PackedTable
    requires packed { words.IsPacked nodes.items edges.items texts.items long_texts.items
        sequences.now }
    requires hints { length hints ≡ 2 * length edges.items }
    ensures { result ≡ sequences.now }
{
    // Only the contract refers to them.
    let _ = sequences;
    PackedTable {
        nodes,
        edges,
        texts,
        long_texts,
        hints,
    }
}

impl PackedTable {
    ghost use Rattle.std.specs.Prelude.{◌≡◌, ◌*◌, length};
    ghost use Rattle.compose_tree.specs.Packed.{unpacked};

    /// Returns its arrays. O(1).
    #[inline(always)]
    pub fn arrays(&self) -> LentArrays<'_>
        ensures value { unpacked result.nodes.now result.edges.now result.texts.now
            result.long_texts.now ≡ self.now }
        ensures packed { words.IsPacked result.nodes.now result.edges.now result.texts.now
            result.long_texts.now self.now }
        ensures hints { length result.hints.now ≡ 2 * length result.edges.now }
    {
        LentArrays {
            nodes: self.nodes.as_slice(),
            edges: self.edges.as_slice(),
            texts: self.texts.as_slice(),
            long_texts: self.long_texts.as_slice(),
            hints: self.hints.bytes(),
        }
    }

    /// Returns the table in its arrays, by which it is read. O(1).
    #[inline(always)]
    fn lent(&self) -> LentTable<'_>
        ensures { result ≡ self.now }
    {
        let arrays = self.arrays();
        LentTable::of(
            arrays.nodes,
            arrays.edges,
            arrays.texts,
            arrays.long_texts,
            arrays.hints,
        )
    }
}

impl ComposeTable for PackedTable {
    ghost definitions = { λ t. t };

    #[inline(always)]
    fn node_count(&self) -> u32 {
        self.lent().node_count()
    }

    #[inline(always)]
    fn leaf_count(&self) -> u32 {
        self.lent().leaf_count()
    }

    #[inline(always)]
    fn depth(&self, node: NodeId) -> u32 {
        self.lent().depth(node)
    }

    #[inline(always)]
    fn edge_count(&self, node: NodeId) -> u32 {
        self.lent().edge_count(node)
    }

    #[inline(always)]
    fn edge(&self, node: NodeId, index: u32) -> (Keysym, Target) {
        self.lent().edge(node, index)
    }

    #[inline(always)]
    fn find(&self, node: NodeId, keysym: Keysym) -> Option<u32> {
        self.lent().find(node, keysym)
    }

    #[inline(always)]
    fn step(&self, node: NodeId, keysym: Keysym) -> Option<Target> {
        self.lent().step(node, keysym)
    }

    #[inline(always)]
    fn text(&self, leaf: LeafId) -> &str {
        self.lent().text_of(leaf)
    }
}

impl BuildTable for PackedTable {
    fn build(alloc: Global, sequences: Sequences) -> Result<Self, BuildFault> {
        let rows = build_rows(alloc, &sequences)?;
        let (depths, node_edges) = rows.parts();
        let nodes = pack_nodes(alloc, depths, node_edges)?;
        let mut hints = Hints::new(alloc, node_edges.len())?;
        let edges = pack_edges(alloc, &nodes, depths, node_edges, &mut hints)?;
        let (texts, long_texts) = pack_texts(alloc, &sequences)?;
        Ok(from_arrays(&sequences, nodes, edges, texts, long_texts, hints))
    }
}
