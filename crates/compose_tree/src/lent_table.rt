//! The packed form of a table in borrowed memory: five arrays, which may be passed to C.
ghost use Rattle.std.specs.Prelude.{◌≡◌, ◌<◌, ◌≤◌, ℕ, List, length, map, slice_index, MatchOption, IsTrue};
ghost use Rattle.std.specs.List.Sorted.{IsStrictlyIncreasing};
ghost use Rattle.compose_tree.specs.Packed.{keys_of, packed_edge, text_entry, unpacked_target, HasLongText};

use crate::hints::{hint_at, slots};
use crate::packed::{PackedEdge, PackedNode, SHORT_TEXT, TEXT_ENTRY};
use crate::table::{ComposeTable, LeafId, NodeId, Target};
use keysym_core::Keysym;
use std::marker::Model;

/// All keysyms are below this number.
const KEYSYMS: u32 = Keysym::GREATEST + 1;

/// The arrays of a `PackedTable`, and its hints.
#[derive(Clone, Copy)]
pub struct LentArrays<'t> {
    /// The nodes, and after them an entry for the end of the edges.
    pub nodes: &'t [PackedNode],
    /// The edges of all nodes, those of one node after another.
    pub edges: &'t [PackedEdge],
    /// For each leaf four bytes: its text in UTF-8, or if that has more than three bytes, where it is
    /// in `long_texts`; and its length.
    pub texts: &'t [u8],
    /// The texts of more than three bytes, each at an even offset.
    pub long_texts: &'t [u8],
    /// The hints; see `Hints`.
    pub hints: &'t [u8],
}

/// A packed table in borrowed memory.
#[derive(Drop)]
pub struct LentTable<'t> {
    nodes: &'t [PackedNode],
    edges: &'t [PackedEdge],
    texts: &'t [u8],
    long_texts: &'t [u8],
    hints: &'t [u8],
}

impl<'t> Model for LentTable<'t> {
    ghost use Rattle.std.specs.Prelude.{List};
    ghost use Rattle.compose_model.specs.Table.{Definition};
    ghost use Rattle.compose_tree.specs.Packed.{unpacked, IsPacked};

    ghost Value = { List Definition };

    ghost view = { λ t. unpacked t.nodes.now t.edges.now t.texts.now t.long_texts.now };

    ghost invariant = { λ t. IsPacked t.nodes.now t.edges.now t.texts.now t.long_texts.now
        (unpacked t.nodes.now t.edges.now t.texts.now t.long_texts.now) };
}

/// Returns the target of a code.
fn unpack_target(code: u32) -> Target
    ensures { result ≡ unpacked_target code }
{
    if code % 2 == 0 {
        Target::Node(NodeId(code / 2))
    } else {
        Target::Leaf(LeafId(code / 2))
    }
}

/// Returns 1 if the keysym is at most the other, and else 0. This is arithmetic, since a comparison
/// would become a branch, which a search mispredicts half of the time.
fn at_most(keysym: Keysym, other: Keysym) -> usize
    ensures one { keysym ≤ other → result ≡ 1 }
    ensures zero { other < keysym → result ≡ 0 }
{
    ((other.value() + KEYSYMS - keysym.value()) / KEYSYMS) as usize
}

/// Returns the index of a keysym among edges in increasing order. O(log edges).
fn index_of(edges: &[PackedEdge], keysym: Keysym) -> Option<usize>
    requires { IsStrictlyIncreasing (keys_of edges.now) }
    ensures { MatchOption result
        ((k : ℕ) → k < length edges.now → slice_index (keys_of edges.now) k ≡ keysym → ⊥)
        (λ i. (i < length edges.now) × (slice_index (keys_of edges.now) i ≡ keysym)) }
{
    let mut first = 0;
    let mut count = edges.len();
    while count > 1 {
        let half = count / 2;
        first += half * at_most(edges[first + half].keysym, keysym);
        count -= half;
    }
    if count == 1 && edges[first].keysym == keysym {
        Some(first)
    } else {
        None
    }
}

/// Returns whether the keysym is less than those of all edges, or greater. So are most of those that
/// lead nowhere, as a letter is less than the keysyms with which sequences begin. O(1).
fn is_outside(edges: &[PackedEdge], keysym: Keysym) -> bool
    requires { IsStrictlyIncreasing (keys_of edges.now) }
    ensures { IsTrue result → (k : ℕ) → k < length edges.now
        → slice_index (keys_of edges.now) k ≡ keysym → ⊥ }
{
    let count = edges.len();
    if count == 0 {
        return true;
    }
    let value = keysym.value();
    value < edges[0].keysym.value() || edges[count - 1].keysym.value() < value
}

/// Returns whether the edge at this index is there, and has this keysym. O(1).
fn is_at(edges: &[PackedEdge], index: usize, keysym: Keysym) -> bool
    ensures { IsTrue result
        → (index < length edges.now) × (slice_index (keys_of edges.now) index ≡ keysym) }
{
    index < edges.len() && edges[index].keysym == keysym
}

/// Returns the index of a keysym among the edges of this node, which are in increasing order. O(1)
/// if one of the two hints is right or the keysym is outside of the edges, and else O(log edges).
#[inline(always)]
fn index_by_hints(edges: &[PackedEdge], hints: &[u8], node: NodeId, keysym: Keysym) -> Option<usize>
    requires { IsStrictlyIncreasing (keys_of edges.now) }
    ensures { MatchOption result
        ((k : ℕ) → k < length edges.now → slice_index (keys_of edges.now) k ≡ keysym → ⊥)
        (λ i. (i < length edges.now) × (slice_index (keys_of edges.now) i ≡ keysym)) }
{
    let (first_slot, second_slot) = slots(hints.len(), node, keysym);
    let first = hint_at(hints, first_slot);
    if is_at(edges, first, keysym) {
        return Some(first);
    }
    if is_outside(edges, keysym) {
        return None;
    }
    let second = hint_at(hints, second_slot);
    if is_at(edges, second, keysym) {
        return Some(second);
    }
    index_of(edges, keysym)
}

/// Returns the text of an entry, or `None` if it is not one. O(1).
#[inline(always)]
pub fn entry_text<'t>(entry: &'t [u8], long_texts: &'t [u8]) -> Option<&'t [u8]>
    ensures { (before : ℕ) (text : List ℕ) → entry.now ≡ text_entry before text
        → HasLongText before text long_texts.now
        → MatchOption result ⊥ (λ bytes. bytes.now ≡ text) }
{
    if entry.len() != TEXT_ENTRY {
        return None;
    }
    let count = usize::from(entry[3]);
    if count <= SHORT_TEXT {
        return entry.get(..count);
    }
    let half = usize::from(entry[0]) + 256 * usize::from(entry[1]) + 65536 * usize::from(entry[2]);
    long_texts.get(2 * half..2 * half + count)
}

impl<'t> LentTable<'t> {
    ghost use Rattle.std.specs.Prelude.{◌≡◌, ◌<◌, ◌≤◌, length, Some};
    ghost use Rattle.compose_model.specs.Nodes as model;
    ghost use Rattle.compose_read.specs.Settle.{IsSettled};
    ghost use Rattle.compose_tree.specs.Rows.{row_of};
    ghost use Rattle.compose_tree.specs.Packed.{IsPacked, unpacked};
    ghost use Rattle.compose_tree.specs.Targets.{leaf_text};

    /// Makes a table of these arrays. The hints may be any bytes. O(1).
    #[inline(always)]
    pub fn of(
        nodes: &'t [PackedNode],
        edges: &'t [PackedEdge],
        texts: &'t [u8],
        long_texts: &'t [u8],
        hints: &'t [u8],
    ) -> LentTable<'t>
        requires { IsPacked nodes.now edges.now texts.now long_texts.now
            (unpacked nodes.now edges.now texts.now long_texts.now) }
        ensures { result ≡ unpacked nodes.now edges.now texts.now long_texts.now }
    {
        LentTable {
            nodes,
            edges,
            texts,
            long_texts,
            hints,
        }
    }

    /// Returns the edges of a node. O(1).
    #[inline(always)]
    fn edges_of(&self, node: NodeId) -> &'t [PackedEdge]
        requires { node.0 < length (model.nodes self.now) }
        ensures value { result.now
            ≡ map packed_edge (row_of self.now (model.node self.now node.0)).edges }
        ensures settled { IsSettled self.now }
    {
        let number = node.0 as usize;
        let first = self.nodes[number].first as usize;
        let end = self.nodes[number + 1].first as usize;
        let (_, from_first) = self.edges.split_at(first);
        let (own, _) = from_first.split_at(end - first);
        own
    }

    /// Returns the text of the leaf, at most 255 bytes, for as long as the arrays are lent. O(1).
    #[inline(always)]
    pub(crate) fn text_of(&self, leaf: LeafId) -> &'t str
        requires { leaf.0 < length (model.leaves self.now) }
        ensures value { leaf_text self.now leaf.0 ≡ Some result.now }
        ensures few { length result.now ≤ 255 }
    {
        let (_, from_entry) = self.texts.split_at(leaf.0 as usize * TEXT_ENTRY);
        let (entry, _) = from_entry.split_at(TEXT_ENTRY);
        let Some(bytes) = entry_text(entry, self.long_texts) else {
            return "";
        };
        // each text of a table is UTF-8
        unsafe { std::str::from_utf8_unchecked(bytes) }
    }
}

impl<'t> ComposeTable for LentTable<'t> {
    ghost definitions = { λ t. t };

    #[inline(always)]
    fn node_count(&self) -> u32 {
        (self.nodes.len() - 1) as u32
    }

    #[inline(always)]
    fn leaf_count(&self) -> u32 {
        (self.texts.len() / TEXT_ENTRY) as u32
    }

    #[inline(always)]
    fn depth(&self, node: NodeId) -> u32 {
        self.nodes[node.0 as usize].depth
    }

    #[inline(always)]
    fn edge_count(&self, node: NodeId) -> u32 {
        self.edges_of(node).len() as u32
    }

    #[inline(always)]
    fn edge(&self, node: NodeId, index: u32) -> (Keysym, Target) {
        let edge = self.edges_of(node)[index as usize];
        (edge.keysym, unpack_target(edge.target))
    }

    #[inline(always)]
    fn find(&self, node: NodeId, keysym: Keysym) -> Option<u32> {
        let Some(index) = index_by_hints(self.edges_of(node), self.hints, node, keysym) else {
            return None;
        };
        Some(index as u32)
    }

    #[inline(always)]
    fn step(&self, node: NodeId, keysym: Keysym) -> Option<Target> {
        let edges = self.edges_of(node);
        let Some(index) = index_by_hints(edges, self.hints, node, keysym) else {
            return None;
        };
        Some(unpack_target(edges[index].target))
    }

    #[inline(always)]
    fn text(&self, leaf: LeafId) -> &str {
        self.text_of(leaf)
    }
}
