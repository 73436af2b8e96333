//! The definitions that arrays of unchecked numbers spell.
//!
//! A walk from the root, along the edges of each node in their order, comes to the leaves in the
//! order of their sequences.
ghost use Rattle.std.specs.Prelude.{◌≡◌, ◌<◌, ◌≤◌, ◌-◌, ℕ, List, [], ◌∷◌, ◌++◌, true, map, length, take, drop, Some, slice_get, IfOk, MatchOption};
ghost use Rattle.compose_model.specs.Table.{Definition};
ghost use Rattle.compose_model.specs.Nodes as model;
ghost use Rattle.compose_tree.specs.Packed.{packed_edge, texts_of};
ghost use Rattle.compose_tree.specs.Rows.{row_of};
ghost use Rattle.compose_c.specs.Arrays as words;
ghost use Rattle.compose_c.specs.Arrays.{AreOf, AreFirst, LeadsTo, sequences_from};

use compose_read::{Definitions, Draft};
use compose_tree::{PackedNode, TEXT_ENTRY, entry_text};
use keysym_core::Keysym;
use std::alloc::{AllocError, Global};

/// The greatest number of keysyms in a sequence.
const MOST_KEYSYMS: usize = 32;

/// An edge of unchecked numbers.
#[repr(C)]
#[derive(Clone, Copy)]
pub struct LooseEdge {
    /// The target, as in `PackedEdge`; it may be out of range.
    pub target: u32,
    /// The number of the keysym; it may be too large for one.
    pub keysym: u32,
}

/// Arrays of any numbers, as those of a table.
#[derive(Clone, Copy)]
pub struct LooseArrays<'t> {
    /// The nodes, and after them an entry for the end of the edges.
    pub nodes: &'t [PackedNode],
    /// The edges of all nodes.
    pub edges: &'t [LooseEdge],
    /// The entries of all texts, four bytes each.
    pub texts: &'t [u8],
    /// The texts that don't stand in their entries.
    pub long_texts: &'t [u8],
}

/// Returns the items between two indexes, if the indexes are in order and in range. O(1).
fn part<T>(items: &[T], first: usize, end: usize) -> Option<&[T]>
    ensures { first ≤ end → end ≤ length items.now
        → MatchOption result ⊥ (λ part. part.now ≡ take (end - first) (drop first items.now)) }
{
    items.get(first..end)
}

/// Returns the edges of a node. O(1).
fn edges_of<'t>(arrays: &LooseArrays<'t>, node: u32) -> Option<&'t [LooseEdge]>
    ensures { (table : List Definition) → AreOf arrays.now table
        → node < length (model.nodes table)
        → MatchOption result ⊥
        (λ edges. map words.edge_of edges.now
        ≡ map packed_edge (row_of table (model.node table node)).edges) }
{
    let number = node as usize;
    if number + 1 >= arrays.nodes.len() {
        return None;
    }
    let first = arrays.nodes[number].first as usize;
    let end = arrays.nodes[number + 1].first as usize;
    part(arrays.edges, first, end)
}

/// Returns the text of a leaf, if it is UTF-8. O(bytes).
fn text_of<'t>(arrays: &LooseArrays<'t>, leaf: usize) -> Option<&'t str>
    ensures { (table : List Definition) → AreOf arrays.now table → leaf < length table
        → MatchOption result ⊥ (λ text. slice_get (texts_of table) leaf ≡ Some text.now) }
{
    if leaf >= arrays.texts.len() / TEXT_ENTRY {
        return None;
    }
    let first = leaf * TEXT_ENTRY;
    let entry = part(arrays.texts, first, first + TEXT_ENTRY)?;
    let bytes = entry_text(entry, arrays.long_texts)?;
    match str::from_utf8(bytes) {
        Ok(text) => Some(text),
        Err(_) => None,
    }
}

/// Adds the next definition, whose sequence this is. Returns false if the arrays are not a table.
fn add_leaf(
    arrays: &LooseArrays<'_>,
    sequence: &[Keysym],
    draft: &mut Draft,
) -> Result<bool, AllocError>
    ensures { IfOk result
        (λ added. (table : List Definition) (others : List (List ℕ)) → AreOf arrays.now table
        → AreFirst table draft.old.table (sequence.now ∷ others)
        → (added ≡ true) × AreFirst table draft.new.table others) }
{
    let Some(text) = text_of(arrays, draft.len()) else {
        return Ok(false);
    };
    draft.add(sequence, text)
}

/// Adds the definitions whose sequences begin with the keysyms of `path`, which lead to this
/// target. Returns false if the arrays are not a table.
fn add_from(
    arrays: &LooseArrays<'_>,
    target: u32,
    path: &mut Vec<Keysym>,
    draft: &mut Draft,
) -> Result<bool, AllocError>
    ensures path { IfOk result (λ added. added ≡ true → path.new.items ≡ path.old.items) }
    ensures added { IfOk result
        (λ added. (table : List Definition) (others : List (List ℕ)) → AreOf arrays.now table
        → LeadsTo table path.old.items target
        → AreFirst table draft.old.table (sequences_from table path.old.items ++ others)
        → (added ≡ true) × AreFirst table draft.new.table others) }
{
    if target % 2 == 1 {
        return add_leaf(arrays, path, draft);
    }
    let depth = path.len();
    let Some(edges) = edges_of(arrays, target / 2) else {
        return Ok(false);
    };
    if depth >= MOST_KEYSYMS {
        return Ok(false);
    }
    let before = draft.len();
    for edge in edges {
        let Some(keysym) = Keysym::new(edge.keysym) else {
            return Ok(false);
        };
        path.push(keysym)?;
        if !add_from(arrays, edge.target, path, draft)? {
            return Ok(false);
        }
        path.truncate(depth);
    }
    Ok(depth == 0 || draft.len() > before)
}

/// Returns the definitions that the arrays spell, or `None` if the arrays are not a table.
/// O(keysyms of all sequences + bytes).
pub fn definitions_of(
    alloc: Global,
    arrays: &LooseArrays<'_>,
) -> Result<Option<Definitions>, AllocError>
    ensures { IfOk result
        (λ found. (table : List Definition) → AreOf arrays.now table
        → MatchOption found ⊥ (λ definitions. definitions ≡ table)) }
{
    let mut path = Vec::new(alloc);
    let mut draft = Draft::new(alloc);
    if !add_from(arrays, 0, &mut path, &mut draft)? {
        return Ok(None);
    }
    Ok(Some(draft.into_definitions()))
}
