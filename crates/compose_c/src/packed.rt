//! Tests whether arrays of unchecked numbers are a table.
//!
//! The arrays are a table if they equal the arrays of the table of the definitions that they spell.
ghost use Rattle.std.specs.Prelude.{◌≡◌, ◌≤◌, true, false, List, length, map, get_or, IfOk, MatchOption};
ghost use Rattle.compose_model.specs.Table.{Definition};
ghost use Rattle.compose_model.specs.Nodes.{nodes};
ghost use Rattle.compose_read.specs.Settle.{IsSettled};
ghost use Rattle.compose_tree.specs.Packed.{texts_of, unpacked, AreEntries};
ghost use Rattle.compose_tree.specs.Targets.{max_nodes};
ghost use Rattle.compose_c.specs.Arrays.{AreOf, IsEntry, edge_of};

use crate::loose::{LooseArrays, LooseEdge, definitions_of};
use compose_model::Rule;
use compose_read::{Definitions, SettleFault, settle};
use compose_tree::{
    BuildFault, BuildTable, ComposeTable, LeafId, PackedEdge, PackedNode, PackedTable, TEXT_ENTRY,
};
use std::alloc::{AllocError, Global};

/// Returns the table of these definitions, or `None` if they are not settled or have too many
/// nodes.
fn table_of(alloc: Global, definitions: Definitions) -> Result<Option<PackedTable>, AllocError>
    ensures { IfOk result
        (λ found. IsSettled definitions → length (nodes definitions) ≤ max_nodes
        → MatchOption found ⊥ (λ table. table ≡ definitions)) }
{
    let sequences = match settle(alloc, definitions, Rule::Refuse) {
        Ok(sequences) => sequences,
        Err(SettleFault::NoMemory) => return Err(AllocError),
        Err(SettleFault::Overlap { .. }) => return Ok(None),
    };
    match PackedTable::build(alloc, sequences) {
        Ok(table) => Ok(Some(table)),
        Err(BuildFault::NoMemory) => Err(AllocError),
        Err(BuildFault::TooManyNodes) => Ok(None),
    }
}

/// Returns whether these are the same nodes. O(nodes).
fn same_nodes(nodes: &[PackedNode], others: &[PackedNode]) -> bool
    ensures same { result ≡ true → nodes.now ≡ others.now }
    ensures different { result ≡ false → nodes.now ≡ others.now → ⊥ }
{
    if nodes.len() != others.len() {
        return false;
    }
    for index in 0..nodes.len() {
        let (node, other) = (nodes[index], others[index]);
        if node.depth != other.depth || node.first != other.first {
            return false;
        }
    }
    true
}

/// Returns whether these are the same edges. O(edges).
fn same_edges(edges: &[PackedEdge], others: &[LooseEdge]) -> bool
    ensures same { result ≡ true → edges.now ≡ map edge_of others.now }
    ensures different { result ≡ false → edges.now ≡ map edge_of others.now → ⊥ }
{
    if edges.len() != others.len() {
        return false;
    }
    for index in 0..edges.len() {
        let (edge, other) = (edges[index], others[index]);
        if edge.keysym.value() != other.keysym || edge.target != other.target {
            return false;
        }
    }
    true
}

/// Returns whether four bytes are an entry of this text, whose length is right, and which is at the
/// place that the entry says. O(bytes).
fn is_long_entry(entry: &[u8], text: &[u8], long_texts: &[u8]) -> bool
    requires four { length entry.now ≡ 4 }
    requires count { get_or entry.now 3 0 ≡ length text.now }
    requires long { 4 ≤ length text.now }
    ensures same { result ≡ true → IsEntry entry.now text.now long_texts.now }
    ensures different { result ≡ false → IsEntry entry.now text.now long_texts.now → ⊥ }
{
    let half = usize::from(entry[0]) + 256 * usize::from(entry[1]) + 65536 * usize::from(entry[2]);
    match long_texts.get(2 * half..2 * half + text.len()) {
        Some(there) => there == text,
        None => false,
    }
}

/// Returns whether four bytes are an entry of this text: its bytes and zeros if it has at most
/// three, else a place where it is. O(bytes).
fn is_entry(entry: &[u8], text: &[u8], long_texts: &[u8]) -> bool
    requires { length entry.now ≡ 4 }
    ensures same { result ≡ true → IsEntry entry.now text.now long_texts.now }
    ensures different { result ≡ false → IsEntry entry.now text.now long_texts.now → ⊥ }
{
    if usize::from(entry[3]) != text.len() {
        return false;
    }
    match text {
        [] => entry[0] == 0 && entry[1] == 0 && entry[2] == 0,
        [a] => entry[0] == *a && entry[1] == 0 && entry[2] == 0,
        [a, b] => entry[0] == *a && entry[1] == *b && entry[2] == 0,
        [a, b, c] => entry[0] == *a && entry[1] == *b && entry[2] == *c,
        _ => is_long_entry(entry, text, long_texts),
    }
}

/// Returns whether each four bytes are an entry of the text of a leaf of the table. O(bytes).
fn are_entries(table: &PackedTable, entries: &[u8], long_texts: &[u8]) -> bool
    ensures same { result ≡ true → AreEntries entries.now (texts_of table.now) long_texts.now }
    ensures different { result ≡ false → AreEntries entries.now (texts_of table.now) long_texts.now
        → ⊥ }
{
    // The contract of this call says that the table is settled.
    let _ = table.node_count();
    let leaves = table.leaf_count();
    if entries.len() != leaves as usize * TEXT_ENTRY {
        return false;
    }
    for leaf in 0..leaves {
        let first = leaf as usize * TEXT_ENTRY;
        let entry = &entries[first..first + TEXT_ENTRY];
        if !is_entry(entry, table.text(LeafId(leaf)).as_bytes(), long_texts) {
            return false;
        }
    }
    true
}

/// Returns whether the arrays are those of the table. O(arrays).
fn are_arrays_of(table: &PackedTable, arrays: &LooseArrays<'_>) -> bool
    ensures are { result ≡ true → AreOf arrays.now table.now }
    ensures differ { result ≡ false → AreOf arrays.now table.now → ⊥ }
{
    let own = table.arrays();
    same_nodes(own.nodes, arrays.nodes)
        && same_edges(own.edges, arrays.edges)
        && own.long_texts == arrays.long_texts
        && are_entries(table, arrays.texts, arrays.long_texts)
}

/// Returns whether the arrays are a table, for `composecheck_is_table`. `Err` if memory runs out.
pub fn is_table(alloc: Global, arrays: &LooseArrays<'_>) -> Result<bool, AllocError>
    ensures packed { IfOk result (λ is. is ≡ true
        → AreOf arrays.now
        (unpacked arrays.now.nodes.now
        (map edge_of arrays.now.edges.now) arrays.now.texts.now arrays.now.long_texts.now)) }
    ensures refused { IfOk result
        (λ is. is ≡ false → (table : List Definition) → AreOf arrays.now table → ⊥) }
{
    let Some(definitions) = definitions_of(alloc, arrays)? else {
        return Ok(false);
    };
    let Some(table) = table_of(alloc, definitions)? else {
        return Ok(false);
    };
    Ok(are_arrays_of(&table, arrays))
}
