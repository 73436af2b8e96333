//! The leaves of a table by their texts.
ghost use Rattle.std.specs.Prelude.{◌≡◌, ◌<◌, ◌++◌, List, ℕ, map, filter, bytes_eq, OnOk, IfOk};
ghost use Rattle.std.specs.Borrow.{Bor};
ghost use Rattle.std.specs.Cmp.Lexicographic.{slice_cmp};
ghost use Rattle.std.specs.Ordering.{nat_cmp};
ghost use Rattle.std.specs.List.Sorted.{IsSortedByKey, IsPermutation};
ghost use Rattle.indexmap.specs.IndexSet.{contains_by};
ghost use Rattle.compose_lookup.specs.TextIndex.{by_length, giving_one, has_text, is_among, of_length, text_of};

use crate::lengths::sequence_lengths;
use compose_tree::{ComposeTable, LeafId};
use indexmap::IndexSet;
use std::alloc::{AllocError, Global};
use std::marker::Model;

/// The greatest number of keys in a sequence.
const MAX_KEYS: u32 = 32;

/// The leaves of a table that give some texts, in the order of these texts, and those of one text
/// by the lengths of their sequences and then in order: 4 bytes per leaf.
#[derive(Drop)]
pub struct TextIndex {
    leaves: Vec<LeafId>,
}

impl Model for TextIndex {
    ghost use Rattle.std.specs.Prelude.{List};
    ghost use Rattle.compose_tree.specs.declared.table.LeafId.{LeafId};

    ghost Value = { List LeafId };

    ghost view = { λ t. t.leaves.items };
}

impl TextIndex {
    ghost use Rattle.std.specs.Prelude.{◌≡◌, ℕ, List, IsTrue, map, IfOk};
    ghost use Rattle.std.specs.List.{All};
    ghost use Rattle.compose_lookup.specs.Lookup.{giving, shortest_first};
    ghost use Rattle.compose_lookup.specs.TextIndex.{sequence_at, is_among, IsLeaf, IsTextIndex};

    /// Builds the index of the leaves that give one of these texts in this table.
    /// `Err(AllocError)` if memory runs out. O(texts + edges + m log m) for m such leaves.
    pub fn of_texts<T: ComposeTable>(
        alloc: Global,
        table: &T,
        texts: &[&str],
    ) -> Result<TextIndex, AllocError>
        ensures { IfOk result
            (λ index. (text : List ℕ) → IsTrue (is_among (map (λ t. t.now) texts.now) text)
            → IsTextIndex (T.definitions table.now) text index) }
    {
        if texts.is_empty() {
            return Ok(TextIndex {
                leaves: Vec::new(alloc),
            });
        }
        // The contract of this call says that the table is settled.
        let _ = table.node_count();
        let asked = set_of(alloc, texts)?;
        let giving = leaves_giving(alloc, table, &asked)?;
        let lengths = sequence_lengths(alloc, table)?;
        let mut leaves = leaves_by_length(alloc, &lengths, &giving)?;
        sort_by_text(table, &mut leaves)?;
        Ok(TextIndex { leaves })
    }

    /// Returns the leaves of all sequences that give the text, one of those of the index, in the
    /// table from which the index was built: the shortest first, and those of the same length in
    /// order. O(log m) comparisons of texts for the m leaves of the index.
    pub fn leaves_with<T: ComposeTable>(&self, table: &T, text: &str) -> &[LeafId]
        requires { IsTextIndex (T.definitions table.now) text.now self.now }
        ensures sequences { map (sequence_at (T.definitions table.now)) result.now
            ≡ shortest_first (giving (T.definitions table.now) text.now) }
        ensures in_table { All (IsLeaf (T.definitions table.now)) result.now }
    {
        with_text(table, self.leaves.as_slice(), text)
    }
}

/// Returns the set of these texts. O(bytes).
fn set_of<'t>(alloc: Global, texts: &[&'t str]) -> Result<IndexSet<&'t str>, AllocError>
    ensures { IfOk result
        (λ set. (q : Bor (List ℕ))
        → contains_by (λ k. bytes_eq q.now k.now) set
        ≡ is_among (map (λ t. t.now) texts.now) q.now) }
{
    let mut set = IndexSet::new(alloc);
    for text in texts {
        set.insert(*text)?;
    }
    Ok(set)
}

/// Returns the leaves of the table that give one of the texts, by their numbers. O(leaves).
fn leaves_giving<T: ComposeTable>(
    alloc: Global,
    table: &T,
    asked: &IndexSet<&str>,
) -> Result<Vec<LeafId>, AllocError>
    ensures { (texts : List (List ℕ))
        → ((q : Bor (List ℕ))
        → contains_by (λ k. bytes_eq q.now k.now) asked.now ≡ is_among texts q.now)
        → IfOk result (λ leaves. leaves.items ≡ giving_one (T.definitions table.now) texts) }
{
    let mut leaves = Vec::new(alloc);
    for number in 0..table.leaf_count() {
        if asked.contains(text_of(table, LeafId(number))) {
            leaves.push(LeafId(number))?;
        }
    }
    Ok(leaves)
}

/// Appends those of these leaves whose sequences have this number of keys. O(leaves).
fn push_of_length(
    leaves: &mut Vec<LeafId>,
    lengths: &[u32],
    these: &[LeafId],
    keys: u32,
) -> Result<(), AllocError>
    requires some { 0 < keys }
    ensures { OnOk result
        (leaves.new.items ≡ leaves.old.items ++ of_length lengths.now these.now keys) }
{
    for leaf in these {
        if lengths.get(leaf.0 as usize) == Some(&keys) {
            leaves.push(*leaf)?;
        }
    }
    Ok(())
}

/// Returns these leaves by the lengths of their sequences, the shortest first. O(leaves).
fn leaves_by_length(
    alloc: Global,
    lengths: &[u32],
    these: &[LeafId],
) -> Result<Vec<LeafId>, AllocError>
    ensures { IfOk result (λ leaves. leaves.items ≡ by_length lengths.now these.now) }
{
    let mut leaves = Vec::with_capacity(alloc, these.len())?;
    for keys in 1..MAX_KEYS + 1 {
        push_of_length(&mut leaves, lengths, these, keys)?;
    }
    Ok(leaves)
}

/// Returns the text of the leaf, or nothing if the table doesn't have it. O(1).
pub fn text_of<'t, T: ComposeTable>(table: &'t T, leaf: LeafId) -> &'t str
    ensures { result.now ≡ text_of (T.definitions table.now) leaf }
{
    if leaf.0 < table.leaf_count() {
        table.text(leaf)
    } else {
        ""
    }
}

/// Sorts leaves by their texts; those of the same text keep their order. `Err(AllocError)` if
/// memory runs out; the leaves may then be in any order. O(n log n) comparisons of texts.
pub fn sort_by_text<T: ComposeTable>(table: &T, leaves: &mut Vec<LeafId>) -> Result<(), AllocError>
    ensures permutation { IsPermutation leaves.old.items leaves.new.items }
    ensures sorted { OnOk result
        (IsSortedByKey (text_of (T.definitions table.now)) (slice_cmp nat_cmp) leaves.new.items) }
    ensures stable { (text : List ℕ) → filter (has_text (T.definitions table.now) text) leaves.new.items
        ≡ filter (has_text (T.definitions table.now) text) leaves.old.items }
{
    leaves.sort_by(|a, b| text_of(table, *a).cmp(text_of(table, *b)))
}

/// Returns those of the leaves, which are sorted by their texts, that have this text. O(log n)
/// comparisons of texts.
fn with_text<'a, T: ComposeTable>(table: &T, leaves: &'a [LeafId], text: &str) -> &'a [LeafId]
    requires { IsSortedByKey (text_of (T.definitions table.now)) (slice_cmp nat_cmp) leaves.now }
    ensures { result.now ≡ filter (has_text (T.definitions table.now) text.now) leaves.now }
{
    let first = leaves.partition_point(|leaf| text_of(table, *leaf) < text);
    let rest = &leaves[first..];
    let count = rest.partition_point(|leaf| text_of(table, *leaf) <= text);
    &rest[..count]
}
