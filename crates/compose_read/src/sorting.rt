//! The order in which definitions are settled: by their sequences, and those of one sequence in
//! reading order. Sort keys do most of it.
ghost use Rattle.std.specs.Prelude.{◌≡◌, ◌≤◌, ◌<◌, ◌+◌, ◌*◌, ◌%◌, ℕ, List, length, map, slice_index, slice_index_or, IfOk, OnOk, IsTrue};
ghost use Rattle.compose_model.specs.Table as words;
ghost use Rattle.compose_model.specs.Table.{IsSameTable};
ghost use Rattle.compose_read.specs.Read.{max_definitions};
ghost use Rattle.compose_read.specs.Neighbours.{SequencesAscend};
ghost use Rattle.compose_read.specs.Rows.{rows_of, ArePlaced};
ghost use Rattle.compose_read.specs.SortKeys.{by_sequence, keysym_sort_key, prefix_sort_key, AreSortKeys};
ghost use Rattle.std.specs.List.{All};
ghost use Rattle.std.specs.List.Sorted.{IsPermutation, IsSortedBy, IsStableBy};
ghost use Rattle.compose_read.specs.declared.rows.RowSpan.{RowSpan};

use crate::rows::{RowSpan, keysyms_at, part_at};
use keysym_core::Keysym;
use std::alloc::{AllocError, Global};

/// Returns the spans in rising order of their sequences; those of one sequence keep their order.
/// After the sort by sort keys, little is left to sort.
pub(crate) fn sorted(
    alloc: Global,
    keysyms: &[Keysym],
    spans: Vec<RowSpan>,
) -> Result<Vec<RowSpan>, AllocError>
    requires { length spans.items ≤ max_definitions }
    ensures ascend { IfOk result
        (λ r. (texts : List ℕ) → SequencesAscend (rows_of keysyms.now texts r.items)) }
    ensures same { IfOk result
        (λ r. (texts : List ℕ)
        → IsSameTable (rows_of keysyms.now texts r.items)
        (rows_of keysyms.now texts spans.items)) }
    ensures placed { IfOk result
        (λ r. (texts : List ℕ) → ArePlaced keysyms.now texts spans.items
        → ArePlaced keysyms.now texts r.items) }
{
    let mut sorted = sorted_by_prefix(alloc, keysyms, &spans)?;
    sort_run(alloc, keysyms, &mut sorted)?;
    Ok(sorted)
}

/// Returns the spans in the order of their sort keys, and those whose sort keys differ only in the
/// index in the order of their sequences. This is fast: mostly numbers are sorted, and few
/// sequences.
fn sorted_by_prefix(
    alloc: Global,
    keysyms: &[Keysym],
    spans: &[RowSpan],
) -> Result<Vec<RowSpan>, AllocError>
    requires { length spans.now < 131072 }
    ensures permutation { IfOk result (λ r. IsPermutation spans.now r.items) }
    ensures stable { IfOk result (λ r. IsStableBy (by_sequence keysyms.now) spans.now r.items) }
{
    let mut sort_keys = sort_keys(alloc, keysyms, spans)?;
    sort_keys.sort_unstable();
    let mut picked_spans = picked_spans(alloc, spans, &sort_keys)?;
    sort_runs(alloc, keysyms, &sort_keys, &mut picked_spans)?;
    Ok(picked_spans)
}

/// Sorts each run of spans whose sort keys differ only in the index by their sequences. O(n) if
/// each run is a single span, O(n log n) comparisons of sequences at most.
fn sort_runs(
    alloc: Global,
    keysyms: &[Keysym],
    sort_keys: &[u64],
    spans: &mut [RowSpan],
) -> Result<(), AllocError>
    requires { length sort_keys.now ≤ length spans.old }
    ensures permutation { IsPermutation spans.old spans.new }
    ensures stable { IsStableBy (by_sequence keysyms.now) spans.old spans.new }
{
    let mut start = 0;
    for (index, sort_key) in sort_keys.iter().enumerate() {
        if sort_key / INDEXES != sort_keys[start] / INDEXES {
            sort_run(alloc, keysyms, &mut spans[start..index])?;
            start = index;
        }
    }
    sort_run(alloc, keysyms, &mut spans[start..])
}

/// Sorts spans by their sequences; those of one sequence keep their order. O(n log n) comparisons,
/// n - 1 if they are sorted already.
fn sort_run(alloc: Global, keysyms: &[Keysym], run: &mut [RowSpan]) -> Result<(), AllocError>
    ensures permutation { IsPermutation run.old run.new }
    ensures sorted { OnOk result (IsSortedBy (by_sequence keysyms.now) run.new) }
    ensures stable { IsStableBy (by_sequence keysyms.now) run.old run.new }
{
    if are_sorted(keysyms, run) {
        return Ok(());
    }
    run.sort_by(
        alloc,
        |a, b| keysyms_at(keysyms, *a).cmp(&keysyms_at(keysyms, *b)),
    )
}

/// Returns whether spans are sorted by their sequences. O(n) comparisons.
fn are_sorted(keysyms: &[Keysym], run: &[RowSpan]) -> bool
    ensures { IsTrue result → IsSortedBy (by_sequence keysyms.now) run.now }
{
    for index in 1..run.len() {
        let before = keysyms_at(keysyms, run[index - 1]);
        if comes_before(keysyms_at(keysyms, run[index]), before) {
            return false;
        }
    }
    true
}

/// Returns whether one sequence comes before another. O(keysyms). Sequences are short: a comparison
/// of slices, which is made for long ones, costs more.
fn comes_before(one: &[Keysym], other: &[Keysym]) -> bool
    ensures { result ≡ words.comes_before one.now other.now }
{
    let mut index = 0;
    while index < one.len() && index < other.len() {
        if one[index] != other[index] {
            return one[index] < other[index];
        }
        index += 1;
    }
    one.len() < other.len()
}

/// Returns the spans at the indexes in the low 17 bits of these sort keys.
fn picked_spans(
    alloc: Global,
    spans: &[RowSpan],
    sort_keys: &[u64],
) -> Result<Vec<RowSpan>, AllocError>
    requires { All (λ n. n % 131072 < length spans.now) sort_keys.now }
    ensures { IfOk result
        (λ r. (d : RowSpan)
        → r.items ≡ map (λ n. slice_index_or spans.now (n % 131072) d) sort_keys.now) }
{
    let mut picked_spans = Vec::with_capacity(alloc, sort_keys.len())?;
    for sort_key in sort_keys {
        picked_spans.push(spans[(sort_key % INDEXES) as usize])?;
    }
    Ok(picked_spans)
}

/// Returns the sort keys of the spans.
fn sort_keys(alloc: Global, keysyms: &[Keysym], spans: &[RowSpan]) -> Result<Vec<u64>, AllocError>
    requires { length spans.now < 131072 }
    ensures { IfOk result (λ r. AreSortKeys keysyms.now spans.now r.items) }
{
    let keysym_sort_keys = keysym_sort_keys(alloc, keysyms)?;
    let mut sort_keys = Vec::with_capacity(alloc, spans.len())?;
    for (index, span) in spans.iter().enumerate() {
        sort_keys.push(sort_key_of(part_at(&keysym_sort_keys, *span), index as u32))?;
    }
    Ok(sort_keys)
}

/// Returns the sort keys of these keysyms.
fn keysym_sort_keys(alloc: Global, keysyms: &[Keysym]) -> Result<Vec<u16>, AllocError>
    ensures { IfOk result (λ r. r.items ≡ map keysym_sort_key keysyms.now) }
{
    keysyms
        .iter()
        .map(|keysym| keysym_sort_key(*keysym))
        .collect(alloc)
}

/// The number of indexes that a sort key can have: more than there are definitions.
const INDEXES: u64 = 1 << 17;

/// The sort key of a keysym is below this.
const KEYSYM_SORT_KEYS: u64 = 1 << 15;

/// Returns the sort key of a span: those of the first three keysyms of its sequence, and its index
/// in the 17 bits below them.
#[tactic(auto, unfolding(crate::specs::SortKeys::prefix_sort_key))]
fn sort_key_of(keysym_sort_keys: &[u16], index: u32) -> u64
    ensures { result ≡ prefix_sort_key keysym_sort_keys.now * 131072 + index }
{
    let prefix_sort_key = (keysym_sort_key_at(keysym_sort_keys, 0) * KEYSYM_SORT_KEYS
        + keysym_sort_key_at(keysym_sort_keys, 1))
        * KEYSYM_SORT_KEYS
        + keysym_sort_key_at(keysym_sort_keys, 2);
    prefix_sort_key * INDEXES + u64::from(index)
}

/// Returns the sort key of the keysym at this index; 0 after the end.
fn keysym_sort_key_at(keysym_sort_keys: &[u16], index: usize) -> u64
    ensures same { result ≡ slice_index keysym_sort_keys.now index }
    ensures fits { result < 65536 }
{
    match keysym_sort_keys.get(index) {
        Some(keysym_sort_key) => u64::from(*keysym_sort_key),
        None => 0,
    }
}

/// Returns the sort key of a keysym, which is never less than that of a lesser keysym. Keysyms
/// below 0x2100, those from 0xfe00 to 0xffff and Unicode keysyms up to U+5CFF have sort keys of
/// their own.
fn keysym_sort_key(keysym: Keysym) -> u16
    ensures { result ≡ keysym_sort_key keysym }
{
    let value = keysym.value();
    let keys = value.saturating_sub(0xfe00).min(0x200);
    let unicode = value.saturating_sub(0x100_0000).min(0x5cff);
    (value.min(0x2100) + keys + unicode) as u16
}
