//! Result keysyms: they are read with a table, and found by the keys that complete a sequence.
ghost use Rattle.std.specs.Prelude.{◌≡◌, ◌≢◌, ◌≤◌, ◌<◌, ◌+◌, true, false, length, take, slice_get, unwrap_or, MatchResult, ◌*◌};
ghost use Rattle.compose_model.specs.Nodes as words;
ghost use Rattle.compose_model.specs.Nodes.{nodes};
ghost use Rattle.compose_tree.specs.Packed.{IsPacked, unpacked};
ghost use Rattle.compose_tree.specs.Targets.{target_of};
ghost use Rattle.compose_c.specs.Compiled.{IsRead, IsReadWithResults, AreSizes, AreSizesOf, Fits, rule_of};
ghost use Rattle.compose_c.specs.Faults.{IsRefused, Reports};
ghost use Rattle.compose_c.specs.Results.{result_at};

use crate::compile::{Sizes, measure, put_table, rule};
use crate::copies::put_numbers;
use crate::fault::{FaultRecord, LoadRefusal, column_of, fault_of};
use crate::following::node_of;
use compose_bundle::read_bundle;
use compose_results::{ResultTable, read_first_results};
use compose_tree::{ComposeTable, NodeId, PackedEdge, PackedNode, PackedTable, Target};
use keysym_core::{Keysym, Names};
use std::alloc::Global;

/// Returns the table that the bundle's first source defines, with its result keysyms, or why there
/// is none.
fn read(
    alloc: Global,
    header: &[u8],
    bundle: &[u8],
    longest: bool,
) -> Result<ResultTable<PackedTable>, LoadRefusal>
    ensures { MatchResult result
        (λ read. IsReadWithResults header.now bundle.now (rule_of longest) read.table
        read.results.items)
        (λ refusal. IsRefused header.now bundle.now (rule_of longest) refusal) }
{
    let names = Names::read(alloc, header)?;
    let bundle = read_bundle(alloc, bundle)?;
    match read_first_results(alloc, &names, &bundle.sources, rule(longest)) {
        Ok(table) => Ok(table),
        Err(fault) => {
            let column = column_of(&bundle.sources, &fault);
            Err(LoadRefusal::Table(fault, column))
        }
    }
}

/// Does the work of `composecheck_compile_with_results`.
pub fn compile_with_results(
    alloc: Global,
    header: &[u8],
    bundle: &[u8],
    longest: bool,
    nodes: &mut [PackedNode],
    edges: &mut [PackedEdge],
    texts: &mut [u8],
    long_texts: &mut [u8],
    hints: &mut [u8],
    results: &mut [u32],
    sizes: &mut Sizes,
    result_count: &mut usize,
    fault: &mut FaultRecord,
) -> u32
    ensures read { result ≡ 0 → IsReadWithResults header.now bundle.now (rule_of longest)
        (unpacked (take sizes.new.nodes nodes.new) (take sizes.new.edges edges.new)
        (take sizes.new.texts texts.new) (take sizes.new.long_texts long_texts.new))
        (take result_count.new results.new) }
    ensures packed { result ≡ 0 → IsPacked (take sizes.new.nodes nodes.new)
        (take sizes.new.edges edges.new) (take sizes.new.texts texts.new)
        (take sizes.new.long_texts long_texts.new)
        (unpacked (take sizes.new.nodes nodes.new) (take sizes.new.edges edges.new)
        (take sizes.new.texts texts.new) (take sizes.new.long_texts long_texts.new)) }
    ensures refused { result ≡ 1 → Reports header.now bundle.now (rule_of longest) fault.new }
    ensures fits { result ≡ 0 → Fits sizes.new (length nodes.old) (length edges.old)
        (length texts.old) (length long_texts.old) (length hints.old) }
    ensures results_fit { result ≡ 0 → result_count.new ≤ length results.old }
    ensures wide { result ≡ 2 → Fits sizes.new (length nodes.old) (length edges.old)
        (length texts.old) (length long_texts.old) (length hints.old)
        → result_count.new ≤ length results.old → ⊥ }
    ensures sizes { result ≢ 1
        → AreSizesOf (IsRead header.now bundle.now (rule_of longest)) sizes.new }
    ensures count { result ≢ 1 → 4 * result_count.new ≡ sizes.new.texts }
    ensures few { result ≤ 2 }
    ensures same_fault { result ≢ 1 → fault.new ≡ fault.old }
    ensures same_sizes { result ≡ 1 → sizes.new ≡ sizes.old }
    ensures same_count { result ≡ 1 → result_count.new ≡ result_count.old }
    ensures untouched { result ≢ 0 → (nodes.new ≡ nodes.old) × (edges.new ≡ edges.old)
        × (texts.new ≡ texts.old) × (long_texts.new ≡ long_texts.old) × (hints.new ≡ hints.old) }
    ensures untouched_results { result ≢ 0 → results.new ≡ results.old }
{
    match read(alloc, header, bundle, longest) {
        Ok(read) => {
            *result_count = read.results.len();
            if put_read(
                &read, nodes, edges, texts, long_texts, hints, results, sizes,
            ) {
                return 0;
            }
            2
        }
        Err(refusal) => {
            *fault = fault_of(&refusal);
            1
        }
    }
}

/// Puts the arrays of the table and its result keysyms into the caller's, and the number of entries
/// of each array into `sizes`. Returns false if they don't fit; then only `sizes` is changed.
fn put_read(
    read: &ResultTable<PackedTable>,
    nodes: &mut [PackedNode],
    edges: &mut [PackedEdge],
    texts: &mut [u8],
    long_texts: &mut [u8],
    hints: &mut [u8],
    results: &mut [u32],
    sizes: &mut Sizes,
) -> bool
    ensures same { result ≡ true → unpacked (take sizes.new.nodes nodes.new)
        (take sizes.new.edges edges.new) (take sizes.new.texts texts.new)
        (take sizes.new.long_texts long_texts.new) ≡ read.now.table }
    ensures packed { result ≡ true → IsPacked (take sizes.new.nodes nodes.new)
        (take sizes.new.edges edges.new) (take sizes.new.texts texts.new)
        (take sizes.new.long_texts long_texts.new) read.now.table }
    ensures results { result ≡ true
        → take (length read.now.results.items) results.new ≡ read.now.results.items }
    ensures fits { result ≡ true → Fits sizes.new (length nodes.old) (length edges.old)
        (length texts.old) (length long_texts.old) (length hints.old) }
    ensures results_fit { result ≡ true → length read.now.results.items ≤ length results.old }
    ensures wide { result ≡ false → Fits sizes.new (length nodes.old) (length edges.old)
        (length texts.old) (length long_texts.old) (length hints.old)
        → length read.now.results.items ≤ length results.old → ⊥ }
    ensures sizes { AreSizes read.now.table sizes.new }
    ensures untouched { result ≡ false → (nodes.new ≡ nodes.old) × (edges.new ≡ edges.old)
        × (texts.new ≡ texts.old) × (long_texts.new ≡ long_texts.old) × (hints.new ≡ hints.old) }
    ensures untouched_results { result ≡ false → results.new ≡ results.old }
{
    if read.results.len() > results.len() {
        measure(&read.table, sizes);
        return false;
    }
    if !put_table(&read.table, nodes, edges, texts, long_texts, hints, sizes) {
        return false;
    }
    put_numbers(&read.results, results);
    true
}

/// Returns the result keysym of the leaf to which the keysym leads after the pending ones, from
/// these, one for each leaf. It is 0 if the keysym leads to no leaf, or to one without an entry.
/// O(pending keysyms × log edges of a node).
pub fn result_of<T: ComposeTable>(
    table: &T,
    pending: &[Keysym],
    keysym: Keysym,
    results: &[u32],
) -> u32
    ensures { result
        ≡ result_at results.now (target_of (T.definitions table.now) pending.now keysym) }
{
    match node_of(table, pending) {
        Some(node) => return result_behind(table, node, keysym, results),
        None => return 0,
    }
}

/// Does the same after a node.
fn result_behind<T: ComposeTable>(table: &T, node: NodeId, keysym: Keysym, results: &[u32]) -> u32
    requires { node.0 < length (nodes (T.definitions table.now)) }
    ensures { result
        ≡ result_at results.now
        (target_of (T.definitions table.now)
        (words.node (T.definitions table.now) node.0) keysym) }
{
    match table.step(node, keysym) {
        Some(Target::Leaf(leaf)) => entry(results, leaf.0 as usize),
        Some(Target::Node(_)) | None => 0,
    }
}

/// Returns the number at this index, or 0 after the last one.
fn entry(numbers: &[u32], index: usize) -> u32
    ensures { result ≡ unwrap_or (slice_get numbers.now index) 0 }
{
    match numbers.get(index) {
        Some(number) => *number,
        None => 0,
    }
}
