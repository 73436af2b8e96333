//! Compiling: a table is read, and its arrays are put into the caller's memory.
ghost use Rattle.std.specs.Prelude.{◌≡◌, ◌≢◌, ◌≤◌, ◌*◌, true, false, List, length, take, MatchResult};
ghost use Rattle.compose_model.specs.Table.{Definition};
ghost use Rattle.compose_tree.specs.Packed.{IsPacked, unpacked};
ghost use Rattle.compose_c.specs.Compiled.{IsRead, AreSizes, AreSizesOf, Fits, rule_of};
ghost use Rattle.compose_c.specs.Faults.{IsRefused, Reports};

use crate::copies::put;
use crate::fault::{FaultRecord, LoadRefusal, column_of, fault_of};
use compose_bundle::read_bundle;
use compose_model::Rule;
use compose_tree::{LentArrays, PackedEdge, PackedNode, PackedTable, read_first_table};
use keysym_core::Names;
use std::alloc::Global;

/// The numbers of entries in the arrays of a table.
#[repr(C)]
#[derive(Clone, Copy)]
pub struct Sizes {
    /// The length of `nodes`: an entry for each node, and one for the end of the edges.
    pub nodes: usize,
    /// The length of `edges`: an entry for each edge.
    pub edges: usize,
    /// The length of `texts`: four bytes for each text.
    pub texts: usize,
    /// The length of `long_texts`, in bytes.
    pub long_texts: usize,
    /// The length of `hints`, in bytes.
    pub hints: usize,
    /// Reserved; always 0.
    pub reserved: [usize; 3],
}

/// Returns the rule for sequences that are prefixes of others. O(1).
pub fn rule(longest: bool) -> Rule
    ensures { result ≡ rule_of longest }
{
    if longest { Rule::Longest } else { Rule::Refuse }
}

/// Returns the table that the bundle's first source defines, or why there is none.
fn read(
    alloc: Global,
    header: &[u8],
    bundle: &[u8],
    longest: bool,
) -> Result<PackedTable, LoadRefusal>
    ensures { MatchResult result (λ table. IsRead header.now bundle.now (rule_of longest) table)
        (λ refusal. IsRefused header.now bundle.now (rule_of longest) refusal) }
{
    let names = Names::read(alloc, header)?;
    let bundle = read_bundle(alloc, bundle)?;
    match read_first_table(alloc, &names, &bundle.sources, rule(longest)) {
        Ok(table) => Ok(table),
        Err(fault) => {
            let column = column_of(&bundle.sources, &fault);
            Err(LoadRefusal::Table(fault, column))
        }
    }
}

/// Returns the number of entries in each array. O(1).
fn sizes_of(arrays: &LentArrays<'_>) -> Sizes
    ensures nodes { result.nodes ≡ length arrays.now.nodes.now }
    ensures edges { result.edges ≡ length arrays.now.edges.now }
    ensures texts { result.texts ≡ length arrays.now.texts.now }
    ensures long_texts { result.long_texts ≡ length arrays.now.long_texts.now }
    ensures hints { result.hints ≡ length arrays.now.hints.now }
    ensures table { (table : List Definition)
        → IsPacked arrays.now.nodes.now arrays.now.edges.now arrays.now.texts.now
        arrays.now.long_texts.now table
        → length arrays.now.hints.now ≡ 2 * length arrays.now.edges.now → AreSizes table result }
{
    Sizes {
        nodes: arrays.nodes.len(),
        edges: arrays.edges.len(),
        texts: arrays.texts.len(),
        long_texts: arrays.long_texts.len(),
        hints: arrays.hints.len(),
        reserved: [0; 3],
    }
}

/// Puts the number of entries in each array of the table into `sizes`. O(1).
pub fn measure(table: &PackedTable, sizes: &mut Sizes)
    ensures { AreSizes table.now sizes.new }
{
    *sizes = sizes_of(&table.arrays());
}

/// Puts the arrays of the table into the caller's, and the number of entries of each into `sizes`.
/// Returns false if they don't fit; then only `sizes` is changed.
pub fn put_table(
    table: &PackedTable,
    nodes: &mut [PackedNode],
    edges: &mut [PackedEdge],
    texts: &mut [u8],
    long_texts: &mut [u8],
    hints: &mut [u8],
    sizes: &mut Sizes,
) -> bool
    ensures same { result ≡ true → unpacked (take sizes.new.nodes nodes.new)
        (take sizes.new.edges edges.new) (take sizes.new.texts texts.new)
        (take sizes.new.long_texts long_texts.new) ≡ table.now }
    ensures packed { result ≡ true → IsPacked (take sizes.new.nodes nodes.new)
        (take sizes.new.edges edges.new) (take sizes.new.texts texts.new)
        (take sizes.new.long_texts long_texts.new) table.now }
    ensures fits { result ≡ true → Fits sizes.new (length nodes.old) (length edges.old)
        (length texts.old) (length long_texts.old) (length hints.old) }
    ensures wide { result ≡ false → Fits sizes.new (length nodes.old) (length edges.old)
        (length texts.old) (length long_texts.old) (length hints.old) → ⊥ }
    ensures sizes { AreSizes table.now sizes.new }
    ensures untouched { result ≡ false → (nodes.new ≡ nodes.old) × (edges.new ≡ edges.old)
        × (texts.new ≡ texts.old) × (long_texts.new ≡ long_texts.old) × (hints.new ≡ hints.old) }
{
    let arrays = table.arrays();
    let needed = sizes_of(&arrays);
    *sizes = needed;
    if needed.nodes > nodes.len()
        || needed.edges > edges.len()
        || needed.texts > texts.len()
        || needed.long_texts > long_texts.len()
        || needed.hints > hints.len()
    {
        return false;
    }
    put(arrays.nodes, nodes);
    put(arrays.edges, edges);
    put(arrays.texts, texts);
    put(arrays.long_texts, long_texts);
    put(arrays.hints, hints);
    true
}

/// Does the work of `composecheck_compile`.
pub fn compile(
    alloc: Global,
    header: &[u8],
    bundle: &[u8],
    longest: bool,
    nodes: &mut [PackedNode],
    edges: &mut [PackedEdge],
    texts: &mut [u8],
    long_texts: &mut [u8],
    hints: &mut [u8],
    sizes: &mut Sizes,
    fault: &mut FaultRecord,
) -> u32
    ensures read { result ≡ 0 → IsRead header.now bundle.now (rule_of longest)
        (unpacked (take sizes.new.nodes nodes.new) (take sizes.new.edges edges.new)
        (take sizes.new.texts texts.new) (take sizes.new.long_texts long_texts.new)) }
    ensures packed { result ≡ 0 → IsPacked (take sizes.new.nodes nodes.new)
        (take sizes.new.edges edges.new) (take sizes.new.texts texts.new)
        (take sizes.new.long_texts long_texts.new)
        (unpacked (take sizes.new.nodes nodes.new) (take sizes.new.edges edges.new)
        (take sizes.new.texts texts.new) (take sizes.new.long_texts long_texts.new)) }
    ensures refused { result ≡ 1 → Reports header.now bundle.now (rule_of longest) fault.new }
    ensures fits { result ≡ 0 → Fits sizes.new (length nodes.old) (length edges.old)
        (length texts.old) (length long_texts.old) (length hints.old) }
    ensures wide { result ≡ 2 → Fits sizes.new (length nodes.old) (length edges.old)
        (length texts.old) (length long_texts.old) (length hints.old) → ⊥ }
    ensures sizes { result ≢ 1
        → AreSizesOf (IsRead header.now bundle.now (rule_of longest)) sizes.new }
    ensures few { result ≤ 2 }
    ensures same_fault { result ≢ 1 → fault.new ≡ fault.old }
    ensures same_sizes { result ≡ 1 → sizes.new ≡ sizes.old }
    ensures untouched { result ≢ 0 → (nodes.new ≡ nodes.old) × (edges.new ≡ edges.old)
        × (texts.new ≡ texts.old) × (long_texts.new ≡ long_texts.old) × (hints.new ≡ hints.old) }
{
    match read(alloc, header, bundle, longest) {
        Ok(table) => {
            if put_table(&table, nodes, edges, texts, long_texts, hints, sizes) {
                return 0;
            }
            2
        }
        Err(refusal) => {
            *fault = fault_of(&refusal);
            1
        }
    }
}
