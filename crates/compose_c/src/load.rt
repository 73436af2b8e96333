//! Loading: a certificate is checked, and a table is loaded only with a valid one.
ghost use Rattle.std.specs.Prelude.{◌≡◌, ◌≢◌, ◌≤◌, true, false, length, take, MatchResult};
ghost use Rattle.compose_tree.specs.Packed.{IsPacked, unpacked};
ghost use Rattle.compose_c.specs.Compiled.{AreSizesOf, Fits, rule_of};
ghost use Rattle.compose_c.specs.Loads.{IsCertified, IsUncertified, ReportsUncertified, IsLoaded, IsNotLoaded, ReportsNotLoaded, Meets, Misses};

use crate::compile::{Sizes, put_table, rule};
use crate::fault::{FaultRecord, LoadRefusal, column_of, fault_of};
use compose_bundle::read_bundle;
use compose_cert::{Certificate, Repertoire};
use compose_check::{Verdict, check as check_tables};
use compose_tree::{
    ComposeTable, LentTable, PackedEdge, PackedNode, PackedTable, read_first_table,
};
use keysym_core::Names;
use std::alloc::Global;

/// Checks the certificate for a move from the old table to the new one.
fn meet<T: ComposeTable, U: ComposeTable>(
    alloc: Global,
    names: &Names,
    old: &T,
    new: &U,
    repertoire: &[u8],
    certificate: &[u8],
) -> Result<(), LoadRefusal>
    ensures { MatchResult result
        (λ _. Meets names.now (T.definitions old.now) (U.definitions new.now) repertoire.now
        certificate.now)
        (λ refusal. Misses names.now (T.definitions old.now) (U.definitions new.now) repertoire.now
        certificate.now refusal) }
{
    let repertoire = Repertoire::read(alloc, repertoire)?;
    let certificate = Certificate::read(alloc, certificate)?;
    match check_tables(old, new, names, &repertoire, &certificate) {
        Verdict::Yes => Ok(()),
        Verdict::No(fault) => Err(LoadRefusal::Unmet(fault)),
    }
}

/// Reads the names, and checks the certificate with them.
fn certify<T: ComposeTable, U: ComposeTable>(
    alloc: Global,
    header: &[u8],
    old: &T,
    new: &U,
    repertoire: &[u8],
    certificate: &[u8],
) -> Result<(), LoadRefusal>
    ensures { MatchResult result
        (λ _. IsCertified header.now (T.definitions old.now) (U.definitions new.now) repertoire.now
        certificate.now)
        (λ refusal. IsUncertified header.now (T.definitions old.now) (U.definitions new.now)
        repertoire.now certificate.now refusal) }
{
    let names = Names::read(alloc, header)?;
    meet(alloc, &names, old, new, repertoire, certificate)
}

/// Does the work of `composecheck_check`, with tables.
pub fn check<T: ComposeTable, U: ComposeTable>(
    alloc: Global,
    header: &[u8],
    old: &T,
    new: &U,
    repertoire: &[u8],
    certificate: &[u8],
    fault: &mut FaultRecord,
) -> bool
    ensures valid { result ≡ true → IsCertified header.now (T.definitions old.now)
        (U.definitions new.now) repertoire.now certificate.now }
    ensures refused { result ≡ false → ReportsUncertified header.now (T.definitions old.now)
        (U.definitions new.now) repertoire.now certificate.now fault.new }
    ensures same_fault { result ≡ true → fault.new ≡ fault.old }
{
    match certify(alloc, header, old, new, repertoire, certificate) {
        Ok(()) => true,
        Err(refusal) => {
            *fault = fault_of(&refusal);
            false
        }
    }
}

/// Returns the table that the bundle's first source defines, if the bundle's certificate is valid
/// for a move to it from the old table.
fn read<T: ComposeTable>(
    alloc: Global,
    header: &[u8],
    old: &T,
    repertoire: &[u8],
    bundle: &[u8],
    longest: bool,
) -> Result<PackedTable, LoadRefusal>
    ensures { MatchResult result
        (λ table. IsLoaded header.now (T.definitions old.now) repertoire.now bundle.now
        (rule_of longest) table)
        (λ refusal. IsNotLoaded header.now (T.definitions old.now) repertoire.now bundle.now
        (rule_of longest) refusal) }
{
    let names = Names::read(alloc, header)?;
    let bundle = read_bundle(alloc, bundle)?;
    let table: PackedTable = match read_first_table(alloc, &names, &bundle.sources, rule(longest)) {
        Ok(table) => table,
        Err(fault) => {
            let column = column_of(&bundle.sources, &fault);
            return Err(LoadRefusal::Table(fault, column));
        }
    };
    match meet(alloc, &names, old, &table, repertoire, bundle.certificate) {
        Ok(()) => Ok(table),
        Err(refusal) => Err(refusal),
    }
}

/// Does the work of `composecheck_load`; `old` is the table in use.
pub fn load<T: ComposeTable>(
    alloc: Global,
    header: &[u8],
    old: &T,
    repertoire: &[u8],
    bundle: &[u8],
    longest: bool,
    nodes: &mut [PackedNode],
    edges: &mut [PackedEdge],
    texts: &mut [u8],
    long_texts: &mut [u8],
    hints: &mut [u8],
    sizes: &mut Sizes,
    fault: &mut FaultRecord,
) -> u32
    ensures loaded { result ≡ 0 → IsLoaded header.now (T.definitions old.now) repertoire.now
        bundle.now (rule_of longest)
        (unpacked (take sizes.new.nodes nodes.new) (take sizes.new.edges edges.new)
        (take sizes.new.texts texts.new) (take sizes.new.long_texts long_texts.new)) }
    ensures packed { result ≡ 0 → IsPacked (take sizes.new.nodes nodes.new)
        (take sizes.new.edges edges.new) (take sizes.new.texts texts.new)
        (take sizes.new.long_texts long_texts.new)
        (unpacked (take sizes.new.nodes nodes.new) (take sizes.new.edges edges.new)
        (take sizes.new.texts texts.new) (take sizes.new.long_texts long_texts.new)) }
    ensures refused { result ≡ 1 → ReportsNotLoaded header.now (T.definitions old.now)
        repertoire.now bundle.now (rule_of longest) fault.new }
    ensures fits { result ≡ 0 → Fits sizes.new (length nodes.old) (length edges.old)
        (length texts.old) (length long_texts.old) (length hints.old) }
    ensures wide { result ≡ 2 → Fits sizes.new (length nodes.old) (length edges.old)
        (length texts.old) (length long_texts.old) (length hints.old) → ⊥ }
    ensures sizes { result ≢ 1 → AreSizesOf
        (IsLoaded header.now
        (T.definitions old.now) repertoire.now bundle.now
        (rule_of longest)) sizes.new }
    ensures few { result ≤ 2 }
    ensures same_fault { result ≢ 1 → fault.new ≡ fault.old }
    ensures same_sizes { result ≡ 1 → sizes.new ≡ sizes.old }
    ensures untouched { result ≢ 0 → (nodes.new ≡ nodes.old) × (edges.new ≡ edges.old)
        × (texts.new ≡ texts.old) × (long_texts.new ≡ long_texts.old) × (hints.new ≡ hints.old) }
{
    match read(alloc, header, old, repertoire, bundle, longest) {
        Ok(table) => {
            if put_table(&table, nodes, edges, texts, long_texts, hints, sizes) {
                return 0;
            }
            2
        }
        Err(refusal) => {
            *fault = fault_of(&refusal);
            1
        }
    }
}
