//! The message why sources define no table.
ghost use Rattle.std.specs.Prelude.{◌≡◌, IfOk, string_bytes};
ghost use Rattle.compose_c.specs.Compiled.{rule_of};
ghost use Rattle.compose_c.specs.Sentences as words;
ghost use Rattle.compose_c.specs.Sentences.{IsSentence};

use crate::compile::rule;
use compose_bundle::{BundleFault, read_bundle};
use compose_messages::{name_words, overlap_words, read_message};
use compose_read::{SettleFault, Sources};
use compose_tree::{BuildFault, PackedTable, TableFault, read_first_table};
use keysym_core::Names;
use std::alloc::{AllocError, Global};
use std::fmt::Write;

/// Returns the message why a bundle can't be read.
fn bundle_words(fault: &BundleFault) -> &'static str
    ensures { result.now ≡ words.bundle_message fault.now }
{
    match fault {
        BundleFault::Form => "the bytes are no bundle of sources",
        BundleFault::TooLarge => "the bundle is too large",
        BundleFault::NoMemory => "out of memory",
    }
}

/// Returns the message why the sources define no table.
fn table_text(
    alloc: Global,
    names: &Names,
    sources: &Sources,
    fault: &TableFault,
) -> Result<String, AllocError>
    ensures { IfOk result
        (λ text. string_bytes text ≡ words.table_message names.now sources.now fault.now) }
{
    match fault {
        TableFault::Read(fault) => {
            let message = read_message(sources, fault);
            format!(in alloc; "{message}").map_err(|_| AllocError)
        }
        TableFault::Settle(SettleFault::Overlap { short, long }) => {
            overlap_words(alloc, names, &short.0, &long.0)
        }
        TableFault::Build(BuildFault::TooManyNodes) => {
            String::from_str(alloc, "the sequences have more than 1,048,576 nodes")
        }
        TableFault::Settle(SettleFault::NoMemory)
        | TableFault::Build(BuildFault::NoMemory)
        | TableFault::NoMemory => String::from_str(alloc, "out of memory"),
    }
}

/// Returns the message why the first source of the bundle defines no table; it is empty if the
/// source defines one. Takes as long as compiling.
///
/// `Err` if there is no memory for the message.
pub fn sentence(
    alloc: Global,
    header: &[u8],
    payload: &[u8],
    longest: bool,
) -> Result<String, AllocError>
    ensures { IfOk result
        (λ text. IsSentence header.now payload.now (rule_of longest) (string_bytes text)) }
{
    let names = match Names::read(alloc, header) {
        Ok(names) => names,
        Err(fault) => return String::from_str(alloc, name_words(&fault).words),
    };
    let bundle = match read_bundle(alloc, payload) {
        Ok(bundle) => bundle,
        Err(fault) => return String::from_str(alloc, bundle_words(&fault)),
    };
    let table: Result<PackedTable, TableFault> = read_first_table(
        alloc,
        &names,
        &bundle.sources,
        rule(longest),
    );
    match table {
        Ok(_) => Ok(String::new(alloc)),
        Err(fault) => table_text(alloc, &names, &bundle.sources, &fault),
    }
}
