//! Conditions that a certificate does not meet: the pair of nodes, and the keys that lead to it.
ghost use Rattle.std.specs.Prelude.{◌≡◌, ◌++◌, ◌∷◌, [], ◌≤◌, OnOk, IfOk, IfSome, length, take, string_bytes};
ghost use Rattle.compose_model.specs.Nodes.{node as node_at};
ghost use Rattle.compose_read.specs.Settle.{IsSettled};
ghost use Rattle.std.specs.Option.{option_map};
ghost use Rattle.compose_cert.specs.Reading.{certificate_of};
ghost use Rattle.compose_details.specs.FaultyPairs as faulty;
ghost use Rattle.compose_details.specs.Pairs as words;

use compose_cert::{CertFault, Certificate};
use compose_check::CheckFault;
use compose_messages::push_events;
use compose_read::Definitions;
use compose_tree::{ComposeTable, NodeId, Target};
use keysym_core::{Keysym, Names};
use std::alloc::{AllocError, Global};

/// The pair of an old and a new node at which a condition is not met, and the key.
#[derive(Clone, Copy, Debug)]
pub(crate) struct FaultyPair {
    pub old: u32,
    pub new: u32,
    pub keysym: Keysym,
}

/// Returns the pair that a fault names, of the certificate with this text, and the key: the roots
/// for a new start, and `None` if the fault concerns no pair.
pub(crate) fn faulty_pair(
    alloc: Global,
    text: &[u8],
    fault: &CheckFault,
) -> Result<Option<FaultyPair>, AllocError>
    ensures { IfOk result
        (λ pair. option_map faulty.shown pair ≡ faulty.faulty_pair text.now fault.now) }
{
    match fault {
        CheckFault::NewStart { keysym } => Ok(Some(FaultyPair {
            old: 0,
            new: 0,
            keysym: *keysym,
        })),
        CheckFault::Cancels { pair, keysym }
        | CheckFault::TextDiffers { pair, keysym }
        | CheckFault::PairMissing { pair, keysym } => pair_at(alloc, text, *pair, *keysym),
        _ => Ok(None),
    }
}

/// Returns the pair with this index of the certificate with this text, if there is one, and the
/// key.
fn pair_at(
    alloc: Global,
    text: &[u8],
    index: usize,
    keysym: Keysym,
) -> Result<Option<FaultyPair>, AllocError>
    ensures { IfOk result
        (λ pair. option_map faulty.shown pair
        ≡ faulty.pair_at (certificate_of text.now) index keysym) }
{
    match Certificate::read(alloc, text) {
        Ok(certificate) => Ok(pair_with(certificate.pairs(), index, keysym)),
        Err(CertFault::NoMemory) => Err(AllocError),
        Err(_) => Ok(None),
    }
}

/// Returns the pair with this index, if there is one, and the key.
fn pair_with(pairs: &[(u32, u32)], index: usize, keysym: Keysym) -> Option<FaultyPair>
    ensures { option_map faulty.shown result ≡ faulty.pair_with pairs.now index keysym }
{
    let (old, new) = *pairs.get(index)?;
    Some(FaultyPair { old, new, keysym })
}

/// Adds after which keys of each table a pair of nodes is reached.
pub(crate) fn push_pair(
    alloc: Global,
    text: &mut String,
    names: &Names,
    old: &[Keysym],
    new: &[Keysym],
) -> Result<(), AllocError>
    ensures { OnOk result
        (string_bytes text.new
        ≡ string_bytes text.old ++ words.pair_line names.now old.now new.now) }
{
    text.push_str("composecheck: the pair stands")?;
    push_after(alloc, text, names, old)?;
    text.push_str(" in the old table and")?;
    push_after(alloc, text, names, new)?;
    text.push_str(" in the new one\n")
}

/// Adds after which keys a node is reached, or that it is at rest.
fn push_after(
    alloc: Global,
    text: &mut String,
    names: &Names,
    keys: &[Keysym],
) -> Result<(), AllocError>
    ensures { OnOk result
        (string_bytes text.new ≡ string_bytes text.old ++ words.after names.now keys.now) }
{
    if keys.is_empty() {
        return text.push_str(" at rest");
    }
    text.push_str(" after")?;
    push_events(alloc, text, names, keys)
}

/// Returns the keys that lead to the node with this number, if a definition begins with them.
/// O(keysyms of all definitions × log edges of a node).
pub(crate) fn keys_to<T: ComposeTable>(
    alloc: Global,
    table: &T,
    definitions: &Definitions,
    number: u32,
) -> Result<Option<Vec<Keysym>>, AllocError>
    ensures { IfOk result
        (λ found. IfSome found (λ keys. keys.items ≡ node_at (T.definitions table.now) number)) }
{
    // This call's contract states that the table is settled.
    let _ = table.node_count();
    if number == 0 {
        return Ok(Some(Vec::new(alloc)));
    }
    for index in 0..definitions.len() {
        let sequence = definitions.sequence(index);
        if let Some(count) = prefix_to(table, sequence, number) {
            return Ok(Some(Vec::from_slice(alloc, &sequence[..count])?));
        }
    }
    Ok(None)
}

/// Returns the number of keysyms of the sequence that lead to the node with this number, if some
/// do.
fn prefix_to<T: ComposeTable>(table: &T, sequence: &[Keysym], number: u32) -> Option<usize>
    requires { IsSettled (T.definitions table.now) }
    ensures { IfSome result
        (λ count. (count ≤ length sequence.now)
        × (take count sequence.now ≡ node_at (T.definitions table.now) number)) }
{
    let mut node = NodeId::ROOT;
    for (index, keysym) in sequence.iter().enumerate() {
        if node.0 == number {
            return Some(index);
        }
        match table.step(node, *keysym)? {
            Target::Node(next) => node = next,
            Target::Leaf(_) => return None,
        }
    }
    None
}
