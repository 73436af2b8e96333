//! Settling: each sequence once, in rising order, and none a prefix of another.
ghost use Rattle.std.specs.Prelude.{◌≡◌, ◌≤◌, ◌<◌, ℕ, List, length, nat_eq, true, false, IfOk};
ghost use Rattle.compose_model.specs.Table.{Definition};
ghost use Rattle.keysym_core.specs.Names.{KeysymNames};
ghost use Rattle.compose_model.specs.Step.{run};
ghost use Rattle.compose_read.specs.Settle.{settled};
ghost use Rattle.compose_read.specs.Neighbours.{stays_before, settled_neighbours};
ghost use Rattle.compose_read.specs.ReadReturns.{SettleReturns};
ghost use Rattle.compose_read.specs.Rows.{rows_of, ArePlaced};
ghost use Rattle.std.specs.List.{All, starts_with};
ghost use Rattle.compose_read.specs.declared.rows.RowSpan.{RowSpan};
ghost use Rattle.compose_read.specs.declared.settling.SettleFault.TheVariants.{NoMemory};

use crate::definitions::Definitions;
use crate::rows::{RowSpan, Rows, keysyms_at};
use crate::sequences::Sequences;
use crate::sorting::sorted;
use arrayvec::ArrayVec;
use compose_model::Rule;
use keysym_core::{KeyList, Keysym};
use std::alloc::{AllocError, AllocFailed, Global};
use thiserror::Error;

/// The reason why definitions cannot be settled.
#[derive(Debug, PartialEq, Eq, Drop, Error)]
pub enum SettleFault {
    /// An overlap: the least sequence that is a prefix of another one, and the least one that it is
    /// a prefix of.
    #[error("1 Overlap short={short} long={long}")]
    Overlap { short: KeyList, long: KeyList },
    /// Memory ran out.
    #[error("2 NoMemory")]
    NoMemory,
}

impl From<AllocError> for SettleFault {
    ghost from_gives = { λ _ e. e ≡ NoMemory };

    fn from(_error: AllocError) -> SettleFault {
        SettleFault::NoMemory
    }
}

impl<T: Drop> From<AllocFailed<T>> for SettleFault {
    ghost from_gives = { λ _ e. e ≡ NoMemory };

    fn from(_error: AllocFailed<T>) -> SettleFault {
        SettleFault::NoMemory
    }
}

/// Returns the sequences of the definitions in rising order, each with the text of its last
/// definition. If one is a prefix of another, the rule decides: the table is rejected, or the
/// longer one overrides the shorter one (libxkbcommon). O(n log n) comparisons of sequences.
///
/// Errors: `Overlap` if one sequence is a prefix of another and the rule is `Refuse`; `NoMemory` if
/// memory runs out.
pub fn settle(alloc: Global, definitions: Definitions, rule: Rule) -> Result<Sequences, SettleFault>
    ensures exact { SettleReturns (λ (rows : List Definition). rows) result
        (settled rule definitions) }
    ensures runs { IfOk result
        (λ rows. (names : KeysymNames) (keys : List ℕ)
        → run names rows keys ≡ run names definitions keys) }
{
    let rows = definitions.into_rows();
    let keysyms = rows.keysyms;
    let texts = rows.texts;
    let sorted = sorted(alloc, &keysyms, rows.spans)?;
    let spans = settle_sorted(alloc, &keysyms, sorted, rule)?;
    Ok(Sequences::from_rows(Rows {
        keysyms,
        texts,
        spans,
    }))
}

/// Returns the spans of the rows that are kept, given all spans in rising order.
fn settle_sorted(
    alloc: Global,
    keysyms: &[Keysym],
    spans: Vec<RowSpan>,
    rule: Rule,
) -> Result<Vec<RowSpan>, SettleFault>
    requires { All (λ p. p.keysym_count ≤ 32) spans.items }
    ensures settled { (texts : List ℕ)
        → SettleReturns (λ v. rows_of keysyms.now texts v.items) result
        (settled_neighbours rule (rows_of keysyms.now texts spans.items)) }
    ensures placed { IfOk result
        (λ v. (texts : List ℕ) → ArePlaced keysyms.now texts spans.items
        → ArePlaced keysyms.now texts v.items) }
{
    let mut kept = Vec::with_capacity(alloc, spans.len())?;
    let mut last: Option<RowSpan> = None;
    for span in spans {
        if let Some(before) = last {
            let (short, long) = (keysyms_at(keysyms, before), keysyms_at(keysyms, span));
            if is_prefix(short, long) {
                leave_out(short, long, rule)?;
            } else {
                kept.push(before)?;
            }
        }
        last = Some(span);
    }
    if let Some(span) = last {
        kept.push(span)?;
    }
    Ok(kept)
}

/// Leaves out a row whose sequence is a prefix of that of the next one, or reports an overlap if
/// the next one is longer and the rule is `Refuse`.
fn leave_out(short: &[Keysym], long: &[Keysym], rule: Rule) -> Result<(), SettleFault>
    requires few { (length short.now ≤ 32) × (length long.now ≤ 32) }
    requires is_prefix { starts_with nat_eq long.now short.now ≡ true }
    ensures { (d e : Definition) → d.sequence ≡ short.now → e.sequence ≡ long.now
        → SettleReturns (λ _. false) result (stays_before rule d e) }
{
    if long.len() == short.len() {
        return Ok(());
    }
    match rule {
        Rule::Refuse => Err(SettleFault::Overlap {
            short: key_list(short),
            long: key_list(long),
        }),
        Rule::Longest => Ok(()),
    }
}

/// Returns whether the first of two sequences is a prefix of the second one. If it is not,
/// comparing the last keysym first mostly shows that at once.
fn is_prefix(short: &[Keysym], long: &[Keysym]) -> bool
    ensures { result ≡ starts_with nat_eq long.now short.now }
{
    if short.is_empty() || long.len() < short.len() {
        return long.starts_with(short);
    }
    let last = short.len() - 1;
    short[last] == long[last] && long.starts_with(short)
}

/// Returns a copy of at most 32 keysyms.
fn key_list(keys: &[Keysym]) -> KeyList
    requires { length keys.now ≤ 32 }
    ensures { result.0.items ≡ keys.now }
{
    let mut list = ArrayVec::new();
    list.try_extend_from_slice(keys).unwrap();
    KeyList(list)
}
