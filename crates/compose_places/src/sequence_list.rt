//! Sequences, stored one after another in one array.
ghost use Rattle.std.specs.Prelude.{◌≡◌, IfOk, map};

use compose_read::Definitions;
use keysym_core::Keysym;
use std::alloc::{AllocError, Global};
use std::marker::Model;

/// The place of a sequence's keysyms in the array.
#[derive(Clone, Copy)]
pub(crate) struct KeysymSpan {
    pub(crate) first: u32,
    pub(crate) count: u32,
}

/// Sequences: eight bytes for each, and four for each of its keysyms.
#[derive(Drop)]
pub(crate) struct SequenceList {
    keysyms: Vec<Keysym>,
    spans: Vec<KeysymSpan>,
}

impl Model for SequenceList {
    ghost use Rattle.std.specs.Prelude.{ℕ, List};
    ghost use Rattle.compose_places.specs.SequenceList.{sequences_at, AreWithin};

    ghost Value = { List (List ℕ) };

    ghost view = { λ l. sequences_at l.keysyms.items l.spans.items };

    ghost invariant = { λ l. AreWithin l.keysyms.items l.spans.items };
}

impl SequenceList {
    ghost use Rattle.std.specs.Prelude.{◌≡◌, ◌<◌, ◌++◌, [], ◌∷◌, length, Some, slice_get, IfOk, OnOk};

    /// Makes an empty list with room for this number of sequences.
    fn with_capacity(alloc: Global, capacity: usize) -> Result<SequenceList, AllocError>
        ensures { IfOk result (λ list. list ≡ []) }
    {
        Ok(SequenceList {
            keysyms: Vec::new(alloc),
            spans: Vec::with_capacity(alloc, capacity)?,
        })
    }

    /// Returns the number of sequences. O(1).
    pub(crate) fn len(&self) -> usize
        ensures { result ≡ length self.now }
    {
        self.spans.len()
    }

    /// Returns the sequence at this index. O(1).
    pub(crate) fn sequence(&self, index: usize) -> &[Keysym]
        requires { index < length self.now }
        ensures { slice_get self.now index ≡ Some result.now }
    {
        let span = self.spans[index];
        &self.keysyms[span.first as usize..][..span.count as usize]
    }

    /// Appends a sequence. O(keysyms).
    /// Errors: `AllocError` if memory runs out, or if a number doesn't fit into 32 bits, which none of
    /// a table does: it has at most 3,200,000 keysyms.
    fn push(&mut self, sequence: &[Keysym]) -> Result<(), AllocError>
        ensures { OnOk result (self.new ≡ self.old ++ sequence.now ∷ []) }
    {
        let span = KeysymSpan {
            first: short(self.keysyms.len())?,
            count: short(sequence.len())?,
        };
        self.keysyms.extend_from_slice(sequence)?;
        self.spans.push(span)?;
        Ok(())
    }
}

/// Returns the number in 32 bits; an error if it doesn't fit.
fn short(number: usize) -> Result<u32, AllocError>
    ensures { IfOk result (λ short. short ≡ number) }
{
    match u32::try_from(number) {
        Ok(short) => Ok(short),
        Err(_) => Err(AllocError),
    }
}

/// Collects the sequences of definitions. O(keysyms).
pub(crate) fn sequences_of(
    alloc: Global,
    definitions: &Definitions,
) -> Result<SequenceList, AllocError>
    ensures { IfOk result (λ sequences. sequences ≡ map (λ d. d.sequence) definitions.now) }
{
    let mut sequences = SequenceList::with_capacity(alloc, definitions.len())?;
    for index in 0..definitions.len() {
        sequences.push(definitions.sequence(index))?;
    }
    Ok(sequences)
}
