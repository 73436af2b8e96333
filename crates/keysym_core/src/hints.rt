//! Hints for the index of a name, by its first and last bytes.
use crate::keysym::Keysym;
use indexmap::IndexMap;
use std::alloc::{AllocError, Global};

/// The number of hints for each name: the more there are, the fewer names collide.
const HINTS_PER_NAME: usize = 4;

/// Odd numbers without a pattern: a product with one of them has well-mixed upper bits.
const SPREAD_OF_FIRST: u64 = 0x9e37_79b9_7f4a_7c15;

const SPREAD_OF_LAST: u64 = 0xff51_afd7_ed55_8ccd;

/// Hints for the index of each name of a table: 8 bytes per name.
///
/// If names collide, the hint is right only for the first of them. So a hint is checked before it
/// is used.
#[derive(Drop)]
pub(crate) struct Hints {
    indexes: Vec<u16>,
}

impl Hints {
    /// Returns the hints for these names. O(names).
    pub(crate) fn new(
        alloc: Global,
        names: &IndexMap<String, Keysym>,
    ) -> Result<Hints, AllocError> {
        let mut hints = Hints {
            indexes: vec![in alloc; 0; names.len().saturating_mul(HINTS_PER_NAME)]?,
        };
        for (index, name) in names.keys().enumerate() {
            hints.note(name.as_bytes(), index);
        }
        Ok(hints)
    }

    /// Returns the hint for a name. O(1).
    pub(crate) fn index_of(&self, name: &[u8]) -> usize {
        match self.indexes.get(slot_of(name, self.indexes.len())) {
            Some(index) => usize::from(*index),
            None => 0,
        }
    }

    /// Notes the index of a name, unless it collides with an earlier one.
    fn note(&mut self, name: &[u8], index: usize) {
        let slot = slot_of(name, self.indexes.len());
        if let (Some(hint), Ok(index)) = (self.indexes.get_mut(slot), u16::try_from(index)) {
            if *hint == 0 {
                *hint = index;
            }
        }
    }
}

/// Returns the slot of a name's hint among this many: a hash of its first and last bytes, scaled to
/// the number of slots. O(1).
pub(crate) fn slot_of(name: &[u8], slots: usize) -> usize {
    let (first, last) = ends(name);
    let of_first = first.wrapping_mul(SPREAD_OF_FIRST);
    let of_last = last.wrapping_mul(SPREAD_OF_LAST);
    let hash = of_first.wrapping_add(of_last) >> 32;
    (hash.wrapping_mul(slots as u64) >> 32) as usize
}

/// Returns the first and the last bytes of a name as two numbers: eight bytes each, or four or one
/// if the name is shorter. O(1).
fn ends(name: &[u8]) -> (u64, u64) {
    match (name.first_chunk(), name.last_chunk()) {
        (Some(first), Some(last)) => (u64::from_le_bytes(*first), u64::from_le_bytes(*last)),
        _ => short_ends(name),
    }
}

/// Like `ends`, for a name of fewer than eight bytes.
fn short_ends(name: &[u8]) -> (u64, u64) {
    if let (Some(first), Some(last)) = (name.first_chunk(), name.last_chunk()) {
        let first = u32::from_le_bytes(*first);
        let last = u32::from_le_bytes(*last);
        return (u64::from(first), u64::from(last));
    }
    match (name.first(), name.last()) {
        (Some(first), Some(last)) => (u64::from(*first), u64::from(*last)),
        _ => (0, 0),
    }
}
