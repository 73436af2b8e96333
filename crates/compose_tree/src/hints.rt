//! Hints for the index of an edge, by node and keysym.
ghost use Rattle.std.specs.Prelude.{◌≡◌, length};

use crate::table::NodeId;
use keysym_core::Keysym;
use std::alloc::{AllocError, Global};
use std::marker::Model;

/// The number of hints for each edge. The more hints there are, the more often an edge has one.
const HINTS_PER_EDGE: usize = 2;

/// A hint that is not noted yet.
const NO_HINT: u8 = 255;

/// An odd number that mixes the bits of a node: 2^32 divided by the golden ratio.
const NODE_MULTIPLIER: u32 = 0x9e37_79b1;

/// An odd number that mixes the bits of a keysym: a multiplier of the last step of MurmurHash3.
const KEYSYM_MULTIPLIER: u32 = 0x85eb_ca6b;

/// A hash table of hints for the index of each edge among its node's edges: 2 bytes per edge. Its
/// value is these bytes.
///
/// An edge has two slots, and its hint is in one of them, unless other edges have both. Edges after
/// the 255th of a node have no hint. So a hint has to be checked before it is used.
#[derive(Drop)]
pub struct Hints {
    indexes: Vec<u8>,
}

impl Model for Hints {
    ghost use Rattle.std.specs.Prelude.{ℕ, List};

    ghost Value = { List ℕ };

    ghost view = { λ h. h.indexes.items };
}

impl Hints {
    ghost use Rattle.std.specs.Prelude.{◌≡◌, ◌<◌, ◌*◌, length, IfOk};

    /// Makes hints for this number of edges, none of which is noted yet. O(edges).
    ///
    /// Errors: `AllocError` if memory runs out.
    pub fn new(alloc: Global, edge_count: usize) -> Result<Hints, AllocError>
        requires { edge_count < 4294967296 }
        ensures { IfOk result (λ hints. length hints ≡ 2 * edge_count) }
    {
        Ok(Hints {
            indexes: vec![in alloc; NO_HINT; edge_count * HINTS_PER_EDGE]?,
        })
    }

    /// Returns the hints as bytes. O(1).
    pub fn bytes(&self) -> &[u8]
        ensures { result.now ≡ self.now }
    {
        self.indexes.as_slice()
    }

    /// Notes the index of the edge of this keysym among the node's edges, if one of its slots is
    /// free. O(1).
    pub fn note(&mut self, node: NodeId, keysym: Keysym, index: usize)
        ensures { length self.new ≡ length self.old }
    {
        let Ok(index) = u8::try_from(index) else {
            return;
        };
        let (first, second) = slots(self.indexes.len(), node, keysym);
        if !put(&mut self.indexes, first, index) {
            put(&mut self.indexes, second, index);
        }
    }
}

/// Puts the hint into the slot, if it is free, and returns whether it was. O(1).
fn put(indexes: &mut [u8], slot: usize, index: u8) -> bool
    ensures { length indexes.new ≡ length indexes.old }
{
    match indexes.get_mut(slot) {
        Some(hint) if *hint == NO_HINT => {
            *hint = index;
            true
        }
        _ => false,
    }
}

/// Returns the hint in this slot. O(1).
pub fn hint_at(indexes: &[u8], slot: usize) -> usize {
    match indexes.get(slot) {
        Some(index) => usize::from(*index),
        None => usize::from(NO_HINT),
    }
}

/// Returns the two slots for this keysym at the node, of this number of slots: two hashes of both,
/// scaled. O(1).
pub fn slots(count: usize, node: NodeId, keysym: Keysym) -> (usize, usize) {
    let of_node = node.0.wrapping_mul(NODE_MULTIPLIER);
    let of_keysym = keysym.value().wrapping_mul(KEYSYM_MULTIPLIER);
    let hash = of_node.wrapping_add(of_keysym);
    (scaled(hash, count), scaled(hash.rotate_left(16), count))
}

/// Returns the hash, scaled to this number of slots.
fn scaled(hash: u32, count: usize) -> usize {
    (u64::from(hash).wrapping_mul(count as u64) >> 32) as usize
}
