//! The number of leading bytes of a class, found sixteen bytes at a time.
ghost use Rattle.std.specs.Prelude.{◌≡◌, ◌≤◌, ◌+◌, length, drop};
ghost use Rattle.std.specs.List.{prefix_len};

use std::simd::prelude::*;

/// A class of bytes, with a test of one byte and a test of sixteen.
pub trait ByteClass {
    ghost use Rattle.std.specs.Prelude.{ℕ, Bool, not, map};
    ghost use Rattle.std.specs.Simd.Lanes.{mask_l};

    /// The bytes of the class.
    ghost has: { ℕ → Bool };

    /// Returns whether the byte is of the class.
    fn has(byte: u8) -> bool
        ensures { result ≡ has byte };

    /// Returns a bit for each byte that is not of the class; the lowest bit is for the first byte.
    fn others(bytes: u8x16) -> u64
        ensures { result ≡ mask_l (map (λ b. not (has b)) bytes) };
}

/// Returns the end of the run of bytes of the class that begins at `from`, found one byte at a
/// time. O(bytes of the class).
#[inline(always)]
fn end_slowly<C: ByteClass>(bytes: &[u8], from: usize) -> usize
    requires { from ≤ length bytes.now }
    ensures { result ≡ from + prefix_len C.has (drop from bytes.now) }
{
    let mut at = from;
    while at < bytes.len() && C::has(bytes[at]) {
        at += 1;
    }
    at
}

/// Returns the number of leading bytes of the class. O(bytes of the class).
#[inline(always)]
pub fn leading_len<C: ByteClass>(bytes: &[u8]) -> usize
    ensures { result ≡ prefix_len C.has bytes.now }
{
    let mut at = 0;
    while bytes.len() - at >= 16 {
        let stops = C::others(u8x16::from_slice(&bytes[at..]));
        if stops != 0 {
            return at + stops.trailing_zeros() as usize;
        }
        at += 16;
    }
    end_slowly::<C>(bytes, at)
}
