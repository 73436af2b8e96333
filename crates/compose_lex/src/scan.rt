//! The number of plain bytes at the beginning of a text.
ghost use Rattle.std.specs.Prelude.{◌≡◌};
ghost use Rattle.std.specs.List.{prefix_len};
ghost use Rattle.compose_lex.specs.Steps.{is_plain};

use compose_text::{ByteClass, leading_len};
use std::simd::prelude::*;

/// All bytes but the quote and the backslash.
struct Plain;

impl ByteClass for Plain {
    ghost has = { is_plain };

    #[inline(always)]
    fn has(byte: u8) -> bool {
        byte != b'"' && byte != b'\\'
    }

    #[inline(always)]
    fn others(bytes: u8x16) -> u64 {
        let quote = bytes.simd_eq(u8x16::splat(b'"'));
        let backslash = bytes.simd_eq(u8x16::splat(b'\\'));
        (quote | backslash).to_bitmask()
    }
}

/// Returns the number of bytes before the first quote or backslash. O(these bytes).
#[inline(always)]
pub(crate) fn plain_len(bytes: &[u8]) -> usize
    ensures { result ≡ prefix_len is_plain bytes.now }
{
    leading_len::<Plain>(bytes)
}
