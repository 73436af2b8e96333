//! Bytes divided into lines.
ghost use Rattle.std.specs.Prelude.{◌≡◌, ◌<◌, ◌+◌, [], ◌∷◌, length, drop, MatchOption};
ghost use Rattle.compose_text.specs.Lines.{in_line, lines_of};

use crate::class::{ByteClass, leading_len};
use std::simd::prelude::*;

/// All bytes but the newline.
struct InLine;

impl ByteClass for InLine {
    ghost has = { in_line };

    #[inline(always)]
    fn has(byte: u8) -> bool {
        byte != b'\n'
    }

    #[inline(always)]
    fn others(bytes: u8x16) -> u64 {
        bytes.simd_eq(u8x16::splat(b'\n')).to_bitmask()
    }
}

/// Returns the first line of the bytes, without its newline, and what follows it; `None` if there
/// are no bytes. O(bytes of the line).
pub fn first_line(bytes: &[u8]) -> Option<(&[u8], &[u8])>
    ensures lines { MatchOption result (lines_of bytes.now ≡ [])
        (λ parts. lines_of bytes.now ≡ parts.0.now ∷ lines_of parts.1.now) }
    ensures rest { MatchOption result (bytes.now ≡ [])
        (λ parts. parts.1.now ≡ drop (1 + length parts.0.now) bytes.now) }
    ensures shorter { MatchOption result (bytes.now ≡ [])
        (λ parts. length parts.1.now < length bytes.now) }
{
    if bytes.is_empty() {
        return None;
    }
    let end = leading_len::<InLine>(bytes);
    if end == bytes.len() {
        return Some((bytes, &[]));
    }
    Some((&bytes[..end], &bytes[end + 1..]))
}
