//! Blanks, and the bytes of a name.
ghost use Rattle.std.specs.Prelude.{◌≡◌};
ghost use Rattle.std.specs.List.{prefix_len};
ghost use Rattle.compose_text.specs.Bytes.{is_blank, is_name_byte};

use crate::class::{ByteClass, leading_len};
use std::simd::prelude::*;

/// Space, tab and carriage return.
struct Blank;

impl ByteClass for Blank {
    ghost has = { is_blank };

    #[inline(always)]
    fn has(byte: u8) -> bool {
        byte == b' ' || byte == b'\t' || byte == b'\r'
    }

    #[inline(always)]
    fn others(bytes: u8x16) -> u64 {
        let no_space = bytes.simd_ne(u8x16::splat(b' '));
        let no_tab = bytes.simd_ne(u8x16::splat(b'\t'));
        let no_return = bytes.simd_ne(u8x16::splat(b'\r'));
        (no_space & no_tab & no_return).to_bitmask()
    }
}

/// ASCII letters, digits and the underscore.
struct NameByte;

impl ByteClass for NameByte {
    ghost has = { is_name_byte };

    #[inline(always)]
    fn has(byte: u8) -> bool {
        byte.is_ascii_alphanumeric() || byte == b'_'
    }

    #[inline(always)]
    fn others(bytes: u8x16) -> u64 {
        let lowercase = bytes | u8x16::splat(0x20);
        let no_letter = (lowercase - u8x16::splat(b'a')).simd_ge(u8x16::splat(26));
        let no_digit = (bytes - u8x16::splat(b'0')).simd_ge(u8x16::splat(10));
        let no_underscore = bytes.simd_ne(u8x16::splat(b'_'));
        (no_letter & no_digit & no_underscore).to_bitmask()
    }
}

/// Returns the number of leading blanks. Mostly there is none or one, and checking for these first
/// is faster than testing sixteen bytes at once. O(blanks).
#[inline(always)]
pub fn blank_len(bytes: &[u8]) -> usize
    ensures { result ≡ prefix_len is_blank bytes.now }
{
    if bytes.is_empty() || !Blank::has(bytes[0]) {
        return 0;
    }
    if bytes.len() == 1 || !Blank::has(bytes[1]) {
        return 1;
    }
    leading_len::<Blank>(bytes)
}

/// Returns the number of leading bytes of a name: ASCII letters, digits and underscores. O(bytes of
/// the name).
#[inline(always)]
pub fn name_len(bytes: &[u8]) -> usize
    ensures { result ≡ prefix_len is_name_byte bytes.now }
{
    leading_len::<NameByte>(bytes)
}
