//! The files `compose.dir` and `locale.alias`: each line maps a file or an alias to a locale.
ghost use Rattle.std.specs.Prelude.{◌≡◌, Some, None, option_copied, string_bytes, MatchOption, IfOk};
ghost use Rattle.std.specs.Option.{option_map};
ghost use Rattle.compose_text.specs.Bytes.{leading, behind};
ghost use Rattle.compose_find.specs.Locales as locales;

use crate::paths::in_folder;
use compose_text::{ByteClass, blank_len, first_line, leading_len};
use std::alloc::{AllocError, Global};
use std::simd::prelude::*;

/// All bytes but blanks.
struct WordByte;

impl ByteClass for WordByte {
    ghost has = { locales.is_word_byte };

    #[inline(always)]
    fn has(byte: u8) -> bool {
        byte != b' ' && byte != b'\t' && byte != b'\r'
    }

    #[inline(always)]
    fn others(bytes: u8x16) -> u64 {
        let space = bytes.simd_eq(u8x16::splat(b' '));
        let tab = bytes.simd_eq(u8x16::splat(b'\t'));
        let carriage_return = bytes.simd_eq(u8x16::splat(b'\r'));
        (space | tab | carriage_return).to_bitmask()
    }
}

/// All bytes but blanks and the colon.
struct LeftByte;

impl ByteClass for LeftByte {
    ghost has = { locales.is_left_byte };

    #[inline(always)]
    fn has(byte: u8) -> bool {
        WordByte::has(byte) && byte != b':'
    }

    #[inline(always)]
    fn others(bytes: u8x16) -> u64 {
        let space = bytes.simd_eq(u8x16::splat(b' '));
        let tab = bytes.simd_eq(u8x16::splat(b'\t'));
        let carriage_return = bytes.simd_eq(u8x16::splat(b'\r'));
        let colon = bytes.simd_eq(u8x16::splat(b':'));
        (space | tab | carriage_return | colon).to_bitmask()
    }
}

/// Returns the path of the table of a locale, for `%L`: the file that `compose.dir` lists for it,
/// in this folder. If `locale.alias` lists the locale as an alias, its target is looked up instead.
/// `None` if no file is listed, or its name is not UTF-8. O(bytes).
///
/// Errors: `AllocError` if memory runs out.
pub fn locale_file(
    alloc: Global,
    folder: &str,
    compose_dir: &[u8],
    aliases: &[u8],
    locale: &str,
) -> Result<Option<String>, AllocError>
    ensures { IfOk result
        (λ file. option_map string_bytes file
        ≡ locales.locale_file folder.now compose_dir.now aliases.now locale.now) }
{
    let name = alias_target(aliases, locale.as_bytes());
    let Some(entry) = compose_dir_entry(compose_dir, name) else {
        return Ok(None);
    };
    entry_path(alloc, folder, entry)
}

/// Returns the locale of which this one is an alias, or else the locale itself.
fn alias_target<'a>(aliases: &'a [u8], locale: &'a [u8]) -> &'a [u8]
    ensures { result.now ≡ locales.alias_target aliases.now locale.now }
{
    locale_alias(aliases, locale).unwrap_or(locale)
}

/// Returns the path of an entry of `compose.dir`, if it is UTF-8.
fn entry_path(alloc: Global, folder: &str, entry: &[u8]) -> Result<Option<String>, AllocError>
    ensures { IfOk result
        (λ path. option_map string_bytes path ≡ locales.entry_path folder.now entry.now) }
{
    match str::from_utf8(entry) {
        Ok(entry) => Ok(Some(in_folder(alloc, folder, entry)?)),
        Err(_) => Ok(None),
    }
}

/// Returns the file that `compose.dir` lists for the locale: the left word of the first line whose
/// right word is the locale. A line is `FILE: LOCALE` or `FILE LOCALE`; comments and lines without
/// two words list nothing. O(bytes).
fn compose_dir_entry<'a>(compose_dir: &'a [u8], locale: &[u8]) -> Option<&'a [u8]>
    ensures { option_copied result ≡ locales.compose_dir_entry compose_dir.now locale.now }
{
    let mut rest = compose_dir;
    while let Some((line, behind)) = first_line(rest) {
        if let Some((left, right)) = pair_of(line) {
            if right == locale {
                return Some(left);
            }
        }
        rest = behind;
    }
    None
}

/// Returns the locale for an alias in `locale.alias`: the right word of the first line whose left
/// word is the alias. A line is `ALIAS: LOCALE` or `ALIAS LOCALE`; comments and lines without two
/// words list nothing. O(bytes).
fn locale_alias<'a>(locale_alias: &'a [u8], alias: &[u8]) -> Option<&'a [u8]>
    ensures { option_copied result ≡ locales.locale_alias locale_alias.now alias.now }
{
    let mut rest = locale_alias;
    while let Some((line, behind)) = first_line(rest) {
        if let Some((left, right)) = pair_of(line) {
            if left == alias {
                return Some(right);
            }
        }
        rest = behind;
    }
    None
}

/// Returns the two words of a line, if it has two and is no comment.
fn pair_of(line: &[u8]) -> Option<(&[u8], &[u8])>
    ensures { MatchOption result (locales.pair_of line.now ≡ None)
        (λ pair. locales.pair_of line.now ≡ Some (pair.0.now, pair.1.now)) }
{
    let (left, behind) = split_prefix::<LeftByte>(skip_blanks(line));
    let (right, _) = split_prefix::<WordByte>(skip_blanks(past_colon(behind)));
    if left.is_empty() || right.is_empty() || left[0] == b'#' {
        return None;
    }
    Some((left, right))
}

/// Skips the blanks at the beginning.
fn skip_blanks(bytes: &[u8]) -> &[u8]
    ensures { result.now ≡ locales.skip_blanks bytes.now }
{
    &bytes[blank_len(bytes)..]
}

/// Splits off the longest prefix whose bytes are all of the class.
fn split_prefix<C: ByteClass>(bytes: &[u8]) -> (&[u8], &[u8])
    ensures leading { result.0.now ≡ leading C.has bytes.now }
    ensures rest { result.1.now ≡ behind C.has bytes.now }
{
    let len = leading_len::<C>(bytes);
    (&bytes[..len], &bytes[len..])
}

/// Skips one colon at the beginning, if there is one.
fn past_colon(bytes: &[u8]) -> &[u8]
    ensures { result.now ≡ locales.past_colon bytes.now }
{
    match bytes.first() {
        Some(b':') => &bytes[1..],
        _ => bytes,
    }
}
