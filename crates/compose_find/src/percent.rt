//! The path to which the text of an include expands.
ghost use Rattle.std.specs.Prelude.{◌≡◌, ◌<◌, length, string_bytes, option_copied};
ghost use Rattle.std.specs.List.{prefix_len};
ghost use Rattle.compose_text.specs.Bytes.{leading, behind};
ghost use Rattle.compose_find.specs.Expand.{is_plain, meaning_at, path_of};
ghost use Rattle.compose_find.specs.FindReturns.{words, Returns, IsPiece};

use crate::IncludeFault;
use compose_text::{ByteClass, leading_len};
use std::alloc::Global;
use std::simd::prelude::*;

/// The values of `%S`, `%L` and `%H`, and the folder below which absolute paths are looked for.
#[derive(Clone, Copy, Debug, Drop)]
pub struct Meanings<'a> {
    /// `%S`: the folder of the system's tables.
    pub system: &'a str,
    /// `%L`: the path of the table of the locale, if known.
    pub locale: Option<&'a str>,
    /// `%H`: the user's home folder, if known.
    pub home: Option<&'a str>,
    /// The folder below which an absolute path is looked for first, if there is one.
    pub root: Option<&'a str>,
}

/// All bytes but the percent sign.
struct Plain;

impl ByteClass for Plain {
    ghost has = { is_plain };

    #[inline(always)]
    fn has(byte: u8) -> bool {
        byte != b'%'
    }

    #[inline(always)]
    fn others(bytes: u8x16) -> u64 {
        bytes.simd_eq(u8x16::splat(b'%')).to_bitmask()
    }
}

/// Returns the path to which the text of an include expands: `%S`, `%L` and `%H` are replaced by
/// their values, and `%%` by a percent sign. O(bytes of the text and of the path).
///
/// Errors: that of the leftmost bad percent sign (`UnknownPercent`, `NoLocale` or `NoHome`), or
/// `NoMemory`.
pub fn expand(alloc: Global, meanings: Meanings<'_>, text: &str) -> Result<String, IncludeFault>
    ensures { Returns string_bytes result (path_of (words meanings.entry) text.now) }
{
    let mut path = String::new(alloc);
    let mut rest = text;
    while !rest.is_empty() {
        let (piece, behind) = piece_at(meanings, rest)?;
        path.push_str(piece)?;
        rest = behind;
    }
    Ok(path)
}

/// Splits off the first piece of the text, with its value: the bytes before the first percent sign,
/// or else the percent sign and the byte after it. Returns the value and the rest.
fn piece_at<'a>(meanings: Meanings<'a>, text: &'a str) -> Result<(&'a str, &'a str), IncludeFault>
    requires { 0 < length text.now }
    ensures { IsPiece (words meanings.entry) text.now result }
{
    match text.as_bytes().first() {
        Some(b'%') => meaning_at(meanings, &text[1..]),
        _ => Ok(split_plain(text)),
    }
}

/// Splits the text before its first percent sign.
fn split_plain(text: &str) -> (&str, &str)
    ensures plain { result.0.now ≡ leading is_plain text.now }
    ensures rest { result.1.now ≡ behind is_plain text.now }
{
    let len = leading_len::<Plain>(text.as_bytes());
    (&text[..len], &text[len..])
}

/// Returns the value of a percent sign and the byte after it, and the rest of the text.
fn meaning_at<'a>(
    meanings: Meanings<'a>,
    behind: &'a str,
) -> Result<(&'a str, &'a str), IncludeFault>
    ensures { Returns (λ x. (x.0.now, x.1.now)) result
        (meaning_at (words meanings.entry) behind.now) }
{
    match behind.as_bytes().first() {
        Some(b'%') => Ok(("%", &behind[1..])),
        Some(b'S') => Ok((meanings.system, &behind[1..])),
        Some(b'L') => Ok((meanings.locale.ok_or(IncludeFault::NoLocale)?, &behind[1..])),
        Some(b'H') => Ok((meanings.home.ok_or(IncludeFault::NoHome)?, &behind[1..])),
        _ => Err(IncludeFault::UnknownPercent),
    }
}
