//! Signs of a line that other readers may skip, found without splitting the line into tokens.
ghost use Rattle.std.specs.Prelude.{◌≡◌, ◌<◌, ◌+◌, ◌||◌, length, nat_le};
ghost use Rattle.std.specs.Simd.Lanes.{mask_l, zip2};
ghost use Rattle.compose_lint.specs.Lost as words;

use std::simd::prelude::*;

/// Returns whether libX11 or libxkbcommon may skip the line for its own bytes. If this is false,
/// only its place in the file can make one of them skip it. O(bytes).
pub(crate) fn may_be_skipped(line: &[u8]) -> bool
    ensures { result ≡ words.may_be_skipped line.now }
{
    line.len() >= 255 || has_sign(line)
}

/// Returns whether the line has two consecutive bytes that are a sign. It looks at sixteen such
/// pairs at once, and at the last sixteen again. O(bytes).
pub(crate) fn has_sign_pair(line: &[u8]) -> bool
    ensures { result ≡ words.has_sign_after 58 line.now }
{
    if line.len() < 17 {
        return has_sign_after(b':', line);
    }
    if is_sign(b':', line[0]) {
        return true;
    }
    let mut at = 1;
    while line.len() - at >= 16 {
        if signs(
            u8x16::from_slice(&line[at - 1..]),
            u8x16::from_slice(&line[at..]),
        ) != 0
        {
            return true;
        }
        at += 16;
    }
    let last = line.len() - 16;
    signs(
        u8x16::from_slice(&line[last - 1..]),
        u8x16::from_slice(&line[last..]),
    ) != 0
}

/// Returns whether there is a sign in `first` and then these bytes.
fn has_sign_after(first: u8, line: &[u8]) -> bool
    ensures { result ≡ words.has_sign_after first line.now }
{
    let mut before = first;
    for byte in line {
        if is_sign(before, *byte) {
            return true;
        }
        before = *byte;
    }
    false
}

/// Returns whether the line, which is shorter than 255 bytes, has two consecutive bytes that are a
/// sign, or ten `<`. It looks at sixteen such pairs at once.
fn has_sign(line: &[u8]) -> bool
    requires { length line.now < 255 }
    ensures { result
        ≡ words.has_sign_after 58 line.now || nat_le 10 (words.openings line.now) }
{
    if line.is_empty() {
        return false;
    }
    if is_sign(b':', line[0]) {
        return true;
    }
    let mut at = 1;
    let mut openings = u32::from(line[0] == b'<');
    while line.len() - at >= 16 {
        let seconds = u8x16::from_slice(&line[at..]);
        if signs(u8x16::from_slice(&line[at - 1..]), seconds) != 0 {
            return true;
        }
        openings += opening_count(seconds);
        at += 16;
    }
    has_sign_in_rest(line[at - 1], openings, &line[at..])
}

/// Returns a bit for each pair of bytes, the first of one list and the second of the other, that
/// is a sign; the lowest bit is for the first pair.
#[inline(always)]
fn signs(firsts: u8x16, seconds: u8x16) -> u64
    ensures { result ≡ mask_l (zip2 words.is_sign firsts seconds) }
{
    let returns = seconds.simd_eq(u8x16::splat(b'\r'));
    let badly_opened = firsts.simd_eq(u8x16::splat(b'<'))
        & (seconds.simd_le(u8x16::splat(b'0')) | seconds.simd_eq(u8x16::splat(b'N')));
    let badly_closed = firsts.simd_le(u8x16::splat(b' ')) & seconds.simd_eq(u8x16::splat(b'>'));
    let digits = (firsts.simd_le(u8x16::splat(b'"')) | firsts.simd_eq(u8x16::splat(b':')))
        & (seconds.simd_ge(u8x16::splat(b'0')) & seconds.simd_le(u8x16::splat(b'9')));
    (returns | badly_opened | badly_closed | digits).to_bitmask()
}

/// Returns the number of `<` among the bytes.
#[inline(always)]
fn opening_count(bytes: u8x16) -> u32
    ensures { result ≡ words.openings bytes }
{
    bytes.simd_eq(u8x16::splat(b'<')).to_bitmask().count_ones()
}

/// Returns whether there is a sign in these bytes, which follow the byte `before`, or whether there
/// are ten `<` with those before them.
fn has_sign_in_rest(before: u8, openings: u32, rest: &[u8]) -> bool
    requires { openings + length rest.now < 255 }
    ensures { result
        ≡ words.has_sign_after before rest.now
        || nat_le 10 (openings + words.openings rest.now) }
{
    let mut found = false;
    let mut openings = openings;
    let mut first = before;
    for second in rest {
        found = found | is_sign(first, *second);
        if *second == b'<' {
            openings += 1;
        }
        first = *second;
    }
    found || openings >= 10
}

/// Returns whether these two consecutive bytes are a sign.
fn is_sign(first: u8, second: u8) -> bool
    ensures { result ≡ words.is_sign first second }
{
    (second == b'\r')
        | ((first == b'<') & ((second <= b'0') | (second == b'N')))
        | ((first <= b' ') & (second == b'>'))
        | (((first <= b'"') | (first == b':')) & (second >= b'0') & (second <= b'9'))
}
