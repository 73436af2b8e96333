//! Reading a bundle from a payload.
ghost use Rattle.std.specs.Prelude.{◌≡◌, ◌<◌, ◌≤◌, [], Some, None, length, MatchOption, MatchResult, option_map};
ghost use Rattle.std.specs.Int.{from_be_bytes, w16, w32};
ghost use Rattle.compose_bundle.specs.Bundle.{IsBundle};
ghost use Rattle.compose_bundle.specs.Decoded as words;
ghost use Rattle.compose_bundle.specs.Decoded.{split, sized_by_2, sized_by_4, sources_at, bundle_of};
ghost use Rattle.compose_bundle.specs.Written.{NotRead, NotDecoded};

use crate::BundleFault;
use compose_read::{SourceFault, Sources};
use std::alloc::Global;

/// The largest number of sources in a bundle.
const MOST_SOURCES: u16 = 64;

/// The sources of a table, the root first, and the text of a certificate.
#[derive(Drop)]
pub struct Bundle<'b> {
    /// The sources of the table; the first one is its root.
    pub sources: Sources<'b>,
    /// The text of the certificate.
    pub certificate: &'b [u8],
}

/// Reads a payload as a bundle.
///
/// A payload is two bytes with the number of sources, 1 to 64; for each source two bytes with the
/// length of its name, the name, four bytes with the length of its content, and the content; four
/// bytes with the length of the certificate, and the certificate. Nothing follows. All numbers are
/// big-endian; the names are UTF-8 and distinct. O(bytes); the contents and the certificate are
/// borrowed.
///
/// Errors: `Form` if the payload is not a bundle, `NoMemory` if memory runs out.
pub fn read_bundle(alloc: Global, payload: &[u8]) -> Result<Bundle<'_>, BundleFault>
    ensures { MatchResult result
        (λ b. IsBundle payload.now
        (record { sources = b.sources; certificate = b.certificate.now }))
        (λ fault. NotRead fault payload.now) }
{
    decode(alloc, payload)
}

/// Decodes the payload part by part.
fn decode(alloc: Global, bytes: &[u8]) -> Result<Bundle<'_>, BundleFault>
    ensures { MatchResult result
        (λ b. bundle_of bytes.now
        ≡ Some (record { sources = b.sources; certificate = b.certificate.now }))
        (λ fault. NotDecoded fault (bundle_of bytes.now)) }
{
    let Some((count, rest)) = split_count(bytes) else {
        return Err(BundleFault::Form);
    };
    if count == 0 || count > MOST_SOURCES {
        return Err(BundleFault::Form);
    }
    let (sources, rest) = match read_sources(alloc, count, rest) {
        Ok(read) => read,
        Err(fault) => return Err(fault),
    };
    let Some((certificate, rest)) = split_by_4(rest) else {
        return Err(BundleFault::Form);
    };
    if !rest.is_empty() {
        return Err(BundleFault::Form);
    }
    Ok(Bundle {
        sources,
        certificate,
    })
}

/// Reads `count` sources, and returns them with the bytes after them.
fn read_sources(
    alloc: Global,
    count: u16,
    bytes: &[u8],
) -> Result<(Sources<'_>, &[u8]), BundleFault>
    requires { count ≤ 64 }
    ensures { MatchResult result (λ p. sources_at count [] bytes.now ≡ Some (p.0, p.1.now))
        (λ fault. NotDecoded fault (sources_at count [] bytes.now)) }
{
    let mut sources = Sources::new(alloc);
    let mut rest = bytes;
    for index in 0..count {
        match read_source(alloc, &mut sources, rest) {
            Ok(left) => rest = left,
            Err(fault) => return Err(fault),
        }
    }
    Ok((sources, rest))
}

/// Adds the source at the beginning of the bytes, and returns the bytes after it.
fn read_source<'b>(
    alloc: Global,
    sources: &mut Sources<'b>,
    bytes: &'b [u8],
) -> Result<&'b [u8], BundleFault>
    requires { length sources.old < 64 }
    ensures { MatchResult result
        (λ rest. words.AddsSource sources.old bytes.now sources.new rest.now)
        (λ fault. NotDecoded fault (words.more_source sources.old bytes.now)) }
{
    let Some((name, rest)) = split_by_2(bytes) else {
        return Err(BundleFault::Form);
    };
    let Ok(name) = str::from_utf8(name) else {
        return Err(BundleFault::Form);
    };
    let Some((content, rest)) = split_by_4(rest) else {
        return Err(BundleFault::Form);
    };
    match sources.add_borrowed(name, content) {
        Ok(()) => Ok(rest),
        Err(SourceFault::NoMemory) => Err(BundleFault::NoMemory),
        Err(SourceFault::NameTaken | SourceFault::TooManySources) => Err(BundleFault::Form),
    }
}

/// Splits off a number of two bytes.
fn split_count(bytes: &[u8]) -> Option<(u16, &[u8])>
    ensures { MatchOption result (split 2 bytes.now ≡ None)
        (λ p. (head : _) × (split 2 bytes.now ≡ Some (head, p.1.now))
        × (p.0 ≡ from_be_bytes w16 head)) }
{
    let (head, rest) = bytes.split_at_checked(2)?;
    Some((u16::from_be_bytes([head[0], head[1]]), rest))
}

/// Splits off a piece whose length is in the first two bytes.
fn split_by_2(bytes: &[u8]) -> Option<(&[u8], &[u8])>
    ensures { option_map (λ p. (p.0.now, p.1.now)) result ≡ sized_by_2 bytes.now }
{
    let (head, rest) = bytes.split_at_checked(2)?;
    rest.split_at_checked(usize::from(u16::from_be_bytes([head[0], head[1]])))
}

/// Splits off a piece whose length is in the first four bytes.
fn split_by_4(bytes: &[u8]) -> Option<(&[u8], &[u8])>
    ensures { option_map (λ p. (p.0.now, p.1.now)) result ≡ sized_by_4 bytes.now }
{
    let (head, rest) = bytes.split_at_checked(4)?;
    rest.split_at_checked(u32::from_be_bytes([head[0], head[1], head[2], head[3]]) as usize)
}
