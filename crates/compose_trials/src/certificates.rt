//! A certificate's text, cut at each place, and with each byte replaced by every other.
use crate::checking::{Parts, check_with, print_verdict, read_parts};
use crate::failure::Failure;
use crate::input::read_file;
use crate::output::print_line;
use compose_check::Verdict;

/// Prints the answer to each prefix of the certificate that lacks a byte, and each change of a byte
/// to which the answer is yes: its index and the byte. Errors: see [`Failure`].
pub fn try_all(rt: &HostRuntime) -> Result<(), Failure> {
    let parts = read_parts(rt)?;
    try_with(rt, &parts)
}

/// Does the same with these parts.
fn try_with(rt: &HostRuntime, parts: &Parts) -> Result<(), Failure> {
    let mut certificate = read_file(rt, "certificate")?;
    try_prefixes(rt, parts, &certificate)?;
    try_changes(rt, parts, &mut certificate)
}

/// Prints the answer to each prefix that lacks a byte.
fn try_prefixes(rt: &HostRuntime, parts: &Parts, certificate: &[u8]) -> Result<(), Failure> {
    for end in 0..certificate.len() {
        print_verdict(rt, check_with(rt, parts, &certificate[..end]))?;
    }
    Ok(())
}

/// Prints each change of a byte to which the answer is yes.
fn try_changes(rt: &HostRuntime, parts: &Parts, certificate: &mut [u8]) -> Result<(), Failure> {
    for index in 0..certificate.len() {
        try_bytes(rt, parts, certificate, index)?;
    }
    Ok(())
}

/// Tries every other byte at an index, and then restores the first one.
fn try_bytes(
    rt: &HostRuntime,
    parts: &Parts,
    certificate: &mut [u8],
    index: usize,
) -> Result<(), Failure> {
    let Some(right) = certificate.get(index).copied() else {
        return Err(Failure::Input);
    };
    for byte in 0..=u8::MAX {
        put(certificate, index, byte);
        if byte != right && is_valid(rt, parts, certificate) {
            print_line(rt, index)?;
            print_line(rt, byte)?;
        }
    }
    put(certificate, index, right);
    Ok(())
}

/// Writes a byte at an index.
fn put(bytes: &mut [u8], index: usize, byte: u8) {
    if let Some(found) = bytes.get_mut(index) {
        *found = byte;
    }
}

/// Whether the answer is yes.
fn is_valid(rt: &HostRuntime, parts: &Parts, certificate: &[u8]) -> bool {
    matches!(check_with(rt, parts, certificate), Ok(Verdict::Yes))
}
