//! The text of a string.
ghost use Rattle.std.specs.Prelude.{◌≤◌, length};

use crate::cause::Cause;
use crate::xkbcommon::tokens::BUFFER;
use crate::xkbcommon::{Reader, Version};
use std::alloc::{AllocError, Global};

/// Returns the number that at most `most` leading digits write, and how many these are.
fn code_at(radix: u32, most: usize, rest: &[u8]) -> (u32, usize)
    requires low { 2 ≤ radix }
    requires high { radix ≤ 36 }
    ensures { result.1 ≤ length rest.now }
{
    let mut value = 0u32;
    for (len, byte) in rest.iter().enumerate() {
        if len >= most {
            return (value, len);
        }
        let Some(digit) = char::from(*byte).to_digit(radix) else {
            return (value, len);
        };
        value = value.saturating_mul(radix).saturating_add(digit);
    }
    (value, rest.len())
}

/// Returns the bytes before the first byte 0.
pub(crate) fn before_nul(bytes: &[u8]) -> &[u8] {
    match bytes.iter().position(|byte| *byte == 0) {
        Some(end) => &bytes[..end],
        None => bytes,
    }
}

/// Returns the byte with this code; `None` for 0 and above 255.
fn byte_coded(code: u32) -> Option<u8> {
    if code == 0 || code > 255 {
        return None;
    }
    Some(code as u8)
}

impl Version {
    /// Returns the byte that an escape with this code stands for, if there is one: a code of 0 or
    /// above 255 is cut to a byte, or dropped.
    fn byte_of(self, code: u32) -> Option<u8> {
        match self {
            Version::V1_5 => Some((code % 256) as u8),
            Version::V1_7 => byte_coded(code),
        }
    }

    /// Reads an escape, after its backslash: returns the byte that it stands for, if there is one,
    /// and how many bytes it takes.
    fn escape_at(self, rest: &[u8]) -> (Option<u8>, usize)
        ensures { result.1 ≤ length rest.now }
    {
        let Some((first, digits)) = rest.split_first() else {
            return (None, 0);
        };
        match *first {
            b'\\' | b'"' => (Some(*first), 1),
            b'x' | b'X' => match code_at(16, 2, digits) {
                (_, 0) => (None, 1),
                (code, len) => (self.byte_of(code), 1 + len),
            },
            _ => match code_at(8, 3, rest) {
                (_, 0) => (None, 0),
                (code, len) => (self.byte_of(code), len),
            },
        }
    }

    /// Returns the bytes that a raw text stands for. O(bytes).
    fn unescaped(self, alloc: Global, raw: &[u8]) -> Result<Vec<u8>, AllocError> {
        let mut bytes = Vec::new(alloc);
        let mut rest = raw;
        while let Some((first, behind)) = rest.split_first() {
            rest = behind;
            if *first != b'\\' {
                bytes.push(*first)?;
                continue;
            }
            let (byte, len) = self.escape_at(rest);
            if let Some(byte) = byte {
                bytes.push(byte)?;
            }
            rest = &rest[len..];
        }
        Ok(bytes)
    }
}

impl Reader<'_> {
    /// Returns the bytes of a string, with those behind a byte 0; or why there are none. O(bytes).
    pub(crate) fn string(
        &self,
        alloc: Global,
        raw: &[u8],
    ) -> Result<Result<Vec<u8>, Cause>, AllocError> {
        let bytes = self.version.unescaped(alloc, raw)?;
        if bytes.len() >= BUFFER {
            return Ok(Err(Cause::LongString));
        }
        if str::from_utf8(&bytes).is_err() {
            return Ok(Err(Cause::NotUtf8));
        }
        Ok(Ok(bytes))
    }
}
