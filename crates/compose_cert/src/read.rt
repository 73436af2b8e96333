//! Reads a certificate line by line; the first faulty line is the error.
ghost use Rattle.std.specs.Prelude.{◌≡◌, ◌≢◌, ◌+◌, ◌<◌, ◌≤◌, ◌++◌, ◌∷◌, [], ℕ, List, Ok, Err, length, IfOk, IfErr, ◌^◌};
ghost use Rattle.compose_text.specs.Lines.{divide};
ghost use Rattle.compose_cert.specs.StepReturns.{StepReturns};
ghost use Rattle.compose_cert.specs.Spelling.{max_count};
ghost use Rattle.compose_cert.specs.Reading as reading;

use crate::CertFault;
use crate::certificate::{MOST, Typing};
use crate::certificate_lines::{number_after, pair_of, take_line, typing_of, version_of};
use crate::certificate_words::keysym_of;
use keysym_core::Keysym;
use std::alloc::Global;

/// Reads the version, and returns it with what follows the first line.
///
/// Errors: `NotText` for line 1.
pub fn version_at(bytes: &[u8]) -> Result<(u8, &[u8]), CertFault>
    ensures { StepReturns (λ x. (x.0, divide 10 x.1.now)) result
        (reading.line_at reading.version_of 1 (divide 10 bytes.now)) }
{
    let (text, rest) = take_line(bytes, 1)?;
    let version = version_of(text).ok_or(CertFault::NotText { line: 1 })?;
    Ok((version, rest))
}

/// Reads the number after this word and a blank, and returns it with what follows its line.
///
/// Errors: `NotText` with this line number if the line has another form or is missing.
pub fn number_at<'a>(
    bytes: &'a [u8],
    word: &[u8],
    line: usize,
) -> Result<(u32, &'a [u8]), CertFault>
    ensures says { (name : List ℕ) → word.now ≡ name ++ 32 ∷ []
        → StepReturns (λ x. (x.0, divide 10 x.1.now)) result
        (reading.line_at (reading.number_after name) line (divide 10 bytes.now)) }
    ensures no_memory { IfErr result (λ fault. fault ≢ CertFault.NoMemory) }
{
    let (text, rest) = take_line(bytes, line)?;
    let number = number_after(text, word).ok_or(CertFault::NotText { line })?;
    Ok((number, rest))
}

/// Reads the count after this word and a blank, and returns it with what follows its line.
///
/// Errors: `NotText` with this line number if the line has another form or is missing; `TooLarge`
/// if the count is above 1,048,576.
pub fn count_at<'a>(
    bytes: &'a [u8],
    word: &[u8],
    line: usize,
) -> Result<(usize, &'a [u8]), CertFault>
    ensures says { (name : List ℕ) → word.now ≡ name ++ 32 ∷ []
        → StepReturns (λ x. (x.0, divide 10 x.1.now)) result
        (reading.count_at name line (divide 10 bytes.now)) }
    ensures few { IfOk result (λ x. x.0 ≤ max_count) }
    ensures no_memory { IfErr result (λ fault. fault ≢ CertFault.NoMemory) }
{
    let (count, rest) = number_at(bytes, word, line)?;
    let count = count as usize;
    if count > MOST {
        return Err(CertFault::TooLarge);
    }
    Ok((count, rest))
}

/// Reads a pair, and returns it with what follows its line.
fn pair_at(bytes: &[u8], line: usize) -> Result<((u32, u32), &[u8]), CertFault>
    ensures { StepReturns (λ x. (x.0, divide 10 x.1.now)) result
        (reading.line_at reading.pair_of line (divide 10 bytes.now)) }
{
    let (text, rest) = take_line(bytes, line)?;
    let pair = pair_of(text).ok_or(CertFault::NotText { line })?;
    Ok((pair, rest))
}

/// Reads a typing with at most 1,048,576 keys, and returns it with what follows its line.
fn typing_at(alloc: Global, bytes: &[u8], line: usize) -> Result<(Typing, &[u8]), CertFault>
    ensures { StepReturns (λ x. (x.0, divide 10 x.1.now)) result
        (reading.typing_at line (divide 10 bytes.now)) }
{
    let (text, rest) = take_line(bytes, line)?;
    let typing = typing_of(alloc, text, line)?;
    if typing.keys().len() > MOST {
        return Err(CertFault::TooLarge);
    }
    Ok((typing, rest))
}

/// Reads `count` pairs, the first of them on line `line`, and returns them with what follows their
/// lines.
///
/// Errors: `NotText` for the first line that is no pair or is missing, or `NoMemory`.
pub fn pairs_at(
    alloc: Global,
    bytes: &[u8],
    count: usize,
    line: usize,
) -> Result<(Vec<(u32, u32)>, &[u8]), CertFault>
    requires { line + count < 2 ^ 64 }
    ensures { StepReturns (λ x. (x.0.items, divide 10 x.1.now)) result
        (reading.times (reading.line_at reading.pair_of) count line (divide 10 bytes.now)) }
{
    let mut pairs = Vec::with_capacity(alloc, count.min(bytes.len() / SHORTEST_PAIR))?;
    let mut rest = bytes;
    for index in 0..count {
        let (pair, behind) = pair_at(rest, line + index)?;
        pairs.push(pair)?;
        rest = behind;
    }
    Ok((pairs, rest))
}

/// Reads `count` typings, the first of them on line `line`, and returns them with what follows
/// their lines.
///
/// Errors: that of the first faulty line, `NotText` or, for more than 1,048,576 keys, `TooLarge`;
/// or `NoMemory`.
pub fn typings_at(
    alloc: Global,
    bytes: &[u8],
    count: usize,
    line: usize,
) -> Result<(Vec<Typing>, &[u8]), CertFault>
    requires { line + count < 2 ^ 64 }
    ensures { StepReturns (λ x. (x.0.items, divide 10 x.1.now)) result
        (reading.times reading.typing_at count line (divide 10 bytes.now)) }
{
    let mut typings = Vec::with_capacity(alloc, count.min(bytes.len() / SHORTEST_TYPING))?;
    let mut rest = bytes;
    for index in 0..count {
        let (typing, behind) = typing_at(alloc, rest, line + index)?;
        typings.push(typing)?;
        rest = behind;
    }
    Ok((typings, rest))
}

/// Reads `count` keysyms, and returns them with what follows their lines.
fn keys_at(
    alloc: Global,
    bytes: &[u8],
    count: usize,
    line: usize,
) -> Result<(Vec<Keysym>, &[u8]), CertFault>
    requires { line + count < 2 ^ 64 }
    ensures { StepReturns (λ x. (x.0.items, divide 10 x.1.now)) result
        (reading.times (reading.line_at reading.keysym_of) count line (divide 10 bytes.now)) }
{
    let mut keys = Vec::with_capacity(alloc, count.min(bytes.len() / SHORTEST_KEY))?;
    let mut rest = bytes;
    for index in 0..count {
        let (text, behind) = take_line(rest, line + index)?;
        let key = keysym_of(text).ok_or(CertFault::NotText { line: line + index })?;
        keys.push(key)?;
        rest = behind;
    }
    Ok((keys, rest))
}

/// Reads the fresh keysyms of a text of this version: none in version 1, and at least one in
/// version 2.
///
/// Errors: `NotText` for the first line that is faulty, missing or after the end; `TooLarge` if
/// there are more than 1,048,576; or `NoMemory`.
pub fn fresh_at(
    alloc: Global,
    version: u8,
    bytes: &[u8],
    line: usize,
) -> Result<Vec<Keysym>, CertFault>
    requires { line < 2 ^ 32 }
    ensures { StepReturns (λ keys. keys.items) result
        (reading.fresh_at version line (divide 10 bytes.now)) }
{
    if version == 1 {
        end_at(bytes, line)?;
        return Ok(Vec::new(alloc));
    }
    some_fresh_at(alloc, bytes, line)
}

/// Reads one or more fresh keysyms.
fn some_fresh_at(alloc: Global, bytes: &[u8], line: usize) -> Result<Vec<Keysym>, CertFault>
    requires { line < 2 ^ 32 }
    ensures { StepReturns (λ keys. keys.items) result (reading.some_fresh_at line (divide 10 bytes.now)) }
{
    let (count, rest) = count_at(bytes, b"fresh ", line)?;
    if count == 0 {
        return Err(CertFault::NotText { line });
    }
    let (keys, rest) = keys_at(alloc, rest, count, 1 + line)?;
    end_at(rest, 1 + line + count)?;
    Ok(keys)
}

/// Checks that nothing follows the last newline.
fn end_at(bytes: &[u8], line: usize) -> Result<(), CertFault>
    ensures { StepReturns (λ _. tt) result (reading.end_at line (divide 10 bytes.now)) }
{
    if bytes.is_empty() {
        return Ok(());
    }
    Err(CertFault::NotText { line })
}

/// The lengths of the shortest lines in bytes: `0 0`, `U+0000 0` and `0` with their newlines.
const SHORTEST_PAIR: usize = 4;

const SHORTEST_TYPING: usize = 9;

const SHORTEST_KEY: usize = 2;
