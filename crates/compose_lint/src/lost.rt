//! Counts the lines that other readers skip.
ghost use Rattle.std.specs.Prelude.{◌≡◌, ◌++◌, ◌∷◌, ◌==◌, ◌&&◌, [], IfOk, OnOk, length, map, nat_lt, nat_le, if◌then◌else◌};
ghost use Rattle.std.specs.List.{list_all, list_any};
ghost use Rattle.compose_lint.specs.Lost as words;

use crate::classes::has_digit_name;
use crate::definition::string_text;
use crate::file_lines::{
    ends_in_backslash, ends_in_string, has_content, has_mark, has_return, has_return_in_include,
    has_spaced_name, is_unended,
};
use crate::lines::without_mark;
use crate::production::{Production, Written, production_of};
use crate::signs::may_be_skipped;
use compose_read::Sources;
use compose_text::first_line;
use std::alloc::{AllocError, Global};

/// Returns the number of lines in the sources that libX11 or libxkbcommon skips because of how they
/// are written, though this crate reads them. A line counts once, also if both skip it or if there
/// are two reasons. Names are not looked up, so a line with an unknown name counts too. O(bytes),
/// and memory for the lines that are skipped.
///
/// `Err` if memory runs out.
pub fn lost_count(alloc: Global, sources: &Sources) -> Result<usize, AllocError>
    ensures { IfOk result (λ count. count ≡ words.lost_count sources.now) }
{
    let mut lost = Vec::new(alloc);
    for source in 0..sources.count() {
        push_lost(alloc, &mut lost, sources.bytes(source))?;
    }
    Ok(lost.len())
}

/// Adds the lost lines of a file with these bytes.
fn push_lost<'a>(alloc: Global, lost: &mut Vec<&'a [u8]>, bytes: &'a [u8]) -> Result<(), AllocError>
    ensures { OnOk result
        (map (λ l. l.now) lost.new.items
        ≡ map (λ l. l.now) lost.old.items ++ words.lost_lines bytes.now) }
{
    let unended = is_unended(bytes);
    let mut marked = has_mark(bytes);
    let mut before: &[u8] = &[];
    let mut rest = without_mark(bytes);
    while let Some((line, after)) = first_line(rest) {
        let cut = is_cut(unended, after);
        push_if_lost(alloc, lost, marked, cut, before, line)?;
        marked = false;
        before = line;
        rest = after;
    }
    Ok(())
}

/// Returns whether a line is the last one and has no newline, if the file ends without one
/// (`unended`) and these bytes follow the line.
fn is_cut(unended: bool, after: &[u8]) -> bool
    ensures { result ≡ (unended && length after.now == 0) }
{
    unended && after.is_empty()
}

/// Adds the line, if libX11 or libxkbcommon skips it.
fn push_if_lost<'a>(
    alloc: Global,
    lost: &mut Vec<&'a [u8]>,
    marked: bool,
    cut: bool,
    before: &[u8],
    line: &'a [u8],
) -> Result<(), AllocError>
    ensures { OnOk result
        (map (λ l. l.now) lost.new.items
        ≡ map (λ l. l.now) lost.old.items
        ++ (if words.is_lost marked cut before.now line.now then line.now ∷ [] else [])) }
{
    if is_lost(alloc, marked, cut, before, line)? {
        lost.push(line)?;
    }
    Ok(())
}

/// Returns whether libX11 or libxkbcommon skips the line. `marked`: a byte order mark precedes it;
/// `cut`: it is the last line and has no newline; `before`: the line before it. O(bytes).
fn is_lost(
    alloc: Global,
    marked: bool,
    cut: bool,
    before: &[u8],
    line: &[u8],
) -> Result<bool, AllocError>
    ensures { IfOk result
        (λ is. is ≡ words.is_lost marked cut before.now line.now) }
{
    if (marked || ends_in_backslash(before)) && has_content(line) {
        return Ok(true);
    }
    if cut && ends_in_string(line) {
        return Ok(true);
    }
    is_skipped(alloc, line)
}

/// Returns whether libX11 or libxkbcommon skips the line, wherever it is. For most lines,
/// `may_be_skipped` is enough. O(bytes).
fn is_skipped(alloc: Global, line: &[u8]) -> Result<bool, AllocError>
    ensures { IfOk result (λ is. is ≡ words.is_skipped line.now) }
{
    if may_be_skipped(line) {
        return is_skipped_as_read(alloc, line);
    }
    Ok(false)
}

/// Does the work of `is_skipped` for a line that may be skipped, by its tokens.
fn is_skipped_as_read(alloc: Global, line: &[u8]) -> Result<bool, AllocError>
    ensures { IfOk result (λ is. is ≡ words.is_skipped line.now) }
{
    if has_return_in_include(line) {
        return Ok(true);
    }
    match production_of(line) {
        Some(production) => is_skipped_production(alloc, line, &production),
        None => Ok(false),
    }
}

/// Returns whether libX11 or libxkbcommon skips the line, whose definition is this one.
fn is_skipped_production(
    alloc: Global,
    line: &[u8],
    production: &Production<'_>,
) -> Result<bool, AllocError>
    ensures { IfOk result
        (λ is. is ≡ words.is_skipped_production line.now production.now) }
{
    let written = &production.written;
    if has_return(line, written)
        || has_spaced_name(line)
        || production.events.len() >= 10
        || has_no_symbol(&production.events)
        || has_digit_name(written)
    {
        return Ok(true);
    }
    has_longest_string(alloc, written)
}

/// Returns whether one of the keys is `NoSymbol`, or its number.
fn has_no_symbol(events: &[&str]) -> bool
    ensures { result ≡ list_any words.is_no_symbol (map (λ e. e.now) events.now) }
{
    for event in events {
        if is_no_symbol(event) {
            return true;
        }
    }
    false
}

/// Returns whether this is a name of the keysym 0.
fn is_no_symbol(name: &str) -> bool
    ensures { result ≡ words.is_no_symbol name.now }
{
    name == "NoSymbol" || is_zero(name.as_bytes())
}

/// Returns whether the name is the number 0, in hexadecimal digits.
fn is_zero(name: &[u8]) -> bool
    ensures { result ≡ words.is_zero name.now }
{
    match name.strip_prefix(&[b'0', b'x']) {
        Some(digits) => are_zeros(digits),
        None => false,
    }
}

/// Returns whether these are one to eight zeros.
fn are_zeros(digits: &[u8]) -> bool
    ensures { result ≡ words.are_zeros digits.now }
{
    is_number_len(digits.len()) && has_zeros_alone(digits)
}

/// Returns whether each digit is 0.
fn has_zeros_alone(digits: &[u8]) -> bool
    ensures { result ≡ list_all (λ d. d == 48) digits.now }
{
    digits.iter().all(|digit| *digit == b'0')
}

/// Returns whether the number of a keysym may have this number of digits.
fn is_number_len(digits: usize) -> bool
    ensures { result ≡ (nat_lt 0 digits && nat_le digits 8) }
{
    digits > 0 && digits <= 8
}

/// Returns whether the text of the string is 255 bytes long, the maximum. O(bytes).
fn has_longest_string(alloc: Global, written: &Written<'_>) -> Result<bool, AllocError>
    ensures { IfOk result (λ is. is ≡ words.has_longest_string written.now) }
{
    let Some(raw) = written.raw_text() else {
        return Ok(false);
    };
    match string_text(alloc, raw)? {
        Some(text) => Ok(text.len() >= 255),
        None => Ok(false),
    }
}
