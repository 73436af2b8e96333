//! The name of the result keysym that is written on a line. Nothing of a definition but its string
//! and what follows that is read.
ghost use Rattle.std.specs.Prelude.{◌≡◌, ◌+◌, ℕ, List, Option, Some, Ok, false, drop, option_copied};
ghost use Rattle.std.specs.List.{prefix_len};
ghost use Rattle.compose_lex.specs.Fault as fault;
ghost use Rattle.compose_lex.specs.Fault.{inside_from, name_if, result_at};
ghost use Rattle.compose_results.specs.Names.{is_before_colon};
ghost use Rattle.compose_results.specs.Results as words;
ghost use Rattle.compose_places.specs.Events.{line_events};

use compose_text::{ByteClass, blank_len, leading_len, name_len};
use std::simd::prelude::*;

/// All bytes but the colon.
struct BeforeColon;

impl ByteClass for BeforeColon {
    ghost has = { is_before_colon };

    #[inline(always)]
    fn has(byte: u8) -> bool {
        byte != b':'
    }

    #[inline(always)]
    fn others(bytes: u8x16) -> u64 {
        bytes.simd_eq(u8x16::splat(b':')).to_bitmask()
    }
}

/// Returns what follows the first colon. O(bytes up to it).
fn after_colon(line: &[u8]) -> &[u8]
    ensures { result.now ≡ drop (1 + prefix_len is_before_colon line.now) line.now }
{
    let len = leading_len::<BeforeColon>(line);
    if len == line.len() {
        return &[];
    }
    &line[len + 1..]
}

/// Returns what follows the leading blanks. O(blanks).
fn skip_blanks(rest: &[u8]) -> &[u8]
    ensures { result.now ≡ fault.skip_blanks rest.now }
{
    &rest[blank_len(rest)..]
}

/// Returns what follows a string, after its opening quote; nothing if it isn't closed. O(bytes of
/// the string).
fn after_string(rest: &[u8]) -> &[u8]
    ensures { (raw behind : List ℕ) → inside_from false rest.now ≡ Some (raw, behind)
        → result.now ≡ behind }
{
    let mut taken = false;
    for at in 0..rest.len() {
        if taken {
            taken = false;
        } else if rest[at] == b'"' {
            return &rest[at + 1..];
        } else {
            taken = rest[at] == b'\\';
        }
    }
    &[]
}

/// Returns the name at the beginning, if there is one. O(bytes of the name).
fn leading_name(rest: &[u8]) -> Option<&str>
    ensures { option_copied result ≡ (name_if rest.now).0 }
{
    let name = &rest[..name_len(rest)];
    if name.is_empty() {
        return None;
    }
    match str::from_utf8(name) {
        Ok(text) => Some(text),
        Err(_) => None,
    }
}

/// Returns the name in a result, which is a string, a name, or both. O(bytes of the result).
fn name_in(outcome: &[u8]) -> Option<&str>
    ensures { (n : ℕ) (raw name : Option (List ℕ)) (behind : List ℕ)
        → result_at n outcome.now ≡ Ok (raw, name, behind) → option_copied result ≡ name }
{
    match outcome.first() {
        Some(b'"') => leading_name(skip_blanks(after_string(&outcome[1..]))),
        _ => leading_name(outcome),
    }
}

/// Returns the name of the result keysym that is written on a line which is a definition, if it has
/// one. O(bytes up to it).
pub(crate) fn result_name(line: &[u8]) -> Option<&str>
    ensures { (events : List (List ℕ)) → line_events line.now ≡ Some events
        → option_copied result ≡ words.result_name line.now }
{
    name_in(skip_blanks(after_colon(line)))
}
