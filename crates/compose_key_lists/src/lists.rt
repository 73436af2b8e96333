//! The keys of lines.
ghost use Rattle.std.specs.Prelude.{◌≡◌, ◌++◌, flat_map, length, map, IfOk, OnOk};
ghost use Rattle.std.specs.Str.Lines.{lines};
ghost use Rattle.compose_keys.specs.Keys.{keys_in};

use compose_keys::keys_in as keys_of_line;
use std::alloc::{AllocError, Global};

/// The keys of some lines, and the number of keys on each line.
#[derive(Drop)]
pub struct KeyLists<'a> {
    /// The keys of all lines as they are written, in order.
    pub keys: Vec<&'a str>,
    /// For each line, the number of its keys; 0 for an empty line.
    pub counts: Vec<usize>,
}

/// Returns the keys that each line of a text writes. `Err(AllocError)` if memory runs out. O(bytes).
pub fn key_lists<'a>(alloc: Global, text: &'a str) -> Result<KeyLists<'a>, AllocError>
    ensures keys { IfOk result
        (λ lists. map (λ key. key.now) lists.keys.items ≡ flat_map keys_in (lines text.now)) }
    ensures counts { IfOk result
        (λ lists. lists.counts.items ≡ map (λ line. length (keys_in line)) (lines text.now)) }
{
    let lines = lines_of(alloc, text)?;
    lists_of(alloc, &lines)
}

/// Returns the lines of a text.
fn lines_of<'a>(alloc: Global, text: &'a str) -> Result<Vec<&'a str>, AllocError>
    ensures { IfOk result (λ own. map (λ line. line.now) own.items ≡ lines text.now) }
{
    text.lines().collect(alloc)
}

/// Returns the keys of these lines.
fn lists_of<'a>(alloc: Global, lines: &[&'a str]) -> Result<KeyLists<'a>, AllocError>
    ensures keys { IfOk result
        (λ lists. map (λ key. key.now) lists.keys.items
        ≡ flat_map keys_in (map (λ line. line.now) lines.now)) }
    ensures counts { IfOk result
        (λ lists. lists.counts.items
        ≡ map (λ line. length (keys_in line)) (map (λ line. line.now) lines.now)) }
{
    let mut keys = Vec::new(alloc);
    let mut counts = Vec::new(alloc);
    for line in lines {
        let own = keys_of_line(alloc, line)?;
        counts.push(own.len())?;
        push_all(&mut keys, &own)?;
    }
    Ok(KeyLists { keys, counts })
}

/// Appends these keys.
fn push_all<'a>(keys: &mut Vec<&'a str>, own: &[&'a str]) -> Result<(), AllocError>
    ensures { OnOk result (keys.new.items ≡ keys.old.items ++ own.now) }
{
    keys.extend_from_slice(own)?;
    Ok(())
}
