//! Keys in a table: the definition that they lead to, and its place.
ghost use Rattle.std.specs.Prelude.{◌≡◌, ◌++◌, OnOk, string_bytes};
ghost use Rattle.compose_details.specs.Sides as words;

use crate::definitions::{PlacedTable, push_definition};
use crate::lines::push_line;
use crate::refusal::push_hint;
use compose_messages::{Hint, Message, push_events};
use compose_read::Definitions;
use compose_walk::Counterexample;
use keysym_core::Keysym;
use std::alloc::{AllocError, Global};

/// A table whose definitions were read, their places, and which of them count.
#[derive(Clone, Copy)]
pub(crate) struct SideTable<'a> {
    pub manifest: &'a str,
    pub placed: PlacedTable<'a>,
    pub counting: &'a [Option<u32>],
}

/// Adds the lines of each difference, and then a hint if a difference is a key that started no
/// sequence before. O(differences × definitions).
pub(crate) fn push_hinted_differences(
    alloc: Global,
    text: &mut String,
    old: &SideTable<'_>,
    new: &SideTable<'_>,
    differences: &[Counterexample],
) -> Result<(), AllocError>
    ensures { OnOk result
        (string_bytes text.new
        ≡ string_bytes text.old
        ++ words.hinted_differences old.now new.now differences.now) }
{
    push_differences(alloc, text, old, new, differences)?;
    push_hint(text, differences_hint(old, new, differences))
}

/// Returns the hint for the differences, if one helps. O(differences × definitions).
fn differences_hint(
    old: &SideTable<'_>,
    new: &SideTable<'_>,
    differences: &[Counterexample],
) -> Option<Hint>
    ensures { result ≡ words.differences_hint old.now new.now differences.now }
{
    if any_begins_anew(old, new, differences) {
        Some(Hint::Fresh)
    } else {
        None
    }
}

/// Returns whether a difference is a key that started no sequence before. O(differences ×
/// definitions).
fn any_begins_anew(old: &SideTable<'_>, new: &SideTable<'_>, differences: &[Counterexample]) -> bool
    ensures { result ≡ words.any_begins_anew old.now new.now differences.now }
{
    differences
        .iter()
        .any(|difference| begins_anew(old, new, &difference.keys))
}

/// Returns whether the keys of a difference are a single key with which no sequence of the old
/// table begins, but one of the new table does.
///
/// Before the last key of a difference, the old table is at rest only at the start, so no later key
/// starts a sequence. O(definitions).
fn begins_anew(old: &SideTable<'_>, new: &SideTable<'_>, keys: &[Keysym]) -> bool
    ensures { result ≡ words.begins_anew old.now new.now keys.now }
{
    keys.len() == 1 && !is_beginning(old, keys) && is_beginning(new, keys)
}

/// Returns whether a sequence of the table begins with the keys. O(definitions).
fn is_beginning(side: &SideTable<'_>, keys: &[Keysym]) -> bool
    ensures { result ≡ words.is_beginning side.now keys.now }
{
    first_beginning(side.placed.definitions, side.counting, keys).is_some()
}

/// Adds the lines of each difference: the definitions that count in both tables, at their places.
/// O(differences × definitions).
fn push_differences(
    alloc: Global,
    text: &mut String,
    old: &SideTable<'_>,
    new: &SideTable<'_>,
    differences: &[Counterexample],
) -> Result<(), AllocError>
    ensures { OnOk result
        (string_bytes text.new
        ≡ string_bytes text.old
        ++ words.lines_of_differences old.now new.now differences.now) }
{
    for difference in differences {
        push_difference(alloc, text, old, new, difference)?;
    }
    Ok(())
}

/// Adds the lines of a difference.
fn push_difference(
    alloc: Global,
    text: &mut String,
    old: &SideTable<'_>,
    new: &SideTable<'_>,
    difference: &Counterexample,
) -> Result<(), AllocError>
    ensures { OnOk result
        (string_bytes text.new
        ≡ string_bytes text.old
        ++ words.lines_of_difference old.now new.now difference.now) }
{
    push_both_sides(alloc, text, old, new, &difference.keys)
}

/// Adds the lines of the keys in both tables.
fn push_both_sides(
    alloc: Global,
    text: &mut String,
    old: &SideTable<'_>,
    new: &SideTable<'_>,
    keys: &[Keysym],
) -> Result<(), AllocError>
    ensures { OnOk result
        (string_bytes text.new
        ≡ string_bytes text.old ++ words.difference_lines old.now new.now keys.now) }
{
    push_side(alloc, text, old, keys)?;
    push_side(alloc, text, new, keys)
}

/// Adds the line of the first sequence that begins with the keys, or that none does.
/// O(definitions).
pub(crate) fn push_side(
    alloc: Global,
    text: &mut String,
    side: &SideTable<'_>,
    keys: &[Keysym],
) -> Result<(), AllocError>
    ensures { OnOk result
        (string_bytes text.new ≡ string_bytes text.old ++ words.side_line side.now keys.now) }
{
    match first_beginning(side.placed.definitions, side.counting, keys) {
        Some(index) => push_definition(alloc, text, &side.placed, index as usize),
        None => push_missing(alloc, text, side, keys),
    }
}

/// Adds that no sequence begins with the keys.
fn push_missing(
    alloc: Global,
    text: &mut String,
    side: &SideTable<'_>,
    keys: &[Keysym],
) -> Result<(), AllocError>
    ensures { OnOk result
        (string_bytes text.new
        ≡ string_bytes text.old
        ++ words.missing_line side.now.placed.names.now side.now.manifest.now keys.now) }
{
    let mut sentence = String::from_str(alloc, "no sequence begins with")?;
    push_events(alloc, &mut sentence, side.placed.names, keys)?;
    push_line(text, side.manifest, None, &Message::Plain(&sentence))
}

/// Returns the index of the first counting definition whose sequence begins with the keys.
fn first_beginning(
    definitions: &Definitions,
    counting: &[Option<u32>],
    keys: &[Keysym],
) -> Option<u32>
    ensures { result ≡ words.first_beginning definitions.now keys.now counting.now }
{
    for slot in counting {
        if let Some(index) = slot {
            if begins(definitions, *index as usize, keys) {
                return Some(*index);
            }
        }
    }
    None
}

/// Returns whether the sequence of the definition with this index begins with the keys.
fn begins(definitions: &Definitions, index: usize, keys: &[Keysym]) -> bool
    ensures { result ≡ words.begins definitions.now keys.now index }
{
    index < definitions.len() && definitions.sequence(index).starts_with(keys)
}
