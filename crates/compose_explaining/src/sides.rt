//! Keys in a table that was read with its lines: the first sequence that begins with them, and its
//! place. Nothing is read here.
ghost use Rattle.std.specs.Prelude.{◌≡◌, ◌++◌, ◌<◌, ◌≤◌, [], OnOk, IfOk, Some, map, length, position, unwrap_or, string_bytes};
ghost use Rattle.std.specs.Option.{option_map};
ghost use Rattle.compose_details.specs.Definitions.{definition_message};
ghost use Rattle.compose_details.specs.Sides.{missing_line};
ghost use Rattle.compose_model.specs.Nodes.{leaves};
ghost use Rattle.compose_places.specs.Counting.{sequence_named};
ghost use Rattle.compose_tree.specs.Targets.{leaf_text};
ghost use Rattle.compose_explaining.specs.Sides as words;
ghost use Rattle.compose_explaining.specs.Sides.{lined};

use arrayvec::ArrayVec;
use compose_details::{path_of, push_hint, push_line, whole_line};
use compose_lex::quote;
use compose_messages::{Hint, Message, push_events};
use compose_places::{CountingLine, PlacedTable};
use compose_shown::Shown;
use compose_tree::{ComposeTable, LeafId};
use compose_walk::Counterexample;
use keysym_core::{Keysym, Names};
use std::alloc::{AllocError, Global};
use std::fmt::Write;

/// The keysyms of a definition.
type Sequence = ArrayVec<Keysym, 32>;

/// Where a table comes from.
#[derive(Clone, Copy)]
pub struct Side<'a> {
    /// The path that was given: that of its manifest, or of its Compose file.
    pub path: &'a str,
    /// The paths of its files, in the order of the sources.
    pub paths: &'a [String],
}

/// Adds the lines of each difference, and then a hint if a difference is a key that started no
/// sequence before. O(differences × sequences).
pub(crate) fn push_hinted<T: ComposeTable>(
    alloc: Global,
    text: &mut String,
    names: &Names,
    old_side: Side<'_>,
    new_side: Side<'_>,
    old: &PlacedTable<'_, T>,
    new: &PlacedTable<'_, T>,
    differences: &[Counterexample],
) -> Result<(), AllocError>
    requires old { length old.now.lines.items ≡ length (leaves (T.definitions old.now.table)) }
    requires new { length new.now.lines.items ≡ length (leaves (T.definitions new.now.table)) }
    ensures { OnOk result
        (string_bytes text.new
        ≡ string_bytes text.old
        ++ words.hinted_texts names.now (lined T.definitions old_side.entry old.now)
        (lined T.definitions new_side.entry new.now) differences.now) }
{
    push_differences(
        alloc,
        text,
        names,
        old_side,
        new_side,
        old,
        new,
        differences,
    )?;
    push_hint(text, fresh_hint(names, &old.lines, &new.lines, differences))
}

/// Adds the lines of each difference.
fn push_differences<T: ComposeTable>(
    alloc: Global,
    text: &mut String,
    names: &Names,
    old_side: Side<'_>,
    new_side: Side<'_>,
    old: &PlacedTable<'_, T>,
    new: &PlacedTable<'_, T>,
    differences: &[Counterexample],
) -> Result<(), AllocError>
    requires old { length old.now.lines.items ≡ length (leaves (T.definitions old.now.table)) }
    requires new { length new.now.lines.items ≡ length (leaves (T.definitions new.now.table)) }
    ensures { OnOk result
        (string_bytes text.new
        ≡ string_bytes text.old
        ++ words.difference_texts names.now (lined T.definitions old_side.entry old.now)
        (lined T.definitions new_side.entry new.now) differences.now) }
{
    for difference in differences {
        push_difference(alloc, text, names, old_side, new_side, old, new, difference)?;
    }
    Ok(())
}

/// Adds the lines of a difference.
fn push_difference<T: ComposeTable>(
    alloc: Global,
    text: &mut String,
    names: &Names,
    old_side: Side<'_>,
    new_side: Side<'_>,
    old: &PlacedTable<'_, T>,
    new: &PlacedTable<'_, T>,
    difference: &Counterexample,
) -> Result<(), AllocError>
    requires old { length old.now.lines.items ≡ length (leaves (T.definitions old.now.table)) }
    requires new { length new.now.lines.items ≡ length (leaves (T.definitions new.now.table)) }
    ensures { OnOk result
        (string_bytes text.new
        ≡ string_bytes text.old
        ++ words.difference_text names.now (lined T.definitions old_side.entry old.now)
        (lined T.definitions new_side.entry new.now) difference.now) }
{
    push_both(
        alloc,
        text,
        names,
        old_side,
        new_side,
        old,
        new,
        &difference.keys,
    )
}

/// Adds the lines of the keys in both tables.
fn push_both<T: ComposeTable>(
    alloc: Global,
    text: &mut String,
    names: &Names,
    old_side: Side<'_>,
    new_side: Side<'_>,
    old: &PlacedTable<'_, T>,
    new: &PlacedTable<'_, T>,
    keys: &[Keysym],
) -> Result<(), AllocError>
    requires old { length old.now.lines.items ≡ length (leaves (T.definitions old.now.table)) }
    requires new { length new.now.lines.items ≡ length (leaves (T.definitions new.now.table)) }
    ensures { OnOk result
        (string_bytes text.new
        ≡ string_bytes text.old
        ++ words.both_texts names.now (lined T.definitions old_side.entry old.now)
        (lined T.definitions new_side.entry new.now) keys.now) }
{
    push_side(alloc, text, names, old_side, old, keys)?;
    push_side(alloc, text, names, new_side, new, keys)
}

/// Adds the line of the first sequence that begins with the keys, or that none does.
fn push_side<T: ComposeTable>(
    alloc: Global,
    text: &mut String,
    names: &Names,
    side: Side<'_>,
    placed: &PlacedTable<'_, T>,
    keys: &[Keysym],
) -> Result<(), AllocError>
    requires { length placed.now.lines.items
        ≡ length (leaves (T.definitions placed.now.table)) }
    ensures { OnOk result
        (string_bytes text.new
        ≡ string_bytes text.old
        ++ words.side_text names.now (lined T.definitions side.entry placed.now) keys.now) }
{
    match first_line(names, &placed.lines, keys) {
        Some(index) => push_row(alloc, text, names, side, placed, index),
        None => push_missing(alloc, text, names, side.path, keys),
    }
}

/// Adds the line of the sequence with this index.
fn push_row<T: ComposeTable>(
    alloc: Global,
    text: &mut String,
    names: &Names,
    side: Side<'_>,
    placed: &PlacedTable<'_, T>,
    index: usize,
) -> Result<(), AllocError>
    requires { length placed.now.lines.items
        ≡ length (leaves (T.definitions placed.now.table)) }
    ensures { OnOk result
        (string_bytes text.new
        ≡ string_bytes text.old
        ++ words.row_text names.now (lined T.definitions side.entry placed.now) index) }
{
    if index >= placed.lines.len() {
        return Ok(());
    }
    let committed = text_of(&placed.table, index);
    push_written(
        alloc,
        text,
        names,
        side.paths,
        committed,
        &placed.lines[index],
    )
}

/// Returns the text of the sequence with this index.
fn text_of<T: ComposeTable>(table: &T, index: usize) -> &str
    requires { index < length (leaves (T.definitions table.now)) }
    ensures { result.now ≡ unwrap_or (leaf_text (T.definitions table.now) index) [] }
{
    let _count = table.leaf_count();
    table.text(LeafId(index as u32))
}

/// Adds the sequence of a line and its text, at its place.
fn push_written(
    alloc: Global,
    text: &mut String,
    names: &Names,
    paths: &[String],
    committed: &str,
    line: &Option<CountingLine<'_>>,
) -> Result<(), AllocError>
    ensures { OnOk result
        (string_bytes text.new
        ≡ string_bytes text.old
        ++ words.written_text names.now (map string_bytes paths.now) committed.now line.now) }
{
    match line {
        Some(line) => {
            let sentence = sequence_words(alloc, names, line, committed)?;
            let place = line.place();
            let path = path_of(paths, place.source);
            push_line(
                text,
                path,
                whole_line(place.line),
                &Message::Plain(&sentence),
            )
        }
        None => Ok(()),
    }
}

/// Returns the sequence of a line and its text, as words.
fn sequence_words(
    alloc: Global,
    names: &Names,
    line: &CountingLine<'_>,
    committed: &str,
) -> Result<String, AllocError>
    ensures { IfOk result
        (λ text. string_bytes text
        ≡ definition_message names.now (record {
          sequence = unwrap_or (sequence_named names.now line.now.keys) [];
          text = committed.now;
        })) }
{
    let Ok(quoted) = quote(alloc, committed) else {
        return Err(AllocError);
    };
    let sequence = sequence_of(names, line);
    let mut text = String::from_str(alloc, "the sequence")?;
    push_events(alloc, &mut text, names, sequence.as_slice())?;
    let shown = Shown(&quoted);
    write!(text, " gives {shown}")?;
    Ok(text)
}

/// Returns the sequence of a line; an empty one if a key of it has no keysym.
fn sequence_of(names: &Names, line: &CountingLine<'_>) -> Sequence
    ensures { result.items ≡ unwrap_or (sequence_named names.now line.now.keys) [] }
{
    match keysyms_of(names, line.keys().as_slice()) {
        Some(sequence) => sequence,
        None => ArrayVec::new(),
    }
}

/// Adds that no sequence begins with the keys.
fn push_missing(
    alloc: Global,
    text: &mut String,
    names: &Names,
    path: &str,
    keys: &[Keysym],
) -> Result<(), AllocError>
    ensures { OnOk result
        (string_bytes text.new
        ≡ string_bytes text.old ++ missing_line names.now path.now keys.now) }
{
    let mut sentence = String::from_str(alloc, "no sequence begins with")?;
    push_events(alloc, &mut sentence, names, keys)?;
    push_line(text, path, None, &Message::Plain(&sentence))
}

/// Returns the index of the first line whose sequence begins with the keys.
fn first_line(names: &Names, lines: &[Option<CountingLine<'_>>], keys: &[Keysym]) -> Option<usize>
    ensures { result ≡ words.first_line names.now lines.now keys.now }
{
    lines.iter().position(|line| begins(names, line, keys))
}

/// Returns whether the sequence of a line begins with the keys.
fn begins(names: &Names, line: &Option<CountingLine<'_>>, keys: &[Keysym]) -> bool
    ensures { result ≡ words.begins names.now keys.now line.now }
{
    match written_sequence(names, line) {
        Some(sequence) => sequence.as_slice().starts_with(keys),
        None => false,
    }
}

/// Returns the sequence of a line, if there is one.
fn written_sequence(names: &Names, line: &Option<CountingLine<'_>>) -> Option<Sequence>
    ensures { option_map (λ sequence. sequence.items) result
        ≡ words.written_sequence names.now line.now }
{
    match line {
        Some(line) => keysyms_of(names, line.keys().as_slice()),
        None => None,
    }
}

/// Returns the keysyms of these names, if each has one.
fn keysyms_of(names: &Names, keys: &[&str]) -> Option<Sequence>
    requires { length keys.now ≤ 32 }
    ensures { option_map (λ sequence. sequence.items) result
        ≡ sequence_named names.now (map (λ key. key.now) keys.now) }
{
    let mut sequence = ArrayVec::new();
    for key in keys {
        sequence.push(names.lookup(key)?);
    }
    Some(sequence)
}

/// Returns the hint for the differences, if one helps.
fn fresh_hint(
    names: &Names,
    old: &[Option<CountingLine<'_>>],
    new: &[Option<CountingLine<'_>>],
    differences: &[Counterexample],
) -> Option<Hint>
    ensures { result ≡ words.fresh_hint names.now old.now new.now differences.now }
{
    if any_begins_anew(names, old, new, differences) {
        Some(Hint::Fresh)
    } else {
        None
    }
}

/// Returns whether a difference is a key that started no sequence before.
fn any_begins_anew(
    names: &Names,
    old: &[Option<CountingLine<'_>>],
    new: &[Option<CountingLine<'_>>],
    differences: &[Counterexample],
) -> bool
    ensures { result ≡ words.any_lines_begin_anew names.now old.now new.now differences.now }
{
    differences.iter().any(|difference| begins_anew(names, old, new, &difference.keys))
}

/// Returns whether the keys are a single key with which no sequence of the old table begins, but
/// one of the new table does.
fn begins_anew(
    names: &Names,
    old: &[Option<CountingLine<'_>>],
    new: &[Option<CountingLine<'_>>],
    keys: &[Keysym],
) -> bool
    ensures { result ≡ words.lines_begin_anew names.now old.now new.now keys.now }
{
    keys.len() == 1
        && first_line(names, old, keys).is_none()
        && first_line(names, new, keys).is_some()
}
