//! Definitions and their places.
ghost use Rattle.std.specs.Prelude.{◌≡◌, ◌++◌, ◌<◌, if◌then◌else◌, OnOk, IfOk, Some, length, slice_get, string_bytes, codes};
ghost use Rattle.compose_model.specs.Table.{Definition};
ghost use Rattle.compose_places.specs.Last.{last_with};
ghost use Rattle.compose_shown.specs.Shown.{shown_text};
ghost use Rattle.compose_details.specs.Definitions as words;

use crate::faulty::root_of;
use crate::given::GivenTable;
use crate::lines::{path_of, push_line, whole_line};
use compose_lex::quote;
use compose_messages::{Message, overlap_words, push_events};
use compose_places::{DefinitionPlace, definition_places};
use compose_read::{Definitions, ReadFault, read_definitions};
use compose_shown::Shown;
use keysym_core::{Keysym, Names};
use std::alloc::{AllocError, Global};
use std::fmt::Write;

/// The definitions of a table and their places.
#[derive(Clone, Copy)]
pub(crate) struct PlacedTable<'a> {
    pub names: &'a Names,
    pub paths: &'a [String],
    pub definitions: &'a Definitions,
    pub places: &'a [DefinitionPlace],
}

/// Adds the lines of an overlap: that one sequence is a prefix of the other, and the place of each.
/// O(bytes of the sources).
pub(crate) fn push_overlap(
    alloc: Global,
    text: &mut String,
    names: &Names,
    table: &GivenTable<'_>,
    short: &[Keysym],
    long: &[Keysym],
) -> Result<(), AllocError>
    ensures { OnOk result
        (string_bytes text.new
        ≡ string_bytes text.old ++ words.overlap_lines names.now table.now short.now long.now) }
{
    let sources = table.input.sources;
    match read_definitions(alloc, names, sources, root_of(sources)) {
        Ok(definitions) => push_overlap_of(alloc, text, names, table, &definitions, short, long),
        Err(ReadFault::NoMemory) => Err(AllocError),
        Err(_) => Ok(()),
    }
}

/// Adds the lines of an overlap, by the definitions of the table.
fn push_overlap_of(
    alloc: Global,
    text: &mut String,
    names: &Names,
    table: &GivenTable<'_>,
    definitions: &Definitions,
    short: &[Keysym],
    long: &[Keysym],
) -> Result<(), AllocError>
    ensures { OnOk result
        (string_bytes text.new
        ≡ string_bytes text.old
        ++ words.overlap_of names.now table.now short.now long.now definitions.now) }
{
    let sources = table.input.sources;
    let places = definition_places(alloc, sources, root_of(sources))?;
    let placed = PlacedTable {
        names,
        paths: table.paths,
        definitions,
        places: &places,
    };
    push_both(alloc, text, &placed, short, long)
}

/// Adds the lines of both sequences.
fn push_both(
    alloc: Global,
    text: &mut String,
    placed: &PlacedTable<'_>,
    short: &[Keysym],
    long: &[Keysym],
) -> Result<(), AllocError>
    ensures { OnOk result
        (string_bytes text.new
        ≡ string_bytes text.old ++ words.both_lines_of placed.now short.now long.now) }
{
    push_short(alloc, text, placed, short, long)?;
    push_long(alloc, text, placed, long)
}

/// Adds the lines of the shorter sequence.
fn push_short(
    alloc: Global,
    text: &mut String,
    placed: &PlacedTable<'_>,
    short: &[Keysym],
    long: &[Keysym],
) -> Result<(), AllocError>
    ensures { OnOk result
        (string_bytes text.new
        ≡ string_bytes text.old ++ words.short_lines_of placed.now short.now long.now) }
{
    match last_with(placed.definitions, short) {
        Some(index) => push_short_at(alloc, text, placed, index, short, long),
        None => Ok(()),
    }
}

/// Adds the lines of the shorter sequence, which is that of the definition with this index.
fn push_short_at(
    alloc: Global,
    text: &mut String,
    placed: &PlacedTable<'_>,
    index: usize,
    short: &[Keysym],
    long: &[Keysym],
) -> Result<(), AllocError>
    ensures { OnOk result
        (string_bytes text.new
        ≡ string_bytes text.old
        ++ words.short_lines_at placed.now short.now long.now index) }
{
    let sentence = overlap_words(alloc, placed.names, short, long)?;
    push_line_at(text, placed, index, &sentence)?;
    push_definition(alloc, text, placed, index)
}

/// Adds the line of the longer sequence.
fn push_long(
    alloc: Global,
    text: &mut String,
    placed: &PlacedTable<'_>,
    long: &[Keysym],
) -> Result<(), AllocError>
    ensures { OnOk result
        (string_bytes text.new
        ≡ string_bytes text.old ++ words.long_line_of placed.now long.now) }
{
    match last_with(placed.definitions, long) {
        Some(index) => push_definition(alloc, text, placed, index),
        None => Ok(()),
    }
}

/// Returns the index of the last definition with this sequence, if there is one. O(keysyms of all
/// definitions).
fn last_with(definitions: &Definitions, sequence: &[Keysym]) -> Option<usize>
    ensures { result ≡ last_with definitions.now sequence.now }
{
    let mut last = None;
    for index in 0..definitions.len() {
        last = later(sequence == definitions.sequence(index), index, last);
    }
    last
}

/// Returns this index if it is wanted, or else the previous one.
fn later(is_wanted: bool, index: usize, last: Option<usize>) -> Option<usize>
    ensures { result ≡ (if is_wanted then Some index else last) }
{
    if is_wanted { Some(index) } else { last }
}

/// Adds the line of the definition with this index: its sequence and its text.
pub(crate) fn push_definition(
    alloc: Global,
    text: &mut String,
    placed: &PlacedTable<'_>,
    index: usize,
) -> Result<(), AllocError>
    ensures { OnOk result
        (string_bytes text.new
        ≡ string_bytes text.old ++ words.line_of_definition placed.now index) }
{
    if index >= placed.definitions.len() {
        return Ok(());
    }
    let sentence = definition_words(alloc, placed.names, placed.definitions, index)?;
    push_line_at(text, placed, index, &sentence)
}

/// Returns the sequence and the text of the definition with this index, as words.
fn definition_words(
    alloc: Global,
    names: &Names,
    definitions: &Definitions,
    index: usize,
) -> Result<String, AllocError>
    requires { index < length definitions.now }
    ensures { IfOk result
        (λ text. (d : Definition) → slice_get definitions.now index ≡ Some d
        → string_bytes text ≡ words.definition_message names.now d) }
{
    let Ok(quoted) = quote(alloc, definitions.text(index)) else {
        return Err(AllocError);
    };
    let mut text = String::from_str(alloc, "the sequence")?;
    push_events(alloc, &mut text, names, definitions.sequence(index))?;
    push_given(&mut text, &quoted)?;
    Ok(text)
}

/// Adds that a sequence gives this quoted text, which may come from an untrusted file.
fn push_given(text: &mut String, quoted: &str) -> Result<(), AllocError>
    ensures { OnOk result
        (string_bytes text.new
        ≡ string_bytes text.old ++ (codes " gives " ++ shown_text quoted.now)) }
{
    let shown = Shown(quoted);
    write!(text, " gives {shown}")?;
    Ok(())
}

/// Adds a line at the place of the definition with this index.
fn push_line_at(
    text: &mut String,
    placed: &PlacedTable<'_>,
    index: usize,
    sentence: &str,
) -> Result<(), AllocError>
    ensures { OnOk result
        (string_bytes text.new
        ≡ string_bytes text.old ++ words.line_at_place placed.now index sentence.now) }
{
    match placed.places.get(index) {
        Some(place) => push_line(
            text,
            path_of(placed.paths, place.source),
            whole_line(place.line),
            &Message::Plain(sentence),
        ),
        None => Ok(()),
    }
}
