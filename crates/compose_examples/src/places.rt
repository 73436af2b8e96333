//! The places of the definitions of worked tables, which of the definitions count, and how their
//! events are written.
use crate::helpers::{add, core, expect_text, two_sources};
use compose_model::Rule;
use compose_places::{
    CountingLine, DefinitionPlace, PlacedTable, definition_places, last_definitions,
    read_placed_table, written_events,
};
use compose_read::{Definitions, ReadFault, SourceFault, Sources, read_definitions};
use compose_tree::{BuildTable, ListTable, PackedTable, TableFault, read_table};
use keysym_core::Names;
use std::alloc::{AllocError, Global};
use std::fmt::Write;
use std::process::Abort;
use std::test::Fail;

/// The root's lines, those of the source `%L`, and what is printed: for each definition in reading
/// order its source and its line, and for each sequence in rising order the definition that counts,
/// from 0. Of overlapping sequences the longest ones stay.
struct TableRow {
    root: &'static str,
    included: &'static str,
    places: &'static str,
    last: &'static str,
}

#[rattlefmt::skip]
static TABLES: [TableRow; 8] = [
    TableRow { root: "", included: "<a> : \"x\"", places: "", last: "" },
    TableRow { root: "<a> : \"x\"", included: "", places: "0:1 ", last: "0 " },
    TableRow { root: "<b> : \"1\"\r\n\r\n# <c> : \"2\"\r\n<a> : \"3\" # none\r\n<b> : \"4\"\r\n", included: "", places: "0:1 0:4 0:5 ", last: "1 2 " },
    TableRow { root: "\u{feff}<a> : \"1\"\n<a> : \"2\"\n<a> : \"3\"", included: "", places: "0:1 0:2 0:3 ", last: "2 " },
    TableRow { root: "include \"%L\"\n<Multi_key> <e> : \"x\"\n<a> : \"y\"\n<Multi_key> <e> : \"z\"", included: "\u{feff}<Multi_key> <e> : \"é\"\n<b> : \"w\"\n", places: "1:1 1:2 0:2 0:3 0:4 ", last: "3 1 4 " },
    TableRow { root: "<a> : \"1\"\ninclude \"%L\"\n<b> : \"2\"\ninclude \"%L\"\n", included: "<b> : \"3\"\n<a> : \"4\"", places: "0:1 1:1 1:2 0:3 1:1 1:2 ", last: "5 4 " },
    TableRow { root: "<a> <b> : \"1\"\n<a> : \"2\"\n<a> <b> : \"3\"\n<a> : \"4\"\n", included: "", places: "0:1 0:2 0:3 0:4 ", last: "2 " },
    TableRow { root: "\n\n\n\n\n\n\n\n\n\n\n\n\n\n\n\n\n\n\n\n<a> : \"x\"\n\n", included: "", places: "0:21 ", last: "0 " },
];

/// The root's lines, those of the source `%L`, and what is printed for each sequence in rising
/// order: the source and the line of the definition that counts, and the names of its keys as that
/// line writes them.
struct CountingRow {
    root: &'static str,
    included: &'static str,
    lines: &'static str,
}

#[rattlefmt::skip]
static COUNTING: [CountingRow; 5] = [
    CountingRow { root: "", included: "<a> : \"x\"", lines: "" },
    CountingRow { root: "include \"%L\"\n<Multi_key> <e> : \"x\"\n<a> : \"y\"\n<Multi_key> <e> : \"z\"", included: "\u{feff}<Multi_key> <e> : \"é\"\n<b> : \"w\"\n", lines: "0:3 a 1:2 b 0:4 Multi_key e " },
    CountingRow { root: "<a> <b> : \"1\"\n<a> : \"2\"\n<a> <b> : \"3\"\n<a> : \"4\"\n", included: "", lines: "0:3 a b " },
    CountingRow { root: "<U00E9> : \"1\"\n# <eacute> : \"2\"\n \t< eacute >:\"3\"\n", included: "", lines: "0:3 eacute " },
    CountingRow { root: "<eacute> : \"1\"\n<U00E9> : \"2\"\n", included: "", lines: "0:2 U00E9 " },
];

/// A line of a root with a line before and after it, and the names of its events, if it is a
/// definition.
struct WrittenRow {
    line: &'static str,
    events: Option<&'static str>,
}

#[rattlefmt::skip]
static WRITTEN: [WrittenRow; 8] = [
    WrittenRow { line: "<Multi_key> <e> : \"é\" eacute # e acute", events: Some("Multi_key e ") },
    WrittenRow { line: " < a >\t<U00E9>:\"x\"\r", events: Some("a U00E9 ") },
    WrittenRow { line: "<nosuch> : \"\\q\"", events: Some("nosuch ") },
    WrittenRow { line: "", events: None },
    WrittenRow { line: "# <a> : \"x\"", events: None },
    WrittenRow { line: "include \"%L\"", events: None },
    WrittenRow { line: "<a> \"x\"", events: None },
    WrittenRow { line: "Ctrl<a> : \"x\"", events: None },
];

/// The number of a source and of a line in it, and the names of the events that are written there,
/// if there is a definition.
struct PlaceRow {
    source: usize,
    line: usize,
    events: Option<&'static str>,
}

/// The first and the last line of a source are found by their numbers; no other number, and no
/// other source, has a line.
#[rattlefmt::skip]
static BY_NUMBER: [PlaceRow; 8] = [
    PlaceRow { source: 0, line: 1, events: Some("b ") },
    PlaceRow { source: 0, line: 3, events: Some("c ") },
    PlaceRow { source: 0, line: 0, events: None },
    PlaceRow { source: 0, line: 2, events: None },
    PlaceRow { source: 0, line: 4, events: None },
    PlaceRow { source: 1, line: 0, events: None },
    PlaceRow { source: 1, line: 1, events: None },
    PlaceRow { source: 2, line: 1, events: None },
];

fn push_place(text: &mut String, place: DefinitionPlace) -> Result<(), AllocError> {
    let (source, line) = (place.source, place.line);
    write!(text, "{source}:{line} ")?;
    Ok(())
}

fn push_places(text: &mut String, places: &[DefinitionPlace]) -> Result<(), AllocError> {
    for place in places {
        push_place(text, *place)?;
    }
    Ok(())
}

fn places_of(
    alloc: Global,
    sources: &Sources,
    root: &str,
) -> Result<Vec<DefinitionPlace>, AllocError> {
    definition_places(alloc, sources, root)
}

/// Expects the places of the definitions that are read from the root.
fn expect_places(
    rt: &impl Abort,
    alloc: Global,
    sources: &Sources,
    root: &str,
    prints: &str,
) -> Result<(), AllocError> {
    let mut text = String::new(alloc);
    push_places(&mut text, &places_of(alloc, sources, root)?)?;
    expect_text(rt, prints, &text, prints);
    Ok(())
}

/// Expects the places of a row, and none from a missing root.
fn expect_places_of(rt: &impl Abort, alloc: Global, row: &TableRow) -> Result<(), SourceFault> {
    let sources = two_sources(alloc, row.root.as_bytes(), row.included)?;
    expect_places(rt, alloc, &sources, "r", row.places)?;
    expect_places(rt, alloc, &sources, "R", "")?;
    Ok(())
}

#[test]
fn places_of_definitions(rt: HostRuntime) -> Result<(), SourceFault> {
    for row in &TABLES {
        expect_places_of(&rt, rt.alloc(), row)?;
    }
    Ok(())
}

fn push_index(text: &mut String, index: Option<u32>) -> Result<(), AllocError> {
    match index {
        Some(index) => write!(text, "{index} ")?,
        None => text.push_str("none ")?,
    }
    Ok(())
}

fn push_last(text: &mut String, last: &[Option<u32>]) -> Result<(), AllocError> {
    for index in last {
        push_index(text, *index)?;
    }
    Ok(())
}

fn definitions_of(
    alloc: Global,
    names: &Names,
    sources: &Sources,
) -> Result<Definitions, ReadFault> {
    read_definitions(alloc, names, sources, "r")
}

fn table_of<T: BuildTable>(
    alloc: Global,
    names: &Names,
    sources: &Sources,
) -> Result<T, TableFault> {
    read_table(alloc, names, sources, "r", Rule::Longest)
}

fn last_of<T: BuildTable>(
    alloc: Global,
    definitions: &Definitions,
    table: &T,
) -> Result<Vec<Option<u32>>, AllocError> {
    last_definitions(alloc, definitions, table)
}

/// Expects which definition counts for each sequence of a table.
fn expect_last_in<T: BuildTable>(
    rt: &impl Abort,
    alloc: Global,
    definitions: &Definitions,
    table: &T,
    prints: &str,
) -> Result<(), AllocError> {
    let mut text = String::new(alloc);
    push_last(&mut text, &last_of(alloc, definitions, table)?)?;
    expect_text(rt, prints, &text, prints);
    Ok(())
}

/// Expects which of these definitions count in the table that is read from these sources.
fn expect_last_of<T: BuildTable>(
    rt: &impl Abort,
    alloc: Global,
    names: &Names,
    definitions: &Definitions,
    sources: &Sources,
    prints: &str,
) -> Result<(), Fail> {
    let table: T = table_of(alloc, names, sources)?;
    expect_last_in(rt, alloc, definitions, &table, prints)?;
    Ok(())
}

/// Expects which of the definitions of some sources count in the table of others.
fn expect_last<T: BuildTable>(
    rt: &impl Abort,
    alloc: Global,
    names: &Names,
    defined: &Sources,
    sources: &Sources,
    prints: &str,
) -> Result<(), Fail> {
    let definitions = definitions_of(alloc, names, defined)?;
    expect_last_of::<T>(rt, alloc, names, &definitions, sources, prints)
}

fn expect_last_of_row<T: BuildTable>(
    rt: &impl Abort,
    alloc: Global,
    names: &Names,
    row: &TableRow,
) -> Result<(), Fail> {
    let sources = two_sources(alloc, row.root.as_bytes(), row.included)?;
    expect_last::<T>(rt, alloc, names, &sources, &sources, row.last)
}

/// Expects the same of both forms of a table.
fn expect_each_last(rt: &impl Abort, alloc: Global, names: &Names) -> Result<(), Fail> {
    for row in &TABLES {
        expect_last_of_row::<ListTable>(rt, alloc, names, row)?;
        expect_last_of_row::<PackedTable>(rt, alloc, names, row)?;
    }
    Ok(())
}

#[test]
fn last_definitions_of_tables(rt: HostRuntime) -> Result<(), Fail> {
    let names = core(rt.alloc())?;
    expect_each_last(&rt, rt.alloc(), &names)
}

/// Expects which of these definitions count in the table of another text.
fn expect_last_by(
    rt: &impl Abort,
    alloc: Global,
    names: &Names,
    defined: &Sources,
    text: &str,
    prints: &str,
) -> Result<(), Fail> {
    let sources = two_sources(alloc, text.as_bytes(), "")?;
    expect_last::<PackedTable>(rt, alloc, names, defined, &sources, prints)
}

/// For a sequence of the table that no definition has, no definition counts.
fn expect_last_of_another(rt: &impl Abort, alloc: Global, names: &Names) -> Result<(), Fail> {
    let defined = two_sources(alloc, b"<c> : \"1\"\n<b> : \"2\"\n<a> <a> : \"3\"\n", "")?;
    let text = "<a> : \"x\"\n<b> : \"y\"\n<c> <c> : \"z\"\n";
    expect_last_by(rt, alloc, names, &defined, text, "none 1 none ")
}

#[test]
fn last_definitions_of_another_table(rt: HostRuntime) -> Result<(), Fail> {
    let names = core(rt.alloc())?;
    expect_last_of_another(&rt, rt.alloc(), &names)
}

fn push_names(text: &mut String, names: &[&str]) -> Result<(), AllocError> {
    for name in names {
        text.push_str(name)?;
        text.push_str(" ")?;
    }
    Ok(())
}

fn push_line(text: &mut String, line: &Option<CountingLine>) -> Result<(), AllocError> {
    match line {
        Some(line) => {
            push_place(text, line.place())?;
            push_names(text, &line.keys())
        }
        None => text.push_str("none "),
    }
}

fn push_lines(text: &mut String, lines: &[Option<CountingLine>]) -> Result<(), AllocError> {
    for line in lines {
        push_line(text, line)?;
    }
    Ok(())
}

fn placed_of<'a, T: BuildTable>(
    alloc: Global,
    names: &Names,
    sources: &'a Sources,
) -> Result<PlacedTable<'a, T>, TableFault> {
    read_placed_table(alloc, names, sources, "r", Rule::Longest)
}

/// Prints the lines that count for the sequences of the table that is read from these sources.
fn push_counting<T: BuildTable>(
    text: &mut String,
    alloc: Global,
    names: &Names,
    sources: &Sources,
) -> Result<(), Fail> {
    let placed: PlacedTable<T> = placed_of(alloc, names, sources)?;
    push_lines(text, &placed.lines)?;
    Ok(())
}

fn expect_counting<T: BuildTable>(
    rt: &impl Abort,
    alloc: Global,
    names: &Names,
    sources: &Sources,
    lines: &str,
) -> Result<(), Fail> {
    let mut text = String::new(alloc);
    push_counting::<T>(&mut text, alloc, names, sources)?;
    expect_text(rt, lines, &text, lines);
    Ok(())
}

/// Expects the same of both forms of a table.
fn expect_lines(
    rt: &impl Abort,
    alloc: Global,
    names: &Names,
    row: &CountingRow,
) -> Result<(), Fail> {
    let sources = two_sources(alloc, row.root.as_bytes(), row.included)?;
    expect_counting::<ListTable>(rt, alloc, names, &sources, row.lines)?;
    expect_counting::<PackedTable>(rt, alloc, names, &sources, row.lines)
}

fn expect_each_lines(rt: &impl Abort, alloc: Global, names: &Names) -> Result<(), Fail> {
    for row in &COUNTING {
        expect_lines(rt, alloc, names, row)?;
    }
    Ok(())
}

#[test]
fn counting_lines(rt: HostRuntime) -> Result<(), Fail> {
    let names = core(rt.alloc())?;
    expect_each_lines(&rt, rt.alloc(), &names)
}

/// Returns whether this number of sequences is counted as proper prefixes of other ones.
fn has_overlaps<T: BuildTable>(
    alloc: Global,
    names: &Names,
    sources: &Sources,
    overlaps: usize,
) -> Result<bool, Fail> {
    let placed: PlacedTable<T> = placed_of(alloc, names, sources)?;
    Ok(placed.overlaps == overlaps)
}

#[test]
fn overlaps_are_counted_once(rt: HostRuntime) -> Result<(), Fail> {
    let names = core(rt.alloc())?;
    let defined = b"<a> : \"1\"\n<a> : \"2\"\n<a> <b> : \"3\"\n<b> : \"4\"\n<a> <b> <c> : \"5\"\n";
    let sources = two_sources(rt.alloc(), defined, "")?;
    assert!(rt; has_overlaps::<ListTable>(rt.alloc(), &names, &sources, 2)?);
    assert!(rt; has_overlaps::<PackedTable>(rt.alloc(), &names, &sources, 2)?);
    let sources = two_sources(rt.alloc(), b"<a> : \"1\"\n<b> : \"2\"\n", "")?;
    assert!(rt; has_overlaps::<PackedTable>(rt.alloc(), &names, &sources, 0)?);
    Ok(())
}

/// Prints the names of the events that are written at a place, or a word if there is no definition.
fn push_written(
    text: &mut String,
    sources: &Sources,
    place: DefinitionPlace,
) -> Result<(), AllocError> {
    match written_events(sources, place) {
        Some(events) => push_names(text, &events),
        None => text.push_str("no definition"),
    }
}

/// Expects the names of the events that are written at a place.
fn expect_events(
    rt: &impl Abort,
    alloc: Global,
    sources: &Sources,
    source: usize,
    line: usize,
    events: Option<&str>,
) -> Result<(), AllocError> {
    let mut text = String::new(alloc);
    push_written(&mut text, sources, DefinitionPlace { source, line })?;
    let wanted = events.unwrap_or("no definition");
    expect_text(rt, wanted, &text, wanted);
    Ok(())
}

/// Expects the events of a line in the middle of the root, and of the same line alone in the
/// included source.
fn expect_written_in(
    rt: &impl Abort,
    alloc: Global,
    sources: &Sources,
    events: Option<&str>,
) -> Result<(), AllocError> {
    expect_events(rt, alloc, sources, 0, 2, events)?;
    expect_events(rt, alloc, sources, 1, 1, events)
}

/// Returns the root with this line between two others, and the included source with this line
/// alone.
fn written_sources(alloc: Global, line: &str) -> Result<Sources<'static>, SourceFault> {
    let mut root = String::from_str(alloc, "\u{feff}<b> : \"x\"\n")?;
    root.push_str(line)?;
    root.push_str("\n<c> : \"x\"")?;
    two_sources(alloc, root.as_bytes(), line)
}

fn expect_written(rt: &impl Abort, alloc: Global, row: &WrittenRow) -> Result<(), SourceFault> {
    let sources = written_sources(alloc, row.line)?;
    expect_written_in(rt, alloc, &sources, row.events)?;
    Ok(())
}

#[test]
fn written_lines(rt: HostRuntime) -> Result<(), SourceFault> {
    for row in &WRITTEN {
        expect_written(&rt, rt.alloc(), row)?;
    }
    Ok(())
}

fn expect_by_number(rt: &impl Abort, alloc: Global, sources: &Sources) -> Result<(), AllocError> {
    for row in &BY_NUMBER {
        expect_events(rt, alloc, sources, row.source, row.line, row.events)?;
    }
    Ok(())
}

#[test]
fn written_lines_by_number(rt: HostRuntime) -> Result<(), SourceFault> {
    let sources = two_sources(
        rt.alloc(),
        "\u{feff}<b> : \"x\"\n\n<c> : \"x\"\n".as_bytes(),
        "",
    )?;
    expect_by_number(&rt, rt.alloc(), &sources)?;
    Ok(())
}

/// Returns a source with a line that is not UTF-8, and one that is.
fn with_bytes(alloc: Global) -> Result<Sources<'static>, SourceFault> {
    let mut sources = Sources::new(alloc);
    add(&mut sources, alloc, "r", b"<a> : \"x\" # \xe9\n<b> : \"x\"")?;
    Ok(sources)
}

/// A line that is not UTF-8 has no events, and is not a definition.
fn expect_of_bytes(rt: &impl Abort, alloc: Global, sources: &Sources) -> Result<(), AllocError> {
    expect_events(rt, alloc, sources, 0, 1, None)?;
    expect_events(rt, alloc, sources, 0, 2, Some("b "))?;
    expect_places(rt, alloc, sources, "r", "0:2 ")
}

#[test]
fn written_line_that_is_not_utf8(rt: HostRuntime) -> Result<(), SourceFault> {
    let sources = with_bytes(rt.alloc())?;
    expect_of_bytes(&rt, rt.alloc(), &sources)?;
    Ok(())
}
