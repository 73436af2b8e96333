//! Worked tables: the sequences that remain, or the first fault.
use crate::helpers::{add, core, expect_text, repeated, two_sources};
use compose_model::Rule;
use compose_read::{
    Definitions, ReadFault, Sequences, SettleFault, SourceFault, Sources, read_definitions, settle,
};
use keysym_core::{Keysym, Names};
use std::alloc::{AllocError, Global};
use std::fmt::Write;
use std::process::Abort;

/// The root's lines, those of the source `%L`, the rule for overlapping sequences, and what is
/// printed: for each sequence its keysyms and its text; or the first fault.
struct TableRow {
    root: &'static str,
    included: &'static str,
    rule: Rule,
    prints: &'static str,
}

#[rattlefmt::skip]
static TABLES: [TableRow; 19] = [
    TableRow { root: "<a> <b> : \"x\"\ninclude \"%L\"\n", included: "<a> <b> : \"z\"\n", rule: Rule::Refuse, prints: "0x61,0x62=z;" },
    TableRow { root: "<a> <b> : \"x\"\n<a> : \"y\"\n", included: "", rule: Rule::Refuse, prints: "1 Overlap short=0x61 long=0x61,0x62" },
    TableRow { root: "<a> <b> : \"x\"\n<a> : \"y\"\n", included: "", rule: Rule::Longest, prints: "0x61,0x62=x;" },
    TableRow { root: "<a> : \"1\"\n<a> <b> <c> : \"2\"\n<a> <b> : \"3\"\n<a> <b> <c> : \"4\"\n", included: "", rule: Rule::Longest, prints: "0x61,0x62,0x63=4;" },
    TableRow { root: "<b> <c> : \"1\"\n<a> <b> <d> : \"2\"\n<a> <b> <c> : \"3\"\n<b> : \"4\"\n<a> <b> : \"5\"\n", included: "", rule: Rule::Refuse, prints: "1 Overlap short=0x61,0x62 long=0x61,0x62,0x63" },
    TableRow { root: "\u{feff}<c> : \"w\"\n# none\n\n<b> : eacute\r\n<c> : \"y\"", included: "", rule: Rule::Refuse, prints: "0x62=é;0x63=y;" },
    TableRow { root: "", included: "", rule: Rule::Refuse, prints: "" },
    TableRow { root: "include \"r\"", included: "", rule: Rule::Refuse, prints: "7 IncludeDepth source=0 line=1" },
    TableRow { root: "include \"%L\"", included: "include \"%L\"\ninclude \"r\"", rule: Rule::Refuse, prints: "7 IncludeDepth source=1 line=1" },
    TableRow { root: "include \"%L\"", included: "\ninclude \"r\"\ninclude \"%L\"", rule: Rule::Refuse, prints: "7 IncludeDepth source=0 line=1" },
    TableRow { root: "include \"none\"", included: "", rule: Rule::Refuse, prints: "6 MissingInclude source=0 line=1" },
    TableRow { root: "<Shift_L> : \"x\"", included: "", rule: Rule::Refuse, prints: "5 IgnoredKeysym source=0 line=1 index=0" },
    TableRow { root: "<nosuch> : \"x\"\nCtrl<a> : \"x\"", included: "", rule: Rule::Refuse, prints: "4 UnknownKeysym source=0 line=1 index=0" },
    TableRow { root: "<a> <b> : \"x\" nosuch", included: "", rule: Rule::Refuse, prints: "4 UnknownKeysym source=0 line=1 index=2" },
    TableRow { root: "\n<a> : \"\\q\" nosuch", included: "", rule: Rule::Refuse, prints: "3 Lex source=0 line=2: 4 UnknownEscape at=0" },
    TableRow { root: "Ctrl<a> : \"x\"", included: "", rule: Rule::Refuse, prints: "3 Lex source=0 line=1: 2 ModifierList at=0" },
    TableRow { root: "<a> :", included: "", rule: Rule::Refuse, prints: "3 Lex source=0 line=1: 6 NoResult" },
    TableRow { root: "<a> : \"x", included: "", rule: Rule::Refuse, prints: "3 Lex source=0 line=1: 3 UnclosedString at=6" },
    TableRow { root: "<a> \"x\"", included: "", rule: Rule::Refuse, prints: "3 Lex source=0 line=1: 1 BadToken at=4" },
];

/// Tables whose order is not decided by the first three keysyms.
#[rattlefmt::skip]
static HINTED: [TableRow; 8] = [
    TableRow { root: "<a> <a> <a> <a> <a> <c> : \"1\"\n<a> <a> <a> <a> <a> <b> <z> : \"2\"\n<a> <a> <a> <a> <a> <b> <y> : \"3\"\n", included: "", rule: Rule::Refuse, prints: "0x61,0x61,0x61,0x61,0x61,0x62,0x79=3;0x61,0x61,0x61,0x61,0x61,0x62,0x7a=2;0x61,0x61,0x61,0x61,0x61,0x63=1;" },
    TableRow { root: "<0x1008ff11> <a> : \"1\"\n<U10FFFF> <b> : \"2\"\n<U70000> <c> : \"3\"\n<U6FFFF> <d> : \"4\"\n<U6FFFE> <e> : \"5\"\n", included: "", rule: Rule::Refuse, prints: "0x106fffe,0x65=5;0x106ffff,0x64=4;0x1070000,0x63=3;0x110ffff,0x62=2;0x1008ff11,0x61=1;" },
    TableRow { root: "<U0100> <a> : \"1\"\n<0xffffff> <b> : \"2\"\n<0x10001> <c> : \"3\"\n<0x10000> <d> : \"4\"\n<0xffff> <e> : \"5\"\n", included: "", rule: Rule::Refuse, prints: "0xffff,0x65=5;0x10000,0x64=4;0x10001,0x63=3;0xffffff,0x62=2;0x1000100,0x61=1;" },
    TableRow { root: "<b> : \"1\"\n<a> <a> <a> <a> <a> <a> : \"2\"\n<b> : \"3\"\n<a> <a> <a> <a> <a> <a> : \"4\"\n<b> : \"5\"\n", included: "", rule: Rule::Refuse, prints: "0x61,0x61,0x61,0x61,0x61,0x61=4;0x62=5;" },
    TableRow { root: "<a> <a> <a> <d> : \"1\"\n<a> <a> <a> <c> : \"2\"\n<a> <a> <a> <b> : \"3\"\n<a> <a> <a> <c> : \"4\"\n", included: "", rule: Rule::Refuse, prints: "0x61,0x61,0x61,0x62=3;0x61,0x61,0x61,0x63=4;0x61,0x61,0x61,0x64=1;" },
    TableRow { root: "<b> <a> <a> <c> : \"1\"\n<a> <a> <a> <c> : \"2\"\n<c> : \"3\"\n<b> <a> <a> <b> : \"4\"\n<a> <a> <a> <b> : \"5\"\n<b> <a> <a> <c> : \"6\"\n", included: "", rule: Rule::Refuse, prints: "0x61,0x61,0x61,0x62=5;0x61,0x61,0x61,0x63=2;0x62,0x61,0x61,0x62=4;0x62,0x61,0x61,0x63=6;0x63=3;" },
    TableRow { root: "<U5D01> <a> : \"1\"\n<U5D00> <b> : \"2\"\n<U5CFF> <c> : \"3\"\n<U5CFE> <d> : \"4\"\n<0x10000> <e> : \"5\"\n<0xffff> <f> : \"6\"\n", included: "", rule: Rule::Refuse, prints: "0xffff,0x66=6;0x10000,0x65=5;0x1005cfe,0x64=4;0x1005cff,0x63=3;0x1005d00,0x62=2;0x1005d01,0x61=1;" },
    TableRow { root: "<0xfe00> <a> : \"1\"\n<0xfdff> <b> : \"2\"\n<0x2101> <c> : \"3\"\n<0x2100> <d> : \"4\"\n<0x20ff> <e> : \"5\"\n", included: "", rule: Rule::Refuse, prints: "0x20ff,0x65=5;0x2100,0x64=4;0x2101,0x63=3;0xfdff,0x62=2;0xfe00,0x61=1;" },
];

/// The root's bytes, whose second line is not UTF-8, and what is printed.
struct BytesRow {
    root: &'static [u8],
    prints: &'static str,
}

#[rattlefmt::skip]
static NOT_UTF8: [BytesRow; 3] = [
    BytesRow { root: b"<a> : \"\xc3\xa9\"\n\xff", prints: "2 NotUtf8 source=0 line=2" },
    BytesRow { root: b"<nosuch> : \"\xc3\xa9\"\n\xc3", prints: "4 UnknownKeysym source=0 line=1 index=0" },
    BytesRow { root: b"include \"%L\"\n\xa9", prints: "6 MissingInclude source=0 line=1" },
];

/// Some lines, and how often they occur in a source.
struct Lines {
    line: &'static str,
    times: usize,
}

/// The sources `s0`, which is the root, `s1` and so on, and what is printed.
struct ListedRow {
    name: &'static str,
    sources: &'static [Lines],
    prints: &'static str,
}

/// Large sources.
#[rattlefmt::skip]
static LARGE: [ListedRow; 6] = [
    ListedRow {
        name: "as many lines as may be",
        sources: &[
            Lines { line: "\n", times: 1_000_000 },
        ],
        prints: "",
    },
    ListedRow {
        name: "one line more",
        sources: &[
            Lines { line: "\n", times: 1_000_001 },
        ],
        prints: "8 TooManyLines source=0 line=1000001",
    },
    ListedRow {
        name: "as many definitions as may be",
        sources: &[
            Lines { line: "<a> : \"x\"\n", times: 100_000 },
        ],
        prints: "0x61=x;",
    },
    ListedRow {
        name: "one definition more",
        sources: &[
            Lines { line: "<a> : \"x\"\n", times: 100_001 },
        ],
        prints: "9 TooManyDefinitions source=0 line=100001",
    },
    ListedRow {
        name: "a comment of eight megabytes",
        sources: &[
            Lines { line: "########", times: 1_048_576 },
        ],
        prints: "",
    },
    ListedRow {
        name: "a faulty line of eight megabytes",
        sources: &[
            Lines { line: "xxxxxxxx", times: 1_048_576 },
        ],
        prints: "3 Lex source=0 line=1: 2 ModifierList at=0",
    },
];

/// Chains of includes, and sources that are included often. The long ones would take hours if all
/// their lines were read at each include.
#[rattlefmt::skip]
static INCLUDING: [ListedRow; 11] = [
    ListedRow {
        name: "a chain of eight includes",
        sources: &[
            Lines { line: "include \"s1\"\n", times: 1 },
            Lines { line: "include \"s2\"\n", times: 1 },
            Lines { line: "include \"s3\"\n", times: 1 },
            Lines { line: "include \"s4\"\n", times: 1 },
            Lines { line: "include \"s5\"\n", times: 1 },
            Lines { line: "include \"s6\"\n", times: 1 },
            Lines { line: "include \"s7\"\n", times: 1 },
            Lines { line: "include \"s8\"\n", times: 1 },
            Lines { line: "\n", times: 1 },
        ],
        prints: "",
    },
    ListedRow {
        name: "a chain of nine includes",
        sources: &[
            Lines { line: "include \"s1\"\n", times: 1 },
            Lines { line: "include \"s2\"\n", times: 1 },
            Lines { line: "include \"s3\"\n", times: 1 },
            Lines { line: "include \"s4\"\n", times: 1 },
            Lines { line: "include \"s5\"\n", times: 1 },
            Lines { line: "include \"s6\"\n", times: 1 },
            Lines { line: "include \"s7\"\n", times: 1 },
            Lines { line: "include \"s8\"\n", times: 1 },
            Lines { line: "include \"s9\"\n", times: 1 },
            Lines { line: "\n", times: 1 },
        ],
        prints: "7 IncludeDepth source=8 line=1",
    },
    ListedRow {
        name: "a chain of eight includes, each eight times",
        sources: &[
            Lines { line: "include \"s1\"\n", times: 8 },
            Lines { line: "include \"s2\"\n", times: 8 },
            Lines { line: "include \"s3\"\n", times: 8 },
            Lines { line: "include \"s4\"\n", times: 8 },
            Lines { line: "include \"s5\"\n", times: 8 },
            Lines { line: "include \"s6\"\n", times: 8 },
            Lines { line: "include \"s7\"\n", times: 8 },
            Lines { line: "include \"s8\"\n", times: 8 },
            Lines { line: "\n", times: 1 },
        ],
        prints: "8 TooManyLines source=7 line=2",
    },
    ListedRow {
        name: "a chain that is read where a level is left below it, and then where none is",
        sources: &[
            Lines { line: "include \"s8\"\ninclude \"s1\"\n", times: 1 },
            Lines { line: "include \"s2\"\n", times: 1 },
            Lines { line: "include \"s3\"\n", times: 1 },
            Lines { line: "include \"s4\"\n", times: 1 },
            Lines { line: "include \"s5\"\n", times: 1 },
            Lines { line: "include \"s6\"\n", times: 1 },
            Lines { line: "include \"s7\"\n", times: 1 },
            Lines { line: "include \"s8\"\n", times: 1 },
            Lines { line: "include \"s9\"\n", times: 1 },
            Lines { line: "", times: 0 },
        ],
        prints: "7 IncludeDepth source=8 line=1",
    },
    ListedRow {
        name: "a long comment included 90,000 times",
        sources: &[
            Lines { line: "include \"s1\"\n", times: 300 },
            Lines { line: "include \"s2\"\n", times: 300 },
            Lines { line: "########", times: 524_288 },
        ],
        prints: "",
    },
    ListedRow {
        name: "a definition with a long comment included 90,000 times",
        sources: &[
            Lines { line: "include \"s1\"\n", times: 300 },
            Lines { line: "include \"s2\"\n", times: 300 },
            Lines { line: "<a> : \"x\" #", times: 349_525 },
        ],
        prints: "0x61=x;",
    },
    ListedRow {
        name: "1,000 definitions included 100 times",
        sources: &[
            Lines { line: "include \"s1\"\n", times: 100 },
            Lines { line: "<a> : \"x\"\n", times: 1_000 },
            Lines { line: "", times: 1 },
        ],
        prints: "0x61=x;",
    },
    ListedRow {
        name: "1,000 definitions included 100 times beside others",
        sources: &[
            Lines { line: "<a> : \"x\"\ninclude \"s1\"\n", times: 100 },
            Lines { line: "<b> : \"x\"\n", times: 1_000 },
            Lines { line: "", times: 1 },
        ],
        prints: "9 TooManyDefinitions source=1 line=901",
    },
    ListedRow {
        name: "999 lines included 1,000 times",
        sources: &[
            Lines { line: "include \"s1\"\n", times: 1_000 },
            Lines { line: "\n", times: 999 },
            Lines { line: "", times: 1 },
        ],
        prints: "",
    },
    ListedRow {
        name: "1,000 lines included 1,000 times",
        sources: &[
            Lines { line: "include \"s1\"\n", times: 1_000 },
            Lines { line: "\n", times: 1_000 },
            Lines { line: "", times: 1 },
        ],
        prints: "8 TooManyLines source=1 line=1",
    },
    ListedRow {
        name: "a source that is included by two others",
        sources: &[
            Lines { line: "include \"s1\"\n<b> : \"y\"\ninclude \"s2\"\n", times: 2 },
            Lines { line: "include \"s2\"\n<a> : \"1\"\n", times: 1 },
            Lines { line: "<b> : \"2\"\n<c> : \"3\"\n", times: 1 },
        ],
        prints: "0x61=1;0x62=2;0x63=3;",
    },
];

fn read(
    alloc: Global,
    names: &Names,
    sources: &Sources,
    root: &str,
) -> Result<Definitions, ReadFault> {
    read_definitions(alloc, names, sources, root)
}

fn settled(alloc: Global, definitions: Definitions, rule: Rule) -> Result<Sequences, SettleFault> {
    settle(alloc, definitions, rule)
}

/// Prints the keysyms, separated by commas.
fn push_keys(text: &mut String, keys: &[Keysym]) -> Result<(), AllocError> {
    for (index, key) in keys.iter().enumerate() {
        let comma = if index > 0 { "," } else { "" };
        let number = key.value();
        write!(text, "{comma}0x{number:x}")?;
    }
    Ok(())
}

/// Prints the keysyms of each sequence and its text.
/// Errors: `AllocError` if memory runs out.
pub fn push_rows(text: &mut String, sequences: &Sequences) -> Result<(), AllocError> {
    for index in 0..sequences.len() {
        push_keys(text, sequences.sequence(index))?;
        let content = sequences.text(index);
        write!(text, "={content};")?;
    }
    Ok(())
}

fn push_settle_fault(text: &mut String, fault: &SettleFault) -> Result<(), AllocError> {
    write!(text, "{fault}")?;
    Ok(())
}

fn push_read_fault(text: &mut String, fault: &ReadFault) -> Result<(), AllocError> {
    write!(text, "{fault}")?;
    Ok(())
}

/// Prints the sequences that remain, or why there are none.
fn push_settled(
    text: &mut String,
    settled: &Result<Sequences, SettleFault>,
) -> Result<(), AllocError> {
    match settled {
        Ok(sequences) => push_rows(text, sequences),
        Err(fault) => push_settle_fault(text, fault),
    }
}

/// Prints the sequences that remain when reading from a root, or the first fault.
fn push_table(
    text: &mut String,
    alloc: Global,
    read: Result<Definitions, ReadFault>,
    rule: Rule,
) -> Result<(), AllocError> {
    match read {
        Ok(definitions) => push_settled(text, &settled(alloc, definitions, rule)),
        Err(fault) => push_read_fault(text, &fault),
    }
}

/// Expects the printed text.
fn expect_printed(
    rt: &impl Abort,
    alloc: Global,
    row: &str,
    read: Result<Definitions, ReadFault>,
    rule: Rule,
    prints: &str,
) -> Result<(), AllocError> {
    let mut text = String::new(alloc);
    push_table(&mut text, alloc, read, rule)?;
    expect_text(rt, row, &text, prints);
    Ok(())
}

fn expect_table(
    rt: &impl Abort,
    alloc: Global,
    names: &Names,
    row: &TableRow,
) -> Result<(), SourceFault> {
    let sources = two_sources(alloc, row.root.as_bytes(), row.included)?;
    let read = read(alloc, names, &sources, "r");
    expect_printed(rt, alloc, row.root, read, row.rule, row.prints)?;
    Ok(())
}

fn expect_tables(rt: &impl Abort, alloc: Global, names: &Names) -> Result<(), SourceFault> {
    for row in &TABLES {
        expect_table(rt, alloc, names, row)?;
    }
    Ok(())
}

#[test]
fn tables(rt: HostRuntime) -> Result<(), SourceFault> {
    let names = core(rt.alloc())?;
    expect_tables(&rt, rt.alloc(), &names)
}

fn expect_hinted(rt: &impl Abort, alloc: Global, names: &Names) -> Result<(), SourceFault> {
    for row in &HINTED {
        expect_table(rt, alloc, names, row)?;
    }
    Ok(())
}

#[test]
fn hinted_orders(rt: HostRuntime) -> Result<(), SourceFault> {
    let names = core(rt.alloc())?;
    expect_hinted(&rt, rt.alloc(), &names)
}

/// Returns the source `r` alone.
fn one_source(alloc: Global, root: &[u8]) -> Result<Sources<'static>, SourceFault> {
    let mut sources = Sources::new(alloc);
    add(&mut sources, alloc, "r", root)?;
    Ok(sources)
}

fn expect_bytes(
    rt: &impl Abort,
    alloc: Global,
    names: &Names,
    row: &BytesRow,
) -> Result<(), SourceFault> {
    let sources = one_source(alloc, row.root)?;
    let read = read(alloc, names, &sources, "r");
    expect_printed(rt, alloc, row.prints, read, Rule::Refuse, row.prints)?;
    Ok(())
}

fn expect_each_bytes(rt: &impl Abort, alloc: Global, names: &Names) -> Result<(), SourceFault> {
    for row in &NOT_UTF8 {
        expect_bytes(rt, alloc, names, row)?;
    }
    Ok(())
}

#[test]
fn lines_before_one_that_is_not_utf8(rt: HostRuntime) -> Result<(), SourceFault> {
    let names = core(rt.alloc())?;
    expect_each_bytes(&rt, rt.alloc(), &names)
}

/// Returns a text with a number in it.
fn numbered(alloc: Global, before: &str, number: usize, after: &str) -> Result<String, AllocError> {
    let mut text = String::new(alloc);
    write!(text, "{before}{number}{after}")?;
    Ok(text)
}

/// Adds the source of this number.
fn add_numbered(
    sources: &mut Sources,
    alloc: Global,
    number: usize,
    text: &str,
) -> Result<(), SourceFault> {
    let name = numbered(alloc, "s", number, "")?;
    add(sources, alloc, &name, text.as_bytes())
}

/// Adds the sources `s0`, `s1` and so on.
fn add_listed(sources: &mut Sources, alloc: Global, listed: &[Lines]) -> Result<(), SourceFault> {
    for (number, lines) in listed.iter().enumerate() {
        let text = repeated(alloc, lines.line, lines.times)?;
        add_numbered(sources, alloc, number, &text)?;
    }
    Ok(())
}

fn listed_sources(alloc: Global, listed: &[Lines]) -> Result<Sources<'static>, SourceFault> {
    let mut sources = Sources::new(alloc);
    add_listed(&mut sources, alloc, listed)?;
    Ok(sources)
}

fn expect_listed(
    rt: &impl Abort,
    alloc: Global,
    names: &Names,
    row: &ListedRow,
) -> Result<(), SourceFault> {
    let sources = listed_sources(alloc, row.sources)?;
    let read = read(alloc, names, &sources, "s0");
    expect_printed(rt, alloc, row.name, read, Rule::Refuse, row.prints)?;
    Ok(())
}

fn expect_large(rt: &impl Abort, alloc: Global, names: &Names) -> Result<(), SourceFault> {
    for row in &LARGE {
        expect_listed(rt, alloc, names, row)?;
    }
    Ok(())
}

#[test]
fn large_sources(rt: HostRuntime) -> Result<(), SourceFault> {
    let names = core(rt.alloc())?;
    expect_large(&rt, rt.alloc(), &names)
}

fn expect_including(rt: &impl Abort, alloc: Global, names: &Names) -> Result<(), SourceFault> {
    for row in &INCLUDING {
        expect_listed(rt, alloc, names, row)?;
    }
    Ok(())
}

#[test]
fn includes(rt: HostRuntime) -> Result<(), SourceFault> {
    let names = core(rt.alloc())?;
    expect_including(&rt, rt.alloc(), &names)
}

/// Adds 64 sources, each of which includes the next one.
fn add_most(sources: &mut Sources, alloc: Global) -> Result<(), SourceFault> {
    for number in 0..64usize {
        let text = numbered(alloc, "include \"s", number.wrapping_add(1), "\"\n")?;
        add_numbered(sources, alloc, number, &text)?;
    }
    Ok(())
}

/// Expects the number of sources, and the name of the last one.
fn expect_last(rt: &impl Abort, sources: &Sources, count: usize, name: &str) {
    assert_eq!(rt; sources.count(), count);
    let last = sources.name(count.wrapping_sub(1));
    expect_text(rt, "the last source", last.unwrap_or("none"), name);
}

/// Expects that a source with this name is refused.
fn expect_refused(
    rt: &impl Abort,
    alloc: Global,
    sources: &mut Sources,
    name: &str,
    fault: SourceFault,
) {
    let refused = add(sources, alloc, name, b"");
    assert!(rt; refused == Err(fault), "{name}");
}

/// 64 sources, each of which includes the next one.
fn most_sources(alloc: Global) -> Result<Sources<'static>, SourceFault> {
    let mut sources = Sources::new(alloc);
    add_most(&mut sources, alloc)?;
    Ok(sources)
}

/// Expects that no further source is added, and that a root which was not added is missing.
fn expect_most(
    rt: &impl Abort,
    alloc: Global,
    names: &Names,
    sources: &mut Sources,
) -> Result<(), AllocError> {
    expect_last(rt, sources, 64, "s63");
    expect_refused(rt, alloc, sources, "s7", SourceFault::NameTaken);
    expect_refused(rt, alloc, sources, "t", SourceFault::TooManySources);
    let read = read(alloc, names, sources, "t");
    expect_printed(rt, alloc, "no root", read, Rule::Refuse, "1 MissingRoot")
}

fn expect_no_more(rt: &impl Abort, alloc: Global, names: &Names) -> Result<(), SourceFault> {
    let mut sources = most_sources(alloc)?;
    expect_most(rt, alloc, names, &mut sources)?;
    Ok(())
}

#[test]
fn as_many_sources_are_added_as_may_be(rt: HostRuntime) -> Result<(), SourceFault> {
    let names = core(rt.alloc())?;
    expect_no_more(&rt, rt.alloc(), &names)
}
