//! The lines that are visited from a root, and their faults, in reading order.
use crate::helpers::{core, expect_text, two_sources};
use compose_read::{ReadFault, SourceFault, Sources, VisitedLine, Visits, read_faults};
use keysym_core::Names;
use std::alloc::{AllocError, Global};
use std::fmt::Write;
use std::process::Abort;

/// The root's lines, those of the source `%L`, and what is printed: for each visited line its
/// source, its number, the number of includes that lead to it, and its text.
struct VisitedRow {
    root: &'static str,
    included: &'static str,
    prints: &'static str,
}

#[rattlefmt::skip]
static VISITED: [VisitedRow; 7] = [
    VisitedRow { root: "", included: "<a> : \"x\"\n", prints: "" },
    VisitedRow { root: "\n<a>", included: "", prints: "0:1:0 \n0:2:0 <a>\n" },
    VisitedRow { root: "include \"%L\"\n<a> : \"x\"\ninclude \"%L\"\n", included: "<b> : \"y\"\n# z", prints: "0:1:0 include \"%L\"\n1:1:1 <b> : \"y\"\n1:2:1 # z\n0:2:0 <a> : \"x\"\n0:3:0 include \"%L\"\n1:1:1 <b> : \"y\"\n1:2:1 # z\n" },
    VisitedRow { root: "\u{feff}include \"%L\"\r\n\r\n\u{feff}<a>\r", included: "\u{feff}é", prints: "0:1:0 include \"%L\"\r\n1:1:1 é\n0:2:0 \r\n0:3:0 \u{feff}<a>\r\n" },
    VisitedRow { root: "include \"r\"\n<a>", included: "", prints: "0:1:0 include \"r\"\n0:1:1 include \"r\"\n0:1:2 include \"r\"\n0:1:3 include \"r\"\n0:1:4 include \"r\"\n0:1:5 include \"r\"\n0:1:6 include \"r\"\n0:1:7 include \"r\"\n0:1:8 include \"r\"\n0:2:8 <a>\n0:2:7 <a>\n0:2:6 <a>\n0:2:5 <a>\n0:2:4 <a>\n0:2:3 <a>\n0:2:2 <a>\n0:2:1 <a>\n0:2:0 <a>\n" },
    VisitedRow { root: "include \"%L\" x\ninclude \"none\"\nincluded \"%L\"\n", included: "<a>", prints: "0:1:0 include \"%L\" x\n0:2:0 include \"none\"\n0:3:0 included \"%L\"\n" },
    VisitedRow { root: " \tinclude\"%L\" # again", included: "\n", prints: "0:1:0  \tinclude\"%L\" # again\n1:1:1 \n" },
];

/// The root's lines, those of the source `%L`, the greatest number of faults, and what is printed:
/// each fault with a semicolon after it.
struct FaultsRow {
    root: &'static str,
    included: &'static str,
    most: usize,
    prints: &'static str,
}

#[rattlefmt::skip]
static FAULTS: [FaultsRow; 11] = [
    FaultsRow { root: "", included: "", most: 20, prints: "" },
    FaultsRow { root: "<a> : \"x\"\ninclude \"%L\"", included: "<b> : \"y\"\r\n", most: 20, prints: "" },
    FaultsRow { root: "<a> : \"x\"\n<a> \"x\"", included: "", most: 20, prints: "3 Lex source=0 line=2: 1 BadToken at=4;" },
    FaultsRow { root: "\u{feff}<a> \"x\"\r\n", included: "", most: 20, prints: "3 Lex source=0 line=1: 1 BadToken at=4;" },
    FaultsRow { root: "include \"r\"", included: "", most: 20, prints: "7 IncludeDepth source=0 line=1;" },
    FaultsRow { root: "include \"none\"\n<Shift_L> : \"x\"\n", included: "", most: 20, prints: "6 MissingInclude source=0 line=1;5 IgnoredKeysym source=0 line=2 index=0;" },
    FaultsRow { root: "<nosuch> : \"x\"\ninclude \"%L\"\nCtrl<a> : \"x\"\ninclude \"%L\"", included: "<a> : \"\\q\"\n<a> :", most: 20, prints: "4 UnknownKeysym source=0 line=1 index=0;3 Lex source=1 line=1: 4 UnknownEscape at=0;3 Lex source=1 line=2: 6 NoResult;3 Lex source=0 line=3: 2 ModifierList at=0;3 Lex source=1 line=1: 4 UnknownEscape at=0;3 Lex source=1 line=2: 6 NoResult;" },
    FaultsRow { root: "<nosuch> : \"x\"\ninclude \"%L\"\nCtrl<a> : \"x\"\ninclude \"%L\"", included: "<a> : \"\\q\"\n<a> :", most: 2, prints: "4 UnknownKeysym source=0 line=1 index=0;3 Lex source=1 line=1: 4 UnknownEscape at=0;" },
    FaultsRow { root: "<nosuch> : \"x\"", included: "", most: 0, prints: "" },
    FaultsRow { root: "\n\n\n\n\n\n\n\n\n\n\n\n\n\n\n\n\n\n\n\n<a> : \"x\n\n\n\n", included: "", most: 20, prints: "3 Lex source=0 line=21: 3 UnclosedString at=6;" },
    FaultsRow { root: "<a>\n<a>\n<a>\n<a>\n<a>\n<a>\n", included: "", most: 5, prints: "3 Lex source=0 line=1: 1 BadToken at=3;3 Lex source=0 line=2: 1 BadToken at=3;3 Lex source=0 line=3: 1 BadToken at=3;3 Lex source=0 line=4: 1 BadToken at=3;3 Lex source=0 line=5: 1 BadToken at=3;" },
];

fn visits<'a>(sources: &'a Sources, root: &str) -> Option<Visits<'a>> {
    sources.visits(root)
}

/// Prints a visited line; a question mark stands for a text that is not UTF-8.
fn push_line(text: &mut String, line: VisitedLine<'_>) -> Result<(), AllocError> {
    let content = str::from_utf8(line.bytes).unwrap_or("?");
    let (source, number, depth) = (line.source, line.line, line.depth);
    write!(text, "{source}:{number}:{depth} {content}\n")?;
    Ok(())
}

/// Prints the remaining lines.
fn push_lines(text: &mut String, visits: Visits<'_>) -> Result<(), AllocError> {
    for line in visits {
        push_line(text, line)?;
    }
    Ok(())
}

/// Prints the lines that are visited from the root, or a word if no source has its name.
fn push_visits(text: &mut String, sources: &Sources, root: &str) -> Result<(), AllocError> {
    match visits(sources, root) {
        Some(visits) => push_lines(text, visits),
        None => text.push_str("none"),
    }
}

/// Expects the printed text of the lines that are visited from the root.
fn expect_visits(
    rt: &impl Abort,
    alloc: Global,
    sources: &Sources,
    root: &str,
    prints: &str,
) -> Result<(), AllocError> {
    let mut text = String::new(alloc);
    push_visits(&mut text, sources, root)?;
    expect_text(rt, prints, &text, prints);
    Ok(())
}

fn expect_visited(rt: &impl Abort, alloc: Global, row: &VisitedRow) -> Result<(), SourceFault> {
    let sources = two_sources(alloc, row.root.as_bytes(), row.included)?;
    expect_visits(rt, alloc, &sources, "r", row.prints)?;
    Ok(())
}

#[test]
fn visited_lines(rt: HostRuntime) -> Result<(), SourceFault> {
    for row in &VISITED {
        expect_visited(&rt, rt.alloc(), row)?;
    }
    Ok(())
}

/// A line that is not UTF-8 is visited, and includes nothing; and from a missing root no line is
/// visited.
fn expect_visited_bytes(
    rt: &impl Abort,
    alloc: Global,
    sources: &Sources,
) -> Result<(), AllocError> {
    expect_visits(rt, alloc, sources, "r", "0:1:0 ?\n0:2:0 <a>\n")?;
    expect_visits(rt, alloc, sources, "R", "none")
}

#[test]
fn visited_line_that_is_not_utf8(rt: HostRuntime) -> Result<(), SourceFault> {
    let sources = two_sources(rt.alloc(), b"include \"%L\" # \xff\n<a>", "<b>")?;
    expect_visited_bytes(&rt, rt.alloc(), &sources)?;
    Ok(())
}

fn push_fault(text: &mut String, fault: &ReadFault) -> Result<(), AllocError> {
    write!(text, "{fault};")?;
    Ok(())
}

fn push_faults(text: &mut String, faults: &[ReadFault]) -> Result<(), AllocError> {
    for fault in faults {
        push_fault(text, fault)?;
    }
    Ok(())
}

fn faults(
    alloc: Global,
    names: &Names,
    sources: &Sources,
    root: &str,
    most: usize,
) -> Result<Vec<ReadFault>, AllocError> {
    read_faults(alloc, names, sources, root, most)
}

/// Expects the printed text of these faults.
fn expect_faults(
    rt: &impl Abort,
    alloc: Global,
    faults: &[ReadFault],
    prints: &str,
) -> Result<(), AllocError> {
    let mut text = String::new(alloc);
    push_faults(&mut text, faults)?;
    expect_text(rt, prints, &text, prints);
    Ok(())
}

/// Expects the printed text of the first faults when reading from the root.
fn expect_faults_from(
    rt: &impl Abort,
    alloc: Global,
    names: &Names,
    sources: &Sources,
    root: &str,
    most: usize,
    prints: &str,
) -> Result<(), AllocError> {
    let faults = faults(alloc, names, sources, root, most)?;
    expect_faults(rt, alloc, &faults, prints)
}

fn expect_faulty(
    rt: &impl Abort,
    alloc: Global,
    names: &Names,
    row: &FaultsRow,
) -> Result<(), SourceFault> {
    let sources = two_sources(alloc, row.root.as_bytes(), row.included)?;
    expect_faults_from(rt, alloc, names, &sources, "r", row.most, row.prints)?;
    Ok(())
}

fn expect_each_faulty(rt: &impl Abort, alloc: Global, names: &Names) -> Result<(), SourceFault> {
    for row in &FAULTS {
        expect_faulty(rt, alloc, names, row)?;
    }
    Ok(())
}

#[test]
fn faults_of_all_lines(rt: HostRuntime) -> Result<(), SourceFault> {
    let names = core(rt.alloc())?;
    expect_each_faulty(&rt, rt.alloc(), &names)
}

/// Expects the faults of lines, one of which is not UTF-8; and a missing root is itself a fault, if
/// one is asked for.
fn expect_faults_of_bytes(
    rt: &impl Abort,
    alloc: Global,
    names: &Names,
    sources: &Sources,
) -> Result<(), AllocError> {
    let prints = "2 NotUtf8 source=0 line=2;3 Lex source=0 line=3: 1 BadToken at=3;";
    expect_faults_from(rt, alloc, names, sources, "r", 20, prints)?;
    expect_faults_from(rt, alloc, names, sources, "R", 20, "1 MissingRoot;")?;
    expect_faults_from(rt, alloc, names, sources, "R", 0, "")
}

fn expect_faulty_bytes(rt: &impl Abort, alloc: Global, names: &Names) -> Result<(), SourceFault> {
    let sources = two_sources(alloc, b"<a> : \"x\"\n# \xff\n<a>", "")?;
    expect_faults_of_bytes(rt, alloc, names, &sources)?;
    Ok(())
}

#[test]
fn faults_of_bytes_and_of_no_root(rt: HostRuntime) -> Result<(), SourceFault> {
    let names = core(rt.alloc())?;
    expect_faulty_bytes(&rt, rt.alloc(), &names)
}
