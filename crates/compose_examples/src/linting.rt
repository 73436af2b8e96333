//! The findings in the lines of worked tables.
use crate::helpers::{expect_text, two_sources};
use compose_answer::Answer;
use compose_lint::{LintForm, LintInput, LintTable, Readers, lint_tables, lost_count};
use std::alloc::Global;
use std::test::Fail;

/// The lines of the source `r`, those of `%L`, and the findings in them.
struct LintRow {
    root: &'static str,
    included: &'static str,
    lines: &'static str,
}

#[rattlefmt::skip]
static ROWS: [LintRow; 21] = [
    LintRow { root: "", included: "", lines: "" },
    LintRow { root: "<Multi_key> <a> : \"é\" eacute\n", included: "", lines: "" },
    LintRow { root: "<a> <b> : \"x\"\n<a> <c> : \"y\"\n<a> <b> : \"z\"\n", included: "", lines: "r:1:1: overridden: line 3 gives the sequence another text, which counts\n" },
    LintRow { root: "<a> <b> : \"x\"\n<a> <U0062> : \"x\"\n", included: "", lines: "r:1:1: repeated: line 2 gives the sequence the same text again\n" },
    LintRow { root: "include \"%L\"\n<a> <b> : \"x\"\n", included: "<a> <b> : \"y\"\n", lines: "" },
    LintRow { root: "<a> <b> : \"x\"\ninclude \"%L\"\n", included: "<a> <b> <c> : \"y\"\n", lines: "r:1:1: prefix: %L:1 defines a longer sequence that begins with this one, and the longer one is typed\n" },
    LintRow { root: "<a> <b> : \"x\" # EX\n<a> <c> : \"x\" # EX\n<b> <a> : \"y\" # WHY\n<b> <b> : \"y\" # WHY\n<b> <c> : \"y\" # EX\n", included: "", lines: "r:5:1: comment: the comment stands most often beside another text, and the text beside another comment\n" },
    LintRow { root: "<a> <b> : \"x\" # EX\n<b> <a> : \"y\" # WHY\n<b> <b> : \"y\" # WHY\n<b> <c> : \"y\" # EX\n", included: "", lines: "" },
    LintRow { root: "include \"%L\"\n<a> <b> : \"x\"\n<a> <c> : \"x\"\n", included: "<a> <b> : \"x\"\n<a> <c> : \"y\"\n", lines: "r:2:1: redundant: %L:1 is included, and gives the sequence the same text\n" },
    LintRow { root: "<a> <nosuch> : \"x\"\n<a> <b> : \"x\"\n<a> <b> : \"y\"\n", included: "", lines: "r:1:5: fault: no keysym has the name \"nosuch\"\nr:2:1: overridden: line 3 gives the sequence another text, which counts\n" },
    LintRow { root: "<a> <b> : \"é\" egrave\n", included: "", lines: "r:1:1: keysym: the keysym after the string has another character\n" },
    LintRow { root: "<a> <b> : \"х\u{301}\u{301}\"\n", included: "", lines: "r:1:1: mark: the text has one combining mark twice in a row\n" },
    LintRow { root: "<a> <b> : \"e\u{301}\"\n", included: "", lines: "r:1:1: form: the text is not in normal form C\n" },
    LintRow { root: "<a> <b> : \"é\"\n<a> <c> : \"e\u{301}\"\n", included: "", lines: "r:1:1: form: r:2 gives another text that looks like this one, and is not in normal form C\nr:2:1: form: the text is not in normal form C\n" },
    LintRow { root: "include \"%L\"\n<a> <b> : \"Å\"\n", included: "<a> <c> : \"\u{212b}\"\n<a> <d> : \"A\u{30a}\"\n", lines: "r:2:1: form: %L:1 gives another text that looks like this one, and is not in normal form C\n%L:1:1: form: the text is not in normal form C\n%L:2:1: form: the text is not in normal form C\n" },
    LintRow { root: "<a> <b> : \"é\"\n<a> <c> : \"é\"\n<a> <d> : \"e\"\n", included: "", lines: "" },
    LintRow { root: "\u{feff}include \"%L\"\n", included: "\u{feff}# none\n", lines: "r:1:1: libX11: the line is skipped, as it follows a byte order mark\nr:1:1: libxkbcommon: the line is skipped, as it follows a byte order mark\n" },
    LintRow { root: "<a> <b> : \"x\"\r\n<a> <c> : \"\r\" # \r\n", included: "", lines: "r:1:1: libX11: the line is skipped, as it has a carriage return\n" },
    LintRow { root: "include \"%L\"\n", included: "<a> <b> : \"x\"", lines: "%L:1:1: libxkbcommon: the line is skipped, as no newline follows it\n" },
    LintRow { root: "<a> <a> <a> <a> <a> <a> <a> <a> <a> <a> : \"x\"\n", included: "", lines: "r:1:1: libX11: the line is skipped, as its sequence has more keysyms than are read\n" },
    LintRow { root: "<a> <U01EB> : x\n", included: "", lines: "r:1:1: gtk3: the line is skipped, as it has no string\nr:1:1: gtk4: the sequence is never typed, as a keysym of it is above 0xffff\nr:1:1: gtk4: the line is skipped, as it has no string\n" },
];

/// A row whose faulty lines are skipped: the fault of its include stays.
#[rattlefmt::skip]
static LEFT_OUT: LintRow =
    LintRow { root: "<a> <nosuch> : \"x\"\ninclude \"nowhere\"\n", included: "", lines: "r:2:9: fault: the manifest does not list the included file \"nowhere\"\n" };

/// All readers.
const ALL: Readers = Readers {
    libx11: true,
    libxkbcommon: true,
    gtk3: true,
    gtk4: true,
};

/// Returns the answer on a row, with its faulty lines or without them.
fn answered(alloc: Global, row: &LintRow, skip_faulty: bool) -> Result<Option<Answer>, Fail> {
    let sources = two_sources(alloc, row.root.as_bytes(), row.included)?;
    let table = LintTable {
        sources: &sources,
        paths: &["r", "%L"],
        skip_faulty,
    };
    let input = LintInput {
        header: &[],
        tables: &[table],
        readers: ALL,
        is_all: true,
        accepted: &[],
        form: LintForm::Lines,
    };
    Ok(lint_tables(alloc, &input).ok())
}

/// Returns the printed text of an answer that has findings or none.
fn printed(answer: &Option<Answer>) -> &str {
    match answer {
        Some(Answer::Yes(text)) => text,
        Some(Answer::No(text)) => text,
        _ => "refused",
    }
}

#[test]
fn lines_of_worked_tables(rt: HostRuntime) -> Result<(), Fail> {
    for row in &ROWS {
        let answer = answered(rt.alloc(), row, false)?;
        expect_text(&rt, row.root, printed(&answer), row.lines);
    }
    Ok(())
}

#[test]
fn faults_of_includes_stay(rt: HostRuntime) -> Result<(), Fail> {
    let answer = answered(rt.alloc(), &LEFT_OUT, true)?;
    expect_text(&rt, LEFT_OUT.root, printed(&answer), LEFT_OUT.lines);
    Ok(())
}

/// A line that both libraries skip after a byte order mark, one that they skip for two reasons, one
/// whose text they cut, and one that libxkbcommon skips as its newline is missing.
#[test]
fn lost_lines_are_counted_once(rt: HostRuntime) -> Result<(), Fail> {
    let root = "\u{feff}<a> <b> : \"x\"\n< a> <NoSymbol> : \"y\"\n<a> <c> : \"\\0\"\n";
    let sources = two_sources(rt.alloc(), root.as_bytes(), "<a> <d> : \"z\"")?;
    assert_eq!(rt; lost_count(rt.alloc(), &sources)?, 3);
    Ok(())
}
