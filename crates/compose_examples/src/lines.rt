//! Worked lines and texts: how they are read, or the printed fault.
use crate::helpers::{expect_text, push_all, repeated};
use arrayvec::ArrayVec;
use compose_lex::{
    LexFault, Line, LineContent, lex_line, lex_line_into, push_text, quote, unescape,
};
use std::alloc::{AllocError, Global};
use std::fmt::Write;
use std::process::Abort;

/// A line, and its reading: the shortest line with the same meaning, which is empty for a blank
/// line; or the printed fault.
struct LineRow {
    line: &'static str,
    reads: &'static str,
}

#[rattlefmt::skip]
static LINES: [LineRow; 12] = [
    LineRow { line: "<Multi_key> <apostrophe> <e> : \"é\" eacute # e acute", reads: "<Multi_key><apostrophe><e>:\"é\"eacute" },
    LineRow { line: " \t# <a>", reads: "" },
    LineRow { line: "include \"%L\"\r", reads: "include\"%L\"" },
    LineRow { line: "<a> : b # c", reads: "<a>:b" },
    LineRow { line: "Ctrl<a> : \"x\"", reads: "2 ModifierList at=0" },
    LineRow { line: "<a> :", reads: "6 NoResult" },
    LineRow { line: "<a> : \"x", reads: "3 UnclosedString at=6" },
    LineRow { line: "<a> \"x\"", reads: "1 BadToken at=4" },
    LineRow { line: "include<a>", reads: "1 BadToken at=7" },
    LineRow { line: "includes \"x\"", reads: "2 ModifierList at=0" },
    LineRow { line: "<a", reads: "1 BadToken at=2" },
    LineRow { line: "<a> <b> ~<c> : \"x\"", reads: "2 ModifierList at=8" },
];

/// Lines that are read into the same list of events, one after another: no line leaves an event for
/// the next one, and the faulty one leaves none.
#[rattlefmt::skip]
static LINES_INTO: [LineRow; 5] = [
    LineRow { line: "<Multi_key> <apostrophe> <e> : \"é\" eacute # e acute", reads: "<Multi_key><apostrophe><e>:\"é\"eacute" },
    LineRow { line: "<a>:b", reads: "<a>:b" },
    LineRow { line: "include \"%L\"", reads: "include\"%L\"" },
    LineRow { line: "# <a>", reads: "" },
    LineRow { line: "<a> <b> :", reads: "6 NoResult" },
];

/// Lines of each length up to 40 of these pieces, which are repeated in turn. In `line` and
/// `reads`, `*` stands for the pieces, `$` for a possible end of the line, and `+` for the place
/// four bytes after the pieces.
struct GrownRow {
    least: usize,
    pieces: [&'static str; 4],
    line: &'static str,
    reads: &'static str,
}

/// Names of each length; names that end in a byte which begins no token; blanks at each place, and
/// nothing else; strings, and one without its last quote; and escapes after each number of bytes.
#[rattlefmt::skip]
static GROWN: [GrownRow; 15] = [
    GrownRow { least: 1, pieces: ["q", "Z", "7", "_"], line: "<*>:*$", reads: "<*>:*" },
    GrownRow { least: 0, pieces: ["z", "A", "0", "9"], line: "<a>:*/$", reads: "1 BadToken at=+" },
    GrownRow { least: 0, pieces: ["z", "A", "0", "9"], line: "<a>:*:$", reads: "1 BadToken at=+" },
    GrownRow { least: 0, pieces: ["z", "A", "0", "9"], line: "<a>:*@$", reads: "1 BadToken at=+" },
    GrownRow { least: 0, pieces: ["z", "A", "0", "9"], line: "<a>:*[$", reads: "1 BadToken at=+" },
    GrownRow { least: 0, pieces: ["z", "A", "0", "9"], line: "<a>:*`$", reads: "1 BadToken at=+" },
    GrownRow { least: 0, pieces: ["z", "A", "0", "9"], line: "<a>:*{$", reads: "1 BadToken at=+" },
    GrownRow { least: 0, pieces: ["z", "A", "0", "9"], line: "<a>:*é$", reads: "1 BadToken at=+" },
    GrownRow { least: 0, pieces: [" ", "\t", "\t", "\r"], line: "*<*a*>*:*b*$", reads: "<a>:b" },
    GrownRow { least: 0, pieces: [" ", "\t", "\t", "\r"], line: "*$", reads: "" },
    GrownRow { least: 0, pieces: ["x", " ", "#", ">"], line: "<a>:\"*\"$", reads: "<a>:\"*\"" },
    GrownRow { least: 0, pieces: ["x", " ", "#", ">"], line: "<a>:\"*$", reads: "3 UnclosedString at=4" },
    GrownRow { least: 0, pieces: ["x", " ", "é", ">"], line: "<a>:\"*\\\"$\"b$", reads: "<a>:\"*\\\"$\"b" },
    GrownRow { least: 0, pieces: ["x", " ", "é", ">"], line: "<a>:\"*\\\\$\"b$", reads: "<a>:\"*\\\\$\"b" },
    GrownRow { least: 0, pieces: ["x", " ", "é", ">"], line: "<a>:\"*\\\\\\\"$\"b$", reads: "<a>:\"*\\\\\\\"$\"b" },
];

/// Possible ends of a line: nothing, or a comment longer than any one step of the scans.
const ENDS: [&str; 2] = [
    "",
    " # so much that no step of a scan goes past the end of it",
];

/// The raw text of a string, and its text or the printed fault.
struct TextRow {
    raw: &'static str,
    reads: &'static str,
}

#[rattlefmt::skip]
static TEXTS: [TextRow; 14] = [
    TextRow { raw: "\\303\\251", reads: "é" },
    TextRow { raw: "\\xc3\\xa9", reads: "é" },
    TextRow { raw: "é", reads: "é" },
    TextRow { raw: "\\1234", reads: "S4" },
    TextRow { raw: "\\x414", reads: "A4" },
    TextRow { raw: "a\\n", reads: "a\n" },
    TextRow { raw: "\\\\\\\"", reads: "\\\"" },
    TextRow { raw: "\\xff", reads: "10 TextNotUtf8" },
    TextRow { raw: "\\400", reads: "5 BadCode at=0" },
    TextRow { raw: "\\0", reads: "5 BadCode at=0" },
    TextRow { raw: "a\\q", reads: "4 UnknownEscape at=1" },
    TextRow { raw: "a\\", reads: "4 UnknownEscape at=1" },
    TextRow { raw: "\\x", reads: "5 BadCode at=0" },
    TextRow { raw: "", reads: "8 EmptyText" },
];

/// A raw text whose text is appended, whether that succeeds, and the whole text afterwards.
struct PushedRow {
    raw: &'static str,
    pushed: bool,
    whole: &'static str,
}

/// Texts that are appended to the text `a`, one after another; of a refused text nothing is
/// appended.
#[rattlefmt::skip]
static PUSHED: [PushedRow; 6] = [
    PushedRow { raw: "é", pushed: true, whole: "aé" },
    PushedRow { raw: "\\303\\251\\n", pushed: true, whole: "aéé\n" },
    PushedRow { raw: "", pushed: false, whole: "aéé\n" },
    PushedRow { raw: "\\q", pushed: false, whole: "aéé\n" },
    PushedRow { raw: "b\\0", pushed: false, whole: "aéé\n" },
    PushedRow { raw: "\\xff", pushed: false, whole: "aéé\n" },
];

fn read(line: &str) -> Result<Line<'_>, LexFault> {
    lex_line(line)
}

fn read_into<'a>(
    line: &'a str,
    events: &mut ArrayVec<&'a str, 32>,
) -> Result<LineContent<'a>, LexFault> {
    lex_line_into(line, events)
}

fn text_of(alloc: Global, raw: &str) -> Result<String, LexFault> {
    unescape(alloc, raw)
}

fn push_fault(text: &mut String, fault: &LexFault) -> Result<(), AllocError> {
    write!(text, "{fault}")?;
    Ok(())
}

fn push_events(text: &mut String, events: &[&str]) -> Result<(), AllocError> {
    for event in events {
        push_all(text, &["<", event, ">"])?;
    }
    Ok(())
}

/// Appends the end of a production: a colon, the string if it has one, and the result name if it
/// has one.
fn push_result(
    text: &mut String,
    raw_text: Option<&str>,
    result_name: Option<&str>,
) -> Result<(), AllocError> {
    text.push_str(":")?;
    if let Some(raw) = raw_text {
        push_all(text, &["\"", raw, "\""])?;
    }
    text.push_str(result_name.unwrap_or(""))
}

/// Appends the shortest line with the same meaning, or the printed fault.
fn push_line(text: &mut String, content: &Result<Line, LexFault>) -> Result<(), AllocError> {
    match content {
        Ok(Line::Blank) => Ok(()),
        Ok(Line::Include(raw)) => push_all(text, &["include\"", raw, "\""]),
        Ok(
            Line::Production {
                events,
                raw_text,
                result_name,
            },
        ) => {
            push_events(text, events)?;
            push_result(text, *raw_text, *result_name)
        }
        Err(fault) => push_fault(text, fault),
    }
}

/// Appends the parts of a line except the names of its events, or the printed fault.
fn push_line_parts(
    text: &mut String,
    content: &Result<LineContent, LexFault>,
) -> Result<(), AllocError> {
    match content {
        Ok(LineContent::Blank) => Ok(()),
        Ok(LineContent::Include(raw)) => push_all(text, &["include\"", raw, "\""]),
        Ok(
            LineContent::Production {
                raw_text,
                result_name,
            },
        ) => push_result(text, *raw_text, *result_name),
        Err(fault) => push_fault(text, fault),
    }
}

/// Expects the reading of a line.
fn expect_line(rt: &impl Abort, alloc: Global, line: &str, reads: &str) -> Result<(), AllocError> {
    let mut text = String::new(alloc);
    push_line(&mut text, &read(line))?;
    expect_text(rt, line, &text, reads);
    Ok(())
}

#[test]
fn reads_lines(rt: HostRuntime) -> Result<(), AllocError> {
    let alloc = rt.alloc();
    for row in &LINES {
        expect_line(&rt, alloc, row.line, row.reads)?;
    }
    Ok(())
}

/// Expects the reading of a line with this number of events, which is itself the shortest line with
/// the same meaning.
fn expect_events(
    rt: &impl Abort,
    alloc: Global,
    count: usize,
    fault: Option<&str>,
) -> Result<(), AllocError> {
    let mut line = repeated(alloc, "<a>", count)?;
    line.push_str(":b")?;
    expect_line(rt, alloc, &line, fault.unwrap_or(&line))
}

/// A line has 32 events at most.
#[test]
fn reads_as_many_events_as_may_be(rt: HostRuntime) -> Result<(), AllocError> {
    expect_events(&rt, rt.alloc(), 32, None)?;
    expect_events(&rt, rt.alloc(), 33, Some("7 TooManyKeysyms"))
}

/// Expects the reading of a line into a list, with the events that the list has then before it.
fn expect_line_into(
    rt: &impl Abort,
    alloc: Global,
    row: &LineRow,
    events: &mut ArrayVec<&'static str, 32>,
) -> Result<(), AllocError> {
    let content = read_into(row.line, events);
    let mut text = String::new(alloc);
    push_events(&mut text, events)?;
    push_line_parts(&mut text, &content)?;
    expect_text(rt, row.line, &text, row.reads);
    Ok(())
}

#[test]
fn reads_lines_into_one_list(rt: HostRuntime) -> Result<(), AllocError> {
    let alloc = rt.alloc();
    let mut events = ArrayVec::new();
    for row in &LINES_INTO {
        expect_line_into(&rt, alloc, row, &mut events)?;
    }
    Ok(())
}

/// Returns a line with this number of pieces, written out.
fn written(alloc: Global, form: &str, pieces: &str, end: &str) -> Result<String, AllocError> {
    let mut line = String::new(alloc);
    for mark in form.chars() {
        match mark {
            '*' => line.push_str(pieces)?,
            '$' => line.push_str(end)?,
            '+' => push_place(&mut line, pieces.len().wrapping_add(4))?,
            _ => line.push(mark)?,
        }
    }
    Ok(line)
}

fn push_place(line: &mut String, place: usize) -> Result<(), AllocError> {
    write!(line, "{place}")?;
    Ok(())
}

/// Expects the reading of the line of a row with these pieces, with each end.
fn expect_grown(
    rt: &impl Abort,
    alloc: Global,
    row: &GrownRow,
    pieces: &str,
) -> Result<(), AllocError> {
    for end in ENDS {
        let line = written(alloc, row.line, pieces, end)?;
        let reads = written(alloc, row.reads, pieces, end)?;
        expect_line(rt, alloc, &line, &reads)?;
    }
    Ok(())
}

/// Expects the readings of the lines of a row, of each length.
fn expect_each_length(rt: &impl Abort, alloc: Global, row: &GrownRow) -> Result<(), AllocError> {
    let mut pieces = String::new(alloc);
    for len in 0..=40usize {
        if row.least <= len {
            expect_grown(rt, alloc, row, &pieces)?;
        }
        pieces.push_str(row.pieces[len % 4])?;
    }
    Ok(())
}

#[test]
fn reads_lines_of_each_length(rt: HostRuntime) -> Result<(), AllocError> {
    let alloc = rt.alloc();
    for row in &GROWN {
        expect_each_length(&rt, alloc, row)?;
    }
    Ok(())
}

/// Expects the text of a string, or the printed fault.
fn expect_unescaped(
    rt: &impl Abort,
    alloc: Global,
    raw: &str,
    reads: &str,
) -> Result<(), AllocError> {
    match text_of(alloc, raw) {
        Ok(text) => expect_text(rt, raw, &text, reads),
        Err(fault) => expect_fault(rt, alloc, raw, &fault, reads)?,
    }
    Ok(())
}

/// Expects the printed form of a fault.
fn expect_fault(
    rt: &impl Abort,
    alloc: Global,
    row: &str,
    fault: &LexFault,
    prints: &str,
) -> Result<(), AllocError> {
    let mut text = String::new(alloc);
    push_fault(&mut text, fault)?;
    expect_text(rt, row, &text, prints);
    Ok(())
}

#[test]
fn reads_texts(rt: HostRuntime) -> Result<(), AllocError> {
    let alloc = rt.alloc();
    for row in &TEXTS {
        expect_unescaped(&rt, alloc, row.raw, row.reads)?;
    }
    Ok(())
}

/// Expects the reading of a text with this number of letters.
fn expect_letters(
    rt: &impl Abort,
    alloc: Global,
    count: usize,
    fault: Option<&str>,
) -> Result<(), AllocError> {
    let raw = repeated(alloc, "a", count)?;
    expect_unescaped(rt, alloc, &raw, fault.unwrap_or(&raw))
}

/// A text has 255 bytes at most.
#[test]
fn reads_texts_as_long_as_may_be(rt: HostRuntime) -> Result<(), AllocError> {
    expect_letters(&rt, rt.alloc(), 255, None)?;
    expect_letters(&rt, rt.alloc(), 256, Some("9 TextTooLong"))
}

#[test]
fn want_of_memory_is_printed(rt: HostRuntime) -> Result<(), AllocError> {
    let fault = LexFault::NoMemory;
    expect_fault(&rt, rt.alloc(), "no memory", &fault, "11 NoMemory")
}

fn quoted(alloc: Global, text: &str) -> Result<String, LexFault> {
    quote(alloc, text)
}

#[test]
fn quotes_texts(rt: HostRuntime) -> Result<(), LexFault> {
    let text = "a\"b\\\n\u{7f}é";
    expect_text(
        &rt,
        text,
        &quoted(rt.alloc(), text)?,
        "\"a\\\"b\\\\\\012\\177é\"",
    );
    Ok(())
}

fn is_pushed(text: &mut String, raw: &str) -> bool {
    push_text(text, raw).is_ok()
}

/// Expects whether a text is appended, and the whole text afterwards.
fn expect_pushed(rt: &impl Abort, text: &mut String, row: &PushedRow) {
    assert!(rt; is_pushed(text, row.raw) == row.pushed, "{}", row.raw);
    expect_text(rt, row.raw, text, row.whole);
}

#[test]
fn pushes_texts(rt: HostRuntime) -> Result<(), AllocError> {
    let mut text = String::from_str(rt.alloc(), "a")?;
    for row in &PUSHED {
        expect_pushed(&rt, &mut text, row);
    }
    Ok(())
}
