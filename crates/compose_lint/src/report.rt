//! Findings as printed text.
ghost use Rattle.std.specs.Prelude.{◌≡◌, ◌++◌, map, IfOk, OnOk, string_bytes};
ghost use Rattle.compose_lint.specs.Report as words;

use crate::finding::{FindingKind, LinePlace};
use crate::reader::{Class, Reader};
use crate::row::Row;
use compose_messages::{fault_position, read_message};
use compose_shown::Shown;
use std::alloc::{AllocError, Global};
use std::fmt::Write;

/// Returns the word of a reader.
pub(crate) fn reader_word(reader: Reader) -> &'static str
    ensures { result.now ≡ words.reader_word reader }
{
    match reader {
        Reader::LibX11 => "libX11",
        Reader::Libxkbcommon => "libxkbcommon",
        Reader::Gtk3 => "gtk3",
        Reader::Gtk4 => "gtk4",
    }
}

/// Returns the sentence about a class: what a reader does with its lines.
fn class_sentence(class: Class) -> &'static str
    ensures { result.now ≡ words.class_message class }
{
    match class {
        Class::ByteOrderMark => "the line is skipped, as it follows a byte order mark",
        Class::NoNewline => "the line is skipped, as no newline follows it",
        Class::Joined => "the line is skipped, as the line before it ends in a backslash",
        Class::CarriageReturn => "the line is skipped, as it has a carriage return",
        Class::SpacedName => "the line is skipped, as a blank stands beside the name of a key",
        Class::ManyKeysyms => {
            "the line is skipped, as its sequence has more keysyms than are read"
        }
        Class::NoSymbol => "the line is skipped, as its sequence has the keysym 0",
        Class::LongestText => "the line is skipped, as its text has 255 bytes",
        Class::Nul => "the text is cut, as it has a byte 0",
        Class::WideKeysym => "the sequence is never typed, as a keysym of it is above 0xffff",
        Class::DigitName => "the line is skipped, as the name of its result begins with a digit",
        Class::NoString => "the line is skipped, as it has no string",
        Class::LetterEscape => "of the escapes \\n, \\r and \\t the letter is typed",
    }
}

/// Returns the word of a kind.
pub(crate) fn kind_word(kind: FindingKind) -> &'static str
    ensures { result.now ≡ words.kind_word kind }
{
    match kind {
        FindingKind::Fault { .. } => "fault",
        FindingKind::Overridden { .. } => "overridden",
        FindingKind::Repeated { .. } => "repeated",
        FindingKind::Prefix(_) => "prefix",
        FindingKind::Keysym => "keysym",
        FindingKind::Mark => "mark",
        FindingKind::Form | FindingKind::Alike(_) => "form",
        FindingKind::Comment => "comment",
        FindingKind::Redundant(_) => "redundant",
        FindingKind::Reader(reader, _) => reader_word(reader),
    }
}

/// Returns the path of the source with this index; an empty text if there is none.
pub(crate) fn path_of<'a>(paths: &[&'a str], source: usize) -> &'a str
    ensures { result.now ≡ words.path_of (map (λ path. path.now) paths.now) source }
{
    match paths.get(source) {
        Some(path) => path,
        None => "",
    }
}

/// Adds the sentence of a finding. O(bytes of the line).
pub(crate) fn push_sentence(text: &mut String, row: &Row<'_>) -> Result<(), AllocError>
    ensures { OnOk result
        (string_bytes text.new ≡ string_bytes text.old ++ words.sentence_of row.now) }
{
    match row.finding.kind {
        FindingKind::Fault { index } => push_fault_sentence(text, row, index),
        FindingKind::Overridden { line } => {
            push_line_sentence(text, line, " gives the sequence another text, which counts")
        }
        FindingKind::Repeated { line } => {
            push_line_sentence(text, line, " gives the sequence the same text again")
        }
        FindingKind::Prefix(place) => push_place_sentence(
            text,
            row.paths,
            place,
            " defines a longer sequence that begins with this one, and the longer one is typed",
        ),
        FindingKind::Alike(place) => push_place_sentence(
            text,
            row.paths,
            place,
            " gives another text that looks like this one, and is not in normal form C",
        ),
        FindingKind::Redundant(place) => push_place_sentence(
            text,
            row.paths,
            place,
            " is included, and gives the sequence the same text",
        ),
        kind => text.push_str(own_sentence(kind)),
    }
}

/// Returns the sentence of a kind that names no other line.
fn own_sentence(kind: FindingKind) -> &'static str
    ensures { result.now ≡ words.own_sentence kind }
{
    match kind {
        FindingKind::Keysym => "the keysym after the string has another character",
        FindingKind::Mark => "the text has one combining mark twice in a row",
        FindingKind::Form => "the text is not in normal form C",
        FindingKind::Comment => {
            "the comment stands most often beside another text, and the text beside another comment"
        }
        FindingKind::Reader(_, class) => class_sentence(class),
        _ => "",
    }
}

/// Adds the message of the fault with this index.
fn push_fault_sentence(text: &mut String, row: &Row<'_>, index: usize) -> Result<(), AllocError>
    ensures { OnOk result
        (string_bytes text.new
        ≡ string_bytes text.old ++ words.fault_sentence row.now index) }
{
    let Some(fault) = row.faults.get(index) else {
        return Ok(());
    };
    let message = read_message(row.sources, fault);
    write!(text, "{message}")?;
    Ok(())
}

/// Adds a sentence that names the line with this number.
fn push_line_sentence(text: &mut String, line: usize, sentence: &str) -> Result<(), AllocError>
    ensures { OnOk result
        (string_bytes text.new
        ≡ string_bytes text.old ++ words.line_sentence line sentence.now) }
{
    write!(text, "line {line}{sentence}")?;
    Ok(())
}

/// Adds a sentence that names the line at this place.
fn push_place_sentence(
    text: &mut String,
    paths: &[&str],
    place: LinePlace,
    sentence: &str,
) -> Result<(), AllocError>
    ensures { OnOk result
        (string_bytes text.new
        ≡ string_bytes text.old
        ++ words.place_sentence (map (λ path. path.now) paths.now) place sentence.now) }
{
    let (path, line) = (Shown(path_of(paths, place.source)), place.line);
    write!(text, "{path}:{line}{sentence}")?;
    Ok(())
}

/// Returns the column of a finding, from 1: that of the fault, or 1 if it is not a fault. O(bytes
/// of the source).
pub(crate) fn column_of(row: &Row<'_>) -> usize
    ensures { result ≡ words.column_of row.now }
{
    match row.finding.kind {
        FindingKind::Fault { index } => fault_column(row, index),
        _ => 1,
    }
}

/// Returns the column of the fault with this index, from 1.
fn fault_column(row: &Row<'_>, index: usize) -> usize
    ensures { result ≡ words.fault_column row.now index }
{
    let Some(fault) = row.faults.get(index) else {
        return 1;
    };
    match fault_position(row.sources, fault) {
        Some((_, position)) => position.column,
        None => 1,
    }
}

/// Returns the findings as text, a line for each. O(findings + faults × bytes of a source).
pub(crate) fn rows_text(alloc: Global, rows: &[Row<'_>]) -> Result<String, AllocError>
    ensures { IfOk result (λ text. string_bytes text ≡ words.rows_text rows.now) }
{
    let mut text = String::new(alloc);
    for row in rows {
        push_line(&mut text, row)?;
    }
    Ok(text)
}

/// Adds the line of a finding.
fn push_line(text: &mut String, row: &Row<'_>) -> Result<(), AllocError>
    ensures { OnOk result
        (string_bytes text.new ≡ string_bytes text.old ++ words.row_line row.now) }
{
    push_head(text, row)?;
    push_sentence(text, row)?;
    text.push_str("\n")
}

/// Adds the place of a finding, and the word of its kind.
fn push_head(text: &mut String, row: &Row<'_>) -> Result<(), AllocError>
    ensures { OnOk result
        (string_bytes text.new ≡ string_bytes text.old ++ words.row_head row.now) }
{
    let (path, line) = (
        Shown(path_of(row.paths, row.finding.source)),
        row.finding.line,
    );
    let (column, word) = (column_of(row), kind_word(row.finding.kind));
    write!(text, "{path}:{line}:{column}: {word}: ")?;
    Ok(())
}
