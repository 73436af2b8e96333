//! Findings as JSON.
ghost use Rattle.std.specs.Prelude.{◌≡◌, ◌++◌, map, IfOk, OnOk, string_bytes};
ghost use Rattle.compose_lint.specs.Json as words;

use crate::finding::{FindingKind, LinePlace};
use crate::reader::Reader;
use crate::report::{column_of, kind_word, path_of, push_sentence, reader_word};
use crate::row::Row;
use compose_diff::push_json_string;
use std::alloc::{AllocError, Global};
use std::fmt::Write;

/// Returns a line with a JSON object for each of the findings that are left, and one more with
/// their counts. The members of a finding are `file`, `line`, `column`, `kind`, `message`, `other`
/// (the `file` and the `line` of the other line that the message names, or `null`) and `reader` (or
/// `null`). In the last object, `counts` has the number of findings of each kind, and `accepted`
/// the number of accepted ones. O(bytes).
pub(crate) fn json_answer(
    alloc: Global,
    rows: &[Row<'_>],
    left: &[Row<'_>],
) -> Result<String, AllocError>
    ensures { IfOk result (λ text. string_bytes text ≡ words.json_answer rows.now left.now) }
{
    let mut text = String::new(alloc);
    push_rows(alloc, &mut text, left)?;
    push_counts(&mut text, left, rows.len().saturating_sub(left.len()))?;
    Ok(text)
}

/// Adds the objects of findings.
fn push_rows(alloc: Global, text: &mut String, rows: &[Row<'_>]) -> Result<(), AllocError>
    ensures { OnOk result
        (string_bytes text.new ≡ string_bytes text.old ++ words.json_rows rows.now) }
{
    for row in rows {
        push_row(alloc, text, row)?;
    }
    Ok(())
}

/// Adds the object of a finding, and a newline.
fn push_row(alloc: Global, text: &mut String, row: &Row<'_>) -> Result<(), AllocError>
    ensures { OnOk result
        (string_bytes text.new ≡ string_bytes text.old ++ words.json_row row.now) }
{
    push_head(text, row)?;
    push_kind(alloc, text, row)?;
    push_other(text, row.paths, other_of(row))?;
    push_reader(text, reader_of(row.finding.kind))?;
    text.push_str("}\n")
}

/// Adds the place of the finding.
fn push_head(text: &mut String, row: &Row<'_>) -> Result<(), AllocError>
    ensures { OnOk result
        (string_bytes text.new ≡ string_bytes text.old ++ words.json_head row.now) }
{
    let (source, line) = (row.finding.source, row.finding.line);
    text.push_str("{")?;
    push_place(text, row.paths, LinePlace { source, line })?;
    let column = column_of(row);
    write!(text, ",\"column\":{column}")?;
    Ok(())
}

/// Adds the file and the number of a line.
fn push_place(text: &mut String, paths: &[&str], place: LinePlace) -> Result<(), AllocError>
    ensures { OnOk result
        (string_bytes text.new
        ≡ string_bytes text.old ++ words.json_place (map (λ path. path.now) paths.now) place) }
{
    let line = place.line;
    text.push_str("\"file\":")?;
    push_json_string(text, path_of(paths, place.source))?;
    write!(text, ",\"line\":{line}")?;
    Ok(())
}

/// Adds the kind and the message.
fn push_kind(alloc: Global, text: &mut String, row: &Row<'_>) -> Result<(), AllocError>
    ensures { OnOk result
        (string_bytes text.new ≡ string_bytes text.old ++ words.json_kind row.now) }
{
    let mut sentence = String::new(alloc);
    push_sentence(&mut sentence, row)?;
    text.push_str(",\"kind\":\"")?;
    text.push_str(kind_word(row.finding.kind))?;
    text.push_str("\",\"message\":")?;
    push_json_string(text, &sentence)
}

/// Returns the place of the other line that the finding names, if there is one.
fn other_of(row: &Row<'_>) -> Option<LinePlace>
    ensures { result ≡ words.other_of row.now }
{
    let source = row.finding.source;
    match row.finding.kind {
        FindingKind::Overridden { line } | FindingKind::Repeated { line } => Some(LinePlace {
            source,
            line,
        }),
        FindingKind::Prefix(place) | FindingKind::Alike(place) | FindingKind::Redundant(place) =>
            Some(place),
        _ => None,
    }
}

/// Adds the place of the other line, or `null`.
fn push_other(text: &mut String, paths: &[&str], other: Option<LinePlace>) -> Result<(), AllocError>
    ensures { OnOk result
        (string_bytes text.new
        ≡ string_bytes text.old ++ words.json_other (map (λ path. path.now) paths.now) other) }
{
    let Some(place) = other else {
        return text.push_str(",\"other\":null");
    };
    text.push_str(",\"other\":{")?;
    push_place(text, paths, place)?;
    text.push_str("}")
}

/// Returns the reader that a kind names, if there is one.
fn reader_of(kind: FindingKind) -> Option<Reader>
    ensures { result ≡ words.reader_of kind }
{
    match kind {
        FindingKind::Reader(reader, _) => Some(reader),
        _ => None,
    }
}

/// Adds the reader, or `null`.
fn push_reader(text: &mut String, reader: Option<Reader>) -> Result<(), AllocError>
    ensures { OnOk result
        (string_bytes text.new ≡ string_bytes text.old ++ words.json_reader reader) }
{
    let Some(reader) = reader else {
        return text.push_str(",\"reader\":null");
    };
    text.push_str(",\"reader\":\"")?;
    text.push_str(reader_word(reader))?;
    text.push_str("\"")
}

/// Adds the object with the counts, and a newline.
fn push_counts(text: &mut String, rows: &[Row<'_>], accepted: usize) -> Result<(), AllocError>
    ensures { OnOk result
        (string_bytes text.new
        ≡ string_bytes text.old ++ words.json_counts rows.now accepted) }
{
    text.push_str("{\"counts\":{")?;
    push_file_counts(text, rows)?;
    push_text_counts(text, rows)?;
    push_reader_counts(text, rows)?;
    write!(text, "\"accepted\":{accepted}}}}}\n")?;
    Ok(())
}

/// Adds the counts of the kinds about the lines of a file.
fn push_file_counts(text: &mut String, rows: &[Row<'_>]) -> Result<(), AllocError>
    ensures { OnOk result
        (string_bytes text.new ≡ string_bytes text.old ++ words.json_file_counts rows.now) }
{
    push_count(text, rows, "fault")?;
    push_line_counts(text, rows)
}

/// Adds the counts of the kinds about lines without a fault.
fn push_line_counts(text: &mut String, rows: &[Row<'_>]) -> Result<(), AllocError>
    ensures { OnOk result
        (string_bytes text.new ≡ string_bytes text.old ++ words.json_line_counts rows.now) }
{
    push_count(text, rows, "overridden")?;
    push_count(text, rows, "repeated")?;
    push_count(text, rows, "prefix")?;
    push_count(text, rows, "keysym")
}

/// Adds the counts of the kinds about texts and comments.
fn push_text_counts(text: &mut String, rows: &[Row<'_>]) -> Result<(), AllocError>
    ensures { OnOk result
        (string_bytes text.new ≡ string_bytes text.old ++ words.json_text_counts rows.now) }
{
    push_count(text, rows, "mark")?;
    push_count(text, rows, "form")?;
    push_count(text, rows, "comment")?;
    push_count(text, rows, "redundant")
}

/// Adds the counts of the kinds about other readers.
fn push_reader_counts(text: &mut String, rows: &[Row<'_>]) -> Result<(), AllocError>
    ensures { OnOk result
        (string_bytes text.new ≡ string_bytes text.old ++ words.json_reader_counts rows.now) }
{
    push_count(text, rows, "libX11")?;
    push_count(text, rows, "libxkbcommon")?;
    push_count(text, rows, "gtk3")?;
    push_count(text, rows, "gtk4")
}

/// Adds the number of findings of the kind with this word.
fn push_count(text: &mut String, rows: &[Row<'_>], word: &str) -> Result<(), AllocError>
    ensures { OnOk result
        (string_bytes text.new
        ≡ string_bytes text.old ++ words.json_count rows.now word.now) }
{
    let count = count_of(rows, word);
    write!(text, "\"{word}\":{count},")?;
    Ok(())
}

/// Counts the findings of the kind with this word.
fn count_of(rows: &[Row<'_>], word: &str) -> usize
    ensures { result ≡ words.count_of word.now rows.now }
{
    rows.iter()
        .filter(|row| kind_word(row.finding.kind) == word)
        .count()
}
