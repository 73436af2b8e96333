//! The whole page.
ghost use Rattle.std.specs.Prelude.{◌≡◌, ◌++◌, IfOk, OnOk, string_bytes};
ghost use Rattle.compose_page.specs.Page as words;

use crate::cells::push_row;
use crate::markup::Markup;
use crate::section::{Section, caption, is_folded, rows_in, title};
use compose_diff::{Counts, DiffRow, Overlaps, Printed, push_overlaps};
use std::alloc::{AllocError, Global};
use std::fmt::Write;

/// The beginning of an HTML page.
const HTML_BEGIN: &str =
    "<!DOCTYPE html>\n<html lang=\"en\">\n<head>\n<meta charset=\"utf-8\">\n<meta name=\"viewport\" content=\"width=device-width\">\n<title>Changes of a Compose table</title>\n<style>\n:root { color-scheme: light dark }\nbody { font-family: sans-serif; line-height: 1.5; margin: 1em auto; max-width: 80em; padding: 0 1em }\ntable { border-collapse: collapse; margin: 1em 0 }\ncaption { text-align: left; padding: .3em 0 }\nth, td { border: 1px solid #888; padding: .2em .6em; text-align: left }\nb { font-size: 2em; font-weight: normal; line-height: 1.2 }\nkbd { border: 1px solid; border-radius: .3em; padding: 0 .3em; white-space: nowrap }\ndel { color: #b00000; text-decoration: line-through }\nins { color: #006000; text-decoration: underline }\nsummary { font-size: 1.5em; font-weight: bold }\npre { white-space: pre-wrap }\n@media (prefers-color-scheme: dark) { del { color: #ff9090 } ins { color: #90e090 } }\n</style>\n</head>\n<body>\n<h1>Changes of a Compose table</h1>\n";

/// Returns the page for `left`, the rows that remain of `rows`. It has a heading and a table for
/// each part ([`Section`]), or only for the part of the lost texts. Some parts are folded in
/// `<details>`, unless nothing is to be folded. Then come the [`Overlaps`] and the [`Counts`] of
/// all rows that remain, as `diff` prints them. O(bytes + rows × log rows).
///
/// Errors: `AllocError` if memory runs out.
pub fn page_text(
    alloc: Global,
    rows: &[DiffRow],
    left: &[DiffRow],
    markup: Markup,
    printed: Printed,
    overlaps: Overlaps,
) -> Result<String, AllocError>
    ensures { IfOk result
        (λ text. string_bytes text ≡ words.page_text markup printed overlaps rows.now left.now) }
{
    let counts = Counts::of(alloc, left, rows.len().saturating_sub(left.len()))?;
    counted_page(alloc, left, markup, printed, overlaps, &counts)
}

/// Returns the page for the rows that remain, with these counts.
fn counted_page(
    alloc: Global,
    left: &[DiffRow],
    markup: Markup,
    printed: Printed,
    overlaps: Overlaps,
    counts: &Counts,
) -> Result<String, AllocError>
    ensures { IfOk result
        (λ text. string_bytes text
        ≡ words.counted_page markup printed overlaps left.now counts.now) }
{
    let mut text = String::new(alloc);
    text.push_str(page_begin(markup))?;
    push_sections(alloc, &mut text, markup, printed, left)?;
    push_end(&mut text, markup, counts, overlaps)?;
    Ok(text)
}

/// Returns the text before the parts.
fn page_begin(markup: Markup) -> &'static str
    ensures { result.now ≡ words.page_begin markup }
{
    match markup {
        Markup::Markdown => "",
        Markup::Html => HTML_BEGIN,
    }
}

/// Appends the parts to the text.
fn push_sections(
    alloc: Global,
    text: &mut String,
    markup: Markup,
    printed: Printed,
    left: &[DiffRow],
) -> Result<(), AllocError>
    ensures { OnOk result
        (string_bytes text.new
        ≡ string_bytes text.old ++ words.sections_text markup printed left.now) }
{
    push_section(alloc, text, markup, printed.folds, Section::Lost, left)?;
    if printed.lost_alone {
        return Ok(());
    }
    push_section(alloc, text, markup, printed.folds, Section::Otherwise, left)?;
    push_section(alloc, text, markup, printed.folds, Section::Starts, left)?;
    push_section(alloc, text, markup, printed.folds, Section::Additions, left)
}

/// Appends a part to the text.
fn push_section(
    alloc: Global,
    text: &mut String,
    markup: Markup,
    folds: bool,
    section: Section,
    left: &[DiffRow],
) -> Result<(), AllocError>
    ensures { OnOk result
        (string_bytes text.new
        ≡ string_bytes text.old ++ words.section_text markup folds section left.now) }
{
    let rows = rows_in(alloc, section, left)?;
    let folded = folds && is_folded(section) && !rows.is_empty();
    push_heading(text, markup, folded, section, rows.len())?;
    push_table(text, markup, section, &rows)?;
    text.push_str(section_end(folded))
}

/// Appends the heading of a part with its number of rows to the text.
fn push_heading(
    text: &mut String,
    markup: Markup,
    folded: bool,
    section: Section,
    count: usize,
) -> Result<(), AllocError>
    ensures { OnOk result
        (string_bytes text.new
        ≡ string_bytes text.old ++ words.heading markup folded section count) }
{
    text.push_str(heading_begin(markup, folded))?;
    text.push_str(title(section))?;
    let sequences = sequences_word(count);
    write!(text, " ({count}{sequences})")?;
    text.push_str(heading_end(markup, folded))
}

/// Returns the word after a number of sequences, with a blank before it.
fn sequences_word(count: usize) -> &'static str
    ensures { result.now ≡ words.sequences_word count }
{
    match count {
        1 => " sequence",
        _ => " sequences",
    }
}

/// Returns the text before the words of a heading.
fn heading_begin(markup: Markup, folded: bool) -> &'static str
    ensures { result.now ≡ words.heading_begin markup folded }
{
    match (markup, folded) {
        (_, true) => "<details>\n<summary>",
        (Markup::Markdown, false) => "## ",
        (Markup::Html, false) => "<h2>",
    }
}

/// Returns the text after the words of a heading.
fn heading_end(markup: Markup, folded: bool) -> &'static str
    ensures { result.now ≡ words.heading_end markup folded }
{
    match (markup, folded) {
        (_, true) => "</summary>\n\n",
        (Markup::Markdown, false) => "\n\n",
        (Markup::Html, false) => "</h2>\n",
    }
}

/// Returns the text after the table of a part.
fn section_end(folded: bool) -> &'static str
    ensures { result.now ≡ words.section_end folded }
{
    if folded {
        return "</details>\n\n";
    }
    ""
}

/// Appends the table of the rows of a part, if there are any, to the text.
fn push_table(
    text: &mut String,
    markup: Markup,
    section: Section,
    rows: &[DiffRow],
) -> Result<(), AllocError>
    ensures { OnOk result
        (string_bytes text.new
        ≡ string_bytes text.old ++ words.table_text markup section rows.now) }
{
    if rows.is_empty() {
        return Ok(());
    }
    push_caption(text, markup, section)?;
    text.push_str(table_head(markup, section))?;
    push_rows(text, markup, rows)?;
    text.push_str(table_end(markup))
}

/// Appends the caption of a table to the text.
fn push_caption(text: &mut String, markup: Markup, section: Section) -> Result<(), AllocError>
    ensures { OnOk result
        (string_bytes text.new ≡ string_bytes text.old ++ words.caption_text markup section) }
{
    let caption = caption(section);
    match markup {
        Markup::Markdown => write!(text, "{caption}\n\n"),
        Markup::Html => write!(text, "<table>\n<caption>{caption}</caption>\n"),
    }
}

/// Returns the headings of the columns.
fn table_head(markup: Markup, section: Section) -> &'static str
    ensures { result.now ≡ words.table_head markup section }
{
    match (markup, section) {
        (Markup::Markdown, Section::Lost) => {
            "| Text | Characters | Keys | What happens | Places |\n|---|---|---|---|---|\n"
        }
        (Markup::Markdown, Section::Otherwise) => {
            "| Text | Characters | Old keys | New keys | What happens | Places |\n|---|---|---|---|---|---|\n"
        }
        (Markup::Markdown, _) => "| Text | Characters | Keys | Places |\n|---|---|---|---|\n",
        (Markup::Html, Section::Lost) => {
            "<thead><tr><th scope=\"col\">Text</th><th scope=\"col\">Characters</th><th scope=\"col\">Keys</th><th scope=\"col\">What happens</th><th scope=\"col\">Places</th></tr></thead>\n<tbody>\n"
        }
        (Markup::Html, Section::Otherwise) => {
            "<thead><tr><th scope=\"col\">Text</th><th scope=\"col\">Characters</th><th scope=\"col\">Old keys</th><th scope=\"col\">New keys</th><th scope=\"col\">What happens</th><th scope=\"col\">Places</th></tr></thead>\n<tbody>\n"
        }
        (Markup::Html, _) => {
            "<thead><tr><th scope=\"col\">Text</th><th scope=\"col\">Characters</th><th scope=\"col\">Keys</th><th scope=\"col\">Places</th></tr></thead>\n<tbody>\n"
        }
    }
}

/// Returns the text after the rows of a table.
fn table_end(markup: Markup) -> &'static str
    ensures { result.now ≡ words.table_end markup }
{
    match markup {
        Markup::Markdown => "\n",
        Markup::Html => "</tbody>\n</table>\n",
    }
}

/// Appends the rows to the text.
fn push_rows(text: &mut String, markup: Markup, rows: &[DiffRow]) -> Result<(), AllocError>
    ensures { OnOk result
        (string_bytes text.new ≡ string_bytes text.old ++ words.rows_text markup rows.now) }
{
    for row in rows {
        push_row(text, markup, row)?;
    }
    Ok(())
}

/// Appends the overlaps, the counts and the end of the page to the text.
fn push_end(
    text: &mut String,
    markup: Markup,
    counts: &Counts,
    overlaps: Overlaps,
) -> Result<(), AllocError>
    ensures { OnOk result
        (string_bytes text.new
        ≡ string_bytes text.old ++ words.end_text markup counts.now overlaps) }
{
    text.push_str("<pre>\n")?;
    push_overlaps(text, overlaps)?;
    write!(text, "{counts}")?;
    text.push_str(page_end(markup))
}

/// Returns the text after the counts.
fn page_end(markup: Markup) -> &'static str
    ensures { result.now ≡ words.page_end markup }
{
    match markup {
        Markup::Markdown => "</pre>\n",
        Markup::Html => "</pre>\n</body>\n</html>\n",
    }
}
