//! Accepted findings, which are left out of the answer.
ghost use Rattle.std.specs.Prelude.{◌≡◌, ◌++◌, ◌==◌, ℕ, List, length, map, filter, is_some, not, IfOk, OnOk, bytes_eq, string_bytes};
ghost use Rattle.std.specs.List.{find, list_any};
ghost use Rattle.std.specs.Option.{option_map};
ghost use Rattle.indexmap.specs.IndexMap.{get_by};
ghost use Rattle.compose_diff.specs.Accepted.{Returns, begins_with};
ghost use Rattle.compose_lint.specs.Accepted as words;
ghost use Rattle.compose_lint.specs.Accepted.{accepted_of, left_of};

use crate::listed::listed_text;
use crate::row::Row;
use compose_diff::{AcceptFault, ListLine, list_lines};
use indexmap::IndexMap;
use std::alloc::{AllocError, Global};
use std::marker::Model;

/// The lines of a list of accepted findings, each a kind and a line of a Compose file.
#[derive(Drop)]
struct Accepted<'a> {
    lines: Vec<ListLine<'a>>,
}

impl<'a> Model for Accepted<'a> {
    ghost use Rattle.std.specs.Prelude.{List};
    ghost use Rattle.compose_diff.specs.Accepted as words;

    ghost Value = { List words.Line };

    ghost view = { λ accepted. accepted.lines.items };
}

impl<'a> Accepted<'a> {
    /// Reads the lines of a list, except empty lines and lines that begin with `#`. O(bytes).
    /// Errors: `BadLine` with the first line that doesn't begin with the word of a kind, a colon
    /// and a blank; `NoMemory` if memory runs out.
    fn read(alloc: Global, bytes: &'a [u8]) -> Result<Accepted<'a>, AcceptFault>
        ensures { Returns result (accepted_of bytes.now) }
    {
        let lines = list_lines(alloc, bytes)?;
        match first_bad(&lines) {
            Some(line) => Err(AcceptFault::BadLine { line }),
            None => Ok(Accepted { lines }),
        }
    }

    /// Returns whether the list has no lines. O(1).
    fn is_empty(&self) -> bool
        ensures { result ≡ (length self.now == 0) }
    {
        self.lines.is_empty()
    }

    /// Returns the findings that no line accepts, in order. A line accepts each finding of its kind
    /// in a line with its text, in any file. O(findings) if the list is empty, and otherwise
    /// O(bytes).
    /// Errors: `Stale` with the first line that accepts none of the findings; `NoMemory` if memory
    /// runs out.
    fn leave_out<'r>(&self, alloc: Global, rows: &[Row<'r>]) -> Result<Vec<Row<'r>>, AcceptFault>
        ensures { words.Leaves result (left_of self.now rows.now) }
    {
        if self.is_empty() {
            return Ok(all_again(alloc, rows)?);
        }
        if let Some(line) = stale_line(alloc, &self.lines, rows)? {
            return Err(AcceptFault::Stale { line });
        }
        Ok(not_accepted(alloc, &self.lines, rows)?)
    }
}

/// Returns the findings that no line of this list accepts, in order. O(bytes).
/// Errors: `BadLine` with the first line that is not in the form; otherwise `Stale` with the first
/// line that accepts none of the findings; `NoMemory` if memory runs out.
pub(crate) fn left_by<'r>(
    alloc: Global,
    accepted: &[u8],
    rows: &[Row<'r>],
) -> Result<Vec<Row<'r>>, AcceptFault>
    ensures { words.IsLeftBy accepted.now rows.now result }
{
    match Accepted::read(alloc, accepted) {
        Ok(accepted) => accepted.leave_out(alloc, rows),
        Err(fault) => Err(fault),
    }
}

/// Returns a copy of these findings.
fn all_again<'r>(alloc: Global, rows: &[Row<'r>]) -> Result<Vec<Row<'r>>, AllocError>
    ensures { IfOk result (λ left. left.items ≡ rows.now) }
{
    let mut left = Vec::new(alloc);
    for row in rows {
        left.push(row.again())?;
    }
    Ok(left)
}

/// Returns the number of the first line that is not in the form, from 1.
fn first_bad(lines: &[ListLine<'_>]) -> Option<usize>
    ensures { result
        ≡ option_map (λ line. line.number) (find (λ line. not (words.is_in_form line)) lines.now) }
{
    for line in lines {
        if !is_in_form(line) {
            return Some(line.number);
        }
    }
    None
}

/// Returns whether the line begins with the word of a kind, a colon and a blank.
fn is_in_form(line: &ListLine<'_>) -> bool
    ensures { result ≡ words.is_in_form line.now }
{
    begins_as_file(line.text) || begins_as_text(line.text) || begins_as_reader(line.text)
}

/// Returns whether it begins with the word of a kind about the lines of a file.
fn begins_as_file(text: &[u8]) -> bool
    ensures { result ≡ words.begins_as_one words.file_words text.now }
{
    begins_as(text, "fault: ")
        || begins_as(text, "overridden: ")
        || begins_as(text, "repeated: ")
        || begins_as(text, "prefix: ")
        || begins_as(text, "keysym: ")
}

/// Returns whether it begins with the word of a kind about texts and comments.
fn begins_as_text(text: &[u8]) -> bool
    ensures { result ≡ words.begins_as_one words.text_words text.now }
{
    begins_as(text, "mark: ")
        || begins_as(text, "form: ")
        || begins_as(text, "comment: ")
        || begins_as(text, "redundant: ")
}

/// Returns whether it begins with the word of a reader.
fn begins_as_reader(text: &[u8]) -> bool
    ensures { result ≡ words.begins_as_one words.reader_words text.now }
{
    begins_as(text, "libX11: ")
        || begins_as(text, "libxkbcommon: ")
        || begins_as(text, "gtk3: ")
        || begins_as(text, "gtk4: ")
}

/// Returns whether the text begins with this prefix.
fn begins_as(text: &[u8], prefix: &str) -> bool
    ensures { result ≡ begins_with text.now prefix.now }
{
    text.strip_prefix(prefix.as_bytes()).is_some()
}

/// Returns for each finding the text of a list line that accepts it.
fn listed_texts(alloc: Global, rows: &[Row<'_>]) -> Result<Vec<String>, AllocError>
    ensures { IfOk result
        (λ texts. map (λ text. string_bytes text) texts.items ≡ map words.listed_text rows.now) }
{
    let mut texts = Vec::new(alloc);
    for row in rows {
        let text = listed_text(alloc, row)?;
        texts.push(text)?;
    }
    Ok(texts)
}

/// A set of texts.
type Texts<'a> = IndexMap<&'a [u8], ()>;

/// Returns the set of these texts.
fn texts_among<'a>(alloc: Global, texts: &'a [String]) -> Result<Texts<'a>, AllocError>
    ensures { IfOk result
        (λ among. (q : List ℕ)
        → is_some (get_by (λ k. bytes_eq q k.now) among)
        ≡ list_any (bytes_eq q) (map (λ text. string_bytes text) texts.now)) }
{
    let mut among = IndexMap::new(alloc);
    for text in texts {
        among.insert(text.as_bytes(), ())?;
    }
    Ok(among)
}

/// Returns the set of the texts of these lines.
fn lines_among<'a>(alloc: Global, lines: &[ListLine<'a>]) -> Result<Texts<'a>, AllocError>
    ensures { IfOk result
        (λ among. (q : List ℕ)
        → is_some (get_by (λ k. bytes_eq q k.now) among)
        ≡ list_any (bytes_eq q) (map (λ line. line.text) lines.now)) }
{
    let mut among = IndexMap::new(alloc);
    for line in lines {
        among.insert(line.text, ())?;
    }
    Ok(among)
}

/// Returns the number of the first line that accepts none of the findings, from 1.
fn stale_line(
    alloc: Global,
    lines: &[ListLine<'_>],
    rows: &[Row<'_>],
) -> Result<Option<usize>, AllocError>
    ensures { IfOk result
        (λ stale. stale
        ≡ option_map (λ line. line.number) (find (words.is_stale rows.now) lines.now)) }
{
    let texts = listed_texts(alloc, rows)?;
    let stale = first_stale(alloc, lines, &texts)?;
    Ok(stale)
}

/// Returns the number of the first line that equals none of the texts, from 1.
fn first_stale(
    alloc: Global,
    lines: &[ListLine<'_>],
    texts: &[String],
) -> Result<Option<usize>, AllocError>
    ensures { IfOk result
        (λ stale. stale
        ≡ option_map (λ line. line.number)
        (find (words.is_none_of (map (λ text. string_bytes text) texts.now)) lines.now)) }
{
    let among = texts_among(alloc, texts)?;
    Ok(first_missing(lines, &among))
}

/// Returns the number of the first line that is not in this set, from 1.
fn first_missing(lines: &[ListLine<'_>], among: &Texts<'_>) -> Option<usize>
    ensures { result
        ≡ option_map (λ line. line.number)
        (find (λ line. not (is_some (get_by (λ k. bytes_eq line.text k.now) among.now))) lines.now) }
{
    for line in lines {
        if !among.contains_key(line.text) {
            return Some(line.number);
        }
    }
    None
}

/// Returns the findings whose text equals none of the lines, in order.
fn not_accepted<'r>(
    alloc: Global,
    lines: &[ListLine<'_>],
    rows: &[Row<'r>],
) -> Result<Vec<Row<'r>>, AllocError>
    ensures { IfOk result
        (λ left. left.items ≡ filter (λ row. not (words.is_accepted lines.now row)) rows.now) }
{
    let among = lines_among(alloc, lines)?;
    let mut left = Vec::new(alloc);
    for row in rows {
        push_unless(alloc, &mut left, &among, row)?;
    }
    Ok(left)
}

/// Adds a finding, unless its text is in this set.
fn push_unless<'r>(
    alloc: Global,
    left: &mut Vec<Row<'r>>,
    among: &Texts<'_>,
    row: &Row<'r>,
) -> Result<(), AllocError>
    ensures { OnOk result
        (left.new.items
        ≡ left.old.items
        ++ words.unless
        (is_some (get_by (λ k. bytes_eq (words.listed_text row.now) k.now) among.now)) row.now) }
{
    if is_among(alloc, among, row)? {
        return Ok(());
    }
    left.push(row.again())?;
    Ok(())
}

/// Returns whether the text of the finding is in this set.
fn is_among(alloc: Global, among: &Texts<'_>, row: &Row<'_>) -> Result<bool, AllocError>
    ensures { IfOk result
        (λ is. is
        ≡ is_some (get_by (λ k. bytes_eq (words.listed_text row.now) k.now) among.now)) }
{
    let text = listed_text(alloc, row)?;
    Ok(among.contains_key(text.as_bytes()))
}

/// Returns the list that accepts these findings: a line for each, in order of first occurrence,
/// without duplicates. O(bytes).
pub(crate) fn accept_text(alloc: Global, rows: &[Row<'_>]) -> Result<String, AllocError>
    ensures { IfOk result (λ text. string_bytes text ≡ words.accept_lines rows.now) }
{
    let texts = listed_texts(alloc, rows)?;
    lines_once(alloc, &texts)
}

/// Returns each of the texts as a line, in order of first occurrence, without duplicates.
fn lines_once(alloc: Global, texts: &[String]) -> Result<String, AllocError>
    ensures { IfOk result
        (λ lines. string_bytes lines
        ≡ words.as_lines (words.distinct (map (λ text. string_bytes text) texts.now))) }
{
    let mut among = IndexMap::new(alloc);
    let mut lines = String::new(alloc);
    for text in texts {
        if !among.contains_key(text.as_bytes()) {
            push_text(&mut lines, text)?;
        }
        among.insert(text.as_bytes(), ())?;
    }
    Ok(lines)
}

/// Adds a text as a line.
fn push_text(lines: &mut String, text: &str) -> Result<(), AllocError>
    ensures { OnOk result
        (string_bytes lines.new
        ≡ string_bytes lines.old ++ words.as_line text.now) }
{
    lines.push_str(text)?;
    lines.push_str("\n")
}
