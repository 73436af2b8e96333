//! The intended changes.
ghost use Rattle.std.specs.Prelude.{◌≡◌, ◌<◌, ◌==◌, not, length, map, filter, is_some, IfSome, IfOk, string_bytes};
ghost use Rattle.std.specs.List.{find, list_any};
ghost use Rattle.std.specs.Option.{option_map};
ghost use Rattle.compose_text.specs.Lines.{lines_of};
ghost use Rattle.compose_diff.specs.Line.{row_text};
ghost use Rattle.compose_diff.specs.Accepted as words;
ghost use Rattle.compose_diff.specs.Accepted.{Returns, accepted_of, left_of};

use crate::line::{change_word, push_row_text};
use crate::row::DiffRow;
use compose_compare::Change;
use compose_text::first_line;
use std::alloc::{AllocError, Global};
use std::marker::Model;
use thiserror::Error;

/// Why a list of intended changes is refused.
#[derive(Clone, Copy, Debug, PartialEq, Eq, Drop, Error)]
pub enum AcceptFault {
    /// This line, counted from 1, is the first that matches none of the changes.
    #[error("1 Stale line={line}")]
    Stale { line: usize },
    /// This line, counted from 1, is the first that doesn't begin like the line of a change that
    /// can be accepted.
    #[error("2 BadLine line={line}")]
    BadLine { line: usize },
    /// Memory ran out in this call.
    #[error("3 NoMemory")]
    NoMemory,
}

impl From<AllocError> for AcceptFault {
    ghost use Rattle.compose_diff.specs.declared.accepted.AcceptFault.TheVariants.{NoMemory};

    ghost from_gives = { λ _ e. e ≡ NoMemory };

    fn from(_error: AllocError) -> AcceptFault {
        AcceptFault::NoMemory
    }
}

/// A line of a list of intended changes.
#[derive(Drop)]
pub struct ListLine<'a> {
    /// The number of the line in the file, from 1.
    pub number: usize,
    /// The bytes of the line, without the newline.
    pub text: &'a [u8],
}

impl<'a> Model for ListLine<'a> {
    ghost use Rattle.compose_diff.specs.Accepted as words;

    ghost Value = { words.Line };

    ghost view = { λ line. record { number = line.number; text = line.text.now } };
}

/// The intended changes, as lines in the form in which rows are printed.
#[derive(Drop)]
pub struct Accepted<'a> {
    lines: Vec<ListLine<'a>>,
}

impl<'a> Model for Accepted<'a> {
    ghost use Rattle.std.specs.Prelude.{List};
    ghost use Rattle.compose_diff.specs.Accepted as words;

    ghost Value = { List words.Line };

    ghost view = { λ accepted. accepted.lines.items };
}

impl<'a> Accepted<'a> {
    /// Reads the lines of a file, without empty lines and those that begin with `#`. A line has to
    /// begin with the word of a change that can be accepted, a colon, and a key in brackets.
    /// O(bytes).
    ///
    /// Errors: `BadLine` with the first line that doesn't, or `NoMemory` if memory runs out.
    pub fn read(alloc: Global, bytes: &'a [u8]) -> Result<Accepted<'a>, AcceptFault>
        ensures { Returns result (accepted_of bytes.now) }
    {
        let lines = list_lines(alloc, bytes)?;
        match first_bad(&lines) {
            Some(line) => Err(AcceptFault::BadLine { line }),
            None => Ok(Accepted { lines }),
        }
    }

    /// Returns whether no change is intended. O(1).
    pub(crate) fn is_empty(&self) -> bool
        ensures { result ≡ (length self.now == 0) }
    {
        self.lines.is_empty()
    }

    /// Returns the rows that no line accepts, in order. A line accepts a row if it has the change,
    /// keys and texts of the row; it may also have places, which needn't be those of the row.
    /// O(rows) if there are no lines, O(bytes) if they are in the order of the rows, and otherwise
    /// O(bytes of the rows × lines).
    ///
    /// Errors: `Stale` with the first line that matches none of the rows, or `NoMemory` if memory
    /// runs out.
    pub fn leave_out<'r>(
        &self,
        alloc: Global,
        rows: &[DiffRow<'r>],
    ) -> Result<Vec<DiffRow<'r>>, AcceptFault>
        ensures { words.Leaves result (left_of self.now rows.now) }
    {
        if let Some(line) = stale_line(alloc, &self.lines, rows)? {
            return Err(AcceptFault::Stale { line });
        }
        Ok(unaccepted_rows(alloc, rows, &self.lines)?)
    }
}

/// Returns the lines of a list of intended changes, without empty lines and those that begin with
/// `#`. O(bytes).
///
/// Errors: `AllocError` if memory runs out.
pub fn list_lines(alloc: Global, bytes: &[u8]) -> Result<Vec<ListLine<'_>>, AllocError>
    ensures { IfOk result (λ lines. lines.items ≡ words.list_lines_from 1 (lines_of bytes.now)) }
{
    let mut lines = Vec::new(alloc);
    let mut rest = bytes;
    let mut number = 0;
    while let Some((text, behind)) = first_line(rest) {
        number += 1;
        if !is_skipped(text) {
            lines.push(ListLine { number, text })?;
        }
        rest = behind;
    }
    Ok(lines)
}

/// Returns whether the line is empty or a comment.
fn is_skipped(line: &[u8]) -> bool
    ensures { result ≡ words.is_skipped line.now }
{
    match line.first() {
        Some(byte) => *byte == b'#',
        None => true,
    }
}

/// Returns the number of the first line that is not in the required form.
fn first_bad(lines: &[ListLine]) -> Option<usize>
    ensures { result
        ≡ option_map (λ line. line.number) (find (λ line. not (words.is_in_form line)) lines.now) }
{
    for line in lines {
        if !is_in_form(line) {
            return Some(line.number);
        }
    }
    None
}

/// Returns whether the line begins like the line of a change that can be accepted.
fn is_in_form(line: &ListLine) -> bool
    ensures { result ≡ words.is_in_form line.now }
{
    begins_as(line.text, Change::Changed)
        || begins_as(line.text, Change::Waiting)
        || begins_as(line.text, Change::Removed)
        || begins_as(line.text, Change::NewStart)
}

/// Returns whether the text begins like the line of this change.
fn begins_as(text: &[u8], change: Change) -> bool
    ensures { result ≡ words.begins_as text.now change }
{
    match text.strip_prefix(change_word(change).as_bytes()) {
        Some(rest) => rest.strip_prefix(b": <").is_some(),
        None => false,
    }
}

/// Returns the number of the first line that matches none of the rows. Without lines, the rows are
/// not read.
fn stale_line(
    alloc: Global,
    lines: &[ListLine],
    rows: &[DiffRow],
) -> Result<Option<usize>, AllocError>
    ensures { IfOk result
        (λ stale. stale
        ≡ option_map (λ line. line.number)
        (find (words.is_stale (map row_text rows.now)) lines.now)) }
{
    if lines.is_empty() {
        return Ok(None);
    }
    let texts = row_texts(alloc, rows)?;
    Ok(first_stale(lines, &texts))
}

/// Returns the change, keys and texts of each row, as they are printed.
fn row_texts(alloc: Global, rows: &[DiffRow]) -> Result<Vec<String>, AllocError>
    ensures { IfOk result
        (λ texts. map (λ text. string_bytes text) texts.items ≡ map row_text rows.now) }
{
    let mut texts = Vec::new(alloc);
    for row in rows {
        let text = row_text(alloc, row)?;
        texts.push(text)?;
    }
    Ok(texts)
}

/// Returns the change, keys and texts of a row, as they are printed.
fn row_text(alloc: Global, row: &DiffRow) -> Result<String, AllocError>
    ensures { IfOk result (λ text. string_bytes text ≡ row_text row.now) }
{
    let mut text = String::new(alloc);
    push_row_text(alloc, &mut text, row)?;
    Ok(text)
}

/// Returns the number of the first line that matches none of the texts. Texts in the order of the
/// lines are found at once.
fn first_stale(lines: &[ListLine], texts: &[String]) -> Option<usize>
    ensures { result
        ≡ option_map (λ line. line.number)
        (find (words.is_stale (map (λ text. string_bytes text) texts.now)) lines.now) }
{
    let mut hint = 0;
    for line in lines {
        match matching_text(line, hint, texts) {
            Some(at) => hint = at + 1,
            None => return Some(line.number),
        }
    }
    None
}

/// Returns the index of a text that the line matches, trying the hint first.
fn matching_text(line: &ListLine, hint: usize, texts: &[String]) -> Option<usize>
    ensures reported { not (is_some result)
        ≡ words.is_stale (map (λ text. string_bytes text) texts.now) line.now }
    ensures within { IfSome result (λ at. at < length texts.now) }
{
    if hint < texts.len() && matches_text(&texts[hint], line) {
        return Some(hint);
    }
    for (at, text) in texts.iter().enumerate() {
        if matches_text(text, line) {
            return Some(at);
        }
    }
    None
}

/// Returns whether the line is the text, with or without places after it.
fn matches_text(text: &str, line: &ListLine) -> bool
    ensures { result ≡ words.matches_text text.now line.now }
{
    match line.text.strip_prefix(text.as_bytes()) {
        Some(rest) => is_end(rest),
        None => false,
    }
}

/// Returns whether nothing is left, or a blank, after which the places come.
fn is_end(rest: &[u8]) -> bool
    ensures { result ≡ words.is_end rest.now }
{
    match rest.first() {
        Some(byte) => *byte == b' ',
        None => true,
    }
}

/// Returns the rows that no line accepts, in order. Lines in the order of the rows are found at
/// once.
fn unaccepted_rows<'r>(
    alloc: Global,
    rows: &[DiffRow<'r>],
    lines: &[ListLine],
) -> Result<Vec<DiffRow<'r>>, AllocError>
    ensures { IfOk result
        (λ left. left.items ≡ filter (λ row. not (words.is_accepted lines.now row)) rows.now) }
{
    let mut left = Vec::new(alloc);
    let mut hint = 0;
    for row in rows {
        match accepting(alloc, row, lines, hint)? {
            Some(at) => hint = at + 1,
            None => left.push(*row)?,
        }
    }
    Ok(left)
}

/// Returns the index of a line that accepts the row, trying the hint first.
fn accepting(
    alloc: Global,
    row: &DiffRow,
    lines: &[ListLine],
    hint: usize,
) -> Result<Option<usize>, AllocError>
    ensures accepted { IfOk result (λ at. is_some at ≡ words.is_accepted lines.now row.now) }
    ensures within { IfOk result (λ at. IfSome at (λ i. i < length lines.now)) }
{
    if row.change.is_harmless() {
        return Ok(None);
    }
    let text = row_text(alloc, row)?;
    Ok(matching_line(lines, hint, &text))
}

/// Returns the index of a line that matches the text, trying the hint first.
fn matching_line(lines: &[ListLine], hint: usize, text: &str) -> Option<usize>
    ensures reported { is_some result ≡ list_any (words.matches_text text.now) lines.now }
    ensures within { IfSome result (λ at. at < length lines.now) }
{
    if hint < lines.len() && matches_text(text, &lines[hint]) {
        return Some(hint);
    }
    for (at, line) in lines.iter().enumerate() {
        if matches_text(text, line) {
            return Some(at);
        }
    }
    None
}

/// Returns the list that accepts these rows: a line without places for each row that is not
/// harmless. O(bytes).
///
/// Errors: `AllocError` if memory runs out.
pub fn accept_text(alloc: Global, rows: &[DiffRow]) -> Result<String, AllocError>
    ensures { IfOk result (λ text. string_bytes text ≡ words.accept_lines rows.now) }
{
    let mut text = String::new(alloc);
    for row in rows {
        if !row.change.is_harmless() {
            push_row_text(alloc, &mut text, row)?;
            text.push_str("\n")?;
        }
    }
    Ok(text)
}
