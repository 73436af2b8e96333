//! The comments of lines, and their texts.
ghost use Rattle.std.specs.Prelude.{◌≡◌, ◌++◌, ℕ, List, map, false, IfOk, OnOk, IfSome, bytes_eq, option_to_list};
ghost use Rattle.std.specs.Option.{option_map_or};
ghost use Rattle.std.specs.Borrow.{Bor};
ghost use Rattle.indexmap.specs.IndexMap.{get_by};
ghost use Rattle.compose_lint.specs.Lines.{all_lines};
ghost use Rattle.compose_lint.specs.Comments as words;
ghost use Rattle.compose_lint.specs.Commonest.{IsLed, times, has_other};

use crate::commonest::{Leaders, Note, has_other, leaders};
use crate::lines::LintLine;
use crate::source_lines::SourceLines;
use std::alloc::{AllocError, Global};

/// Returns the comment of a line and the text that the line produces. O(1).
fn comment_note<'a>(line: &'a LintLine<'_>) -> Option<Note<'a>>
    ensures { result ≡ words.comment_note line.now }
{
    let comment = line.comment()?;
    let definition = line.definition()?;
    Some(Note {
        key: comment,
        value: definition.text(),
    })
}

/// Returns the comments of the lines of these files, each with the text of its line. O(lines).
pub(crate) fn comments_in<'a>(
    alloc: Global,
    files: &'a [SourceLines<'_>],
) -> Result<Vec<Note<'a>>, AllocError>
    ensures { IfOk result (λ notes. notes.items ≡ words.comments_in (all_lines files.now)) }
{
    let mut notes = Vec::new(alloc);
    for file in files {
        push_comments(&mut notes, file.lines())?;
    }
    Ok(notes)
}

/// Adds the comments of these lines, each with the text of its line.
fn push_comments<'a>(notes: &mut Vec<Note<'a>>, lines: &'a [LintLine<'_>]) -> Result<(), AllocError>
    ensures { OnOk result (notes.new.items ≡ notes.old.items ++ words.comments_in lines.now) }
{
    for line in lines {
        push_commented(notes, line)?;
    }
    Ok(())
}

/// Adds the comment of the line with the text of the line, if it has both.
fn push_commented<'a>(notes: &mut Vec<Note<'a>>, line: &'a LintLine<'_>) -> Result<(), AllocError>
    ensures { OnOk result
        (notes.new.items ≡ notes.old.items ++ option_to_list (words.comment_note line.now)) }
{
    if let Some(note) = comment_note(line) {
        notes.push(note)?;
    }
    Ok(())
}

/// Returns the texts, each with its comment. O(notes).
pub(crate) fn texts_of<'a>(alloc: Global, notes: &[Note<'a>]) -> Result<Vec<Note<'a>>, AllocError>
    ensures { IfOk result (λ texts. texts.items ≡ map words.turned notes.now) }
{
    let mut texts = Vec::new(alloc);
    for note in notes {
        texts.push(Note {
            key: note.value(),
            value: note.key(),
        })?;
    }
    Ok(texts)
}

/// Returns whether the line's comment occurs most often with another text, and its text most often
/// with another comment, if these are the comments of all lines and their leaders. The leaders of
/// the texts are made when they are needed first.
pub(crate) fn has_misplaced_comment<'b>(
    alloc: Global,
    comments: &[Note<'b>],
    by_comment: &Leaders<'_>,
    by_text: &mut Option<Leaders<'b>>,
    line: &LintLine<'_>,
) -> Result<bool, AllocError>
    requires comments { (k : Bor (List ℕ))
        → IsLed (times comments.now k.now) k.now comments.now
        (get_by (λ p. bytes_eq k.now p.now) by_comment.now) }
    requires texts { IfSome by_text.old
        (λ leaders. (k : Bor (List ℕ))
        → IsLed (times (map words.turned comments.now) k.now) k.now
        (map words.turned comments.now) (get_by (λ p. bytes_eq k.now p.now) leaders)) }
    ensures is { IfOk result
        (λ is. is
        ≡ option_map_or (words.is_misplaced comments.now) (words.comment_note line.now) false) }
    ensures texts { OnOk result
        (IfSome by_text.new
        (λ leaders. (k : Bor (List ℕ))
        → IsLed (times (map words.turned comments.now) k.now) k.now
        (map words.turned comments.now) (get_by (λ p. bytes_eq k.now p.now) leaders))) }
{
    let Some(note) = comment_note(line) else {
        return Ok(false);
    };
    if !has_other(by_comment, note.key(), note.value()) {
        return Ok(false);
    }
    has_other_comment(alloc, comments, by_text, &note)
}

/// Returns whether the text of the note occurs most often with another comment than the note's.
fn has_other_comment<'b>(
    alloc: Global,
    comments: &[Note<'b>],
    by_text: &mut Option<Leaders<'b>>,
    note: &Note<'_>,
) -> Result<bool, AllocError>
    requires { IfSome by_text.old
        (λ leaders. (k : Bor (List ℕ))
        → IsLed (times (map words.turned comments.now) k.now) k.now
        (map words.turned comments.now) (get_by (λ p. bytes_eq k.now p.now) leaders)) }
    ensures is { IfOk result
        (λ is. is ≡ has_other (map words.turned comments.now) note.now.value note.now.key) }
    ensures texts { OnOk result
        (IfSome by_text.new
        (λ leaders. (k : Bor (List ℕ))
        → IsLed (times (map words.turned comments.now) k.now) k.now
        (map words.turned comments.now) (get_by (λ p. bytes_eq k.now p.now) leaders))) }
{
    if let Some(leaders) = by_text {
        return Ok(has_other(leaders, note.value(), note.key()));
    }
    let texts = texts_of(alloc, comments)?;
    let leaders = leaders(alloc, &texts)?;
    let is = has_other(&leaders, note.value(), note.key());
    *by_text = Some(leaders);
    Ok(is)
}
