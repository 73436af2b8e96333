//! The lines of `diff` in colours.
ghost use Rattle.std.specs.Prelude.{◌≡◌, IfOk, string_bytes};
ghost use Rattle.std.specs.List.{list_any};
ghost use Rattle.std.specs.Str.Lines.{lines};
ghost use Rattle.compose_diff.specs.Colors as words;

use crate::line::change_word;
use compose_compare::Change;
use std::alloc::{AllocError, Global};
use std::fmt::Write;

/// Returns the text of an answer in colours for a terminal, like those of `git diff`: a line of
/// what people lose is red, a line of what they get is green, and the line of the counts is bold.
/// O(bytes).
///
/// Errors: `AllocError` if memory runs out.
pub fn colored_text(alloc: Global, text: &str) -> Result<String, AllocError>
    ensures { IfOk result
        (λ colored. string_bytes colored ≡ words.colored_lines (lines text.now)) }
{
    let mut colored = String::new(alloc);
    for line in text.lines() {
        let color = color_of(line);
        write!(colored, "\u{1b}[{color}m{line}\u{1b}[m\n")?;
    }
    Ok(colored)
}

/// Returns the number of the colour of a line: red, green, or bold.
fn color_of(line: &str) -> &'static str
    ensures { result.now ≡ words.color_of line.now }
{
    if begins_with_one(line, &[Change::Changed, Change::Waiting, Change::Removed]) {
        return "31";
    }
    if begins_with_one(line, &[Change::NewStart, Change::Added]) {
        return "32";
    }
    "1"
}

/// Returns whether the line begins with the word for one of these changes.
fn begins_with_one(line: &str, changes: &[Change]) -> bool
    ensures { result ≡ list_any (words.begins_with_word line.now) changes.now }
{
    changes.iter().any(|change| begins_with_word(line, *change))
}

/// Returns whether the line begins with the word for this change.
fn begins_with_word(line: &str, change: Change) -> bool
    ensures { result ≡ words.begins_with_word line.now change }
{
    line.as_bytes()
        .strip_prefix(change_word(change).as_bytes())
        .is_some()
}
