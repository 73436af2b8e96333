//! Texts in Markdown and in HTML.
ghost use Rattle.std.specs.Prelude.{◌≡◌, ◌++◌, OnOk, string_bytes};
ghost use Rattle.compose_page.specs.Markup as words;

use compose_shown::is_unsafe;
use keysym_core::ShownChar;
use std::alloc::AllocError;
use std::fmt::Write;

/// The language of a page.
#[derive(Clone, Copy, Debug, PartialEq, Eq)]
pub enum Markup {
    /// CommonMark with the tables of GitHub and GitLab.
    Markdown,
    /// HTML in one file, without scripts and external links.
    Html,
}

/// Appends `inside` to the text, escaped so that no character of it is taken for markup.
pub(crate) fn push_escaped(
    text: &mut String,
    markup: Markup,
    inside: &str,
) -> Result<(), AllocError>
    ensures { OnOk result
        (string_bytes text.new ≡ string_bytes text.old ++ words.escaped markup inside.now) }
{
    for character in inside.chars() {
        push_character(text, markup, character)?;
    }
    Ok(())
}

/// Appends a character to the text: as its number, if it could control a terminal or the direction
/// of writing.
fn push_character(text: &mut String, markup: Markup, character: char) -> Result<(), AllocError>
    ensures { OnOk result
        (string_bytes text.new ≡ string_bytes text.old ++ words.character_text markup character) }
{
    let number = u32::from(character);
    if is_unsafe(number) {
        return push_number(text, character);
    }
    if is_mark(markup, number) {
        return push_mark(text, markup, character);
    }
    text.push(character)
}

/// Returns whether the character may have a meaning in the markup.
fn is_mark(markup: Markup, number: u32) -> bool
    ensures { result ≡ words.is_mark markup number }
{
    match markup {
        Markup::Markdown => { matches!(number, 33..=36 | 38..=42 | 60 | 62 | 91..=96 | 123..=126) }
        Markup::Html => matches!(number, 34 | 38 | 39 | 60 | 62),
    }
}

/// Appends a character that may have a meaning in the markup to the text, escaped.
fn push_mark(text: &mut String, markup: Markup, character: char) -> Result<(), AllocError>
    ensures { OnOk result
        (string_bytes text.new ≡ string_bytes text.old ++ words.mark_text markup character) }
{
    match markup {
        Markup::Markdown => {
            text.push('\\')?;
            text.push(character)
        }
        Markup::Html => {
            let number = u32::from(character);
            write!(text, "&#{number};")
        }
    }
}

/// Appends the number of a character to the text: `U+` and at least four digits.
fn push_number(text: &mut String, character: char) -> Result<(), AllocError>
    ensures { OnOk result
        (string_bytes text.new ≡ string_bytes text.old ++ words.number_text character) }
{
    let shown = ShownChar(character);
    write!(text, "{shown}")
}

/// Appends the number of each character, after a blank, to the text.
pub(crate) fn push_numbers(text: &mut String, inside: &str) -> Result<(), AllocError>
    ensures { OnOk result
        (string_bytes text.new ≡ string_bytes text.old ++ words.numbers_part inside.now) }
{
    for character in inside.chars() {
        text.push(' ')?;
        push_number(text, character)?;
    }
    Ok(())
}
