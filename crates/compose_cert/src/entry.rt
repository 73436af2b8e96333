//! The content of a line of a repertoire.
ghost use Rattle.std.specs.Prelude.{◌≡◌, IfSome};
ghost use Rattle.std.specs.Str.{is_utf8};
ghost use Rattle.keysym_core.specs.Names.{number_form};
ghost use Rattle.compose_cert.specs.Repertoire as repertoire;

use crate::repertoire_words::{before_comment, character_form, first_word, number_form};
use keysym_core::Keysym;
use std::str;

/// The content of a line.
#[derive(Clone, Copy)]
pub enum LineEntry {
    /// An empty line or a comment.
    Nothing,
    /// A range of keys: its first and its last keysym.
    Keys(Keysym, Keysym),
    /// A character that people need.
    Character(char),
}

/// Returns the content of the line, or `None` if it has none of the forms. O(bytes).
pub fn line_entry(line: &[u8]) -> Option<LineEntry>
    ensures same { result ≡ repertoire.line_entry line.now }
    ensures ordered { IfSome result repertoire.IsOrdered }
{
    if !is_text(line) {
        return None;
    }
    entry_of(before_comment(line))
}

/// Returns whether the bytes are UTF-8. O(bytes).
fn is_text(bytes: &[u8]) -> bool
    ensures { result ≡ is_utf8 bytes.now }
{
    match str::from_utf8(bytes) {
        Ok(_) => true,
        Err(_) => false,
    }
}

/// Returns the entry of a line with no word; with `keys` and two numbers; or with a character.
fn entry_of(content: &[u8]) -> Option<LineEntry>
    ensures same { result ≡ repertoire.entry_of (repertoire.words_in content.now) }
    ensures ordered { IfSome result repertoire.IsOrdered }
{
    let Some((word, rest)) = first_word(content) else {
        return Some(LineEntry::Nothing);
    };
    let Some((first, rest)) = first_word(rest) else {
        let character = character_form(word)?;
        return Some(LineEntry::Character(character));
    };
    let (last, rest) = first_word(rest)?;
    if word != b"keys".as_slice() || first_word(rest).is_some() {
        return None;
    }
    range_entry(first, last)
}

/// Returns a range whose last key isn't below its first.
fn range_entry(first: &[u8], last: &[u8]) -> Option<LineEntry>
    ensures same { result ≡ repertoire.range_entry (number_form first.now) (number_form last.now) }
    ensures ordered { IfSome result repertoire.IsOrdered }
{
    let first = number_form(first)?;
    let last = number_form(last)?;
    if last < first {
        return None;
    }
    Some(LineEntry::Keys(first, last))
}
