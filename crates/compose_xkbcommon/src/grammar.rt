//! A line of libxkbcommon that defines a sequence.
ghost use Rattle.std.specs.Prelude.{◌≡◌, [], length, map, option_map, option_copied};
ghost use Rattle.compose_xkbcommon.specs.Grammar as grammar;
ghost use Rattle.compose_xkbcommon.specs.Scanned.{read, left, parts};

use crate::tokens::{
    behind_byte, inside_at, is_word_first, named_key_at, skip_spaces, split_name, word_at,
};
use arrayvec::ArrayVec;

/// The names of the keys of a sequence.
pub type Keys<'a> = ArrayVec<&'a str, 10>;

/// The parts of a line that defines a sequence.
#[derive(Drop)]
pub struct Parts<'a> {
    /// The names of the keys.
    pub keys: Keys<'a>,
    /// The raw text of the string.
    pub string: Option<&'a [u8]>,
    /// The name of the result keysym.
    pub name: Option<&'a str>,
}

/// Returns whether a word is the name of a modifier.
fn is_modifier(word: &str) -> bool
    ensures { result ≡ grammar.is_modifier word.now }
{
    matches!(word, "Ctrl" | "Lock" | "Caps" | "Shift" | "Alt" | "Meta")
}

/// Returns what follows a mark and its blanks if it comes first, or otherwise everything.
fn behind_mark(mark: u8, rest: &[u8]) -> &[u8]
    ensures { result.now ≡ grammar.behind_mark mark rest.now }
{
    match behind_byte(mark, rest) {
        Some(more) => skip_spaces(more),
        None => rest,
    }
}

/// Reads a modifier, perhaps with a `~` before it; returns the rest.
fn behind_modifier(rest: &[u8]) -> Option<&[u8]>
    ensures { left result ≡ grammar.behind_modifier rest.now }
{
    let (word, behind) = word_at(behind_mark(b'~', rest))?;
    if is_modifier(word) {
        Some(behind)
    } else {
        None
    }
}

/// Returns whether a modifier begins here.
fn begins_modifier(rest: &[u8]) -> bool
    ensures { result ≡ grammar.begins_modifier rest.now }
{
    match rest.first() {
        Some(byte) => *byte == b'~' || is_word_first(*byte),
        None => false,
    }
}

/// Reads modifiers; returns the rest. O(bytes).
fn behind_modifiers(list: &[u8]) -> Option<&[u8]>
    ensures { left result ≡ grammar.behind_modifiers (length list.now) list.now }
{
    let mut rest = list;
    for _index in 0..list.len() {
        if !begins_modifier(rest) {
            return Some(rest);
        }
        rest = skip_spaces(behind_modifier(rest)?);
    }
    Some(rest)
}

/// Reads the modifiers of a key; returns the rest.
fn behind_list(rest: &[u8]) -> Option<&[u8]>
    ensures { left result ≡ grammar.behind_list rest.now }
{
    let (word, behind) = split_name(rest);
    if word == "None" {
        return Some(skip_spaces(behind));
    }
    behind_modifiers(behind_mark(b'!', rest))
}

/// Reads a key with its modifiers; returns its name and the rest.
fn key_at(rest: &[u8]) -> Option<(&str, &[u8])>
    ensures { read result ≡ grammar.key_at rest.now }
{
    named_key_at(behind_list(rest)?)
}

/// Reads the keys up to the colon; returns their names, and the rest after the colon. O(bytes).
fn keys_at(first: &[u8]) -> Option<(Keys<'_>, &[u8])>
    ensures { option_map (λ x. (map (λ key. key.now) x.0.items, x.1.now)) result
        ≡ grammar.keys_at grammar.most_keys first.now }
{
    let mut keys = ArrayVec::new();
    let mut rest = first;
    loop {
        if let Some(behind) = behind_byte(b':', rest) {
            return Some((keys, behind));
        }
        if keys.is_full() {
            return None;
        }
        let (key, behind) = key_at(rest)?;
        keys.push(key);
        rest = skip_spaces(behind);
    }
}

/// Reads the name of a result keysym, or nothing but a comment.
fn name_or_end(rest: &[u8]) -> Option<Option<&str>>
    ensures { option_map option_copied result ≡ grammar.name_or_end rest.now }
{
    match rest.first() {
        None | Some(b'#') => Some(None),
        Some(_) => {
            let (word, _) = word_at(rest)?;
            Some(Some(word))
        }
    }
}

/// Reads a string, a name, or both.
fn result_at(rest: &[u8]) -> Option<(Option<&[u8]>, Option<&str>)>
    ensures { option_map (λ x. (option_copied x.0, option_copied x.1)) result
        ≡ grammar.result_at rest.now }
{
    match behind_byte(b'"', rest) {
        Some(more) => {
            let (raw, behind) = inside_at(more)?;
            let name = name_or_end(skip_spaces(behind))?;
            Some((Some(raw), name))
        }
        None => {
            let (word, _) = word_at(rest)?;
            Some((None, Some(word)))
        }
    }
}

/// Returns the parts of a line that defines a sequence; `None` if it is another line. O(bytes).
pub fn parts_of(line: &[u8]) -> Option<Parts<'_>>
    ensures { option_map parts result ≡ grammar.parts_of line.now }
{
    let (keys, behind) = keys_at(skip_spaces(line))?;
    let (string, name) = result_at(skip_spaces(behind))?;
    if keys.is_empty() {
        return None;
    }
    Some(Parts { keys, string, name })
}
