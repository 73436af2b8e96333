//! A character in place of a keysym's name.
ghost use Rattle.std.specs.Prelude.{◌≡◌};
ghost use Rattle.compose_messages.specs.Characters as characters;
ghost use Rattle.compose_messages.specs.Characters.{IsCharacter, IsKeyOfText};

use crate::lines::{source_line, text_or_nothing};
use crate::offsets::first_of;
use crate::tokens::{last_solid, named};
use compose_lex::LexFault;
use compose_read::{ReadFault, Sources};
use compose_tree::TableFault;
use keysym_core::{Keysym, Names};
use std::fmt;

/// The hint for a character in place of a name: it has the name of the character's key.
#[derive(Clone, Copy, Debug, PartialEq, Eq)]
pub struct CharacterHint<'a>(pub &'a str);

impl fmt::Display for CharacterHint<'_> {
    ghost use Rattle.std.specs.Prelude.{Some};
    ghost use Rattle.compose_messages.specs.Characters.{character_hint};

    ghost output = { λ hint. Some (character_hint hint.0.now) };

    fn fmt<W: fmt::Write>(&self, f: &mut fmt::Formatter<W>) -> fmt::Result {
        let name = self.0;
        write!(f, "composecheck: hint: the key of this character is {name}")
    }
}

/// Returns the least keysym of the character, if the text is a single character and a keysym has
/// it. O(log characters).
pub fn key_of_text(names: &Names, text: &str) -> Option<Keysym>
    ensures { IsKeyOfText names.now text.now result }
{
    match single_character(text) {
        Some(character) => names.next_of(character, None),
        None => None,
    }
}

/// Returns the character, if the text is a single one.
fn single_character(text: &str) -> Option<char>
    ensures { IsCharacter text.now result }
{
    let mut characters = text.chars();
    let Some(first) = characters.next() else {
        return None;
    };
    match characters.next() {
        Some(_) => None,
        None => Some(first),
    }
}

/// Returns the text in place of a keysym's name at a fault of a table of these sources: a name that
/// no keysym has, or the text between `<` and `>` that is not a name; nothing for any other fault.
/// O(bytes of the source).
pub fn text_in_place<'a>(sources: &'a Sources, fault: &TableFault) -> &'a str
    ensures { result.now ≡ characters.text_in_place sources.now fault.now }
{
    match fault {
        TableFault::Read(
            ReadFault::UnknownKeysym {
                source,
                line,
                index,
            },
        ) => named(source_line(sources, *source, *line), *index),
        TableFault::Read(
            ReadFault::Lex {
                source,
                line,
                fault: LexFault::BadToken { at },
            },
        ) => event_text(source_line(sources, *source, *line), *at),
        _ => "",
    }
}

/// Returns the text between `<` and `>` at this offset; nothing if the last byte before it that is
/// not a blank is not a `<`.
fn event_text(line: &[u8], at: usize) -> &str
    ensures { result.now ≡ characters.event_text line.now at }
{
    if at >= line.len() {
        return "";
    }
    match last_solid(&line[..at]) {
        Some(b'<') => text_or_nothing(before_greater(&line[at..])),
        _ => "",
    }
}

#[tactic(auto, using(std::proofs::lemmas::List::take_min))]
/// Returns the bytes before the first `>`, or all if there is none.
fn before_greater(rest: &[u8]) -> &[u8]
    ensures { result.now ≡ characters.before_greater rest.now }
{
    &rest[..first_of(b'>', rest).min(rest.len())]
}
