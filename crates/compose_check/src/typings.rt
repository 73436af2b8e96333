//! The conditions on the typings: one for each character of the repertoire, in order, with the
//! repertoire's keys.
ghost use Rattle.std.specs.Prelude.{◌≡◌, List, length, drop, min, encode_utf8};
ghost use Rattle.std.specs.List.{list_all};
ghost use Rattle.keysym_core.specs.Names.{KeysymNames};
ghost use Rattle.compose_model.specs.Table.{Definition, same};
ghost use Rattle.compose_model.specs.Step as step;
ghost use Rattle.compose_model.specs.Certificate.{is_key};
ghost use Rattle.compose_state.specs.Texts.{text_bytes};
ghost use Rattle.compose_check.specs.Conditions as words;
ghost use Rattle.compose_fresh.specs.Conditions.{first_unmet};
ghost use Rattle.compose_check.specs.Conditions.{typing_conditions};
ghost use Rattle.compose_check.specs.Typings.{typing_fault};

use compose_cert::{Certificate, Repertoire, Typing};
use compose_fresh::CheckFault;
use compose_state::{ComposeState, FedText};
use compose_tree::ComposeTable;
use keysym_core::{Keysym, Names};

/// Returns the fault of the first character without a typing, typing that is wrong, or typing of a
/// character that is not in the repertoire. O(keys of all typings × (log ranges of keys + pending
/// keysyms × log edges of a node)).
pub(crate) fn check_typings<U: ComposeTable>(
    new: &U,
    names: &Names,
    repertoire: &Repertoire,
    certificate: &Certificate,
) -> Option<CheckFault>
    ensures { result
        ≡ first_unmet
        (typing_conditions names.now
        (U.definitions new.now) repertoire.now repertoire.now.characters certificate.now.typings) }
{
    let count = repertoire.count().min(certificate.typing_count());
    for index in 0..count {
        let character = repertoire.char_at(index);
        if let Some(fault) = check_typing(
            new,
            names,
            repertoire,
            character,
            certificate.typing(index),
        ) {
            return Some(fault);
        }
    }
    check_ends(repertoire, certificate, count)
}

/// Returns the fault if there are more characters than typings, or more typings than characters,
/// after the index at which the others end.
fn check_ends(repertoire: &Repertoire, certificate: &Certificate, end: usize) -> Option<CheckFault>
    requires { end ≡ min (length repertoire.now.characters) (length certificate.now.typings) }
    ensures { (names : KeysymNames) (new : List Definition)
        → result
        ≡ first_unmet
        (typing_conditions names new repertoire.now (drop end repertoire.now.characters)
        (drop end certificate.now.typings)) }
{
    if end < repertoire.count() {
        return Some(CheckFault::TypingMissing {
            character: repertoire.char_at(end),
        });
    }
    if end < certificate.typing_count() {
        return Some(CheckFault::TypingUnasked {
            character: certificate.typing(end).character(),
        });
    }
    None
}

/// Returns the fault of the typing if the repertoire has the character at its index.
fn check_typing<U: ComposeTable>(
    new: &U,
    names: &Names,
    repertoire: &Repertoire,
    character: char,
    typing: &Typing,
) -> Option<CheckFault>
    ensures { result
        ≡ typing_fault names.now (U.definitions new.now) repertoire.now character typing.now }
{
    if typing.character() < character {
        return Some(CheckFault::TypingUnasked {
            character: typing.character(),
        });
    }
    if character < typing.character() {
        return Some(CheckFault::TypingMissing { character });
    }
    if !are_keys(repertoire, typing.keys())
        || !types(new, names, typing.keys(), typing.character())
    {
        return Some(CheckFault::TypingWrong { character });
    }
    None
}

/// Returns whether each of the keysyms is one of the repertoire's keys.
fn are_keys(repertoire: &Repertoire, keysyms: &[Keysym]) -> bool
    ensures { result ≡ list_all (is_key repertoire.now) keysyms.now }
{
    keysyms.iter().all(|keysym| repertoire.is_key(*keysym))
}

/// Returns whether the keys, starting at rest, commit the character at the last one and nothing
/// before, and leave nothing pending.
fn types<U: ComposeTable>(new: &U, names: &Names, keys: &[Keysym], character: char) -> bool
    ensures { result ≡ words.types names.now (U.definitions new.now) keys.now character }
{
    let Some((last, earlier)) = keys.split_last() else {
        return false;
    };
    let mut state = ComposeState::new();
    for keysym in earlier {
        if !is_empty(state.feed(new, names, *keysym).text) {
            return false;
        }
    }
    is_character(state.feed(new, names, *last).text, character) && state.pending().is_empty()
}

/// Returns whether no text is committed.
fn is_empty(text: FedText<'_>) -> bool
    ensures { result ≡ step.is_empty (text_bytes text.entry) }
{
    match text {
        FedText::Empty => true,
        FedText::Char(_) => false,
        FedText::Slice(text) => text.is_empty(),
    }
}

/// Returns whether the character is committed.
fn is_character(text: FedText<'_>, character: char) -> bool
    ensures { result ≡ same (text_bytes text.entry) (encode_utf8 character) }
{
    match text {
        FedText::Empty => false,
        FedText::Char(own) => own.encode_utf8(&mut [0; 4]) == character.encode_utf8(&mut [0; 4]),
        FedText::Slice(text) => text == character.encode_utf8(&mut [0; 4]),
    }
}
