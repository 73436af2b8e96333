//! The definition on a line.
ghost use Rattle.std.specs.Prelude.{◌≡◌, ◌==◌, ◌&&◌, ◌++◌, not, nat_lt, nat_le, map, length, Some, is_some, IfOk, option_copied, string_bytes};
ghost use Rattle.std.specs.List.{list_any};
ghost use Rattle.std.specs.Option.{option_map, option_and_then};
ghost use Rattle.std.specs.Cow.{cow_str_bytes};
ghost use Rattle.std.specs.Result.{result_ok};
ghost use Rattle.keysym_core.specs.Names.{text};
ghost use Rattle.compose_lex.specs.Escape.{text_of};
ghost use Rattle.compose_lint.specs.Productions as words;

use crate::production::Written;
use compose_lex::{LexFault, unescape};
use keysym_core::{Keysym, Names};
use smallvec::SmallVec;
use std::alloc::{AllocError, Global};
use std::borrow::CowStr;
use std::marker::Model;

/// The keysyms of a sequence. Up to eight take no memory of their own.
type Sequence = SmallVec<Keysym, 8>;

/// A definition: a sequence of keysyms, and a text, which is a part of the line if it is written
/// there without escapes.
#[derive(Drop)]
pub(crate) struct LineDefinition<'a> {
    pub(crate) sequence: Sequence,
    pub(crate) text: CowStr<'a, Global>,
}

impl<'a> Model for LineDefinition<'a> {
    ghost use Rattle.std.specs.Cow.{cow_str_bytes};
    ghost use Rattle.compose_model.specs.Table.{Definition};

    ghost Value = { Definition };

    ghost view = { λ d. record { sequence = d.sequence.items; text = cow_str_bytes d.text } };
}

impl<'a> LineDefinition<'a> {
    ghost use Rattle.std.specs.Prelude.{◌≡◌};

    pub(crate) fn sequence(&self) -> &[Keysym]
        ensures { result.now ≡ self.now.sequence }
    {
        self.sequence.as_slice()
    }

    pub(crate) fn text(&self) -> &str
        ensures { result.now ≡ self.now.text }
    {
        self.text.as_str()
    }
}

/// Returns the definition of a line with these keys, if the line is a production. One with an
/// unknown or ignored keysym, or with an invalid text, has no definition. O(bytes).
pub(crate) fn line_definition<'a>(
    alloc: Global,
    names: &Names,
    events: &[&str],
    written: Option<&Written<'a>>,
) -> Result<Option<LineDefinition<'a>>, AllocError>
    ensures { IfOk result
        (λ d. d
        ≡ option_and_then
        (λ w. words.definition_given names.now
        (words.production_with (map (λ e. e.now) events.now) w)) (option_copied written.entry)) }
{
    match written {
        Some(written) => definition_given(alloc, names, events, written),
        None => Ok(None),
    }
}

/// Returns the definition of a production, if its keysyms and its text are valid.
fn definition_given<'a>(
    alloc: Global,
    names: &Names,
    events: &[&str],
    written: &Written<'a>,
) -> Result<Option<LineDefinition<'a>>, AllocError>
    ensures { IfOk result
        (λ d. d
        ≡ words.definition_given names.now
        (words.production_with (map (λ e. e.now) events.now) written.now)) }
{
    let Some(sequence) = fed_sequence(alloc, names, events)? else {
        return Ok(None);
    };
    match text_given(alloc, names, written.raw_text(), written.result_name())? {
        Some(text) => Ok(Some(LineDefinition { sequence, text })),
        None => Ok(None),
    }
}

/// Returns the keysyms of these keys, if each is known and none is ignored.
fn fed_sequence(
    alloc: Global,
    names: &Names,
    events: &[&str],
) -> Result<Option<Sequence>, AllocError>
    ensures { IfOk result
        (λ sequence. option_map (λ keysyms. keysyms.items) sequence
        ≡ words.fed_sequence names.now (map (λ e. e.now) events.now)) }
{
    let mut sequence = SmallVec::new(alloc);
    for event in events {
        let Some(keysym) = fed_keysym(names, event) else {
            return Ok(None);
        };
        sequence.push(keysym)?;
    }
    Ok(Some(sequence))
}

/// Returns the keysym of a key, if it is known and not ignored.
fn fed_keysym(names: &Names, event: &str) -> Option<Keysym>
    ensures { result ≡ words.fed_keysym names.now event.now }
{
    let keysym = names.lookup(event)?;
    if keysym.is_ignored() {
        return None;
    }
    Some(keysym)
}

/// Returns the text of a string, or otherwise of a result keysym, if both are valid.
fn text_given<'a>(
    alloc: Global,
    names: &Names,
    raw: Option<&'a str>,
    name: Option<&str>,
) -> Result<Option<CowStr<'a, Global>>, AllocError>
    ensures { IfOk result
        (λ text. option_map cow_str_bytes text
        ≡ words.text_given names.now (option_copied raw.entry) (option_copied name.entry)) }
{
    match raw {
        Some(raw) => string_beside(alloc, names, raw, name),
        None => name_given(alloc, names, name),
    }
}

/// Returns the text of a string, if it is valid and the name beside it, if there is one, is known.
fn string_beside<'a>(
    alloc: Global,
    names: &Names,
    raw: &'a str,
    name: Option<&str>,
) -> Result<Option<CowStr<'a, Global>>, AllocError>
    ensures { IfOk result
        (λ text. option_map cow_str_bytes text
        ≡ words.text_given names.now (Some raw.now) (option_copied name.entry)) }
{
    if is_named(names, name) {
        return string_text(alloc, raw);
    }
    Ok(None)
}

/// Returns whether the name is known, if there is one.
fn is_named(names: &Names, name: Option<&str>) -> bool
    ensures { result ≡ is_some (words.name_given names.now (option_copied name.entry)) }
{
    match name {
        Some(name) => names.lookup(name).is_some(),
        None => true,
    }
}

/// Returns the text of the keysym with this name, if it is known; an empty text if there is no
/// name.
fn name_given<'a>(
    alloc: Global,
    names: &Names,
    name: Option<&str>,
) -> Result<Option<CowStr<'a, Global>>, AllocError>
    ensures { IfOk result
        (λ text. option_map cow_str_bytes text
        ≡ words.name_given names.now (option_copied name.entry)) }
{
    let Some(name) = name else {
        return Ok(Some(CowStr::Borrowed("")));
    };
    match names.lookup(name) {
        Some(keysym) => Ok(Some(CowStr::Owned(keysym_text(alloc, names, keysym)?))),
        None => Ok(None),
    }
}

/// Returns the text of a keysym; an empty text if it has no character.
fn keysym_text(alloc: Global, names: &Names, keysym: Keysym) -> Result<String, AllocError>
    ensures { IfOk result (λ given. string_bytes given ≡ text names.now keysym) }
{
    let mut given = String::new(alloc);
    if let Some(character) = names.text_of(keysym) {
        given.push(character)?;
    }
    Ok(given)
}

/// Returns the raw text with its escapes replaced, if it is valid. Without a backslash that is the
/// raw text itself. O(bytes).
pub(crate) fn string_text<'a>(
    alloc: Global,
    raw: &'a str,
) -> Result<Option<CowStr<'a, Global>>, AllocError>
    ensures { IfOk result
        (λ text. option_map cow_str_bytes text ≡ result_ok (text_of raw.now)) }
{
    if is_plain(raw) {
        return Ok(Some(CowStr::Borrowed(raw)));
    }
    match unescape(alloc, raw) {
        Ok(text) => Ok(Some(CowStr::Owned(text))),
        Err(LexFault::NoMemory) => Err(AllocError),
        Err(_) => Ok(None),
    }
}

/// Returns whether the raw text has 1 to 255 bytes, none of them a backslash. O(bytes).
fn is_plain(raw: &str) -> bool
    ensures { result
        ≡ (nat_lt 0 (length raw.now) && nat_le (length raw.now) 255
        && not (list_any (λ b. b == 92) raw.now)) }
{
    !raw.is_empty() && raw.len() <= 255 && !raw.as_bytes().contains(&b'\\')
}
