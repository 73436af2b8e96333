//! Reading one line: nothing, a definition, an included source, or a fault.
ghost use Rattle.std.specs.Prelude.{◌≡◌, ◌≤◌, ◌<◌, ℕ, List, [], map, length, Option, Some, None, Ok, Err, IfOk, IfErr, IfSome, OnOk, IsTrue, MatchOption, IsUtf8, option_copied};
ghost use Rattle.std.specs.List.{list_all};
ghost use Rattle.keysym_core.specs.Names.{text, value};
ghost use Rattle.compose_lex.specs.Line.{include};
ghost use Rattle.compose_model.specs.Table.{is_definition};
ghost use Rattle.compose_read.specs.Lines.{included_by};
ghost use Rattle.compose_read.specs.Read.{event_keysym, sequence_of, string_text, result_text, definition_of, include_fault};
ghost use Rattle.compose_read.specs.ReadReturns.{ReadReturns};
ghost use Rattle.compose_read.specs.Progress.{visit, located_fault, no_definition, keysym_text, FindsLine};
ghost use Rattle.compose_read.specs.Rows.{with_row};
ghost use Rattle.compose_read.specs.Sequence.{is_fed, AreFed};

use crate::ReadFault;
use crate::draft::Draft;
use crate::sources::Sources;
use arrayvec::ArrayVec;
use compose_lex::{LexFault, LineContent, lex_line_into};
use keysym_core::{Keysym, Names};
use std::alloc::AllocError;

/// The greatest number of nested includes.
pub(crate) const MAX_DEPTH: usize = 8;

/// The position of a line: the index of its source, counted from 0, its number in the source,
/// counted from 1, and the number of includes that lead to it.
#[derive(Clone, Copy)]
pub(crate) struct Place {
    pub(crate) source: usize,
    pub(crate) line: usize,
    pub(crate) depth: usize,
}

/// The result of reading a line. Its definition is left in the draft.
#[derive(Drop)]
pub(crate) enum Found {
    Nothing,
    Include(usize),
    Definition,
}

/// The names of the events of the last line that was read. The list is cleared for each line.
pub(crate) type Events<'a> = ArrayVec<&'a str, 32>;

/// Reads the line at this position. If it is known to be UTF-8, that is not checked again.
pub(crate) fn read_line<'a>(
    names: &Names,
    sources: &Sources,
    place: Place,
    bytes: &'a [u8],
    is_text: bool,
    events: &mut Events<'a>,
    draft: &mut Draft,
) -> Result<Found, ReadFault>
    requires { IsTrue is_text → IsUtf8 bytes.now }
    ensures finds { FindsLine names.now sources.now (visit place bytes.now) draft.new.row result }
    ensures kept { OnOk result (draft.new.table ≡ draft.old.table) }
{
    let (source, line) = (place.source, place.line);
    let Some(text) = line_text(bytes, is_text) else {
        return Err(ReadFault::NotUtf8 { source, line });
    };
    match lex_line_into(text, events) {
        Err(fault) => Err(lex_fault(place, fault)),
        Ok(LineContent::Blank) => Ok(Found::Nothing),
        Ok(LineContent::Include(name)) => Ok(Found::Include(include(sources, place, name)?)),
        Ok(
            LineContent::Production {
                raw_text,
                result_name,
            },
        ) => {
            read_production(
                names,
                place,
                events.as_slice(),
                raw_text,
                result_name,
                draft,
            )?;
            Ok(Found::Definition)
        }
    }
}

/// Returns the line as text, if it is UTF-8. If that is known already, it is not checked.
fn line_text(bytes: &[u8], is_text: bool) -> Option<&str>
    requires { IsTrue is_text → IsUtf8 bytes.now }
    ensures { MatchOption result (¬ (IsUtf8 bytes.now))
        (λ text. (text.now ≡ bytes.now) × IsUtf8 bytes.now) }
{
    if is_text {
        return Some(unsafe { str::from_utf8_unchecked(bytes) });
    }
    str::from_utf8(bytes).ok()
}

/// Returns the index of the source with the name in an include.
fn include(sources: &Sources, place: Place, name: &str) -> Result<usize, ReadFault>
    ensures exact { (bytes : List ℕ)
        → ReadReturns (λ (s : ℕ). no_definition) result
        (include_fault sources.now (visit place bytes) name.now) }
    ensures found { IfOk result
        (λ s. (included_by sources.now (Ok (include name.now)) ≡ Some s) × (place.depth < 8)
        × (s < length sources.now)) }
{
    let (source, line) = (place.source, place.line);
    let included = sources
        .index_of(name)
        .ok_or(ReadFault::MissingInclude { source, line })?;
    if place.depth >= MAX_DEPTH {
        return Err(ReadFault::IncludeDepth { source, line });
    }
    Ok(included)
}

/// Returns the fault of a part of the line at this position.
fn lex_fault(place: Place, fault: LexFault) -> ReadFault
    ensures { result ≡ located_fault place fault }
{
    let (source, line) = (place.source, place.line);
    match fault {
        LexFault::NoMemory => ReadFault::NoMemory,
        fault => ReadFault::Lex {
            source,
            line,
            fault,
        },
    }
}

/// Reads the definition of a production into the draft.
fn read_production(
    names: &Names,
    place: Place,
    events: &[&str],
    raw_text: Option<&str>,
    result_name: Option<&str>,
    draft: &mut Draft,
) -> Result<(), ReadFault>
    requires { (0 < length events.now) × (length events.now ≤ 32) }
    ensures exact { (bytes : List ℕ)
        → ReadReturns (λ _. draft.new.row) result
        (definition_of names.now (visit place bytes) (map (λ e. e.now) events.now)
        (option_copied raw_text.entry) (option_copied result_name.entry)) }
    ensures definition { OnOk result (IsTrue (is_definition draft.new.row)) }
    ensures kept { OnOk result (draft.new.table ≡ draft.old.table) }
{
    draft.begin();
    read_sequence(names, place, events, draft)?;
    match raw_text {
        Some(raw) => {
            read_string(place, raw, draft)?;
            result_keysym(names, place, events.len(), result_name)?;
        }
        None => {
            let keysym = result_keysym(names, place, events.len(), result_name)?;
            push_keysym_text(names, keysym, draft)?;
        }
    }
    Ok(())
}

/// Reads the keysyms of the events into a draft that has none of them yet.
fn read_sequence(
    names: &Names,
    place: Place,
    events: &[&str],
    draft: &mut Draft,
) -> Result<(), ReadFault>
    requires { draft.old.row.sequence ≡ [] }
    ensures exact { (bytes : List ℕ)
        → ReadReturns (λ _. draft.new.row.sequence) result
        (sequence_of names.now (visit place bytes) 0 (map (λ e. e.now) events.now)) }
    ensures fed { OnOk result
        (AreFed draft.new.row.sequence × (length draft.new.row.sequence ≡ length events.now)) }
    ensures kept { OnOk result
        ((draft.new.table ≡ draft.old.table) × (draft.new.row.text ≡ draft.old.row.text)) }
{
    for (index, event) in events.iter().enumerate() {
        draft.push_keysym(event_keysym(names, place, index, event)?)?;
    }
    Ok(())
}

/// Returns the keysym of the event at this index.
fn event_keysym(names: &Names, place: Place, index: usize, event: &str) -> Result<Keysym, ReadFault>
    ensures exact { (bytes : List ℕ)
        → ReadReturns (λ (k : ℕ). k) result
        (event_keysym (visit place bytes) index (value names.now event.now)) }
    ensures fed { IfOk result (λ k. IsTrue (is_fed k)) }
{
    let (source, line) = (place.source, place.line);
    let keysym = names.lookup(event).ok_or(ReadFault::UnknownKeysym {
        source,
        line,
        index,
    })?;
    if keysym.is_ignored() {
        return Err(ReadFault::IgnoredKeysym {
            source,
            line,
            index,
        });
    }
    Ok(keysym)
}

/// Reads the text that a raw text stands for into a draft that has no text yet.
fn read_string(place: Place, raw: &str, draft: &mut Draft) -> Result<(), ReadFault>
    requires { draft.old.row.text ≡ [] }
    ensures exact { (bytes : List ℕ)
        → ReadReturns (λ _. Some draft.new.row.text) result
        (string_text (visit place bytes) (Some raw.now)) }
    ensures fits { OnOk result (length draft.new.row.text ≤ 255) }
    ensures kept { OnOk result
        ((draft.new.table ≡ draft.old.table) × (draft.new.row.sequence ≡ draft.old.row.sequence)) }
{
    match draft.push_raw_text(raw) {
        Ok(()) => Ok(()),
        Err(fault) => Err(lex_fault(place, fault)),
    }
}

/// Returns the result keysym, if the production names one.
fn result_keysym(
    names: &Names,
    place: Place,
    events: usize,
    name: Option<&str>,
) -> Result<Option<Keysym>, ReadFault>
    ensures { (bytes : List ℕ)
        → ReadReturns (keysym_text names.now) result
        (result_text names.now (visit place bytes) events (option_copied name.entry)) }
{
    let Some(name) = name else {
        return Ok(None);
    };
    let keysym = names.lookup(name).ok_or(ReadFault::UnknownKeysym {
        source: place.source,
        line: place.line,
        index: events,
    })?;
    Ok(Some(keysym))
}

/// Appends the text of the result keysym, if there is one, to a draft that has no text yet.
fn push_keysym_text(
    names: &Names,
    keysym: Option<Keysym>,
    draft: &mut Draft,
) -> Result<(), AllocError>
    requires { draft.old.row.text ≡ [] }
    ensures same { OnOk result
        (draft.new
        ≡ with_row draft.old
        (record {
          sequence = draft.old.row.sequence;
          text =
              keysym_text names.now keysym;
        })) }
    ensures fits { OnOk result (length draft.new.row.text ≤ 255) }
{
    if let Some(keysym) = keysym {
        if let Some(character) = names.text_of(keysym) {
            draft.push_character(character)?;
        }
    }
    Ok(())
}
