//! The fault of a line by itself.
ghost use Rattle.std.specs.Prelude.{◌≡◌, ℕ, List, map, IfOk, option_copied};
ghost use Rattle.std.specs.Result.{result_err};
ghost use Rattle.keysym_core.specs.Names.{value};
ghost use Rattle.compose_read.specs.Read as words;
ghost use Rattle.compose_read.specs.declared.ReadFault.TheVariants.{Lex};
ghost use Rattle.compose_skip.specs.Faulty.{own_fault};
ghost use Rattle.compose_skip.specs.Places.{visit};

use arrayvec::ArrayVec;
use compose_lex::{LexFault, LineContent, lex_line_into, unescape};
use compose_read::ReadFault;
use keysym_core::Names;
use std::alloc::{AllocError, Global};

/// The position of a line: the index of its source, counted from 0, and its number, counted from 1.
#[derive(Clone, Copy)]
pub(crate) struct Place {
    pub(crate) source: usize,
    pub(crate) line: usize,
}

/// The names of the events of the last line that was read. The list is cleared for each line.
pub(crate) type Events<'a> = ArrayVec<&'a str, 32>;

/// Returns the fault of the line at this position by itself, if it has one. O(bytes).
pub(crate) fn line_fault<'a>(
    alloc: Global,
    names: &Names,
    place: Place,
    bytes: &'a [u8],
    events: &mut Events<'a>,
) -> Result<Option<ReadFault>, AllocError>
    ensures { IfOk result (λ fault. fault ≡ own_fault names.now (visit place bytes.now)) }
{
    let (source, line) = (place.source, place.line);
    let Ok(text) = str::from_utf8(bytes) else {
        return Ok(Some(ReadFault::NotUtf8 { source, line }));
    };
    match lex_line_into(text, events) {
        Err(fault) => Ok(Some(lex_fault(place, fault))),
        Ok(LineContent::Blank) => Ok(None),
        Ok(LineContent::Include(_raw)) => Ok(None),
        Ok(
            LineContent::Production {
                raw_text,
                result_name,
            },
        ) => production_fault(
            alloc,
            names,
            place,
            events.as_slice(),
            raw_text,
            result_name,
        ),
    }
}

/// Returns the fault of a part of the line at this position.
fn lex_fault(place: Place, fault: LexFault) -> ReadFault
    ensures { result ≡ Lex place.source place.line fault }
{
    let (source, line) = (place.source, place.line);
    ReadFault::Lex {
        source,
        line,
        fault,
    }
}

/// Returns the fault of the production with these parts, if it has one.
fn production_fault(
    alloc: Global,
    names: &Names,
    place: Place,
    events: &[&str],
    raw_text: Option<&str>,
    result_name: Option<&str>,
) -> Result<Option<ReadFault>, AllocError>
    ensures { (bytes : List ℕ) → IfOk result
        (λ fault. fault
        ≡ result_err
        (words.definition_of names.now (visit place bytes) (map (λ e. e.now) events.now)
        (option_copied raw_text.entry) (option_copied result_name.entry))) }
{
    if let Some(fault) = events_fault(names, place, events) {
        return Ok(Some(fault));
    }
    if let Some(fault) = text_fault(alloc, place, raw_text)? {
        return Ok(Some(fault));
    }
    Ok(result_fault(names, place, events.len(), result_name))
}

/// Returns the fault of the first event that has one.
fn events_fault(names: &Names, place: Place, events: &[&str]) -> Option<ReadFault>
    ensures { (bytes : List ℕ) → result
        ≡ result_err
        (words.sequence_of names.now (visit place bytes) 0 (map (λ e. e.now) events.now)) }
{
    for (index, event) in events.iter().enumerate() {
        if let Some(fault) = event_fault(names, place, index, event) {
            return Some(fault);
        }
    }
    None
}

/// Returns the fault of the event at this index, if it has one.
fn event_fault(names: &Names, place: Place, index: usize, event: &str) -> Option<ReadFault>
    ensures { (bytes : List ℕ) → result
        ≡ result_err
        (words.event_keysym (visit place bytes) index (value names.now event.now)) }
{
    let (source, line) = (place.source, place.line);
    match names.lookup(event) {
        None => Some(ReadFault::UnknownKeysym {
            source,
            line,
            index,
        }),
        Some(keysym) if keysym.is_ignored() => Some(ReadFault::IgnoredKeysym {
            source,
            line,
            index,
        }),
        Some(_) => None,
    }
}

/// Returns the fault of a raw text, if there is one and it has a fault.
fn text_fault(
    alloc: Global,
    place: Place,
    raw_text: Option<&str>,
) -> Result<Option<ReadFault>, AllocError>
    ensures { (bytes : List ℕ) → IfOk result
        (λ fault. fault
        ≡ result_err (words.string_text (visit place bytes) (option_copied raw_text.entry))) }
{
    let Some(raw) = raw_text else {
        return Ok(None);
    };
    match unescape(alloc, raw) {
        Ok(_) => Ok(None),
        Err(LexFault::NoMemory) => Err(AllocError),
        Err(fault) => Ok(Some(lex_fault(place, fault))),
    }
}

/// Returns the fault of the name of a result keysym, if there is one and it has a fault; `events`
/// is the number of events before it.
fn result_fault(
    names: &Names,
    place: Place,
    events: usize,
    result_name: Option<&str>,
) -> Option<ReadFault>
    ensures { (bytes : List ℕ) → result
        ≡ result_err
        (words.result_text names.now (visit place bytes) events
        (option_copied result_name.entry)) }
{
    let name = result_name?;
    match names.lookup(name) {
        Some(_) => None,
        None => Some(ReadFault::UnknownKeysym {
            source: place.source,
            line: place.line,
            index: events,
        }),
    }
}
