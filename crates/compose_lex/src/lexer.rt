//! A line, read token by token from the left. Its fault is at the first place where the expected
//! token is missing.
ghost use Rattle.std.specs.Prelude.{◌≡◌, ◌-◌, ℕ, List, [], length, map, option_copied, drop, false, true, IfOk, MatchOption};
ghost use Rattle.std.specs.Char.{is_ascii_alphabetic};
ghost use Rattle.compose_lex.specs.Line.{IsLine, include};
ghost use Rattle.compose_lex.specs.Fault as fault;
ghost use Rattle.compose_lex.specs.Lexed.{reading, content_reading, event_names, names_in, Is};
ghost use Rattle.compose_lex.specs.Steps.{with_prefix, IsNext};

use crate::token::{byte_at, end_at, name_at, offset, skip_blanks, split_name, string_at};
use crate::{LexFault, Line, law_right_reading};
use arrayvec::ArrayVec;

/// The content of a line apart from the names of its events; its tokens are slices of the line.
#[derive(Clone, Copy, Debug, PartialEq, Eq, Drop)]
pub enum LineContent<'a> {
    /// Only blanks, and perhaps a comment.
    Blank,
    /// An include, with the raw text of its string.
    Include(&'a str),
    /// A production: the raw text of its string, the name of its result keysym, or both.
    Production {
        /// The part between the quotes of the string, with its escapes as written.
        raw_text: Option<&'a str>,
        /// The name of the result keysym, not looked up.
        result_name: Option<&'a str>,
    },
}

/// What follows an event: the colon, or the `<` of a further event, each with the rest of the line
/// after it.
#[derive(Clone, Copy, Debug, Drop)]
pub(crate) enum Next<'a> {
    Colon(&'a str),
    Event(&'a str),
}

/// The names of the events of a production.
type Events<'a> = ArrayVec<&'a str, 32>;

/// The result of a production: its raw text, the name of its keysym, and the rest of the line.
type Outcome<'a> = (Option<&'a str>, Option<&'a str>, &'a str);

/// Returns the fault if no event begins where one may: `!`, `~` or a letter begins a modifier list.
fn event_fault(line_len: usize, rest: &str) -> LexFault
    ensures { result ≡ fault.event_fault line_len rest.now }
{
    let at = offset(line_len, rest);
    match rest.as_bytes().first() {
        Some(byte) if *byte == b'!' || *byte == b'~' || byte.is_ascii_alphabetic() => {
            LexFault::ModifierList { at }
        }
        _ => LexFault::BadToken { at },
    }
}

/// Reads a name and `>`, after a `<`; returns the name and the rest of the line.
#[inline(always)]
fn event_at(line_len: usize, rest: &str) -> Result<(&str, &str), LexFault>
    ensures { Is (λ x. (x.0.now, x.1.now)) result (fault.event_at line_len rest.now) }
{
    let (name, rest) = name_at(line_len, skip_blanks(rest))?;
    let rest = byte_at(line_len, b'>', skip_blanks(rest))?;
    Ok((name, rest))
}

/// Reads the colon, or the `<` of a further event.
fn next_at(line_len: usize, rest: &str) -> Result<Next<'_>, LexFault>
    ensures { IsNext result line_len rest.now }
{
    match rest.as_bytes().first() {
        Some(b':') => Ok(Next::Colon(&rest[1..])),
        Some(b'<') => Ok(Next::Event(&rest[1..])),
        Some(_) => Err(event_fault(line_len, rest)),
        None => Err(LexFault::BadToken { at: line_len }),
    }
}

/// Appends the names of the further events, up to the colon, to the list, and returns the rest of
/// the line after the colon. O(bytes).
fn events_at<'a>(
    line_len: usize,
    after_event: &'a str,
    events: &mut Events<'a>,
) -> Result<&'a str, LexFault>
    ensures { Is (λ behind. (map (λ e. e.now) events.new.items, behind.now)) result
        (with_prefix (map (λ e. e.now) events.old.items)
        (fault.events_at line_len (32 - length events.old.items) after_event.now)) }
{
    let mut rest = after_event;
    loop {
        match next_at(line_len, skip_blanks(rest))? {
            Next::Colon(behind) => return Ok(behind),
            Next::Event(_) if events.is_full() => return Err(LexFault::TooManyKeysyms),
            Next::Event(behind) => {
                let (name, behind) = event_at(line_len, behind)?;
                events.push(name);
                rest = behind;
            }
        }
    }
}

/// Reads a name, if there is one; returns it and the rest of the line.
fn name_if(rest: &str) -> (Option<&str>, &str)
    ensures name { option_copied result.0 ≡ (fault.name_if rest.now).0 }
    ensures rest { result.1.now ≡ (fault.name_if rest.now).1 }
{
    let (name, behind) = split_name(rest);
    if name.is_empty() {
        return (None, rest);
    }
    (Some(name), behind)
}

/// Reads a string, a name, or a string and a name.
fn result_at(line_len: usize, rest: &str) -> Result<Outcome<'_>, LexFault>
    ensures { Is (λ x. (option_copied x.0, option_copied x.1, x.2.now)) result
        (fault.result_at line_len rest.now) }
{
    match rest.as_bytes().first() {
        None | Some(b'#') => Err(LexFault::NoResult),
        Some(b'"') => {
            let (raw, rest) = string_at(line_len, &rest[1..])?;
            let (name, rest) = name_if(skip_blanks(rest));
            Ok((Some(raw), name, rest))
        }
        Some(_) => {
            let (name, rest) = name_at(line_len, rest)?;
            Ok((None, Some(name), rest))
        }
    }
}

/// Reads a production, after its first `<`.
fn production_at<'a>(
    line_len: usize,
    rest: &'a str,
    events: &mut Events<'a>,
) -> Result<LineContent<'a>, LexFault>
    requires { events.old.items ≡ [] }
    ensures exact { Is (content_reading (map (λ e. e.now) events.new.items)) result
        (fault.production_at line_len rest.now) }
    ensures listed { IfOk result
        (λ content. event_names (content_reading (map (λ e. e.now) events.new.items) content)
        ≡ map (λ e. e.now) events.new.items) }
{
    let (first, rest) = event_at(line_len, rest)?;
    events.push(first);
    let rest = events_at(line_len, rest, events)?;
    let (raw_text, result_name, rest) = result_at(line_len, skip_blanks(rest))?;
    end_at(line_len, skip_blanks(rest))?;
    Ok(LineContent::Production {
        raw_text,
        result_name,
    })
}

/// Reads an include, after the word `include`; returns the raw text of its string.
fn include_at(line_len: usize, rest: &str) -> Result<&str, LexFault>
    ensures { Is (λ raw. include raw.now) result (fault.include_at line_len rest.now) }
{
    let rest = byte_at(line_len, b'"', skip_blanks(rest))?;
    let (raw, rest) = string_at(line_len, rest)?;
    end_at(line_len, skip_blanks(rest))?;
    Ok(raw)
}

/// Returns what follows the word `include` at the beginning, if it is there and no letter, digit or
/// underscore follows it.
fn after_include(rest: &str) -> Option<&str>
    ensures { MatchOption result (fault.is_include rest.now ≡ false)
        (λ behind. (fault.is_include rest.now ≡ true) × (behind.now ≡ drop 7 rest.now)) }
{
    let (word, behind) = split_name(rest);
    (word == "include").then_some(behind)
}

/// Reads a line, after its leading blanks.
#[inline(always)]
fn reading_at<'a>(
    line_len: usize,
    rest: &'a str,
    events: &mut Events<'a>,
) -> Result<LineContent<'a>, LexFault>
    requires { events.old.items ≡ [] }
    ensures exact { Is (content_reading (map (λ e. e.now) events.new.items)) result
        (fault.reading_at line_len rest.now) }
    ensures listed { IfOk result
        (λ content. event_names (content_reading (map (λ e. e.now) events.new.items) content)
        ≡ map (λ e. e.now) events.new.items) }
{
    match rest.as_bytes().first() {
        None | Some(b'#') => Ok(LineContent::Blank),
        Some(b'<') => production_at(line_len, &rest[1..], events),
        Some(_) => match after_include(rest) {
            Some(behind) => Ok(LineContent::Include(include_at(line_len, behind)?)),
            None => Err(event_fault(line_len, rest)),
        },
    }
}

/// Reads a line like `lex_line`, with the names of the events put in the caller's list. The list is
/// left empty if the line has no events, or a fault. Takes no memory and copies no list. O(bytes).
///
/// Errors: the fault of the line.
#[inline(always)]
pub fn lex_line_into<'a>(
    line: &'a str,
    events: &mut ArrayVec<&'a str, 32>,
) -> Result<LineContent<'a>, LexFault>
    ensures exact { Is (content_reading (map (λ e. e.now) events.new.items)) result
        (fault.reading_of line.now) }
    ensures listed { map (λ e. e.now) events.new.items ≡ names_in (fault.reading_of line.now) }
    ensures found { IfOk result
        (λ content. IsLine line.now (content_reading (map (λ e. e.now) events.new.items) content)) }
{
    law_right_reading();
    events.clear();
    let content = reading_at(line.len(), skip_blanks(line), events);
    if content.is_err() {
        events.clear();
    }
    content
}

/// Reads a line; the tokens of the result are slices of the line. Takes no memory. O(bytes).
///
/// Errors: the fault of the line, at the first place where the expected token is missing.
pub fn lex_line<'a>(line: &'a str) -> Result<Line<'a>, LexFault>
    ensures exact { Is reading result (fault.reading_of line.now) }
    ensures found { IfOk result (λ content. IsLine line.now (reading content)) }
{
    let mut events = ArrayVec::new();
    let content = lex_line_into(line, &mut events)?;
    Ok(match content {
        LineContent::Blank => Line::Blank,
        LineContent::Include(raw) => Line::Include(raw),
        LineContent::Production {
            raw_text,
            result_name,
        } => Line::Production {
            events,
            raw_text,
            result_name,
        },
    })
}
