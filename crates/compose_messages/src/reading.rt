//! Messages for the faults of sources.
ghost use Rattle.std.specs.Prelude.{◌≡◌, take};
ghost use Rattle.compose_messages.specs.Messages as messages;
ghost use Rattle.compose_messages.specs.Messages.{message_text, lex_message_text, read_message_text, fault_line, expecting};
ghost use Rattle.compose_messages.specs.Tokens as tokens;
ghost use Rattle.compose_messages.specs.Tokens.{expected_after};

use crate::lines::source_line;
use crate::message::Message;
use crate::position::line_of;
use crate::tokens::{expected_after, found_at, is_modifier, named};
use compose_lex::LexFault;
use compose_read::{ReadFault, Sources};

/// Returns the message for a fault of these sources: what is wrong, or what was expected and what
/// was found. O(bytes of its source).
pub fn read_message<'a>(sources: &'a Sources, fault: &ReadFault) -> Message<'a>
    ensures { message_text result ≡ read_message_text sources.now fault.now }
{
    message_in(sources, fault_line(sources, fault), fault)
}

/// Returns the message for a fault of these sources, in this line. O(bytes of the line).
pub(crate) fn message_in<'a>(sources: &'a Sources, line: &'a [u8], fault: &ReadFault) -> Message<'a>
    requires { line.now ≡ fault_line sources.now fault.now }
    ensures { message_text result ≡ read_message_text sources.now fault.now }
{
    match fault {
        ReadFault::MissingRoot => Message::Plain("the manifest lists no file"),
        ReadFault::NotUtf8 { .. } => Message::Plain("the line is not UTF-8"),
        ReadFault::Lex { fault, .. } => lex_message(line, fault),
        ReadFault::UnknownKeysym { index, .. } => {
            Message::Naming("no keysym has the name ", named(line, *index))
        }
        ReadFault::IgnoredKeysym { index, .. } => Message::Naming(
            "a sequence can't have an ignored keysym, as ",
            named(line, *index),
        ),
        ReadFault::MissingInclude { .. } => Message::Quoting(
            "the manifest does not list the included file ",
            named(line, 0),
        ),
        ReadFault::IncludeDepth { source, .. } => depth_message(
            sources.count(),
            name_of(sources, *source),
            named(line, 0),
        ),
        ReadFault::TooManyLines { .. } => Message::Plain("more than 1,000,000 lines are read"),
        ReadFault::TooManyDefinitions { .. } => {
            Message::Plain("more than 100,000 sequences are defined")
        }
        ReadFault::NoMemory => Message::Plain("out of memory"),
    }
}

/// Returns the name of the source with this index; nothing if there is none.
fn name_of<'a>(sources: &'a Sources, source: usize) -> &'a str
    ensures { result.now ≡ messages.name_of sources.now source }
{
    sources.name(source).unwrap_or("")
}

/// Returns the message for more than eight includes that lead to the file `name`, the last of which
/// is in the file `own`. `count` is the number of files of the table. Such a chain has ten files,
/// so with nine or fewer one of them occurs twice.
fn depth_message<'a>(count: usize, own: &str, name: &'a str) -> Message<'a>
    ensures { message_text result ≡ messages.depth_message_text count own.now name.now }
{
    if own == name {
        Message::Quoting(
            "the includes go in a circle: this file includes itself, as ",
            name,
        )
    } else if count <= 9 {
        Message::Quoting(
            "the includes go in a circle: more than eight lead to the file ",
            name,
        )
    } else {
        Message::Quoting("more than eight includes lead to the file ", name)
    }
}

/// Returns the line that has the fault, or nothing.
fn fault_line<'a>(sources: &'a Sources, fault: &ReadFault) -> &'a [u8]
    ensures { result.now ≡ fault_line sources.now fault.now }
{
    match line_of(fault) {
        Some((source, line)) => source_line(sources, source, line),
        None => &[],
    }
}

#[tactic(auto, using(std::proofs::lemmas::List::take_min))]
/// Returns the message for a token at this offset if another one is expected.
fn token_message(line: &[u8], at: usize) -> Message<'_>
    ensures { message_text result ≡ expecting (expected_after (take at line.now)) (tokens.found_at line.now at) }
{
    Message::Expected(
        expected_after(&line[..at.min(line.len())]),
        found_at(line, at),
    )
}

/// Returns the message for the fault of a line.
fn lex_message<'a>(line: &'a [u8], fault: &LexFault) -> Message<'a>
    ensures { message_text result ≡ lex_message_text line.now fault.now }
{
    match fault {
        LexFault::BadToken { at } => token_message(line, *at),
        LexFault::ModifierList { at } if is_modifier(found_at(line, *at)) => {
            Message::Plain("a modifier list stands here, which is not supported")
        }
        LexFault::ModifierList { at } => token_message(line, *at),
        LexFault::UnclosedString { .. } => Message::Plain("the string is not closed"),
        LexFault::UnknownEscape { .. } => Message::Plain("the backslash begins no escape"),
        LexFault::BadCode { .. } => Message::Plain("the code is that of no byte from 1 to 255"),
        LexFault::NoResult => {
            Message::Plain("neither a string nor the name of a keysym follows the colon")
        }
        LexFault::TooManyKeysyms => Message::Plain("a sequence has at most 32 keysyms"),
        LexFault::EmptyText => Message::Plain("the string is empty"),
        LexFault::TextTooLong => Message::Plain("the string has more than 255 bytes"),
        LexFault::TextNotUtf8 => Message::Plain("the string is not UTF-8"),
        LexFault::NoMemory => Message::Plain("out of memory"),
    }
}
