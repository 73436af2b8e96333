//! The positions and the messages of many faults.
ghost use Rattle.std.specs.Prelude.{◌≡◌, [], drop, get_or};
ghost use Rattle.compose_text.specs.Lines.{lines_of};
ghost use Rattle.compose_messages.specs.Places.{bytes_at};

use crate::lines::without_mark;
use crate::message::Message;
use crate::offsets::{column_at, offset_of};
use crate::position::{Position, line_of};
use crate::reading::message_in;
use compose_read::{ReadFault, Sources};
use compose_text::first_line;
use std::marker::Model;

/// The place of a fault, and what is wrong there.
#[derive(Clone, Copy, Debug)]
pub struct PlacedFault<'a> {
    /// The index of the source that has the fault, counted from 0.
    pub source: usize,
    /// Its position there.
    pub position: Position,
    /// What is wrong there.
    pub message: Message<'a>,
}

/// The lines of sources, for faults in them. The line of a fault is looked for from the line of the
/// fault before it on, so that all faults of a source in the order of their lines take O(bytes)
/// together.
#[derive(Drop)]
pub struct FaultLines<'a> {
    sources: &'a Sources<'a>,
    source: usize,
    passed: usize,
    rest: &'a [u8],
}

impl<'a> Model for FaultLines<'a> {
    ghost use Rattle.std.specs.Prelude.{◌≡◌, List, drop};
    ghost use Rattle.compose_text.specs.Lines.{lines_of};
    ghost use Rattle.compose_read.specs.Lines.{Source};
    ghost use Rattle.compose_messages.specs.Places.{bytes_at};

    ghost Value = { List Source };

    ghost view = { λ l. l.sources.now };

    ghost invariant = { λ l. lines_of l.rest.now
        ≡ drop l.passed (lines_of (bytes_at l.sources.now l.source)) };
}

impl<'a> FaultLines<'a> {
    ghost use Rattle.std.specs.Prelude.{◌≡◌, Some, MatchOption};
    ghost use Rattle.compose_messages.specs.Messages.{message_text, read_message_text};
    ghost use Rattle.compose_messages.specs.Places.{line_at, position_of};

    /// Returns the lines of these sources. O(1).
    pub fn new(sources: &'a Sources<'a>) -> FaultLines<'a>
        ensures { result ≡ sources.now }
    {
        FaultLines {
            sources,
            source: 0,
            passed: 0,
            rest: bytes_at(sources, 0),
        }
    }

    /// Returns the place of a fault of these sources and what is wrong there; `None` if the fault
    /// is not in a line. It takes the time from the line of the fault before it on, or that of the
    /// whole source if this line stands before that one, or in another source.
    pub fn placed(&mut self, fault: &ReadFault) -> Option<PlacedFault<'a>>
        ensures placed { MatchOption result (position_of self.old fault.now ≡ None)
            (λ placed. (position_of self.old fault.now ≡ Some (placed.source, placed.position))
            × (message_text placed.message ≡ read_message_text self.old fault.now)) }
        ensures same { self.new ≡ self.old }
    {
        let (source, line) = line_of(fault)?;
        let bytes = self.line(source, line);
        let column = column_at(bytes, offset_of(bytes, fault));
        Some(PlacedFault {
            source,
            position: Position { line, column },
            message: message_in(self.sources, bytes, fault),
        })
    }

    /// Returns the line with this number, counted from 1, of the source with this index; nothing if
    /// there is none.
    fn line(&mut self, source: usize, line: usize) -> &'a [u8]
        ensures line { result.now ≡ line_at self.old source line }
        ensures same { self.new ≡ self.old }
    {
        let index = line.saturating_sub(1);
        if source != self.source || index < self.passed {
            self.source = source;
            self.passed = 0;
            self.rest = bytes_at(self.sources, source);
        }
        self.rest = after_lines(self.rest, index - self.passed);
        self.passed = index;
        line_in_front(self.rest)
    }
}

/// Returns the bytes of the source with this index, without a byte order mark; nothing if there is
/// no such source. O(1).
fn bytes_at<'a>(sources: &'a Sources<'a>, source: usize) -> &'a [u8]
    ensures { result.now ≡ bytes_at sources.now source }
{
    if source >= sources.count() {
        return &[];
    }
    without_mark(sources.bytes(source))
}

/// Returns what follows so many lines; nothing if there are no more lines. O(bytes of these lines).
fn after_lines(bytes: &[u8], count: usize) -> &[u8]
    ensures { lines_of result.now ≡ drop count (lines_of bytes.now) }
{
    let mut rest = bytes;
    let mut left = count;
    while let Some((_, behind)) = first_line(rest) {
        if left == 0 {
            return rest;
        }
        left -= 1;
        rest = behind;
    }
    &[]
}

/// Returns the first line of these bytes; nothing if there is none.
fn line_in_front(bytes: &[u8]) -> &[u8]
    ensures { result.now ≡ get_or (lines_of bytes.now) 0 [] }
{
    match first_line(bytes) {
        Some((line, _)) => line,
        None => &[],
    }
}
