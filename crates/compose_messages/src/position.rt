//! The position of a fault.
ghost use Rattle.std.specs.Prelude.{◌≡◌};
ghost use Rattle.compose_messages.specs.Places.{position_of, line_of};

use crate::lines::source_line;
use crate::offsets::{column_at, offset_of};
use compose_read::{ReadFault, Sources};
use std::fmt;

/// A place in a file.
#[derive(Clone, Copy, Debug, PartialEq, Eq, Drop)]
pub struct Position {
    /// The number of the line, counted from 1.
    pub line: usize,
    /// The column in characters, counted from 1.
    pub column: usize,
}

impl fmt::Display for Position {
    ghost use Rattle.std.specs.Prelude.{◌++◌, ◌∷◌, Some};
    ghost use Rattle.std.specs.Fmt.{decimal};

    ghost output = { λ p. Some (decimal p.line ++ 58 ∷ decimal p.column) };

    fn fmt<W: fmt::Write>(&self, f: &mut fmt::Formatter<W>) -> fmt::Result {
        let (line, column) = (self.line, self.column);
        write!(f, "{line}:{column}")
    }
}

/// Returns the index of the source that has the fault, and its position there, or `None` if the
/// fault is not in a line. O(bytes of the source).
pub fn fault_position(sources: &Sources, fault: &ReadFault) -> Option<(usize, Position)>
    ensures { result ≡ position_of sources.now fault.now }
{
    let (source, line) = line_of(fault)?;
    let bytes = source_line(sources, source, line);
    let column = column_at(bytes, offset_of(bytes, fault));
    Some((source, Position { line, column }))
}

/// Returns the index of the source and the number of the line of a fault, if it is in a line. O(1).
pub fn line_of(fault: &ReadFault) -> Option<(usize, usize)>
    ensures { result ≡ line_of fault.now }
{
    match fault {
        ReadFault::MissingRoot | ReadFault::NoMemory => None,
        ReadFault::NotUtf8 { source, line }
        | ReadFault::Lex { source, line, .. }
        | ReadFault::UnknownKeysym { source, line, .. }
        | ReadFault::IgnoredKeysym { source, line, .. }
        | ReadFault::MissingInclude { source, line }
        | ReadFault::IncludeDepth { source, line }
        | ReadFault::TooManyLines { source, line }
        | ReadFault::TooManyDefinitions { source, line } => Some((*source, *line)),
    }
}
