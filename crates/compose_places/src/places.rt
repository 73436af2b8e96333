//! The places of the definitions of a table.
ghost use Rattle.std.specs.Prelude.{◌≡◌, map, filter, take, IfOk};
ghost use Rattle.compose_read.specs.Read.{max_lines};
ghost use Rattle.compose_places.specs.Places.{is_definition_line, place_of, definition_places};

use arrayvec::ArrayVec;
use compose_lex::{LineContent, lex_line_into};
use compose_read::{Sources, Visits};
use std::alloc::{AllocError, Global};

/// The greatest number of lines that are read; an included line counts each time.
pub(crate) const MAX_LINES: usize = 1_000_000;

/// The place of a definition.
#[derive(Clone, Copy, Debug, PartialEq, Eq)]
pub struct DefinitionPlace {
    /// The index of its source among the sources, counted from 0.
    pub source: usize,
    /// The number of its line in that source, counted from 1.
    pub line: usize,
}

/// Returns the places of the definitions that are read from the root, in reading order. Each line
/// that is a production has one, whatever its names are. There are none if no source has the root's
/// name, and those after the first 1,000,000 lines are left out. `Err(AllocError)` if memory runs
/// out. O(bytes of the lines that are visited) time, and memory for the places alone.
pub fn definition_places(
    alloc: Global,
    sources: &Sources,
    root: &str,
) -> Result<Vec<DefinitionPlace>, AllocError>
    ensures { IfOk result (λ places. places.items ≡ definition_places sources.now root.now) }
{
    match sources.visits(root) {
        Some(visits) => places_in(alloc, visits),
        None => Ok(Vec::new(alloc)),
    }
}

/// Returns the places of the definitions among the first 1,000,000 of these lines.
fn places_in(alloc: Global, mut visits: Visits<'_>) -> Result<Vec<DefinitionPlace>, AllocError>
    ensures { IfOk result
        (λ places. places.items
        ≡ map place_of (filter (λ v. is_definition_line v.bytes) (take max_lines visits.entry))) }
{
    let mut places = Vec::new(alloc);
    let mut lines = 0;
    while lines < MAX_LINES {
        let Some(line) = visits.next() else {
            return Ok(places);
        };
        lines += 1;
        if is_definition_line(line.bytes) {
            places.push(DefinitionPlace {
                source: line.source,
                line: line.line,
            })?;
        }
    }
    Ok(places)
}

/// Whether the line is a definition, or would be if its names were known and its text valid.
/// O(bytes).
fn is_definition_line(bytes: &[u8]) -> bool
    ensures { result ≡ is_definition_line bytes.now }
{
    let Ok(text) = str::from_utf8(bytes) else {
        return false;
    };
    let mut events = ArrayVec::new();
    matches!(
        lex_line_into(text, &mut events),
        Ok(LineContent::Production { .. })
    )
}
