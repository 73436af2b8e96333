//! The faults of all lines.
ghost use Rattle.std.specs.Prelude.{◌≡◌, [], ◌∷◌, take, IfOk};
ghost use Rattle.std.specs.List.{filter_map};
ghost use Rattle.compose_read.specs.Read.{max_lines};
ghost use Rattle.compose_read.specs.Faults.{fault_of, faults_of};
ghost use Rattle.compose_read.specs.Visits.{visit_of};
ghost use Rattle.compose_read.specs.declared.ReadFault.TheVariants.{MissingRoot};

use crate::ReadFault;
use crate::draft::Draft;
use crate::line::{Events, Place, read_line};
use crate::reading::MAX_LINES;
use crate::sources::Sources;
use crate::visits::{VisitedLine, Visits};
use arrayvec::ArrayVec;
use keysym_core::Names;
use std::alloc::{AllocError, Global};

/// Returns the faults of the lines that are read from the root, in reading order: the first `most`
/// of them. If no source has the name of the root, that is the only fault. At most the first
/// 1,000,000 lines are read, and definitions are not counted: only
/// [`read_definitions`](crate::read_definitions) reports that there are too many lines or
/// definitions. O(bytes of the lines that are visited) time, and memory for the faults and one
/// definition.
///
/// Errors: `AllocError` if memory runs out.
pub fn read_faults(
    alloc: Global,
    names: &Names,
    sources: &Sources,
    root: &str,
    most: usize,
) -> Result<Vec<ReadFault>, AllocError>
    ensures { IfOk result
        (λ faults. faults.items ≡ take most (faults_of names.now sources.now root.now)) }
{
    match sources.visits(root) {
        Some(visits) => faults_in(alloc, names, sources, visits, most),
        None => missing_root(alloc, most),
    }
}

/// Returns the fault of a root whose name no source has, unless `most` is 0.
fn missing_root(alloc: Global, most: usize) -> Result<Vec<ReadFault>, AllocError>
    ensures { IfOk result (λ faults. faults.items ≡ take most (MissingRoot ∷ [])) }
{
    let mut faults = Vec::new(alloc);
    if most > 0 {
        faults.push(ReadFault::MissingRoot)?;
    }
    Ok(faults)
}

/// Returns the first `most` faults of these lines; at most 1,000,000 lines are read.
fn faults_in(
    alloc: Global,
    names: &Names,
    sources: &Sources,
    mut visits: Visits<'_>,
    most: usize,
) -> Result<Vec<ReadFault>, AllocError>
    ensures { IfOk result
        (λ faults. faults.items
        ≡ take most
        (filter_map (fault_of names.now sources.now) (take max_lines visits.entry))) }
{
    let mut faults = Vec::new(alloc);
    let mut draft = Draft::new(alloc);
    let mut events = ArrayVec::new();
    let mut lines = 0;
    while faults.len() < most && lines < MAX_LINES {
        let Some(line) = visits.next() else {
            return Ok(faults);
        };
        lines += 1;
        if let Some(fault) = line_fault(names, sources, line, &mut events, &mut draft)? {
            faults.push(fault)?;
        }
    }
    Ok(faults)
}

/// Returns the fault of a line, if it has one. Its definition is left in the draft.
fn line_fault<'a>(
    names: &Names,
    sources: &Sources,
    line: VisitedLine<'a>,
    events: &mut Events<'a>,
    draft: &mut Draft,
) -> Result<Option<ReadFault>, AllocError>
    ensures { IfOk result (λ fault. fault ≡ fault_of names.now sources.now (visit_of line.entry)) }
{
    let place = Place {
        source: line.source,
        line: line.line,
        depth: line.depth,
    };
    match read_line(names, sources, place, line.bytes, false, events, draft) {
        Ok(_) => Ok(None),
        Err(ReadFault::NoMemory) => Err(AllocError),
        Err(fault) => Ok(Some(fault)),
    }
}
