//! The lines of the files that a source includes.
ghost use Rattle.std.specs.Prelude.{◌≡◌, ◌==◌, not, map, filter, take, IfOk};
ghost use Rattle.compose_read.specs.Lines.{Visit};
ghost use Rattle.compose_read.specs.Read.{max_lines};
ghost use Rattle.compose_read.specs.Visits.{visit_of};
ghost use Rattle.compose_lint.specs.Lines.{included_lines, lint_line};

use crate::lines::{LintLine, line_read};
use crate::production::Events;
use arrayvec::ArrayVec;
use compose_read::{Sources, VisitedLine, Visits};
use keysym_core::Names;
use std::alloc::{AllocError, Global};

/// The greatest number of lines read from a source and all that it includes.
const MAX_LINES: usize = 1000000;

/// Returns the lines of other sources that are read from the source with this index, in order:
/// those among the first 1,000,000 lines. O(bytes of the lines that are read).
pub(crate) fn included_lines<'a>(
    alloc: Global,
    names: &Names,
    sources: &'a Sources,
    source: usize,
) -> Result<Vec<LintLine<'a>>, AllocError>
    ensures { IfOk result (λ lines. lines.items ≡ included_lines names.now sources.now source) }
{
    let Some(name) = sources.name(source) else {
        return Ok(Vec::new(alloc));
    };
    match sources.visits(name) {
        Some(visits) => others_in(alloc, names, sources, visits, source),
        None => Ok(Vec::new(alloc)),
    }
}

/// Returns those of these lines that are not of the source with this index.
fn others_in<'a>(
    alloc: Global,
    names: &Names,
    sources: &'a Sources,
    mut visits: Visits<'a>,
    source: usize,
) -> Result<Vec<LintLine<'a>>, AllocError>
    ensures { IfOk result
        (λ others. others.items
        ≡ map (lint_line names.now sources.now)
        (filter (λ v. not (v.source == source)) (take max_lines visits.entry))) }
{
    let mut others = Vec::new(alloc);
    let mut events = ArrayVec::new();
    let mut lines = 0;
    while lines < MAX_LINES {
        let Some(line) = visits.next() else {
            return Ok(others);
        };
        lines += 1;
        if line.source != source {
            others.push(visited_line(alloc, names, sources, line, &mut events)?)?;
        }
    }
    Ok(others)
}

/// Returns the line with its definition and its comment. The names of its keys are left in the list.
/// O(bytes).
fn visited_line<'a>(
    alloc: Global,
    names: &Names,
    _sources: &'a Sources,
    line: VisitedLine<'a>,
    events: &mut Events<'a>,
) -> Result<LintLine<'a>, AllocError>
    ensures { IfOk result (λ l. l ≡ lint_line names.now _sources.now (visit_of line.entry)) }
{
    line_read(alloc, names, line.source, line.line, line.bytes, events)
}
