//! The lines of a table in reading order, one at a time.
ghost use Rattle.std.specs.Prelude.{◌≡◌, ◌≤◌, ◌<◌, ◌+◌, ◌-◌, ◌++◌, ◌∷◌, List, [], length, nat_eq, codes, option_copied, MatchOption, IfSome};
ghost use Rattle.std.specs.List.{starts_with};
ghost use Rattle.compose_lex.specs.Fault.{skip_blanks};
ghost use Rattle.compose_read.specs.Lines.{Source, included, max_depth};
ghost use Rattle.compose_read.specs.Visits.{visit_of, below, left_from, raw_include};

use crate::line::MAX_DEPTH;
use crate::open_source::OpenSource;
use crate::sources::Sources;
use arrayvec::ArrayVec;
use compose_lex::{LineContent, lex_line_into};
use compose_text::{blank_len, first_line};
use std::marker::Model;

/// A line as it is visited in reading order.
#[derive(Clone, Copy, Debug, PartialEq, Eq)]
pub struct VisitedLine<'a> {
    /// The index of its source, counted from 0.
    pub source: usize,
    /// Its number in that source, counted from 1.
    pub line: usize,
    /// The number of includes that lead to it, at most eight.
    pub depth: usize,
    /// Its bytes, without the newline.
    pub bytes: &'a [u8],
}

/// The open sources, each included by the one before it.
type OpenSources<'a> = ArrayVec<OpenSource<'a>, 9>;

/// The lines of a root and all that it includes that are still to be visited, the lines of an
/// included source after the include. It takes no memory. All lines together cost O(bytes of the
/// lines that are visited).
#[derive(Drop)]
pub struct Visits<'a> {
    sources: &'a Sources<'a>,
    opened: OpenSources<'a>,
}

impl<'a> Model for Visits<'a> {
    ghost use Rattle.std.specs.Prelude.{◌≤◌, List, length};
    ghost use Rattle.compose_read.specs.Lines.{Visit};
    ghost use Rattle.compose_read.specs.Visits.{left_from};

    ghost Value = { List Visit };

    ghost view = { λ v. left_from v.sources.now 0 v.opened.items };

    ghost invariant = { λ v. length v.opened.items ≤ 9 };
}

impl Sources<'_> {
    ghost use Rattle.std.specs.Prelude.{◌≡◌, nat_lt, if◌then◌else◌, length, Some, None};
    ghost use Rattle.compose_read.specs.Lines.{source_named, visits};

    /// Returns all lines that are read from the source with the root's name, in reading order;
    /// `None` if no source has that name. O(1).
    pub fn visits(&self, root: &str) -> Option<Visits<'_>>
        ensures { result
            ≡ (if nat_lt (source_named self.now root.now) (length self.now) then Some
            (visits self.now (source_named self.now root.now)) else None) }
    {
        let source = self.index_of(root)?;
        Some(Visits {
            sources: self,
            opened: one_open(OpenSource::new(self, source)),
        })
    }
}

/// Returns a list in which this source alone is open.
fn one_open<'a>(source: OpenSource<'a>) -> OpenSources<'a>
    ensures { result.items ≡ source.entry ∷ [] }
{
    let mut opened = ArrayVec::new();
    opened.push(source);
    opened
}

impl<'a> Iterator for Visits<'a> {
    ghost use Rattle.std.specs.Iterator.{YieldsFirstBy, item_count};
    ghost use Rattle.compose_read.specs.Visits.{visit_of};

    type Item = VisitedLine<'a>;

    ghost next_gives = { YieldsFirstBy visit_of (λ left. left) };

    ghost remaining = { item_count (λ left. left) };

    fn next(&mut self) -> Option<VisitedLine<'a>> {
        let visited = take_line(&mut self.opened)?;
        open_included(self.sources, visited, &mut self.opened);
        Some(visited)
    }
}

/// Returns the next line of the last open source that has one; those that have none are closed.
fn take_line<'a>(opened: &mut OpenSources<'a>) -> Option<VisitedLine<'a>>
    requires { length opened.old.items ≤ 9 }
    ensures lines { (sources : List Source)
        → MatchOption result
        ((left_from sources 0 opened.old.items ≡ [])
        × (left_from sources 0 opened.new.items ≡ []))
        (λ v. left_from sources 0 opened.old.items
        ≡ below sources (max_depth - v.depth) (visit_of v)
        ++ left_from sources 0 opened.new.items) }
    ensures depth { IfSome result
        (λ v. (length opened.new.items ≡ v.depth + 1) × (v.depth ≤ max_depth)) }
    ensures few { length opened.new.items ≤ 9 }
{
    while let Some(top) = opened.pop() {
        if let Some((bytes, rest)) = first_line(top.rest) {
            let (source, line, depth) = (top.source, top.line + 1, opened.len());
            opened.push(OpenSource { source, line, rest });
            return Some(VisitedLine {
                source,
                line,
                depth,
                bytes,
            });
        }
    }
    None
}

/// Opens the source that a line of the last open source includes, unless too many includes lead to
/// that line.
fn open_included<'a>(sources: &'a Sources, visited: VisitedLine<'a>, opened: &mut OpenSources<'a>)
    requires depth { (length opened.old.items ≡ visited.depth + 1) × (visited.depth ≤ max_depth) }
    ensures lines { below sources.now (max_depth - visited.entry.depth) (visit_of visited.entry)
        ++ left_from sources.now 0 opened.old.items
        ≡ visit_of visited.entry ∷ left_from sources.now 0 opened.new.items }
    ensures few { length opened.new.items ≤ 9 }
{
    if visited.depth >= MAX_DEPTH {
        return;
    }
    if let Some(source) = included(sources, visited.bytes) {
        opened.push(OpenSource::new(sources, source));
    }
}

/// Returns the index of the source that a line includes, if the line has no fault, except perhaps
/// that it is nested too deeply. O(bytes).
fn included(sources: &Sources, bytes: &[u8]) -> Option<usize>
    ensures included { result ≡ included sources.now bytes.now }
    ensures within { IfSome result (λ s. s < length sources.now) }
{
    let name = raw_include(bytes)?;
    sources.index_of(name)
}

/// Returns the raw text of the line's include, if it is one. O(bytes), and O(blanks) if the line
/// begins with another word.
fn raw_include(line: &[u8]) -> Option<&str>
    ensures { option_copied result ≡ raw_include line.now }
{
    if !begins_include(line) {
        return None;
    }
    let Ok(text) = str::from_utf8(line) else {
        return None;
    };
    let mut events = ArrayVec::new();
    match lex_line_into(text, &mut events) {
        Ok(LineContent::Include(name)) => Some(name),
        _ => None,
    }
}

/// Returns whether the line begins with the word `include`, after blanks.
fn begins_include(line: &[u8]) -> bool
    ensures { result ≡ starts_with nat_eq (skip_blanks line.now) (codes "include") }
{
    line[blank_len(line)..].starts_with(b"include")
}
