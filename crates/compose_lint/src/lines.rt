//! The lines of a source, and their definitions.
ghost use Rattle.std.specs.Prelude.{◌≡◌, ◌<◌, length, IfOk};
ghost use Rattle.compose_read.specs.Lines.{own_lines, without_mark};
ghost use Rattle.compose_lint.specs.Lines.{line_read, lines_in};

use crate::comment::comment_beside;
use crate::definition::{LineDefinition, line_definition};
use crate::finding::LinePlace;
use crate::production::{Events, Written, written_on};
use arrayvec::ArrayVec;
use compose_read::Sources;
use compose_text::first_line;
use keysym_core::Names;
use std::alloc::{AllocError, Global};
use std::marker::Model;

/// A line of a source, and its definition; a faulty line has none.
#[derive(Drop)]
pub(crate) struct LintLine<'a> {
    /// The index of its source, from 0.
    pub(crate) source: usize,
    /// Its number in the source, from 1.
    pub(crate) line: usize,
    /// Its bytes, without the newline.
    pub(crate) bytes: &'a [u8],
    /// Its string and result name, if it is a production.
    pub(crate) written: Option<Written<'a>>,
    /// Its definition.
    pub(crate) definition: Option<LineDefinition<'a>>,
    /// The comment after its string.
    pub(crate) comment: Option<&'a str>,
}

impl<'a> Model for LintLine<'a> {
    ghost use Rattle.std.specs.Prelude.{option_copied};
    ghost use Rattle.compose_lint.specs.Lines as lines;

    ghost Value = { lines.LintLine };

    ghost view = { λ l. record {
      source = l.source;
      line = l.line;
      bytes = l.bytes.now;
      written = l.written;
      definition = l.definition;
      comment = option_copied l.comment;
    } };
}

impl<'a> LintLine<'a> {
    ghost use Rattle.std.specs.Prelude.{◌≡◌, option_copied};
    ghost use Rattle.compose_lint.specs.Longer.{place_of};

    /// Returns its definition, if it has one.
    pub(crate) fn definition(&self) -> Option<&LineDefinition<'a>>
        ensures { option_copied result ≡ self.now.definition }
    {
        self.definition.as_ref()
    }

    /// Returns the index of its source, from 0.
    pub(crate) fn source(&self) -> usize
        ensures { result ≡ self.now.source }
    {
        self.source
    }

    /// Returns its number in the source, from 1.
    pub(crate) fn line(&self) -> usize
        ensures { result ≡ self.now.line }
    {
        self.line
    }

    /// Returns its place.
    pub(crate) fn place(&self) -> LinePlace
        ensures { result ≡ place_of self.now }
    {
        LinePlace {
            source: self.source,
            line: self.line,
        }
    }

    /// Returns its bytes, without the newline.
    pub(crate) fn bytes(&self) -> &'a [u8]
        ensures { result.now ≡ self.now.bytes }
    {
        self.bytes
    }

    /// Returns the comment after its string, if it has both.
    pub(crate) fn comment(&self) -> Option<&'a str>
        ensures { option_copied result ≡ self.now.comment }
    {
        self.comment
    }

    /// Returns its string and result name, if it is a production.
    pub(crate) fn written(&self) -> Option<&Written<'a>>
        ensures { option_copied result ≡ self.now.written }
    {
        self.written.as_ref()
    }
}

/// Returns the lines of the source with this index. O(bytes).
pub(crate) fn lines_in<'a>(
    alloc: Global,
    names: &Names,
    sources: &'a Sources,
    source: usize,
) -> Result<Vec<LintLine<'a>>, AllocError>
    requires { source < length sources.now }
    ensures { IfOk result (λ lines. lines.items ≡ lines_in names.now sources.now source) }
{
    let mut lines = Vec::new(alloc);
    let mut events = ArrayVec::new();
    let mut rest = without_mark(sources.bytes(source));
    let mut line = 0;
    while let Some((bytes, behind)) = first_line(rest) {
        line += 1;
        rest = behind;
        let read = line_read(alloc, names, source, line, bytes, &mut events)?;
        lines.push(read)?;
    }
    Ok(lines)
}

/// Returns the line with these bytes and this number in the source with this index. The names of
/// its keys are left in the list. O(bytes).
pub(crate) fn line_read<'a>(
    alloc: Global,
    names: &Names,
    source: usize,
    line: usize,
    bytes: &'a [u8],
    events: &mut Events<'a>,
) -> Result<LintLine<'a>, AllocError>
    ensures { IfOk result (λ l. l ≡ line_read names.now source line bytes.now) }
{
    let written = written_on(bytes, events);
    let definition = line_definition(alloc, names, events.as_slice(), written.as_ref())?;
    let comment = comment_beside(bytes, written.as_ref());
    Ok(LintLine {
        source,
        line,
        bytes,
        written,
        definition,
        comment,
    })
}

/// Returns the bytes without the UTF-8 byte order mark at their beginning.
pub(crate) fn without_mark(bytes: &[u8]) -> &[u8]
    ensures { result.now ≡ without_mark bytes.now }
{
    bytes.strip_prefix(&[0xef, 0xbb, 0xbf]).unwrap_or(bytes)
}
