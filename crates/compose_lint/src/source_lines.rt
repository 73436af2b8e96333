//! The lines of all sources.
ghost use Rattle.std.specs.Prelude.{◌≡◌, [], if◌then◌else◌, IfOk};
ghost use Rattle.compose_lint.specs.Lines.{all_sources, included_lines};

use crate::included::included_lines;
use crate::lines::{LintLine, lines_in};
use compose_read::Sources;
use keysym_core::Names;
use std::alloc::{AllocError, Global};
use std::marker::Model;

/// A source: its bytes, its lines, and the lines that it includes, if these are wanted.
#[derive(Drop)]
pub(crate) struct SourceLines<'a> {
    pub(crate) bytes: &'a [u8],
    pub(crate) lines: Vec<LintLine<'a>>,
    pub(crate) included: Vec<LintLine<'a>>,
}

impl<'a> Model for SourceLines<'a> {
    ghost use Rattle.compose_lint.specs.Lines as words;

    ghost Value = { words.SourceLines };

    ghost view = { λ s. record {
      bytes = s.bytes.now;
      lines = s.lines.items;
      included = s.included.items;
    } };
}

impl<'a> SourceLines<'a> {
    ghost use Rattle.std.specs.Prelude.{◌≡◌};

    pub(crate) fn bytes(&self) -> &'a [u8]
        ensures { result.now ≡ self.now.bytes }
    {
        self.bytes
    }

    pub(crate) fn lines(&self) -> &[LintLine<'a>]
        ensures { result.now ≡ self.now.lines }
    {
        &self.lines
    }

    pub(crate) fn included(&self) -> &[LintLine<'a>]
        ensures { result.now ≡ self.now.included }
    {
        &self.included
    }
}

/// Returns the lines of all sources, by source, and with `is_all` the lines that each includes.
/// O(bytes); with `is_all`, O(bytes of the lines that are read from each source).
pub(crate) fn all_sources<'a>(
    alloc: Global,
    names: &Names,
    sources: &'a Sources,
    is_all: bool,
) -> Result<Vec<SourceLines<'a>>, AllocError>
    ensures { IfOk result (λ files. files.items ≡ all_sources names.now sources.now is_all) }
{
    let mut files = Vec::new(alloc);
    for source in 0..sources.count() {
        let lines = lines_in(alloc, names, sources, source)?;
        let included = included_if(alloc, names, sources, is_all, source)?;
        let bytes = sources.bytes(source);
        files.push(SourceLines {
            bytes,
            lines,
            included,
        })?;
    }
    Ok(files)
}

/// Returns the lines that the source with this index includes if `is_all`, and otherwise none.
fn included_if<'a>(
    alloc: Global,
    names: &Names,
    sources: &'a Sources,
    is_all: bool,
    source: usize,
) -> Result<Vec<LintLine<'a>>, AllocError>
    ensures { IfOk result
        (λ lines. lines.items
        ≡ (if is_all then included_lines names.now sources.now source else [])) }
{
    if is_all {
        return included_lines(alloc, names, sources, source);
    }
    Ok(Vec::new(alloc))
}
