//! The lines of sources, each found by its place.
ghost use Rattle.std.specs.Prelude.{◌≡◌, IfOk, option_copied};
ghost use Rattle.compose_read.specs.Lines as words;
ghost use Rattle.compose_read.specs.Lines.{source_lines};
ghost use Rattle.compose_results.specs.SourceLines as words_of_all;
ghost use Rattle.compose_results.specs.SourceLines.{line_in};

use compose_places::DefinitionPlace;
use compose_read::Sources;
use compose_text::first_line;
use std::alloc::{AllocError, Global};
use std::marker::Model;

/// The lines of a source: 16 bytes for each.
#[derive(Drop)]
pub(crate) struct SourceLines<'a> {
    lines: Vec<&'a [u8]>,
}

impl<'a> Model for SourceLines<'a> {
    ghost use Rattle.std.specs.Prelude.{ℕ, List, map};

    ghost Value = { List (List ℕ) };

    ghost view = { λ l. map (λ line. line.now) l.lines.items };
}

impl<'a> SourceLines<'a> {
    ghost use Rattle.std.specs.Prelude.{◌≡◌, option_copied, slice_get};

    /// Returns the line at this index, if there is one. O(1).
    fn line(&self, index: usize) -> Option<&'a [u8]>
        ensures { option_copied result ≡ slice_get self.now index }
    {
        let line = self.lines.get(index)?;
        Some(*line)
    }
}

/// Collects the lines of each source. O(bytes of all sources).
pub(crate) fn all_lines<'a>(
    alloc: Global,
    sources: &'a Sources,
) -> Result<Vec<SourceLines<'a>>, AllocError>
    ensures { IfOk result (λ all. all.items ≡ words_of_all.all_lines sources.now) }
{
    let mut all = Vec::new(alloc);
    for index in 0..sources.count() {
        let lines = lines_of(alloc, sources.bytes(index))?;
        all.push(lines)?;
    }
    Ok(all)
}

/// Collects the lines of these bytes. O(bytes).
fn lines_of<'a>(alloc: Global, bytes: &'a [u8]) -> Result<SourceLines<'a>, AllocError>
    ensures { IfOk result (λ lines. lines ≡ source_lines bytes.now) }
{
    let mut lines = Vec::new(alloc);
    let mut rest = without_mark(bytes);
    while let Some((line, behind)) = first_line(rest) {
        lines.push(line)?;
        rest = behind;
    }
    Ok(SourceLines { lines })
}

/// Returns the bytes without a UTF-8 byte order mark at their start.
fn without_mark(bytes: &[u8]) -> &[u8]
    ensures { result.now ≡ words.without_mark bytes.now }
{
    bytes.strip_prefix(&[0xef, 0xbb, 0xbf]).unwrap_or(bytes)
}

/// Returns the line at this place, if there is one. O(1).
pub(crate) fn line_at<'a>(all: &[SourceLines<'a>], place: DefinitionPlace) -> Option<&'a [u8]>
    ensures { option_copied result ≡ line_in all.now place }
{
    let source = all.get(place.source)?;
    let index = place.line.checked_sub(1)?;
    source.line(index)
}
