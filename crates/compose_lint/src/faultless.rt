//! Tables whose lines, as they were read for other findings, show that they have no faults.
ghost use Rattle.std.specs.Prelude.{◌≡◌, ◌&&◌, nat_lt, nat_le, length, false, bytes_eq, slice_get};
ghost use Rattle.std.specs.List.{list_all};
ghost use Rattle.std.specs.Option.{option_map_or};
ghost use Rattle.compose_lint.specs.Faults as words;

use crate::lines::LintLine;
use crate::source_lines::SourceLines;
use arrayvec::ArrayVec;
use compose_lex::{LineContent, lex_line_into};
use compose_read::Sources;

/// The greatest number of sources of which each may include the next one.
const MOST_NESTED: usize = 9;

/// Returns whether the lines of these files, which are those of the sources, show that no line has
/// a fault: each defines something, says nothing, or includes a later one of at most nine sources.
/// A table for which this is false may have no fault either. O(lines), and O(bytes) of the lines
/// that have no definition.
pub(crate) fn is_surely_faultless(sources: &Sources, files: &[SourceLines<'_>]) -> bool
    ensures { result ≡ words.is_surely_faultless sources.now files.now }
{
    is_nested_count(sources.count()) && has_clean_files(sources, files)
}

/// Returns whether each of this number of sources may include the next one, and there is one.
fn is_nested_count(count: usize) -> bool
    ensures { result ≡ (nat_lt 0 count && nat_le count 9) }
{
    count > 0 && count <= MOST_NESTED
}

/// Returns whether each line of these files is clean.
fn has_clean_files(sources: &Sources, files: &[SourceLines<'_>]) -> bool
    ensures { result ≡ list_all (λ f. list_all (words.is_clean sources.now) f.lines) files.now }
{
    files
        .iter()
        .all(|file| has_clean_lines(sources, file.lines()))
}

/// Returns whether each of these lines is clean.
fn has_clean_lines(sources: &Sources, lines: &[LintLine<'_>]) -> bool
    ensures { result ≡ list_all (words.is_clean sources.now) lines.now }
{
    lines.iter().all(|line| is_clean(sources, line))
}

/// Returns whether the line defines something, says nothing, or includes a later source.
fn is_clean(sources: &Sources, line: &LintLine<'_>) -> bool
    ensures { result ≡ words.is_clean sources.now line.now }
{
    line.definition().is_some() || is_clean_text(sources, line.source(), line.bytes())
}

/// Returns whether a line of this source says nothing, or includes a later source. O(bytes).
fn is_clean_text(sources: &Sources, source: usize, bytes: &[u8]) -> bool
    ensures { result ≡ words.is_clean_text sources.now source bytes.now }
{
    let Ok(text) = str::from_utf8(bytes) else {
        return false;
    };
    let mut events = ArrayVec::new();
    match lex_line_into(text, &mut events) {
        Ok(LineContent::Blank) => true,
        Ok(LineContent::Include(name)) => is_later(sources, source, name),
        _ => false,
    }
}

/// Returns whether a source after this one is the first with this name. O(sources).
fn is_later(sources: &Sources, source: usize, name: &str) -> bool
    ensures { result ≡ words.is_later sources.now source name.now }
{
    for index in 0..sources.count() {
        if is_named(sources, index, name) {
            return source < index;
        }
    }
    false
}

/// Returns whether the source at this index has this name.
fn is_named(sources: &Sources, index: usize, name: &str) -> bool
    ensures { result
        ≡ option_map_or (λ s. bytes_eq name.now s.name) (slice_get sources.now index) false }
{
    match sources.name(index) {
        Some(other) => name == other,
        None => false,
    }
}
