//! Reading a source with all that it includes.
ghost use Rattle.std.specs.Prelude.{◌≡◌, ◌≤◌, ◌<◌, ◌+◌, [], ◌∷◌, List, length, Some, slice_get, IfOk, IfSome, OnOk, IsTrue, IsUtf8};
ghost use Rattle.compose_model.specs.Table.{Definition, is_table};
ghost use Rattle.compose_read.specs.Lines.{visits_below, included, without_mark};
ghost use Rattle.compose_read.specs.Read.{definitions_of};
ghost use Rattle.compose_read.specs.ReadReturns.{ReadReturns};
ghost use Rattle.compose_read.specs.Progress.{visit, ReadsOn};
ghost use Rattle.compose_read.specs.Kept.{AreKept};

use crate::ReadFault;
use crate::definitions::Definitions;
use crate::draft::Draft;
use crate::kept::{Kept, KeptSource};
use crate::line::{Events, Found, MAX_DEPTH, Place, read_line};
use crate::sources::Sources;
use arrayvec::ArrayVec;
use compose_text::first_line;
use keysym_core::Names;
use std::alloc::Global;

/// The greatest number of lines that are read; those of a source count each time it is included.
pub(crate) const MAX_LINES: usize = 1_000_000;

/// The greatest number of definitions that are read.
pub(crate) const MAX_DEFINITIONS: usize = 100_000;

/// An estimate of the bytes of a source for each definition, which decides how much room is
/// reserved.
const BYTES_A_DEFINITION: usize = 80;

/// The number of lines that were read so far, and the draft of their definitions.
#[derive(Drop)]
pub(crate) struct Progress {
    pub(crate) lines: usize,
    pub(crate) draft: Draft,
}

/// Returns the definitions that are read from the root, in reading order. O(b + d) in the bytes of
/// all sources and the definitions: the lines of a source are read again only if it is included
/// more deeply than before, so at most nine times, or if a limit would be exceeded.
///
/// Errors: the fault of the first faulty line; `MissingRoot` if no source has the name of the root;
/// `NoMemory` if memory runs out.
pub fn read_definitions(
    alloc: Global,
    names: &Names,
    sources: &Sources,
    root: &str,
) -> Result<Definitions, ReadFault>
    ensures exact { ReadReturns (λ (table : List Definition). table) result
        (definitions_of names.now sources.now root.now) }
    ensures table { IfOk result (λ table. IsTrue (is_table table)) }
{
    let Some(source) = sources.index_of(root) else {
        return Err(ReadFault::MissingRoot);
    };
    let mut progress = Progress {
        lines: 0,
        draft: Draft::new(alloc),
    };
    let mut events = ArrayVec::new();
    let mut kept = Kept::new();
    read_source(
        names,
        sources,
        source,
        MAX_DEPTH,
        &mut events,
        &mut kept,
        &mut progress,
    )?;
    Ok(progress.draft.into_definitions())
}

/// Reads all lines of a source, and after each include those of the included source; `left` is the
/// number of levels that are left below it. The result is kept, and if it was kept before, the
/// lines are not read again.
fn read_source<'a>(
    names: &Names,
    sources: &'a Sources,
    source: usize,
    left: usize,
    events: &mut Events<'a>,
    kept: &mut Kept,
    progress: &mut Progress,
) -> Result<(), ReadFault>
    requires within { (source < length sources.now) × (length sources.now ≤ 64) }
    requires levels { left ≤ 8 }
    requires kept { AreKept names.now sources.now progress.old.draft.table kept.old.by_source }
    ensures reads { ReadsOn names.now sources.now
        (visits_below sources.now left source) progress.old progress.new result }
    ensures kept { OnOk result
        (AreKept names.now sources.now progress.new.draft.table kept.new.by_source) }
    ensures counted { OnOk result
        (progress.new.lines ≡ progress.old.lines + length (visits_below sources.now left source)) }
{
    if let Some(again) = kept_source(kept, source, left, progress) {
        progress.draft.repeat(again.first, again.count)?;
        progress.lines += again.lines;
        return Ok(());
    }
    let (lines, first) = (progress.lines, progress.draft.len());
    let depth = MAX_DEPTH - left;
    let mut rest = without_mark(sources.bytes(source));
    progress
        .draft
        .reserve((rest.len() / BYTES_A_DEFINITION).min(MAX_DEFINITIONS));
    let is_text = simdutf8::is_utf8(rest);
    let mut line = 0;
    while let Some((bytes, behind)) = first_line(rest) {
        rest = behind;
        line += 1;
        let place = Place {
            source,
            line,
            depth,
        };
        let included = take_line(names, sources, place, bytes, is_text, events, progress)?;
        if let Some(included) = included {
            read_source(names, sources, included, left - 1, events, kept, progress)?;
        }
    }
    kept.put(
        source,
        KeptSource {
            left,
            lines: progress.lines - lines,
            first,
            count: progress.draft.len() - first,
        },
    );
    Ok(())
}

/// Returns what is kept of a source, if no more levels were left below it then, and if repeating it
/// here exceeds no limit.
fn kept_source(kept: &Kept, source: usize, left: usize, progress: &Progress) -> Option<KeptSource>
    requires { source < 64 }
    ensures found { IfSome result
        (λ k. (slice_get kept.now.by_source source ≡ Some (Some k)) × (k.left ≤ left)) }
    ensures fits { IfSome result
        (λ k. (progress.now.lines + k.lines ≤ 1000000)
        × (length progress.now.draft.table + k.count ≤ 100000)) }
{
    let again = kept.find(source, left)?;
    if progress.lines.saturating_add(again.lines) > MAX_LINES {
        return None;
    }
    if progress.draft.len().saturating_add(again.count) > MAX_DEFINITIONS {
        return None;
    }
    Some(again)
}

/// Reads the line at this position. If it includes a source, returns the index of that source.
fn take_line<'a>(
    names: &Names,
    sources: &Sources,
    place: Place,
    bytes: &'a [u8],
    is_text: bool,
    events: &mut Events<'a>,
    progress: &mut Progress,
) -> Result<Option<usize>, ReadFault>
    requires { IsTrue is_text → IsUtf8 bytes.now }
    ensures reads { ReadsOn names.now sources.now
        (visit place bytes.now ∷ []) progress.old progress.new result }
    ensures counted { OnOk result (progress.new.lines ≡ progress.old.lines + 1) }
    ensures source { IfOk result (λ o. included sources.now bytes.now ≡ o) }
    ensures within { IfOk result
        (λ o. IfSome o (λ s. (place.depth < 8) × (s < length sources.now))) }
{
    let (source, line) = (place.source, place.line);
    if progress.lines >= MAX_LINES {
        return Err(ReadFault::TooManyLines { source, line });
    }
    let found = read_line(
        names,
        sources,
        place,
        bytes,
        is_text,
        events,
        &mut progress.draft,
    )?;
    progress.lines += 1;
    match found {
        Found::Nothing => Ok(None),
        Found::Include(included) => Ok(Some(included)),
        Found::Definition => {
            if progress.draft.len() >= MAX_DEFINITIONS {
                return Err(ReadFault::TooManyDefinitions { source, line });
            }
            progress.draft.finish()?;
            Ok(None)
        }
    }
}

/// Returns the bytes without a leading UTF-8 byte order mark.
pub(crate) fn without_mark(bytes: &[u8]) -> &[u8]
    ensures { result.now ≡ without_mark bytes.now }
{
    if bytes.starts_with(&[0xef, 0xbb, 0xbf]) {
        &bytes[3..]
    } else {
        bytes
    }
}
