//! The findings in a table.
ghost use Rattle.std.specs.Prelude.{◌≡◌, ℕ, List, map, IfOk, bytes_eq};
ghost use Rattle.std.specs.Borrow.{Bor};
ghost use Rattle.indexmap.specs.IndexMap.{get_by, get_by_text};
ghost use Rattle.compose_lint.specs.Lines.{all_lines};
ghost use Rattle.compose_lint.specs.Alike.{form_place};
ghost use Rattle.compose_lint.specs.Longer.{longer_place};
ghost use Rattle.compose_lint.specs.Comments.{comments_in};
ghost use Rattle.compose_lint.specs.Commonest.{IsLed, times};
ghost use Rattle.compose_lint.specs.Findings.{findings, findings_of};

use crate::alike::form_places;
use crate::comments::comments_in;
use crate::commonest::leaders;
use crate::finding::Finding;
use crate::kinds::{AllFiles, LintFile, push_findings};
use crate::longer::longer_places;
use crate::reader::Readers;
use crate::source_lines::{SourceLines, all_sources};
use compose_read::{ReadFault, Sources};
use keysym_core::Names;
use std::alloc::{AllocError, Global};

/// Returns the findings in the lines of the sources, each line once: by source, then by line, and
/// within a line by kind. `faults` are faults of these sources; of the faults in a line only the
/// first one is a finding. A faulty line defines nothing. Only the wanted readers are considered,
/// and lines are compared with included files only if `is_all`. O(bytes + lines × faults) time, and
/// memory for the lines of all sources and the findings; if `is_all`, the lines that a source
/// includes are read and kept for each source.
/// Errors: `AllocError` if memory runs out.
pub fn find_findings(
    alloc: Global,
    names: &Names,
    sources: &Sources,
    readers: Readers,
    is_all: bool,
    faults: &[ReadFault],
) -> Result<Vec<Finding>, AllocError>
    ensures { IfOk result
        (λ found. found.items ≡ findings names.now readers is_all faults.now sources.now) }
{
    let files = all_sources(alloc, names, sources, is_all)?;
    findings_of(alloc, names, readers, faults, &files)
}

/// Returns the findings in the lines of these files.
pub(crate) fn findings_of(
    alloc: Global,
    names: &Names,
    readers: Readers,
    faults: &[ReadFault],
    files: &[SourceLines<'_>],
) -> Result<Vec<Finding>, AllocError>
    ensures { IfOk result
        (λ found. found.items ≡ findings_of names.now readers faults.now files.now) }
{
    let forms = form_places(alloc, files)?;
    let longer = longer_places(alloc, files)?;
    let comments = comments_in(alloc, files)?;
    let by_comment = leaders(alloc, &comments)?;
    let all = AllFiles {
        files,
        forms: &forms,
        longer: &longer,
        comments: &comments,
        by_comment: &by_comment,
    };
    findings_by(alloc, names, readers, faults, all)
}

/// Returns the findings in the lines of all files, given what the files contribute together.
fn findings_by(
    alloc: Global,
    names: &Names,
    readers: Readers,
    faults: &[ReadFault],
    all: AllFiles<'_, '_, '_>,
) -> Result<Vec<Finding>, AllocError>
    requires forms { (q : List ℕ)
        → get_by_text all.forms.now q ≡ form_place (all_lines all.files.now) q }
    requires longer { (q : Bor (List ℕ))
        → get_by (λ k. bytes_eq q.now k.now) all.longer.now
        ≡ longer_place (all_lines all.files.now) q.now }
    requires notes { all.comments.now ≡ comments_in (all_lines all.files.now) }
    requires comments { (k : Bor (List ℕ))
        → IsLed (times all.comments.now k.now) k.now all.comments.now
        (get_by (λ p. bytes_eq k.now p.now) all.by_comment.now) }
    ensures { IfOk result
        (λ found. found.items ≡ findings_of names.now readers faults.now all.entry.files.now) }
{
    let mut found = Vec::new(alloc);
    let mut by_text = None;
    for source in all.files {
        let file = LintFile {
            names,
            readers,
            faults,
            bytes: source.bytes(),
            lines: source.lines(),
        };
        push_findings(
            alloc,
            &mut found,
            all,
            &mut by_text,
            file,
            source.included(),
        )?;
    }
    Ok(found)
}
