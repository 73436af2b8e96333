//! A table as a reader has it.
ghost use Rattle.std.specs.Prelude.{◌≡◌, ◌<◌, ◌++◌, ◌∷◌, [], None, Some, length, IfOk, OnOk, string_bytes, codes};
ghost use Rattle.compose_listed_as.specs.Judged.{judged_by};
ghost use Rattle.compose_listed_as.specs.Listed.{Appends, IsListedAs, IsRefusedTable, IsTakenTable, refusal_text};

use crate::judged::with_fates;
use crate::line::{push_place, taken_lines, text_or_empty};
use crate::report::{reader_name, report};
use compose_readers::xkbcommon::{Reader, Version};
use compose_readers::{FileRead, Refusal, Told, What, fates, walk};
use compose_shown::Shown;
use std::alloc::{AllocError, Global};
use std::fmt::Write;

/// A table as a reader has it.
#[derive(Drop)]
pub struct ListedAs {
    /// A line for each definition that is taken, in the form of a Compose file; none if the table is
    /// refused.
    pub lines: String,
    /// The lines about what isn't taken, or why the table is refused.
    pub report: String,
    /// Whether the reader refuses the table.
    pub is_refused: bool,
}

/// Returns the table whose root is the first of these files as the reader has it, or why the reader
/// refuses it. O(bytes, and keys² of all sequences).
///
/// Errors: `AllocError` if memory runs out.
pub fn list_as(
    alloc: Global,
    reader: &Reader<'_>,
    files: &[FileRead],
) -> Result<ListedAs, AllocError>
    requires { 0 < length files.now }
    ensures { IfOk result
        (λ listed. IsListedAs reader.now.version reader.now.names.now files.now listed) }
{
    let walked = walk(alloc, Version::BOUNDS, files, 0)?;
    match walked.refusal {
        Some(refusal) => refused(alloc, reader.version, files, refusal, &walked.told),
        None => taken(alloc, reader, files, &walked.told),
    }
}

/// Returns the table in which the reader comes upon this.
fn taken(
    alloc: Global,
    reader: &Reader<'_>,
    files: &[FileRead],
    told: &[Told<'_>],
) -> Result<ListedAs, AllocError>
    ensures { IfOk result
        (λ listed. IsTakenTable reader.now.version reader.now.names.now files.now
        (judged_by reader.now.version told.now) listed) }
{
    let fates = fates(alloc, reader.version.most_nodes(), told)?;
    let all = with_fates(alloc, told, &fates)?;
    let lines = taken_lines(alloc, reader.names, files, &all)?;
    let report = report(alloc, reader.version, files, &all)?;
    Ok(ListedAs {
        lines,
        report,
        is_refused: false,
    })
}

/// Returns why the reader refuses the table, after it came upon this.
fn refused(
    alloc: Global,
    version: Version,
    files: &[FileRead],
    refusal: Refusal,
    told: &[Told<'_>],
) -> Result<ListedAs, AllocError>
    ensures { IfOk result (λ listed. IsRefusedTable version refusal listed) }
{
    let mut report = String::from_str(alloc, "composecheck: ")?;
    push_last(&mut report, files, told)?;
    push_refusal(&mut report, version, refusal)?;
    push_path(&mut report, told)?;
    Ok(ListedAs {
        lines: String::new(alloc),
        report,
        is_refused: true,
    })
}

/// Appends the place of the last thing that the reader came upon, or the path of the root.
fn push_last(text: &mut String, files: &[FileRead], told: &[Told<'_>]) -> Result<(), AllocError>
    ensures { OnOk result (Appends (string_bytes text.old) (string_bytes text.new)) }
{
    if let Some(last) = told.last() {
        return push_place(text, files, last);
    }
    if let Some(root) = files.first() {
        let path = Shown(text_or_empty(&root.path));
        write!(text, "{path}")?;
    }
    Ok(())
}

/// Appends that the reader refuses the table, and why.
fn push_refusal(text: &mut String, version: Version, refusal: Refusal) -> Result<(), AllocError>
    ensures { OnOk result
        (string_bytes text.new ≡ string_bytes text.old ++ refusal_text version refusal) }
{
    text.push_str(": ")?;
    text.push_str(reader_name(version))?;
    text.push_str(" refuses the table: ")?;
    text.push_str(refusal.words())
}

/// Appends the path that is included last, if the last thing is an include, and the end of the line.
fn push_path(text: &mut String, told: &[Told<'_>]) -> Result<(), AllocError>
    ensures { OnOk result (Appends (string_bytes text.old) (string_bytes text.new)) }
{
    if let Some(last) = told.last() {
        if let What::Includes(path) = last.what {
            let path = Shown(text_or_empty(path));
            write!(text, ": {path}")?;
        }
    }
    text.push('\n')
}
