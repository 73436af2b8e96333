//! A table without its faulty lines.
ghost use Rattle.std.specs.Prelude.{◌≡◌, IfOk, OnOk};
ghost use Rattle.keysym_core.specs.Header.{names_of};
ghost use Rattle.compose_skipped.specs.Kept as words;
ghost use Rattle.compose_skipped.specs.Kept.{AreOtherLines, IsKept, IsOtherTable};
ghost use Rattle.compose_skipped.specs.Reported.{with_faults};

use crate::report::SkippedReport;
use compose_input::TableFiles;
use compose_read::Sources;
use compose_skip::{OtherLines, other_lines};
use keysym_core::{NameFault, Names};
use std::alloc::{AllocError, Global};

/// Returns the table without its faulty lines, by the names of this header, and adds these lines to
/// the report. If the header is refused, the table is returned unchanged. O(bytes).
/// Errors: `AllocError` if memory runs out.
pub fn kept_table(
    alloc: Global,
    header: &[u8],
    table: TableFiles,
    report: &mut SkippedReport,
) -> Result<TableFiles, AllocError>
    ensures kept { IfOk result (λ kept. IsKept (names_of header.now) table kept) }
    ensures report { OnOk result
        (report.new ≡ with_faults report.old table (words.skipped_faults header.now table)) }
{
    match others_by(alloc, header, &table.sources)? {
        Some(others) => {
            report.add(&table, &others.faults)?;
            Ok(with_sources(table, others.sources))
        }
        None => {
            report.add(&table, &[])?;
            Ok(table)
        }
    }
}

/// Returns the table with these sources.
fn with_sources(table: TableFiles, sources: Sources<'static>) -> TableFiles
    ensures { IsOtherTable table sources.entry result }
{
    TableFiles { sources, ..table }
}

/// Returns the lines of these sources that have no fault by the names of this header, and the
/// faults of the others; `None` if the header is refused.
pub(crate) fn others_by(
    alloc: Global,
    header: &[u8],
    sources: &Sources,
) -> Result<Option<OtherLines>, AllocError>
    ensures { IfOk result (λ others. AreOtherLines (names_of header.now) sources.now others) }
{
    match Names::read(alloc, header) {
        Ok(names) => Ok(Some(other_lines(alloc, &names, sources)?)),
        Err(NameFault::NoMemory) => Err(AllocError),
        Err(_) => Ok(None),
    }
}
