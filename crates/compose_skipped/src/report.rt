//! The report of skipped lines.
ghost use Rattle.std.specs.Prelude.{◌≡◌, ◌++◌, flat_map, map, OnOk, string_bytes};
ghost use Rattle.compose_skipped.specs.Reported as words;
ghost use Rattle.compose_skipped.specs.Kept as kept_words;

use crate::kept::others_by;
use compose_input::TableFiles;
use compose_messages::{FaultLines, FileMessage};
use compose_read::{ReadFault, Sources};
use std::alloc::{AllocError, Global};
use std::fmt::Write;
use std::marker::Model;

/// The report of skipped lines: a line for each, and their number.
#[derive(Drop)]
pub struct SkippedReport {
    lines: String,
    count: usize,
}

impl Model for SkippedReport {
    ghost use Rattle.std.specs.Prelude.{string_bytes};
    ghost use Rattle.compose_skipped.specs.Reported as words;

    ghost Value = { words.Reported };

    ghost view = { λ r. record { lines = string_bytes r.lines; count = r.count } };
}

impl SkippedReport {
    ghost use Rattle.std.specs.Prelude.{◌≡◌, IfOk, OnOk, string_bytes};
    ghost use Rattle.compose_skipped.specs.Reported as words;
    ghost use Rattle.compose_skipped.specs.Kept as kept_words;

    /// Returns the report without any lines.
    pub fn new(alloc: Global) -> SkippedReport
        ensures { result ≡ words.nothing }
    {
        SkippedReport {
            lines: String::new(alloc),
            count: 0,
        }
    }

    /// Adds these faults of a table.
    pub(crate) fn add(&mut self, table: &TableFiles, faults: &[ReadFault]) -> Result<(), AllocError>
        ensures { OnOk result (self.new ≡ words.with_faults self.old table.now faults.now) }
    {
        push_faults(&mut self.lines, &table.sources, &table.paths, faults)?;
        match self.count.checked_add(faults.len()) {
            Some(count) => self.count = count,
            None => return Err(AllocError),
        }
        Ok(())
    }

    /// Adds the faulty lines of a table, by the names of this header; none if the header is
    /// refused. O(bytes).
    /// Errors: `AllocError` if memory runs out.
    pub fn push(
        &mut self,
        alloc: Global,
        header: &[u8],
        table: &TableFiles,
    ) -> Result<(), AllocError>
        ensures { OnOk result
            (self.new
            ≡ words.with_faults self.old table.now
            (kept_words.skipped_faults header.now table.now)) }
    {
        match others_by(alloc, header, &table.sources)? {
            Some(others) => self.add(table, &others.faults),
            None => self.add(table, &[]),
        }
    }

    /// Returns the lines, followed by one with their number unless there are none.
    /// Errors: `AllocError` if memory runs out.
    pub fn into_text(self) -> Result<String, AllocError>
        ensures { IfOk result (λ text. string_bytes text ≡ words.report_of self) }
    {
        let count = self.count;
        let mut text = self.lines;
        match count {
            0 => {}
            1 => text.push_str("1 faulty line left out\n")?,
            _ => writeln!(text, "{count} faulty lines left out")?,
        }
        Ok(text)
    }
}

/// Adds a line for each of these faults. O(bytes) if they are in the order of their lines.
fn push_faults(
    text: &mut String,
    sources: &Sources,
    paths: &[String],
    faults: &[ReadFault],
) -> Result<(), AllocError>
    ensures { OnOk result
        (string_bytes text.new
        ≡ string_bytes text.old
        ++ flat_map (words.skipped_line sources.now (map string_bytes paths.now)) faults.now) }
{
    let mut lines = FaultLines::new(sources);
    for fault in faults {
        push_fault(text, &mut lines, paths, fault)?;
    }
    Ok(())
}

/// Adds the line of a fault.
fn push_fault(
    text: &mut String,
    lines: &mut FaultLines<'_>,
    paths: &[String],
    fault: &ReadFault,
) -> Result<(), AllocError>
    ensures text { OnOk result
        (string_bytes text.new
        ≡ string_bytes text.old
        ++ words.skipped_line lines.old (map string_bytes paths.now) fault.now) }
    ensures lines { lines.new ≡ lines.old }
{
    let Some(placed) = lines.placed(fault) else {
        return Ok(());
    };
    let reported = FileMessage {
        path: path_of(paths, placed.source),
        position: Some(placed.position),
        message: placed.message,
    };
    writeln!(text, "{reported}")?;
    Ok(())
}

/// Returns the path of the file of the source with this index; an empty text if there is none.
fn path_of(paths: &[String], source: usize) -> &str
    ensures { result.now ≡ words.path_of (map string_bytes paths.now) source }
{
    match paths.get(source) {
        Some(path) => path,
        None => "",
    }
}
