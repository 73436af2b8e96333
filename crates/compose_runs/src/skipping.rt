//! The files that commands read, without the faulty lines of tables.
ghost use Rattle.std.specs.Prelude.{IfOk};
ghost use Rattle.compose_runs.specs.Skipping.{IsFollowed};

use crate::differing::DiffFiles;
use crate::files::MigrationFiles;
use crate::one_table::TableRead;
use compose_report::Outcome;
use compose_skipped::{SkippedReport, kept_table};
use std::alloc::{AllocError, Global};

/// The files that a command on one Compose file reads, and the report of skipped lines.
#[derive(Drop)]
pub(crate) struct KeptRead<'n> {
    pub(crate) read: TableRead<'n>,
    pub(crate) skipped: String,
}

impl<'n> KeptRead<'n> {
    ghost use Rattle.compose_runs.specs.Skipping.{IsKeptRead};

    /// Returns the files that were read; without the faulty lines of the table, if these are
    /// skipped. O(bytes).
    pub(crate) fn of(
        alloc: Global,
        skip_faulty: bool,
        read: TableRead<'n>,
    ) -> Result<KeptRead<'n>, AllocError>
        ensures { IfOk result (λ kept. IsKeptRead skip_faulty read.entry kept) }
    {
        if !skip_faulty {
            let skipped = String::new(alloc);
            return Ok(KeptRead { read, skipped });
        }
        let mut report = SkippedReport::new(alloc);
        let TableRead {
            names,
            table,
            notes,
        } = read;
        let table = kept_table(alloc, &names.lines, table, &mut report)?;
        let read = TableRead {
            names,
            table,
            notes,
        };
        let skipped = report.into_text()?;
        Ok(KeptRead { read, skipped })
    }
}

/// The files that `diff` reads, and the report of skipped lines.
#[derive(Drop)]
pub(crate) struct KeptPair<'n> {
    pub(crate) files: DiffFiles<'n>,
    pub(crate) skipped: String,
}

impl<'n> KeptPair<'n> {
    ghost use Rattle.compose_runs.specs.Skipping.{IsKeptPair};

    /// Returns the files that were read; without the faulty lines of both tables, if these are
    /// skipped. O(bytes).
    pub(crate) fn of(
        alloc: Global,
        skip_faulty: bool,
        files: DiffFiles<'n>,
    ) -> Result<KeptPair<'n>, AllocError>
        ensures { IfOk result (λ kept. IsKeptPair skip_faulty files.entry kept) }
    {
        if !skip_faulty {
            let skipped = String::new(alloc);
            return Ok(KeptPair { files, skipped });
        }
        let mut report = SkippedReport::new(alloc);
        let DiffFiles { both, accepted } = files;
        let MigrationFiles { names, old, new } = both;
        let old = kept_table(alloc, &names.lines, old, &mut report)?;
        let new = kept_table(alloc, &names.lines, new, &mut report)?;
        let both = MigrationFiles { names, old, new };
        let files = DiffFiles { both, accepted };
        let skipped = report.into_text()?;
        Ok(KeptPair { files, skipped })
    }
}

/// Returns the same outcome, with this text after its errors.
pub(crate) fn followed(outcome: Outcome, text: &str) -> Result<Outcome, AllocError>
    ensures { IfOk result (λ after. IsFollowed text.now outcome after) }
{
    let mut outcome = outcome;
    outcome.errors.push_str(text)?;
    Ok(outcome)
}
