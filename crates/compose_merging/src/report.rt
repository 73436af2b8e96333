//! What is left out of the new table, for people.
use crate::fresh::{FreshKeys, joined_names};
use crate::reasons::push_left_out;
use crate::sides::Side;
use crate::treatment::{Cause, Treatment};
use compose_tree::ComposeTable;
use keysym_core::Names;
use std::alloc::{AllocError, Global};
use std::fmt::Write;

/// The greatest number of lines for one cause.
const MOST_LINES: usize = 20;

/// How many sequences are left out, for each cause.
#[derive(Clone, Copy, Debug)]
pub(crate) struct LeftOutCounts {
    pub(crate) other_texts: usize,
    pub(crate) shorter: usize,
    pub(crate) longer: usize,
    pub(crate) new_starts: usize,
}

impl LeftOutCounts {
    /// None.
    const NONE: LeftOutCounts = LeftOutCounts {
        other_texts: 0,
        shorter: 0,
        longer: 0,
        new_starts: 0,
    };

    /// Returns these with one more of this cause.
    fn with(self, cause: Cause) -> LeftOutCounts {
        match cause {
            Cause::OtherText => LeftOutCounts {
                other_texts: self.other_texts.saturating_add(1),
                ..self
            },
            Cause::Shorter => LeftOutCounts {
                shorter: self.shorter.saturating_add(1),
                ..self
            },
            Cause::Longer => LeftOutCounts {
                longer: self.longer.saturating_add(1),
                ..self
            },
            Cause::NewStart => LeftOutCounts {
                new_starts: self.new_starts.saturating_add(1),
                ..self
            },
        }
    }

    /// Returns how many have this cause.
    fn of(self, cause: Cause) -> usize {
        match cause {
            Cause::OtherText => self.other_texts,
            Cause::Shorter => self.shorter,
            Cause::Longer => self.longer,
            Cause::NewStart => self.new_starts,
        }
    }
}

/// The numbers of the last line.
#[derive(Clone, Copy, Debug)]
pub(crate) struct Totals {
    pub(crate) kept: usize,
    pub(crate) taken: usize,
    pub(crate) left_out: usize,
}

/// Appends a line for each sequence of the new table that is left out, in their order: the first 20
/// of each cause, and how many more there are.
pub(crate) fn push_all_left_out<T: ComposeTable>(
    alloc: Global,
    report: &mut String,
    old: &Side<'_, T>,
    new: &Side<'_, T>,
    treatments: &[Treatment],
) -> Result<(), AllocError> {
    let mut counts = LeftOutCounts::NONE;
    for (row, treatment) in treatments.iter().enumerate() {
        if let Treatment::LeftOut(cause) = treatment {
            if counts.of(*cause) < MOST_LINES {
                push_left_out(alloc, report, old, new, row, *cause)?;
            }
            counts = counts.with(*cause);
        }
    }
    push_more(report, counts)
}

/// Appends how many more there are of each cause than lines.
fn push_more(report: &mut String, counts: LeftOutCounts) -> Result<(), AllocError> {
    push_rest(report, counts.other_texts, "have another text in OLD")?;
    push_rest(report, counts.shorter, "begin a sequence of OLD")?;
    push_rest(report, counts.longer, "go on from a sequence of OLD")?;
    push_rest(
        report,
        counts.new_starts,
        "begin with a key that begins nothing in OLD",
    )
}

/// Appends how many more there are than lines, if there are more.
fn push_rest(report: &mut String, count: usize, words: &str) -> Result<(), AllocError> {
    if count > MOST_LINES {
        let more = count - MOST_LINES;
        writeln!(report, "left out: {more} more that {words}")?;
    }
    Ok(())
}

/// Appends the numbers, and which keys would take more if they were fresh.
pub(crate) fn push_totals(
    alloc: Global,
    report: &mut String,
    names: &Names,
    totals: Totals,
    fresh: &FreshKeys,
) -> Result<(), AllocError> {
    let Totals {
        kept,
        taken,
        left_out,
    } = totals;
    write!(
        report,
        "merge: {kept} kept, {taken} taken, {left_out} left out"
    )?;
    push_fresh(alloc, report, names, fresh)?;
    report.push('\n')
}

/// Appends which keys would take more if they were fresh, if there are any.
fn push_fresh(
    alloc: Global,
    report: &mut String,
    names: &Names,
    fresh: &FreshKeys,
) -> Result<(), AllocError> {
    if fresh.keys.is_empty() {
        return Ok(());
    }
    let joined = joined_names(alloc, names, &fresh.keys)?;
    let starts = fresh.starts;
    write!(report, "; --fresh {joined} takes {starts} more")?;
    Ok(())
}
