//! The faults of lines.
ghost use Rattle.std.specs.Prelude.{◌≡◌, ◌++◌, position, OnOk};
ghost use Rattle.compose_lint.specs.Faults as words;

use crate::finding::FindingKind;
use crate::lines::LintLine;
use compose_messages::line_of;
use compose_read::ReadFault;
use std::alloc::AllocError;

/// Returns whether the fault is in the line.
fn is_in(line: &LintLine<'_>, fault: &ReadFault) -> bool
    ensures { result ≡ words.is_in line.now fault.now }
{
    match line_of(fault) {
        Some((source, number)) => source == line.source() && number == line.line(),
        None => false,
    }
}

/// Returns the index of the first fault in the line, if there is one. O(faults).
fn fault_in(faults: &[ReadFault], line: &LintLine<'_>) -> Option<usize>
    ensures { result ≡ position (words.is_in line.now) faults.now }
{
    faults.iter().position(|fault| is_in(line, fault))
}

/// Adds the first fault in the line, if there is one. O(faults).
pub(crate) fn push_fault_kinds(
    kinds: &mut Vec<FindingKind>,
    faults: &[ReadFault],
    line: &LintLine<'_>,
) -> Result<(), AllocError>
    ensures { OnOk result
        (kinds.new.items ≡ kinds.old.items ++ words.fault_kinds faults.now line.now) }
{
    if let Some(index) = fault_in(faults, line) {
        kinds.push(FindingKind::Fault { index })?;
    }
    Ok(())
}
