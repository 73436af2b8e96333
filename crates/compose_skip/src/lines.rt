//! A source without its faulty lines, as libxkbcommon reads it.
ghost use Rattle.std.specs.Prelude.{◌≡◌, ◌++◌, ◌∷◌, [], map, option_to_list, IfOk, OnOk};
ghost use Rattle.std.specs.List.{filter_map};
ghost use Rattle.compose_read.specs.Lines.{source_lines, without_mark};
ghost use Rattle.compose_skip.specs.Faulty.{fault_left, kept_line, left_fault, line_without, lines_in};

use crate::line::{Events, Place, line_fault};
use crate::written::rewritten;
use arrayvec::ArrayVec;
use compose_read::ReadFault;
use compose_text::first_line;
use keysym_core::Names;
use std::alloc::{AllocError, Global};

/// Returns the bytes of the source with this index, with its faulty lines rewritten or left empty,
/// and adds the faults of the empty ones to the others. The result begins with a byte order mark, and each line ends in a
/// newline, so that it has exactly these lines. O(bytes).
pub(crate) fn other_bytes(
    alloc: Global,
    names: &Names,
    source: usize,
    bytes: &[u8],
    faults: &mut Vec<ReadFault>,
) -> Result<Vec<u8>, AllocError>
    ensures lines { IfOk result
        (λ kept. source_lines kept.items
        ≡ map (kept_line names.now) (lines_in source bytes.now)) }
    ensures faults { OnOk result
        (faults.new.items
        ≡ faults.old.items ++ filter_map (left_fault names.now) (lines_in source bytes.now)) }
{
    let mut kept = Vec::new(alloc);
    kept.extend_from_slice(&[0xef, 0xbb, 0xbf])?;
    let mut events = ArrayVec::new();
    let mut rest = without_mark(bytes);
    let mut line = 0;
    while let Some((own, behind)) = first_line(rest) {
        rest = behind;
        line += 1;
        let place = Place { source, line };
        let fault = line_fault(alloc, names, place, own, &mut events)?;
        push_line(alloc, names, &mut kept, faults, own, fault)?;
    }
    Ok(kept)
}

/// Adds a line as it is kept, given its fault by itself, and the fault if the line is left empty.
fn push_line(
    alloc: Global,
    names: &Names,
    kept: &mut Vec<u8>,
    faults: &mut Vec<ReadFault>,
    own: &[u8],
    fault: Option<ReadFault>,
) -> Result<(), AllocError>
    ensures line { OnOk result
        (kept.new.items ≡ kept.old.items ++ (line_without names.now own.now fault ++ 10 ∷ [])) }
    ensures fault { OnOk result
        (faults.new.items
        ≡ faults.old.items ++ option_to_list (fault_left names.now own.now fault)) }
{
    match fault {
        Some(fault) => match rewritten(alloc, names, own)? {
            Some(line) => kept.extend_from_slice(line.as_bytes())?,
            None => faults.push(fault)?,
        },
        None => kept.extend_from_slice(own)?,
    }
    kept.push(b'\n')?;
    Ok(())
}

/// Returns the bytes without a leading byte order mark.
fn without_mark(bytes: &[u8]) -> &[u8]
    ensures { result.now ≡ without_mark bytes.now }
{
    if bytes.starts_with(&[0xef, 0xbb, 0xbf]) {
        &bytes[3..]
    } else {
        bytes
    }
}
