//! The faulty lines of a table.
ghost use Rattle.std.specs.Prelude.{◌≡◌, ◌++◌, ◌∷◌, [], take, map, flat_map, OnOk, string_bytes};
ghost use Rattle.compose_details.specs.Faulty as faulty;

use crate::given::GivenTable;
use crate::lines::{path_of, push_line};
use arrayvec::ArrayVec;
use compose_messages::{fault_position, line_of, read_message};
use compose_read::{ReadFault, Sources, read_faults};
use keysym_core::Names;
use std::alloc::{AllocError, Global};

/// The most faults that are examined: as many as lines are read.
const MOST_FAULTS: usize = 1_000_000;

/// The lines that were reported, as the index of their source and their number.
type Reported = ArrayVec<(usize, usize), 20>;

/// Adds a line for each faulty line of a table, at most twenty, beginning with this first fault.
/// O(bytes of the lines that are visited).
pub(crate) fn push_faulty_lines(
    alloc: Global,
    text: &mut String,
    names: &Names,
    table: &GivenTable<'_>,
    first: &ReadFault,
) -> Result<(), AllocError>
    ensures { OnOk result
        (string_bytes text.new
        ≡ string_bytes text.old
        ++ faulty.lines_of_table names.now table.now first.now) }
{
    push_fault(text, table, first)?;
    let sources = table.input.sources;
    let others = read_faults(alloc, names, sources, root_of(sources), MOST_FAULTS)?;
    push_others(text, table, place_of(first), &others)
}

/// Adds a line for each of these faults that is in another line than the first fault and the faults
/// before it, at most nineteen.
fn push_others(
    text: &mut String,
    table: &GivenTable<'_>,
    first: (usize, usize),
    others: &[ReadFault],
) -> Result<(), AllocError>
    ensures { OnOk result
        (string_bytes text.new
        ≡ string_bytes text.old
        ++ flat_map (faulty.line_of_fault table.now)
        (take 19 (faulty.each_once (first ∷ []) others.now))) }
{
    let mut reported = Reported::new();
    reported.push(first);
    for fault in others {
        let place = place_of(fault);
        if is_among(&reported, place) {
            continue;
        }
        if reported.is_full() {
            return Ok(());
        }
        reported.push(place);
        push_fault(text, table, fault)?;
    }
    Ok(())
}

/// Returns the name of the first source, or an empty text if there is none.
pub(crate) fn root_of<'a>(sources: &'a Sources) -> &'a str
    ensures { result.now ≡ faulty.root_of sources.now }
{
    sources.name(0).unwrap_or("")
}

/// Returns the source and the line of a fault; line 0 if it has none.
fn place_of(fault: &ReadFault) -> (usize, usize)
    ensures { result ≡ faulty.place_of fault.now }
{
    line_of(fault).unwrap_or((0, 0))
}

/// Returns whether the place is one of these.
fn is_among(places: &[(usize, usize)], place: (usize, usize)) -> bool
    ensures { result ≡ faulty.is_among places.now place }
{
    places
        .iter()
        .any(|other| other.0 == place.0 && other.1 == place.1)
}

/// Adds the line of a fault.
fn push_fault(
    text: &mut String,
    table: &GivenTable<'_>,
    fault: &ReadFault,
) -> Result<(), AllocError>
    ensures { OnOk result
        (string_bytes text.new
        ≡ string_bytes text.old ++ faulty.line_of_fault table.now fault.now) }
{
    let sources = table.input.sources;
    let message = read_message(sources, fault);
    match fault_position(sources, fault) {
        Some((source, position)) => {
            push_line(text, path_of(table.paths, source), Some(position), &message)
        }
        None => push_line(text, table.manifest, None, &message),
    }
}
