//! The places of longer sequences.
ghost use Rattle.std.specs.Prelude.{◌≡◌, ℕ, List, [], ◌∷◌, IfOk, OnOk, bytes_eq, Some, None, if◌then◌else◌};
ghost use Rattle.std.specs.Borrow.{Bor};
ghost use Rattle.std.specs.Option.{option_or};
ghost use Rattle.indexmap.specs.IndexMap.{get_by};
ghost use Rattle.compose_model.specs.Table.{is_proper_prefix};
ghost use Rattle.compose_lint.specs.Lines.{all_lines};
ghost use Rattle.compose_lint.specs.Longer.{longer_place, IsClosed};

use crate::finding::LinePlace;
use crate::lines::LintLine;
use crate::source_lines::SourceLines;
use indexmap::IndexMap;
use keysym_core::Keysym;
use std::alloc::{AllocError, Global};

/// For each proper prefix of a sequence, the place of the last line that defines a longer sequence.
pub(crate) type LongerPlaces<'a> = IndexMap<&'a [Keysym], LinePlace>;

/// Returns, for each proper prefix of a sequence of these lines, the place of the last line that
/// defines a longer sequence. O(keysyms²) for each sequence, which has 32 keysyms at
/// most; O(keysyms) if its longest proper prefix is one of a later line too.
pub(crate) fn longer_places<'a>(
    alloc: Global,
    files: &'a [SourceLines<'_>],
) -> Result<LongerPlaces<'a>, AllocError>
    ensures { IfOk result
        (λ places. (q : Bor (List ℕ))
        → get_by (λ k. bytes_eq q.now k.now) places ≡ longer_place (all_lines files.now) q.now) }
{
    let mut places = IndexMap::new(alloc);
    let mut at = files.len();
    while at > 0 {
        at -= 1;
        add_lines(&mut places, files[at].lines())?;
    }
    Ok(places)
}

/// Adds the places of these lines, which precede the lines added before.
fn add_lines<'a>(places: &mut LongerPlaces<'a>, lines: &'a [LintLine<'_>]) -> Result<(), AllocError>
    requires { IsClosed (λ (q : List ℕ). get_by (λ k. bytes_eq q k.now) places.old) }
    ensures { OnOk result
        ((q : Bor (List ℕ))
        → get_by (λ k. bytes_eq q.now k.now) places.new
        ≡ option_or (get_by (λ k. bytes_eq q.now k.now) places.old)
        (longer_place lines.now q.now)) }
{
    let mut at = lines.len();
    while at > 0 {
        at -= 1;
        add_line(places, &lines[at])?;
    }
    Ok(())
}

/// Adds the places of this line, which precedes the lines added before.
fn add_line<'a>(places: &mut LongerPlaces<'a>, line: &'a LintLine<'_>) -> Result<(), AllocError>
    requires { IsClosed (λ (q : List ℕ). get_by (λ k. bytes_eq q k.now) places.old) }
    ensures { OnOk result
        ((q : Bor (List ℕ))
        → get_by (λ k. bytes_eq q.now k.now) places.new
        ≡ option_or (get_by (λ k. bytes_eq q.now k.now) places.old)
        (longer_place (line.now ∷ []) q.now)) }
{
    match line.definition() {
        Some(definition) => add_prefixes(places, definition.sequence(), line.place()),
        None => Ok(()),
    }
}

/// Sets the place for each proper prefix of the sequence that has none. If one has a place, all
/// shorter ones do.
fn add_prefixes<'a>(
    places: &mut LongerPlaces<'a>,
    sequence: &'a [Keysym],
    place: LinePlace,
) -> Result<(), AllocError>
    requires { IsClosed (λ (q : List ℕ). get_by (λ k. bytes_eq q k.now) places.old) }
    ensures { OnOk result
        ((q : Bor (List ℕ))
        → get_by (λ k. bytes_eq q.now k.now) places.new
        ≡ option_or (get_by (λ k. bytes_eq q.now k.now) places.old)
        (if is_proper_prefix q.now sequence.now then Some place else None)) }
{
    let mut len = sequence.len();
    while len > 0 {
        len -= 1;
        if places.contains_key(&sequence[..len]) {
            return Ok(());
        }
        places.insert(&sequence[..len], place)?;
    }
    Ok(())
}
