//! The keysym that a line names as its result.
ghost use Rattle.std.specs.Prelude.{◌≡◌, ℕ, List, Some};
ghost use Rattle.std.specs.Option.{option_and_then};
ghost use Rattle.keysym_core.specs.Names.{value};
ghost use Rattle.compose_places.specs.Events.{line_events};
ghost use Rattle.compose_results.specs.Results.{result_name};
ghost use Rattle.compose_results.specs.SourceLines.{line_in};

use crate::lines::{SourceLines, line_at};
use crate::name::result_name;
use compose_places::DefinitionPlace;
use keysym_core::{Keysym, Names};

/// Returns the keysym that the line at this place names, if it is a definition. O(bytes of the
/// line).
pub(crate) fn named_at(
    names: &Names,
    all: &[SourceLines<'_>],
    place: DefinitionPlace,
) -> Option<Keysym>
    ensures { (line : List ℕ) (events : List (List ℕ)) → line_in all.now place ≡ Some line
        → line_events line ≡ Some events
        → result ≡ option_and_then (value names.now) (result_name line) }
{
    let line = line_at(all, place)?;
    let name = result_name(line)?;
    names.lookup(name)
}
