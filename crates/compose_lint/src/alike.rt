//! The places of texts that look like others.
ghost use Rattle.std.specs.Prelude.{◌≡◌, ℕ, List, [], ◌∷◌, IfOk, OnOk, Some, None, if◌then◌else◌, bytes_eq, string_bytes};
ghost use Rattle.std.specs.Option.{option_or};
ghost use Rattle.indexmap.specs.IndexMap.{get_by_text};
ghost use Rattle.compose_lint.specs.Alike.{form_place};
ghost use Rattle.compose_lint.specs.Lines.{all_lines};

use crate::finding::LinePlace;
use crate::lines::LintLine;
use crate::source_lines::SourceLines;
use crate::texts::{is_normal, normal_form};
use indexmap::IndexMap;
use std::alloc::{AllocError, Global};

/// For each text in normal form C: the place of the first line that produces another text with this
/// normal form C.
pub(crate) type FormPlaces = IndexMap<String, LinePlace>;

/// Returns, for each text in normal form C, the place of the first of these lines that produces
/// another text with this normal form C. O(characters), and memory for the texts that are not in
/// normal form C.
pub(crate) fn form_places(
    alloc: Global,
    files: &[SourceLines<'_>],
) -> Result<FormPlaces, AllocError>
    ensures { IfOk result
        (λ places. (q : List ℕ)
        → get_by_text places q ≡ form_place (all_lines files.now) q) }
{
    let mut places = IndexMap::new(alloc);
    for file in files {
        add_lines(alloc, &mut places, file.lines())?;
    }
    Ok(places)
}

/// Adds the places of these lines, which follow the lines added before.
fn add_lines(
    alloc: Global,
    places: &mut FormPlaces,
    lines: &[LintLine<'_>],
) -> Result<(), AllocError>
    ensures { OnOk result
        ((q : List ℕ)
        → get_by_text places.new q
        ≡ option_or (get_by_text places.old q) (form_place lines.now q)) }
{
    for line in lines {
        add_line(alloc, places, line)?;
    }
    Ok(())
}

/// Adds the place of this line, which follows the lines added before.
fn add_line(alloc: Global, places: &mut FormPlaces, line: &LintLine<'_>) -> Result<(), AllocError>
    ensures { OnOk result
        ((q : List ℕ)
        → get_by_text places.new q
        ≡ option_or (get_by_text places.old q) (form_place (line.now ∷ []) q)) }
{
    let Some(definition) = line.definition() else {
        return Ok(());
    };
    if is_normal(alloc, definition.text())? {
        return Ok(());
    }
    let form = normal_form(alloc, definition.text())?;
    add_first(places, form, line.place())?;
    Ok(())
}

/// Adds the place for the normal form, unless it already has one.
fn add_first(places: &mut FormPlaces, form: String, place: LinePlace) -> Result<(), AllocError>
    ensures { OnOk result
        ((q : List ℕ)
        → get_by_text places.new q
        ≡ option_or (get_by_text places.old q)
        (if bytes_eq (string_bytes form) q then Some place else None)) }
{
    if !places.contains_key(form.as_str()) {
        places.insert(form, place)?;
    }
    Ok(())
}
