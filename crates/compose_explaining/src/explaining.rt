//! `explain`: what it tells of the tables that are read.
ghost use Rattle.std.specs.Prelude.{◌≡◌, ◌∷◌, [], true, false, IfOk, length, string_bytes};
ghost use Rattle.std.specs.Ordering.{nat_cmp};
ghost use Rattle.compose_answer.specs.Parts.{explainable, explain_parts};
ghost use Rattle.compose_migration.specs.Refused.{Returns};
ghost use Rattle.compose_migration.specs.Values.{given_of, parts};
ghost use Rattle.compose_model.specs.Nodes.{leaves, rising};
ghost use Rattle.compose_walk.specs.Explained.{all_explained, explained};
ghost use Rattle.compose_explaining.specs.Sides.{hinted_texts, lined};
ghost use Rattle.compose_explaining.specs.Told.{SaysFollows, SaysNo, Tells, TellsBriefly, TellsInFull, TellsOf};

use crate::sides::{Side, push_hinted};
use compose_answer::{Answer, Refusal, fresh_refusal};
use compose_migration::{Migration, MigrationInput};
use compose_places::PlacedTable;
use compose_report::Told;
use compose_tool::{explain_all_migration, explain_migration};
use compose_tree::{BuildTable, ComposeTable};
use compose_walk::{Counterexample, Differences, Walk, differences, explain, explain_all, walk};
use keysym_core::{Keysym, Names};
use std::alloc::{AllocError, Global};

/// Tells how two tables differ; with `verbose` also where their sequences stand. Each table is read
/// once in either case.
///
/// Errors: the first part that is refused; `NoMemory` if memory runs out.
pub fn explain_tables<T: BuildTable>(
    alloc: Global,
    verbose: bool,
    all: bool,
    input: &MigrationInput<'_, '_>,
    old_side: Side<'_>,
    new_side: Side<'_>,
) -> Result<Told, Refusal>
    ensures { Returns (Tells verbose all old_side.entry new_side.entry input.now) result
        (explain_parts (given_of input.now)) }
{
    if verbose {
        explain_in_full::<T>(alloc, all, input, old_side, new_side)
    } else {
        explain_briefly::<T>(alloc, all, input)
    }
}

/// Tells how two tables differ, and nothing below it.
fn explain_briefly<T: BuildTable>(
    alloc: Global,
    all: bool,
    input: &MigrationInput<'_, '_>,
) -> Result<Told, Refusal>
    ensures { Returns (TellsBriefly all) result (explain_parts (given_of input.now)) }
{
    if all {
        brief_all::<T>(alloc, input)
    } else {
        brief_least::<T>(alloc, input)
    }
}

/// Tells all differences, and nothing below them.
fn brief_all<T: BuildTable>(alloc: Global, input: &MigrationInput<'_, '_>) -> Result<Told, Refusal>
    ensures { Returns (TellsBriefly true) result (explain_parts (given_of input.now)) }
{
    let answer = explain_all_migration::<T>(alloc, input)?;
    let details = String::new(alloc);
    Ok(Told { answer, details })
}

/// Tells the least difference, and nothing below it.
fn brief_least<T: BuildTable>(
    alloc: Global,
    input: &MigrationInput<'_, '_>,
) -> Result<Told, Refusal>
    ensures { Returns (TellsBriefly false) result (explain_parts (given_of input.now)) }
{
    let answer = explain_migration::<T>(alloc, input)?;
    let details = String::new(alloc);
    Ok(Told { answer, details })
}

/// Tells how two tables differ, and where their sequences stand.
fn explain_in_full<T: BuildTable>(
    alloc: Global,
    all: bool,
    input: &MigrationInput<'_, '_>,
    old_side: Side<'_>,
    new_side: Side<'_>,
) -> Result<Told, Refusal>
    ensures { Returns (TellsInFull all old_side.entry new_side.entry input.now) result
        (explain_parts (given_of input.now)) }
{
    let migration: Migration<PlacedTable<'_, T>> = Migration::read(alloc, *input)?;
    let fresh = in_rising_order(alloc, &migration.keys)?;
    tell(alloc, all, &migration, &fresh, old_side, new_side)
}

/// Tells how these tables differ.
fn tell<T: ComposeTable>(
    alloc: Global,
    all: bool,
    migration: &Migration<PlacedTable<'_, T>>,
    fresh: &[Keysym],
    old_side: Side<'_>,
    new_side: Side<'_>,
) -> Result<Told, Refusal>
    requires old { length migration.now.old.lines.items
        ≡ length (leaves (T.definitions migration.now.old.table)) }
    requires new { length migration.now.new.lines.items
        ≡ length (leaves (T.definitions migration.now.new.table)) }
    ensures { Returns (TellsOf all (lined T.definitions old_side.entry migration.now.old)
        (lined T.definitions new_side.entry migration.now.new)) result
        (explainable (parts (λ placed. T.definitions placed.table) migration.now) fresh.now) }
{
    if all {
        tell_all(alloc, migration, fresh, old_side, new_side)
    } else {
        tell_least(alloc, migration, fresh, old_side, new_side)
    }
}

/// Tells the least difference of these tables.
fn tell_least<T: ComposeTable>(
    alloc: Global,
    migration: &Migration<PlacedTable<'_, T>>,
    fresh: &[Keysym],
    old_side: Side<'_>,
    new_side: Side<'_>,
) -> Result<Told, Refusal>
    requires old { length migration.now.old.lines.items
        ≡ length (leaves (T.definitions migration.now.old.table)) }
    requires new { length migration.now.new.lines.items
        ≡ length (leaves (T.definitions migration.now.new.table)) }
    ensures { Returns (TellsOf false (lined T.definitions old_side.entry migration.now.old)
        (lined T.definitions new_side.entry migration.now.new)) result
        (explainable (parts (λ placed. T.definitions placed.table) migration.now) fresh.now) }
{
    let (names, old, new) = (&migration.names, &migration.old, &migration.new);
    let found = match walk(alloc, &old.table, &new.table, names, fresh) {
        Ok(found) => found,
        Err(fault) => return Err(fresh_refusal(fault)),
    };
    match found {
        Walk::Differs(least) => Ok(least_told(alloc, names, least, old_side, new_side, old, new)?),
        Walk::Follows(_pairs) => Ok(follows(alloc)?),
    }
}

/// Tells all differences of these tables.
fn tell_all<T: ComposeTable>(
    alloc: Global,
    migration: &Migration<PlacedTable<'_, T>>,
    fresh: &[Keysym],
    old_side: Side<'_>,
    new_side: Side<'_>,
) -> Result<Told, Refusal>
    requires old { length migration.now.old.lines.items
        ≡ length (leaves (T.definitions migration.now.old.table)) }
    requires new { length migration.now.new.lines.items
        ≡ length (leaves (T.definitions migration.now.new.table)) }
    ensures { Returns (TellsOf true (lined T.definitions old_side.entry migration.now.old)
        (lined T.definitions new_side.entry migration.now.new)) result
        (explainable (parts (λ placed. T.definitions placed.table) migration.now) fresh.now) }
{
    let (names, old, new) = (&migration.names, &migration.old, &migration.new);
    let found = match differences(alloc, &old.table, &new.table, names, fresh) {
        Ok(found) => found,
        Err(fault) => return Err(fresh_refusal(fault)),
    };
    if found.is_empty() {
        return Ok(follows(alloc)?);
    }
    Ok(all_told(alloc, names, &found, old_side, new_side, old, new)?)
}

/// Tells this least difference.
fn least_told<T: ComposeTable>(
    alloc: Global,
    names: &Names,
    least: Counterexample,
    old_side: Side<'_>,
    new_side: Side<'_>,
    old: &PlacedTable<'_, T>,
    new: &PlacedTable<'_, T>,
) -> Result<Told, AllocError>
    requires old { length old.now.lines.items ≡ length (leaves (T.definitions old.now.table)) }
    requires new { length new.now.lines.items ≡ length (leaves (T.definitions new.now.table)) }
    ensures answer { IfOk result (λ told. SaysNo (explained names.now least) told.answer) }
    ensures details { IfOk result
        (λ told. string_bytes told.details
        ≡ hinted_texts names.now (lined T.definitions old_side.entry old.now)
        (lined T.definitions new_side.entry new.now) (least ∷ [])) }
{
    let text = least_text(alloc, names, &least)?;
    let shown = [least];
    let details = details_of(alloc, names, &shown, old_side, new_side, old, new)?;
    Ok(Told {
        answer: Answer::No(text),
        details,
    })
}

/// Tells all of these differences.
fn all_told<T: ComposeTable>(
    alloc: Global,
    names: &Names,
    all: &Differences,
    old_side: Side<'_>,
    new_side: Side<'_>,
    old: &PlacedTable<'_, T>,
    new: &PlacedTable<'_, T>,
) -> Result<Told, AllocError>
    requires old { length old.now.lines.items ≡ length (leaves (T.definitions old.now.table)) }
    requires new { length new.now.lines.items ≡ length (leaves (T.definitions new.now.table)) }
    ensures answer { IfOk result (λ told. SaysNo (all_explained names.now all.now) told.answer) }
    ensures details { IfOk result
        (λ told. string_bytes told.details
        ≡ hinted_texts names.now (lined T.definitions old_side.entry old.now)
        (lined T.definitions new_side.entry new.now) all.now) }
{
    let text = all_text(alloc, names, all)?;
    let details = details_of(alloc, names, all.as_slice(), old_side, new_side, old, new)?;
    Ok(Told {
        answer: Answer::No(text),
        details,
    })
}

/// Returns where the sequences of these differences stand.
fn details_of<T: ComposeTable>(
    alloc: Global,
    names: &Names,
    shown: &[Counterexample],
    old_side: Side<'_>,
    new_side: Side<'_>,
    old: &PlacedTable<'_, T>,
    new: &PlacedTable<'_, T>,
) -> Result<String, AllocError>
    requires old { length old.now.lines.items ≡ length (leaves (T.definitions old.now.table)) }
    requires new { length new.now.lines.items ≡ length (leaves (T.definitions new.now.table)) }
    ensures { IfOk result
        (λ text. string_bytes text
        ≡ hinted_texts names.now (lined T.definitions old_side.entry old.now)
        (lined T.definitions new_side.entry new.now) shown.now) }
{
    let mut text = String::new(alloc);
    push_hinted(alloc, &mut text, names, old_side, new_side, old, new, shown)?;
    Ok(text)
}

/// Tells that the new table follows.
fn follows(alloc: Global) -> Result<Told, AllocError>
    ensures answer { IfOk result (λ told. SaysFollows told.answer) }
    ensures details { IfOk result (λ told. string_bytes told.details ≡ []) }
{
    Ok(Told {
        answer: Answer::Yes(String::from_str(alloc, "follows\n")?),
        details: String::new(alloc),
    })
}

/// Returns the four lines of a counterexample.
fn least_text(alloc: Global, names: &Names, least: &Counterexample) -> Result<String, AllocError>
    ensures { IfOk result (λ text. string_bytes text ≡ explained names.now least.now) }
{
    match explain(alloc, names, least) {
        Ok(text) => Ok(text),
        Err(_) => Err(AllocError),
    }
}

/// Returns the lines of all differences.
fn all_text(alloc: Global, names: &Names, all: &Differences) -> Result<String, AllocError>
    ensures { IfOk result (λ text. string_bytes text ≡ all_explained names.now all.now) }
{
    match explain_all(alloc, names, all) {
        Ok(text) => Ok(text),
        Err(_) => Err(AllocError),
    }
}

/// Returns the keysyms in rising order, each once.
fn in_rising_order(alloc: Global, keys: &[Keysym]) -> Result<Vec<Keysym>, AllocError>
    ensures { IfOk result (λ fresh. fresh.items ≡ rising nat_cmp keys.now) }
{
    let mut fresh = Vec::from_slice(alloc, keys)?;
    fresh.sort()?;
    fresh.dedup();
    Ok(fresh)
}
