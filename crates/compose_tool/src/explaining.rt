//! `explain`: the keys on which two tables differ.
ghost use Rattle.std.specs.Prelude.{◌≡◌, string_bytes, IfOk};
ghost use Rattle.compose_migration.specs.Values.{given_of, parts};
ghost use Rattle.compose_walk.specs.Explained.{explained, all_explained};
ghost use Rattle.compose_answer.specs.Parts.{explainable, explain_parts};
ghost use Rattle.compose_migration.specs.Refused.{Returns};
ghost use Rattle.compose_tool.specs.Answers.{IsExplained, IsAllExplained};

use crate::fresh::in_rising_order;
use compose_answer::{Answer, Refusal, fresh_refusal};
use compose_migration::{Migration, MigrationInput};
use compose_tree::{BuildTable, ComposeTable};
use compose_walk::{Counterexample, Differences, Walk, differences, explain, explain_all, walk};
use keysym_core::{Keysym, Names};
use std::alloc::{AllocError, Global};

/// Answers with the shortest keys on which the tables differ, the first of several in the order of
/// sequences, and with what each table commits; or that the new table follows. The key names are
/// those of the fresh keysyms, which are sorted. It costs what reading the tables and `walk` do.
///
/// The parts are read in the order names, key names, old table, new table, and then the fresh
/// keysyms are checked. Errors: the first of these that is refused; `NoMemory` if memory runs out.
pub fn explain_migration<T: BuildTable>(
    alloc: Global,
    input: &MigrationInput<'_, '_>,
) -> Result<Answer, Refusal>
    ensures { Returns IsExplained result (explain_parts (given_of input.entry.now)) }
{
    let migration: Migration<T> = Migration::read(alloc, *input)?;
    let fresh = in_rising_order(alloc, &migration.keys)?;
    explain_tables(alloc, &migration, &fresh)
}

/// Answers with the difference of these tables.
fn explain_tables<T: ComposeTable>(
    alloc: Global,
    migration: &Migration<T>,
    fresh: &[Keysym],
) -> Result<Answer, Refusal>
    ensures { Returns IsExplained result (explainable (parts T.definitions migration.now) fresh.now) }
{
    let names = &migration.names;
    let found = match walk(alloc, &migration.old, &migration.new, names, fresh) {
        Ok(found) => found,
        Err(fault) => return Err(fresh_refusal(fault)),
    };
    match found {
        Walk::Differs(least) => Ok(Answer::No(counterexample_text(alloc, names, &least)?)),
        Walk::Follows(_pairs) => Ok(Answer::Yes(String::from_str(alloc, "follows\n")?)),
    }
}

/// Answers with all differences of the tables, the shortest first, and with their number; or that
/// the new table follows. The first is the one of `explain_migration`. It costs what reading the
/// tables and `differences` do.
///
/// Errors: those of `explain_migration`.
pub fn explain_all_migration<T: BuildTable>(
    alloc: Global,
    input: &MigrationInput<'_, '_>,
) -> Result<Answer, Refusal>
    ensures { Returns IsAllExplained result (explain_parts (given_of input.entry.now)) }
{
    let migration: Migration<T> = Migration::read(alloc, *input)?;
    let fresh = in_rising_order(alloc, &migration.keys)?;
    explain_all_tables(alloc, &migration, &fresh)
}

/// Answers with all differences of these tables.
fn explain_all_tables<T: ComposeTable>(
    alloc: Global,
    migration: &Migration<T>,
    fresh: &[Keysym],
) -> Result<Answer, Refusal>
    ensures { Returns IsAllExplained result
        (explainable (parts T.definitions migration.now) fresh.now) }
{
    let names = &migration.names;
    let found = match differences(alloc, &migration.old, &migration.new, names, fresh) {
        Ok(found) => found,
        Err(fault) => return Err(fresh_refusal(fault)),
    };
    if found.is_empty() {
        return Ok(Answer::Yes(String::from_str(alloc, "follows\n")?));
    }
    Ok(Answer::No(print_differences(alloc, names, &found)?))
}

/// Returns the four lines of a counterexample. `Err(AllocError)` if memory runs out.
pub fn counterexample_text(
    alloc: Global,
    names: &Names,
    counterexample: &Counterexample,
) -> Result<String, AllocError>
    ensures { IfOk result (λ text. string_bytes text ≡ explained names.now counterexample.now) }
{
    match explain(alloc, names, counterexample) {
        Ok(text) => Ok(text),
        Err(_) => Err(AllocError),
    }
}

/// Returns the lines of all differences.
fn print_differences(
    alloc: Global,
    names: &Names,
    differences: &Differences,
) -> Result<String, AllocError>
    ensures { IfOk result (λ text. string_bytes text ≡ all_explained names.now differences.now) }
{
    match explain_all(alloc, names, differences) {
        Ok(text) => Ok(text),
        Err(_) => Err(AllocError),
    }
}
