//! `make`: makes a certificate, or says why there is none.
ghost use Rattle.std.specs.Prelude.{◌≡◌, ◌++◌, string_bytes, codes, true, IfOk};
ghost use Rattle.std.specs.Fmt.{digits};
ghost use Rattle.keysym_core.specs.Printed.{at_least_four};
ghost use Rattle.compose_migration.specs.Values.{given_of, parts};
ghost use Rattle.compose_cert.specs.Spelling.{Spells};
ghost use Rattle.compose_answer.specs.Parts.{makeable, make_parts};
ghost use Rattle.compose_migration.specs.Refused.{Returns};
ghost use Rattle.compose_tool.specs.Answers.{IsMadeText, needs_of, one_line};

use crate::explaining::counterexample_text;
use crate::fresh::in_rising_order;
use compose_answer::{Answer, Refusal, fresh_refusal};
use compose_cert::{Certificate, Repertoire};
use compose_make::{Made, make};
use compose_migration::{Migration, MigrationInput, read_repertoire};
use compose_tree::{BuildTable, ComposeTable};
use keysym_core::{Keysym, ShownChar};
use std::alloc::{AllocError, Global};

/// Makes the text of a certificate that the new table follows the old one and types what people
/// need; or answers with the shortest keys on which they differ, or with the first character that
/// can't be typed. The key names are those of the fresh keysyms, which are sorted. It costs what
/// reading the parts and `make` do.
///
/// The parts are read in the order names, key names, old table, new table, repertoire, and then the
/// fresh keysyms are checked. Errors: the first of these that is refused; `NoMemory` if memory runs
/// out.
pub fn make_migration<T: BuildTable>(
    alloc: Global,
    input: &MigrationInput<'_, '_>,
    repertoire: &[u8],
) -> Result<Answer, Refusal>
    ensures { Returns IsMadeText result (make_parts (given_of input.entry.now) repertoire.now) }
{
    let migration: Migration<T> = Migration::read(alloc, *input)?;
    make_from(alloc, &migration, repertoire)
}

/// Makes the text of a certificate for these tables.
fn make_from<T: ComposeTable>(
    alloc: Global,
    migration: &Migration<T>,
    repertoire: &[u8],
) -> Result<Answer, Refusal>
    ensures { Returns IsMadeText result (needs_of (parts T.definitions migration.now) repertoire.now) }
{
    let repertoire = read_repertoire(alloc, repertoire)?;
    let fresh = in_rising_order(alloc, &migration.keys)?;
    print_made(alloc, migration, &repertoire, &fresh)
}

/// Answers with what is made from these tables.
fn print_made<T: ComposeTable>(
    alloc: Global,
    migration: &Migration<T>,
    repertoire: &Repertoire,
    fresh: &[Keysym],
) -> Result<Answer, Refusal>
    ensures { Returns IsMadeText result
        (makeable (parts T.definitions migration.now) repertoire.now fresh.now) }
{
    let names = &migration.names;
    let made = match make(
        alloc,
        &migration.old,
        &migration.new,
        names,
        repertoire,
        fresh,
    ) {
        Ok(made) => made,
        Err(fault) => return Err(fresh_refusal(fault)),
    };
    match made {
        Made::Made(certificate) => Ok(Answer::Yes(spell(alloc, &certificate)?)),
        Made::Differs(least) => Ok(Answer::No(counterexample_text(alloc, names, &least)?)),
        Made::Unreachable(character) => Ok(Answer::No(unreachable_line(alloc, character)?)),
    }
}

/// Returns the text of a certificate. `Err(AllocError)` if memory runs out.
pub fn spell(alloc: Global, certificate: &Certificate) -> Result<String, AllocError>
    ensures { IfOk result (λ text. Spells (string_bytes text) certificate.now) }
{
    certificate.write_text(alloc).map_err(|_| AllocError)
}

/// Returns the line of a character that no list of keys types.
fn unreachable_line(alloc: Global, character: char) -> Result<String, AllocError>
    ensures { IfOk result (λ text. string_bytes text ≡ one_line (codes "unreachable U+" ++ at_least_four (digits 16 true character))) }
{
    let shown = ShownChar(character);
    format!(in alloc; "unreachable {shown}\n")
}
