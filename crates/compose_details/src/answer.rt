//! What is printed below an answer.
ghost use Rattle.std.specs.Prelude.{◌≡◌, ◌++◌, OnOk, IfOk, string_bytes};
ghost use Rattle.compose_details.specs.Answers.{IsAnswerDetails, unpromised_line, yes_lines};

use crate::definitions::PlacedTable;
use crate::faulty::root_of;
use crate::given::{Given, GivenTable};
use crate::pairs::{FaultyPair, faulty_pair, keys_to, push_pair};
use crate::refusal::push_keysyms;
use crate::sides::{SideTable, push_hinted_differences, push_side};
use compose_answer::Answer;
use compose_cert::{CertFault, Certificate};
use compose_migration::{Migration, MigrationInput, Refusal};
use compose_places::{DefinitionPlace, definition_places, last_definitions};
use compose_read::{Definitions, ReadFault, read_definitions};
use compose_tree::{BuildTable, ComposeTable};
use compose_walk::{MakeFault, differences};
use keysym_core::{Keysym, Names};
use std::alloc::{AllocError, Global};

/// Returns what `-v` adds to an answer, as lines. If the tables differ: where they first do, the
/// definitions that count in both, and a hint if this is a key that starts a sequence in the new
/// table but none in the old one. If a fresh keysym is not allowed: its name. If the answer
/// is yes: the fresh keysyms of the certificate, unless arguments allow some.
///
/// Costs reading the tables once more, and computing their `differences`.
///
/// Errors: `AllocError` if memory runs out.
pub fn answer_details<T: BuildTable>(
    alloc: Global,
    given: &Given<'_>,
    answer: &Answer,
) -> Result<String, AllocError>
    ensures { IfOk result
        (λ text. IsAnswerDetails given.now answer.now (string_bytes text)) }
{
    let mut text = String::new(alloc);
    match answer {
        Answer::No(_) => push_moved::<T>(alloc, &mut text, given, None)?,
        Answer::Invalid(fault) => {
            if let Some(pair) = faulty_pair(alloc, given.certificate_text, fault)? {
                push_moved::<T>(alloc, &mut text, given, Some(pair))?;
            }
        }
        Answer::FreshNotAllowed(keysym) => push_unpromised(alloc, &mut text, given, &[*keysym])?,
        Answer::Yes(_) => push_fresh(alloc, &mut text, given)?,
    }
    Ok(text)
}

/// Adds the fresh keysyms of a certificate, for which nothing is promised, if no argument allows
/// any.
fn push_fresh(alloc: Global, text: &mut String, given: &Given<'_>) -> Result<(), AllocError>
    ensures { OnOk result
        (string_bytes text.new ≡ string_bytes text.old ++ yes_lines given.now) }
{
    if given.certificate_text.is_empty() || !given.arguments.is_empty() {
        return Ok(());
    }
    match Certificate::read(alloc, given.certificate_text) {
        Ok(certificate) => push_unpromised(alloc, text, given, certificate.fresh_keys()),
        Err(CertFault::NoMemory) => Err(AllocError),
        Err(_) => Ok(()),
    }
}

/// Adds the line of the keysyms for which nothing is promised.
fn push_unpromised(
    alloc: Global,
    text: &mut String,
    given: &Given<'_>,
    keysyms: &[Keysym],
) -> Result<(), AllocError>
    ensures { OnOk result
        (string_bytes text.new
        ≡ string_bytes text.old ++ unpromised_line given.now keysyms.now) }
{
    push_keysyms(
        alloc,
        text,
        given.header,
        "nothing is promised for",
        keysyms,
    )
}

/// Adds the lines of the pair, or else of the differences, of the two tables that were given.
fn push_moved<T: BuildTable>(
    alloc: Global,
    text: &mut String,
    given: &Given<'_>,
    pair: Option<FaultyPair>,
) -> Result<(), AllocError> {
    let (Some(old), Some(new)) = (given.tables.first(), given.tables.get(1)) else {
        return Ok(());
    };
    let input = MigrationInput {
        header: given.header,
        key_names: given.arguments,
        old: old.input,
        new: new.input,
    };
    match Migration::<T>::read(alloc, input) {
        Ok(migration) => push_migration(alloc, text, given, old, new, &migration, pair),
        Err(Refusal::NoMemory) => Err(AllocError),
        Err(_) => Ok(()),
    }
}

/// Adds the lines of the pair, or else of the differences, of a migration.
fn push_migration<'a, T: ComposeTable>(
    alloc: Global,
    text: &mut String,
    given: &Given<'_>,
    old: &GivenTable<'a>,
    new: &GivenTable<'a>,
    migration: &'a Migration<T>,
    pair: Option<FaultyPair>,
) -> Result<(), AllocError> {
    let names = &migration.names;
    let Some(old_read) = ReadTable::read(alloc, names, old, &migration.old)? else {
        return Ok(());
    };
    let Some(new_read) = ReadTable::read(alloc, names, new, &migration.new)? else {
        return Ok(());
    };
    let old = old_read.side(names, old.manifest, old.paths);
    let new = new_read.side(names, new.manifest, new.paths);
    match pair {
        Some(pair) => push_faulty_pair(alloc, text, migration, &old, &new, pair),
        None => push_found(alloc, text, migration, &old, &new),
    }
}

/// Adds the lines of the first difference, and a hint if one helps.
fn push_found<T: ComposeTable>(
    alloc: Global,
    text: &mut String,
    migration: &Migration<T>,
    old: &SideTable<'_>,
    new: &SideTable<'_>,
) -> Result<(), AllocError> {
    let mut fresh = Vec::from_slice(alloc, &migration.keys)?;
    fresh.sort()?;
    fresh.dedup();
    let names = &migration.names;
    let found = match differences(alloc, &migration.old, &migration.new, names, &fresh) {
        Ok(found) => found,
        Err(MakeFault::NoMemory) => return Err(AllocError),
        Err(_) => return Ok(()),
    };
    let all = found.as_slice();
    push_hinted_differences(alloc, text, old, new, &all[..all.len().min(1)])
}

/// Adds the lines of a pair of a certificate: the keys that lead to it, and the places of the
/// sequences that go on with the key.
fn push_faulty_pair<T: ComposeTable>(
    alloc: Global,
    text: &mut String,
    migration: &Migration<T>,
    old: &SideTable<'_>,
    new: &SideTable<'_>,
    pair: FaultyPair,
) -> Result<(), AllocError> {
    let old_keys = keys_to(alloc, &migration.old, old.placed.definitions, pair.old)?;
    let new_keys = keys_to(alloc, &migration.new, new.placed.definitions, pair.new)?;
    let (Some(mut old_keys), Some(mut new_keys)) = (old_keys, new_keys) else {
        return Ok(());
    };
    push_pair(alloc, text, &migration.names, &old_keys, &new_keys)?;
    old_keys.push(pair.keysym)?;
    new_keys.push(pair.keysym)?;
    push_side(alloc, text, old, &old_keys)?;
    push_side(alloc, text, new, &new_keys)
}

/// The definitions of a table, their places, and which of them count.
#[derive(Drop)]
struct ReadTable {
    definitions: Definitions,
    places: Vec<DefinitionPlace>,
    counting: Vec<Option<u32>>,
}

impl ReadTable {
    /// Reads a table that was built, once more.
    fn read<T: ComposeTable>(
        alloc: Global,
        names: &Names,
        table: &GivenTable<'_>,
        built: &T,
    ) -> Result<Option<ReadTable>, AllocError> {
        let sources = table.input.sources;
        let root = root_of(sources);
        let definitions = match read_definitions(alloc, names, sources, root) {
            Ok(definitions) => definitions,
            Err(ReadFault::NoMemory) => return Err(AllocError),
            Err(_) => return Ok(None),
        };
        let places = definition_places(alloc, sources, root)?;
        let counting = last_definitions(alloc, &definitions, built)?;
        Ok(Some(ReadTable {
            definitions,
            places,
            counting,
        }))
    }

    /// Borrows this table as a side.
    fn side<'a>(
        &'a self,
        names: &'a Names,
        manifest: &'a str,
        paths: &'a [String],
    ) -> SideTable<'a> {
        SideTable {
            manifest,
            placed: PlacedTable {
                names,
                paths,
                definitions: &self.definitions,
                places: &self.places,
            },
            counting: &self.counting,
        }
    }
}
