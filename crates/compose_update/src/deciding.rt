//! The decision of an update.
ghost use Rattle.std.specs.Prelude.{◌≡◌, Some, None, string_bytes};
ghost use Rattle.std.specs.Option.{option_map};
ghost use Rattle.compose_migration.specs.Values.{given_of};
ghost use Rattle.compose_update.specs.Update.{Updates, StoresWith, given_update, itself, move_from};

use compose_answer::{Answer, Refusal};
use compose_bundle::{BundleFault, write_bundle};
use compose_migration::{MigrationInput, TableInput};
use compose_model::Rule;
use compose_read::Sources;
use compose_tool::make_migration;
use compose_tree::BuildTable;
use std::alloc::Global;
use thiserror::Error;

/// The input of an update. In both tables the longer of two overlapping sequences counts.
#[derive(Clone, Copy)]
pub struct UpdateInput<'a, 'w> {
    /// A header of names, which is added to the core names.
    pub header: &'a [u8],
    /// The key names of the fresh keysyms: new sequences may start with these.
    pub fresh: &'a [&'w str],
    /// The sources of the table that is in use, the root first; `None` if there is no such table
    /// yet.
    pub current: Option<&'a Sources<'a>>,
    /// The sources of the new table, the root first.
    pub new: &'a Sources<'a>,
    /// The characters that people need, and their keys.
    pub repertoire: &'a [u8],
}

/// The outcome of an update.
#[derive(Debug, PartialEq, Eq, Drop)]
pub enum Update {
    /// The new table replaces the one in use.
    Replaced {
        /// The bytes to store: the bundle of the new table's sources and of a certificate for the
        /// table against itself.
        stored: Vec<u8>,
        /// The certificate with which a running service takes the new table; `None` if no table was
        /// in use.
        certificate: Option<String>,
    },
    /// Typing would change, or a character can't be typed. The text is the lines that `make`
    /// prints. Nothing is stored.
    Refused(String),
}

/// Why there is no decision.
#[derive(Debug, PartialEq, Eq, Drop, Error)]
pub enum UpdateFault {
    /// A part of the input is refused, or memory ran out.
    #[error("{0}")]
    Input(Refusal),
    /// The bundle of the new table and its certificate is larger than 8,388,608 bytes, or there is
    /// no source.
    #[error("1 TooLarge")]
    TooLarge,
}

/// Returns the bytes to store from now on, and the certificate for a running service; or why
/// everything stays as it is. The new table is compared with the one in use, and then with itself.
/// It costs two calls of `make_migration`.
///
/// The parts are read in the order of `make_migration`. Errors: `Input` with the first of them that
/// is refused, or if memory runs out; `TooLarge` if no load can carry the new table and its
/// certificate.
pub fn decide_update<T: BuildTable>(
    alloc: Global,
    input: &UpdateInput<'_, '_>,
) -> Result<Update, UpdateFault>
    ensures { Updates (given_update input.entry.now) result }
{
    match input.current {
        None => store::<T>(alloc, input, None),
        Some(current) => follow::<T>(alloc, input, current),
    }
}

/// Decides the update of a table that is in use.
fn follow<T: BuildTable>(
    alloc: Global,
    input: &UpdateInput<'_, '_>,
    current: &Sources,
) -> Result<Update, UpdateFault>
    ensures { option_map (λ sources. sources.now) input.entry.now.current ≡ Some current.now
        → Updates (given_update input.entry.now) result }
{
    let migration = MigrationInput {
        header: input.header,
        key_names: input.fresh,
        old: whole(current),
        new: whole(input.new),
    };
    match make_migration::<T>(alloc, &migration, input.repertoire) {
        Ok(Answer::Yes(certificate)) => store::<T>(alloc, input, Some(certificate)),
        Ok(Answer::No(text)) => Ok(Update::Refused(text)),
        Ok(Answer::Invalid(_) | Answer::FreshNotAllowed(_)) => unreachable!(),
        Err(refusal) => Err(UpdateFault::Input(refusal)),
    }
}

/// Stores the new table, which a running service takes with this certificate.
fn store<T: BuildTable>(
    alloc: Global,
    input: &UpdateInput<'_, '_>,
    certificate: Option<String>,
) -> Result<Update, UpdateFault>
    ensures { StoresWith (given_update input.entry.now) (option_map string_bytes certificate) result }
{
    let migration = MigrationInput {
        header: input.header,
        key_names: &[],
        old: whole(input.new),
        new: whole(input.new),
    };
    match make_migration::<T>(alloc, &migration, input.repertoire) {
        Ok(Answer::Yes(itself)) => match write_bundle(alloc, input.new, itself.as_bytes()) {
            Ok(stored) => Ok(Update::Replaced {
                stored,
                certificate,
            }),
            Err(BundleFault::NoMemory) => Err(UpdateFault::Input(Refusal::NoMemory)),
            Err(_) => Err(UpdateFault::TooLarge),
        },
        Ok(Answer::No(text)) => Ok(Update::Refused(text)),
        Ok(Answer::Invalid(_) | Answer::FreshNotAllowed(_)) => unreachable!(),
        Err(refusal) => Err(UpdateFault::Input(refusal)),
    }
}

/// Describes the table of these sources; the longest of overlapping sequences counts.
fn whole<'a>(sources: &'a Sources) -> TableInput<'a>
    ensures sources { result.sources.now ≡ sources.now }
    ensures rule { result.rule ≡ Rule.Longest }
{
    TableInput {
        sources,
        rule: Rule::Longest,
    }
}
