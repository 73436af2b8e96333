//! Checking a certificate on bytes.
ghost use Rattle.std.specs.Prelude.{◌≡◌, Result, Ok, map};
ghost use Rattle.compose_model.specs.Follows.{Follows, Waits};
ghost use Rattle.compose_model.specs.Certificate.{IsValid, TypesAll};
ghost use Rattle.compose_migration.specs.Migration.{NoAnswer, migration_of};
ghost use Rattle.compose_migration.specs.Refused.{IsRefused, Returns};
ghost use Rattle.compose_migration.specs.Values.{parts};
ghost use Rattle.compose_check.specs.Input.{Parts, allowed_parts, certified_parts, parts_of, verdict_on, with_key_names};
ghost use Rattle.compose_check.specs.CheckReturns.{CheckReturns, InputRefused, IsOfInput, Promises, input_of, parts_read};

use crate::verdict::{Verdict, check};
use compose_cert::{CertFault, Certificate, Repertoire, RepertoireFault};
use compose_migration::{
    Migration, MigrationInput, Refusal, Side, TableInput, read_certificate, read_repertoire,
};
use compose_model::Rule;
use compose_read::Sources;
use compose_tree::{BuildTable, ComposeTable, TableFault};
use keysym_core::NameFault;
use std::alloc::Global;
use thiserror::Error;

/// The input of a check, in the order in which it is read. The root of a table is its first source.
#[derive(Clone, Copy)]
pub struct CheckInput<'a> {
    /// A header of keysym names, which are added to the core names.
    pub header: &'a [u8],
    /// The sources of the old table.
    pub old: &'a Sources<'a>,
    /// The sources of the new table.
    pub new: &'a Sources<'a>,
    /// What is done in the old table if a sequence is a prefix of another one.
    pub old_rule: Rule,
    /// What is done in the new table if a sequence is a prefix of another one.
    pub new_rule: Rule,
    /// The text of the repertoire: the characters that people need, and the keys that they have.
    pub repertoire: &'a [u8],
    /// The certificate's text.
    pub certificate: &'a [u8],
}

/// The first part of the input that can't be read, and why.
#[derive(Debug, PartialEq, Eq, Drop, Error)]
pub enum InputFault {
    /// The header of names has a fault.
    #[error("1 Names: {0}")]
    Names(NameFault),
    /// The old table can't be read from its sources.
    #[error("2 Old: {0}")]
    Old(TableFault),
    /// The new table can't be read from its sources.
    #[error("3 New: {0}")]
    New(TableFault),
    /// The repertoire has a fault.
    #[error("4 Repertoire: {0}")]
    Repertoire(RepertoireFault),
    /// The text of the certificate has a fault.
    #[error("5 Certificate: {0}")]
    Certificate(CertFault),
    /// A memory allocation failed.
    #[error("6 NoMemory")]
    NoMemory,
}

/// What a check reads: the names and tables, the repertoire, and the certificate.
#[derive(Drop)]
pub struct CheckParts<T: ComposeTable> {
    /// The names, the keysyms of the key names, and both tables.
    pub migration: Migration<T>,
    /// The characters that people need, and the keys that they have.
    pub repertoire: Repertoire,
    /// The certificate.
    pub certificate: Certificate,
}

impl<T: BuildTable> CheckParts<T> {
    /// Reads the names, the keysyms of the key names, the old table and the new one, the repertoire
    /// and the certificate, in this order. O(bytes of all parts, sorting of the definitions).
    ///
    /// Errors: the first of `Names`, `Key`, `Side` for the old and then the new table, `Repertoire`
    /// and `Certificate`; or `NoMemory`.
    pub fn read(
        alloc: Global,
        input: &CheckInput<'_>,
        key_names: &[&str],
    ) -> Result<CheckParts<T>, Refusal>
        ensures { Returns (λ expected read. expected ≡ parts_read T.definitions read) result
            (allowed_parts (map (λ name. name.now) key_names.now) (input_of input.entry.now)) }
    {
        let migration: Migration<T> = read_migration(alloc, input, key_names)?;
        read_texts(alloc, input, migration)
    }

    /// Returns the verdict on the certificate. It costs what `check` does.
    pub fn verdict(&self) -> Verdict
        ensures exact { result ≡ verdict_on (parts_read T.definitions self.now) }
        ensures promises { result ≡ Verdict.Yes → Promises (parts_read T.definitions self.now) }
    {
        check(
            &self.migration.old,
            &self.migration.new,
            &self.migration.names,
            &self.repertoire,
            &self.certificate,
        )
    }
}

/// Reads the names, the keysyms of the key names, and both tables.
fn read_migration<T: BuildTable>(
    alloc: Global,
    input: &CheckInput<'_>,
    key_names: &[&str],
) -> Result<Migration<T>, Refusal>
    ensures { Returns (λ expected read. expected ≡ parts T.definitions read) result
        (migration_of
        (with_key_names (map (λ name. name.now) key_names.now) (input_of input.entry.now)).migration) }
{
    let given = MigrationInput {
        header: input.header,
        key_names,
        old: TableInput {
            sources: input.old,
            rule: input.old_rule,
        },
        new: TableInput {
            sources: input.new,
            rule: input.new_rule,
        },
    };
    Migration::read(alloc, given)
}

/// Reads the repertoire and the certificate, once the migration is read.
fn read_texts<T: ComposeTable>(
    alloc: Global,
    input: &CheckInput<'_>,
    migration: Migration<T>,
) -> Result<CheckParts<T>, Refusal>
    ensures { Returns (λ expected read. expected ≡ parts_read T.definitions read) result
        (certified_parts (parts T.definitions migration)
        input.entry.now.repertoire.now input.entry.now.certificate.now) }
{
    let repertoire = read_repertoire(alloc, input.repertoire)?;
    let certificate = read_certificate(alloc, input.certificate)?;
    Ok(CheckParts {
        migration,
        repertoire,
        certificate,
    })
}

/// Checks a certificate for a move from the old sources to the new ones, given as bytes. The parts
/// are read in order, and both tables with the same names. O(bytes of all parts, sorting of the
/// definitions), and then as `check`.
///
/// Errors: the first part that can't be read (`Names`, `Old`, `New`, `Repertoire` or
/// `Certificate`), or `NoMemory`.
///
/// If the verdict is `Yes`, the promise of `check` holds for the tables that were read.
pub fn check_bytes<T: BuildTable>(
    alloc: Global,
    input: &CheckInput<'_>,
) -> Result<Verdict, InputFault>
    ensures exact { CheckReturns result (parts_of (input_of input.entry.now)) }
    ensures valid { (p : Parts) → parts_of (input_of input.entry.now) ≡ Ok p
        → result ≡ Ok Verdict.Yes → IsValid p.names p.old p.new p.repertoire p.certificate }
    ensures follows { (p : Parts) → parts_of (input_of input.entry.now) ≡ Ok p
        → result ≡ Ok Verdict.Yes → Follows p.names p.certificate.fresh p.old p.new }
    ensures waits { (p : Parts) → parts_of (input_of input.entry.now) ≡ Ok p
        → result ≡ Ok Verdict.Yes → Waits p.new p.certificate.bound }
    ensures types { (p : Parts) → parts_of (input_of input.entry.now) ≡ Ok p
        → result ≡ Ok Verdict.Yes → TypesAll p.names p.new p.repertoire p.certificate.typings }
{
    match CheckParts::<T>::read(alloc, input, &[]) {
        Ok(parts) => Ok(parts.verdict()),
        Err(refusal) => Err(input_fault(refusal)),
    }
}

/// Returns the fault of the input of a check without key names that is refused.
fn input_fault(refusal: Refusal) -> InputFault
    requires { IsOfInput refusal }
    ensures { (expected : Result Parts NoAnswer) → IsRefused refusal expected
        → InputRefused result expected }
{
    match refusal {
        Refusal::Names(fault) => InputFault::Names(fault),
        Refusal::Side {
            side: Side::Old,
            fault,
        } => InputFault::Old(fault),
        Refusal::Side {
            side: Side::New,
            fault,
        } => InputFault::New(fault),
        Refusal::Repertoire(fault) => InputFault::Repertoire(fault),
        Refusal::Certificate(fault) => InputFault::Certificate(fault),
        Refusal::NoMemory => InputFault::NoMemory,
        Refusal::Key { .. } | Refusal::Table(_) | Refusal::Fresh(_) | Refusal::TooManyFresh => {
            unreachable!()
        }
    }
}
