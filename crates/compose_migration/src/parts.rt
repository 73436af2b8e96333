//! The other parts of a command's input: an only table, a repertoire, a certificate.
ghost use Rattle.std.specs.Prelude.{◌≡◌, IfOk};
ghost use Rattle.compose_cert.specs.Reading.{certificate_of};
ghost use Rattle.compose_cert.specs.Repertoire.{repertoire_of};
ghost use Rattle.compose_tree.specs.TableReturns.{first_table};
ghost use Rattle.compose_migration.specs.Migration.{no_certificate, no_only_table, no_repertoire, or_because};
ghost use Rattle.compose_migration.specs.Refused.{Returns};

use crate::migration::TableInput;
use crate::read_table::ReadTable;
use crate::refusal::Refusal;
use compose_cert::{CertFault, Certificate, Repertoire, RepertoireFault};
use compose_tree::TableFault;
use keysym_core::Names;
use std::alloc::Global;

/// Reads the only table. It costs what `T::read_first` does.
///
/// Errors: `Table` if the table is refused, or `NoMemory`.
pub fn read_only_table<'a, T: ReadTable<'a>>(
    alloc: Global,
    names: &Names,
    input: TableInput<'a>,
) -> Result<T, Refusal>
    ensures table { Returns (λ expected table. expected ≡ T.definitions table) result
        (or_because no_only_table
        (first_table names.now input.entry.sources.now input.entry.rule)) }
    ensures read { IfOk result (T.is_read names.now input.entry.sources.now) }
{
    match T::read_first(alloc, names, input.sources, input.rule) {
        Ok(table) => Ok(table),
        Err(TableFault::NoMemory) => Err(Refusal::NoMemory),
        Err(fault) => Err(Refusal::Table(fault)),
    }
}

/// Reads the characters that people need, and the keys that they have. O(bytes).
///
/// Errors: `Repertoire` if the bytes are not a repertoire, or `NoMemory`.
pub fn read_repertoire(alloc: Global, bytes: &[u8]) -> Result<Repertoire, Refusal>
    ensures { Returns (λ expected repertoire. expected ≡ repertoire) result
        (or_because no_repertoire (repertoire_of bytes.now)) }
{
    match Repertoire::read(alloc, bytes) {
        Ok(repertoire) => Ok(repertoire),
        Err(RepertoireFault::NoMemory) => Err(Refusal::NoMemory),
        Err(fault) => Err(Refusal::Repertoire(fault)),
    }
}

/// Reads a certificate from its text. O(bytes).
///
/// Errors: `Certificate` if the bytes are not a certificate's text, or `NoMemory`.
pub fn read_certificate(alloc: Global, bytes: &[u8]) -> Result<Certificate, Refusal>
    ensures { Returns (λ expected certificate. expected ≡ certificate) result
        (or_because no_certificate (certificate_of bytes.now)) }
{
    match Certificate::read(alloc, bytes) {
        Ok(certificate) => Ok(certificate),
        Err(CertFault::NoMemory) => Err(Refusal::NoMemory),
        Err(fault) => Err(Refusal::Certificate(fault)),
    }
}
