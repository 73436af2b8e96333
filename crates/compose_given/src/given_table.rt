//! A table that is given as its manifest or as its Compose file.
ghost use Rattle.std.specs.Prelude.{◌≡◌, IfOk, IfErr};
ghost use Rattle.compose_input.specs.Faults.{FailsListed};
ghost use Rattle.compose_given.specs.GivenTable.{FailsGivenTable, FailsSystemTable, IsGivenTable, IsListedTable, IsSystemTable};

use crate::chosen::{NotedTable, chosen_table, places_of};
use crate::environment::Environment;
use compose_arguments::{TableArguments, TypeTable};
use compose_folder::{Folder, ReadOnce};
use compose_input::{Fault, TableFiles};
use std::alloc::Global;

/// Reads the files of the given table: those that its manifest lists, or those of the Compose file
/// as it is on the system, with notes on those that lie outside of its tree of tables. The fault of
/// a source that a manifest lists names this part. O(bytes); for a Compose file the time of
/// `find_files`.
/// Errors: the fault of the first file that can't be read or is refused; `Word` if a variable of
/// the environment that is needed is not UTF-8; `NoMemory` if memory runs out.
pub fn read_table<F: Folder>(
    alloc: Global,
    files: &mut ReadOnce<F>,
    environment: &Environment,
    part: &'static str,
    given: &TypeTable<'_>,
) -> Result<NotedTable, Fault>
    ensures kept { files.new.holds ≡ files.old.holds }
    ensures read { IfOk result
        (λ read. IsGivenTable files.old.holds environment.now given.now read) }
    ensures fault { IfErr result
        (λ fault. FailsGivenTable files.old.holds environment.now part.now given.now fault) }
{
    match given {
        TypeTable::Manifest(path) => listed_table(alloc, files, part, path),
        TypeTable::File(arguments) => system_table(alloc, files, environment, arguments),
    }
}

/// Reads the table of the manifest at this path, without notes.
fn listed_table<F: Folder>(
    alloc: Global,
    files: &mut ReadOnce<F>,
    part: &'static str,
    path: &str,
) -> Result<NotedTable, Fault>
    ensures kept { files.new.holds ≡ files.old.holds }
    ensures read { IfOk result (λ read. IsListedTable files.old.holds path.now read) }
    ensures fault { IfErr result (λ fault. FailsListed files.old.holds part.now path.now fault) }
{
    let table = TableFiles::listed(files, alloc, part, path)?;
    let notes = String::new(alloc);
    Ok(NotedTable { table, notes })
}

/// Reads the table of a Compose file as it is on the system.
fn system_table<F: Folder>(
    alloc: Global,
    files: &mut ReadOnce<F>,
    environment: &Environment,
    arguments: &TableArguments<'_>,
) -> Result<NotedTable, Fault>
    ensures kept { files.new.holds ≡ files.old.holds }
    ensures read { IfOk result
        (λ read. IsSystemTable files.old.holds environment.now arguments.now read) }
    ensures fault { IfErr result
        (λ fault. FailsSystemTable files.old.holds environment.now arguments.now fault) }
{
    let places = places_of(environment, arguments)?;
    chosen_table(alloc, files, environment, places, arguments)
}
