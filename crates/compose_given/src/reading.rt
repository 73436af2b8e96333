//! The reading of what a command wants.
ghost use Rattle.std.specs.Prelude.{◌≡◌, [], ◌∷◌, map, IfOk, IfErr, OnOk};
ghost use Rattle.compose_given.specs.Reads.{AddsTable, AddsText, AreParts, AreTables, AreTexts, FailsReads, reads_of, table_reads, text_reads, texts_of};

use crate::chosen::NotedTable;
use crate::environment::Environment;
use crate::given_table::read_table;
use crate::names::read_names_for;
use crate::wanted::{ReadParts, Wanted, WantedTable};
use compose_folder::{Folder, ReadOnce};
use compose_input::{Fault, read_text};
use std::alloc::Global;

/// Reads what a command wants: the names, the tables and the other files, in this order.
/// O(bytes); for Compose files the time of `find_files`.
///
/// Errors: the fault of the first of them that can't be read or is refused; `NoMemory` if memory
/// runs out.
pub fn read_parts<'a, F: Folder>(
    alloc: Global,
    files: &mut ReadOnce<F>,
    environment: &Environment,
    wanted: &Wanted<'a>,
) -> Result<ReadParts<'a>, Fault>
    ensures kept { files.new.holds ≡ files.old.holds }
    ensures read { IfOk result
        (λ read. AreParts files.old.holds environment.now wanted.now read) }
    ensures fault { IfErr result
        (λ fault. FailsReads (reads_of files.old.holds environment.now wanted.now) fault) }
{
    let names = read_names_for(files, alloc, wanted.are_files, wanted.names)?;
    let tables = read_tables(alloc, files, environment, wanted.tables)?;
    let texts = read_texts(alloc, files, wanted.texts)?;
    Ok(ReadParts {
        names,
        tables,
        texts,
    })
}

/// Reads these tables.
fn read_tables<F: Folder>(
    alloc: Global,
    files: &mut ReadOnce<F>,
    environment: &Environment,
    wanted: &[WantedTable<'_>],
) -> Result<Vec<NotedTable>, Fault>
    ensures kept { files.new.holds ≡ files.old.holds }
    ensures read { IfOk result
        (λ tables. AreTables files.old.holds environment.now wanted.now tables.items) }
    ensures fault { IfErr result
        (λ fault. FailsReads (table_reads files.old.holds environment.now wanted.now []) fault) }
{
    let mut tables = Vec::new(alloc);
    for each in wanted {
        add_table(alloc, files, environment, each, &mut tables)?;
    }
    Ok(tables)
}

/// Reads one more table.
fn add_table<F: Folder>(
    alloc: Global,
    files: &mut ReadOnce<F>,
    environment: &Environment,
    wanted: &WantedTable<'_>,
    tables: &mut Vec<NotedTable>,
) -> Result<(), Fault>
    ensures kept { files.new.holds ≡ files.old.holds }
    ensures read { OnOk result
        (AddsTable files.old.holds environment.now wanted.now tables.old.items tables.new.items) }
    ensures fault { IfErr result
        (λ fault. FailsReads (table_reads files.old.holds environment.now (wanted.now ∷ []) [])
        fault) }
{
    let table = read_table(alloc, files, environment, wanted.part, &wanted.table)?;
    tables.push(table)?;
    Ok(())
}

/// Reads the files at these paths.
fn read_texts<F: Folder>(
    alloc: Global,
    files: &mut ReadOnce<F>,
    paths: &[&str],
) -> Result<Vec<Vec<u8>>, Fault>
    ensures kept { files.new.holds ≡ files.old.holds }
    ensures read { IfOk result
        (λ texts. AreTexts files.old.holds (map (λ path. path.now) paths.now)
        (texts_of texts.items)) }
    ensures fault { IfErr result
        (λ fault. FailsReads (text_reads files.old.holds (map (λ path. path.now) paths.now))
        fault) }
{
    let mut texts = Vec::new(alloc);
    for path in paths {
        add_text(alloc, files, path, &mut texts)?;
    }
    Ok(texts)
}

/// Reads one more file.
fn add_text<F: Folder>(
    alloc: Global,
    files: &mut ReadOnce<F>,
    path: &str,
    texts: &mut Vec<Vec<u8>>,
) -> Result<(), Fault>
    ensures kept { files.new.holds ≡ files.old.holds }
    ensures read { OnOk result
        (AddsText files.old.holds path.now (texts_of texts.old.items) (texts_of texts.new.items)) }
    ensures fault { IfErr result
        (λ fault. FailsReads (text_reads files.old.holds (path.now ∷ [])) fault) }
{
    let text = read_text(files, alloc, path)?;
    texts.push(text)?;
    Ok(())
}
