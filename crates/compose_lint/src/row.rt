//! The findings in tables, each with the table's data that its row needs.
ghost use Rattle.std.specs.Prelude.{◌≡◌, ◌++◌, map, flat_map, IfOk, OnOk};
ghost use Rattle.compose_lint.specs.Answers.{table_given};
ghost use Rattle.compose_lint.specs.Lines.{all_sources};
ghost use Rattle.compose_lint.specs.Rows as words;

use crate::asking::LintTable;
use crate::faultless::is_surely_faultless;
use crate::finding::Finding;
use crate::lint::findings_of;
use crate::reader::Readers;
use crate::source_lines::{SourceLines, all_sources};
use compose_read::{ReadFault, Sources, read_faults};
use keysym_core::Names;
use std::alloc::{AllocError, Global};
use std::marker::Model;

/// The greatest number of faults of a table that are reported.
const MOST_FAULTS: usize = 1000;

/// A finding, the sources, the paths and the first faults of its table, and the bytes of its line.
#[derive(Drop)]
pub(crate) struct Row<'a> {
    pub(crate) sources: &'a Sources<'a>,
    pub(crate) paths: &'a [&'a str],
    pub(crate) faults: &'a [ReadFault],
    pub(crate) finding: Finding,
    pub(crate) bytes: &'a [u8],
}

impl<'a> Model for Row<'a> {
    ghost use Rattle.std.specs.Prelude.{map};
    ghost use Rattle.compose_lint.specs.Rows as words;

    ghost Value = { words.Row };

    ghost view = { λ r. record {
      sources = r.sources.now;
      paths = map (λ path. path.now) r.paths.now;
      faults = r.faults.now;
      finding = r.finding;
      bytes = r.bytes.now;
    } };
}

impl<'a> Row<'a> {
    ghost use Rattle.std.specs.Prelude.{◌≡◌};

    /// Returns a copy.
    pub(crate) fn again(&self) -> Row<'a>
        ensures { result ≡ self.now }
    {
        Row {
            sources: self.sources,
            paths: self.paths,
            faults: self.faults,
            finding: self.finding,
            bytes: self.bytes,
        }
    }

    /// Returns the finding.
    pub(crate) fn finding(&self) -> Finding
        ensures { result ≡ self.now.finding }
    {
        self.finding
    }

    /// Returns the bytes of the line of the finding.
    pub(crate) fn bytes(&self) -> &'a [u8]
        ensures { result.now ≡ self.now.bytes }
    {
        self.bytes
    }
}

/// A finding, and the bytes of its line.
#[derive(Drop)]
struct Found<'a> {
    finding: Finding,
    bytes: &'a [u8],
}

impl<'a> Model for Found<'a> {
    ghost use Rattle.compose_lint.specs.Rows as words;

    ghost Value = { words.Found };

    ghost view = { λ f. record { finding = f.finding; bytes = f.bytes.now } };
}

/// A table, its first faults, and the findings in it.
#[derive(Drop)]
pub(crate) struct LintedTable<'a> {
    table: LintTable<'a>,
    faults: Vec<ReadFault>,
    found: Vec<Found<'a>>,
}

impl<'a> Model for LintedTable<'a> {
    ghost use Rattle.compose_lint.specs.Answers.{table_given};
    ghost use Rattle.compose_lint.specs.Rows as words;

    ghost Value = { words.LintedTable };

    ghost view = { λ t. record {
      table = table_given t.table;
      faults = t.faults.items;
      found = t.found.items;
    } };
}

/// Returns the tables, each with its first faults and the findings in it. Takes the time of
/// `find_findings` for each, and that of `read_faults` for those that may have faults.
pub(crate) fn linted_tables<'a>(
    alloc: Global,
    names: &Names,
    readers: Readers,
    is_all: bool,
    tables: &[LintTable<'a>],
) -> Result<Vec<LintedTable<'a>>, AllocError>
    ensures { IfOk result
        (λ linted. linted.items
        ≡ map (λ t. words.linted names.now readers is_all (table_given t)) tables.now) }
{
    let mut linted = Vec::new(alloc);
    for table in tables {
        let one = linted_table(alloc, names, readers, is_all, *table)?;
        linted.push(one)?;
    }
    Ok(linted)
}

/// Returns the table with its first faults and the findings in it.
fn linted_table<'a>(
    alloc: Global,
    names: &Names,
    readers: Readers,
    is_all: bool,
    table: LintTable<'a>,
) -> Result<LintedTable<'a>, AllocError>
    ensures { IfOk result
        (λ linted. linted ≡ words.linted names.now readers is_all (table_given table.entry)) }
{
    let files = all_sources(alloc, names, table.sources, is_all)?;
    let faults = table_faults(alloc, names, is_all, table, &files)?;
    let findings = findings_of(alloc, names, readers, &faults, &files)?;
    let found = with_bytes(alloc, &files, &findings)?;
    Ok(LintedTable {
        table,
        faults,
        found,
    })
}

/// Returns the first faults of a table whose lines these are, except those of skipped lines.
fn table_faults(
    alloc: Global,
    names: &Names,
    is_all: bool,
    table: LintTable<'_>,
    files: &[SourceLines<'_>],
) -> Result<Vec<ReadFault>, AllocError>
    requires { files.now ≡ all_sources names.now table.sources.now is_all }
    ensures { IfOk result
        (λ faults. faults.items ≡ words.table_faults names.now (table_given table.entry)) }
{
    let first = first_faults(alloc, names, table.sources, is_all, files)?;
    left_faults(alloc, table.skip_faulty, first)
}

/// Returns the faults, except those of skipped lines.
fn left_faults(
    alloc: Global,
    skip_faulty: bool,
    faults: Vec<ReadFault>,
) -> Result<Vec<ReadFault>, AllocError>
    ensures { IfOk result (λ left. left.items ≡ words.left_faults skip_faulty faults.items) }
{
    if !skip_faulty {
        return Ok(faults);
    }
    let mut left = Vec::new(alloc);
    for fault in faults {
        if is_of_include(&fault) {
            left.push(fault)?;
        }
    }
    Ok(left)
}

/// Returns whether the fault is that of an include, whose line is valid by itself.
fn is_of_include(fault: &ReadFault) -> bool
    ensures { result ≡ words.is_of_include fault.now }
{
    matches!(
        fault,
        ReadFault::MissingInclude { .. } | ReadFault::IncludeDepth { .. }
    )
}

/// Returns the first faults of a table whose lines these are. They are read a second time unless
/// they show that no line has a fault.
fn first_faults(
    alloc: Global,
    names: &Names,
    sources: &Sources,
    _is_all: bool,
    files: &[SourceLines<'_>],
) -> Result<Vec<ReadFault>, AllocError>
    requires { files.now ≡ all_sources names.now sources.now _is_all }
    ensures { IfOk result (λ faults. faults.items ≡ words.first_faults names.now sources.now) }
{
    if is_surely_faultless(sources, files) {
        return Ok(Vec::new(alloc));
    }
    read_faults(alloc, names, sources, root_of(sources), MOST_FAULTS)
}

/// Returns the name of the first source, from which a table is read; an empty text if there is
/// none.
fn root_of<'a>(sources: &'a Sources) -> &'a str
    ensures { result.now ≡ words.root_of sources.now }
{
    sources.name(0).unwrap_or("")
}

/// Returns these findings, each with the bytes of its line in these files.
fn with_bytes<'a>(
    alloc: Global,
    files: &[SourceLines<'a>],
    findings: &[Finding],
) -> Result<Vec<Found<'a>>, AllocError>
    ensures { IfOk result
        (λ found. found.items ≡ map (words.found_in files.now) findings.now) }
{
    let mut found = Vec::new(alloc);
    for finding in findings {
        found.push(Found {
            finding: *finding,
            bytes: line_bytes(files, *finding),
        })?;
    }
    Ok(found)
}

/// Returns the bytes of the line of the finding in these files; nothing if there is no such line.
fn line_bytes<'a>(files: &[SourceLines<'a>], finding: Finding) -> &'a [u8]
    ensures { result.now ≡ words.bytes_in files.now finding }
{
    let Some(file) = files.get(finding.source) else {
        return &[];
    };
    match file.lines().get(finding.line.saturating_sub(1)) {
        Some(line) => line.bytes(),
        None => &[],
    }
}

/// Returns the findings in the tables, in the order of the tables. O(findings).
pub(crate) fn rows_in<'t, 'a: 't>(
    alloc: Global,
    tables: &'t [LintedTable<'a>],
) -> Result<Vec<Row<'t>>, AllocError>
    ensures { IfOk result (λ rows. rows.items ≡ flat_map words.linted_rows tables.now) }
{
    let mut rows = Vec::new(alloc);
    for table in tables {
        push_rows(&mut rows, table)?;
    }
    Ok(rows)
}

/// Adds the findings in a table, in order.
fn push_rows<'t, 'a: 't>(
    rows: &mut Vec<Row<'t>>,
    table: &'t LintedTable<'a>,
) -> Result<(), AllocError>
    ensures { OnOk result (rows.new.items ≡ rows.old.items ++ words.linted_rows table.now) }
{
    for found in &table.found {
        rows.push(row_of(table.table, &table.faults, found))?;
    }
    Ok(())
}

/// Returns a finding with the data of its table.
fn row_of<'a>(table: LintTable<'a>, faults: &'a [ReadFault], found: &Found<'a>) -> Row<'a>
    ensures { result ≡ words.found_row (table_given table.entry) faults.now found.now }
{
    Row {
        sources: table.sources,
        paths: table.paths,
        faults,
        finding: found.finding,
        bytes: found.bytes,
    }
}
