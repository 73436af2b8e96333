//! The files of a table.
ghost use Rattle.std.specs.Prelude.{◌≡◌, map, option_copied, option_map, IfOk, IfErr, OnOk, string_bytes};
ghost use Rattle.compose_input.specs.Faults.{FailsManifest, FailsEntry, FailEntries};
ghost use Rattle.compose_input.specs.Search.{IsNote};
ghost use Rattle.compose_input.specs.Tables.{IsManifest, AreEntries, IsEntryRead, IsLocale, locale_parts, named_table};
ghost use Rattle.compose_input.specs.declared.fault.Fault.TheVariants.{NoMemory};

use crate::fault::Fault;
use crate::places::Places;
use crate::search::find_files;
use crate::texts::{read_named, read_text};
use compose_find::{FoundSource, locale_tree};
use compose_folder::{Folder, ReadOnce};
use compose_manifest::{
    Manifest, ManifestEntry, ManifestFault, file_path, outside_text, read_manifest,
};
use compose_migration::TableInput;
use compose_model::Rule;
use compose_read::{SourceFault, Sources};
use std::alloc::{AllocError, Global};

/// The sources of a table, the paths of their files, and the rule for its overlaps.
#[derive(Drop)]
pub struct TableFiles {
    /// The path that was given: that of its manifest, or of its Compose file.
    pub path: String,
    /// The path of each source's file, in the order of the sources.
    pub paths: Vec<String>,
    /// The sources.
    pub sources: Sources<'static>,
    /// The rule for overlaps.
    pub rule: Rule,
    /// Notes on the places of its files, as lines.
    pub note: String,
    /// The table of the locale, if it is known.
    pub locale: Option<LocaleTable>,
}

/// The table of a locale, which `%L` stands for.
#[derive(Debug, Drop)]
pub struct LocaleTable {
    /// The name of the locale.
    pub name: String,
    /// The path of its table.
    pub path: String,
}

impl TableFiles {
    ghost use Rattle.compose_input.specs.Faults.{FailsListed, FailsFound};
    ghost use Rattle.compose_input.specs.Tables.{IsListed, IsFoundOnSystem, sources_of};
    ghost use Rattle.compose_migration.specs.Values.{table_given};

    /// Reads a manifest and the files that it lists. A fault of a source names this part. O(bytes).
    ///
    /// Errors: the fault of the manifest, or of the first entry whose file is refused, or
    /// `NoMemory` if memory runs out.
    pub fn listed<F: Folder>(
        files: &mut ReadOnce<F>,
        alloc: Global,
        part: &'static str,
        path: &str,
    ) -> Result<TableFiles, Fault>
        ensures kept { files.new.holds ≡ files.old.holds }
        ensures listed { IfOk result (λ table. IsListed files.old.holds path.now table) }
        ensures fault { IfErr result
            (λ fault. FailsListed files.old.holds part.now path.now fault) }
    {
        let manifest = read_listing(files, alloc, path)?;
        let read = read_entries(files, alloc, part, path, &manifest)?;
        Ok(TableFiles {
            path: String::from_str(alloc, path)?,
            paths: read.paths,
            sources: read.sources,
            rule: manifest.rule(),
            note: String::new(alloc),
            locale: None,
        })
    }

    /// Finds the files of a Compose file as it lies on a system, and reads them. O(bytes).
    ///
    /// Errors: the reason why they are not all found, or `NoMemory` if memory runs out.
    pub fn found<F: Folder>(
        files: &mut ReadOnce<F>,
        alloc: Global,
        places: Places<'_>,
        path: &str,
        rule: Rule,
    ) -> Result<TableFiles, Fault>
        ensures kept { files.new.holds ≡ files.old.holds }
        ensures found { IfOk result
            (λ table. IsFoundOnSystem files.old.holds places.entry path.now rule table) }
        ensures fault { IfErr result
            (λ fault. FailsFound files.old.holds places.entry path.now fault) }
    {
        let found = find_files(files, alloc, places, path)?;
        let note = files_note(alloc, places, path, &found.files)?;
        let locale = known_locale(files, alloc, places)?;
        Ok(TableFiles {
            path: String::from_str(alloc, path)?,
            paths: paths_of(alloc, found.files)?,
            sources: found.sources,
            rule,
            note,
            locale,
        })
    }

    /// Returns the sources, and the rule for their overlaps.
    pub fn into_parts(self) -> (Sources<'static>, Rule)
        ensures sources { result.0 ≡ self.sources }
        ensures rule { result.1 ≡ self.rule }
    {
        let TableFiles { sources, rule, .. } = self;
        (sources, rule)
    }

    /// Returns the path of each source. O(sources).
    ///
    /// Errors: `AllocError` if memory runs out.
    pub fn path_texts(&self, alloc: Global) -> Result<Vec<&str>, AllocError>
        ensures { IfOk result
            (λ texts. map (λ text. text.now) texts.items ≡ map string_bytes self.now.paths.items) }
    {
        let mut paths = Vec::new(alloc);
        for path in &self.paths {
            paths.push(path.as_str())?;
        }
        Ok(paths)
    }

    /// Returns the table that they define.
    pub fn input(&self) -> TableInput<'_>
        ensures { table_given result ≡ sources_of self.now }
    {
        TableInput {
            sources: &self.sources,
            rule: self.rule,
        }
    }
}

/// Returns a line for each of these files that lies outside of the tree of tables, also outside of
/// the root if one is given; the first file, which is the table's root, is not examined. The tree
/// is the folder that was given, or else the one in which `path` is that of a locale's table;
/// without a tree there are no lines. O(bytes of the paths).
///
/// Errors: `AllocError` if memory runs out.
pub fn files_note(
    alloc: Global,
    places: Places<'_>,
    path: &str,
    found: &[FoundSource],
) -> Result<String, AllocError>
    ensures { IfOk result
        (λ note. IsNote places.entry path.now found.now (string_bytes note)) }
{
    match places.tree.or(locale_tree(path)) {
        Some(tree) => outside_text(alloc, tree, places.root, found),
        None => Ok(String::new(alloc)),
    }
}

/// Returns the locale and its table, if both are known.
fn known_locale<F: Folder>(
    files: &mut ReadOnce<F>,
    alloc: Global,
    places: Places<'_>,
) -> Result<Option<LocaleTable>, Fault>
    ensures kept { files.new.holds ≡ files.old.holds }
    ensures known { IfOk result (λ locale. IsLocale files.old.holds places.entry locale) }
    ensures fault { IfErr result (λ fault. fault ≡ NoMemory) }
{
    let path = places.locale_table(files, alloc)?;
    Ok(named_table(alloc, places.locale, path)?)
}

/// Returns the locale with this name and the table at this path, if both are known.
fn named_table(
    alloc: Global,
    name: Option<&str>,
    path: Option<String>,
) -> Result<Option<LocaleTable>, AllocError>
    ensures { IfOk result
        (λ locale. option_map locale_parts locale
        ≡ named_table (option_copied name.entry) (option_map string_bytes path)) }
{
    let Some(path) = path else {
        return Ok(None);
    };
    let Some(name) = name else {
        return Ok(None);
    };
    let name = String::from_str(alloc, name)?;
    Ok(Some(LocaleTable { name, path }))
}

/// Returns the paths of files that were found.
fn paths_of(alloc: Global, found: Vec<FoundSource>) -> Result<Vec<String>, AllocError>
    ensures { IfOk result
        (λ paths. map string_bytes paths.items ≡ map (λ source. source.path) found.items) }
{
    let mut paths = Vec::new(alloc);
    for FoundSource { path, .. } in found {
        paths.push(path)?;
    }
    Ok(paths)
}

/// Reads a manifest.
fn read_listing<F: Folder>(
    files: &mut ReadOnce<F>,
    alloc: Global,
    path: &str,
) -> Result<Manifest, Fault>
    ensures kept { files.new.holds ≡ files.old.holds }
    ensures read { IfOk result (λ manifest. IsManifest files.old.holds path.now manifest) }
    ensures fault { IfErr result (λ fault. FailsManifest files.old.holds path.now fault) }
{
    let bytes = read_text(files, alloc, path)?;
    match read_manifest(alloc, &bytes) {
        Ok(manifest) => Ok(manifest),
        Err(ManifestFault::NoMemory) => Err(Fault::NoMemory),
        Err(fault) => Err(Fault::Manifest {
            path: String::from_str(alloc, path)?,
            bytes,
            fault,
        }),
    }
}

/// The paths and the sources that were read for a manifest.
#[derive(Drop)]
struct ReadEntries {
    paths: Vec<String>,
    sources: Sources<'static>,
}

/// Reads the files of a manifest; `at` is the path of the manifest.
fn read_entries<F: Folder>(
    files: &mut ReadOnce<F>,
    alloc: Global,
    part: &'static str,
    at: &str,
    manifest: &Manifest,
) -> Result<ReadEntries, Fault>
    ensures kept { files.new.holds ≡ files.old.holds }
    ensures read { IfOk result
        (λ read. AreEntries files.old.holds manifest.now
        at.now manifest.now.entries (map string_bytes read.paths.items) read.sources) }
    ensures fault { IfErr result
        (λ fault. FailEntries files.old.holds part.now manifest.now at.now manifest.now.entries
        fault) }
{
    let mut read = ReadEntries {
        paths: Vec::new(alloc),
        sources: Sources::new(alloc),
    };
    for entry in manifest.entries() {
        add_entry(files, alloc, part, at, manifest, entry, &mut read)?;
    }
    Ok(read)
}

/// Reads the file of an entry of a manifest; `at` is the path of the manifest.
fn add_entry<F: Folder>(
    files: &mut ReadOnce<F>,
    alloc: Global,
    part: &'static str,
    at: &str,
    manifest: &Manifest,
    entry: &ManifestEntry,
    read: &mut ReadEntries,
) -> Result<(), Fault>
    ensures kept { files.new.holds ≡ files.old.holds }
    ensures read { OnOk result
        (IsEntryRead files.old.holds manifest.now
        at.now entry.now (map string_bytes read.old.paths.items)
        (map string_bytes read.new.paths.items) read.old.sources read.new.sources) }
    ensures fault { IfErr result
        (λ fault. FailsEntry files.old.holds part.now manifest.now at.now entry.now
        read.old.sources fault) }
{
    let path = file_path(alloc, manifest, at, entry)?;
    let bytes = read_named(files, alloc, &path)?;
    read.paths.push(path)?;
    match read.sources.add(&entry.name, bytes) {
        Ok(()) => Ok(()),
        Err(SourceFault::NoMemory) => Err(Fault::NoMemory),
        Err(fault) => {
            let path = String::from_str(alloc, at)?;
            Err(Fault::Source { part, path, fault })
        }
    }
}
