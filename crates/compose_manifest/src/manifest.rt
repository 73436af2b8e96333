//! Reading manifests: the files of a table, and the rule for its overlaps.
ghost use Rattle.std.specs.Prelude.{◌≡◌, ◌<◌, ◌+◌, ◌++◌, ◌∷◌, [], length, Some, None, Ok, Err, option_copied, slice_get, unwrap_or, OnOk, OnErr, IfOk, IfErr, string_bytes, if◌then◌else◌, not};
ghost use Rattle.std.specs.List.{list_all};
ghost use Rattle.std.specs.Option.{option_map};
ghost use Rattle.compose_model.specs.declared.Rule.TheVariants.{Refuse, Longest};
ghost use Rattle.compose_manifest.specs.Manifest as words;
ghost use Rattle.compose_manifest.specs.Manifest.{listing_of, with_paths_here, with_rule, with_text};
ghost use Rattle.compose_manifest.specs.Text as writing;
ghost use Rattle.compose_manifest.specs.ManifestReturns.{ManifestReturns, LineReturns, AddReturns, entry};

use compose_find::beside;
use compose_model::Rule;
use compose_text::first_line;
use std::alloc::{AllocError, AllocFailed, Global};
use std::marker::Model;
use thiserror::Error;

/// The first fault of a manifest. `line` is counted from 1.
#[derive(Clone, Copy, Debug, PartialEq, Eq, Drop, Error)]
pub enum ManifestFault {
    /// The line is not UTF-8, or has none of the forms, or comes twice or too late.
    #[error("1 BadLine line={line}")]
    BadLine { line: usize },
    /// The manifest has no entry.
    #[error("2 Empty")]
    Empty,
    /// A memory allocation failed.
    #[error("3 NoMemory")]
    NoMemory,
}

impl From<AllocError> for ManifestFault {
    ghost use Rattle.compose_manifest.specs.declared.manifest.ManifestFault.TheVariants.{NoMemory};

    ghost from_gives = { λ _ e. e ≡ NoMemory };

    fn from(_error: AllocError) -> ManifestFault {
        ManifestFault::NoMemory
    }
}

impl<T: Drop> From<AllocFailed<T>> for ManifestFault {
    ghost use Rattle.compose_manifest.specs.declared.manifest.ManifestFault.TheVariants.{NoMemory};

    ghost from_gives = { λ _ e. e ≡ NoMemory };

    fn from(_error: AllocFailed<T>) -> ManifestFault {
        ManifestFault::NoMemory
    }
}

/// An entry of a manifest: the name of a source, and the path of its file.
#[derive(Drop)]
pub struct ManifestEntry {
    /// The name of the source: the raw text of the includes that name it.
    pub name: String,
    /// The path of its file, as it is written in the manifest.
    pub path: String,
}

impl Model for ManifestEntry {
    ghost use Rattle.std.specs.Prelude.{string_bytes};
    ghost use Rattle.compose_manifest.specs.Manifest as words;

    ghost Value = { words.ManifestEntry };

    ghost view = { λ e. record { name = string_bytes e.name; path = string_bytes e.path } };
}

/// A manifest as a value: the sources of a table in order, the root first; the rule for its
/// overlaps; and whether relative paths are relative to the manifest.
#[derive(Drop)]
pub struct Manifest {
    rule: Option<Rule>,
    paths_here: bool,
    entries: Vec<ManifestEntry>,
}

impl Model for Manifest {
    ghost use Rattle.compose_manifest.specs.Manifest.{Listing};

    ghost Value = { Listing };

    ghost view = { λ m. record {
      rule = m.rule;
      paths_here = m.paths_here;
      entries =
          m.entries.items;
    } };
}

impl Manifest {
    /// Returns the number of entries. O(1).
    pub fn count(&self) -> usize
        ensures { result ≡ length self.now.entries }
    {
        self.entries.len()
    }

    /// Returns the entries in order, the root first. O(1).
    pub fn entries(&self) -> &[ManifestEntry]
        ensures { result.now ≡ self.now.entries }
    {
        &self.entries
    }

    /// Returns the name of the source at this index, counted from 0. O(1).
    pub fn name(&self, index: usize) -> Option<&str>
        ensures { option_copied result
            ≡ option_map (λ e. e.name) (slice_get self.now.entries index) }
    {
        let entry = self.entries.get(index)?;
        Some(entry.name.as_str())
    }

    /// Returns the path of the file at this index, counted from 0. O(1).
    pub fn path(&self, index: usize) -> Option<&str>
        ensures { option_copied result
            ≡ option_map (λ e. e.path) (slice_get self.now.entries index) }
    {
        let entry = self.entries.get(index)?;
        Some(entry.path.as_str())
    }

    /// Returns the rule for the table's overlaps, `Refuse` if the manifest has none. O(1).
    pub fn rule(&self) -> Rule
        ensures { result ≡ unwrap_or self.now.rule Refuse }
    {
        self.rule.unwrap_or(Rule::Refuse)
    }

    /// Returns whether the relative paths of the entries are relative to the folder of the
    /// manifest; else they are relative to the working directory. O(1).
    pub fn paths_here(&self) -> bool
        ensures { result ≡ self.now.paths_here }
    {
        self.paths_here
    }
}

/// Reads a manifest. A line is a name, one tab and a path; or it is empty or begins with `#`, and
/// is skipped. Before the entries there may be one line `overlap longest` or `overlap refuse`, and
/// one line `paths here`. O(bytes).
///
/// Errors: `BadLine` for the first faulty line, `Empty` if there is no entry, or `NoMemory`.
pub fn read_manifest(alloc: Global, bytes: &[u8]) -> Result<Manifest, ManifestFault>
    ensures { ManifestReturns result (listing_of bytes.now) }
{
    let mut manifest = Manifest {
        rule: None,
        paths_here: false,
        entries: Vec::new(alloc),
    };
    let mut rest = bytes;
    let mut number = 0;
    while let Some((line, behind)) = first_line(rest) {
        number += 1;
        if let Err(fault) = manifest.add_line(alloc, number, line) {
            return Err(fault);
        }
        rest = behind;
    }
    if manifest.entries.is_empty() {
        return Err(ManifestFault::Empty);
    }
    Ok(manifest)
}

/// Returns the path of the file of this entry, for a manifest at the path `at`. A relative path is
/// taken from the manifest's folder if the manifest has the line `paths here`; else it stays
/// relative to the working directory. O(bytes).
///
/// Errors: `AllocError` if memory runs out.
pub fn file_path(
    alloc: Global,
    manifest: &Manifest,
    at: &str,
    entry: &ManifestEntry,
) -> Result<String, AllocError>
    ensures { IfOk result
        (λ path. string_bytes path ≡ writing.file_path manifest.now at.now entry.now.path) }
{
    if manifest.paths_here() {
        return beside(alloc, at, &entry.path);
    }
    String::from_str(alloc, &entry.path)
}

impl Manifest {
    /// Adds the content of the line with this number.
    fn add_line(&mut self, alloc: Global, number: usize, line: &[u8]) -> Result<(), ManifestFault>
        ensures { LineReturns number self.old line.now result self.new }
    {
        match str::from_utf8(line) {
            Ok(text) => self.add_text(alloc, number, without_return(text)),
            Err(_) => Err(ManifestFault::BadLine { line: number }),
        }
    }

    /// Adds the content of a line's text.
    fn add_text(&mut self, alloc: Global, number: usize, text: &str) -> Result<(), ManifestFault>
        ensures { AddReturns (with_text number self.old text.now) result self.new }
    {
        if is_skipped(text) {
            return Ok(());
        }
        if text == "paths here" {
            return self.set_paths_here(number);
        }
        if let Some(rule) = rule_of(text) {
            return self.set_rule(number, rule);
        }
        let Some((name, path)) = split_entry(text) else {
            return Err(ManifestFault::BadLine { line: number });
        };
        self.add_entry(alloc, name, path)
    }

    /// Sets the rule. It comes before the entries, and at most once.
    fn set_rule(&mut self, number: usize, rule: Rule) -> Result<(), ManifestFault>
        ensures { AddReturns (with_rule number self.old rule) result self.new }
    {
        if self.rule.is_some() || !self.entries.is_empty() {
            return Err(ManifestFault::BadLine { line: number });
        }
        self.rule = Some(rule);
        Ok(())
    }

    /// Makes relative paths relative to the manifest's folder. The line for this comes before the
    /// entries, and at most once.
    fn set_paths_here(&mut self, number: usize) -> Result<(), ManifestFault>
        ensures { AddReturns (with_paths_here number self.old) result self.new }
    {
        if self.paths_here || !self.entries.is_empty() {
            return Err(ManifestFault::BadLine { line: number });
        }
        self.paths_here = true;
        Ok(())
    }

    /// Adds an entry after the others.
    fn add_entry(&mut self, alloc: Global, name: &str, path: &str) -> Result<(), ManifestFault>
        ensures ok { OnOk result
            (self.new
            ≡ record self.old {
              entries =
                  self.old.entries ++ record { name = name.now; path = path.now } ∷ [];
            }) }
        ensures err { IfErr result (λ fault. fault ≡ ManifestFault.NoMemory) }
    {
        let name = String::from_str(alloc, name)?;
        let path = String::from_str(alloc, path)?;
        self.entries.push(ManifestEntry { name, path })?;
        Ok(())
    }
}

/// Returns the text without a carriage return at its end.
fn without_return(text: &str) -> &str
    ensures { result.now ≡ words.without_return text.now }
{
    if text.as_bytes().ends_with(b"\r") {
        return &text[..text.len() - 1];
    }
    text
}

/// Returns whether the text is empty or a comment.
fn is_skipped(text: &str) -> bool
    ensures { result ≡ words.is_skipped text.now }
{
    match text.as_bytes().first() {
        Some(byte) => *byte == b'#',
        None => true,
    }
}

/// Returns the rule of a line, if it is a line with a rule.
fn rule_of(text: &str) -> Option<Rule>
    ensures { result ≡ words.rule_of text.now }
{
    match text {
        "overlap longest" => Some(Rule::Longest),
        "overlap refuse" => Some(Rule::Refuse),
        _ => None,
    }
}

/// Returns the name and the path before and after the only tab.
fn split_entry(text: &str) -> Option<(&str, &str)>
    ensures { option_map entry result ≡ words.entry_of text.now }
{
    let at = memchr::memchr(b'\t', text.as_bytes())?;
    let (name, path) = (&text[..at], &text[at + 1..]);
    if !are_parts(name, path) {
        return None;
    }
    Some((name, path))
}

/// Returns whether both are not empty, and the path has no tab.
fn are_parts(name: &str, path: &str) -> bool
    ensures { result ≡ words.are_parts name.now path.now }
{
    !name.is_empty() && !path.is_empty() && !has_tab(path)
}

/// Returns whether the text has a tab.
fn has_tab(text: &str) -> bool
    ensures { not result ≡ list_all words.is_no_tab text.now }
{
    match memchr::memchr(b'\t', text.as_bytes()) {
        Some(_) => true,
        None => false,
    }
}
