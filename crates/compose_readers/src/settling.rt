//! What becomes of each definition, when all are known.
ghost use Rattle.std.specs.Prelude.{◌≡◌, ℕ, List, IfOk, OnOk, bytes_eq, nat_lt, ◌+◌, length, map, Some, None, if◌then◌else◌, option_copied};
ghost use Rattle.std.specs.Option.{option_map};
ghost use Rattle.indexmap.specs.IndexMap.{get_by};
ghost use Rattle.compose_model.specs.Table.{is_proper_prefix};
ghost use Rattle.compose_readers.specs.Entries.{entries, entry_taken, nodes_after, with_nodes};
ghost use Rattle.compose_readers.specs.Fates as words;
ghost use Rattle.compose_readers.specs.Found.{IsCounting};
ghost use Rattle.compose_readers.specs.Walks as walks;

use crate::file::Definition;
use crate::walking::{Told, What};
use indexmap::{IndexMap, IndexSet};
use std::alloc::{AllocError, Global};
use std::marker::Model;

/// Whether a definition counts, and if not, why. An index is that of another definition in the list
/// of what a walk has told.
#[derive(Clone, Copy, Debug, PartialEq, Eq, Drop)]
pub enum Fate {
    /// It counts: its text is typed.
    Taken,
    /// A later definition counts: of the same sequence, or of one that it begins.
    Overridden(usize),
    /// An earlier definition counts: of the same sequence with a string, or of a longer one.
    Behind(usize),
    /// The table was full.
    Full,
}

/// For each sequence, the index of a definition.
type Indexes<'a> = IndexMap<&'a [u32], usize>;

/// A definition that the table takes, or nothing.
#[derive(Drop)]
struct Entry<'a> {
    definition: Option<&'a Definition>,
}

impl<'a> Model for Entry<'a> {
    ghost use Rattle.std.specs.Prelude.{option_copied};
    ghost use Rattle.compose_readers.specs.Fates as words;

    ghost Value = { words.Entry };

    ghost view = { λ e. option_copied e.definition };
}

impl<'a> Told<'a> {
    /// Returns the definition, or nothing if something else was told.
    fn entry(&self) -> Entry<'a>
        ensures { result ≡ walks.entry_of self.now.what }
    {
        let definition = match self.what {
            What::Defines(definition) => Some(definition),
            _ => None,
        };
        Entry { definition }
    }
}

/// The nodes of a table: each beginning of a sequence.
type Nodes<'a> = IndexSet<&'a [u32]>;

/// Adds the beginnings of the sequence to the nodes of a table. O(keys²).
fn add_nodes<'a>(nodes: &mut Nodes<'a>, keys: &'a [u32]) -> Result<(), AllocError>
    ensures { OnOk result
        (map (λ k. k.now) nodes.new.keys ≡ with_nodes (map (λ k. k.now) nodes.old.keys) keys.now) }
{
    for len in 0..keys.len() {
        nodes.insert(&keys[..len + 1])?;
    }
    Ok(())
}

/// Returns whether a table with so many nodes, of at most `most`, takes a sequence of so many keys.
fn has_room(most: usize, nodes: usize, keys: usize) -> bool
    ensures { result ≡ nat_lt (nodes + keys) most }
{
    nodes < most && keys < most - nodes
}

/// Returns the entry if the table takes it, and adds its nodes; else nothing.
fn taken<'a>(
    most_nodes: usize,
    nodes: &mut Nodes<'a>,
    entry: Entry<'a>,
) -> Result<Entry<'a>, AllocError>
    ensures entry { IfOk result
        (λ found. found ≡ entry_taken most_nodes (map (λ k. k.now) nodes.old.keys) entry.entry) }
    ensures nodes { OnOk result
        (map (λ k. k.now) nodes.new.keys
        ≡ nodes_after most_nodes (map (λ k. k.now) nodes.old.keys) entry.entry) }
{
    let Some(definition) = entry.definition else {
        return Ok(Entry { definition: None });
    };
    let keys = definition.keys.as_slice();
    if !has_room(most_nodes, nodes.len(), keys.len()) {
        return Ok(Entry { definition: None });
    }
    add_nodes(nodes, keys)?;
    Ok(Entry {
        definition: Some(definition),
    })
}

/// Returns the definitions that a table of so many nodes takes; in place of anything else, nothing.
/// O(keys² of all).
fn entries_of<'a>(
    alloc: Global,
    most_nodes: usize,
    told: &[Told<'a>],
) -> Result<Vec<Entry<'a>>, AllocError>
    ensures { IfOk result
        (λ found. found.items ≡ entries most_nodes (walks.entries_of told.now)) }
{
    let mut nodes = IndexSet::new(alloc);
    let mut entries = Vec::new(alloc);
    for one in told {
        entries.push(taken(most_nodes, &mut nodes, one.entry())?)?;
    }
    Ok(entries)
}

/// Sets this index for each proper beginning of the sequence. O(keys²).
fn set_beginnings<'a>(
    first: &mut Indexes<'a>,
    keys: &'a [u32],
    index: usize,
) -> Result<(), AllocError>
    ensures { OnOk result
        ((q : List ℕ) → get_by (λ k. bytes_eq q k.now) first.new
        ≡ (if is_proper_prefix q keys.now then Some index else
        get_by (λ k. bytes_eq q k.now) first.old)) }
{
    for len in 0..keys.len() {
        first.insert(&keys[..len], index)?;
    }
    Ok(())
}

/// Sets this index for each sequence that the entry extends.
fn set_longer<'a>(
    first: &mut Indexes<'a>,
    entry: &Entry<'a>,
    index: usize,
) -> Result<(), AllocError>
    ensures { OnOk result
        ((q : List ℕ) → get_by (λ k. bytes_eq q k.now) first.new
        ≡ (if words.extends q entry.now then Some index else
        get_by (λ k. bytes_eq q k.now) first.old)) }
{
    match entry.definition {
        Some(definition) => set_beginnings(first, definition.keys.as_slice(), index),
        None => Ok(()),
    }
}

/// Sets this index for the sequence.
fn set_index<'a>(last: &mut Indexes<'a>, keys: &'a [u32], index: usize) -> Result<(), AllocError>
    ensures { OnOk result
        ((q : List ℕ) → get_by (λ k. bytes_eq q k.now) last.new
        ≡ (if bytes_eq keys.now q then Some index else
        get_by (λ k. bytes_eq q k.now) last.old)) }
{
    last.insert(keys, index)?;
    Ok(())
}

/// Sets this index for the sequence of the entry.
fn set_same<'a>(last: &mut Indexes<'a>, entry: &Entry<'a>, index: usize) -> Result<(), AllocError>
    ensures { OnOk result
        ((q : List ℕ) → get_by (λ k. bytes_eq q k.now) last.new
        ≡ (if words.is_for q entry.now then Some index else
        get_by (λ k. bytes_eq q k.now) last.old)) }
{
    match entry.definition {
        Some(definition) => set_index(last, definition.keys.as_slice(), index),
        None => Ok(()),
    }
}

/// Sets this index for the sequence of the entry, if it has a string.
fn set_string<'a>(last: &mut Indexes<'a>, entry: &Entry<'a>, index: usize) -> Result<(), AllocError>
    ensures { OnOk result
        ((q : List ℕ) → get_by (λ k. bytes_eq q k.now) last.new
        ≡ (if words.is_string_for q entry.now then Some index else
        get_by (λ k. bytes_eq q k.now) last.old)) }
{
    match entry.definition {
        Some(definition) if definition.has_string => set_same(last, entry, index),
        _ => Ok(()),
    }
}

/// Returns, for each sequence with which a longer one begins, the index of the first entry of a
/// longer one. O(keys² of all).
fn first_longer<'a>(alloc: Global, entries: &[Entry<'a>]) -> Result<Indexes<'a>, AllocError>
    ensures { IfOk result
        (λ first. (q : List ℕ) → get_by (λ k. bytes_eq q k.now) first
        ≡ words.first_from (words.extends q) 0 entries.now) }
{
    let mut first = IndexMap::new(alloc);
    let mut at = entries.len();
    while at > 0 {
        at -= 1;
        set_longer(&mut first, &entries[at], at)?;
    }
    Ok(first)
}

/// Returns, for each sequence, the index of its last entry. O(keys of all).
fn last_of<'a>(alloc: Global, entries: &[Entry<'a>]) -> Result<Indexes<'a>, AllocError>
    ensures { IfOk result
        (λ last. (q : List ℕ) → get_by (λ k. bytes_eq q k.now) last
        ≡ words.last_from (words.is_for q) 0 entries.now) }
{
    let mut last = IndexMap::new(alloc);
    for at in 0..entries.len() {
        set_same(&mut last, &entries[at], at)?;
    }
    Ok(last)
}

/// Returns, for each sequence, the index of its last entry with a string. O(keys of all).
fn last_string_of<'a>(alloc: Global, entries: &[Entry<'a>]) -> Result<Indexes<'a>, AllocError>
    ensures { IfOk result
        (λ last. (q : List ℕ) → get_by (λ k. bytes_eq q k.now) last
        ≡ words.last_from (words.is_string_for q) 0 entries.now) }
{
    let mut last = IndexMap::new(alloc);
    for at in 0..entries.len() {
        set_string(&mut last, &entries[at], at)?;
    }
    Ok(last)
}

/// Which entry counts for each sequence.
#[derive(Drop)]
struct Counting<'a> {
    longer: Indexes<'a>,
    strings: Indexes<'a>,
    all: Indexes<'a>,
}

impl<'a> Counting<'a> {
    /// Finds it for these entries. O(keys² of all).
    fn of(alloc: Global, entries: &[Entry<'a>]) -> Result<Counting<'a>, AllocError>
        ensures { IfOk result (λ c. IsCounting (λ q. get_by (λ k. bytes_eq q k.now) c.longer)
            (λ q. get_by (λ k. bytes_eq q k.now) c.strings)
            (λ q. get_by (λ k. bytes_eq q k.now) c.all) entries.now) }
    {
        let longer = first_longer(alloc, entries)?;
        let strings = last_string_of(alloc, entries)?;
        let all = last_of(alloc, entries)?;
        Ok(Counting {
            longer,
            strings,
            all,
        })
    }

    /// Returns the index of the entry that counts for a sequence. O(keys).
    fn index(&self, keys: &[u32]) -> Option<usize>
        ensures { (entries : List words.Entry)
            → IsCounting (λ q. get_by (λ k. bytes_eq q k.now) self.now.longer)
            (λ q. get_by (λ k. bytes_eq q k.now) self.now.strings)
            (λ q. get_by (λ k. bytes_eq q k.now) self.now.all) entries
            → result ≡ words.counting entries keys.now }
    {
        if let Some(index) = self.longer.get(keys) {
            return Some(*index);
        }
        if let Some(index) = self.strings.get(keys) {
            return Some(*index);
        }
        self.all.get(keys).copied()
    }

    /// Returns the fate of the entry with this index. O(keys).
    fn fate(&self, at: usize, entry: &Entry<'_>) -> Fate
        ensures { (entries : List words.Entry)
            → IsCounting (λ q. get_by (λ k. bytes_eq q k.now) self.now.longer)
            (λ q. get_by (λ k. bytes_eq q k.now) self.now.strings)
            (λ q. get_by (λ k. bytes_eq q k.now) self.now.all) entries
            → result ≡ words.fate_of entries at entry.now }
    {
        match entry.definition {
            Some(definition) => fate_by(at, self.index(definition.keys.as_slice()).unwrap_or(at)),
            None => Fate::Full,
        }
    }
}

/// Returns the fate of the entry `at`, given the entry that counts in its place.
fn fate_by(at: usize, counting: usize) -> Fate
    ensures { result ≡ words.fate_by at counting }
{
    if at < counting {
        return Fate::Overridden(counting);
    }
    if counting < at {
        return Fate::Behind(counting);
    }
    Fate::Taken
}

/// Returns the fate of each of these entries.
fn fates_of(alloc: Global, entries: &[Entry<'_>]) -> Result<Vec<Fate>, AllocError>
    ensures { IfOk result (λ found. found.items ≡ words.fates entries.now) }
{
    let counting = Counting::of(alloc, entries)?;
    let mut fates = Vec::new(alloc);
    for at in 0..entries.len() {
        fates.push(counting.fate(at, &entries[at]))?;
    }
    Ok(fates)
}

/// Returns the fate of everything that a walk has told; `Full` for what is no definition. Of several
/// definitions with one sequence the last one with a string counts, or the last one if none has a
/// string; and of one with which a longer one begins, the first longer one. A definition that would
/// bring the table to `most_nodes` nodes or more counts for nothing. O(keys² of all).
///
/// Errors: `AllocError` if memory runs out.
pub fn fates(alloc: Global, most_nodes: usize, told: &[Told<'_>]) -> Result<Vec<Fate>, AllocError>
    ensures { IfOk result
        (λ found. found.items
        ≡ words.fates (entries most_nodes (walks.entries_of told.now))) }
{
    let entries = entries_of(alloc, most_nodes, told)?;
    fates_of(alloc, &entries)
}
