//! For each sequence of a table, the line that counts, and its keys as written there.
ghost use Rattle.std.specs.Prelude.{◌≡◌, ◌≤◌, ◌++◌, ℕ, List, not, None, Some, map, length, filter, replicate, true, false, MatchOption, IfOk};
ghost use Rattle.std.specs.Option.{option_map};
ghost use Rattle.keysym_core.specs.Names.{KeysymNames};
ghost use Rattle.compose_model.specs.Table.{is_sequence};
ghost use Rattle.compose_model.specs.Nodes.{leaves};
ghost use Rattle.compose_tree.specs.Targets.{leaf_number};
ghost use Rattle.compose_places.specs.Counting as words;
ghost use Rattle.compose_places.specs.Counting.{counting_line, defined_sequence};

use crate::events::{Events, line_events};
use crate::last::leaf_of;
use crate::places::{DefinitionPlace, MAX_LINES};
use crate::sequence_list::SequenceList;
use arrayvec::ArrayVec;
use compose_read::{Sources, Visits};
use compose_text::blank_len;
use compose_tree::{ComposeTable, LeafId};
use keysym_core::{Keysym, Names};
use std::alloc::{AllocError, Global};
use std::marker::Model;

/// The keysyms of a definition.
type Sequence = ArrayVec<Keysym, 32>;

/// The line that counts for a sequence: the last one that defines it.
#[derive(Drop)]
pub struct CountingLine<'a> {
    place: DefinitionPlace,
    bytes: &'a [u8],
}

impl<'a> Model for CountingLine<'a> {
    ghost use Rattle.std.specs.Prelude.{[], unwrap_or};
    ghost use Rattle.compose_places.specs.Events.{line_events};
    ghost use Rattle.compose_places.specs.Counting.{WrittenLine};

    ghost Value = { WrittenLine };

    ghost view = { λ l. record { place = l.place; keys = unwrap_or (line_events l.bytes.now) [] } };
}

impl<'a> CountingLine<'a> {
    ghost use Rattle.std.specs.Prelude.{◌≡◌, map};

    /// Returns the place of the line. O(1).
    pub fn place(&self) -> DefinitionPlace
        ensures { result ≡ self.now.place }
    {
        self.place
    }

    /// Returns the names of its keys, as written between `<` and `>`. O(bytes of the line).
    pub fn keys(&self) -> Events<'a>
        ensures { map (λ key. key.now) result.items ≡ self.now.keys }
    {
        match line_events(self.bytes) {
            Some(events) => events,
            None => ArrayVec::new(),
        }
    }
}

/// The lines that begin like definitions, among the first 1,000,000 lines that are read from a
/// root. If a table is read without a fault, these are the lines of its definitions.
#[derive(Drop)]
pub(crate) struct BegunLines<'a> {
    visits: Visits<'a>,
    /// How many lines may still be read.
    left: usize,
}

impl<'a> Model for BegunLines<'a> {
    ghost use Rattle.std.specs.Prelude.{List, filter, take};
    ghost use Rattle.compose_read.specs.Lines.{Visit};
    ghost use Rattle.compose_places.specs.Counting as words;

    ghost Value = { List Visit };

    ghost view = { λ l. filter (λ v. words.begins_definition v.bytes) (take l.left l.visits) };
}

impl<'a> BegunLines<'a> {
    ghost use Rattle.std.specs.Prelude.{◌≡◌, Some, None, map, drop, length, nat_lt, if◌then◌else◌, slice_get};
    ghost use Rattle.compose_read.specs.Lines.{source_named};
    ghost use Rattle.compose_places.specs.Counting as words;

    /// Returns these lines of the sources; `None` if no source has the root's name. O(1).
    pub(crate) fn new(sources: &'a Sources, root: &str) -> Option<BegunLines<'a>>
        ensures { result
            ≡ (if nat_lt (source_named sources.now root.now) (length sources.now) then Some
            (words.begun_lines sources.now root.now) else None) }
    {
        let visits = sources.visits(root)?;
        Some(BegunLines {
            visits,
            left: MAX_LINES,
        })
    }

    /// Returns the next line. O(bytes of the lines up to it).
    fn next(&mut self) -> Option<CountingLine<'a>>
        ensures line { result ≡ slice_get (map words.written_line self.old) 0 }
        ensures rest { self.new ≡ drop 1 self.old }
    {
        while self.left > 0 {
            let line = self.visits.next()?;
            self.left -= 1;
            if begins_definition(line.bytes) {
                return Some(CountingLine {
                    place: DefinitionPlace {
                        source: line.source,
                        line: line.line,
                    },
                    bytes: line.bytes,
                });
            }
        }
        None
    }
}

/// Whether the line begins like a definition. O(blanks).
fn begins_definition(line: &[u8]) -> bool
    ensures { result ≡ words.begins_definition line.now }
{
    line[blank_len(line)..].starts_with(b"<")
}

/// Returns for each leaf of the table, by its number, the line that counts. The next of the lines
/// defines the first sequence, and so on, and the last line of a leaf's sequence counts. The
/// sequences that the table doesn't have are appended to `others`. O(bytes of the lines + keysyms ×
/// log edges of a node).
pub(crate) fn last_lines<'a, 's, T: ComposeTable>(
    alloc: Global,
    mut lines: BegunLines<'a>,
    sequences: &'s SequenceList,
    table: &T,
    others: &mut Vec<&'s [Keysym]>,
) -> Result<Vec<Option<CountingLine<'a>>>, AllocError>
    ensures others { IfOk result
        (λ _. map (λ s. s.now) others.new.items
        ≡ map (λ s. s.now) others.old.items
        ++ filter (λ s. not (is_sequence (T.definitions table.now) s)) sequences.now) }
    ensures lines { (names : KeysymNames)
        → map Some sequences.now ≡ map (λ v. defined_sequence names v.bytes) lines.entry
        → IfOk result
        (λ kept. kept.items
        ≡ map (counting_line names lines.entry) (leaves (T.definitions table.now))) }
{
    // The contract of this call says that the table is settled.
    let _ = table.node_count();
    let mut kept = no_lines(alloc, table.leaf_count())?;
    for index in 0..sequences.len() {
        let sequence = sequences.sequence(index);
        let line = lines.next();
        match leaf_of(table, sequence) {
            Some(leaf) => kept[leaf.0 as usize] = line,
            None => others.push(sequence)?,
        }
    }
    Ok(kept)
}

/// Returns `None` for each of this number of leaves.
fn no_lines<'a>(alloc: Global, leaves: u32) -> Result<Vec<Option<CountingLine<'a>>>, AllocError>
    ensures { IfOk result (λ kept. kept.items ≡ replicate leaves None) }
{
    let mut kept = Vec::with_capacity(alloc, leaves as usize)?;
    while kept.len() < leaves as usize {
        kept.push(None)?;
    }
    Ok(kept)
}

/// Returns the leaf to which the keys of these names lead, if each name has a keysym and the table
/// has their sequence. O(keys × log edges of a node).
pub fn leaf_named<T: ComposeTable>(names: &Names, table: &T, keys: &[&str]) -> Option<LeafId>
    requires few { length keys.now ≤ 32 }
    ensures { MatchOption result
        ((s : List ℕ) → words.sequence_named names.now (map (λ key. key.now) keys.now) ≡ Some s
        → is_sequence (T.definitions table.now) s ≡ false)
        (λ leaf. (s : List ℕ)
        × (words.sequence_named names.now (map (λ key. key.now) keys.now) ≡ Some s)
        × (is_sequence (T.definitions table.now) s ≡ true)
        × (leaf_number (T.definitions table.now) s ≡ leaf.0)) }
{
    // The contract of this call says that the table is settled.
    let _ = table.node_count();
    let sequence = sequence_named(names, keys)?;
    leaf_of(table, sequence.as_slice())
}

/// Returns the keysyms of these names, if each has one. O(keys) look-ups of names.
pub fn sequence_named(names: &Names, keys: &[&str]) -> Option<Sequence>
    requires { length keys.now ≤ 32 }
    ensures { option_map (λ sequence. sequence.items) result
        ≡ words.sequence_named names.now (map (λ key. key.now) keys.now) }
{
    let mut sequence = ArrayVec::new();
    for key in keys {
        sequence.push(names.lookup(key)?);
    }
    Some(sequence)
}
