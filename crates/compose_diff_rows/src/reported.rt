//! The sequences that get a row.
ghost use Rattle.std.specs.Prelude.{◌≡◌, ◌<◌, ℕ, List, [], map, length, get_or, None, option_copied, IfOk, IsTrue};
ghost use Rattle.std.specs.Option.{option_map, option_map_or};
ghost use Rattle.keysym_core.specs.Names.{KeysymNames};
ghost use Rattle.compose_model.specs.Nodes.{leaves};
ghost use Rattle.compose_compare.specs.Change.{old_changes, new_changes};
ghost use Rattle.compose_diff_rows.specs.Rows as words;
ghost use Rattle.compose_diff_rows.specs.Rows.{Written, named_sequence, reported_entry, reported_of, reported_sequence, old_reported, new_reported};
ghost use Rattle.compose_compare.specs.declared.Change.TheVariants.{Kept};
ghost use Rattle.compose_diff.specs.Line.{is_loss};
ghost use Rattle.compose_lookup.specs.TextIndex.{is_among, IsTextIndex};

use crate::longer::longer_now;
use crate::typing::{NamedSequence, typed_now};
use crate::written::WrittenTable;
use arrayvec::ArrayVec;
use compose_compare::Change;
use compose_diff::{TextPlace, is_loss};
use compose_lookup::TextIndex;
use compose_places::{CountingLine, Events};
use compose_tree::{ComposeTable, LeafId};
use keysym_core::Names;
use std::alloc::{AllocError, Global};

/// A sequence that gets a row, with what its table has for it.
#[derive(Drop)]
pub(crate) struct ReportedSequence<'a> {
    /// What happens to it.
    pub(crate) change: Change,
    /// The names of its keys, as they are written in the line that counts.
    pub(crate) keys: Events<'a>,
    /// What the table has for it.
    pub(crate) entry: Option<TextPlace<'a>>,
    /// The longer sequence of the new table for which it waits, if it does.
    pub(crate) longer: Option<NamedSequence<'a>>,
    /// The sequence with which the new table gives its text, if people lose this one.
    pub(crate) typing: Option<NamedSequence<'a>>,
}

/// Returns whether a sequence of the old table to which this happens gets a row; a kept one only if
/// all rows are wanted.
pub(crate) fn is_reported(whole: bool, change: Change) -> bool
    ensures { result ≡ words.is_reported whole change }
{
    match change {
        Change::Kept => whole,
        Change::Changed | Change::Waiting | Change::Removed | Change::Added | Change::NewStart => {
            true
        }
    }
}

/// Returns the sequences of the old table that get a row, in its order; `changes` holds what
/// happens to each of its sequences. Costs as much as lexing their lines, and finding the texts of
/// those that people lose.
pub(crate) fn reported_of_old<'a, T: ComposeTable>(
    alloc: Global,
    names: &Names,
    whole: bool,
    changes: &[Change],
    old: &WrittenTable<'a, T>,
    new: &WrittenTable<'a, T>,
    index: &TextIndex,
) -> Result<Vec<ReportedSequence<'a>>, AllocError>
    requires fits { length changes.now ≡ length (leaves (T.definitions old.now.table.now)) }
    requires indexed { (i : ℕ) → i < length changes.now → IsTrue (is_loss (get_or changes.now i Kept))
        → IsTextIndex (T.definitions new.now.table.now)
        (words.text_in (words.written T.definitions old.now)
        (get_or (leaves (T.definitions old.now.table.now)) i [])) index.now }
    ensures { (fresh : List ℕ)
        → changes.now
        ≡ old_changes names.now fresh (T.definitions old.now.table.now)
        (T.definitions new.now.table.now)
        → IfOk result
        (λ reported. map reported_sequence reported.items
        ≡ map
        (reported_of names.now fresh (words.written T.definitions old.now)
        (words.written T.definitions new.now) (words.written T.definitions old.now))
        (old_reported whole names.now fresh (T.definitions old.now.table.now)
        (T.definitions new.now.table.now))) }
{
    let mut reported = Vec::new(alloc);
    for leaf in 0..old.table.leaf_count() {
        let change = changes[leaf as usize];
        if is_reported(whole, change) {
            reported.push(lost_at(names, LeafId(leaf), change, old, new, index))?;
        }
    }
    Ok(reported)
}

/// Returns the texts of the old table's sequences that people lose; `changes` holds what happens to
/// each of its sequences. O(leaves).
pub(crate) fn lost_texts<'a, T: ComposeTable>(
    alloc: Global,
    changes: &[Change],
    old: &WrittenTable<'a, T>,
) -> Result<Vec<&'a str>, AllocError>
    requires { length changes.now ≡ length (leaves (T.definitions old.now.table.now)) }
    ensures { IfOk result
        (λ texts. (i : ℕ) → i < length changes.now → IsTrue (is_loss (get_or changes.now i Kept))
        → IsTrue
        (is_among (map (λ t. t.now) texts.items)
        (words.text_in (words.written T.definitions old.now)
        (get_or (leaves (T.definitions old.now.table.now)) i [])))) }
{
    let mut texts = Vec::new(alloc);
    for leaf in 0..old.table.leaf_count() {
        if is_loss(changes[leaf as usize]) {
            texts.push(old.table.text(LeafId(leaf)))?;
        }
    }
    Ok(texts)
}

/// Returns the sequences that only the new table has, in its order; `changes` holds what happens to
/// each of its sequences. Costs as much as lexing their lines.
pub(crate) fn reported_of_new<'a, T: ComposeTable>(
    alloc: Global,
    changes: &[Option<Change>],
    new: &WrittenTable<'a, T>,
) -> Result<Vec<ReportedSequence<'a>>, AllocError>
    requires fits { length changes.now ≡ length (leaves (T.definitions new.now.table.now)) }
    ensures { (names : KeysymNames) (fresh : List ℕ) (old : Written)
        → changes.now
        ≡ new_changes names fresh old.table (T.definitions new.now.table.now)
        → IfOk result
        (λ reported. map reported_sequence reported.items
        ≡ map
        (reported_of names fresh old (words.written T.definitions new.now)
        (words.written T.definitions new.now))
        (new_reported old.table (T.definitions new.now.table.now))) }
{
    let mut reported = Vec::new(alloc);
    for leaf in 0..new.table.leaf_count() {
        if let Some(change) = changes[leaf as usize] {
            reported.push(reported_at(LeafId(leaf), change, new))?;
        }
    }
    Ok(reported)
}

/// Returns what is reported of this leaf's sequence of the old table, to which this happens.
fn lost_at<'a, T: ComposeTable>(
    names: &Names,
    leaf: LeafId,
    change: Change,
    old: &WrittenTable<'a, T>,
    new: &WrittenTable<'a, T>,
    index: &TextIndex,
) -> ReportedSequence<'a>
    requires in_table { leaf.0 < length (leaves (T.definitions old.now.table.now)) }
    requires indexed { IsTrue (is_loss change)
        → IsTextIndex (T.definitions new.now.table.now)
        (words.text_in (words.written T.definitions old.now)
        (get_or (leaves (T.definitions old.now.table.now)) leaf.0 [])) index.now }
    ensures change { result.change ≡ change }
    ensures keys { map (λ key. key.now) result.keys.items
        ≡ words.keys_of (words.written T.definitions old.now)
        (get_or (leaves (T.definitions old.now.table.now)) leaf.0 []) }
    ensures entry { option_map reported_entry result.entry
        ≡ words.entry_of (words.written T.definitions old.now)
        (get_or (leaves (T.definitions old.now.table.now)) leaf.0 []) }
    ensures longer { option_map named_sequence result.longer
        ≡ words.longer_named names.now (words.written T.definitions new.now) change
        (words.keys_of (words.written T.definitions old.now)
        (get_or (leaves (T.definitions old.now.table.now)) leaf.0 [])) }
    ensures typing { option_map named_sequence result.typing
        ≡ words.now_of (words.written T.definitions new.now) change
        (words.entry_of (words.written T.definitions old.now)
        (get_or (leaves (T.definitions old.now.table.now)) leaf.0 [])) }
{
    let entry = entry_at(old, leaf);
    let typing = typed_now(change, &entry, new, index);
    let keys = keys_at(old, leaf);
    let longer = longer_now(names, change, keys.as_slice(), new);
    ReportedSequence {
        change,
        keys,
        entry,
        longer,
        typing,
    }
}

/// Returns what is reported of this leaf's sequence of the new table, to which this happens.
fn reported_at<'a, T: ComposeTable>(
    leaf: LeafId,
    change: Change,
    written: &WrittenTable<'a, T>,
) -> ReportedSequence<'a>
    requires { leaf.0 < length (leaves (T.definitions written.now.table.now)) }
    ensures change { result.change ≡ change }
    ensures keys { map (λ key. key.now) result.keys.items
        ≡ words.keys_of (words.written T.definitions written.now)
        (get_or (leaves (T.definitions written.now.table.now)) leaf.0 []) }
    ensures entry { option_map reported_entry result.entry
        ≡ words.entry_of (words.written T.definitions written.now)
        (get_or (leaves (T.definitions written.now.table.now)) leaf.0 []) }
    ensures longer { result.longer ≡ None }
    ensures typing { result.typing ≡ None }
{
    ReportedSequence {
        change,
        keys: keys_at(written, leaf),
        entry: entry_at(written, leaf),
        longer: None,
        typing: None,
    }
}

/// Returns the names of the keys of this leaf, as they are written in the line that counts; none
/// without a line.
pub(crate) fn keys_at<'a, T: ComposeTable>(
    written: &WrittenTable<'a, T>,
    leaf: LeafId,
) -> Events<'a>
    ensures { map (λ key. key.now) result.items
        ≡ option_map_or (λ line. line.keys) (get_or written.now.lines.now leaf.0 None) [] }
{
    match line_at(written, leaf) {
        Some(line) => line.keys(),
        None => ArrayVec::new(),
    }
}

/// Returns what a table has for the sequence of this leaf.
pub(crate) fn entry_at<'a, T: ComposeTable>(
    written: &WrittenTable<'a, T>,
    leaf: LeafId,
) -> Option<TextPlace<'a>>
    requires { leaf.0 < length (leaves (T.definitions written.now.table.now)) }
    ensures { option_map reported_entry result
        ≡ words.entry_of (words.written T.definitions written.now)
        (get_or (leaves (T.definitions written.now.table.now)) leaf.0 []) }
{
    let line = line_at(written, leaf)?;
    let place = line.place();
    Some(TextPlace {
        text: written.table.text(leaf),
        source: place.source,
        path: path_at(written.paths, place.source),
        line: place.line,
    })
}

/// Returns the line that counts for this leaf, if there is one.
pub(crate) fn line_at<'a, T: ComposeTable>(
    written: &WrittenTable<'a, T>,
    leaf: LeafId,
) -> Option<&'a CountingLine<'a>>
    ensures { option_copied result ≡ get_or written.now.lines.now leaf.0 None }
{
    written.lines.get(leaf.0 as usize)?.as_ref()
}

/// Returns the path at this index, or an empty one if there is none.
pub(crate) fn path_at<'a>(paths: &[&'a str], index: usize) -> &'a str
    ensures { result.now ≡ get_or (map (λ path. path.now) paths.now) index [] }
{
    match paths.get(index) {
        Some(path) => path,
        None => "",
    }
}
