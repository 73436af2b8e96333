//! The sequences of a table that are asked for.
ghost use Rattle.std.specs.Prelude.{◌≡◌, ℕ, List, Some, get_or, None, map, option_copied, IfOk};
ghost use Rattle.std.specs.List.{All, list_all};
ghost use Rattle.std.specs.Option.{option_map_or};
ghost use Rattle.keysym_core.specs.Names.{value};
ghost use Rattle.compose_model.specs.Certificate.{is_key};
ghost use Rattle.compose_places.specs.Counting.{sequence_named, AreLines};
ghost use Rattle.compose_lookup.specs.TextIndex.{IsLeaf, sequence_at};
ghost use Rattle.compose_listing.specs.Chosen as words;
ghost use Rattle.compose_listing.specs.Chosen.{begins_with, is_typable};
ghost use Rattle.compose_listing.specs.Leaves as leaf_words;

use crate::listed::{ListedTable, line_at};
use compose_cert::Repertoire;
use compose_lookup::text_of;
use compose_tree::{ComposeTable, LeafId};
use keysym_core::{Keysym, Names};
use std::alloc::{AllocError, Global};

/// Returns the leaves of the sequences that begin with these keys, and that give the text if one is
/// asked for, in order. O(keys of all sequences).
pub(crate) fn chosen_leaves<T: ComposeTable>(
    alloc: Global,
    listed: &ListedTable<'_, T>,
    prefix: &[Keysym],
    text: Option<&str>,
) -> Result<Vec<LeafId>, AllocError>
    requires { AreLines listed.now.names.now (T.definitions listed.now.table.now)
        listed.now.lines.now }
    ensures sequences { IfOk result
        (λ chosen. map (sequence_at (T.definitions listed.now.table.now)) chosen.items
        ≡ words.chosen (T.definitions listed.now.table.now) prefix.now (option_copied text.entry)) }
    ensures in_table { IfOk result
        (λ chosen. All (IsLeaf (T.definitions listed.now.table.now)) chosen.items) }
{
    // This call's contract states that the table is settled.
    let _ = listed.table.node_count();
    let mut chosen = Vec::new(alloc);
    for number in 0..listed.table.leaf_count() {
        if is_chosen(listed, LeafId(number), prefix, text) {
            chosen.push(LeafId(number))?;
        }
    }
    Ok(chosen)
}

/// Returns whether the leaf's sequence begins with these keys, and has the text if one is asked
/// for.
fn is_chosen<T: ComposeTable>(
    listed: &ListedTable<'_, T>,
    leaf: LeafId,
    prefix: &[Keysym],
    text: Option<&str>,
) -> bool
    requires lines { AreLines listed.now.names.now (T.definitions listed.now.table.now)
        listed.now.lines.now }
    requires in_table { IsLeaf (T.definitions listed.now.table.now) leaf }
    ensures { result
        ≡ leaf_words.is_chosen (T.definitions listed.now.table.now) prefix.now
        (option_copied text.entry) leaf }
{
    leaf_begins(listed, leaf, prefix) && has_asked(listed.table, leaf, text)
}

/// Returns whether the leaf has the text, if one is asked for.
fn has_asked<T: ComposeTable>(table: &T, leaf: LeafId, text: Option<&str>) -> bool
    ensures { result
        ≡ leaf_words.has_asked (T.definitions table.now) (option_copied text.entry) leaf }
{
    match text {
        Some(text) => text == text_of(table, leaf),
        None => true,
    }
}

/// Returns whether the leaf's sequence begins with these keys.
fn leaf_begins<T: ComposeTable>(
    listed: &ListedTable<'_, T>,
    leaf: LeafId,
    prefix: &[Keysym],
) -> bool
    requires lines { AreLines listed.now.names.now (T.definitions listed.now.table.now)
        listed.now.lines.now }
    requires in_table { IsLeaf (T.definitions listed.now.table.now) leaf }
    ensures { result
        ≡ begins_with prefix.now (sequence_at (T.definitions listed.now.table.now) leaf) }
{
    match line_at(listed.lines, leaf) {
        Some(line) => keys_begin(listed.names, line.keys().as_slice(), prefix),
        None => false,
    }
}

/// Returns whether the keysyms of these keys, each of which has one, begin with the prefix.
fn keys_begin(names: &Names, keys: &[&str], prefix: &[Keysym]) -> bool
    ensures { (s : List ℕ) → sequence_named names.now (map (λ key. key.now) keys.now) ≡ Some s
        → result ≡ begins_with prefix.now s }
{
    let Some((keysym, others)) = prefix.split_first() else {
        return true;
    };
    let Some((key, rest)) = keys.split_first() else {
        return false;
    };
    if names.lookup(key) != Some(*keysym) {
        return false;
    }
    keys_begin(names, rest, others)
}

/// Returns those of these leaves whose sequences have only keys of the repertoire, if one is given,
/// in order. O(keys of these sequences × log ranges).
pub(crate) fn typable_leaves<T: ComposeTable>(
    alloc: Global,
    listed: &ListedTable<'_, T>,
    repertoire: Option<&Repertoire>,
    leaves: &[LeafId],
) -> Result<Vec<LeafId>, AllocError>
    requires lines { AreLines listed.now.names.now (T.definitions listed.now.table.now)
        listed.now.lines.now }
    requires in_table { All (IsLeaf (T.definitions listed.now.table.now)) leaves.now }
    ensures { IfOk result
        (λ typable. typable.items
        ≡ leaf_words.typable_leaves (T.definitions listed.now.table.now)
        (option_copied repertoire.entry) leaves.now) }
{
    let mut typable = Vec::new(alloc);
    for leaf in leaves {
        if is_leaf_typable(listed, repertoire, *leaf) {
            typable.push(*leaf)?;
        }
    }
    Ok(typable)
}

/// Returns whether the leaf's sequence has only keys of the repertoire, if one is given.
fn is_leaf_typable<T: ComposeTable>(
    listed: &ListedTable<'_, T>,
    repertoire: Option<&Repertoire>,
    leaf: LeafId,
) -> bool
    requires lines { AreLines listed.now.names.now (T.definitions listed.now.table.now)
        listed.now.lines.now }
    requires in_table { IsLeaf (T.definitions listed.now.table.now) leaf }
    ensures { result
        ≡ is_typable (option_copied repertoire.entry)
        (sequence_at (T.definitions listed.now.table.now) leaf) }
{
    match repertoire {
        Some(repertoire) => has_typable_keys(listed, repertoire, leaf),
        None => true,
    }
}

/// Returns whether the leaf's sequence has only keys of the repertoire.
fn has_typable_keys<T: ComposeTable>(
    listed: &ListedTable<'_, T>,
    repertoire: &Repertoire,
    leaf: LeafId,
) -> bool
    requires lines { AreLines listed.now.names.now (T.definitions listed.now.table.now)
        listed.now.lines.now }
    requires in_table { IsLeaf (T.definitions listed.now.table.now) leaf }
    ensures { result
        ≡ list_all (is_key repertoire.now)
        (sequence_at (T.definitions listed.now.table.now) leaf) }
{
    match line_at(listed.lines, leaf) {
        Some(line) => are_typable(listed.names, repertoire, line.keys().as_slice()),
        None => false,
    }
}

/// Returns whether each of the keys is one of the repertoire's.
fn are_typable(names: &Names, repertoire: &Repertoire, keys: &[&str]) -> bool
    ensures { result
        ≡ list_all (λ key. leaf_words.is_typable_key names.now repertoire.now key.now) keys.now }
{
    keys.iter()
        .all(|key| is_typable_key(names, repertoire, key))
}

/// Returns whether the key is one of the repertoire's.
fn is_typable_key(names: &Names, repertoire: &Repertoire, key: &str) -> bool
    ensures { result ≡ leaf_words.is_typable_key names.now repertoire.now key.now }
{
    match names.lookup(key) {
        Some(keysym) => repertoire.is_key(keysym),
        None => false,
    }
}
