//! The merged table as a Compose file, and the reading of it.
ghost use Rattle.std.specs.Prelude.{◌≡◌, ◌≢◌, ℕ, List, Ok, IfOk, IfErr, filter, string_bytes};
ghost use Rattle.compose_lookup.specs.TextIndex.{leaf_ids};
ghost use Rattle.compose_model.specs.Table.{Definition};
ghost use Rattle.compose_model.specs.declared.Rule.TheVariants.{Refuse};
ghost use Rattle.compose_read.specs.Settle.{settled};
ghost use Rattle.compose_tree.specs.TableReturns.{first_table};
ghost use Rattle.compose_merging.specs.Printed as words;
ghost use Rattle.compose_merging.specs.Printed.{FailsBack, ReadsBack, ReadsRows, listed_as, source_of};
ghost use Rattle.compose_merging.specs.Treatments.{is_taken_leaf};

use crate::asking::MergingFault;
use crate::same_rows::are_same;
use crate::settled::read_settled;
use crate::treatment::{Treatment, is_taken};
use compose_answer::Refusal;
use compose_listing::{ListForm, ListedTable, push_leaves};
use compose_model::Rule;
use compose_read::{Sequences, SourceFault, Sources};
use compose_tree::{BuildFault, BuildTable, ComposeTable, LeafId, TableFault};
use keysym_core::Names;
use std::alloc::{AllocError, Global};

/// Returns the merged table as a Compose file: the lines of all sequences of the old table, and
/// then those of the new one that are taken. O(bytes of the lines).
pub(crate) fn table_text<T: ComposeTable>(
    alloc: Global,
    old: &ListedTable<'_, T>,
    new: &ListedTable<'_, T>,
    treatments: &[Treatment],
) -> Result<String, AllocError>
    ensures { IfOk result
        (λ text. string_bytes text
        ≡ words.table_text (listed_as T.definitions old.now) (listed_as T.definitions new.now)
        treatments.now) }
{
    let kept = all_leaves(alloc, old.table.leaf_count())?;
    let taken = taken_leaves(alloc, new.table.leaf_count(), treatments)?;
    let mut lines = String::new(alloc);
    push_leaves(alloc, &mut lines, ListForm::Lines, old, &kept)?;
    push_leaves(alloc, &mut lines, ListForm::Lines, new, &taken)?;
    Ok(lines)
}

/// Returns this number of leaves.
fn all_leaves(alloc: Global, count: u32) -> Result<Vec<LeafId>, AllocError>
    ensures { IfOk result (λ leaves. leaves.items ≡ leaf_ids count) }
{
    let mut leaves = Vec::with_capacity(alloc, count as usize)?;
    for number in 0..count {
        leaves.push(LeafId(number))?;
    }
    Ok(leaves)
}

/// Returns those of this number of leaves that are taken.
fn taken_leaves(
    alloc: Global,
    count: u32,
    treatments: &[Treatment],
) -> Result<Vec<LeafId>, AllocError>
    ensures { IfOk result
        (λ leaves. leaves.items ≡ filter (is_taken_leaf treatments.now) (leaf_ids count)) }
{
    let mut leaves = Vec::new(alloc);
    for number in 0..count {
        if takes(treatments, LeafId(number)) {
            leaves.push(LeafId(number))?;
        }
    }
    Ok(leaves)
}

/// Whether the leaf of the new table is taken.
fn takes(treatments: &[Treatment], leaf: LeafId) -> bool
    ensures { result ≡ is_taken_leaf treatments.now leaf }
{
    match treatments.get(leaf.0 as usize) {
        Some(treatment) => is_taken(*treatment),
        None => false,
    }
}

/// Reads what is printed of a merged table, by the rule that refuses overlaps, and compares it with
/// the rows of the table. O(bytes + n log n) for n sequences.
///
/// Errors: `NotReadBack` if it is not read as these rows; `TooLarge` if they have too many nodes;
/// `NoMemory` if memory runs out.
pub(crate) fn check_back<T: BuildTable>(
    alloc: Global,
    names: &Names,
    text: &str,
    rows: &Sequences,
) -> Result<(), MergingFault>
    ensures read { (definitions : List Definition) → settled Refuse definitions ≡ Ok rows.now
        → IfOk result (λ _. ReadsBack names.now definitions text.now) }
    ensures fault { (definitions : List Definition) → settled Refuse definitions ≡ Ok rows.now
        → IfErr result (λ fault. FailsBack names.now definitions text.now fault) }
{
    let read = read_rows(alloc, names, text)?;
    if !are_same(&read, rows) {
        return Err(MergingFault::NotReadBack);
    }
    match T::build(alloc, read) {
        Ok(_) => Ok(()),
        Err(BuildFault::TooManyNodes) => Err(MergingFault::TooLarge),
        Err(BuildFault::NoMemory) => Err(MergingFault::Input(Refusal::NoMemory)),
    }
}

/// Reads the rows of a Compose file without includes.
fn read_rows(alloc: Global, names: &Names, text: &str) -> Result<Sequences, MergingFault>
    ensures read { IfOk result (λ rows. ReadsRows names.now text.now rows) }
    ensures fault { (definitions : List Definition)
        → IfErr result (λ fault. FailsBack names.now definitions text.now fault) }
{
    match read_back(alloc, names, text) {
        Ok(rows) => Ok(rows),
        Err(TableFault::NoMemory) => Err(MergingFault::Input(Refusal::NoMemory)),
        Err(_) => Err(MergingFault::NotReadBack),
    }
}

/// Reads the same rows.
fn read_back(alloc: Global, names: &Names, text: &str) -> Result<Sequences, TableFault>
    ensures read { IfOk result (λ rows. ReadsRows names.now text.now rows) }
    ensures fault { IfErr result
        (λ fault. fault ≢ TableFault.NoMemory
        → (rows : List Definition) → first_table names.now (source_of text.now) Refuse ≢ Ok rows) }
{
    let Ok(sources) = merged_source(alloc, text.as_bytes()) else {
        return Err(TableFault::NoMemory);
    };
    read_settled(alloc, names, &sources, "merged", Rule::Refuse)
}

/// Returns the text as the only source.
fn merged_source(alloc: Global, text: &[u8]) -> Result<Sources<'_>, SourceFault>
    ensures { IfOk result (λ sources. sources ≡ source_of text.now) }
{
    let mut sources = Sources::new(alloc);
    sources.add_borrowed("merged", text)?;
    Ok(sources)
}
