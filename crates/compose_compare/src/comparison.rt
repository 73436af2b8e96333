//! What a new table does to each sequence of an old one, and what it adds.
ghost use Rattle.std.specs.Prelude.{◌≡◌, ◌↔◌, ℕ, List, true, IsTrue, IfOk};
ghost use Rattle.std.specs.List.{list_all};
ghost use Rattle.std.specs.Option.{option_map_or};
ghost use Rattle.compose_model.specs.Follows.{Follows};
ghost use Rattle.compose_model.specs.Certificate.{AreFresh, keys_rise};
ghost use Rattle.compose_compare.specs.Change.{is_harmless, old_changes, new_changes};
ghost use Rattle.compose_compare.specs.Comparison.{is_all_harmless};

use crate::passes::{visit_new, visit_old};
use crate::{Change, law_changes};
use compose_tree::{ComposeTable, NodeId};
use keysym_core::{Keysym, Names};
use std::alloc::{AllocError, Global};
use std::marker::Model;

/// What happens to each sequence of an old and a new table.
#[derive(Debug, Drop)]
pub struct Comparison {
    of_old: Vec<Change>,
    of_new: Vec<Option<Change>>,
}

impl Model for Comparison {
    ghost use Rattle.compose_compare.specs.Comparison.{Reported};

    ghost Value = { Reported };

    ghost view = { λ c. record { of_old = c.of_old.items; of_new = c.of_new.items } };
}

impl Comparison {
    /// Returns what happens to each sequence of the old table, by the numbers of its leaves. O(1).
    pub fn old_changes(&self) -> &[Change]
        ensures { result.now ≡ self.now.of_old }
    {
        self.of_old.as_slice()
    }

    /// Returns what happens to each sequence of the new table, by the numbers of its leaves; `None`
    /// for a sequence that the old table has too, since `old_changes` has it. O(1).
    pub fn new_changes(&self) -> &[Option<Change>]
        ensures { result.now ≡ self.now.of_new }
    {
        self.of_new.as_slice()
    }

    /// Whether the new table changes nothing for people who type with the old one. O(sequences).
    pub fn loses_nothing(&self) -> bool
        ensures { result ≡ is_all_harmless self.now }
    {
        are_kept(self.of_old.as_slice()) && are_added(self.of_new.as_slice())
    }
}

/// Whether each change is harmless.
fn are_kept(changes: &[Change]) -> bool
    ensures { result ≡ list_all is_harmless changes.now }
{
    for change in changes {
        if !change.is_harmless() {
            return false;
        }
    }
    true
}

/// Whether each change is harmless, for those that have one.
fn are_added(changes: &[Option<Change>]) -> bool
    ensures { result ≡ list_all (λ c. option_map_or is_harmless c true) changes.now }
{
    for slot in changes {
        if let Some(change) = slot
            && !change.is_harmless()
        {
            return false;
        }
    }
    true
}

/// Compares two tables: finds what happens to each sequence of both. If the keysyms are fresh for
/// the old table, the new table follows the old one exactly if nothing is lost.
///
/// `Err(AllocError)` if memory runs out. O(edges of both tables × log edges of a node) time; a byte
/// per sequence of either table.
pub fn compare<T: ComposeTable, U: ComposeTable>(
    alloc: Global,
    old: &T,
    new: &U,
    names: &Names,
    fresh: &[Keysym],
) -> Result<Comparison, AllocError>
    requires rise { IsTrue (keys_rise fresh.now) }
    ensures of_old { IfOk result
        (λ c. c.of_old
        ≡ old_changes names.now fresh.now (T.definitions old.now) (U.definitions new.now)) }
    ensures of_new { IfOk result
        (λ c. c.of_new
        ≡ new_changes names.now fresh.now (T.definitions old.now) (U.definitions new.now)) }

    // nothing is lost exactly if the new table follows
    ensures follows { AreFresh fresh.now (T.definitions old.now)
        → IfOk result
        (λ c. Follows names.now fresh.now (T.definitions old.now) (U.definitions new.now)
        ↔ IsTrue (is_all_harmless c)) }
{
    law_changes();
    // The contracts of these calls say that the tables are settled.
    let _ = old.node_count();
    let _ = new.node_count();
    let of_old = all_old(alloc, old, new, names)?;
    let of_new = all_new(alloc, old, new, names, fresh)?;
    Ok(Comparison { of_old, of_new })
}

/// Finds what happens to each sequence of the old table.
fn all_old<T: ComposeTable, U: ComposeTable>(
    alloc: Global,
    old: &T,
    new: &U,
    names: &Names,
) -> Result<Vec<Change>, AllocError>
    ensures { (fresh : List ℕ)
        → IfOk result
        (λ changes. changes.items
        ≡ old_changes names.now fresh (T.definitions old.now) (U.definitions new.now)) }
{
    // The contracts of these calls say that the tables are settled.
    let _ = old.node_count();
    let _ = new.node_count();
    let mut changes = Vec::new(alloc);
    changes.resize(old.leaf_count() as usize, Change::Removed)?;
    visit_old(
        old,
        new,
        names,
        NodeId::ROOT,
        Some(NodeId::ROOT),
        Some(NodeId::ROOT),
        &mut changes,
    );
    Ok(changes)
}

/// Finds what happens to each sequence of the new table that the old one does not have.
fn all_new<T: ComposeTable, U: ComposeTable>(
    alloc: Global,
    old: &T,
    new: &U,
    names: &Names,
    fresh: &[Keysym],
) -> Result<Vec<Option<Change>>, AllocError>
    requires rise { IsTrue (keys_rise fresh.now) }
    ensures { IfOk result
        (λ changes. changes.items
        ≡ new_changes names.now fresh.now (T.definitions old.now) (U.definitions new.now)) }
{
    // The contracts of these calls say that the tables are settled.
    let _ = old.node_count();
    let _ = new.node_count();
    let mut changes = Vec::new(alloc);
    changes.resize(new.leaf_count() as usize, None)?;
    visit_new(
        old,
        new,
        names,
        fresh,
        NodeId::ROOT,
        Some(NodeId::ROOT),
        false,
        &mut changes,
    );
    Ok(changes)
}
