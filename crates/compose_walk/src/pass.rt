//! One pass over the old nodes in the order of their numbers, with the new node that is paired with
//! each.
ghost use Rattle.std.specs.Prelude.{◌≡◌, ◌<◌, ◌+◌, ◌++◌, ◌∷◌, [], ℕ, List, Some, true, IsTrue, length, map, take, slice_get, OnOk, IfOk, IfErr};
ghost use Rattle.std.specs.List.{filter};
ghost use Rattle.std.specs.List.Sorted.{IsPermutation, IsSortedBy};
ghost use Rattle.compose_model.specs.Table.{is_table};
ghost use Rattle.compose_model.specs.Step.{pending};
ghost use Rattle.compose_model.specs.Nodes as words;
ghost use Rattle.compose_model.specs.Nodes.{nodes, number_of, edges};
ghost use Rattle.compose_model.specs.Certificate.{keys_rise};
ghost use Rattle.compose_tree.specs.Targets.{target_of};
ghost use Rattle.compose_walk.specs.Pass.{agrees, differs_at, differing_starts, is_differing_start};
ghost use Rattle.compose_walk.specs.Stands.{stand, partners_at, found_at, found_behind, all_found, comes_sooner};

use crate::fault::MakeFault;
use crate::step::{difference, key_step};
use compose_fresh::is_among;
use compose_tree::{ComposeTable, NodeId, Target};
use keysym_core::{Keysym, Names};
use std::alloc::Global;

/// The partner of an old node up to which the tables agree: the new node that is then pending, and
/// the old node and the keysym that lead to the old node (for the root: the root, and any keysym).
#[derive(Clone, Copy)]
pub struct Partner {
    /// The new node that is pending after the old node's keys.
    pub new_node: NodeId,
    /// The old node from which the keysym leads to this one.
    pub parent: NodeId,
    /// The last keysym of the old node's keys.
    pub keysym: Keysym,
}

/// A key at which the tables first differ, typed at an old node.
#[derive(Clone, Copy)]
pub struct Found {
    /// The number of keysyms that lead to the old node.
    pub depth: u32,
    /// The number of the old node, counted from 0.
    pub node: u32,
    /// The key at which the tables differ.
    pub keysym: Keysym,
}

impl Found {
    /// Whether its keys are fewer than those of the other one, or as many and before them in order.
    pub fn comes_sooner(&self, other: &Found) -> bool
        ensures { result ≡ comes_sooner self.now other.now }
    {
        if self.depth != other.depth {
            return self.depth < other.depth;
        }
        if self.node != other.node {
            return self.node < other.node;
        }
        self.keysym < other.keysym
    }
}

/// What the pass knows of each old node, and the keys at which the tables differ.
#[derive(Drop)]
pub struct Pass {
    /// For each old node, by its number, its partner, if the tables agree up to it.
    pub stands: Vec<Option<Partner>>,
    /// The keys at which the tables differ.
    pub found: Vec<Found>,
}

impl Pass {
    /// Visits one edge of an old node, which is paired with the new node.
    fn take_edge<T: ComposeTable, U: ComposeTable>(
        &mut self,
        old: &T,
        new: &U,
        names: &Names,
        node: NodeId,
        new_node: NodeId,
        index: u32,
    ) -> Result<(), MakeFault>
        requires table { IsTrue (is_table (T.definitions old.now)) }
        requires in_range { node.0 < length (nodes (T.definitions old.now)) }
        requires new_in_range { new_node.0 < length (nodes (U.definitions new.now)) }
        requires index { index
            < length (edges (T.definitions old.now) (words.node (T.definitions old.now) node.0)) }
        requires agree { agrees names.now (T.definitions old.now) (U.definitions new.now)
            (words.node (T.definitions old.now) node.0) ≡ true }
        requires together { words.node (U.definitions new.now) new_node.0
            ≡ pending (U.definitions new.now) (words.node (T.definitions old.now) node.0) }
        requires stands { self.old.stands.items
            ≡ partners_at names.now (T.definitions old.now) (U.definitions new.now) node.0
            (take index
            (edges (T.definitions old.now) (words.node (T.definitions old.now) node.0))) }
        ensures stands { OnOk result
            (self.new.stands.items
            ≡ partners_at names.now (T.definitions old.now) (U.definitions new.now) node.0
            (take (index + 1)
            (edges (T.definitions old.now)
            (words.node (T.definitions old.now) node.0)))) }
        ensures found { (k : ℕ)
            → slice_get
            (edges (T.definitions old.now)
            (words.node (T.definitions old.now) node.0)) index ≡ Some k
            → OnOk result
            (self.new.found.items
            ≡ self.old.found.items
            ++ map
            (found_at (T.definitions old.now)
            (words.node (T.definitions old.now) node.0))
            (filter
            (differs_at names.now (T.definitions old.now)
            (U.definitions new.now)
            (words.node (T.definitions old.now) node.0)) (k ∷ []))) }
        ensures err { IfErr result (λ e. e ≡ MakeFault.NoMemory) }
    {
        let (keysym, target) = old.edge(node, index);
        let old_step = key_step(old, names, node, keysym, Some(target));
        let new_step = key_step(new, names, new_node, keysym, new.step(new_node, keysym));
        if difference(&old_step, &new_step).is_some() {
            self.found.push(Found {
                depth: old.depth(node),
                node: node.0,
                keysym,
            })?;
            return Ok(());
        }
        let Target::Node(child) = target else {
            return Ok(());
        };
        self.stands[child.0 as usize] = Some(Partner {
            new_node: new_step.next,
            parent: node,
            keysym,
        });
        Ok(())
    }

    /// Visits each edge of an old node, which is paired with the new node. O(edges of the node ×
    /// log edges of the new node).
    fn take_node<T: ComposeTable, U: ComposeTable>(
        &mut self,
        old: &T,
        new: &U,
        names: &Names,
        node: NodeId,
        new_node: NodeId,
    ) -> Result<(), MakeFault>
        requires table { IsTrue (is_table (T.definitions old.now)) }
        requires in_range { node.0 < length (nodes (T.definitions old.now)) }
        requires new_in_range { new_node.0 < length (nodes (U.definitions new.now)) }
        requires agree { agrees names.now (T.definitions old.now) (U.definitions new.now)
            (words.node (T.definitions old.now) node.0) ≡ true }
        requires together { words.node (U.definitions new.now) new_node.0
            ≡ pending (U.definitions new.now) (words.node (T.definitions old.now) node.0) }
        requires stands { self.old.stands.items
            ≡ partners_at names.now (T.definitions old.now) (U.definitions new.now) node.0 [] }
        ensures stands { OnOk result
            (self.new.stands.items
            ≡ partners_at names.now (T.definitions old.now) (U.definitions new.now)
            (node.0 + 1) []) }
        ensures found { OnOk result
            (self.new.found.items
            ≡ self.old.found.items
            ++ found_behind names.now (T.definitions old.now) (U.definitions new.now)
            (words.node (T.definitions old.now) node.0)) }
        ensures err { IfErr result (λ e. e ≡ MakeFault.NoMemory) }
    {
        for index in 0..old.edge_count(node) {
            self.take_edge(old, new, names, node, new_node, index)?;
        }
        Ok(())
    }

    /// Begins the pass before the first node: with the new starts that differ, and with the roots
    /// paired.
    fn begin<T: ComposeTable, U: ComposeTable>(
        alloc: Global,
        old: &T,
        new: &U,
        names: &Names,
        fresh: &[Keysym],
    ) -> Result<Pass, MakeFault>
        requires table { IsTrue (is_table (T.definitions old.now)) }
        requires new_table { IsTrue (is_table (U.definitions new.now)) }
        requires fresh { IsTrue (keys_rise fresh.now) }
        ensures stands { IfOk result
            (λ pass. pass.stands.items
            ≡ partners_at names.now (T.definitions old.now) (U.definitions new.now) 0 []) }
        ensures found { IfOk result
            (λ pass. pass.found.items
            ≡ map (found_at (T.definitions old.now) [])
            (differing_starts names.now fresh.now (T.definitions old.now)
            (U.definitions new.now))) }
        ensures err { IfErr result (λ e. e ≡ MakeFault.NoMemory) }
    {
        let mut stands = Vec::new(alloc);
        stands.resize(old.node_count() as usize, None)?;
        stands[0] = Some(Partner {
            new_node: NodeId::ROOT,
            parent: NodeId::ROOT,
            keysym: Keysym::default(),
        });
        let found = find_new_starts(alloc, old, new, names, fresh)?;
        Ok(Pass { stands, found })
    }

    /// Makes the whole pass. `Err(NoMemory)` if memory runs out. O(edges × log edges); 16 bytes per
    /// node, and 12 per key that differs.
    pub fn run<T: ComposeTable, U: ComposeTable>(
        alloc: Global,
        old: &T,
        new: &U,
        names: &Names,
        fresh: &[Keysym],
    ) -> Result<Pass, MakeFault>
        requires table { IsTrue (is_table (T.definitions old.now)) }
        requires new_table { IsTrue (is_table (U.definitions new.now)) }
        requires fresh { IsTrue (keys_rise fresh.now) }
        ensures stands { IfOk result
            (λ pass. pass.stands.items
            ≡ map (stand names.now (T.definitions old.now) (U.definitions new.now))
            (nodes (T.definitions old.now))) }
        ensures found { IfOk result
            (λ pass. pass.found.items
            ≡ all_found names.now fresh.now (T.definitions old.now) (U.definitions new.now)
            (nodes (T.definitions old.now))) }
        ensures err { IfErr result (λ e. e ≡ MakeFault.NoMemory) }
    {
        let mut pass = Pass::begin(alloc, old, new, names, fresh)?;
        for number in 0..old.node_count() {
            let Some(stand) = pass.stands[number as usize] else {
                continue;
            };
            pass.take_node(old, new, names, NodeId(number), stand.new_node)?;
        }
        Ok(pass)
    }

    /// Puts the found keys in order: those after fewer keys first, and of the same number those
    /// that are first in order. O(n log n).
    pub fn sort_found(&mut self)
        ensures stands { self.new.stands.items ≡ self.old.stands.items }
        ensures same { IsPermutation self.old.found.items self.new.found.items }
        ensures sorted { IsSortedBy comes_sooner self.new.found.items }
    {
        self.found
            .sort_unstable_by_key(|found| (found.depth, found.node, found.keysym));
    }
}

/// Finds the keys that start sequences in the new table alone, are not fresh, and differ, in rising
/// order. O(edges of the new root × log edges).
fn find_new_starts<T: ComposeTable, U: ComposeTable>(
    alloc: Global,
    old: &T,
    new: &U,
    names: &Names,
    fresh: &[Keysym],
) -> Result<Vec<Found>, MakeFault>
    requires new_table { IsTrue (is_table (U.definitions new.now)) }
    requires fresh { IsTrue (keys_rise fresh.now) }
    ensures found { IfOk result
        (λ found. found.items
        ≡ map (found_at (T.definitions old.now) [])
        (differing_starts names.now fresh.now (T.definitions old.now)
        (U.definitions new.now))) }
    ensures err { IfErr result (λ e. e ≡ MakeFault.NoMemory) }
{
    let mut found = Vec::new(alloc);
    for index in 0..new.edge_count(NodeId::ROOT) {
        let (keysym, target) = new.edge(NodeId::ROOT, index);
        if !is_differing_start(old, new, names, fresh, keysym, target) {
            continue;
        }
        found.push(Found {
            depth: 0,
            node: 0,
            keysym,
        })?;
    }
    Ok(found)
}

/// Whether the edge of the new root starts sequences that the old table does not have, is not
/// fresh, and differs.
fn is_differing_start<T: ComposeTable, U: ComposeTable>(
    old: &T,
    new: &U,
    names: &Names,
    fresh: &[Keysym],
    keysym: Keysym,
    target: Target,
) -> bool
    requires new_table { IsTrue (is_table (U.definitions new.now)) }
    requires fresh { IsTrue (keys_rise fresh.now) }
    requires target { target_of (U.definitions new.now) [] keysym ≡ Some target }
    ensures { result
        ≡ is_differing_start names.now fresh.now (T.definitions old.now)
        (U.definitions new.now) keysym }
{
    if old.step(NodeId::ROOT, keysym).is_some() {
        return false;
    }
    if is_among(fresh, keysym) {
        return false;
    }
    let old_step = key_step(old, names, NodeId::ROOT, keysym, None);
    let new_step = key_step(new, names, NodeId::ROOT, keysym, Some(target));
    difference(&old_step, &new_step).is_some()
}
