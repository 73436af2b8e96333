//! From a key that the pass found to the evidence for it.
ghost use Rattle.std.specs.Prelude.{◌≡◌, ◌<◌, ◌≤◌, ◌++◌, ◌∷◌, [], Some, true, false, IsTrue, IsSome, IfOk, IfErr, length, map};
ghost use Rattle.std.specs.List.{All};
ghost use Rattle.keysym_core.specs.Keysym as keysyms;
ghost use Rattle.compose_model.specs.Table.{is_table};
ghost use Rattle.compose_model.specs.Follows as follows;
ghost use Rattle.compose_model.specs.Nodes as words;
ghost use Rattle.compose_model.specs.Nodes.{nodes};
ghost use Rattle.compose_walk.specs.Kinds.{kind_of};
ghost use Rattle.compose_walk.specs.Pass.{agrees, differs_at, difference_at, evidence};
ghost use Rattle.compose_walk.specs.Stands.{stand, IsPlace, evidence_found};
ghost use Rattle.compose_walk.specs.Steps.{text_bytes, difference_of};

use crate::evidence::Counterexample;
use crate::fault::MakeFault;
use crate::pass::{Found, Pass};
use crate::step::{KeyStep, difference, key_step};
use arrayvec::{ArrayString, ArrayVec};
use compose_tree::{ComposeTable, NodeId};
use keysym_core::{Keysym, Names};
use std::alloc::Global;

impl Pass {
    /// Returns the evidence that the tables differ at a key that was found. O(keys²), and a look-up
    /// among the edges of each table.
    pub fn evidence<T: ComposeTable, U: ComposeTable>(
        &self,
        old: &T,
        new: &U,
        names: &Names,
        found: Found,
    ) -> Counterexample
        requires table { IsTrue (is_table (T.definitions old.now)) }
        requires stands { self.now.stands.items
            ≡ map (stand names.now (T.definitions old.now) (U.definitions new.now))
            (nodes (T.definitions old.now)) }
        requires in_range { found.node < length (nodes (T.definitions old.now)) }
        requires agree { agrees names.now (T.definitions old.now) (U.definitions new.now)
            (words.node (T.definitions old.now) found.node) ≡ true }
        requires differ { differs_at names.now (T.definitions old.now) (U.definitions new.now)
            (words.node (T.definitions old.now) found.node) found.keysym ≡ true }
        requires fed { keysyms.is_ignored found.keysym ≡ false }
        ensures { (kind : follows.Kind)
            → difference_at names.now (T.definitions old.now) (U.definitions new.now)
            (words.node (T.definitions old.now) found.node) found.keysym ≡ Some kind
            → result
            ≡ evidence names.now (T.definitions old.now) (U.definitions new.now)
            (words.node (T.definitions old.now) found.node) found.keysym kind }
    {
        let number = found.node;
        let keysym = found.keysym;
        let keys = self.keys_to(old, new, names, number, keysym);
        let slot = self.stands[number as usize];
        let stand = slot.unwrap();
        let new_node = stand.new_node;
        let old_target = old.step(NodeId(number), keysym);
        let old_step = key_step(old, names, NodeId(number), keysym, old_target);
        let new_target = new.step(new_node, keysym);
        let new_step = key_step(new, names, new_node, keysym, new_target);
        counterexample(keys, &old_step, &new_step)
    }

    /// Collects the evidence for each key that was found, in their order. `Err(NoMemory)` if memory
    /// runs out. O(found × (keys² + log edges)); 672 bytes each.
    pub fn all_evidence<T: ComposeTable, U: ComposeTable>(
        &self,
        alloc: Global,
        old: &T,
        new: &U,
        names: &Names,
    ) -> Result<Vec<Counterexample>, MakeFault>
        requires table { IsTrue (is_table (T.definitions old.now)) }
        requires stands { self.now.stands.items
            ≡ map (stand names.now (T.definitions old.now) (U.definitions new.now))
            (nodes (T.definitions old.now)) }
        requires places { All
            (IsPlace names.now (T.definitions old.now)
            (U.definitions new.now)) self.now.found.items }
        ensures evidence { IfOk result
            (λ differences. differences.items
            ≡ map
            (evidence_found names.now (T.definitions old.now)
            (U.definitions new.now)) self.now.found.items) }
        ensures err { IfErr result (λ e. e ≡ MakeFault.NoMemory) }
    {
        let mut differences = Vec::new(alloc);
        for found in &self.found {
            differences.push(self.evidence(old, new, names, *found))?;
        }
        Ok(differences)
    }

    /// Returns the keysyms that lead to the key's old node, and the key. O(keys²).
    fn keys_to<T: ComposeTable, U: ComposeTable>(
        &self,
        _old: &T,
        _new: &U,
        _names: &Names,
        number: u32,
        keysym: Keysym,
    ) -> ArrayVec<Keysym, 32>
        requires table { IsTrue (is_table (T.definitions _old.now)) }
        requires stands { self.now.stands.items
            ≡ map (stand _names.now (T.definitions _old.now) (U.definitions _new.now))
            (nodes (T.definitions _old.now)) }
        requires in_range { number < length (nodes (T.definitions _old.now)) }
        requires agree { agrees _names.now (T.definitions _old.now) (U.definitions _new.now)
            (words.node (T.definitions _old.now) number) ≡ true }
        ensures { result.items ≡ words.node (T.definitions _old.now) number ++ keysym ∷ [] }
    {
        let mut keys = ArrayVec::<Keysym, 32>::new();
        keys.push(keysym);
        let mut node = number;
        while node != 0 {
            let slot = self.stands[node as usize];
            let stand = slot.unwrap();
            keys.insert(0, stand.keysym);
            node = stand.parent.0;
        }
        keys
    }
}

/// Makes a counterexample of these keys, at whose last one the tables take these steps.
fn counterexample(
    keys: ArrayVec<Keysym, 32>,
    old_step: &KeyStep<'_>,
    new_step: &KeyStep<'_>,
) -> Counterexample
    requires differ { IsSome (difference_of old_step.now new_step.now) }
    requires old_short { length (text_bytes old_step.now.text) ≤ 255 }
    requires new_short { length (text_bytes new_step.now.text) ≤ 255 }
    ensures keys { result.keys ≡ keys.items }
    ensures kind { (kind : _) → difference_of old_step.now new_step.now ≡ Some kind
        → result.kind ≡ kind_of kind }
    ensures old_text { result.old_text ≡ text_bytes old_step.now.text }
    ensures new_text { result.new_text ≡ text_bytes new_step.now.text }
{
    Counterexample {
        keys,
        kind: difference(old_step, new_step).unwrap(),
        old_text: ArrayString::from(old_step.text.as_str()).unwrap(),
        new_text: ArrayString::from(new_step.text.as_str()).unwrap(),
    }
}
