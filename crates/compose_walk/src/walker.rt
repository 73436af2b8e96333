//! The walk through both tables.
ghost use Rattle.std.specs.Prelude.{◌≡◌, ◌<◌, ◌≤◌, ◌++◌, ◌∷◌, [], ℕ, List, Some, None, true, IsTrue, ◌^◌, Err, Ok, length, map, drop, IfOk, IfErr, MatchResult};
ghost use Rattle.std.specs.List.{IsFirstBest};
ghost use Rattle.compose_model.specs.Certificate.{AreFresh};
ghost use Rattle.compose_fresh.specs.Conditions.{first_unmet};
ghost use Rattle.compose_fresh.specs.Fresh.{fresh_conditions, max_fresh};
ghost use Rattle.compose_walk.specs.Evidence.{AreDifferences};
ghost use Rattle.compose_walk.specs.Stands.{comes_sooner, partner_pairs};
ghost use Rattle.compose_walk.specs.Walks.{IsWalk};

use crate::all_differences::Differences;
use crate::fault::MakeFault;
use crate::outcome::Walk;
use crate::pairs::Pairs;
use crate::pass::{Found, Partner, Pass};
use compose_fresh::{CheckFault, MAX_FRESH, check_fresh};
use compose_tree::ComposeTable;
use keysym_core::{Keysym, Names};
use std::alloc::Global;

/// Walks through both tables, except for what begins with a fresh keysym. O(edges × log edges)
/// time; 16 bytes per old node, 12 per key that differs, and 8 per pair.
///
/// # Errors
/// `BadFresh` if the keysyms are not fresh for the old table, and `TooManyFresh` if there are more
/// than 1,048,576, both before any memory is taken. `NoMemory` if memory runs out.
pub fn walk<T: ComposeTable, U: ComposeTable>(
    alloc: Global,
    old: &T,
    new: &U,
    names: &Names,
    fresh: &[Keysym],
) -> Result<Walk, MakeFault>
    ensures bad_fresh { (fault : CheckFault)
        → first_unmet (fresh_conditions (T.definitions old.now) fresh.now) ≡ Some fault
        → result ≡ Err (MakeFault.BadFresh fault) }
    ensures too_many { first_unmet (fresh_conditions (T.definitions old.now) fresh.now) ≡ None
        → max_fresh < length fresh.now → result ≡ Err MakeFault.TooManyFresh }
    ensures answer { first_unmet (fresh_conditions (T.definitions old.now) fresh.now) ≡ None
        → length fresh.now ≤ max_fresh
        → MatchResult result
        (IsWalk names.now fresh.now (T.definitions old.now) (U.definitions new.now))
        (λ e. e ≡ MakeFault.NoMemory) }
{
    accept_fresh(old, fresh)?;
    walk_accepted(alloc, old, new, names, fresh)
}

/// Finds all differences of the tables, except for what begins with a fresh keysym: the shortest
/// first, and those of the same length in the order of their keys. O(edges × log edges +
/// differences × (keys² + log edges + log differences)) time; 16 bytes per old node, and 684 per
/// difference.
///
/// # Errors
/// `BadFresh` if the keysyms are not fresh for the old table, and `TooManyFresh` if there are more
/// than 1,048,576, both before any memory is taken. `NoMemory` if memory runs out.
pub fn differences<T: ComposeTable, U: ComposeTable>(
    alloc: Global,
    old: &T,
    new: &U,
    names: &Names,
    fresh: &[Keysym],
) -> Result<Differences, MakeFault>
    ensures bad_fresh { (fault : CheckFault)
        → first_unmet (fresh_conditions (T.definitions old.now) fresh.now) ≡ Some fault
        → result ≡ Err (MakeFault.BadFresh fault) }
    ensures too_many { first_unmet (fresh_conditions (T.definitions old.now) fresh.now) ≡ None
        → max_fresh < length fresh.now → result ≡ Err MakeFault.TooManyFresh }
    ensures answer { first_unmet (fresh_conditions (T.definitions old.now) fresh.now) ≡ None
        → length fresh.now ≤ max_fresh
        → MatchResult result
        (AreDifferences names.now fresh.now (T.definitions old.now) (U.definitions new.now))
        (λ e. e ≡ MakeFault.NoMemory) }
{
    accept_fresh(old, fresh)?;
    differences_accepted(alloc, old, new, names, fresh)
}

/// Checks that the keysyms are fresh for the old table.
///
/// # Errors
/// `BadFresh` if they are not: the first condition that is not met. `TooManyFresh` if there are
/// more than 1,048,576.
pub fn accept_fresh<T: ComposeTable>(old: &T, fresh: &[Keysym]) -> Result<(), MakeFault>
    ensures bad_fresh { (fault : CheckFault)
        → first_unmet (fresh_conditions (T.definitions old.now) fresh.now) ≡ Some fault
        → result ≡ Err (MakeFault.BadFresh fault) }
    ensures too_many { first_unmet (fresh_conditions (T.definitions old.now) fresh.now) ≡ None
        → max_fresh < length fresh.now → result ≡ Err MakeFault.TooManyFresh }
    ensures accepted { first_unmet (fresh_conditions (T.definitions old.now) fresh.now) ≡ None
        → length fresh.now ≤ max_fresh → result ≡ Ok tt }
    ensures fresh { IfOk result (λ _. AreFresh fresh.now (T.definitions old.now)) }
{
    if let Some(fault) = check_fresh(old, fresh) {
        return Err(MakeFault::BadFresh(fault));
    }
    if fresh.len() > MAX_FRESH {
        return Err(MakeFault::TooManyFresh);
    }
    Ok(())
}

/// Walks, once the keysyms are known to be fresh.
fn walk_accepted<T: ComposeTable, U: ComposeTable>(
    alloc: Global,
    old: &T,
    new: &U,
    names: &Names,
    fresh: &[Keysym],
) -> Result<Walk, MakeFault>
    requires { AreFresh fresh.now (T.definitions old.now) }
    ensures { MatchResult result
        (IsWalk names.now fresh.now (T.definitions old.now) (U.definitions new.now))
        (λ e. e ≡ MakeFault.NoMemory) }
{
    let _ = old.node_count();
    let _ = new.node_count();
    let pass = Pass::run(alloc, old, new, names, fresh)?;
    if pass.found.is_empty() {
        return Ok(Walk::Follows(pairs_of(alloc, &pass.stands)?));
    }
    let least = pass.found[least_of(&pass.found)];
    Ok(Walk::Differs(pass.evidence(old, new, names, least)))
}

/// Finds the differences, once the keysyms are known to be fresh.
fn differences_accepted<T: ComposeTable, U: ComposeTable>(
    alloc: Global,
    old: &T,
    new: &U,
    names: &Names,
    fresh: &[Keysym],
) -> Result<Differences, MakeFault>
    requires { AreFresh fresh.now (T.definitions old.now) }
    ensures { MatchResult result
        (AreDifferences names.now fresh.now (T.definitions old.now) (U.definitions new.now))
        (λ e. e ≡ MakeFault.NoMemory) }
{
    let _ = old.node_count();
    let _ = new.node_count();
    let mut pass = Pass::run(alloc, old, new, names, fresh)?;
    pass.sort_found();
    let differences = pass.all_evidence(alloc, old, new, names)?;
    Ok(Differences::new(differences))
}

/// Collects the pairs of the old nodes that have a partner. O(nodes).
fn pairs_of(alloc: Global, stands: &[Option<Partner>]) -> Result<Pairs, MakeFault>
    requires { length stands.now < 2 ^ 32 }
    ensures pairs { IfOk result (λ pairs. pairs ≡ partner_pairs 0 stands.now) }
    ensures err { IfErr result (λ e. e ≡ MakeFault.NoMemory) }
{
    let mut pairs = Vec::new(alloc);
    for (number, slot) in stands.iter().enumerate() {
        if let Some(stand) = slot {
            pairs.push((number as u32, stand.new_node.0))?;
        }
    }
    Ok(Pairs::new(pairs))
}

/// Returns the index of the one with the fewest keys, and of several the first in order. O(n).
fn least_of(found: &[Found]) -> usize
    requires { 0 < length found.now }
    ensures { IsFirstBest comes_sooner found.now (length found.now) result }
{
    let mut least = 0;
    for index in 1..found.len() {
        if found[index].comes_sooner(&found[least]) {
            least = index;
        }
    }
    least
}
