//! The making of certificates.
ghost use Rattle.std.specs.Prelude.{◌≡◌, ◌<◌, ◌≤◌, ℕ, List, Some, None, Err, length, IfErr, IfOk, MatchResult};
ghost use Rattle.compose_model.specs.Table.{Definition};
ghost use Rattle.compose_model.specs.Certificate.{AreFresh};
ghost use Rattle.compose_tree.specs.Targets.{max_nodes};
ghost use Rattle.compose_fresh.specs.Conditions.{first_unmet};
ghost use Rattle.compose_fresh.specs.Fresh.{fresh_conditions, max_fresh};
ghost use Rattle.compose_walk.specs.Walks.{IsFollower};
ghost use Rattle.compose_make.specs.IsMade.{IsMade};

use crate::depth::greatest_depth;
use crate::typings::{Typings, find_typings};
use compose_cert::{Certificate, Repertoire};
use compose_fresh::CheckFault;
use compose_tree::ComposeTable;
use compose_walk::{Counterexample, MakeFault, Pairs, Walk, walk};
use keysym_core::{Keysym, Names};
use std::alloc::Global;

/// What `make` made from an old and a new table.
#[derive(Drop)]
pub enum Made {
    /// The new table does not follow: the least of the shortest counterexamples.
    Differs(Counterexample),
    /// It follows, but no list of keys types this character, the least such one.
    Unreachable(char),
    /// A certificate.
    Made(Certificate),
}

/// Makes a certificate that the new table follows the old one, except for what begins with a fresh
/// keysym, and that it types each character of the repertoire; or returns why there is none.
///
/// It costs what `walk` and `find_typings` do, and O(new nodes).
///
/// # Errors
/// `BadFresh` and `TooManyFresh` as in `walk`, and `NoMemory` if memory runs out.
pub fn make<T: ComposeTable, U: ComposeTable>(
    alloc: Global,
    old: &T,
    new: &U,
    names: &Names,
    repertoire: &Repertoire,
    fresh: &[Keysym],
) -> Result<Made, MakeFault>
    ensures bad_fresh { (fault : CheckFault)
        → first_unmet (fresh_conditions (T.definitions old.now) fresh.now) ≡ Some fault
        → result ≡ Err (MakeFault.BadFresh fault) }
    ensures too_many { first_unmet (fresh_conditions (T.definitions old.now) fresh.now) ≡ None
        → max_fresh < length fresh.now → result ≡ Err MakeFault.TooManyFresh }
    ensures answer { first_unmet (fresh_conditions (T.definitions old.now) fresh.now) ≡ None
        → length fresh.now ≤ max_fresh
        → MatchResult result
        (IsMade names.now fresh.now (T.definitions old.now)
        (U.definitions new.now) repertoire.now) (λ e. e ≡ MakeFault.NoMemory) }
{
    // The contract of this call says that the table is settled.
    let _ = old.node_count();
    match walk(alloc, old, new, names, fresh)? {
        Walk::Differs(counterexample) => Ok(Made::Differs(counterexample)),
        Walk::Follows(pairs) => certify(alloc, new, names, repertoire, fresh, pairs),
    }
}

/// Makes the certificate with these pairs, or returns the first character that has no typing.
fn certify<U: ComposeTable>(
    alloc: Global,
    new: &U,
    names: &Names,
    repertoire: &Repertoire,
    fresh: &[Keysym],
    pairs: Pairs,
) -> Result<Made, MakeFault>
    requires few_fresh { length fresh.now ≤ max_fresh }
    requires few_pairs { length pairs ≤ max_nodes }
    ensures { (old : List Definition) → AreFresh fresh.now old
        → IsFollower names.now fresh.now old (U.definitions new.now) pairs
        → MatchResult result
        (IsMade names.now fresh.now old (U.definitions new.now) repertoire.now)
        (λ e. e ≡ MakeFault.NoMemory) }
{
    // The contracts of these calls say that the table is settled and the repertoire sound.
    let _ = new.node_count();
    let _ = repertoire.count();
    let typings = match find_typings(alloc, new, names, repertoire)? {
        Typings::Found(typings) => typings,
        Typings::Unreachable(character) => return Ok(Made::Unreachable(character)),
    };
    let fresh = fresh.to_vec(alloc)?;
    let certificate = Certificate::new(
        greatest_depth(new),
        pairs.into_vec(),
        typings.into_vec(),
    ).unwrap();
    Ok(Made::Made(certificate.with_fresh(fresh).unwrap()))
}
