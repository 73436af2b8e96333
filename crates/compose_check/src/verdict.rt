//! The verdict on a certificate.
ghost use Rattle.std.specs.Prelude.{◌≡◌, List, None, IsTrue};
ghost use Rattle.keysym_core.specs.Names.{KeysymNames};
ghost use Rattle.compose_model.specs.Table.{Definition, is_prefix_free};
ghost use Rattle.compose_model.specs.Follows.{Follows, Waits};
ghost use Rattle.compose_model.specs.Certificate as model;
ghost use Rattle.compose_model.specs.Certificate.{IsValid, TypesAll};
ghost use Rattle.compose_check.specs.Conditions.{fault_of};
ghost use Rattle.compose_check.specs.Verdict.{verdict_of};

use crate::bound::check_bound;
use crate::edges::check_edges;
use crate::pairs::check_pairs;
use crate::starts::check_starts;
use crate::typings::check_typings;
use compose_cert::{Certificate, Repertoire};
use compose_fresh::{CheckFault, check_fresh};
use compose_model::{law_bound, law_pairs_lift};
use compose_tree::ComposeTable;
use keysym_core::Names;

/// The verdict of the checker on a certificate.
#[derive(Clone, Copy, Debug, PartialEq, Eq, Drop)]
pub enum Verdict {
    /// The certificate is valid.
    Yes,
    /// The certificate is not valid: this is the first condition that it does not meet.
    No(CheckFault),
}

/// No condition fails exactly if the certificate is valid.
pub fn law_conditions()
    ensures valid { (names : KeysymNames) (old new : List Definition)
        (repertoire : model.Repertoire) (c : model.Certificate)
        → fault_of names old new repertoire c ≡ None → IsValid names old new repertoire c }
    ensures only { (names : KeysymNames) (old new : List Definition)
        (repertoire : model.Repertoire) (c : model.Certificate)
        → IsValid names old new repertoire c → fault_of names old new repertoire c ≡ None }
{}

/// Checks a certificate for a move from the old table to the new one.
///
/// If the verdict is `Yes`, what people type gives the same text: on every list of keysyms without
/// fresh ones on which the old table never cancels, the new one does not cancel either, commits the
/// same text at every key, and is at rest whenever the old one is. After any list of keysyms, at
/// most as many are pending as the certificate's bound. Each character of the repertoire is typed
/// from rest by its typing, whose keys are keys of the repertoire.
///
/// Allocates nothing. O(pairs × edges of their old nodes × (log new nodes + log edges of their new
/// nodes)); in addition O(edges of the old table × log fresh keysyms), O(nodes of the new table),
/// and for the typings O(pending keysyms × log edges) per key.
pub fn check<T: ComposeTable, U: ComposeTable>(
    old: &T,
    new: &U,
    names: &Names,
    repertoire: &Repertoire,
    certificate: &Certificate,
) -> Verdict
    ensures exact { result
        ≡ verdict_of
        (fault_of names.now (T.definitions old.now)
        (U.definitions new.now) repertoire.now certificate.now) }
    ensures valid { result ≡ Verdict.Yes
        → IsValid names.now (T.definitions old.now)
        (U.definitions new.now) repertoire.now certificate.now }
    ensures only { IsValid names.now (T.definitions old.now)
        (U.definitions new.now) repertoire.now certificate.now → result ≡ Verdict.Yes }

    // typing gives the same text as with the old table
    ensures follows { result ≡ Verdict.Yes
        → Follows names.now certificate.now.fresh (T.definitions old.now) (U.definitions new.now) }

    // no more keysyms are pending than the bound
    ensures waits { result ≡ Verdict.Yes → Waits (U.definitions new.now) certificate.now.bound }

    // each character of the repertoire can be typed
    ensures types { result ≡ Verdict.Yes
        → TypesAll names.now (U.definitions new.now) repertoire.now certificate.now.typings }
{
    law_conditions();
    law_pairs_lift();
    law_bound();
    match first_fault(old, new, names, repertoire, certificate) {
        None => Verdict::Yes,
        Some(fault) => Verdict::No(fault),
    }
}

/// Returns the fault of the first condition that the certificate does not meet. Every table is
/// settled, so none has an overlap.
fn first_fault<T: ComposeTable, U: ComposeTable>(
    old: &T,
    new: &U,
    names: &Names,
    repertoire: &Repertoire,
    certificate: &Certificate,
) -> Option<CheckFault>
    ensures exact { result
        ≡ fault_of names.now (T.definitions old.now)
        (U.definitions new.now) repertoire.now certificate.now }
    ensures old_prefix_free { IsTrue (is_prefix_free (T.definitions old.now)) }
    ensures new_prefix_free { IsTrue (is_prefix_free (U.definitions new.now)) }
{
    if let Some(fault) = check_pairs(certificate, old.node_count(), new.node_count()) {
        return Some(fault);
    }
    let fresh = certificate.fresh_keys();
    if let Some(fault) = check_fresh(old, fresh) {
        return Some(fault);
    }
    if let Some(fault) = check_starts(old, new, names, fresh) {
        return Some(fault);
    }
    if let Some(fault) = check_edges(old, new, names, certificate) {
        return Some(fault);
    }
    if let Some(fault) = check_bound(new, certificate.bound()) {
        return Some(fault);
    }
    check_typings(new, names, repertoire, certificate)
}
