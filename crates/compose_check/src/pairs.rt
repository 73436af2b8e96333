//! The conditions on the pairs of a certificate.
ghost use Rattle.std.specs.Prelude.{◌≡◌, ◌==◌, ◌&&◌, ◌||◌, not, nat_lt, List, length, IsTrue};
ghost use Rattle.std.specs.List.{list_all};
ghost use Rattle.compose_model.specs.Table.{Definition};
ghost use Rattle.compose_model.specs.Nodes.{nodes};
ghost use Rattle.compose_model.specs.Certificate as words;
ghost use Rattle.compose_fresh.specs.Conditions.{first_unmet};
ghost use Rattle.compose_check.specs.Conditions.{pair_conditions};

use compose_cert::Certificate;
use compose_fresh::CheckFault;

/// Returns the fault of the first condition on the pairs that they do not meet, for tables with
/// these numbers of nodes: the pairs are strictly increasing, their numbers are those of nodes, the
/// roots are a pair, and the old root is paired only with the new one. O(pairs).
pub(crate) fn check_pairs(
    certificate: &Certificate,
    old_count: u32,
    new_count: u32,
) -> Option<CheckFault>
    ensures { (old new : List Definition) → old_count ≡ length (nodes old)
        → new_count ≡ length (nodes new)
        → result ≡ first_unmet (pair_conditions old new certificate.now.pairs) }
{
    if !are_rising(certificate) {
        return Some(CheckFault::PairsNotRising);
    }
    if !are_in_range(certificate, old_count, new_count) {
        return Some(CheckFault::NodeOutOfRange);
    }
    if !certificate.has_pair(0, 0) {
        return Some(CheckFault::RootPairMissing);
    }
    if !is_rest_kept(certificate) {
        return Some(CheckFault::RestBroken);
    }
    None
}

/// Returns whether a pair of these numbers comes before the other one.
fn is_before(pair: (u32, u32), other: (u32, u32)) -> bool
    ensures { result ≡ words.is_pair_before pair other }
{
    pair.0 < other.0 || (pair.0 == other.0 && pair.1 < other.1)
}

/// Returns whether the pairs are strictly increasing.
fn are_rising(certificate: &Certificate) -> bool
    ensures { result ≡ words.pairs_rise certificate.now.pairs }
{
    for index in 1..certificate.pair_count() {
        if !is_before(certificate.pair(index - 1), certificate.pair(index)) {
            return false;
        }
    }
    true
}

/// Returns whether the numbers of all pairs are below these counts.
fn are_in_range(certificate: &Certificate, old_count: u32, new_count: u32) -> bool
    ensures { result
        ≡ list_all (λ p. nat_lt p.0 old_count && nat_lt p.1 new_count) certificate.now.pairs }
{
    certificate
        .pairs()
        .iter()
        .all(|pair| is_within(*pair, old_count, new_count))
}

/// Returns whether the pair's numbers are below these counts.
fn is_within(pair: (u32, u32), old_count: u32, new_count: u32) -> bool
    ensures { result ≡ (nat_lt pair.0 old_count && nat_lt pair.1 new_count) }
{
    pair.0 < old_count && pair.1 < new_count
}

/// Returns whether the old root is paired only with the new root.
fn is_rest_kept(certificate: &Certificate) -> bool
    ensures { result ≡ words.rest_is_kept certificate.now.pairs }
{
    certificate.pairs().iter().all(|pair| keeps_rest(*pair))
}

/// Returns whether the pair has the new root if it has the old one.
fn keeps_rest(pair: (u32, u32)) -> bool
    ensures { result ≡ (not (pair.0 == 0) || pair.1 == 0) }
{
    pair.0 != 0 || pair.1 == 0
}
