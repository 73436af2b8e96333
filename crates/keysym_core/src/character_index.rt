//! The keysyms of a character, among those that a header assigns it to.
ghost use Rattle.std.specs.Prelude.{◌≡◌, ◌≤◌, ◌+◌, ℕ, true};
ghost use Rattle.std.specs.List.{list_any};
ghost use Rattle.std.specs.List.Sorted.{IsNonDecreasingBy};
ghost use Rattle.keysym_core.specs.GivenCharacters.{rank, is_pair, ArePairsOfKeysyms};
ghost use Rattle.keysym_core.specs.Keysym.{max_keysym};
ghost use Rattle.keysym_core.specs.Next.{IsLeastFrom};

use crate::keysym::Keysym;

/// Returns the rank of a keysym with its character in the order by character and then by keysym.
fn rank(keysym: u32, character: char) -> u64
    ensures { result ≡ rank (keysym, character) }
{
    u64::from(u32::from(character)) * 0x1_0000_0000 + u64::from(keysym)
}

/// Returns pairs of a keysym and its character sorted by character, and those of one character by
/// keysym. O(n log n).
pub(crate) fn sorted_by_character(pairs: Vec<(u32, char)>) -> Vec<(u32, char)>
    ensures same { (c k : ℕ)
        → list_any (is_pair c k) result.items ≡ list_any (is_pair c k) pairs.items }
    ensures sorted { IsNonDecreasingBy rank result.items }
{
    let mut sorted = pairs;
    sorted.sort_unstable_by_key(|pair| rank(pair.0, pair.1));
    sorted
}

/// Returns the least keysym not below `low` with this character, given sorted pairs. O(log n).
pub(crate) fn next_given(pairs: &[(u32, char)], character: char, low: u32) -> Option<Keysym>
    requires sorted { IsNonDecreasingBy rank pairs.now }
    requires keysyms { ArePairsOfKeysyms pairs.now }
    requires least { low ≤ max_keysym + 1 }
    ensures { IsLeastFrom low (λ k. list_any (is_pair character k) pairs.now ≡ true) result }
{
    let first = rank(low, character);
    let index = pairs.partition_point(|pair| rank(pair.0, pair.1) < first);
    let (keysym, found) = pairs.get(index)?;
    if *found != character {
        return None;
    }
    Keysym::new(*keysym)
}
