//! Where a key stands in a table that is given as data: a hash without collisions.
//!
//! The ten highest bits of a key's hash are its group, and the twelve bits below them, shifted by
//! the shift of its group, its place.
ghost use Rattle.std.specs.Prelude.{◌≡◌};
ghost use Rattle.keysym_core.specs.Places.{mixed, name_hash, keysym_hash, index_of};

/// An odd number without a pattern, with which no two built-in names get one place.
const SPREAD: u64 = 0xff51_afd7_ed55_8ccd;

/// The number of values of a hash in each group.
const GROUP: u64 = 1 << 54;

/// The number of values of a hash that differ in bits which no place shows.
const PLACE: u64 = 1 << 42;

/// Returns a hash with a number mixed in.
fn mixed(hash: u64, number: u64) -> u64
    ensures { result ≡ mixed hash number }
{
    hash.wrapping_add(number).wrapping_mul(SPREAD)
}

/// Returns the hash of a name. O(n) in its bytes.
pub(crate) fn name_hash(name: &[u8]) -> u64
    ensures { result ≡ name_hash name.now }
{
    name.iter()
        .fold(0, |hash, byte| mixed(hash, u64::from(*byte)))
}

/// Returns the hash of a keysym. O(1).
pub(crate) fn keysym_hash(keysym: u32) -> u64
    ensures { result ≡ keysym_hash keysym }
{
    mixed(0, u64::from(keysym))
}

/// Returns the index of the row whose key has this hash, if there is such a row; else some index.
/// O(1).
pub(crate) fn index_of(shifts: &[[u8; 32]; 32], indexes: &[[u16; 64]; 64], hash: u64) -> usize
    ensures { result ≡ index_of shifts.now indexes.now hash }
{
    let group = (hash / GROUP) as usize;
    let shift = usize::from(shifts[group / 32][group % 32]);
    let place = ((hash / PLACE) as usize + shift) % 4096;
    usize::from(indexes[place / 64][place % 64])
}
