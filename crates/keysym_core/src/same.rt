//! Equality of names by their first and their last bytes, as numbers.
ghost use Rattle.std.specs.Prelude.{◌≡◌, ◌≤◌, ◌-◌, length, take, drop, bytes_eq};
ghost use Rattle.std.specs.Int.{from_le_bytes, to_le_bytes, w32, w64};

/// Returns whether two names are the same. A name of 8 to 16 bytes is compared by two numbers of
/// 64 bits, which overlap if it is shorter than 16 bytes, and one of 4 to 7 bytes by two of 32 bits.
/// O(n) in the bytes of the name.
#[inline(always)]
pub(crate) fn is_same(one: &[u8], other: &[u8]) -> bool
    ensures { result ≡ bytes_eq one.now other.now }
{
    if one.len() != other.len() {
        return false;
    }
    match one.len() {
        8..=16 => first_word(one) == first_word(other) && last_word(one) == last_word(other),
        4..=7 => first_half(one) == first_half(other) && last_half(one) == last_half(other),
        _ => one == other,
    }
}

/// Returns the first eight bytes of a name as a number. O(1).
#[inline(always)]
fn first_word(bytes: &[u8]) -> u64
    requires { 8 ≤ length bytes.now }
    ensures number { result ≡ from_le_bytes w64 (take 8 bytes.now) }
    ensures bytes { to_le_bytes w64 result ≡ take 8 bytes.now }
{
    u64::from_le_bytes(*bytes.first_chunk().unwrap())
}

/// Returns the last eight bytes of a name as a number. O(1).
#[inline(always)]
fn last_word(bytes: &[u8]) -> u64
    requires { 8 ≤ length bytes.now }
    ensures number { result ≡ from_le_bytes w64 (drop (length bytes.now - 8) bytes.now) }
    ensures bytes { to_le_bytes w64 result ≡ drop (length bytes.now - 8) bytes.now }
{
    u64::from_le_bytes(*bytes.last_chunk().unwrap())
}

/// Returns the first four bytes of a name as a number. O(1).
#[inline(always)]
fn first_half(bytes: &[u8]) -> u32
    requires { 4 ≤ length bytes.now }
    ensures number { result ≡ from_le_bytes w32 (take 4 bytes.now) }
    ensures bytes { to_le_bytes w32 result ≡ take 4 bytes.now }
{
    u32::from_le_bytes(*bytes.first_chunk().unwrap())
}

/// Returns the last four bytes of a name as a number. O(1).
#[inline(always)]
fn last_half(bytes: &[u8]) -> u32
    requires { 4 ≤ length bytes.now }
    ensures number { result ≡ from_le_bytes w32 (drop (length bytes.now - 4) bytes.now) }
    ensures bytes { to_le_bytes w32 result ≡ drop (length bytes.now - 4) bytes.now }
{
    u32::from_le_bytes(*bytes.last_chunk().unwrap())
}
