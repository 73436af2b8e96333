//! The beginnings of names, which may be long.
ghost use Rattle.std.specs.Prelude.{◌≡◌, ◌≤◌, length};
ghost use Rattle.compose_messages.specs.Places as places;

use crate::lines::text_or_nothing;
use crate::offsets::begins_character;

/// The number of characters of a name that are printed.
const MOST_CHARACTERS: usize = 80;

/// Returns the first 80 characters of a name, or all of a shorter one. O(bytes).
pub(crate) fn beginning(name: &str) -> &str
    ensures { result.now ≡ places.beginning name.now }
{
    let bytes = name.as_bytes();
    text_or_nothing(&bytes[..characters_len(MOST_CHARACTERS, bytes)])
}

/// Returns the number of bytes of the first `count` characters, or of all if there are fewer.
fn characters_len(count: usize, bytes: &[u8]) -> usize
    ensures value { result ≡ places.characters_len count bytes.now }
    ensures within { result ≤ length bytes.now }
{
    let mut left = count;
    for (at, byte) in bytes.iter().enumerate() {
        if begins_character(*byte) {
            if left == 0 {
                return at;
            }
            left -= 1;
        }
    }
    bytes.len()
}
