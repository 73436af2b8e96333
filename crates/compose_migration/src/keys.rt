//! The keysyms of key names.
ghost use Rattle.std.specs.Prelude.{◌≡◌, map};
ghost use Rattle.compose_migration.specs.Keys.{keys_of};
ghost use Rattle.compose_migration.specs.Migration.{no_key, or_because};
ghost use Rattle.compose_migration.specs.Refused.{Returns};

use crate::refusal::Refusal;
use keysym_core::{Keysym, Names};
use std::alloc::Global;

/// Looks up the keysym of each key name, in order. O(bytes of the key names).
///
/// Errors: `Key` with the index of the first key name that names no keysym, or `NoMemory`.
pub fn look_up_keys(
    alloc: Global,
    names: &Names,
    key_names: &[&str],
) -> Result<Vec<Keysym>, Refusal>
    ensures { Returns (λ expected keys. expected ≡ keys.items) result
        (or_because no_key (keys_of names.now (map (λ key_name. key_name.now) key_names.now))) }
{
    let mut keys = Vec::new(alloc);
    for (index, key_name) in key_names.iter().enumerate() {
        let Some(keysym) = names.lookup(key_name) else {
            return Err(Refusal::Key { index });
        };
        keys.push(keysym)?;
    }
    Ok(keys)
}
