//! Keysyms one after another, each as a number of four bytes.
ghost use Rattle.std.specs.Prelude.{◌≡◌, ◌++◌, IfOk, MatchOption, MatchResult};
ghost use Rattle.std.specs.Int.{to_be_bytes, w32};
ghost use Rattle.compose_table_file.specs.Fresh.{IsNoStart, IsStart, NotKeysyms};
ghost use Rattle.compose_table_file.specs.TableFile as words;
ghost use Rattle.compose_table_file.specs.TableFile.{AreKeysyms};

use crate::table_file::StoredFault;
use keysym_core::Keysym;
use std::alloc::{AllocError, Global};

/// Returns the bytes of these keysyms. O(n).
pub(crate) fn fresh_bytes(alloc: Global, keysyms: &[Keysym]) -> Result<Vec<u8>, AllocError>
    ensures { IfOk result (λ bytes. bytes.items ≡ words.fresh_bytes keysyms.now) }
{
    let mut bytes = Vec::new(alloc);
    for keysym in keysyms {
        bytes.extend_from_slice(&keysym.value().to_be_bytes())?;
    }
    Ok(bytes)
}

/// Returns the keysyms that these bytes are. O(bytes).
/// Errors: `Fresh` if they are not those of keysyms; `NoMemory` if memory runs out.
pub(crate) fn read_fresh(alloc: Global, bytes: &[u8]) -> Result<Vec<Keysym>, StoredFault>
    ensures { MatchResult result
        (λ keysyms. AreKeysyms keysyms.items × (bytes.now ≡ words.fresh_bytes keysyms.items))
        (λ fault. NotKeysyms fault bytes.now) }
{
    let mut keysyms = Vec::new(alloc);
    let mut rest = bytes;
    while !rest.is_empty() {
        let Some((keysym, behind)) = first_keysym(rest) else {
            return Err(StoredFault::Fresh);
        };
        if keysyms.push(keysym).is_err() {
            return Err(StoredFault::NoMemory);
        }
        rest = behind;
    }
    Ok(keysyms)
}

/// Returns the keysym with which the bytes begin, and the bytes behind it.
fn first_keysym(bytes: &[u8]) -> Option<(Keysym, &[u8])>
    ensures { MatchOption result (IsNoStart bytes.now) (λ p. IsStart p.0 p.1.now bytes.now) }
{
    let (head, behind) = bytes.split_at_checked(4)?;
    let number = u32::from_be_bytes([head[0], head[1], head[2], head[3]]);
    match Keysym::new(number) {
        Some(keysym) => Some((keysym, behind)),
        None => None,
    }
}
