//! A table as libxkbcommon reads it.
ghost use Rattle.std.specs.Prelude.{◌≡◌, ◌++◌, ◌∷◌, [], IfOk, OnOk, option_copied, unwrap_or};
ghost use Rattle.compose_skip.specs.Faulty.{AreOthers, own_faults};

use crate::lines::other_bytes;
use compose_read::{ReadFault, Sources};
use keysym_core::Names;
use std::alloc::{AllocError, Global};

/// Sources in which faulty lines are rewritten or left empty, and the faults of the empty ones.
#[derive(Drop)]
pub struct OtherLines {
    /// The sources, with their names and in their order; all other lines keep their numbers.
    pub sources: Sources<'static>,
    /// The faults, in the order of the sources and of their lines.
    pub faults: Vec<ReadFault>,
}

/// Returns the sources with their faulty lines rewritten with the definition that libxkbcommon reads
/// in them, or left empty, so that all lines keep their numbers, and the fault of each line that is
/// left empty. Each source then begins with a byte order mark, and
/// each of its lines ends in a newline. O(bytes).
///
/// Errors: `AllocError` if memory runs out.
pub fn other_lines(
    alloc: Global,
    names: &Names,
    sources: &Sources,
) -> Result<OtherLines, AllocError>
    ensures sources { IfOk result (λ others. AreOthers names.now sources.now others.sources) }
    ensures faults { IfOk result (λ others. others.faults.items ≡ own_faults names.now sources.now) }
{
    let mut others = Sources::new(alloc);
    let mut faults = Vec::new(alloc);
    for index in 0..sources.count() {
        let kept = other_bytes(alloc, names, index, sources.bytes(index), &mut faults)?;
        add_source(&mut others, sources.name(index), kept)?;
    }
    Ok(OtherLines {
        sources: others,
        faults,
    })
}

/// Adds a source with this name after the others.
fn add_source(others: &mut Sources, name: Option<&str>, bytes: Vec<u8>) -> Result<(), AllocError>
    ensures { OnOk result
        (others.new
        ≡ others.old
        ++ record { name = unwrap_or (option_copied name.entry) []; bytes = bytes.items } ∷ []) }
{
    match others.add(name.unwrap_or(""), bytes) {
        Ok(()) => Ok(()),
        Err(_) => Err(AllocError),
    }
}
