//! The rows of a table that is read.
ghost use Rattle.compose_model.specs.Table.{Definition};
ghost use Rattle.compose_tree.specs.TableReturns.{TableReturns};
ghost use Rattle.std.specs.Prelude.{List};
ghost use Rattle.compose_merging.specs.Settled.{rows_of};

use compose_model::Rule;
use compose_read::{Sequences, Sources, read_definitions, settle};
use compose_tree::TableFault;
use keysym_core::Names;
use std::alloc::Global;

/// Returns the rows of the table that is read from the root by the rule, also if they have too many
/// nodes for a table. O(bytes + n log n) for n sequences.
/// Errors: those of `compose_tree::read_table`, but for the number of nodes.
pub(crate) fn read_settled(
    alloc: Global,
    names: &Names,
    sources: &Sources,
    root: &str,
    rule: Rule,
) -> Result<Sequences, TableFault>
    ensures { TableReturns (λ (rows : List Definition). rows) result
        (rows_of names.now sources.now root.now rule) }
{
    let definitions = read_definitions(alloc, names, sources, root)?;
    let rows = settle(alloc, definitions, rule)?;
    Ok(rows)
}
