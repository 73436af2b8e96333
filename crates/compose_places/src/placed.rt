//! A table, and the line that counts for each of its sequences.
ghost use Rattle.std.specs.Prelude.{◌≡◌, map, IfOk};
ghost use Rattle.compose_model.specs.Nodes.{leaves};
ghost use Rattle.compose_places.specs.Counting.{counting_line, read_lines};
ghost use Rattle.compose_places.specs.Overlaps.{overlap_count};
ghost use Rattle.compose_tree.specs.TableReturns.{TableReturns, table_of};

use crate::counting::{BegunLines, CountingLine, last_lines};
use crate::overlaps::count_distinct;
use crate::sequence_list::sequences_of;
use compose_migration::ReadTable;
use compose_model::Rule;
use compose_read::{ReadFault, Sources, read_definitions, settle};
use compose_tree::{BuildTable, ComposeTable, TableFault};
use keysym_core::Names;
use std::alloc::Global;

/// A table, and the line that counts for each of its sequences.
#[derive(Drop)]
pub struct PlacedTable<'a, T: ComposeTable> {
    /// The table.
    pub table: T,
    /// For each leaf, by its number, the line that counts for its sequence: the last one that
    /// defines it, of the lines that are read from the root.
    pub lines: Vec<Option<CountingLine<'a>>>,
    /// The number of distinct sequences that are defined, but are prefixes of longer ones. With
    /// `Rule::Longest` the table has none of them.
    pub overlaps: usize,
}

/// Reads the table from the root by the rule, as `read_table` does, and finds the line that counts
/// for each of its sequences. No line is lexed a second time. It costs what `read_table` does, and
/// O(bytes of the lines that are read + keysyms of all definitions × log edges of a node).
///
/// Errors: those of `read_table`, for the same inputs; `NoMemory` if memory runs out.
pub fn read_placed_table<'a, T: BuildTable>(
    alloc: Global,
    names: &Names,
    sources: &'a Sources,
    root: &str,
    rule: Rule,
) -> Result<PlacedTable<'a, T>, TableFault>
    ensures table { TableReturns (λ placed. T.definitions placed.table) result
        (table_of names.now sources.now root.now rule) }
    ensures lines { IfOk result
        (λ placed. placed.lines.items
        ≡ map (counting_line names.now (read_lines sources.now root.now))
        (leaves (T.definitions placed.table))) }
    ensures overlaps { IfOk result
        (λ placed. placed.overlaps ≡ overlap_count names.now sources.now root.now) }
{
    let Some(begun) = BegunLines::new(sources, root) else {
        return Err(TableFault::Read(ReadFault::MissingRoot));
    };
    let definitions = read_definitions(alloc, names, sources, root)?;
    let Ok(read) = sequences_of(alloc, &definitions) else {
        return Err(TableFault::NoMemory);
    };
    let sequences = settle(alloc, definitions, rule)?;
    let table = T::build(alloc, sequences)?;
    let mut others = Vec::new(alloc);
    let Ok(lines) = last_lines(alloc, begun, &read, &table, &mut others) else {
        return Err(TableFault::NoMemory);
    };
    let Ok(overlaps) = count_distinct(others) else {
        return Err(TableFault::NoMemory);
    };
    Ok(PlacedTable {
        table,
        lines,
        overlaps,
    })
}

impl<'a, T: BuildTable> ReadTable<'a> for PlacedTable<'a, T> {
    ghost use Rattle.compose_places.specs.Placed.{HasLines};

    ghost definitions = { λ placed. T.definitions placed.table };

    ghost is_read = { HasLines T.definitions };

    fn read_first(
        alloc: Global,
        names: &Names,
        sources: &'a Sources,
        rule: Rule,
    ) -> Result<PlacedTable<'a, T>, TableFault> {
        let Some(root) = sources.name(0) else {
            return Err(TableFault::Read(ReadFault::MissingRoot));
        };
        read_placed_table(alloc, names, sources, root, rule)
    }
}
