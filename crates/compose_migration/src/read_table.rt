//! Tables as they are read from sources: alone, or with more that is known of them.
ghost use Rattle.std.specs.Prelude.{List, IfOk};
ghost use Rattle.keysym_core.specs.Names.{KeysymNames};
ghost use Rattle.compose_model.specs.Table.{Definition};
ghost use Rattle.compose_read.specs.Lines.{Source};
ghost use Rattle.compose_tree.specs.TableReturns.{TableReturns, first_table};

use compose_model::Rule;
use compose_read::Sources;
use compose_tree::{BuildTable, ComposeTable, TableFault, read_first_table};
use keysym_core::Names;
use std::alloc::Global;

/// A table as it is read from sources. Each [`ComposeTable`] is one; other types keep more than the
/// table, such as the lines of its sequences.
pub trait ReadTable<'a>: Sized + Drop {
    /// The definitions that are the meaning of the table.
    ghost definitions: { Self → List Definition };

    /// What else is known of a table that is read with these names from these sources.
    ghost is_read: { KeysymNames → List Source → Self → Type 0 };

    /// Reads the table whose root is the first source.
    ///
    /// Errors: those of [`read_first_table`].
    fn read_first(
        alloc: Global,
        names: &Names,
        sources: &'a Sources,
        rule: Rule,
    ) -> Result<Self, TableFault>
        ensures table { TableReturns definitions result (first_table names.now sources.now rule) }
        ensures read { IfOk result (is_read names.now sources.now) };
}

impl<'a, T: BuildTable> ReadTable<'a> for T {
    ghost definitions = { T.definitions };

    ghost is_read = { λ _ _ _. Unit {0} };

    fn read_first(
        alloc: Global,
        names: &Names,
        sources: &'a Sources,
        rule: Rule,
    ) -> Result<T, TableFault> {
        read_first_table(alloc, names, sources, rule)
    }
}
