//! Reading tables from sources.
ghost use Rattle.std.specs.Prelude.{◌≡◌, [], Err};
ghost use Rattle.compose_tree.specs.TableReturns.{TableReturns, first_table, table_of};

use crate::table::{BuildFault, BuildTable};
use compose_model::Rule;
use compose_read::{ReadFault, SettleFault, Sources, read_definitions, settle};
use keysym_core::Names;
use std::alloc::Global;
use thiserror::Error;

/// Why a table can't be read from sources.
#[derive(Debug, PartialEq, Eq, Drop, Error)]
pub enum TableFault {
    /// The sources have a fault.
    #[error("1 Read: {0}")]
    Read(ReadFault),
    /// A sequence is a prefix of another one, and the rule refuses overlaps.
    #[error("2 Settle: {0}")]
    Settle(SettleFault),
    /// The table has too many nodes.
    #[error("3 Build: {0}")]
    Build(BuildFault),
    /// A memory allocation failed.
    #[error("4 NoMemory")]
    NoMemory,
}

impl From<ReadFault> for TableFault {
    ghost use Rattle.std.specs.Prelude.{◌≡◌};
    ghost use Rattle.compose_tree.specs.TableReturns.{read_raised};

    ghost from_gives = { λ fault e. e ≡ read_raised fault };

    fn from(fault: ReadFault) -> TableFault {
        match fault {
            ReadFault::NoMemory => TableFault::NoMemory,
            other => TableFault::Read(other),
        }
    }
}

impl From<SettleFault> for TableFault {
    ghost use Rattle.std.specs.Prelude.{◌≡◌};
    ghost use Rattle.compose_tree.specs.TableReturns.{settle_raised};

    ghost from_gives = { λ fault e. e ≡ settle_raised fault };

    fn from(fault: SettleFault) -> TableFault {
        match fault {
            SettleFault::NoMemory => TableFault::NoMemory,
            other => TableFault::Settle(other),
        }
    }
}

impl From<BuildFault> for TableFault {
    ghost use Rattle.std.specs.Prelude.{◌≡◌};
    ghost use Rattle.compose_tree.specs.TableReturns.{build_raised};

    ghost from_gives = { λ fault e. e ≡ build_raised fault };

    fn from(fault: BuildFault) -> TableFault {
        match fault {
            BuildFault::NoMemory => TableFault::NoMemory,
            other => TableFault::Build(other),
        }
    }
}

/// Reads the table whose root is the source with this name: reads its definitions, settles them by
/// the rule, and builds the table. O(b + n log n) in the bytes of all visited lines and the
/// definitions.
///
/// Errors: the first of `Read` for a fault of the sources, `Settle` for an overlap that the rule
/// refuses, and `Build` for too many nodes; or `NoMemory`.
pub fn read_table<T: BuildTable>(
    alloc: Global,
    names: &Names,
    sources: &Sources,
    root: &str,
    rule: Rule,
) -> Result<T, TableFault>
    ensures { TableReturns T.definitions result (table_of names.now sources.now root.now rule) }
{
    let definitions = read_definitions(alloc, names, sources, root)?;
    let sequences = settle(alloc, definitions, rule)?;
    let table = T::build(alloc, sequences)?;
    Ok(table)
}

/// Reads the table whose root is the first source, as [`read_table`] does.
///
/// Errors: those of [`read_table`]; without a source, the error is that the root is missing.
pub fn read_first_table<T: BuildTable>(
    alloc: Global,
    names: &Names,
    sources: &Sources,
    rule: Rule,
) -> Result<T, TableFault>
    ensures value { TableReturns T.definitions result (first_table names.now sources.now rule) }
    ensures no_source { sources.now ≡ [] → result ≡ Err (TableFault.Read ReadFault.MissingRoot) }
{
    let Some(root) = sources.name(0) else {
        return Err(TableFault::Read(ReadFault::MissingRoot));
    };
    read_table(alloc, names, sources, root, rule)
}
