//! A migration: keysym names, keysyms, and an old and a new table.
ghost use Rattle.std.specs.Prelude.{◌≡◌, map, IfOk};
ghost use Rattle.keysym_core.specs.Header.{names_of};
ghost use Rattle.compose_tree.specs.TableReturns.{first_table};
ghost use Rattle.compose_migration.specs.Migration.{no_names, no_table, or_because, named, migration_of};
ghost use Rattle.compose_migration.specs.Refused.{Returns};
ghost use Rattle.compose_migration.specs.Values.{given_of, named_parts, parts};

use crate::keys::look_up_keys;
use crate::read_table::ReadTable;
use crate::refusal::{Refusal, Side};
use compose_model::Rule;
use compose_read::Sources;
use compose_tree::TableFault;
use keysym_core::{Keysym, NameFault, Names};
use std::alloc::Global;

/// The sources of a table, and the rule for its overlaps.
#[derive(Clone, Copy)]
pub struct TableInput<'a> {
    /// The sources; the first one is the root.
    pub sources: &'a Sources<'a>,
    /// What is done if a sequence is a prefix of another one.
    pub rule: Rule,
}

/// The input from which a migration is read.
#[derive(Clone, Copy)]
pub struct MigrationInput<'a, 'w> {
    /// A header with keysym names, in the form of keysymdef.h, which are added to the core names.
    pub header: &'a [u8],
    /// Key names, each of which has to name a keysym.
    pub key_names: &'a [&'w str],
    /// The input of the old table.
    pub old: TableInput<'a>,
    /// The input of the new table.
    pub new: TableInput<'a>,
}

/// Keysym names, and the keysyms of key names in their order.
#[derive(Drop)]
pub struct Named {
    /// The keysym names.
    pub names: Names,
    /// The keysyms of the key names, in their order.
    pub keys: Vec<Keysym>,
}

impl Named {
    /// Reads a header, whose names are added to the core names, and looks up the keysyms of the key
    /// names. O(bytes).
    ///
    /// Errors: `Names` for a fault of the header, or else `Key` for the first key name that names
    /// no keysym; or `NoMemory`.
    pub fn read(alloc: Global, header: &[u8], key_names: &[&str]) -> Result<Named, Refusal>
        ensures { Returns (λ expected read. expected ≡ named_parts read) result
            (named header.now (map (λ key_name. key_name.now) key_names.now)) }
    {
        let names = read_names(alloc, header)?;
        let keys = look_up_keys(alloc, &names, key_names)?;
        Ok(Named { names, keys })
    }
}

/// A move from an old table to a new one, both read with the same keysym names.
#[derive(Drop)]
pub struct Migration<T> {
    /// The keysym names with which both tables were read.
    pub names: Names,
    /// The keysyms of the key names, in their order.
    pub keys: Vec<Keysym>,
    /// The old table.
    pub old: T,
    /// The new table.
    pub new: T,
}

impl<T> Migration<T> {
    /// Reads the names, the keysyms of the key names, the old table and the new one, in this order.
    /// O(b + n log n) in the bytes of everything and the definitions of a table.
    ///
    /// Errors: the first of `Names`, `Key`, and `Side` for the old and then the new table; or
    /// `NoMemory`.
    pub fn read<'a>(alloc: Global, input: MigrationInput<'a, '_>) -> Result<Migration<T>, Refusal>
    where
        T: ReadTable<'a>,
        ensures parts { Returns (λ expected read. expected ≡ parts T.definitions read) result
            (migration_of (given_of input.entry)) }
        ensures old { IfOk result
            (λ read. T.is_read read.names input.entry.old.sources.now read.old) }
        ensures new { IfOk result
            (λ read. T.is_read read.names input.entry.new.sources.now read.new) }
    {
        let named = Named::read(alloc, input.header, input.key_names)?;
        let old = read_side(alloc, &named.names, Side::Old, input.old)?;
        let new = read_side(alloc, &named.names, Side::New, input.new)?;
        Ok(Migration {
            names: named.names,
            keys: named.keys,
            old,
            new,
        })
    }
}

/// Reads the names of a header.
fn read_names(alloc: Global, header: &[u8]) -> Result<Names, Refusal>
    ensures { Returns (λ expected names. expected ≡ names) result
        (or_because no_names (names_of header.now)) }
{
    match Names::read(alloc, header) {
        Ok(names) => Ok(names),
        Err(NameFault::NoMemory) => Err(Refusal::NoMemory),
        Err(fault) => Err(Refusal::Names(fault)),
    }
}

/// Reads the table of a side.
fn read_side<'a, T: ReadTable<'a>>(
    alloc: Global,
    names: &Names,
    side: Side,
    input: TableInput<'a>,
) -> Result<T, Refusal>
    ensures table { Returns (λ expected table. expected ≡ T.definitions table) result
        (or_because (no_table side)
        (first_table names.now input.entry.sources.now input.entry.rule)) }
    ensures read { IfOk result (T.is_read names.now input.entry.sources.now) }
{
    match T::read_first(alloc, names, input.sources, input.rule) {
        Ok(table) => Ok(table),
        Err(TableFault::NoMemory) => Err(Refusal::NoMemory),
        Err(fault) => Err(Refusal::Side { side, fault }),
    }
}
