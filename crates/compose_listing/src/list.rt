//! The sequences of a table, in the form of a Compose file or as JSON.
ghost use Rattle.std.specs.Prelude.{◌≡◌, ℕ, List, map, option_copied, IfOk, string_bytes};
ghost use Rattle.compose_model.specs.Nodes.{leaves};
ghost use Rattle.compose_read.specs.Lines.{Visit};
ghost use Rattle.compose_places.specs.Counting.{counting_line, AreLines};
ghost use Rattle.compose_migration.specs.Values.{table_given};
ghost use Rattle.compose_answer.specs.Parts.{type_parts};
ghost use Rattle.compose_migration.specs.Refused.{Returns};
ghost use Rattle.compose_listing.specs.Answers.{IsListed, IsListing};

use crate::chosen::chosen_leaves;
use crate::form::{ListForm, ListOrder};
use crate::listed::{ListedTable, push_leaves};
use crate::order::put_in_order;
use compose_answer::{Answer, Refusal};
use compose_migration::{Named, TableInput, read_only_table};
use compose_places::PlacedTable;
use compose_tree::{BuildTable, ComposeTable};
use keysym_core::Keysym;
use std::alloc::{AllocError, Global};

/// The sequences of a table that are printed, and how.
#[derive(Clone, Copy, Debug)]
pub struct ListWanted<'a> {
    /// The names of the keys with which they begin.
    pub prefix: &'a [&'a str],
    /// The text that they give, if one is asked for.
    pub text: Option<&'a str>,
    /// The order in which they are printed.
    pub order: ListOrder,
    /// The form in which they are printed.
    pub form: ListForm,
}

/// Returns the sequences of the table that are asked for, by the definitions that count, each once
/// and in the order that is asked for. If all are asked for as lines in the order of their keys,
/// they are a Compose file that defines the same table. O(bytes of the sources + n log n) for n
/// sequences.
///
/// Errors: that of the first part that is refused, in the order names, keysyms of the prefix,
/// table, or `NoMemory` if memory runs out.
pub fn list_table<T: BuildTable>(
    alloc: Global,
    header: &[u8],
    table: &TableInput<'_>,
    paths: &[&str],
    wanted: ListWanted<'_>,
) -> Result<Answer, Refusal>
    ensures { Returns
        (IsListed table.entry.now.sources.now (map (λ path. path.now) paths.now)
        (option_copied wanted.entry.text) wanted.entry.order wanted.entry.form) result
        (type_parts header.now (map (λ key. key.now) wanted.entry.prefix.now)
        (table_given table.entry.now)) }
{
    let named = Named::read(alloc, header, wanted.prefix)?;
    let placed: PlacedTable<'_, T> = read_only_table(alloc, &named.names, *table)?;
    let listed = ListedTable {
        names: &named.names,
        table: &placed.table,
        lines: &placed.lines,
        paths,
    };
    Ok(Answer::Yes(lines_of(alloc, &listed, &named.keys, wanted)?))
}

/// Returns what is printed of the sequences that begin with these keys, and that match the other
/// conditions.
fn lines_of<T: ComposeTable>(
    alloc: Global,
    listed: &ListedTable<'_, T>,
    prefix: &[Keysym],
    wanted: ListWanted<'_>,
) -> Result<String, AllocError>
    requires { AreLines listed.now.names.now (T.definitions listed.now.table.now)
        listed.now.lines.now }
    ensures { (visits : List Visit) → listed.now.lines.now
        ≡ map (counting_line listed.now.names.now visits)
        (leaves (T.definitions listed.now.table.now))
        → IfOk result
        (λ lines. IsListing listed.now.names.now visits
        (map (λ path. path.now) listed.now.paths.now) (T.definitions listed.now.table.now)
        prefix.now (option_copied wanted.entry.text) wanted.entry.order wanted.entry.form
        (string_bytes lines)) }
{
    let mut leaves = chosen_leaves(alloc, listed, prefix, wanted.text)?;
    put_in_order(listed, &mut leaves, wanted.order)?;
    let mut lines = String::new(alloc);
    push_leaves(alloc, &mut lines, wanted.form, listed, &leaves)?;
    Ok(lines)
}
