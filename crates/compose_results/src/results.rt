//! The result keysym of each leaf.
ghost use Rattle.std.specs.Prelude.{◌≡◌, ◌<◌, List, [], length, true, unwrap_or, IfOk};
ghost use Rattle.std.specs.List.{All};
ghost use Rattle.compose_model.specs.Nodes.{leaves};
ghost use Rattle.compose_read.specs.Lines.{Source};
ghost use Rattle.compose_tree.specs.TableReturns.{TableReturns, first_table, table_of};
ghost use Rattle.compose_tree.specs.Targets.{leaf_text};
ghost use Rattle.compose_results.specs.Results as words;
ghost use Rattle.compose_results.specs.Results.{IsResult, AreResults, AreFirstResults, counting_lines};
ghost use Rattle.compose_results.specs.SourceLines as words_of_all;
ghost use Rattle.compose_results.specs.SourceLines.{stands};

use crate::lines::{SourceLines, all_lines};
use crate::named::named_at;
use compose_messages::key_of_text;
use compose_model::Rule;
use compose_places::{CountingLine, PlacedTable, read_placed_table};
use compose_read::{ReadFault, Sources};
use compose_tree::{BuildTable, ComposeTable, LeafId, TableFault};
use keysym_core::{Keysym, Names};
use std::alloc::{AllocError, Global};

/// A table, and the result keysyms of its sequences.
#[derive(Drop)]
pub struct ResultTable<T: ComposeTable> {
    /// The table.
    pub table: T,
    /// For each leaf, by its number, its result keysym; 0 (XKB_KEY_NoSymbol) if it has none.
    pub results: Vec<Keysym>,
}

/// Returns the keysym that the line names, if there is a line and it names one; it is a definition.
/// O(bytes of the line).
fn named_by(
    names: &Names,
    all: &[SourceLines<'_>],
    line: &Option<CountingLine<'_>>,
) -> Option<Keysym>
    ensures { (sources : List Source) → all.now ≡ words_of_all.all_lines sources
        → stands sources line.now ≡ true
        → result ≡ words.named_by names.now sources line.now }
{
    match line {
        Some(line) => named_at(names, all, line.place()),
        None => None,
    }
}

/// Returns the result keysym of a sequence with this text, whose line names this keysym, or none.
/// O(bytes + log characters of the names).
fn result_of(names: &Names, named: Option<Keysym>, text: &str) -> Keysym
    ensures { IsResult names.now named text.now result }
{
    if let Some(keysym) = named {
        return keysym;
    }
    match key_of_text(names, text) {
        Some(keysym) => keysym,
        None => Keysym::default(),
    }
}

/// Returns the result keysym of a leaf; this is the line that counts for it.
fn leaf_result<T: ComposeTable>(
    names: &Names,
    all: &[SourceLines<'_>],
    table: &T,
    line: &Option<CountingLine<'_>>,
    leaf: LeafId,
) -> Keysym
    requires { leaf.0 < length (leaves (T.definitions table.now)) }
    ensures { (sources : List Source) → all.now ≡ words_of_all.all_lines sources
        → stands sources line.now ≡ true
        → IsResult names.now (words.named_by names.now sources line.now)
        (unwrap_or (leaf_text (T.definitions table.now) leaf.0) []) result }
{
    let named = named_by(names, all, line);
    let text = table.text(leaf);
    result_of(names, named, text)
}

/// Returns the result keysym of each leaf; these are the lines that count for them.
fn results_of<T: ComposeTable>(
    alloc: Global,
    names: &Names,
    sources: &Sources,
    table: &T,
    lines: &[Option<CountingLine<'_>>],
) -> Result<Vec<Keysym>, AllocError>
    requires as_many { length lines.now ≡ length (leaves (T.definitions table.now)) }
    requires stand { All (λ line. stands sources.now line ≡ true) lines.now }
    ensures { IfOk result
        (λ results. AreResults names.now sources.now lines.now (T.definitions table.now)
        results.items) }
{
    let all = all_lines(alloc, sources)?;
    let mut results = Vec::with_capacity(alloc, lines.len())?;
    for leaf in 0..table.leaf_count() {
        let line = &lines[leaf as usize];
        let keysym = leaf_result(names, &all, table, line, LeafId(leaf));
        results.push(keysym)?;
    }
    Ok(results)
}

/// Reads the table from the root by the rule, as `read_table` does, and finds the result keysym of
/// each of its leaves: the one named on the line that counts for its sequence, or the first keysym
/// of the text's character, or 0. It costs what `read_placed_table` does, and O(bytes of all
/// sources + leaves × log characters of the names).
///
/// Errors: those of `read_table`, for the same inputs; `NoMemory` if memory runs out.
pub fn read_results<T: BuildTable>(
    alloc: Global,
    names: &Names,
    sources: &Sources,
    root: &str,
    rule: Rule,
) -> Result<ResultTable<T>, TableFault>
    ensures table { TableReturns (λ read. T.definitions read.table) result
        (table_of names.now sources.now root.now rule) }
    ensures results { IfOk result
        (λ read. AreResults names.now sources.now
        (counting_lines names.now sources.now root.now (T.definitions read.table))
        (T.definitions read.table) read.results.items) }
{
    let PlacedTable { table, lines, .. } = read_placed_table(alloc, names, sources, root, rule)?;
    let Ok(results) = results_of(alloc, names, sources, &table, &lines) else {
        return Err(TableFault::NoMemory);
    };
    Ok(ResultTable { table, results })
}

/// Does the same with the first source as the root. Errors: those of `read_results`; without a
/// source, the fault is that the root is missing.
pub fn read_first_results<T: BuildTable>(
    alloc: Global,
    names: &Names,
    sources: &Sources,
    rule: Rule,
) -> Result<ResultTable<T>, TableFault>
    ensures table { TableReturns (λ read. T.definitions read.table) result
        (first_table names.now sources.now rule) }
    ensures results { IfOk result
        (λ read. AreFirstResults names.now sources.now (T.definitions read.table)
        read.results.items) }
{
    let Some(root) = sources.name(0) else {
        return Err(TableFault::Read(ReadFault::MissingRoot));
    };
    read_results(alloc, names, sources, root, rule)
}
