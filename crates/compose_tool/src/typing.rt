//! Typing keys with a table, line by line.
ghost use Rattle.std.specs.Prelude.{◌≡◌, ◌++◌, List, drop, map, take, Ok, OnOk, IfOk, string_bytes};
ghost use Rattle.compose_model.specs.Table.{Definition};
ghost use Rattle.compose_read.specs.Read.{definitions_of};
ghost use Rattle.compose_tree.specs.TableReturns.{table_of};
ghost use Rattle.compose_tool.specs.TypeReturns.{TypeReturns};
ghost use Rattle.compose_migration.specs.Values.{table_given};
ghost use Rattle.compose_tool.specs.Typed.{typed_lines, typed_list, typed_lists, fed_line};
ghost use Rattle.compose_answer.specs.Parts.{TypedParts, type_parts};
ghost use Rattle.compose_migration.specs.Refused.{Returns};
ghost use Rattle.compose_tool.specs.Answers.{AreListsTyped, IsTyped, first_definitions, with_definitions};

use arrayvec::ArrayString;
use compose_answer::{Answer, Refusal};
use compose_lex::{LexFault, quote};
use compose_migration::{Named, TableInput, read_only_table};
use compose_model::Rule;
use compose_read::{Sources, law_settle};
use compose_state::{ComposeState, Fed};
use compose_tree::{BuildTable, ComposeTable, TableFault, read_table};
use keysym_core::{Keysym, Names};
use std::alloc::{AllocError, Global};
use thiserror::Error;

/// Why keys were not typed.
#[derive(Debug, PartialEq, Eq, Drop, Error)]
pub enum TypeFault {
    /// The table could not be read from the sources.
    #[error("1 Table: {0}")]
    Table(TableFault),
    /// Memory ran out.
    #[error("2 NoMemory")]
    NoMemory,
}

impl From<AllocError> for TypeFault {
    ghost use Rattle.compose_tool.specs.declared.typing.TypeFault.TheVariants.{NoMemory};

    ghost from_gives = { λ _ e. e ≡ NoMemory };

    fn from(_error: AllocError) -> TypeFault {
        TypeFault::NoMemory
    }
}

/// Types the keys from rest with the table that is read from the root by the rule. There is a line
/// for each key, which has the word for what happens (`nothing`, `composing`, `composed`,
/// `cancelled` or `ignored`), a blank and the committed text in quotes. O(bytes of the sources +
/// keys × log edges of a node).
///
/// Errors: `Table` with the first fault of the table, if it has one; `NoMemory` if memory runs out.
pub fn type_lines<T: BuildTable>(
    alloc: Global,
    names: &Names,
    sources: &Sources,
    root: &str,
    keys: &[Keysym],
    rule: Rule,
) -> Result<String, TypeFault>
    ensures exact { TypeReturns names.now keys.now result
        (table_of names.now sources.now root.now rule) }
    ensures as_read { IfOk result
        (λ text. (read : List Definition)
        → definitions_of names.now sources.now root.now ≡ Ok read
        → string_bytes text ≡ typed_lines names.now read keys.now) }
{
    match read_table::<T>(alloc, names, sources, root, rule) {
        Ok(table) => {
            law_settle();
            Ok(lines_of_keys(alloc, names, &table, keys)?)
        }
        Err(TableFault::NoMemory) => Err(TypeFault::NoMemory),
        Err(fault) => Err(TypeFault::Table(fault)),
    }
}

/// Types the keys with a table, from rest: a line for each key, as in `type_lines`.
///
/// The parts are read in the order names, key names, table. Errors: the first of these that is
/// refused; `NoMemory` if memory runs out.
pub fn type_keys<T: BuildTable>(
    alloc: Global,
    header: &[u8],
    key_names: &[&str],
    table: &TableInput<'_>,
) -> Result<Answer, Refusal>
    ensures exact { Returns IsTyped result
        (type_parts header.now (map (λ word. word.now) key_names.now)
        (table_given table.entry.now)) }
    ensures as_read { IfOk result
        (λ answer. (p : TypedParts) → (read : List Definition)
        → type_parts header.now (map (λ word. word.now) key_names.now)
        (table_given table.entry.now) ≡ Ok p
        → first_definitions p.names (table_given table.entry.now).sources ≡ Ok read
        → IsTyped (with_definitions read p) answer) }
{
    law_settle();
    let named = Named::read(alloc, header, key_names)?;
    let table: T = read_only_table(alloc, &named.names, *table)?;
    let lines = lines_of_keys(alloc, &named.names, &table, &named.keys)?;
    Ok(Answer::Yes(lines))
}

/// Types lists of keys with a table, each from rest: a line for each key, as in `type_lines`, and
/// an empty line after each list. `counts` has the number of keys of each list, in order; keys
/// after the last list are not typed.
///
/// Errors: those of `type_keys`.
pub fn type_lists<T: BuildTable>(
    alloc: Global,
    header: &[u8],
    key_names: &[&str],
    counts: &[usize],
    table: &TableInput<'_>,
) -> Result<Answer, Refusal>
    ensures { Returns (AreListsTyped counts.now) result
        (type_parts header.now (map (λ word. word.now) key_names.now)
        (table_given table.entry.now)) }
{
    let named = Named::read(alloc, header, key_names)?;
    let table: T = read_only_table(alloc, &named.names, *table)?;
    let lines = lines_of_lists(alloc, &named.names, &table, &named.keys, counts)?;
    Ok(Answer::Yes(lines))
}

/// Returns the lines of each list, and an empty line after each.
fn lines_of_lists<T: ComposeTable>(
    alloc: Global,
    names: &Names,
    table: &T,
    keys: &[Keysym],
    counts: &[usize],
) -> Result<String, AllocError>
    ensures { IfOk result
        (λ text. string_bytes text
        ≡ typed_lists names.now (T.definitions table.now) keys.now counts.now) }
{
    let mut lines = String::new(alloc);
    let mut rest = keys;
    for count in counts {
        let (own, others) = first_keys(rest, *count);
        push_list(alloc, &mut lines, names, table, own)?;
        rest = others;
    }
    Ok(lines)
}

/// Splits the keys after this number of them, or after all if there are fewer.
fn first_keys(keys: &[Keysym], count: usize) -> (&[Keysym], &[Keysym])
    ensures first { result.0.now ≡ take count keys.now }
    ensures others { result.1.now ≡ drop count keys.now }
{
    let own = count.min(keys.len());
    (&keys[..own], &keys[own..])
}

/// Appends the lines of a list, and an empty line.
fn push_list<T: ComposeTable>(
    alloc: Global,
    lines: &mut String,
    names: &Names,
    table: &T,
    keys: &[Keysym],
) -> Result<(), AllocError>
    ensures { OnOk result
        (string_bytes lines.new
        ≡ string_bytes lines.old ++ typed_list names.now (T.definitions table.now) keys.now) }
{
    let own = lines_of_keys(alloc, names, table, keys)?;
    lines.push_str(&own)?;
    lines.push('\n')?;
    Ok(())
}

/// Returns a line for each key: the word for what happens, a blank and the committed text in
/// quotes. O(keys × log edges).
fn lines_of_keys<T: ComposeTable>(
    alloc: Global,
    names: &Names,
    table: &T,
    keys: &[Keysym],
) -> Result<String, AllocError>
    ensures { IfOk result
        (λ text. string_bytes text ≡ typed_lines names.now (T.definitions table.now) keys.now) }
{
    let mut lines = String::new(alloc);
    let mut state = ComposeState::new();
    for keysym in keys {
        let fed = state.feed(table, names, *keysym);
        push_line(alloc, &mut lines, &fed)?;
    }
    Ok(lines)
}

/// Appends the line of an answer.
fn push_line(alloc: Global, lines: &mut String, fed: &Fed<'_>) -> Result<(), AllocError>
    ensures { OnOk result (string_bytes lines.new ≡ string_bytes lines.old ++ fed_line fed.now) }
{
    let mut text = ArrayString::new();
    fed.text_into(&mut text);
    let quoted = quote(alloc, text.as_str()).map_err(no_memory)?;
    lines.push_str(fed.word())?;
    lines.push(' ')?;
    lines.push_str(&quoted)?;
    lines.push('\n')?;
    Ok(())
}

/// Returns the error of memory: quoting a text can fail for no other reason.
fn no_memory(_fault: LexFault) -> AllocError {
    AllocError
}
