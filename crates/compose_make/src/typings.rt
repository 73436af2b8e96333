//! A typing for each character that people need.
ghost use Rattle.std.specs.Prelude.{◌≡◌, IfOk, IfErr};
ghost use Rattle.compose_make.specs.Least.{AreUntypable};
ghost use Rattle.compose_make.specs.Candidates.{is_plain};
ghost use Rattle.compose_make.specs.Wanted.{AreLeast, IsOfRows, all_missing, characters_of};
ghost use Rattle.compose_make.specs.Found.{IsTypings};

use crate::list::TypingList;
use crate::pass::visit;
use crate::plain::plain_key;
use crate::wanted::Wanted;
use compose_cert::Repertoire;
use compose_tree::{ComposeTable, NodeId};
use compose_walk::MakeFault;
use keysym_core::Names;
use std::alloc::Global;

/// The typings of a repertoire's characters.
#[derive(Drop)]
pub enum Typings {
    /// Each character, in order, with the least of the shortest lists of keys that type it.
    Found(TypingList),
    /// The least character that no list of keys types.
    Unreachable(char),
}

/// Finds for each character of the repertoire the shortest list of its keys that types it, and of
/// several the first in the order of sequences; or the least character that no list types.
///
/// O(edges × log characters + characters × log names) time, for each keysym of a character; 136
/// bytes per character.
///
/// # Errors
/// Only `NoMemory`, if memory runs out.
pub fn find_typings<U: ComposeTable>(
    alloc: Global,
    new: &U,
    names: &Names,
    repertoire: &Repertoire,
) -> Result<Typings, MakeFault>
    ensures found { IfOk result (IsTypings names.now (U.definitions new.now) repertoire.now) }
    ensures err { IfErr result (λ e. e ≡ MakeFault.NoMemory) }
{
    // The contracts of these calls say that the table is settled and the repertoire sound.
    let _ = new.node_count();
    let _ = repertoire.count();
    let mut rows = wanted_rows(alloc, new, names, repertoire)?;
    visit(new, repertoire, NodeId::ROOT, &[], &mut rows);
    typings_of(alloc, &rows)
}

/// Finds all characters of the repertoire that no list of its keys types, in order. It costs what
/// `find_typings` does.
///
/// # Errors
/// Only `NoMemory`, if memory runs out.
pub fn untypable<U: ComposeTable>(
    alloc: Global,
    table: &U,
    names: &Names,
    repertoire: &Repertoire,
) -> Result<Vec<char>, MakeFault>
    ensures found { IfOk result
        (λ characters. AreUntypable names.now
        (U.definitions table.now) repertoire.now characters.items) }
    ensures err { IfErr result (λ e. e ≡ MakeFault.NoMemory) }
{
    // The contracts of these calls say that the table is settled and the repertoire sound.
    let _ = table.node_count();
    let _ = repertoire.count();
    let mut rows = wanted_rows(alloc, table, names, repertoire)?;
    visit(table, repertoire, NodeId::ROOT, &[], &mut rows);
    missing_of(alloc, &rows)
}

/// Makes a row for each character of the repertoire, with the key that types it by itself, if there
/// is one.
fn wanted_rows<U: ComposeTable>(
    alloc: Global,
    new: &U,
    names: &Names,
    repertoire: &Repertoire,
) -> Result<Vec<Wanted>, MakeFault>
    ensures characters { IfOk result
        (λ rows. characters_of rows.items ≡ repertoire.now.characters) }
    ensures err { IfErr result (λ e. e ≡ MakeFault.NoMemory) }
    ensures least { IfOk result
        (λ rows. AreLeast (is_plain names.now (U.definitions new.now) repertoire.now) rows.items) }
{
    let mut rows = Vec::new(alloc);
    for index in 0..repertoire.count() {
        let character = repertoire.char_at(index);
        let key = plain_key(new, names, repertoire, character);
        rows.push(Wanted::new(character, key))?;
    }
    Ok(rows)
}

/// Returns the typings of the rows, or the first character that has none.
fn typings_of(alloc: Global, rows: &[Wanted]) -> Result<Typings, MakeFault>
    ensures found { IfOk result (IsOfRows rows.now) }
    ensures err { IfErr result (λ e. e ≡ MakeFault.NoMemory) }
{
    let mut typings = Vec::new(alloc);
    for row in rows {
        let Some(typing) = row.typing(alloc)? else {
            return Ok(Typings::Unreachable(row.character()));
        };
        typings.push(typing)?;
    }
    Ok(Typings::Found(TypingList::new(typings)))
}

/// Returns the characters of the rows that have no keys.
fn missing_of(alloc: Global, rows: &[Wanted]) -> Result<Vec<char>, MakeFault>
    ensures found { IfOk result (λ missing. missing.items ≡ all_missing rows.now) }
    ensures err { IfErr result (λ e. e ≡ MakeFault.NoMemory) }
{
    let mut missing = Vec::new(alloc);
    for row in rows {
        if !row.has_keys() {
            missing.push(row.character())?;
        }
    }
    Ok(missing)
}
