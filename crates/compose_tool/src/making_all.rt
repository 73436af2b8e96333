//! `make --all`: makes a certificate, or lists all characters that can't be typed.
ghost use Rattle.std.specs.Prelude.{◌≡◌, ◌++◌, string_bytes, IfOk};
ghost use Rattle.compose_migration.specs.Values.{given_of, parts};
ghost use Rattle.compose_make.specs.Least.{AreUntypable};
ghost use Rattle.compose_answer.specs.Parts.{makeable, make_parts};
ghost use Rattle.compose_migration.specs.Refused.{Returns};
ghost use Rattle.compose_tool.specs.Answers as answers;
ghost use Rattle.compose_tool.specs.Answers.{IsAllMadeText, IsUntypableText, count_alone, count_of_both, each_untypable, needs_of, tables_words, untypable_count, untypable_line};

use crate::explaining::counterexample_text;
use crate::fresh::in_rising_order;
use crate::making::spell;
use compose_answer::{Answer, Refusal, fresh_refusal};
use compose_cert::Repertoire;
use compose_make::{Made, make, untypable};
use compose_migration::{Migration, MigrationInput, read_repertoire};
use compose_tree::{BuildTable, ComposeTable};
use keysym_core::{Keysym, Names, ShownChar};
use std::alloc::{AllocError, Global};
use std::fmt::Write;

/// Makes a certificate as `make_migration` does, but answers with all characters that can't be
/// typed, in order: a line for each, which has the words `in both tables` if the old one can't type
/// it either, and a last line that counts them. It costs what `make_migration` does, `untypable`
/// for both tables, and O(m n) for the numbers m and n of characters that these can't type.
///
/// Errors: those of `make_migration`.
pub fn make_all_migration<T: BuildTable>(
    alloc: Global,
    input: &MigrationInput<'_, '_>,
    repertoire: &[u8],
) -> Result<Answer, Refusal>
    ensures { Returns IsAllMadeText result (make_parts (given_of input.entry.now) repertoire.now) }
{
    let migration: Migration<T> = Migration::read(alloc, *input)?;
    make_all_from(alloc, &migration, repertoire)
}

/// Makes a certificate for these tables, or answers with all characters that can't be typed.
fn make_all_from<T: ComposeTable>(
    alloc: Global,
    migration: &Migration<T>,
    repertoire: &[u8],
) -> Result<Answer, Refusal>
    ensures { Returns IsAllMadeText result (needs_of (parts T.definitions migration.now) repertoire.now) }
{
    let repertoire = read_repertoire(alloc, repertoire)?;
    let fresh = in_rising_order(alloc, &migration.keys)?;
    print_all_made(alloc, migration, &repertoire, &fresh)
}

/// Answers with what is made from these tables, or with all characters that can't be typed.
fn print_all_made<T: ComposeTable>(
    alloc: Global,
    migration: &Migration<T>,
    repertoire: &Repertoire,
    fresh: &[Keysym],
) -> Result<Answer, Refusal>
    ensures { Returns IsAllMadeText result
        (makeable (parts T.definitions migration.now) repertoire.now fresh.now) }
{
    let names = &migration.names;
    let made = match make(
        alloc,
        &migration.old,
        &migration.new,
        names,
        repertoire,
        fresh,
    ) {
        Ok(made) => made,
        Err(fault) => return Err(fresh_refusal(fault)),
    };
    match made {
        Made::Made(certificate) => Ok(Answer::Yes(spell(alloc, &certificate)?)),
        Made::Differs(least) => Ok(Answer::No(counterexample_text(alloc, names, &least)?)),
        Made::Unreachable(_least) => Ok(Answer::No(print_untypable(alloc, migration, repertoire)?)),
    }
}

/// Returns the lines of all characters that the new table can't type.
fn print_untypable<T: ComposeTable>(
    alloc: Global,
    migration: &Migration<T>,
    repertoire: &Repertoire,
) -> Result<String, AllocError>
    ensures { IfOk result
        (λ text. IsUntypableText (parts T.definitions migration.now) repertoire.now
        (string_bytes text)) }
{
    let before = untypable_by(alloc, &migration.old, &migration.names, repertoire)?;
    let after = untypable_by(alloc, &migration.new, &migration.names, repertoire)?;
    untypable_lines(alloc, &before, &after)
}

/// Returns the characters that a table can't type.
fn untypable_by<T: ComposeTable>(
    alloc: Global,
    table: &T,
    names: &Names,
    repertoire: &Repertoire,
) -> Result<Vec<char>, AllocError>
    ensures { IfOk result
        (λ characters. AreUntypable names.now
        (T.definitions table.now) repertoire.now characters.items) }
{
    match untypable(alloc, table, names, repertoire) {
        Ok(characters) => Ok(characters),
        Err(_) => Err(AllocError),
    }
}

/// Returns a line for each of the new table's characters, and a line that counts them. O(m n) for m
/// and n characters of the tables.
fn untypable_lines(alloc: Global, old: &[char], new: &[char]) -> Result<String, AllocError>
    ensures { IfOk result (λ text. string_bytes text ≡ answers.untypable_lines old.now new.now) }
{
    let mut text = String::new(alloc);
    push_each(&mut text, old, new)?;
    push_count(&mut text, old, new)?;
    Ok(text)
}

/// Appends the line of each of the new table's characters to the text.
fn push_each(text: &mut String, old: &[char], new: &[char]) -> Result<(), AllocError>
    ensures { IfOk result
        (λ _. string_bytes text.new ≡ string_bytes text.old ++ each_untypable old.now new.now) }
{
    for character in new {
        push_untypable(text, old, *character)?;
    }
    Ok(())
}

/// Appends the line of a character to the text.
fn push_untypable(text: &mut String, old: &[char], character: char) -> Result<(), AllocError>
    ensures { IfOk result
        (λ _. string_bytes text.new ≡ string_bytes text.old ++ untypable_line old.now character) }
{
    let shown = ShownChar(character);
    let tables = tables_words(old, character);
    write!(text, "unreachable {shown}{tables}\n")?;
    Ok(())
}

/// Returns the words for a character that the old table can't type either.
fn tables_words(old: &[char], character: char) -> &'static str
    ensures { result.now ≡ tables_words old.now character }
{
    if old.contains(&character) {
        " in both tables"
    } else {
        ""
    }
}

/// Appends the line that counts the new table's characters to the text.
fn push_count(text: &mut String, old: &[char], new: &[char]) -> Result<(), AllocError>
    ensures { IfOk result
        (λ _. string_bytes text.new ≡ string_bytes text.old ++ untypable_count old.now new.now) }
{
    let count = new.len();
    let alone = count_alone(old, new);
    let both = count_of_both(old, new);
    write!(
        text,
        "{count} unreachable: {alone} in the new table alone, {both} in both tables\n"
    )?;
    Ok(())
}

/// Returns the number of the new table's characters that are not among the old table's.
fn count_alone(old: &[char], new: &[char]) -> usize
    ensures { result ≡ count_alone old.now new.now }
{
    new.iter()
        .filter(|character| !old.contains(character))
        .count()
}

/// Returns the number of the new table's characters that are among the old table's too.
fn count_of_both(old: &[char], new: &[char]) -> usize
    ensures { result ≡ count_of_both old.now new.now }
{
    new.iter()
        .filter(|character| old.contains(character))
        .count()
}
