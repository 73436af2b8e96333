//! Keys as they are written on the command line for Compose files: by their names, or as their
//! characters.
ghost use Rattle.std.specs.Prelude.{◌≡◌, map, IfOk, string_bytes};
ghost use Rattle.keysym_core.specs.Header.{names_of};
ghost use Rattle.keysym_core.specs.Printed as words;
ghost use Rattle.compose_runs.specs.WrittenKeys.{AreKeyNames, AreNamed, AreWritten, IsNameOfCharacter, IsWritten};

use compose_messages::key_of_text;
use keysym_core::{Keysym, NameFault, Names};
use std::alloc::{AllocError, Global};

/// Returns the names of the keys that these words write. For Compose files a word is a name in this
/// header or a character; otherwise each word is taken as a name. O(bytes + words × log
/// characters).
/// Errors: `AllocError` if memory runs out.
pub fn key_names(
    alloc: Global,
    are_files: bool,
    header: &[u8],
    words: &[&str],
) -> Result<Vec<String>, AllocError>
    ensures { IfOk result
        (λ keys. AreKeyNames are_files (names_of header.now) (map (λ word. word.now) words.now)
        (map string_bytes keys.items)) }
{
    if are_files {
        written_keys(alloc, header, words)
    } else {
        copied(alloc, words)
    }
}

/// Returns the names that these words stand for, by the names in this header: the word itself if it
/// names a keysym; the name of the least keysym with this character if it is one; any other word
/// itself. O(bytes + words × log characters).
pub(crate) fn written_keys(
    alloc: Global,
    header: &[u8],
    words: &[&str],
) -> Result<Vec<String>, AllocError>
    ensures { IfOk result
        (λ keys. AreWritten (names_of header.now) (map (λ word. word.now) words.now)
        (map string_bytes keys.items)) }
{
    match Names::read(alloc, header) {
        Ok(names) => named_keys(alloc, &names, words),
        Err(NameFault::NoMemory) => Err(AllocError),
        Err(_) => copied(alloc, words),
    }
}

/// Returns the names that these words stand for.
fn named_keys(alloc: Global, names: &Names, words: &[&str]) -> Result<Vec<String>, AllocError>
    ensures { IfOk result
        (λ keys. AreNamed names.now (map (λ word. word.now) words.now)
        (map string_bytes keys.items)) }
{
    let mut keys = Vec::new(alloc);
    for word in words {
        let key = written_key(alloc, names, word)?;
        keys.push(key)?;
    }
    Ok(keys)
}

/// Returns a copy of these words.
fn copied(alloc: Global, words: &[&str]) -> Result<Vec<String>, AllocError>
    ensures { IfOk result
        (λ keys. map string_bytes keys.items ≡ map (λ word. word.now) words.now) }
{
    let mut keys = Vec::new(alloc);
    for word in words {
        let key = String::from_str(alloc, word)?;
        keys.push(key)?;
    }
    Ok(keys)
}

/// Borrows these names. O(names).
/// Errors: `AllocError` if memory runs out.
pub fn borrowed(alloc: Global, keys: &[String]) -> Result<Vec<&str>, AllocError>
    ensures { IfOk result
        (λ names. map (λ name. name.now) names.items ≡ map string_bytes keys.now) }
{
    let mut names = Vec::new(alloc);
    for key in keys {
        names.push(key.as_str())?;
    }
    Ok(names)
}

/// Returns the name that a word stands for.
fn written_key(alloc: Global, names: &Names, word: &str) -> Result<String, AllocError>
    ensures { IfOk result (λ name. IsWritten names.now word.now (string_bytes name)) }
{
    match names.lookup(word) {
        Some(_) => String::from_str(alloc, word),
        None => name_of_character(alloc, names, word),
    }
}

/// Returns the name that a word stands for which names no keysym.
fn name_of_character(alloc: Global, names: &Names, word: &str) -> Result<String, AllocError>
    ensures { IfOk result (λ name. IsNameOfCharacter names.now word.now (string_bytes name)) }
{
    match key_of_text(names, word) {
        Some(keysym) => printed(alloc, names, keysym),
        None => String::from_str(alloc, word),
    }
}

/// Returns the printed name of a keysym.
fn printed(alloc: Global, names: &Names, keysym: Keysym) -> Result<String, AllocError>
    ensures { IfOk result (λ name. string_bytes name ≡ words.printed names.now keysym) }
{
    match names.print(alloc, keysym) {
        Ok(name) => Ok(name),
        Err(_) => Err(AllocError),
    }
}
