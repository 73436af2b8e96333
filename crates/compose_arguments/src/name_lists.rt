//! Lists of keys in arguments and options.
ghost use Rattle.std.specs.Prelude.{◌≡◌, ◌++◌, ◌==◌, flat_map, map, IfOk, OnOk};
ghost use Rattle.std.specs.List.{slice_split};
ghost use Rattle.compose_arguments.specs.Written as written;

use clap::ArgMatches;
use compose_keys::keys_in;
use std::alloc::{AllocError, Global};

/// Returns the keys in `--fresh`, if it is given; for Compose files if `are_files`.
pub(crate) fn given_fresh_names<'a>(
    alloc: Global,
    given: &ArgMatches<'a>,
    are_files: bool,
) -> Result<Option<Vec<&'a str>>, AllocError> {
    match given.get_str("fresh") {
        Some(text) => Ok(Some(option_keys(alloc, are_files, text)?)),
        None => Ok(None),
    }
}

/// Returns the keys in `--fresh`, none if it is not given; for Compose files if `are_files`.
pub(crate) fn fresh_names<'a>(
    alloc: Global,
    given: &ArgMatches<'a>,
    are_files: bool,
) -> Result<Vec<&'a str>, AllocError> {
    match given.get_str("fresh") {
        Some(text) => option_keys(alloc, are_files, text),
        None => Ok(Vec::new(alloc)),
    }
}

/// Returns the keys in this option of a command on Compose files; none if it is not given.
pub(crate) fn keys_of_option<'a>(
    alloc: Global,
    given: &ArgMatches<'a>,
    option: &str,
) -> Result<Vec<&'a str>, AllocError> {
    match given.get_str(option) {
        Some(text) => option_keys(alloc, true, text),
        None => Ok(Vec::new(alloc)),
    }
}

/// Returns the keys that an option writes: for Compose files as people write them, and otherwise
/// names separated by commas.
fn option_keys<'a>(
    alloc: Global,
    are_files: bool,
    text: &'a str,
) -> Result<Vec<&'a str>, AllocError>
    ensures { IfOk result
        (λ keys. map (λ key. key.now) keys.items ≡ written.option_keys are_files text.now) }
{
    if are_files {
        keys_in(alloc, text)
    } else {
        names_between(alloc, text)
    }
}

/// Returns the keys that these arguments write: for Compose files one or more in each as people
/// write them, and otherwise each argument is one.
pub(crate) fn argument_keys<'a>(
    alloc: Global,
    are_files: bool,
    arguments: &[&'a str],
) -> Result<Vec<&'a str>, AllocError>
    ensures { IfOk result
        (λ keys. map (λ key. key.now) keys.items
        ≡ written.argument_keys are_files (map (λ argument. argument.now) arguments.now)) }
{
    if are_files {
        written_keys(alloc, arguments)
    } else {
        Vec::from_slice(alloc, arguments)
    }
}

/// Returns the keys that these arguments write, one or more in each.
fn written_keys<'a>(alloc: Global, arguments: &[&'a str]) -> Result<Vec<&'a str>, AllocError>
    ensures { IfOk result
        (λ keys. map (λ key. key.now) keys.items
        ≡ flat_map written.some_keys (map (λ argument. argument.now) arguments.now)) }
{
    let mut keys = Vec::new(alloc);
    for argument in arguments {
        push_keys(alloc, &mut keys, argument)?;
    }
    Ok(keys)
}

/// Appends the keys that an argument writes, or the argument itself if it writes none.
fn push_keys<'a>(
    alloc: Global,
    keys: &mut Vec<&'a str>,
    argument: &'a str,
) -> Result<(), AllocError>
    ensures { OnOk result
        (map (λ key. key.now) keys.new.items
        ≡ map (λ key. key.now) keys.old.items ++ written.some_keys argument.now) }
{
    let own = keys_in(alloc, argument)?;
    if own.is_empty() {
        keys.push(argument)?;
        return Ok(());
    }
    keys.extend_from_slice(&own)?;
    Ok(())
}

/// Returns the names separated by commas; none for an empty text. A name between two commas may be
/// empty.
fn names_between<'a>(alloc: Global, text: &'a str) -> Result<Vec<&'a str>, AllocError>
    ensures { IfOk result
        (λ names. map (λ name. name.now) names.items ≡ written.names_between text.now) }
{
    if text.is_empty() {
        return Ok(Vec::new(alloc));
    }
    split_words(alloc, text)
}

/// Returns the parts of a text separated by commas.
fn split_words<'a>(alloc: Global, text: &'a str) -> Result<Vec<&'a str>, AllocError>
    ensures { IfOk result
        (λ arguments. map (λ argument. argument.now) arguments.items
        ≡ slice_split (λ b. b == 44) text.now) }
{
    let arguments: Vec<&'a str> = text.split(',').collect(alloc)?;
    Ok(arguments)
}
