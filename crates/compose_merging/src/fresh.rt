//! Keys that could be fresh: first keys of new starts that no sequence of the old table has.
use crate::treatment::{Cause, Treatment};
use compose_fresh::check_fresh;
use compose_read::Sequences;
use compose_tree::ComposeTable;
use keysym_core::{Keysym, Names};
use std::alloc::{AllocError, Global};

/// Keys that could be fresh, and what they would take.
#[derive(Drop)]
pub(crate) struct FreshKeys {
    /// The keys, in rising order, each once.
    pub(crate) keys: Vec<Keysym>,
    /// The number of new starts that are taken if these keys are fresh.
    pub(crate) starts: usize,
}

/// Returns the first keys of the new starts that could be fresh. O(first keys × edges of the old
/// table).
pub(crate) fn fresh_keys<T: ComposeTable>(
    alloc: Global,
    old: &T,
    new: &Sequences,
    treatments: &[Treatment],
) -> Result<FreshKeys, AllocError> {
    let firsts = first_keys(alloc, new, treatments)?;
    let keys = usable_keys(alloc, old, &firsts)?;
    let starts = count_among(&firsts, &keys);
    Ok(FreshKeys { keys, starts })
}

/// Returns those of the keys that could be fresh, each once; the same ones come one after another.
fn usable_keys<T: ComposeTable>(
    alloc: Global,
    old: &T,
    firsts: &[Keysym],
) -> Result<Vec<Keysym>, AllocError> {
    let mut keys = Vec::new(alloc);
    let mut last = None;
    for key in firsts {
        if last != Some(*key) && check_fresh(old, &[*key]).is_none() {
            keys.push(*key)?;
        }
        last = Some(*key);
    }
    Ok(keys)
}

/// Returns the first key of each new start, in their order, which is rising.
fn first_keys(
    alloc: Global,
    new: &Sequences,
    treatments: &[Treatment],
) -> Result<Vec<Keysym>, AllocError> {
    let mut keys = Vec::new(alloc);
    for (index, treatment) in treatments.iter().enumerate() {
        if let Treatment::LeftOut(Cause::NewStart) = treatment
            && let Some(key) = first_key(new, index)
        {
            keys.push(key)?;
        }
    }
    Ok(keys)
}

/// Returns the first key of the sequence at this index, if there is one.
fn first_key(new: &Sequences, index: usize) -> Option<Keysym> {
    if index >= new.len() {
        return None;
    }
    new.sequence(index).first().copied()
}

/// Returns how many of the keys are among the others.
fn count_among(keys: &[Keysym], others: &[Keysym]) -> usize {
    keys.iter().filter(|key| others.contains(key)).count()
}

/// Returns the names of the keys, joined by commas.
pub(crate) fn joined_names(
    alloc: Global,
    names: &Names,
    keys: &[Keysym],
) -> Result<String, AllocError> {
    let mut joined = String::new(alloc);
    for (index, key) in keys.iter().enumerate() {
        if index > 0 {
            joined.push_str(",")?;
        }
        push_name(alloc, &mut joined, names, *key)?;
    }
    Ok(joined)
}

/// Appends the name of the key.
fn push_name(
    alloc: Global,
    text: &mut String,
    names: &Names,
    key: Keysym,
) -> Result<(), AllocError> {
    match names.print(alloc, key) {
        Ok(name) => text.push_str(&name),
        Err(_) => Err(AllocError),
    }
}
