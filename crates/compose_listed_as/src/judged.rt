//! What a reader comes upon, and what becomes of it.
ghost use Rattle.std.specs.Prelude.{◌≡◌, map, length, IfOk};
ghost use Rattle.std.specs.List.{filter};
ghost use Rattle.compose_listed_as.specs.Judged as words;
ghost use Rattle.compose_readers.specs.Seen.{what_of};

use compose_readers::{Fate, Told, What};
use std::alloc::{AllocError, Global};
use std::marker::Model;

/// What a reader comes upon, and what becomes of it.
#[derive(Drop)]
pub(crate) struct Judged<'j, 't> {
    pub(crate) told: &'j Told<'t>,
    pub(crate) fate: Fate,
}

impl<'j, 't> Model for Judged<'j, 't> {
    ghost use Rattle.compose_listed_as.specs.Judged as words;

    ghost Value = { words.Judged };

    ghost view = { λ j. record { told = j.told.now; fate = j.fate } };
}

impl<'j, 't> Judged<'j, 't> {
    ghost use Rattle.compose_listed_as.specs.Judged as words;

    /// Returns whether it is a definition that is taken.
    pub(crate) fn is_taken(&self) -> bool
        ensures { result ≡ words.takes self.now }
    {
        is_taken(self.fate)
    }

    /// Returns whether it isn't taken, nor followed as an include.
    fn is_other(&self) -> bool
        ensures { result ≡ words.is_other self.now }
    {
        let told = self.told;
        !is_taken(self.fate) && !is_followed(told.what)
    }
}

/// Returns whether this is the fate of a definition that is taken.
fn is_taken(fate: Fate) -> bool
    ensures { result ≡ words.is_taken fate }
{
    match fate {
        Fate::Taken => true,
        Fate::Overridden(_) | Fate::Behind(_) | Fate::Full => false,
    }
}

/// Returns whether it is an include.
fn is_followed(what: What<'_>) -> bool
    ensures { result ≡ words.is_followed (what_of what.entry) }
{
    match what {
        What::Includes(_) => true,
        What::Defines(_) | What::LeftOut(_) => false,
    }
}

/// Returns each with its fate. O(n).
#[tactic(auto, using(crate::proofs::Judging::judged_more, crate::proofs::Judging::no_fate))]
pub(crate) fn with_fates<'j, 't>(
    alloc: Global,
    told: &'j [Told<'t>],
    fates: &[Fate],
) -> Result<Vec<Judged<'j, 't>>, AllocError>
    ensures { IfOk result (λ all. all.items ≡ words.with_fates told.now fates.now) }
{
    let mut all = Vec::new(alloc);
    for at in 0..told.len() {
        let Some(fate) = fates.get(at) else {
            return Ok(all);
        };
        all.push(Judged {
            told: &told[at],
            fate: *fate,
        })?;
    }
    Ok(all)
}

/// Returns those that aren't taken, nor followed as includes. O(n).
pub(crate) fn others<'a, 'j, 't>(
    alloc: Global,
    all: &'a [Judged<'j, 't>],
) -> Result<Vec<&'a Judged<'j, 't>>, AllocError>
    ensures { IfOk result (λ others. map (λ j. j.now) others.items ≡ words.others all.now) }
{
    let mut others = Vec::new(alloc);
    for one in all {
        if one.is_other() {
            others.push(one)?;
        }
    }
    Ok(others)
}

/// Returns the number of definitions that are taken. O(n).
pub(crate) fn taken_count(all: &[Judged<'_, '_>]) -> usize
    ensures { result ≡ words.taken_count all.now }
{
    all.iter().filter(|one| one.is_taken()).count()
}
