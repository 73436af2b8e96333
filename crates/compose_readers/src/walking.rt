//! What a reader comes upon from the root on, the lines of an included file where it is included.
ghost use Rattle.std.specs.Prelude.{◌≡◌, ◌<◌, ◌≤◌, ◌++◌, length, map, Some, None, IfOk, IfErr, OnOk};
ghost use Rattle.compose_readers.specs.Ends.{end_of};
ghost use Rattle.compose_readers.specs.Refusals as refusals;
ghost use Rattle.compose_readers.specs.Stops.{IsStopFor};
ghost use Rattle.compose_readers.specs.Walks as walks;
ghost use Rattle.compose_readers.specs.declared.walking.Stop.TheVariants as stops;

use crate::cause::Cause;
use crate::file::{Definition, FileRead, LineEnd, LineRead};
use std::alloc::{AllocError, Global};
use std::marker::Model;

/// Why a reader refuses the whole table.
#[derive(Clone, Copy, Debug, PartialEq, Eq, Drop)]
pub enum Refusal {
    /// A file that it can't read.
    Unread,
    /// A file of 0 bytes.
    Empty,
    /// A file that doesn't begin as a text.
    Encoding,
    /// Includes that lead too deep.
    Depth,
    /// A file with too many faulty lines.
    Faults,
}

impl Refusal {
    ghost use Rattle.compose_readers.specs.Words.{refusal_words};

    /// Returns it in words. O(1).
    pub fn words(self) -> &'static str
        ensures { result.now ≡ refusal_words self }
    {
        match self {
            Refusal::Unread => "a file can't be read",
            Refusal::Empty => "a file is empty",
            Refusal::Encoding => "a file begins with a NUL, or with no ASCII character",
            Refusal::Depth => "includes lead too deep",
            Refusal::Faults => "a file has too many faulty lines",
        }
    }
}

/// What a reader comes upon in a line.
#[derive(Clone, Copy, Drop)]
pub enum What<'a> {
    /// A definition.
    Defines(&'a Definition),
    /// Something that it leaves out.
    LeftOut(Cause),
    /// An include.
    Includes(&'a [u8]),
}

/// What a reader comes upon, and where.
#[derive(Drop)]
pub struct Told<'a> {
    /// The index of the file, counted from 0.
    pub file: usize,
    /// The number of the line, counted from 1.
    pub line: usize,
    /// What the reader comes upon there.
    pub what: What<'a>,
}

impl<'a> Model for Told<'a> {
    ghost use Rattle.compose_readers.specs.Walks as walks;
    ghost use Rattle.compose_readers.specs.Seen.{what_of};

    ghost Value = { walks.Told };

    ghost view = { λ t. record { file = t.file; line = t.line; what = what_of t.what } };
}

/// What bounds a walk: how deep includes may lead, and how many faulty lines a file may have.
#[derive(Clone, Copy, Debug, PartialEq, Eq, Drop)]
pub struct Bounds {
    /// The includes that may lead to a line.
    pub depth: usize,
    /// The faulty lines that a file may have.
    pub faults: usize,
}

/// What a reader comes upon, in reading order.
#[derive(Drop)]
pub struct Walked<'a> {
    /// All of it, up to the refusal if there is one.
    pub told: Vec<Told<'a>>,
    /// Why the reader refuses the whole table, if it does.
    pub refusal: Option<Refusal>,
}

/// Why a walk ends before the end.
enum Stop {
    Refused(Refusal),
    NoMemory,
}

impl From<AllocError> for Stop {
    ghost from_gives = { λ _ stop. stop ≡ stops.NoMemory };

    fn from(_: AllocError) -> Stop {
        Stop::NoMemory
    }
}

/// Returns the index of the file with this path.
fn index_of(files: &[FileRead], path: &[u8]) -> Option<usize>
    ensures { result ≡ walks.index_of files.now path.now }
{
    files.iter().position(|file| file.path.as_slice() == path)
}

/// Appends these definitions of a line. O(definitions).
fn push_definitions<'a>(
    told: &mut Vec<Told<'a>>,
    file: usize,
    line: usize,
    definitions: &'a [Definition],
) -> Result<(), AllocError>
    ensures { OnOk result
        (told.new.items ≡ told.old.items ++ walks.told_in file line (map walks.defines definitions.now)) }
{
    for definition in definitions {
        let what = What::Defines(definition);
        told.push(Told { file, line, what })?;
    }
    Ok(())
}

/// Appends what follows the definitions of a line, unless it is nothing.
fn push_end<'a>(
    told: &mut Vec<Told<'a>>,
    file: usize,
    line: usize,
    end: &'a LineEnd,
) -> Result<(), AllocError>
    ensures { OnOk result
        (told.new.items
        ≡ told.old.items ++ walks.told_in file line (walks.parts_behind (end_of end.now))) }
{
    let what = match end {
        LineEnd::Nothing => return Ok(()),
        LineEnd::LeftOut(cause) => What::LeftOut(*cause),
        LineEnd::Includes(path) => What::Includes(path),
    };
    told.push(Told { file, line, what })?;
    Ok(())
}

/// Appends what the reader comes upon in this line. O(definitions of the line).
fn push_line<'a>(
    told: &mut Vec<Told<'a>>,
    file: usize,
    line: usize,
    read: &'a LineRead,
) -> Result<(), AllocError>
    ensures { OnOk result
        (told.new.items
        ≡ told.old.items ++ walks.told_in file line (walks.parts_in read.now)) }
{
    push_definitions(told, file, line, &read.definitions)?;
    push_end(told, file, line, &read.end)
}

/// Returns how many faulty lines the end of a line makes of it: 1 or none.
fn faults_at(end: &LineEnd) -> usize
    ensures same { result ≡ refusals.faults_at (end_of end.now) }
    ensures few { result ≤ 1 }
{
    match end {
        LineEnd::Nothing => 0,
        LineEnd::LeftOut(cause) => { if cause.is_fault() { 1 } else { 0 } }
        LineEnd::Includes(_) => 0,
    }
}

/// Walks over the file that the end of a line includes, if it does, from where `left` further
/// includes may lead on.
#[cycle(walk)]
#[tactic(auto, using(crate::proofs::Lines::below_nothing, crate::proofs::Lines::below_left_out, crate::proofs::Lines::below_one, crate::proofs::Refused::refusal_nothing, crate::proofs::Refused::refusal_left_out, crate::proofs::Refused::refusal_one, crate::proofs::Refused::refusal_unread))]
fn walk_included<'a>(
    told: &mut Vec<Told<'a>>,
    bounds: Bounds,
    files: &'a [FileRead],
    end: &'a LineEnd,
    left: usize,
) -> Result<(), Stop>
    ensures told { OnOk result
        (told.new.items ≡ told.old.items ++ walks.told_below files.now left (end_of end.now)) }
    ensures read { OnOk result
        (refusals.refusal_below files.now bounds.faults left (end_of end.now) ≡ None) }
    ensures refused { IfErr result
        (IsStopFor (refusals.refusal_below files.now bounds.faults left (end_of end.now))) }
{
    match end {
        LineEnd::Nothing => Ok(()),
        LineEnd::LeftOut(_) => Ok(()),
        LineEnd::Includes(_) if left == 0 => Err(Stop::Refused(Refusal::Depth)),
        LineEnd::Includes(path) => match index_of(files, path) {
            Some(index) => walk_file(told, bounds, files, index, left - 1),
            None => Err(Stop::Refused(Refusal::Unread)),
        },
    }
}

/// Walks over the lines of this file, and of those that it includes.
#[cycle(walk)]
#[tactic(auto, using(crate::proofs::Lines::line_more, crate::proofs::Lines::lines_of_file, crate::proofs::Refused::refused_faults, crate::proofs::Refused::refused_inside, crate::proofs::Refused::refused_more, crate::proofs::Refused::refused_none, crate::proofs::Refused::refused_file, crate::proofs::Refused::refused_at))]
fn walk_file<'a>(
    told: &mut Vec<Told<'a>>,
    bounds: Bounds,
    files: &'a [FileRead],
    index: usize,
    left: usize,
) -> Result<(), Stop>
    requires { index < length files.now }
    ensures told { OnOk result
        (told.new.items ≡ told.old.items ++ walks.told_from files.now left index) }
    ensures read { OnOk result
        (refusals.refusal_from files.now bounds.faults left index ≡ None) }
    ensures refused { IfErr result
        (IsStopFor (refusals.refusal_from files.now bounds.faults left index)) }
{
    let file = &files[index];
    if let Some(refusal) = file.refusal {
        return Err(Stop::Refused(refusal));
    }
    let lines = file.lines.as_slice();
    let mut faults = 0;
    for at in 0..lines.len() {
        let line = &lines[at];
        push_line(told, index, at + 1, line)?;
        faults += faults_at(&line.end);
        if faults > bounds.faults {
            return Err(Stop::Refused(Refusal::Faults));
        }
        walk_included(told, bounds, files, &line.end, left)?;
    }
    Ok(())
}

/// Walks over what a reader comes upon, from the file with the index `root` on. O(what it comes
/// upon).
///
/// Errors: `AllocError` if memory runs out.
pub fn walk<'a>(
    alloc: Global,
    bounds: Bounds,
    files: &'a [FileRead],
    root: usize,
) -> Result<Walked<'a>, AllocError>
    requires { root < length files.now }
    ensures told { IfOk result
        (λ walked. walked.refusal ≡ None
        → walked.told.items ≡ walks.told_from files.now bounds.depth root) }
    ensures refusal { IfOk result
        (λ walked. walked.refusal
        ≡ refusals.refusal_from files.now bounds.faults bounds.depth root) }
{
    let mut told = Vec::new(alloc);
    let refusal = match walk_file(&mut told, bounds, files, root, bounds.depth) {
        Ok(()) => None,
        Err(Stop::Refused(refusal)) => Some(refusal),
        Err(Stop::NoMemory) => return Err(AllocError),
    };
    Ok(Walked { told, refusal })
}
