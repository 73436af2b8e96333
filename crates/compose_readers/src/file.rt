//! A file as a reader reads it, line by line.
use crate::cause::Cause;
use crate::walking::Refusal;
use arrayvec::ArrayVec;
use std::marker::Model;

/// A sequence and its text.
#[derive(Drop)]
pub struct Definition {
    /// The keysyms of the sequence, at least one.
    pub keys: ArrayVec<u32, 10>,
    /// The bytes that are typed: a reader may type what isn't UTF-8.
    pub text: Vec<u8>,
    /// Whether a string gives the text, and not the name of a result alone.
    pub has_string: bool,
}

impl Model for Definition {
    ghost use Rattle.compose_readers.specs.Definitions as definitions;

    ghost Value = { definitions.Definition };

    ghost view = { λ d. record { keys = d.keys.items; text = d.text.items; has_string = d.has_string } };
}

/// What follows the definitions of a line, and ends it.
#[derive(Drop)]
pub enum LineEnd {
    /// Nothing but a comment.
    Nothing,
    /// Something that the reader leaves out, to the end of the line.
    LeftOut(Cause),
    /// An include of the file at this path.
    Includes(Vec<u8>),
}

/// A line as a reader reads it.
#[derive(Drop)]
pub struct LineRead {
    /// The definitions of the line: behind the name of a result another one may begin.
    pub definitions: Vec<Definition>,
    /// What follows them.
    pub end: LineEnd,
}

impl Model for LineRead {
    ghost use Rattle.compose_readers.specs.Ends.{end_of};
    ghost use Rattle.compose_readers.specs.Files as files;

    ghost Value = { files.LineRead };

    ghost view = { λ r. record { definitions = r.definitions.items; end = end_of r.end } };
}

/// A file as a reader reads it.
#[derive(Drop)]
pub struct FileRead {
    /// The path under which it is included.
    pub path: Vec<u8>,
    /// Why the reader refuses any table that has the file, if it does.
    pub refusal: Option<Refusal>,
    /// Its lines, in order.
    pub lines: Vec<LineRead>,
}

impl Model for FileRead {
    ghost use Rattle.compose_readers.specs.Files as files;

    ghost Value = { files.FileRead };

    ghost view = { λ f. record { path = f.path.items; refusal = f.refusal; lines = f.lines.items } };
}
