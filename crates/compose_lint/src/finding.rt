//! Findings of `lint`.
use crate::reader::{Class, Reader};

/// The place of a line.
#[derive(Clone, Copy, Debug, PartialEq, Eq, Drop)]
pub struct LinePlace {
    /// The index of its source, from 0.
    pub source: usize,
    /// The number of the line in the source, from 1.
    pub line: usize,
}

/// The kind of a finding.
#[derive(Clone, Copy, Debug, PartialEq, Eq, Drop)]
pub enum FindingKind {
    /// The line has a fault, the one with this index.
    Fault { index: usize },
    /// The line with this number of the same file defines the sequence again, with another text.
    Overridden { line: usize },
    /// The line with this number of the same file defines the sequence again, with the same text.
    Repeated { line: usize },
    /// The line at this place defines a longer sequence that begins with the one of this line.
    Prefix(LinePlace),
    /// The keysym after the string has another character than the string.
    Keysym,
    /// The text has one combining mark twice in a row.
    Mark,
    /// The text is not in normal form C.
    Form,
    /// The line at this place produces another text whose normal form C is this one.
    Alike(LinePlace),
    /// The comment occurs most often with another text, and the text with another comment.
    Comment,
    /// The line at this place, in an included file, defines the sequence with the same text.
    Redundant(LinePlace),
    /// The reader skips the line, or types its sequence differently.
    Reader(Reader, Class),
}

/// A finding in a line of a source.
#[derive(Clone, Copy, Debug, PartialEq, Eq, Drop)]
pub struct Finding {
    /// The index of its source, from 0.
    pub source: usize,
    /// The number of the line in the source, from 1.
    pub line: usize,
    /// What is wrong in the line.
    pub kind: FindingKind,
}
