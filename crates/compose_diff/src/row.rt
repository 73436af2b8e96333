//! A sequence and what happens to it.
use compose_compare::Change;

/// What a table has for a sequence: its text, and the place of the definition that counts.
#[derive(Clone, Copy, Debug)]
pub struct TextPlace<'a> {
    /// The text of the sequence.
    pub text: &'a str,
    /// The index of the source among those of its table, from 0.
    pub source: usize,
    /// The path of the source.
    pub path: &'a str,
    /// The line number in the source, from 1.
    pub line: usize,
}

/// A sequence of the new table, and the place of the definition that counts.
#[derive(Clone, Copy, Debug)]
pub struct NewSequence<'a> {
    /// The names of its keys, as they are written in the file.
    pub keys: &'a [&'a str],
    /// The path of the source.
    pub path: &'a str,
    /// The line number in the source, from 1.
    pub line: usize,
}

/// A sequence and what happens to it.
#[derive(Clone, Copy, Debug)]
pub struct DiffRow<'a> {
    /// What happens to the sequence.
    pub change: Change,
    /// The names of its keys, as they are written in the file.
    pub keys: &'a [&'a str],
    /// What the old table has for it, if it has the sequence.
    pub old: Option<TextPlace<'a>>,
    /// What the new table has for it, if it has the sequence.
    pub new: Option<TextPlace<'a>>,
    /// For a waiting sequence: the first of the shortest sequences of the new table that begin with
    /// it and go on.
    pub longer: Option<NewSequence<'a>>,
    /// For a sequence that is changed, waiting or removed: the first of the shortest sequences with
    /// which the new table gives its old text, if one does.
    pub typing: Option<NewSequence<'a>>,
}
