//! How the text of a lost sequence is typed with the new table.
ghost use Rattle.std.specs.Prelude.{◌≡◌, ◌<◌, [], length, get_or, IsTrue, IfSome};
ghost use Rattle.std.specs.Option.{option_map, option_and_then};
ghost use Rattle.compose_model.specs.Nodes.{leaves};
ghost use Rattle.compose_lookup.specs.TextIndex.{IsTextIndex};
ghost use Rattle.compose_diff.specs.Line.{is_loss};
ghost use Rattle.compose_diff_rows.specs.Rows as words;
ghost use Rattle.compose_diff_rows.specs.Rows.{named_sequence, new_sequence, reported_entry};

use crate::reported::{line_at, path_at};
use crate::written::WrittenTable;
use compose_compare::Change;
use compose_diff::{NewSequence, TextPlace, is_loss};
use compose_lookup::TextIndex;
use compose_places::Events;
use compose_tree::{ComposeTable, LeafId};

/// A sequence of the new table, with the names of its keys.
#[derive(Drop)]
pub(crate) struct NamedSequence<'a> {
    /// The names of its keys, as they are written in the line that counts.
    pub(crate) keys: Events<'a>,
    /// The path of the source.
    pub(crate) path: &'a str,
    /// The line number in the source, from 1.
    pub(crate) line: usize,
}

impl<'a> NamedSequence<'a> {
    /// Returns the sequence as a row has it.
    pub(crate) fn as_new(&'a self) -> NewSequence<'a>
        ensures { new_sequence result ≡ named_sequence self.now }
    {
        NewSequence {
            keys: self.keys.as_slice(),
            path: self.path,
            line: self.line,
        }
    }
}

/// Returns how the text of a sequence to which this happens, and for which the old table has this
/// entry, is typed with the new table: the first of the shortest sequences that give it. `None`
/// unless people lose the sequence; then the index has its text. O(log m) comparisons of texts for
/// the m leaves of the index.
pub(crate) fn typed_now<'a, T: ComposeTable>(
    change: Change,
    entry: &Option<TextPlace<'a>>,
    new: &WrittenTable<'a, T>,
    index: &TextIndex,
) -> Option<NamedSequence<'a>>
    requires { IsTrue (is_loss change)
        → IfSome entry.now
        (λ entry. IsTextIndex (T.definitions new.now.table.now) entry.text.now index.now) }
    ensures { option_map named_sequence result
        ≡ words.now_of (words.written T.definitions new.now) change
        (option_map reported_entry entry.now) }
{
    let Some(entry) = entry else {
        return None;
    };
    if !is_loss(change) {
        return None;
    }
    first_typing(entry.text, new, index)
}

/// Returns the first of the shortest sequences of the new table that give the text.
fn first_typing<'a, T: ComposeTable>(
    text: &str,
    new: &WrittenTable<'a, T>,
    index: &TextIndex,
) -> Option<NamedSequence<'a>>
    requires { IsTextIndex (T.definitions new.now.table.now) text.now index.now }
    ensures { option_map named_sequence result
        ≡ option_and_then (words.sequence_in (words.written T.definitions new.now))
        (words.first_typing (T.definitions new.now.table.now) text.now) }
{
    let leaves = index.leaves_with(new.table, text);
    let leaf = leaves.first()?;
    sequence_at(new, *leaf)
}

/// Returns the sequence of this leaf, as it is written in the line that counts, if there is one.
pub(crate) fn sequence_at<'a, T: ComposeTable>(
    written: &WrittenTable<'a, T>,
    leaf: LeafId,
) -> Option<NamedSequence<'a>>
    requires { leaf.0 < length (leaves (T.definitions written.now.table.now)) }
    ensures { option_map named_sequence result
        ≡ words.sequence_in (words.written T.definitions written.now)
        (get_or (leaves (T.definitions written.now.table.now)) leaf.0 []) }
{
    let line = line_at(written, leaf)?;
    let place = line.place();
    Some(NamedSequence {
        keys: line.keys(),
        path: path_at(written.paths, place.source),
        line: place.line,
    })
}
