//! The answer of a compose state to a key.
ghost use Rattle.std.specs.Prelude.{◌≡◌, ◌≤◌, length};
ghost use Rattle.compose_state.specs.Texts.{text_bytes};

use arrayvec::ArrayString;
use compose_model::Status;

/// The text that a key commits.
#[derive(Clone, Copy, Debug, PartialEq, Eq)]
pub enum FedText<'t> {
    /// No text.
    Empty,
    /// The character of the key itself.
    Char(char),
    /// The text of a sequence, borrowed from the table.
    Slice(&'t str),
}

/// The answer of a compose state to a key. The text has at most 255 bytes.
#[derive(Clone, Copy, Debug, PartialEq, Eq)]
pub struct Fed<'t> {
    /// Whether the key was accepted, that is, not ignored as a modifier is.
    pub accepted: bool,
    /// The status after the key.
    pub status: Status,
    /// The text that the key commits.
    pub text: FedText<'t>,
    ghost fits: { length (text_bytes text) ≤ 255 },
}

impl<'t> Fed<'t> {
    ghost use Rattle.compose_state.specs.Answers.{fed_word};

    /// Replaces the content of the string by the text. O(its bytes).
    pub fn text_into(&self, target: &mut ArrayString<255>)
        ensures { target.new.bytes ≡ text_bytes self.now.text }
    {
        target.clear();
        match self.text {
            FedText::Empty => {}
            FedText::Char(character) => target.push(character),
            FedText::Slice(text) => target.push_str(text),
        }
    }

    /// Returns `ignored` if the key was not accepted, else the name of the status. O(1).
    pub fn word(&self) -> &'static str
        ensures { result.now ≡ fed_word self.now }
    {
        if !self.accepted {
            return "ignored";
        }
        match self.status {
            Status::Nothing => "nothing",
            Status::Composing => "composing",
            Status::Composed => "composed",
            Status::Cancelled => "cancelled",
        }
    }
}
