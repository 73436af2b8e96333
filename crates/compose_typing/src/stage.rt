//! What a client waits for.
ghost use Rattle.std.specs.Prelude.{◌≡◌};
ghost use Rattle.compose_typing.specs.TypingSession as words;

use crate::action::Text;
use compose_model::Status;
use keysym_core::Keysym;

/// A key that waits for its verdict.
#[derive(Clone, Copy)]
pub struct Waiting {
    /// The pressed key.
    pub key: Keysym,
    /// Whether a connection was lost while it waited. If so, a second loss makes it pass.
    pub is_again: bool,
}

/// The service's answer to a key.
#[derive(Drop)]
pub struct KeyAnswer {
    /// The state of the session after the key.
    pub status: Status,
    /// Whether the key was accepted: modifiers and other ignored keys are not.
    pub accepted: bool,
    /// The text that the key gave, or nothing.
    pub text: Text,
}

/// What a client waits for.
#[derive(Drop)]
pub enum Stage {
    /// No key waits, and there is no connection.
    Apart,
    /// No key waits, and there is a connection.
    Ready,
    /// A key waits for a connection.
    Connecting(Waiting),
    /// A key waits for the reply to Open.
    Opening(Waiting),
    /// A key waits for this number of replies, to a Reset and to keys that are typed again, and
    /// then for its own.
    Feeding(Waiting, usize),
    /// A key was answered, and waits for the reply to Ask.
    Asking(Waiting, KeyAnswer),
    /// No key waits. This number of replies, to a Reset and to keys that are typed again, comes
    /// before the reply to Ask.
    Refreshing(usize),
    /// No key waits, and the reply to Close is still to come.
    Closing,
}

impl Stage {
    /// Whether a key waits. O(1).
    pub fn waits(&self) -> bool
        ensures { result ≡ words.waits self.now }
    {
        matches!(
            self,
            Stage::Connecting(_) | Stage::Opening(_) | Stage::Feeding(_, _) | Stage::Asking(_, _)
        )
    }

    /// Whether nothing is waited for: neither a connection nor a reply. O(1).
    pub fn is_idle(&self) -> bool
        ensures { result ≡ words.is_idle self.now }
    {
        matches!(self, Stage::Apart | Stage::Ready)
    }
}
