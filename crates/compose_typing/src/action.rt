//! What an input method does after an event.
ghost use Rattle.std.specs.Prelude.{◌≡◌, ◌≤◌, length};

use arrayvec::{ArrayString, ArrayVec};
use std::marker::Model;

/// The text that a key or a sequence gives, at most 255 bytes.
#[derive(Drop)]
pub struct Text {
    bytes: ArrayString<255>,
}

impl Model for Text {
    ghost use Rattle.std.specs.Prelude.{ℕ, ◌≤◌, List, length};

    ghost Value = { List ℕ };

    ghost view = { λ t. t.bytes.bytes };

    ghost invariant = { λ t. length t.bytes.bytes ≤ 255 };
}

impl Text {
    /// Wraps these bytes. O(1).
    pub fn new(bytes: ArrayString<255>) -> Text
        ensures { result ≡ bytes.bytes }
    {
        Text { bytes }
    }

    /// Returns the text. O(1).
    pub fn as_str(&self) -> &str
        ensures value { result.now ≡ self.now }
        ensures few { length result.now ≤ 255 }
    {
        self.bytes.as_str()
    }
}

/// The bytes of the requests that an input method sends at once, at most 448.
#[derive(Drop)]
pub struct Frames {
    pub(crate) bytes: ArrayVec<u8, 448>,
}

impl Model for Frames {
    ghost use Rattle.std.specs.Prelude.{ℕ, ◌≤◌, List, length};

    ghost Value = { List ℕ };

    ghost view = { λ f. f.bytes.items };

    ghost invariant = { λ f. length f.bytes.items ≤ 448 };
}

impl Frames {
    /// Returns the bytes. O(1).
    pub fn as_slice(&self) -> &[u8]
        ensures value { result.now ≡ self.now }
        ensures few { length result.now ≤ 448 }
    {
        self.bytes.as_slice()
    }
}

/// What an input method does with a key.
#[derive(Drop)]
pub enum KeyVerdict {
    /// The application gets the key.
    Pass,
    /// The application gets nothing.
    Take,
    /// The application gets this text in place of the key.
    Commit(Text),
}

/// What an input method does after an event.
#[derive(Drop)]
pub enum Action {
    /// Nothing.
    Wait,
    /// It sends these bytes.
    Send(Frames),
    /// It connects to the service, and closes the connection that it had.
    Connect,
    /// It does this with the key that was waiting.
    Tell(KeyVerdict),
    /// It closes the connection, and passes the key that was waiting to the application.
    Abandon,
    /// It closes the connection. No key was waiting.
    Close,
}
