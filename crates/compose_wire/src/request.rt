//! Requests to the typing service.
ghost use Rattle.std.specs.Prelude.{◌≡◌, nat_eq};
ghost use Rattle.std.specs.Cmp.{partial_equiv_from_equiv};
ghost use Rattle.std.specs.Cmp.Lexicographic.{pointwise, nat_list_eq_equiv};

use std::marker::Model;

/// The bytes that a load carries, at most 8,388,608 if they came in a frame.
#[derive(Debug, Drop)]
pub struct Payload {
    bytes: Vec<u8>,
}

impl Model for Payload {
    ghost use Rattle.std.specs.Prelude.{ℕ, List};

    ghost Value = { List ℕ };

    ghost view = { λ p. p.bytes.items };
}

impl Payload {
    /// Makes a payload of these bytes. O(1), allocates nothing.
    pub fn new(bytes: Vec<u8>) -> Payload
        ensures { result ≡ bytes.items }
    {
        Payload { bytes }
    }

    /// Returns its bytes. O(1).
    pub fn as_slice(&self) -> &[u8]
        ensures { result.now ≡ self.now }
    {
        self.bytes.as_slice()
    }

    /// Returns its bytes as a vector. O(1), allocates nothing.
    pub fn into_vec(self) -> Vec<u8>
        ensures { result.items ≡ self }
    {
        let Payload { bytes: all } = self;
        all
    }
}

impl PartialEq for Payload {
    ghost eq = { λ p q. pointwise nat_eq p q };

    ghost laws = { partial_equiv_from_equiv nat_list_eq_equiv };

    fn eq(&self, other: &Self) -> bool {
        self.as_slice() == other.as_slice()
    }
}

impl Eq for Payload {
    ghost laws = { nat_list_eq_equiv };
}

/// What a request asks for.
#[derive(Debug, PartialEq, Eq, Drop)]
pub enum Body {
    /// Opens the session.
    Open,
    /// Feeds a key to the session; the number may be above the largest keysym.
    Key(u32),
    /// Resets the session.
    Reset,
    /// Closes the session.
    Close,
    /// Loads a table in which no sequence may be a prefix of another one.
    Load(Payload),
    /// Loads a table in which the longer of two such sequences counts.
    LoadLongest(Payload),
    /// Asks for the state of the session.
    Ask,
}

/// A request: a session, and what is asked for.
#[derive(Debug, PartialEq, Eq, Drop)]
pub struct Request {
    /// The session number, chosen by the client; a load ignores it.
    pub session: u32,
    /// What is asked for.
    pub body: Body,
}
