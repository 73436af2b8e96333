//! A client that reads the bytes of its connection.
ghost use Rattle.std.specs.Prelude.{◌≡◌, ◌≤◌, ◌++◌, List, ℕ, [], length, Some, None};
ghost use Rattle.compose_wire.specs.Messages as wire;
ghost use Rattle.compose_wire.specs.Frames.{Fault, reply_bytes};
ghost use Rattle.compose_client.specs.Replies.{ReplyFits, head_fault, HasBadPayload, IsReplyBegun};
ghost use Rattle.compose_typing.specs.TypingSession as words;
ghost use Rattle.compose_typing.specs.Bytes.{Becomes, Receives};

use crate::action::Action;
use crate::client::Client;
use compose_client::ReplyWindow;
use keysym_core::Keysym;
use std::marker::Model;

/// A client, and the received bytes of replies that it has not read yet.
#[derive(Drop)]
pub struct TypingSession {
    client: Client,
    replies: ReplyWindow,
}

impl Model for TypingSession {
    ghost use Rattle.compose_typing.specs.Bytes.{TypingSession as TypingValue};

    ghost Value = { TypingValue };

    ghost view = { λ t. record { client = t.client; held = t.replies } };
}

impl TypingSession {
    /// Makes a client that has typed nothing. O(1).
    pub fn new() -> TypingSession
        ensures { result ≡ record { client = words.start; held = [] } }
    {
        TypingSession {
            client: Client::new(),
            replies: ReplyWindow::new(),
        }
    }

    /// Returns the client that holds these bytes of its connection. O(1).
    pub fn restored(client: Client, replies: ReplyWindow) -> TypingSession
        ensures { result ≡ record { client = client; held = replies } }
    {
        TypingSession { client, replies }
    }

    /// Returns the client. O(1).
    pub fn client(&self) -> &Client
        ensures { result.now ≡ self.now.client }
    {
        &self.client
    }

    /// Returns the received bytes that were not read yet, at most 266. O(1).
    pub fn held(&self) -> &[u8]
        ensures value { result.now ≡ self.now.held }
        ensures few { length result.now ≤ 266 }
    {
        self.replies.as_slice()
    }

    /// Returns the pending keys, at most 31: what an input method shows as preedit. O(1).
    pub fn pending(&self) -> &[Keysym]
        ensures { result.now ≡ self.now.client.pending }
    {
        self.client.pending()
    }

    /// Whether a key waits for its verdict. O(1).
    pub fn waits(&self) -> bool
        ensures { result ≡ words.waits self.now.client.stage }
    {
        self.client.waits()
    }

    /// Handles a key press. A key that is pressed while another one waits passes at once. O(pending
    /// keys).
    pub fn press(&mut self, key: Keysym) -> Action
        ensures { Becomes (words.press_outcome self.old.client key) self.old.held self.new
            result }
    {
        self.client.press(key)
    }

    /// Handles a new connection, and drops the bytes of an earlier one. The session gets this
    /// number, ideally a random one each time, unless it was opened before. O(1).
    pub fn connected(&mut self, number: u32) -> Action
        ensures { Becomes (words.connected self.old.client number) [] self.new result }
    {
        self.replies = ReplyWindow::new();
        self.client.connected(number)
    }

    /// Takes bytes that were received. Returns the number of bytes at the front that it took, and
    /// what to do at the next reply. With the remaining bytes, it has to be called again until it
    /// returns `None`: then it has taken all bytes, and no whole reply is left.
    ///
    /// Bytes that are not a reply give up the connection. Allocates nothing; O(pending keys).
    pub fn receive(&mut self, piece: &[u8]) -> (usize, Option<Action>)
        ensures reply { (r : wire.Reply) (more : List ℕ) → ReplyFits r
            → self.old.held ++ piece.now ≡ reply_bytes r ++ more
            → Receives (words.answered self.old.client r) more piece.now self.new result }
        ensures fault { (fault : Fault) → head_fault (self.old.held ++ piece.now) ≡ Some fault
            → Receives (words.give_up_outcome self.old.client) (self.old.held ++ piece.now)
            piece.now self.new result }
        ensures bad_payload { HasBadPayload (self.old.held ++ piece.now)
            → Receives (words.give_up_outcome self.old.client) (self.old.held ++ piece.now)
            piece.now self.new result }
        ensures none { IsReplyBegun (self.old.held ++ piece.now) → (result ≡ (length piece.now, None))
            × (self.new
            ≡ record { client = self.old.client; held = self.old.held ++ piece.now }) }
        ensures used { result.0 ≤ length piece.now }
    {
        let (used, next) = self.replies.next_reply(piece);
        match next {
            Ok(Some(reply)) => (used, Some(self.client.answer(reply))),
            Ok(None) => (used, None),
            Err(_) => (used, Some(self.client.give_up())),
        }
    }

    /// Handles a connection that was lost, or could not be made. For each key, it is made again
    /// once. O(1).
    pub fn lose(&mut self) -> Action
        ensures { Becomes (words.lost self.old.client) self.old.held self.new result }
    {
        self.client.lose()
    }

    /// Handles the end of the time allowed for a key. O(1).
    pub fn time_out(&mut self) -> Action
        ensures { Becomes (words.timeout_outcome self.old.client) self.old.held self.new result }
    {
        self.client.time_out()
    }

    /// Takes the last pending key back, and asks the service what is pending then. Without a
    /// connection nothing is asked, and while a reply is waited for nothing changes. O(pending
    /// keys).
    pub fn erase(&mut self) -> Action
        ensures { Becomes (words.erase_outcome self.old.client) self.old.held self.new result }
    {
        self.client.erase()
    }

    /// Drops the pending keys: the session is reset before the next key. While a reply is waited
    /// for nothing changes. O(1).
    pub fn drop_pending(&mut self)
        ensures { self.new
            ≡ record { client = words.dropped self.old.client; held = self.old.held } }
    {
        self.client.drop_pending();
    }

    /// Closes the session, if there is a connection; the next key opens another one. While a reply
    /// is waited for nothing changes. O(1).
    pub fn close(&mut self) -> Action
        ensures { Becomes (words.close_outcome self.old.client) self.old.held self.new result }
    {
        self.client.close()
    }
}
