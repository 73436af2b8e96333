//! A client: what it does at each event.
ghost use Rattle.std.specs.Prelude.{◌≡◌, ◌≤◌, ◌<◌, [], true, length};
ghost use Rattle.compose_typing.specs.declared.stage.Stage.TheVariants as Stage;
ghost use Rattle.compose_wire.specs.Messages as wire;
ghost use Rattle.compose_wire.specs.Replies.{HasReplyValue, HasAnswerValue};
ghost use Rattle.compose_typing.specs.TypingSession as words;

use crate::action::{Action, KeyVerdict, Text};
use crate::frames::{close_frames, key_frames, open_frames, refresh_frames};
use crate::stage::{KeyAnswer, Stage, Waiting};
use arrayvec::ArrayVec;
use compose_model::Status;
use compose_wire::{Reply, ReplyBody};
use keysym_core::Keysym;
use std::marker::Model;
use std::mem;

/// The code with which the service refuses an Open if a session with this number is open.
const SESSION_TAKEN: u16 = 1;

/// The code with which the service refuses a request of a session that is not open.
const NO_SESSION: u16 = 2;

/// A client of the typing service, with one session.
#[derive(Drop)]
pub struct Client {
    session: u32,
    is_opened: bool,
    pending: ArrayVec<Keysym, 31>,
    is_stale: bool,
    stage: Stage,
}

impl Model for Client {
    ghost use Rattle.std.specs.Prelude.{◌≤◌, length};
    ghost use Rattle.compose_typing.specs.TypingSession as words;

    ghost Value = { words.Client };

    ghost view = { λ c. record { session = c.session; is_opened = c.is_opened; pending = c.pending.items; is_stale = c.is_stale; stage = c.stage } };

    ghost invariant = { λ c. length c.pending.items ≤ 31 };
}

/// Whether a toolkit starts a compose sequence of its own at this key: at dead keys and at
/// Multi_key. O(1).
fn begins_sequences(key: Keysym) -> bool
    ensures { result ≡ words.begins_sequences key }
{
    matches!(key.value(), 0xfe50..=0xfe93 | 0xff20)
}

/// Returns the verdict on a key, from what the service answered. O(1).
fn verdict_of(key: Keysym, heard: KeyAnswer) -> KeyVerdict
    ensures { result ≡ words.verdict_on key heard }
{
    if !heard.accepted {
        return KeyVerdict::Pass;
    }
    match heard.status {
        Status::Composing | Status::Cancelled => KeyVerdict::Take,
        Status::Composed => KeyVerdict::Commit(heard.text),
        Status::Nothing => {
            if heard.text.as_str().is_empty() && begins_sequences(key) {
                return KeyVerdict::Take;
            }
            KeyVerdict::Pass
        }
    }
}

impl Client {
    /// Makes a client that has typed nothing. O(1).
    pub fn new() -> Client
        ensures { result ≡ words.start }
    {
        Client {
            session: 0,
            is_opened: false,
            pending: ArrayVec::new(),
            is_stale: true,
            stage: Stage::Apart,
        }
    }

    /// Returns the pending keys, at most 31: what an input method shows as preedit. O(1).
    pub fn pending(&self) -> &[Keysym]
        ensures value { result.now ≡ self.now.pending }
        ensures few { length result.now ≤ 31 }
    {
        self.pending.as_slice()
    }

    /// Returns the client with this session, these pending keys and what it waits for. O(1).
    pub fn restored(
        session: u32,
        is_opened: bool,
        pending: ArrayVec<Keysym, 31>,
        is_stale: bool,
        stage: Stage,
    ) -> Client
        ensures { result ≡ record {
          session = session;
          is_opened = is_opened;
          pending = pending.items;
          is_stale = is_stale;
          stage = stage;
        } }
    {
        Client {
            session,
            is_opened,
            pending,
            is_stale,
            stage,
        }
    }

    /// Returns the number of the session. O(1).
    pub fn session(&self) -> u32
        ensures { result ≡ self.now.session }
    {
        self.session
    }

    /// Whether the service has confirmed the session. O(1).
    pub fn is_opened(&self) -> bool
        ensures { result ≡ self.now.is_opened }
    {
        self.is_opened
    }

    /// Whether a Reset and the pending keys have to be sent before the next key. O(1).
    pub fn is_stale(&self) -> bool
        ensures { result ≡ self.now.is_stale }
    {
        self.is_stale
    }

    /// Returns what the client waits for. O(1).
    pub fn stage(&self) -> &Stage
        ensures { result.now ≡ self.now.stage }
    {
        &self.stage
    }

    /// Whether a key waits for its verdict. O(1).
    pub fn waits(&self) -> bool
        ensures { result ≡ words.waits self.now.stage }
    {
        self.stage.waits()
    }

    /// Sends the requests for the key. O(pending keys).
    fn ask(&mut self, waiting: Waiting) -> Action
        ensures { record { client = self.new; action = result } ≡ words.asks self.old waiting }
    {
        let pending = self.pending.as_slice();
        let frames = key_frames(self.session, self.is_stale, pending, waiting.key);
        let passed_over = if self.is_stale { pending.len() + 1 } else { 0 };
        self.is_stale = true;
        self.stage = Stage::Feeding(waiting, passed_over);
        Action::Send(frames)
    }

    /// Forgets the pending keys. O(1).
    fn forget(&mut self)
        ensures { self.new ≡ record self.old { pending = []; is_stale = true } }
    {
        self.pending.clear();
        self.is_stale = true;
    }

    /// Gives up the connection, and drops the pending keys. O(1).
    fn abandon(&mut self) -> Action
        ensures { record { client = self.new; action = result } ≡ words.abandon_outcome self.old }
    {
        self.forget();
        self.stage = Stage::Apart;
        Action::Abandon
    }

    /// Gives up the connection. O(1).
    pub(crate) fn give_up(&mut self) -> Action
        ensures { record { client = self.new; action = result } ≡ words.give_up_outcome self.old }
    {
        if self.stage.waits() {
            return self.abandon();
        }
        self.is_stale = true;
        self.stage = Stage::Apart;
        Action::Close
    }

    /// Handles a key press. A key that is pressed while another one waits passes at once. O(pending
    /// keys).
    pub fn press(&mut self, key: Keysym) -> Action
        ensures { record { client = self.new; action = result } ≡ words.press_outcome self.old key }
    {
        let is_again = false;
        let waiting = Waiting { key, is_again };
        match self.stage {
            Stage::Apart => {
                self.stage = Stage::Connecting(waiting);
                Action::Connect
            }
            Stage::Ready => self.ask(waiting),
            _ => Action::Tell(KeyVerdict::Pass),
        }
    }

    /// Handles a new connection; it is given up if no key waits for it. The session gets this
    /// number, ideally a random one each time, unless it was opened before. O(1).
    pub fn connected(&mut self, number: u32) -> Action
        ensures { record { client = self.new; action = result } ≡ words.connected self.old number }
    {
        let Stage::Connecting(waiting) = self.stage else {
            return self.give_up();
        };
        self.session = if self.is_opened { self.session } else { number };
        self.stage = Stage::Opening(waiting);
        Action::Send(open_frames(self.session))
    }

    /// Handles the reply to Open. O(pending keys).
    fn answer_open(&mut self, waiting: Waiting, answer: &ReplyBody) -> Action
        ensures { (value : wire.ReplyBody) → HasAnswerValue answer.now value
            → record { client = self.new; action = result }
            ≡ words.opened_at self.old waiting value }
    {
        match answer {
            ReplyBody::Opened => {
                self.is_opened = true;
                self.is_stale = true;
                self.ask(waiting)
            }
            ReplyBody::Refused(SESSION_TAKEN) if self.is_opened => {
                self.is_stale = true;
                self.ask(waiting)
            }
            _ => self.abandon(),
        }
    }

    /// Handles a reply to Reset or to a key that is typed again, when this number of them is still
    /// to come. O(1).
    fn pass_over(&mut self, waiting: Waiting, left: usize, answer: &ReplyBody) -> Action
        requires { 0 < left }
        ensures { (value : wire.ReplyBody) → HasAnswerValue answer.now value
            → record { client = self.new; action = result }
            ≡ words.fed_at self.old waiting left value }
    {
        match answer {
            ReplyBody::Fed(_, _, _) | ReplyBody::WasReset => {
                self.is_stale = true;
                self.stage = Stage::Feeding(waiting, left - 1);
                Action::Wait
            }
            ReplyBody::Refused(code) => self.lose_session(waiting, *code),
            _ => self.abandon(),
        }
    }

    /// Handles a reply to Reset or to a key, when this number of replies comes before the reply to
    /// the key that waits. O(1).
    fn answer_key(&mut self, waiting: Waiting, left: usize, answer: ReplyBody) -> Action
        ensures { (value : wire.ReplyBody) → HasAnswerValue answer value
            → record { client = self.new; action = result }
            ≡ words.fed_at self.old waiting left value }
    {
        if left > 0 {
            return self.pass_over(waiting, left, &answer);
        }
        match answer {
            ReplyBody::Fed(status, accepted, text) => {
                let text = Text::new(text);
                let heard = KeyAnswer {
                    status,
                    accepted,
                    text,
                };
                self.is_stale = true;
                self.stage = Stage::Asking(waiting, heard);
                Action::Wait
            }
            ReplyBody::Refused(code) => self.lose_session(waiting, code),
            _ => self.abandon(),
        }
    }

    /// Handles a refusal with this code while the key waits. A session that another client closed
    /// is opened again, like one whose connection was lost. O(1).
    fn lose_session(&mut self, waiting: Waiting, code: u16) -> Action
        ensures { (why : wire.Refusal) → wire.code why ≡ code
            → record { client = self.new; action = result } ≡ words.refused_at self.old waiting why }
    {
        if code == NO_SESSION {
            return self.lose_with(waiting);
        }
        self.abandon()
    }

    /// Takes the reported state of the session. O(1).
    fn take_state(&mut self, status: Status, pending: ArrayVec<Keysym, 31>)
        ensures { self.new
            ≡ record self.old {
              pending = pending.items;
              is_stale = words.is_cancelled status;
              stage = Stage.Ready;
            } }
    {
        // The contract of this call says that there are at most 31.
        let _ = pending.len();
        self.pending = pending;
        self.is_stale = status == Status::Cancelled;
        self.stage = Stage::Ready;
    }

    /// Handles the reply to Ask. O(1).
    fn answer_ask(&mut self, waiting: Waiting, heard: KeyAnswer, answer: ReplyBody) -> Action
        ensures { (value : wire.ReplyBody) → HasAnswerValue answer value
            → record { client = self.new; action = result }
            ≡ words.asked_at self.old waiting heard value }
    {
        match answer {
            ReplyBody::State(status, pending) => {
                self.take_state(status, pending);
                Action::Tell(verdict_of(waiting.key, heard))
            }
            ReplyBody::Refused(code) => self.lose_session(waiting, code),
            _ => self.abandon(),
        }
    }

    /// Handles a reply while no key waits, when this number of replies comes before the reply to
    /// Ask. O(1).
    fn answer_refresh(&mut self, left: usize, answer: ReplyBody) -> Action
        ensures { (value : wire.ReplyBody) → HasAnswerValue answer value
            → record { client = self.new; action = result }
            ≡ words.refreshed_at self.old left value }
    {
        match answer {
            ReplyBody::Fed(_, _, _) | ReplyBody::WasReset if left > 0 => {
                self.stage = Stage::Refreshing(left - 1);
                Action::Wait
            }
            ReplyBody::State(status, pending) if left == 0 => {
                self.take_state(status, pending);
                Action::Wait
            }
            _ => self.give_up(),
        }
    }

    /// Handles the reply to Close. O(1).
    fn answer_close(&mut self, answer: &ReplyBody) -> Action
        ensures { (value : wire.ReplyBody) → HasAnswerValue answer.now value
            → record { client = self.new; action = result } ≡ words.closed_at self.old value }
    {
        match answer {
            ReplyBody::Closed | ReplyBody::Refused(_) => {
                self.stage = Stage::Apart;
                Action::Wait
            }
            _ => self.give_up(),
        }
    }

    /// Handles a reply. A reply that belongs to no request gives up the connection. O(pending
    /// keys).
    pub fn answer(&mut self, reply: Reply) -> Action
        ensures { (value : wire.Reply) → HasReplyValue reply value
            → record { client = self.new; action = result } ≡ words.answered self.old value }
    {
        if reply.session != self.session {
            return self.give_up();
        }
        match mem::replace(&mut self.stage, Stage::Apart) {
            Stage::Opening(waiting) => self.answer_open(waiting, &reply.answer),
            Stage::Feeding(waiting, left) => self.answer_key(waiting, left, reply.answer),
            Stage::Asking(waiting, heard) => self.answer_ask(waiting, heard, reply.answer),
            Stage::Refreshing(left) => self.answer_refresh(left, reply.answer),
            Stage::Closing => self.answer_close(&reply.answer),
            Stage::Connecting(_) => self.abandon(),
            Stage::Apart | Stage::Ready => self.give_up(),
        }
    }

    /// Handles a connection that was lost, or could not be made. For each key, it is made again
    /// once. O(1).
    pub fn lose(&mut self) -> Action
        ensures { record { client = self.new; action = result } ≡ words.lost self.old }
    {
        match mem::replace(&mut self.stage, Stage::Apart) {
            Stage::Apart => Action::Wait,
            Stage::Ready | Stage::Refreshing(_) | Stage::Closing => {
                self.is_stale = true;
                Action::Wait
            }
            Stage::Connecting(_) => self.abandon(),
            Stage::Opening(waiting) => self.lose_with(waiting),
            Stage::Feeding(waiting, _) => self.lose_with(waiting),
            Stage::Asking(waiting, _) => self.lose_with(waiting),
        }
    }

    /// Handles a connection that was lost while this key waited for a reply. O(1).
    fn lose_with(&mut self, waiting: Waiting) -> Action
        ensures { record { client = self.new; action = result } ≡ words.lost_with self.old waiting }
    {
        if waiting.is_again {
            return self.abandon();
        }
        let key = waiting.key;
        let is_again = true;
        self.is_stale = true;
        self.stage = Stage::Connecting(Waiting { key, is_again });
        Action::Connect
    }

    /// Handles the end of the time allowed for a key. O(1).
    pub fn time_out(&mut self) -> Action
        ensures { record { client = self.new; action = result } ≡ words.timeout_outcome self.old }
    {
        if self.stage.is_idle() {
            return Action::Wait;
        }
        self.give_up()
    }

    /// Takes the last pending key back, and asks the service what is pending then. Without a
    /// connection nothing is asked, and while a reply is waited for nothing changes. O(pending
    /// keys).
    pub fn erase(&mut self) -> Action
        ensures { record { client = self.new; action = result } ≡ words.erase_outcome self.old }
    {
        if !self.stage.is_idle() {
            return Action::Wait;
        }
        self.pending.truncate(self.pending.len().saturating_sub(1));
        self.is_stale = true;
        if !matches!(self.stage, Stage::Ready) {
            return Action::Wait;
        }
        let pending = self.pending.as_slice();
        let frames = refresh_frames(self.session, pending);
        self.stage = Stage::Refreshing(pending.len() + 1);
        Action::Send(frames)
    }

    /// Drops the pending keys: the session is reset before the next key. While a reply is waited
    /// for nothing changes. O(1).
    pub fn drop_pending(&mut self)
        ensures { self.new ≡ words.dropped self.old }
    {
        if !self.stage.is_idle() {
            return;
        }
        self.forget();
    }

    /// Closes the session, if there is a connection; the next key opens another one. While a reply
    /// is waited for nothing changes. O(1).
    pub fn close(&mut self) -> Action
        ensures { record { client = self.new; action = result } ≡ words.close_outcome self.old }
    {
        if !self.stage.is_idle() {
            return Action::Wait;
        }
        self.forget();
        self.is_opened = false;
        if !matches!(self.stage, Stage::Ready) {
            return Action::Wait;
        }
        self.stage = Stage::Closing;
        Action::Send(close_frames(self.session))
    }
}
