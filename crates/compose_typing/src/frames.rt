//! A client's requests as bytes.
ghost use Rattle.std.specs.Prelude.{◌≡◌, ◌+◌, ◌≤◌, ◌++◌, ◌∷◌, [], length, if◌then◌else◌};
ghost use Rattle.compose_wire.specs.Messages as words;
ghost use Rattle.compose_wire.specs.Frames.{frame, frame_of};
ghost use Rattle.compose_typing.specs.TypingSession.{sent, typed_anew};

use crate::action::Frames;
use arrayvec::ArrayVec;
use keysym_core::Keysym;

impl Frames {
    /// Makes an empty list of bytes. O(1).
    fn new() -> Frames
        ensures { result ≡ [] }
    {
        Frames {
            bytes: ArrayVec::new(),
        }
    }

    /// Appends some bytes. O(their number).
    fn append(&mut self, more: &[u8])
        requires { length self.old + length more.now ≤ 448 }
        ensures { self.new ≡ self.old ++ more.now }
    {
        self.bytes.try_extend_from_slice(more).unwrap();
    }

    /// Appends a frame of this kind. O(payload).
    fn push(&mut self, kind: u8, session: u32, payload: &[u8])
        requires few { length payload.now ≤ 4 }
        requires room { length self.old + 9 + length payload.now ≤ 448 }
        ensures value { self.new ≡ self.old ++ frame_of kind session payload.now }
        ensures length { length self.new ≡ length self.old + 9 + length payload.now }
    {
        self.append(&[kind]);
        self.append(&session.to_be_bytes());
        self.append(&(payload.len() as u32).to_be_bytes());
        self.append(payload);
    }

    /// Appends a request to type the key. O(1).
    fn push_key(&mut self, session: u32, key: Keysym)
        requires { length self.old + 13 ≤ 448 }
        ensures value { self.new ≡ self.old ++ frame (record { session = session; body = words.key key }) }
        ensures length { length self.new ≡ length self.old + 13 }
    {
        self.push(2, session, &key.value().to_be_bytes());
    }
}

/// Returns the request that opens the session. O(1).
pub(crate) fn open_frames(session: u32) -> Frames
    ensures { result ≡ sent session (words.open_session ∷ []) }
{
    let mut frames = Frames::new();
    frames.push(1, session, &[]);
    frames
}

/// Returns the request that closes the session. O(1).
pub(crate) fn close_frames(session: u32) -> Frames
    ensures { result ≡ sent session (words.close ∷ []) }
{
    let mut frames = Frames::new();
    frames.push(4, session, &[]);
    frames
}

/// Returns the requests after which exactly these keys are pending in the session. O(keys).
fn frames_anew(session: u32, pending: &[Keysym]) -> Frames
    requires { length pending.now ≤ 31 }
    ensures value { result ≡ sent session (typed_anew pending.now) }
    ensures few { length result ≤ 412 }
{
    let mut frames = Frames::new();
    frames.push(3, session, &[]);
    for index in 0..pending.len() {
        frames.push_key(session, pending[index]);
    }
    frames
}

/// Returns the requests that make exactly these keys pending in the session, and ask for its state.
/// O(keys).
pub(crate) fn refresh_frames(session: u32, pending: &[Keysym]) -> Frames
    requires { length pending.now ≤ 31 }
    ensures { result ≡ sent session (typed_anew pending.now ++ words.ask ∷ []) }
{
    let mut frames = frames_anew(session, pending);
    frames.push(6, session, &[]);
    frames
}

/// Returns the requests for a key. If the session is stale, they begin with the requests that make
/// these keys pending in it again. O(pending keys).
pub(crate) fn key_frames(session: u32, is_stale: bool, pending: &[Keysym], key: Keysym) -> Frames
    requires { length pending.now ≤ 31 }
    ensures { result ≡ sent session
        ((if is_stale then typed_anew pending.now else []) ++ words.key key ∷ words.ask ∷ []) }
{
    let mut frames = if is_stale {
        frames_anew(session, pending)
    } else {
        Frames::new()
    };
    frames.push_key(session, key);
    frames.push(6, session, &[]);
    frames
}
