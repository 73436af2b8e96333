//! A client as numbers in C's memory.
ghost use Rattle.std.specs.Prelude.{◌≡◌};
ghost use Rattle.compose_typing_c.specs.Clients as words;

use crate::copies::{keysyms_of, put, put_keysyms};
use crate::stage::{StageRecord, put_stage, stage_of};
use arrayvec::ArrayVec;
use compose_client::ReplyWindow;
use compose_typing::{Client, TypingSession};
use keysym_core::Keysym;

/// A client. All zeros are a client that has typed nothing, and any numbers are a client: nothing
/// is pending if the count is above 31 or one of the pending numbers is not a keysym, and no bytes
/// are held if their count is above 266.
#[repr(C)]
#[derive(Clone, Copy)]
pub struct ClientRecord {
    /// What the client waits for.
    pub stage: StageRecord,
    /// The number of the session.
    pub session: u32,
    /// 1 if the service has confirmed the session.
    pub is_opened: u32,
    /// 1 if exactly the pending keys are pending in the session.
    pub is_current: u32,
    /// The number of pending keys, at most 31.
    pub count: u32,
    /// The numbers of the pending keys, at the front.
    pub pending: [u32; 31],
    /// The number of received bytes that were not read yet, at most 266.
    pub held_count: u32,
    /// The received bytes that were not read yet, at the front.
    pub held: [u8; 266],
    /// Reserved; always 0.
    pub reserved: [u8; 62],
}

/// Returns the pending keys.
fn pending_of(fields: &ClientRecord) -> ArrayVec<Keysym, 31>
    ensures { result.items ≡ (words.client_of fields.now).pending }
{
    if fields.count > 31 {
        return ArrayVec::new();
    }
    let (numbers, _) = fields.pending.split_at(fields.count as usize);
    keysyms_of(numbers)
}

/// Returns the bytes that were received and not read yet.
fn window_of(fields: &ClientRecord) -> ReplyWindow
    ensures { result ≡ words.held_of fields.now }
{
    let mut bytes = ArrayVec::new();
    if fields.held_count <= 266 {
        let (held, _) = fields.held.split_at(fields.held_count as usize);
        bytes.try_extend_from_slice(held).unwrap();
    }
    ReplyWindow::restored(bytes)
}

/// Returns the client that the numbers mean. O(1): at most 31 keys, 266 bytes and a text.
pub fn restored(fields: &ClientRecord) -> TypingSession
    ensures { result ≡ words.typing_of fields.now }
{
    let client = Client::restored(
        fields.session,
        fields.is_opened == 1,
        pending_of(fields),
        fields.is_current != 1,
        stage_of(&fields.stage),
    );
    TypingSession::restored(client, window_of(fields))
}

/// Stores the client as numbers. O(1): at most 31 keys, 266 bytes and a text.
pub fn keep(fields: &mut ClientRecord, typing: &TypingSession)
    ensures { words.typing_of fields.new ≡ typing.now }
{
    let client = typing.client();
    put_stage(&mut fields.stage, client.stage());
    fields.session = client.session();
    fields.is_opened = u32::from(client.is_opened());
    fields.is_current = u32::from(!client.is_stale());
    fields.count = put_keysyms(client.pending(), &mut fields.pending);
    fields.held_count = put(typing.held(), &mut fields.held);
}
