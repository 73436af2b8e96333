//! What an input method does after an event, as numbers in C's memory.
ghost use Rattle.std.specs.Prelude.{◌≡◌};
ghost use Rattle.compose_typing_c.specs.Actions as words;

use crate::copies::put;
use compose_typing::{Action, KeyVerdict};

/// What an input method does after an event.
#[repr(C)]
#[derive(Clone, Copy)]
pub struct ActionRecord {
    /// 0 nothing, 1 it sends the bytes, 2 it connects to the service and closes the connection that
    /// it had, 3 it does with the key that waited what the verdict says, 4 it closes the connection
    /// and passes the key that waited, 5 it closes the connection.
    pub kind: u32,
    /// 0 the application gets the key, 1 the application gets nothing, 2 it gets the text in place
    /// of the key.
    pub verdict: u32,
    /// The number of bytes of the text, at most 255.
    pub text_length: u32,
    /// The number of bytes to send, at most 448.
    pub byte_count: u32,
    /// The text, in UTF-8, at the front.
    pub text: [u8; 255],
    /// The bytes to send, at the front.
    pub bytes: [u8; 448],
    /// Reserved; always 0.
    pub reserved: [u8; 33],
}

/// Puts the verdict into the numbers. O(its text).
fn put_verdict(fields: &mut ActionRecord, verdict: &KeyVerdict)
    ensures verdict { words.SaysVerdict fields.new verdict.now }
    ensures kind { fields.new.kind ≡ fields.old.kind }
{
    match verdict {
        KeyVerdict::Pass => fields.verdict = 0,
        KeyVerdict::Take => fields.verdict = 1,
        KeyVerdict::Commit(text) => {
            fields.verdict = 2;
            fields.text_length = put(text.as_str().as_bytes(), &mut fields.text);
        }
    }
}

/// Puts the action into the numbers. O(its bytes).
pub fn put_action(fields: &mut ActionRecord, action: &Action)
    ensures { words.Says fields.new action.now }
{
    match action {
        Action::Wait => fields.kind = 0,
        Action::Send(frames) => {
            fields.kind = 1;
            fields.byte_count = put(frames.as_slice(), &mut fields.bytes);
        }
        Action::Connect => fields.kind = 2,
        Action::Tell(verdict) => {
            fields.kind = 3;
            put_verdict(fields, verdict);
        }
        Action::Abandon => fields.kind = 4,
        Action::Close => fields.kind = 5,
    }
}
