//! What a client waits for, as numbers in C's memory.
ghost use Rattle.std.specs.Prelude.{◌≡◌, ◌≤◌, true, length};
ghost use Rattle.keysym_core.specs.Keysym.{is_keysym};
ghost use Rattle.compose_typing_c.specs.Clients as words;
ghost use Rattle.compose_typing_c.specs.Numbers as numbers;

use crate::copies::put;
use arrayvec::ArrayString;
use compose_model::Status;
use compose_typing::{KeyAnswer, Stage, Text, Waiting};
use keysym_core::Keysym;
use std::str;

/// The service's answer to a key. A status above 3 means nothing, and a text that is longer than
/// 255 bytes or not UTF-8 is none.
#[repr(C)]
#[derive(Clone, Copy)]
pub struct AnswerRecord {
    /// The status after the key, as the number in `enum xkb_compose_status`, from 0 to 3.
    pub status: u32,
    /// 1 if the key was accepted; modifiers and other ignored keys are not.
    pub accepted: u32,
    /// The number of bytes of the text, at most 255.
    pub text_length: u32,
    /// The text that the key gave, in UTF-8.
    pub text: [u8; 255],
    /// Reserved; always 0.
    pub reserved: u8,
}

/// What a client waits for. Zeros are a client that waits for nothing and has no connection, and so
/// are numbers that mean nothing.
#[repr(C)]
#[derive(Clone, Copy)]
pub struct StageRecord {
    /// The number of replies that come before the one that counts.
    pub left: usize,
    /// 0 no connection, 1 a connection and no key, 2 a key waits for a connection, 3 a key waits
    /// for its session, 4 a key waits for its answer, 5 a key waits for the state of the session, 6
    /// the client waits for the state of the session, 7 for the session's end.
    pub number: u32,
    /// The keysym of the key that waits.
    pub key: u32,
    /// 1 if a connection was lost while the key waited.
    pub is_again: u32,
    /// The answer to the key that waits for the state of the session.
    pub answer: AnswerRecord,
}

/// Returns the status with this number; any number above 3 means `Nothing`. O(1).
fn status_of(number: u32) -> Status
    ensures { result ≡ numbers.status_of number }
{
    match number {
        1 => Status::Composing,
        2 => Status::Composed,
        3 => Status::Cancelled,
        _ => Status::Nothing,
    }
}

/// Returns the number of the status, from 0 to 3. O(1).
fn number_of(status: Status) -> u32
    ensures { result ≡ numbers.status_number status }
{
    match status {
        Status::Nothing => 0,
        Status::Composing => 1,
        Status::Composed => 2,
        Status::Cancelled => 3,
    }
}

/// Returns the text with these bytes, or an empty one if they are not UTF-8. O(bytes).
fn text_of(bytes: &[u8]) -> Text
    requires { length bytes.now ≤ 255 }
    ensures { result ≡ numbers.text_of bytes.now }
{
    match str::from_utf8(bytes) {
        Ok(text) => Text::new(ArrayString::from(text).unwrap()),
        Err(_) => Text::new(ArrayString::new()),
    }
}

/// Returns the answer that the numbers mean. O(its text).
fn answer_of(fields: &AnswerRecord) -> KeyAnswer
    ensures { result ≡ words.answer_of fields.now }
{
    let length = if fields.text_length > 255 {
        0
    } else {
        fields.text_length
    };
    let (bytes, _) = fields.text.split_at(length as usize);
    KeyAnswer {
        status: status_of(fields.status),
        accepted: fields.accepted == 1,
        text: text_of(bytes),
    }
}

/// Returns what a key waits for. O(the text of its answer).
fn key_stage(fields: &StageRecord, key: Keysym) -> Stage
    requires { key ≡ fields.now.key }
    ensures { result ≡ words.key_stage fields.now }
{
    let is_again = fields.is_again == 1;
    let waiting = Waiting { key, is_again };
    match fields.number {
        2 => Stage::Connecting(waiting),
        3 => Stage::Opening(waiting),
        4 => Stage::Feeding(waiting, fields.left),
        5 => Stage::Asking(waiting, answer_of(&fields.answer)),
        _ => Stage::Apart,
    }
}

/// Returns what the client waits for. O(the text of an answer).
pub fn stage_of(fields: &StageRecord) -> Stage
    ensures { result ≡ words.stage_of fields.now }
{
    match fields.number {
        1 => Stage::Ready,
        6 => Stage::Refreshing(fields.left),
        7 => Stage::Closing,
        _ => match Keysym::new(fields.key) {
            Some(key) => key_stage(fields, key),
            None => Stage::Apart,
        },
    }
}

/// Puts the answer into the numbers. O(its text).
fn put_answer(fields: &mut AnswerRecord, answer: &KeyAnswer)
    ensures { words.answer_of fields.new ≡ answer.now }
{
    fields.status = number_of(answer.status);
    fields.accepted = u32::from(answer.accepted);
    fields.text_length = put(answer.text.as_str().as_bytes(), &mut fields.text);
}

/// Puts a key that waits into the numbers, with the number of what it waits for. O(1).
fn put_waiting(fields: &mut StageRecord, number: u32, waiting: Waiting)
    ensures waiting { words.waiting_of fields.new ≡ waiting }
    ensures keysym { is_keysym fields.new.key ≡ true }
    ensures number { fields.new.number ≡ number }
    ensures left { fields.new.left ≡ fields.old.left }
    ensures answer { fields.new.answer ≡ fields.old.answer }
{
    fields.number = number;
    fields.key = waiting.key.value();
    fields.is_again = u32::from(waiting.is_again);
}

/// Puts what the client waits for into the numbers. O(the text of an answer).
pub fn put_stage(fields: &mut StageRecord, stage: &Stage)
    ensures { words.stage_of fields.new ≡ stage.now }
{
    match stage {
        Stage::Apart => fields.number = 0,
        Stage::Ready => fields.number = 1,
        Stage::Connecting(waiting) => put_waiting(fields, 2, *waiting),
        Stage::Opening(waiting) => put_waiting(fields, 3, *waiting),
        Stage::Feeding(waiting, left) => {
            fields.left = *left;
            put_waiting(fields, 4, *waiting);
        }
        Stage::Asking(waiting, answer) => {
            put_answer(&mut fields.answer, answer);
            put_waiting(fields, 5, *waiting);
        }
        Stage::Refreshing(left) => {
            fields.left = *left;
            fields.number = 6;
        }
        Stage::Closing => fields.number = 7,
    }
}
