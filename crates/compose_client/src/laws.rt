//! The laws of the frames of replies.
ghost use Rattle.std.specs.Prelude.{◌≡◌, ◌+◌, ◌≤◌, ◌++◌, List, ℕ, length, Some, None};
ghost use Rattle.compose_wire.specs.Messages as words;
ghost use Rattle.compose_wire.specs.Messages.{Reply as ReplyValue};
ghost use Rattle.compose_wire.specs.Replies.{HasAnswerValue, HasReplyValue};
ghost use Rattle.compose_wire.specs.Frames.{reply_bytes, Fault, stated_size};
ghost use Rattle.compose_client.specs.Replies.{AreKeysyms, AnswerFits, ReplyFits, BeginsWithReply, head_fault, HasBadPayload};

use compose_wire::{Reply, ReplyBody};
use keysym_core::Keysym;

/// No frame of a reply is a prefix of another one, so no two replies begin the same bytes.
pub fn law_one_reply()
    ensures { (r s : ReplyValue) (x y : List ℕ) → ReplyFits r → ReplyFits s
        → reply_bytes r ++ x ≡ reply_bytes s ++ y → (r ≡ s) × (x ≡ y) }
{}

/// The frame of a reply has no fault in its head, and is as long as its head requires. A fault
/// stays a fault, so bytes that begin with one can't become a reply, whatever follows.
pub fn law_reply_fault()
    ensures no_fault { (r : ReplyValue) (x : List ℕ) → ReplyFits r
        → head_fault (reply_bytes r ++ x) ≡ None }
    ensures whole { (bytes : List ℕ) → BeginsWithReply bytes → 9 + stated_size bytes ≤ length bytes }
    ensures stays { (bytes more : List ℕ) (fault : Fault) → head_fault bytes ≡ Some fault
        → head_fault (bytes ++ more) ≡ Some fault }
    ensures never { (bytes more : List ℕ) (fault : Fault) → head_fault bytes ≡ Some fault
        → BeginsWithReply (bytes ++ more) → ⊥ }
    ensures payload_stays { (bytes more : List ℕ) → HasBadPayload bytes
        → HasBadPayload (bytes ++ more) }
{}

/// Every reply fits into a frame, so `next_reply` returns what `put_reply` wrote. O(pending
/// keysyms).
pub fn law_replies_fit(reply: &Reply)
    ensures { (value : ReplyValue) → HasReplyValue reply.now value → ReplyFits value }
{
    let _session = reply.session;
    answer_fits(&reply.answer);
}

/// Every answer fits into a frame.
fn answer_fits(answer: &ReplyBody)
    ensures { (value : words.ReplyBody) → HasAnswerValue answer.now value → AnswerFits value }
{
    match answer {
        ReplyBody::Fed(_, _, text) => {
            let _text = text.as_str();
        }
        ReplyBody::Loaded(count) => {
            let _count = *count;
        }
        ReplyBody::State(_, pending) => are_keysyms(pending.as_slice()),
        _ => {}
    }
}

/// The numbers of keysyms are those of keysyms.
fn are_keysyms(keysyms: &[Keysym])
    ensures { AreKeysyms keysyms.now }
{
    for keysym in keysyms {
        let _value = keysym.value();
    }
}
