//! What is printed for replies.
ghost use Rattle.std.specs.Prelude.{◌≡◌, ◌++◌, IfOk, string_bytes};
ghost use Rattle.compose_state.specs.Answers as state_words;
ghost use Rattle.compose_session.specs.ReplyLine.{reply_line_of, reply_line, body_report, after, course_of, report_of, reported, key_line, state_line, loaded_line, refused_line, pending_names};

use crate::refusals::refusal_words;
use compose_lex::quote;
use compose_model::Status;
use compose_wire::{Body, Reply, ReplyBody, Request};
use keysym_core::{Keysym, Names};
use std::alloc::{AllocError, Global};

/// How an exchange ended.
#[derive(Clone, Copy, Debug, PartialEq, Eq, Drop)]
pub enum End {
    /// Each request was answered, and none was refused.
    Answered,
    /// A request was refused.
    Refused,
    /// A request got no reply.
    Closed,
    /// A reply does not belong to its request.
    Unexpected,
}

/// What is printed for an exchange, and how it ended.
#[derive(Debug, PartialEq, Eq, Drop)]
pub struct ExchangeReport {
    /// The lines printed for the replies, each with its newline.
    pub text: String,
    /// How the exchange ended.
    pub end: End,
}

/// What is printed for one reply.
#[derive(Drop)]
enum ReplyLine {
    /// This line; the exchange goes on.
    Line(String),
    /// The line of a refusal, which ends the exchange.
    Refusal(String),
    /// Nothing: the reply does not belong to the request.
    Unexpected,
}

/// Returns what is printed for the replies to these requests, in order: for a key the line that
/// `type` prints, `state` with the status and the pending keys, `loaded` with the number of loads,
/// or the first refusal in words, which ends the exchange. O(bytes of the texts + look-up of the
/// names).
/// Errors: `AllocError` if memory runs out.
pub fn report_replies(
    alloc: Global,
    names: &Names,
    requests: &[Request],
    replies: &[Reply],
) -> Result<ExchangeReport, AllocError>
    ensures { IfOk result
        (λ report. report_of report ≡ reported names.now requests.now replies.now) }
{
    let mut text = String::new(alloc);
    for index in 0..requests.len() {
        let Some(reply) = replies.get(index) else {
            let end = End::Closed;
            return Ok(ExchangeReport { text, end });
        };
        let answered = tell(alloc, names, &requests[index], reply)?;
        if let Some(end) = push_reply_line(&mut text, &answered)? {
            return Ok(ExchangeReport { text, end });
        }
    }
    let end = End::Answered;
    Ok(ExchangeReport { text, end })
}

/// Appends the line of a reply to the text. Returns the end of the exchange, if this reply ends it.
fn push_reply_line(text: &mut String, answered: &ReplyLine) -> Result<Option<End>, AllocError>
    ensures { IfOk result
        (λ end. course_of (string_bytes text.new) end
        ≡ after (string_bytes text.old) (reply_line_of answered.now)) }
{
    match answered {
        ReplyLine::Line(line) => {
            text.push_str(line)?;
            Ok(None)
        }
        ReplyLine::Refusal(line) => {
            text.push_str(line)?;
            Ok(Some(End::Refused))
        }
        ReplyLine::Unexpected => Ok(Some(End::Unexpected)),
    }
}

/// Returns what is printed for a reply to a request. A reply of another session is unexpected.
fn tell(
    alloc: Global,
    names: &Names,
    request: &Request,
    reply: &Reply,
) -> Result<ReplyLine, AllocError>
    ensures { IfOk result (λ answer. reply_line_of answer ≡ reply_line names.now request.now reply.now) }
{
    if request.session != reply.session {
        return Ok(ReplyLine::Unexpected);
    }
    answer_report(alloc, names, &request.body, &reply.answer)
}

/// Returns what is printed for an answer.
fn answer_report(
    alloc: Global,
    names: &Names,
    body: &Body,
    answer: &ReplyBody,
) -> Result<ReplyLine, AllocError>
    ensures { IfOk result (λ answered. reply_line_of answered ≡ body_report names.now body.now answer.now) }
{
    match (body, answer) {
        (_, ReplyBody::Refused(code)) => Ok(ReplyLine::Refusal(refusal_report(alloc, *code)?)),
        (Body::Open, ReplyBody::Opened)
        | (Body::Reset, ReplyBody::WasReset)
        | (Body::Close, ReplyBody::Closed) => Ok(ReplyLine::Line(String::new(alloc))),
        (Body::Key(_), ReplyBody::Fed(status, accepted, text)) => {
            Ok(ReplyLine::Line(typed_key_line(alloc, *status, *accepted, text.as_str())?))
        }
        (Body::Ask, ReplyBody::State(status, pending)) => {
            Ok(ReplyLine::Line(state_report(alloc, names, *status, pending.as_slice())?))
        }
        (Body::Load(_) | Body::LoadLongest(_), ReplyBody::Loaded(count)) => {
            Ok(ReplyLine::Line(load_report(alloc, *count)?))
        }
        _ => Ok(ReplyLine::Unexpected),
    }
}

/// Returns the line of a refusal.
fn refusal_report(alloc: Global, code: u16) -> Result<String, AllocError>
    ensures { IfOk result (λ line. string_bytes line ≡ refused_line code) }
{
    let why = refusal_words(code);
    format!(in alloc; "refused: {why}\n")
}

/// Returns the line of a load.
fn load_report(alloc: Global, count: u64) -> Result<String, AllocError>
    ensures { IfOk result (λ line. string_bytes line ≡ loaded_line count) }
{
    format!(in alloc; "loaded {count}\n")
}

/// Returns the word of a status.
fn status_word(status: Status) -> &'static str
    ensures { result.now ≡ state_words.status_word status }
{
    match status {
        Status::Nothing => "nothing",
        Status::Composing => "composing",
        Status::Composed => "composed",
        Status::Cancelled => "cancelled",
    }
}

/// Returns the line of a key, as `type` prints it.
fn typed_key_line(
    alloc: Global,
    status: Status,
    accepted: bool,
    text: &str,
) -> Result<String, AllocError>
    ensures { IfOk result (λ line. string_bytes line ≡ key_line status accepted text.now) }
{
    let word = if accepted {
        status_word(status)
    } else {
        "ignored"
    };
    let Ok(quoted) = quote(alloc, text) else {
        return Err(AllocError);
    };
    format!(in alloc; "{word} {quoted}\n")
}

/// Returns the line of a state: the word of its status, and the names of the pending keys.
fn state_report(
    alloc: Global,
    names: &Names,
    status: Status,
    pending: &[Keysym],
) -> Result<String, AllocError>
    ensures { IfOk result (λ line. string_bytes line ≡ state_line names.now status pending.now) }
{
    let word = status_word(status);
    let mut line = format!(in alloc; "state {word}")?;
    push_names(alloc, &mut line, names, pending)?;
    line.push('\n')?;
    Ok(line)
}

/// Appends the names of the keysyms to the line, each after a blank.
fn push_names(
    alloc: Global,
    line: &mut String,
    names: &Names,
    keysyms: &[Keysym],
) -> Result<(), AllocError>
    ensures { IfOk result
        (λ _. string_bytes line.new
        ≡ string_bytes line.old ++ pending_names names.now keysyms.now) }
{
    for keysym in keysyms {
        let Ok(name) = names.print(alloc, *keysym) else {
            return Err(AllocError);
        };
        line.push(' ')?;
        line.push_str(&name)?;
    }
    Ok(())
}
