//! A client of the typing service: requests written as frames, and replies read from a stream of
//! bytes.
//!
//! [`put_request`] returns the bytes of a request. A [`ReplyFeeder`] takes the bytes that come
//! back, in pieces of any size, and returns each reply once its whole frame has arrived, and a
//! fault as soon as the bytes begin with it.
//!
//! ```text
//! 02 00000007 00000004 0000ff20   put_request: type the keysym 0xff20 in session 7
//! 82 00000007 00000002 01 01      next_reply: composing, the key was accepted, no text
//! ```
#![tactic(auto)]

mod answer;
mod fault;
mod feeder;
mod laws;
mod reply;
mod request;
mod window;

pub use fault::{ReplyFault, RequestFault};
pub use feeder::ReplyFeeder;
pub use laws::{law_one_reply, law_replies_fit, law_reply_fault};
pub use request::put_request;
pub use window::ReplyWindow;
