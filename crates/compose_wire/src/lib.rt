//! Requests to the typing service and its replies, as frames on a stream of bytes.
//!
//! A frame is a kind (one byte), a session (four bytes), the length of a payload (four bytes) and
//! the payload; all numbers are big-endian. A socket splits a stream at any point, and a client may
//! send anything. So a [`Feeder`] takes pieces of any size, and returns each request once its whole
//! frame has arrived, and a fault as soon as the bytes begin with it. The requests do not depend on
//! the pieces ([`law_any_cut`]). [`put_reply`] returns the bytes of a reply.
//!
//! ```text
//! 01 00000007 00000000            open session 7
//! 02 00000007 00000004 0000fe50   type the keysym 0xfe50 in it
//! 82 00000007 00000002 01 01      the reply: composing, accepted, no text
//! ```
#![tactic(auto)]

mod fault;
mod feeder;
mod frame;
mod laws;
mod reply;
mod request;

pub use fault::WireFault;
pub use feeder::Feeder;
pub use laws::{law_any_cut, law_next_frame, law_one_frame, law_one_stream};
pub use reply::{Reply, ReplyBody, put_reply};
pub use request::{Body, Payload, Request};
