//! The client side of the typing service: the requests of the commands `load` and `session`, and
//! what they print for the replies, as functions over values.
//!
//! A command makes its requests, sends each and waits for its reply, until one is refused.
//! [`report_replies`] returns what is then printed, and how the exchange ended.
//!
//! ```text
//! session 7, open, keys Multi_key apostrophe, ask
//!
//! composing ""
//! composing ""
//! state composing Multi_key apostrophe
//! ```
#![tactic(auto)]

mod asked;
mod refusals;
mod reply_line;

pub use asked::{AskedSession, load_request, session_requests};
pub use refusals::refusal_words;
pub use reply_line::{End, ExchangeReport, report_replies};
