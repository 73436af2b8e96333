//! A service and its clients as functions over values: the service that `serve` starts, what `load`
//! and `session` send, what they print for the replies, and what `update` stores, loads or hands over. Nothing is printed here, files are read
//! through a [`ReadOnce`](compose_folder::ReadOnce) alone, and the other side of an exchange is a
//! [`Peer`].
//!
//! ```text
//! let sent = run_load(alloc, &mut files, &arguments)?;
//! let outcome = run_exchange(alloc, &mut connection, &sent)?;
//! print(rt, &outcome)
//! ```
#![tactic(auto)]

mod client;
mod law;
mod merged;
mod peer;
mod serving;
mod status;
mod status_json;
mod taking;

pub use client::{ClientRequests, load_requests, run_exchange, run_load, run_session};
pub use law::law_taking;
pub use merged::is_merged;
pub use peer::Peer;
pub use serving::start_service;
pub use status::{Change, ServiceState, Status, StoredSummary, status_outcome};
pub use taking::{
    Decision, HandOver, Handed, TableFolder, Taking, Wanted, decide_taking, kept_names, take_alone,
    take_running,
};
