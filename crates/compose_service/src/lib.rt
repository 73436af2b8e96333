//! The typing service: sessions over one current table, which may be changed while they type.
//!
//! A service answers requests one after another. Every answer is one step of the machine in
//! `compose_machine`, which defines what a service is: its current table, and its sessions in the
//! order in which they were opened. What is stored differs from the machine in one way: a load
//! touches no session. Instead a session is refed by the current table when a request names it.
//!
//! ```text
//! let mut service: Service<PackedTable> =
//!     Service::start(alloc, names, repertoire, sources, rule, &certificate)?;
//! let mut reply = service.answer(alloc, &Request { session: 7, body: Body::Open });
//! // a reply may be kept, and filled again for each request
//! service.answer_into(alloc, &Request { session: 7, body: Body::Key(0x65) }, &mut reply);
//! ```
#![tactic(auto)]

mod allowed;
mod refusal;
mod service;
mod sessions;
mod stream;

pub use compose_machine::{
    law_isolation, law_kept_texts, law_late_service, law_loads, law_run_append, law_run_history,
};
pub use refusal::RefusalCode;
pub use service::{Candidate, RunFault, Service, StartFault};
