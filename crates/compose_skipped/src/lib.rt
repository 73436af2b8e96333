//! Tables that commands read, without their faulty lines, and a report of these lines.
//!
//! ```text
//! composecheck: home/.XCompose:12:13: no keysym has the name "Multi_kei"
//! composecheck: home/.XCompose:40:1: a modifier list stands here, which is not supported
//! 2 faulty lines left out
//! ```
#![tactic(auto)]

mod kept;
mod report;

pub use kept::kept_table;
pub use report::SkippedReport;
