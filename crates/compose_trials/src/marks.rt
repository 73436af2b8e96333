//! The marks before and after the tried call.
use std::process;

/// Makes a mark: a call of the system that takes no memory, and that a preloaded library notices.
pub fn mark(rt: &HostRuntime) {
    let _number = process::id(rt.process());
}
