//! The checker of migrations from an old compose table to a new one.
//!
//! A certificate has pairs of an old and a new node, a bound, a typing for each character that
//! people need, and the fresh keysyms, for which nothing is promised. [`check`] checks the
//! conditions on it in a fixed order, without allocating memory. Its verdict is yes, or no with the
//! first condition that fails. Its contract is the promise to people who type with the old table:
//! after a yes, the new table gives the same text for what they type, key by key.
//!
//! An example: the old table is `<a> : "a"`, and the new one is empty. The certificate with the
//! bound 0, the pair `0 0` and no typings is valid, since at rest the key `a` gives its own text.
//! If the new table has `<b> <c> : "x"`, the verdict is `5 NewStart keysym=0x62`: the key `b`,
//! which gave its text at once before, would now wait for another key.
//!
//! Nothing here makes certificates, and this crate depends on nothing that makes them.
#![tactic(auto)]

mod bound;
mod edges;
mod input;
mod landing;
mod pairs;
mod starts;
mod typings;
mod verdict;

pub use compose_fresh::{CheckFault, check_fresh};
pub use input::{CheckInput, CheckParts, InputFault, check_bytes};
pub use verdict::{Verdict, check, law_conditions};
