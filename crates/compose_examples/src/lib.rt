//! Worked examples, as tests: how texts are read, tables in both forms, the bytes of requests and
//! replies, and what no case of tests/cases can show of the commands, such as an old and a new
//! table of different forms, or faults that no command prints. For example, if the old table has
//! `<a> <b> : "x"` and the new one `<a> <b> : "y"`, the shortest list of keys on which they differ
//! is a, b.
//!
//! An example is a row of a table: the arguments of a function of the libraries, and the expected
//! result, which is written by hand and never taken from the program. Most functions here call one
//! function of the libraries, so that its contract stays out of the proofs of the others.
#![tactic(auto)]

#[cfg(test)]
mod arrays;
#[cfg(test)]
mod borrowing;
#[cfg(test)]
mod certificates;
#[cfg(test)]
mod checking;
#[cfg(test)]
mod differing;
#[cfg(test)]
mod drafting;
#[cfg(test)]
mod exchanging;
#[cfg(test)]
mod explaining;
#[cfg(test)]
mod faults;
#[cfg(test)]
mod faulty_lines;
#[cfg(test)]
mod finding;
#[cfg(test)]
mod forms;
#[cfg(test)]
mod frames;
#[cfg(test)]
mod helpers;
#[cfg(test)]
mod keeping;
#[cfg(test)]
mod key_lists;
#[cfg(test)]
mod keysyms;
#[cfg(test)]
mod lines;
#[cfg(test)]
mod linting;
#[cfg(test)]
mod loading;
#[cfg(test)]
mod looking_up;
#[cfg(test)]
mod losing;
#[cfg(test)]
mod making;
#[cfg(test)]
mod merging;
#[cfg(test)]
mod messages;
#[cfg(test)]
mod paging;
#[cfg(test)]
mod places;
#[cfg(test)]
mod reporting;
#[cfg(test)]
mod result_keysyms;
#[cfg(test)]
mod rows;
#[cfg(test)]
mod sources;
#[cfg(test)]
mod state_files;
#[cfg(test)]
mod table_files;
#[cfg(test)]
mod tables;
#[cfg(test)]
mod typings;
#[cfg(test)]
mod visited;
