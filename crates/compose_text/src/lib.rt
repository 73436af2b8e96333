//! Lines, classes of bytes and hexadecimal numbers, shared by the readers of headers, tables,
//! repertoires and certificates.
//!
//! `first_line` splits off the first line of a text, `leading_len` counts the leading bytes of a
//! class (`blank_len` those that are blanks, `name_len` those of a name), and `hexadecimal_number`
//! reads a number:
//!
//!     first_line(b"one\ntwo\n")             // "one", and the rest "two\n"
//!     blank_len(b"\t x")                     // 2
//!     hexadecimal_number(4, 6, b"00e9")      // 0xe9
#![tactic(auto)]

mod bytes;
mod class;
mod lines;
mod numeral;

pub use bytes::{blank_len, name_len};
pub use class::{ByteClass, leading_len};
pub use lines::first_line;
pub use numeral::hexadecimal_number;
