//! The texts of certificates and repertoires.
//!
//! A certificate is evidence that a new table follows an old one, in lines of ASCII: a bound on the
//! number of pending keysyms, pairs of nodes, a key sequence for each character that people need,
//! and the fresh keysyms. [`Certificate::read`] accepts exactly one text for each certificate, the
//! one that [`Certificate::write_text`] returns. A repertoire lists the characters that people need
//! and the keys that they have; its text may have comments.
//!
//! ```text
//! let repertoire = Repertoire::read(alloc, b"keys 0x20 0x7e\nkeys 0xff20 0xff20\nU+00E9\n")?;
//! repertoire.characters()    // ['é']
//! ```
//!
//! A relation in `specs/`, separate from the readers, defines what a text spells;
//! `law_one_certificate` is the law that the two agree.
#![tactic(auto)]

ghost use Rattle.std.specs.Prelude.{◌≡◌, ℕ, List, Ok};
ghost use Rattle.compose_model.specs.Certificate as model;
ghost use Rattle.compose_cert.specs.Spelling.{Spells};
ghost use Rattle.compose_cert.specs.Reading.{certificate_of};

mod certificate;
mod certificate_lines;
mod certificate_words;
mod entry;
mod numeral;
mod pairs;
mod read;
mod repertoire;
mod repertoire_words;
mod write;

pub use certificate::{Certificate, Typing};
pub use repertoire::Repertoire;
use std::alloc::{AllocError, AllocFailed};
use thiserror::Error;

/// The first fault of a certificate's text. `line` is counted from 1.
#[derive(Debug, PartialEq, Eq, Drop, Error)]
pub enum CertFault {
    /// This line doesn't have its form, or is missing.
    #[error("1 NotText line={line}")]
    NotText { line: usize },
    /// A count is above 1,048,576.
    #[error("2 TooLarge")]
    TooLarge,
    /// A memory allocation failed.
    #[error("3 NoMemory")]
    NoMemory,
}

impl From<AllocError> for CertFault {
    ghost use Rattle.compose_cert.specs.declared.CertFault.TheVariants.{NoMemory};

    ghost from_gives = { λ _ e. e ≡ NoMemory };

    fn from(_refused: AllocError) -> CertFault {
        CertFault::NoMemory
    }
}

impl<T: Drop> From<AllocFailed<T>> for CertFault {
    ghost use Rattle.compose_cert.specs.declared.CertFault.TheVariants.{NoMemory};

    ghost from_gives = { λ _ e. e ≡ NoMemory };

    fn from(_refused: AllocFailed<T>) -> CertFault {
        CertFault::NoMemory
    }
}

/// The first fault of a repertoire. `line` is counted from 1.
#[derive(Debug, PartialEq, Eq, Drop, Error)]
pub enum RepertoireFault {
    /// This line has none of the forms, or is a range of keys after a character.
    #[error("1 BadLine line={line}")]
    BadLine { line: usize },
    /// The range or the character on this line isn't above those before it.
    #[error("2 NotRising line={line}")]
    NotRising { line: usize },
    /// There are more than 65,536 ranges or characters.
    #[error("3 TooMany")]
    TooMany,
    /// A memory allocation failed.
    #[error("4 NoMemory")]
    NoMemory,
}

impl<T: Drop> From<AllocFailed<T>> for RepertoireFault {
    ghost use Rattle.compose_cert.specs.declared.RepertoireFault.TheVariants.{NoMemory};

    ghost from_gives = { λ _ e. e ≡ NoMemory };

    fn from(_refused: AllocFailed<T>) -> RepertoireFault {
        RepertoireFault::NoMemory
    }
}

/// A text spells at most one certificate; reading the text returns that certificate; and a text
/// that is read as a certificate spells it.
pub fn law_one_certificate()
    ensures one { (bytes : List ℕ) (c d : model.Certificate) → Spells bytes c → Spells bytes d
        → c ≡ d }
    ensures read { (bytes : List ℕ) (c : model.Certificate) → Spells bytes c
        → certificate_of bytes ≡ Ok c }
    ensures found { (bytes : List ℕ) (c : model.Certificate) → certificate_of bytes ≡ Ok c
        → Spells bytes c }
{}
