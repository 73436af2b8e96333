//! From files to the settled sequences of a table: sources, their includes, definitions and
//! settling.
//!
//! [`Sources`] hold files under the names by which includes find them. [`read_definitions`] reads
//! one of them with all that it includes, and returns the [`Definitions`] in reading order, or the
//! fault of the first faulty line. [`settle`] returns [`Sequences`]: in rising order, each once
//! with the text of its last definition, and none a prefix of another. Typing with these is the
//! same as typing with the definitions as they were read. Definitions that no source has are put
//! together in a [`Draft`].
//!
//! ```text
//! r:   <Multi_key> <apostrophe> <e> : "x"
//!      include "%L"
//! %L:  <Multi_key> <apostrophe> <e> : "é" eacute    # counts, since it is read last
//! ```
#![tactic(auto)]

ghost use Rattle.std.specs.Prelude.{◌≡◌, ℕ, List, Ok, Err, IsTrue};
ghost use Rattle.keysym_core.specs.Names.{KeysymNames};
ghost use Rattle.compose_model.specs.Table.{Definition, is_prefix_free};
ghost use Rattle.compose_model.specs.Step.{run};
ghost use Rattle.compose_read.specs.Settle.{settled, sequences_rise, Overlap, IsLeastOverlap};
ghost use Rattle.compose_model.specs.declared.Rule as rules;
ghost use Rattle.compose_model.specs.declared.Rule.TheVariants.{Refuse, Longest};
ghost use Rattle.compose_read.specs.declared.ReadFault.TheVariants.{NoMemory};

mod definitions;
mod draft;
mod kept;
mod line;
mod line_faults;
mod open_source;
mod reading;
mod rows;
mod sequences;
mod settling;
mod sorting;
mod sources;
mod visits;

use compose_lex::LexFault;
pub use definitions::Definitions;
pub use draft::Draft;
pub use line_faults::read_faults;
pub use reading::read_definitions;
pub use sequences::Sequences;
pub use settling::{SettleFault, settle};
pub use sources::{SourceFault, Sources};
use std::alloc::{AllocError, AllocFailed};
use thiserror::Error;
pub use visits::{VisitedLine, Visits};

/// The first fault of the lines that are read. `source` is the index of the source, counted from 0;
/// `line` is the number of the line in it, counted from 1; `index` is that of the event, counted
/// from 0, or the number of events if the name is that of the result.
#[derive(Debug, PartialEq, Eq, Drop, Error)]
pub enum ReadFault {
    /// No source has the name of the root.
    #[error("1 MissingRoot")]
    MissingRoot,
    /// A line that is not UTF-8.
    #[error("2 NotUtf8 source={source} line={line}")]
    NotUtf8 {
        source: usize,
        line: usize,
    },
    /// A line with a syntax error, or with a string whose raw text has a fault.
    #[error("3 Lex source={source} line={line}: {fault}")]
    Lex {
        source: usize,
        line: usize,
        fault: LexFault,
    },
    /// A name that is not that of a keysym.
    #[error("4 UnknownKeysym source={source} line={line} index={index}")]
    UnknownKeysym {
        source: usize,
        line: usize,
        index: usize,
    },
    /// An event with a keysym that a compose state ignores.
    #[error("5 IgnoredKeysym source={source} line={line} index={index}")]
    IgnoredKeysym {
        source: usize,
        line: usize,
        index: usize,
    },
    /// An include of a name that no source has.
    #[error("6 MissingInclude source={source} line={line}")]
    MissingInclude {
        source: usize,
        line: usize,
    },
    /// An include in a source that is nested eight includes deep.
    #[error("7 IncludeDepth source={source} line={line}")]
    IncludeDepth {
        source: usize,
        line: usize,
    },
    /// The 1,000,001st line.
    #[error("8 TooManyLines source={source} line={line}")]
    TooManyLines {
        source: usize,
        line: usize,
    },
    /// The 100,001st definition.
    #[error("9 TooManyDefinitions source={source} line={line}")]
    TooManyDefinitions {
        source: usize,
        line: usize,
    },
    /// Memory ran out.
    #[error("10 NoMemory")]
    NoMemory,
}

impl From<AllocError> for ReadFault {
    ghost from_gives = { λ _ e. e ≡ NoMemory };

    fn from(_error: AllocError) -> ReadFault {
        ReadFault::NoMemory
    }
}

impl<T: Drop> From<AllocFailed<T>> for ReadFault {
    ghost from_gives = { λ _ e. e ≡ NoMemory };

    fn from(_error: AllocFailed<T>) -> ReadFault {
        ReadFault::NoMemory
    }
}

/// Settling by either rule changes no run. The sequences of its rows rise, without duplicates, and
/// none is a prefix of another.
pub fn law_settle()
    ensures runs { (names : KeysymNames) (rule : rules.Rule) (table rows : List Definition)
        (keys : List ℕ) → settled rule table ≡ Ok rows
        → run names rows keys ≡ run names table keys }
    ensures prefix_free { (rule : rules.Rule) (table rows : List Definition)
        → settled rule table ≡ Ok rows → IsTrue (is_prefix_free rows) }
    ensures rise { (rule : rules.Rule) (table rows : List Definition)
        → settled rule table ≡ Ok rows → IsTrue (sequences_rise rows) }
{}

/// The overlap that `Refuse` reports is the least one. A table without an overlap is settled, and
/// `Longest` reports none.
pub fn law_overlap()
    ensures least { (table : List Definition) (o : Overlap) → settled Refuse table ≡ Err o
        → IsLeastOverlap table o }
    ensures free { (table rows : List Definition) → settled Refuse table ≡ Ok rows
        → IsTrue (is_prefix_free table) }
    ensures never { (table : List Definition) (o : Overlap) → settled Longest table ≡ Err o → ⊥ }
{}
