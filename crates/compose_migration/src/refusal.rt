//! Why a part of a command's input is refused.
use compose_cert::{CertFault, RepertoireFault};
use compose_fresh::CheckFault;
use compose_tree::TableFault;
use keysym_core::NameFault;
use std::alloc::{AllocError, AllocFailed};
use std::fmt;
use thiserror::Error;

/// One of the two tables of a migration.
#[derive(Clone, Copy, Debug, PartialEq, Eq, Drop)]
pub enum Side {
    /// The old table.
    Old,
    /// The new table.
    New,
}

impl fmt::Display for Side {
    ghost use Rattle.std.specs.Prelude.{Some};
    ghost use Rattle.compose_migration.specs.Migration.{side_word};

    ghost output = { λ side. Some (side_word side) };

    fn fmt<W: fmt::Write>(&self, f: &mut fmt::Formatter<W>) -> fmt::Result {
        match self {
            Side::Old => f.write_str("old"),
            Side::New => f.write_str("new"),
        }
    }
}

/// The first part of a command's input that is refused, and why; or that memory ran out. It is
/// printed as the part and its fault, except for a key name, which the caller prints.
#[derive(Debug, PartialEq, Eq, Drop, Error)]
pub enum Refusal {
    /// The header of names is refused.
    #[error("refused: names: {0}")]
    Names(NameFault),
    /// This key name has no keysym. It is the first such one; `index` counts from 0.
    #[error("refused: key: word {index}")]
    Key { index: usize },
    /// The only table is refused.
    #[error("refused: table: {0}")]
    Table(TableFault),
    /// One of two tables is refused: the old or the new one, as `side` says.
    #[error("refused: {side}: {fault}")]
    Side { side: Side, fault: TableFault },
    /// The repertoire is refused.
    #[error("refused: repertoire: {0}")]
    Repertoire(RepertoireFault),
    /// The certificate is refused.
    #[error("refused: certificate: {0}")]
    Certificate(CertFault),
    /// The fresh keysyms are refused: one of them is ignored, or occurs in the old table.
    #[error("refused: fresh: {0}")]
    Fresh(CheckFault),
    /// There are more than 1,048,576 fresh keysyms.
    #[error("refused: fresh: 3 TooManyFresh")]
    TooManyFresh,
    /// Memory ran out in this call.
    #[error("out of memory")]
    NoMemory,
}

impl From<AllocError> for Refusal {
    ghost use Rattle.std.specs.Prelude.{◌≡◌};
    ghost use Rattle.compose_migration.specs.declared.refusal.Refusal.TheVariants.{NoMemory};

    ghost from_gives = { λ _ e. e ≡ NoMemory };

    fn from(_error: AllocError) -> Refusal {
        Refusal::NoMemory
    }
}

impl<T: Drop> From<AllocFailed<T>> for Refusal {
    ghost use Rattle.std.specs.Prelude.{◌≡◌};
    ghost use Rattle.compose_migration.specs.declared.refusal.Refusal.TheVariants.{NoMemory};

    ghost from_gives = { λ _ e. e ≡ NoMemory };

    fn from(_error: AllocFailed<T>) -> Refusal {
        Refusal::NoMemory
    }
}
