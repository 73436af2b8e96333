//! Why a request is refused.
ghost use Rattle.std.specs.Prelude.{◌≡◌};
ghost use Rattle.compose_wire.specs.Messages.{code};
ghost use Rattle.compose_service.specs.Refusals.{refusal_of};

use compose_bundle::BundleFault;
use compose_cert::CertFault;
use compose_tree::TableFault;

/// Why a request is refused. Each refusal has its code in the protocol.
#[derive(Clone, Copy, Debug, PartialEq, Eq, Drop)]
pub enum RefusalCode {
    /// Open: a session with this number is open.
    SessionTaken,
    /// No session with this number is open.
    NoSession,
    /// Open: the greatest number of sessions is open.
    Full,
    /// Key: the number is not a keysym's.
    BadKeysym,
    /// Load: the payload is not a bundle, or is too large.
    BadBundle,
    /// Load: no table can be read from the sources of the bundle.
    TableRefused,
    /// Load: the text of the certificate is not a certificate.
    CertificateRefused,
    /// Load: the certificate is not valid for the new table, or lists a fresh keysym that is not
    /// allowed.
    VerdictNo,
    /// Memory ran out.
    NoMemory,
}

impl RefusalCode {
    /// Returns the code that a reply carries, from 1 to 9. O(1).
    pub fn code(self) -> u16
        ensures { result ≡ code (refusal_of self) }
    {
        match self {
            RefusalCode::SessionTaken => 1,
            RefusalCode::NoSession => 2,
            RefusalCode::Full => 3,
            RefusalCode::BadKeysym => 4,
            RefusalCode::BadBundle => 5,
            RefusalCode::TableRefused => 6,
            RefusalCode::CertificateRefused => 7,
            RefusalCode::VerdictNo => 8,
            RefusalCode::NoMemory => 9,
        }
    }
}

impl From<BundleFault> for RefusalCode {
    ghost use Rattle.compose_service.specs.Refusals.{of_bundle};

    ghost from_gives = { λ fault e. e ≡ of_bundle fault };

    fn from(fault: BundleFault) -> RefusalCode {
        match fault {
            BundleFault::Form | BundleFault::TooLarge => RefusalCode::BadBundle,
            BundleFault::NoMemory => RefusalCode::NoMemory,
        }
    }
}

impl From<TableFault> for RefusalCode {
    ghost use Rattle.compose_service.specs.Refusals.{of_table};

    ghost from_gives = { λ fault e. e ≡ of_table fault };

    fn from(fault: TableFault) -> RefusalCode {
        match fault {
            TableFault::NoMemory => RefusalCode::NoMemory,
            _ => RefusalCode::TableRefused,
        }
    }
}

impl From<CertFault> for RefusalCode {
    ghost use Rattle.compose_service.specs.Refusals.{of_certificate};

    ghost from_gives = { λ fault e. e ≡ of_certificate fault };

    fn from(fault: CertFault) -> RefusalCode {
        match fault {
            CertFault::NoMemory => RefusalCode::NoMemory,
            _ => RefusalCode::CertificateRefused,
        }
    }
}
