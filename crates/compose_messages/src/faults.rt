//! Messages for the faults of headers of names, manifests, certificates and repertoires, and for
//! files that can't be opened.
ghost use Rattle.std.specs.Prelude.{◌≡◌};
ghost use Rattle.compose_messages.specs.Faults as faults;

use compose_cert::{CertFault, RepertoireFault};
use compose_manifest::ManifestFault;
use compose_read::SourceFault;
use keysym_core::NameFault;
use std::io;

/// The message for a fault of a file, and the number of the line that it is in, if it is in one.
#[derive(Clone, Copy, Debug)]
pub struct FaultWords {
    /// The number of the line, counted from 1.
    pub line: Option<usize>,
    /// The message.
    pub words: &'static str,
}

/// Returns the message for a fault of a header of names.
pub fn name_words(fault: &NameFault) -> FaultWords
    ensures line { result.line ≡ faults.name_line fault.now }
    ensures words { result.words.now ≡ faults.name_message fault.now }
{
    let (line, words) = match fault {
        NameFault::NotUtf8 { line } => (Some(*line), "the line is not UTF-8"),
        NameFault::BadLine { line } => (
            Some(*line),
            "expected \"#define XK_\", a name, and 0x with one to eight hexadecimal digits",
        ),
        NameFault::ValueTooLarge { line } => (
            Some(*line),
            "the number is above 0x1fffffff, the greatest keysym",
        ),
        NameFault::NameConflict { line } => {
            (Some(*line), "the name is that of another keysym already")
        }
        NameFault::TooManyNames => (None, "more than 16,384 names"),
        NameFault::NoMemory => (None, "out of memory"),
    };
    FaultWords { line, words }
}

/// Returns the message for a fault of a certificate's text.
pub fn certificate_words(fault: &CertFault) -> FaultWords
    ensures line { result.line ≡ faults.certificate_line fault.now }
    ensures words { result.words.now ≡ faults.certificate_message fault.now }
{
    let (line, words) = match fault {
        CertFault::NotText { line } => (
            Some(*line),
            "the line is missing, or not of the form of a certificate",
        ),
        CertFault::TooLarge => (None, "a count is above 1,048,576"),
        CertFault::NoMemory => (None, "out of memory"),
    };
    FaultWords { line, words }
}

/// Returns the message for a fault of a repertoire.
pub fn repertoire_words(fault: &RepertoireFault) -> FaultWords
    ensures line { result.line ≡ faults.repertoire_line fault.now }
    ensures words { result.words.now ≡ faults.repertoire_message fault.now }
{
    let (line, words) = match fault {
        RepertoireFault::BadLine { line } => (
            Some(*line),
            "expected a character as U+00E9, or before all characters the word keys and two keysyms as 0x20 0x7e",
        ),
        RepertoireFault::NotRising { line } => {
            (Some(*line), "the line is not above the one before it")
        }
        RepertoireFault::TooMany => (None, "more than 65,536 characters, or ranges of keys"),
        RepertoireFault::NoMemory => (None, "out of memory"),
    };
    FaultWords { line, words }
}

/// Returns the message for a fault of a manifest.
pub fn manifest_words(fault: &ManifestFault) -> FaultWords
    ensures line { result.line ≡ faults.manifest_line fault.now }
    ensures words { result.words.now ≡ faults.manifest_message fault.now }
{
    let (line, words) = match fault {
        ManifestFault::BadLine { line } => (
            Some(*line),
            "expected a name, a tab and a path, or once before these `overlap longest` or `overlap refuse`",
        ),
        ManifestFault::Empty => (None, "the manifest lists no file"),
        ManifestFault::NoMemory => (None, "out of memory"),
    };
    FaultWords { line, words }
}

/// Returns the message for a file that a manifest lists, but that is not among the sources of its
/// table.
pub fn source_words(fault: SourceFault) -> &'static str
    ensures { result.now ≡ faults.source_message fault }
{
    match fault {
        SourceFault::NameTaken => "two entries have the same name",
        SourceFault::TooManySources => "more than 64 entries",
        SourceFault::NoMemory => "out of memory",
    }
}

/// Returns the message for a file that can't be opened.
pub fn open_words(kind: io::ErrorKind) -> &'static str
    ensures { result.now ≡ faults.open_message kind }
{
    match kind {
        io::ErrorKind::NotFound => "no such file",
        io::ErrorKind::PermissionDenied => "permission denied",
        io::ErrorKind::IsADirectory => "is a directory",
        _ => "can't be read",
    }
}

/// Returns the message for a socket that can't be used.
pub fn socket_words(kind: io::ErrorKind) -> &'static str
    ensures { result.now ≡ faults.socket_message kind }
{
    match kind {
        io::ErrorKind::NotFound => "no such file",
        io::ErrorKind::PermissionDenied => "permission denied",
        io::ErrorKind::ConnectionRefused => "nobody listens there",
        io::ErrorKind::AlreadyExists => "a file is there already",
        io::ErrorKind::InvalidInput => "the path is too long for a socket",
        _ => "can't be used as a socket",
    }
}
