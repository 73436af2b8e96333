//! Hints for a refusal.
ghost use Rattle.std.specs.Prelude.{◌≡◌};
ghost use Rattle.compose_text.specs.Bytes.{begins, is_blank};
ghost use Rattle.compose_text.specs.Numbers.{is_hexadecimal};
ghost use Rattle.compose_messages.specs.Hints as hints;

use crate::beginning::begins_as_table;
use crate::lines::{nth_line, source_line, text_or_nothing};
use crate::tokens::{contains, is_blank, named};
use arrayvec::ArrayVec;
use compose_cert::{CertFault, RepertoireFault};
use compose_lex::{LexFault, LineContent, lex_line_into};
use compose_manifest::ManifestFault;
use compose_read::{ReadFault, SettleFault, Sources};
use compose_shown::Shown;
use compose_text::{first_line, hexadecimal_number};
use compose_tree::TableFault;
use keysym_core::NameFault;
use std::fmt;

/// What may help after a refusal.
#[derive(Clone, Copy, Debug, PartialEq, Eq, Drop)]
pub enum Hint {
    /// Use the names that are built into the program.
    BuiltinNames,
    /// Add names of the user's own to these.
    OwnNames,
    /// Write a Unicode name with four to six digits.
    UnicodeName,
    /// Write the Compose key by its name, Multi_key.
    ComposeKey,
    /// Write the Compose file in UTF-8.
    Encoding,
    /// The file is in UTF-16: convert it.
    Utf16,
    /// The file is a certificate, not a Compose file.
    Certificate,
    /// The file is a repertoire, not a Compose file.
    Repertoire,
    /// The file is a manifest, not a Compose file.
    Manifest,
    /// Use the rule by which overlaps are no fault.
    OverlapLongest,
    /// Use the option for fresh keysyms.
    Fresh,
    /// The file is a table, not a manifest.
    Table,
    /// The file is a table, not a certificate.
    NoCertificate,
    /// The file is a table, not a repertoire.
    NoRepertoire,
    /// Write the header of names in UTF-8.
    NamesEncoding,
    /// Write the home folder in an include as `%H`.
    HomeFolder,
}

impl fmt::Display for Hint {
    ghost use Rattle.std.specs.Prelude.{Some};
    ghost use Rattle.compose_messages.specs.Hints.{hint_text};

    ghost output = { λ hint. Some (hint_text hint) };

    fn fmt<W: fmt::Write>(&self, f: &mut fmt::Formatter<W>) -> fmt::Result {
        match self {
            Hint::BuiltinNames => f.write_str(
                "composecheck: hint: `--names builtin` has the names of keysymdef.h",
            ),
            Hint::OwnNames => f.write_str(
                "composecheck: hint: `--names builtin --names FILE` adds the names of a header of your own",
            ),
            Hint::UnicodeName => f.write_str(
                "composecheck: hint: four to six hexadecimal digits follow the U, as in U00E9",
            ),
            Hint::ComposeKey => f.write_str("composecheck: hint: the Compose key is Multi_key"),
            Hint::Encoding => f.write_str(
                "composecheck: hint: a Compose file is in UTF-8; `iconv -f ENCODING -t UTF-8` converts another one",
            ),
            Hint::Utf16 => f.write_str(
                "composecheck: hint: the file is in UTF-16; `iconv -f UTF-16 -t UTF-8` converts it",
            ),
            Hint::Certificate => {
                f.write_str("composecheck: hint: this is a certificate, and no Compose file")
            }
            Hint::Repertoire => {
                f.write_str("composecheck: hint: this is a repertoire, and no Compose file")
            }
            Hint::Manifest => f.write_str(
                "composecheck: hint: this is a manifest, which lists Compose files, and none itself",
            ),
            Hint::OverlapLongest => f.write_str(
                "composecheck: hint: with the line `overlap longest` before the entries of the manifest, or `diff --overlap longest`, the longer sequence counts",
            ),
            Hint::Fresh => f.write_str(
                "composecheck: hint: `--fresh` takes the keysyms for which nothing has to be promised",
            ),
            Hint::Table => f.write_str(
                "composecheck: hint: this is a Compose file: use --files, or the manifest that `composecheck manifest FILE` prints",
            ),
            Hint::NoCertificate => {
                f.write_str("composecheck: hint: this is a Compose file, and no certificate")
            }
            Hint::NoRepertoire => {
                f.write_str("composecheck: hint: this is a Compose file, and no repertoire")
            }
            Hint::NamesEncoding => f.write_str(
                "composecheck: hint: a header of names is in UTF-8; `iconv -f ENCODING -t UTF-8` converts another one",
            ),
            Hint::HomeFolder => f.write_str(
                "composecheck: hint: an include says the home folder as %H, and not as ~",
            ),
        }
    }
}

/// Returns the hint for the fault of a table of these sources, if there is one; `are_given` is true
/// if files of names were given. O(bytes of the source).
pub fn table_hint(sources: &Sources, fault: &TableFault, are_given: bool) -> Option<Hint>
    ensures { result ≡ hints.table_hint sources.now are_given fault.now }
{
    match fault {
        TableFault::Read(
            ReadFault::UnknownKeysym {
                source,
                line,
                index,
            },
        ) => {
            let name = named(source_line(sources, *source, *line), *index);
            Some(name_hint(name, are_given))
        }
        TableFault::Read(ReadFault::Lex { source, line, .. }) => {
            file_hint(source_line(sources, *source, *line))
        }
        TableFault::Read(ReadFault::NotUtf8 { source, .. }) => {
            Some(encoding_hint(source_line(sources, *source, 1)))
        }
        TableFault::Read(ReadFault::MissingInclude { source, line }) => {
            include_hint(named(source_line(sources, *source, *line), 0))
        }
        TableFault::Settle(SettleFault::Overlap { .. }) => Some(Hint::OverlapLongest),
        _ => None,
    }
}

/// The hint for a locale whose table is not in UTF-8, with the locale's name.
#[derive(Clone, Copy, Debug, PartialEq, Eq)]
pub struct LocaleHint<'a>(pub &'a str);

impl fmt::Display for LocaleHint<'_> {
    ghost use Rattle.std.specs.Prelude.{Some};
    ghost use Rattle.compose_messages.specs.Hints.{locale_hint};

    ghost output = { λ hint. Some (locale_hint hint.0.now) };

    fn fmt<W: fmt::Write>(&self, f: &mut fmt::Formatter<W>) -> fmt::Result {
        let locale = Shown(self.0);
        write!(
            f,
            "composecheck: hint: this is the table of the locale {locale}; `--locale en_US.UTF-8` takes that of another one"
        )
    }
}

/// Returns the index of the source in which a line or a string is not UTF-8, if that is the fault.
/// O(1).
pub fn source_not_utf8(fault: &TableFault) -> Option<usize>
    ensures { result ≡ hints.source_not_utf8 fault.now }
{
    match fault {
        TableFault::Read(ReadFault::NotUtf8 { source, .. }) => Some(*source),
        TableFault::Read(
            ReadFault::Lex {
                source,
                fault: LexFault::TextNotUtf8,
                ..
            },
        ) => Some(*source),
        _ => None,
    }
}

/// Returns the hint for a name that no keysym has; `are_given` is true if files of names were
/// given. O(bytes).
pub fn name_hint(name: &str, are_given: bool) -> Hint
    ensures { result ≡ hints.name_hint are_given name.now }
{
    if is_compose_key(name) {
        Hint::ComposeKey
    } else if is_short_unicode_name(name.as_bytes()) {
        Hint::UnicodeName
    } else {
        names_to_add(are_given)
    }
}

/// Returns the hint that names may be missing; `are_given` is true if files of names were given.
fn names_to_add(are_given: bool) -> Hint
    ensures { result ≡ hints.names_to_add are_given }
{
    if are_given {
        Hint::OwnNames
    } else {
        Hint::BuiltinNames
    }
}

/// Returns the hint for a fault of a header of names: there is one if a line is not UTF-8. O(1).
pub fn header_hint(fault: &NameFault) -> Option<Hint>
    ensures { result ≡ hints.header_hint fault.now }
{
    match fault {
        NameFault::NotUtf8 { .. } => Some(Hint::NamesEncoding),
        _ => None,
    }
}

/// Returns the hint for an include of this path that does not exist: an include does not expand
/// `~`. O(1).
pub fn include_hint(path: &str) -> Option<Hint>
    ensures { result ≡ hints.include_hint path.now }
{
    path.starts_with("~/").then_some(Hint::HomeFolder)
}

/// Whether people use this name for the Compose key.
fn is_compose_key(name: &str) -> bool
    ensures { result ≡ hints.is_compose_key name.now }
{
    name == "Compose"
        || name == "compose"
        || name == "Multi"
        || name == "multi_key"
        || name == "Multi_Key"
        || name == "MULTI_KEY"
}

/// Whether the name is `U` and one to three hexadecimal digits.
fn is_short_unicode_name(name: &[u8]) -> bool
    ensures { result ≡ hints.is_short_unicode_name name.now }
{
    match name.split_first() {
        Some((b'U', digits)) => is_short_number(digits),
        _ => false,
    }
}

/// Whether these are one to three hexadecimal digits.
fn is_short_number(digits: &[u8]) -> bool
    ensures { result ≡ is_hexadecimal 1 3 digits.now }
{
    hexadecimal_number(1, 3, digits).is_some()
}

/// Returns the hint for a line that no Compose file has.
fn file_hint(line: &[u8]) -> Option<Hint>
    ensures { result ≡ hints.file_hint line.now }
{
    if line.starts_with(b"compose-certificate ") {
        Some(Hint::Certificate)
    } else if line.starts_with(b"U+") || line.starts_with(b"keys 0x") {
        Some(Hint::Repertoire)
    } else if is_entry(line) {
        Some(Hint::Manifest)
    } else {
        None
    }
}

/// Whether the line is an entry of a manifest, and not a line of a Compose file.
fn is_entry(line: &[u8]) -> bool
    ensures { result ≡ hints.is_entry line.now }
{
    contains(line, b'\t')
        && !(begins_with_blank(line) || contains(line, b'<') || line.starts_with(b"include"))
}

/// Whether the line begins with a blank.
fn begins_with_blank(line: &[u8]) -> bool
    ensures { result ≡ begins is_blank line.now }
{
    match line.first() {
        Some(byte) => is_blank(*byte),
        None => false,
    }
}

/// Returns the hint for a line that is not UTF-8, in a file with this first line.
fn encoding_hint(first: &[u8]) -> Hint
    ensures { result ≡ hints.encoding_hint first.now }
{
    if first.starts_with(&[0xff, 0xfe]) || first.starts_with(&[0xfe, 0xff]) {
        Hint::Utf16
    } else {
        Hint::Encoding
    }
}

/// Returns the hint for a table that was given in place of a certificate: a line is one of a table.
/// O(bytes).
pub fn certificate_hint(bytes: &[u8], fault: &CertFault) -> Option<Hint>
    ensures { result ≡ hints.certificate_hint bytes.now fault.now }
{
    match fault {
        CertFault::NotText { .. } if has_table_line(bytes) => Some(Hint::NoCertificate),
        _ => None,
    }
}

/// Returns the hint for a table that was given in place of a repertoire: a line is one of a table.
/// O(bytes).
pub fn repertoire_hint(bytes: &[u8], fault: &RepertoireFault) -> Option<Hint>
    ensures { result ≡ hints.repertoire_hint bytes.now fault.now }
{
    match fault {
        RepertoireFault::BadLine { .. } if has_table_line(bytes) => Some(Hint::NoRepertoire),
        _ => None,
    }
}

/// Whether a line is a production or an include.
fn has_table_line(bytes: &[u8]) -> bool
    ensures { result ≡ hints.has_table_line bytes.now }
{
    let mut rest = bytes;
    while let Some((line, others)) = first_line(rest) {
        if is_table_line(line) {
            return true;
        }
        rest = others;
    }
    false
}

/// Returns the hint for a table that was given in place of a manifest: the faulty line is one of a
/// table, the file begins like a table, or the path ends in `Compose`. O(bytes).
pub fn manifest_hint(path: &str, bytes: &[u8], fault: &ManifestFault) -> Option<Hint>
    ensures { result ≡ hints.manifest_hint path.now bytes.now fault.now }
{
    let ManifestFault::BadLine { line } = fault else {
        return None;
    };
    let is_table = path.as_bytes().ends_with(b"Compose")
        || is_table_line(nth_line(bytes, line.saturating_sub(1)))
        || begins_as_table(bytes);
    is_table.then_some(Hint::Table)
}

/// Whether the line is a production or an include.
fn is_table_line(line: &[u8]) -> bool
    ensures { result ≡ hints.is_table_line line.now }
{
    let mut events = ArrayVec::new();
    match lex_line_into(text_or_nothing(line), &mut events) {
        Ok(LineContent::Production { .. } | LineContent::Include(_)) => true,
        _ => false,
    }
}
