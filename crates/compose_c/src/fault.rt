//! Why a call refuses its arguments, as numbers for C.
ghost use Rattle.std.specs.Prelude.{◌≡◌};
ghost use Rattle.compose_c.specs.Faults as words;

use compose_bundle::BundleFault;
use compose_cert::{CertFault, RepertoireFault};
use compose_fresh::CheckFault;
use compose_lex::LexFault;
use compose_messages::fault_position;
use compose_read::{ReadFault, Sources};
use compose_tree::TableFault;
use keysym_core::{Keysym, NameFault};

/// Why a call refuses its arguments, in numbers. `docs/LIBRARY.md` lists the codes of each part. A
/// number that a fault does not have is 0.
#[repr(C)]
#[derive(Clone, Copy)]
pub struct FaultRecord {
    /// The part that is refused: 1 the names, 2 the bundle, 3 a source, 4 two sequences, one of
    /// which is a prefix of the other, 5 too many nodes, 6 memory, 7 the repertoire, 8 the text of
    /// the certificate, 9 a condition that the certificate doesn't meet, 10 the search for files.
    pub part: u32,
    /// The number of the fault in its part.
    pub code: u32,
    /// The number of the lexical fault on a line.
    pub lexical: u32,
    /// The keysym, or the code point of the character, of a condition.
    pub value: u32,
    /// The index of the source, or of the answer in a search, counted from 0.
    pub source: u64,
    /// The number of the line, counted from 1.
    pub line: u64,
    /// The column in the line, in characters from 1.
    pub column: u64,
    /// The offset of a lexical fault in its line, in bytes, or the index of a key in its sequence,
    /// or of a pair or a node, counted from 0.
    pub at: u64,
    /// Reserved; always 0.
    pub reserved: [u64; 2],
}

/// Why a call refuses its arguments.
#[derive(Drop)]
pub enum LoadRefusal {
    /// The header of keysym names is refused.
    Names(NameFault),
    /// The bundle is refused.
    Bundled(BundleFault),
    /// The sources define no table. The second field is the column of the fault, in characters
    /// from 1, or 0 if the fault is not on a line.
    Table(TableFault, usize),
    /// The repertoire is refused.
    Repertoire(RepertoireFault),
    /// The text of the certificate is refused.
    Certificate(CertFault),
    /// The certificate doesn't meet a condition.
    Unmet(CheckFault),
}

impl From<NameFault> for LoadRefusal {
    ghost use Rattle.std.specs.Prelude.{◌≡◌};
    ghost use Rattle.compose_c.specs.declared.fault.LoadRefusal.TheVariants.{Names};

    ghost from_gives = { λ fault e. e ≡ Names fault };

    fn from(fault: NameFault) -> LoadRefusal {
        LoadRefusal::Names(fault)
    }
}

impl From<BundleFault> for LoadRefusal {
    ghost use Rattle.std.specs.Prelude.{◌≡◌};
    ghost use Rattle.compose_c.specs.declared.fault.LoadRefusal.TheVariants.{Bundled};

    ghost from_gives = { λ fault e. e ≡ Bundled fault };

    fn from(fault: BundleFault) -> LoadRefusal {
        LoadRefusal::Bundled(fault)
    }
}

impl From<RepertoireFault> for LoadRefusal {
    ghost use Rattle.std.specs.Prelude.{◌≡◌};
    ghost use Rattle.compose_c.specs.declared.fault.LoadRefusal.TheVariants.{Repertoire};

    ghost from_gives = { λ fault e. e ≡ Repertoire fault };

    fn from(fault: RepertoireFault) -> LoadRefusal {
        LoadRefusal::Repertoire(fault)
    }
}

impl From<CertFault> for LoadRefusal {
    ghost use Rattle.std.specs.Prelude.{◌≡◌};
    ghost use Rattle.compose_c.specs.declared.fault.LoadRefusal.TheVariants.{Certificate};

    ghost from_gives = { λ fault e. e ≡ Certificate fault };

    fn from(fault: CertFault) -> LoadRefusal {
        LoadRefusal::Certificate(fault)
    }
}

/// Returns a fault with this part and this code alone. O(1).
pub fn of_part(part: u32, code: u32) -> FaultRecord
    ensures { result ≡ words.of_part part code }
{
    FaultRecord {
        part,
        code,
        lexical: 0,
        value: 0,
        source: 0,
        line: 0,
        column: 0,
        at: 0,
        reserved: [0; 2],
    }
}

fn of_file(part: u32, code: u32, line: usize) -> FaultRecord
    ensures { result ≡ words.of_file part code line }
{
    let mut fault = of_part(part, code);
    fault.line = line as u64;
    fault
}

fn of_line(code: u32, source: usize, line: usize, at: usize) -> FaultRecord
    ensures { result ≡ words.of_line code source line at }
{
    let mut fault = of_part(3, code);
    fault.source = source as u64;
    fault.line = line as u64;
    fault.at = at as u64;
    fault
}

fn of_condition(code: u32, at: usize, value: u32) -> FaultRecord
    ensures { result ≡ words.of_condition code at value }
{
    let mut fault = of_part(9, code);
    fault.at = at as u64;
    fault.value = value;
    fault
}

/// Returns the fault of a header. O(1).
pub fn of_names(fault: &NameFault) -> FaultRecord
    ensures { result ≡ words.of_names fault.now }
{
    match fault {
        NameFault::NotUtf8 { line } => of_file(1, 1, *line),
        NameFault::BadLine { line } => of_file(1, 2, *line),
        NameFault::ValueTooLarge { line } => of_file(1, 3, *line),
        NameFault::NameConflict { line } => of_file(1, 4, *line),
        NameFault::TooManyNames => of_part(1, 5),
        NameFault::NoMemory => of_part(6, 0),
    }
}

fn of_bundle(fault: &BundleFault) -> FaultRecord
    ensures { result ≡ words.of_bundle fault.now }
{
    match fault {
        BundleFault::Form => of_part(2, 1),
        BundleFault::TooLarge => of_part(2, 2),
        BundleFault::NoMemory => of_part(6, 0),
    }
}

/// Returns the number of a lexical fault, and its offset in bytes, 0 if it has none. O(1).
pub fn of_lexical(fault: &LexFault) -> (u32, usize)
    ensures number { result.0 ≡ words.lexical_number fault.now }
    ensures place { result.1 ≡ words.lexical_place fault.now }
{
    match fault {
        LexFault::BadToken { at } => (1, *at),
        LexFault::ModifierList { at } => (2, *at),
        LexFault::UnclosedString { at } => (3, *at),
        LexFault::UnknownEscape { at } => (4, *at),
        LexFault::BadCode { at } => (5, *at),
        LexFault::NoResult => (6, 0),
        LexFault::TooManyKeysyms => (7, 0),
        LexFault::EmptyText => (8, 0),
        LexFault::TextTooLong => (9, 0),
        LexFault::TextNotUtf8 => (10, 0),
        LexFault::NoMemory => (11, 0),
    }
}

fn of_reading(fault: &ReadFault) -> FaultRecord
    ensures { result ≡ words.of_reading fault.now }
{
    match fault {
        ReadFault::MissingRoot => of_part(3, 1),
        ReadFault::NotUtf8 { source, line } => of_line(2, *source, *line, 0),
        ReadFault::Lex {
            source,
            line,
            fault,
        } => {
            let (lexical, at) = of_lexical(fault);
            let mut reported = of_line(3, *source, *line, at);
            reported.lexical = lexical;
            reported
        }
        ReadFault::UnknownKeysym {
            source,
            line,
            index,
        } => of_line(4, *source, *line, *index),
        ReadFault::IgnoredKeysym {
            source,
            line,
            index,
        } => of_line(5, *source, *line, *index),
        ReadFault::MissingInclude { source, line } => of_line(6, *source, *line, 0),
        ReadFault::IncludeDepth { source, line } => of_line(7, *source, *line, 0),
        ReadFault::TooManyLines { source, line } => of_line(8, *source, *line, 0),
        ReadFault::TooManyDefinitions { source, line } => of_line(9, *source, *line, 0),
        ReadFault::NoMemory => of_part(6, 0),
    }
}

fn of_table(fault: &TableFault) -> FaultRecord
    ensures { result ≡ words.of_table fault.now }
{
    match fault {
        TableFault::Read(fault) => of_reading(fault),
        TableFault::Settle(_) => of_part(4, 1),
        TableFault::Build(_) => of_part(5, 1),
        TableFault::NoMemory => of_part(6, 0),
    }
}

fn of_repertoire(fault: &RepertoireFault) -> FaultRecord
    ensures { result ≡ words.of_repertoire fault.now }
{
    match fault {
        RepertoireFault::BadLine { line } => of_file(7, 1, *line),
        RepertoireFault::NotRising { line } => of_file(7, 2, *line),
        RepertoireFault::TooMany => of_part(7, 3),
        RepertoireFault::NoMemory => of_part(6, 0),
    }
}

fn of_certificate(fault: &CertFault) -> FaultRecord
    ensures { result ≡ words.of_certificate fault.now }
{
    match fault {
        CertFault::NotText { line } => of_file(8, 1, *line),
        CertFault::TooLarge => of_part(8, 2),
        CertFault::NoMemory => of_part(6, 0),
    }
}

fn of_keysym(code: u32, at: usize, keysym: Keysym) -> FaultRecord
    ensures { result ≡ words.of_condition code at keysym }
{
    of_condition(code, at, keysym.value())
}

fn of_check(fault: &CheckFault) -> FaultRecord
    ensures { result ≡ words.of_check fault.now }
{
    match fault {
        CheckFault::PairsNotRising => of_part(9, 1),
        CheckFault::NodeOutOfRange => of_part(9, 2),
        CheckFault::RootPairMissing => of_part(9, 3),
        CheckFault::RestBroken => of_part(9, 4),
        CheckFault::NewStart { keysym } => of_keysym(5, 0, *keysym),
        CheckFault::Cancels { pair, keysym } => of_keysym(6, *pair, *keysym),
        CheckFault::TextDiffers { pair, keysym } => of_keysym(7, *pair, *keysym),
        CheckFault::PairMissing { pair, keysym } => of_keysym(8, *pair, *keysym),
        CheckFault::BoundExceeded { node } => of_condition(9, *node as usize, 0),
        CheckFault::TypingMissing { character } => of_condition(10, 0, u32::from(*character)),
        CheckFault::TypingWrong { character } => of_condition(11, 0, u32::from(*character)),
        CheckFault::TypingUnasked { character } => of_condition(12, 0, u32::from(*character)),
        CheckFault::FreshNotRising => of_part(9, 13),
        CheckFault::FreshIgnored { keysym } => of_keysym(14, 0, *keysym),
        CheckFault::FreshUsed { keysym } => of_keysym(15, 0, *keysym),
    }
}

/// Returns the column of the fault of these sources, in characters from 1; 0 if the fault is not on
/// a line.
pub fn column_of(sources: &Sources, fault: &TableFault) -> usize
    ensures { result ≡ words.column_of sources.now fault.now }
{
    let TableFault::Read(fault) = fault else {
        return 0;
    };
    match fault_position(sources, fault) {
        Some((_, position)) => position.column,
        None => 0,
    }
}

/// Returns the refusal as numbers. O(1).
pub fn fault_of(refusal: &LoadRefusal) -> FaultRecord
    ensures { result ≡ words.fault_of refusal.now }
{
    match refusal {
        LoadRefusal::Names(fault) => of_names(fault),
        LoadRefusal::Bundled(fault) => of_bundle(fault),
        LoadRefusal::Table(fault, column) => {
            let mut reported = of_table(fault);
            reported.column = *column as u64;
            reported
        }
        LoadRefusal::Repertoire(fault) => of_repertoire(fault),
        LoadRefusal::Certificate(fault) => of_certificate(fault),
        LoadRefusal::Unmet(fault) => of_check(fault),
    }
}
