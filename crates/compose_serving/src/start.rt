//! How a service begins.
ghost use Rattle.std.specs.Prelude.{◌≡◌, Ok};
ghost use Rattle.keysym_core.specs.Header.{names_of};
ghost use Rattle.compose_serving.specs.Begin.{AreRead, BeginReturns, names_refused, repertoire_refused, start_over, start_refused};

use compose_answer::Refusal;
use compose_cert::{Repertoire, RepertoireFault};
use compose_check::CheckFault;
use compose_model::Rule;
use compose_read::Sources;
use compose_service::{Service, StartFault};
use compose_tree::BuildTable;
use keysym_core::{NameFault, Names};
use std::alloc::Global;

/// What a service begins from, besides the sources of its table: the bytes of its files, and the
/// rule for overlaps.
#[derive(Clone, Copy)]
pub struct BeginInput<'a> {
    /// The bytes of the header with the keysym names.
    pub header: &'a [u8],
    /// The bytes of the repertoire.
    pub repertoire: &'a [u8],
    /// The rule for overlaps.
    pub rule: Rule,
    /// The bytes of the certificate of the table against itself.
    pub certificate: &'a [u8],
}

/// Why no service begins.
#[derive(Debug, PartialEq, Eq, Drop)]
pub enum BeginFault {
    /// The certificate is not valid for the table against itself; this is the first condition that
    /// it does not meet.
    Invalid(CheckFault),
    /// A part is refused, or memory ran out.
    Refused(Refusal),
}

/// Starts a service over the table of the sources, the first of which is the root. The names are
/// read first, then the repertoire, the table and the certificate, which is then checked for the
/// table against itself. Costs as much as reading these, and `check`.
///
/// Errors: `Refused` with the first part that is refused, or if memory runs out; `Invalid` if the
/// certificate is not valid.
pub fn begin<T: BuildTable>(
    alloc: Global,
    input: &BeginInput<'_>,
    sources: Sources<'_>,
) -> Result<Service<T>, BeginFault>
    ensures { BeginReturns input.entry.now.header.now input.entry.now.repertoire.now
        (start_over sources.entry input.entry.now.rule input.entry.now.certificate.now) result }
{
    match Names::read(alloc, input.header) {
        Ok(names) => begin_with(alloc, input, sources, names),
        Err(fault) => Err(BeginFault::Refused(of_names(fault))),
    }
}

/// Does the same with the names of the header.
fn begin_with<T: BuildTable>(
    alloc: Global,
    input: &BeginInput<'_>,
    sources: Sources<'_>,
    names: Names,
) -> Result<Service<T>, BeginFault>
    ensures { names_of input.entry.now.header.now ≡ Ok names
        → BeginReturns input.entry.now.header.now input.entry.now.repertoire.now
        (start_over sources.entry input.entry.now.rule input.entry.now.certificate.now) result }
{
    match Repertoire::read(alloc, input.repertoire) {
        Ok(repertoire) => start_with(alloc, input, sources, names, repertoire),
        Err(fault) => Err(BeginFault::Refused(of_repertoire(fault))),
    }
}

/// Does the same with the names of the header and the repertoire.
fn start_with<T: BuildTable>(
    alloc: Global,
    input: &BeginInput<'_>,
    sources: Sources<'_>,
    names: Names,
    repertoire: Repertoire,
) -> Result<Service<T>, BeginFault>
    ensures { AreRead input.entry.now.header.now input.entry.now.repertoire.now names repertoire
        → BeginReturns input.entry.now.header.now input.entry.now.repertoire.now
        (start_over sources.entry input.entry.now.rule input.entry.now.certificate.now) result }
{
    match Service::start(
        alloc,
        names,
        repertoire,
        sources,
        input.rule,
        input.certificate,
    ) {
        Ok(service) => Ok(service),
        Err(fault) => Err(of_start(fault)),
    }
}

/// Returns the refusal of the names.
fn of_names(fault: NameFault) -> Refusal
    ensures { result ≡ names_refused fault }
{
    match fault {
        NameFault::NoMemory => Refusal::NoMemory,
        other => Refusal::Names(other),
    }
}

/// Returns the refusal of the repertoire.
fn of_repertoire(fault: RepertoireFault) -> Refusal
    ensures { result ≡ repertoire_refused fault }
{
    match fault {
        RepertoireFault::NoMemory => Refusal::NoMemory,
        other => Refusal::Repertoire(other),
    }
}

/// Returns why no service begins.
fn of_start(fault: StartFault) -> BeginFault
    ensures { result ≡ start_refused fault }
{
    match fault {
        StartFault::No(fault) => BeginFault::Invalid(fault),
        StartFault::Table(fault) => BeginFault::Refused(Refusal::Table(fault)),
        StartFault::Certificate(fault) => BeginFault::Refused(Refusal::Certificate(fault)),
        StartFault::NoMemory => BeginFault::Refused(Refusal::NoMemory),
    }
}
