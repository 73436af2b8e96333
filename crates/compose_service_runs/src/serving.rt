//! `serve`: the service that starts, or the outcome if none does.
ghost use Rattle.std.specs.Prelude.{◌≡◌, map, IfOk, IfErr, true};
ghost use Rattle.compose_runs.specs.Checking.{allowed_names};
ghost use Rattle.compose_service_runs.specs.Serving as words;
ghost use Rattle.compose_service_runs.specs.Serving.{AllowsAlone, IsServiceStart, IsStartOutcome, IsStartReported};
ghost use Rattle.compose_service_runs.specs.ServingFaults.{FailsServe};

use compose_answer::{Answer, Refusal};
use compose_arguments::{ServedFiles, TypeTable};
use compose_details::{Given, GivenTable};
use compose_folder::{Folder, ReadOnce};
use compose_given::{Environment, NotedTable, read_names_for, read_table};
use compose_input::{Fault, NameFiles, TableFiles, read_text};
use compose_report::{Outcome, outcome_with, worded_outcome};
use compose_runs::{Options, is_refused};
use compose_service::Service;
use compose_serving::{BeginFault, BeginInput, allow_fresh, begin};
use compose_tree::BuildTable;
use std::alloc::{AllocError, Global};

/// Starts the service with the given files, and returns it with notes on where the files of the table lie, as lines. The names, the table, the
/// repertoire and the certificate are read in this order. If names are allowed, the service's loads
/// may list only their keysyms as fresh. If no service starts, returns the outcome, which says why
/// after the notes. For the details of it (with `verbose`, and for a refusal always if a Compose
/// file is served) the files are taken again from what `files` has read, since the service took
/// over their bytes. Takes the time of reading the files and of `begin`.
/// Errors: the fault of the first file that can't be read or is refused; `Word` if a variable of
/// the environment that is needed is not UTF-8; `NoMemory` if memory runs out.
pub fn start_service<T: BuildTable, F: Folder>(
    alloc: Global,
    files: &mut ReadOnce<F>,
    environment: &Environment,
    options: Options<'_>,
    served: &ServedFiles<'_>,
    allowed: Option<&[&str]>,
) -> Result<Result<(Service<T>, String), Outcome>, Fault>
    ensures kept { files.new.holds ≡ files.old.holds }
    ensures started { IfOk result
        (λ started. IsServiceStart files.old.holds environment.now options.entry
        served.now (allowed_names allowed.entry) started) }
    ensures fault { IfErr result
        (λ fault. FailsServe files.old.holds environment.now
        (map (λ name. name.now) options.entry.names.now) served.now fault) }
{
    let noted = NotedFiles::read(files, alloc, environment, options.names, served)?;
    let NotedFiles { read, notes } = noted;
    match read.begin_allowing::<T>(alloc, allowed) {
        Ok(service) => Ok(Ok((service, notes))),
        Err(fault) => {
            let key_names = allowed.unwrap_or(&[]);
            let answered = start_answer(fault);
            let outcome = start_outcome::<T, F>(
                alloc,
                files,
                environment,
                options,
                served,
                key_names,
                answered,
            )?;
            Ok(Err(outcome.with_notes(notes)))
        }
    }
}

/// The files of a service.
#[derive(Drop)]
struct ServiceFiles<'n> {
    names: NameFiles<'n>,
    table: TableFiles,
    repertoire: Vec<u8>,
    certificate: Vec<u8>,
}

/// The files of a service, and notes on where those of its table lie, as lines.
#[derive(Drop)]
struct NotedFiles<'n> {
    read: ServiceFiles<'n>,
    notes: String,
}

impl<'n> NotedFiles<'n> {
    ghost use Rattle.compose_service_runs.specs.Serving.{AreServiceFiles};

    /// Reads the names, the table, the repertoire and the certificate.
    fn read<F: Folder>(
        files: &mut ReadOnce<F>,
        alloc: Global,
        environment: &Environment,
        names: &[&'n str],
        served: &ServedFiles<'_>,
    ) -> Result<NotedFiles<'n>, Fault>
        ensures kept { files.new.holds ≡ files.old.holds }
        ensures read { IfOk result
            (λ read. AreServiceFiles files.old.holds environment.now
            (map (λ name. name.now) names.now) served.now read) }
        ensures fault { IfErr result
            (λ fault. FailsServe files.old.holds environment.now (map (λ name. name.now) names.now)
            served.now fault) }
    {
        let names = read_names_for(files, alloc, is_file(&served.table), names)?;
        let noted = read_table(alloc, files, environment, "table", &served.table)?;
        let repertoire = read_text(files, alloc, served.repertoire)?;
        let certificate = read_text(files, alloc, served.certificate)?;
        let NotedTable { table, notes } = noted;
        let read = ServiceFiles {
            names,
            table,
            repertoire,
            certificate,
        };
        Ok(NotedFiles { read, notes })
    }
}

impl<'n> ServiceFiles<'n> {
    ghost use Rattle.compose_service_runs.specs.Serving.{Begins, BeginsAllowing};

    /// Starts the service with these files. If names are given, its loads may list only their
    /// keysyms as fresh.
    fn begin_allowing<T: BuildTable>(
        self,
        alloc: Global,
        allowed: Option<&[&str]>,
    ) -> Result<Service<T>, BeginFault>
        ensures { BeginsAllowing self.entry (allowed_names allowed.entry) result }
    {
        match self.begin::<T>(alloc) {
            Ok(service) => allow_alone(alloc, service, allowed),
            Err(fault) => Err(fault),
        }
    }

    /// Starts the service with these files.
    fn begin<T: BuildTable>(self, alloc: Global) -> Result<Service<T>, BeginFault>
        ensures { Begins self.entry result }
    {
        let (sources, rule) = self.table.into_parts();
        let input = BeginInput {
            header: &self.names.lines,
            repertoire: &self.repertoire,
            rule,
            certificate: &self.certificate,
        };
        begin::<T>(alloc, &input, sources)
    }
}

/// Returns the service; if names are given, its loads may list only their keysyms as fresh.
fn allow_alone<T: BuildTable>(
    alloc: Global,
    service: Service<T>,
    allowed: Option<&[&str]>,
) -> Result<Service<T>, BeginFault>
    ensures { AllowsAlone (allowed_names allowed.entry) service result }
{
    let Some(key_names) = allowed else {
        return Ok(service);
    };
    match allow_fresh(alloc, service, key_names) {
        Ok(service) => Ok(service),
        Err(refusal) => Err(BeginFault::Refused(refusal)),
    }
}

/// Returns whether a table is given as its Compose file.
fn is_file(table: &TypeTable<'_>) -> bool
    ensures { result ≡ words.is_file table.now }
{
    match table {
        TypeTable::Manifest(_) => false,
        TypeTable::File(_) => true,
    }
}

/// Returns the answer if no service starts.
fn start_answer(fault: BeginFault) -> Result<Answer, Refusal>
    ensures { result ≡ words.start_answer fault }
{
    match fault {
        BeginFault::Invalid(fault) => Ok(Answer::Invalid(fault)),
        BeginFault::Refused(refusal) => Err(refusal),
    }
}

/// Returns whether details are printed, faulty lines or the keys and places of a `no`: if
/// `verbose`, and for a refusal always if a Compose file is served.
fn wants_details(
    verbose: bool,
    served: &ServedFiles<'_>,
    answered: &Result<Answer, Refusal>,
) -> bool
    ensures { result ≡ words.wants_details verbose served.now answered.now }
{
    verbose || (is_file(&served.table) && is_refused(answered))
}

/// Returns the outcome of this answer if no service starts with the files.
fn start_outcome<T: BuildTable, F: Folder>(
    alloc: Global,
    files: &mut ReadOnce<F>,
    environment: &Environment,
    options: Options<'_>,
    served: &ServedFiles<'_>,
    key_names: &[&str],
    answered: Result<Answer, Refusal>,
) -> Result<Outcome, Fault>
    ensures kept { files.new.holds ≡ files.old.holds }
    ensures outcome { IfOk result
        (λ outcome. IsStartOutcome
        (words.wants_details options.entry.verbose served.now answered)
        files.old.holds environment.now (map (λ name. name.now) options.entry.names.now)
        served.now (map (λ name. name.now) key_names.now) answered outcome) }
    ensures fault { IfErr result
        (λ fault. FailsServe files.old.holds environment.now
        (map (λ name. name.now) options.entry.names.now) served.now fault) }
{
    if wants_details(options.verbose, served, &answered) {
        let names = options.names;
        let again = NotedFiles::read(files, alloc, environment, names, served)?;
        Ok(reported_start::<T>(alloc, served, key_names, &again.read, answered)?)
    } else {
        Ok(outcome_with(alloc, key_names, answered, String::new(alloc))?)
    }
}

/// Returns the outcome with each faulty line of these files; for people if a Compose file is
/// served.
fn reported_start<T: BuildTable>(
    alloc: Global,
    served: &ServedFiles<'_>,
    key_names: &[&str],
    files: &ServiceFiles<'_>,
    answered: Result<Answer, Refusal>,
) -> Result<Outcome, AllocError>
    ensures { IfOk result
        (λ outcome. IsStartReported files.now served.now
        (map (λ name. name.now) key_names.now) answered outcome) }
{
    let tables = [GivenTable::of(&files.table), GivenTable::of(&files.table)];
    let listed = Given::of(&files.names, key_names, &tables);
    let given = Given {
        repertoire: served.repertoire,
        repertoire_text: &files.repertoire,
        certificate: served.certificate,
        certificate_text: &files.certificate,
        ..listed
    };
    let numbered = !is_file(&served.table);
    worded_outcome::<T>(alloc, numbered, true, &given, answered)
}
