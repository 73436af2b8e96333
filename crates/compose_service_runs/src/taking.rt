//! `update`: what becomes of a table that is to be taken into use. While no service runs it is
//! stored; a running service, which alone writes the table in use, loads it, or it is handed over to
//! the service.
ghost use Rattle.std.specs.Prelude.{◌≡◌, ◌||◌, ◌&&◌, not, Bool, List, [], ℕ, Option, Some, None, Err, OnOk, OnErr, IfOk, IfErr, IsTrue, map, option_map, string_bytes};
ghost use Rattle.std.specs.Str.{bytes_eq};
ghost use Rattle.compose_answer.specs.declared.answer.Ended.TheVariants.{Refused};
ghost use Rattle.compose_bundle.specs.Bundle.{Bundle, IsBundle};
ghost use Rattle.compose_table_file.specs.TableFile.{TableFile, FileHas};
ghost use Rattle.compose_table_file.specs.Reading.{table_of};
ghost use Rattle.compose_report.specs.Outcomes.{PrintsErrors};
ghost use Rattle.compose_service_runs.specs.Taking as words;
ghost use Rattle.compose_model.specs.Step.{is_empty};
ghost use Rattle.compose_service_runs.specs.Taking.{Asked, Becomes, BecomesBeside, BecomesMerged, Decides, DecidesBeside, DecidesTaking, IsFile, IsDecision, IsFrom, IsHandedOver, IsLoad, IsLoaded, IsRefusedTable, IsUnnoted, IsUnreadable, NeedsNames, NeedsRepertoire, OnOkOk, PrintsNoted, Stores, TakesHere, TakesRunning, asked_by, more};

use crate::client::{ClientRequests, load_requests, run_exchange};
use crate::merged::{MergedUpdate, merge_into, was_merged_with};
use crate::peer::Peer;
use builtin_names::builtin_names;
use compose_answer::Ended;
use compose_bundle::{read_bundle, write_bundle};
use compose_input::{Fault, Header, NameFiles, line_count};
use compose_model::Rule;
use compose_read::Sources;
use compose_report::Outcome;
use compose_runs::{UpdateFiles, UpdateRun, run_update};
use compose_table_file::{StoredFault, StoredTable, TableParts, read_table, write_table};
use compose_tree::{BuildTable, TableFault, read_first_table};
use keysym_core::{Keysym, Names};
use std::alloc::{AllocError, Global};
use std::io::ErrorKind;

/// The note if a table that is meant is stored while no service runs.
const MEANT: &str = "note: typing changes as it is meant to\n";

/// The note if a running service has taken a table that is meant.
const TAKEN: &str =
    "note: typing changes as it is meant to; the running service has taken the table, and its sessions begin anew\n";

/// What is printed if the running service has not taken a table in time.
const WAITING: &str =
    "composecheck: the running service has not taken the table yet: it does so at its next connection\n";

/// What is printed if the table in use can't be read by the names that are given.
const UNREAD: &str =
    "composecheck: the table in use can't be read by the names that are given: give those that it was read by too\n";

/// What becomes of a new table.
#[derive(Drop)]
pub enum Taking {
    /// Nothing: this is printed.
    Refused(Outcome),
    /// Nothing: it is the table in use.
    Same,
    /// It follows the table in use, or none is in use.
    Follows {
        /// The bytes of its file.
        file: Vec<u8>,
        /// What a client sends to have a running service load it, if a table is in use.
        load: Option<ClientRequests>,
    },
    /// It is meant: typing changes as the owner listed it or with the fresh keys that the owner
    /// named, people need other characters than before, or other names are in use.
    Meant {
        /// The bytes of its file.
        file: Vec<u8>,
    },
}

/// What is decided about a new table.
#[derive(Drop)]
pub struct Decision {
    /// What becomes of it.
    pub taking: Taking,
    /// Lines for people: what is left out of it, if it was merged into the table in use.
    pub notes: String,
}

/// What an update asks for, besides the files that it reads.
#[derive(Clone, Copy)]
pub struct Wanted<'a> {
    /// Whether the new table is merged into the one in use.
    pub merge: bool,
    /// The key names of the fresh keysyms: new sequences may start with these.
    pub fresh: &'a [&'a str],
    /// Whether names were given; otherwise they are those of the table in use.
    pub has_names: bool,
    /// Whether the repertoire was given; otherwise people need what they needed before.
    pub has_repertoire: bool,
}

/// What a running service made of a table that was handed over to it.
#[derive(Clone, Copy, Debug, PartialEq, Eq, Drop)]
pub enum Handed {
    /// It has taken it.
    Taken,
    /// It has not taken it in time.
    Waits,
    /// The table could not be written, for this reason.
    Unwritten(ErrorKind),
}

/// The folder of the table in use, while no service runs.
pub trait TableFolder {
    /// The files that were stored one after another as the table in use, if they are known.
    ghost stored: { Self → Option (List (List ℕ)) };

    /// Stores this file in the place of the one that is stored, whole or not at all.
    ///
    /// Errors: the reason if it can't be stored; nothing changes then.
    fn replace(&mut self, alloc: Global, file: &[u8]) -> Result<(), ErrorKind>
        ensures ok { OnOk result (stored self.new ≡ more (stored self.old) file.now) }
        ensures err { OnErr result (stored self.new ≡ stored self.old) };
}

/// The folder of the table in use, while a service runs, which alone writes that table.
pub trait HandOver {
    /// The files that were handed over to the service one after another, if they are known.
    ghost handed: { Self → Option (List (List ℕ)) };

    /// Hands this file over, and waits until the service has taken it.
    fn hand_over(&mut self, alloc: Global, file: &[u8]) -> Handed
        ensures { handed self.new ≡ more (handed self.old) file.now };
}

/// Returns what becomes of the table of these files, if these are the bytes of the file of the table
/// in use, which is `None` if no table is. A table that can't be read is never taken for none. Of the
/// files only the names and the repertoire change: to those of the table in use, if none were given.
/// Both tables are read by these names. If a merge is wanted and a table is in use, the merged table
/// takes the place of the new one. Takes the time of `run_update`, and of `merge_tables` for a merge.
/// Errors: why the table in use can't be read; a refusal of `state` if the bytes are no such file, or
/// if the new file would be too large; a refusal of `load` if the new table is too large for one; a
/// refusal of `merged` if the merged table can't be kept with its files; `NoMemory` if memory runs
/// out.
pub fn decide_taking<T: BuildTable>(
    alloc: Global,
    files: &mut UpdateFiles,
    wanted: Wanted<'_>,
    stored: Result<Option<Vec<u8>>, Fault>,
) -> Result<Decision, Fault>
    ensures taking { IfOk result
        (λ decision. DecidesTaking (asked_by wanted.entry files.old)
        (map (λ name. name.now) wanted.entry.fresh.now) stored files.old files.exit.now decision) }
    ensures unread { IfErr stored (λ fault. result ≡ Err fault) }
{
    match stored {
        Ok(Some(stored)) => {
            let current = stored_table(alloc, &stored)?;
            decide_beside::<T>(alloc, files, wanted, current)
        }
        Ok(None) => decide_first::<T>(alloc, files, wanted),
        Err(fault) => Err(fault),
    }
}

/// Returns the decision that this becomes of a table, without notes.
fn unnoted(alloc: Global, taking: Taking) -> Decision
    ensures { IsUnnoted taking result }
{
    Decision {
        taking,
        notes: String::new(alloc),
    }
}

/// Returns what becomes of the table of these files, if none is in use.
fn decide_first<T: BuildTable>(
    alloc: Global,
    files: &UpdateFiles,
    wanted: Wanted<'_>,
) -> Result<Decision, Fault>
    ensures { IfOk result
        (λ decision. IsDecision (asked_by wanted.entry files.now)
        (map (λ name. name.now) wanted.entry.fresh.now) None files.now decision) }
{
    let run = run_update::<T>(alloc, files, wanted.fresh, None)?;
    let taking = taking_of(alloc, files, &[], false, run)?;
    Ok(unnoted(alloc, taking))
}

/// Returns what becomes of the table of these files, if this one is in use.
fn decide_beside<T: BuildTable>(
    alloc: Global,
    files: &mut UpdateFiles,
    wanted: Wanted<'_>,
    current: StoredTable<'_>,
) -> Result<Decision, Fault>
    ensures { IfOk result
        (λ decision. DecidesBeside (asked_by wanted.entry files.old)
        (map (λ name. name.now) wanted.entry.fresh.now) (table_of current.entry) files.old
        files.exit.now decision) }
{
    let is_other = is_other(wanted, files, &current);
    let StoredTable {
        rule: _,
        repertoire,
        names,
        fresh,
        payload,
    } = current;
    need_names(alloc, files, wanted.has_names, names)?;
    need(files, wanted.has_repertoire, repertoire);
    decide_needed::<T>(alloc, files, wanted, is_other, &fresh, payload)
}

/// Returns what becomes of the table of these files, which have the names and what people need, if
/// the table with this payload is in use, whose loads may list these keysyms as fresh.
fn decide_needed<T: BuildTable>(
    alloc: Global,
    files: &UpdateFiles,
    wanted: Wanted<'_>,
    is_other: bool,
    fresh: &[Keysym],
    payload: &[u8],
) -> Result<Decision, Fault>
    ensures { (a : Asked) (current : TableFile) → current.payload ≡ payload.now
        → current.fresh ≡ fresh.now → is_other ≡ words.is_other a (Some current)
        → IfOk result
        (λ decision. BecomesBeside wanted.entry.merge a (map (λ name. name.now) wanted.entry.fresh.now)
        current files.now decision) }
{
    if wanted.merge {
        return decide_merged::<T>(alloc, files, wanted, is_other, fresh, payload);
    }
    let taking = decide_new::<T>(alloc, files, wanted, is_other, fresh, payload)?;
    Ok(unnoted(alloc, taking))
}

/// Returns the same, if the table of these files is merged into the one in use.
fn decide_merged<T: BuildTable>(
    alloc: Global,
    files: &UpdateFiles,
    wanted: Wanted<'_>,
    is_other: bool,
    fresh: &[Keysym],
    payload: &[u8],
) -> Result<Decision, Fault>
    ensures { (a : Asked) (current : TableFile) → current.payload ≡ payload.now
        → current.fresh ≡ fresh.now → is_other ≡ words.is_other a (Some current)
        → IfOk result
        (λ decision. BecomesMerged a (map (λ name. name.now) wanted.entry.fresh.now) current
        files.now decision) }
{
    let is_meant = is_meant(is_other, wanted.fresh);
    if !is_meant && is_known(alloc, &files.new.sources, payload) {
        return Ok(unnoted(alloc, Taking::Same));
    }
    if is_other && is_unreadable::<T>(alloc, &files.names.lines, payload) {
        return Ok(unnoted(alloc, Taking::Refused(unread_outcome(alloc)?)));
    }
    match merge_into::<T>(alloc, files, wanted.fresh, payload)? {
        MergedUpdate::Merged { files, report } => {
            let taking = decide_new::<T>(alloc, &files, wanted, is_other, fresh, payload)?;
            Ok(Decision {
                taking,
                notes: report,
            })
        }
        MergedUpdate::Refused(outcome) => Ok(unnoted(alloc, Taking::Refused(outcome))),
    }
}

/// Returns whether the table in use, which has this payload, has these sources or was merged with
/// them. If memory runs out, it is taken for another one.
fn is_known(alloc: Global, new: &Sources, payload: &[u8]) -> bool
    ensures { (current : TableFile) → current.payload ≡ payload.now → IsTrue result
        → IsFrom current new.now }
{
    is_same(alloc, new, payload) || was_merged_with(alloc, new, payload)
}

/// Returns what becomes of the table of these files, if it is to take the place of the one in use,
/// which has this payload, and whose loads may list these keysyms as fresh.
fn decide_new<T: BuildTable>(
    alloc: Global,
    files: &UpdateFiles,
    wanted: Wanted<'_>,
    is_other: bool,
    fresh: &[Keysym],
    payload: &[u8],
) -> Result<Taking, Fault>
    ensures { (a : Asked) (current : TableFile) → current.payload ≡ payload.now
        → current.fresh ≡ fresh.now → is_other ≡ words.is_other a (Some current)
        → IfOk result
        (λ taking. Becomes a (map (λ name. name.now) wanted.entry.fresh.now) (Some current)
        files.now taking) }
{
    if !is_other && is_same(alloc, &files.new.sources, payload) {
        return Ok(Taking::Same);
    }
    if is_other && is_unreadable::<T>(alloc, &files.names.lines, payload) {
        return Ok(Taking::Refused(unread_outcome(alloc)?));
    }
    let is_meant = is_meant(is_other, wanted.fresh);
    let run = run_update::<T>(alloc, files, wanted.fresh, Some(payload))?;
    taking_of(alloc, files, fresh, is_meant, run)
}

/// Returns whether a change is meant although the table follows the one in use: it names fresh keys,
/// or the names or the repertoire are others.
fn is_meant(is_other: bool, fresh: &[&str]) -> bool
    ensures { (a : Asked) (current : TableFile) → is_other ≡ words.is_other a (Some current)
        → result ≡ words.is_meant a (map (λ name. name.now) fresh.now) (Some current) }
{
    if fresh.is_empty() {
        return is_other;
    }
    true
}

/// Returns whether other names or another repertoire than those of the table in use were given.
fn is_other(wanted: Wanted<'_>, files: &UpdateFiles, current: &StoredTable<'_>) -> bool
    ensures { result
        ≡ words.is_other (asked_by wanted.entry files.now) (Some (table_of current.now)) }
{
    needs_other(
        wanted.has_repertoire,
        &files.repertoire,
        &current.repertoire,
    ) || needs_other(
        wanted.has_names,
        kept_names(&files.names.lines),
        &current.names,
    )
}

/// Returns whether these bytes were given, and are others than those that are kept.
fn needs_other(is_given: bool, given: &[u8], kept: &[u8]) -> bool
    ensures { result ≡ (is_given && not (bytes_eq given.now kept.now)) }
{
    is_given && given != kept
}

/// Returns the lines of names as the file of a table keeps them: none if they are those of the
/// built-in names. O(bytes).
pub fn kept_names(lines: &[u8]) -> &[u8]
    ensures { result.now ≡ words.kept_names lines.now }
{
    if lines == builtin_names().as_bytes() {
        return &[];
    }
    lines
}

/// Gives the files the names of the table in use, unless others were given or they are the built-in
/// ones.
fn need_names(
    alloc: Global,
    files: &mut UpdateFiles,
    has_names: bool,
    names: Vec<u8>,
) -> Result<(), AllocError>
    ensures { OnOk result (NeedsNames (has_names || is_empty names.items) names.items files.old
        files.exit.now) }
{
    if has_names || names.is_empty() {
        return Ok(());
    }
    files.names = names_in_use(alloc, names)?;
    Ok(())
}

/// Returns the names with these lines, which the table in use keeps.
fn names_in_use<'n>(alloc: Global, lines: Vec<u8>) -> Result<NameFiles<'n>, AllocError>
    ensures { IfOk result (λ names. names.lines.items ≡ lines.items) }
{
    let mut files = Vec::new(alloc);
    files.push(Header {
        path: "names in use",
        lines: line_count(&lines),
    })?;
    Ok(NameFiles { lines, files })
}

/// Gives the files the repertoire of the table in use, unless another one was given.
fn need(files: &mut UpdateFiles, has_repertoire: bool, repertoire: Vec<u8>)
    ensures { NeedsRepertoire has_repertoire repertoire.items files.old files.exit.now }
{
    if !has_repertoire {
        files.repertoire = repertoire;
    }
}

/// Reads the file of the table in use.
fn stored_table(alloc: Global, stored: &[u8]) -> Result<StoredTable<'_>, Fault>
    ensures { IfOk result (λ table. FileHas stored.now (table_of table)) }
{
    match read_table(alloc, stored) {
        Ok(table) => Ok(table),
        Err(StoredFault::NoMemory) => Err(Fault::NoMemory),
        Err(fault) => Err(Fault::refused("state", format!(in alloc; "{fault}"))),
    }
}

/// Returns whether the payload has these sources. If memory runs out, it is taken for another one.
pub(crate) fn is_same(alloc: Global, new: &Sources, payload: &[u8]) -> bool
    ensures { IsTrue result
        → (bundle : Bundle) × IsBundle payload.now bundle × (bundle.sources ≡ new.now) }
{
    let Ok(bundle) = read_bundle(alloc, payload) else {
        return false;
    };
    match (
        write_bundle(alloc, &bundle.sources, &[]),
        write_bundle(alloc, new, &[]),
    ) {
        (Ok(old), Ok(new)) => old.as_slice() == new.as_slice(),
        _ => false,
    }
}

/// Returns whether the table with this payload can't be read by the names with these lines. Lines
/// that are no names, and memory that runs out, are left to those who read them next.
fn is_unreadable<T: BuildTable>(alloc: Global, lines: &[u8], payload: &[u8]) -> bool
    ensures { IsTrue result → IsUnreadable lines.now payload.now }
{
    let Ok(names) = Names::read(alloc, lines) else {
        return false;
    };
    let Ok(bundle) = read_bundle(alloc, payload) else {
        return false;
    };
    is_refused::<T>(alloc, &names, &bundle.sources)
}

/// Returns whether the table of these sources is refused. If memory runs out, it is taken for one
/// that isn't.
fn is_refused<T: BuildTable>(alloc: Global, names: &Names, sources: &Sources) -> bool
    ensures { IsTrue result → IsRefusedTable names.now sources.now }
{
    match read_first_table::<T>(alloc, names, sources, Rule::Longest) {
        Ok(_) => false,
        Err(TableFault::NoMemory) => false,
        Err(TableFault::Read(_)) => true,
        Err(TableFault::Settle(_)) => true,
        Err(TableFault::Build(_)) => true,
    }
}

/// Returns what is printed if the table in use can't be read by the names that were given.
fn unread_outcome(alloc: Global) -> Result<Outcome, AllocError>
    ensures { IfOk result (λ outcome. PrintsErrors words.unread Refused outcome) }
{
    let line = String::from_str(alloc, UNREAD)?;
    Ok(Outcome::of_errors(alloc, line, Ended::Refused))
}

/// Returns what becomes of the table of these files by this decision; its loads may list these
/// keysyms as fresh.
fn taking_of(
    alloc: Global,
    files: &UpdateFiles,
    fresh: &[Keysym],
    is_meant: bool,
    run: UpdateRun,
) -> Result<Taking, Fault>
    ensures { IfOk result (λ taking. Decides is_meant fresh.now (λ r. r ≡ run) files.now taking) }
{
    match run {
        UpdateRun::Refused(outcome) => Ok(Taking::Refused(outcome)),
        UpdateRun::Meant { stored } => {
            let file = file_of(alloc, files, fresh, &stored)?;
            Ok(Taking::Meant { file })
        }
        UpdateRun::Replaced {
            stored,
            certificate,
        } => {
            let file = file_of(alloc, files, fresh, &stored)?;
            if is_meant {
                return Ok(Taking::Meant { file });
            }
            let load = load_of(alloc, files, &certificate)?;
            Ok(Taking::Follows { file, load })
        }
    }
}

/// Returns what a client sends to have a running service load the table of these files with this
/// certificate, if there is one.
fn load_of(
    alloc: Global,
    files: &UpdateFiles,
    certificate: &Option<String>,
) -> Result<Option<ClientRequests>, Fault>
    ensures { IfOk result
        (λ load. IsLoad files.now (option_map string_bytes certificate.now) load) }
{
    match certificate {
        Some(certificate) => {
            let load = load_requests(alloc, &files.new, certificate.as_bytes())?;
            Ok(Some(load))
        }
        None => Ok(None),
    }
}

/// Returns the file of the table of these files with this payload; its loads may list these keysyms
/// as fresh.
fn file_of(
    alloc: Global,
    files: &UpdateFiles,
    fresh: &[Keysym],
    payload: &[u8],
) -> Result<Vec<u8>, Fault>
    ensures { IfOk result (λ file. IsFile files.now fresh.now payload.now file.items) }
{
    let parts = TableParts {
        rule: Rule::Longest,
        repertoire: &files.repertoire,
        names: kept_names(&files.names.lines),
        fresh,
        payload,
    };
    match write_table(alloc, &parts) {
        Ok(file) => Ok(file),
        Err(StoredFault::NoMemory) => Err(Fault::NoMemory),
        Err(fault) => Err(Fault::refused("state", format!(in alloc; "{fault}"))),
    }
}

/// Stores the table while no service runs, if it follows or is meant. Returns what is printed, or
/// the reason if it can't be stored.
/// Errors: `AllocError` if memory runs out.
pub fn take_alone<F: TableFolder>(
    alloc: Global,
    folder: &mut F,
    taking: Taking,
) -> Result<Result<Outcome, ErrorKind>, AllocError>
    ensures { TakesHere taking (F.stored folder.old) (F.stored folder.new) result }
{
    match taking {
        Taking::Refused(outcome) => Ok(Ok(outcome)),
        Taking::Same => same(alloc),
        Taking::Follows { file, load: _ } => store(alloc, folder, &file, ""),
        Taking::Meant { file } => store(alloc, folder, &file, MEANT),
    }
}

/// Returns what is printed if the table is in use already.
fn same(alloc: Global) -> Result<Result<Outcome, ErrorKind>, AllocError>
    ensures { OnOkOk result (λ outcome. PrintsNoted [] words.unchanged outcome) }
{
    match printed(alloc, "unchanged\n", "") {
        Ok(outcome) => Ok(Ok(outcome)),
        Err(error) => Err(error),
    }
}

/// Stores a file, and returns what is printed, with this note.
fn store<F: TableFolder>(
    alloc: Global,
    folder: &mut F,
    file: &[u8],
    note: &str,
) -> Result<Result<Outcome, ErrorKind>, AllocError>
    ensures { Stores note.now file.now (F.stored folder.old) (F.stored folder.new) result }
{
    match printed(alloc, "stored\n", note) {
        Ok(outcome) => match folder.replace(alloc, file) {
            Ok(()) => Ok(Ok(outcome)),
            Err(why) => Ok(Err(why)),
        },
        Err(error) => Err(error),
    }
}

/// Returns the outcome that prints this line, after this note.
fn printed(alloc: Global, line: &str, note: &str) -> Result<Outcome, AllocError>
    ensures { IfOk result (λ outcome. PrintsNoted note.now line.now outcome) }
{
    let line = String::from_str(alloc, line)?;
    let note = String::from_str(alloc, note)?;
    Ok(Outcome::of_output(alloc, line, Ended::Yes).with_notes(note))
}

/// Has the running service take the table: one that follows is loaded, and one that is meant is
/// handed over. Returns what is printed, or the reason if it can't be handed over.
/// Errors: what the service gives if the load can't be sent or its reply is malformed; `NoMemory` if
/// memory runs out.
pub fn take_running<P: Peer, H: HandOver>(
    alloc: Global,
    service: &mut P,
    folder: &mut H,
    taking: Taking,
) -> Result<Result<Outcome, ErrorKind>, Fault>
    ensures { OnOkOk result
        (λ outcome. TakesRunning taking (P.turns service.old) (P.turns service.new)
        (H.handed folder.old) (H.handed folder.new) outcome) }
{
    match taking {
        Taking::Refused(outcome) => Ok(Ok(outcome)),
        Taking::Same => Ok(same(alloc)?),
        Taking::Follows { file, load } => match load {
            Some(load) => Ok(Ok(load_running(alloc, service, load)?)),
            None => Ok(handed_over(alloc, folder, &file)?),
        },
        Taking::Meant { file } => Ok(handed_over(alloc, folder, &file)?),
    }
}

/// Has the running service load a table. Returns what is printed.
fn load_running<P: Peer>(
    alloc: Global,
    service: &mut P,
    load: ClientRequests,
) -> Result<Outcome, Fault>
    ensures { IfOk result
        (λ outcome. IsLoaded load (P.turns service.old) (P.turns service.new) outcome) }
{
    let outcome = run_exchange(alloc, service, load)?;
    match outcome.ended {
        Ended::Yes => {
            let stored = printed(alloc, "stored\n", "")?;
            Ok(outcome.followed_by(&stored)?)
        }
        _ => Ok(outcome),
    }
}

/// Hands a table over to the running service. Returns what is printed, or why it can't be written.
fn handed_over<H: HandOver>(
    alloc: Global,
    folder: &mut H,
    file: &[u8],
) -> Result<Result<Outcome, ErrorKind>, AllocError>
    ensures handed { H.handed folder.new ≡ more (H.handed folder.old) file.now }
    ensures prints { OnOkOk result (λ outcome. IsHandedOver outcome) }
{
    match folder.hand_over(alloc, file) {
        Handed::Taken => taken(alloc),
        Handed::Waits => waits(alloc),
        Handed::Unwritten(why) => Ok(Err(why)),
    }
}

/// Returns what is printed if the service has taken a table.
fn taken(alloc: Global) -> Result<Result<Outcome, ErrorKind>, AllocError>
    ensures { OnOkOk result (λ outcome. IsHandedOver outcome) }
{
    match printed(alloc, "stored\n", TAKEN) {
        Ok(outcome) => Ok(Ok(outcome)),
        Err(error) => Err(error),
    }
}

/// Returns what is printed if the service has not taken a table in time.
fn waits(alloc: Global) -> Result<Result<Outcome, ErrorKind>, AllocError>
    ensures { OnOkOk result (λ outcome. IsHandedOver outcome) }
{
    match String::from_str(alloc, WAITING) {
        Ok(line) => Ok(Ok(Outcome::of_errors(alloc, line, Ended::Refused))),
        Err(error) => Err(error),
    }
}
