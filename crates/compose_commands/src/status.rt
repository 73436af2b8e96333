//! `status`: which table is in use, the one before it, and whether a service serves it.
use crate::client::connect;
use crate::deadline::Deadline;
use crate::kept_serving::{names_at, stored_at};
use crate::places::{socket_path, state_folder};
use crate::state_folder::{StateFolder, read_if_there};
use compose_arguments::StatusArguments;
use compose_bundle::read_bundle;
use compose_find::beside;
use compose_input::Fault;
use compose_read::Sources;
use compose_report::Outcome;
use compose_service_runs::{
    Change, ServiceState, Status, StoredSummary, is_merged, status_outcome,
};
use compose_table_file::{StoredTable, file_path, plain_path};
use compose_tree::{BuildTable, TableFault, read_first_table};
use jiff::Timestamp;
use std::alloc::Global;
use std::fs;
use std::fs::File;
use std::io::ErrorKind;
use std::net::Net;
use std::rt::{Clock, Env, Files};
use std::time::UNIX_EPOCH;

/// Returns what is printed of the table in use, the one before it, and the service.
/// Errors: a fault of the folder; `Word` if a variable of the environment that is needed is not
/// UTF-8; `NoMemory` if memory runs out.
pub fn status<T: BuildTable>(
    rt: &(impl Clock + Env + Files<File = File> + Net + AllocGlobal),
    arguments: &StatusArguments<'_>,
) -> Result<Outcome, Fault> {
    let alloc = rt.alloc();
    let folder = state_folder(rt, arguments.state)?;
    let socket = socket_path(rt, arguments.socket)?;
    let mut changes = Vec::new(alloc);
    let in_use = summary_of::<T>(rt, &folder.table, Some(&mut changes))?;
    let status = Status {
        in_use,
        changes,
        before: summary_of::<T>(rt, &folder.previous, None)?,
        is_next_there: is_there(rt, &folder.next),
        service: service_state(rt, &folder, socket)?,
    };
    Ok(status_outcome(alloc, &status, arguments.form)?)
}

/// Returns what is stored in the file at this path, if it is there, and adds which of the files that
/// its table came from have changed since.
fn summary_of<T: BuildTable>(
    rt: &(impl Files + AllocGlobal),
    path: &str,
    changes: Option<&mut Vec<Change>>,
) -> Result<Option<StoredSummary>, Fault> {
    let alloc = rt.alloc();
    let Some(bytes) = read_if_there(rt, path)? else {
        return Ok(None);
    };
    let stored = stored_at(alloc, path, &bytes)?;
    let Ok(bundle) = read_bundle(alloc, stored.payload) else {
        return Err(Fault::refused("state", format!(in alloc; "{path}: 1 Form")));
    };
    let made = usize::from(is_merged(alloc, &bundle.sources)?);
    if let Some(changes) = changes {
        add_changes(rt, &bundle.sources, made, changes)?;
    }
    Ok(Some(StoredSummary {
        origin: plain_path(alloc, bundle.sources.name(0).unwrap_or(""))?,
        stored: date_of(rt, path)?,
        sequences: sequences_of::<T>(alloc, path, &bundle.sources, &stored)?,
        files: bundle.sources.count().saturating_sub(made),
        names: name_count(&stored.names),
    }))
}

/// Returns how many names these lines define; `None` if there are no lines, so that the names are
/// the built-in ones.
fn name_count(lines: &[u8]) -> Option<u32> {
    if lines.is_empty() {
        return None;
    }
    let defined = lines
        .split(|byte| *byte == b'\n')
        .filter(|line| line.starts_with(b"#define"));
    Some(u32::try_from(defined.count()).unwrap_or(u32::MAX))
}

/// Returns the number of sequences of the table of these sources, which this file keeps.
fn sequences_of<T: BuildTable>(
    alloc: Global,
    path: &str,
    sources: &Sources,
    stored: &StoredTable<'_>,
) -> Result<u32, Fault> {
    let names = names_at(alloc, path, &stored.names)?;
    let read: Result<T, TableFault> = read_first_table(alloc, &names, sources, stored.rule);
    match read {
        Ok(table) => Ok(table.leaf_count()),
        Err(TableFault::NoMemory) => Err(Fault::NoMemory),
        Err(fault) => Err(Fault::refused("state", format!(in alloc; "{path}: {fault}"))),
    }
}

/// Returns when the file at this path was written, or an empty text if that is not known.
fn date_of(rt: &(impl Files + AllocGlobal), path: &str) -> Result<String, Fault> {
    let alloc = rt.alloc();
    let Some(written) = time_of(rt, path) else {
        return Ok(String::new(alloc));
    };
    Ok(format!(in alloc; "{written}")?)
}

/// Returns when the file at this path was written, in whole seconds, if that is known.
fn time_of(rt: &impl Files, path: &str) -> Option<Timestamp> {
    let written = fs::metadata(rt, path).ok()?.modified().ok()?;
    let since = written.duration_since(UNIX_EPOCH).ok()?;
    Timestamp::from_second(i64::try_from(since.as_secs()).ok()?).ok()
}

/// Adds which of the files of these sources have changed since the table was stored. The first ones,
/// so many, are no files: `update` made them.
fn add_changes(
    rt: &(impl Files + AllocGlobal),
    sources: &Sources,
    made: usize,
    changes: &mut Vec<Change>,
) -> Result<(), Fault> {
    for index in made..sources.count() {
        if let Some(change) = change_of(rt, sources, index)? {
            changes.push(change)?;
        }
    }
    Ok(())
}

/// Returns how the file of this source has changed since the table was stored, if it has. Where a
/// relative path goes from is not known of a table that a client loaded: its file is not looked at.
fn change_of(
    rt: &(impl Files + AllocGlobal),
    sources: &Sources,
    index: usize,
) -> Result<Option<Change>, Fault> {
    let Some(name) = sources.name(index) else {
        return Ok(None);
    };
    let Some(path) = path_of(rt, sources, name)? else {
        return Ok(None);
    };
    match fs::read(rt, path.as_str()) {
        Ok(bytes) if index < sources.count() && bytes.as_slice() == sources.bytes(index) => Ok(
            None,
        ),
        Ok(_) => Ok(Some(Change {
            path,
            is_gone: false,
        })),
        Err(error) if error.kind() == ErrorKind::OutOfMemory => Err(Fault::NoMemory),
        Err(_) => Ok(Some(Change {
            path,
            is_gone: true,
        })),
    }
}

/// Returns the path of the file of the source with this name, as an include finds it: from the folder
/// in which the table was taken, or beside another file of the table.
fn path_of(
    rt: &(impl Files + AllocGlobal),
    sources: &Sources,
    name: &str,
) -> Result<Option<String>, Fault> {
    let root = sources.name(0).unwrap_or("");
    let Some(path) = file_path(rt.alloc(), root, name)? else {
        return Ok(None);
    };
    if is_there(rt, &path) {
        return Ok(Some(path));
    }
    for index in 0..sources.count() {
        let other = file_path(rt.alloc(), root, sources.name(index).unwrap_or(""))?;
        let beside = beside(rt.alloc(), other.as_deref().unwrap_or(""), name)?;
        if is_there(rt, &beside) {
            return Ok(Some(beside));
        }
    }
    Ok(Some(path))
}

/// Returns whether a file is at this path.
fn is_there(rt: &impl Files, path: &str) -> bool {
    matches!(fs::exists(rt, path), Ok(true))
}

/// Returns whether a service has the folder, and whether it can be reached.
fn service_state(
    rt: &(impl Clock + Files<File = File> + Net + AllocGlobal),
    folder: &StateFolder,
    socket: Option<String>,
) -> Result<ServiceState, Fault> {
    if !folder.is_locked(rt)? {
        return Ok(ServiceState::None);
    }
    match socket {
        Some(socket) if connect(rt, &socket, &Deadline::after(rt, 1)).is_ok() => {
            Ok(ServiceState::Serves(socket))
        }
        _ => Ok(ServiceState::Unreached),
    }
}
