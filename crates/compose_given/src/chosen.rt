//! The Compose file that is given, or otherwise that of the user.
ghost use Rattle.std.specs.Prelude.{◌≡◌, ◌++◌, None, Ok, map, option_copied, IfOk, IfErr, string_bytes};
ghost use Rattle.compose_given.specs.Environment as spec;
ghost use Rattle.compose_given.specs.Environment.{ReturnsPlaces};
ghost use Rattle.compose_given.specs.Faults.{FailsChosen, FailsChosenTable, OrMemory};
ghost use Rattle.compose_given.specs.Noted.{IsNotedTable, rule_unless, table_places};
ghost use Rattle.compose_given.specs.Own as own;
ghost use Rattle.compose_given.specs.Own.{IsChosen, IsOwnFile, own_note};

use crate::environment::{Environment, PlaceArguments};
use compose_arguments::TableArguments;
use compose_folder::{Folder, ReadOnce};
use compose_input::{Fault, Places, TableFiles};
use compose_model::Rule;
use compose_shown::Shown;
use compose_user::{UserFolders, first_file, user_paths};
use std::alloc::{AllocError, Global};

/// The files of a table, and notes on where they lie.
#[derive(Drop)]
pub struct NotedTable {
    /// The files of the table.
    pub table: TableFiles,
    /// The notes, as lines.
    pub notes: String,
}

/// Returns a text followed by another one.
pub fn joined(alloc: Global, first: &str, second: &str) -> Result<String, AllocError>
    ensures { IfOk result (λ text. string_bytes text ≡ first.now ++ second.now) }
{
    let mut text = String::from_str(alloc, first)?;
    text.push_str(second)?;
    Ok(text)
}

/// Reads the Compose file at these places as it is on the system; if none is given, that of the
/// user, and a note on it comes first.
pub fn chosen_table<F: Folder>(
    alloc: Global,
    files: &mut ReadOnce<F>,
    environment: &Environment,
    places: Places<'_>,
    arguments: &TableArguments<'_>,
) -> Result<NotedTable, Fault>
    ensures kept { files.new.holds ≡ files.old.holds }
    ensures read { IfOk result
        (λ found. IsNotedTable files.old.holds environment.now places.entry arguments.now found) }
    ensures fault { IfErr result
        (λ fault. OrMemory (FailsChosenTable files.old.holds environment.now places.entry
        (option_copied arguments.now.file)) fault) }
{
    let file = file_or_own(alloc, files, environment, places, arguments.file)?;
    let rule = rule_of(arguments);
    let table = TableFiles::found(files, alloc, places, &file.path, rule)?;
    let notes = joined(alloc, &file.note, &table.note)?;
    Ok(NotedTable { table, notes })
}

/// Returns where tables lie: as the arguments say, or otherwise the environment.
pub fn places_of<'a>(
    environment: &'a Environment,
    arguments: &TableArguments<'a>,
) -> Result<Places<'a>, Fault>
    ensures { ReturnsPlaces (table_places arguments.now) result (spec.places_of environment.now) }
{
    environment.places(PlaceArguments {
        system: arguments.system,
        locale: arguments.locale,
        root: arguments.root,
    })
}

/// Returns the rule for overlapping sequences.
fn rule_of(arguments: &TableArguments<'_>) -> Rule
    ensures { result ≡ rule_unless arguments.now.refuse_overlaps }
{
    if arguments.refuse_overlaps {
        Rule::Refuse
    } else {
        Rule::Longest
    }
}

/// The path of a Compose file, and a note on it.
#[derive(Drop)]
pub struct ChosenFile {
    /// The path.
    pub path: String,
    /// The note, as a line, or nothing if the file was given.
    pub note: String,
}

/// Returns the Compose file to read: the given one, or otherwise the user's, with a note on it.
pub fn file_or_own<F: Folder>(
    alloc: Global,
    files: &mut ReadOnce<F>,
    environment: &Environment,
    places: Places<'_>,
    given: Option<&str>,
) -> Result<ChosenFile, Fault>
    ensures kept { files.new.holds ≡ files.old.holds }
    ensures chosen { IfOk result
        (λ file. IsChosen files.old.holds environment.now places.entry (option_copied given.entry)
        file) }
    ensures fault { IfErr result
        (λ fault. FailsChosen environment.now places.entry (option_copied given.entry) fault) }
{
    match given {
        Some(path) => Ok(ChosenFile {
            path: String::from_str(alloc, path)?,
            note: String::new(alloc),
        }),
        None => {
            let path = user_file(alloc, files, environment, places)?;
            Ok(noted_file(alloc, path)?)
        }
    }
}

/// Returns a file that was not given, with a note on it.
fn noted_file(alloc: Global, path: String) -> Result<ChosenFile, AllocError>
    ensures { IfOk result
        (λ file. (file.path ≡ path) × (string_bytes file.note ≡ own_note (string_bytes path))) }
{
    let shown = Shown(&path);
    let note = format!(in alloc; "note: the Compose file is {shown}\n")?;
    Ok(ChosenFile { path, note })
}

/// Returns the path of the Compose file that libxkbcommon takes for the user: the first of the
/// user's own that exists, or otherwise that of the locale. If none exists, it is the path that is
/// tried last.
fn user_file<F: Folder>(
    alloc: Global,
    files: &mut ReadOnce<F>,
    environment: &Environment,
    places: Places<'_>,
) -> Result<String, Fault>
    ensures kept { files.new.holds ≡ files.old.holds }
    ensures own { IfOk result
        (λ path. IsOwnFile files.old.holds environment.now places.entry (string_bytes path)) }
    ensures fault { IfErr result (λ fault. FailsChosen environment.now places.entry None fault) }
{
    let paths = own_paths(alloc, environment, places)?;
    if let Some(path) = first_file(files, alloc, &paths)? {
        return Ok(path);
    }
    if let Some(path) = places.locale_table(files, alloc)? {
        return Ok(path);
    }
    Ok(last_path(alloc, paths)?)
}

/// Returns the paths at which the user's own file may be.
fn own_paths(
    alloc: Global,
    environment: &Environment,
    places: Places<'_>,
) -> Result<Vec<String>, Fault>
    ensures are { IfOk result
        (λ paths. own.own_paths environment.now places.entry
        ≡ Ok (map string_bytes paths.items)) }
    ensures fault { IfErr result (λ fault. FailsChosen environment.now places.entry None fault) }
{
    let compose_file = environment.xcomposefile.text()?;
    let config = environment.xdg_config_home.text()?;
    let folders = UserFolders {
        compose_file,
        config,
        home: places.home,
    };
    Ok(user_paths(alloc, folders)?)
}

/// Returns the last of these paths.
fn last_path(alloc: Global, paths: Vec<String>) -> Result<String, AllocError>
    ensures { IfOk result
        (λ path. own.IsLast (map string_bytes paths.items) (string_bytes path)) }
{
    let mut paths = paths;
    match paths.pop() {
        Some(path) => Ok(path),
        None => String::from_str(alloc, ".XCompose"),
    }
}
