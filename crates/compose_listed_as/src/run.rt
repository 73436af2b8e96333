//! `list --as`: a Compose file as another reader has it.
ghost use Rattle.std.specs.Prelude.{◌≡◌, ◌<◌, length, option_copied, IfOk, IfErr, Ok, string_bytes};
ghost use Rattle.builtin_names.specs.declared.lines.TheConstants.{LINES};
ghost use Rattle.keysym_core.specs.Header.{names_of};
ghost use Rattle.compose_input.specs.Texts.{IsRead};
ghost use Rattle.compose_listed_as.specs.Run as words;
ghost use Rattle.compose_listed_as.specs.Run.{FailsListAs, IsListAsRun, IsListedAt, PrintsListed};

use crate::listed::{ListedAs, list_as};
use crate::reading::read_files;
use compose_answer::Ended;
use compose_arguments::{ListAsArguments, TableReader};
use compose_folder::{Folder, ReadOnce};
use compose_given::{Environment, PlaceArguments, file_or_own};
use compose_input::{Fault, Places};
use compose_readers::xkbcommon::{Meanings, Reader, Version};
use compose_report::Outcome;
use keysym_core::Names;
use std::alloc::{AllocError, Global};

/// Returns the outcome of `list --as`: the definitions that the reader takes, and a report of what
/// it doesn't, or why it refuses the table. Takes the time of `read_files` and of `list_as`.
/// Errors: that the file itself can't be read; `Word` if a variable of the environment that is
/// needed is not UTF-8; `NoMemory` if memory runs out.
pub fn run_list_as<F: Folder>(
    alloc: Global,
    files: &mut ReadOnce<F>,
    environment: &Environment,
    arguments: &ListAsArguments<'_>,
) -> Result<Outcome, Fault>
    ensures kept { files.new.holds ≡ files.old.holds }
    ensures outcome { IfOk result
        (λ outcome. IsListAsRun files.old.holds environment.now arguments.now outcome) }
    ensures fault { IfErr result
        (λ fault. FailsListAs files.old.holds environment.now arguments.now fault) }
{
    let places = environment.places(place_arguments(arguments))?;
    let file = file_or_own(alloc, files, environment, places, arguments.file)?;
    let version = version_of(arguments.reader);
    let listed = listed_at(alloc, files, places, version, &file.path)?;
    Ok(outcome_of(file.note, listed))
}

/// Returns where tables lie, as the arguments say it.
fn place_arguments<'a>(arguments: &ListAsArguments<'a>) -> PlaceArguments<'a>
    ensures { result ≡ words.place_arguments arguments.now }
{
    PlaceArguments {
        system: arguments.system,
        locale: arguments.locale,
        root: None,
    }
}

/// Returns the version of libxkbcommon.
fn version_of(reader: TableReader) -> Version
    ensures { result ≡ words.version_of reader }
{
    match reader {
        TableReader::Libxkbcommon1_5 => Version::V1_5,
        TableReader::Libxkbcommon1_7 => Version::V1_7,
    }
}

/// Returns the table of the file at this path as the reader has it, with the names that are built
/// in.
fn listed_at<F: Folder>(
    alloc: Global,
    files: &mut ReadOnce<F>,
    places: Places<'_>,
    version: Version,
    path: &str,
) -> Result<ListedAs, Fault>
    ensures kept { files.new.holds ≡ files.old.holds }
    ensures listed { IfOk result (λ listed. IsListedAt files.old.holds version path.now listed) }
    ensures fault { IfErr result (λ fault. IsRead files.old.holds path.now (Err fault)) }
{
    let locale = places.locale_table(files, alloc)?;
    let setting = setting_of(alloc, places, locale)?;
    listed_in(alloc, files, &setting, version, path)
}

/// What a reader reads beside files.
#[derive(Drop)]
struct Setting {
    /// The names of keys.
    names: Names,
    /// The user's home folder, the path of the locale's table, and the system's folder.
    home: Option<String>,
    locale: Option<String>,
    system: String,
}

/// Returns the names that are built in, and what the paths of includes are made of; the locale's
/// table has this path.
fn setting_of(
    alloc: Global,
    places: Places<'_>,
    locale: Option<String>,
) -> Result<Setting, AllocError>
    ensures { IfOk result (λ setting. names_of LINES.now ≡ Ok setting.names) }
{
    let home = match places.home {
        Some(home) => Some(String::from_str(alloc, home)?),
        None => None,
    };
    Ok(Setting {
        names: Names::built_in(),
        home,
        locale,
        system: String::from_str(alloc, places.system)?,
    })
}

/// Returns the same, with these names and paths.
fn listed_in<F: Folder>(
    alloc: Global,
    files: &mut ReadOnce<F>,
    setting: &Setting,
    version: Version,
    path: &str,
) -> Result<ListedAs, Fault>
    requires { names_of LINES.now ≡ Ok setting.now.names }
    ensures kept { files.new.holds ≡ files.old.holds }
    ensures listed { IfOk result (λ listed. IsListedAt files.old.holds version path.now listed) }
    ensures fault { IfErr result (λ fault. IsRead files.old.holds path.now (Err fault)) }
{
    let reader = Reader {
        version,
        names: &setting.names,
        meanings: Meanings {
            home: bytes_of(setting.home.as_deref()),
            locale: bytes_of(setting.locale.as_deref()),
            system: setting.system.as_bytes(),
        },
    };
    let read = read_files(alloc, files, &reader, path)?;
    Ok(list_as(alloc, &reader, &read)?)
}

/// Returns the bytes of a text, if there is one.
fn bytes_of(text: Option<&str>) -> Option<&[u8]>
    ensures { option_copied result ≡ option_copied text.entry }
{
    match text {
        Some(text) => Some(text.as_bytes()),
        None => None,
    }
}

/// Returns the outcome of the table, after this note.
fn outcome_of(note: String, listed: ListedAs) -> Outcome
    ensures { PrintsListed (string_bytes note) listed result }
{
    Outcome {
        notes: note,
        output: listed.lines,
        errors: listed.report,
        file: None,
        ended: end_of(listed.is_refused),
    }
}

/// Returns how a run ends in which the reader refuses the table or not.
fn end_of(is_refused: bool) -> Ended
    ensures { result ≡ words.end_of is_refused }
{
    if is_refused {
        Ended::Refused
    } else {
        Ended::Yes
    }
}
