//! The files of a Compose file as it lies on a system.
ghost use Rattle.std.specs.Prelude.{◌≡◌, None, map, option_copied, IfOk, IfErr, string_bytes};
ghost use Rattle.compose_find.specs.FindReturns.{words};
ghost use Rattle.compose_input.specs.Faults as faults;
ghost use Rattle.compose_input.specs.Faults.{AreUnopened, FailsFound, FailsSearch, IsKind, IsMissingRoot, IsTriedFault, IsUnopened};
ghost use Rattle.compose_input.specs.Places.{words_with};
ghost use Rattle.compose_input.specs.Search.{IsTable, IsSystemTable, opened};

use crate::fault::{Fault, Unopened};
use crate::places::{Places, found, joined};
use compose_find::{FindFault, FoundTable, Meanings, beside, find_sources, law_any_locale};
use compose_folder::{Folder, ReadOnce, Unread};
use std::alloc::{AllocError, Global};
use std::io::ErrorKind;

/// Finds and reads the files of the Compose file at this path, includes followed; `-` is standard
/// input. O(bytes), and O(s * i) in the sources and their includes for each file that is searched
/// for. The files that list the tables of locales are read only if the search fails without them,
/// as it does at a `%L`.
///
/// Errors: `Unread` if the file itself can't be read, `Find` if an include has no file or leads
/// nowhere, or `NoMemory` if memory runs out.
pub fn find_files<F: Folder>(
    files: &mut ReadOnce<F>,
    alloc: Global,
    places: Places<'_>,
    file: &str,
) -> Result<FoundTable, Fault>
    ensures kept { files.new.holds ≡ files.old.holds }
    ensures found { IfOk result
        (λ table. IsSystemTable files.old.holds places.entry file.now table) }
    ensures fault { IfErr result
        (λ fault. FailsFound files.old.holds places.entry file.now fault) }
{
    law_any_locale();
    match search_without_locale(files, alloc, places, file) {
        Ok(table) => Ok(table),
        Err(_) => search_with_locale(files, alloc, places, file),
    }
}

/// Does the same without a table of the locale: an include with `%L` leads nowhere.
fn search_without_locale<F: Folder>(
    files: &mut ReadOnce<F>,
    alloc: Global,
    places: Places<'_>,
    file: &str,
) -> Result<FoundTable, Fault>
    ensures kept { files.new.holds ≡ files.old.holds }
    ensures found { IfOk result
        (λ table. IsTable files.old.holds (words_with places.entry None) file.now table) }
{
    search(files, alloc, places.meanings(None), file)
}

/// Does the same with the table of the locale, which is found first.
fn search_with_locale<F: Folder>(
    files: &mut ReadOnce<F>,
    alloc: Global,
    places: Places<'_>,
    file: &str,
) -> Result<FoundTable, Fault>
    ensures kept { files.new.holds ≡ files.old.holds }
    ensures found { IfOk result
        (λ table. IsSystemTable files.old.holds places.entry file.now table) }
    ensures fault { IfErr result
        (λ fault. FailsFound files.old.holds places.entry file.now fault) }
{
    let locale = places.locale_table(files, alloc)?;
    search(files, alloc, places.meanings(locale.as_deref()), file)
}

/// Returns the files of the table whose root is at this path. Each search asks for one more path,
/// until all are there.
fn search<F: Folder>(
    files: &mut ReadOnce<F>,
    alloc: Global,
    meanings: Meanings<'_>,
    root: &str,
) -> Result<FoundTable, Fault>
    ensures kept { files.new.holds ≡ files.old.holds }
    ensures found { IfOk result
        (λ table. IsTable files.old.holds (words meanings.entry) root.now table) }
    ensures fault { IfErr result
        (λ fault. FailsSearch files.old.holds (words meanings.entry) root.now fault) }
{
    let mut looked = compose_find::Files::new(alloc);
    for _ in 0..u64::MAX {
        match find_sources(alloc, &looked, meanings, root) {
            Ok(sources) => return Ok(FoundTable::new(alloc, looked, sources)?),
            Err(FindFault::Wanted { path }) => {
                let bytes = found(files, alloc, opened(&path, root))?;
                looked.add(alloc, &path, bytes)?;
            }
            Err(FindFault::NoMemory) => return Err(Fault::NoMemory),
            Err(FindFault::MissingRoot { path }) => {
                return Err(missing_root(files, alloc, root, &path)?);
            }
            Err(fault) => return Err(include_fault(files, alloc, meanings, root, fault)?),
        }
    }
    Err(Fault::NoMemory)
}

/// Returns what is opened for a path: `-` is standard input if it was given as the root, and
/// otherwise an ordinary file name.
fn opened<'p>(path: &'p str, root: &str) -> &'p str
    ensures { result.now ≡ opened root.now path.now }
{
    if path == "-" && root != "-" {
        return "./-";
    }
    path
}

/// Returns the fault that the root can't be read, with the reason.
fn missing_root<F: Folder>(
    files: &mut ReadOnce<F>,
    alloc: Global,
    root: &str,
    path: &str,
) -> Result<Fault, AllocError>
    ensures kept { files.new.holds ≡ files.old.holds }
    ensures is { IfOk result
        (λ fault. IsMissingRoot files.old.holds root.now path.now fault) }
{
    Ok(Fault::Unread(unopened(files, alloc, root, path)?))
}

/// Returns the fault that an include has no file or leads nowhere, with the paths at which its file
/// was searched for.
fn include_fault<F: Folder>(
    files: &mut ReadOnce<F>,
    alloc: Global,
    meanings: Meanings<'_>,
    root: &str,
    fault: FindFault,
) -> Result<Fault, AllocError>
    ensures kept { files.new.holds ≡ files.old.holds }
    ensures is { IfOk result
        (λ found. IsTriedFault files.old.holds (words meanings.entry) root.now fault found) }
{
    let places = tried_places(alloc, meanings.root, &fault)?;
    let tried = all_unopened(files, alloc, root, &places)?;
    Ok(Fault::Find { fault, tried })
}

/// Returns the reason why nothing is read at each of these paths.
fn all_unopened<F: Folder>(
    files: &mut ReadOnce<F>,
    alloc: Global,
    root: &str,
    paths: &[String],
) -> Result<Vec<Unopened>, AllocError>
    ensures kept { files.new.holds ≡ files.old.holds }
    ensures are { IfOk result
        (λ tried. AreUnopened files.old.holds root.now (map string_bytes paths.now) tried.items) }
{
    let mut tried = Vec::new(alloc);
    for path in paths {
        tried.push(unopened(files, alloc, root, path)?)?;
    }
    Ok(tried)
}

/// Returns the paths at which the file of an include was searched for, in that order; none if the
/// search ended for another reason.
fn tried_places(
    alloc: Global,
    root: Option<&str>,
    fault: &FindFault,
) -> Result<Vec<String>, AllocError>
    ensures { IfOk result
        (λ places. map string_bytes places.items
        ≡ faults.places_of (option_copied root.entry) fault.now) }
{
    let mut places = Vec::new(alloc);
    let FindFault::MissingFile { from, path, .. } = fault else {
        return Ok(places);
    };
    if let (Some(root), true) = (root, path.starts_with('/')) {
        places.push(joined(alloc, root, path)?)?;
    }
    places.push(String::from_str(alloc, path)?)?;
    let other = beside(alloc, from, path)?;
    if other != *path {
        places.push(other)?;
    }
    Ok(places)
}

/// Returns the reason why nothing is read at this path: `NotFound` if it can be read by now.
fn unopened<F: Folder>(
    files: &mut ReadOnce<F>,
    alloc: Global,
    root: &str,
    path: &str,
) -> Result<Unopened, AllocError>
    ensures kept { files.new.holds ≡ files.old.holds }
    ensures is { IfOk result
        (λ unopened. IsUnopened files.old.holds root.now path.now unopened) }
{
    let kind = kind_at(files, alloc, opened(path, root))?;
    let path = String::from_str(alloc, path)?;
    Ok(Unopened { path, kind })
}

/// Returns the reason why nothing is read from what is opened at this path: `NotFound` if it can be
/// read by now.
fn kind_at<F: Folder>(
    files: &mut ReadOnce<F>,
    alloc: Global,
    path: &str,
) -> Result<ErrorKind, AllocError>
    ensures kept { files.new.holds ≡ files.old.holds }
    ensures is { IfOk result (λ kind. IsKind files.old.holds path.now kind) }
{
    match files.read(alloc, path) {
        Ok(_) => Ok(ErrorKind::NotFound),
        Err(Unread::Refused(kind)) => Ok(kind),
        Err(Unread::NoMemory) => Err(AllocError),
    }
}
