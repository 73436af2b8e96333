//! The files that a reader reads for a table.
ghost use Rattle.std.specs.Prelude.{◌≡◌, ◌+◌, ◌<◌, ◌≤◌, ◌++◌, [], Err, length, map, option_map, IfOk, IfErr, OnOk, get_or};
ghost use Rattle.compose_input.specs.Search as search;
ghost use Rattle.compose_input.specs.Texts.{IsRead};
ghost use Rattle.compose_listed_as.specs.Reached as words;
ghost use Rattle.compose_listed_as.specs.Reached.{AreReached};
ghost use Rattle.compose_readers.specs.Ends.{end_of};
ghost use Rattle.compose_listed_as.specs.Reading.{AddsPath, AreReachedBy, IsFoundAt, includes_before};

use compose_folder::{Folder, ReadOnce, Unread};
use compose_input::{Fault, read_text};
use compose_readers::xkbcommon::Reader;
use compose_readers::{FileRead, LineEnd};
use std::alloc::{AllocError, Global};

/// Reads the file at this path, and all files to which includes lead from it; a path at which
/// nothing can be read is passed over. O(bytes), and O(f) for each include of f files.
///
/// Errors: `Unread` if the file itself can't be read, or `NoMemory` if memory runs out.
pub fn read_files<F: Folder>(
    alloc: Global,
    files: &mut ReadOnce<F>,
    reader: &Reader<'_>,
    root: &str,
) -> Result<Vec<FileRead>, Fault>
    ensures kept { files.new.holds ≡ files.old.holds }
    ensures read { IfOk result
        (λ read. AreReached files.old.holds reader.now.version root.now read.items) }
    ensures fault { IfErr result (λ fault. IsRead files.old.holds root.now (Err fault)) }
{
    let mut read = read_root(alloc, files, reader, root)?;
    for at in 0..usize::MAX {
        if at >= read.len() {
            return Ok(read);
        }
        add_includes(alloc, files, reader, root, &mut read, at)?;
    }
    Err(Fault::NoMemory)
}

/// Reads the file at the path of the root.
fn read_root<F: Folder>(
    alloc: Global,
    files: &mut ReadOnce<F>,
    reader: &Reader<'_>,
    root: &str,
) -> Result<Vec<FileRead>, Fault>
    ensures kept { files.new.holds ≡ files.old.holds }
    ensures read { IfOk result
        (λ read. AreReachedBy files.old.holds reader.now.version root.now [] read.items) }
    ensures fault { IfErr result (λ fault. IsRead files.old.holds root.now (Err fault)) }
{
    let bytes = read_text(files, alloc, root)?;
    let path = Vec::from_slice(alloc, root.as_bytes())?;
    let mut read = Vec::new(alloc);
    read.push(reader.file(alloc, path, &bytes)?)?;
    Ok(read)
}

/// Reads the files that the file with this index includes, as far as they aren't there.
fn add_includes<F: Folder>(
    alloc: Global,
    files: &mut ReadOnce<F>,
    reader: &Reader<'_>,
    root: &str,
    read: &mut Vec<FileRead>,
    at: usize,
) -> Result<(), AllocError>
    requires inside { at < length read.old.items }
    requires reached { AreReachedBy files.old.holds reader.now.version root.now
        (includes_before read.old.items at) read.old.items }
    ensures kept { files.new.holds ≡ files.old.holds }
    ensures reached { OnOk result (AreReachedBy files.old.holds reader.now.version root.now
        (includes_before read.new.items (at + 1)) read.new.items) }
    ensures grown { OnOk result (at + 1 ≤ length read.new.items) }
{
    let paths = included_paths(alloc, &read[at])?;
    for path in &paths {
        add_path(alloc, files, reader, root, read, path)?;
    }
    Ok(())
}

/// Returns the paths that a file includes.
fn included_paths(alloc: Global, file: &FileRead) -> Result<Vec<Vec<u8>>, AllocError>
    ensures { IfOk result
        (λ paths. map (λ path. path.items) paths.items ≡ words.includes_of file.now) }
{
    let mut paths = Vec::new(alloc);
    for line in &file.lines {
        push_included(alloc, &mut paths, &line.end)?;
    }
    Ok(paths)
}

/// Appends the path that the end of a line includes, if it does.
fn push_included(alloc: Global, paths: &mut Vec<Vec<u8>>, end: &LineEnd) -> Result<(), AllocError>
    ensures { OnOk result
        (map (λ path. path.items) paths.new.items
        ≡ map (λ path. path.items) paths.old.items ++ words.included (end_of end.now)) }
{
    match end {
        LineEnd::Includes(path) => paths.push(Vec::from_slice(alloc, path)?)?,
        LineEnd::LeftOut(_) | LineEnd::Nothing => {}
    }
    Ok(())
}

/// Reads the file at this path and appends it, unless it is there or can't be read.
fn add_path<F: Folder>(
    alloc: Global,
    files: &mut ReadOnce<F>,
    reader: &Reader<'_>,
    root: &str,
    read: &mut Vec<FileRead>,
    path: &[u8],
) -> Result<(), AllocError>
    ensures kept { files.new.holds ≡ files.old.holds }
    ensures added { OnOk result (AddsPath files.old.holds reader.now.version root.now path.now
        read.old.items read.new.items) }
{
    if is_among(read, path) {
        return Ok(());
    }
    let Some(bytes) = found_at(alloc, files, root, path)? else {
        return Ok(());
    };
    let path = Vec::from_slice(alloc, path)?;
    read.push(reader.file(alloc, path, &bytes)?)?;
    Ok(())
}

/// Returns whether one of these files has the path.
fn is_among(files: &[FileRead], path: &[u8]) -> bool
    ensures { result ≡ words.is_among files.now path.now }
{
    files.iter().any(|file| file.path.as_slice() == path)
}

/// Returns the bytes of the file at this path, if one can be read there.
fn found_at<F: Folder>(
    alloc: Global,
    files: &mut ReadOnce<F>,
    root: &str,
    path: &[u8],
) -> Result<Option<Vec<u8>>, AllocError>
    ensures kept { files.new.holds ≡ files.old.holds }
    ensures found { IfOk result
        (λ bytes. IsFoundAt files.old.holds root.now path.now (option_map (λ b. b.items) bytes)) }
{
    let Ok(path) = str::from_utf8(path) else {
        return Ok(None);
    };
    match files.read(alloc, opened(root, path)) {
        Ok(bytes) => Ok(Some(bytes)),
        Err(Unread::Refused(_)) => Ok(None),
        Err(Unread::NoMemory) => Err(AllocError),
    }
}

/// Returns what is opened for the path of an include: a hyphen is a file name, unless the table is
/// read from standard input.
fn opened<'p>(root: &str, path: &'p str) -> &'p str
    ensures { result.now ≡ search.opened root.now path.now }
{
    if path == "-" && root != "-" {
        return "./-";
    }
    path
}
