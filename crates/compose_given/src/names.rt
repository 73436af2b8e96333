//! The names that are given, or the built-in ones.
ghost use Rattle.std.specs.Prelude.{◌≡◌, map, IfOk, IfErr};
ghost use Rattle.compose_input.specs.Faults.{FailNames};
ghost use Rattle.compose_input.specs.Names.{AreNames};
ghost use Rattle.compose_given.specs.Names.{names_for, names_or_builtin};

use compose_folder::{Folder, ReadOnce};
use compose_input::{Fault, NameFiles};
use std::alloc::Global;

/// Reads the files of names; for Compose files takes the built-in names if none are given.
/// O(bytes).
/// Errors: the fault of the first file that can't be read; `NoMemory` if memory runs out.
pub fn read_names_for<'n, F: Folder>(
    files: &mut ReadOnce<F>,
    alloc: Global,
    are_files: bool,
    names: &[&'n str],
) -> Result<NameFiles<'n>, Fault>
    ensures kept { files.new.holds ≡ files.old.holds }
    ensures read { IfOk result
        (λ read. AreNames files.old.holds (names_for are_files (map (λ name. name.now) names.now))
        read) }
    ensures fault { IfErr result
        (λ fault. FailNames files.old.holds (names_for are_files (map (λ name. name.now) names.now))
        fault) }
{
    if are_files {
        read_names(files, alloc, names)
    } else {
        NameFiles::read(files, alloc, names)
    }
}

/// Reads the files of names, or takes the built-in names if none are given. O(bytes).
///
/// Errors: the fault of the first file that can't be read; `NoMemory` if memory runs out.
pub fn read_names<'n, F: Folder>(
    files: &mut ReadOnce<F>,
    alloc: Global,
    names: &[&'n str],
) -> Result<NameFiles<'n>, Fault>
    ensures kept { files.new.holds ≡ files.old.holds }
    ensures read { IfOk result
        (λ read. AreNames files.old.holds
        (names_or_builtin (map (λ name. name.now) names.now)) read) }
    ensures fault { IfErr result
        (λ fault. FailNames files.old.holds
        (names_or_builtin (map (λ name. name.now) names.now)) fault) }
{
    if names.is_empty() {
        let builtin: &'n str = "builtin";
        return NameFiles::read(files, alloc, &[builtin]);
    }
    NameFiles::read(files, alloc, names)
}
