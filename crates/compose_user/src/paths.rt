//! The paths at which a user's own Compose file may lie.
ghost use Rattle.std.specs.Prelude.{◌≡◌, ◌++◌, map, option_copied, option_to_list, IfOk, OnOk, string_bytes};
ghost use Rattle.std.specs.Option.{option_map, option_and_then};
ghost use Rattle.compose_user.specs.Paths as words;

use std::alloc::{AllocError, Global};

/// The environment variables that lead to a user's own files.
#[derive(Clone, Copy, Debug)]
pub struct UserFolders<'a> {
    /// `$XCOMPOSEFILE`, the path of a Compose file.
    pub compose_file: Option<&'a str>,
    /// `$XDG_CONFIG_HOME`, the folder of the user's settings.
    pub config: Option<&'a str>,
    /// `$HOME`, the user's home folder.
    pub home: Option<&'a str>,
}

/// Returns the paths at which a user's own Compose file may lie, in the order in which libxkbcommon
/// tries them. O(bytes).
///
/// Errors: `AllocError` if memory runs out.
pub fn user_paths(alloc: Global, folders: UserFolders<'_>) -> Result<Vec<String>, AllocError>
    ensures { IfOk result
        (λ paths. map string_bytes paths.items
        ≡ words.user_paths (option_copied folders.entry.compose_file)
        (option_copied folders.entry.config) (option_copied folders.entry.home)) }
{
    let mut paths = Vec::new(alloc);
    if let Some(path) = folders.compose_file {
        paths.push(String::from_str(alloc, path)?)?;
    }
    match absolute(folders.config) {
        Some(folder) => push_path(alloc, &mut paths, Some(folder), "/XCompose")?,
        None => push_path(alloc, &mut paths, folders.home, "/.config/XCompose")?,
    }
    push_path(alloc, &mut paths, folders.home, "/.XCompose")?;
    Ok(paths)
}

/// Adds the path of the file with this name in the folder after the others, if the folder is given.
fn push_path(
    alloc: Global,
    paths: &mut Vec<String>,
    folder: Option<&str>,
    name: &str,
) -> Result<(), AllocError>
    ensures { OnOk result
        (map string_bytes paths.new.items
        ≡ map string_bytes paths.old.items
        ++ option_to_list (option_map (λ f. f ++ name.now) (option_copied folder.entry))) }
{
    let Some(folder) = folder else {
        return Ok(());
    };
    let mut path = String::from_str(alloc, folder)?;
    path.push_str(name)?;
    paths.push(path)?;
    Ok(())
}

/// Returns the folder, if its path is absolute.
fn absolute(folder: Option<&str>) -> Option<&str>
    ensures { option_copied result ≡ option_and_then words.absolute (option_copied folder.entry) }
{
    let folder = folder?;
    if folder.starts_with("/") {
        Some(folder)
    } else {
        None
    }
}
