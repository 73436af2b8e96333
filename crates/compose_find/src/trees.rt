//! Trees of locales, and paths below a folder.
ghost use Rattle.std.specs.Prelude.{◌≡◌, List, ℕ, MatchOption};
ghost use Rattle.compose_find.specs.Trees as trees;

/// Returns the tree of locales in which this path is the table of a locale: `TREE` for the path
/// `TREE/LOCALE/Compose`, and `None` for any other path. `LOCALE` has at least one byte and no
/// slash. O(bytes).
pub fn locale_tree(path: &str) -> Option<&str>
    ensures { MatchOption result ((tree : List ℕ) → ¬ (trees.IsTableOf tree path.now))
        (λ tree. trees.IsTableOf tree.now path.now) }
{
    let folder = path.strip_suffix("/Compose")?;
    let slash = memchr::memrchr(b'/', folder.as_bytes())?;
    if slash + 1 == folder.len() {
        return None;
    }
    Some(&folder[..slash])
}

/// Returns whether the path begins with the folder and a slash. O(bytes of the folder).
pub fn lies_below(folder: &str, path: &str) -> bool
    ensures { result ≡ trees.lies_below folder.now path.now }
{
    match path.as_bytes().strip_prefix(folder.as_bytes()) {
        Some(rest) => rest.first() == Some(&b'/'),
        None => false,
    }
}
