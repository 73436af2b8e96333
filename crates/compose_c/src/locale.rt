//! The path of a locale's table.
ghost use Rattle.std.specs.Prelude.{◌≡◌, IfOk, option_map, string_bytes};
ghost use Rattle.compose_c.specs.Finds.{locale_path};

use crate::pieces::text_of;
use std::alloc::{AllocError, Global};

/// Returns the path of a locale's table in this folder, by its files `compose.dir` and
/// `locale.alias`; `None` if there is none, or if the folder or the locale is not UTF-8. O(bytes).
///
/// `Err` if memory runs out.
pub fn locale_file(
    alloc: Global,
    folder: &[u8],
    compose_dir: &[u8],
    aliases: &[u8],
    locale: &[u8],
) -> Result<Option<String>, AllocError>
    ensures { IfOk result
        (λ file. option_map string_bytes file
        ≡ locale_path folder.now compose_dir.now aliases.now locale.now) }
{
    let Some(folder) = text_of(folder) else {
        return Ok(None);
    };
    let Some(locale) = text_of(locale) else {
        return Ok(None);
    };
    compose_find::locale_file(alloc, folder, compose_dir, aliases, locale)
}
