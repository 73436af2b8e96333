//! Laws of the search for sources.
ghost use Rattle.compose_find.specs.Sources.{FindsSources, FindsBytes, FindsWithAny};

/// If the search succeeds, then the root is the first source; each include of each source leads to
/// a source, at the first of its places that has a file; each source but the root is included by
/// one before it; no two sources have the same name; and there are at most 64.
pub fn law_found()
    ensures { FindsSources }
{}

/// If the search succeeds, then a file was read at the path of each source: no source gets its
/// bytes from nowhere.
pub fn law_held()
    ensures { FindsBytes }
{}

/// If the search succeeds without a table of the locale, for `%L`, then it finds the same sources
/// with any: so the table of the locale has to be known only if the search fails without it.
pub fn law_any_locale()
    ensures { FindsWithAny }
{}
