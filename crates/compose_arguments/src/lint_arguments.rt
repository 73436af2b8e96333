//! The arguments of `lint`.
use clap::ArgMatches;
use std::alloc::{AllocError, Global};

/// The arguments of `lint`, except the names.
#[derive(Drop)]
pub struct LintArguments<'a> {
    /// The folder of the system's tables.
    pub system: Option<&'a str>,
    /// The name of a locale.
    pub locale: Option<&'a str>,
    /// The folder below which an include's absolute path is looked for first.
    pub root: Option<&'a str>,
    /// The words of the wanted readers; none means the default ones.
    pub readers: Vec<&'a str>,
    /// Whether lines are also compared with the lines of included files.
    pub all: bool,
    /// Whether faulty lines are skipped.
    pub skip_faulty: bool,
    /// The path of the list of accepted findings.
    pub accept: Option<&'a str>,
    /// Whether the list that accepts the findings is printed instead of the findings.
    pub write_accept: bool,
    /// Whether the answer is JSON.
    pub json: bool,
    /// The paths of the Compose files; none means the user's own file.
    pub files: Vec<&'a str>,
}

/// Returns the arguments of `lint`.
/// Errors: `AllocError` if memory runs out.
pub fn lint_arguments<'a>(
    alloc: Global,
    given: &ArgMatches<'a>,
) -> Result<LintArguments<'a>, AllocError> {
    Ok(LintArguments {
        system: given.get_str("system"),
        locale: given.get_str("locale"),
        root: given.get_str("root"),
        readers: Vec::from_slice(alloc, given.get_strs("reader").unwrap_or(&[]))?,
        all: given.get_flag("all"),
        skip_faulty: given.get_flag("skip-faulty"),
        accept: given.get_str("accept"),
        write_accept: given.get_flag("write-accept"),
        json: given.get_str("format") == Some("json"),
        files: Vec::from_slice(alloc, given.get_strs("FILE").unwrap_or(&[]))?,
    })
}
