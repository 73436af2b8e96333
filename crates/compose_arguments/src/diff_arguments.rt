//! The arguments of `diff`.
use crate::given_tables::{FilePair, file_pair};
use clap::ArgMatches;

/// The arguments of `diff`, except the names and the fresh keysyms.
#[derive(Clone, Copy)]
pub struct DiffArguments<'a> {
    /// The old and the new Compose file.
    pub files: FilePair<'a>,
    /// Whether faulty lines are skipped.
    pub skip_faulty: bool,
    /// The path of the list of intended changes.
    pub accept: Option<&'a str>,
    /// Whether only those changes are printed whose old text no sequence of the new table produces.
    pub lost: bool,
    /// How the changes are printed.
    pub form: DiffForm,
    /// When they are printed in colours.
    pub color: DiffColor,
}

/// How `diff` prints changes.
#[derive(Clone, Copy, Debug, PartialEq, Eq)]
pub enum DiffForm {
    /// Lines, with one line for changes that belong together.
    Folded,
    /// A line for each change.
    Lines,
    /// A JSON object for each sequence, also for the kept ones.
    Json,
    /// The list that accepts the changes.
    AcceptList,
    /// A page in Markdown. With `folds`, parts of it may be folded.
    Markdown { folds: bool },
    /// The same page in HTML.
    Html { folds: bool },
}

/// When `diff` prints changes in colours.
#[derive(Clone, Copy, Debug, PartialEq, Eq)]
pub enum DiffColor {
    /// On a terminal, unless the environment variable `NO_COLOR` is set.
    Auto,
    /// Always.
    Always,
    /// Never.
    Never,
}

/// Returns the arguments of `diff`, if none is missing.
pub fn diff_arguments<'a>(given: &ArgMatches<'a>) -> Option<DiffArguments<'a>> {
    Some(DiffArguments {
        files: file_pair(given)?,
        skip_faulty: given.get_flag("skip-faulty"),
        accept: given.get_str("accept"),
        lost: given.get_flag("lost"),
        form: form_of(given),
        color: color_of(given),
    })
}

/// Returns how the changes are to be printed.
fn form_of(given: &ArgMatches<'_>) -> DiffForm {
    if given.get_flag("write-accept") {
        return DiffForm::AcceptList;
    }
    let folds = !given.get_flag("no-fold");
    match (given.get_str("format"), folds) {
        (Some("json"), _) => DiffForm::Json,
        (Some("markdown"), _) => DiffForm::Markdown { folds },
        (Some("html"), _) => DiffForm::Html { folds },
        (_, true) => DiffForm::Folded,
        (_, false) => DiffForm::Lines,
    }
}

/// Returns when they are to be printed in colours.
fn color_of(given: &ArgMatches<'_>) -> DiffColor {
    match given.get_str("color") {
        Some("always") => DiffColor::Always,
        Some("never") => DiffColor::Never,
        _ => DiffColor::Auto,
    }
}
