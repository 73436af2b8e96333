//! The commands that read files and answer.
use crate::diff_arguments::{DiffArguments, diff_arguments};
use crate::given_tables::{BothTables, TypeTable, both_tables, old_and_new, type_table};
use crate::how_arguments::{HowArguments, how_arguments};
use crate::lint_arguments::{LintArguments, lint_arguments};
use crate::list_arguments::{ListArguments, ListAsArguments, list_arguments, list_as_arguments};
use crate::manifest_arguments::{ManifestArguments, manifest_arguments};
use crate::merge_arguments::{MergeArguments, merge_arguments};
use crate::name_lists::{argument_keys, fresh_names, given_fresh_names};
use clap::ArgMatches;
use std::alloc::{AllocError, Global};

/// A command that reads files and answers, with its arguments and paths, which the command line
/// lends.
#[derive(Drop)]
pub enum Question<'a> {
    /// `type`: what these keys type with a table.
    Keys {
        /// The table.
        table: TypeTable<'a>,
        /// The names of the keysyms; for a Compose file the keys as they are written, none if they
        /// are on standard input.
        keys: Vec<&'a str>,
    },
    /// `check`: whether a certificate is valid.
    Check {
        /// The old and the new table.
        tables: BothTables<'a>,
        /// The keys in `--fresh`, if it is given.
        fresh: Option<Vec<&'a str>>,
        /// The path of the repertoire.
        repertoire: &'a str,
        /// The path of the certificate.
        certificate: &'a str,
    },
    /// `explain`: how two tables differ.
    Explain {
        /// The old table.
        old: TypeTable<'a>,
        /// The new table, which is named in the same way.
        new: TypeTable<'a>,
        /// The keys in `--fresh`.
        fresh: Vec<&'a str>,
        /// Whether all differences are printed.
        all: bool,
    },
    /// `diff`: what a new Compose file changes.
    Diff {
        /// The other arguments.
        arguments: DiffArguments<'a>,
        /// The keys in `--fresh`.
        fresh: Vec<&'a str>,
    },
    /// `merge`: an old Compose file with what a new one adds to it.
    Merge {
        /// The other arguments.
        arguments: MergeArguments<'a>,
        /// The keys in `--fresh`.
        fresh: Vec<&'a str>,
    },
    /// `how`: how texts are typed.
    How {
        /// The other arguments.
        arguments: HowArguments<'a>,
        /// The texts, at least one.
        texts: Vec<&'a str>,
    },
    /// `list`: the sequences of a Compose file.
    List(ListArguments<'a>),
    /// `list --as`: a Compose file as another reader has it.
    ListAs(ListAsArguments<'a>),
    /// `lint`: mistakes in Compose files.
    Lint(LintArguments<'a>),
    /// `make`: a certificate that shows that a new table follows an old one.
    Make {
        /// The old and the new table.
        tables: BothTables<'a>,
        /// The keys in `--fresh`.
        fresh: Vec<&'a str>,
        /// Whether all characters that can't be typed are printed.
        all: bool,
        /// The path of the repertoire.
        repertoire: &'a str,
        /// The path of the file that is written, if it is given.
        output: Option<&'a str>,
    },
    /// `manifest`: the files that a Compose file reads.
    Manifest(ManifestArguments<'a>),
}

/// Returns the question of this command, if it reads files and answers, and no argument is missing.
pub(crate) fn question_of<'a>(
    alloc: Global,
    command: &str,
    given: &ArgMatches<'a>,
) -> Result<Option<Question<'a>>, AllocError> {
    match command {
        "type" => type_question(alloc, given),
        "check" => check_question(alloc, given),
        "explain" => explain_question(alloc, given),
        "diff" => diff_question(alloc, given),
        "merge" => merge_question(alloc, given),
        "how" => how_question(alloc, given),
        "list" => Ok(Some(list_question(alloc, given)?)),
        "lint" => Ok(Some(Question::Lint(lint_arguments(alloc, given)?))),
        "make" => make_question(alloc, given),
        "manifest" => Ok(Some(Question::Manifest(manifest_arguments(given)))),
        _ => Ok(None),
    }
}

/// Returns the question of `type`.
fn type_question<'a>(
    alloc: Global,
    given: &ArgMatches<'a>,
) -> Result<Option<Question<'a>>, AllocError> {
    let Some(table) = type_table(given) else {
        return Ok(None);
    };
    let words = given.get_strs("KEY").unwrap_or(&[]);
    Ok(Some(Question::Keys {
        table,
        keys: argument_keys(alloc, given.get_flag("files"), words)?,
    }))
}

/// Returns the question of `check`.
fn check_question<'a>(
    alloc: Global,
    given: &ArgMatches<'a>,
) -> Result<Option<Question<'a>>, AllocError> {
    let Some((tables, repertoire, certificate)) = check_paths(given) else {
        return Ok(None);
    };
    Ok(Some(Question::Check {
        tables,
        fresh: given_fresh_names(alloc, given, given.get_flag("files"))?,
        repertoire,
        certificate,
    }))
}

/// Returns the paths of `check`.
fn check_paths<'a>(given: &ArgMatches<'a>) -> Option<(BothTables<'a>, &'a str, &'a str)> {
    Some((
        both_tables(given)?,
        given.get_str("REPERTOIRE")?,
        given.get_str("CERTIFICATE")?,
    ))
}

/// Returns the question of `explain`.
fn explain_question<'a>(
    alloc: Global,
    given: &ArgMatches<'a>,
) -> Result<Option<Question<'a>>, AllocError> {
    let Some((old, new)) = old_and_new(given) else {
        return Ok(None);
    };
    Ok(Some(Question::Explain {
        old,
        new,
        fresh: fresh_names(alloc, given, given.get_flag("files"))?,
        all: given.get_flag("all"),
    }))
}

/// Returns the question of `diff`.
fn diff_question<'a>(
    alloc: Global,
    given: &ArgMatches<'a>,
) -> Result<Option<Question<'a>>, AllocError> {
    let Some(arguments) = diff_arguments(given) else {
        return Ok(None);
    };
    Ok(Some(Question::Diff {
        arguments,
        fresh: fresh_names(alloc, given, true)?,
    }))
}

/// Returns the question of `merge`.
fn merge_question<'a>(
    alloc: Global,
    given: &ArgMatches<'a>,
) -> Result<Option<Question<'a>>, AllocError> {
    let Some(arguments) = merge_arguments(given) else {
        return Ok(None);
    };
    Ok(Some(Question::Merge {
        arguments,
        fresh: fresh_names(alloc, given, true)?,
    }))
}

/// Returns the question of `how`.
fn how_question<'a>(
    alloc: Global,
    given: &ArgMatches<'a>,
) -> Result<Option<Question<'a>>, AllocError> {
    let Some(texts) = given.get_strs("TEXT") else {
        return Ok(None);
    };
    Ok(Some(Question::How {
        arguments: how_arguments(given),
        texts: Vec::from_slice(alloc, texts)?,
    }))
}

/// Returns the question of `list`.
fn list_question<'a>(alloc: Global, given: &ArgMatches<'a>) -> Result<Question<'a>, AllocError> {
    match list_as_arguments(given) {
        Some(arguments) => Ok(Question::ListAs(arguments)),
        None => Ok(Question::List(list_arguments(alloc, given)?)),
    }
}

/// Returns the question of `make`.
fn make_question<'a>(
    alloc: Global,
    given: &ArgMatches<'a>,
) -> Result<Option<Question<'a>>, AllocError> {
    let (Some(tables), Some(repertoire)) = (both_tables(given), given.get_str("REPERTOIRE")) else {
        return Ok(None);
    };
    Ok(Some(Question::Make {
        tables,
        fresh: fresh_names(alloc, given, given.get_flag("files"))?,
        all: given.get_flag("all"),
        repertoire,
        output: given.get_str("output"),
    }))
}
