//! The question of `explain`.
use compose_arguments::TypeTable;
use compose_report::Form;

/// The arguments of `explain`.
#[derive(Clone, Copy)]
pub struct Explain<'a> {
    /// The arguments of each `--names`.
    pub names: &'a [&'a str],
    /// Whether the tables are Compose files, for which names are built in.
    pub are_files: bool,
    /// The old table.
    pub old: TypeTable<'a>,
    /// The new table.
    pub new: TypeTable<'a>,
    /// The names in `--fresh`.
    pub fresh: &'a [&'a str],
    /// Whether all differences are printed.
    pub all: bool,
    /// Whether the places of sequences are printed.
    pub verbose: bool,
    /// The form of a refusal.
    pub form: Form,
}
