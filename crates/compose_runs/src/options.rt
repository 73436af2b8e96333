//! The options of all commands on tables.

/// The options of all commands on tables.
#[derive(Clone, Copy, Debug)]
pub struct Options<'a> {
    /// The arguments of each `--names`: the path of a file of names, or `builtin`.
    pub names: &'a [&'a str],
    /// Whether details of an answer or a refusal are printed.
    pub verbose: bool,
}
