//! The input of a command.
ghost use Rattle.std.specs.Prelude.{List, map};
ghost use Rattle.compose_details.specs.Given.{AreGivenTables, IsGiven, IsGivenTable, parts_of};
ghost use Rattle.compose_input.specs.declared.tables.TableFiles.{TableFiles};

use compose_input::{Header, LocaleTable, NameFiles, TableFiles};
use compose_migration::TableInput;

/// A table that a command was given.
#[derive(Clone, Copy)]
pub struct GivenTable<'a> {
    /// The path that was given: that of its manifest, or of its Compose file.
    pub manifest: &'a str,
    /// The paths of the files of its sources, in the order of the sources.
    pub paths: &'a [String],
    /// Its sources, and the rule for its overlaps.
    pub input: TableInput<'a>,
    /// The table of the locale, if it is known.
    pub locale: Option<&'a LocaleTable>,
}

/// The input of a command.
#[derive(Clone, Copy)]
pub struct Given<'a> {
    /// The files of keysym names, in their order.
    pub headers: &'a [Header<'a>],
    /// The lines of all of these files, one file after another.
    pub header: &'a [u8],
    /// The arguments that have to name keysyms.
    pub arguments: &'a [&'a str],
    /// The one table, or the old one and then the new one.
    pub tables: &'a [GivenTable<'a>],
    /// The path of the repertoire; empty if the command has none.
    pub repertoire: &'a str,
    /// The text of the repertoire; empty if the command has none.
    pub repertoire_text: &'a [u8],
    /// The path of the certificate; empty if the command has none.
    pub certificate: &'a str,
    /// The text of the certificate; empty if the command has none.
    pub certificate_text: &'a [u8],
}

impl<'a> GivenTable<'a> {
    /// Makes a table of its files.
    pub fn of(files: &'a TableFiles) -> GivenTable<'a>
        ensures { IsGivenTable files.now result }
    {
        GivenTable {
            manifest: &files.path,
            paths: &files.paths,
            input: TableInput {
                sources: &files.sources,
                rule: files.rule,
            },
            locale: files.locale.as_ref(),
        }
    }
}

impl<'a> Given<'a> {
    /// Makes an input of names, arguments that have to name keysyms, and tables, without other
    /// files.
    pub fn of(
        names: &'a NameFiles<'a>,
        arguments: &'a [&'a str],
        tables: &'a [GivenTable<'a>],
    ) -> Given<'a>
        ensures { (files : List TableFiles) → AreGivenTables files tables.now
            → IsGiven (parts_of names.now (map (λ argument. argument.now) arguments.now) files)
            result }
    {
        Given {
            headers: &names.files,
            header: &names.lines,
            arguments,
            tables,
            repertoire: "",
            repertoire_text: &[],
            certificate: "",
            certificate_text: &[],
        }
    }
}
