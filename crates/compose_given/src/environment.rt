//! The environment, as a value.
ghost use Rattle.std.specs.Prelude.{◌≡◌, option_copied};
ghost use Rattle.compose_given.specs.Variables as words;
ghost use Rattle.compose_given.specs.Variables.{IsDecoded};

use compose_input::{Fault, Places};

/// The folder of the system's tables, if neither the arguments nor the environment name one.
const SYSTEM_FOLDER: &str = "/usr/share/X11/locale";

/// A variable of the environment.
#[derive(Debug, PartialEq, Eq, Drop)]
pub enum Variable {
    /// It is not set.
    Unset,
    /// It is set to this text.
    Set(String),
    /// It is set to bytes that are not UTF-8.
    NotUtf8,
}

impl Variable {
    /// Returns its text, if it is set and not empty. The fault is `Word` if it is not UTF-8. O(1).
    pub(crate) fn text(&self) -> Result<Option<&str>, Fault>
        ensures { IsDecoded result (words.text_of self.now) }
    {
        match self {
            Variable::Unset => Ok(None),
            Variable::Set(text) if text.is_empty() => Ok(None),
            Variable::Set(text) => Ok(Some(text.as_str())),
            Variable::NotUtf8 => Err(Fault::Word),
        }
    }
}

/// The variables of the environment that commands use, and whether standard output is a terminal.
#[derive(Debug, PartialEq, Eq, Drop)]
pub struct Environment {
    /// `LC_ALL`, the first variable for the name of the locale.
    pub lc_all: Variable,
    /// `LC_CTYPE`, the second variable for the name of the locale.
    pub lc_ctype: Variable,
    /// `LANG`, the third variable for the name of the locale.
    pub lang: Variable,
    /// `XLOCALEDIR`, the folder of the system's tables.
    pub xlocaledir: Variable,
    /// `HOME`, the user's home folder.
    pub home: Variable,
    /// `NO_COLOR`: if it is set and not empty, no colours are printed unless they are asked for.
    pub no_color: Variable,
    /// `XCOMPOSEFILE`, the path of the user's Compose file.
    pub xcomposefile: Variable,
    /// `XDG_CONFIG_HOME`, the folder of the user's configuration.
    pub xdg_config_home: Variable,
    /// Whether standard output is a terminal.
    pub is_terminal: bool,
}

/// The arguments that say where tables lie.
#[derive(Clone, Copy, Debug)]
pub struct PlaceArguments<'a> {
    /// The folder of the system's tables.
    pub system: Option<&'a str>,
    /// The name of a locale.
    pub locale: Option<&'a str>,
    /// The folder below which an absolute path is looked for first.
    pub root: Option<&'a str>,
}

impl Environment {
    ghost use Rattle.compose_given.specs.Environment as spec;
    ghost use Rattle.compose_given.specs.Environment.{ReturnsPlaces, ReturnsColor};

    /// Returns the name of the locale: the text of the first of `LC_ALL`, `LC_CTYPE` and `LANG`
    /// that is set and not empty, as POSIX requires.
    fn locale(&self) -> Result<Option<&str>, Fault>
        ensures { IsDecoded result (spec.locale_of self.now) }
    {
        if let Some(locale) = self.lc_all.text()? {
            return Ok(Some(locale));
        }
        if let Some(locale) = self.lc_ctype.text()? {
            return Ok(Some(locale));
        }
        self.lang.text()
    }

    /// Returns where the tables of the system lie, and the user's locale and home folder: as the
    /// arguments say, or otherwise the environment. The fault is `Word` if a variable for them is not
    /// UTF-8, also if an argument takes its place. O(bytes of the root).
    pub fn places<'a>(&'a self, arguments: PlaceArguments<'a>) -> Result<Places<'a>, Fault>
        ensures { ReturnsPlaces arguments.entry result (spec.places_of self.now) }
    {
        let system = self.xlocaledir.text()?;
        let locale = self.locale()?;
        let home = self.home.text()?;
        Ok(Places {
            system: arguments.system.or(system).unwrap_or(SYSTEM_FOLDER),
            tree: arguments.system,
            locale: arguments.locale.or(locale),
            home,
            root: arguments.root.map(without_slash),
        })
    }

    /// Returns whether an answer is in colours if they depend on the terminal: if standard output
    /// is a terminal, and `NO_COLOR` is unset or empty. `NO_COLOR` is read only then; the
    /// fault is `Word` if it is not UTF-8. O(1).
    pub fn wants_color(&self) -> Result<bool, Fault>
        ensures { ReturnsColor result (spec.wants_color self.now) }
    {
        if !self.is_terminal {
            return Ok(false);
        }
        Ok(self.no_color.text()?.is_none())
    }
}

/// Returns the path without the slashes at its end.
fn without_slash(path: &str) -> &str
    ensures { result.now ≡ words.without_slashes path.now }
{
    path.trim_end_matches('/')
}
