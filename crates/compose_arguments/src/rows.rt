//! The parts of the rows of commands.

/// A command of the program.
#[derive(Clone, Copy)]
pub struct CommandRow {
    /// The name of the command.
    pub name: &'static str,
    /// Its description in the help of the program.
    pub about: &'static str,
    /// The last lines of its own help.
    pub after_help: &'static str,
    /// Its options, in the order of its help.
    pub options: &'static [OptionRow],
    /// Its options that require `--files`, which come after the others.
    pub options_of_files: &'static [OptionRow],
    /// Its positional arguments, in order.
    pub arguments: &'static [ArgumentRow],
}

/// An option.
#[derive(Clone, Copy)]
pub struct OptionRow {
    /// The name after two hyphens.
    pub name: &'static str,
    /// The letter after one hyphen, if it has one.
    pub letter: Option<char>,
    /// What follows the option.
    pub takes: Takes,
    /// Its description in the help.
    pub help: &'static str,
}

/// What follows an option. A value has a name, which the help shows.
#[derive(Clone, Copy)]
pub enum Takes {
    /// Nothing: the option is a flag.
    Nothing,
    /// Nothing, and the options with these names conflict with it.
    NothingWith(&'static [&'static str]),
    /// A value with this name.
    Value(&'static str),
    /// A value with this name. The option may be given several times.
    Values(&'static str),
    /// One of some values. The option may be given several times.
    SomeOf {
        /// The name of the value.
        name: &'static str,
        /// The possible values.
        values: &'static [&'static str],
    },
    /// One of some values.
    OneOf {
        /// The name of the value.
        name: &'static str,
        /// The possible values.
        values: &'static [&'static str],
        /// The value if the option is not given.
        default: &'static str,
    },
    /// One of some values, or none.
    MaybeOneOf {
        /// The name of the value.
        name: &'static str,
        /// The possible values.
        values: &'static [&'static str],
        /// The options that conflict with it.
        without: &'static [&'static str],
    },
    /// A number.
    Number {
        /// The name of the value.
        name: &'static str,
        /// The range of the number.
        range: NumberRange,
        /// The number if the option is not given; `None` if there is no default.
        default: Option<&'static str>,
    },
}

/// A positional argument.
#[derive(Clone, Copy)]
pub struct ArgumentRow {
    /// Its name in the help.
    pub name: &'static str,
    /// What is given for it.
    pub given: GivenArguments,
    /// Its description in the help.
    pub help: &'static str,
}

/// What is given for a positional argument.
#[derive(Clone, Copy)]
pub enum GivenArguments {
    /// A text.
    Text,
    /// A text, which may be left out.
    Maybe,
    /// A number in this range.
    Number(NumberRange),
    /// A text, which may be left out if the option with this name is given.
    TextUnless(&'static str),
    /// A number in this range, which may be left out if the option with this name is given.
    NumberUnless(NumberRange, &'static str),
    /// All remaining texts, at least one.
    Some,
    /// All remaining texts; there may be none if the option with this name is given.
    SomeUnless(&'static str),
    /// All remaining texts, which may be none.
    Any,
}

/// The least and the greatest number, both included, of the type that the number is read as.
#[derive(Clone, Copy)]
pub enum NumberRange {
    /// A number of 16 bits.
    U16(u16, u16),
    /// A number of 32 bits.
    U32(u32, u32),
}
