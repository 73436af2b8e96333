//! The rows of `commands` as clap's commands.
use crate::commands::{COMMANDS, row_of};
use crate::rows::{ArgumentRow, CommandRow, GivenArguments, NumberRange, OptionRow, Takes};
use clap::builder::ValueParser;
use clap::{Arg, ArgAction, Command, value_parser};
use std::alloc::{AllocError, Global};

/// What `--version` prints after the program's name: the version, and of which headers the built-in
/// names are (`packaging/xorgproto`).
const LONG_VERSION: &str = "0.3.0\nnames: xorgproto 2024.1 (keysymdef.h, XF86keysym.h)";

/// Returns the program with all its commands.
/// Errors: `AllocError` if memory runs out.
pub fn command_line<'a>(alloc: Global) -> Result<Command<'a>, AllocError> {
    let mut program = program(alloc);
    for command in COMMANDS {
        program = program.subcommand(command_of(alloc, row_of(command))?)?;
    }
    Ok(program)
}

/// Returns the program without its commands.
fn program<'a>(alloc: Global) -> Command<'a> {
    Command::new(alloc, "composecheck")
        .version("0.3.0")
        .long_version(LONG_VERSION)
        .about(
            "Check migrations between X11 Compose tables, type with them, and serve typing sessions",
        )
        .subcommand_required(true)
}

/// Returns a command with its options and arguments.
fn command_of<'a>(alloc: Global, row: &CommandRow) -> Result<Command<'a>, AllocError> {
    let mut arguments = options_of(alloc, row.options)?;
    add_options_of_files(alloc, row.options_of_files, &mut arguments)?;
    add_arguments(alloc, row.arguments, &mut arguments)?;
    Command::new(alloc, row.name)
        .about(row.about)
        .after_help(row.after_help)
        .args(arguments)
}

/// Returns the options of a command.
fn options_of<'a>(alloc: Global, rows: &[OptionRow]) -> Result<Vec<Arg<'a>>, AllocError> {
    let mut options = Vec::new(alloc);
    for row in rows {
        options.push(option_of(alloc, row)?)?;
    }
    Ok(options)
}

/// Adds the options of a command that require `--files`.
fn add_options_of_files<'a>(
    alloc: Global,
    rows: &[OptionRow],
    arguments: &mut Vec<Arg<'a>>,
) -> Result<(), AllocError> {
    for row in rows {
        arguments.push(option_of(alloc, row)?.requires_arg("files")?)?;
    }
    Ok(())
}

/// Adds the positional arguments of a command.
fn add_arguments<'a>(
    alloc: Global,
    rows: &[ArgumentRow],
    arguments: &mut Vec<Arg<'a>>,
) -> Result<(), AllocError> {
    for row in rows {
        arguments.push(argument_of(alloc, row)?)?;
    }
    Ok(())
}

/// Returns an option.
fn option_of<'a>(alloc: Global, row: &OptionRow) -> Result<Arg<'a>, AllocError> {
    let option = Arg::new(alloc, row.name).long(row.name);
    let option = with_letter(option, row.letter).help(row.help);
    with_value(option, row.takes)
}

/// Returns the option with its letter.
fn with_letter<'a>(option: Arg<'a>, letter: Option<char>) -> Arg<'a> {
    match letter {
        Some(letter) => option.short(letter),
        None => option,
    }
}

/// Returns the option with its value and the options that conflict with it.
fn with_value<'a>(option: Arg<'a>, takes: Takes) -> Result<Arg<'a>, AllocError> {
    match takes {
        Takes::NothingWith(others) => option.action(ArgAction::SetTrue).conflicts_with_all(others),
        Takes::MaybeOneOf { without, .. } => {
            with_own_value(option, takes).conflicts_with_all(without)
        }
        _ => Ok(with_own_value(option, takes)),
    }
}

/// Returns the option with its value.
fn with_own_value<'a>(option: Arg<'a>, takes: Takes) -> Arg<'a> {
    match takes {
        Takes::Nothing | Takes::NothingWith(_) => option.action(ArgAction::SetTrue),
        Takes::Value(name) => option.value_name(name).action(ArgAction::Set),
        Takes::Values(name) => option.value_name(name).action(ArgAction::Append),
        Takes::SomeOf { name, values } => option
            .value_name(name)
            .value_parser(values)
            .action(ArgAction::Append),
        Takes::OneOf {
            name,
            values,
            default,
        } => option
            .value_name(name)
            .value_parser(values)
            .default_value(default),
        Takes::MaybeOneOf { name, values, .. } => option.value_name(name).value_parser(values),
        Takes::Number {
            name,
            range,
            default,
        } => with_default(option.value_name(name), default).value_parser(number_in(range)),
    }
}

/// Returns the option with its default value.
fn with_default<'a>(option: Arg<'a>, default: Option<&'a str>) -> Arg<'a> {
    match default {
        Some(default) => option.default_value(default),
        None => option,
    }
}

/// Returns a positional argument.
fn argument_of<'a>(alloc: Global, row: &ArgumentRow) -> Result<Arg<'a>, AllocError> {
    let argument = Arg::new(alloc, row.name).help(row.help);
    match row.given {
        GivenArguments::Text => Ok(argument.required(true)),
        GivenArguments::Maybe => Ok(argument),
        GivenArguments::Number(range) => Ok(argument.required(true).value_parser(number_in(range))),
        GivenArguments::TextUnless(option) => argument.required_unless_present(option),
        GivenArguments::NumberUnless(range, option) => {
            let argument = argument.required_unless_present(option)?;
            Ok(argument.value_parser(number_in(range)))
        }
        GivenArguments::Some => Ok(argument.required(true).num_args(1..)),
        GivenArguments::SomeUnless(option) => argument
            .num_args(1..)
            .required_unless_present(option),
        GivenArguments::Any => Ok(argument.num_args(0..)),
    }
}

/// Returns the parser of the numbers in a range.
fn number_in<'a>(range: NumberRange) -> ValueParser<'a> {
    match range {
        NumberRange::U16(least, most) => {
            value_parser!(u16).range(i64::from(least)..=i64::from(most))
        }
        NumberRange::U32(least, most) => {
            value_parser!(u32).range(i64::from(least)..=i64::from(most))
        }
    }
}
