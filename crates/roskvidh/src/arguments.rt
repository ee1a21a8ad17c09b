//! What the program can do, and how it describes that.

use crate::commands::{COMMANDS, Said, arguments_of, said_of};
use crate::shapes::{Argument, Form, Kind, Shape, shape_of};
use clap::builder::ValueParser;
use clap::{Arg, ArgAction, Command, value_parser};
use std::alloc::{AllocError, Global};

/// The version, as `--version` prints it.
const VERSION: &str = "0.1.0";

const ABOUT: &str =
    "Dictionaries of words and numbers: made of word lists, looked into, and texts cut and scanned by them";

const NOTES: &str = "\
Words are UTF-8. In arguments, lists and answers \\xHH stands for a byte, as \\x09 for a tab and \\x5c for a backslash.
An answer's line is a word, a tab and its number. Only answers go to standard output.

Status: 0 done, 1 nothing was found, 2 wrong arguments, 3 a fault of a file, of the input or output, or of memory, 4 another program
has the store open.

Example:
  roskvidh build words.tsv -o words.cedar
  roskvidh complete words.cedar ne -n 5";

/// The program's commands.
pub(crate) fn command<'a>(alloc: Global) -> Result<Command<'a>, AllocError> {
    let mut program = Command::new(alloc, "roskvidh")
        .version(VERSION)
        .about(ABOUT)
        .after_help(NOTES)
        .subcommand_required(true)
        .arg_required_else_help(true);
    for name in &COMMANDS {
        let command = command_of(alloc, said_of(*name), arguments_of(*name))?;
        program = program.subcommand(command)?;
    }
    Ok(program)
}

/// A command that takes these arguments.
fn command_of<'a>(
    alloc: Global,
    said: Said,
    arguments: &[Argument],
) -> Result<Command<'a>, AllocError> {
    let mut command = Command::new(alloc, said.name)
        .about(said.about)
        .after_help(said.notes);
    for argument in arguments {
        command = command.arg(arg_of(alloc, shape_of(*argument))?)?;
    }
    Ok(command)
}

/// An argument of this shape.
fn arg_of<'a>(alloc: Global, shape: Shape) -> Result<Arg<'a>, AllocError> {
    let arg = Arg::new(alloc, shape.id).help(shape.help);
    match shape.form {
        Form::Place(name) => Ok(arg.value_name(name)),
        Form::Required(name) => Ok(arg.value_name(name).required(true)),
        Form::Several(name) => Ok(several(arg.value_name(name))),
        Form::Flag => Ok(flag(arg, shape.id)),
        Form::FlagWithout(other) => flag(arg, shape.id).conflicts_with(other),
        Form::FlagOf(group) => flag(arg, shape.id).group(group),
        Form::Value(name, kind) => with_value(arg.long(shape.id).value_name(name), kind),
    }
}

/// An argument that takes one value or more.
fn several<'a>(arg: Arg<'a>) -> Arg<'a> {
    arg.required(true).action(ArgAction::Append).num_args(1..)
}

/// An option without a value.
fn flag<'a>(arg: Arg<'a>, name: &'a str) -> Arg<'a> {
    arg.long(name).action(ArgAction::SetTrue)
}

/// An option with a value.
fn with_value<'a>(arg: Arg<'a>, kind: Kind) -> Result<Arg<'a>, AllocError> {
    match kind {
        Kind::Text => Ok(arg),
        Kind::TextWithout(other) => arg.conflicts_with(other),
        Kind::TextOr(text, letter) => Ok(arg.short(letter).default_value(text)),
        Kind::Required(letter) => Ok(arg.short(letter).required(true)),
        Kind::Count(letter) => Ok(arg.short(letter).value_parser(value_parser!(u64))),
        Kind::CountWithout(other) => arg.value_parser(value_parser!(u64)).conflicts_with(other),
        Kind::OneOf(texts) => Ok(arg.value_parser(ValueParser::Names(texts))),
        Kind::TextOf(group) => arg.group(group),
        Kind::TextWith(group) => arg.requires_arg(group),
        Kind::Size => Ok(arg.value_parser(value_parser!(usize))),
    }
}
