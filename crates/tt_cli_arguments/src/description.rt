//! Commands and arguments as data, and the commands of `clap` that are made of them.

use clap::builder::ValueParser;
use clap::{Arg, ArgAction, Command};
use std::alloc::{AllocError, Global};

/// The form in which an argument is given.
#[derive(Clone, Copy)]
pub enum Form<'a> {
    /// A word in its place.
    Word,
    /// A word in its place, which may be left out.
    OptionalWord,
    /// Words in their place, as many as are given.
    Words,
    /// An option without a value.
    Flag,
    /// An option whose value has this name in the help.
    Value(&'a str),
    /// An option whose value has this name in the help; it may be given more than once.
    Values(&'a str),
    /// An option whose value has this name in the help and is one of these words.
    Choice(&'a str, &'a [&'a str]),
    /// An option whose value is a number.
    Number(Range<'a>),
}

/// The least and the greatest number that may be given, and the number that counts if none is, if there is one.
#[derive(Clone, Copy)]
pub struct Range<'a> {
    pub least: u64,
    pub most: u64,
    pub default: Option<&'a str>,
}

/// A condition on other arguments under which an argument may or must be given.
#[derive(Clone, Copy)]
pub enum Condition<'a> {
    /// The argument must be given unless one of these is.
    RequiredUnless(&'a [&'a str]),
    /// The argument can't be given together with one of these.
    ConflictsWith(&'a [&'a str]),
    /// The argument can be given only together with each of these.
    Requires(&'a [&'a str]),
}

/// An argument: the word by which it is found, its form, its text in the help, and its condition.
#[derive(Clone, Copy)]
pub struct Argument<'a> {
    pub id: &'a str,
    pub form: Form<'a>,
    pub help: &'a str,
    pub condition: Option<Condition<'a>>,
}

/// A command: its name, its texts in the help, and its arguments in their order.
#[derive(Clone, Copy)]
pub struct Description<'a> {
    pub name: &'a str,
    pub about: &'a str,
    pub example: &'a str,
    pub arguments: &'a [Argument<'a>],
}

fn option<'a>(alloc: Global, id: &'a str) -> Arg<'a> {
    Arg::new(alloc, id).long(id)
}

fn value_option<'a>(alloc: Global, id: &'a str, name: &'a str) -> Arg<'a> {
    option(alloc, id).value_name(name)
}

fn number_option<'a>(alloc: Global, id: &'a str, range: Range<'a>) -> Arg<'a> {
    // A negative number is a value that is refused, and no option.
    let number = value_option(alloc, id, "N")
        .allow_negative_numbers(true)
        .value_parser(ValueParser::Unsigned(range.least, range.most));
    match range.default {
        Some(default) => number.default_value(default),
        None => number,
    }
}

/// Returns an argument without its help and its condition.
fn bare<'a>(alloc: Global, id: &'a str, form: Form<'a>) -> Arg<'a> {
    match form {
        Form::Word => Arg::new(alloc, id).required(true),
        Form::OptionalWord => Arg::new(alloc, id),
        Form::Words => Arg::new(alloc, id).num_args(0..),
        Form::Flag => option(alloc, id).action(ArgAction::SetTrue),
        Form::Value(name) => value_option(alloc, id, name),
        Form::Values(name) => value_option(alloc, id, name).action(ArgAction::Append),
        Form::Choice(name, words) => {
            value_option(alloc, id, name).value_parser(ValueParser::Names(words))
        }
        Form::Number(range) => number_option(alloc, id, range),
    }
}

/// Adds a condition to an argument.
fn with_condition<'a>(
    arg: Arg<'a>,
    condition: Option<Condition<'a>>,
) -> Result<Arg<'a>, AllocError> {
    match condition {
        None => Ok(arg),
        Some(Condition::RequiredUnless(ids)) => arg.required_unless_present_any(ids),
        Some(Condition::ConflictsWith(ids)) => arg.conflicts_with_all(ids),
        Some(Condition::Requires(ids)) => arg.requires_all(ids),
    }
}

/// Returns arguments in their order.
fn arguments_of<'a>(alloc: Global, arguments: &[Argument<'a>]) -> Result<Vec<Arg<'a>>, AllocError> {
    let mut args = Vec::new(alloc);
    for argument in arguments {
        let arg = bare(alloc, argument.id, argument.form).help(argument.help);
        args.push(with_condition(arg, argument.condition)?)?;
    }
    Ok(args)
}

/// Returns a command with its arguments.
fn command_of<'a>(alloc: Global, description: &Description<'a>) -> Result<Command<'a>, AllocError> {
    let args = arguments_of(alloc, description.arguments)?;
    Command::new(alloc, description.name)
        .about(description.about)
        .after_help(description.example)
        .args(args)
}

/// Returns commands in their order.
pub fn commands_of<'a>(
    alloc: Global,
    descriptions: &[Description<'a>],
) -> Result<Vec<Command<'a>>, AllocError> {
    let mut commands = Vec::new(alloc);
    for description in descriptions {
        commands.push(command_of(alloc, description)?)?;
    }
    Ok(commands)
}
