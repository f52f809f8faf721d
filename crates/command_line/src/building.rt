//! The command line as clap takes it, made of the grammar. A value of clap's has so many parts that a function which
//! owns several is dear to prove: so each is put together by a function of its own, and lists of them are borrowed.
use crate::grammar::{Argument, Form, LOOKING, OPENING, SIDES, VERBS, Verb};
use crate::help;
use clap::{Arg, ArgAction, Command, value_parser};
use std::alloc::{AllocError, Global};

fn named<'a>(alloc: Global, argument: &Argument) -> Arg<'a> {
    let arg = Arg::new(alloc, argument.name).help(argument.help);
    match argument.form {
        Form::File => arg,
        Form::Text | Form::Number | Form::Word(_) | Form::Flag => arg.long(argument.name),
    }
}

fn with_value<'a>(arg: Arg<'a>, argument: &Argument) -> Arg<'a> {
    let arg = arg.value_name(argument.value);
    match argument.default {
        Some(value) => arg.default_value(value),
        None => arg.required(true),
    }
}

fn arg_of<'a>(alloc: Global, argument: &Argument) -> Arg<'a> {
    let arg = named(alloc, argument);
    match argument.form {
        Form::Flag => arg.action(ArgAction::SetTrue),
        Form::Number => with_value(arg, argument).value_parser(value_parser!(u64)),
        Form::Word(words) => with_value(arg, argument).value_parser(words),
        Form::Text | Form::File => with_value(arg, argument),
    }
}

fn put<'a>(
    alloc: Global,
    args: &mut Vec<Arg<'a>>,
    arguments: &[Argument],
) -> Result<(), AllocError> {
    for argument in arguments {
        args.push(arg_of(alloc, argument))?;
    }
    Ok(())
}

fn args_of<'a>(alloc: Global, verb: &Verb) -> Result<Vec<Arg<'a>>, AllocError> {
    let mut args = Vec::new(alloc);
    put(alloc, &mut args, SIDES)?;
    if verb.opens {
        put(alloc, &mut args, OPENING)?;
    }
    if verb.looks {
        put(alloc, &mut args, LOOKING)?;
    }
    put(alloc, &mut args, verb.own)?;
    Ok(args)
}

fn command_of<'a>(alloc: Global, verb: &Verb) -> Result<Command<'a>, AllocError> {
    let args = args_of(alloc, verb)?;
    Command::new(alloc, verb.name)
        .about(verb.about)
        .after_help(verb.more)
        .args(args)
}

fn put_command<'a>(
    alloc: Global,
    commands: &mut Vec<Command<'a>>,
    verb: &Verb,
) -> Result<(), AllocError> {
    commands.push(command_of(alloc, verb)?)?;
    Ok(())
}

fn put_commands<'a>(alloc: Global, commands: &mut Vec<Command<'a>>) -> Result<(), AllocError> {
    for verb in VERBS {
        put_command(alloc, commands, verb)?;
    }
    Ok(())
}

// The program, without its commands.
fn program<'a>(alloc: Global) -> Result<Command<'a>, AllocError> {
    Command::new(alloc, "natgw")
        .version(help::VERSION)
        .about(help::ABOUT)
        .after_help(help::OVERVIEW)
        .subcommand_required(true)
        .arg_required_else_help(true)
        .bin_name("natgw")
}

/// The command line of the program.
///
/// # Errors
///
/// `AllocError` where memory is refused.
pub(crate) fn command_line<'a>(alloc: Global) -> Result<Command<'a>, AllocError> {
    let mut commands = Vec::new(alloc);
    put_commands(alloc, &mut commands)?;
    program(alloc)?.subcommands(commands)
}
