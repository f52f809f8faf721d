//! What the words of a command line come to.
use crate::building::command_line;
use crate::tunnel;
use clap::error::ErrorKind;
use clap::{ArgMatches, Error};
use options::{Access, Listing, Opening, Options, Sides, Task, Tunnel, View, Work};
use refusals::Refusal;
use std::alloc::Global;
use std::io::{Eprint, Print};

/// What a command line comes to.
#[derive(Drop)]
pub enum Parsed<'a> {
    /// A command is to run.
    Run(Options<'a>),
    /// `tun` is to run.
    Tun(Tunnel<'a>),
    /// There is none, and why is printed: help or the version was asked for, which is status 0, or the command line
    /// can't be read, which is status 2.
    Stopped(u8),
}

fn read_sides<'a>(matches: &ArgMatches<'a>) -> Sides<'a> {
    Sides {
        lan: matches.get_str("lan").unwrap_or(""),
        wan: matches.get_str("wan").unwrap_or(""),
        inside: matches.get_str("inside").unwrap_or(""),
        external: matches.get_str("external").unwrap_or(""),
        filtering: matches.get_str("filtering").unwrap_or(""),
    }
}

fn read_opening<'a>(matches: &ArgMatches<'a>) -> Opening<'a> {
    Opening {
        directory: matches.get_str("dir").unwrap_or(""),
        moment: matches.get_one::<u64>("at").unwrap_or(0),
    }
}

fn read_path<'a>(matches: &ArgMatches<'a>) -> &'a str {
    matches.get_str("FILE").unwrap_or("")
}

// Clap takes no other word than those of `grammar`.
fn read_access(matches: &ArgMatches<'_>) -> Access {
    match matches.get_str("socket-mode").unwrap_or("") {
        "660" => Access::Group,
        "666" => Access::Everyone,
        _ => Access::Owner,
    }
}

fn read_listing(matches: &ArgMatches<'_>) -> Listing {
    if matches.get_flag("json") {
        Listing::Json
    } else {
        Listing::Columns
    }
}

// None for a word that names no command which tells of a gateway.
fn read_view(name: &str, matches: &ArgMatches<'_>) -> Option<View> {
    match name {
        "show" => Some(View::Sessions(read_listing(matches))),
        "rules" => Some(View::Rules),
        _ => None,
    }
}

// None for a word that names no command.
fn read_work<'a>(name: &str, matches: &ArgMatches<'a>) -> Option<Work<'a>> {
    match name {
        "replay" => Some(Work::Replay),
        "serve" => Some(Work::Serve {
            socket: matches.get_str("socket").unwrap_or(""),
            access: read_access(matches),
            connections: matches.get_one::<u64>("connections").unwrap_or(0),
        }),
        "loop" => Some(Work::Loop {
            path: read_path(matches),
        }),
        _ => Some(Work::View(read_view(name, matches)?)),
    }
}

// None where the gateway is to be opened first. Only the commands that tell of one have the flag.
fn read_look<'a>(name: &str, matches: &ArgMatches<'a>) -> Option<Task<'a>> {
    let view = read_view(name, matches)?;
    if !matches.get_flag("running") {
        return None;
    }
    Some(Task::Look {
        directory: matches.get_str("dir").unwrap_or(""),
        view,
    })
}

fn read_open<'a>(name: &str, matches: &ArgMatches<'a>) -> Option<Task<'a>> {
    Some(Task::Open {
        opening: read_opening(matches),
        work: read_work(name, matches)?,
    })
}

fn read_task<'a>(name: &str, matches: &ArgMatches<'a>) -> Option<Task<'a>> {
    if name == "check" {
        return Some(Task::Check {
            path: read_path(matches),
            explains: matches.get_flag("explain"),
        });
    }
    match read_look(name, matches) {
        Some(task) => Some(task),
        None => read_open(name, matches),
    }
}

fn read_options<'a>(name: &str, matches: &ArgMatches<'a>) -> Option<Options<'a>> {
    Some(Options {
        sides: read_sides(matches),
        task: read_task(name, matches)?,
    })
}

fn run_of<'a>(matches: &ArgMatches<'a>) -> Option<Parsed<'a>> {
    let (name, inner) = matches.subcommand()?;
    if name == tunnel::NAME {
        let (sides, opening) = (read_sides(inner), read_opening(inner));
        return Some(Parsed::Tun(tunnel::read_tunnel(sides, opening, inner)));
    }
    Some(Parsed::Run(read_options(name, inner)?))
}

// Prints what clap says in the place of a command.
fn stopped<'a, R: Print + Eprint>(rt: &R, error: &Error) -> Result<Parsed<'a>, Refusal> {
    if error.kind() == ErrorKind::OutOfMemory {
        return Err(Refusal::NoMemory);
    }
    let status = error.exit_code() as u8;
    if error.print(rt).is_err() && status == 0 {
        return Err(Refusal::Output);
    }
    Ok(Parsed::Stopped(status))
}

/// Reads the command line; the first word is the program's name. Where it names no command, what there is to say is
/// printed: help and the version on standard output, why it can't be read on standard error.
///
/// # Errors
///
/// - `NoMemory` where memory is refused.
/// - `Output` where help or the version was asked for and can't be printed.
pub fn parse<'a, R: Print + Eprint>(
    rt: &R,
    alloc: Global,
    words: &'a [String],
) -> Result<Parsed<'a>, Refusal> {
    match command_line(alloc)?.try_get_matches_from(words) {
        Ok(matches) => match run_of(&matches) {
            Some(parsed) => Ok(parsed),
            // Clap gives a command of the table, and `read_task` knows each of them, so this doesn't come.
            None => Err(Refusal::NoMemory),
        },
        Err(error) => stopped(rt, &error),
    }
}
