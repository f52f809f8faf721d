//! The program `natgw`: the words of its command line go to crate `command_line`, and what they ask for to `commands` and
//! `tunnel`.
//!
//! - `natgw check FILE` says whether a ruleset would load;
//! - `natgw replay` answers request frames on standard input by answer frames on standard output;
//! - `natgw serve` answers those of the clients of a Unix socket;
//! - `natgw loop FILE` sends those of a file through a socket to itself;
//! - `natgw tun` carries packets between two TUN devices;
//! - `natgw show` lists the sessions that the files of a directory keep;
//! - `natgw rules` prints the ruleset in force.
//!
//! The status is 0; 1 where a command gives up, or `check` finds a fault; 2 where the command line can't be read.
#![tactic(auto)]

use command_line::{Parsed, parse};
use commands::run;
use refusals::{Refusal, Stop, tell};
use std::io::ErrorKind;
use std::process::ExitCode;

/// The status where the command line can't be read.
const USAGE: u8 = 2;

fn main(rt: HostRuntime) -> ExitCode {
    match start(&rt) {
        Ok(code) => code,
        Err(stop) => {
            let _ = tell(&mut rt.stderr(), &stop);
            ExitCode::FAILURE
        }
    }
}

fn start(rt: &HostRuntime) -> Result<ExitCode, Stop> {
    let alloc = rt.alloc();
    let arguments = match std::env::args(rt) {
        Ok(arguments) => arguments,
        Err(error) if error.kind() == ErrorKind::OutOfMemory => {
            return Err(Stop::from(Refusal::NoMemory));
        }
        Err(_) => {
            let _ = eprintln!(rt; "error: an argument isn't UTF-8");
            return Ok(ExitCode::from(USAGE));
        }
    };
    let words: Vec<String> = arguments.collect(alloc)?;
    match parse(rt, alloc, words.as_slice())? {
        Parsed::Run(options) => run(rt, &options),
        Parsed::Tun(asked) => {
            tunnel::run(rt, &asked)?;
            Ok(ExitCode::SUCCESS)
        }
        Parsed::Stopped(status) => Ok(ExitCode::from(status)),
    }
}
