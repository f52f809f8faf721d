//! Calls that are refused memory. Each one that takes memory is made; where it is refused, this looks that it was
//! refused as such, and that nothing has changed, and makes it again. So what is printed is the same whichever growth
//! is refused, if only one is. The script `tests/refuse-each-growth` refuses one after the other.
//!
//! - `shared`: gateways over a disk in memory, and what a caller sees of them;
//! - `texts`: rulesets that are read;
//! - `calls`: a gateway that is opened, and its offers, flushes, compactions and runs;
//! - `migration`: a gateway that is opened over a file of the first version;
//! - `streams`: a stream of requests, and the frames of its answers.
//!
//! Where a call of the disk fails for want of memory, the gateway has fallen. Then the files are opened again, and have
//! to have what they had before the call or what they were to have; and all begins from empty files.
#![tactic(auto)]

mod calls;
mod migration;
mod shared;
mod streams;
mod texts;

use shared::{Answer, Iface, Stop, must};
use std::io;
use std::process::ExitCode;

fn main(rt: HostRuntime) -> ExitCode {
    match play(&rt) {
        Ok(()) => ExitCode::SUCCESS,
        Err(stop) => {
            let _ = eprintln!(rt; "wrong: {}", place_of(stop));
            ExitCode::FAILURE
        }
    }
}

fn place_of(stop: Stop) -> &'static str {
    match stop {
        Stop::Fallen => "a disk that failed twice",
        Stop::Wrong(place) => place,
    }
}

fn play(rt: &HostRuntime) -> Result<(), Stop> {
    texts::read_each(rt)?;
    migration::play(rt.alloc())?;
    let answers = calls::play(rt.alloc())?;
    for (number, answer) in answers.as_slice() {
        must(print_answer(rt, *number, answer).is_ok(), "printing")?;
    }
    let frames = streams::answer(rt.alloc())?;
    must(
        print_bytes(rt, "frames", frames.as_slice()).is_ok(),
        "printing",
    )
}

fn print_bytes(rt: &HostRuntime, word: &str, bytes: &[u8]) -> io::Result<()> {
    print!(rt; "{word} ")?;
    for byte in bytes {
        print!(rt; "{byte:02x}")?;
    }
    println!(rt; "")
}

fn name(iface: Iface) -> &'static str {
    match iface {
        Iface::Lan => "lan",
        Iface::Wan => "wan",
    }
}

fn print_answer(rt: &HostRuntime, number: u64, answer: &Answer) -> io::Result<()> {
    print!(rt; "{number} ")?;
    match answer {
        Answer::Loaded => println!(rt; "loaded"),
        Answer::Refused => println!(rt; "refused"),
        Answer::Ticked => println!(rt; "ticked"),
        Answer::Dropped(cause) => println!(rt; "drop {cause}"),
        Answer::Forward(iface, bytes) => print_bytes(rt, name(*iface), bytes.as_slice()),
    }
}
