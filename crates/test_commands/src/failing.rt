//! Sockets over a disk of which a call fails.
use crate::serve_and_loop::{bound, client};
use crate::shared::{REQUESTS, SIDES, fresh};
use checking::bounds;
use commands::{Loop, loop_back, serve_clients};
use gateway::Gateway;
use refusals::{Refusal, Stop};
use std::alloc::{AllocError, AllocFailed, Global};
use std::fs;
use std::fs::File;
use std::io::{Read, Write};
use std::net::Shutdown;
use std::os::unix::net::{UnixListener, UnixStream};
use std::test::Fail;
use trial_disk::Trial;

type Trials = Box<Gateway<Trial>>;

fn opened(alloc: Global, disk: Trial) -> Result<Trials, Fail> {
    match Gateway::open(alloc, disk, bounds(alloc, &SIDES)?, 1_000) {
        Ok(gateway) => boxed(alloc, gateway),
        Err(_) => Err(Fail::new("no gateway")),
    }
}

fn boxed(alloc: Global, gateway: Gateway<Trial>) -> Result<Trials, Fail> {
    match Box::new(alloc, gateway) {
        Ok(gateway) => Ok(gateway),
        Err(AllocFailed { value }) => {
            drop(value.into_disk());
            Err(Fail::new("no memory"))
        }
    }
}

// What is left of a gateway. The rest is let go by its own crate.
fn disk_of(gateway: Trials) -> Trial {
    Box::into_inner(gateway).into_disk()
}

fn close(gateway: Trials) {
    drop(disk_of(gateway));
}

// A gateway over files that were made before, of whose disk this call fails, counted from 0. A flush makes four.
fn troubled(alloc: Global, call: u64) -> Result<Trials, Fail> {
    let disk = disk_of(opened(alloc, Trial::of(alloc, b"", b"")?)?);
    let made = disk.calls();
    let mut disk = disk_of(opened(alloc, disk)?);
    let opening = disk.calls().saturating_sub(made);
    disk.fail_once(call.saturating_add(opening));
    opened(alloc, disk)
}

fn is_device(ended: &Result<(), Stop>) -> bool {
    match ended {
        Ok(()) => false,
        Err(stop) => stop.refusal == Refusal::Device,
    }
}

// Serves so many clients, and whether a call of the disk failed and nothing was told.
fn is_unserved(
    alloc: Global,
    listener: &UnixListener,
    path: &str,
    connections: u64,
    gateway: &mut Trials,
) -> bool {
    let mut errors = Vec::new(alloc);
    let served = serve_clients(alloc, listener, path, connections, &mut errors, gateway);
    is_device(&served) && errors.is_empty()
}

fn is_unanswered(alloc: Global, client: &mut UnixStream) -> Result<bool, Fail> {
    let mut answers = Vec::new(alloc);
    client.read_to_end(&mut answers)?;
    Ok(answers.is_empty())
}

// Serves two clients, and whether a call of the disk failed, the first one was answered nothing, nothing was told, and
// the second one still waits.
fn is_cut_short(rt: &HostRuntime, gateway: &mut Trials, path: &str) -> Result<bool, Fail> {
    let listener = bound(rt, path)?;
    let mut first = client(rt, path, REQUESTS)?;
    let _second = client(rt, path, REQUESTS)?;
    let is_unserved = is_unserved(rt.alloc(), &listener, path, 2, gateway);
    let is_quiet = is_unserved && is_unanswered(rt.alloc(), &mut first)?;
    Ok(is_quiet && listener.accept().is_ok())
}

// The first client's load can't be kept, and the second client isn't served.
#[test]
fn clients_of_a_gateway_that_fails(rt: HostRuntime) -> Result<(), Fail> {
    fresh(&rt, "failing")?;
    let mut gateway = troubled(rt.alloc(), 1)?;
    let is_cut_short = is_cut_short(&rt, &mut gateway, "failing/sock");
    close(gateway);
    assert!(rt; is_cut_short?);
    fs::remove_file(&rt, "failing/sock")?;
    Ok(())
}

// A load and 63 moments, which a flush hands out before the packet behind them.
fn put_requests(out: &mut Vec<u8>) -> Result<(), AllocError> {
    let (load, packet) = REQUESTS.split_at(115);
    out.extend_from_slice(load)?;
    for _ in 0..63 {
        out.extend_from_slice(b"\x03\x00\x00\x00\x00\x00\x00\x00\x00\x00\x00\x00\x03\xe8")?;
    }
    out.extend_from_slice(packet)
}

fn requests(alloc: Global) -> Result<Vec<u8>, AllocError> {
    let mut requests = Vec::new(alloc);
    put_requests(&mut requests)?;
    Ok(requests)
}

// Whether a loop ends since a call of the disk failed, and nothing is told.
fn is_cut_off<W: Write>(
    rt: &HostRuntime,
    gateway: &mut Trials,
    path: &str,
    output: &mut W,
) -> Result<bool, Fail> {
    let alloc = rt.alloc();
    let requests = requests(alloc)?;
    let listener = bound(rt, path)?;
    let mut errors = Vec::new(alloc);
    let way = Loop {
        listener,
        path,
        requests: requests.as_slice(),
    };
    let looped = loop_back(rt, alloc, way, output, &mut errors, gateway);
    Ok(is_device(&looped) && errors.is_empty())
}

// The second flush fails, and what the first one handed out is printed.
#[test]
fn a_loop_over_a_gateway_that_fails(rt: HostRuntime) -> Result<(), Fail> {
    fresh(&rt, "failing-loop")?;
    let mut gateway = troubled(rt.alloc(), 4)?;
    let mut output = Vec::new(rt.alloc());
    let is_cut_off = is_cut_off(&rt, &mut gateway, "failing-loop/natgw.sock", &mut output);
    close(gateway);
    assert!(rt; is_cut_off?);
    assert!(rt; output.len() == 64 * 13);
    fs::remove_file(&rt, "failing-loop/natgw.sock")?;
    Ok(())
}

// The second flush fails, and what the first one handed out can't be printed: a file that is open for reading takes
// nothing.
#[test]
fn a_loop_that_can_print_nothing(rt: HostRuntime) -> Result<(), Fail> {
    fresh(&rt, "failing-print")?;
    fs::write(&rt, "failing-print/output", b"".as_slice())?;
    let mut output = File::open(&rt, "failing-print/output")?;
    let mut gateway = troubled(rt.alloc(), 4)?;
    let is_cut_off = is_cut_off(&rt, &mut gateway, "failing-print/natgw.sock", &mut output);
    close(gateway);
    assert!(rt; is_cut_off?);
    fs::remove_file(&rt, "failing-print/natgw.sock")?;
    Ok(())
}

// Why serving ends, where it is told that a client took no answer.
fn ended_by_output(
    alloc: Global,
    listener: &UnixListener,
    path: &str,
    gateway: &mut Trials,
) -> Option<Refusal> {
    let mut errors = Vec::new(alloc);
    match serve_clients(alloc, listener, path, 1, &mut errors, gateway) {
        Err(stop) if errors.as_slice() == b"natgw: output\n".as_slice() => Some(stop.refusal),
        _ => None,
    }
}

fn deaf_client(rt: &HostRuntime, path: &str) -> Result<UnixStream, Fail> {
    let requests = requests(rt.alloc())?;
    let deaf = client(rt, path, requests.as_slice())?;
    deaf.shutdown(Shutdown::Read)?;
    Ok(deaf)
}

// Why serving ends a client that takes no answer, where that is told as such.
fn ended_by_a_deaf_client(
    rt: &HostRuntime,
    gateway: &mut Trials,
    path: &str,
) -> Result<Option<Refusal>, Fail> {
    let listener = bound(rt, path)?;
    let _deaf = deaf_client(rt, path)?;
    Ok(ended_by_output(rt.alloc(), &listener, path, gateway))
}

// The second flush fails, and what the first one handed out can't be written.
#[test]
fn a_deaf_client_of_a_gateway_that_fails(rt: HostRuntime) -> Result<(), Fail> {
    fresh(&rt, "failing-deaf")?;
    let mut gateway = troubled(rt.alloc(), 4)?;
    let ended = ended_by_a_deaf_client(&rt, &mut gateway, "failing-deaf/sock");
    close(gateway);
    assert!(rt; ended? == Some(Refusal::Reopen));
    fs::remove_file(&rt, "failing-deaf/sock")?;
    Ok(())
}
