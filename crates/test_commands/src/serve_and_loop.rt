//! Requests through sockets.
use crate::shared::{ANSWERS, OverFiles, REQUESTS, SIDES, close, fresh, opened};
use commands::{Loop, bind, loop_back, replay, serve_clients, tell_end};
use gateway::GatewayFault;
use refusals::{Refusal, Stop};
use socket_edge::EdgeFault;
use std::alloc::{AllocError, Global};
use std::fs;
use std::fs::File;
use std::io::{Read, Write};
use std::net::Shutdown;
use std::os::unix::net::{UnixListener, UnixStream};
use std::test::Fail;

/// A socket that is bound to this path, of which a test knows no clause.
pub fn bound(rt: &HostRuntime, path: &str) -> Result<UnixListener, Stop> {
    bind(rt, rt.alloc(), path)
}

// Whether a path is refused with this second line.
fn is_no_path(rt: &HostRuntime, path: &str, line: &str) -> bool {
    match bound(rt, path) {
        Ok(_) => false,
        Err(stop) => stop.refusal == Refusal::File && stop.second_line() == line,
    }
}

// Whether a socket that is there is refused.
fn is_bound_once(rt: &HostRuntime, path: &str, line: &str) -> Result<bool, Stop> {
    let _listener = bound(rt, path)?;
    Ok(is_no_path(rt, path, line))
}

#[test]
fn a_socket_that_is_there(rt: HostRuntime) -> Result<(), Fail> {
    fresh(&rt, "loop")?;
    let line =
        "loop/natgw.sock exists: if no natgw listens there, remove it; otherwise name another path (loop: --dir)";
    assert!(rt; is_bound_once(&rt, "loop/natgw.sock", line)?);
    Ok(())
}

#[test]
fn a_socket_without_a_path(rt: HostRuntime) -> Result<(), Fail> {
    assert!(rt;
        is_no_path(
            &rt,
            "",
            "the path of the socket is empty: name one by --socket"
        )
    );
    let line = "a file, a directory or a socket can't be had: look at its path";
    assert!(rt; is_no_path(&rt, "none\nthere/natgw.sock", line));
    Ok(())
}

// Whether a loop writes the answers to standard output, and nothing to standard error.
fn is_looped(rt: &HostRuntime, gateway: &mut OverFiles, path: &str) -> Result<bool, Stop> {
    let alloc = rt.alloc();
    let listener = bound(rt, path)?;
    let mut output = Vec::new(alloc);
    let mut errors = Vec::new(alloc);
    let way = Loop {
        listener,
        path,
        requests: REQUESTS,
    };
    loop_back(rt, alloc, way, &mut output, &mut errors, gateway)?;
    Ok(output.as_slice() == ANSWERS && errors.is_empty())
}

#[test]
fn through_a_loop(rt: HostRuntime) -> Result<(), Fail> {
    fresh(&rt, "through")?;
    let mut gateway = opened(&rt, &SIDES, "through", 1_000)?;
    let is_looped = is_looped(&rt, &mut gateway, "through/natgw.sock");
    close(gateway);
    assert!(rt; is_looped?);
    Ok(())
}

/// A client of a socket that has sent this and nothing behind it.
pub fn client(rt: &HostRuntime, path: &str, requests: &[u8]) -> Result<UnixStream, Fail> {
    let client = UnixStream::connect(rt, path)?;
    (&client).write_all(requests)?;
    client.shutdown(Shutdown::Write)?;
    Ok(client)
}

// What two clients are answered that wait, and what stands on standard error.
#[derive(Drop)]
struct Served {
    first: Vec<u8>,
    second: Vec<u8>,
    errors: Vec<u8>,
}

fn serve_into(
    rt: &HostRuntime,
    gateway: &mut OverFiles,
    path: &str,
    (first, second): (&[u8], &[u8]),
    served: &mut Served,
) -> Result<(), Fail> {
    let listener = bound(rt, path)?;
    let mut first = client(rt, path, first)?;
    let mut second = client(rt, path, second)?;
    serve_clients(rt.alloc(), &listener, path, 2, &mut served.errors, gateway)?;
    read_both(&mut first, &mut second, served)
}

fn read_both(
    first: &mut UnixStream,
    second: &mut UnixStream,
    served: &mut Served,
) -> Result<(), Fail> {
    first.read_to_end(&mut served.first)?;
    second.read_to_end(&mut served.second)?;
    Ok(())
}

// Whether a load of the first one and a packet of the second one are answered, and a request is told to be cut.
fn are_served(
    rt: &HostRuntime,
    gateway: &mut OverFiles,
    path: &str,
    requests: (&[u8], &[u8]),
) -> Result<bool, Fail> {
    let mut served = Served {
        first: Vec::new(rt.alloc()),
        second: Vec::new(rt.alloc()),
        errors: Vec::new(rt.alloc()),
    };
    serve_into(rt, gateway, path, requests, &mut served)?;
    Ok(is_load_and_packet(&served))
}

fn is_load_and_packet(served: &Served) -> bool {
    let is_told = served.errors.as_slice() == b"natgw: truncated\n".as_slice();
    let (first, second) = ANSWERS.split_at(13);
    is_told && served.first.as_slice() == first && served.second.as_slice() == second
}

// The first one ends within a request, and the second one is served all the same.
#[test]
fn clients_that_wait(rt: HostRuntime) -> Result<(), Fail> {
    fresh(&rt, "serve")?;
    let mut gateway = opened(&rt, &SIDES, "serve", 1_000)?;
    let requests = (&REQUESTS[..128], &REQUESTS[115..]);
    let are_served = are_served(&rt, &mut gateway, "serve/sock", requests);
    close(gateway);
    assert!(rt; are_served?);
    fs::remove_file(&rt, "serve/sock")?;
    Ok(())
}

// Whether a second client is served behind one that ends within a request.
fn serves_on<W: Write>(
    rt: &HostRuntime,
    gateway: &mut OverFiles,
    path: &str,
    errors: &mut W,
) -> Result<bool, Fail> {
    let listener = bound(rt, path)?;
    let _first = client(rt, path, &REQUESTS[..128])?;
    let mut second = client(rt, path, &REQUESTS[115..])?;
    serve_clients(rt.alloc(), &listener, path, 2, errors, gateway)?;
    let mut answers = Vec::new(rt.alloc());
    second.read_to_end(&mut answers)?;
    Ok(answers.as_slice() == &ANSWERS[13..])
}

// The first one's word can't be told: a file that is open for reading takes nothing.
#[test]
fn words_that_nobody_takes(rt: HostRuntime) -> Result<(), Fail> {
    fresh(&rt, "untold")?;
    fs::write(&rt, "untold/errors", b"".as_slice())?;
    let mut errors = File::open(&rt, "untold/errors")?;
    let mut gateway = opened(&rt, &SIDES, "untold", 1_000)?;
    let serves_on = serves_on(&rt, &mut gateway, "untold/sock", &mut errors);
    close(gateway);
    assert!(rt; serves_on?);
    Ok(())
}

// A load of 65,500 spaces at moment 1000, and a faulty header.
fn faulty(alloc: Global) -> Result<Vec<u8>, AllocError> {
    let mut stream = Vec::new(alloc);
    stream.extend_from_slice(b"\x02\x00\x00\x00\xff\xdc\x00\x00\x00\x00\x00\x00\x03\xe8")?;
    stream.extend_from_slice(vec![in alloc; b' '; 65_500]?.as_slice())?;
    stream.extend_from_slice(&[7; 14])?;
    Ok(stream)
}

// How far the file grows by so many streams that end in a fault.
fn grow(alloc: Global, gateway: &mut OverFiles, streams: u32) -> Result<u64, AllocError> {
    let stream = faulty(alloc)?;
    for _ in 0..streams {
        let mut reader = stream.as_slice();
        let mut answers = Vec::new(alloc);
        let _ = replay(alloc, &mut reader, &mut answers, gateway);
    }
    Ok(gateway.grown())
}

// How far the file has grown once a client is served that asks nothing.
fn grown_behind_a_client(
    rt: &HostRuntime,
    gateway: &mut OverFiles,
    path: &str,
) -> Result<u64, Fail> {
    let listener = bound(rt, path)?;
    let _client = client(rt, path, b"")?;
    let mut errors = Vec::new(rt.alloc());
    serve_clients(rt.alloc(), &listener, path, 1, &mut errors, gateway)?;
    Ok(gateway.grown())
}

// How far the file has grown by 17 streams that end in a fault, and behind a client then.
fn grown_twice(rt: &HostRuntime, gateway: &mut OverFiles) -> Result<(u64, u64), Fail> {
    let grown = grow(rt.alloc(), gateway, 17)?;
    let behind = grown_behind_a_client(rt, gateway, "between/sock")?;
    Ok((grown, behind))
}

// A stream that ends in a fault compacts nothing, whatever it loads; the next client finds the file made anew.
#[test]
fn compacts_between_clients(rt: HostRuntime) -> Result<(), Fail> {
    fresh(&rt, "between")?;
    let mut gateway = opened(&rt, &SIDES, "between", 1_000)?;
    let grown = grown_twice(&rt, &mut gateway);
    close(gateway);
    assert!(rt; grown? == (17 * 65_510, 0));
    Ok(())
}

const DEVICE: EdgeFault = EdgeFault::Gateway(GatewayFault::Device);

// How a stream ended, what that means, and what stands on standard error.
const SETTLED: [(Result<u64, EdgeFault>, Result<(), Refusal>, &[u8]); 3] = [
    (Ok(3), Ok(()), b""),
    (Err(DEVICE), Err(Refusal::Device), b""),
    (Err(EdgeFault::BadKind), Ok(()), b"natgw: bad-kind\n"),
];

// Whether an end means this, and so much is told of it.
fn is_settled(
    alloc: Global,
    ended: Result<u64, EdgeFault>,
    expected: Result<(), Refusal>,
    told: &[u8],
) -> bool {
    let mut errors = Vec::new(alloc);
    tell_end(ended, &mut errors) == expected && errors.as_slice() == told
}

#[test]
fn ends_of_streams(rt: HostRuntime) {
    for (ended, expected, told) in &SETTLED {
        assert!(rt; is_settled(rt.alloc(), *ended, *expected, *told));
    }
}
