//! Two external addresses, and filtering by address, over files: what was answered holds when they are opened again,
//! and they are opened in this configuration alone.
use crate::files::{are_of, is_refused};
use crate::shared::{OverFiles, REQUESTS, SIDES, answered, close, fresh, opened};
use options::Sides;
use refusals::Refusal;
use std::alloc::{AllocError, Global};
use std::test::Fail;

const POOL: Sides<'static> = Sides {
    external: "203.0.113.1,203.0.113.2",
    filtering: "address",
    ..SIDES
};

// A text by which all leaves from 203.0.113.2, and what is answered to it, to the text of `REQUESTS` and to its packet.
const SECOND: &[u8] =
    b"\x02\x00\x00\x00\x00\x58\x00\x00\x00\x00\x00\x00\x03\xe8table ip n { chain p { type nat hook postrouting priority 100; snat to 203.0.113.2; }; }";

const LOADED: &[u8] =
    b"\x03\x00\x00\x00\x00\x00\x00\x00\x01\x00\x00\x00\x00\x03\x00\x00\x00\x00\x00\x00\x00\x02\x00\x00\x00\x00\x01\x00\x00\x00\x00\x00\x00\x00\x03\x00\x00\x00\x1d\x01\x45\x00\x00\x1c\x00\x01\x00\x00\x3f\x11\x15\x94\xcb\x00\x71\x01\xc6\x33\x64\x07\x13\x88\x00\x35\x00\x08\x85\xe4";

// From 192.168.1.3:5000 to 198.51.100.7:53. It leaves from 203.0.113.1:5002.
const NEIGHBOUR: (&[u8], &[u8]) = (
    b"\x01\x00\x00\x00\x00\x1c\x00\x00\x00\x00\x00\x00\x03\xe8\x45\x00\x00\x1c\x00\x01\x00\x00\x40\x11\x8e\xea\xc0\xa8\x01\x03\xc6\x33\x64\x07\x13\x88\x00\x35\x00\x08\x00\x3b",
    b"\x01\x00\x00\x00\x00\x00\x00\x00\x04\x00\x00\x00\x1d\x01\x45\x00\x00\x1c\x00\x01\x00\x00\x3f\x11\x15\x94\xcb\x00\x71\x01\xc6\x33\x64\x07\x13\x8a\x00\x35\x00\x08\x85\xe2",
);

// From 192.168.1.2 and this port to 198.51.100.7:53, without a checksum. There are 512 of them, which take each odd
// port below 1024 of 203.0.113.1.
const TAKING: &[u8] =
    b"\x01\x00\x00\x00\x00\x1c\x00\x00\x00\x00\x00\x00\x03\xe8\x45\x00\x00\x1c\x00\x01\x00\x00\x40\x11\x8e\xeb\xc0\xa8\x01\x02\xc6\x33\x64\x07";

const BEHIND_PORT: &[u8] = b"\x00\x35\x00\x08\x00\x00";

// What follows them, and the answers:
// - from 192.168.1.3:7, whose host has a mapping at 203.0.113.1: no port;
// - from 192.168.1.4:7: from 203.0.113.2:7;
// - from 192.168.1.4:5000: from 203.0.113.2:5000;
// - from 198.51.100.9:7000 to 203.0.113.1:5000: filtered;
// - from 198.51.100.7:54 to 203.0.113.1:5000: to 192.168.1.2:5000.
const BEHIND: [(&[u8], &[u8]); 5] = [
    (
        b"\x01\x00\x00\x00\x00\x1c\x00\x00\x00\x00\x00\x00\x03\xe8\x45\x00\x00\x1c\x00\x01\x00\x00\x40\x11\x8e\xea\xc0\xa8\x01\x03\xc6\x33\x64\x07\x00\x07\x00\x35\x00\x08\x13\xbc",
        b"\x02\x00\x00\x00\x00\x00\x00\x02\x05\x00\x00\x00\x01\x13",
    ),
    (
        b"\x01\x00\x00\x00\x00\x1c\x00\x00\x00\x00\x00\x00\x03\xe8\x45\x00\x00\x1c\x00\x01\x00\x00\x40\x11\x8e\xe9\xc0\xa8\x01\x04\xc6\x33\x64\x07\x00\x07\x00\x35\x00\x08\x13\xbb",
        b"\x01\x00\x00\x00\x00\x00\x00\x02\x06\x00\x00\x00\x1d\x01\x45\x00\x00\x1c\x00\x01\x00\x00\x3f\x11\x15\x93\xcb\x00\x71\x02\xc6\x33\x64\x07\x00\x07\x00\x35\x00\x08\x99\x64",
    ),
    (
        b"\x01\x00\x00\x00\x00\x1c\x00\x00\x00\x00\x00\x00\x03\xe8\x45\x00\x00\x1c\x00\x01\x00\x00\x40\x11\x8e\xe9\xc0\xa8\x01\x04\xc6\x33\x64\x07\x13\x88\x00\x35\x00\x08\x00\x3a",
        b"\x01\x00\x00\x00\x00\x00\x00\x02\x07\x00\x00\x00\x1d\x01\x45\x00\x00\x1c\x00\x01\x00\x00\x3f\x11\x15\x93\xcb\x00\x71\x02\xc6\x33\x64\x07\x13\x88\x00\x35\x00\x08\x85\xe3",
    ),
    (
        b"\x01\x01\x00\x00\x00\x1c\x00\x00\x00\x00\x00\x00\x03\xe8\x45\x00\x00\x1c\x00\x01\x00\x00\x40\x11\x14\x92\xc6\x33\x64\x09\xcb\x00\x71\x01\x1b\x58\x13\x88\x00\x08\x6a\xbf",
        b"\x02\x00\x00\x00\x00\x00\x00\x02\x08\x00\x00\x00\x01\x0e",
    ),
    (
        b"\x01\x01\x00\x00\x00\x1c\x00\x00\x00\x00\x00\x00\x03\xe8\x45\x00\x00\x1c\x00\x01\x00\x00\x40\x11\x14\x94\xc6\x33\x64\x07\xcb\x00\x71\x01\x00\x36\x13\x88\x00\x08\x85\xe3",
        b"\x01\x00\x00\x00\x00\x00\x00\x02\x09\x00\x00\x00\x1d\x00\x45\x00\x00\x1c\x00\x01\x00\x00\x3f\x11\x8f\xeb\xc6\x33\x64\x07\xc0\xa8\x01\x02\x00\x36\x13\x88\x00\x08\x00\x3b",
    ),
];

// At 1250, when the files are open again: from 192.168.1.4:5001, whose host stays at 203.0.113.2; and the last two of
// those above.
const AGAIN: [(&[u8], &[u8]); 3] = [
    (
        b"\x01\x00\x00\x00\x00\x1c\x00\x00\x00\x00\x00\x00\x04\xe2\x45\x00\x00\x1c\x00\x01\x00\x00\x40\x11\x8e\xe9\xc0\xa8\x01\x04\xc6\x33\x64\x07\x13\x89\x00\x35\x00\x08\x00\x39",
        b"\x01\x00\x00\x00\x00\x00\x00\x00\x01\x00\x00\x00\x1d\x01\x45\x00\x00\x1c\x00\x01\x00\x00\x3f\x11\x15\x93\xcb\x00\x71\x02\xc6\x33\x64\x07\x13\x89\x00\x35\x00\x08\x85\xe2",
    ),
    (
        b"\x01\x01\x00\x00\x00\x1c\x00\x00\x00\x00\x00\x00\x04\xe2\x45\x00\x00\x1c\x00\x01\x00\x00\x40\x11\x14\x92\xc6\x33\x64\x09\xcb\x00\x71\x01\x1b\x58\x13\x88\x00\x08\x6a\xbf",
        b"\x02\x00\x00\x00\x00\x00\x00\x00\x02\x00\x00\x00\x01\x0e",
    ),
    (
        b"\x01\x01\x00\x00\x00\x1c\x00\x00\x00\x00\x00\x00\x04\xe2\x45\x00\x00\x1c\x00\x01\x00\x00\x40\x11\x14\x94\xc6\x33\x64\x07\xcb\x00\x71\x01\x00\x36\x13\x88\x00\x08\x85\xe3",
        b"\x01\x00\x00\x00\x00\x00\x00\x00\x03\x00\x00\x00\x1d\x00\x45\x00\x00\x1c\x00\x01\x00\x00\x3f\x11\x8f\xeb\xc6\x33\x64\x07\xc0\xa8\x01\x02\x00\x36\x13\x88\x00\x08\x00\x3b",
    ),
];

// Requests and what is to be answered to them.
#[derive(Drop)]
struct Stream {
    requests: Vec<u8>,
    answers: Vec<u8>,
}

fn put(stream: &mut Stream, requests: &[u8], answers: &[u8]) -> Result<(), AllocError> {
    stream.requests.extend_from_slice(requests)?;
    stream.answers.extend_from_slice(answers)
}

// The packet from this port leaves from the same of 203.0.113.1; its number is this.
fn put_taking(stream: &mut Stream, port: u16, number: u16) -> Result<(), AllocError> {
    let port = port.to_be_bytes();
    put(stream, TAKING, b"\x01\x00\x00\x00\x00\x00\x00")?;
    put(stream, &port, &number.to_be_bytes())?;
    put(
        stream,
        BEHIND_PORT,
        b"\x00\x00\x00\x1d\x01\x45\x00\x00\x1c\x00\x01\x00\x00\x3f\x11\x15\x94\xcb\x00\x71\x01\xc6\x33\x64\x07",
    )?;
    put(stream, b"", &port)?;
    put(stream, b"", BEHIND_PORT)
}

fn put_each(stream: &mut Stream, rows: &[(&[u8], &[u8])]) -> Result<(), AllocError> {
    for (request, answer) in rows {
        put(stream, *request, *answer)?;
    }
    Ok(())
}

fn put_all_taking(stream: &mut Stream) -> Result<(), AllocError> {
    for place in 0..512u16 {
        put_taking(stream, 2 * place + 1, place + 5)?;
    }
    Ok(())
}

fn put_first(stream: &mut Stream) -> Result<(), AllocError> {
    put(stream, SECOND, LOADED)?;
    put(stream, REQUESTS, b"")?;
    put_each(stream, &[NEIGHBOUR])?;
    put_all_taking(stream)?;
    put_each(stream, &BEHIND)
}

fn empty(alloc: Global) -> Stream {
    Stream {
        requests: Vec::new(alloc),
        answers: Vec::new(alloc),
    }
}

fn first_stream(alloc: Global) -> Result<Stream, AllocError> {
    let mut stream = empty(alloc);
    put_first(&mut stream)?;
    Ok(stream)
}

fn second_stream(alloc: Global) -> Result<Stream, AllocError> {
    let mut stream = empty(alloc);
    put_each(&mut stream, &AGAIN)?;
    Ok(stream)
}

fn is_answered(rt: &HostRuntime, gateway: &mut OverFiles, stream: &Stream) -> Result<bool, Fail> {
    let answers = answered(rt, gateway, stream.requests.as_slice())?;
    Ok(answers.as_slice() == stream.answers.as_slice())
}

// Whether there are so many sessions, all of them used at this moment.
fn has_sessions(gateway: &OverFiles, count: usize, moment: u64) -> Result<bool, Fail> {
    let sessions = gateway.sessions()?;
    Ok(sessions.len() == count && are_of(sessions.as_slice(), moment))
}

fn plays(
    rt: &HostRuntime,
    gateway: &mut OverFiles,
    stream: &Stream,
    moment: u64,
    (before, behind): (usize, usize),
) -> Result<bool, Fail> {
    let is_begun = has_sessions(gateway, before, moment)?;
    let is_answered = is_answered(rt, gateway, stream)?;
    Ok(is_begun && is_answered && has_sessions(gateway, behind, moment)?)
}

// Opens the files at this moment, where there are so many sessions, and so many behind the stream.
fn is_played(
    rt: &HostRuntime,
    stream: &Stream,
    moment: u64,
    counts: (usize, usize),
) -> Result<bool, Fail> {
    let mut gateway = opened(rt, &POOL, "pool", moment)?;
    let is_played = plays(rt, &mut gateway, stream, moment, counts);
    close(gateway);
    is_played
}

// Other configurations, and what is said of the files then.
const OTHERS: [(Sides<'static>, &str); 3] = [
    (
        SIDES,
        "pool: the files were written with another configuration: start natgw with --external 203.0.113.1,203.0.113.2 --filtering address, or name another directory",
    ),
    (
        Sides {
            filtering: "endpoint",
            ..POOL
        },
        "pool: the files were written with another configuration: start natgw with --filtering address, or name another directory",
    ),
    (
        Sides {
            external: "203.0.113.2,203.0.113.1",
            ..POOL
        },
        "pool: the files were written with another configuration: start natgw with --external 203.0.113.1,203.0.113.2, or name another directory",
    ),
];

#[test]
fn pool_on_files(rt: HostRuntime) -> Result<(), Fail> {
    fresh(&rt, "pool")?;
    assert!(rt; is_played(&rt, &first_stream(rt.alloc())?, 1_000, (0, 517))?);
    assert!(rt; is_played(&rt, &second_stream(rt.alloc())?, 1_250, (517, 518))?);
    for (sides, line) in &OTHERS {
        assert!(rt;
            is_refused(&rt, sides, "pool", Refusal::ConfigDiffers, line),
            "{line}"
        );
    }
    Ok(())
}
