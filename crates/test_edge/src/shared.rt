//! Streams that several tests begin with, and gateways over a disk in memory.
use gateway::{Gateway, GatewayFault};
use packet::{Bounds, Filtering, Prefix};
use socket_edge::{EdgeFault, Peer};
use std::alloc::{AllocError, AllocFailed, Global};
use std::io::{Read, Write};
use std::test::Fail;
use trial_disk::Trial;

/// A moment of 1000, and what answers it as the first event.
pub const TICK: [u8; 14] = [3, 0, 0, 0, 0, 0, 0, 0, 0, 0, 0, 0, 3, 0xe8];

pub const TICKED: [u8; 13] = [5, 0, 0, 0, 0, 0, 0, 0, 1, 0, 0, 0, 0];

/// A packet of UDP from 192.168.1.2:5000 to 198.51.100.7:53, from lan.
pub const PACKET: [u8; 42] = [
    1, 0, 0, 0, 0, 0x1c, 0, 0, 0, 0, 0, 0, 3, 0xe8, 0x45, 0, 0, 0x1c, 0, 1, 0, 0, 0x40, 0x11, 0x8e,
    0xeb, 0xc0, 0xa8, 1, 2, 0xc6, 0x33, 0x64, 7, 0x13, 0x88, 0, 0x35, 0, 8, 0, 0x3c,
];

/// It leaves on wan with one hop less: a gateway begins with no rules.
pub const FORWARDED: [u8; 42] = [
    1, 0, 0, 0, 0, 0, 0, 0, 1, 0, 0, 0, 0x1d, 1, 0x45, 0, 0, 0x1c, 0, 1, 0, 0, 0x3f, 0x11, 0x8f,
    0xeb, 0xc0, 0xa8, 1, 2, 0xc6, 0x33, 0x64, 7, 0x13, 0x88, 0, 0x35, 0, 8, 0, 0x3c,
];

/// A load of 101 bytes: the head of its frame, and its text, under which every packet to wan leaves from the external
/// address.
const LOAD_HEAD: &str = "02 00 00000065 00000000000003e8";

const MASQUERADE: &str =
    "table ip nat { chain post { type nat hook postrouting priority srcnat; oifname \"wan\" masquerade; }; }";

/// The packet above, a moment, and a packet from the same port of 192.168.1.3.
const LATER: &str = "\
01 00 0000001c 00000000000003e8 4500001c00010000 40118eeb c0a80102 c6336407 13880035 0008003c
03 00 00000000 00000000000003e8
01 00 0000001c 00000000000003e8 4500001c00010000 40118eea c0a80103 c6336407 13880035 0008003b";

/// What answers all four.
const ANSWERS: &str = "\
03 0000000000000001 00000000
01 0000000000000002 0000001d 01 4500001c00010000 3f111594 cb007101 c6336407 13880035 000885e4
05 0000000000000003 00000000
01 0000000000000004 0000001d 01 4500001c00010000 3f111594 cb007101 c6336407 138a0035 000885e2";

/// A size of reads such that no two requests of a stream end in one.
pub const PIECE: usize = 16;

/// Four requests and their answers.
#[derive(Drop)]
pub struct Stream {
    pub requests: Vec<u8>,
    pub answers: Vec<u8>,
}

/// A load, a packet, a moment and a packet.
///
/// # Errors
///
/// A `Fail` where memory is refused.
pub fn four_requests(alloc: Global) -> Result<Stream, Fail> {
    let mut stream = Stream {
        requests: Vec::new(alloc),
        answers: Vec::new(alloc),
    };
    fill(&mut stream)?;
    Ok(stream)
}

fn fill(stream: &mut Stream) -> Result<(), Fail> {
    put_hex(&mut stream.requests, LOAD_HEAD)?;
    stream.requests.extend_from_slice(MASQUERADE.as_bytes())?;
    put_hex(&mut stream.requests, LATER)?;
    put_hex(&mut stream.answers, ANSWERS)
}

/// How many bytes the answers have to the requests that lie whole in so many bytes of the stream.
pub fn answered(given: usize) -> usize {
    match given {
        0..115 => 0,
        115..157 => 13,
        157..171 => 55,
        171..213 => 68,
        _ => 110,
    }
}

fn digit(byte: u8) -> Option<u8> {
    match byte {
        b'0'..=b'9' => Some(byte - b'0'),
        b'a'..=b'f' => Some(byte - b'a' + 10),
        _ => None,
    }
}

fn byte_of(pair: &[u8]) -> Option<u8> {
    match pair {
        [high, low] => Some(digit(*high)? << 4 | digit(*low)?),
        _ => None,
    }
}

fn put_pair(out: &mut Vec<u8>, pair: &[u8]) -> Result<(), Fail> {
    match byte_of(pair) {
        Some(byte) => Ok(out.push(byte)?),
        None => Err(Fail::new("not two hexadecimal digits")),
    }
}

fn put_word(out: &mut Vec<u8>, word: &[u8]) -> Result<(), Fail> {
    for pair in word.chunks(2) {
        put_pair(out, pair)?;
    }
    Ok(())
}

/// Puts the bytes that a text has in hexadecimal, with spaces for the eye.
///
/// # Errors
///
/// A `Fail` where the text has something else, or memory is refused.
pub fn put_hex(out: &mut Vec<u8>, text: &str) -> Result<(), Fail> {
    for word in text.split_whitespace() {
        put_word(out, word.as_bytes())?;
    }
    Ok(())
}

/// The bytes that a text has in hexadecimal, with spaces for the eye.
///
/// # Errors
///
/// A `Fail` where the text has something else, or memory is refused.
pub fn hex(alloc: Global, text: &str) -> Result<Vec<u8>, Fail> {
    let mut out = Vec::new(alloc);
    put_hex(&mut out, text)?;
    Ok(out)
}

/// These bytes, one part behind the other.
///
/// # Errors
///
/// `AllocError` where memory is refused.
pub fn joined(alloc: Global, parts: &[&[u8]]) -> Result<Vec<u8>, AllocError> {
    let mut frame = Vec::new(alloc);
    for part in parts {
        frame.extend_from_slice(part)?;
    }
    Ok(frame)
}

/// A request's frame.
///
/// # Errors
///
/// `AllocError` where memory is refused.
pub fn request(
    alloc: Global,
    kind: u8,
    iface: u8,
    moment: u64,
    body: &[u8],
) -> Result<Vec<u8>, AllocError> {
    let moment = moment.to_be_bytes();
    joined(alloc, &[&[kind, iface], &length_of(body), &moment, body])
}

/// The length of a body, as the head of its frame has it.
pub fn length_of(body: &[u8]) -> [u8; 4] {
    u32::try_from(body.len()).unwrap_or(u32::MAX).to_be_bytes()
}

/// The external addresses of a gateway, and whom its mappings let in.
#[derive(Clone, Copy)]
pub struct Outside {
    pub pool: &'static [u32],
    pub filtering: Filtering,
}

/// 203.0.113.1, and mappings that let everyone in.
pub const ONE: Outside = Outside {
    pool: &[0xcb00_7101],
    filtering: Filtering::Endpoint,
};

/// Inside 192.168.0.0/16; none where memory is refused.
fn bounds(alloc: Global, outside: Outside) -> Option<Bounds> {
    let inside = Prefix {
        addr: 0xc0a8_0000,
        len: 16,
    };
    let inside = Vec::from_slice(alloc, &[inside]).ok()?;
    let lan = String::from_str(alloc, "lan").ok()?;
    let wan = String::from_str(alloc, "wan").ok()?;
    let external = Vec::from_slice(alloc, outside.pool).ok()?;
    Bounds::new(lan, wan, inside, external, outside.filtering).ok()
}

/// A gateway over a disk for trials. It lies behind a box, so that a function which lets it go does so by one call.
pub type Trials = Box<Gateway<Trial>>;

fn open(alloc: Global, disk: Trial, outside: Outside) -> Option<Trials> {
    let bounds = bounds(alloc, outside)?;
    match Gateway::open(alloc, disk, bounds, 0) {
        Ok(gateway) => boxed(alloc, gateway),
        Err(_) => None,
    }
}

fn boxed(alloc: Global, gateway: Gateway<Trial>) -> Option<Trials> {
    match Box::new(alloc, gateway) {
        Ok(gateway) => Some(gateway),
        Err(AllocFailed { value }) => {
            drop(value.into_disk());
            None
        }
    }
}

// What is left of a gateway. The rest is let go by its own crate.
fn disk_of(gateway: Trials) -> Trial {
    Box::into_inner(gateway).into_disk()
}

/// Lets a gateway go.
pub fn close(gateway: Trials) {
    drop(disk_of(gateway));
}

/// A gateway over empty files; none where memory is refused.
pub fn gateway(alloc: Global) -> Option<Trials> {
    gateway_of(alloc, ONE)
}

fn gateway_of(alloc: Global, outside: Outside) -> Option<Trials> {
    open(alloc, Trial::of(alloc, b"", b"").ok()?, outside)
}

fn reopened(alloc: Global, disk: Trial) -> Result<Trials, Fail> {
    Ok(open(alloc, disk, ONE).ok_or("no gateway")?)
}

/// A gateway over empty files.
///
/// # Errors
///
/// A `Fail` where memory is refused.
pub fn opened(alloc: Global) -> Result<Trials, Fail> {
    opened_as(alloc, ONE)
}

/// As `opened`, with these external addresses and this filtering.
///
/// # Errors
///
/// A `Fail` where memory is refused.
pub fn opened_as(alloc: Global, outside: Outside) -> Result<Trials, Fail> {
    Ok(gateway_of(alloc, outside).ok_or("no gateway")?)
}

/// A gateway over files that were just made, of whose disk a later call fails, counted from 0.
///
/// # Errors
///
/// A `Fail` where memory is refused.
pub fn troubled(alloc: Global, call: u64) -> Result<Trials, Fail> {
    let disk = disk_of(opened(alloc)?);
    let made = disk.calls();
    let mut disk = disk_of(reopened(alloc, disk)?);
    let opening = disk.calls().saturating_sub(made);
    disk.fail_once(call.saturating_add(opening));
    reopened(alloc, disk)
}

/// The run of the edge, of which a test knows no clause.
///
/// # Errors
///
/// Those of the run.
pub fn run<R: Read, W: Write>(
    alloc: Global,
    reader: &mut R,
    writer: &mut W,
    gateway: &mut Trials,
) -> Result<u64, EdgeFault> {
    socket_edge::run(alloc, reader, writer, gateway)
}

/// The run with a peer at a gateway over empty files, of which a test knows no clause.
///
/// # Errors
///
/// Those of the run, and `NoMemory` where there is no memory for a gateway.
pub fn run_with_anew<P: Peer>(alloc: Global, peer: &mut P) -> Result<u64, EdgeFault> {
    let Some(mut gateway) = gateway_of(alloc, ONE) else {
        return Err(EdgeFault::Gateway(GatewayFault::NoMemory));
    };
    let ended = socket_edge::run_with(alloc, peer, &mut gateway);
    close(gateway);
    ended
}

/// The run at a gateway over empty files.
///
/// # Errors
///
/// Those of the run, and `NoMemory` where there is no memory for a gateway.
pub fn run_anew<R: Read, W: Write>(
    alloc: Global,
    reader: &mut R,
    writer: &mut W,
) -> Result<u64, EdgeFault> {
    run_anew_as(alloc, reader, writer, ONE)
}

fn run_anew_as<R: Read, W: Write>(
    alloc: Global,
    reader: &mut R,
    writer: &mut W,
    outside: Outside,
) -> Result<u64, EdgeFault> {
    let Some(mut gateway) = gateway_of(alloc, outside) else {
        return Err(EdgeFault::Gateway(GatewayFault::NoMemory));
    };
    let ended = run(alloc, reader, writer, &mut gateway);
    close(gateway);
    ended
}

/// How a run over a stream ends at a gateway over empty files, and what it writes.
pub fn run_over(alloc: Global, stream: &[u8]) -> (Result<u64, EdgeFault>, Vec<u8>) {
    run_over_as(alloc, stream, ONE)
}

/// As `run_over`, with these external addresses and this filtering.
pub fn run_over_as(
    alloc: Global,
    stream: &[u8],
    outside: Outside,
) -> (Result<u64, EdgeFault>, Vec<u8>) {
    let mut reader = stream;
    let mut written = Vec::new(alloc);
    let ended = run_anew_as(alloc, &mut reader, &mut written, outside);
    (ended, written)
}

/// Whether a run over a stream ends so at a gateway over empty files, and writes this.
pub fn comes_to(alloc: Global, stream: &[u8], end: Result<u64, EdgeFault>, answers: &[u8]) -> bool {
    let (ended, written) = run_over(alloc, stream);
    ended == end && written.as_slice() == answers
}
