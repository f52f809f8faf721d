//! A stream of requests over a gateway, read in pieces.
use crate::shared::{
    FIRST, GatewayFault, Kept, MASQUERADE, NEIGHBOUR, Stop, Trials, close, disk_of, empty_disk,
    lasting, must, open,
};
use socket_edge::EdgeFault;
use std::alloc::Global;
use std::io::{self, Read};
use trial_disk::Trial;

/// Requests begin with these: a load of 101 bytes, a packet of 28 from lan, and a moment, each at 1000.
const LOAD: [u8; 14] = [2, 0, 0, 0, 0, 0x65, 0, 0, 0, 0, 0, 0, 3, 0xe8];

const PACKET: [u8; 14] = [1, 0, 0, 0, 0, 0x1c, 0, 0, 0, 0, 0, 0, 3, 0xe8];

const MOMENT: [u8; 14] = [3, 0, 0, 0, 0, 0, 0, 0, 0, 0, 0, 0, 3, 0xe8];

/// The bytes of the requests, and of their answers.
const REQUESTED: usize = 213;

const ANSWERED: usize = 110;

/// Gives up to 16 bytes a call.
#[derive(Drop)]
struct Pieces<'a> {
    left: &'a [u8],
}

impl Read for Pieces<'_> {
    fn read(&mut self, buf: &mut [u8]) -> io::Result<usize> {
        let most = buf.len().min(16);
        self.left.read(&mut buf[..most])
    }
}

const PARTS: [&[u8]; 7] = [
    &LOAD, MASQUERADE, &PACKET, &FIRST, &MOMENT, &PACKET, &NEIGHBOUR,
];

fn requests_once(alloc: Global) -> Option<Vec<u8>> {
    let mut bytes = Vec::with_capacity(alloc, REQUESTED).ok()?;
    for part in &PARTS {
        bytes.extend_from_slice(*part).ok()?;
    }
    Some(bytes)
}

// A load, a packet, a moment and a packet.
fn requests(alloc: Global) -> Result<Vec<u8>, Stop> {
    match requests_once(alloc) {
        Some(requests) => Ok(requests),
        None => requests_once(alloc).ok_or(Stop::Wrong("requests")),
    }
}

fn room_once(alloc: Global) -> Option<Vec<u8>> {
    Vec::with_capacity(alloc, ANSWERED).ok()
}

// Room for the answers: a writer that is refused none.
fn room(alloc: Global) -> Result<Vec<u8>, Stop> {
    match room_once(alloc) {
        Some(room) => Ok(room),
        None => room_once(alloc).ok_or(Stop::Wrong("room for frames")),
    }
}

// Where the request begins that is to be answered behind so many bytes of answers; none within a frame.
fn asked(written: usize) -> Option<usize> {
    match written {
        0 => Some(0),
        13 => Some(115),
        55 => Some(157),
        68 => Some(171),
        ANSWERED => Some(REQUESTED),
        _ => None,
    }
}

// Answers the requests behind those that are answered.
fn run_once(
    alloc: Global,
    requests: &[u8],
    written: &mut Vec<u8>,
    gateway: &mut Trials,
) -> Result<(), EdgeFault> {
    let left = asked(written.len()).and_then(|at| requests.get(at..));
    let mut reader = Pieces {
        left: left.ok_or(EdgeFault::Truncated)?,
    };
    run_edge(alloc, &mut reader, written, gateway)?;
    Ok(())
}

// The run of the edge, of which nothing here knows a clause.
fn run_edge(
    alloc: Global,
    reader: &mut Pieces<'_>,
    writer: &mut Vec<u8>,
    gateway: &mut Trials,
) -> Result<u64, EdgeFault> {
    socket_edge::run(alloc, reader, writer, gateway)
}

// Where memory was refused, nothing is held, and the requests that have no answer are made again.
fn run(alloc: Global, written: &mut Vec<u8>, gateway: &mut Trials) -> Result<(), Stop> {
    let requests = requests(alloc)?;
    let mut end = run_once(alloc, requests.as_slice(), written, gateway);
    if end == Err(EdgeFault::Gateway(GatewayFault::NoMemory)) {
        must(gateway.held() == 0, "held frames")?;
        end = run_once(alloc, requests.as_slice(), written, gateway);
    }
    match end {
        Ok(()) => Ok(()),
        Err(EdgeFault::Gateway(GatewayFault::Device)) => Err(Stop::Fallen),
        Err(_) => Err(Stop::Wrong("stream")),
    }
}

fn must_be_left(gateway: &Trials, most: Result<Kept, Stop>) -> Result<(), Stop> {
    let (rules, sessions) = most?;
    let found = lasting(gateway)?;
    must(found.0 <= rules && found.1 <= sessions, "files of a stream")
}

// The files open again, with no more than there was at the end.
fn expect_left(alloc: Global, disk: Trial, most: Result<Kept, Stop>) -> Result<(), Stop> {
    let gateway = open(alloc, disk)?;
    let ended = must_be_left(&gateway, most);
    close(gateway);
    ended
}

fn answer_into(alloc: Global, written: &mut Vec<u8>) -> Result<(), Stop> {
    let mut gateway = open(alloc, empty_disk(alloc)?)?;
    let end = run(alloc, written, &mut gateway);
    let most = lasting(&gateway);
    expect_left(alloc, disk_of(gateway), most)?;
    end
}

fn answer_once(alloc: Global) -> Result<Vec<u8>, Stop> {
    let mut written = room(alloc)?;
    answer_into(alloc, &mut written)?;
    Ok(written)
}

/// The frames that answer the requests. Where the disk was refused memory, all begins again, with another disk.
///
/// # Errors
///
/// The first place at which something is wrong.
pub fn answer(alloc: Global) -> Result<Vec<u8>, Stop> {
    match answer_once(alloc) {
        Err(Stop::Fallen) => answer_once(alloc),
        end => end,
    }
}
