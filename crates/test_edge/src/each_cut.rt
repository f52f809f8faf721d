//! Two frames that are cut at each byte, and headers with one byte set to each value.
use crate::shared::{Stream, TICK, TICKED, answered, comes_to, four_requests};
use socket_edge::EdgeFault;
use std::alloc::Global;
use std::process::Abort;
use std::test::Fail;

/// A load of 115 bytes, and a packet of 42.
const TWO: usize = 157;

// How a stream of so many bytes ends.
fn end_of(cut: usize) -> Result<u64, EdgeFault> {
    match cut {
        0 => Ok(0),
        115 => Ok(1),
        TWO => Ok(2),
        _ => Err(EdgeFault::Truncated),
    }
}

// Whether the frames that came whole are answered.
fn is_cut_at(alloc: Global, stream: &Stream, cut: usize) -> bool {
    let given = stream.requests.get(..cut);
    let frames = stream.answers.get(..answered(cut));
    match (given, frames) {
        (Some(given), Some(frames)) => comes_to(alloc, given, end_of(cut), frames),
        _ => false,
    }
}

fn cut_at_each(rt: &impl Abort, alloc: Global, stream: &Stream) {
    for cut in 0..=TWO {
        assert!(rt; is_cut_at(alloc, stream, cut), "{cut} bytes");
    }
}

#[test]
fn each_cut(rt: HostRuntime) -> Result<(), Fail> {
    let stream = four_requests(rt.alloc())?;
    cut_at_each(&rt, rt.alloc(), &stream);
    Ok(())
}

// How a moment ends whose header has this byte, and what is written of it. As a packet it would have no bytes, which is
// dropped with the number 1; as a load it has none either, and that text loads.
fn end_of_byte(at: usize, byte: u8) -> (Result<u64, EdgeFault>, &'static [u8]) {
    match (at, byte) {
        (0, 1) => (Ok(1), &[2, 0, 0, 0, 0, 0, 0, 0, 1, 0, 0, 0, 1, 1]),
        (0, 2) => (Ok(1), &[3, 0, 0, 0, 0, 0, 0, 0, 1, 0, 0, 0, 0]),
        (0, 3) | (1..6, 0) | (6.., _) => (Ok(1), &TICKED),
        (0, _) => (Err(EdgeFault::BadKind), &[]),
        (1, _) => (Err(EdgeFault::BadInterface), &[]),
        _ => (Err(EdgeFault::TooLong), &[]),
    }
}

fn is_told(alloc: Global, at: usize, byte: u8) -> bool {
    let mut frame = TICK;
    if at >= frame.len() {
        return false;
    }
    frame[at] = byte;
    let (end, answers) = end_of_byte(at, byte);
    comes_to(alloc, &frame, end, answers)
}

fn assert_told(rt: &impl Abort, alloc: Global, at: usize) {
    for byte in 0..=255u8 {
        assert!(rt; is_told(alloc, at, byte), "byte {at}: {byte}");
    }
}

#[test]
fn each_byte_of_the_header(rt: HostRuntime) {
    for at in 0..TICK.len() {
        assert_told(&rt, rt.alloc(), at);
    }
}

// Whether a header alone ends so, of this kind and with this length of a body, and nothing is written.
fn is_cut_short(alloc: Global, kind: u8, length: u32, fault: EdgeFault) -> bool {
    let [first, second, third, fourth] = length.to_be_bytes();
    let header = [
        kind, 0, first, second, third, fourth, 0, 0, 0, 0, 0, 0, 3, 0xe8,
    ];
    comes_to(alloc, &header, Err(fault), &[])
}

// Up to its limit a body is waited for.
const LENGTHS: [(u8, u32, EdgeFault); 6] = [
    (1, 65_535, EdgeFault::Truncated),
    (1, 65_536, EdgeFault::TooLong),
    (1, u32::MAX, EdgeFault::TooLong),
    (2, 262_144, EdgeFault::Truncated),
    (2, 262_145, EdgeFault::TooLong),
    (2, u32::MAX, EdgeFault::TooLong),
];

#[test]
fn lengths_at_and_past_the_limits(rt: HostRuntime) {
    for (kind, length, fault) in &LENGTHS {
        assert!(rt; is_cut_short(rt.alloc(), *kind, *length, *fault));
    }
}
