//! So many flows that the edge looks ahead for the sessions of the packets that come next.
use crate::shared::{FORWARDED, PACKET, TICK, TICKED, comes_to};
use std::alloc::{AllocError, Global};
use std::test::Fail;

/// How many flows there are; from 4,096 slots on it is looked ahead.
const FLOWS: u32 = 5_000;

/// A packet back, from 198.51.100.7:53 to 192.168.1.2:5000, from wan. Its sums are those of the packet out.
const BACK: [u8; 42] = [
    1, 1, 0, 0, 0, 0x1c, 0, 0, 0, 0, 0, 0, 3, 0xe8, 0x45, 0, 0, 0x1c, 0, 1, 0, 0, 0x40, 0x11, 0x8e,
    0xeb, 0xc6, 0x33, 0x64, 7, 0xc0, 0xa8, 1, 2, 0, 0x35, 0x13, 0x88, 0, 8, 0, 0x3c,
];

/// It leaves on lan with one hop less.
const CAME_BACK: [u8; 42] = [
    1, 0, 0, 0, 0, 0, 0, 0, 1, 0, 0, 0, 0x1d, 0, 0x45, 0, 0, 0x1c, 0, 1, 0, 0, 0x3f, 0x11, 0x8f,
    0xeb, 0xc6, 0x33, 0x64, 7, 0xc0, 0xa8, 1, 2, 0, 0x35, 0x13, 0x88, 0, 8, 0, 0x3c,
];

/// Requests, what answers them, and the number of the last answer.
#[derive(Drop)]
struct Talk {
    requests: Vec<u8>,
    answers: Vec<u8>,
    number: u64,
}

/// The frame with this port at this place, which is the same in a request and in its answer. No sum of the header
/// counts it.
fn with_port(frame: &[u8; 42], at: usize, port: u16) -> [u8; 42] {
    let mut frame = *frame;
    let [high, low] = port.to_be_bytes();
    if at < 41 {
        frame[at] = high;
        frame[at + 1] = low;
    }
    frame
}

/// Puts an answer, with the next number.
fn put_answer(talk: &mut Talk, frame: &[u8]) -> Result<(), AllocError> {
    talk.number = talk.number.saturating_add(1);
    let (front, rest) = frame.split_at(frame.len().min(9));
    talk.answers
        .extend_from_slice(&front[..front.len().min(1)])?;
    talk.answers.extend_from_slice(&talk.number.to_be_bytes())?;
    talk.answers.extend_from_slice(rest)
}

/// The host sends from this port.
fn go_out(talk: &mut Talk, port: u16) -> Result<(), AllocError> {
    talk.requests
        .extend_from_slice(&with_port(&PACKET, 34, port))?;
    put_answer(talk, &with_port(&FORWARDED, 34, port))
}

/// The host is sent a packet to this port.
fn come_back(talk: &mut Talk, port: u16) -> Result<(), AllocError> {
    talk.requests
        .extend_from_slice(&with_port(&BACK, 36, port))?;
    put_answer(talk, &with_port(&CAME_BACK, 36, port))
}

fn tick(talk: &mut Talk) -> Result<(), AllocError> {
    talk.requests.extend_from_slice(&TICK)?;
    put_answer(talk, &TICKED)
}

/// The port of the flow that comes at this turn; no two of as many turns as there are flows have the same.
fn port_at(turn: u32) -> u16 {
    1024 + (turn % FLOWS * 37 % FLOWS) as u16
}

/// Each flow begins, each comes again, and each is answered, with a moment behind each tenth answer.
fn talk_of_all(alloc: Global) -> Result<Talk, AllocError> {
    let mut talk = Talk {
        requests: Vec::new(alloc),
        answers: Vec::new(alloc),
        number: 0,
    };
    for turn in 0..2 * FLOWS {
        go_out(&mut talk, port_at(turn))?;
    }
    for turn in 0..FLOWS {
        come_back(&mut talk, port_at(turn))?;
        if turn % 10 == 0 {
            tick(&mut talk)?;
        }
    }
    Ok(talk)
}

fn is_answered(alloc: Global, talk: &Talk) -> bool {
    comes_to(
        alloc,
        talk.requests.as_slice(),
        Ok(talk.number),
        talk.answers.as_slice(),
    )
}

#[test]
fn many_flows(rt: HostRuntime) -> Result<(), Fail> {
    let talk = talk_of_all(rt.alloc())?;
    let is_right = is_answered(rt.alloc(), &talk);
    drop(talk);
    assert!(rt; is_right);
    Ok(())
}
