//! Streams of a few frames: how they end, in what pieces they may come and go, and with each growth refused.
use crate::pieces::{End, giving, taking};
use crate::shared::{
    FORWARDED, PACKET, TICK, TICKED, Trials, close, comes_to, gateway, run, run_anew,
};
use gateway::GatewayFault;
use socket_edge::EdgeFault;
use std::alloc::{AllocError, Global};
use std::test::Fail;

#[test]
fn first_frame(rt: HostRuntime) {
    assert!(rt; comes_to(rt.alloc(), &PACKET, Ok(1), &FORWARDED));
}

// Whether a moment with these bytes behind it is answered, and the run ends so.
fn is_ticked(
    alloc: Global,
    behind: &[u8],
    end: Result<u64, EdgeFault>,
) -> Result<bool, AllocError> {
    let mut bytes = Vec::from_slice(alloc, &TICK)?;
    bytes.extend_from_slice(behind)?;
    Ok(comes_to(alloc, bytes.as_slice(), end, &TICKED))
}

const BAD_KIND: &[u8] = &[7, 0, 0, 0, 0, 0, 0, 0, 0, 0, 0, 0, 0, 0];

const BAD_INTERFACE: &[u8] = &[3, 1, 0, 0, 0, 1, 0, 0, 0, 0, 0, 0, 0, 0];

const TOO_LONG: &[u8] = &[3, 0, 0, 0, 0, 1, 0, 0, 0, 0, 0, 0, 0, 0];

const CUT: &[u8] = &[1, 0, 0, 0, 0, 1, 0, 0, 0, 0, 0, 0, 0, 0];

const CUT_MOMENT: &[u8] = &[3, 0, 0, 0, 0, 0, 0, 0, 0, 0, 0, 0, 3];

const CUT_BAD_KIND: &[u8] = &[7, 0, 0, 0, 0, 0, 0, 0, 0, 0, 0, 0, 0];

// How a run ends that has this behind a moment.
const ENDS: [(&[u8], Result<u64, EdgeFault>); 7] = [
    (b"", Ok(1)),
    (CUT, Err(EdgeFault::Truncated)),
    (CUT_MOMENT, Err(EdgeFault::Truncated)),
    (CUT_BAD_KIND, Err(EdgeFault::Truncated)),
    (BAD_KIND, Err(EdgeFault::BadKind)),
    (BAD_INTERFACE, Err(EdgeFault::BadInterface)),
    (TOO_LONG, Err(EdgeFault::TooLong)),
];

#[test]
fn answers_up_to_the_end_or_a_fault(rt: HostRuntime) -> Result<(), Fail> {
    for (behind, end) in &ENDS {
        assert!(rt; is_ticked(rt.alloc(), *behind, *end)?);
    }
    Ok(())
}

// Two moments, and what answers them.
const TWICE: &[u8] = &[
    3, 0, 0, 0, 0, 0, 0, 0, 0, 0, 0, 0, 3, 0xe8, 3, 0, 0, 0, 0, 0, 0, 0, 0, 0, 0, 0, 3, 0xe8,
];

const TICKED_TWICE: &[u8] = &[
    5, 0, 0, 0, 0, 0, 0, 0, 1, 0, 0, 0, 0, 5, 0, 0, 0, 0, 0, 0, 0, 2, 0, 0, 0, 0,
];

// Whether a run over both ends so, and answers this, whose reader fails at the call `cut`.
fn is_read(alloc: Global, cut: usize, end: Result<u64, EdgeFault>, answers: &[u8]) -> bool {
    let mut reader = giving(TWICE, 1, cut);
    let mut writer = taking(alloc, 1, 100, End::Fails);
    let ended = run_anew(alloc, &mut reader, &mut writer);
    ended == end && writer.got.as_slice() == answers
}

#[test]
fn reads_and_writes_one_byte_at_a_time(rt: HostRuntime) {
    assert!(rt; is_read(rt.alloc(), usize::MAX, Ok(2), TICKED_TWICE));
    assert!(rt; is_read(rt.alloc(), 27, Err(EdgeFault::Input), &TICKED));
}

// Whether a run ends with a writer whose sixth call ends so.
fn is_cut_short(alloc: Global, end: End) -> bool {
    let mut reader = &TICK[..];
    let mut writer = taking(alloc, 1, 5, end);
    let ended = run_anew(alloc, &mut reader, &mut writer);
    ended == Err(EdgeFault::Output) && writer.got.as_slice() == &TICKED[..5]
}

#[test]
fn ends_where_a_write_fails_or_takes_nothing(rt: HostRuntime) {
    assert!(rt; is_cut_short(rt.alloc(), End::Fails));
    assert!(rt; is_cut_short(rt.alloc(), End::TakesNone));
}

// Whether a run is whole, or was refused memory and has written nothing.
fn is_whole_or_refused(alloc: Global, gateway: &mut Trials) -> bool {
    let mut written = Vec::new(alloc);
    let ended = run(alloc, &mut &PACKET[..], &mut written, gateway);
    match ended {
        Ok(count) => count == 1 && written.as_slice() == &FORWARDED[..],
        // The writer grows too.
        Err(EdgeFault::Gateway(GatewayFault::NoMemory) | EdgeFault::Output) => written.is_empty(),
        Err(_) => false,
    }
}

/// Holds under `rt try --test --fail-alloc N` for each N.
#[test]
fn each_growth(rt: HostRuntime) {
    if let Some(mut gateway) = gateway(rt.alloc()) {
        let is_right = is_whole_or_refused(rt.alloc(), &mut gateway);
        close(gateway);
        assert!(rt; is_right);
    }
}
