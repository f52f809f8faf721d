//! As many sessions as a core holds, what it drops then, and what it takes when they have ended.
use crate::model::step;
use crate::shared::machine;
use crate::words::body;
use machine::{Answer, Bytes, Core, Event, Iface, What};
use std::alloc::Global;
use std::process::Abort;
use std::test::*;

/// The drop of a packet that would begin one session too many.
const TABLE_FULL: u8 = 20;

/// The seconds after which a session of UDP is over.
const IDLE: u64 = 300;

// UDP from 192.168.1.2 to 198.51.100.7:53, without a checksum; the source port stands at byte 20.
const FIRST_HOST: [u8; 28] = [
    0x45, 0x00, 0x00, 0x1c, 0x00, 0x01, 0x00, 0x00, 0x40, 0x11, 0x8e, 0xeb, 0xc0, 0xa8, 0x01, 0x02,
    0xc6, 0x33, 0x64, 0x07, 0x13, 0x88, 0x00, 0x35, 0x00, 0x08, 0x00, 0x00,
];

// UDP from 192.168.1.3 to 198.51.100.7:53, as from the first host.
const SECOND_HOST: [u8; 28] = [
    0x45, 0x00, 0x00, 0x1c, 0x00, 0x01, 0x00, 0x00, 0x40, 0x11, 0x8e, 0xea, 0xc0, 0xa8, 0x01, 0x03,
    0xc6, 0x33, 0x64, 0x07, 0x13, 0x88, 0x00, 0x35, 0x00, 0x08, 0x00, 0x00,
];

// From 198.51.100.7:53 to 192.168.1.3:5000.
const FROM_OUTSIDE: [u8; 28] = [
    0x45, 0x00, 0x00, 0x1c, 0x00, 0x01, 0x00, 0x00, 0x40, 0x11, 0x8e, 0xea, 0xc6, 0x33, 0x64, 0x07,
    0xc0, 0xa8, 0x01, 0x03, 0x00, 0x35, 0x13, 0x88, 0x00, 0x08, 0x00, 0x00,
];

/// The packet with this source port; none where memory is refused.
fn with_port(alloc: Global, packet: &[u8; 28], port: u16) -> Option<Bytes> {
    let mut packet = *packet;
    let [high, low] = port.to_be_bytes();
    packet[20] = high;
    packet[21] = low;
    body(Vec::from_slice(alloc, &packet).ok()?)
}

/// Offers the packet, with this source port.
fn answer(
    alloc: Global,
    core: &mut Core,
    moment: u64,
    iface: Iface,
    packet: &[u8; 28],
    port: u16,
) -> Option<Answer> {
    let what = What::Packet(iface, with_port(alloc, packet, port)?);
    step(core, Event { moment, what })
}

fn is_sent_on(alloc: Global, core: &mut Core, moment: u64, packet: &[u8; 28], port: u16) -> bool {
    let answer = answer(alloc, core, moment, Iface::Lan, packet, port);
    matches!(answer, Some(Answer::Forward(Iface::Wan, _)))
}

fn is_full(alloc: Global, core: &mut Core, iface: Iface, packet: &[u8; 28], port: u16) -> bool {
    let answer = answer(alloc, core, 1000, iface, packet, port);
    matches!(answer, Some(Answer::Dropped(TABLE_FULL)))
}

/// Begins 65,536 sessions: one of each port of the first host, and one of the second.
fn fill(rt: &impl Abort, alloc: Global, core: &mut Core) {
    for port in 1..=u16::MAX {
        assert!(rt; is_sent_on(alloc, core, 1000, &FIRST_HOST, port), "{port}");
    }
    assert!(rt; is_sent_on(alloc, core, 1000, &SECOND_HOST, 5000));
}

/// No session begins, from either side, and one that lives goes on.
fn refuses_more(rt: &impl Abort, alloc: Global, core: &mut Core) {
    assert!(rt; is_full(alloc, core, Iface::Lan, &SECOND_HOST, 6000));
    assert!(rt; is_full(alloc, core, Iface::Wan, &FROM_OUTSIDE, 54));
    assert!(rt; is_sent_on(alloc, core, 1000, &SECOND_HOST, 5000));
}

/// How many sessions there are.
fn count(core: &Core) -> Option<usize> {
    Some(core.sessions().ok()?.len())
}

/// When all are over, one begins, and is the only one.
fn begins_anew(rt: &impl Abort, alloc: Global, core: &mut Core) {
    assert!(rt; is_sent_on(alloc, core, 1000 + IDLE, &SECOND_HOST, 6000));
    assert!(rt; count(core) == Some(1));
}

#[test]
fn full(rt: HostRuntime) -> Result<(), Fail> {
    let alloc = rt.alloc();
    let mut core = machine(alloc, 1000)?;
    fill(&rt, alloc, &mut core);
    refuses_more(&rt, alloc, &mut core);
    begins_anew(&rt, alloc, &mut core);
    drop(core);
    Ok(())
}
