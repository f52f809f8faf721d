//! Packets worked by hand, between two devices in memory.
ghost use Rattle.std.specs.Prelude.{◌≡◌, [], IfSome, false};

use crate::Memory;
use carrying::{Between, Carrier, Dropped};
use devices::NO_HEADER;
use drop_lines::put_line;
use gateway::Gateway;
use packet::{Bounds, Filtering, Prefix};
use std::alloc::{AllocError, Global};
use std::test::Fail;
use trial_disk::Trial;

const RULES: &[u8] =
    b"table ip nat { chain post { type nat hook postrouting priority srcnat; oifname \"wan\" masquerade; }; }";

/// A datagram from 192.168.1.2:5000 to 198.51.100.7:53, and what it is on wan, from 203.0.113.1.
const OUT: &[u8] = &[
    0x45, 0, 0, 0x1c, 0, 1, 0, 0, 0x40, 0x11, 0x8e, 0xeb, 0xc0, 0xa8, 1, 2, 0xc6, 0x33, 0x64, 7,
    0x13, 0x88, 0, 0x35, 0, 8, 0, 0x3c,
];

const OUT_ON_WAN: &[u8] = &[
    0x45, 0, 0, 0x1c, 0, 1, 0, 0, 0x3f, 0x11, 0x15, 0x94, 0xcb, 0, 0x71, 1, 0xc6, 0x33, 0x64, 7,
    0x13, 0x88, 0, 0x35, 0, 8, 0x85, 0xe4,
];

/// The same where its checksum is open: cb00 + 7101 + c633 + 6407 + 0011 + 0008 is 26654, and 6656 once it is folded.
const OPEN: &[u8] = &[1, 0, 0, 0, 0, 0, 20, 0, 6, 0];

const OPEN_ON_WAN: &[u8] = &[
    0x45, 0, 0, 0x1c, 0, 1, 0, 0, 0x3f, 0x11, 0x15, 0x94, 0xcb, 0, 0x71, 1, 0xc6, 0x33, 0x64, 7,
    0x13, 0x88, 0, 0x35, 0, 8, 0x66, 0x56,
];

/// SYN and ACK of a connection that nobody opened, from 198.51.100.7:443 to 203.0.113.1:40000.
const STRAY: &[u8] = &[
    0x45, 0, 0, 0x28, 0, 1, 0, 0, 0x40, 6, 0x14, 0x93, 0xc6, 0x33, 0x64, 7, 0xcb, 0, 0x71, 1, 1,
    0xbb, 0x9c, 0x40, 0, 0, 0, 1, 0, 0, 0, 2, 0x50, 0x12, 4, 0, 0xa7, 0x97, 0, 0,
];

/// Its answer from 198.51.100.7:53, and what it is on lan.
const BACK: &[u8] = &[
    0x45, 0, 0, 0x1c, 0, 1, 0, 0, 0x40, 0x11, 0x14, 0x94, 0xc6, 0x33, 0x64, 7, 0xcb, 0, 0x71, 1, 0,
    0x35, 0x13, 0x88, 0, 8, 0x85, 0xe4,
];

const BACK_ON_LAN: &[u8] = &[
    0x45, 0, 0, 0x1c, 0, 1, 0, 0, 0x3f, 0x11, 0x8f, 0xeb, 0xc6, 0x33, 0x64, 7, 0xc0, 0xa8, 1, 2, 0,
    0x35, 0x13, 0x88, 0, 8, 0, 0x3c,
];

/// What is told of a packet of one byte from lan, and of that one.
const TOLD: &[u8] = b"\
dropped 1000 Short lan - - - -
dropped 1000 NoSession wan tcp 198.51.100.7:443 203.0.113.1:40000 syn,ack
";

// Frames, each a header and a packet.
fn frames(alloc: Global, parts: &[(&[u8], &[u8])]) -> Result<Vec<Vec<u8>>, AllocError> {
    let mut frames = Vec::new(alloc);
    for (header, packet) in parts {
        let mut frame = Vec::from_slice(alloc, header)?;
        frame.extend_from_slice(packet)?;
        frames.push(frame)?;
    }
    Ok(frames)
}

// Whether these are the frames of a header and a packet each.
fn are(found: &[Vec<u8>], wanted: &[(&[u8], &[u8])]) -> bool {
    found.len() == wanted.len()
        && found
            .iter()
            .zip(wanted.iter())
            .all(|(frame, part)| is(frame.as_slice(), *part))
}

fn is(frame: &[u8], part: (&[u8], &[u8])) -> bool {
    let (header, packet) = part;
    frame.len() == header.len().saturating_add(packet.len())
        && frame.starts_with(header)
        && frame.ends_with(packet)
}

// The configuration of 192.168.0.0/16 behind 203.0.113.1.
fn bounds(alloc: Global) -> Option<Bounds> {
    let inside = Prefix {
        addr: 0xc0a8_0000,
        len: 16,
    };
    let inside = Vec::from_slice(alloc, &[inside]).ok()?;
    let external = Vec::from_slice(alloc, &[0xcb00_7101]).ok()?;
    let lan = String::from_str(alloc, "lan").ok()?;
    let wan = String::from_str(alloc, "wan").ok()?;
    Bounds::new(lan, wan, inside, external, Filtering::Endpoint).ok()
}

fn opened(alloc: Global) -> Option<Gateway<Trial>>
    ensures { IfSome result (λ gateway. (gateway.told.held ≡ []) × (gateway.fallen ≡ false)) }
{
    let disk = Trial::of(alloc, b"", b"").ok()?;
    let bounds = bounds(alloc)?;
    match Gateway::open(alloc, disk, bounds, 0) {
        Ok(gateway) => Some(gateway),
        Err(_) => None,
    }
}

// Both devices, of which each gives these.
fn devices(
    alloc: Global,
    from_lan: &[(&[u8], &[u8])],
    from_wan: &[(&[u8], &[u8])],
) -> Result<Between<Memory, Memory>, AllocError> {
    Ok(Between {
        lan: Memory::new(alloc, frames(alloc, from_lan)?),
        wan: Memory::new(alloc, frames(alloc, from_wan)?),
    })
}

// A turn at moment 1000, in which the rules are loaded; whether it went well.
fn turns(
    carrier: &mut Carrier,
    devices: &mut Between<Memory, Memory>,
    gateway: &mut Gateway<Trial>,
) -> bool
    requires stands { gateway.old.fallen ≡ false }
    requires none { gateway.old.told.held ≡ [] }
{
    carrier.turn(1000, Some(RULES), devices, gateway).is_ok()
}

// The same with a gateway that has nothing yet.
fn carry(
    alloc: Global,
    carrier: &mut Carrier,
    devices: &mut Between<Memory, Memory>,
) -> Result<(), Fail> {
    let Some(mut gateway) = opened(alloc) else {
        return Err(Fail::new("no gateway"));
    };
    let is_well = turns(carrier, devices, &mut gateway);
    drop(gateway.into_disk());
    if is_well {
        Ok(())
    } else {
        Err(Fail::new("the turn failed"))
    }
}

// The lines of dropped packets, each with its end.
fn lines(alloc: Global, dropped: &[Dropped]) -> Result<Vec<u8>, AllocError> {
    let mut lines = Vec::new(alloc);
    for packet in dropped {
        let side = if packet.from_wan { "wan" } else { "lan" };
        put_line(
            &mut lines,
            packet.moment,
            packet.cause,
            side,
            packet.packet(),
        )?;
        lines.push(b'\n')?;
    }
    Ok(lines)
}

#[test]
fn out_and_back(rt: HostRuntime) -> Result<(), Fail> {
    let alloc = rt.alloc();
    let mut carrier = Carrier::new(alloc, 0, 0)?;
    let mut devices = devices(
        alloc,
        &[(&NO_HEADER, OUT), (OPEN, OUT)],
        &[(&NO_HEADER, BACK)],
    )?;
    carry(alloc, &mut carrier, &mut devices)?;
    assert!(rt;
        are(
            devices.wan.kept(),
            &[(&NO_HEADER, OUT_ON_WAN), (OPEN, OPEN_ON_WAN)]
        )
    );
    assert!(rt; are(devices.lan.kept(), &[(&NO_HEADER, BACK_ON_LAN)]));
    Ok(())
}

#[test]
fn drops_are_told_of(rt: HostRuntime) -> Result<(), Fail> {
    let alloc = rt.alloc();
    let mut carrier = Carrier::new(alloc, 0, 2)?;
    let mut devices = devices(
        alloc,
        &[(&NO_HEADER, b"\x45"), (&NO_HEADER, OUT)],
        &[(&NO_HEADER, STRAY), (&NO_HEADER, STRAY)],
    )?;
    carry(alloc, &mut carrier, &mut devices)?;
    let told = lines(alloc, carrier.dropped())?;
    assert!(rt; told.as_slice() == TOLD);
    Ok(())
}
