//! Numbers that are drawn from a seed, and what each of them stands for.
use crate::drawn::packets::{Peer, tcp, udp};
use crate::shared::{SIDES, Sides};
use crate::words::load;
use gateway::{Bytes, Event, Iface, What};
use packet::Filtering;
use std::alloc::{AllocFailed, Global};

/// How many events there are.
pub const EVENTS: usize = 1000;

// Every packet to wan leaves from the external address.
const MASQUERADE: &str =
    "table ip nat { chain post { type nat hook postrouting priority srcnat; oifname \"wan\" masquerade; }; }";

// As `MASQUERADE`, and what begins on wan is dropped.
const FILTER: &str =
    "table ip nat { chain post { type nat hook postrouting priority srcnat; oifname \"wan\" masquerade; }; } table ip f { chain fw { type filter hook forward priority filter; iifname \"wan\" ct state new drop; }; }";

// Every packet to wan leaves from the second external address. It doesn't load where there is one alone.
const SECOND: &str =
    "table ip nat { chain post { type nat hook postrouting priority srcnat; oifname \"wan\" snat to 203.0.113.2; }; }";

// It jumps to itself, and doesn't load.
const LOOP: &str = "table ip t { chain c { jump c; }; }";

// SYN, SYN with ACK, ACK, PSH with ACK, FIN with ACK, and RST.
const FLAGS: [u8; 8] = [2, 2, 18, 16, 16, 24, 17, 4];

/// A number that was drawn, byte by byte: what comes, from which host, from which port, to whom, with which flags, by
/// how much its moment lies back, what is done behind it, and nothing.
pub type Number = [u8; 8];

/// What is done behind an event.
#[derive(Clone, Copy, PartialEq, Eq)]
pub enum Next {
    Nothing,
    Flush,
    Compact,
}

/// As many numbers as there are events, by a linear generator.
pub fn numbers(alloc: Global, seed: u64) -> Result<Vec<Number>, AllocFailed<Number>> {
    let mut numbers = Vec::new(alloc);
    let mut state = seed;
    for _ in 0..EVENTS {
        state = state
            .wrapping_mul(6_364_136_223_846_793_005)
            .wrapping_add(1_442_695_040_888_963_407);
        numbers.push(state.to_be_bytes())?;
    }
    Ok(numbers)
}

// The first one to four external addresses.
const POOLS: [&[u32]; 4] = [
    &[0xcb00_7101],
    &[0xcb00_7101, 0xcb00_7102],
    &[0xcb00_7101, 0xcb00_7102, 0xcb00_7103],
    &[0xcb00_7101, 0xcb00_7102, 0xcb00_7103, 0xcb00_7104],
];

/// The configuration that a number stands for: how many external addresses there are, and whom mappings let in.
pub fn sides(number: &Number) -> Sides {
    let count = usize::from(number[3] % 4);
    Sides {
        pool: POOLS.get(count).copied().unwrap_or(SIDES.pool),
        filtering: filtering(number),
        ..SIDES
    }
}

fn filtering(number: &Number) -> Filtering {
    if number[7] % 2 == 0 {
        Filtering::Endpoint
    } else {
        Filtering::Address
    }
}

/// A flush comes behind one event of four, and a compaction behind one of sixteen flushes.
pub fn behind(number: &Number) -> Next {
    match number[6] {
        0..4 => Next::Compact,
        4..64 => Next::Flush,
        _ => Next::Nothing,
    }
}

/// The event at this place that a number stands for, where there are so many external addresses; none where memory is
/// refused. Moments lie eight seconds apart, and some of them back.
pub fn event(alloc: Global, place: usize, number: &Number, pool: usize) -> Option<Event> {
    let back = u64::from(number[5] % 32);
    let moment = (place as u64).saturating_mul(8).saturating_add(1000);
    let what = what(alloc, number, pool)?;
    Some(Event {
        moment: moment.saturating_sub(back),
        what,
    })
}

fn what(alloc: Global, number: &Number, pool: usize) -> Option<What> {
    let flags = flags(number);
    let outer = outer(number, pool);
    match number[0] {
        0..8 => load(alloc, text(number).as_bytes()),
        8..24 => Some(What::Moment),
        24..104 => from_lan(udp(alloc, host(number), remote(number))),
        104..164 => from_lan(tcp(alloc, host(number), remote(number), flags)),
        164..192 => from_wan(udp(alloc, remote(number), inner(number, outer))),
        192..236 => from_wan(tcp(alloc, remote(number), inner(number, outer), flags)),
        236..248 => from_lan(udp(alloc, host(number), outer)),
        _ => from_lan(tcp(alloc, host(number), outer, flags)),
    }
}

fn from_lan(packet: Option<Bytes>) -> Option<What> {
    Some(What::Packet(Iface::Lan, packet?))
}

fn from_wan(packet: Option<Bytes>) -> Option<What> {
    Some(What::Packet(Iface::Wan, packet?))
}

fn text(number: &Number) -> &'static str {
    match number[1] {
        0..112 => MASQUERADE,
        112..144 => FILTER,
        144..176 => SECOND,
        176..216 => LOOP,
        _ => "",
    }
}

fn flags(number: &Number) -> u8 {
    FLAGS.get(usize::from(number[4] % 8)).copied().unwrap_or(0)
}

// One of four hosts inside, and one of two ports.
fn host(number: &Number) -> Peer {
    Peer {
        high: 0xc0a8,
        low: 0x0102 + u16::from(number[1] % 4),
        port: 5000 + 2 * u16::from(number[2] % 2),
    }
}

// One of two hosts, and one of two ports.
fn remote(number: &Number) -> Peer {
    Peer {
        high: 0xc633,
        low: 0x6407 + 2 * u16::from(number[3] / 2 % 2),
        port: 53 + 390 * u16::from(number[3] % 2),
    }
}

// One of so many external addresses, with a port that a session may have.
fn outer(number: &Number, pool: usize) -> Peer {
    let place = usize::from(number[1] / 4) % pool.max(1);
    Peer {
        high: 0xcb00,
        low: 0x7101 + place.min(3) as u16,
        port: 5000 + 2 * u16::from(number[2] % 8),
    }
}

// A remote host sends there, or to a host as it is.
fn inner(number: &Number, outer: Peer) -> Peer {
    if number[7] < 192 { outer } else { host(number) }
}
