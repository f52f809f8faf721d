//! Looking ahead: among many sessions, the memory that the next packets' look-ups are going to read is fetched before
//! they are taken, for several of them at once; none is allocated. Nothing rests on it but time.
ghost use Rattle.std.specs.Prelude.{◌≡◌, length};

use byteorder::{BigEndian, ByteOrder};
use disk_model::Disk;
use frames::{Front, Kind, REQUEST_HEAD, read_front};
use gateway::{Coming, Gateway, Iface, MOST_AHEAD};
use packet::{Endpoint, Proto};

/// Where fewer of the packets at the front than this come from another flow than the one before, their sessions are
/// close together in memory.
const FEW_APART: usize = 8;

/// Where the sessions are close together, or few, it isn't looked ahead for so many frames behind the next one.
const CLOSE_FRAMES: usize = 128;

/// The bytes of a packet up to its ports and with them, where it has no options.
const WITH_PORTS: usize = 24;

/// By what the session of no packet is looked for.
const NOTHING: Coming = Coming {
    proto: Proto::Udp,
    near: Endpoint { addr: 0, port: 0 },
    remote: Endpoint { addr: 0, port: 0 },
};

/// For how many frames behind the one at the front there is no new look ahead.
#[derive(Clone, Copy, Drop)]
pub struct Ahead {
    frames: usize,
}

impl Ahead {
    /// Where it wasn't looked ahead yet.
    pub fn none() -> Ahead {
        Ahead { frames: 0 }
    }

    /// Looks ahead before the frame at the front is offered, unless it was looked so far ahead before.
    #[inline(always)]
    pub fn next<D: Disk + Drop>(self, bytes: &[u8], gateway: &Gateway<D>) -> Ahead {
        match self.frames.checked_sub(1) {
            Some(frames) => Ahead { frames },
            None => look_ahead(bytes, gateway),
        }
    }
}

// Looks ahead for the whole frames at the front, 16 at most.
#[inline(never)]
fn look_ahead<D: Disk + Drop>(bytes: &[u8], gateway: &Gateway<D>) -> Ahead {
    let frames = CLOSE_FRAMES;
    if !gateway.is_wide() {
        return Ahead { frames };
    }
    let mut coming = [NOTHING; MOST_AHEAD];
    let count = fill(&mut coming, bytes);
    if count_apart(&coming) >= FEW_APART {
        // New flows come together: if none of these seems known, it isn't looked ahead for a while.
        if gateway.look_ahead(&coming) == 0 {
            return Ahead { frames };
        }
        return Ahead {
            frames: count.saturating_sub(1),
        };
    }
    // Fewer packets than it looks ahead for tell nothing of those behind them.
    if count < MOST_AHEAD {
        return Ahead {
            frames: count.saturating_sub(1),
        };
    }
    Ahead { frames }
}

// Puts down by what the packets at the front are looked for, as far as there are whole frames of packets. Says how
// many it put.
fn fill(coming: &mut [Coming; MOST_AHEAD], bytes: &[u8]) -> usize {
    let (mut rest, mut count) = (bytes, 0usize);
    for place in coming.iter_mut() {
        let Some((iface, packet, behind)) = next_packet(rest) else {
            break;
        };
        *place = coming_by(iface, packet);
        rest = behind;
        count = count.saturating_add(1);
    }
    count
}

// The packet of the frame at the front, the interface that it comes from, and the bytes behind it.
fn next_packet(bytes: &[u8]) -> Option<(Iface, &[u8], &[u8])> {
    let Front::Whole(Kind::Packet(iface), _, size) = read_front(bytes) else {
        return None;
    };
    let (frame, behind) = bytes.split_at(size);
    Some((iface, &frame[REQUEST_HEAD..], behind))
}

// By what the session of a packet is looked for, if it has no options (RFC 791, section 3.1).
fn coming_by(iface: Iface, packet: &[u8]) -> Coming {
    if packet.len() < WITH_PORTS {
        return NOTHING;
    }
    let proto = if packet[9] == 6 {
        Proto::Tcp
    } else {
        Proto::Udp
    };
    let (src, dst) = (&packet[12..16], &packet[16..20]);
    let (src_port, dst_port) = (&packet[20..22], &packet[22..24]);
    let (src, dst) = (endpoint_of(src, src_port), endpoint_of(dst, dst_port));
    let (near, remote) = match iface {
        Iface::Lan => (src, dst),
        Iface::Wan => (dst, src),
    };
    Coming {
        proto,
        near,
        remote,
    }
}

fn endpoint_of(addr: &[u8], port: &[u8]) -> Endpoint
    requires addr { length addr.now ≡ 4 }
    requires port { length port.now ≡ 2 }
{
    Endpoint {
        addr: BigEndian::read_u32(addr),
        port: BigEndian::read_u16(port),
    }
}

// How many of them are of another flow than the one before. A flow whose mapping keeps the port has it on both sides.
fn count_apart(coming: &[Coming]) -> usize {
    coming
        .windows(2)
        .filter(|pair| are_apart(pair[0], pair[1]))
        .count()
}

fn are_apart(one: Coming, other: Coming) -> bool {
    one.near.port != other.near.port || one.remote != other.remote
}
