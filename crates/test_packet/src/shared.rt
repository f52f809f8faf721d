//! Two packets and their endpoints, for the other rows.
use packet::{Endpoint, View, rewrite};

pub const HOST: u32 = 0xc0a80102;

pub const EXTERNAL: u32 = 0xcb007101;

pub const SERVER: u32 = 0xc6336407;

/// UDP without a payload, from the host to the server.
pub const UDP: [u8; 28] = [
    0x45, 0x00, 0x00, 0x1c, 0x00, 0x01, 0x00, 0x00, 0x40, 0x11, 0x8e, 0xeb, 0xc0, 0xa8, 0x01, 0x02,
    0xc6, 0x33, 0x64, 0x07, 0x13, 0x88, 0x00, 0x35, 0x00, 0x08, 0x00, 0x3c,
];

/// The first segment of a connection between them.
pub const SYN: [u8; 40] = [
    0x45, 0x00, 0x00, 0x28, 0x00, 0x01, 0x00, 0x00, 0x40, 0x06, 0x8e, 0xea, 0xc0, 0xa8, 0x01, 0x02,
    0xc6, 0x33, 0x64, 0x07, 0x9c, 0x40, 0x01, 0xbb, 0x00, 0x00, 0x00, 0x01, 0x00, 0x00, 0x00, 0x00,
    0x50, 0x02, 0xff, 0xff, 0x26, 0x01, 0x00, 0x00,
];

pub fn endpoint(addr: u32, port: u16) -> Endpoint {
    Endpoint { addr, port }
}

/// `UDP` with one byte, or two, changed.
pub fn changed(first: (usize, u8), second: (usize, u8)) -> [u8; 28] {
    let mut packet = UDP;
    if first.0 < 28 && second.0 < 28 {
        packet[first.0] = first.1;
        packet[second.0] = second.1;
    }
    packet
}

/// Puts both endpoints in, where the bytes are a packet that may be put through.
pub fn is_rewritten(frame: &mut [u8], src: Endpoint, dst: Endpoint) -> bool {
    let Ok(view) = View::read(frame) else {
        return false;
    };
    if view.ttl < 2 {
        return false;
    }
    rewrite(frame, src, dst);
    true
}
