//! Bytes of files, and what they stand for.

use durable::Flow;
use packet::{Bounds, Endpoint, Filtering, Prefix, Proto};
use sessions::{Opener, Session};
use std::alloc::{AllocError, Global};
use std::test::Fail;

/// A file that was just made: gate, mark, generation 1, `lan`, `wan`, 192.168.0.0/16, one address, 203.0.113.1,
/// filtering by endpoint, no text, no session, and a closed gate.
pub const FRESH: [u8; 42] = [
    0x01, 0x4e, 0x47, 0x57, 0x32, 0x00, 0x00, 0x00, 0x00, 0x00, 0x00, 0x00, 0x01, 0x03, 0x6c, 0x61,
    0x6e, 0x03, 0x77, 0x61, 0x6e, 0x01, 0xc0, 0xa8, 0x00, 0x00, 0x10, 0x01, 0xcb, 0x00, 0x71, 0x01,
    0x00, 0x00, 0x00, 0x00, 0x00, 0x00, 0x00, 0x00, 0x00, 0x00,
];

/// The same file as the first version had it.
pub const FIRST: [u8; 40] = [
    0x01, 0x4e, 0x47, 0x57, 0x31, 0x00, 0x00, 0x00, 0x00, 0x00, 0x00, 0x00, 0x01, 0x03, 0x6c, 0x61,
    0x6e, 0x03, 0x77, 0x61, 0x6e, 0x01, 0xc0, 0xa8, 0x00, 0x00, 0x10, 0xcb, 0x00, 0x71, 0x01, 0x00,
    0x00, 0x00, 0x00, 0x00, 0x00, 0x00, 0x00, 0x00,
];

/// An open gate, the length of a body of 128 bytes, and the front of a load of 101 bytes.
pub const LOAD: [u8; 10] = [0x01, 0x00, 0x00, 0x00, 0x80, 0x01, 0x00, 0x00, 0x00, 0x65];

/// What goes out to wan leaves from the external address.
pub const MASQUERADE: &[u8; 101] =
    b"table ip nat { chain post { type nat hook postrouting priority srcnat; oifname \"wan\" masquerade; }; }";

/// UDP from 192.168.1.2:5000, outside 203.0.113.1:5000, to 198.51.100.7:53, begun from inside, nothing seen.
pub const BEGIN: [u8; 22] = [
    0x02, 0x11, 0xc0, 0xa8, 0x01, 0x02, 0x13, 0x88, 0xcb, 0x00, 0x71, 0x01, 0x13, 0x88, 0xc6, 0x33,
    0x64, 0x07, 0x00, 0x35, 0x00, 0x00,
];

pub const QUERY: Session = Session {
    proto: Proto::Udp,
    inside: Endpoint {
        addr: 0xc0a8_0102,
        port: 5000,
    },
    outside: Endpoint {
        addr: 0xcb00_7101,
        port: 5000,
    },
    remote: Endpoint {
        addr: 0xc633_6407,
        port: 53,
    },
    opener: Opener::Inside,
    seen: 0,
    last: 0,
};

pub const FLOW: Flow = Flow {
    proto: Proto::Udp,
    inside: Endpoint {
        addr: 0xc0a8_0102,
        port: 5000,
    },
    remote: Endpoint {
        addr: 0xc633_6407,
        port: 53,
    },
};

/// 192.168.0.0/16 inside, 203.0.113.1 outside.
///
/// # Errors
///
/// A `Fail` where there is no such configuration, or memory is refused.
pub fn bounds(alloc: Global, wan: &str) -> Result<Bounds, Fail> {
    let lan = String::from_str(alloc, "lan")?;
    let wan = String::from_str(alloc, wan)?;
    let prefix = Prefix {
        addr: 0xc0a8_0000,
        len: 16,
    };
    let inside = vec![in alloc; prefix]?;
    let external = vec![in alloc; 0xcb00_7101]?;
    let filtering = Filtering::Endpoint;
    Ok(Bounds::new(lan, wan, inside, external, filtering)?)
}

/// These bytes, one behind the other.
///
/// # Errors
///
/// `AllocError` where memory is refused.
pub fn joined(alloc: Global, parts: &[&[u8]]) -> Result<Vec<u8>, AllocError> {
    let mut bytes = Vec::new(alloc);
    for part in parts {
        bytes.extend_from_slice(part)?;
    }
    Ok(bytes)
}
