//! The checksums of packets that leave, against whole sums: each made anew here, over every byte.
use crate::shared::{EXTERNAL, HOST, SERVER, endpoint, is_rewritten};
use packet::{Endpoint, Fault, Proto, View};
use std::test::*;

fn total(bytes: &[u8]) -> u64 {
    let mut sum: u64 = 0;
    for (at, byte) in bytes.iter().enumerate() {
        let weight = if at % 2 == 0 { 256 } else { 1 };
        sum = sum.wrapping_add(*byte as u64 * weight);
    }
    sum % 65535
}

fn put(bytes: &mut [u8], at: usize, word: u64) {
    if at < bytes.len() {
        bytes[at] = (word / 256 % 256) as u8;
    }
    if at < bytes.len().saturating_sub(1) {
        bytes[at + 1] = (word % 256) as u8;
    }
}

fn put_address(packet: &mut [u8], place: usize, addr: u32) {
    put(packet, place, addr as u64 / 65536);
    put(packet, place.saturating_add(2), addr as u64);
}

fn put_endpoints(packet: &mut [u8], options: usize, src: Endpoint, dst: Endpoint) {
    put_address(packet, 12, src.addr);
    put_address(packet, 16, dst.addr);
    put(packet, options.saturating_add(20), src.port as u64);
    put(packet, options.saturating_add(22), dst.port as u64);
}

/// The total of pseudo header and transport part.
fn transport_total(packet: &[u8], options: usize) -> u64 {
    let header_length = options.saturating_add(20);
    if packet.len() < header_length || packet.len() > 65535 || packet.len() < 20 {
        return 0;
    }
    let (_, part) = packet.split_at(header_length);
    let addresses = total(&packet[12..20]) % 65535;
    (addresses + packet[9] as u64 + part.len() as u64 + total(part) % 65535) % 65535
}

fn missing(present: u64, wanted: u64) -> u64 {
    (wanted % 65535 + 65535 - present % 65535) % 65535
}

/// Puts the header checksum in, by the sum over the header.
pub fn sum_header(packet: &mut [u8], options: usize) {
    put(packet, 10, 0);
    let header_length = options.saturating_add(20);
    if header_length <= packet.len() {
        let (header, _) = packet.split_at(header_length);
        let sum = missing(total(header), 0);
        put(packet, 10, sum);
    }
}

fn place_of(proto: Proto, options: usize) -> usize {
    match proto {
        Proto::Tcp => options.saturating_add(36),
        Proto::Udp => options.saturating_add(26),
    }
}

// A packet that is made: its protocol, how many bytes of options its header has, and its transport checksum.
#[derive(Clone, Copy, Drop)]
struct Made {
    proto: Proto,
    options: usize,
    field: u64,
}

/// A packet of this length.
fn put_packet(packet: &mut [u8], made: Made) {
    let Made {
        proto,
        options,
        field,
    } = made;
    let length = packet.len() as u64;
    for (at, byte) in packet.iter_mut().enumerate() {
        *byte = (at % 251) as u8 ^ 0xa5;
    }
    put(packet, 0, 0x4500 + options as u64 % 64 * 64);
    put(packet, 2, length);
    put(packet, 6, 0);
    put(packet, 8, 0x4000 + proto.number() as u64);
    put_endpoints(packet, options, endpoint(HOST, 5000), endpoint(SERVER, 53));
    match proto {
        Proto::Tcp => put(packet, options.saturating_add(32), 0x5010),
        Proto::Udp => {
            put(
                packet,
                options.saturating_add(24),
                length.saturating_sub(options as u64).saturating_sub(20),
            )
        }
    }
    put(packet, place_of(proto, options), field);
    sum_header(packet, options);
}

/// What leaves, by whole sums.
fn put_through(packet: &mut [u8], made: Made, src: Endpoint, dst: Endpoint) {
    let Made {
        proto,
        options,
        field,
    } = made;
    let wanted = transport_total(packet, options);
    put(packet, 8, 0x3f00 + proto.number() as u64);
    put_endpoints(packet, options, src, dst);
    sum_header(packet, options);
    if proto == Proto::Udp && field == 0 {
        return;
    }
    let place = place_of(proto, options);
    put(packet, place, 0);
    let sum = missing(transport_total(packet, options), wanted);
    let is_all_ones = proto == Proto::Udp && sum == 0;
    put(packet, place, if is_all_ones { 65535 } else { sum });
}

fn agree(length: usize, made: Made, src: Endpoint, dst: Endpoint) -> bool {
    let mut packet = [0u8; 200];
    let mut whole = [0u8; 200];
    if length > 200 {
        return false;
    }
    let (packet, _) = packet.split_at_mut(length);
    let (whole, _) = whole.split_at_mut(length);
    agree_in(packet, whole, made, src, dst)
}

// Both are as long as the packet is to be.
fn agree_in(packet: &mut [u8], whole: &mut [u8], made: Made, src: Endpoint, dst: Endpoint) -> bool {
    put_packet(packet, made);
    put_packet(whole, made);
    put_through(whole, made, src, dst);
    is_rewritten(packet, src, dst) && &*packet == &*whole
}

// The packets of one length and one checksum: their options, and the endpoints that they leave with.
const PACKETS: [(Proto, usize, Endpoint, Endpoint); 7] = [
    (Proto::Udp, 0, OTHER, SAME),
    (Proto::Udp, 0, INSIDE, SAME),
    (Proto::Udp, 0, ONES, LEAST),
    (Proto::Udp, 8, OTHER, ONES),
    (Proto::Tcp, 0, OTHER, SAME),
    (Proto::Tcp, 24, ONES, SAME),
    (Proto::Tcp, 4, INSIDE, SAME),
];

const SAME: Endpoint = Endpoint {
    addr: SERVER,
    port: 53,
};

const INSIDE: Endpoint = Endpoint {
    addr: HOST,
    port: 5000,
};

const OTHER: Endpoint = Endpoint {
    addr: EXTERNAL,
    port: 5001,
};

const ONES: Endpoint = Endpoint {
    addr: 0xffffffff,
    port: 65535,
};

const LEAST: Endpoint = Endpoint { addr: 0, port: 1 };

fn all_agree(length: usize, field: u64) -> bool {
    for (proto, options, src, dst) in &PACKETS {
        let is_short = length < 64 && (*options > 0 || *proto == Proto::Tcp);
        let made = Made {
            proto: *proto,
            options: *options,
            field,
        };
        if !is_short && !agree(length, made, *src, *dst) {
            return false;
        }
    }
    true
}

#[test]
fn sums(rt: HostRuntime) {
    for length in 28usize..201 {
        for field in [0, 1, 0x7a57, 0xfffe, 0xffff] {
            assert!(rt; all_agree(length, field), "{field} at {length}");
        }
    }
}

// Whether packets of both protocols agree, made in these bytes.
fn both_agree_in(packet: &mut [u8], whole: &mut [u8]) -> bool {
    let udp = Made {
        proto: Proto::Udp,
        options: 0,
        field: 0x7a57,
    };
    let tcp = Made {
        proto: Proto::Tcp,
        ..udp
    };
    agree_in(packet, whole, udp, OTHER, SAME) && agree_in(packet, whole, tcp, OTHER, SAME)
}

// As many bytes as a length can tell, and one more.
#[test]
fn longest(rt: HostRuntime) -> Result<(), Fail> {
    let mut packet = vec![in rt.alloc(); 0u8; 65_535]?;
    let mut whole = vec![in rt.alloc(); 0u8; 65_535]?;
    assert!(rt; both_agree_in(packet.as_mut_slice(), whole.as_mut_slice()));
    packet.push(0)?;
    assert_eq!(rt; View::read(packet.as_slice()).err(), Some(Fault::Length));
    Ok(())
}
