//! Packets that are cut at each byte, and headers with each byte set to each value.
use crate::leaving::{COMES_TO_ZERO, NEIGHBOUR, OPTIONS_AND_ODD};
use crate::shared::{SYN, UDP};
use crate::sums::sum_header;
use packet::{Fault, View};
use std::process::Abort;
use std::test::*;

// Of so many bytes, with a header of 20.
fn fault_of_cut(length: usize) -> Fault {
    if length < 20 {
        return Fault::Short;
    }
    Fault::Length
}

fn cut(rt: &impl Abort, packet: &[u8]) {
    for length in 0..packet.len() {
        let found = View::read(&packet[..length]).err();
        assert_eq!(rt; found, Some(fault_of_cut(length)), "{length} bytes");
    }
    assert!(rt; View::read(packet).is_ok());
}

#[test]
fn each_cut(rt: HostRuntime) {
    for packet in [UDP.as_slice(), &NEIGHBOUR, &COMES_TO_ZERO, &SYN] {
        cut(&rt, packet);
    }
}

// The header has 28 bytes.
fn fault_of_cut_options(length: usize) -> Fault {
    if length < 28 {
        return Fault::HeaderLength;
    }
    Fault::Length
}

#[test]
fn each_cut_of_options(rt: HostRuntime) {
    for length in 20usize..41 {
        let found = View::read(&OPTIONS_AND_ODD[..length]).err();
        assert_eq!(rt; found, Some(fault_of_cut_options(length)), "{length} bytes");
    }
}

// What speaks against the packet of 28 bytes with this byte of its header, which is another one than it was. One byte
// never turns the sum by 65,535.
fn fault_of_byte(at: usize, byte: u8) -> Fault {
    match at {
        0 if byte / 16 != 4 => Fault::Version,
        0 if byte % 16 < 5 || byte % 16 > 7 => Fault::HeaderLength,
        2 | 3 => Fault::Length,
        _ => Fault::HeaderSum,
    }
}

fn is_told(at: usize, byte: u8) -> bool {
    let mut packet = UDP;
    if at >= 20 {
        return false;
    }
    let is_same = packet[at] == byte;
    packet[at] = byte;
    match View::read(&packet) {
        Ok(_) => is_same,
        Err(fault) => !is_same && fault == fault_of_byte(at, byte),
    }
}

#[test]
fn each_byte_of_the_header(rt: HostRuntime) {
    for at in 0usize..20 {
        for byte in 0..=255u8 {
            assert!(rt; is_told(at, byte), "byte {at}: {byte}");
        }
    }
}

// What speaks against a packet of so many bytes with this other byte in its header of IP, whose sum is right again. A
// header of more words leaves too few bytes for the transport.
fn fault_in_header(length: usize, at: usize, byte: u8) -> Option<Fault> {
    match (at, byte) {
        (0, 0x46..=0x4f) if (byte % 16) as usize * 4 <= length => Some(Fault::Transport),
        (0, 0x40..=0x4f) => Some(Fault::HeaderLength),
        (0, _) => Some(Fault::Version),
        (2 | 3, _) => Some(Fault::Length),
        (6, _) if byte % 64 == 0 => None,
        (6 | 7, _) => Some(Fault::Fragment),
        (9, 6 | 17) => Some(Fault::Transport),
        (9, _) => Some(Fault::Protocol),
        _ => None,
    }
}

// The length of the UDP part, and a port whose other byte is 0.
fn fault_in_udp(at: usize, byte: u8) -> Option<Fault> {
    match (at, byte) {
        (23, 0) => Some(Fault::PortZero),
        (24 | 25, _) => Some(Fault::Transport),
        _ => None,
    }
}

// The data offset: the segment has five words.
fn fault_in_tcp(at: usize, byte: u8) -> Option<Fault> {
    match (at, byte / 16) {
        (32, 5) => None,
        (32, _) => Some(Fault::Transport),
        _ => None,
    }
}

// Whether the packet with this byte has this fault; unchanged it has none.
fn has_fault(packet: &mut [u8], at: usize, byte: u8, fault: Option<Fault>) -> bool {
    let Some(place) = packet.get_mut(at) else {
        return false;
    };
    let wanted = if *place == byte { None } else { fault };
    *place = byte;
    let words = packet.first().map_or(5, |first| (*first % 16) as usize);
    sum_header(packet, words.saturating_mul(4).saturating_sub(20));
    View::read(packet).err() == wanted
}

#[test]
fn each_byte_of_udp(rt: HostRuntime) {
    for at in 0usize..28 {
        for byte in 0..=255u8 {
            let mut packet = UDP;
            let fault = fault_in_header(28, at, byte).or(fault_in_udp(at, byte));
            assert!(rt;
                has_fault(&mut packet, at, byte, fault),
                "byte {at}: {byte}"
            );
        }
    }
}

#[test]
fn each_byte_of_tcp(rt: HostRuntime) {
    for at in 0usize..40 {
        for byte in 0..=255u8 {
            let mut packet = SYN;
            let fault = fault_in_header(40, at, byte).or(fault_in_tcp(at, byte));
            assert!(rt;
                has_fault(&mut packet, at, byte, fault),
                "byte {at}: {byte}"
            );
        }
    }
}
