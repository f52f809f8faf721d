//! The fields of packets, and their faults.
use crate::shared::{HOST, SERVER, SYN, UDP, changed, endpoint};
use packet::{Fault, Flags, Proto, View};
use std::test::*;

const EMPTY: [u8; 0] = [];

fn fault_of(first: (usize, u8), second: (usize, u8)) -> Option<Fault> {
    View::read(&changed(first, second)).err()
}

#[test]
fn fields_are_read(rt: HostRuntime) {
    let udp = View {
        src: endpoint(HOST, 5000),
        dst: endpoint(SERVER, 53),
        proto: Proto::Udp,
        ttl: 64,
        flags: Flags::none(),
    };
    assert_eq!(rt; View::read(&UDP), Ok(udp));
}

#[test]
fn flags_are_read(rt: HostRuntime) {
    let syn = View {
        src: endpoint(HOST, 40000),
        dst: endpoint(SERVER, 443),
        proto: Proto::Tcp,
        ttl: 64,
        flags: Flags {
            fin: false,
            syn: true,
            rst: false,
            ack: false,
        },
    };
    assert_eq!(rt; View::read(&SYN), Ok(syn));
}

#[test]
fn protocols_are_numbered(rt: HostRuntime) {
    assert_eq!(rt; (Proto::Tcp.number(), Proto::Udp.number()), (6, 17));
    assert_eq!(rt;
        (Proto::of_number(17), Proto::of_number(1)),
        (Some(Proto::Udp), None)
    );
}

// The packet with two bytes changed, and its fault.
const FAULTS: [((usize, u8), (usize, u8), Fault); 10] = [
    ((0, 0x65), (3, 0x1d), Fault::Version),
    ((0, 0x44), (3, 0x1d), Fault::HeaderLength),
    ((0, 0x48), (3, 0x1d), Fault::HeaderLength),
    ((3, 0x1d), (10, 0x8f), Fault::Length),
    ((10, 0x8f), (9, 1), Fault::HeaderSum),
    ((6, 0x20), (10, 0x6e), Fault::Fragment),
    ((7, 1), (11, 0xea), Fault::Fragment),
    ((9, 1), (11, 0xfb), Fault::Protocol),
    ((25, 9), (21, 0), Fault::Transport),
    ((23, 0), (26, 0), Fault::PortZero),
];

#[test]
fn faults_are_found(rt: HostRuntime) {
    assert_eq!(rt; View::read(&EMPTY), Err(Fault::Short));
    for (first, second, fault) in &FAULTS {
        assert_eq!(rt; fault_of(*first, *second), Some(*fault));
    }
}

#[test]
fn wrong_offsets_are_found(rt: HostRuntime) {
    for offset in [0x40, 0x60] {
        let mut packet = SYN;
        packet[32] = offset;
        assert_eq!(rt; View::read(&packet), Err(Fault::Transport));
    }
}

#[test]
fn faults_are_numbered(rt: HostRuntime) {
    assert_eq!(rt; (Fault::Short.number(), Fault::PortZero.number()), (1, 9));
}
