//! Verdicts beside those of the plain rules.
use crate::beside::drawn::{Draw, Packet, Ruleset};
use crate::beside::plain::passes;
use crate::beside::spelled::text;
use crate::shared::{Loaded, bounds, load_rules};
use packet::{Endpoint, Iface, Prefix, Proto};
use std::alloc::Global;
use std::test::Fail;
use verdict::{Facts, Forwarding, State, forward};

const INSIDE: Prefix = Prefix {
    addr: 0x0a000000,
    len: 8,
};

fn rules_of(alloc: Global, ruleset: &Ruleset) -> Result<Box<Loaded>, Fail> {
    let text = text(alloc, ruleset)?;
    load_rules(alloc, text.as_bytes(), bounds(alloc, "lan", "wan", INSIDE)?)
}

fn at(addr: u32, port: u32) -> Endpoint {
    Endpoint {
        addr: (addr % 65536) + 0x0a000000,
        port: (port % 65536) as u16,
    }
}

fn facts(packet: Packet) -> Facts {
    Facts {
        iif: Iface::Lan,
        oif: Some(Iface::Wan),
        src: at(packet.src, packet.sport),
        dst: at(packet.dst, packet.dport),
        proto: if packet.is_tcp {
            Proto::Tcp
        } else {
            Proto::Udp
        },
        state: if packet.is_established {
            State::Established
        } else {
            State::New
        },
    }
}

// How many packets passed, how many were dropped, and for how many the plain rules say otherwise.
#[derive(Clone, Copy)]
struct Counts {
    passed: u32,
    dropped: u32,
    wrong: u32,
}

fn count(counts: Counts, loaded: &Loaded, ruleset: &Ruleset, packet: Packet) -> Counts {
    let mut counts = counts;
    let found = forward(&loaded.rules, &loaded.bounds, &facts(packet)) == Forwarding::Pass;
    if found != passes(ruleset, packet) {
        counts.wrong = counts.wrong.saturating_add(1);
    }
    if found {
        counts.passed = counts.passed.saturating_add(1);
    } else {
        counts.dropped = counts.dropped.saturating_add(1);
    }
    counts
}

// A ruleset and 32 packets.
fn drawn(alloc: Global, draw: &mut Draw, counts: Counts) -> Result<Counts, Fail> {
    let ruleset = draw.ruleset(alloc)?;
    let loaded = rules_of(alloc, &ruleset)?;
    let mut counts = counts;
    for _ in 0..32 {
        counts = count(counts, &loaded, &ruleset, draw.packet(&ruleset));
    }
    Ok(counts)
}

#[test]
fn drawn_rulesets(rt: HostRuntime) -> Result<(), Fail> {
    let mut draw = Draw::of_seed(1);
    let mut counts = Counts {
        passed: 0,
        dropped: 0,
        wrong: 0,
    };
    for _ in 0..200 {
        counts = drawn(rt.alloc(), &mut draw, counts)?;
    }
    assert_eq!(rt; counts.wrong, 0);
    assert!(rt; counts.passed > 1000);
    assert!(rt; counts.dropped > 1000);
    Ok(())
}
