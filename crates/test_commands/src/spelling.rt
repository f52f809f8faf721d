//! Addresses, prefixes and configurations as they are spelled.
use checking::{address, bounds, number, prefix};
use options::Sides;
use packet::Prefix;
use refusals::Refusal;
use std::alloc::Global;
use std::test::*;

const ADDRESSES: [(&str, Option<u32>); 4] = [
    ("203.0.113.1", Some(0xcb00_7101)),
    ("203.0.113.01", None),
    ("203.0.113", None),
    ("203.0.113.256", None),
];

#[test]
fn addresses(rt: HostRuntime) {
    for (text, expected) in &ADDRESSES {
        assert!(rt; address(text) == *expected, "{text}");
    }
}

#[test]
fn numbers(rt: HostRuntime) {
    for (text, expected) in &[("0", Some(0)), ("+8", None), ("08", None)] {
        assert!(rt; number(text) == *expected, "{text}");
    }
}

const INSIDE: Prefix = Prefix {
    addr: 0xc0a8_0000,
    len: 16,
};

#[test]
fn prefixes(rt: HostRuntime) {
    for (text, expected) in &[("192.168.0.0/16", Some(INSIDE)), ("192.168.0.0", None)] {
        assert!(rt; prefix(text) == *expected, "{text}");
    }
}

// A configuration.
const RIGHT: Sides<'static> = Sides {
    lan: "lan",
    wan: "wan",
    inside: "10.0.0.0/8",
    external: "1.2.3.4",
    filtering: "endpoint",
};

fn sides_of<'a>(inside: &'a str, external: &'a str, filtering: &'a str) -> Sides<'a> {
    Sides {
        lan: "lan",
        wan: "wan",
        inside,
        external,
        filtering,
    }
}

// Why it is no configuration.
fn refusal_of(alloc: Global, sides: &Sides<'_>) -> Option<Refusal> {
    match bounds(alloc, sides) {
        Ok(_) => None,
        Err(stop) => Some(stop.refusal),
    }
}

// Whether a configuration is refused, and the second line says that this is to be set right.
fn is_told(alloc: Global, sides: &Sides<'_>, end: &str) -> bool {
    match bounds(alloc, sides) {
        Ok(_) => false,
        Err(stop) => stop.second_line().ends_with(end),
    }
}

// Configurations that are none, and how the second line ends.
const FAULTS: [(Sides<'static>, &str); 8] = [
    (Sides { lan: "", ..RIGHT }, "set --lan and --wan right"),
    (
        Sides {
            lan: "wan",
            ..RIGHT
        },
        "set --lan and --wan right",
    ),
    (
        Sides {
            inside: "10.0.0.1/8",
            ..RIGHT
        },
        "set --inside right",
    ),
    (
        Sides {
            inside: "1.2.3.4/32",
            ..RIGHT
        },
        "set --inside and --external right",
    ),
    (
        Sides {
            external: "1.2.3.4,1.2.3.4",
            ..RIGHT
        },
        "set --external right",
    ),
    (
        Sides {
            inside: "10.0.0.0",
            ..RIGHT
        },
        "write it like 192.168.0.0/16",
    ),
    (
        Sides {
            external: "1.2.3",
            ..RIGHT
        },
        "write it like 203.0.113.1",
    ),
    (
        Sides {
            filtering: "none",
            ..RIGHT
        },
        "write endpoint or address",
    ),
];

// Each fault of a configuration names the options that it lies in.
#[test]
fn options_of_faults(rt: HostRuntime) {
    for (sides, end) in &FAULTS {
        assert!(rt; is_told(rt.alloc(), sides, end), "{end}");
    }
}

const REFUSED: Option<Refusal> = Some(Refusal::Config);

const CONFIGURATIONS: [(&str, &str, Option<Refusal>); 12] = [
    ("10.0.0.0/8,192.168.0.0/16", "1.2.3.4", None),
    ("10.0.0.0/8", "1.2.3.4,0.0.0.0,203.0.113.1,1.2.3.5", None),
    ("10.0.0.0/8", "1.2.3.4,10.2.3.4", REFUSED),
    ("10.0.0.0/8", "1.2.3.04", REFUSED),
    ("10.0.0.0/8", "1.2.3.4,", REFUSED),
    ("10.0.0.0/8", "", REFUSED),
    ("10.0.0.0/8", "1.2.3.4,1.2.3.5,1.2.3.4", REFUSED),
    (
        "10.0.0.0/8",
        "1.2.3.4,1.2.3.5,1.2.3.6,1.2.3.7,1.2.3.8",
        REFUSED,
    ),
    ("10.0.0.0/8", "1.2.3.4, 1.2.3.5", REFUSED),
    ("10.0.0.0/08", "1.2.3.4", REFUSED),
    ("10.0.0.0/8,", "1.2.3.4", REFUSED),
    ("10.0.0.1/8", "1.2.3.4", REFUSED),
];

#[test]
fn configurations(rt: HostRuntime) {
    for (inside, external, expected) in &CONFIGURATIONS {
        let sides = sides_of(inside, external, "address");
        assert!(rt;
            refusal_of(rt.alloc(), &sides) == *expected,
            "{inside} {external}"
        );
    }
}

#[test]
fn filterings(rt: HostRuntime) {
    for word in &["", "Address", "addresses", "endpoint,address"] {
        let sides = sides_of("10.0.0.0/8", "1.2.3.4", word);
        assert!(rt; refusal_of(rt.alloc(), &sides) == REFUSED, "{word}");
    }
}
