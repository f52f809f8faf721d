//! Texts of one's own, packets, and what they come to by the rules of reading.
use crate::shared::{EXTERNAL, Loaded, bounds, load_rules};
use packet::{Endpoint, Iface, Prefix, Proto};
use std::alloc::{AllocError, Global};
use std::process::Abort;
use std::test::Fail;
use verdict::{
    Destination, Facts, Forwarding, Source, State, forward, forward_counted, postrouting,
    prerouting,
};

const HOST: u32 = 0xc0a80102;

const SERVER: u32 = 0xc6336407;

const INSIDE: Prefix = Prefix {
    addr: 0xc0a80100,
    len: 24,
};

fn rules_of(alloc: Global, text: &[u8]) -> Result<Box<Loaded>, Fail> {
    load_rules(alloc, text, bounds(alloc, "lan0", "wan0", INSIDE)?)
}

fn at(addr: u32, port: u16) -> Endpoint {
    Endpoint { addr, port }
}

// From the host to the server by UDP, as the first packet.
fn outward(port: u16) -> Facts {
    Facts {
        iif: Iface::Lan,
        oif: Some(Iface::Wan),
        src: at(HOST, 5000),
        dst: at(SERVER, port),
        proto: Proto::Udp,
        state: State::New,
    }
}

// From the server to the external address, not routed yet.
fn inward(port: u16) -> Facts {
    Facts {
        iif: Iface::Wan,
        oif: None,
        src: at(SERVER, 53),
        dst: at(EXTERNAL[0], port),
        proto: Proto::Udp,
        state: State::New,
    }
}

fn filtered(alloc: Global, chains: &str, facts: &Facts) -> Result<Forwarding, Fail> {
    let text = format!(in alloc; "table ip f {{ {chains} }}")?;
    let loaded = rules_of(alloc, text.as_bytes())?;
    Ok(forward(&loaded.rules, &loaded.bounds, facts))
}

// A map whose pairs don't stand in the order of their keys; a row asks for each of them.
const MAP: &str =
    "chain sub { return; } chain fw { type filter hook forward priority 0; udp dport vmap { 443 : drop, 80 : accept, 53 : jump sub, 22 : goto sub }; drop; }";

const ROWS: [(&str, u16, Forwarding); 12] = [
    (
        "chain sub { return; } chain fw { type filter hook forward priority 0; jump sub; drop; }",
        53,
        Forwarding::Drop,
    ),
    (
        "chain sub { return; } chain fw { type filter hook forward priority 0; goto sub; drop; }",
        53,
        Forwarding::Pass,
    ),
    (
        "chain fw { type filter hook forward priority 0; accept; } chain late { type filter hook forward priority 10; drop; }",
        53,
        Forwarding::Drop,
    ),
    (
        "chain fw { type filter hook forward priority 0; tcp dport != 22 drop; }",
        53,
        Forwarding::Pass,
    ),
    (
        "chain fw { type filter hook forward priority 0; udp dport vmap { 53 : accept }; drop; }",
        53,
        Forwarding::Pass,
    ),
    (
        "chain fw { type filter hook forward priority 0; udp dport vmap { 53 : accept }; drop; }",
        54,
        Forwarding::Drop,
    ),
    (
        "chain fw { type filter hook forward priority 0; policy drop; udp dport vmap { 53 : continue }; }",
        53,
        Forwarding::Drop,
    ),
    (MAP, 443, Forwarding::Drop),
    (MAP, 80, Forwarding::Pass),
    (MAP, 53, Forwarding::Drop),
    (MAP, 22, Forwarding::Pass),
    ("", 53, Forwarding::Pass),
];

#[test]
fn hook_rows(rt: HostRuntime) -> Result<(), Fail> {
    for (chains, port, expected) in &ROWS {
        let found = filtered(rt.alloc(), chains, &outward(*port))?;
        assert_eq!(rt; found, *expected, "{chains}");
    }
    Ok(())
}

const HOLD: [&str; 18] = [
    "iifname \"lan0\" oifname wan0",
    "iif != wan0",
    "ip saddr 192.168.1.0/24",
    "ip saddr 192.168.1.77/24",
    "ip daddr 198.51.100.1-198.51.100.7",
    "ip daddr != { 10.0.0.0/8, 198.51.100.8 }",
    "ip protocol udp",
    "meta l4proto { 6, 17 }",
    "udp dport domain",
    "udp dport { 1-52, 53 }",
    "udp sport @high",
    "udp dport != 54",
    "ct state new",
    "ct state { established, new }",
    "ct state related, new",
    "ct state != related",
    "ct state != established ip saddr 192.168.1.2 udp dport 53",
    "counter",
];

const FAIL: [&str; 14] = [
    "iifname \"wan0\"",
    "oifname lan0",
    "ip saddr 192.168.1.3",
    "ip daddr 198.51.100.8-198.51.100.9",
    "ip protocol tcp",
    "tcp dport 53",
    "tcp dport != 54",
    "udp dport 54",
    "udp dport @high",
    "ct state established",
    "ct state related",
    "ct state invalid, untracked",
    "ct state != new",
    "ip saddr 192.168.1.2 udp dport 54",
];

fn holds(alloc: Global, test: &str) -> Result<bool, Fail> {
    let chains = format!(in alloc;
        "set high {{ type inet_service; elements = {{ 4000-5000, 6000 }} }}
        chain fw {{ type filter hook forward priority 0; {test} drop; }}"
    )?;
    Ok(filtered(alloc, chains.as_str(), &outward(53))? == Forwarding::Drop)
}

fn assert_each(rt: &impl Abort, alloc: Global, tests: &[&str], expected: bool) -> Result<(), Fail> {
    for test in tests {
        assert!(rt; holds(alloc, test)? == expected, "{test}");
    }
    Ok(())
}

#[test]
fn matches(rt: HostRuntime) -> Result<(), Fail> {
    assert_each(&rt, rt.alloc(), &HOLD, true)?;
    assert_each(&rt, rt.alloc(), &FAIL, false)
}

const TRANSLATIONS: &[u8] = b"
table ip late {
    chain pre { type nat hook prerouting priority 10; dnat to 192.168.1.3; }
    chain post { type nat hook postrouting priority srcnat; ip saddr 192.168.1.2 masquerade; }
}
table ip early {
    chain pre {
        type nat hook prerouting priority dstnat;
        udp dport 443 drop;
        udp dport 80 dnat to 192.168.1.2:8080;
        udp dport 81 oifname != lan0 accept;
        udp dport 82 jump own;
    }
    chain own { dnat to 192.168.1.4; }
    chain post { type nat hook postrouting priority srcnat; ip saddr 192.168.1.3 snat to 203.0.113.3; drop; }
}";

const NEIGHBOUR: u32 = 0xc0a80103;

const STRANGER: u32 = 0xc0a80104;

// What a packet to the external address comes to, by its port.
const DESTINATIONS: [(u16, Destination); 4] = [
    (443, Destination::Drop),
    (
        80,
        Destination::To(Endpoint {
            addr: HOST,
            port: 8080,
        }),
    ),
    (
        81,
        Destination::To(Endpoint {
            addr: NEIGHBOUR,
            port: 81,
        }),
    ),
    (
        82,
        Destination::To(Endpoint {
            addr: STRANGER,
            port: 82,
        }),
    ),
];

fn destination(loaded: &Loaded, port: u16) -> Destination {
    prerouting(&loaded.rules, &loaded.bounds, &inward(port))
}

#[test]
fn destinations(rt: HostRuntime) -> Result<(), Fail> {
    let loaded = rules_of(rt.alloc(), TRANSLATIONS)?;
    for (port, expected) in &DESTINATIONS {
        assert!(rt; destination(&loaded, *port) == *expected, "{port}");
    }
    Ok(())
}

// What a packet to the server comes to, by the host that it comes from.
const SOURCES: [(u32, Source); 3] = [
    (HOST, Source::Masquerade),
    (NEIGHBOUR, Source::From(EXTERNAL[1])),
    (STRANGER, Source::Drop),
];

fn outward_of(host: u32) -> Facts {
    let mut facts = outward(53);
    facts.src.addr = host;
    facts
}

fn source(loaded: &Loaded, host: u32) -> Source {
    postrouting(&loaded.rules, &loaded.bounds, &outward_of(host))
}

#[test]
fn sources(rt: HostRuntime) -> Result<(), Fail> {
    let loaded = rules_of(rt.alloc(), TRANSLATIONS)?;
    for (host, expected) in &SOURCES {
        assert!(rt; source(&loaded, *host) == *expected, "{host}");
    }
    Ok(())
}

fn passes(loaded: &Loaded, host: u32) -> bool {
    forward(&loaded.rules, &loaded.bounds, &outward_of(host)) == Forwarding::Pass
}

#[test]
fn nat_chains_do_not_filter(rt: HostRuntime) -> Result<(), Fail> {
    let loaded = rules_of(rt.alloc(), TRANSLATIONS)?;
    assert!(rt; passes(&loaded, STRANGER));
    Ok(())
}

#[test]
fn no_rules_translate_nothing(rt: HostRuntime) -> Result<(), Fail> {
    let none = rules_of(rt.alloc(), b"")?;
    assert!(rt; destination(&none, 80) == Destination::None);
    assert!(rt; source(&none, STRANGER) == Source::None);
    Ok(())
}

// A chain that leads to the next one by this many of these verdicts.
fn level(alloc: Global, number: u32, rules: usize, verdict: &str) -> Result<String, AllocError> {
    let next = u64::from(number) + 1;
    let line = format!(in alloc; "{verdict} c{next}\n")?;
    let lines = line.repeat(alloc, rules)?;
    format!(in alloc; "chain c{number} {{\n{lines}}}\n")
}

// Chains c0 to c15, of which each but the last leads to the next so, and a base chain that leads to the first and drops
// what comes back.
fn levels(alloc: Global, rules: usize, verdict: &str) -> Result<String, AllocError> {
    let mut text = format!(in alloc;
        "chain fw {{ type filter hook forward priority 0; {verdict} c0; drop; }}\n"
    )?;
    for number in 0..15 {
        text.push_str(level(alloc, number, rules, verdict)?.as_str())?;
    }
    text.push_str("chain c15 { return; }\n")?;
    Ok(text)
}

// What the packet comes to that is led through these levels.
fn led(alloc: Global, rules: usize, verdict: &str) -> Result<Forwarding, Fail> {
    let chains = levels(alloc, rules, verdict)?;
    filtered(alloc, chains.as_str(), &outward(53))
}

// A packet that read each rule as often as it is led to would never be done.
#[test]
fn branching(rt: HostRuntime) -> Result<(), Fail> {
    assert_eq!(rt; led(rt.alloc(), 250, "jump")?, Forwarding::Drop);
    Ok(())
}

// Sixteen jumps come back one by one, and sixteen gotos don't.
const DEEP: [(&str, Forwarding); 2] = [("jump", Forwarding::Drop), ("goto", Forwarding::Pass)];

#[test]
fn deep(rt: HostRuntime) -> Result<(), Fail> {
    for (verdict, expected) in &DEEP {
        assert_eq!(rt; led(rt.alloc(), 1, verdict)?, *expected, "{verdict}");
    }
    Ok(())
}

fn rule_of_port(alloc: Global, port: u32) -> Result<String, AllocError> {
    format!(in alloc; "udp dport {port} drop\n")
}

// As many rules as a ruleset may have, each of which asks for a port of its own.
fn most_rules(alloc: Global) -> Result<String, AllocError> {
    let mut text = String::from_str(
        alloc,
        "table ip f {\nchain fw { type filter hook forward priority 0;\n",
    )?;
    for port in 1000u32..5096 {
        text.push_str(rule_of_port(alloc, port)?.as_str())?;
    }
    text.push_str("}\n}\n")?;
    Ok(text)
}

// What becomes of a packet to this port, how many rules were looked at or passed over, and how many matches looked at.
fn counted(loaded: &Loaded, port: u16) -> (Forwarding, u32, u64) {
    let (found, cost) = forward_counted(&loaded.rules, &loaded.bounds, &outward(port));
    (found, cost.rules.count(), cost.matches.count())
}

// What becomes of a packet by its port, and how many rules and matches that takes. A rule that asks for another port is
// passed over without a look at its match.
const COUNTED: [(u16, Forwarding, u32, u64); 4] = [
    (1000, Forwarding::Drop, 1, 1),
    (1100, Forwarding::Drop, 101, 1),
    (5095, Forwarding::Drop, 4096, 1),
    (5096, Forwarding::Pass, 4096, 0),
];

fn greatest_rules(alloc: Global) -> Result<Box<Loaded>, Fail> {
    rules_of(alloc, most_rules(alloc)?.as_bytes())
}

#[test]
fn greatest(rt: HostRuntime) -> Result<(), Fail> {
    let loaded = greatest_rules(rt.alloc())?;
    for (port, expected, rules, matches) in &COUNTED {
        assert_eq!(rt;
            counted(&loaded, *port),
            (*expected, *rules, *matches),
            "{port}"
        );
    }
    Ok(())
}

const SETS: &str =
    "table ip f {\nset s { type ifname; elements = { lan0 } }\nset t { type ifname; elements = { wan0 } }\n";

const AT_FORWARD: &str = "chain fw { type filter hook forward priority 0;\n";

// A rule that says these matches as often.
fn rule_of_many(alloc: Global, matches: &str, count: usize) -> Result<Box<Loaded>, Fail> {
    let mut text = format!(in alloc; "{SETS}{AT_FORWARD}")?;
    for _ in 0..count {
        text.push_str(matches)?;
    }
    text.push_str(" drop\n}\n}\n")?;
    rules_of(alloc, text.as_bytes())
}

// Matches, how often the rule says them, what becomes of a packet, and how many it takes a look at: of equal ones one,
// and none after one that doesn't hold.
const MANY: [(&str, usize, Forwarding, u64); 7] = [
    ("iif@s ", 1_000, Forwarding::Drop, 1),
    ("iif@s oif@t ", 500, Forwarding::Drop, 2),
    ("iif@s iif!=@s ", 500, Forwarding::Pass, 2),
    ("iif@t iif!=@s ", 500, Forwarding::Pass, 1),
    ("ip daddr 0.0.0.0/0 ", 1_000, Forwarding::Drop, 1),
    (
        "udp dport{1-9,50-60}udp dport{1-9,50-60,70} ",
        200,
        Forwarding::Drop,
        2,
    ),
    (
        "udp dport{1-9,50-60}udp dport{53} udp dport 53 iif lan0 ",
        200,
        Forwarding::Drop,
        4,
    ),
];

#[test]
fn equal_matches(rt: HostRuntime) -> Result<(), Fail> {
    for (matches, count, expected, looks) in &MANY {
        let loaded = rule_of_many(rt.alloc(), matches, *count)?;
        assert_eq!(rt; counted(&loaded, 53), (*expected, 1, *looks), "{matches}");
    }
    Ok(())
}
