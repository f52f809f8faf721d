//! Texts with what is answered for them, worked from the rules of the format by hand.

use packet::{Bounds, Filtering, Prefix};
use ruletext::read;
use ruletree::LoadFault;
use std::alloc::{AllocError, Global};
use std::process::Abort;
use std::test::*;

// A text, and what is answered for it.
pub(crate) type Row = (&'static str, &'static str);

// 192.168.0.0/16 inside, 203.0.113.1 and 203.0.113.3 outside.
pub(crate) fn bounds(alloc: Global) -> Result<Box<Bounds>, AllocError> {
    let lan = String::from_str(alloc, "lan")?;
    let wan = String::from_str(alloc, "wan")?;
    let prefix = Prefix {
        addr: 0xc0a8_0000,
        len: 16,
    };
    let inside = vec![in alloc; prefix]?;
    let external = vec![in alloc; 0xcb00_7101, 0xcb00_7103]?;
    match Bounds::new(lan, wan, inside, external, Filtering::Endpoint) {
        Ok(bounds) => Ok(Box::new(alloc, bounds)?),
        Err(_) => Err(AllocError),
    }
}

// The line and the kind of a fault.
fn told(alloc: Global, fault: &LoadFault) -> Result<String, AllocError> {
    Ok(format!(in alloc; "line {}: {}", fault.line, fault.kind)?)
}

// What the reader says of a text: the line and the kind, or `ok`.
pub(crate) fn said(alloc: Global, bounds: &Bounds, text: &str) -> Result<String, AllocError> {
    match read(alloc, text.as_bytes(), bounds) {
        Ok(_rules) => String::from_str(alloc, "ok"),
        Err(fault) => told(alloc, &fault),
    }
}

// What the reader says of a text between two others.
fn said_between(
    alloc: Global,
    bounds: &Bounds,
    before: &str,
    text: &str,
    behind: &str,
) -> Result<String, AllocError> {
    let mut whole = String::from_str(alloc, before)?;
    whole.push_str(text)?;
    whole.push_str(behind)?;
    said(alloc, bounds, whole.as_str())
}

fn check_row(
    rt: &impl Abort,
    alloc: Global,
    bounds: &Bounds,
    before: &str,
    behind: &str,
    row: &Row,
) -> Result<(), AllocError> {
    let (text, wanted) = row;
    let answer = said_between(alloc, bounds, before, *text, behind)?;
    assert_eq!(rt; answer.as_str(), *wanted, "{text}");
    Ok(())
}

// Each text, put between the two others, must be answered so.
pub(crate) fn check(
    rt: &impl Abort,
    alloc: Global,
    before: &str,
    behind: &str,
    rows: &[Row],
) -> Result<(), AllocError> {
    let bounds = bounds(alloc)?;
    for row in rows {
        check_row(rt, alloc, &bounds, before, behind, row)?;
    }
    Ok(())
}

const TEXTS: [Row; 12] = [
    ("", "ok"),
    ("flush ruleset\n\n# nothing else", "ok"),
    ("table ip6 t { }", "line 1: family"),
    (
        "table ip t { chain c { jump d; }; }",
        "line 1: unknown-chain",
    ),
    (
        "table ip t { chain c { ip saddr @s accept; }; }",
        "line 1: unknown-set",
    ),
    ("table ip t { }\ntable t { }", "line 2: duplicate"),
    (
        "table ip t { chain c { tcp dport 70000 accept; }; }",
        "line 1: wrong-type",
    ),
    (
        "table ip t { chain c { tcp dport vmap { 1-10 : accept, 5 : drop }; }; }",
        "line 1: overlap",
    ),
    (
        "table ip n { chain p { type nat hook postrouting priority 100; snat to 203.0.113.2; }; }",
        "line 1: not-external",
    ),
    (
        "table ip n { chain p { type nat hook prerouting priority -100; dnat to 10.0.0.1; }; }",
        "line 1: not-inside",
    ),
    (
        "table ip f { chain c { type filter hook forward priority 0; masquerade; }; }",
        "line 1: wrong-type",
    ),
    (
        "\ttable ip t {\n\tset s {\n\ttype ipv4_addr\n\tflags interval\n\telements = { 10.0.0.0/8,\n\t10.1.0.1 }\n\t}\n\tchain c {\n\ttype filter hook forward priority filter; policy drop;\n\tct state established,related accept\n\tip saddr @s accept\n\t}\n\t}\n",
        "ok",
    ),
];

#[test]
fn check_rows(rt: HostRuntime) -> Result<(), AllocError> {
    check(&rt, rt.alloc(), "", "", &TEXTS)
}

// A table with a set of each type and a chain, and the beginning of another chain, to which no rule leads.
const BEFORE_A_RULE: &str =
    "table ip t {\nset a { type ipv4_addr; elements = { 10.0.0.0/8, 10.1.0.1 }; }\nset p { type inet_service; elements = { 80, 443, 1000-2000 }; }\nset n { type ifname; elements = { lan, \"wan\" }; }\nset o { type inet_proto; elements = { tcp, 17 }; }\nchain d { }\nchain c {\n";

const BEHIND_A_RULE: &str = "\n}\n}\n";

const VERDICTS: [Row; 20] = [
    ("accept", "ok"),
    ("counter", "ok"),
    ("counter packets 1 bytes 2 drop comment \"x\"", "ok"),
    ("continue", "ok"),
    ("return", "ok"),
    ("jump d", "ok"),
    ("goto d", "ok"),
    ("jump e", "line 8: unknown-chain"),
    ("goto D", "line 8: unknown-chain"),
    ("jump c", "line 8: loop"),
    ("goto c", "line 8: loop"),
    ("tcp dport vmap { 22 : drop, 23 : goto c }", "line 8: loop"),
    ("tcp dport vmap { 22 : jump d }", "ok"),
    (
        "tcp dport vmap { 22 : drop, 23 : jump e }",
        "line 8: unknown-chain",
    ),
    ("reject", "line 8: unsupported"),
    ("log accept", "line 8: unsupported"),
    ("accept accept", "line 8: unsupported"),
    ("ip6 saddr 1 accept", "line 8: unsupported"),
    ("jump", "line 8: syntax"),
    ("jump 5", "line 8: syntax"),
];

const MATCHES: [Row; 47] = [
    ("ip saddr 10.0.0.1 accept", "ok"),
    ("ip saddr 10.0.0.1/24 accept", "ok"),
    ("ip saddr 10.0.0.1-10.0.0.9 accept", "ok"),
    ("ip saddr != { 10.0.0.1, 10.0.0.0/30 } accept", "ok"),
    ("ip saddr 10.0.0.0/33 accept", "line 8: syntax"),
    ("ip saddr 10.0.0.9-10.0.0.1 accept", "line 8: syntax"),
    ("ip saddr 10.0.0 accept", "line 8: syntax"),
    ("ip saddr 80 accept", "line 8: wrong-type"),
    ("ip saddr 1-5 accept", "line 8: wrong-type"),
    ("ip saddr lan accept", "line 8: wrong-type"),
    ("ip saddr \"10.0.0.1\" accept", "line 8: wrong-type"),
    ("ip daddr { 10.0.0.1, lan } accept", "line 8: wrong-type"),
    ("ip daddr @a accept", "ok"),
    ("ip daddr @p accept", "line 8: wrong-type"),
    ("ip daddr @n accept", "line 8: wrong-type"),
    ("ip daddr @o accept", "line 8: wrong-type"),
    ("ip daddr @x accept", "line 8: unknown-set"),
    ("ip daddr @c accept", "line 8: unknown-set"),
    ("tcp dport 0 accept", "ok"),
    ("tcp dport 65535 accept", "ok"),
    ("tcp dport 65536 accept", "line 8: wrong-type"),
    (
        "tcp dport 18446744073709551615 accept",
        "line 8: wrong-type",
    ),
    ("tcp dport 18446744073709551616 accept", "line 8: syntax"),
    ("tcp dport 1 - 65535 accept", "ok"),
    ("tcp dport 1-65536 accept", "line 8: wrong-type"),
    ("tcp dport 5-3 accept", "line 8: syntax"),
    (
        "udp sport { ssh, smtp, domain, http, ntp, https } accept",
        "ok",
    ),
    ("tcp dport telnet accept", "line 8: wrong-type"),
    ("tcp dport \"ssh\" accept", "line 8: wrong-type"),
    ("tcp dport 10.0.0.1 accept", "line 8: wrong-type"),
    ("tcp dport @p accept", "ok"),
    ("udp sport != @a accept", "line 8: wrong-type"),
    ("ip protocol { tcp, udp, icmp, 255 } accept", "ok"),
    ("ip protocol 256 accept", "line 8: wrong-type"),
    ("ip protocol 1-2 accept", "line 8: wrong-type"),
    ("ip protocol \"tcp\" accept", "line 8: wrong-type"),
    ("meta l4proto sctp accept", "line 8: wrong-type"),
    ("meta l4proto @o accept", "ok"),
    ("meta l4proto @p accept", "line 8: wrong-type"),
    ("iifname lan accept", "ok"),
    ("iif \"lan\" oif wan accept", "ok"),
    ("meta oifname { lan, \"a b\" } accept", "ok"),
    ("oifname \"\" accept", "line 8: wrong-type"),
    ("oifname \"eth*\" accept", "line 8: wrong-type"),
    ("oifname 5 accept", "line 8: wrong-type"),
    ("iifname @n accept", "ok"),
    ("iifname @a accept", "line 8: wrong-type"),
];

// States of connections, maps and translations.
const STATES_AND_MAPS: [Row; 43] = [
    ("ct state new accept", "ok"),
    (
        "ct state established,related,invalid,untracked accept",
        "ok",
    ),
    ("ct state { new, invalid } accept", "ok"),
    ("ct state != new accept", "ok"),
    ("ct state != { new } accept", "ok"),
    ("ct state != new,invalid accept", "line 8: wrong-type"),
    ("ct state != { new, new } accept", "line 8: wrong-type"),
    ("ct state closed accept", "line 8: wrong-type"),
    ("ct state \"new\" accept", "line 8: wrong-type"),
    ("ct state 0 accept", "line 8: wrong-type"),
    ("ct state @a accept", "line 8: wrong-type"),
    ("ct state != @a accept", "line 8: wrong-type"),
    ("ct state @x accept", "line 8: unknown-set"),
    ("tcp dport vmap { 22 : accept, 80-90 : drop }", "ok"),
    (
        "tcp dport vmap { 22 : accept, ssh : drop }",
        "line 8: overlap",
    ),
    ("tcp dport vmap { 1-10 : accept, 11-20 : drop }", "ok"),
    (
        "tcp dport vmap { 1-10 : accept, 10-20 : drop }",
        "line 8: overlap",
    ),
    (
        "tcp dport vmap {\n1-10 : accept,\n11-20 : drop,\n30 : drop,\n10-11 : accept\n}",
        "line 12: overlap",
    ),
    (
        "tcp dport vmap {\n30 : drop,\n5 : accept,\n5 : drop,\n30 : accept\n}",
        "line 11: overlap",
    ),
    (
        "tcp dport vmap { 70000 : accept, 70000 : drop }",
        "line 8: wrong-type",
    ),
    ("tcp dport vmap { lan : accept }", "line 8: wrong-type"),
    (
        "ip saddr vmap { 10.0.0.0/9 : accept, 10.128.0.0/9 : drop }",
        "ok",
    ),
    (
        "ip saddr vmap { 10.0.0.0/8 : accept, 10.1.2.3 : drop }",
        "line 8: overlap",
    ),
    (
        "ip saddr vmap { 10.255.255.255 : accept, 10.0.0.1/8 : drop }",
        "line 8: overlap",
    ),
    (
        "ip saddr vmap { 10.0.0.1-10.0.0.5 : accept, 10.0.0.6 : drop }",
        "ok",
    ),
    ("ct state vmap { new : accept, established : drop }", "ok"),
    (
        "ct state vmap { related : accept, related : accept }",
        "line 8: overlap",
    ),
    ("iifname vmap { lan : accept, wan : drop }", "ok"),
    (
        "iifname vmap { lan : accept, \"lan\" : drop }",
        "line 8: overlap",
    ),
    (
        "ip protocol vmap { tcp : accept, 6 : drop }",
        "line 8: overlap",
    ),
    ("ip protocol vmap { 1-2 : accept }", "line 8: wrong-type"),
    ("dnat to 192.168.0.2", "ok"),
    ("dnat ip to 192.168.255.255:65535", "ok"),
    ("dnat to 192.168.0.2:0", "line 8: syntax"),
    ("dnat to 192.167.255.255", "line 8: not-inside"),
    ("dnat to 203.0.113.1", "line 8: not-inside"),
    ("dnat to 203.0.113.3", "line 8: not-inside"),
    ("snat to 203.0.113.1", "ok"),
    ("snat to 203.0.113.3", "ok"),
    ("snat to 203.0.113.2", "line 8: not-external"),
    ("snat to\n192.168.0.2", "line 8: syntax"),
    ("snat to 192.168.0.2", "line 8: not-external"),
    ("masquerade", "ok"),
];

fn check_verdicts(rt: &impl Abort, alloc: Global) -> Result<(), AllocError> {
    check(rt, alloc, BEFORE_A_RULE, BEHIND_A_RULE, &VERDICTS)
}

fn check_matches(rt: &impl Abort, alloc: Global) -> Result<(), AllocError> {
    check(rt, alloc, BEFORE_A_RULE, BEHIND_A_RULE, &MATCHES)
}

fn check_states_and_maps(rt: &impl Abort, alloc: Global) -> Result<(), AllocError> {
    check(rt, alloc, BEFORE_A_RULE, BEHIND_A_RULE, &STATES_AND_MAPS)
}

// One rule each.
#[test]
fn single_rules(rt: HostRuntime) -> Result<(), AllocError> {
    check_verdicts(&rt, rt.alloc())?;
    check_matches(&rt, rt.alloc())?;
    check_states_and_maps(&rt, rt.alloc())
}

// The lines of one set, of which no rule speaks.
const SINGLE_SETS: [Row; 22] = [
    ("type ipv4_addr", "ok"),
    ("type inet_service", "ok"),
    ("type inet_proto", "ok"),
    ("type ifname", "ok"),
    (
        "type ipv4_addr; flags interval, constant; auto-merge; comment \"x\"",
        "ok",
    ),
    ("", "line 2: wrong-type"),
    ("elements = { 5 }", "line 2: wrong-type"),
    ("type ipv6_addr", "line 3: wrong-type"),
    ("type ct_state", "line 3: wrong-type"),
    ("type ipv4_addr\ntype ipv4_addr", "line 4: duplicate"),
    (
        "type ipv4_addr\nelements = { 10.0.0.1 }\nelements = { 10.0.0.2 }",
        "line 5: duplicate",
    ),
    (
        "type ipv4_addr; elements = { 10.0.0.0/8, 10.0.0.1, 10.0.0.1-10.0.0.9, }",
        "ok",
    ),
    (
        "type ipv4_addr\nelements = { 10.0.0.1,\n80 }",
        "line 5: wrong-type",
    ),
    ("elements = { 1-10, 5, http }\ntype inet_service", "ok"),
    (
        "elements = { 1-10, 5, ftp }\ntype inet_service",
        "line 3: wrong-type",
    ),
    ("type inet_proto; elements = { 6, udp }", "ok"),
    ("type inet_proto; elements = { 6-7 }", "line 3: wrong-type"),
    ("type ifname; elements = { lan, \"x y\" }", "ok"),
    ("type ifname; elements = { \"wan*\" }", "line 3: wrong-type"),
    ("type ifname; elements = { 10.0.0.1 }", "line 3: wrong-type"),
    ("type ifname; flags dynamic", "line 3: unsupported"),
    ("type ifname; elements = { }", "line 3: syntax"),
];

#[test]
fn single_sets(rt: HostRuntime) -> Result<(), AllocError> {
    check(
        &rt,
        rt.alloc(),
        "table inet t {\nset s {\n",
        "\n}\n}\n",
        &SINGLE_SETS,
    )
}

// A base chain at line 1, with rules behind it, and a chain that only some of them lead to.
const BASE_CHAINS: [Row; 43] = [
    ("filter hook input priority 0", "ok"),
    ("filter hook forward priority 0", "ok"),
    ("filter hook output priority 0", "ok"),
    ("filter hook prerouting priority 0", "line 1: wrong-hook"),
    ("filter hook postrouting priority 0", "line 1: wrong-hook"),
    ("nat hook prerouting priority 0", "ok"),
    ("nat hook input priority 0", "ok"),
    ("nat hook forward priority 0", "line 1: wrong-hook"),
    ("nat hook output priority 0", "ok"),
    ("nat hook postrouting priority 0", "ok"),
    (
        "nat hook prerouting priority dstnat + 5\ndnat to 192.168.0.2:80",
        "ok",
    ),
    ("nat hook output priority -100\ndnat to 192.168.0.2", "ok"),
    (
        "nat hook input priority 0\ndnat to 192.168.0.2",
        "line 2: wrong-hook",
    ),
    (
        "nat hook postrouting priority 0\ndnat to 192.168.0.2",
        "line 2: wrong-hook",
    ),
    (
        "nat hook postrouting priority srcnat\nsnat to 203.0.113.1",
        "ok",
    ),
    ("nat hook input priority 0\nsnat to 203.0.113.1", "ok"),
    (
        "nat hook prerouting priority 0\nsnat to 203.0.113.1",
        "line 2: wrong-hook",
    ),
    (
        "nat hook output priority 0\nsnat to 203.0.113.1",
        "line 2: wrong-hook",
    ),
    ("nat hook postrouting priority 0\nmasquerade", "ok"),
    (
        "nat hook prerouting priority 0\nmasquerade",
        "line 2: wrong-hook",
    ),
    (
        "nat hook input priority 0\nmasquerade",
        "line 2: wrong-hook",
    ),
    (
        "nat hook output priority 0\nmasquerade",
        "line 2: wrong-hook",
    ),
    (
        "nat hook forward priority 0\n\nmasquerade",
        "line 1: wrong-hook",
    ),
    ("nat hook postrouting priority 0\njump e", "ok"),
    (
        "nat hook prerouting priority 0\njump d",
        "line 4: wrong-hook",
    ),
    (
        "nat hook prerouting priority 0\njump e",
        "line 4: wrong-hook",
    ),
    (
        "nat hook prerouting priority 0\ntcp dport vmap { 22 : goto e }",
        "line 4: wrong-hook",
    ),
    ("nat hook prerouting priority 0\njump f", "ok"),
    (
        "nat hook postrouting priority 0\njump f",
        "line 10: wrong-hook",
    ),
    (
        "nat hook postrouting priority 0\njump f; dnat to 192.168.0.3",
        "line 2: wrong-hook",
    ),
    (
        "filter hook input priority 0\nmasquerade",
        "line 2: wrong-type",
    ),
    (
        "filter hook output priority 0\ndnat to 192.168.0.2",
        "line 2: wrong-type",
    ),
    (
        "filter hook forward priority 0\nsnat to 203.0.113.1",
        "line 2: wrong-type",
    ),
    (
        "filter hook forward priority 0\njump e",
        "line 4: wrong-type",
    ),
    (
        "filter hook forward priority 0\ntcp dport vmap { 22 : jump f, 23 : drop }",
        "line 10: wrong-type",
    ),
    (
        "filter hook forward priority 0; policy drop; accept; drop",
        "ok",
    ),
    (
        "filter hook prerouting priority 0\njump f",
        "line 1: wrong-hook",
    ),
    (
        "filter hook forward priority 0; jump b",
        "line 1: unknown-chain",
    ),
    (
        "nat hook postrouting priority 0\nsnat to 10.0.0.1",
        "line 2: not-external",
    ),
    (
        "nat hook prerouting priority 0\ndnat to 10.0.0.1\nsnat to 10.0.0.1",
        "line 3: wrong-hook",
    ),
    ("filter hook forward priority 1000000001", "line 1: syntax"),
    ("route hook output priority 0", "line 1: unsupported"),
    ("filter hook ingress priority 0", "line 1: unsupported"),
];

#[test]
fn hooks_and_translations(rt: HostRuntime) -> Result<(), AllocError> {
    check(
        &rt,
        rt.alloc(),
        "table ip t { chain b { type ",
        " }\nchain d {\nmasquerade\n}\nchain e {\ngoto d\n}\nchain f {\ndnat to 192.168.0.2\n} }",
        &BASE_CHAINS,
    )
}

// Names that are unknown or given twice, paths, and texts of which several kinds hold.
const NAMES: [Row; 31] = [
    ("table a { }\ntable b { }\ntable inet a { }", "ok"),
    (
        "table inet a { }\ntable b { }\ntable inet a { }",
        "line 3: duplicate",
    ),
    (
        "table a { chain c { } chain d { } set c { type ifname; } }",
        "ok",
    ),
    (
        "table a {\nchain c { }\nchain d { }\nchain c { }\n}",
        "line 4: duplicate",
    ),
    (
        "table a {\nset c { type ifname; }\nset c { type ifname; }\n}",
        "line 3: duplicate",
    ),
    (
        "table a { chain c { } }\ntable inet a { chain c { } }",
        "ok",
    ),
    (
        "table a { chain c { } }\ntable b { chain d { jump c; } }",
        "line 2: unknown-chain",
    ),
    (
        "table a { chain c { } }\ntable a { chain d { jump c; } }",
        "line 2: unknown-chain",
    ),
    (
        "table a { set s { type ifname; } }\ntable b { chain d {\niif @s accept\n} }",
        "line 3: unknown-set",
    ),
    ("table a {\nchain c {\njump c\n}\n}", "line 3: loop"),
    (
        "table a {\nchain c {\njump d\n}\nchain d {\ngoto c\n}\n}",
        "line 3: loop",
    ),
    (
        "table a {\nchain b {\njump c\n}\nchain c {\njump d\n}\nchain d {\ndrop; ct state vmap { new : drop,\nestablished : goto c }\n}\n}",
        "line 6: loop",
    ),
    (
        "table a {\nchain b {\njump c; jump d\n}\nchain c { jump d; }\nchain d { }\n}",
        "ok",
    ),
    (
        "table a {\nchain c {\njump d\njump e\n}\nchain d { }\nchain e { goto c; }\n}",
        "line 4: loop",
    ),
    (
        "table a { chain c { } }\ntable b {\nchain c {\njump c\n} }",
        "line 4: loop",
    ),
    (
        "table t { chain a { jump b; } chain b { jump c; } chain c { jump d; } chain d { jump e; } chain e { jump f; } chain f { jump g; } chain g { jump h; } chain h { jump i; } chain i { jump j; } chain j { jump k; } chain k { jump l; } chain l { jump m; } chain m { jump n; } chain n { jump o; } chain o { jump p; } chain p { jump q; } chain q { } }",
        "ok",
    ),
    (
        "table t { chain z { jump q; }\nchain a { jump b; }\nchain b { jump c; } chain c { jump d; } chain d { jump e; } chain e { jump f; } chain f { jump g; } chain g { jump h; } chain h { jump i; } chain i { jump j; } chain j { jump k; } chain k { jump l; } chain l { goto m; } chain m { jump n; } chain n { jump o; } chain o { jump p; } chain p { jump q; } chain q { jump r; } chain r { } }",
        "line 2: depth",
    ),
    (
        "table t {\nchain a {\nip saddr @s jump b\n}\n}",
        "line 3: unknown-chain",
    ),
    (
        "table t { chain a { jump a;\njump b; } }",
        "line 2: unknown-chain",
    ),
    (
        "table t { chain a { }\nchain a {\niif @s accept\n}\n}",
        "line 3: unknown-set",
    ),
    (
        "table t {\nchain a { jump a; }\nchain a { }\n}",
        "line 3: duplicate",
    ),
    (
        "table t {\nchain a { type filter hook prerouting priority 0; jump b; }\nchain b {\njump b\n}\n}",
        "line 4: loop",
    ),
    (
        "table t {\nchain a {\ntcp dport 70000 accept\n}\nchain b { type nat hook forward priority 0; }\n}",
        "line 5: wrong-hook",
    ),
    (
        "table t {\nchain a {\nsnat to 10.0.0.1\n}\nset s {\n}\n}",
        "line 5: wrong-type",
    ),
    (
        "table t {\nchain a {\ndnat to 10.0.0.1\n}\nchain b {\nsnat to 10.0.0.1\n}\n}",
        "line 6: not-external",
    ),
    (
        "table t {\nchain a {\ntcp dport vmap { 1 : drop, 1 : drop }\n}\nchain b {\ndnat to 10.0.0.1\n}\n}",
        "line 6: not-inside",
    ),
    ("table t {\nchain a {\njump b\n}\n", "line 5: syntax"),
    ("table arp t { }", "line 1: family"),
    ("table t { chain c { jump d } } 7", "line 1: syntax"),
    ("table ip { }", "line 1: syntax"),
    ("table ip ip { }", "line 1: unsupported"),
];

#[test]
fn names_and_paths(rt: HostRuntime) -> Result<(), AllocError> {
    check(&rt, rt.alloc(), "", "", &NAMES)
}
