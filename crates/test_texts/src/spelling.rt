//! Which texts spell a ruleset, and what is told of the others.

use rulesyntax::{one_ruleset, parse};
use ruletree::{Chain, Element, End, Kind, Line, Rule, Set, Side, Table, Verdict};
use std::alloc::{AllocError, Global};
use std::process::Abort;
use std::test::*;

type Row = (&'static str, &'static str);

fn answer(alloc: Global, text: &[u8]) -> Result<String, AllocError> {
    match parse(alloc, text) {
        Ok(_rules) => String::from_str(alloc, "ok"),
        Err(fault) => format!(in alloc; "{fault}"),
    }
}

// The text is the row's, or has it within.
fn check_text(rt: &impl Abort, alloc: Global, text: &[u8], row: &Row) -> Result<(), AllocError> {
    let found = answer(alloc, text)?;
    assert_eq!(rt; found.as_str(), row.1, "{}", row.0);
    Ok(())
}

fn check(rt: &impl Abort, alloc: Global, rows: &[Row]) -> Result<(), AllocError> {
    for row in rows {
        check_text(rt, alloc, row.0.as_bytes(), row)?;
    }
    Ok(())
}

const TABLES: [Row; 32] = [
    ("", "ok"),
    ("\n;; \t\r\n", "ok"),
    ("# a comment { \" 007", "ok"),
    ("flush ruleset", "ok"),
    ("flush ruleset; flush ruleset\n\ntable t { }", "ok"),
    ("table t{}", "ok"),
    ("table t { }\n", "ok"),
    ("table ip t { } table inet t { }; table u { }", "ok"),
    ("table _a-b.c/d { }", "ok"),
    ("table t { comment \"a # b\" }", "ok"),
    (
        "table t { comment \"\"; set s { } chain c { } set u { }\n }",
        "ok",
    ),
    ("table \\\nt { }", "ok"),
    ("table t { } flush ruleset", "line 1: unsupported"),
    ("flush ruleset table t { }", "line 1: unsupported"),
    ("flush\nruleset", "line 1: syntax"),
    ("flush sets", "line 1: unsupported"),
    ("add table t { }", "line 1: unsupported"),
    ("table { }", "line 1: syntax"),
    ("table t", "line 1: syntax"),
    ("table t {\n\n", "line 3: syntax"),
    ("table t }", "line 1: syntax"),
    ("table t { } }", "line 1: syntax"),
    ("table t { };\n table ip6 u { }", "line 2: family"),
    ("table arp { }", "line 1: family"),
    ("table bridge t { }", "line 1: family"),
    ("table netdev t { }", "line 1: family"),
    ("table ip { }", "line 1: syntax"),
    ("table ip inet { }", "line 1: unsupported"),
    ("table inet ip6 { }", "line 1: unsupported"),
    ("table t { map m { } }", "line 1: unsupported"),
    ("007", "line 1: syntax"),
    ("\n?", "line 2: syntax"),
];

const SETS: [Row; 24] = [
    ("table t { set s { type ipv4_addr } }", "ok"),
    (
        "table t { set s { type a; type b\nflags interval, constant; auto-merge; comment \"c\" } }",
        "ok",
    ),
    ("table t { set s { elements = { 1 } } }", "ok"),
    (
        "table t { set s { elements = { 1, 10.0.0.0/8, a, \"b\", } ; elements = {2} } }",
        "ok",
    ),
    (
        "table t { set s { elements = {\n1\n-\n5\n,\n10.0.0.1\n-\n10.0.0.9\n,\n10.0.0.0\n/\n32\n\n,\n} } }",
        "ok",
    ),
    ("table t { set { } }", "line 1: syntax"),
    ("table t { set s }", "line 1: syntax"),
    ("table t { set s { } set u { } }", "ok"),
    (
        "table t { set s { } comment \"c\" set u { } }",
        "line 1: unsupported",
    ),
    ("table t { set s { type } }", "line 1: syntax"),
    ("table t { set s { type a type b } }", "line 1: unsupported"),
    ("table t { set s { typeof a } }", "line 1: unsupported"),
    ("table t { set s { flags } }", "line 1: syntax"),
    ("table t { set s { flags timeout } }", "line 1: unsupported"),
    ("table t { set s { flags interval, } }", "line 1: syntax"),
    (
        "table t { set s { flags interval constant } }",
        "line 1: unsupported",
    ),
    ("table t { set s { elements { 1 } } }", "line 1: syntax"),
    ("table t { set s { elements = 1 } }", "line 1: syntax"),
    ("table t { set s { elements = { } } }", "line 1: syntax"),
    (
        "table t { set s { elements = { 1,, 2 } } }",
        "line 1: syntax",
    ),
    (
        "table t { set s { elements = {\n1\n2 } } }",
        "line 3: syntax",
    ),
    ("table t { set s { elements = { ,1 } } }", "line 1: syntax"),
    (
        "table t { set s { elements = { 1; 2 } } }",
        "line 1: syntax",
    ),
    (
        "table t { set s { elements = { 1 }\n\n comment c } }",
        "line 3: unsupported",
    ),
];

const CHAINS: [Row; 30] = [
    ("table t { chain c { } }", "ok"),
    (
        "table t { chain c { comment \"a\"\ncomment \"b\"; accept } }",
        "ok",
    ),
    (
        "table t { chain c { type filter hook forward priority 0 } }",
        "ok",
    ),
    (
        "table t { chain c { type nat hook prerouting priority -1000000000; policy accept; } }",
        "ok",
    ),
    (
        "table t { chain c { type filter hook input priority raw - 5; policy drop } }",
        "ok",
    ),
    (
        "table t { chain c { type filter hook output priority mangle+1000000000\npolicy drop\ndrop } }",
        "ok",
    ),
    (
        "table t { chain c { type nat hook postrouting priority srcnat; masquerade } }",
        "ok",
    ),
    (
        "table t { chain c { type nat hook prerouting priority dstnat } chain d { type filter hook forward priority security } }",
        "ok",
    ),
    ("table t { chain { } }", "line 1: syntax"),
    (
        "table t { chain c { type route hook output priority 0 } }",
        "line 1: unsupported",
    ),
    (
        "table t { chain c { type filter forward priority 0 } }",
        "line 1: unsupported",
    ),
    (
        "table t { chain c { type filter hook ingress priority 0 } }",
        "line 1: unsupported",
    ),
    (
        "table t { chain c { type filter hook input device lo priority 0 } }",
        "line 1: unsupported",
    ),
    (
        "table t { chain c { type filter hook input } }",
        "line 1: syntax",
    ),
    (
        "table t { chain c { type filter hook input priority } }",
        "line 1: syntax",
    ),
    (
        "table t { chain c { type filter hook input priority 1000000001 } }",
        "line 1: syntax",
    ),
    (
        "table t { chain c { type filter hook input priority out } }",
        "line 1: unsupported",
    ),
    (
        "table t { chain c { type filter hook input priority - filter } }",
        "line 1: unsupported",
    ),
    (
        "table t { chain c { type filter hook input priority filter 5 } }",
        "line 1: syntax",
    ),
    (
        "table t { chain c { type filter hook input priority filter-5 } }",
        "line 1: unsupported",
    ),
    (
        "table t { chain c { type filter hook input priority +5 } }",
        "line 1: syntax",
    ),
    (
        "table t { chain c { type filter hook input priority 0 policy drop } }",
        "line 1: unsupported",
    ),
    ("table t { chain c { policy drop } }", "line 1: unsupported"),
    (
        "table t { chain c { type filter hook input priority 0; policy reject } }",
        "line 1: unsupported",
    ),
    (
        "table t { chain c { type filter hook input priority 0; policy drop; policy drop } }",
        "line 1: unsupported",
    ),
    (
        "table t { chain c { type filter hook input priority 0; accept; policy drop } }",
        "line 1: unsupported",
    ),
    (
        "table t { chain c { accept; type filter hook input priority 0 } }",
        "line 1: unsupported",
    ),
    (
        "table t { chain c { type filter hook input priority 0; comment \"late\" } }",
        "line 1: unsupported",
    ),
    (
        "table t { chain c { drop;\naccept drop } }",
        "line 2: unsupported",
    ),
    ("table t {\nchain c {\ndrop }\n}\n}", "line 5: syntax"),
];

const RULES: [Row; 44] = [
    ("accept", "ok"),
    ("drop comment \"why\"", "ok"),
    ("return\n\n; continue", "ok"),
    ("jump d; goto e", "ok"),
    ("counter", "ok"),
    ("counter packets 0 bytes 18446744073709551615 drop", "ok"),
    (
        "iifname lan oifname \"wan\" iif lan oif wan meta iifname lan meta oifname lan meta iif lan meta oif lan accept",
        "ok",
    ),
    (
        "ip saddr 10.0.0.1 ip daddr 10.0.0.0/8 ip protocol tcp meta l4proto 6",
        "ok",
    ),
    (
        "tcp sport 1 tcp dport 1-2 udp sport { 3, 4 } udp dport @ports counter drop",
        "ok",
    ),
    (
        "ct state new counter ct state established , related accept",
        "ok",
    ),
    ("ct state { new,\n related\n, } accept", "ok"),
    ("ct state != { new } tcp dport == 5 tcp dport != 6", "ok"),
    (
        "tcp dport vmap { 1 : accept, 2-3 :\njump\nd, \"x\": continue, }",
        "ok",
    ),
    (
        "ip saddr 1.2.3.4 tcp dport vmap { 1 : drop } comment \"c\"",
        "ok",
    ),
    ("ip daddr @vmap ip daddr { vmap } drop", "ok"),
    ("dnat to 10.0.0.1", "ok"),
    ("tcp dport 80 dnat ip to 10.0.0.1:65535 comment \"c\"", "ok"),
    (
        "snat to 203.0.113.1; snat ip to 203.0.113.1; masquerade",
        "ok",
    ),
    ("tcp dport 22 reject", "line 1: unsupported"),
    ("accept; comment \"alone\"", "line 1: unsupported"),
    ("accept comment", "line 1: syntax"),
    ("jump", "line 1: syntax"),
    ("goto\nd", "line 1: syntax"),
    ("counter packets 5", "line 1: syntax"),
    ("counter packets 5 bytes", "line 1: syntax"),
    ("ip saddr", "line 1: syntax"),
    ("ip sport 5 drop", "line 1: unsupported"),
    ("ip vmap { 1 : drop }", "line 1: unsupported"),
    ("meta mark 5 drop", "line 1: unsupported"),
    ("tcp flags syn drop", "line 1: unsupported"),
    ("ct status dnat", "line 1: unsupported"),
    ("tcp dport = 5 drop", "line 1: syntax"),
    ("tcp dport != vmap { 1 : drop }", "line 1: unsupported"),
    ("tcp dport 1, 2 drop", "line 1: syntax"),
    ("ct state new, drop", "ok"),
    ("ct state new, ; drop", "line 1: syntax"),
    ("ct state vmap, new drop", "line 1: syntax"),
    ("tcp dport @ drop drop drop", "line 1: unsupported"),
    ("tcp dport vmap { } drop", "line 1: syntax"),
    ("tcp dport vmap { 1 accept }", "line 1: unsupported"),
    ("tcp dport vmap { 1 : reject }", "line 1: unsupported"),
    ("tcp dport vmap { 1 : drop } drop", "line 1: unsupported"),
    ("dnat 10.0.0.1", "line 1: syntax"),
    ("dnat to 10.0.0.1:0", "line 1: syntax"),
];

const MORE_RULES: [Row; 14] = [
    ("dnat to 10.0.0.1:65536", "line 1: syntax"),
    ("dnat to lan", "line 1: unsupported"),
    ("dnat to 10.0.0.1 : ", "line 1: syntax"),
    ("snat to 10.0.0.1:80", "line 1: syntax"),
    ("masquerade to 5", "line 1: unsupported"),
    ("ip saddr 10.0.0.0/33 drop", "line 1: syntax"),
    ("ip saddr 10.0.0.0/ drop", "line 1: unsupported"),
    ("ip saddr 10.0.0.2 - 10.0.0.1 drop", "line 1: syntax"),
    ("ip saddr 10.0.0.2 - 10 drop", "line 1: syntax"),
    ("tcp dport 2-1 drop", "line 1: syntax"),
    ("tcp dport { 2 -\n\n1 } drop", "line 3: syntax"),
    ("tcp dport { 1, 2 drop", "line 1: unsupported"),
    ("tcp dport {\n1 } { 2 } drop", "line 2: syntax"),
    ("log prefix \"x\" drop", "line 1: unsupported"),
];

const TOKENS: [Row; 24] = [
    ("tcp dport 0 tcp dport 18446744073709551615 drop", "ok"),
    ("tcp dport 18446744073709551616 drop", "line 1: syntax"),
    ("tcp dport 007 drop", "line 1: syntax"),
    ("tcp dport 00 drop", "line 1: syntax"),
    ("tcp dport 12ab drop", "line 1: syntax"),
    ("tcp dport 1_ drop", "line 1: syntax"),
    ("ip saddr 0.0.0.0 ip saddr 255.255.255.255 drop", "ok"),
    ("ip saddr 1.2.3.256 drop", "line 1: syntax"),
    ("ip saddr 1.2.3 drop", "line 1: syntax"),
    ("ip saddr 1.2.3.4.5 drop", "line 1: syntax"),
    ("ip saddr 1.2.3.04 drop", "line 1: syntax"),
    ("ip saddr 1.2.3. drop", "line 1: syntax"),
    ("ip saddr .1.2.3 drop", "line 1: syntax"),
    ("ip saddr 1.2.3.4a drop", "line 1: syntax"),
    ("ip saddr 1..2.3 drop", "line 1: syntax"),
    ("tcp dport a1b drop", "ok"),
    ("iifname \"open\n\" drop", "line 1: syntax"),
    ("iifname \"open", "line 1: syntax"),
    ("iifname \"\" iifname \"# { é\" drop", "ok"),
    ("tcp dport ! drop", "line 1: syntax"),
    ("tcp dport (5) drop", "line 1: syntax"),
    ("tcp \\\n dport \\\n\\\n5x drop", "line 4: syntax"),
    ("tcp \\ dport 5 drop", "line 1: syntax"),
    ("reject 007", "line 1: unsupported"),
];

#[test]
fn texts(rt: HostRuntime) -> Result<(), AllocError> {
    check(&rt, rt.alloc(), &TABLES)?;
    check(&rt, rt.alloc(), &SETS)?;
    check(&rt, rt.alloc(), &CHAINS)
}

fn in_a_chain(alloc: Global, rule: &str) -> Result<String, AllocError> {
    format!(in alloc; "table t {{ chain c {{ {rule} }} }}")
}

fn check_rules(rt: &impl Abort, alloc: Global, rows: &[Row]) -> Result<(), AllocError> {
    for row in rows {
        let text = in_a_chain(alloc, row.0)?;
        check_text(rt, alloc, text.as_bytes(), row)?;
    }
    Ok(())
}

#[test]
fn rules(rt: HostRuntime) -> Result<(), AllocError> {
    check_rules(&rt, rt.alloc(), &RULES)?;
    check_rules(&rt, rt.alloc(), &MORE_RULES)?;
    check_rules(&rt, rt.alloc(), &TOKENS)
}

fn padded(alloc: Global, spaces: usize) -> Result<Vec<u8>, AllocError> {
    let mut text = vec![in alloc; b' '; spaces]?;
    text.extend_from_slice(b"table t { }")?;
    Ok(text)
}

// The text of so many spaces in front of a table must have this length, and this must be told of it.
fn check_padded(
    rt: &impl Abort,
    alloc: Global,
    spaces: usize,
    length: usize,
    expected: &str,
) -> Result<(), AllocError> {
    let text = padded(alloc, spaces)?;
    assert_eq!(rt; text.len(), length);
    let found = answer(alloc, text.as_slice())?;
    assert_eq!(rt; found.as_str(), expected);
    Ok(())
}

#[test]
fn lengths(rt: HostRuntime) -> Result<(), AllocError> {
    check_padded(&rt, rt.alloc(), 262_133, 262_144, "ok")?;
    check_padded(&rt, rt.alloc(), 262_134, 262_145, "line 1: too-long")
}

type Lines = Vec<usize>;

fn put(lines: &mut Lines, line: &Line) -> Result<(), AllocError> {
    lines.push(line.number())?;
    Ok(())
}

fn element_lines(lines: &mut Lines, elements: &[Element]) -> Result<(), AllocError> {
    for element in elements {
        put(lines, &element.line)?;
    }
    Ok(())
}

fn set_lines(lines: &mut Lines, set: &Set) -> Result<(), AllocError> {
    put(lines, &set.line)?;
    put(lines, &set.name_line)?;
    for set_type in set.types.as_slice() {
        put(lines, &set_type.line)?;
        put(lines, &set_type.name_line)?;
    }
    for listed in set.elements.as_slice() {
        put(lines, &listed.line)?;
        element_lines(lines, listed.elements.as_slice())?;
    }
    Ok(())
}

fn verdict_lines(lines: &mut Lines, verdict: &Verdict) -> Result<(), AllocError> {
    match verdict {
        Verdict::Jump(target) | Verdict::Goto(target) => put(lines, &target.line)?,
        _ => (),
    }
    Ok(())
}

fn end_lines(lines: &mut Lines, end: &End) -> Result<(), AllocError> {
    match end {
        End::Verdict(verdict) => verdict_lines(lines, verdict)?,
        End::Vmap(vmap) => {
            put(lines, &vmap.line)?;
            for pair in vmap.pairs.as_slice() {
                put(lines, &pair.key.line)?;
                verdict_lines(lines, &pair.verdict)?;
            }
        }
        End::Dnat(dnat) => {
            put(lines, &dnat.line)?;
            put(lines, &dnat.address_line)?;
        }
        End::Snat(snat) => {
            put(lines, &snat.line)?;
            put(lines, &snat.address_line)?;
        }
        End::Masquerade(line) => put(lines, line)?,
    }
    Ok(())
}

fn side_lines(lines: &mut Lines, side: &Side) -> Result<(), AllocError> {
    match side {
        Side::One(element) => put(lines, &element.line)?,
        Side::Several(elements) => element_lines(lines, elements.as_slice())?,
        Side::Named(set) => put(lines, &set.line)?,
    }
    Ok(())
}

fn rule_lines(lines: &mut Lines, rule: &Rule) -> Result<(), AllocError> {
    put(lines, &rule.line)?;
    for found in rule.matches.as_slice() {
        put(lines, &found.line)?;
        side_lines(lines, &found.side)?;
    }
    if let Some(end) = &rule.end {
        end_lines(lines, end)?;
    }
    Ok(())
}

fn chain_lines(lines: &mut Lines, chain: &Chain) -> Result<(), AllocError> {
    put(lines, &chain.line)?;
    if let Some(base) = &chain.base {
        put(lines, &base.line)?;
    }
    for rule in chain.rules.as_slice() {
        rule_lines(lines, rule)?;
    }
    Ok(())
}

fn table_lines(lines: &mut Lines, table: &Table) -> Result<(), AllocError> {
    put(lines, &table.line)?;
    for set in table.sets.as_slice() {
        set_lines(lines, set)?;
    }
    for chain in table.chains.as_slice() {
        chain_lines(lines, chain)?;
    }
    Ok(())
}

// The lines of everything in the tables, and a 0 behind them.
fn all_lines(alloc: Global, tables: &[Table]) -> Result<Lines, AllocError> {
    let mut lines = Vec::new(alloc);
    for table in tables {
        table_lines(&mut lines, table)?;
    }
    lines.push(0)?;
    Ok(lines)
}

fn lines_of(alloc: Global, text: &str) -> Result<Lines, Fail> {
    match parse(alloc, text.as_bytes()) {
        Ok(rules) => Ok(all_lines(alloc, rules.tables.as_slice())?),
        Err(_) => Err("a ruleset".into()),
    }
}

const SPREAD: &str = "
table t {
set \\
s {
type \\
ipv4_addr
elements = {
1,

2 }
}
chain \\
c {
type nat hook prerouting priority 0
counter \\
ip saddr \\
@s ct state \\
new tcp dport {

5 } jump \\
d
tcp dport vmap {
1 :
goto
d, 2
: drop
}
dnat \\
to \\
10.0.0.1
snat to \\
10.0.0.1
masquerade
}
}
";

const SPREAD_LINES: [usize; 32] = [
    2, 3, 4, 5, 6, 7, 8, 10, 12, 14, 15, 16, 17, 17, 18, 18, 20, 20, 22, 22, 23, 24, 25, 28, 28,
    30, 31, 31, 32, 33, 33, 0,
];

#[test]
fn lines(rt: HostRuntime) -> Result<(), Fail> {
    let lines = lines_of(rt.alloc(), SPREAD)?;
    assert_eq!(rt; lines.as_slice(), SPREAD_LINES.as_slice());
    Ok(())
}

const NAMES: [(Kind, &str); 16] = [
    (Kind::TooLong, "too-long"),
    (Kind::Syntax, "syntax"),
    (Kind::Unsupported, "unsupported"),
    (Kind::Family, "family"),
    (Kind::UnknownChain, "unknown-chain"),
    (Kind::UnknownSet, "unknown-set"),
    (Kind::Duplicate, "duplicate"),
    (Kind::Loop, "loop"),
    (Kind::Depth, "depth"),
    (Kind::WrongHook, "wrong-hook"),
    (Kind::WrongType, "wrong-type"),
    (Kind::NotExternal, "not-external"),
    (Kind::NotInside, "not-inside"),
    (Kind::Limit, "limit"),
    (Kind::Overlap, "overlap"),
    (Kind::NoMemory, "no-memory"),
];

#[test]
fn names(rt: HostRuntime) {
    one_ruleset();
    for (kind, name) in NAMES {
        assert_eq!(rt; kind.name(), name);
    }
}
