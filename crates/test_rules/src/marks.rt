//! Reports of wrong texts.
use crate::shared::bounds;
use packet::Prefix;
use ruletext::read;
use std::alloc::{AllocError, Global};
use std::process::Abort;
use std::test::Fail;
use text_marks::explain;

const INSIDE: Prefix = Prefix {
    addr: 0xc0a8_0000,
    len: 16,
};

// The report of a text's fault.
fn shown(alloc: Global, text: &[u8]) -> Result<Vec<u8>, Fail> {
    let bounds = bounds(alloc, "lan", "wan", INSIDE)?;
    match read(alloc, text, &bounds) {
        Ok(_rules) => Err(Fail::new("it has no fault")),
        Err(fault) => Ok(explain(alloc, text, &bounds, &fault)?),
    }
}

// A text and its report: the line, the mark below it, what is found, and what is expected.
#[derive(Clone, Copy)]
struct Row<'a> {
    text: &'a str,
    line: &'a str,
    mark: &'a str,
    found: &'a str,
    expected: &'a str,
}

fn report_of(alloc: Global, row: &Row<'_>) -> Result<String, AllocError> {
    let Row {
        line,
        mark,
        found,
        expected,
        ..
    } = row;
    format!(in alloc; "{line}\n{mark}\nfound: {found}\nexpected: {expected}\n")
}

fn is_shown(alloc: Global, row: &Row<'_>) -> Result<bool, Fail> {
    let report = report_of(alloc, row)?;
    let shown = shown(alloc, row.text.as_bytes())?;
    Ok(shown.as_slice() == report.as_bytes())
}

fn assert_shown(rt: &impl Abort, alloc: Global, rows: &[Row<'_>]) -> Result<(), Fail> {
    for row in rows {
        assert!(rt; is_shown(alloc, row)?, "{}", row.text);
    }
    Ok(())
}

// The words that begin a rule, and the end of one.
const IN_A_RULE: &str =
    "`comment`, `counter`, `meta`, `iifname`, `oifname`, `iif`, `oif`, `ip`, `tcp`, `udp`, `ct`, `accept`, `drop`, `return`, `continue`, `jump`, `goto`, `dnat`, `snat`, `masquerade`, `}`, `;`, `-`, the end of the line";

const A_SIDE: &str = "a name, `vmap`, a number, an address, a text in quotes, `{`, `==`, `!=`, `@`";

const A_CHAIN: &str = "the name of a chain of the same table that has no line `type .. hook ..`";

const ONE_OF_A_NAME: &str =
    "one name for each table of a family and each chain and set of a table, and one `type` and one `elements` line in a set";

const A_VALUE: &str =
    "addresses for saddr and daddr, ports up to 65535 for sport and dport, protocols up to 255 for protocol and l4proto, names of interfaces for iifname and oifname, states for ct state; sets with one such `type`; dnat, snat and masquerade from nat chains alone";

const SYNTAX: [Row<'static>; 8] = [
    Row {
        text: "table ip t {\n\tchain c { tcp dport 22 reject; }; }\n",
        line: "line 2: \tchain c { tcp dport 22 reject; }; }",
        mark: "        \t                       ^",
        found: "`reject`, which is no word that is known here",
        expected: IN_A_RULE,
    },
    Row {
        text: "table ip6 t { }",
        line: "line 1: table ip6 t { }",
        mark: "              ^",
        found: "`ip6`, which is another family than ip and inet",
        expected: "a name, `inet`, `ip`",
    },
    Row {
        text: "table ip t \\\n { chain c { ip saddr ; }; }",
        line: "line 2:  { chain c { ip saddr ; }; }",
        mark: "                              ^",
        found: "`;`, which can't stand here",
        expected: A_SIDE,
    },
    Row {
        text: "flush ruleset;\ntable",
        line: "line 2: table",
        mark: "             ^",
        found: "the end of the text, which can't stand here",
        expected: "a name, `inet`, `ip`",
    },
    Row {
        text: "table t { chain c { tcp dport 22x accept; }; }",
        line: "line 1: table t { chain c { tcp dport 22x accept; }; }",
        mark: "                                      ^",
        found: "`22x`, which can't stand here",
        expected: A_SIDE,
    },
    Row {
        text: "set # a set\n",
        line: "line 1: set # a set",
        mark: "        ^",
        found: "`set`, which is no word that is known here",
        expected: "`flush`, `table`, `;`, the end of the line, the end of the text",
    },
    Row {
        text: "table # a table\n t { }",
        line: "line 1: table # a table",
        mark: "                       ^",
        found: "the end of the line, which can't stand here",
        expected: "a name, `inet`, `ip`",
    },
    Row {
        text: "\u{e9} ~\t\r",
        line: "line 1: ?? ~\t?",
        mark: "        ^",
        found: "`?`, which can't stand here",
        expected: "`flush`, `table`, `;`, the end of the line, the end of the text",
    },
];

#[test]
fn syntax(rt: HostRuntime) -> Result<(), Fail> {
    assert_shown(&rt, rt.alloc(), &SYNTAX)
}

const NAMES: [Row<'static>; 4] = [
    Row {
        text: "table ip t { chain c { accept; jump d; }; }",
        line: "line 1: table ip t { chain c { accept; jump d; }; }",
        mark: "                                       ^",
        found: "`jump`, a call of a chain that its table doesn't have, or that has a hook",
        expected: A_CHAIN,
    },
    Row {
        text: "table ip t { chain c { ip saddr @s accept; }; }",
        line: "line 1: table ip t { chain c { ip saddr @s accept; }; }",
        mark: "                                        ^",
        found: "`@`, a set that its table doesn't have",
        expected: "`@` and the name of a set of the same table",
    },
    Row {
        text: "table ip t { }\ntable t { }\n",
        line: "line 2: table t { }",
        mark: "        ^",
        found: "`table`, which is there already",
        expected: ONE_OF_A_NAME,
    },
    Row {
        text: "table ip t { set s { type ipv4_addr; type ipv4_addr; }; }",
        line: "line 1: table ip t { set s { type ipv4_addr; type ipv4_addr; }; }",
        mark: "                                             ^",
        found: "`type`, which is there already",
        expected: ONE_OF_A_NAME,
    },
];

#[test]
fn names(rt: HostRuntime) -> Result<(), Fail> {
    assert_shown(&rt, rt.alloc(), &NAMES)
}

const RULES: [Row<'static>; 5] = [
    Row {
        text: "table ip n { chain p { type nat hook forward priority 0; }; }",
        line: "line 1: table ip n { chain p { type nat hook forward priority 0; }; }",
        mark: "                               ^",
        found: "`type`, which can't be at its hook, or is reached from a hook where it can't be",
        expected: "filter chains at input, forward and output; nat chains at prerouting, input, output and postrouting, with dnat from prerouting or output, snat from input or postrouting, and masquerade from postrouting alone",
    },
    Row {
        text: "table ip t { chain c { tcp dport 70000 accept; }; }",
        line: "line 1: table ip t { chain c { tcp dport 70000 accept; }; }",
        mark: "                                         ^",
        found: "`70000`, which has another type than what belongs here",
        expected: A_VALUE,
    },
    Row {
        text: "table ip n { chain p { type nat hook postrouting priority 100; snat to 203.0.113.2; }; }",
        line: "line 1: table ip n { chain p { type nat hook postrouting priority 100; snat to 203.0.113.2; }; }",
        mark: "                                                                               ^",
        found: "`203.0.113.2`, which isn't an external address",
        expected: "an external address of the gateway",
    },
    Row {
        text: "table ip n {\nchain p {\ntype nat hook prerouting priority -100;\ndnat to 10.0.0.1; }; }",
        line: "line 4: dnat to 10.0.0.1; }; }",
        mark: "                ^",
        found: "`10.0.0.1`, which isn't inside",
        expected: "an address in one of the inside prefixes of the gateway",
    },
    Row {
        text: "table ip t { chain c { tcp dport vmap { 1-10 : accept, 5 : drop }; }; }",
        line: "line 1: table ip t { chain c { tcp dport vmap { 1-10 : accept, 5 : drop }; }; }",
        mark: "                                                               ^",
        found: "`5`, a key that shares a value with another key of its map",
        expected: "keys of which no two share a value",
    },
];

#[test]
fn rules(rt: HostRuntime) -> Result<(), Fail> {
    assert_shown(&rt, rt.alloc(), &RULES)
}

fn chain(alloc: Global, number: u32) -> Result<String, AllocError> {
    let next = u64::from(number) + 1;
    format!(in alloc; "chain c{number} {{ jump c{next}; }}\n")
}

// A table with these chains, each in a line of its own and with a jump to the next, and then these words.
fn chains(alloc: Global, count: u32, last: &str) -> Result<String, AllocError> {
    let mut text = String::from_str(alloc, "table ip t {\n")?;
    for number in 0..count {
        text.push_str(chain(alloc, number)?.as_str())?;
    }
    text.push_str(last)?;
    Ok(text)
}

#[test]
fn back_by_jumps(rt: HostRuntime) -> Result<(), Fail> {
    let text = chains(rt.alloc(), 2, "chain c2 { accept; goto c1; }; }")?;
    let row = Row {
        text: text.as_str(),
        line: "line 3: chain c1 { jump c2; }",
        mark: "                   ^",
        found: "`jump`, which comes back to its chain by jumps and gotos",
        expected: "chains of which none leads back to itself",
    };
    assert_shown(&rt, rt.alloc(), &[row])
}

#[test]
fn seventeen_jumps(rt: HostRuntime) -> Result<(), Fail> {
    let text = chains(rt.alloc(), 17, "chain c17 { }; }")?;
    let row = Row {
        text: text.as_str(),
        line: "line 2: chain c0 { jump c1; }",
        mark: "                   ^",
        found: "`jump`, which is on a path of more than 16 jumps and gotos",
        expected: "at most 16 jumps and gotos on every path",
    };
    assert_shown(&rt, rt.alloc(), &[row])
}

fn empty_chain(alloc: Global, number: u32) -> Result<String, AllocError> {
    format!(in alloc; "chain c{number} {{ }};\n")
}

// A table of empty chains, each in a line of its own.
fn empty_chains(alloc: Global, count: u32) -> Result<String, AllocError> {
    let mut text = String::from_str(alloc, "table ip t {\n")?;
    for number in 0..count {
        text.push_str(empty_chain(alloc, number)?.as_str())?;
    }
    text.push_str("}")?;
    Ok(text)
}

#[test]
fn one_chain_too_many(rt: HostRuntime) -> Result<(), Fail> {
    let text = empty_chains(rt.alloc(), 257)?;
    let row = Row {
        text: text.as_str(),
        line: "line 258: chain c256 { };",
        mark: "          ^",
        found: "`chain`, which is one more than there may be",
        expected: "at most 256 chains, 4096 rules, and 16384 elements and pairs in all",
    };
    assert_shown(&rt, rt.alloc(), &[row])
}

// A text so many times between two others.
fn run_of(
    alloc: Global,
    front: &str,
    (what, count): (&str, usize),
    last: &str,
) -> Result<String, AllocError> {
    let run = what.repeat(alloc, count)?;
    format!(in alloc; "{front}{run}{last}")
}

#[test]
fn one_byte_too_many(rt: HostRuntime) -> Result<(), Fail> {
    let alloc = rt.alloc();
    let text = run_of(alloc, "", (" ", 262_145), "")?;
    let line = run_of(alloc, "line 1: ...", (" ", 120), "")?;
    let mark = run_of(alloc, "", (" ", 130), "^")?;
    let row = Row {
        text: text.as_str(),
        line: line.as_str(),
        mark: mark.as_str(),
        found: "` `, the first byte that is too many",
        expected: "a text of at most 262144 bytes",
    };
    assert_shown(&rt, alloc, &[row])
}

const AT_THE_START: &str = "`flush`, `table`, `;`, the end of the line, the end of the text";

// An `x` between so many semicolons and so many more.
fn semicolons(
    alloc: Global,
    front: &str,
    (before, behind): (usize, usize),
    last: &str,
) -> Result<String, AllocError> {
    let before = ";".repeat(alloc, before)?;
    let behind = run_of(alloc, "x", (";", behind), last)?;
    format!(in alloc; "{front}{before}{behind}")
}

#[test]
fn long_line(rt: HostRuntime) -> Result<(), Fail> {
    let alloc = rt.alloc();
    let text = semicolons(alloc, "", (300, 300), "")?;
    let line = semicolons(alloc, "line 1: ...", (60, 59), "...")?;
    let mark = run_of(alloc, "", (" ", 71), "^")?;
    let row = Row {
        text: text.as_str(),
        line: line.as_str(),
        mark: mark.as_str(),
        found: "`x`, which is no word that is known here",
        expected: AT_THE_START,
    };
    assert_shown(&rt, alloc, &[row])
}

#[test]
fn long_name(rt: HostRuntime) -> Result<(), Fail> {
    let alloc = rt.alloc();
    let name = "z".repeat(alloc, 50)?;
    let line = run_of(alloc, "line 1: ", ("z", 50), "")?;
    let found = run_of(
        alloc,
        "`",
        ("z", 40),
        "...`, which is no word that is known here",
    )?;
    let row = Row {
        text: name.as_str(),
        line: line.as_str(),
        mark: "        ^",
        found: found.as_str(),
        expected: AT_THE_START,
    };
    assert_shown(&rt, alloc, &[row])
}
