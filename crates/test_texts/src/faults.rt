//! Which of several faults is named, and what is answered where memory is refused.

use crate::limits::{repeated, row_of_chains};
use crate::loading::{Row, bounds, check};
use packet::Bounds;
use ruletext::read;
use ruletree::Kind;
use std::alloc::{AllocError, Global};
use std::test::*;

// Texts with several faults of one kind: the first in the text is named, wherever it stands in the tree.
const SEVERAL: [Row; 20] = [
    ("table a { }\ntable a { }\ntable a { }", "line 2: duplicate"),
    (
        "table a {\nchain c { }\nchain c { }\n}\ntable a { }",
        "line 3: duplicate",
    ),
    (
        "table a { }\ntable a {\nchain c { }\nchain c { }\n}",
        "line 2: duplicate",
    ),
    (
        "table inet a { }\ntable inet a { }\ntable b { }\ntable b { }",
        "line 2: duplicate",
    ),
    (
        "table b { }\ntable inet a { }\ntable b { }\ntable inet a { }",
        "line 3: duplicate",
    ),
    (
        "table inet a {\nset s { type ifname; }\nset s { type ifname; }\n}\ntable inet a { }",
        "line 3: duplicate",
    ),
    (
        "table a {\nchain c { }\nchain d { }\nchain d { }\nchain c { }\n}",
        "line 4: duplicate",
    ),
    (
        "table a {\nset s { type ifname; }\nset s { type ifname; }\nchain c { }\nchain c { }\n}",
        "line 3: duplicate",
    ),
    (
        "table a {\nchain c { }\nchain c { }\nset s { type ifname; }\nset s { type ifname; }\n}",
        "line 3: duplicate",
    ),
    (
        "table a {\nset s {\ntype ifname\ntype ifname\n}\nset s { type ifname; }\nchain c { }\nchain c { }\n}",
        "line 4: duplicate",
    ),
    (
        "table a {\nset s { type ifname; }\nset s {\ntype ifname\ntype ifname\n}\n}",
        "line 3: duplicate",
    ),
    (
        "table a {\nset s {\nelements = { lan }\nelements = { wan }\ntype ifname\ntype ifname\n}\n}",
        "line 4: duplicate",
    ),
    (
        "table a {\nset s {\ntype ifname\nelements = { lan }\ntype ifname\nelements = { wan }\n}\n}",
        "line 5: duplicate",
    ),
    (
        "table a {\nset s {\nelements = { lan }\ntype ifname\nelements = { wan }\ntype ifname\n}\n}",
        "line 5: duplicate",
    ),
    (
        "table a {\nchain c {\njump x\n}\n}\ntable b {\nchain c {\njump y\n}\n}",
        "line 3: unknown-chain",
    ),
    (
        "table t {\nchain a {\ndrop\n}\nchain b {\ntcp dport vmap { 1 : drop,\n2 : jump x,\n3 : goto y }\njump z\n}\n}",
        "line 7: unknown-chain",
    ),
    (
        "table t {\nchain a {\niif @s accept\n}\nchain b {\njump x\njump y\n}\n}",
        "line 6: unknown-chain",
    ),
    (
        "table t {\nchain a {\nip saddr @s \\\nip daddr @u accept\n}\n}",
        "line 3: unknown-set",
    ),
    (
        "table t {\nset s { type ipv4_addr; }\nchain a {\nip saddr @s accept\n}\nchain b {\nip saddr @u accept\nip saddr @v accept\n}\n}",
        "line 7: unknown-set",
    ),
    ("table t {\nset \\\ns {\n}\n}", "line 3: wrong-type"),
];

#[test]
fn first_of_several(rt: HostRuntime) -> Result<(), AllocError> {
    check(&rt, rt.alloc(), "", "", &SEVERAL)
}

// Whether the kind and the line are the wanted ones, or memory was refused.
fn is_right(alloc: Global, bounds: &Bounds, text: &str, wanted: Option<(Kind, usize)>) -> bool {
    let answer = match read(alloc, text.as_bytes(), bounds) {
        Ok(_rules) => None,
        Err(fault) => Some((fault.kind, fault.line.number())),
    };
    answer == wanted || matches!(answer, Some((Kind::NoMemory, _)))
}

const GROWTHS: [(&str, Option<(Kind, usize)>); 6] = [
    (
        "table t { set s { type inet_service; elements = { 80, 90-99 }; }\nchain c { type nat hook prerouting priority 0; ip protocol tcp tcp dport vmap { 22 : accept, 23 : goto d }; }\nchain d { tcp dport @s dnat to 192.168.0.2; } }",
        None,
    ),
    (
        "table t { chain a { jump b; } }",
        Some((Kind::UnknownChain, 1)),
    ),
    (
        "table t { chain a { }\nchain a { } }",
        Some((Kind::Duplicate, 2)),
    ),
    (
        "table t { chain a { jump b; }\nchain b { goto a; } }",
        Some((Kind::Loop, 1)),
    ),
    (
        "table t { chain a { jump b; } chain b { jump c; } chain c { jump d; } chain d { jump e; } chain e { jump f; } chain f { jump g; } chain g { jump h; } chain h { jump i; } chain i { jump j; } chain j { jump k; } chain k { jump l; } chain l { jump m; } chain m { jump n; } chain n { jump o; } chain o { jump p; } chain p { jump q; } chain q { jump r; } chain r { } }",
        Some((Kind::Depth, 1)),
    ),
    (
        "table t { chain c { ct state vmap { new : drop,\nnew : drop }; } }",
        Some((Kind::Overlap, 2)),
    ),
];

// Each of these texts takes another way through the reader. Under `rt try --test --fail-alloc N` one growth is
// refused: the answer is then `no-memory`, or that of the other runs.
#[test]
fn each_growth(rt: HostRuntime) {
    let alloc = rt.alloc();
    let Ok(bounds) = bounds(alloc) else {
        return;
    };
    for (text, wanted) in &GROWTHS {
        assert!(rt; is_right(alloc, &bounds, text, *wanted), "{text}");
    }
}

// Whether the text has too much of something, at this line, where there was memory for the text.
fn is_too_much(
    alloc: Global,
    bounds: &Bounds,
    text: Result<String, AllocError>,
    line: usize,
) -> bool {
    match text {
        Ok(text) => is_right(alloc, bounds, text.as_str(), Some((Kind::Limit, line))),
        Err(_) => true,
    }
}

// A text with one chain, one rule or one element too many is refused at the line of that one.
#[test]
fn each_growth_past_a_limit(rt: HostRuntime) {
    let alloc = rt.alloc();
    let Ok(bounds) = bounds(alloc) else {
        return;
    };
    let rules = repeated(alloc, "table t { chain c {\n", "drop\n", 4097, "} }");
    assert!(rt; is_too_much(alloc, &bounds, rules, 4098));
    let set = "table t { set s { type inet_service; elements = {\n";
    let elements = repeated(alloc, set, "1,\n", 16385, "} } }");
    assert!(rt; is_too_much(alloc, &bounds, elements, 16386));
    let chains = row_of_chains(alloc, 257, false, false);
    assert!(rt; is_too_much(alloc, &bounds, chains, 258));
}

const MASQUERADE: &str =
    "table ip nat { chain post { type nat hook postrouting priority srcnat; oifname \"wan\" masquerade; }; }";

fn loads(alloc: Global, bounds: &Bounds, text: &[u8]) -> bool {
    read(alloc, text, bounds).is_ok()
}

// Of 101 bytes, none load, and all.
#[test]
fn each_cut(rt: HostRuntime) -> Result<(), AllocError> {
    let alloc = rt.alloc();
    let bounds = bounds(alloc)?;
    for cut in 0..=MASQUERADE.len() {
        let text = MASQUERADE.as_bytes().get(..cut).unwrap_or(b"?");
        let wanted = cut == 0 || cut == 101;
        assert!(rt; loads(alloc, &bounds, text) == wanted, "{cut} bytes");
    }
    Ok(())
}
