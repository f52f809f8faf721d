//! Texts as great as they may be, and greater by one.
use crate::loading::{bounds, said};
use std::alloc::{AllocError, Global};
use std::process::Abort;
use std::test::*;

// A text of so many lines between the two others.
pub(crate) fn repeated(
    alloc: Global,
    before: &str,
    line: &str,
    count: u32,
    behind: &str,
) -> Result<String, AllocError> {
    let mut text = String::from_str(alloc, before)?;
    for _ in 0..count {
        text.push_str(line)?;
    }
    text.push_str(behind)?;
    Ok(text)
}

// The chain that a chain leads to, if it leads to one.
fn target_of(number: u32, count: u32, leading: bool, ring: bool) -> Option<u32> {
    let next = number.saturating_add(1);
    if leading && next < count {
        return Some(next);
    }
    if ring && next == count {
        return Some(0);
    }
    None
}

fn chain(alloc: Global, number: u32, target: Option<u32>) -> Result<String, AllocError> {
    match target {
        Some(target) => format!(in alloc; "chain c{number}{{jump c{target}}}\n"),
        None => format!(in alloc; "chain c{number}{{}}\n"),
    }
}

// A table with so many chains; each but the last leads to the next, and the last to the first where it is wanted.
pub(crate) fn row_of_chains(
    alloc: Global,
    count: u32,
    leading: bool,
    ring: bool,
) -> Result<String, AllocError> {
    let mut text = String::from_str(alloc, "table t{\n")?;
    for number in 0..count {
        let target = target_of(number, count, leading, ring);
        text.push_str(chain(alloc, number, target)?.as_str())?;
    }
    text.push_str("}")?;
    Ok(text)
}

fn pair(alloc: Global, number: u32) -> Result<String, AllocError> {
    format!(in alloc; "{number}:drop,\n")
}

fn vmap_of(alloc: Global, count: u32) -> Result<String, AllocError> {
    let mut text = String::from_str(alloc, "table t { chain c { tcp dport vmap {\n")?;
    for number in 0..count {
        text.push_str(pair(alloc, number)?.as_str())?;
    }
    text.push_str("} } }")?;
    Ok(text)
}

// How many chains a text has, whether each but the last leads to the next, and whether the last leads to the first.
const CHAINS: [(u32, bool, bool, &str); 7] = [
    (256, false, false, "ok"),
    (257, false, false, "line 258: limit"),
    (17, true, false, "ok"),
    (18, true, false, "line 2: depth"),
    (9000, true, false, "line 2: depth"),
    (9000, true, true, "line 2: loop"),
    (15000, false, false, "line 258: limit"),
];

const VMAPS: [(u32, &str); 2] = [(16384, "ok"), (16385, "line 16386: limit")];

// A text of so many lines between two others, and what is answered for it.
struct Lines {
    before: &'static str,
    line: &'static str,
    count: u32,
    behind: &'static str,
    wanted: &'static str,
}

const RULES: &str = "table t { chain c { type filter hook input priority 0\n";

const ELEMENTS: &str = "table t { set s { type inet_service; elements = {\n";

const LINES: [Lines; 11] = [
    Lines {
        before: RULES,
        line: "drop\n",
        count: 4096,
        behind: "} }",
        wanted: "ok",
    },
    Lines {
        before: RULES,
        line: "drop\n",
        count: 4097,
        behind: "} }",
        wanted: "line 4098: limit",
    },
    Lines {
        before: RULES,
        line: "goto d\n",
        count: 4096,
        behind: "} chain d { } }",
        wanted: "ok",
    },
    Lines {
        before: ELEMENTS,
        line: "1,\n",
        count: 16384,
        behind: "} } }",
        wanted: "ok",
    },
    Lines {
        before: ELEMENTS,
        line: "1,\n",
        count: 16385,
        behind: "} } }",
        wanted: "line 16386: limit",
    },
    Lines {
        before: ELEMENTS,
        line: "1,\n",
        count: 16384,
        behind: "}\n} chain c {\ntcp sport 5 accept\n} }",
        wanted: "line 16388: limit",
    },
    Lines {
        before: "table t { chain c {\ntcp sport 5 accept\n}\nset s { type inet_service; elements = {\n",
        line: "1,\n",
        count: 16384,
        behind: "} } }",
        wanted: "line 16388: limit",
    },
    Lines {
        before: "table t { chain c { ct state {\n",
        line: "new,\n",
        count: 16385,
        behind: "} drop; } }",
        wanted: "line 16386: limit",
    },
    Lines {
        before: "table t { chain c { tcp dport vmap {\n",
        line: "5:drop,\n",
        count: 16384,
        behind: "} } }",
        wanted: "line 3: overlap",
    },
    Lines {
        before: "",
        line: "\n",
        count: 262_144,
        behind: "",
        wanted: "ok",
    },
    Lines {
        before: "",
        line: "\n",
        count: 262_145,
        behind: "",
        wanted: "line 1: too-long",
    },
];

fn is_said(alloc: Global, text: &str, wanted: &str) -> Result<bool, AllocError> {
    let bounds = bounds(alloc)?;
    let answer = said(alloc, &bounds, text)?;
    Ok(answer.as_str() == wanted)
}

fn is_said_of_lines(alloc: Global, row: &Lines) -> Result<bool, AllocError> {
    let text = repeated(alloc, row.before, row.line, row.count, row.behind)?;
    is_said(alloc, text.as_str(), row.wanted)
}

fn is_said_of_chains(alloc: Global, row: &(u32, bool, bool, &str)) -> Result<bool, AllocError> {
    let (count, leading, ring, wanted) = row;
    let text = row_of_chains(alloc, *count, *leading, *ring)?;
    is_said(alloc, text.as_str(), *wanted)
}

fn is_said_of_vmap(alloc: Global, count: u32, wanted: &str) -> Result<bool, AllocError> {
    let text = vmap_of(alloc, count)?;
    is_said(alloc, text.as_str(), wanted)
}

fn check_chains(rt: &impl Abort, alloc: Global) -> Result<(), AllocError> {
    for row in &CHAINS {
        assert!(rt; is_said_of_chains(alloc, row)?, "{} chains", row.0);
    }
    Ok(())
}

fn check_lines(rt: &impl Abort, alloc: Global) -> Result<(), AllocError> {
    for row in &LINES {
        assert!(rt;
            is_said_of_lines(alloc, row)?,
            "{} times {}",
            row.count,
            row.line
        );
    }
    Ok(())
}

fn check_vmaps(rt: &impl Abort, alloc: Global) -> Result<(), AllocError> {
    for (count, wanted) in VMAPS {
        assert!(rt; is_said_of_vmap(alloc, count, wanted)?, "{count} pairs");
    }
    Ok(())
}

#[test]
fn at_the_limits(rt: HostRuntime) -> Result<(), AllocError> {
    check_chains(&rt, rt.alloc())?;
    check_lines(&rt, rt.alloc())?;
    check_vmaps(&rt, rt.alloc())
}
