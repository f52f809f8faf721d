//! What `check` finds of texts, and how it explains it.
use crate::shared::SIDES;
use checking::{bounds, check, report};
use refusals::Stop;
use std::alloc::Global;
use std::test::Fail;

const FINDINGS: [(&[u8], &[u8]); 14] = [
    (b"table ip6 t { }", b"line 1: family\n"),
    (
        b"table ip t { chain c { jump d; }; }",
        b"line 1: unknown-chain\n",
    ),
    (
        b"table ip t { chain c { ip saddr @s accept; }; }",
        b"line 1: unknown-set\n",
    ),
    (b"table ip t { }\ntable t { }\n", b"line 2: duplicate\n"),
    (
        b"table ip t { chain c { tcp dport 70000 accept; }; }",
        b"line 1: wrong-type\n",
    ),
    (
        b"table ip t { chain c { tcp dport vmap { 1-10 : accept, 5 : drop }; }; }",
        b"line 1: overlap\n",
    ),
    (
        b"table ip n { chain p { type nat hook postrouting priority 100; snat to 203.0.113.2; }; }",
        b"line 1: not-external\n",
    ),
    (
        b"table ip n { chain p { type nat hook prerouting priority -100; dnat to 10.0.0.1; }; }",
        b"line 1: not-inside\n",
    ),
    (
        b"table ip f { chain c { type filter hook forward priority 0; masquerade; }; }",
        b"line 1: wrong-type\n",
    ),
    (
        b"\ttable ip t {\n\tset s {\n\ttype ipv4_addr\n\tflags interval\n\telements = { 10.0.0.0/8,\n\t10.1.0.1 }\n\t}\n\tchain c {\n\ttype filter hook forward priority filter; policy drop;\n\tct state established,related accept\n\tip saddr @s accept\n\t}\n\t}\n",
        b"ok\n",
    ),
    (b"table ip t { chain c { jump c; }; }", b"line 1: loop\n"),
    (
        b"table ip t {\nchain c { tcp dport 22 reject; }; }\n",
        b"line 2: unsupported\n",
    ),
    (b"", b"ok\n"),
    (b"table ip t { chain c { goto c; }; }", b"line 1: loop\n"),
];

// Whether such a line is found of a text, and whether it says that it loads.
fn is_found(alloc: Global, text: &[u8], line: &[u8]) -> Result<bool, Stop> {
    let checked = report(alloc, text, &bounds(alloc, &SIDES)?, false)?;
    let is_line = checked.line.as_slice() == line;
    Ok(is_line && checked.loads == (line == b"ok\n".as_slice()))
}

#[test]
fn findings(rt: HostRuntime) -> Result<(), Fail> {
    for (text, line) in &FINDINGS {
        assert!(rt; is_found(rt.alloc(), *text, *line)?);
    }
    Ok(())
}

#[test]
fn a_finding_of_a_long_text(rt: HostRuntime) -> Result<(), Fail> {
    let long = vec![in rt.alloc(); b' '; 262_145]?;
    assert!(rt; is_found(rt.alloc(), long.as_slice(), b"line 1: too-long\n")?);
    Ok(())
}

// What stands on both streams then.
fn checked(alloc: Global, text: &[u8], explains: bool) -> Result<(Vec<u8>, Vec<u8>), Stop> {
    let bounds = bounds(alloc, &SIDES)?;
    let mut output = Vec::new(alloc);
    let mut errors = Vec::new(alloc);
    check(alloc, text, &bounds, explains, &mut output, &mut errors)?;
    Ok((output, errors))
}

// How many lines end there.
fn lines_of(bytes: &[u8]) -> usize {
    bytes.iter().filter(|byte| **byte == b'\n').count()
}

// Whether this line stands on standard output, and on standard error four lines that begin so; where that is empty,
// nothing.
fn is_told(
    alloc: Global,
    text: &[u8],
    explains: bool,
    line: &[u8],
    mark: &[u8],
) -> Result<bool, Stop> {
    let (output, errors) = checked(alloc, text, explains)?;
    let is_line = output.as_slice() == line;
    let lines = if mark.is_empty() { 0 } else { 4 };
    Ok(is_line && errors.as_slice().starts_with(mark) && lines_of(errors.as_slice()) == lines)
}

const LOOP: &[u8] = b"table ip t { chain c { jump c; }; }";

const MARKS: &[u8] =
    b"line 1: table ip t { chain c { jump c; }; }\n                               ^\n";

// A text, whether it is explained, the line on standard output, and how those on standard error begin.
const EXPLANATIONS: [(&[u8], bool, &[u8], &[u8]); 3] = [
    (LOOP, false, b"line 1: loop\n", b""),
    (LOOP, true, b"line 1: loop\n", MARKS),
    (b"", true, b"ok\n", b""),
];

#[test]
fn explanations(rt: HostRuntime) -> Result<(), Fail> {
    for (text, explains, line, mark) in &EXPLANATIONS {
        assert!(rt; is_told(rt.alloc(), *text, *explains, *line, *mark)?);
    }
    Ok(())
}
