use packet::Prefix;
use sets::{Element, Pair, Range, Set, SetFault, Value, Vmap};
use std::alloc::{AllocError, AllocFailed, Global};
use std::process::Abort;
use std::test::*;

/// Why a test ends early.
#[derive(Debug, Drop)]
enum Fail {
    Memory,
    Refused(SetFault),
}

impl From<AllocError> for Fail {
    fn from(_: AllocError) -> Fail {
        Fail::Memory
    }
}

impl<T: Drop> From<AllocFailed<T>> for Fail {
    fn from(_: AllocFailed<T>) -> Fail {
        Fail::Memory
    }
}

impl From<SetFault> for Fail {
    fn from(fault: SetFault) -> Fail {
        Fail::Refused(fault)
    }
}

// The numbers between two, the lower of which comes first.
fn numbers(first: u32, last: u32) -> Element {
    Element::Numbers(Range::new(first.min(last), last))
}

fn name(alloc: Global, bytes: &[u8]) -> Result<Element, AllocError> {
    Ok(Element::Name(Vec::from_slice(alloc, bytes)?))
}

fn names(alloc: Global, names: &[&[u8]]) -> Result<Box<Set>, Fail> {
    let mut elements = Vec::new(alloc);
    for bytes in names {
        elements.push(name(alloc, *bytes)?)?;
    }
    Ok(Box::new(alloc, Set::union_of(elements)?)?)
}

fn pair(key: Element, verdict: u8) -> Pair<u8> {
    Pair { key, verdict }
}

fn set_of(alloc: Global, ranges: &[(u32, u32)]) -> Result<Box<Set>, Fail> {
    let mut elements = Vec::new(alloc);
    for (first, last) in ranges {
        elements.push(numbers(*first, *last))?;
    }
    Ok(Box::new(alloc, Set::union_of(elements)?)?)
}

fn has_port(set: &Set, port: u32) -> bool {
    set.contains(Value::Number(port))
}

fn has_name(set: &Set, name: &[u8]) -> bool {
    set.contains(Value::Name(name))
}

// Whether the set has the port, and how many intervals are compared with for it.
fn probed(set: &Set, port: u32) -> (bool, u32) {
    let (found, steps) = set.contains_counted(Value::Number(port));
    (found, steps.count())
}

fn vmap_of(alloc: Global, keys: &[(u32, u32, u8)]) -> Result<Box<Vmap<u8>>, Fail> {
    let mut pairs = Vec::new(alloc);
    for (first, last, verdict) in keys {
        pairs.push(pair(numbers(*first, *last), *verdict))?;
    }
    Ok(Box::new(alloc, Vmap::of(pairs)?)?)
}

fn verdict(vmap: &Vmap<u8>, port: u32) -> Option<u8> {
    vmap.look_up(Value::Number(port)).copied()
}

fn assert_has_port(rt: &impl Abort, set: &Set, port: u32, wanted: bool) {
    assert_eq!(rt; has_port(set, port), wanted, "port {port}");
}

const UNION: [(u32, u32); 4] = [(1, 10), (5, 20), (21, 21), (30, 30)];

// A port, and whether the union has it.
const HELD: [(u32, bool); 7] = [
    (0, false),
    (1, true),
    (10, true),
    (21, true),
    (22, false),
    (30, true),
    (31, false),
];

#[test]
fn ports_of_a_union(rt: HostRuntime) -> Result<(), Fail> {
    let set = set_of(rt.alloc(), &UNION)?;
    for (port, wanted) in HELD {
        assert_has_port(&rt, &set, port, wanted);
    }
    assert!(rt; !has_name(&set, b"lan"));
    Ok(())
}

#[test]
fn intervals_of_a_union(rt: HostRuntime) -> Result<(), Fail> {
    let set = set_of(rt.alloc(), &UNION)?;
    let wanted = [numbers(1, 21), numbers(30, 30)];
    assert!(rt; set.intervals() == wanted.as_slice());
    Ok(())
}

fn assert_probed(rt: &impl Abort, set: &Set, port: u32, wanted: (bool, u32)) {
    assert_eq!(rt; probed(set, port), wanted, "port {port}");
}

// Three intervals: the middle one is compared with first.
#[test]
fn probes_of_three(rt: HostRuntime) -> Result<(), Fail> {
    let set = set_of(rt.alloc(), &[(22, 30), (1, 10), (12, 20)])?;
    for (port, wanted, probes) in [(15, true, 1), (5, true, 2), (25, true, 2), (11, false, 2)] {
        assert_probed(&rt, &set, port, (wanted, probes));
    }
    Ok(())
}

#[test]
fn names_by_bytes(rt: HostRuntime) -> Result<(), Fail> {
    let set = names(rt.alloc(), &[b"lan", b"wan0"])?;
    let rows: [(&[u8], bool); 3] = [(b"wan0", true), (b"wan", false), (b"LAN", false)];
    for (name, wanted) in rows {
        assert_eq!(rt; has_name(&set, name), wanted);
    }
    Ok(())
}

// 192.168.1.77/24, whose host bits count as zero; every address; and one address.
#[test]
fn prefixes(rt: HostRuntime) {
    let addr = 0xc0a8_014d;
    let rows = [
        (24, 0xc0a8_0100, 0xc0a8_01ff),
        (0, 0, 0xffff_ffff),
        (32, addr, addr),
    ];
    for (len, low, high) in rows {
        let range = Range::of_prefix(Prefix { addr, len });
        assert_eq!(rt; (range.low, range.high), (low, high));
    }
}

#[test]
fn last_of_a_prefix(rt: HostRuntime) {
    let addr = 0xc0a8_014d;
    let net = Range::of_prefix(Prefix { addr, len: 24 });
    assert!(rt; Element::Numbers(net).holds(Value::Number(0xc0a8_01ff)));
    let one = Range::of_prefix(Prefix { addr, len: 32 });
    assert_eq!(rt; one, Range::one(addr));
}

fn assert_verdict(rt: &impl Abort, vmap: &Vmap<u8>, port: u32, wanted: Option<u8>) {
    assert_eq!(rt; verdict(vmap, port), wanted, "port {port}");
}

const KEYS: [(u32, u32, u8); 3] = [(22, 22, 1), (80, 443, 2), (1, 21, 3)];

// A port, and the verdict of the key that has it.
const VERDICTS: [(u32, Option<u8>); 6] = [
    (22, Some(1)),
    (80, Some(2)),
    (443, Some(2)),
    (1, Some(3)),
    (23, None),
    (444, None),
];

#[test]
fn verdict_of_a_key(rt: HostRuntime) -> Result<(), Fail> {
    let vmap = vmap_of(rt.alloc(), &KEYS)?;
    for (port, wanted) in VERDICTS {
        assert_verdict(&rt, &vmap, port, wanted);
    }
    Ok(())
}

#[test]
fn probes_of_a_key(rt: HostRuntime) -> Result<(), Fail> {
    let vmap = vmap_of(rt.alloc(), &KEYS)?;
    let (found, probes) = vmap.look_up_counted(Value::Number(22));
    assert_eq!(rt; (found.copied(), probes.count()), (Some(1), 1));
    Ok(())
}

fn is_overlap<T: Drop>(made: Result<T, Fail>) -> bool {
    matches!(made, Err(Fail::Refused(SetFault::Overlap)))
}

#[test]
fn keys_that_share_a_value(rt: HostRuntime) -> Result<(), Fail> {
    for keys in [[(1, 10, 1), (5, 5, 2)], [(10, 20, 1), (1, 10, 2)]] {
        assert!(rt; is_overlap(vmap_of(rt.alloc(), &keys)));
    }
    let _adjoining = vmap_of(rt.alloc(), &[(11, 20, 1), (1, 10, 2)])?;
    Ok(())
}

fn named(alloc: Global, bytes: &[u8], verdict: u8) -> Result<Pair<u8>, AllocError> {
    Ok(pair(name(alloc, bytes)?, verdict))
}

#[test]
fn a_name_twice(rt: HostRuntime) -> Result<(), Fail> {
    let mut pairs = Vec::new(rt.alloc());
    pairs.push(named(rt.alloc(), b"lan", 1)?)?;
    pairs.push(pair(numbers(1, 10), 2))?;
    pairs.push(named(rt.alloc(), b"lan", 3)?)?;
    assert_eq!(rt; Vmap::of(pairs).err(), Some(SetFault::Overlap));
    Ok(())
}

// Why so many elements aren't taken, each a number of its own.
fn fault_of_set(alloc: Global, count: u32) -> Result<Option<SetFault>, AllocError> {
    let mut elements = Vec::new(alloc);
    for number in 0..count {
        elements.push(numbers(number, number))?;
    }
    Ok(Set::union_of(elements).err())
}

fn fault_of_vmap(alloc: Global, count: u32) -> Result<Option<SetFault>, AllocError> {
    let mut pairs = Vec::new(alloc);
    for number in 0..count {
        pairs.push(pair(numbers(number, number), 7))?;
    }
    Ok(Vmap::of(pairs).err())
}

fn assert_at_the_limit(
    rt: &impl Abort,
    alloc: Global,
    count: u32,
    fault: Option<SetFault>,
) -> Result<(), AllocError> {
    assert_eq!(rt; fault_of_set(alloc, count)?, fault);
    assert_eq!(rt; fault_of_vmap(alloc, count)?, fault);
    Ok(())
}

#[test]
fn at_the_limit(rt: HostRuntime) -> Result<(), Fail> {
    for (count, fault) in [(16_384, None), (16_385, Some(SetFault::Limit))] {
        assert_at_the_limit(&rt, rt.alloc(), count, fault)?;
    }
    Ok(())
}

fn is_told(alloc: Global, fault: SetFault, text: &str) -> Result<bool, AllocError> {
    let found = format!(in alloc; "{fault}")?;
    Ok(found.as_str() == text)
}

#[test]
fn fault_texts(rt: HostRuntime) -> Result<(), Fail> {
    let rows = [
        (SetFault::Overlap, "two keys of a verdict map share a value"),
        (SetFault::Limit, "more than 16,384 elements"),
        (SetFault::NoMemory, "out of memory"),
    ];
    for (fault, text) in rows {
        assert!(rt; is_told(rt.alloc(), fault, text)?, "{text}");
    }
    Ok(())
}
