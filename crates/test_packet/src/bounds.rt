//! Configurations, the routes between their interfaces, and counted steps.
use crate::shared::{EXTERNAL, HOST, SERVER, endpoint};
use packet::{
    Bounds, ConfigFault, Filtering, Flags, Iface, Prefix, Proto, Route, RouteFault, Steps, View,
};
use std::alloc::Global;
use std::process::Abort;
use std::test::*;

// Bounds with so many inside prefixes, which are all the same.
fn bounds(
    alloc: Global,
    names: (&str, &str),
    prefix: Prefix,
    count: usize,
    external: &[u32],
) -> Result<Result<Bounds, ConfigFault>, Fail> {
    let lan = String::from_str(alloc, names.0)?;
    let wan = String::from_str(alloc, names.1)?;
    let inside = vec![in alloc; prefix; count]?;
    let external = Vec::from_slice(alloc, external)?;
    Ok(Bounds::new(lan, wan, inside, external, Filtering::Address))
}

// Why these bounds aren't taken, if they aren't.
fn fault_of(
    alloc: Global,
    names: (&str, &str),
    prefix: Prefix,
    count: usize,
    external: &[u32],
) -> Result<Option<ConfigFault>, Fail> {
    Ok(bounds(alloc, names, prefix, count, external)?.err())
}

const BOTH: (&str, &str) = ("lan", "wan");

const SECOND: u32 = 0xcb007102;

const INSIDE: Prefix = Prefix {
    addr: 0xc0a80000,
    len: 16,
};

const HOST_BITS: Prefix = Prefix {
    addr: 0xc0a80100,
    len: 16,
};

const TOO_LONG: Prefix = Prefix { addr: 0, len: 33 };

// Two names, and the number of inside prefixes.
const BAD_NAMES: [(&str, &str, &str, usize, ConfigFault); 4] = [
    ("empty name", "", "wan", 0, ConfigFault::BadName),
    (
        "16 bytes",
        "lan",
        "0123456789abcdef",
        1,
        ConfigFault::BadName,
    ),
    ("a space", "lan", "w an", 1, ConfigFault::BadName),
    ("equal names", "lan", "lan", 0, ConfigFault::EqualNames),
];

fn names_are_refused(rt: &impl Abort, alloc: Global) -> Result<(), Fail> {
    for (case, lan, wan, count, expected) in &BAD_NAMES {
        let found = fault_of(alloc, (*lan, *wan), INSIDE, *count, &[])?;
        assert_eq!(rt; found, Some(*expected), "at {case}");
    }
    Ok(())
}

// One address more than a configuration may have. But for the fourth none is near another one.
const FIVE: [u32; 5] = [EXTERNAL, SECOND, 0xc6336401, 0, 0xffffffff];

// An inside prefix, how many of it there are, and the external addresses. Those of a row are at fault for a later row
// too.
const BAD_ADDRESSES: [(&str, Prefix, usize, &[u32], ConfigFault); 9] = [
    ("no prefix", INSIDE, 0, &[], ConfigFault::PrefixCount),
    ("17 prefixes", INSIDE, 17, &FIVE, ConfigFault::PrefixCount),
    ("host bits", HOST_BITS, 1, &[], ConfigFault::BadPrefix),
    ("33 bits", TOO_LONG, 1, &[HOST], ConfigFault::BadPrefix),
    ("no address", INSIDE, 1, &[], ConfigFault::ExternalCount),
    ("five", INSIDE, 1, &[HOST; 5], ConfigFault::ExternalCount),
    (
        "twice",
        INSIDE,
        1,
        &[HOST, EXTERNAL, HOST],
        ConfigFault::ExternalTwice,
    ),
    ("inside", INSIDE, 1, &[HOST], ConfigFault::ExternalInside),
    (
        "last inside",
        INSIDE,
        1,
        &[1, 2, 3, HOST],
        ConfigFault::ExternalInside,
    ),
];

fn addresses_are_refused(rt: &impl Abort, alloc: Global) -> Result<(), Fail> {
    for (case, prefix, count, external, expected) in &BAD_ADDRESSES {
        let found = fault_of(alloc, BOTH, *prefix, *count, external)?;
        assert_eq!(rt; found, Some(*expected), "at {case}");
    }
    Ok(())
}

#[test]
fn configurations_are_refused(rt: HostRuntime) -> Result<(), Fail> {
    names_are_refused(&rt, rt.alloc())?;
    addresses_are_refused(&rt, rt.alloc())
}

#[test]
fn sixteen_prefixes_are_taken(rt: HostRuntime) -> Result<(), Fail> {
    assert_eq!(rt; fault_of(rt.alloc(), BOTH, INSIDE, 16, &[EXTERNAL])?, None);
    Ok(())
}

#[test]
fn four_addresses_are_taken(rt: HostRuntime) -> Result<(), Fail> {
    let [first, second, third, fourth, _] = FIVE;
    let pool = [first, second, third, fourth];
    assert_eq!(rt; fault_of(rt.alloc(), BOTH, INSIDE, 1, &pool)?, None);
    Ok(())
}

fn boxed(alloc: Global) -> Result<Box<Bounds>, Fail> {
    let names = ("en-0.a_B", "0123456789abcde");
    match bounds(alloc, names, INSIDE, 1, &[EXTERNAL, SECOND])? {
        Ok(bounds) => Ok(Box::new(alloc, bounds)?),
        Err(_) => Err("refused".into()),
    }
}

fn has_names(bounds: &Bounds, lan: &[u8], wan: &[u8]) -> bool {
    bounds.lan() == lan && bounds.wan() == wan
}

fn has_addresses(bounds: &Bounds, inside: &[Prefix], external: &[u32]) -> bool {
    bounds.inside() == inside && bounds.external() == external
}

#[test]
fn configurations_are_shown(rt: HostRuntime) -> Result<(), Fail> {
    let bounds = boxed(rt.alloc())?;
    bounds.facts();
    assert!(rt; has_names(&bounds, b"en-0.a_B", b"0123456789abcde"));
    assert!(rt; has_addresses(&bounds, &[INSIDE], &[EXTERNAL, SECOND]));
    assert_eq!(rt; bounds.filtering(), Filtering::Address);
    Ok(())
}

#[test]
fn addresses_are_placed(rt: HostRuntime) -> Result<(), Fail> {
    let bounds = boxed(rt.alloc())?;
    assert!(rt; bounds.is_inside(0xc0a8ffff) && !bounds.is_inside(0xc0a90000));
    assert!(rt; bounds.is_external(EXTERNAL) && bounds.is_external(SECOND));
    assert!(rt; !bounds.is_external(HOST) && !bounds.is_external(SECOND + 1));
    Ok(())
}

// Where a packet is put through that comes from this interface, or why it isn't.
fn route_of(
    bounds: &Bounds,
    from: Iface,
    src: u32,
    dst: u32,
    ttl: u8,
) -> Result<Route, RouteFault> {
    let view = View {
        src: endpoint(src, 5000),
        dst: endpoint(dst, 53),
        proto: Proto::Udp,
        ttl,
        flags: Flags::none(),
    };
    bounds.route(from, &view)
}

const ROUTES: [(&str, Iface, u32, u32, u8, Result<Route, RouteFault>); 14] = [
    ("out", Iface::Lan, HOST, SERVER, 2, Ok(Route::Out)),
    ("in", Iface::Wan, SERVER, EXTERNAL, 2, Ok(Route::In)),
    (
        "in, untranslated",
        Iface::Wan,
        SERVER,
        HOST,
        2,
        Ok(Route::In),
    ),
    ("hairpin", Iface::Lan, HOST, EXTERNAL, 2, Ok(Route::Hairpin)),
    ("in, second", Iface::Wan, SERVER, SECOND, 2, Ok(Route::In)),
    (
        "hairpin, second",
        Iface::Lan,
        HOST,
        SECOND,
        2,
        Ok(Route::Hairpin),
    ),
    (
        "behind the pool",
        Iface::Wan,
        SERVER,
        SECOND + 1,
        2,
        Err(RouteFault::NoRoute),
    ),
    (
        "last hop",
        Iface::Lan,
        SERVER,
        HOST,
        1,
        Err(RouteFault::Ttl),
    ),
    (
        "foreign source",
        Iface::Lan,
        SERVER,
        HOST,
        2,
        Err(RouteFault::Spoofed),
    ),
    (
        "inside source",
        Iface::Wan,
        HOST,
        SERVER,
        2,
        Err(RouteFault::Spoofed),
    ),
    (
        "own source",
        Iface::Wan,
        EXTERNAL,
        SERVER,
        2,
        Err(RouteFault::Spoofed),
    ),
    (
        "own second source",
        Iface::Wan,
        SECOND,
        SERVER,
        2,
        Err(RouteFault::Spoofed),
    ),
    (
        "lan to lan",
        Iface::Lan,
        HOST,
        HOST,
        2,
        Err(RouteFault::NoRoute),
    ),
    (
        "wan to wan",
        Iface::Wan,
        SERVER,
        SERVER,
        2,
        Err(RouteFault::NoRoute),
    ),
];

#[test]
fn packets_are_routed(rt: HostRuntime) -> Result<(), Fail> {
    let bounds = boxed(rt.alloc())?;
    for (case, from, src, dst, ttl, expected) in &ROUTES {
        let found = route_of(&bounds, *from, *src, *dst, *ttl);
        assert_eq!(rt; found, *expected, "at {case}");
    }
    Ok(())
}

#[test]
fn route_faults_are_numbered(rt: HostRuntime) {
    assert_eq!(rt;
        (RouteFault::Ttl.number(), RouteFault::NoRoute.number()),
        (10, 12)
    );
}

#[test]
fn steps_are_counted(rt: HostRuntime) {
    let mut steps = Steps::none();
    let before = steps;
    steps.tick();
    steps.tick();
    assert_eq!(rt; (before.count(), steps.count()), (0, 2));
    assert!(rt; before != steps);
}
