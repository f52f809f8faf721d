use buckets::ByPort;
use std::alloc::{AllocError, Global};
use std::process::Abort;
use std::test::*;

fn empty(alloc: Global) -> Result<Box<ByPort>, AllocError> {
    Ok(Box::new(alloc, ByPort::new(alloc))?)
}

fn assert_has(rt: &impl Abort, map: &ByPort, key: u64, expected: Option<usize>) {
    assert_eq!(rt; map.get(key), expected);
}

fn assert_gives(rt: &impl Abort, map: &mut ByPort, key: u64, expected: Option<usize>) {
    assert_eq!(rt; map.remove(key), expected);
}

// Protocol number, address and port of an endpoint, one behind another.
fn key(proto: u8, addr: u32, port: u16) -> u64 {
    let front = u64::from(proto) * 0x1_0000_0000_0000 + u64::from(addr) * 0x1_0000;
    front + u64::from(port)
}

const EXTERNAL: u32 = 0xcb00_7101;

const ANOTHER: u32 = 0xcb00_7102;

const TCP: u8 = 6;

const UDP: u8 = 17;

// Endpoints that have places of their own; one whose place is taken by the first; a key that is no endpoint's; a value
// that is too great for a place; and the endpoint of the last place.
fn entries() -> [(u64, usize); 7] {
    [
        (key(UDP, EXTERNAL, 53), 1),
        (key(TCP, EXTERNAL, 53), 2),
        (key(TCP, EXTERNAL, 0), 3),
        (key(UDP, ANOTHER, 53), 4),
        (u64::MAX, 5),
        (key(UDP, EXTERNAL, 54), usize::MAX),
        (key(UDP, EXTERNAL, 65_535), 6),
    ]
}

// Puts an entry in. A refusal of memory must change nothing, and the entry go in at the second try.
fn put(rt: &impl Abort, map: &mut ByPort, key: u64, value: usize) -> Result<(), AllocError> {
    if map.get_or_insert(key, value).is_err() {
        assert_has(rt, map, key, None);
        map.get_or_insert(key, value)?;
    }
    Ok(())
}

fn put_entries(rt: &impl Abort, map: &mut ByPort) -> Result<(), AllocError> {
    for (key, value) in entries() {
        put(rt, map, key, value)?;
    }
    Ok(())
}

fn assert_have(rt: &impl Abort, map: &ByPort) {
    for (key, value) in entries() {
        assert_has(rt, map, key, Some(value));
    }
}

fn assert_have_up_to(rt: &impl Abort, map: &ByPort, ports: &[u16], most: u16) {
    for &port in ports {
        let expected = (port <= most).then_some(usize::from(port));
        assert_has(rt, map, key(TCP, EXTERNAL, port), expected);
    }
}

fn take_entries(rt: &impl Abort, map: &mut ByPort) {
    for (key, value) in entries() {
        assert_gives(rt, map, key, Some(value));
        assert_gives(rt, map, key, None);
    }
}

fn reserve(map: &mut ByPort) -> Result<(), AllocError> {
    if map.reserve().is_err() {
        map.reserve()?;
    }
    Ok(())
}

fn reserve_one(map: &mut ByPort) -> Result<(), AllocError> {
    if map.reserve_one().is_err() {
        map.reserve_one()?;
    }
    Ok(())
}

#[test]
fn endpoints_go_in_and_out(rt: HostRuntime) -> Result<(), AllocError> {
    let mut map = empty(rt.alloc())?;
    assert_has(&rt, &map, key(UDP, EXTERNAL, 53), None);
    reserve_one(&mut map)?;
    reserve(&mut map)?;
    put_entries(&rt, &mut map)?;
    assert_have(&rt, &map);
    take_entries(&rt, &mut map);
    Ok(())
}

// Entries that went in before there was memory for places stay where they were, and are found.
#[test]
fn endpoints_are_found_from_before_the_places(rt: HostRuntime) -> Result<(), AllocError> {
    let mut map = empty(rt.alloc())?;
    put_entries(&rt, &mut map)?;
    reserve(&mut map)?;
    assert_have(&rt, &map);
    take_entries(&rt, &mut map);
    Ok(())
}

// A greater port has more places made: what went in before is found, and goes out.
#[test]
fn endpoints_are_found_when_places_become_more(rt: HostRuntime) -> Result<(), AllocError> {
    let mut map = empty(rt.alloc())?;
    reserve(&mut map)?;
    let ports = [1_u16, 5_000, 20_000, 65_535];
    for port in ports {
        put(&rt, &mut map, key(TCP, EXTERNAL, port), usize::from(port))?;
        assert_have_up_to(&rt, &map, &ports, port);
    }
    put_entries(&rt, &mut map)?;
    assert_have_up_to(&rt, &map, &ports, 65_535);
    assert_have(&rt, &map);
    take_entries(&rt, &mut map);
    for port in ports {
        assert_gives(
            &rt,
            &mut map,
            key(TCP, EXTERNAL, port),
            Some(usize::from(port)),
        );
    }
    Ok(())
}

// Of two endpoints with one port the one that is left has no place: it stays found when the other is gone, and when
// that one comes back.
#[test]
fn endpoints_share_a_port(rt: HostRuntime) -> Result<(), AllocError> {
    let mut map = empty(rt.alloc())?;
    let (first, second) = (key(UDP, EXTERNAL, 53), key(UDP, ANOTHER, 53));
    reserve(&mut map)?;
    put(&rt, &mut map, first, 1)?;
    put(&rt, &mut map, second, 2)?;
    assert_gives(&rt, &mut map, first, Some(1));
    assert_has(&rt, &map, second, Some(2));
    put(&rt, &mut map, first, 3)?;
    assert_has(&rt, &map, first, Some(3));
    assert_gives(&rt, &mut map, second, Some(2));
    assert_gives(&rt, &mut map, first, Some(3));
    Ok(())
}

// An entry that is there stays where its key is sought with another value.
#[test]
fn endpoints_stay_where_they_are_sought(rt: HostRuntime) -> Result<(), AllocError> {
    let mut map = empty(rt.alloc())?;
    reserve(&mut map)?;
    put_entries(&rt, &mut map)?;
    for (key, value) in entries() {
        assert_eq!(&rt; map.get_or_insert(key, 9)?, Some(value));
    }
    assert_have(&rt, &map);
    Ok(())
}
