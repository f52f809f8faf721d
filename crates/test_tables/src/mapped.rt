//! A mapping that is held twice, and is gone with its last hold; and whose host uses its outside address so long.
ghost use Rattle.std.specs.Prelude.{◌≡◌, ◌+◌, ◌<◌, IfOk};
ghost use Rattle.mappings.specs.declared.map.Mapping.{Mapping};
ghost use Rattle.mappings.specs.Map.{times, one_at, KeepsOneToOne};

use mappings::{Map, Mapping};
use packet::{Endpoint, Proto};
use std::alloc::AllocError;
use std::process::Abort;
use std::test::*;

const INSIDE: Endpoint = Endpoint {
    addr: 0xc0a8_0102,
    port: 5000,
};

const OUTSIDE: Endpoint = Endpoint {
    addr: 0xcb00_7101,
    port: 5002,
};

// Holds the mapping. A refusal of memory must change nothing, and the mapping be held at the second try.
fn hold(rt: &impl Abort, map: &mut Map, mapping: Mapping) -> Result<(), AllocError>
    requires one_to_one { KeepsOneToOne map.old mapping }
    requires few { times map.old mapping < 65536 }
    ensures { IfOk result (λ _. (p : Mapping)
        → times map.new p ≡ times map.old p + one_at p mapping) }
{
    let before = map.outside_of(mapping.proto, mapping.inside);
    if map.hold(mapping).is_err() {
        let after = map.outside_of(mapping.proto, mapping.inside);
        assert_eq!(rt; before, after);
        map.hold(mapping)?;
    }
    Ok(())
}

// What an inside endpoint leads to.
fn assert_outside(
    rt: &impl Abort,
    map: &Map,
    proto: Proto,
    inside: Endpoint,
    expected: Option<Endpoint>,
) {
    assert_eq!(rt; map.outside_of(proto, inside), expected);
}

// What an outside endpoint leads to.
fn assert_inside(
    rt: &impl Abort,
    map: &Map,
    proto: Proto,
    outside: Endpoint,
    expected: Option<Endpoint>,
) {
    assert_eq!(rt; map.inside_of(proto, outside), expected);
}

// The host uses the outside address while one of its mappings is held, and no other address.
fn assert_used(rt: &impl Abort, map: &Map, is_used: bool) {
    assert_eq!(rt; map.uses(INSIDE.addr, OUTSIDE.addr), is_used);
    assert!(rt; !map.uses(INSIDE.addr, OUTSIDE.addr + 1));
    assert!(rt; !map.uses(OUTSIDE.addr, INSIDE.addr));
}

// Each endpoint of UDP leads to the other while their mapping is held, and to none once it is gone.
fn assert_led(rt: &impl Abort, map: &Map, is_held: bool) {
    assert_used(rt, map, is_held);
    let (outside, inside) = if is_held {
        (Some(OUTSIDE), Some(INSIDE))
    } else {
        (None, None)
    };
    assert_outside(rt, map, Proto::Udp, INSIDE, outside);
    assert_inside(rt, map, Proto::Udp, OUTSIDE, inside);
}

// Neither endpoint leads anywhere by TCP, nor does the outside one where an inside one is asked for.
fn assert_led_by_udp_alone(rt: &impl Abort, map: &Map) {
    assert_outside(rt, map, Proto::Tcp, INSIDE, None);
    assert_inside(rt, map, Proto::Tcp, OUTSIDE, None);
    assert_outside(rt, map, Proto::Udp, OUTSIDE, None);
}

// Gives one hold back, if the mapping is held.
fn release(map: &mut Map, mapping: Mapping) {
    if map.outside_of(mapping.proto, mapping.inside) == Some(mapping.outside) {
        map.release(mapping);
    }
}

// On a map that holds nothing.
fn goes_with_its_last_hold(rt: &impl Abort, map: &mut Map) -> Result<(), AllocError>
    requires { (p : Mapping) → times map.old p ≡ 0 }
{
    let udp = Mapping {
        proto: Proto::Udp,
        inside: INSIDE,
        outside: OUTSIDE,
    };
    hold(rt, map, udp)?;
    map.facts();
    hold(rt, map, udp)?;
    assert_led(rt, map, true);
    assert_led_by_udp_alone(rt, map);
    release(map, udp);
    assert_led(rt, map, true);
    release(map, udp);
    assert_led(rt, map, false);
    Ok(())
}

#[test]
fn mapping_goes_with_its_last_hold(rt: HostRuntime) -> Result<(), AllocError> {
    let mut map = Map::new(rt.alloc());
    let gone = goes_with_its_last_hold(&rt, &mut map);
    drop(map);
    gone
}

#[test]
fn counted_mapping_goes_with_its_last_hold(rt: HostRuntime) -> Result<(), AllocError> {
    let mut map = Map::counting(rt.alloc());
    let gone = goes_with_its_last_hold(&rt, &mut map);
    drop(map);
    gone
}

// On a map that holds nothing.
fn assert_held_once_reserved(rt: &impl Abort, map: &mut Map) -> Result<(), AllocError>
    requires { (p : Mapping) → times map.old p ≡ 0 }
{
    if map.reserve().is_err() {
        map.reserve()?;
    }
    let tcp = Mapping {
        proto: Proto::Tcp,
        inside: INSIDE,
        outside: OUTSIDE,
    };
    hold(rt, map, tcp)?;
    assert_inside(rt, map, Proto::Tcp, OUTSIDE, Some(INSIDE));
    assert_used(rt, map, true);
    Ok(())
}

#[test]
fn reserved_mapping_is_held(rt: HostRuntime) -> Result<(), AllocError> {
    let mut map = Map::counting(rt.alloc());
    let held = assert_held_once_reserved(&rt, &mut map);
    drop(map);
    held
}
