ghost use Rattle.std.specs.Prelude.{◌≡◌, ◌+◌, ◌*◌, ◌<◌, [], ◌∷◌, IfOk};
ghost use Rattle.std.specs.List.{Contains};

use packet::Proto;
use portpick::Ports;
use std::alloc::{AllocError, Global};
use std::process::Abort;
use std::test::*;

// 203.0.113.1 and 203.0.113.2
const FIRST: u32 = 0xcb00_7101;

const SECOND: u32 = 0xcb00_7102;

fn two_addresses(alloc: Global) -> Result<Box<Ports>, AllocError>
    ensures { IfOk result (λ ports. ports.value.external ≡ 3405803777 ∷ 3405803778 ∷ []) }
{
    let external = vec![in alloc; FIRST, SECOND]?;
    Ok(Box::new(alloc, Ports::new(alloc, external))?)
}

// Picks a port for a host that asks for `port`, and takes it. A refusal of memory must change nothing,
// and the port be there to be taken at the second try.
fn assign(
    rt: &impl Abort,
    ports: &mut Ports,
    proto: Proto,
    addr: u32,
    port: u16,
) -> Result<Option<u16>, AllocError>
    requires external { Contains ports.old.external addr }
    requires not_zero { 0 < port }
    ensures addresses { ports.new.external ≡ ports.old.external }
{
    let Some(chosen) = ports.pick(proto, addr, port) else {
        return Ok(None);
    };
    if ports.take(proto, addr, chosen).is_err() {
        assert!(rt; !ports.is_taken(proto, addr, chosen));
        ports.take(proto, addr, chosen)?;
    }
    Ok(Some(chosen))
}

// What a host gets at this address, which must be one of the two.
fn assert_gets(
    rt: &impl Abort,
    ports: &mut Ports,
    at: (Proto, u32),
    port: u16,
    expected: Option<u16>,
) -> Result<(), AllocError>
    requires external { Contains ports.old.external at.1 }
    requires not_zero { 0 < port }
    ensures addresses { ports.new.external ≡ ports.old.external }
{
    let chosen = assign(rt, ports, at.0, at.1, port)?;
    assert_eq!(rt; chosen, expected, "{port}");
    Ok(())
}

// What a host gets at the first address, or at the second one.
fn assert_gets_at(
    rt: &impl Abort,
    ports: &mut Ports,
    proto: Proto,
    is_second: bool,
    port: u16,
    expected: u16,
) -> Result<(), AllocError>
    requires external { ports.old.external ≡ 3405803777 ∷ 3405803778 ∷ [] }
    ensures addresses { ports.new.external ≡ ports.old.external }
{
    let port = port.max(1);
    if is_second {
        return assert_gets(rt, ports, (proto, SECOND), port, Some(expected));
    }
    assert_gets(rt, ports, (proto, FIRST), port, Some(expected))
}

// Frees the port, if it is taken.
fn give_back(ports: &mut Ports, port: u16)
    requires external { Contains ports.old.external 3405803777 }
    requires not_zero { 0 < port }
    ensures addresses { ports.new.external ≡ ports.old.external }
{
    if ports.is_taken(Proto::Udp, FIRST, port) {
        ports.free(Proto::Udp, FIRST, port);
    }
}

// Whether it is at the second address, the port that is asked for, and the one that is got.
const ASKED: [(Proto, bool, u16, u16); 8] = [
    (Proto::Udp, false, 65534, 65534),
    (Proto::Udp, false, 65534, 1024),
    (Proto::Udp, false, 1023, 1023),
    (Proto::Udp, false, 1023, 1),
    (Proto::Udp, false, 5000, 5000),
    (Proto::Udp, false, 5000, 5002),
    (Proto::Tcp, false, 5000, 5000),
    (Proto::Udp, true, 5000, 5000),
];

#[test]
fn second_host_gets_the_next_port(rt: HostRuntime) -> Result<(), AllocError> {
    let mut ports = two_addresses(rt.alloc())?;
    for row in ASKED {
        let (proto, is_second, port, expected) = row;
        assert_gets_at(&rt, &mut ports, proto, is_second, port, expected)?;
    }
    Ok(())
}

#[test]
fn all_odd_low_ports_taken(rt: HostRuntime) -> Result<(), AllocError> {
    let mut ports = two_addresses(rt.alloc())?;
    let at = (Proto::Udp, FIRST);
    for number in 0..512 {
        let odd = 2 * number + 1;
        assert_gets(&rt, &mut ports, at, odd, Some(odd))?;
    }
    assert_gets(&rt, &mut ports, at, 7, None)?;
    assert_gets(&rt, &mut ports, at, 8, Some(8))?;
    give_back(&mut ports, 9);
    assert_gets(&rt, &mut ports, at, 7, Some(9))
}

// A refusal of memory at the first try must not stand in the way of the second.
fn reserve(ports: &mut Ports) -> Result<(), AllocError>
    ensures addresses { ports.new.external ≡ ports.old.external }
{
    if ports.reserve().is_err() {
        ports.reserve()?;
    }
    Ok(())
}

#[test]
fn reserved_ports_are_taken(rt: HostRuntime) -> Result<(), AllocError> {
    let mut ports = two_addresses(rt.alloc())?;
    reserve(&mut ports)?;
    assert_gets(&rt, &mut ports, (Proto::Tcp, FIRST), 80, Some(80))?;
    assert_gets(&rt, &mut ports, (Proto::Tcp, SECOND), 65535, Some(65535))
}

// Takes `count` ports, two apart, but for one of them.
fn take_all_but(ports: &mut Ports, least: u16, count: u16, left: u16) -> Result<(), AllocError>
    requires external { Contains ports.old.external 3405803777 }
    requires not_zero { 0 < least }
    requires ports { least + 2 * count < 65538 }
    ensures addresses { ports.new.external ≡ ports.old.external }
{
    for n in 0..count {
        let port = least + 2 * n;
        if port != left && !ports.is_taken(Proto::Udp, FIRST, port) {
            ports.take(Proto::Udp, FIRST, port)?;
        }
    }
    Ok(())
}

// What a host gets that asks for `port` where all of these ports but one are taken, and how many words
// are looked at for it.
fn pick_the_last(
    alloc: Global,
    least: u16,
    count: u16,
    left: u16,
    port: u16,
) -> Result<(Option<u16>, u32), AllocError>
    requires not_zero { (0 < least) × (0 < port) }
    requires ports { least + 2 * count < 65538 }
{
    let mut ports = two_addresses(alloc)?;
    take_all_but(&mut ports, least, count, left)?;
    let (chosen, steps) = ports.pick_counted(Proto::Udp, FIRST, port);
    Ok((chosen, steps.count()))
}

// Each row: the port that is left of its kind, the one that is asked for, and the words that are looked at.
fn assert_picked(
    rt: &impl Abort,
    alloc: Global,
    least: u16,
    count: u16,
    rows: &[(u16, u16, u32)],
) -> Result<(), AllocError>
    requires not_zero { 0 < least }
    requires ports { least + 2 * count < 65538 }
{
    for (left, port, words) in rows {
        let found = pick_the_last(alloc, least, count, *left, (*port).max(1))?;
        assert_eq!(rt; found, (Some(*left), *words));
    }
    Ok(())
}

// The last one, the first one and one in the middle, from two ports above where that can be.
#[test]
fn one_low_port_is_left(rt: HostRuntime) -> Result<(), AllocError> {
    let odd = [(1023, 1, 8), (1, 3, 9), (513, 515, 9)];
    assert_picked(&rt, rt.alloc(), 1, 512, &odd)?;
    let even = [(1022, 2, 8), (2, 4, 9), (514, 516, 9)];
    assert_picked(&rt, rt.alloc(), 2, 511, &even)
}

#[test]
fn one_high_port_is_left(rt: HostRuntime) -> Result<(), AllocError> {
    let odd = [(65535, 1025, 504), (1025, 1027, 505), (33281, 33283, 505)];
    assert_picked(&rt, rt.alloc(), 1025, 32256, &odd)?;
    let even = [(65534, 1024, 504), (1024, 1026, 505), (33280, 33282, 505)];
    assert_picked(&rt, rt.alloc(), 1024, 32256, &even)
}
