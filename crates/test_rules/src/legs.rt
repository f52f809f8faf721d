//! Mappings and numbers, and each leg once. What packets come to is tested over the byte stream.
ghost use Rattle.std.specs.Prelude.{◌≡◌, [], ◌∷◌, IfSome};
ghost use Rattle.mappings.specs.declared.map.Mapping.{Mapping};
ghost use Rattle.mappings.specs.Map.{times};
ghost use Rattle.sessions.specs.Listing.{listing};
ghost use Rattle.hairpin.specs.KeepBounds.{KeepBounds};
ghost use Rattle.sessions.specs.Sound.{AreSound};
ghost use Rattle.hairpin.specs.Tallies.{tally};

use hairpin::{Cause, Plan, Translations, hairpin_leg, in_leg, out_leg};
use packet::{Bounds, Endpoint, Fault, Filtering, Flags, Iface, Prefix, Proto, RouteFault, View};
use sessions::{Change, Opener, Session, Table};
use std::alloc::{AllocError, Global};
use std::process::Abort;
use std::test::*;
use verdict::Rules;

const FIRST: u32 = 0xcb00_7101;

const SECOND: u32 = 0xcb00_7102;

const HOST: Endpoint = Endpoint {
    addr: 0xc0a8_0102,
    port: 5000,
};

const NEIGHBOUR: Endpoint = Endpoint {
    addr: 0xc0a8_0103,
    port: 5000,
};

const REMOTE: Endpoint = Endpoint {
    addr: 0xc633_6407,
    port: 53,
};

const OUTSIDE: Endpoint = Endpoint {
    addr: FIRST,
    port: 5000,
};

// The next of its parity, and the same port of the other address.
const NEXT: Endpoint = Endpoint {
    addr: FIRST,
    port: 5002,
};

const OTHER: Endpoint = Endpoint {
    addr: SECOND,
    port: 5000,
};

const SESSION: Session = Session {
    proto: Proto::Udp,
    inside: HOST,
    outside: OUTSIDE,
    remote: REMOTE,
    opener: Opener::Inside,
    seen: 0,
    last: 0,
};

// The endpoint for a host that masquerades its port 5000.
fn assert_chooses(
    rt: &impl Abort,
    translations: &Translations,
    proto: Proto,
    addr: u32,
    expected: Endpoint,
) {
    let inside = Endpoint { addr, port: 5000 };
    assert_eq!(rt; translations.choose_for(proto, inside), Some(expected));
}

// The endpoint for a host that sends from its port 5000 to an endpoint at the second address.
fn assert_near(rt: &impl Abort, translations: &Translations, addr: u32, expected: Endpoint)
    requires { translations.now.external ≡ 3405803777 ∷ 3405803778 ∷ [] }
{
    let inside = Endpoint { addr, port: 5000 };
    let chosen = translations.choose_near(Proto::Udp, inside, SECOND);
    assert_eq!(rt; chosen, Some(expected));
}

// What stands for this inside endpoint by UDP.
fn assert_outside(
    rt: &impl Abort,
    translations: &Translations,
    inside: Endpoint,
    expected: Option<Endpoint>,
) {
    assert_eq!(rt; translations.outside_of(Proto::Udp, inside), expected);
}

// What the outside endpoint stands for.
fn assert_inside(
    rt: &impl Abort,
    translations: &Translations,
    proto: Proto,
    expected: Option<Endpoint>,
) {
    assert_eq!(rt; translations.inside_of(proto, OUTSIDE), expected);
}

// Where nothing is held yet.
fn comes_and_goes(rt: &impl Abort, translations: &mut Translations) -> Result<(), AllocError>
    requires none { (p : Mapping) → times translations.old.mappings p ≡ 0 }
    requires external { translations.old.external ≡ 3405803777 ∷ 3405803778 ∷ [] }
{
    translations.reserve()?;
    assert_free(rt, translations);
    translations.hold(&SESSION);
    assert_mapped(rt, translations);
    translations.release(&SESSION);
    assert_free(rt, translations);
    Ok(())
}

// No mapping is held.
fn assert_free(rt: &impl Abort, translations: &Translations)
    requires { translations.now.external ≡ 3405803777 ∷ 3405803778 ∷ [] }
{
    assert_outside(rt, translations, HOST, None);
    assert_inside(rt, translations, Proto::Udp, None);
    assert_chooses(rt, translations, Proto::Udp, HOST.addr, OUTSIDE);
    assert_near(rt, translations, HOST.addr, OTHER);
}

// The host has its mapping at the first address by UDP, and keeps that address.
fn assert_mapped(rt: &impl Abort, translations: &Translations)
    requires { translations.now.external ≡ 3405803777 ∷ 3405803778 ∷ [] }
{
    assert_outside(rt, translations, HOST, Some(OUTSIDE));
    assert_inside(rt, translations, Proto::Udp, Some(HOST));
    assert_outside(rt, translations, NEIGHBOUR, None);
    assert_inside(rt, translations, Proto::Tcp, None);
    assert_chooses(rt, translations, Proto::Udp, NEIGHBOUR.addr, NEXT);
    assert_chooses(rt, translations, Proto::Tcp, HOST.addr, OUTSIDE);
    assert_near(rt, translations, HOST.addr, NEXT);
    assert_near(rt, translations, NEIGHBOUR.addr, OTHER);
}

#[test]
fn a_mapping_comes_and_goes(rt: HostRuntime) -> Result<(), AllocError> {
    let mut translations = Translations::new(rt.alloc(), &[FIRST, SECOND])?;
    let gone = comes_and_goes(&rt, &mut translations);
    drop(translations);
    gone
}

const CAUSES: [Cause; 20] = [
    Cause::Packet(Fault::Short),
    Cause::Packet(Fault::Version),
    Cause::Packet(Fault::HeaderLength),
    Cause::Packet(Fault::Length),
    Cause::Packet(Fault::HeaderSum),
    Cause::Packet(Fault::Fragment),
    Cause::Packet(Fault::Protocol),
    Cause::Packet(Fault::Transport),
    Cause::Packet(Fault::PortZero),
    Cause::Route(RouteFault::Ttl),
    Cause::Route(RouteFault::Spoofed),
    Cause::Route(RouteFault::NoRoute),
    Cause::NoMapping,
    Cause::Filtered,
    Cause::NoSession,
    Cause::Rule,
    Cause::Clash,
    Cause::SelfMapped,
    Cause::NoPort,
    Cause::TableFull,
];

#[test]
fn causes_are_numbered(rt: HostRuntime) {
    for (number, cause) in CAUSES.iter().enumerate() {
        assert_eq!(rt; cause.number() as usize, number + 1);
    }
}

// Before any session begins and any rules load; 192.168.0.0/16 is inside, and there are two external addresses.
#[derive(Drop)]
struct Empty {
    bounds: Bounds,
    rules: Rules,
    table: Table,
    translations: Translations,
}

fn bounds(alloc: Global) -> Option<Bounds> {
    let prefix = Prefix {
        addr: 0xc0a8_0000,
        len: 16,
    };
    let lan = String::from_str(alloc, "lan").ok()?;
    let wan = String::from_str(alloc, "wan").ok()?;
    let inside = Vec::from_slice(alloc, &[prefix]).ok()?;
    let external = Vec::from_slice(alloc, &[FIRST, SECOND]).ok()?;
    Bounds::new(lan, wan, inside, external, Filtering::Address).ok()
}

// The two parts that agree on the external addresses.
fn addressed(alloc: Global) -> Option<(Bounds, Translations)>
    ensures external { IfSome result (λ p. p.1.external ≡ p.0.external) }
    ensures none { IfSome result (λ p. (m : Mapping) → times p.1.mappings m ≡ 0) }
{
    let bounds = bounds(alloc)?;
    match Translations::new(alloc, bounds.external()) {
        Ok(translations) => Some((bounds, translations)),
        Err(_) => {
            drop(bounds);
            None
        }
    }
}

#[tactic(auto, using(hairpin::proofs::Beginning::counts_none, hairpin::proofs::Beginning::bounds_none))]
fn start(alloc: Global) -> Option<Empty>
    ensures external { IfSome result (λ s. s.translations.external ≡ s.bounds.external) }
    ensures counts { IfSome result (λ s. (p : Mapping)
        → times s.translations.mappings p ≡ tally p s.table.held) }
    ensures sound { IfSome result (λ s. AreSound s.bounds (listing s.table.held)) }
    ensures bounded { IfSome result (λ s. KeepBounds s.bounds s.rules) }
{
    let (bounds, translations) = addressed(alloc)?;
    Some(Empty {
        bounds,
        rules: Rules::none(alloc),
        table: Table::new(alloc),
        translations,
    })
}

// A UDP packet.
fn packet(src: Endpoint, dst: Endpoint) -> View
    ensures src { result.src ≡ src }
    ensures dst { result.dst ≡ dst }
{
    View {
        src,
        dst,
        proto: Proto::Udp,
        ttl: 64,
        flags: Flags::none(),
    }
}

// Where a packet of the host to the remote endpoint goes.
fn way_out(alloc: Global) -> Option<Result<Plan, Cause>> {
    let empty = start(alloc)?;
    let Empty {
        bounds,
        rules,
        table,
        translations,
    } = &empty;
    let plan = if bounds.is_inside(HOST.addr) {
        let out = packet(HOST, REMOTE);
        Some(out_leg(bounds, rules, table, translations, &out, 1000))
    } else {
        None
    };
    drop(empty);
    plan
}

#[test]
fn out_once(rt: HostRuntime) {
    let session = Session {
        outside: HOST,
        last: 1000,
        ..SESSION
    };
    let untranslated = Plan {
        first: Change::Begin(session),
        second: None,
        src: HOST,
        dst: REMOTE,
        iface: Iface::Wan,
    };
    assert!(rt; way_out(rt.alloc()) == Some(Ok(untranslated)));
}

// Where a packet of the remote endpoint to this external address goes.
fn way_in(alloc: Global, addr: u32) -> Option<Result<Plan, Cause>> {
    let empty = start(alloc)?;
    let Empty {
        bounds,
        rules,
        table,
        translations,
    } = &empty;
    let back = packet(REMOTE, Endpoint { addr, port: 6000 });
    let plan = if bounds.is_external(addr) {
        Some(in_leg(bounds, rules, table, translations, &back, 1000))
    } else {
        None
    };
    drop(empty);
    plan
}

// Where a packet of the host to this external address goes.
fn way_round(alloc: Global, addr: u32) -> Option<Result<Plan, Cause>> {
    let empty = start(alloc)?;
    let Empty {
        bounds,
        rules,
        table,
        translations,
    } = &empty;
    let round = packet(HOST, Endpoint { addr, port: 6000 });
    let plan = if bounds.is_inside(HOST.addr) && bounds.is_external(addr) {
        Some(hairpin_leg(bounds, rules, table, translations, &round, 1000))
    } else {
        None
    };
    drop(empty);
    plan
}

// That there is no mapping is told before whom one would let in.
#[test]
fn in_and_round_once(rt: HostRuntime) {
    let no_mapping = Some(Err(Cause::NoMapping));
    for addr in &[FIRST, SECOND] {
        assert!(rt; way_in(rt.alloc(), *addr) == no_mapping);
        assert!(rt; way_round(rt.alloc(), *addr) == no_mapping);
    }
}
