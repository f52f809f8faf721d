use packet::{Bounds, Endpoint, Filtering, Flags, Prefix, Proto};
use sessions::Opener::{self, Inside, Remote};
use sessions::Phase::{self, Closing, Established, Partial};
use sessions::{AddFault, Session, Slot, Table, are_known_bits};
use std::alloc::Global;
use std::process::Abort;
use std::test::*;

const HOST: Endpoint = Endpoint {
    addr: 0xc0a8_0102,
    port: 40_000,
};

const OUTSIDE: Endpoint = Endpoint {
    addr: 0xcb00_7101,
    port: 40_000,
};

const SERVER: Endpoint = Endpoint {
    addr: 0xc633_6407,
    port: 443,
};

const SYN: Flags = Flags {
    fin: false,
    syn: true,
    rst: false,
    ack: false,
};

const SYN_ACK: Flags = Flags {
    fin: false,
    syn: true,
    rst: false,
    ack: true,
};

const ACK: Flags = Flags {
    fin: false,
    syn: false,
    rst: false,
    ack: true,
};

const FIN_ACK: Flags = Flags {
    fin: true,
    syn: false,
    rst: false,
    ack: true,
};

const RST: Flags = Flags {
    fin: false,
    syn: false,
    rst: true,
    ack: false,
};

const QUERY: Session = Session {
    proto: Proto::Udp,
    inside: HOST,
    outside: OUTSIDE,
    remote: SERVER,
    opener: Inside,
    seen: 0,
    last: 1000,
};

// What the first packet of a connection begins.
const STREAM: Session = Session {
    proto: Proto::Tcp,
    ..QUERY
};

// Each packet comes a second after the one before; the phase is the one that it leaves.
fn goes_through(rt: &impl Abort, session: Session, packets: &[(Opener, Flags, Phase)]) -> Session {
    let mut session = session;
    for (sender, flags, phase) in packets {
        session.seen |= session.shown(*sender, *flags);
        session.last = session.last.saturating_add(1);
        assert_eq!(rt; session.phase(), *phase);
    }
    session
}

// The session of a handshake: its last packet passed in second 1002.
fn open(rt: &impl Abort) -> Session {
    let handshake = [(Remote, SYN_ACK, Partial), (Inside, ACK, Established)];
    goes_through(rt, STREAM, &handshake)
}

// Whether the session is alive in this second, and in the next one no longer.
fn ends_after(session: &Session, second: u64) -> bool {
    session.is_alive(second) && !session.is_alive(second.saturating_add(1))
}

#[test]
fn phases(rt: HostRuntime) {
    assert_eq!(rt; STREAM.phase(), Partial);
    assert!(rt; ends_after(&STREAM, 1239));
    let reset = goes_through(&rt, open(&rt), &[(Remote, RST, Closing)]);
    assert!(rt; ends_after(&reset, 1242));
}

#[test]
fn both_sides_close(rt: HostRuntime) {
    let half = goes_through(&rt, open(&rt), &[(Inside, FIN_ACK, Established)]);
    assert!(rt; ends_after(&half, 8442));
    let closed = goes_through(&rt, half, &[(Remote, FIN_ACK, Closing)]);
    assert!(rt; ends_after(&closed, 1243));
    assert!(rt; closed.restarts(SYN) && !closed.restarts(SYN_ACK));
}

#[test]
fn both_sides_open_at_once(rt: HostRuntime) {
    let crossing = [
        (Remote, SYN, Partial),
        (Inside, SYN_ACK, Partial),
        (Remote, SYN_ACK, Established),
    ];
    goes_through(&rt, STREAM, &crossing);
}

#[test]
fn queries(rt: HostRuntime) {
    assert!(rt; QUERY.is_alive(0) && ends_after(&QUERY, 1299));
    assert_eq!(rt; QUERY.shown(Remote, Flags::none()), 1);
}

#[test]
fn states(rt: HostRuntime) {
    assert!(rt; QUERY.awaits_reply(Inside));
    assert!(rt; !QUERY.awaits_reply(Remote));
    let answered = Session { seen: 1, ..QUERY };
    assert!(rt; !answered.awaits_reply(Inside));
}

// A table of a query and a stream, and the slot of the query.
fn two_sessions(alloc: Global) -> Result<(Box<Table>, Slot), Fail> {
    let mut table = Box::new(alloc, Table::new(alloc))?;
    table.reserve()?;
    let slot = table.add(QUERY)?;
    table.add(STREAM)?;
    Ok((table, slot))
}

// A second query with the same endpoints.
fn add_again(table: &mut Table) -> Result<Slot, AddFault> {
    table.add(QUERY)
}

#[test]
fn one_table(rt: HostRuntime) -> Result<(), Fail> {
    let (mut table, slot) = two_sessions(rt.alloc())?;
    assert_eq!(rt; add_again(&mut table), Err(AddFault::Clash));
    assert_eq!(rt; table.count(), 2);
    assert!(rt; slot.number() < table.slots());
    Ok(())
}

#[test]
fn sessions_are_listed(rt: HostRuntime) -> Result<(), Fail> {
    let alloc = rt.alloc();
    let (table, _) = two_sessions(alloc)?;
    let wanted = [STREAM, QUERY];
    assert!(rt; table.list(alloc)?.as_slice() == wanted.as_slice());
    Ok(())
}

fn assert_by_inside(rt: &impl Abort, table: &Table, inside: Endpoint, expected: Option<Slot>) {
    assert_eq!(rt; table.by_inside(Proto::Udp, inside, SERVER), expected);
}

fn assert_by_outside(rt: &impl Abort, table: &Table, outside: Endpoint, expected: Option<Slot>) {
    assert_eq!(rt; table.by_outside(Proto::Udp, outside, SERVER), expected);
}

#[test]
fn sessions_are_found(rt: HostRuntime) -> Result<(), Fail> {
    let (table, slot) = two_sessions(rt.alloc())?;
    assert_by_inside(&rt, &table, HOST, Some(slot));
    assert_by_outside(&rt, &table, OUTSIDE, Some(slot));
    assert_by_outside(&rt, &table, HOST, None);
    Ok(())
}

// What is held of this inside endpoint that sends to this remote one by UDP.
fn assert_held(
    rt: &impl Abort,
    table: &Table,
    (inside, remote): (Endpoint, Endpoint),
    expected: Result<Slot, Option<Endpoint>>,
) {
    assert!(rt; table.by_inside_or_mapped(Proto::Udp, inside, remote) == expected);
}

#[test]
fn session_or_mapping_is_told(rt: HostRuntime) -> Result<(), Fail> {
    let (table, slot) = two_sessions(rt.alloc())?;
    assert_held(&rt, &table, (HOST, SERVER), Ok(slot));
    assert_held(&rt, &table, (HOST, OUTSIDE), Err(Some(OUTSIDE)));
    assert_held(&rt, &table, (OUTSIDE, SERVER), Err(None));
    Ok(())
}

// A table of a query alone, and its slot.
fn one_query(alloc: Global) -> Result<(Box<Table>, Slot), Fail> {
    let mut table = Box::new(alloc, Table::new(alloc))?;
    let slot = table.add(QUERY)?;
    Ok((table, slot))
}

// Each of the next four makes one call for a slot that holds a session, and says what the slot holds behind it.
fn see(table: &mut Table, slot: Slot, bits: u8, last: u64) -> Option<Session> {
    if are_known_bits(table.get(slot)?.proto, bits) {
        table.see(slot, bits, last);
    }
    table.get(slot)
}

fn restart(table: &mut Table, slot: Slot, opener: Opener, last: u64) -> Option<Session> {
    table.get(slot)?;
    table.restart(slot, opener, last);
    table.get(slot)
}

fn amend(table: &mut Table, slot: Slot, opener: Opener, seen: u8) -> Option<Session> {
    if are_known_bits(table.get(slot)?.proto, seen) {
        table.amend(slot, opener, seen);
    }
    table.get(slot)
}

fn end(table: &mut Table, slot: Slot) -> Option<Session> {
    if table.get(slot).is_some() {
        table.end(slot);
    }
    table.get(slot)
}

fn assert_holds(rt: &impl Abort, held: Option<Session>, expected: Option<Session>) {
    assert_eq!(rt; held, expected);
}

#[test]
fn seen_and_begun_anew(rt: HostRuntime) -> Result<(), Fail> {
    let (mut table, slot) = one_query(rt.alloc())?;
    let seen = Session {
        seen: 1,
        last: 1001,
        ..QUERY
    };
    assert_holds(&rt, see(&mut table, slot, 1, 1001), Some(seen));
    let anew = Session {
        opener: Remote,
        last: 1002,
        ..QUERY
    };
    assert_holds(&rt, restart(&mut table, slot, Remote, 1002), Some(anew));
    Ok(())
}

#[test]
fn amended_and_ended(rt: HostRuntime) -> Result<(), Fail> {
    let (mut table, slot) = one_query(rt.alloc())?;
    let amended = Session {
        opener: Remote,
        seen: 1,
        ..QUERY
    };
    assert_holds(&rt, amend(&mut table, slot, Remote, 1), Some(amended));
    assert_holds(&rt, end(&mut table, slot), None);
    Ok(())
}

const PEER: u32 = 0xc633_6409;

const NEIGHBOUR: u32 = 0xc000_0201;

// Further remote endpoints of the host, and its outside endpoint for each; the last one is reached untranslated.
const FURTHER: [(Endpoint, u32); 3] = [(OUTSIDE, PEER), (OUTSIDE, PEER + 1), (HOST, NEIGHBOUR)];

fn add_further(table: &mut Table, outside: Endpoint, addr: u32) -> Result<Slot, AddFault> {
    let remote = Endpoint { addr, port: 7000 };
    table.add(Session {
        outside,
        remote,
        ..QUERY
    })
}

// A table of four queries, and the slot of the first.
fn four_queries(alloc: Global) -> Result<(Box<Table>, Slot), Fail> {
    let (mut table, slot) = one_query(alloc)?;
    for (outside, addr) in &FURTHER {
        add_further(&mut table, *outside, *addr)?;
    }
    Ok((table, slot))
}

// A protocol, the endpoints of a host, a remote address, and whether a session has them.
const KNOWN: [(Proto, Endpoint, Endpoint, u32, bool); 10] = [
    (Proto::Udp, HOST, OUTSIDE, SERVER.addr, true),
    (Proto::Udp, HOST, OUTSIDE, SERVER.addr - 1, false),
    (Proto::Udp, HOST, OUTSIDE, PEER - 1, false),
    (Proto::Udp, HOST, OUTSIDE, PEER, true),
    (Proto::Udp, HOST, OUTSIDE, PEER + 2, false),
    (Proto::Udp, HOST, OUTSIDE, NEIGHBOUR, false),
    (Proto::Udp, HOST, HOST, NEIGHBOUR, true),
    (Proto::Udp, HOST, HOST, PEER, false),
    (Proto::Tcp, HOST, OUTSIDE, PEER, false),
    (Proto::Udp, OUTSIDE, OUTSIDE, PEER, false),
];

#[test]
fn peers_are_known(rt: HostRuntime) -> Result<(), Fail> {
    let (mut table, slot) = four_queries(rt.alloc())?;
    for (proto, inside, outside, remote, expected) in &KNOWN {
        assert_eq!(rt; table.knows(*proto, *inside, *outside, *remote), *expected);
    }
    assert_holds(&rt, end(&mut table, slot), None);
    assert!(rt; !table.knows(Proto::Udp, HOST, OUTSIDE, SERVER.addr));
    assert!(rt; table.knows(Proto::Udp, HOST, OUTSIDE, PEER));
    Ok(())
}

#[test]
fn stored_values(rt: HostRuntime) {
    assert_eq!(rt; (Inside.code(), Remote.code()), (0, 1));
    assert_eq!(rt;
        (Opener::of_code(1), Opener::of_code(2)),
        (Some(Remote), None)
    );
    assert!(rt; are_known_bits(Proto::Tcp, 63) && !are_known_bits(Proto::Udp, 2));
}

// 192.168.1.0/24 inside, and two addresses outside.
fn bounds(alloc: Global) -> Result<Box<Bounds>, Fail> {
    let prefix = Prefix {
        addr: 0xc0a8_0100,
        len: 24,
    };
    let inside = Vec::from_slice(alloc, &[prefix])?;
    let lan = String::from_str(alloc, "lan")?;
    let wan = String::from_str(alloc, "wan")?;
    let external = Vec::from_slice(alloc, &[1, OUTSIDE.addr])?;
    let bounds = Bounds::new(lan, wan, inside, external, Filtering::Endpoint)?;
    Ok(Box::new(alloc, bounds)?)
}

#[test]
fn placed_sessions(rt: HostRuntime) -> Result<(), Fail> {
    let bounds = bounds(rt.alloc())?;
    for (outside, expected) in [(OUTSIDE, true), (HOST, true), (SERVER, false)] {
        let session = Session { outside, ..QUERY };
        assert_eq!(rt; session.is_placed(&bounds), expected);
    }
    Ok(())
}
