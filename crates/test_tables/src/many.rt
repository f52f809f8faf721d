//! A table that is filled, half emptied and filled again, each time in another order.
use packet::{Endpoint, Proto};
use sessions::{Opener, Session, Table, are_known_bits, order};
use std::alloc::Global;
use std::cmp::Ordering;
use std::process::Abort;
use std::test::*;

// Each inside endpoint has four remote ones, and two of three inside endpoints are translated.
fn numbered(number: u16) -> Session {
    let pair = number / 4;
    let inside = Endpoint {
        addr: 0x0a00_0000 + pair as u32,
        port: 1000,
    };
    let translated = Endpoint {
        addr: 0xcb00_7101,
        port: pair + 1,
    };
    let remote = Endpoint {
        addr: 0xc633_6400 + (number % 4) as u32,
        port: 53,
    };
    Session {
        proto: if pair % 2 == 0 {
            Proto::Udp
        } else {
            Proto::Tcp
        },
        inside,
        outside: if pair % 3 == 0 { inside } else { translated },
        remote,
        opener: Opener::Inside,
        seen: 0,
        last: 1000,
    }
}

// Each number comes once as the steps go from 0 to 65,535, since the factor is odd.
fn turned(step: u16, factor: u16) -> u16 {
    step.wrapping_mul(factor).wrapping_add(12_345)
}

// The numbers of the sessions that end and begin again.
fn is_ended(number: u16) -> bool {
    number % 7 < 4
}

fn add(table: &mut Table, number: u16) -> Result<(), Fail> {
    let session = numbered(number);
    if !are_known_bits(session.proto, session.seen) {
        return Err(Fail::new("bits of another protocol"));
    }
    table.add(session)?;
    Ok(())
}

fn end(table: &mut Table, number: u16) -> Result<(), Fail> {
    let session = numbered(number);
    match table.by_inside(session.proto, session.inside, session.remote) {
        Some(slot) => {
            table.end(slot);
            Ok(())
        }
        None => Err(Fail::new("a session is lost")),
    }
}

// The session that is held with these endpoints inside and remote, or outside and remote.
fn by_inside(table: &Table, session: &Session) -> Option<Session> {
    table.get(table.by_inside(session.proto, session.inside, session.remote)?)
}

fn by_outside(table: &Table, session: &Session) -> Option<Session> {
    table.get(table.by_outside(session.proto, session.outside, session.remote)?)
}

fn assert_found(rt: &impl Abort, found: Option<Session>, wanted: Option<Session>, number: u16) {
    assert_eq!(rt; found, wanted, "{number}");
}

// Finds the session from both sides where it is held, and else from neither.
fn look_up(rt: &impl Abort, table: &Table, number: u16, is_held: bool) {
    let session = numbered(number);
    let wanted = if is_held { Some(session) } else { None };
    assert_found(rt, by_inside(table, &session), wanted, number);
    assert_found(rt, by_outside(table, &session), wanted, number);
}

fn add_all(table: &mut Table) -> Result<(), Fail> {
    for step in 0..=u16::MAX {
        add(table, turned(step, 40_503))?;
    }
    Ok(())
}

fn end_some(table: &mut Table) -> Result<(), Fail> {
    for step in 0..=u16::MAX {
        let number = turned(step, 28_411);
        if is_ended(number) {
            end(table, number)?;
        }
    }
    Ok(())
}

fn add_again(table: &mut Table) -> Result<(), Fail> {
    for step in 0..=u16::MAX {
        let number = turned(step, 51_769);
        if is_ended(number) {
            add(table, number)?;
        }
    }
    Ok(())
}

fn look_up_all(rt: &impl Abort, table: &Table, are_ended: bool) {
    for number in 0..=u16::MAX {
        look_up(rt, table, number, !(are_ended && is_ended(number)));
    }
}

fn assert_behind(rt: &impl Abort, before: Option<Session>, session: &Session) {
    if let Some(before) = before {
        assert_eq!(rt; order(&before, session), Ordering::Less);
    }
}

// The list rises strictly, and has so many sessions.
fn assert_listed(rt: &impl Abort, alloc: Global, table: &Table, count: usize) -> Result<(), Fail> {
    let sessions = table.list(alloc)?;
    assert_eq!(rt; sessions.len(), count);
    let mut before: Option<Session> = None;
    for session in sessions.iter() {
        assert_behind(rt, before, session);
        before = Some(*session);
    }
    Ok(())
}

// The table holds nothing yet.
fn fill_in_turned_orders(rt: &impl Abort, alloc: Global, table: &mut Table) -> Result<(), Fail> {
    add_all(table)?;
    look_up_all(rt, table, false);
    assert_listed(rt, alloc, table, 65_536)?;
    end_some(table)?;
    look_up_all(rt, table, true);
    assert_listed(rt, alloc, table, 28_086)?;
    add_again(table)?;
    look_up_all(rt, table, false);
    assert_listed(rt, alloc, table, 65_536)
}

#[test]
fn turned_orders(rt: HostRuntime) -> Result<(), Fail> {
    let alloc = rt.alloc();
    let mut table = Box::new(alloc, Table::new(alloc))?;
    fill_in_turned_orders(&rt, alloc, &mut table)
}
