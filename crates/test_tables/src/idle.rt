//! Queues of one or two sessions, whose slots are taken once from a table: what a test does then needs no more of it.
ghost use Rattle.std.specs.Prelude.{◌≡◌, ◌≢◌, ℕ, None, IfOk, IsSome};
ghost use Rattle.sessions.specs.Life.{IsSeen};
ghost use Rattle.timers.specs.Due.{at, IsLatest};

use packet::{Endpoint, Proto};
use sessions::{Opener, Session, Slot, Table};
use std::alloc::{AllocError, Global};
use std::process::Abort;
use std::test::*;
use timers::Due;

fn session(port: u16) -> Session
    ensures { IsSeen result.proto result.seen }
{
    let endpoint = Endpoint {
        addr: 0xc0a8_0102,
        port,
    };
    Session {
        proto: Proto::Udp,
        inside: endpoint,
        outside: endpoint,
        remote: endpoint,
        opener: Opener::Inside,
        seen: 0,
        last: 1000,
    }
}

// The slots of two sessions.
fn two_slots(alloc: Global) -> Result<(Slot, Slot), Fail>
    ensures { IfOk result (λ slots. slots.0 ≢ slots.1) }
{
    let mut table = Box::new(alloc, Table::new(alloc))?;
    let first = table.add(session(1))?;
    let second = table.add(session(2))?;
    Ok((first, second))
}

// Watches both sessions, of which the second was seen last; each may be idle for 300 seconds.
fn watch_both(due: &mut Due, first: Slot, second: Slot) -> Result<(), AllocError>
    requires unwatched { (slot : ℕ) → at due.old slot ≡ None }
    requires two { first ≢ second }
    ensures watched { IfOk result (λ _. IsSome (at due.new first)) }
    ensures latest { IfOk result (λ _. IsLatest due.new 1001) }
{
    due.add(first, 1000, 300)?;
    due.add(second, 1001, 300)
}

// The slots of the sessions that are over in this second, which comes behind all that was seen of them.
fn assert_listed(
    rt: &impl Abort,
    alloc: Global,
    due: &Due,
    now: u64,
    slots: &[Slot],
) -> Result<(), AllocError>
    requires { IsLatest due.now now }
{
    let found = due.due(alloc, now)?;
    assert_eq!(rt; found.as_slice(), slots);
    Ok(())
}

#[test]
fn two_idle_sessions(rt: HostRuntime) -> Result<(), Fail> {
    let alloc = rt.alloc();
    let (first, second) = two_slots(alloc)?;
    let mut due = Box::new(alloc, Due::new(alloc))?;
    due.reserve(2)?;
    watch_both(&mut due, first, second)?;
    assert_listed(&rt, alloc, &due, 1301, &[first, second])?;
    Ok(())
}

#[test]
fn the_first_of_two(rt: HostRuntime) -> Result<(), Fail> {
    let alloc = rt.alloc();
    let (first, second) = two_slots(alloc)?;
    let mut due = Box::new(alloc, Due::new(alloc))?;
    watch_both(&mut due, first, second)?;
    assert_listed(&rt, alloc, &due, 1300, &[first])?;
    Ok(())
}

#[test]
fn an_idle_session(rt: HostRuntime) -> Result<(), Fail> {
    let alloc = rt.alloc();
    let (slot, _) = two_slots(alloc)?;
    let mut due = Box::new(alloc, Due::new(alloc))?;
    due.add(slot, 1000, 300)?;
    assert_listed(&rt, alloc, &due, 1299, &[])?;
    assert_listed(&rt, alloc, &due, 1300, &[slot])?;
    Ok(())
}

// The session sends a packet, and then no more.
fn assert_refreshed(
    rt: &impl Abort,
    alloc: Global,
    due: &mut Due,
    slot: Slot,
) -> Result<(), AllocError>
    requires watched { IsSome (at due.old slot) }
    requires latest { IsLatest due.old 1000 }
{
    due.touch(slot, 1003, 7440);
    assert_listed(rt, alloc, due, 8442, &[])?;
    assert_listed(rt, alloc, due, u64::MAX, &[slot])?;
    due.remove(slot);
    assert_listed(rt, alloc, due, u64::MAX, &[])
}

#[test]
fn a_refreshed_session(rt: HostRuntime) -> Result<(), Fail> {
    let alloc = rt.alloc();
    let (slot, _) = two_slots(alloc)?;
    let mut due = Box::new(alloc, Due::new(alloc))?;
    due.add(slot, 1000, 240)?;
    assert_refreshed(&rt, alloc, &mut due, slot)?;
    Ok(())
}

#[test]
fn a_session_moves_behind_another(rt: HostRuntime) -> Result<(), Fail> {
    let alloc = rt.alloc();
    let (first, second) = two_slots(alloc)?;
    let mut due = Box::new(alloc, Due::new(alloc))?;
    watch_both(&mut due, first, second)?;
    due.touch(first, 1002, 300);
    assert_listed(&rt, alloc, &due, u64::MAX, &[second, first])?;
    Ok(())
}
