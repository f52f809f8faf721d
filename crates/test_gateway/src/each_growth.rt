//! Memory that is refused, to each call once.
//!
//! Under `rt try --test --fail-alloc N` one growth is refused, another one for each N. A call that answers so has
//! changed nothing, and when it is made again it is answered as if nothing had been. Where the disk is refused memory,
//! its call has failed, and the gateway is opened again.
use crate::script::{compact, flush, offer, run};
use crate::shared::{
    Answer, Event, GatewayFault, Given, Iface, OpenFault, SIDES, Trials, close, disk_of, open,
    some_bounds,
};
use crate::words::read_event;
use packet::Bounds;
use std::alloc::Global;
use std::test::*;
use trial_disk::Trial;

// What is offered one by one, from the last to the first: a text, UDP from 192.168.1.2:5000 to 198.51.100.7:53 twice,
// from 192.168.1.3:6000 to 203.0.113.1:5000, which begins two sessions, and from 192.168.1.3:5000 to 198.51.100.7:53.
// At 1300 all sessions end that began at 1000.
const OFFERED: [&str; 5] = [
    "lan 1300 4500001c00010000 40118eea c0a80103 c6336407 13880035 0008003b",
    "lan 1000 4500001c00010000 40117d23 c0a80103 cb007101 17701388 0008d738",
    "lan 1000 4500001c00010000 40118eeb c0a80102 c6336407 13880035 0008003c",
    "lan 1000 4500001c00010000 40118eeb c0a80102 c6336407 13880035 0008003c",
    "load 1000 table ip nat { chain post { type nat hook postrouting priority srcnat; oifname \"wan\" masquerade; }; }",
];

// The first text jumps to itself, and doesn't load; the second one and the packet change something.
const RUN: [&str; 5] = [
    "at 1301",
    "load 1301 table ip t { chain c { jump c; }; }",
    "load 1302 table ip nat { chain post { type nat hook postrouting priority srcnat; oifname \"wan\" masquerade; }; }",
    "lan 1303 4500001c00010000 40118eeb c0a80102 c6336407 13880035 0008003c",
    "at 1304",
];

/// What the calls are given. The events that are offered one by one stand here from the last to the first.
#[derive(Drop)]
struct Begun {
    disk: Trial,
    bounds: Vec<Bounds>,
    offered: Vec<Event>,
    run: Vec<Event>,
}

fn four_bounds(alloc: Global) -> Option<Vec<Bounds>> {
    let mut all = Vec::new(alloc);
    for _ in 0..4 {
        all.push(some_bounds(alloc, SIDES)?).ok()?;
    }
    Some(all)
}

fn some_events(alloc: Global, lines: &[&str]) -> Option<Vec<Event>> {
    let mut events = Vec::new(alloc);
    for line in lines {
        events.push(read_event(alloc, line)?).ok()?;
    }
    Some(events)
}

// None where memory was refused.
fn begin(alloc: Global) -> Option<Begun> {
    Some(Begun {
        disk: Trial::of(alloc, b"", b"").ok()?,
        bounds: four_bounds(alloc)?,
        offered: some_events(alloc, &OFFERED)?,
        run: some_events(alloc, &RUN)?,
    })
}

fn begin_twice(alloc: Global) -> Option<Begun> {
    match begin(alloc) {
        Some(begun) => Some(begun),
        None => begin(alloc),
    }
}

/// Why the calls ended early.
#[derive(Clone, Copy, Debug, PartialEq, Eq, Drop)]
enum Stop {
    /// A call of the disk failed.
    Fallen,
    /// An answer was not as it should be.
    Wrong,
}

fn must(is_right: bool) -> Result<(), Stop> {
    if is_right { Ok(()) } else { Err(Stop::Wrong) }
}

// Opens it within the last of the bounds. There are enough of them, which all are as those of the files.
fn open_once(
    alloc: Global,
    disk: Trial,
    all: &mut Vec<Bounds>,
) -> Result<Trials, (Trial, OpenFault)> {
    match all.pop() {
        Some(bounds) => open(alloc, disk, bounds, 1000),
        None => Err((disk, OpenFault::ConfigDiffers)),
    }
}

fn wrong(disk: Trial) -> Result<Trials, Stop> {
    drop(disk);
    Err(Stop::Wrong)
}

fn open_again(alloc: Global, disk: Trial, all: &mut Vec<Bounds>) -> Result<Trials, Stop> {
    match open_once(alloc, disk, all) {
        Ok(gateway) => Ok(gateway),
        Err((disk, _)) => wrong(disk),
    }
}

// Opens it, a second time where memory was refused.
fn open_twice(alloc: Global, disk: Trial, all: &mut Vec<Bounds>) -> Result<Trials, Stop> {
    match open_once(alloc, disk, all) {
        Ok(gateway) => Ok(gateway),
        Err((disk, OpenFault::NoMemory | OpenFault::Device)) => open_again(alloc, disk, all),
        Err((disk, _)) => wrong(disk),
    }
}

// None where memory was refused.
fn count_sessions(gateway: &Trials) -> Option<usize> {
    Some(gateway.sessions().ok()?.len())
}

// Counts them, a second time where memory was refused.
fn count_twice(gateway: &Trials) -> Result<usize, Stop> {
    match count_sessions(gateway) {
        Some(count) => Ok(count),
        None => count_sessions(gateway).ok_or(Stop::Wrong),
    }
}

fn expect_sessions(gateway: &Trials, count: usize) -> Result<(), Stop> {
    must(count_twice(gateway)? == count)
}

// Offers it again, where as much has to be held as before.
fn offer_again(gateway: &mut Trials, event: Event, held: usize) -> Result<Given, Stop> {
    let is_held = gateway.held() == held;
    match offer(gateway, event) {
        Ok(given) if is_held => Ok(given),
        _ => Err(Stop::Wrong),
    }
}

// Offers it, a second time where memory was refused.
fn offer_twice(gateway: &mut Trials, event: Event) -> Result<Given, Stop> {
    let held = gateway.held();
    match offer(gateway, event) {
        Ok(given) => Ok(given),
        Err((event, GatewayFault::NoMemory)) => offer_again(gateway, event, held),
        Err(_) => Err(Stop::Wrong),
    }
}

fn hold(gateway: &mut Trials, event: Event, number: u64) -> Result<(), Stop> {
    let before = gateway.held();
    let given = offer_twice(gateway, event)?;
    must(matches!(&given, Given::Held(given) if *given == number))?;
    must(gateway.held() == before.saturating_add(1))
}

fn hand_out(gateway: &mut Trials, count: usize) -> Result<(), Stop> {
    match flush(gateway) {
        Ok(answers) => must(answers.len() == count && gateway.held() == 0),
        Err(GatewayFault::Device) => Err(Stop::Fallen),
        Err(_) => Err(Stop::Wrong),
    }
}

// It takes no memory, and so it is answered the first time.
fn answer_at_once(gateway: &mut Trials, event: Event, number: u64) -> Result<(), Stop> {
    match offer(gateway, event) {
        Ok(Given::Now(given, Answer::Forward(Iface::Wan, _))) => must(given == number),
        _ => Err(Stop::Wrong),
    }
}

fn compact_once(gateway: &mut Trials) -> Result<(), GatewayFault> {
    compact(gateway).unwrap_or(Err(GatewayFault::HeldFull))
}

// Compacts, a second time where memory was refused.
fn compact_twice(gateway: &mut Trials) -> Result<(), Stop> {
    let end = match compact_once(gateway) {
        Err(GatewayFault::NoMemory) => compact_once(gateway),
        end => end,
    };
    match end {
        Ok(()) => must(gateway.grown() == 0),
        Err(GatewayFault::Device) => Err(Stop::Fallen),
        Err(_) => Err(Stop::Wrong),
    }
}

// Where memory is refused, the rest of the events is not taken; those that were taken are handed out or held.
fn run_once(gateway: &mut Trials, events: Vec<Event>) -> Result<(), Stop> {
    let count = events.len();
    match run(gateway, events) {
        Ok(answers) => must(answers.len() == count && gateway.held() == 0),
        Err((_, GatewayFault::Device)) => Err(Stop::Fallen),
        Err((answers, GatewayFault::NoMemory)) => {
            must(answers.len().saturating_add(gateway.held()) < count)?;
            hand_out(gateway, gateway.held())
        }
        Err(_) => Err(Stop::Wrong),
    }
}

fn next(offered: &mut Vec<Event>) -> Result<Event, Stop> {
    offered.pop().ok_or(Stop::Wrong)
}

fn begin_three(gateway: &mut Trials, offered: &mut Vec<Event>) -> Result<(), Stop> {
    hold(gateway, next(offered)?, 1)?;
    hold(gateway, next(offered)?, 2)?;
    hand_out(gateway, 2)?;
    answer_at_once(gateway, next(offered)?, 3)?;
    hold(gateway, next(offered)?, 4)?;
    expect_sessions(gateway, 3)
}

fn end_three(gateway: &mut Trials, offered: &mut Vec<Event>) -> Result<(), Stop> {
    hand_out(gateway, 1)?;
    compact_twice(gateway)?;
    hold(gateway, next(offered)?, 5)?;
    expect_sessions(gateway, 1)?;
    hand_out(gateway, 1)
}

// Each call in turn, up to a fault of the disk.
fn calls(gateway: &mut Trials, offered: &mut Vec<Event>, events: Vec<Event>) -> Result<(), Stop> {
    begin_three(gateway, offered)?;
    end_three(gateway, offered)?;
    run_once(gateway, events)
}

fn holds_left(gateway: &Trials) -> Result<(), Stop> {
    must(count_twice(gateway)? <= 3 && gateway.held() == 0)
}

// The files open again, and hold no more than was taken.
fn expect_left(alloc: Global, disk: Trial, all: &mut Vec<Bounds>) -> Result<(), Stop> {
    let gateway = open_twice(alloc, disk, all)?;
    let ended = holds_left(&gateway);
    close(gateway);
    ended
}

fn scenario_within(
    alloc: Global,
    disk: Trial,
    bounds: &mut Vec<Bounds>,
    offered: &mut Vec<Event>,
    run: Vec<Event>,
) -> Result<(), Stop> {
    let mut gateway = open_twice(alloc, disk, bounds)?;
    let ended = calls(&mut gateway, offered, run);
    let disk = disk_of(gateway);
    if ended == Err(Stop::Wrong) {
        drop(disk);
        return ended;
    }
    expect_left(alloc, disk, bounds)
}

fn scenario(alloc: Global, begun: Begun) -> Result<(), Stop> {
    let Begun {
        disk,
        mut bounds,
        mut offered,
        run,
    } = begun;
    scenario_within(alloc, disk, &mut bounds, &mut offered, run)
}

#[test]
fn each_growth(rt: HostRuntime) -> Result<(), Fail> {
    let alloc = rt.alloc();
    let begun = begin_twice(alloc).ok_or("no memory")?;
    assert_eq!(rt; scenario(alloc, begun), Ok(()));
    Ok(())
}
