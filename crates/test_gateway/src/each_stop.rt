//! A script that is stopped behind each call of the disk, or in which each call fails once: what is there again is what
//! the machine in memory has after a beginning of the events that holds every answered one, and so is all that is
//! answered from there on.
use crate::model::{Lasting, Model, step};
use crate::script::{play, run};
use crate::shared::{
    Answer, CHOICES, Event, SIDES, Session, Trials, Trouble, close, crashed, disk_of, machine,
};
use crate::told::{
    Told, begun, do_compact, do_flush, do_offer, hear_all, not_begun, opened_again, taken,
    with_disk,
};
use crate::words::{event, moved, read_event};
use machine::Core;
use std::alloc::Global;
use std::process::Abort;
use std::test::*;
use trial_disk::Trial;

// UDP and TCP from two hosts, replies, a stranger, packets between the hosts, and texts that load or don't.
const SCRIPT: [&str; 28] = [
    "load 1000 table ip nat { chain post { type nat hook postrouting priority srcnat; oifname \"wan\" masquerade; }; }",
    "lan 1000 4500001c00010000 40118eeb c0a80102 c6336407 13880035 0008003c",
    "lan 1001 4500001c00010000 40118eea c0a80103 c6336407 13880035 0008003b",
    "flush",
    "wan 1002 4500001c00010000 40111494 c6336407 cb007101 00351388 000885e4",
    "lan 1003 4500002800010000 40068eea c0a80102 c6336407 9c4001bb 00000001 00000000 5002ffff 26010000",
    "load 1004 table ip t { chain c { jump c; }; }",
    "flush",
    "wan 1005 4500001c00010000 40111494 c6336407 cb007101 00351388 000885e4",
    "compact",
    "wan 1006 4500002800010000 40061493 c6336407 cb007101 01bb9c40 00000001 00000000 5012ffff ab990000",
    "lan 1007 4500002800010000 40068eea c0a80102 c6336407 9c4001bb 00000001 00000000 5010ffff 25f30000",
    "at 1008",
    "flush",
    "wan 1009 4500001c00010000 40111492 c6336409 cb007101 1b581388 00086abf",
    "lan 1010 4500001c00010000 40117d23 c0a80103 cb007101 17701388 0008d738",
    "flush",
    "lan 1011 4500001c00010000 40118eeb c0a80102 c6336407 13880035 0008003c",
    "wan 1012 4500002800010000 40061491 c6336409 cb007101 1b580016 00000001 00000000 5002ffff 2e350000",
    "load 1013 table ip nat { chain post { type nat hook postrouting priority srcnat; oifname \"wan\" masquerade; }; } table ip f { chain fw { type filter hook forward priority filter; iifname \"wan\" ct state new drop; }; }",
    "flush",
    "compact",
    "wan 1014 4500002800010000 40061493 c6336407 cb007101 01bb9c40 00000001 00000000 5011ffff ab9a0000",
    "lan 1015 4500002800010000 40068eea c0a80102 c6336407 9c4001bb 00000001 00000000 5011ffff 25f20000",
    "flush",
    "load 1016",
    "wan 1017 4500001c00010000 40118ee9 c6336409 c0a80102 1b581388 0008e516",
    "flush",
];

// Offered when the gateway is open again.
const LATER: [&str; 7] = [
    "wan 2239 4500001c00010000 40111494 c6336407 cb007101 00351388 000885e4",
    "at 2240",
    "lan 2299 4500001c00010000 40118eea c0a80103 c6336407 13880035 0008003b",
    "lan 2300 4500002800010000 40068eea c0a80102 c6336407 9c4001bb 00000001 00000000 5002ffff 26010000",
    "lan 2301 4500001c00010000 40117d23 c0a80103 cb007101 17701388 0008d738",
    "wan 2302 4500001c00010000 40111492 c6336409 cb007101 1b581388 00086abf",
    "at 10000",
];

// An opening of empty files makes 12 calls, each of the seven flushes 4, and a compaction 6.
const CALLS: u64 = 52;

fn is_event(line: &str) -> bool {
    line != "flush" && line != "compact"
}

// Takes the event of a line more. Here and below none where memory is refused.
fn go_on(alloc: Global, model: &mut Model, core: &mut Core, line: &str) -> Option<()> {
    model.go_on(alloc, core, read_event(alloc, line)?)
}

fn go_through(alloc: Global, core: &mut Core) -> Option<Model> {
    let mut model = Model::begin(alloc, core)?;
    for line in &SCRIPT {
        if is_event(line) {
            go_on(alloc, &mut model, core, line)?;
        }
    }
    Some(model)
}

fn run_of_machine(alloc: Global) -> Result<Model, Fail> {
    let mut core = machine(alloc, 1000)?;
    let model = go_through(alloc, &mut core);
    drop(core);
    Ok(model.ok_or("no memory")?)
}

fn put_event(alloc: Global, events: &mut Vec<Event>, line: &str) -> Option<()> {
    events.push(read_event(alloc, line)?).ok()
}

// Puts the events of these lines, but for the first ones.
fn put_behind(
    alloc: Global,
    events: &mut Vec<Event>,
    left: &mut usize,
    lines: &[&str],
) -> Option<()> {
    for line in lines {
        if !is_event(line) {
            continue;
        }
        if *left == 0 {
            put_event(alloc, events, line)?;
        }
        *left = left.saturating_sub(1);
    }
    Some(())
}

// The events of the script and of those behind it, but for the first ones.
fn events_behind(alloc: Global, taken: usize) -> Option<Vec<Event>> {
    let mut events = Vec::new(alloc);
    let mut left = taken;
    put_behind(alloc, &mut events, &mut left, &SCRIPT)?;
    put_behind(alloc, &mut events, &mut left, &LATER)?;
    Some(events)
}

// Takes the event of a line at 2000.
fn take(alloc: Global, core: &mut Core, line: &str) -> Option<Answer> {
    step(core, moved(read_event(alloc, line)?, 2000))
}

// Takes so many events of the script, each of them at 2000.
fn take_first(alloc: Global, core: &mut Core, taken: usize) -> Option<()> {
    let mut left = taken;
    for line in &SCRIPT {
        if is_event(line) && left > 0 {
            take(alloc, core, line)?;
            left = left.saturating_sub(1);
        }
    }
    Some(())
}

fn hear_rest(alloc: Global, core: &mut Core, events: Vec<Event>) -> Option<Vec<Answer>> {
    let mut answers = Vec::new(alloc);
    for event in events {
        answers.push(step(core, event)?).ok()?;
    }
    Some(answers)
}

fn answers_of(alloc: Global, core: &mut Core, taken: usize) -> Option<Vec<Answer>> {
    take_first(alloc, core, taken)?;
    hear_rest(alloc, core, events_behind(alloc, taken)?)
}

// What the machine answers behind so many events, if it was stopped there and begun again at 2000. None of them ends a
// session, so that at 2000 they lead to the same state.
fn answers_behind(alloc: Global, taken: usize) -> Result<Vec<Answer>, Fail> {
    let mut core = machine(alloc, 2000)?;
    let answers = answers_of(alloc, &mut core, taken);
    drop(core);
    Ok(answers.ok_or("no memory")?)
}

fn do_line(
    alloc: Global,
    gateway: &mut Trials,
    model: &Model,
    told: &mut Told,
    line: &str,
) -> Result<(), Fail> {
    match line {
        "flush" => do_flush(model, gateway, told),
        "compact" => do_compact(gateway, told),
        _ => {
            told.offered = told.offered.saturating_add(1);
            do_offer(model, gateway, told, event(alloc, line)?)
        }
    }
}

// Plays the script up to its first fault.
fn drive(alloc: Global, gateway: &mut Trials, model: &Model) -> Result<Told, Fail> {
    let mut told = not_begun(false);
    for line in &SCRIPT {
        do_line(alloc, gateway, model, &mut told, line)?;
        if told.has_fallen {
            play(alloc, gateway, "at 1000\n= reopen\nflush\n= reopen")?;
            return Ok(told);
        }
    }
    Ok(told)
}

fn drive_to_its_end(
    alloc: Global,
    mut gateway: Trials,
    model: &Model,
) -> Result<(Trial, Told), Fail> {
    let told = drive(alloc, &mut gateway, model);
    with_disk(disk_of(gateway), told)
}

// Over files that were empty.
fn driven(alloc: Global, model: &Model, at: Trouble) -> Result<(Trial, Told), Fail> {
    match begun(alloc, SIDES, b"", at)? {
        Ok(gateway) => drive_to_its_end(alloc, gateway, model),
        Err(disk) => Ok((disk, not_begun(true))),
    }
}

fn are_of(sessions: &[Session], moment: u64) -> bool {
    for session in sessions {
        if session.last != moment {
            return false;
        }
    }
    true
}

fn began_anew(gateway: &Trials) -> Result<(), Fail> {
    let sessions = gateway.sessions()?;
    if are_of(sessions.as_slice(), 2000) {
        return Ok(());
    }
    Err(Fail::new("another moment"))
}

// All is answered that the machine answers.
fn expect_all(wanted: &[Answer], answers: &[(u64, Answer)]) -> Result<(), Fail> {
    let mut told = not_begun(false);
    hear_all(wanted, &mut told, answers)?;
    if told.answered != wanted.len() {
        return Err(Fail::new("another number of answers"));
    }
    Ok(())
}

fn goes_on(alloc: Global, gateway: &mut Trials, taken: usize) -> Result<(), Fail> {
    let wanted = answers_behind(alloc, taken)?;
    let events = events_behind(alloc, taken).ok_or("no memory")?;
    match run(gateway, events) {
        Ok(answers) => expect_all(wanted.as_slice(), answers.as_slice()),
        Err((_, fault)) => Err(fault.into()),
    }
}

// A gateway that was just opened has the state behind some of the events, and goes on as the machine does.
fn check_opened(
    alloc: Global,
    model: &Model,
    gateway: &mut Trials,
    told: Told,
) -> Result<(), Fail> {
    began_anew(gateway)?;
    let left = Lasting::of_gateway(alloc, gateway).ok_or("no memory")?;
    goes_on(alloc, gateway, taken(model, told, &left)?)
}

fn check(alloc: Global, model: &Model, disk: Trial, told: Told) -> Result<(), Fail> {
    let mut gateway = opened_again(alloc, SIDES, disk, 2000)?;
    let ended = check_opened(alloc, model, &mut gateway, told);
    close(gateway);
    ended
}

fn stop(rt: &impl Abort, alloc: Global, model: &Model, call: u64, choice: u64) -> Result<(), Fail> {
    let (disk, told) = driven(alloc, model, Trouble::Stop(call))?;
    assert!(rt; told.has_fallen, "call {call}");
    check(alloc, model, crashed(disk, choice)?, told)
}

fn stop_by_choices(rt: &impl Abort, alloc: Global, model: &Model, call: u64) -> Result<(), Fail> {
    for choice in &CHOICES {
        stop(rt, alloc, model, call, *choice)?;
    }
    Ok(())
}

#[test]
fn each_stop(rt: HostRuntime) -> Result<(), Fail> {
    let alloc = rt.alloc();
    let model = run_of_machine(alloc)?;
    for call in 0..CALLS {
        stop_by_choices(&rt, alloc, &model, call)?;
    }
    Ok(())
}

fn fault(rt: &impl Abort, alloc: Global, model: &Model, call: u64) -> Result<(), Fail> {
    let (disk, told) = driven(alloc, model, Trouble::Fault(call))?;
    assert!(rt; told.has_fallen, "call {call}");
    check(alloc, model, disk, told)
}

#[test]
fn each_fault(rt: HostRuntime) -> Result<(), Fail> {
    let alloc = rt.alloc();
    let model = run_of_machine(alloc)?;
    for call in 0..CALLS {
        fault(&rt, alloc, &model, call)?;
    }
    Ok(())
}

// Power is lost when all is done.
fn end(rt: &impl Abort, alloc: Global, model: &Model, choice: u64) -> Result<(), Fail> {
    let (disk, told) = driven(alloc, model, Trouble::Stop(CALLS))?;
    assert!(rt; !told.has_fallen);
    assert_eq!(rt; (told.offered, told.answered), (19, 19));
    check(alloc, model, crashed(disk, choice)?, told)
}

#[test]
fn no_stop(rt: HostRuntime) -> Result<(), Fail> {
    let alloc = rt.alloc();
    let model = run_of_machine(alloc)?;
    for choice in &CHOICES {
        end(&rt, alloc, &model, *choice)?;
    }
    Ok(())
}
