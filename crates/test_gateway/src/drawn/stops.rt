//! The gateway over a disk that is stopped, or fails, at each of its calls, and opened again.
use crate::drawn::events::{EVENTS, Next, Number, behind, event, numbers, sides};
use crate::model::{Lasting, Model};
use crate::shared::{
    CHOICES, Event, FIRST_FRESH, SIDES, Sides, Trials, Trouble, close, crashed, disk_of, machine_of,
};
use crate::told::{
    Told, begun, do_compact, do_flush, do_offer, do_take, not_begun, opened_again, taken, with_disk,
};
use crate::words::hex;
use machine::Core;
use std::alloc::Global;
use std::test::*;
use trial_disk::Trial;

/// The numbers of a seed, the configuration, the file that stands there at first, beside an empty one, and what the
/// machine makes of them.
#[derive(Drop)]
struct Script {
    numbers: Vec<Number>,
    sides: Sides,
    file: Vec<u8>,
    model: Model,
}

// Here and below none where memory is refused.
fn go_on(
    alloc: Global,
    model: &mut Model,
    core: &mut Core,
    place: usize,
    number: &Number,
    pool: usize,
) -> Option<()> {
    model.go_on(alloc, core, event(alloc, place, number, pool)?)
}

fn go_through(alloc: Global, core: &mut Core, numbers: &[Number], pool: usize) -> Option<Model> {
    let mut model = Model::begin(alloc, core)?;
    for (place, number) in numbers.iter().enumerate() {
        go_on(alloc, &mut model, core, place, number, pool)?;
    }
    Some(model)
}

fn run_of_machine(alloc: Global, sides: Sides, numbers: &[Number]) -> Result<Model, Fail> {
    let mut core = machine_of(alloc, sides, 1000)?;
    let model = go_through(alloc, &mut core, numbers, sides.pool.len());
    drop(core);
    Ok(model.ok_or("no memory")?)
}

// The first number says the configuration.
fn sides_of(numbers: &[Number]) -> Sides {
    match numbers.first() {
        Some(number) => sides(number),
        None => SIDES,
    }
}

fn script_of(alloc: Global, seed: u64, file: &str) -> Result<Script, Fail> {
    let file = hex(alloc, file)?;
    let numbers = numbers(alloc, seed)?;
    let sides = sides_of(numbers.as_slice());
    let model = run_of_machine(alloc, sides, numbers.as_slice())?;
    Ok(Script {
        numbers,
        sides,
        file,
        model,
    })
}

// Each second event is taken where it lies.
fn do_event(
    alloc: Global,
    model: &Model,
    gateway: &mut Trials,
    told: &mut Told,
    event: Event,
) -> Result<(), Fail> {
    told.offered = told.offered.saturating_add(1);
    if told.offered % 2 == 0 {
        return do_take(alloc, model, gateway, told, event);
    }
    do_offer(model, gateway, told, event)
}

fn go_behind(
    model: &Model,
    gateway: &mut Trials,
    told: &mut Told,
    number: &Number,
) -> Result<(), Fail> {
    match behind(number) {
        Next::Nothing => Ok(()),
        Next::Flush => do_flush(model, gateway, told),
        Next::Compact => {
            do_flush(model, gateway, told)?;
            do_compact(gateway, told)
        }
    }
}

fn do_number(
    alloc: Global,
    script: &Script,
    gateway: &mut Trials,
    told: &mut Told,
    place: usize,
    number: &Number,
) -> Result<(), Fail> {
    let pool = script.sides.pool.len();
    let event = event(alloc, place, number, pool).ok_or("no memory")?;
    do_event(alloc, &script.model, gateway, told, event)?;
    go_behind(&script.model, gateway, told, number)
}

// Offers the events up to the first fault, and flushes behind the last.
fn drive(alloc: Global, gateway: &mut Trials, script: &Script) -> Result<Told, Fail> {
    let mut told = not_begun(false);
    for (place, number) in script.numbers.iter().enumerate() {
        do_number(alloc, script, gateway, &mut told, place, number)?;
        if told.has_fallen {
            return Ok(told);
        }
    }
    do_flush(&script.model, gateway, &mut told)?;
    if !told.has_fallen && told.answered != EVENTS {
        return Err(Fail::new("it ended early"));
    }
    Ok(told)
}

fn drive_to_its_end(
    alloc: Global,
    mut gateway: Trials,
    script: &Script,
) -> Result<(Trial, Told), Fail> {
    let told = drive(alloc, &mut gateway, script);
    with_disk(disk_of(gateway), told)
}

fn driven(alloc: Global, script: &Script, trouble: Trouble) -> Result<(Trial, Told), Fail> {
    match begun(alloc, script.sides, script.file.as_slice(), trouble)? {
        Ok(gateway) => drive_to_its_end(alloc, gateway, script),
        Err(disk) => Ok((disk, not_begun(true))),
    }
}

// What the files stand for, opened when all events are past.
fn left(alloc: Global, sides: Sides, disk: Trial) -> Result<Lasting, Fail> {
    let gateway = opened_again(alloc, sides, disk, 10_000)?;
    let left = Lasting::of_gateway(alloc, &gateway);
    close(gateway);
    Ok(left.ok_or("no memory")?)
}

/// What was seen: how many troubles, and behind how many of them something was there that wasn't answered.
#[derive(Clone, Copy, Drop)]
struct Seen {
    troubles: u64,
    survivals: u64,
}

fn tell(seen: &mut Seen, told: Told, taken: usize) {
    if !told.has_fallen {
        return;
    }
    seen.troubles = seen.troubles.saturating_add(1);
    if taken > told.answered {
        seen.survivals = seen.survivals.saturating_add(1);
    }
}

// Opens it again. Whether it had fallen.
fn check(
    alloc: Global,
    script: &Script,
    disk: Trial,
    told: Told,
    seen: &mut Seen,
) -> Result<bool, Fail> {
    let left = left(alloc, script.sides, disk)?;
    let taken = taken(&script.model, told, &left)?;
    tell(seen, told, taken);
    Ok(told.has_fallen)
}

fn stop(
    alloc: Global,
    script: &Script,
    call: u64,
    choice: u64,
    seen: &mut Seen,
) -> Result<bool, Fail> {
    let (disk, told) = driven(alloc, script, Trouble::Stop(call))?;
    check(alloc, script, crashed(disk, choice)?, told, seen)
}

fn fault(alloc: Global, script: &Script, call: u64, seen: &mut Seen) -> Result<bool, Fail> {
    let (disk, told) = driven(alloc, script, Trouble::Fault(call))?;
    if !told.has_fallen {
        drop(disk);
        return Ok(false);
    }
    check(alloc, script, disk, told, seen)
}

// Any of what wasn't synced.
fn drawn_choice(script: &Script, call: u64) -> u64 {
    match script.numbers.as_slice().get(call as usize) {
        Some(number) => u64::from_be_bytes(*number),
        None => call,
    }
}

// Each choice of what is left of what wasn't synced.
fn stop_by_choices(
    alloc: Global,
    script: &Script,
    call: u64,
    seen: &mut Seen,
) -> Result<bool, Fail> {
    for choice in &CHOICES {
        if !stop(alloc, script, call, *choice, seen)? {
            return Ok(false);
        }
    }
    stop(alloc, script, call, drawn_choice(script, call), seen)
}

fn none_seen() -> Seen {
    Seen {
        troubles: 0,
        survivals: 0,
    }
}

// Stops the events at each call, up to the first that they don't reach.
fn stop_at_each(alloc: Global, script: &Script) -> Result<Seen, Fail> {
    let mut seen = none_seen();
    for call in 0..10_000 {
        if !stop_by_choices(alloc, script, call, &mut seen)? {
            return Ok(seen);
        }
    }
    Err(Fail::new("it doesn't end"))
}

// Each call fails once.
fn fault_at_each(alloc: Global, script: &Script) -> Result<Seen, Fail> {
    let mut seen = none_seen();
    for call in 0..10_000 {
        if !fault(alloc, script, call, &mut seen)? {
            return Ok(seen);
        }
    }
    Err(Fail::new("it doesn't end"))
}

fn stop_each(alloc: Global, seed: u64, file: &str) -> Result<Seen, Fail> {
    let script = script_of(alloc, seed, file)?;
    stop_at_each(alloc, &script)
}

fn fault_each(alloc: Global, seed: u64) -> Result<Seen, Fail> {
    let script = script_of(alloc, seed, "")?;
    fault_at_each(alloc, &script)
}

// Of the first seed 886 calls, with seven choices each, and some as many of the others. By the first seed there is one address, and filtering by
// endpoint: its stops begin over a file of the first version, its faults over empty files. By the second one there are two
// addresses, and filtering by address; by the third one three.
#[test]
fn first_seed(rt: HostRuntime) -> Result<(), Fail> {
    let seen = stop_each(rt.alloc(), 1, FIRST_FRESH)?;
    assert_eq!(rt; (seen.troubles, seen.survivals), (6202, 752));
    Ok(())
}

#[test]
fn second_seed(rt: HostRuntime) -> Result<(), Fail> {
    let seen = stop_each(rt.alloc(), 2, "")?;
    assert!(rt; seen.troubles > 5_000 && seen.survivals > 300);
    Ok(())
}

#[test]
fn third_seed(rt: HostRuntime) -> Result<(), Fail> {
    let seen = stop_each(rt.alloc(), 3, "")?;
    assert!(rt; seen.troubles > 5_000 && seen.survivals > 300);
    Ok(())
}

#[test]
fn first_seed_with_a_fault(rt: HostRuntime) -> Result<(), Fail> {
    let seen = fault_each(rt.alloc(), 1)?;
    assert_eq!(rt; (seen.troubles, seen.survivals), (886, 188));
    Ok(())
}
