//! How far a gateway comes whose disk stops or fails, and whether it answers what the machine in memory does.
use crate::model::{Lasting, Model, is_same};
use crate::script::{compact, flush, offer, take};
use crate::shared::{
    Answer, Event, GatewayFault, Given, OpenFault, Sides, Trials, Trouble, disk, expect_trouble,
    open, opened_as, some_bounds,
};
use packet::Bounds;
use std::alloc::Global;
use std::test::Fail;
use trial_disk::Trial;

/// How far the events came.
#[derive(Clone, Copy, Drop)]
pub struct Told {
    pub offered: usize,
    pub answered: usize,
    pub has_fallen: bool,
}

/// Before the first event.
pub fn not_begun(has_fallen: bool) -> Told {
    Told {
        offered: 0,
        answered: 0,
        has_fallen,
    }
}

fn begun_within(
    alloc: Global,
    disk: Trial,
    bounds: Bounds,
) -> Result<Result<Trials, Trial>, OpenFault> {
    match open(alloc, disk, bounds, 1000) {
        Ok(gateway) => Ok(Ok(gateway)),
        Err((disk, OpenFault::Device)) => Ok(Err(disk)),
        Err((disk, fault)) => {
            drop(disk);
            Err(fault)
        }
    }
}

/// Opens a gateway over this file and an empty one, with trouble at a call of the disk; where the opening meets it, the
/// disk comes back.
pub fn begun(
    alloc: Global,
    sides: Sides,
    file: &[u8],
    at: Trouble,
) -> Result<Result<Trials, Trial>, Fail> {
    let bounds = some_bounds(alloc, sides).ok_or("no bounds")?;
    let mut disk = disk(alloc, file, b"")?;
    expect_trouble(&mut disk, at, 0);
    Ok(begun_within(alloc, disk, bounds)?)
}

/// The disk, and how far the events came over it.
pub fn with_disk(disk: Trial, told: Result<Told, Fail>) -> Result<(Trial, Told), Fail> {
    match told {
        Ok(told) => Ok((disk, told)),
        Err(fail) => {
            drop(disk);
            Err(fail)
        }
    }
}

/// Opens it again, if each call was within its file.
pub fn opened_again(alloc: Global, sides: Sides, disk: Trial, moment: u64) -> Result<Trials, Fail> {
    if disk.has_strayed() {
        drop(disk);
        return Err(Fail::new("it strayed"));
    }
    opened_as(alloc, sides, disk, moment)
}

fn is_next(wanted: &[Answer], told: &mut Told, number: u64, answer: &Answer) -> bool {
    let place = told.answered;
    told.answered = place.saturating_add(1);
    match wanted.get(place) {
        Some(wanted) => told.answered as u64 == number && is_same(answer, wanted),
        None => false,
    }
}

/// The answers come in order, and are the machine's.
fn hear(wanted: &[Answer], told: &mut Told, number: u64, answer: &Answer) -> Result<(), Fail> {
    if is_next(wanted, told, number, answer) {
        return Ok(());
    }
    Err(Fail::new(format_args!("another answer: {number}")))
}

/// Hears each of the answers.
pub fn hear_all(wanted: &[Answer], told: &mut Told, answers: &[(u64, Answer)]) -> Result<(), Fail> {
    for (number, answer) in answers {
        hear(wanted, told, *number, answer)?;
    }
    Ok(())
}

fn fall(told: &mut Told, fault: GatewayFault) -> Result<(), Fail> {
    if fault != GatewayFault::Device {
        return Err(fault.into());
    }
    told.has_fallen = true;
    Ok(())
}

/// Offers an event, and hears what is answered at once.
pub fn do_offer(
    model: &Model,
    gateway: &mut Trials,
    told: &mut Told,
    event: Event,
) -> Result<(), Fail> {
    match offer(gateway, event) {
        Ok(Given::Now(number, answer)) => hear(model.answers.as_slice(), told, number, &answer),
        Ok(Given::Held(_)) => Ok(()),
        Err((_, fault)) => Err(fault.into()),
    }
}

/// Has an event taken where it lies, and hears what is answered at once. One that is held is heard when it is flushed.
pub fn do_take(
    alloc: Global,
    model: &Model,
    gateway: &mut Trials,
    told: &mut Told,
    event: Event,
) -> Result<(), Fail> {
    match take(alloc, gateway, event) {
        Ok((false, number, answer)) => hear(model.answers.as_slice(), told, number, &answer),
        Ok((true, ..)) => Ok(()),
        Err((_, fault)) => Err(fault.into()),
    }
}

/// Flushes, and hears what is handed out.
pub fn do_flush(model: &Model, gateway: &mut Trials, told: &mut Told) -> Result<(), Fail> {
    match flush(gateway) {
        Ok(answers) => hear_all(model.answers.as_slice(), told, answers.as_slice()),
        Err(fault) => fall(told, fault),
    }
}

/// Compacts, if it hasn't fallen.
pub fn do_compact(gateway: &mut Trials, told: &mut Told) -> Result<(), Fail> {
    if told.has_fallen {
        return Ok(());
    }
    match compact(gateway) {
        Some(Ok(())) => Ok(()),
        Some(Err(fault)) => fall(told, fault),
        None => Err(Fail::new("answers are held")),
    }
}

fn is_behind(model: &Model, count: usize, left: &Lasting) -> bool {
    match model.states.as_slice().get(count) {
        Some(state) => state.is(left),
        None => false,
    }
}

/// How many events lead to what is left, of those that were offered: at least those that were answered.
pub fn taken(model: &Model, told: Told, left: &Lasting) -> Result<usize, Fail> {
    for count in told.answered..=told.offered {
        if is_behind(model, count, left) {
            return Ok(count);
        }
    }
    Err(Fail::new(format_args!("another state: {} to {}", told.answered, told.offered)))
}
