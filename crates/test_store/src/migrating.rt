//! Files of the first version: wherever an opening is stopped, and the next one too, what they stood for is there, in a
//! file of the present version.

use crate::shared::{BEGIN, FIRST, FRESH, LOAD, MASQUERADE, bounds, joined};
use crate::store::{Stops, assert_reached, crashed, opened, reopen};
use packet::Bounds;
use std::alloc::{AllocError, Global};
use std::process::Abort;
use std::test::Fail;
use trial_disk::Trial;

/// Two files, and the configuration that they have.
#[derive(Drop)]
struct Pair {
    bounds: Bounds,
    a: Vec<u8>,
    b: Vec<u8>,
}

fn pair_of(alloc: Global, a: Vec<u8>, b: Vec<u8>) -> Result<Box<Pair>, Fail> {
    let bounds = bounds(alloc, "wan")?;
    Ok(Box::new(alloc, Pair { bounds, a, b })?)
}

// A file of the first version with a group in which the text is loaded and the session begins.
fn grown(alloc: Global) -> Result<Vec<u8>, AllocError> {
    joined(alloc, &[&FIRST[..39], &LOAD, MASQUERADE, &BEGIN, &[0]])
}

// Fresh files that are older, of the first version and of the present one.
fn older_first(alloc: Global) -> Result<Vec<u8>, AllocError> {
    joined(alloc, &[&FIRST[..12], &[0], &FIRST[13..]])
}

fn older(alloc: Global) -> Result<Vec<u8>, AllocError> {
    joined(alloc, &[&FRESH[..12], &[0], &FRESH[13..]])
}

// Opens it, where the text and the session are there, and gives the disk back.
fn looked_at(
    rt: &impl Abort,
    alloc: Global,
    disk: Trial,
    bounds: &Bounds,
) -> Result<(bool, Trial), Fail> {
    let found = opened(alloc, disk, bounds)?;
    assert_reached(rt, &found, 1, (0, 163));
    let is_migrated = found.migrated;
    let disk = Box::into_inner(found).store.into_disk();
    assert!(rt; !disk.has_strayed());
    Ok((is_migrated, disk))
}

// When it was opened once nothing is made anew any more.
fn comes_back(rt: &impl Abort, alloc: Global, disk: Trial, bounds: &Bounds) -> Result<(), Fail> {
    let (_, disk) = looked_at(rt, alloc, disk, bounds)?;
    let (is_migrated, _) = looked_at(rt, alloc, disk, bounds)?;
    assert!(rt; !is_migrated);
    Ok(())
}

fn stop(rt: &impl Abort, alloc: Global, pair: &Pair, stops: Stops) -> Result<(), Fail> {
    let disk = Trial::of(alloc, &pair.a, &pair.b)?;
    let disk = reopen(rt, alloc, disk, &pair.bounds, stops.first);
    let disk = crashed(disk, stops.choice)?;
    let disk = reopen(rt, alloc, disk, &pair.bounds, stops.second);
    let disk = crashed(disk, stops.choice)?;
    comes_back(rt, alloc, disk, &pair.bounds)
}

// Each of the two openings makes up to twelve calls.
fn stop_each(rt: &impl Abort, alloc: Global, pair: &Pair) -> Result<(), Fail> {
    for first in 0..=12 {
        for second in 0..=12 {
            for choice in &[0, 1, 2, 3, 5, 10] {
                let stops = Stops {
                    first,
                    second,
                    choice: *choice,
                };
                stop(rt, alloc, pair, stops)?;
            }
        }
    }
    Ok(())
}

#[test]
fn migrate_beside_an_empty_file(rt: HostRuntime) -> Result<(), Fail> {
    let alloc = rt.alloc();
    let pair = pair_of(alloc, grown(alloc)?, Vec::new(alloc))?;
    stop_each(&rt, alloc, &pair)
}

#[test]
fn migrate_beside_an_older_one(rt: HostRuntime) -> Result<(), Fail> {
    let alloc = rt.alloc();
    let pair = pair_of(alloc, grown(alloc)?, older(alloc)?)?;
    stop_each(&rt, alloc, &pair)
}

#[test]
fn migrate_beside_an_older_one_of_the_first_version(rt: HostRuntime) -> Result<(), Fail> {
    let alloc = rt.alloc();
    let pair = pair_of(alloc, older_first(alloc)?, grown(alloc)?)?;
    stop_each(&rt, alloc, &pair)
}
