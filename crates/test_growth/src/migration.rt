//! A gateway over a file of the first version.
use crate::shared::{Kept, MASQUERADE, Stop, Trials, disk_of, disk_of_file, lasting, must, open};
use std::alloc::Global;
use trial_disk::Trial;

/// An open gate, the mark of the first version, generation 1, `lan`, `wan`, 192.168.0.0/16, 203.0.113.1, no text, no
/// session, and an open group of 128 bytes with a load of 101.
const FRONT: [u8; 49] = [
    0x01, 0x4e, 0x47, 0x57, 0x31, 0x00, 0x00, 0x00, 0x00, 0x00, 0x00, 0x00, 0x01, 0x03, 0x6c, 0x61,
    0x6e, 0x03, 0x77, 0x61, 0x6e, 0x01, 0xc0, 0xa8, 0x00, 0x00, 0x10, 0xcb, 0x00, 0x71, 0x01, 0x00,
    0x00, 0x00, 0x00, 0x00, 0x00, 0x00, 0x00, 0x01, 0x00, 0x00, 0x00, 0x80, 0x01, 0x00, 0x00, 0x00,
    0x65,
];

/// The begin of a session of UDP from 192.168.1.2:5000, outside 203.0.113.1:5000, to 198.51.100.7:53, and a closed
/// gate.
const BEGIN: [u8; 23] = [
    0x02, 0x11, 0xc0, 0xa8, 0x01, 0x02, 0x13, 0x88, 0xcb, 0x00, 0x71, 0x01, 0x13, 0x88, 0xc6, 0x33,
    0x64, 0x07, 0x00, 0x35, 0x00, 0x00, 0x00,
];

/// What the file stands for: a text of 101 bytes, and a session.
const KEPT: Kept = (101, 1);

fn file_once(alloc: Global) -> Option<Vec<u8>> {
    let mut file = Vec::with_capacity(alloc, 173).ok()?;
    for part in &[FRONT.as_slice(), MASQUERADE.as_slice(), BEGIN.as_slice()] {
        file.extend_from_slice(*part).ok()?;
    }
    Some(file)
}

fn file(alloc: Global) -> Result<Vec<u8>, Stop> {
    match file_once(alloc) {
        Some(file) => Ok(file),
        None => file_once(alloc).ok_or(Stop::Wrong("a file of the first version")),
    }
}

fn former_disk(alloc: Global) -> Result<Trial, Stop> {
    let file = file(alloc)?;
    disk_of_file(alloc, file.as_slice())
}

fn stands(gateway: &Trials) -> Result<(), Stop> {
    must(
        lasting(gateway)? == KEPT && gateway.grown() == 0,
        "a migration",
    )
}

fn open_over(alloc: Global, disk: Trial) -> Result<Trial, Stop> {
    let gateway = open(alloc, disk)?;
    let ended = stands(&gateway);
    let disk = disk_of(gateway);
    match ended {
        Ok(()) => Ok(disk),
        Err(stop) => {
            drop(disk);
            Err(stop)
        }
    }
}

/// Opens it, and what the opening has left of it once more.
///
/// # Errors
///
/// The first place at which something is wrong.
pub fn play(alloc: Global) -> Result<(), Stop> {
    let disk = open_over(alloc, former_disk(alloc)?)?;
    drop(open_over(alloc, disk)?);
    Ok(())
}
