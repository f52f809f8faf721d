//! Files of the first version: what they stood for is there, in a file of the present one, and is gone on with; wherever
//! an opening is stopped, and wherever the next one is.
use crate::opening::{
    assert_both_damaged, assert_differs, each_fault, finds, look, refuses, with_trouble,
};
use crate::script::{play_over, played};
use crate::shared::{
    BY_ADDRESS, CHOICES, FIRST_FRESH, FRESH, MASQUERADE, NOTHING, OpenFault, RENAMED, SIDES, TWO,
    Trouble, calls_of, crashed, disk,
};
use crate::words::{hex, put_hex};
use disk_model::{Disk, FileId};
use std::alloc::Global;
use std::process::Abort;
use std::test::*;
use trial_disk::Trial;

// What is made of a fresh file of the first version.
const SECOND: &str = "\
01 4e475732 0000000000000002 036c616e 0377616e 01 c0a8000010 01 cb007101 00 00000000 00000000 00";

// Fresh files that are older than the first generation.
const OLDER_FIRST: &str = "\
01 4e475731 0000000000000000 036c616e 0377616e 01 c0a8000010 cb007101 00000000 00000000 00";

const OLDER: &str = "\
01 4e475732 0000000000000000 036c616e 0377616e 01 c0a8000010 01 cb007101 00 00000000 00000000 00";

// Bytes, the text, and bytes.
fn around(alloc: Global, front: &str, behind: &str) -> Result<Vec<u8>, Fail> {
    let mut file = hex(alloc, front)?;
    file.extend_from_slice(MASQUERADE.as_bytes())?;
    put_hex(&mut file, behind)?;
    Ok(file)
}

// A file of the first version, of 173 bytes, with a group in which the text is loaded and a session begins.
fn grown(alloc: Global) -> Result<Vec<u8>, Fail> {
    around(
        alloc,
        "01 4e475731 0000000000000001 036c616e 0377616e 01 c0a8000010 cb007101 00000000 00000000 01 00000080 01 00000065",
        "02 11 c0a801021388 cb0071011388 c63364070035 00 00 00",
    )
}

// What is made of it: 164 bytes.
fn made(alloc: Global) -> Result<Vec<u8>, Fail> {
    around(
        alloc,
        "01 4e475732 0000000000000002 036c616e 0377616e 01 c0a8000010 01 cb007101 00 00000065",
        "00000001 11 c0a801021388 cb0071011388 c63364070035 00 00 00",
    )
}

const NOTHING_MIGRATED: &str = "\
migrated
= yes
rules
=
sessions
grown
= 0
at 1001
= now 1 ticked";

// The packets that follow are answered as if nothing had been between: a reply, and a second host's from the same port.
const MIGRATED: &str = "\
migrated
= yes
rules
= table ip nat { chain post { type nat hook postrouting priority srcnat; oifname \"wan\" masquerade; }; }
sessions
= udp 192.168.1.2:5000 203.0.113.1:5000 198.51.100.7:53 inside 0 at 1250
held
= 0
grown
= 0";

const GOES_ON: &str = "\
wan 1549 4500001c00010000 40111494 c6336407 cb007101 00351388 000885e4
= held 1
lan 1549 4500001c00010000 40118eea c0a80103 c6336407 13880035 0008003b
= held 2
flush
= 1 lan 4500001c00010000 3f118feb c6336407 c0a80102 00351388 0008003c
= 2 wan 4500001c00010000 3f111594 cb007101 c6336407 138a0035 000885e2";

// From the next opening on it is only looked at.
const FOUND: &str = "\
migrated
= no
rules
= table ip nat { chain post { type nat hook postrouting priority srcnat; oifname \"wan\" masquerade; }; }
sessions
= udp 192.168.1.2:5000 203.0.113.1:5000 198.51.100.7:53 inside 0 at 1250
grown
= 0";

const NOTHING_FOUND: &str = "\
migrated
= no
rules
=
sessions";

// Opens it over the first two files, which have become the second two then.
fn migrates(
    rt: &impl Abort,
    alloc: Global,
    old: (&[u8], &[u8]),
    new: (&[u8], &[u8]),
    state: &str,
) -> Result<(), Fail> {
    let mut disk = played(alloc, disk(alloc, old.0, old.1)?, 1250, &[state])?;
    look(rt, alloc, &mut disk, new.0, new.1);
    assert_eq!(rt; calls_of(disk), 12);
    Ok(())
}

// Files of the first version without a session: in either place, and beside closed files.
#[test]
fn migrate_fresh(rt: HostRuntime) -> Result<(), Fail> {
    let alloc = rt.alloc();
    let (first, second) = (hex(alloc, FIRST_FRESH)?, hex(alloc, SECOND)?);
    assert_eq!(rt; (first.len(), second.len()), (40, 42));
    let (a, b) = (first.as_slice(), second.as_slice());
    migrates(&rt, alloc, (a, b""), (a, b), NOTHING_MIGRATED)?;
    migrates(&rt, alloc, (b"", a), (b, a), NOTHING_MIGRATED)?;
    migrates(&rt, alloc, (a, b"\x00NGW"), (a, b), NOTHING_MIGRATED)?;
    finds(&rt, alloc, a, b, NOTHING_FOUND)
}

// The grown one in either place, beside an empty file and beside older ones of both versions.
fn migrates_beside(rt: &impl Abort, alloc: Global, other: &str) -> Result<(), Fail> {
    let (grown, made) = (grown(alloc)?, made(alloc)?);
    let other = hex(alloc, other)?;
    let (a, b, other) = (grown.as_slice(), made.as_slice(), other.as_slice());
    migrates(rt, alloc, (a, other), (a, b), MIGRATED)?;
    migrates(rt, alloc, (other, a), (b, a), MIGRATED)
}

#[test]
fn migrate(rt: HostRuntime) -> Result<(), Fail> {
    let alloc = rt.alloc();
    let (grown, made) = (grown(alloc)?, made(alloc)?);
    assert_eq!(rt;
        (grown.len(), made.len(), made.last()),
        (173, 164, Some(&0))
    );
    for other in &["", OLDER_FIRST, OLDER] {
        migrates_beside(&rt, alloc, other)?;
    }
    play_over(alloc, disk(alloc, &grown, b"")?, 1250, &[MIGRATED, GOES_ON])?;
    finds(&rt, alloc, &grown, &made, FOUND)
}

// The newer file counts, of whichever version. Two of one generation are damaged.
#[test]
fn migrate_mixed(rt: HostRuntime) -> Result<(), Fail> {
    let alloc = rt.alloc();
    let (grown, second) = (grown(alloc)?, hex(alloc, SECOND)?);
    finds(&rt, alloc, &grown, &second, NOTHING_FOUND)?;
    finds(&rt, alloc, &second, &grown, NOTHING_FOUND)?;
    let fresh = hex(alloc, FRESH)?;
    assert_both_damaged(&rt, alloc, &grown, &fresh)?;
    assert_both_damaged(&rt, alloc, &fresh, &grown)?;
    assert_both_damaged(&rt, alloc, &grown, b"\x01NGW3")?;
    assert_both_damaged(&rt, alloc, b"\x01NGW2", &grown)
}

// A file with the greatest generation in place of its own.
fn greatest(alloc: Global, file: &[u8]) -> Result<Vec<u8>, Fail> {
    let mut made = Vec::from_slice(alloc, file)?;
    if made.len() > 13 {
        made[5..13].copy_from_slice(&[0xff; 8]);
    }
    Ok(made)
}

// It can't be made anew. That it has another configuration is told before.
fn assert_greatest(rt: &impl Abort, alloc: Global, file: &[u8]) -> Result<(), Fail> {
    let fresh = hex(alloc, FRESH)?;
    for other in &[b"".as_slice(), fresh.as_slice()] {
        let fault = refuses(rt, alloc, SIDES, file, *other)?;
        assert_eq!(rt; fault, OpenFault::Generations);
    }
    assert_differs(rt, alloc, RENAMED, file)
}

#[test]
fn migrate_refused(rt: HostRuntime) -> Result<(), Fail> {
    let alloc = rt.alloc();
    let (grown, fresh) = (grown(alloc)?, hex(alloc, FRESH)?);
    for sides in &[RENAMED, TWO, BY_ADDRESS] {
        assert_differs(&rt, alloc, *sides, &grown)?;
    }
    assert_greatest(&rt, alloc, &greatest(alloc, &grown)?)?;
    finds(&rt, alloc, &greatest(alloc, &fresh)?, b"", NOTHING_FOUND)
}

const STANDS: &str = "\
rules
= table ip nat { chain post { type nat hook postrouting priority srcnat; oifname \"wan\" masquerade; }; }
sessions
= udp 192.168.1.2:5000 203.0.113.1:5000 198.51.100.7:53 inside 0 at 1250
grown
= 0";

#[test]
fn migrate_each_fault(rt: HostRuntime) -> Result<(), Fail> {
    let alloc = rt.alloc();
    let grown = grown(alloc)?;
    assert_eq!(rt; each_fault(&rt, alloc, &grown, STANDS)?, 12);
    Ok(())
}

// Loses power behind so many calls of an opening, and behind so many of the next one, and opens it again.
fn stop(alloc: Global, file: &[u8], first: u64, second: u64, choice: u64) -> Result<(), Fail> {
    let (disk, _) = with_trouble(alloc, disk(alloc, file, b"")?, Trouble::Stop(first))?;
    let disk = crashed(disk, choice)?;
    let (disk, _) = with_trouble(alloc, disk, Trouble::Stop(second))?;
    play_over(alloc, crashed(disk, choice)?, 1250, &[STANDS])
}

fn stop_by_choices(alloc: Global, file: &[u8], first: u64, second: u64) -> Result<(), Fail> {
    for choice in &CHOICES {
        stop(alloc, file, first, second, *choice)?;
    }
    Ok(())
}

fn stop_twice(alloc: Global, file: &[u8], first: u64) -> Result<(), Fail> {
    for second in 0..=12 {
        stop_by_choices(alloc, file, first, second)?;
    }
    Ok(())
}

#[test]
fn migrate_each_stop(rt: HostRuntime) -> Result<(), Fail> {
    let grown = grown(rt.alloc())?;
    for first in 0..=12 {
        stop_twice(rt.alloc(), &grown, first)?;
    }
    Ok(())
}
