//! What an opening finds, makes and refuses.
use crate::script::{play_over, played, played_as, two_flushed};
use crate::shared::{
    BY_ADDRESS, CHOICES, FRESH, NOTHING, OpenFault, RENAMED, SIDES, Sides, TWO, Trouble,
    assert_file, bounds, close, crashed, disk, disk_of, expect_trouble, open,
};
use crate::words::hex;
use disk_model::{Disk, FileId};
use packet::{Bounds, Filtering};
use std::alloc::Global;
use std::process::Abort;
use std::test::*;
use trial_disk::Trial;

/// Looks at the bytes of both files, and whether each call was within its file.
pub fn look(rt: &impl Abort, alloc: Global, disk: &mut Trial, a: &[u8], b: &[u8]) {
    assert_file(rt, alloc, disk, FileId::A, a);
    assert_file(rt, alloc, disk, FileId::B, b);
    assert!(rt; !disk.has_strayed());
}

const NOTHING_YET: &str = "\
rules
=
sessions
held
= 0
grown
= 0
at 1001
= now 1 ticked";

// Opens it over these files: there is no state, and file A is made.
fn begins(
    rt: &impl Abort,
    alloc: Global,
    sides: Sides,
    a: &[u8],
    b: &[u8],
    made: &str,
) -> Result<(), Fail> {
    let made = hex(alloc, made)?;
    let disk = disk(alloc, a, b)?;
    let mut disk = played_as(alloc, sides, disk, 1000, &[NOTHING_YET])?;
    look(rt, alloc, &mut disk, made.as_slice(), b);
    drop(disk);
    Ok(())
}

fn begins_over(rt: &impl Abort, alloc: Global, a: &str, b: &str) -> Result<(), Fail> {
    let a = hex(alloc, a)?;
    let b = hex(alloc, b)?;
    begins(rt, alloc, SIDES, a.as_slice(), b.as_slice(), FRESH)
}

const NO_OPEN_FILE: [(&str, &str); 6] = [
    ("", ""),
    ("00", ""),
    ("", "02 4e475731"),
    (
        "02 4e475731 0000000000000009 036c616e 0377616e 01 c0a8000010 cb007101 00000000 00000000",
        "00",
    ),
    (
        "02 4e475732 0000000000000009 036c616e 0377616e 01 c0a8000010 01 cb007101 00 00000000 00000000",
        "00",
    ),
    ("ff", "ff"),
];

// A gate that is neither 00 nor 01 is closed too.
#[test]
fn no_open_file(rt: HostRuntime) -> Result<(), Fail> {
    for (a, b) in &NO_OPEN_FILE {
        begins_over(&rt, rt.alloc(), a, b)?;
    }
    Ok(())
}

const TURNED: Sides = Sides {
    pool: &[0xcb00_7102, 0xcb00_7101],
    ..TWO
};

const TWO_BY_ADDRESS: Sides = Sides {
    filtering: Filtering::Address,
    ..TWO
};

// What is made for two addresses, for these the other way round, and for filtering by address.
const MADE: [(Sides, &str); 3] = [
    (
        TWO,
        "01 4e475732 0000000000000001 036c616e 0377616e 01 c0a8000010 02 cb007101 cb007102 00 00000000 00000000 00",
    ),
    (
        TURNED,
        "01 4e475732 0000000000000001 036c616e 0377616e 01 c0a8000010 02 cb007102 cb007101 00 00000000 00000000 00",
    ),
    (
        TWO_BY_ADDRESS,
        "01 4e475732 0000000000000001 036c616e 0377616e 01 c0a8000010 02 cb007101 cb007102 01 00000000 00000000 00",
    ),
];

// It is made so, opened again in its configuration, and in no other.
fn makes(rt: &impl Abort, alloc: Global, sides: Sides, made: &str) -> Result<(), Fail> {
    begins(rt, alloc, sides, b"", b"", made)?;
    let file = hex(alloc, made)?;
    finds_as(rt, alloc, sides, file.as_slice(), b"", NOTHING)?;
    for other in &[SIDES, BY_ADDRESS] {
        assert_differs(rt, alloc, *other, file.as_slice())?;
    }
    Ok(())
}

#[test]
fn several_addresses(rt: HostRuntime) -> Result<(), Fail> {
    for (sides, made) in &MADE {
        makes(&rt, rt.alloc(), *sides, made)?;
    }
    let made = hex(rt.alloc(), MADE[0].1)?;
    for sides in &[TURNED, TWO_BY_ADDRESS] {
        assert_differs(&rt, rt.alloc(), *sides, made.as_slice())?;
    }
    Ok(())
}

// An active file of generation 1 whose text and session stand in a group, and one of generation 2 with other rules.
fn grown_file(alloc: Global) -> Result<Vec<u8>, Fail> {
    let mut disk = two_flushed(alloc)?;
    let file = disk.bytes(alloc, FileId::A);
    drop(disk);
    Ok(file?)
}

const ANSWERED: &str = "\
rules
= table ip nat { chain post { type nat hook postrouting priority srcnat; oifname \"wan\" masquerade; }; }
sessions
= udp 192.168.1.2:5000 203.0.113.1:5000 198.51.100.7:53 inside 0 at 1250
held
= 0
grown
= 133";

// It has another text, 198.51.100.9:7000 as a remote that sent to 192.168.1.2:5000, and a group that ends this session.
const NEWER: &str = "\
01 4e475732 0000000000000002 036c616e 0377616e 01 c0a8000010 01 cb007101 00 00000001 20 00000002
11 c0a801021388 c0a801021388 c63364091b58 01 01
11 c0a801031388 cb0071011388 c63364070035 00 00
01 0000000e 05 11 c0a801021388 c63364091b58
00";

const NEWER_STATE: &str = "\
rules
=
sessions
= udp 192.168.1.3:5000 203.0.113.1:5000 198.51.100.7:53 inside 0 at 1250
grown
= 19";

/// Opens it over these files, which stay as they are.
pub fn finds(rt: &impl Abort, alloc: Global, a: &[u8], b: &[u8], state: &str) -> Result<(), Fail> {
    finds_as(rt, alloc, SIDES, a, b, state)
}

fn finds_as(
    rt: &impl Abort,
    alloc: Global,
    sides: Sides,
    a: &[u8],
    b: &[u8],
    state: &str,
) -> Result<(), Fail> {
    let mut disk = played_as(alloc, sides, disk(alloc, a, b)?, 1250, &[state])?;
    look(rt, alloc, &mut disk, a, b);
    drop(disk);
    Ok(())
}

#[test]
fn greatest_generation(rt: HostRuntime) -> Result<(), Fail> {
    let alloc = rt.alloc();
    let older = grown_file(alloc)?;
    let newer = hex(alloc, NEWER)?;
    finds(&rt, alloc, older.as_slice(), b"", ANSWERED)?;
    finds(&rt, alloc, b"", older.as_slice(), ANSWERED)?;
    finds(&rt, alloc, older.as_slice(), newer.as_slice(), NEWER_STATE)?;
    finds(&rt, alloc, newer.as_slice(), older.as_slice(), NEWER_STATE)
}

// Opens it over these files: the disk, and why it was refused.
fn refused(alloc: Global, sides: Sides, a: &[u8], b: &[u8]) -> Result<(Trial, OpenFault), Fail> {
    let bounds = bounds(alloc, sides)?;
    match open(alloc, disk(alloc, a, b)?, bounds, 1000) {
        Ok(gateway) => {
            close(gateway);
            Err(Fail::new("it was opened"))
        }
        Err(refused) => Ok(refused),
    }
}

/// Opens it over these files, which is refused by six calls; they stay as they are.
pub fn refuses(
    rt: &impl Abort,
    alloc: Global,
    sides: Sides,
    a: &[u8],
    b: &[u8],
) -> Result<OpenFault, Fail> {
    let (mut disk, fault) = refused(alloc, sides, a, b)?;
    assert_eq!(rt; disk.calls(), 6);
    look(rt, alloc, &mut disk, a, b);
    drop(disk);
    Ok(fault)
}

/// Opens it over this file, which was written in another configuration.
pub fn assert_differs(
    rt: &impl Abort,
    alloc: Global,
    sides: Sides,
    file: &[u8],
) -> Result<(), Fail> {
    let fault = refuses(rt, alloc, sides, file, b"")?;
    assert_eq!(rt; fault, OpenFault::ConfigDiffers);
    Ok(())
}

#[test]
fn config_differs(rt: HostRuntime) -> Result<(), Fail> {
    let alloc = rt.alloc();
    let grown = grown_file(alloc)?;
    let fresh = hex(alloc, FRESH)?;
    for sides in &[RENAMED, TWO, BY_ADDRESS] {
        assert_differs(&rt, alloc, *sides, grown.as_slice())?;
        assert_differs(&rt, alloc, *sides, fresh.as_slice())?;
    }
    Ok(())
}

// Another mark, and that of a later version; no snapshot; more sessions than there are; a text that doesn't load; a group
// that is cut; one without the gate behind it; one whose entry names no session; one that is no entry. No external address;
// five; one twice; one inside; another filtering; and the bytes of one version under the mark of the other.
const DAMAGED: [&str; 16] = [
    "01 4d475732 0000000000000001 036c616e 0377616e 01 c0a8000010 01 cb007101 00 00000000 00000000 00",
    "01 4e475733 0000000000000001 036c616e 0377616e 01 c0a8000010 01 cb007101 00 00000000 00000000 00",
    "01 4e475732 0000000000000001 036c616e 0377616e 01 c0a8000010 01 cb007101 00",
    "01 4e475732 0000000000000001 036c616e 0377616e 01 c0a8000010 01 cb007101 00 00000000 00000001 00",
    "01 4e475732 0000000000000001 036c616e 0377616e 01 c0a8000010 01 cb007101 00 00000001 78 00000000 00",
    "01 4e475732 0000000000000001 036c616e 0377616e 01 c0a8000010 01 cb007101 00 00000000 00000000 01 00000005 01 0000",
    "01 4e475732 0000000000000001 036c616e 0377616e 01 c0a8000010 01 cb007101 00 00000000 00000000 01 00000005 01 00000000",
    "01 4e475732 0000000000000001 036c616e 0377616e 01 c0a8000010 01 cb007101 00 00000000 00000000 01 0000000e 05 11 c0a801021388 c63364091b58 00",
    "01 4e475732 0000000000000001 036c616e 0377616e 01 c0a8000010 01 cb007101 00 00000000 00000000 01 00000001 09 00",
    "01 4e475732 0000000000000001 036c616e 0377616e 01 c0a8000010 00 00 00000000 00000000 00",
    "01 4e475732 0000000000000001 036c616e 0377616e 01 c0a8000010 05 cb007101 cb007102 cb007103 cb007104 cb007105 00 00000000 00000000 00",
    "01 4e475732 0000000000000001 036c616e 0377616e 01 c0a8000010 02 cb007101 cb007101 00 00000000 00000000 00",
    "01 4e475732 0000000000000001 036c616e 0377616e 01 c0a8000010 02 cb007101 c0a80101 00 00000000 00000000 00",
    "01 4e475732 0000000000000001 036c616e 0377616e 01 c0a8000010 01 cb007101 02 00000000 00000000 00",
    "01 4e475732 0000000000000001 036c616e 0377616e 01 c0a8000010 cb007101 00000000 00000000 00",
    "01 4e475731 0000000000000001 036c616e 0377616e 01 c0a8000010 01 cb007101 00 00000000 00000000 00",
];

fn assert_is_damaged(
    rt: &impl Abort,
    alloc: Global,
    sides: Sides,
    file: &[u8],
    row: usize,
) -> Result<(), Fail> {
    let fault = refuses(rt, alloc, sides, file, b"")?;
    assert_eq!(rt; fault, OpenFault::Damaged, "row {row}");
    Ok(())
}

// It is judged by its own configuration alone.
fn assert_damaged(rt: &impl Abort, alloc: Global, row: usize, file: &str) -> Result<(), Fail> {
    let file = hex(alloc, file)?;
    for sides in &[SIDES, RENAMED] {
        assert_is_damaged(rt, alloc, *sides, file.as_slice(), row)?;
    }
    Ok(())
}

// Two files are open, of the same generation.
fn assert_twice_is_damaged(rt: &impl Abort, alloc: Global) -> Result<(), Fail> {
    let file = hex(alloc, FRESH)?;
    assert_both_damaged(rt, alloc, file.as_slice(), file.as_slice())
}

/// Opens it over two files that stand for no state together.
pub fn assert_both_damaged(rt: &impl Abort, alloc: Global, a: &[u8], b: &[u8]) -> Result<(), Fail> {
    let fault = refuses(rt, alloc, SIDES, a, b)?;
    assert_eq!(rt; fault, OpenFault::Damaged);
    Ok(())
}

#[test]
fn damaged(rt: HostRuntime) -> Result<(), Fail> {
    let alloc = rt.alloc();
    for (row, file) in DAMAGED.iter().enumerate() {
        assert_damaged(&rt, alloc, row, file)?;
    }
    assert_twice_is_damaged(&rt, alloc)
}

// The words for a trouble, with its call.
fn told(at: Trouble) -> (&'static str, u64) {
    match at {
        Trouble::Stop(call) => ("stop", call),
        Trouble::Fault(call) => ("fault", call),
    }
}

fn open_with(
    alloc: Global,
    mut disk: Trial,
    bounds: Bounds,
    at: Trouble,
) -> (Trial, Option<OpenFault>) {
    expect_trouble(&mut disk, at, 0);
    match open(alloc, disk, bounds, 1000) {
        Ok(gateway) => (disk_of(gateway), None),
        Err((disk, fault)) => (disk, Some(fault)),
    }
}

/// Opens it with trouble at a call: the disk, and why it is refused, if it is.
pub fn with_trouble(
    alloc: Global,
    disk: Trial,
    at: Trouble,
) -> Result<(Trial, Option<OpenFault>), Fail> {
    match bounds(alloc, SIDES) {
        Ok(bounds) => Ok(open_with(alloc, disk, bounds, at)),
        Err(fail) => {
            drop(disk);
            Err(fail)
        }
    }
}

// It is refused for this trouble alone, and whether it is.
fn assert_refused(rt: &impl Abort, at: Trouble, disk: &Trial, fault: Option<OpenFault>) -> bool {
    let Some(fault) = fault else {
        return false;
    };
    let (word, call) = told(at);
    let is_device = fault == OpenFault::Device && disk.failures() > 0;
    assert!(rt; is_device, "{word} {call}: {fault}");
    true
}

// Fails a call of an opening once, and then opens it; whether there is such a call.
fn fault(
    rt: &impl Abort,
    alloc: Global,
    file: &[u8],
    state: &str,
    call: u64,
) -> Result<bool, Fail> {
    let at = Trouble::Fault(call);
    let (disk, fault) = with_trouble(alloc, disk(alloc, file, b"")?, at)?;
    if !assert_refused(rt, at, &disk, fault) {
        drop(disk);
        return Ok(false);
    }
    play_over(alloc, disk, 1250, &[state])?;
    Ok(true)
}

/// Fails each call of an opening once, and how many calls there are.
pub fn each_fault(rt: &impl Abort, alloc: Global, file: &[u8], state: &str) -> Result<u64, Fail> {
    for call in 0..100 {
        if !fault(rt, alloc, file, state, call)? {
            return Ok(call);
        }
    }
    Err(Fail::new("it never passes"))
}

// Each file is synced, measured and read; where none is open, the first is made in three synced writes.
#[test]
fn device(rt: HostRuntime) -> Result<(), Fail> {
    let alloc = rt.alloc();
    let file = grown_file(alloc)?;
    assert_eq!(rt; each_fault(&rt, alloc, b"", NOTHING)?, 12);
    assert_eq!(rt; each_fault(&rt, alloc, file.as_slice(), ANSWERED)?, 6);
    Ok(())
}

// Loses power behind so many calls of an opening, and opens it again.
fn stop(
    rt: &impl Abort,
    alloc: Global,
    file: &[u8],
    state: &str,
    calls: u64,
    choice: u64,
) -> Result<(), Fail> {
    let at = Trouble::Stop(calls);
    let (disk, fault) = with_trouble(alloc, disk(alloc, file, b"")?, at)?;
    let _is_refused = assert_refused(rt, at, &disk, fault);
    play_over(alloc, crashed(disk, choice)?, 1250, &[state])
}

fn stop_by_choices(
    rt: &impl Abort,
    alloc: Global,
    file: &[u8],
    state: &str,
    calls: u64,
) -> Result<(), Fail> {
    for choice in &CHOICES {
        stop(rt, alloc, file, state, calls, *choice)?;
    }
    Ok(())
}

// Behind each call of an opening, and each choice of what is left.
fn stop_each(
    rt: &impl Abort,
    alloc: Global,
    file: &[u8],
    state: &str,
    calls: u64,
) -> Result<(), Fail> {
    for calls in 0..=calls {
        stop_by_choices(rt, alloc, file, state, calls)?;
    }
    Ok(())
}

#[test]
fn power_is_lost(rt: HostRuntime) -> Result<(), Fail> {
    let alloc = rt.alloc();
    let file = grown_file(alloc)?;
    stop_each(&rt, alloc, b"", NOTHING, 12)?;
    stop_each(&rt, alloc, file.as_slice(), ANSWERED, 6)
}
