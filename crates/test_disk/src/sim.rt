//! What each choice of a crash leaves, and which calls fail.
ghost use Rattle.std.specs.Prelude.{◌≤◌};

use disk_model::{Disk, DiskFault, FileId, contents};
use std::alloc::Global;
use std::process::Abort;
use std::test::Fail;
use trial_disk::SimDisk;

fn disk_of(alloc: Global, a: &[u8], b: &[u8]) -> Result<Box<SimDisk>, Fail> {
    Ok(Box::new(alloc, SimDisk::of(alloc, a, b)?)?)
}

fn holds(alloc: Global, disk: &mut SimDisk, file: FileId, expected: &[u8]) -> Result<bool, Fail> {
    let bytes = contents(alloc, disk, file)?;
    Ok(bytes.as_slice() == expected)
}

// Writes at a place that the file reaches.
fn write(disk: &mut SimDisk, file: FileId, at: u64, bytes: &[u8]) -> Result<(), DiskFault> {
    if disk.len(file)? < at {
        return Err(DiskFault);
    }
    disk.write_at(file, at, bytes)
}

fn crash(disk: &mut SimDisk, choice: u64) -> Result<(), Fail> {
    disk.crash(choice)?;
    Ok(())
}

// The calls of a disk, and those that failed.
fn counts(disk: &SimDisk) -> (u64, u64) {
    (disk.calls(), disk.failures())
}

fn write_thrice(disk: &mut SimDisk) -> Result<(), DiskFault> {
    write(disk, FileId::A, 1, b"XY")?;
    write(disk, FileId::A, 6, b"ZZ")?;
    write(disk, FileId::A, 0, &[0])
}

// Whether this choice leaves such a first file of one that was written thrice, and the second one as it was.
fn is_left(alloc: Global, choice: u64, expected: &[u8]) -> Result<bool, Fail> {
    let mut disk = disk_of(alloc, b"abcdef", b"b")?;
    write_thrice(&mut disk)?;
    crash(&mut disk, choice)?;
    let is_second = holds(alloc, &mut disk, FileId::B, b"b")?;
    Ok(is_second && holds(alloc, &mut disk, FileId::A, expected)?)
}

const CHOICES: [(u64, &[u8]); 9] = [
    (0, b"abcdef"),
    (1, b"\x00XYdefZZ"),
    (2, b"\x00\x01\x01def\x01\x01"),
    (3, b"\xff\xff\xffdef\xff\xff"),
    (4, b"\x00bcdef"),
    (5, b"\x00XYdef"),
    (6, b"\x00bcdefZZ"),
    (8, b"abcdef"),
    (7, b"\x00XYdefZZ"),
];

#[test]
fn crash_choices(rt: HostRuntime) -> Result<(), Fail> {
    for (choice, expected) in &CHOICES {
        assert!(rt; is_left(rt.alloc(), *choice, *expected)?, "choice {choice}");
    }
    Ok(())
}

// What a crash leaves of 66 writes of a byte, of which it is to leave the first, the fourth and the 65th.
fn left_of_many(alloc: Global) -> Result<Vec<u8>, Fail> {
    let mut disk = disk_of(alloc, b"", b"")?;
    for place in 0..66 {
        write(&mut disk, FileId::B, place, b"x")?;
    }
    crash(&mut disk, 0b1001)?;
    Ok(contents(alloc, &mut *disk, FileId::B)?)
}

fn assert_chosen(rt: &impl Abort, left: &[u8]) {
    assert_eq!(rt; left.len(), 65);
    for (place, byte) in left.iter().enumerate() {
        let is_left = place == 0 || place == 3 || place == 64;
        assert_eq!(rt; *byte, if is_left { b'x' } else { 0 }, "place {place}");
    }
}

// A place past the old end that no chosen write covers is 00, and the choice has 64 bits.
#[test]
fn chosen_writes(rt: HostRuntime) -> Result<(), Fail> {
    let left = left_of_many(rt.alloc())?;
    assert_chosen(&rt, &left);
    Ok(())
}

// Whether what was synced is there behind this choice of a crash.
fn is_kept(alloc: Global, choice: u64) -> Result<bool, Fail> {
    let mut disk = disk_of(alloc, b"a", b"b")?;
    write(&mut disk, FileId::B, 1, b"cd")?;
    disk.sync(FileId::B)?;
    write(&mut disk, FileId::A, 0, &[0])?;
    crash(&mut disk, choice)?;
    holds(alloc, &mut disk, FileId::B, b"bcd")
}

#[test]
fn synced_stays(rt: HostRuntime) -> Result<(), Fail> {
    for choice in 0..12 {
        assert!(rt; is_kept(rt.alloc(), choice)?, "choice {choice}");
    }
    Ok(())
}

// Whether a crash leaves this of a file that is closed.
fn is_closed(alloc: Global, before: &[u8], expected: &[u8]) -> Result<bool, Fail> {
    let mut disk = disk_of(alloc, before, b"")?;
    write(&mut disk, FileId::A, 0, &[0])?;
    crash(&mut disk, 2)?;
    holds(alloc, &mut disk, FileId::A, expected)
}

const CLOSED: [(&[u8], &[u8]); 3] = [(b"\x01", b"\x01"), (b"\x05", b"\x00"), (b"", b"\x00")];

// Each choice leaves 01 under a closing byte only where it stood before.
#[test]
fn closing_byte(rt: HostRuntime) -> Result<(), Fail> {
    for (before, expected) in &CLOSED {
        assert!(rt; is_closed(rt.alloc(), *before, *expected)?);
    }
    Ok(())
}

// A call of the first file; what is written stands at its start.
#[derive(Clone, Copy)]
enum Call<'a> {
    Len,
    Write(&'a [u8]),
    Sync,
}

// The length that the call tells, and none where it tells nothing.
fn answer(disk: &mut SimDisk, call: Call<'_>) -> Result<Option<u64>, DiskFault> {
    match call {
        Call::Len => Ok(Some(disk.len(FileId::A)?)),
        Call::Write(bytes) => {
            disk.write_at(FileId::A, 0, bytes)?;
            Ok(None)
        }
        Call::Sync => {
            disk.sync(FileId::A)?;
            Ok(None)
        }
    }
}

// What calls are answered of which the first two pass.
const CALLS: [(Call<'static>, Result<Option<u64>, DiskFault>); 5] = [
    (Call::Len, Ok(Some(3))),
    (Call::Write(b"X"), Ok(None)),
    (Call::Write(b"YYYY"), Err(DiskFault)),
    (Call::Sync, Err(DiskFault)),
    (Call::Len, Err(DiskFault)),
];

fn assert_answered(
    rt: &impl Abort,
    disk: &mut SimDisk,
    call: Call<'_>,
    expected: Result<Option<u64>, DiskFault>,
) {
    assert_eq!(rt; answer(disk, call), expected);
}

fn assert_counts(rt: &impl Abort, disk: &SimDisk, calls: u64, failures: u64) {
    assert_eq!(rt; counts(disk), (calls, failures));
}

fn blow(rt: &impl Abort, disk: &mut SimDisk) {
    disk.fuse_after(2);
    for (call, expected) in &CALLS {
        assert_answered(rt, disk, *call, *expected);
    }
    assert_counts(rt, disk, 5, 3);
}

fn assert_blown(rt: &impl Abort, alloc: Global, disk: &mut SimDisk) -> Result<(), Fail> {
    blow(rt, disk);
    crash(disk, 1)?;
    assert!(rt; holds(alloc, disk, FileId::A, b"Xbc")?);
    assert_counts(rt, disk, 7, 3);
    Ok(())
}

#[test]
fn fuse(rt: HostRuntime) -> Result<(), Fail> {
    let mut disk = disk_of(rt.alloc(), b"abc", b"")?;
    assert_blown(&rt, rt.alloc(), &mut disk)
}

// Whether the second call fails, the write of these bytes, and leaves such a file.
fn is_half_written(alloc: Global, bytes: &[u8], expected: &[u8]) -> Result<bool, Fail> {
    let mut disk = disk_of(alloc, b"abc", b"")?;
    disk.fail_once(1);
    answer(&mut disk, Call::Sync)?;
    let has_failed = answer(&mut disk, Call::Write(bytes)).is_err() && disk.failures() == 1;
    Ok(has_failed && holds(alloc, &mut disk, FileId::A, expected)?)
}

const HALVES: [(&[u8], &[u8]); 4] = [
    (b"", b"abc"),
    (b"X", b"abc"),
    (b"XY", b"Xbc"),
    (b"UVWXYZXYZ", b"UVWX"),
];

// A write that fails so puts its first half, and the next call passes.
#[test]
fn fails_once(rt: HostRuntime) -> Result<(), Fail> {
    for (bytes, expected) in &HALVES {
        assert!(rt; is_half_written(rt.alloc(), *bytes, *expected)?);
    }
    Ok(())
}

// Makes the first file longer. How many calls have failed then, and what it has to hold.
fn grow(disk: &mut SimDisk) -> (u64, &'static [u8])
    ensures { result.0 ≤ 1 }
{
    match write(disk, FileId::A, 1, b"WXYZ") {
        Ok(()) => (0, b"aWXYZ"),
        Err(_) => (1, b"abc"),
    }
}

fn assert_refused(rt: &impl Abort, alloc: Global, disk: &mut SimDisk) -> Result<(), Fail> {
    let (failures, expected) = grow(disk);
    assert_counts(rt, disk, 2, failures);
    assert!(rt; holds(alloc, disk, FileId::A, expected)?);
    let failures = failures + u64::from(answer(disk, Call::Sync).is_err());
    assert!(rt; disk.failures() == failures);
    Ok(())
}

// Where its growth is refused (`rt try --test --fail-alloc N`), a call has failed and has touched nothing.
#[test]
fn refused_growth(rt: HostRuntime) -> Result<(), Fail> {
    let mut disk = disk_of(rt.alloc(), b"abc", b"")?;
    assert_refused(&rt, rt.alloc(), &mut disk)
}
