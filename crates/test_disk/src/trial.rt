//! Which calls fail, and what they touch.
use disk_model::{Disk, DiskFault, FileId, ReadFault};
use std::alloc::Global;
use std::process::Abort;
use std::test::*;
use trial_disk::Trial;

fn abc(alloc: Global) -> Result<Box<Trial>, Fail> {
    Ok(Box::new(alloc, Trial::of(alloc, b"abc", b"")?)?)
}

// A call of the first file: a write, or a read of one byte or two, at a place of it.
#[derive(Clone, Copy)]
enum Call<'a> {
    Len,
    Write(u64, &'a [u8]),
    ReadOne(u64),
    ReadTwo(u64),
    Sync,
}

// The length that the call tells, and none where it tells nothing.
fn answer(disk: &mut Trial, call: Call<'_>) -> Result<Option<u64>, DiskFault> {
    match call {
        Call::Len => return Ok(Some(disk.len(FileId::A)?)),
        Call::Write(at, bytes) => disk.write_at(FileId::A, at, bytes)?,
        Call::ReadOne(at) => disk.read_at(FileId::A, at, &mut [0])?,
        Call::ReadTwo(at) => disk.read_at(FileId::A, at, &mut [0, 0])?,
        Call::Sync => disk.sync(FileId::A)?,
    }
    Ok(None)
}

fn holds(alloc: Global, disk: &mut Trial, expected: &[u8]) -> Result<bool, ReadFault> {
    let bytes = disk.bytes(alloc, FileId::A)?;
    Ok(bytes.as_slice() == expected)
}

// The calls of a disk, and those that failed.
fn counts(disk: &Trial) -> (u64, u64) {
    (disk.calls(), disk.failures())
}

fn assert_counts(rt: &impl Abort, disk: &Trial, calls: u64, failures: u64) {
    assert_eq!(rt; counts(disk), (calls, failures));
}

fn assert_answered(
    rt: &impl Abort,
    disk: &mut Trial,
    call: Call<'_>,
    expected: Result<Option<u64>, DiskFault>,
) {
    assert_eq!(rt; answer(disk, call), expected);
}

// What calls are answered of which the first two pass.
const CALLS: [(Call<'static>, Result<Option<u64>, DiskFault>); 6] = [
    (Call::Len, Ok(Some(3))),
    (Call::Write(1, b"X"), Ok(None)),
    (Call::Write(0, b"YYYY"), Err(DiskFault)),
    (Call::Sync, Err(DiskFault)),
    (Call::Len, Err(DiskFault)),
    (Call::ReadOne(0), Err(DiskFault)),
];

fn blow(rt: &impl Abort, disk: &mut Trial) {
    disk.fuse_after(2);
    for (call, expected) in &CALLS {
        assert_answered(rt, disk, *call, *expected);
    }
    assert_counts(rt, disk, 6, 4);
}

fn assert_blown(rt: &impl Abort, alloc: Global, disk: &mut Trial) -> Result<(), Fail> {
    blow(rt, disk);
    assert!(rt; holds(alloc, disk, b"aXc")?);
    disk.crash(0)?;
    assert!(rt; holds(alloc, disk, b"abc")?);
    assert_answered(rt, disk, Call::Sync, Ok(None));
    Ok(())
}

#[test]
fn fuse(rt: HostRuntime) -> Result<(), Fail> {
    let mut disk = abc(rt.alloc())?;
    assert_blown(&rt, rt.alloc(), &mut disk)
}

fn assert_failing(rt: &impl Abort, alloc: Global, disk: &mut Trial) -> Result<(), Fail> {
    disk.fail_once(1);
    assert_answered(rt, disk, Call::Sync, Ok(None));
    assert_answered(rt, disk, Call::Write(0, b"UVWXYZXYZ"), Err(DiskFault));
    assert!(rt; holds(alloc, disk, b"UVWX")?);
    disk.fail_once(0);
    assert_answered(rt, disk, Call::Sync, Err(DiskFault));
    assert_answered(rt, disk, Call::Write(4, b"12"), Ok(None));
    assert_counts(rt, disk, 4, 2);
    assert!(rt; holds(alloc, disk, b"UVWX12")?);
    Ok(())
}

// A write that fails so puts its first half, any other call nothing, and the next call passes.
#[test]
fn fails_once(rt: HostRuntime) -> Result<(), Fail> {
    let mut disk = abc(rt.alloc())?;
    assert_failing(&rt, rt.alloc(), &mut disk)
}

// Calls, and whether one has strayed then.
const STRAYS: [(Call<'static>, bool); 3] = [
    (Call::ReadTwo(1), false),
    (Call::Write(3, b"d"), false),
    (Call::Write(5, b"e"), true),
];

fn assert_strays(rt: &impl Abort, disk: &mut Trial) {
    for (call, has_strayed) in &STRAYS {
        assert_answered(rt, disk, *call, Ok(None));
        assert!(rt; disk.has_strayed() == *has_strayed);
    }
}

// Out of its file a call touches nothing, and it is seen.
#[test]
fn strays(rt: HostRuntime) -> Result<(), Fail> {
    let mut disk = abc(rt.alloc())?;
    assert_strays(&rt, &mut disk);
    assert!(rt; holds(rt.alloc(), &mut disk, b"abcd")?);
    Ok(())
}
