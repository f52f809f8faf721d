//! Appends with a stop or a fault at each call of the disk, the written form, and bytes that are damaged.
ghost use Rattle.std.specs.Prelude.{◌<◌, ◌^◌, length};
ghost use Rattle.journal.specs.Groups.{Resting};

use disk_model::{Disk, DiskFault, FileId};
use journal::{Group, JournalFault, append, groups};
use std::alloc::{AllocError, Global};
use std::process::Abort;
use std::test::Fail;
use trial_disk::SimDisk;

const FIRST: &[u8] = b"first entries";

const SECOND: &[u8] = b"then these";

fn group_of(alloc: Global, body: &[u8]) -> Result<Group, AllocError>
    requires { length body.now < 2 ^ 32 }
{
    let mut group = Group::new(alloc)?;
    group.extend(body)?;
    Ok(group)
}

// Appends two groups to a file that stands closed at 0, and says how many it has acknowledged.
fn append_two<D: Disk>(disk: &mut D, first: &Group, second: &Group) -> u64
    requires { D.honest disk.old → Resting D.moment D.left D.seen disk.old FileId.A 0 }
{
    let Ok(next) = append(disk, FileId::A, 0, first) else {
        return 0;
    };
    match append(disk, FileId::A, next, second) {
        Ok(_) => 2,
        Err(_) => 1,
    }
}

// The bodies of a file from its start on, and none in an empty one.
fn read_all<D: Disk>(alloc: Global, disk: &mut D) -> Result<Vec<Vec<u8>>, JournalFault> {
    if disk.len(FileId::A)? == 0 {
        return Ok(Vec::new(alloc));
    }
    let (bodies, _) = groups(alloc, disk, FileId::A, 0)?;
    Ok(bodies)
}

fn two_groups(alloc: Global, first: &[u8], second: &[u8]) -> Result<Box<(Group, Group)>, AllocError>
    requires first { length first.now < 2 ^ 32 }
    requires second { length second.now < 2 ^ 32 }
{
    let first = group_of(alloc, first)?;
    let second = group_of(alloc, second)?;
    Ok(Box::new(alloc, (first, second))?)
}

// Whether these bodies are the expected ones, as far as there are both.
fn agree(bodies: &[Vec<u8>], expected: &[&[u8]]) -> bool {
    for (body, expected) in bodies.iter().zip(expected.iter()) {
        if body.as_slice() != *expected {
            return false;
        }
    }
    true
}

// Whether there are as many bodies as were acknowledged, or more, and each is a whole one.
fn are_whole(alloc: Global, disk: &mut SimDisk, acknowledged: u64) -> Result<bool, JournalFault> {
    let bodies = read_all(alloc, disk)?;
    Ok(agree(&bodies, &[FIRST, SECOND]) && acknowledged <= bodies.len() as u64)
}

// Appends both groups to a disk that stops at this call, and says how many were acknowledged, and whether what there is
// after a crash are whole ones.
fn stopped(alloc: Global, stop: u64, choice: u64) -> Result<(u64, bool), Fail> {
    let groups = two_groups(alloc, FIRST, SECOND)?;
    let mut disk = Box::new(alloc, SimDisk::of(alloc, &[0], b"")?)?;
    disk.fuse_after(stop);
    let acknowledged = append_two(&mut *disk, &groups.0, &groups.1);
    disk.crash(choice)?;
    Ok((acknowledged, are_whole(alloc, &mut disk, acknowledged)?))
}

// Stopped at each device call, and after each choice of a crash, there is never less than what was acknowledged, and
// never a part of a group.
#[test]
fn each_stop(rt: HostRuntime) -> Result<(), Fail> {
    for stop in 0..9 {
        for choice in &[0, 1, 2, 3, 5, 10] {
            let came = stopped(rt.alloc(), stop, *choice)?;
            assert_eq!(rt; came, (stop / 4, true), "stop {stop}, choice {choice}");
        }
    }
    Ok(())
}

// Appends both groups to a disk of which this call fails, and says how many were acknowledged, how many calls failed,
// and whether what there is are whole ones.
fn failing(alloc: Global, call: u64) -> Result<(u64, u64, bool), Fail> {
    let groups = two_groups(alloc, FIRST, SECOND)?;
    let mut disk = Box::new(alloc, SimDisk::of(alloc, &[0], b"")?)?;
    disk.fail_once(call);
    let acknowledged = append_two(&mut *disk, &groups.0, &groups.1);
    let failures = disk.failures();
    let is_whole = are_whole(alloc, &mut disk, acknowledged)?;
    Ok((acknowledged, failures, is_whole))
}

// One failing call at each place: the answer is Device, and what the file then gives is never a part.
#[test]
fn each_fault(rt: HostRuntime) -> Result<(), Fail> {
    for call in 0..8 {
        let came = failing(rt.alloc(), call)?;
        assert_eq!(rt; came, (call / 4, 1, true), "call {call}");
    }
    Ok(())
}

// Whether the first file begins with these bytes.
fn begins(disk: &mut SimDisk, expected: &[u8; 14]) -> Result<bool, DiskFault> {
    let mut bytes = [0xee; 14];
    if disk.len(FileId::A)? >= 14 {
        disk.read_at(FileId::A, 0, &mut bytes)?;
    }
    Ok(bytes == *expected)
}

// How many calls two groups make, and whether the first file begins with these bytes then.
fn written(alloc: Global, expected: &[u8; 14]) -> Result<(u64, bool), Fail> {
    let groups = two_groups(alloc, b"abc", b"")?;
    let mut disk = Box::new(alloc, SimDisk::of(alloc, &[0], b"other")?)?;
    append_two(&mut *disk, &groups.0, &groups.1);
    let calls = disk.calls();
    let is_begun = begins(&mut disk, expected)?;
    Ok((calls, is_begun))
}

// The bytes of two groups, and their four calls each.
#[test]
fn written_form(rt: HostRuntime) -> Result<(), Fail> {
    let form = b"\x01\x00\x00\x00\x03abc\x01\x00\x00\x00\x00\x00";
    assert_eq!(rt; written(rt.alloc(), form)?, (8, true));
    Ok(())
}

// The bodies that the format finds in these bytes, if each leading open group is whole.
fn bodies_of<'a>(alloc: Global, mut file: &'a [u8]) -> Result<Option<Vec<&'a [u8]>>, AllocError> {
    let mut bodies = Vec::new(alloc);
    while let [1, a, b, c, d, rest @ ..] = file {
        let count = u32::from_be_bytes([*a, *b, *c, *d]) as usize;
        if count > rest.len() {
            return Ok(None);
        }
        bodies.push(&rest[..count])?;
        file = &rest[count..];
    }
    Ok(match file {
        [] | [1, ..] => None,
        _ => Some(bodies),
    })
}

fn are_same(found: &[Vec<u8>], expected: &[&[u8]]) -> bool {
    agree(found, expected) && found.len() == expected.len()
}

fn found_in(alloc: Global, file: &[u8]) -> Result<Result<Vec<Vec<u8>>, JournalFault>, AllocError> {
    let mut disk = SimDisk::of(alloc, file, b"")?;
    Ok(read_all(alloc, &mut disk))
}

// Whether bodies were found where the format finds these, and Damaged where it finds none.
fn is_right(found: &Result<Vec<Vec<u8>>, JournalFault>, expected: &Option<Vec<&[u8]>>) -> bool {
    match (found, expected) {
        (Ok(found), Some(expected)) => are_same(found, expected),
        (Err(JournalFault::Damaged), None) => true,
        _ => false,
    }
}

fn is_read_right(alloc: Global, file: &[u8]) -> Result<bool, AllocError> {
    let expected = bodies_of(alloc, file)?;
    let found = found_in(alloc, file)?;
    Ok(is_right(&found, &expected))
}

fn changed(alloc: Global, file: &[u8], place: usize, byte: u8) -> Result<Vec<u8>, AllocError> {
    let mut bytes = Vec::from_slice(alloc, file)?;
    if place < bytes.len() {
        bytes[place] = byte;
    }
    Ok(bytes)
}

fn is_right_if_changed(
    alloc: Global,
    file: &[u8],
    place: usize,
    byte: u8,
) -> Result<bool, AllocError> {
    let damaged = changed(alloc, file, place, byte)?;
    is_read_right(alloc, &damaged)
}

// Damaged at any byte, in any way, a file is answered as the format reads it, or as Damaged.
#[test]
fn damaged_bytes(rt: HostRuntime) -> Result<(), Fail> {
    let alloc = rt.alloc();
    let file = b"\x01\x00\x00\x00\x02ab\x01\x00\x00\x00\x01c\x00rest".as_slice();
    for place in 0..file.len() {
        for byte in &[0, 1, 2, 5, 12, 255] {
            assert!(rt;
                is_right_if_changed(alloc, file, place, *byte)?,
                "{byte} at {place}"
            );
        }
    }
    Ok(())
}

// Puts a few bytes behind those of a small group.
fn extend(group: &mut Group, piece: &[u8]) -> Result<(), Fail> {
    if group.len() > 100 || piece.len() > 100 {
        return Err("the group has grown too far".into());
    }
    group.extend(piece)?;
    Ok(())
}

// A group of `abcde`, in three pieces.
fn grown(alloc: Global) -> Result<Box<Group>, Fail> {
    let mut group = Box::new(alloc, Group::new(alloc)?)?;
    for piece in [b"abc".as_slice(), b"", b"de"] {
        extend(&mut group, piece)?;
    }
    Ok(group)
}

fn assert_holds(rt: &impl Abort, group: &Group, bytes: &[u8]) {
    assert!(rt; group.as_bytes() == bytes);
}

fn is_empty_at_first(alloc: Global) -> Result<bool, AllocError> {
    Ok(Group::new(alloc)?.is_empty())
}

#[test]
fn growing(rt: HostRuntime) -> Result<(), Fail> {
    assert!(rt; is_empty_at_first(rt.alloc())?);
    let group = grown(rt.alloc())?;
    assert_eq!(rt; group.len(), 5);
    assert_holds(&rt, &group, b"\x00\x00\x00\x05abcde\x00");
    Ok(())
}

#[test]
fn shrinking(rt: HostRuntime) -> Result<(), Fail> {
    let mut group = grown(rt.alloc())?;
    if group.len() == 5 {
        group.truncate(2);
    }
    assert_holds(&rt, &group, b"\x00\x00\x00\x02ab\x00");
    group.clear();
    assert_holds(&rt, &group, &[0; 5]);
    group.reserve(3)?;
    group.put(b"fgh");
    assert_holds(&rt, &group, b"\x00\x00\x00\x03fgh\x00");
    Ok(())
}

fn assert_length(rt: &impl Abort, group: &Group, length: usize) {
    assert_eq!(rt; group.len(), length);
    assert_eq!(rt; group.as_bytes().len(), group.len() + 5);
}

// Where its growth is refused (`rt try --test --fail-alloc N`), a group stays as it was.
#[test]
fn refused_growth(rt: HostRuntime) -> Result<(), Fail> {
    let mut group = Group::new(rt.alloc())?;
    let length = match group.extend(FIRST) {
        Ok(()) => FIRST.len(),
        Err(_) => 0,
    };
    assert_length(&rt, &group, length);
    Ok(())
}
