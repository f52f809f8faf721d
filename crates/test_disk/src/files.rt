//! What real files keep, and which directories are refused.
use disk_model::{Disk, DiskFault, FileId};
use file_disk::{FileDisk, OpenError, name_of};
use std::fs;
use std::fs::OpenOptions;
use std::os::unix::fs::PermissionsExt;
use std::process::Abort;
use std::test::Fail;

// An empty directory.
fn fresh(rt: &HostRuntime, directory: &str) -> Result<(), Fail> {
    let _ = fs::remove_dir_all(rt, directory);
    fs::create_dir(rt, directory)?;
    Ok(())
}

fn disk_of(rt: &HostRuntime, directory: &str) -> Result<Box<FileDisk>, Fail> {
    Ok(Box::new(rt.alloc(), FileDisk::open(rt, directory)?)?)
}

// The length of a new file.
const ROOM: u64 = 524_288;

// Whether a file begins with these bytes, and has zeros behind them up to its first length.
fn is_file(rt: &HostRuntime, path: &str, expected: &[u8]) -> Result<bool, Fail> {
    let bytes = fs::read(rt, path)?;
    let Some(behind) = bytes.as_slice().strip_prefix(expected) else {
        return Ok(false);
    };
    Ok(bytes.len() as u64 == ROOM && behind.iter().all(|byte| *byte == 0))
}

fn put(disk: &mut FileDisk, file: FileId, at: u64, bytes: &[u8]) -> Result<(), DiskFault> {
    disk.write_at(file, at, bytes)
}

fn get(disk: &mut FileDisk, file: FileId, at: u64, bytes: &mut [u8]) -> Result<(), DiskFault> {
    disk.read_at(file, at, bytes)
}

// The lengths of both files.
fn lengths(disk: &mut FileDisk) -> Result<(u64, u64), DiskFault> {
    let first = disk.len(FileId::A)?;
    let second = disk.len(FileId::B)?;
    Ok((first, second))
}

// Writes both files, the first in two pieces, and syncs them.
fn write_both(disk: &mut FileDisk) -> Result<(), DiskFault> {
    let writes: [(FileId, u64, &[u8]); 3] = [
        (FileId::A, 0, b"first file"),
        (FileId::B, 0, b"second"),
        (FileId::A, 6, b"FILE, longer"),
    ];
    for (file, at, bytes) in writes {
        put(disk, file, at, bytes)?;
    }
    disk.sync(FileId::A)?;
    disk.sync(FileId::B)
}

fn written(rt: &HostRuntime, directory: &str) -> Result<(), Fail> {
    fresh(rt, directory)?;
    let mut disk = disk_of(rt, directory)?;
    if lengths(&mut disk)? != (ROOM, ROOM) {
        return Err("the new files have another length".into());
    }
    write_both(&mut disk)?;
    Ok(())
}

// Eight bytes in the middle of the first file.
fn middle(disk: &mut FileDisk) -> Result<[u8; 8], DiskFault> {
    let mut bytes = [0; 8];
    get(disk, FileId::A, 4, &mut bytes)?;
    Ok(bytes)
}

fn assert_kept(rt: &impl Abort, disk: &mut FileDisk) -> Result<(), Fail> {
    assert!(rt; lengths(disk)? == (ROOM, ROOM));
    assert!(rt; middle(disk)? == *b"t FILE, ");
    assert!(rt; disk.failures() == 0);
    Ok(())
}

#[test]
fn written_bytes_come_back(rt: HostRuntime) -> Result<(), Fail> {
    written(&rt, "kept")?;
    let mut disk = disk_of(&rt, "kept/")?;
    assert_kept(&rt, &mut disk)
}

const WRITTEN: [(&str, &[u8]); 2] = [
    ("files/natgw.a", b"first FILE, longer"),
    ("files/natgw.b", b"second"),
];

const NAMES: [(FileId, &str); 2] = [(FileId::A, "natgw.a"), (FileId::B, "natgw.b")];

#[test]
fn written_bytes_stand_in_the_files(rt: HostRuntime) -> Result<(), Fail> {
    written(&rt, "files")?;
    for (path, expected) in &WRITTEN {
        assert!(rt; is_file(&rt, path, *expected)?, "{path}");
    }
    for (file, name) in &NAMES {
        assert!(rt; name_of(*file) == *name, "{name}");
    }
    Ok(())
}

fn is_private(rt: &HostRuntime, path: &str) -> Result<bool, Fail> {
    Ok(fs::metadata(rt, path)?.permissions().mode() & 0o777 == 0o600)
}

// The sessions are for no one else to read.
#[test]
fn access_of_the_owner_alone(rt: HostRuntime) -> Result<(), Fail> {
    written(&rt, "private")?;
    for path in &["private/natgw.a", "private/natgw.b"] {
        assert!(rt; is_private(&rt, path)?, "{path}");
    }
    Ok(())
}

// Three bytes at this place of the second file, if it has so many, and how many calls have failed then.
fn three(disk: &mut FileDisk, at: u64) -> (Option<[u8; 3]>, u64) {
    let mut bytes = [7; 3];
    let read = get(disk, FileId::B, at, &mut bytes);
    (read.ok().map(|()| bytes), disk.failures())
}

fn read_past_the_end(rt: &impl Abort, disk: &mut FileDisk) -> Result<(), Fail> {
    put(disk, FileId::B, ROOM + 2, b"xy")?;
    for (at, expected) in [(ROOM + 2, None), (ROOM + 1, Some(*b"\0xy"))] {
        assert!(rt; three(disk, at) == (expected, 1), "{at}");
    }
    get(disk, FileId::B, ROOM + 4, &mut [])?;
    assert!(rt; disk.failures() == 1);
    Ok(())
}

// A read past the end fails, and counts; a write there leaves zeros between.
#[test]
fn past_the_end(rt: HostRuntime) -> Result<(), Fail> {
    fresh(&rt, "ends")?;
    let mut disk = disk_of(&rt, "ends")?;
    read_past_the_end(&rt, &mut disk)
}

fn length_of(rt: &HostRuntime, path: &str) -> Result<u64, Fail> {
    Ok(fs::metadata(rt, path)?.len())
}

fn write_past_all_places(rt: &impl Abort, disk: &mut FileDisk) -> Result<(), Fail> {
    put(disk, FileId::B, ROOM + 2, b"xy")?;
    assert!(rt; put(disk, FileId::B, u64::MAX, b"z").is_err());
    assert!(rt; disk.failures() == 1);
    Ok(())
}

#[test]
fn past_all_places(rt: HostRuntime) -> Result<(), Fail> {
    fresh(&rt, "places")?;
    let mut disk = disk_of(&rt, "places")?;
    write_past_all_places(&rt, &mut disk)?;
    drop(disk);
    for (path, expected) in &[("places/natgw.b", ROOM + 4), ("places/natgw.a", ROOM)] {
        assert!(rt; length_of(&rt, path)? == *expected, "{path}");
    }
    Ok(())
}

// A file that has bytes keeps them alone.
#[test]
fn old_files_stay_as_long(rt: HostRuntime) -> Result<(), Fail> {
    fresh(&rt, "old")?;
    fs::write(&rt, "old/natgw.a", b"old".as_slice())?;
    drop(disk_of(&rt, "old")?);
    for (path, expected) in &[("old/natgw.a", 3), ("old/natgw.b", ROOM)] {
        assert!(rt; length_of(&rt, path)? == *expected, "{path}");
    }
    Ok(())
}

// A file that is longer than natgw writes one is taken to end there.
#[test]
fn long_files_end_at_the_limit(rt: HostRuntime) -> Result<(), Fail> {
    fresh(&rt, "long")?;
    fs::write(&rt, "long/natgw.b", b"long".as_slice())?;
    let file = OpenOptions::new().write(true).open(&rt, "long/natgw.b")?;
    file.set_len(67_108_865)?;
    let mut disk = disk_of(&rt, "long")?;
    assert!(rt; lengths(&mut disk)? == (ROOM, 67_108_864));
    Ok(())
}

fn is_locked(rt: &HostRuntime, directory: &str) -> bool {
    matches!(FileDisk::open(rt, directory), Err(OpenError::Locked))
}

// Whether there is no second disk beside this one, not where its first file has gone either.
fn is_alone(rt: &HostRuntime, _first: &FileDisk) -> Result<bool, Fail> {
    let is_alone = is_locked(rt, "locked");
    fs::remove_file(rt, "locked/natgw.a")?;
    Ok(is_alone && is_locked(rt, "locked"))
}

// While one disk lives there is no second one, and once it is dropped there is.
#[test]
fn one_disk_a_directory(rt: HostRuntime) -> Result<(), Fail> {
    fresh(&rt, "locked")?;
    let first = disk_of(&rt, "locked")?;
    let is_alone = is_alone(&rt, &first);
    drop(first);
    assert!(rt; is_alone?);
    assert!(rt; !is_locked(&rt, "locked"));
    let _second = disk_of(&rt, "locked")?;
    Ok(())
}

fn is_missing(rt: &HostRuntime, directory: &str) -> bool {
    matches!(FileDisk::open(rt, directory), Err(OpenError::Missing))
}

#[test]
fn missing_directories(rt: HostRuntime) -> Result<(), Fail> {
    fresh(&rt, "empty")?;
    assert!(rt; is_missing(&rt, "empty/none") && is_missing(&rt, ""));
    assert!(rt; !fs::exists(&rt, "empty/none")?);
    Ok(())
}

fn is_no_directory(rt: &HostRuntime, directory: &str) -> bool {
    matches!(FileDisk::open(rt, directory), Err(OpenError::NotDirectory))
}

#[test]
fn no_directories(rt: HostRuntime) -> Result<(), Fail> {
    fresh(&rt, "other")?;
    fs::write(&rt, "other/file", b"x".as_slice())?;
    assert!(rt; is_no_directory(&rt, "other/file"));
    assert!(rt; is_no_directory(&rt, "other/file/in"));
    Ok(())
}

// What is said of a directory that is refused by the system.
fn refusal(rt: &HostRuntime, directory: &str) -> Result<String, Fail> {
    match FileDisk::open(rt, directory) {
        Err(OpenError::File(file, error)) => Ok(format!(in rt.alloc();
            "{}",
            OpenError::File(file, error)
        )?),
        _ => Err("not refused by the system".into()),
    }
}

#[test]
fn refused_directories(rt: HostRuntime) -> Result<(), Fail> {
    fresh(&rt, "refused")?;
    fs::create_dir(&rt, "refused/natgw.b")?;
    let found = refusal(&rt, "refused")?;
    let expected = "natgw.b can't be opened there: Is a directory (os error 21)";
    assert!(rt; found.as_str() == expected);
    Ok(())
}
