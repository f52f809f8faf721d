//! Names that don't lead to the files of a disk.
use disk_model::{Disk, DiskFault, FileId};
use file_disk::{FileDisk, OpenError, others_may_write};
use std::fs;
use std::fs::Permissions;
use std::os::unix::fs::{PermissionsExt, symlink};
use std::process::Abort;
use std::test::Fail;

// An empty directory.
fn fresh(rt: &HostRuntime, directory: &str) -> Result<(), Fail> {
    let _ = fs::remove_dir_all(rt, directory);
    fs::create_dir(rt, directory)?;
    Ok(())
}

fn disk_of(rt: &HostRuntime, directory: &str) -> Result<Box<FileDisk>, Fail> {
    Ok(Box::new(rt.alloc(), FileDisk::open(rt, directory)?)?)
}

// Writes at the first place, as the making of a file anew begins; at another place, as a group is put; and how many
// calls have failed then.
fn writes(disk: &mut FileDisk) -> (Result<(), DiskFault>, Result<(), DiskFault>, u64) {
    let first = disk.write_at(FileId::B, 0, &[0]);
    let later = disk.write_at(FileId::B, 8, &[0]);
    (first, later, disk.failures())
}

const REFUSED: (Result<(), DiskFault>, Result<(), DiskFault>, u64) = (Err(DiskFault), Ok(()), 1);

fn assert_seen(rt: &impl Abort, disk: &mut FileDisk, file: FileId, what: &str) {
    assert!(rt; writes(disk) == REFUSED, "{what}");
    assert!(rt; disk.strayed() == Some(file), "{what}");
}

fn assert_unseen(rt: &impl Abort, disk: &mut FileDisk) {
    assert!(rt; writes(disk) == (Ok(()), Ok(()), 0));
    assert!(rt; disk.strayed() == None);
}

#[test]
fn files_in_place(rt: HostRuntime) -> Result<(), Fail> {
    fresh(&rt, "still")?;
    let mut disk = disk_of(&rt, "still")?;
    assert_unseen(&rt, &mut disk);
    Ok(())
}

#[test]
fn removed_file(rt: HostRuntime) -> Result<(), Fail> {
    fresh(&rt, "removed")?;
    let mut disk = disk_of(&rt, "removed")?;
    fs::remove_file(&rt, "removed/natgw.a")?;
    assert_seen(&rt, &mut disk, FileId::A, "removed");
    Ok(())
}

#[test]
fn renamed_file(rt: HostRuntime) -> Result<(), Fail> {
    fresh(&rt, "renamed")?;
    let mut disk = disk_of(&rt, "renamed")?;
    fs::rename(&rt, "renamed/natgw.b", "renamed/old")?;
    assert_seen(&rt, &mut disk, FileId::B, "renamed");
    Ok(())
}

// Another file takes its place, as a backup that is put back does.
#[test]
fn replaced_file(rt: HostRuntime) -> Result<(), Fail> {
    fresh(&rt, "replaced")?;
    let mut disk = disk_of(&rt, "replaced")?;
    fs::write(&rt, "replaced/new", b"new".as_slice())?;
    fs::rename(&rt, "replaced/new", "replaced/natgw.a")?;
    assert_seen(&rt, &mut disk, FileId::A, "replaced");
    Ok(())
}

// It is the open file, but only through a link.
#[test]
fn linked_file(rt: HostRuntime) -> Result<(), Fail> {
    fresh(&rt, "linked")?;
    let mut disk = disk_of(&rt, "linked")?;
    fs::rename(&rt, "linked/natgw.b", "linked/old")?;
    symlink(&rt, "old", "linked/natgw.b")?;
    assert_seen(&rt, &mut disk, FileId::B, "linked");
    Ok(())
}

#[test]
fn moved_directory(rt: HostRuntime) -> Result<(), Fail> {
    let _ = fs::remove_dir_all(&rt, "away");
    fresh(&rt, "moved")?;
    let mut disk = disk_of(&rt, "moved")?;
    fs::rename(&rt, "moved", "away")?;
    assert_seen(&rt, &mut disk, FileId::A, "moved");
    Ok(())
}

fn is_no_file(rt: &HostRuntime, directory: &str, file: FileId) -> bool {
    matches!(FileDisk::open(rt, directory), Err(OpenError::NotFile(found)) if found == file)
}

// A link isn't followed to a file: not to one that is there, which stays as it was, and not to make one.
#[test]
fn links_are_refused(rt: HostRuntime) -> Result<(), Fail> {
    fresh(&rt, "links")?;
    fs::write(&rt, "links/target", b"target".as_slice())?;
    symlink(&rt, "target", "links/natgw.b")?;
    assert!(rt; is_no_file(&rt, "links", FileId::B));
    assert!(rt; fs::read(&rt, "links/target")?.as_slice() == b"target".as_slice());
    Ok(())
}

#[test]
fn links_to_nothing_are_refused(rt: HostRuntime) -> Result<(), Fail> {
    fresh(&rt, "dangling")?;
    symlink(&rt, "nothing", "dangling/natgw.a")?;
    assert!(rt; is_no_file(&rt, "dangling", FileId::A));
    assert!(rt; !fs::exists(&rt, "dangling/nothing")?);
    Ok(())
}

fn is_one_file(rt: &HostRuntime, directory: &str) -> bool {
    matches!(FileDisk::open(rt, directory), Err(OpenError::OneFile))
}

#[test]
fn one_file_under_both_names(rt: HostRuntime) -> Result<(), Fail> {
    fresh(&rt, "twice")?;
    fs::write(&rt, "twice/natgw.a", b"once".as_slice())?;
    fs::hard_link(&rt, "twice/natgw.a", "twice/natgw.b")?;
    assert!(rt; is_one_file(&rt, "twice"));
    assert!(rt; fs::read(&rt, "twice/natgw.a")?.as_slice() == b"once".as_slice());
    Ok(())
}

// Modes of a directory, and whether others than its owner may write to it.
const MODES: [(u32, bool); 6] = [
    (0o700, false),
    (0o755, false),
    (0o2755, false),
    (0o770, true),
    (0o702, true),
    (0o1777, true),
];

#[test]
fn directories_of_others(rt: HostRuntime) -> Result<(), Fail> {
    fresh(&rt, "modes")?;
    for (mode, expected) in &MODES {
        fs::set_permissions(&rt, "modes", Permissions::from_mode(*mode))?;
        assert!(rt; others_may_write(&rt, "modes")? == *expected, "{mode}");
    }
    Ok(())
}
