//! A disk over files in memory.
use disk_model::{Disk, DiskFault, FileId};
use file_disk::{DiskFile, FileDisk};
use std::alloc::Global;
use std::process::Abort;
use std::test::Fail;
use trial_file::{MemoryDirectory, MemoryFile, opened_disk, through};

#[test]
fn bytes_come_back(rt: HostRuntime) -> Result<(), Fail> {
    let back = through(rt.alloc(), b"bytes").ok_or("no memory")?;
    assert!(rt; back.as_slice() == b"bytes".as_slice());
    Ok(())
}

fn bytes_of(disk: &mut FileDisk<MemoryFile>, file: FileId) -> Result<[u8; 3], DiskFault> {
    if disk.len(file)? < 3 {
        return Err(DiskFault);
    }
    let mut bytes = [7; 3];
    disk.read_at(file, 0, &mut bytes)?;
    Ok(bytes)
}

// A file that has bytes keeps them, and an empty one has zeros.
#[test]
fn opened(rt: HostRuntime) -> Result<(), Fail> {
    let mut directory = MemoryDirectory {
        alloc: rt.alloc(),
        a: vec![in rt.alloc(); 1, 2, 3]?,
        b: Vec::new(rt.alloc()),
    };
    let mut disk = opened_disk(&mut directory)?;
    assert!(rt; disk.len(FileId::A)? == 3 && disk.len(FileId::B)? == 8);
    assert!(rt; bytes_of(&mut disk, FileId::A)? == [1, 2, 3]);
    assert!(rt; bytes_of(&mut disk, FileId::B)? == [0; 3]);
    Ok(())
}
