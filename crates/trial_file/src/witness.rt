//! What is written through a disk over files in memory comes back.
ghost use Rattle.std.specs.Prelude.{◌≡◌, [], IfOk, IfSome, ⊤};
ghost use Rattle.disk_model.specs.declared.disk.FileId.{FileId};
ghost use Rattle.disk_model.specs.Disk.{put};
ghost use Rattle.file_disk.specs.Filed.{OfBoth, both_hold};
ghost use Rattle.trial_file.specs.Held.{bytes_of};

use crate::MemoryFile;
use disk_model::{FileId, contents, write_synced};
use file_disk::FileDisk;
use std::alloc::{AllocError, Global};

/// A disk over two such files. It is honest, and reads as they do.
///
/// # Errors
///
/// `AllocError` if memory is refused.
pub fn disk_over(alloc: Global, a: &[u8], b: &[u8]) -> Result<FileDisk<MemoryFile>, AllocError>
    ensures honest { IfOk result (λ disk. OfBoth (λ _. ⊤) disk) }
    ensures a { IfOk result (λ disk. both_hold bytes_of disk FileId.A ≡ a.now) }
    ensures b { IfOk result (λ disk. both_hold bytes_of disk FileId.B ≡ b.now) }
{
    let a = MemoryFile::of(alloc, a)?;
    let b = MemoryFile::of(alloc, b)?;
    Ok(FileDisk::of(a, b))
}

/// What comes back from the second file of such a disk of what was written there and synced.
pub fn through(alloc: Global, bytes: &[u8]) -> Option<Vec<u8>>
    ensures { IfSome result (λ back. back.items ≡ put 0 bytes.now []) }
{
    match disk_over(alloc, &[], &[]) {
        Ok(mut disk) => match write_synced(&mut disk, FileId::B, 0, bytes) {
            Ok(()) => contents(alloc, &mut disk, FileId::B).ok(),
            Err(_) => None,
        },
        Err(_) => None,
    }
}
