//! A directory in memory.
ghost use Rattle.std.specs.Prelude.{◌≡◌, IfOk};
ghost use Rattle.disk_model.specs.declared.disk.FileId.{FileId};
ghost use Rattle.disk_model.specs.Disk.{pair};
ghost use Rattle.file_disk.specs.Filed.{both_hold};
ghost use Rattle.file_disk.specs.Prepared.{prepared};
ghost use Rattle.trial_file.specs.Held.{bytes_of};

use crate::MemoryFile;
use disk_model::FileId;
use file_disk::{Directory, FileDisk, OpenError, open_in};
use std::alloc::Global;

/// The bytes of both files of a directory.
#[derive(Drop)]
pub struct MemoryDirectory {
    pub alloc: Global,
    pub a: Vec<u8>,
    pub b: Vec<u8>,
}

impl Directory for MemoryDirectory {
    type File = MemoryFile;

    ghost gives = { λ directory file opened later. (opened.bytes
        ≡ pair directory.a.items directory.b.items file) × (later ≡ directory) };

    ghost keeps_name = { λ _ _ _. Unit {0} };

    fn open_file(&mut self, file: FileId) -> Result<MemoryFile, OpenError> {
        let bytes = match file {
            FileId::A => &self.a,
            FileId::B => &self.b,
        };
        Ok(MemoryFile::of(self.alloc, bytes)?)
    }

    // No loss of power takes a name from memory.
    fn sync_names(&self, _a: &MemoryFile, _b: &MemoryFile) -> Result<(), OpenError> {
        Ok(())
    }
}

/// A disk over such a directory. A file that has bytes keeps them, and an empty one has eight zeros then.
///
/// # Errors
///
/// `NoMemory` if memory is refused.
pub fn opened_disk(directory: &mut MemoryDirectory) -> Result<FileDisk<MemoryFile>, OpenError>
    ensures a { IfOk result (λ disk. both_hold bytes_of disk FileId.A
        ≡ prepared 8 directory.old.a.items) }
    ensures b { IfOk result (λ disk. both_hold bytes_of disk FileId.B
        ≡ prepared 8 directory.old.b.items) }
{
    match open_in(directory, 8) {
        Ok(disk) => Ok(disk),
        Err(failed) => Err(failed.why),
    }
}
