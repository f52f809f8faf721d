//! A file in memory.
ghost use Rattle.std.specs.Prelude.{◌≡◌, ◌+◌, ◌≤◌, length, true, false, IfOk, OnOk, OnErr, ⊤};
ghost use Rattle.std.proofs.Common.{inl, refl};
ghost use Rattle.disk_model.specs.Disk.{put};
ghost use Rattle.trial_file.specs.Held.{MayLeave, IsInPlace, bytes_of};

use file_disk::DiskFile;
use std::alloc::{AllocError, Global};
use std::io::{self, Error, ErrorKind};
use std::marker::Model;

/// A file in memory. A crash leaves what it reads as, or what it was at its last sync.
#[derive(Drop)]
pub struct MemoryFile {
    alloc: Global,
    bytes: Vec<u8>,
    synced: Vec<u8>,
    in_place: bool,
}

impl Model for MemoryFile {
    ghost use Rattle.trial_file.specs.Held.{Held};

    ghost Value = { Held };

    ghost view = { λ f. record {
      bytes = f.bytes.items;
      synced = f.synced.items;
      in_place = f.in_place;
    } };
}

impl MemoryFile {
    /// A file of these bytes, synced and in place.
    ///
    /// # Errors
    ///
    /// `AllocError` if memory is refused.
    pub fn of(alloc: Global, bytes: &[u8]) -> Result<MemoryFile, AllocError>
        ensures { IfOk result (λ file. file ≡ (record {
          bytes = bytes.now;
          synced = bytes.now;
          in_place = true;
        })) }
    {
        Ok(MemoryFile {
            alloc,
            bytes: Vec::from_slice(alloc, bytes)?,
            synced: Vec::from_slice(alloc, bytes)?,
            in_place: true,
        })
    }

    /// From now on its name leads elsewhere.
    pub fn move_away(&mut self)
        ensures { self.new ≡ record self.old { in_place = false } }
    {
        self.in_place = false;
    }
}

// Puts bytes at a place of a file, or changes nothing.
fn place(file: &mut Vec<u8>, at: usize, bytes: &[u8]) -> Result<(), AllocError>
    requires { at ≤ length file.old.items }
    ensures ok { OnOk result (file.new.items ≡ put at bytes.now file.old.items) }
    ensures err { OnErr result (file.new.items ≡ file.old.items) }
{
    let within = bytes.len().min(file.len() - at);
    let (front, rest) = bytes.split_at(within);
    file.extend_from_slice(rest)?;
    overwrite(file, at, front);
    Ok(())
}

fn overwrite(file: &mut [u8], at: usize, bytes: &[u8])
    requires { at + length bytes.now ≤ length file.old }
    ensures { file.new ≡ put at bytes.now file.old }
{
    file[at..at + bytes.len()].copy_from_slice(bytes);
}

impl DiskFile for MemoryFile {
    ghost honest = { λ _. ⊤ };

    ghost holds = { bytes_of };

    ghost leaves = { λ file. MayLeave file };

    ghost in_place = { IsInPlace };

    ghost lacks_space = { λ _. ⊥ };

    ghost reads = { λ _ _. inl refl };

    fn length(&mut self) -> io::Result<u64> {
        Ok(self.bytes.len() as u64)
    }

    fn read_fully(&mut self, at: u64, bytes: &mut [u8]) -> io::Result<()> {
        let len = self.bytes.len();
        if at as usize > len || bytes.len() > len - at as usize {
            return Err(Error::from(ErrorKind::UnexpectedEof));
        }
        bytes.copy_from_slice(&self.bytes[at as usize..][..bytes.len()]);
        Ok(())
    }

    fn write_fully(&mut self, at: u64, bytes: &[u8]) -> io::Result<()> {
        if at as usize > self.bytes.len() {
            return Err(Error::from(ErrorKind::InvalidInput));
        }
        match place(&mut self.bytes, at as usize, bytes) {
            Ok(()) => Ok(()),
            Err(_) => Err(Error::from(ErrorKind::OutOfMemory)),
        }
    }

    fn sync_file(&mut self) -> io::Result<()> {
        match Vec::from_slice(self.alloc, &self.bytes) {
            Ok(copy) => {
                self.synced = copy;
                Ok(())
            }
            Err(_) => Err(Error::from(ErrorKind::OutOfMemory)),
        }
    }

    fn lengthen(&mut self, to: u64) -> io::Result<()> {
        if (to as usize) < self.bytes.len() {
            return Err(Error::from(ErrorKind::InvalidInput));
        }
        match self.bytes.resize(to as usize, 0) {
            Ok(()) => Ok(()),
            Err(_) => Err(Error::from(ErrorKind::OutOfMemory)),
        }
    }

    fn sync_opened(&mut self) -> io::Result<()> {
        self.sync_file()
    }

    fn is_in_place(&self) -> io::Result<bool> {
        Ok(self.in_place)
    }
}
