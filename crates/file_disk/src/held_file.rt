//! An open file of a directory, as the system has it.
ghost use Rattle.std.specs.Prelude.{◌≤◌, [], length, IfSome};

use crate::DiskFile;
use journal::LONGEST_FILE;
use std::alloc::{AllocError, Global};
use std::fs::File;
use std::io;
use std::os::fd::AsRawFd;
use std::os::unix::fs::{FileExt, MetadataExt};

// The longest path that the system tells.
const LONGEST_PATH: usize = 4_096;

/// An open file, and where it was when it was opened.
#[derive(Drop)]
pub struct HeldFile {
    file: File,
    // The name of its descriptor under /proc, which is a link that tells where it is.
    link: String,
    // What that told; none if there is no /proc.
    place: Option<Vec<u8>>,
}

// Puts where an open file is in front of `text`, and gives the length, if the system tells it.
fn put_place(link: &str, text: &mut [u8]) -> Option<usize>
    ensures { IfSome result (λ count. count ≤ length text.new) }
{
    let count = os::readlink(link.as_bytes(), text);
    if count < 0 {
        return None;
    }
    Some(count as usize)
}

impl HeldFile {
    /// This open file.
    ///
    /// # Errors
    ///
    /// `AllocError` if memory is refused.
    pub(crate) fn of(alloc: Global, file: File) -> Result<HeldFile, AllocError> {
        let link = format!(in alloc; "/proc/self/fd/{}", file.as_raw_fd())?;
        let mut text = [0; LONGEST_PATH];
        let place = match put_place(link.as_str(), &mut text) {
            Some(count) => Some(Vec::from_slice(alloc, &text[..count])?),
            None => None,
        };
        Ok(HeldFile { file, link, place })
    }
}

// It claims no honesty: nothing is promised of what the system's files keep.
//
// A read or a write goes on if a signal interrupts it, or if it moved only some of the bytes. `sync_file` is fdatasync:
// by POSIX it has the device keep the bytes and what is needed to read them back, so a new length too, and leaves out
// the times of the file, which would cost a second write. A file ends at `LONGEST_FILE`, since no natgw has written
// past it, so that one which somebody made longer is not read whole.
impl DiskFile for HeldFile {
    ghost honest = { λ _. ⊥ };

    ghost holds = { λ _. [] };

    ghost leaves = { λ _ _. ⊥ };

    ghost in_place = { λ _. ⊥ };

    ghost lacks_space = { λ _. Unit {0} };

    ghost reads = { λ _ honest. absurd honest };

    fn length(&mut self) -> io::Result<u64> {
        Ok(self.file.metadata()?.len().min(LONGEST_FILE))
    }

    fn read_fully(&mut self, at: u64, bytes: &mut [u8]) -> io::Result<()> {
        self.file.read_exact_at(bytes, at)
    }

    fn write_fully(&mut self, at: u64, bytes: &[u8]) -> io::Result<()> {
        self.file.write_all_at(bytes, at)
    }

    fn sync_file(&mut self) -> io::Result<()> {
        self.file.sync_data()
    }

    fn lengthen(&mut self, to: u64) -> io::Result<()> {
        self.file.set_len(to)
    }

    // The system may refuse to drop its copy, or leave that undone and not tell.
    fn sync_opened(&mut self) -> io::Result<()> {
        self.file.sync_all()?;
        let _ = libc::posix_fadvise(self.file.as_raw_fd(), 0, 0, libc::POSIX_FADV_DONTNEED);
        Ok(())
    }

    // A file that was removed or replaced has no name, or is told as deleted; one that was renamed, or whose directory
    // was, has another path.
    fn is_in_place(&self) -> io::Result<bool> {
        if self.file.metadata()?.nlink() == 0 {
            return Ok(false);
        }
        let Some(place) = &self.place else {
            return Ok(true);
        };
        let mut text = [0; LONGEST_PATH];
        match put_place(self.link.as_str(), &mut text) {
            Some(count) => Ok(&text[..count] == place.as_slice()),
            None => Ok(false),
        }
    }
}
