//! Two files that may be read.
ghost use Rattle.std.specs.Prelude.{List, ℕ, IfOk, IfErr};
ghost use Rattle.disk_model.specs.declared.disk.FileId.{FileId as Id};
ghost use Rattle.onlooker.specs.Looking.{IsOfSystem};

use crate::LookFault;
use disk_model::FileId;
use file_disk::name_of;
use std::alloc::Global;
use std::fs::File;
use std::io::{self, ErrorKind, Read, Seek, SeekFrom};

/// Two files that may be read, while somebody else may be writing them. There is no call that writes.
pub trait Readable {
    /// Between these two, a read of this file from its start, of at most so many bytes, gave these.
    ghost gives: { Self → Self → Id → ℕ → List ℕ → Type 0 };

    /// The bytes of a file from its start on, at most so many, in order: none is older than the one before it.
    ///
    /// # Errors
    ///
    /// `File` where the read fails, `NoMemory` where memory is refused.
    fn read(&mut self, alloc: Global, file: FileId, most: u64) -> Result<Vec<u8>, LookFault>
        ensures ok { IfOk result (λ bytes. gives self.old self.new file most bytes.items) }
        ensures err { IfErr result IsOfSystem };
}

/// The files `natgw.a` and `natgw.b` of a directory, open to be read alone. No lock is taken.
#[derive(Drop)]
pub struct OpenFiles {
    a: File,
    b: File,
}

fn fault_of(file: FileId, error: io::Error) -> LookFault
    ensures { IsOfSystem result }
{
    match error.kind() {
        ErrorKind::OutOfMemory => LookFault::NoMemory,
        _ => LookFault::File(file, error),
    }
}

fn open_file(
    rt: &HostRuntime,
    alloc: Global,
    directory: &str,
    file: FileId,
) -> Result<File, LookFault>
    ensures { IfErr result IsOfSystem }
{
    let path = format!(in alloc; "{directory}/{}", name_of(file))?;
    match File::open(rt, path.as_str()) {
        Ok(open) => Ok(open),
        Err(error) => Err(fault_of(file, error)),
    }
}

fn read_front(alloc: Global, file: &mut File, most: u64) -> io::Result<Vec<u8>> {
    let mut bytes = Vec::new(alloc);
    file.seek(SeekFrom::Start(0))?;
    file.take(most).read_to_end(&mut bytes)?;
    Ok(bytes)
}

impl OpenFiles {
    /// Opens the two files of a directory.
    ///
    /// # Errors
    ///
    /// `File` where one can't be opened, `NoMemory` where memory is refused.
    pub fn open(rt: &HostRuntime, alloc: Global, directory: &str) -> Result<OpenFiles, LookFault> {
        let a = open_file(rt, alloc, directory, FileId::A)?;
        let b = open_file(rt, alloc, directory, FileId::B)?;
        Ok(OpenFiles { a, b })
    }
}

// Nothing is promised of what the system's files give.
impl Readable for OpenFiles {
    ghost gives = { λ _ _ _ _ _. Unit {0} };

    fn read(&mut self, alloc: Global, file: FileId, most: u64) -> Result<Vec<u8>, LookFault> {
        let open = match file {
            FileId::A => &mut self.a,
            FileId::B => &mut self.b,
        };
        match read_front(alloc, open, most) {
            Ok(bytes) => Ok(bytes),
            Err(error) => Err(fault_of(file, error)),
        }
    }
}
