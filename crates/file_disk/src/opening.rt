//! The files of a directory are opened.
ghost use Rattle.std.specs.Prelude.{◌≡◌, ◌≢◌, ◌/◌, ◌%◌, ◌⊎◌, ◌↔◌, IfOk, IsTrue};
ghost use Rattle.file_disk.specs.Named.{file_name};
ghost use Rattle.file_disk.specs.Refused.{IsLockToldAs, IsToldAs, IsToldOf};
ghost use Rattle.file_disk.specs.declared.opening.OpenError.TheVariants.{NoMemory};

use crate::{Directory, DiskFile, FileDisk, HeldFile, open_in};
use disk_model::FileId;
use std::alloc::AllocError;
use std::fs::{self, File, Metadata, OpenOptions, TryLockError};
use std::io::{self, ErrorKind};
use std::os::fd::AsRawFd;
use std::os::unix::fs::{MetadataExt, OpenOptionsExt, PermissionsExt};

/// Why the files of a directory can't be had.
#[derive(Clone, Copy, Debug, Drop, thiserror::Error)]
pub enum OpenError {
    /// Nothing stands at the path of the directory.
    #[error("there is no such directory: make it, or name another one")]
    Missing,
    /// What stands there is no directory.
    #[error("that is no directory: name another one")]
    NotDirectory,
    /// What stands at the name of this file is none.
    #[error("{name} there is no regular file: move it away", name = name_of(*.0))]
    NotFile(FileId),
    /// Both names lead to one file.
    #[error("natgw.a and natgw.b are one file there: move one of them away")]
    OneFile,
    /// A name led to another file, or the path to another directory, before the files were open.
    #[error("that directory was changed while it was opened: start again")]
    Changed,
    /// Another program has the files.
    #[error("another program works in that directory: stop it, or name another one")]
    Locked,
    /// A call of the system on this file has failed.
    #[error("{name} can't be opened there: {1}", name = name_of(*.0))]
    File(FileId, io::Error),
    /// A call of the system on the directory has failed.
    #[error("natgw.a and natgw.b can't be opened there: {0}")]
    System(io::Error),
    /// Memory was refused.
    #[error("out of memory")]
    NoMemory,
}

impl From<AllocError> for OpenError {
    ghost from_gives = { λ _ e. e ≡ NoMemory };

    fn from(_: AllocError) -> Self {
        OpenError::NoMemory
    }
}

impl From<io::Error> for OpenError {
    ghost from_gives = { λ error told. IsToldAs error told };

    fn from(error: io::Error) -> Self {
        match error.kind() {
            ErrorKind::OutOfMemory => OpenError::NoMemory,
            _ => OpenError::System(error),
        }
    }
}

impl From<TryLockError> for OpenError {
    ghost from_gives = { λ error told. IsLockToldAs error told };

    fn from(error: TryLockError) -> Self {
        match error {
            TryLockError::WouldBlock => OpenError::Locked,
            TryLockError::Error(error) => OpenError::from(error),
        }
    }
}

// The error of this file, where the system refused a call on it.
pub(crate) fn of_file(file: FileId, error: OpenError) -> OpenError
    ensures { IsToldOf file error result }
{
    match error {
        OpenError::System(error) => OpenError::File(file, error),
        other => other,
    }
}

/// The name of a file in its directory.
pub fn name_of(file: FileId) -> &'static str
    ensures { result.now ≡ file_name file }
{
    match file {
        FileId::A => "natgw.a",
        FileId::B => "natgw.b",
    }
}

/// The file of a disk whose name was found to lead elsewhere, or nowhere (`FileDisk::strayed`). Its text is one line.
#[derive(Clone, Copy, Debug, PartialEq, Eq, Drop, thiserror::Error)]
#[error("{name} was removed, renamed or replaced: put it back if you have it, and start anew", name = name_of(*.0))]
pub struct Strayed(pub FileId);

// The other one of the two files.
fn other(file: FileId) -> FileId
    ensures { result ≢ file }
{
    match file {
        FileId::A => FileId::B,
        FileId::B => FileId::A,
    }
}

// A directory, to be synced.
fn open_directory(rt: &HostRuntime, directory: &str) -> Result<File, OpenError> {
    match fs::metadata(rt, directory) {
        Ok(found) if found.is_dir() => Ok(File::open(rt, directory)?),
        Ok(_) => Err(OpenError::NotDirectory),
        Err(error) => match error.kind() {
            ErrorKind::NotFound => Err(OpenError::Missing),
            ErrorKind::NotADirectory => Err(OpenError::NotDirectory),
            _ => Err(OpenError::from(error)),
        },
    }
}

// A file, made if it is missing. A link that leads nowhere isn't followed: a file is only made if nothing stands there.
fn open_or_make(rt: &HostRuntime, path: &str, id: FileId) -> Result<File, OpenError> {
    let mut how = OpenOptions::new();
    how.read(true).write(true).mode(0o600);
    match how.open(rt, path) {
        Ok(file) => return Ok(file),
        Err(error) if error.kind() == ErrorKind::NotFound => {}
        Err(error) => return Err(OpenError::from(error)),
    }
    match how.create_new(true).open(rt, path) {
        Ok(file) => Ok(file),
        Err(error) if error.kind() == ErrorKind::AlreadyExists => Err(OpenError::NotFile(id)),
        Err(error) => Err(OpenError::from(error)),
    }
}

// The directory of the system at a path, which is open.
#[derive(Drop)]
struct SystemDirectory<'a> {
    rt: &'a HostRuntime,
    path: &'a str,
    folder: File,
}

impl SystemDirectory<'_> {
    fn path_of(&self, id: FileId) -> Result<String, AllocError> {
        format!(in self.rt.alloc(); "{}/{}", self.path, name_of(id))
    }

    // Looks whether the name leads to this file, not through a link, and the other name to another one.
    fn look(&self, file: &File, id: FileId, path: &str) -> Result<(), OpenError> {
        let open = file.metadata()?;
        let named = fs::symlink_metadata(self.rt, path)?;
        if !open.is_file() || named.is_symlink() {
            return Err(OpenError::NotFile(id));
        }
        if !is_one(&open, &named) {
            return Err(OpenError::Changed);
        }
        match fs::symlink_metadata(self.rt, self.path_of(other(id))?.as_str()) {
            Ok(beside) if is_one(&open, &beside) => Err(OpenError::OneFile),
            _ => Ok(()),
        }
    }
}

// Whether both are of one file of the system: of one device, with one number there.
fn is_one(first: &Metadata, second: &Metadata) -> bool {
    first.dev() == second.dev() && first.ino() == second.ino()
}

impl Directory for SystemDirectory<'_> {
    type File = HeldFile;

    ghost gives = { λ _ _ _ _. Unit {0} };

    ghost keeps_name = { λ _ _ _. Unit {0} };

    fn open_file(&mut self, id: FileId) -> Result<HeldFile, OpenError> {
        match self.held(id) {
            Ok(file) => Ok(file),
            Err(error) => Err(of_file(id, error)),
        }
    }

    fn sync_names(&self, a: &HeldFile, b: &HeldFile) -> Result<(), OpenError> {
        self.folder.sync_all()?;
        if !is_one(&fs::metadata(self.rt, self.path)?, &self.folder.metadata()?) {
            return Err(OpenError::Changed);
        }
        if !a.is_in_place()? || !b.is_in_place()? {
            return Err(OpenError::Changed);
        }
        Ok(())
    }
}

impl SystemDirectory<'_> {
    // One of the files, made if it is missing, and locked until it is closed.
    fn held(&self, id: FileId) -> Result<HeldFile, OpenError> {
        let path = self.path_of(id)?;
        let mut file = open_or_make(self.rt, path.as_str(), id)?;
        // What is printed on a standard stream that was closed must not land in the file.
        if file.as_raw_fd() <= 2 {
            file = file.try_clone()?;
        }
        self.look(&file, id, path.as_str())?;
        file.try_lock()?;
        Ok(HeldFile::of(self.rt.alloc(), file)?)
    }
}

// So many bytes a new file has: half as many as its groups take before the other one is made anew (`MOST_GROWN` of
// `socket_edge::serving`). An opening reads them. A write that makes a file longer has its sync keep the new length as
// well, which costs the device another write.
const ROOM: u64 = 524_288;

impl FileDisk {
    /// Opens the files `natgw.a` and `natgw.b` of a directory, makes those that are missing, with access for their
    /// owner alone, and locks both until the disk is dropped. A file that is made, or is empty, has 524,288 zeros then,
    /// if there is space for them; of others nothing is changed. Both and the directory are synced, so that a loss of
    /// power leaves no file without its name. No link is followed to a file.
    ///
    /// # Errors
    ///
    /// - `Missing` if there is no such directory. It isn't made.
    /// - `NotDirectory` if that is none, `NotFile` if a file is no regular one, `OneFile` if both names lead to one.
    /// - `Locked` if another program has the files, or a second disk of this one.
    /// - `Changed` if a file or the directory was replaced meanwhile.
    /// - `NoMemory` if memory is refused.
    /// - `File` if another call of the system on a file fails, `System` if one on the directory does.
    pub fn open(rt: &HostRuntime, directory: &str) -> Result<FileDisk, OpenError>
        ensures calls { IfOk result (λ disk. disk.calls ≡ 0) }
        ensures failures { IfOk result (λ disk. disk.failures ≡ 0) }
    {
        let folder = open_directory(rt, directory)?;
        let mut directory = SystemDirectory {
            rt,
            path: directory,
            folder,
        };
        match open_in(&mut directory, ROOM) {
            Ok(disk) => Ok(disk),
            Err(failed) => Err(failed.why),
        }
    }
}

/// Whether others than its owner may write to a directory, so make, remove or replace files there.
///
/// # Errors
///
/// Why that can't be told.
pub fn others_may_write(rt: &HostRuntime, directory: &str) -> io::Result<bool> {
    Ok(lets_others_write(fs::metadata(rt, directory)?.permissions().mode()))
}

// Whether the bits of its mode let the group or all others write.
fn lets_others_write(mode: u32) -> bool
    ensures { IsTrue result ↔ ((mode / 16 % 2 ≡ 1) ⊎ (mode / 2 % 2 ≡ 1)) }
{
    mode / 0o020 % 2 == 1 || mode / 0o002 % 2 == 1
}
