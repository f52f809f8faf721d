//! A directory, of which both files are opened.
ghost use Rattle.std.specs.Prelude.{◌≡◌, ◌<◌, IfErr, IfOk, MatchResult, OnOk};
ghost use Rattle.disk_model.specs.declared.disk.FileId.{FileId};
ghost use Rattle.file_disk.specs.Opening.{GivesLeft, GivesPrepared};
ghost use Rattle.file_disk.specs.Prepared.{IsLeft, IsPrepared};

use crate::opening::of_file;
use crate::{DiskFile, FileDisk, OpenError, prepare};
use disk_model::FileId;

/// A directory whose two files can be opened.
pub trait Directory {
    /// An open file.
    type File: DiskFile + Drop;

    /// It is this file that stands at that name, and from the one state to the other the directory gave it, and nothing
    /// else.
    ghost gives: { Self → FileId → Self.File → Self → Type 0 };

    /// A loss of power leaves this file at that name.
    ghost keeps_name: { Self → FileId → Self.File → Type 0 };

    /// Opens one file, made if it is missing, and locks it until it is dropped.
    ///
    /// # Errors
    ///
    /// Why it can't be had.
    fn open_file(&mut self, file: FileId) -> Result<Self::File, OpenError>
        ensures { MatchResult result (λ opened. gives self.old file opened self.new) (λ _.
            self.new ≡ self.old) };

    /// Syncs the names of these two files, `natgw.a` and `natgw.b`, which it has opened.
    ///
    /// # Errors
    ///
    /// Why that can't be done, or that a name no longer leads to its file.
    fn sync_names(&self, a: &Self::File, b: &Self::File) -> Result<(), OpenError>
        ensures { OnOk result (keeps_name self.now FileId.A a.now
            × keeps_name self.now FileId.B b.now) };
}

/// The files that were opened, as they were left.
#[derive(Drop)]
pub enum Left<F: Drop> {
    /// None was.
    Neither,
    /// `natgw.a` alone.
    First(F),
    /// Both, `natgw.a` first.
    Both(F, F),
}

/// No disk was opened: why, and the files that were.
#[derive(Drop)]
pub struct Unopened<F: Drop> {
    pub why: OpenError,
    pub left: Left<F>,
}

// Prepares the file of this name.
fn make_ready<F: DiskFile>(found: &mut F, file: FileId, room: u64) -> Result<(), OpenError>
    requires { 0 < room }
    ensures left { IsLeft F.honest F.holds F.leaves found.old found.new }
    ensures prepared { OnOk result (IsPrepared F.honest F.holds F.leaves F.lacks_space room
        found.old found.new) }
{
    match prepare(found, room) {
        Ok(()) => Ok(()),
        Err(error) => Err(of_file(file, OpenError::from(error))),
    }
}

/// A disk over both files of a directory. It does nothing to a file that has bytes, and makes an empty one so many zeros
/// long, if there is space for them. Both and the names are synced, so that a loss of power leaves no file without its
/// name.
///
/// # Errors
///
/// Why they can't be had, with the files that it had opened by then. Those had nothing else done to them.
pub fn open_in<D: Directory>(
    directory: &mut D,
    room: u64,
) -> Result<FileDisk<D::File>, Unopened<D::File>>
    requires { 0 < room }
    ensures files { IfOk result (λ disk. GivesPrepared D.gives D.File.honest D.File.holds
        D.File.leaves D.File.lacks_space room directory.old directory.new disk.files.a disk.files.b) }
    ensures left { IfErr result (λ failed. GivesLeft D.gives D.File.honest D.File.holds
        D.File.leaves directory.old directory.new failed.left) }
    ensures names { IfOk result (λ disk. D.keeps_name directory.new FileId.A disk.files.a
        × D.keeps_name directory.new FileId.B disk.files.b) }
    ensures calls { IfOk result (λ disk. disk.calls ≡ 0) }
    ensures failures { IfOk result (λ disk. disk.failures ≡ 0) }
{
    let mut a = match directory.open_file(FileId::A) {
        Ok(a) => a,
        Err(why) => return Err(Unopened {
            why,
            left: Left::Neither,
        }),
    };
    if let Err(why) = make_ready(&mut a, FileId::A, room) {
        return Err(Unopened {
            why,
            left: Left::First(a),
        });
    }
    let mut b = match directory.open_file(FileId::B) {
        Ok(b) => b,
        Err(why) => return Err(Unopened {
            why,
            left: Left::First(a),
        }),
    };
    if let Err(why) = make_ready(&mut b, FileId::B, room) {
        return Err(Unopened {
            why,
            left: Left::Both(a, b),
        });
    }
    match directory.sync_names(&a, &b) {
        Ok(()) => Ok(FileDisk::of(a, b)),
        Err(why) => Err(Unopened {
            why,
            left: Left::Both(a, b),
        }),
    }
}
