//! The disk over two files.
ghost use Rattle.std.specs.Prelude.{◌≡◌, ◌≤◌, ◌+◌, ◌⊎◌, [], None, length, OnOk, OnErr, IfSome, IsErr};
ghost use Rattle.disk_model.specs.Disk.{Called, Grew, HasCause, Goes, Put, TornIn};
ghost use Rattle.file_disk.specs.Filed.{Filed, Asks, OfBoth, both_hold, file_of, moment_of, LeftSince};
ghost use Rattle.file_disk.specs.OneFile.{Measures, Fills, Puts, Syncs};
ghost use Rattle.file_disk.specs.Lawful.{reads_left, left_earlier};
ghost use Rattle.file_disk.specs.WithoutCause.{WithoutCause};

use crate::two_files::TwoFiles;
use crate::{DiskFile, HeldFile};
use disk_model::{Disk, DiskFault, FileId};
use std::io;
use std::marker::Model;

/// Two files of a directory, how many calls were made on them, and how many of these have failed.
///
/// It is honest if both files are, and then it meets the disk model, which is proved. A write at the first place of a
/// file looks first whether the names of both still lead to them. If one doesn't, the call fails, and no file is asked.
#[derive(Drop)]
pub struct FileDisk<F: DiskFile + Drop = HeldFile> {
    files: TwoFiles<F>,
    calls: u64,
    failures: u64,
    strayed: Option<FileId>,
}

impl<F: DiskFile + Drop> Model for FileDisk<F> {
    ghost use Rattle.file_disk.specs.Filed.{Filed};

    ghost Value = { Filed F };

    ghost view = { λ disk. record {
      files = disk.files;
      calls = disk.calls;
      failures = disk.failures;
      strayed = disk.strayed;
    } };
}

impl<F: DiskFile + Drop> FileDisk<F> {
    /// A disk over these two open files, A and B. No call was made of it yet.
    pub fn of(a: F, b: F) -> FileDisk<F>
        ensures { result ≡ record {
          files = record { a = a; b = b; past = [] };
          calls = 0;
          failures = 0;
          strayed = None;
        } }
    {
        FileDisk {
            files: TwoFiles::of(a, b),
            calls: 0,
            failures: 0,
            strayed: None,
        }
    }

    /// The file whose name was found to lead elsewhere, or nowhere, if a call has failed for that.
    pub fn strayed(&self) -> Option<FileId>
        ensures { result ≡ self.now.strayed }
    {
        self.strayed
    }

    // Counts a call that has failed.
    fn fail(&mut self) -> DiskFault
        ensures files { self.new.files ≡ self.old.files }
        ensures strayed { self.new.strayed ≡ self.old.strayed }
        ensures called { Called 1 self.old.calls self.new.calls }
        ensures later { self.old.failures ≤ self.new.failures }
        ensures by_one { self.new.failures ≤ self.old.failures + 1 }
        ensures grew { Grew self.old.failures self.new.failures }
    {
        self.calls = self.calls.saturating_add(1);
        self.failures = self.failures.saturating_add(1);
        DiskFault
    }

    // Counts a call that was answered so.
    fn count<T: Drop>(&mut self, answer: io::Result<T>) -> Result<T, DiskFault>
        ensures answer { WithoutCause answer result }
        ensures files { self.new.files ≡ self.old.files }
        ensures strayed { self.new.strayed ≡ self.old.strayed }
        ensures called { Called 1 self.old.calls self.new.calls }
        ensures cause { HasCause self.old.failures self.new.failures (IsErr result) }
    {
        match answer {
            Ok(value) => {
                self.calls = self.calls.saturating_add(1);
                Ok(value)
            }
            Err(_) => Err(self.fail()),
        }
    }

    // Asks one file for its length, and counts that.
    fn measure(&mut self, file: FileId) -> Result<u64, DiskFault>
        ensures asked { Asks (λ old new. Measures F.honest F.holds F.leaves result old new) file
            self.old.files self.new.files }
        ensures called { Called 1 self.old.calls self.new.calls }
        ensures cause { HasCause self.old.failures self.new.failures (IsErr result) }
    {
        let answer = self.files.len(file);
        self.count(answer)
    }

    // Fills bytes from one file, and counts that.
    fn fill(&mut self, file: FileId, at: u64, bytes: &mut [u8]) -> Result<(), DiskFault>
        ensures asked { Asks (λ old new. Fills F.honest F.holds F.leaves at bytes.old bytes.new
            result old new) file self.old.files self.new.files }
        ensures called { Called 1 self.old.calls self.new.calls }
        ensures cause { HasCause self.old.failures self.new.failures (IsErr result) }
    {
        let answer = self.files.read_at(file, at, bytes);
        self.count(answer)
    }

    // Puts bytes into one file, and counts that.
    fn put(&mut self, file: FileId, at: u64, bytes: &[u8]) -> Result<(), DiskFault>
        ensures asked { Asks (λ old new. Puts F.honest F.holds F.leaves at bytes.now result old
            new) file self.old.files self.new.files }
        ensures strayed { self.new.strayed ≡ self.old.strayed }
        ensures called { Called 1 self.old.calls self.new.calls }
        ensures cause { HasCause self.old.failures self.new.failures (IsErr result) }
    {
        let answer = self.files.write_at(file, at, bytes);
        self.count(answer)
    }

    // Syncs one file, and counts that.
    fn settle(&mut self, file: FileId) -> Result<(), DiskFault>
        ensures asked { Asks (λ old new. Syncs F.honest F.holds F.leaves result old new) file
            self.old.files self.new.files }
        ensures called { Called 1 self.old.calls self.new.calls }
        ensures cause { HasCause self.old.failures self.new.failures (IsErr result) }
    {
        let answer = self.files.sync(file);
        self.count(answer)
    }

    // Before a write at this place looks whether the names of both files lead to them, if it is the first one. If that
    // isn't so, or can't be told, it counts as a call that has failed.
    fn look(&mut self, at: u64) -> Result<(), DiskFault>
        ensures ok { OnOk result (self.new ≡ self.old) }
        ensures in_place { OfBoth F.honest self.old → at ≡ 0
            → OnOk result (OfBoth F.in_place self.old) }
        ensures files { self.new.files ≡ self.old.files }
        ensures strayed { OfBoth F.honest self.old → (self.new.strayed ≡ self.old.strayed)
            ⊎ IfSome self.new.strayed (λ file. ¬ F.in_place (file_of self.old.files file)) }
        ensures called { OnErr result (Called 1 self.old.calls self.new.calls) }
        ensures cause { HasCause self.old.failures self.new.failures (IsErr result) }
    {
        if at != 0 {
            return Ok(());
        }
        match self.files.strayed() {
            Ok(None) => Ok(()),
            Ok(Some(file)) => {
                self.strayed = Some(file);
                Err(self.fail())
            }
            Err(_) => Err(self.fail()),
        }
    }
}

impl<F: DiskFile + Drop> Disk for FileDisk<F> {
    ghost honest = { λ disk. OfBoth F.honest disk };

    ghost seen = { λ disk. both_hold F.holds disk };

    ghost moment = { λ disk. moment_of disk };

    ghost left = { λ disk. LeftSince F.leaves disk };

    ghost called = { λ disk. disk.calls };

    ghost failed = { λ disk. disk.failures };

    ghost reads = { λ disk honest. reads_left F.honest F.holds F.leaves F.reads disk honest };

    ghost earlier = { λ disk s t files le left. left_earlier F.honest F.holds F.leaves disk s t
        files le left };

    fn failures(&self) -> u64 {
        self.failures
    }

    fn len(&mut self, file: FileId) -> Result<u64, DiskFault> {
        self.measure(file)
    }

    fn read_at(&mut self, file: FileId, at: u64, bytes: &mut [u8]) -> Result<(), DiskFault> {
        self.fill(file, at, bytes)
    }

    // Besides what each disk promises, the clauses say when it looks whether its files are in place.
    fn write_at(&mut self, file: FileId, at: u64, bytes: &[u8]) -> Result<(), DiskFault>
        requires { OfBoth F.honest self.old → at ≤ length (both_hold F.holds self.old file) }
        ensures honest { OfBoth F.honest self.new → OfBoth F.honest self.old }
        ensures stays_honest { OnOk result (OfBoth F.honest self.old → OfBoth F.honest self.new) }
        ensures written { OfBoth F.honest self.old → OnOk result (Put file at bytes.now (both_hold
            F.holds self.old) (both_hold F.holds self.new)) }
        ensures torn { OfBoth F.honest self.old → TornIn file at bytes.now (both_hold F.holds
            self.old) (both_hold F.holds self.new) }
        ensures crash { OfBoth F.honest self.old → Goes moment_of (LeftSince F.leaves) self.old
            self.new (TornIn file at bytes.now) }
        ensures called { OfBoth F.honest self.old → Called 1 self.old.calls self.new.calls }
        ensures cause { HasCause self.old.failures self.new.failures (IsErr result) }
        ensures in_place { OfBoth F.honest self.old → at ≡ 0
            → OnOk result (OfBoth F.in_place self.old) }
        ensures strayed { OfBoth F.honest self.old → (self.new.strayed ≡ self.old.strayed)
            ⊎ IfSome self.new.strayed (λ file. ¬ F.in_place (file_of self.old.files file)) }
    {
        self.look(at)?;
        self.put(file, at, bytes)
    }

    fn sync(&mut self, file: FileId) -> Result<(), DiskFault> {
        self.settle(file)
    }
}
