//! `SimDisk`: a disk in memory that can be told to fail and to crash.
ghost use Rattle.std.specs.Prelude.{◌≡◌, ◌↔◌, ◌⊎◌, ◌+◌, ◌≤◌, ◌<◌, [], length, take, drop, IfOk, OnOk, OnErr, IsOk, IsErr, ⊤, Some, None};
ghost use Rattle.disk_model.specs.Disk.{Synced as IsSynced, Put, TornIn, Goes, Same, Grew, Called, HasCause, LeftNow, pair};
ghost use Rattle.trial_disk.specs.Recorded.{Wrote, Synced, did, reads};
ghost use Rattle.trial_disk.specs.Choices.{crashed, restarted};
ghost use Rattle.trial_disk.specs.Metered.{failed, turn_of};
ghost use Rattle.trial_disk.specs.Simulated.{Simulated, seen_of, moment_of, MayBeLeft, IsRested, passed, failing, half, FailsToWrite};
ghost use Rattle.trial_disk.specs.declared.meter.Turn.TheVariants.{Passes, Refused, Cut};
ghost use Rattle.trial_disk.specs.Lawful.{reads_left, left_earlier};

use crate::meter::{Meter, Turn};
use crate::record::Record;
use disk_model::{Disk, DiskFault, FileId};
use std::alloc::{AllocError, Global};
use std::marker::Model;

/// Two files in memory that behave as the disk model says, for tests and trial runs. Where memory for a write or a
/// sync is refused, the call fails.
#[derive(Drop)]
pub struct SimDisk {
    record: Record,
    meter: Meter,
}

impl Model for SimDisk {
    ghost use Rattle.trial_disk.specs.Simulated.{Simulated};

    ghost Value = { Simulated };

    ghost view = { λ d. record { history = d.record; meter = d.meter } };
}

impl SimDisk {
    /// Two files of these bytes, both synced.
    ///
    /// # Errors
    ///
    /// `AllocError` where memory is refused.
    pub fn of(alloc: Global, a: &[u8], b: &[u8]) -> Result<SimDisk, AllocError>
        ensures files { IfOk result (λ disk. disk.history
            ≡ (record { first_a = a.now; first_b = b.now; done = [] })) }
        ensures meter { IfOk result (λ disk. disk.meter
            ≡ (record { calls = 0; failures = 0; fuse = None; once = None })) }
        ensures seen { IfOk result (λ disk. Same (pair a.now b.now) (seen_of disk)) }
        ensures synced { IfOk result IsRested }
    {
        Ok(SimDisk {
            record: Record::of(alloc, a, b)?,
            meter: Meter::new(),
        })
    }

    /// From now on this many calls pass, and all later ones fail and touch nothing.
    pub fn fuse_after(&mut self, calls: u64)
        ensures history { self.new.history ≡ self.old.history }
        ensures meter { self.new.meter ≡ record self.old.meter { fuse = Some calls } }
    {
        self.meter.set_fuse(calls);
    }

    /// From now on this many calls pass, and the next one fails. A write that fails so puts the first half of its
    /// bytes, rounded down; any other call touches nothing.
    pub fn fail_once(&mut self, calls: u64)
        ensures history { self.new.history ≡ self.old.history }
        ensures meter { self.new.meter ≡ record self.old.meter { once = Some calls } }
    {
        self.meter.set_once(calls);
    }

    /// How many calls there were since it was made, those that failed too. At the greatest u64 it stays.
    pub fn calls(&self) -> u64
        ensures { result ≡ self.now.meter.calls }
    {
        self.meter.calls()
    }

    /// Leaves one outcome that the disk model allows, with both files synced, and takes off what `fuse_after` and
    /// `fail_once` have set. Of the ranges that were written since a file's last sync there come:
    ///
    /// | Choice | |
    /// |---|---|
    /// | 0 | nothing; the length is that of the sync too |
    /// | 1 | all, as they read now |
    /// | 2 | at every byte 01, but 00 where the single byte 00 was written and found no 01 |
    /// | 3 | at every byte ff |
    /// | 4 and more | whole, in order, each write `i` since the sync, from 0, whose bit `i mod 64` is set in the choice; a place past the old end that none of them covers is 00 |
    ///
    /// # Errors
    ///
    /// `AllocError` where memory is refused. Nothing changes.
    pub fn crash(&mut self, choice: u64) -> Result<(), AllocError>
        ensures left { OnOk result (Same (crashed choice self.old.history) (seen_of self.new)) }
        ensures allowed { OnOk result (MayBeLeft self.old (moment_of self.old) (seen_of self.new)) }
        ensures synced { OnOk result (IsRested self.new) }
        ensures history { OnOk result (self.new.history ≡ restarted choice self.old.history) }
        ensures meter { OnOk result (self.new.meter ≡ record self.old.meter {
          fuse = None;
          once = None;
        }) }
        ensures err { OnErr result (self.new ≡ self.old) }
    {
        self.record.crash(choice)?;
        self.meter.clear();
        Ok(())
    }

    fn write(&mut self, file: FileId, at: usize, bytes: &[u8]) -> Result<(), DiskFault>
        requires { at ≤ length (seen_of self.old file) }
        ensures ok { OnOk result (self.new
            ≡ passed (did (Wrote file at bytes.now) self.old.history) self.old) }
        ensures turn { IsOk result → turn_of self.old.meter ≡ Passes }
        ensures err { OnErr result (FailsToWrite file at bytes.now self.old self.new) }
        ensures called { Called 1 self.old.meter.calls self.new.meter.calls }
        ensures cause { HasCause self.old.meter.failures self.new.meter.failures (IsErr result) }
    {
        match self.meter.tick() {
            Turn::Passes => match self.record.write(file, at, bytes) {
                Ok(()) => Ok(()),
                Err(_) => Err(self.fail()),
            },
            Turn::Refused => Err(self.fail()),
            Turn::Cut => Err(self.cut(file, at, bytes)),
        }
    }

    fn settle(&mut self, file: FileId) -> Result<(), DiskFault>
        ensures ok { OnOk result (self.new ≡ passed (did (Synced file) self.old.history) self.old) }
        ensures turn { IsOk result → turn_of self.old.meter ≡ Passes }
        ensures err { OnErr result (self.new ≡ failing self.old.history self.old) }
        ensures called { Called 1 self.old.meter.calls self.new.meter.calls }
        ensures cause { HasCause self.old.meter.failures self.new.meter.failures (IsErr result) }
    {
        match self.meter.tick() {
            Turn::Passes => match self.record.sync(file) {
                Ok(()) => Ok(()),
                Err(_) => Err(self.fail()),
            },
            Turn::Refused | Turn::Cut => Err(self.fail()),
        }
    }

    // Counts a failure.
    fn fail(&mut self) -> DiskFault
        ensures new { self.new ≡ record {
          history = self.old.history;
          meter = failed self.old.meter;
        } }
        ensures calls { self.new.meter.calls ≡ self.old.meter.calls }
        ensures later { self.old.meter.failures ≤ self.new.meter.failures }
        ensures by_one { self.new.meter.failures ≤ self.old.meter.failures + 1 }
        ensures grew { Grew self.old.meter.failures self.new.meter.failures }
    {
        self.meter.fail();
        DiskFault
    }

    // Puts the first half of the bytes, and counts a failure.
    fn cut(&mut self, file: FileId, at: usize, bytes: &[u8]) -> DiskFault
        requires { at ≤ length (seen_of self.old file) }
        ensures calls { self.new.meter.calls ≡ self.old.meter.calls }
        ensures later { self.old.meter.failures ≤ self.new.meter.failures }
        ensures by_one { self.new.meter.failures ≤ self.old.meter.failures + 1 }
        ensures grew { Grew self.old.meter.failures self.new.meter.failures }
        ensures new { (self.new ≡ record {
          history = self.old.history;
          meter = failed self.old.meter;
        })
            ⊎ ((1 < length bytes.now)
            × (self.new
            ≡ record {
              history = did (Wrote file at (half bytes.now)) self.old.history;
              meter = failed self.old.meter;
            })) }
    {
        let (first, _) = bytes.split_at(bytes.len() / 2);
        if !first.is_empty() {
            let _ = self.record.write(file, at, first);
        }
        self.fail()
    }

    // Counts a call that only looks.
    fn look(&mut self) -> Result<(), DiskFault>
        ensures ok { OnOk result (self.new ≡ passed self.old.history self.old) }
        ensures err { OnErr result (self.new ≡ failing self.old.history self.old) }
        ensures turn { IsOk result ↔ turn_of self.old.meter ≡ Passes }
        ensures called { Called 1 self.old.meter.calls self.new.meter.calls }
        ensures cause { HasCause self.old.meter.failures self.new.meter.failures (IsErr result) }
    {
        match self.meter.tick() {
            Turn::Passes => Ok(()),
            Turn::Refused | Turn::Cut => Err(self.fail()),
        }
    }
}

// Besides what each disk promises, the clauses say which calls fail, and what they touch.
impl Disk for SimDisk {
    ghost honest = { λ d. ⊤ };

    ghost seen = { λ d. seen_of d };

    ghost moment = { λ d. moment_of d };

    ghost left = { λ d. MayBeLeft d };

    ghost called = { λ d. d.meter.calls };

    ghost failed = { λ d. d.meter.failures };

    ghost reads = { λ disk honest. reads_left disk.history };

    ghost earlier = { λ disk s t files le left. left_earlier disk.history s t files le left };

    fn failures(&self) -> u64 {
        self.meter.failures()
    }

    fn len(&mut self, file: FileId) -> Result<u64, DiskFault>
        ensures ok { OnOk result (self.new ≡ passed self.old.history self.old) }
        ensures err { OnErr result (self.new ≡ failing self.old.history self.old) }
        ensures turn { IsOk result ↔ turn_of self.old.meter ≡ Passes }
        ensures length { IfOk result (λ n. n ≡ length (seen_of self.old file)) }
        ensures seen { Same (seen_of self.old) (seen_of self.new) }
        ensures crash { Goes moment_of MayBeLeft self.old self.new Same }
        ensures called { Called 1 self.old.meter.calls self.new.meter.calls }
        ensures cause { HasCause self.old.meter.failures self.new.meter.failures (IsErr result) }
    {
        self.look()?;
        Ok(self.record.bytes(file).len() as u64)
    }

    fn read_at(&mut self, file: FileId, at: u64, bytes: &mut [u8]) -> Result<(), DiskFault>
        requires { at + length bytes.old ≤ length (seen_of self.old file) }
        ensures ok { OnOk result (self.new ≡ passed self.old.history self.old) }
        ensures err { OnErr result (self.new ≡ failing self.old.history self.old) }
        ensures turn { IsOk result ↔ turn_of self.old.meter ≡ Passes }
        ensures read { OnOk result (bytes.new
            ≡ take (length bytes.old) (drop at (seen_of self.old file))) }
        ensures seen { Same (seen_of self.old) (seen_of self.new) }
        ensures crash { Goes moment_of MayBeLeft self.old self.new Same }
        ensures called { Called 1 self.old.meter.calls self.new.meter.calls }
        ensures cause { HasCause self.old.meter.failures self.new.meter.failures (IsErr result) }
    {
        self.look()?;
        let file = self.record.bytes(file);
        bytes.copy_from_slice(&file[at as usize..][..bytes.len()]);
        Ok(())
    }

    fn write_at(&mut self, file: FileId, at: u64, bytes: &[u8]) -> Result<(), DiskFault>
        requires { at ≤ length (seen_of self.old file) }
        ensures ok { OnOk result (self.new
            ≡ passed (did (Wrote file at bytes.now) self.old.history) self.old) }
        ensures err { OnErr result (FailsToWrite file at bytes.now self.old self.new) }
        ensures turn { IsOk result → turn_of self.old.meter ≡ Passes }
        ensures written { OnOk result (Put file at bytes.now (seen_of self.old)
            (seen_of self.new)) }
        ensures torn { TornIn file at bytes.now (seen_of self.old) (seen_of self.new) }
        ensures crash { Goes moment_of MayBeLeft self.old self.new (TornIn file at bytes.now) }
        ensures called { Called 1 self.old.meter.calls self.new.meter.calls }
        ensures cause { HasCause self.old.meter.failures self.new.meter.failures (IsErr result) }
    {
        self.write(file, at as usize, bytes)
    }

    fn sync(&mut self, file: FileId) -> Result<(), DiskFault>
        ensures ok { OnOk result (self.new ≡ passed (did (Synced file) self.old.history) self.old) }
        ensures err { OnErr result (self.new ≡ failing self.old.history self.old) }
        ensures turn { IsOk result → turn_of self.old.meter ≡ Passes }
        ensures synced { OnOk result (IsSynced moment_of MayBeLeft seen_of self.new file) }
        ensures seen { Same (seen_of self.old) (seen_of self.new) }
        ensures outcome { LeftNow moment_of MayBeLeft self.old (seen_of self.new) }
        ensures crash { Goes moment_of MayBeLeft self.old self.new Same }
        ensures called { Called 1 self.old.meter.calls self.new.meter.calls }
        ensures cause { HasCause self.old.meter.failures self.new.meter.failures (IsErr result) }
    {
        self.settle(file)
    }
}
