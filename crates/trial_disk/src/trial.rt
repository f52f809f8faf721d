//! `Trial`: the disk in memory, with no promise.
ghost use Rattle.std.specs.Prelude.{◌≡◌, ◌+◌, ◌≤◌, length, IfOk, OnOk, OnErr, IsErr, IsTrue, Some, None, ⊤, []};
ghost use Rattle.disk_model.specs.Disk.{HasCause};
ghost use Rattle.trial_disk.specs.Simulated.{seen_of};

use crate::meter::{Meter, Turn};
use crate::sim::SimDisk;
use disk_model::{Disk, DiskFault, FileId, ReadFault, contents};
use std::alloc::{AllocError, Global};
use std::marker::Model;

/// Two files in memory that behave as the disk model says. No clause says so: it is not honest to its callers, so that
/// those need not prove what its files hold.
///
/// Calls are those of `Disk`; all but `failures` count. Where memory for a write or a sync is refused, the call fails.
#[derive(Drop)]
pub struct Trial {
    disk: SimDisk,
    // Counts the calls and says which fail; the failures are those that the meter of the disk counts.
    meter: Meter,
    strayed: bool,
}

impl Model for Trial {
    ghost use Rattle.trial_disk.specs.Metered.{Metered};

    ghost Value = { Metered };

    ghost view = { λ t. record {
      calls = t.meter.calls;
      failures = t.disk.meter.failures;
      fuse = t.meter.fuse;
      once = t.meter.once;
    } };
}

impl Trial {
    /// Two files of these bytes, both synced.
    ///
    /// # Errors
    ///
    /// `AllocError` where memory is refused.
    pub fn of(alloc: Global, a: &[u8], b: &[u8]) -> Result<Trial, AllocError>
        ensures { IfOk result (λ t. t ≡ record {
          calls = 0;
          failures = 0;
          fuse = None;
          once = None;
        }) }
    {
        let disk = SimDisk::of(alloc, a, b)?;
        Ok(Trial {
            disk,
            meter: Meter::new(),
            strayed: false,
        })
    }

    /// From now on this many calls pass, and all later ones fail and touch nothing.
    pub fn fuse_after(&mut self, calls: u64)
        ensures { self.new ≡ record self.old { fuse = Some calls } }
    {
        self.meter.set_fuse(calls);
    }

    /// From now on this many calls pass, and the next one fails. A write that fails so puts the first half of its
    /// bytes, rounded down; any other call touches nothing.
    pub fn fail_once(&mut self, calls: u64)
        ensures { self.new ≡ record self.old { once = Some calls } }
    {
        self.meter.set_once(calls);
    }

    /// How many calls there were since it was made, those that failed too. At the greatest u64 it stays.
    pub fn calls(&self) -> u64
        ensures { result ≡ self.now.calls }
    {
        self.meter.calls()
    }

    /// Whether a read or a write was out of its file. It has touched nothing, and was answered as if it had passed.
    pub fn has_strayed(&self) -> bool {
        self.strayed
    }

    /// Leaves one outcome that the disk model allows, as `SimDisk::crash` chooses it, with both files synced, and takes
    /// off what `fuse_after` and `fail_once` have set.
    ///
    /// # Errors
    ///
    /// `AllocError` where memory is refused. The files stay, and so does what was set.
    pub fn crash(&mut self, choice: u64) -> Result<(), AllocError>
        ensures ok { OnOk result (self.new ≡ record self.old { fuse = None; once = None }) }
        ensures err { OnErr result (self.new ≡ self.old) }
    {
        self.disk.crash(choice)?;
        self.meter.clear();
        Ok(())
    }

    /// The bytes of a file, as a read gives them. It is no call of the disk, and never told to fail.
    ///
    /// # Errors
    ///
    /// `ReadFault` as `contents` tells it: `NoMemory` where memory is refused.
    pub fn bytes(&mut self, alloc: Global, file: FileId) -> Result<Vec<u8>, ReadFault> {
        contents(alloc, &mut self.disk, file)
    }

    // A call that fails and touches nothing.
    fn refuse(&mut self, file: FileId) -> Result<(), DiskFault>
        ensures { HasCause self.old.failures self.new.failures (IsErr result) }
    {
        self.disk.fail_once(0);
        self.disk.sync(file)
    }
}

// Whether a file has so many bytes from a place on.
fn reaches(disk: &mut SimDisk, file: FileId, at: u64, count: u64) -> Result<bool, DiskFault>
    ensures cause { HasCause disk.old.meter.failures disk.new.meter.failures (IsErr result) }
    ensures reaches { IfOk result (λ reaches. IsTrue reaches
        → at + count ≤ length (seen_of disk.new file)) }
{
    let len = disk.len(file)?;
    Ok(at <= len && count <= len - at)
}

impl Disk for Trial {
    ghost honest = { λ _. ⊥ };

    ghost seen = { λ _ _. [] };

    ghost moment = { λ _. 0 };

    ghost left = { λ _ _ _. ⊤ };

    ghost called = { λ trial. trial.calls };

    ghost failed = { λ trial. trial.failures };

    ghost reads = { λ _ honest. absurd honest };

    ghost earlier = { λ _ _ _ _ _ left. left };

    fn failures(&self) -> u64 {
        self.disk.failures()
    }

    fn len(&mut self, file: FileId) -> Result<u64, DiskFault> {
        if self.meter.tick() != Turn::Passes {
            self.disk.fail_once(0);
        }
        self.disk.len(file)
    }

    fn read_at(&mut self, file: FileId, at: u64, bytes: &mut [u8]) -> Result<(), DiskFault> {
        if self.meter.tick() != Turn::Passes {
            return self.refuse(file);
        }
        if !reaches(&mut self.disk, file, at, bytes.len() as u64)? {
            self.strayed = true;
            return Ok(());
        }
        self.disk.read_at(file, at, bytes)
    }

    fn write_at(&mut self, file: FileId, at: u64, bytes: &[u8]) -> Result<(), DiskFault> {
        let turn = self.meter.tick();
        if turn == Turn::Refused {
            return self.refuse(file);
        }
        if !reaches(&mut self.disk, file, at, 0)? {
            self.strayed = true;
            return Ok(());
        }
        if turn == Turn::Cut {
            self.disk.fail_once(0);
        }
        self.disk.write_at(file, at, bytes)
    }

    fn sync(&mut self, file: FileId) -> Result<(), DiskFault> {
        if self.meter.tick() != Turn::Passes {
            return self.refuse(file);
        }
        self.disk.sync(file)
    }
}
