//! The record of the disk in memory: two files as they read now, as they were first, and the calls between.
ghost use Rattle.std.specs.Prelude.{◌≡◌, ◌+◌, ◌≤◌, [], ◌∷◌, ◌++◌, length, map, OnOk, OnErr, IfOk};
ghost use Rattle.disk_model.specs.Disk.{put};
ghost use Rattle.trial_disk.specs.Recorded.{History, Wrote, Synced, did, reads};
ghost use Rattle.trial_disk.specs.Choices.{restarted};
ghost use Rattle.trial_disk.specs.DoneCalls.{done_of};

use crate::call::Call;
use crate::place::place;
use crate::replay::left_by;
use disk_model::FileId;
use std::alloc::{AllocError, Global};
use std::marker::Model;

/// Two files in memory, and what was done to them since they were both synced.
#[derive(Drop)]
pub(crate) struct Record {
    alloc: Global,
    first_a: Vec<u8>,
    first_b: Vec<u8>,
    a: Vec<u8>,
    b: Vec<u8>,
    calls: Vec<Call>,
}

impl Model for Record {
    ghost use Rattle.std.specs.Prelude.{◌≡◌, map};
    ghost use Rattle.trial_disk.specs.Recorded.{History, Kept};

    ghost Value = { History };

    ghost use Rattle.trial_disk.specs.DoneCalls.{done_of};

    ghost view = { λ r. record {
      first_a = r.first_a.items;
      first_b = r.first_b.items;
      done = map done_of r.calls.items;
    } };

    ghost invariant = { λ r. Kept
        (record {
          first_a = r.first_a.items;
          first_b = r.first_b.items;
          done = map done_of r.calls.items;
        }) r.a.items r.b.items };
}

impl Record {
    /// Two files of these bytes, both synced.
    ///
    /// # Errors
    ///
    /// `AllocError` where memory is refused.
    pub(crate) fn of(alloc: Global, a: &[u8], b: &[u8]) -> Result<Record, AllocError>
        ensures { IfOk result (λ made. made
            ≡ (record { first_a = a.now; first_b = b.now; done = [] })) }
    {
        Ok(Record {
            alloc,
            first_a: Vec::from_slice(alloc, a)?,
            first_b: Vec::from_slice(alloc, b)?,
            a: Vec::from_slice(alloc, a)?,
            b: Vec::from_slice(alloc, b)?,
            calls: Vec::new(alloc),
        })
    }

    /// The bytes of a file.
    pub(crate) fn bytes(&self, file: FileId) -> &[u8]
        ensures { result.now ≡ reads self.now file }
    {
        match file {
            FileId::A => &self.a,
            FileId::B => &self.b,
        }
    }

    /// Writes bytes at a place of a file, and records that.
    ///
    /// # Errors
    ///
    /// `AllocError` where memory is refused. Nothing changes.
    pub(crate) fn write(&mut self, file: FileId, at: usize, bytes: &[u8]) -> Result<(), AllocError>
        requires { at ≤ length (reads self.old file) }
        ensures ok { OnOk result (self.new ≡ did (Wrote file at bytes.now) self.old) }
        ensures err { OnErr result (self.new ≡ self.old) }
    {
        match file {
            FileId::A => put_recorded(self.alloc, &mut self.calls, &mut self.a, file, at, bytes),
            FileId::B => put_recorded(self.alloc, &mut self.calls, &mut self.b, file, at, bytes),
        }
    }

    /// Records a sync of a file.
    ///
    /// # Errors
    ///
    /// `AllocError` where memory is refused. Nothing changes.
    pub(crate) fn sync(&mut self, file: FileId) -> Result<(), AllocError>
        ensures ok { OnOk result (self.new ≡ did (Synced file) self.old) }
        ensures err { OnErr result (self.new ≡ self.old) }
    {
        record_sync(&mut self.calls, file)
    }

    /// Leaves what a crash leaves under a choice (`SimDisk::crash`), with both files synced.
    ///
    /// # Errors
    ///
    /// `AllocError` where memory is refused. Nothing changes.
    pub(crate) fn crash(&mut self, choice: u64) -> Result<(), AllocError>
        ensures ok { OnOk result (self.new ≡ restarted choice self.old) }
        ensures err { OnErr result (self.new ≡ self.old) }
    {
        let a = left_by(self.alloc, choice, FileId::A, &self.first_a, &self.calls)?;
        let b = left_by(self.alloc, choice, FileId::B, &self.first_b, &self.calls)?;
        *self = Record::of(self.alloc, &a, &b)?;
        Ok(())
    }
}

// Puts the bytes at a place and records that, or changes nothing.
fn put_recorded(
    alloc: Global,
    calls: &mut Vec<Call>,
    bytes_of: &mut Vec<u8>,
    file: FileId,
    at: usize,
    bytes: &[u8],
) -> Result<(), AllocError>
    requires { at ≤ length bytes_of.old.items }
    ensures ok { OnOk result (bytes_of.new.items ≡ put at bytes.now bytes_of.old.items) }
    ensures calls { OnOk result (map done_of calls.new.items
        ≡ map done_of calls.old.items ++ Wrote file at bytes.now ∷ []) }
    ensures err { OnErr result ((bytes_of.new.items ≡ bytes_of.old.items)
        × (calls.new.items ≡ calls.old.items)) }
{
    let copy = Vec::from_slice(alloc, bytes)?;
    let count = calls.len();
    calls.push(Call::Write(file, at, copy))?;
    if let Err(error) = place(bytes_of, at, bytes) {
        calls.truncate(count);
        return Err(error);
    }
    Ok(())
}

// Records a sync, or changes nothing.
fn record_sync(calls: &mut Vec<Call>, file: FileId) -> Result<(), AllocError>
    ensures ok { OnOk result (map done_of calls.new.items
        ≡ map done_of calls.old.items ++ Synced file ∷ []) }
    ensures err { OnErr result (calls.new.items ≡ calls.old.items) }
{
    calls.push(Call::Sync(file))?;
    Ok(())
}
