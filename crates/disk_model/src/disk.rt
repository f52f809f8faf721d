//! The disk model: the trait `Disk`, whose clauses say what each call does and what a crash may leave.
ghost use Rattle.std.specs.Prelude.{◌≡◌, ◌+◌, ◌≤◌, List, ℕ, length, IfOk, OnOk, IsErr, take, drop};
ghost use Rattle.disk_model.specs.declared.disk.FileId.{FileId};
ghost use Rattle.disk_model.specs.Disk.{Files, Goes, TornIn, Synced, Same, Put, Called, HasCause, LeftNow};

/// One of the two files of a disk.
#[derive(Clone, Copy, Debug, PartialEq, Eq)]
pub enum FileId {
    /// The first file.
    A,
    /// The second file.
    B,
}

/// A call of a disk has failed. Why is not said.
#[derive(Clone, Copy, Debug, PartialEq, Eq, Drop, thiserror::Error)]
#[error("a call of the disk has failed")]
pub struct DiskFault;

/// Two files on a device that may stop at any moment. Places and lengths are in bytes.
///
/// What is said of the files' contents, and that each call counts as one, is said of honest disks, those that behave as
/// this model. A disk that wasn't honest isn't honest later. One that was is still so after a call that passed; a call
/// that failed may be the last that is said to go by the model. That calls are safe, and that `failures` grows with each
/// failed call and with nothing else, is said of every disk.
pub trait Disk {
    /// It has behaved as the model says so far, and its next call will.
    ghost honest: { Self → Type 0 };

    /// The bytes that a read of each file gives.
    ghost seen: { Self → FileId → List ℕ };

    /// The moment, as a number that doesn't fall.
    ghost moment: { Self → ℕ };

    /// What a crash at any moment from that one on might have left of the two files.
    ghost left: { Self → ℕ → Files → Type 0 };

    /// How many calls there were, up to the greatest u64; all but `failures` count.
    ghost called: { Self → ℕ };

    /// How many calls have failed, up to the greatest u64.
    ghost failed: { Self → ℕ };

    /// How many calls have failed since the disk was made. At the greatest u64 it stays, and counts as grown.
    fn failures(&self) -> u64
        ensures { result ≡ failed self.now };

    /// The length of a file, in bytes.
    ///
    /// # Errors
    ///
    /// `DiskFault` where the call fails. No file changes.
    fn len(&mut self, file: FileId) -> Result<u64, DiskFault>
        ensures honest { honest self.new → honest self.old }
        ensures stays_honest { OnOk result (honest self.old → honest self.new) }
        ensures length { honest self.old → IfOk result (λ n. n ≡ length (seen self.old file)) }
        ensures seen { honest self.old → Same (seen self.old) (seen self.new) }
        ensures crash { honest self.old → Goes moment left self.old self.new Same }
        ensures called { honest self.old → Called 1 (called self.old) (called self.new) }
        ensures cause { HasCause (failed self.old) (failed self.new) (IsErr result) };

    /// Fills `bytes` from a place of a file. The range lies within the file.
    ///
    /// # Errors
    ///
    /// `DiskFault` where the call fails. No file changes; `bytes` may hold anything.
    fn read_at(&mut self, file: FileId, at: u64, bytes: &mut [u8]) -> Result<(), DiskFault>
        requires { honest self.old → at + length bytes.old ≤ length (seen self.old file) }
        ensures honest { honest self.new → honest self.old }
        ensures stays_honest { OnOk result (honest self.old → honest self.new) }
        ensures read { honest self.old → OnOk result (bytes.new
            ≡ take (length bytes.old) (drop at (seen self.old file))) }
        ensures seen { honest self.old → Same (seen self.old) (seen self.new) }
        ensures crash { honest self.old → Goes moment left self.old self.new Same }
        ensures called { honest self.old → Called 1 (called self.old) (called self.new) }
        ensures cause { HasCause (failed self.old) (failed self.new) (IsErr result) };

    /// Puts bytes at a place of a file, which may make it longer; the place is at most the file's length. Until a
    /// sync a crash may leave any bytes in the range and past the end; but a write of the single byte 00 never makes a
    /// 01 of what was none.
    ///
    /// # Errors
    ///
    /// `DiskFault` where the call fails. It may have put any bytes into the range and past the end.
    fn write_at(&mut self, file: FileId, at: u64, bytes: &[u8]) -> Result<(), DiskFault>
        requires { honest self.old → at ≤ length (seen self.old file) }
        ensures honest { honest self.new → honest self.old }
        ensures stays_honest { OnOk result (honest self.old → honest self.new) }
        ensures written { honest self.old
            → OnOk result (Put file at bytes.now (seen self.old) (seen self.new)) }
        ensures torn { honest self.old
            → TornIn file at bytes.now (seen self.old) (seen self.new) }
        ensures crash { honest self.old
            → Goes moment left self.old self.new (TornIn file at bytes.now) }
        ensures called { honest self.old → Called 1 (called self.old) (called self.new) }
        ensures cause { HasCause (failed self.old) (failed self.new) (IsErr result) };

    /// Makes a file durable: from then on until the next write to it a crash leaves of it what a read gives, its
    /// length too.
    ///
    /// # Errors
    ///
    /// `DiskFault` where the call fails. What a crash may leave now it could leave before; what a read gives is one of
    /// these outcomes, and no more is said of it.
    fn sync(&mut self, file: FileId) -> Result<(), DiskFault>
        ensures honest { honest self.new → honest self.old }
        ensures stays_honest { OnOk result (honest self.old → honest self.new) }
        ensures synced { honest self.old → OnOk result (Synced moment left seen self.new file) }
        ensures seen { honest self.old → OnOk result (Same (seen self.old) (seen self.new)) }
        ensures outcome { honest self.old → LeftNow moment left self.old (seen self.new) }
        ensures crash { honest self.old → Goes moment left self.old self.new Same }
        ensures called { honest self.old → Called 1 (called self.old) (called self.new) }
        ensures cause { HasCause (failed self.old) (failed self.new) (IsErr result) };

    /// What a read gives is one of the outcomes of a crash.
    ghost reads: { (disk : Self) → honest disk → left disk (moment disk) (seen disk) };

    /// What a crash since a moment might have left, one since an earlier moment might have left too.
    ghost earlier: { (disk : Self) (s t : ℕ) (c : Files) → s ≤ t → left disk t c → left disk s c };
}
