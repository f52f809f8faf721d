//! What a disk asks of one file.
ghost use Rattle.std.specs.Prelude.{◌↔◌, List, ℕ, ◌-◌, length, replicate, IfErr, IfOk, IsTrue};
ghost use Rattle.file_disk.specs.OneFile.{Measures, Fills, Puts, Syncs};
ghost use Rattle.file_disk.specs.Space.{DoesNoHarm, TellsOfSpace};

use std::io;

/// One file on a device that may stop at any moment. Places and lengths are in bytes.
///
/// What is said of its contents is said of honest files, those that behave as this model. A call whose range isn't
/// within the file promises only that no file becomes honest by it.
pub trait DiskFile {
    /// It has behaved as the model says so far, and its next call will.
    ghost honest: { Self → Type 0 };

    /// The bytes that a read gives.
    ghost holds: { Self → List ℕ };

    /// What a crash now may leave of it. What a stop within a call leaves, a crash could leave before that call, or may
    /// leave behind it, however it ends.
    ghost leaves: { Self → List ℕ → Type 0 };

    /// Its name leads to it.
    ghost in_place: { Self → Type 0 };

    /// The device has no space for what it was to keep.
    ghost lacks_space: { Self → Type 0 };

    /// The length.
    ///
    /// # Errors
    ///
    /// Why the call fails.
    fn length(&mut self) -> io::Result<u64>
        ensures { Measures honest holds leaves result self.old self.new };

    /// Fills `bytes` from a place.
    ///
    /// # Errors
    ///
    /// Why the call fails, or that the file ends before they are full. They may hold anything then.
    fn read_fully(&mut self, at: u64, bytes: &mut [u8]) -> io::Result<()>
        ensures { Fills honest holds leaves at bytes.old bytes.new result self.old self.new };

    /// Puts all of the bytes at a place.
    ///
    /// # Errors
    ///
    /// Why the call fails. Some of the bytes may have been put. A want of space does a file no other harm.
    fn write_fully(&mut self, at: u64, bytes: &[u8]) -> io::Result<()>
        ensures puts { Puts honest holds leaves at bytes.now result self.old self.new }
        ensures space { IfErr result (TellsOfSpace (lacks_space self.new)) }
        ensures no_harm { IfErr result (DoesNoHarm honest self.old self.new) };

    /// Has the device keep the bytes and the length.
    ///
    /// # Errors
    ///
    /// Why the call fails.
    fn sync_file(&mut self) -> io::Result<()>
        ensures syncs { Syncs honest holds leaves result self.old self.new }
        ensures space { IfErr result (TellsOfSpace (lacks_space self.new)) };

    /// Makes it this long, by zeros. It asks that it isn't longer.
    ///
    /// # Errors
    ///
    /// Why the call fails. A want of space does a file no other harm.
    fn lengthen(&mut self, to: u64) -> io::Result<()>
        ensures puts { Puts honest holds leaves (length (holds self.old)) (replicate
            (to - length (holds self.old)) 0) result self.old self.new }
        ensures space { IfErr result (TellsOfSpace (lacks_space self.new)) }
        ensures no_harm { IfErr result (DoesNoHarm honest self.old self.new) };

    /// Has the device keep all of a file that was just opened, and lets go what the system has of it in memory: after a
    /// sync that failed, of an earlier run say, that may differ from what the device has.
    ///
    /// # Errors
    ///
    /// Why the call fails.
    fn sync_opened(&mut self) -> io::Result<()>
        ensures { Syncs honest holds leaves result self.old self.new };

    /// Whether its name leads to it.
    ///
    /// # Errors
    ///
    /// Why that can't be told.
    fn is_in_place(&self) -> io::Result<bool>
        ensures { honest self.now → IfOk result (λ is. IsTrue is ↔ in_place self.now) };

    /// What a read gives a crash may leave.
    ghost reads: { (file : Self) → honest file → leaves file (holds file) };
}
