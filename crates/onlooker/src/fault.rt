//! Why there is nothing to tell of two files.
ghost use Rattle.std.specs.Prelude.{◌≡◌};
ghost use Rattle.onlooker.specs.declared.fault.LookFault.TheVariants.{NoMemory};

use disk_model::FileId;
use packet::Bounds;
use std::alloc::AllocError;
use std::io;

/// Why there is nothing to tell of two files.
#[derive(Drop)]
pub enum LookFault {
    /// This file can't be opened or read.
    File(FileId, io::Error),
    /// Memory was refused.
    NoMemory,
    /// One of the files was made anew while they were looked at.
    Changing,
    /// The files stand for no state, though none was made anew.
    Damaged,
    /// The active file has this configuration, which is another one than that at hand.
    Differs(Bounds),
}

impl From<AllocError> for LookFault {
    ghost from_gives = { λ _ e. e ≡ NoMemory };

    fn from(_: AllocError) -> Self {
        LookFault::NoMemory
    }
}
