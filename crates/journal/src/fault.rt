//! Why a call of the journal is refused.
ghost use Rattle.std.specs.Prelude.{◌≡◌};
ghost use Rattle.journal.specs.declared.fault.JournalFault.TheVariants.{Device, NoMemory};

use disk_model::DiskFault;
use std::alloc::{AllocError, AllocFailed};

/// Why a call of the journal was refused.
#[derive(Clone, Copy, Debug, PartialEq, Eq, Drop, thiserror::Error)]
pub enum JournalFault {
    /// A call of the disk has failed.
    #[error("a call of the disk has failed")]
    Device,
    /// The group, with the closed gate behind it, would end past the greatest length of a file.
    #[error("the group would end past the greatest length of a file")]
    Full,
    /// One of the leading open groups isn't whole. Only `groups` tells it.
    #[error("an open group isn't whole")]
    Damaged,
    /// Memory was refused. Only `groups` tells it.
    #[error("out of memory")]
    NoMemory,
}

impl From<DiskFault> for JournalFault {
    ghost from_gives = { λ _ e. e ≡ Device };

    fn from(_: DiskFault) -> Self {
        JournalFault::Device
    }
}

impl From<AllocError> for JournalFault {
    ghost from_gives = { λ _ e. e ≡ NoMemory };

    fn from(_: AllocError) -> Self {
        JournalFault::NoMemory
    }
}

impl<T: Drop> From<AllocFailed<T>> for JournalFault {
    ghost from_gives = { λ _ e. e ≡ NoMemory };

    fn from(_: AllocFailed<T>) -> Self {
        JournalFault::NoMemory
    }
}
