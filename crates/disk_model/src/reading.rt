//! All bytes of a file.
ghost use Rattle.std.specs.Prelude.{◌≡◌, IfOk, IsErrOf};
ghost use Rattle.disk_model.specs.Disk.{Looks, HasCause};
ghost use Rattle.disk_model.specs.declared.reading.ReadFault.TheVariants.{Device, NoMemory};

use crate::{Disk, DiskFault, FileId};
use std::alloc::{AllocError, Global};

/// Why a file isn't read.
#[derive(Clone, Copy, Debug, PartialEq, Eq, Drop, thiserror::Error)]
pub enum ReadFault {
    /// A call of the disk has failed.
    #[error("a call of the disk has failed")]
    Device,
    /// Memory was refused.
    #[error("out of memory")]
    NoMemory,
}

impl From<DiskFault> for ReadFault {
    ghost from_gives = { λ _ e. e ≡ Device };

    fn from(_: DiskFault) -> Self {
        ReadFault::Device
    }
}

impl From<AllocError> for ReadFault {
    ghost from_gives = { λ _ e. e ≡ NoMemory };

    fn from(_: AllocError) -> Self {
        ReadFault::NoMemory
    }
}

/// The bytes of a file, all of them. No file changes.
///
/// # Errors
///
/// - `Device` where a call of the disk has failed, which is the last one made.
/// - `NoMemory` where memory is refused.
pub fn contents<D: Disk>(alloc: Global, disk: &mut D, file: FileId) -> Result<Vec<u8>, ReadFault>
    ensures honest { D.honest disk.new → D.honest disk.old }
    ensures stays_honest { ¬ IsErrOf result ReadFault.Device → D.honest disk.old → D.honest disk.new }
    ensures ok { D.honest disk.old → IfOk result (λ bytes. bytes.items ≡ D.seen disk.old file) }
    ensures looks { D.honest disk.old → Looks D.moment D.left D.seen disk.old disk.new }
    ensures cause { HasCause (D.failed disk.old) (D.failed disk.new)
        (IsErrOf result ReadFault.Device) }
{
    let len = disk.len(file)?;
    let mut bytes = vec![in alloc; 0; len as usize]?;
    disk.read_at(file, 0, &mut bytes)?;
    Ok(bytes)
}
