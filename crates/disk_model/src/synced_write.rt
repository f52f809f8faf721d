//! A write that is synced.
ghost use Rattle.std.specs.Prelude.{◌+◌, ◌≤◌, length, OnOk, IsErr};
ghost use Rattle.disk_model.specs.Disk.{FromLeft, Leaves, TornIn, Synced, Put, Called, HasCause};

use crate::{Disk, DiskFault, FileId};

/// Writes a range of one file and syncs it: two calls of the disk. A crash at any moment of it leaves of the file what
/// the write alone may leave, and the other file stays.
///
/// # Errors
///
/// `DiskFault` where the write or the sync fails, and behind a write that fails there is no sync. The file may have any
/// bytes in the range and past its old end.
pub fn write_synced<D: Disk>(
    disk: &mut D,
    file: FileId,
    at: u64,
    bytes: &[u8],
) -> Result<(), DiskFault>
    requires { D.honest disk.old → at ≤ length (D.seen disk.old file) }
    ensures honest { D.honest disk.new → D.honest disk.old }
    ensures stays_honest { OnOk result (D.honest disk.old → D.honest disk.new) }
    ensures written { D.honest disk.old
        → OnOk result (Put file at bytes.now (D.seen disk.old) (D.seen disk.new)) }
    ensures synced { D.honest disk.old
        → OnOk result (Synced D.moment D.left D.seen disk.new file) }
    ensures any_moment { D.honest disk.old
        → Leaves D.moment D.left disk.old disk.new (TornIn file at bytes.now) }
    ensures torn { D.honest disk.old
        → FromLeft D.moment D.left disk.old (TornIn file at bytes.now) (D.seen disk.new) }
    ensures called { D.honest disk.old
        → OnOk result (Called 2 (D.called disk.old) (D.called disk.new)) }
    ensures calls { D.honest disk.old → D.called disk.new ≤ D.called disk.old + 2 }
    ensures cause { HasCause (D.failed disk.old) (D.failed disk.new) (IsErr result) }
{
    disk.write_at(file, at, bytes)?;
    disk.sync(file)
}
