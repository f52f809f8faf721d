//! What the files of a disk are.
ghost use Rattle.std.specs.Prelude.{IfOk, IsErrOf};
ghost use Rattle.disk_model.specs.declared.disk.FileId.TheVariants.{A, B};
ghost use Rattle.disk_model.specs.Disk.{Looks, HasCause, pair};
ghost use Rattle.diagnosis.specs.Finding.{IsFinding};

use crate::{Finding, examine};
use disk_model::{Disk, FileId, ReadFault, contents};
use packet::Bounds;
use std::alloc::Global;

/// What the two files of a disk are, as they read, to a gateway with these bounds. They are not changed.
///
/// # Errors
///
/// - `Device` where a call of the disk has failed.
/// - `NoMemory` where memory is refused.
pub fn diagnose<'a, D: Disk>(
    alloc: Global,
    disk: &mut D,
    bounds: &'a Bounds,
) -> Result<Finding<'a>, ReadFault>
    ensures honest { D.honest disk.new → D.honest disk.old }
    ensures stays_honest { ¬ IsErrOf result ReadFault.Device
        → D.honest disk.old → D.honest disk.new }
    ensures ok { D.honest disk.old
        → IfOk result (IsFinding bounds.now (pair (D.seen disk.old A) (D.seen disk.old B))) }
    ensures looks { D.honest disk.old → Looks D.moment D.left D.seen disk.old disk.new }
    ensures cause { HasCause (D.failed disk.old) (D.failed disk.new)
        (IsErrOf result ReadFault.Device) }
{
    let a = contents(alloc, disk, FileId::A)?;
    let b = contents(alloc, disk, FileId::B)?;
    let finding = examine(alloc, &a, &b, bounds)?;
    Ok(finding)
}
