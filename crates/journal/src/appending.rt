//! Putting a group behind the others of a file.
ghost use Rattle.std.specs.Prelude.{◌≡◌, ◌+◌, ◌<◌, ◌≤◌, ◌↔◌, ◌∷◌, length, IfOk, OnOk, IsErrOf};
ghost use Rattle.disk_model.specs.Disk.{FromLeft, Leaves, Put, Called, HasCause};
ghost use Rattle.journal.specs.Groups.{Resting, Appended, GroupStands, sealed};

use crate::{Group, JournalFault};
use disk_model::{Disk, FileId, write_synced};

/// The greatest length of a file, in bytes.
pub const LONGEST_FILE: u64 = 67_108_864;

/// Puts a group behind the groups of a file, which is synced and whose closed gate is at a place, and gives the place
/// of the closed gate behind the new one.
///
/// It makes four calls of the disk: the length, the body and one 00 are written behind the gate; a sync; 01 is written
/// over the gate; a sync. A crash at any moment leaves the group whole or not at all. It takes no memory.
///
/// # Errors
///
/// - `Full` exactly where the group, with the 00 behind it, would end past `LONGEST_FILE`. No call of the disk is made.
/// - `Device` only where a call of the disk has failed, which is the last one made. The old groups stand, and the new
///   one stands behind them, whole, or doesn't.
pub fn append<D: Disk>(
    disk: &mut D,
    file: FileId,
    at: u64,
    group: &Group,
) -> Result<u64, JournalFault>
    requires { D.honest disk.old → Resting D.moment D.left D.seen disk.old file at }
    ensures honest { D.honest disk.new → D.honest disk.old }
    ensures stays_honest { ¬ IsErrOf result JournalFault.Device
        → D.honest disk.old → D.honest disk.new }

    // At `Ok` it stands: the file is synced and has the new group, and so has it whatever a crash leaves.
    ensures ok { D.honest disk.old
        → IfOk result (λ next. GroupStands D.moment D.left D.seen disk.old disk.new file at
        group.now.body next) }

    // It reads as before, but for the open group and the 00 behind it.
    ensures written { D.honest disk.old
        → OnOk result (Put file at (1 ∷ sealed group.now.body) (D.seen disk.old)
        (D.seen disk.new)) }

    // A crash at any moment leaves the groups from before, with the new one, whole, or without it, and the other file.
    ensures any_moment { D.honest disk.old
        → Leaves D.moment D.left disk.old disk.new (Appended file at group.now.body) }

    // And so do the files read, whatever is answered.
    ensures seen { D.honest disk.old
        → FromLeft D.moment D.left disk.old (Appended file at group.now.body) (D.seen disk.new) }
    ensures called { D.honest disk.old
        → OnOk result (Called 4 (D.called disk.old) (D.called disk.new)) }
    ensures calls { D.honest disk.old → D.called disk.new ≤ D.called disk.old + 4 }

    // No call follows one that has failed, since that one might fail too.
    ensures cause { HasCause (D.failed disk.old) (D.failed disk.new)
        (IsErrOf result JournalFault.Device) }
    ensures full { IsErrOf result JournalFault.Full ↔ 67108864 < at + length group.now.body + 6 }
    ensures full_stays { IsErrOf result JournalFault.Full → disk.new ≡ disk.old }
    ensures damaged { IsErrOf result JournalFault.Damaged → ⊥ }
    ensures memory { IsErrOf result JournalFault.NoMemory → ⊥ }
{
    let bytes = group.as_bytes();
    let count = bytes.len() as u64;
    if at >= LONGEST_FILE || count >= LONGEST_FILE - at {
        return Err(JournalFault::Full);
    }
    write_synced(disk, file, at + 1, bytes)?;
    write_synced(disk, file, at, &[1])?;
    // There stands the closed gate that ends `bytes`: the group's own gate is in front of them.
    Ok(at + count)
}
