//! Reading the leading open groups of a file.
ghost use Rattle.std.specs.Prelude.{◌≡◌, ◌+◌, ◌<◌, List, ℕ, length, get_or, IfOk, IfSome, IsErrOf};
ghost use Rattle.byteorder.specs.Endian.{big_bytes};
ghost use Rattle.disk_model.specs.Disk.{Looks, HasCause};
ghost use Rattle.journal.specs.Groups.{Groups, GroupsOnce, IsRead, IsBrokenAt, bodies_of};

use crate::JournalFault;
use byteorder::{BigEndian, ByteOrder};
use disk_model::{Disk, FileId};
use std::alloc::Global;

/// The number whose four bytes these are, the highest first.
fn number_of(bytes: &[u8]) -> u32
    requires { length bytes.now ≡ 4 }
    ensures { big_bytes 4 result ≡ bytes.now }
{
    BigEndian::read_u32(bytes)
}

/// Reads the group at a place, or none where its gate is closed.
fn read_group<D: Disk>(
    alloc: Global,
    disk: &mut D,
    file: FileId,
    at: u64,
    end: u64,
) -> Result<Option<Vec<u8>>, JournalFault>
    requires size { D.honest disk.old → end ≡ length (D.seen disk.old file) }
    requires within { D.honest disk.old → at < end }
    ensures honest { D.honest disk.new → D.honest disk.old }
    ensures stays_honest { ¬ IsErrOf result JournalFault.Device
        → D.honest disk.old → D.honest disk.new }
    ensures ok { D.honest disk.old → IfOk result (λ group. IsRead (D.seen disk.old file) at group) }
    ensures broken { D.honest disk.old → IsErrOf result JournalFault.Damaged
        → IsBrokenAt (D.seen disk.old file) at }
    ensures memory { D.honest disk.old → IsErrOf result JournalFault.NoMemory
        → get_or (D.seen disk.old file) at 0 ≡ 1 }
    ensures looks { D.honest disk.old → Looks D.moment D.left D.seen disk.old disk.new }
    ensures within { IfOk result (λ group.
        IfSome group (λ body. at + 5 + length body.items < end)) }
    ensures cause { HasCause (D.failed disk.old) (D.failed disk.new)
        (IsErrOf result JournalFault.Device) }
    ensures full { IsErrOf result JournalFault.Full → ⊥ }
{
    let mut gate = [0];
    disk.read_at(file, at, &mut gate)?;
    if gate[0] != 1 {
        return Ok(None);
    }
    if at >= end || end - at < 6 {
        return Err(JournalFault::Damaged);
    }
    let mut size = [0; 4];
    disk.read_at(file, at + 1, &mut size)?;
    let count = number_of(&size);
    if end - at - 6 < u64::from(count) {
        return Err(JournalFault::Damaged);
    }
    let mut body = vec![in alloc; 0; count as usize]?;
    disk.read_at(file, at + 5, &mut body)?;
    Ok(Some(body))
}

/// The bodies of the leading open groups from a place of a file on, in order, and the place of the closed gate behind
/// them. It only looks. A running natgw doesn't call it: an opening reads groups by `durable::recover`, from bytes in
/// memory.
///
/// # Errors
///
/// - `Damaged` where one of the leading open groups isn't whole: its length goes past the end of the file, or no gate
///   stands behind it. Unless memory is refused or a call of the disk fails, it comes exactly there.
/// - `Device` only where a call of the disk has failed.
/// - `NoMemory` where memory for the bodies is refused.
pub fn groups<D: Disk>(
    alloc: Global,
    disk: &mut D,
    file: FileId,
    at: u64,
) -> Result<(Vec<Vec<u8>>, u64), JournalFault>
    requires { D.honest disk.old → at < length (D.seen disk.old file) }
    ensures honest { D.honest disk.new → D.honest disk.old }
    ensures stays_honest { ¬ IsErrOf result JournalFault.Device
        → D.honest disk.old → D.honest disk.new }
    ensures ok { D.honest disk.old
        → IfOk result (λ r. Groups (D.seen disk.old file) at (bodies_of r.0.items) r.1) }

    // No reading as whole groups with a closed gate behind them is there.
    ensures damaged { D.honest disk.old → IsErrOf result JournalFault.Damaged
        → (bodies : List (List ℕ)) (end : ℕ) → Groups (D.seen disk.old file) at bodies end → ⊥ }

    // Where no group stands at the place, it takes no memory.
    ensures memory { D.honest disk.old → IsErrOf result JournalFault.NoMemory
        → get_or (D.seen disk.old file) at 0 ≡ 1 }
    ensures looks { D.honest disk.old → Looks D.moment D.left D.seen disk.old disk.new }
    ensures cause { HasCause (D.failed disk.old) (D.failed disk.new)
        (IsErrOf result JournalFault.Device) }
    ensures full { IsErrOf result JournalFault.Full → ⊥ }
{
    let end = disk.len(file)?;
    let mut bodies = Vec::new(alloc);
    let mut place = at;
    while let Some(body) = read_group(alloc, disk, file, place, end)? {
        place += 5 + body.len() as u64;
        bodies.push(body)?;
    }
    Ok((bodies, place))
}

/// A file reads as open groups with a closed gate behind them in one way only.
pub fn groups_once()
    ensures { GroupsOnce }
{}
