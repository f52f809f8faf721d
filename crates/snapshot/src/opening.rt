//! What two files hold.
//!
//! `make_ready` syncs both files and reads them whole (`look`, by `sync_both` and `contents`). `recover_for` asks
//! `durable::recover` what they stand for, compares the configuration, and keeps what was found (`keep`). Where neither
//! gate is open, `make_first` makes file A anew. Where the active file is of a former version, `make_current` makes the
//! other one anew for the same state.
ghost use Rattle.std.specs.Prelude.{◌≡◌, ◌≢◌, ◌+◌, ◌-◌, ◌^◌, ◌<◌, ◌≤◌, ◌↔◌, [], length, true, false, IsTrue, IfOk, IfSome, OnOk, OnErr, IsErr, IsErrOf};
ghost use Rattle.disk_model.specs.declared.disk.FileId.{FileId};
ghost use Rattle.disk_model.specs.declared.disk.FileId.TheVariants.{A, B};
ghost use Rattle.disk_model.specs.Disk.{Same, Leaves, LeavesNow, LeavesOnly, Looks, Synced, HasCause, Elsewhere, other, pair};
ghost use Rattle.durable.specs.Entering.{Durable, IsDurable, empty};
ghost use Rattle.durable.specs.Laws.{anew, IsFresh};
ghost use Rattle.durable.specs.Recovery.{Alike, IsConfigured, IsCurrent, NoneOpen, Recovers};
ghost use Rattle.durable.specs.Versions.{latest};
ghost use Rattle.snapshot.specs.Opening.{IsFoundFor, IsRecovered, IsCopied, found_state};
ghost use Rattle.snapshot.specs.Store.{IsLastFormer, MakesFirst, MayWrite, Migrates};

use crate::OpenFault;
use crate::closed_heading::closed_heading;
use crate::remaking::{other, remake};
use disk_model::{Disk, DiskFault, FileId, contents};
use durable::{DurableFault, Recovered, Version, heading_fits, recover};
use packet::Bounds;
use sessions::Session;
use std::alloc::Global;

/// The active file, and what it holds.
#[derive(Drop)]
pub(crate) struct Ready {
    pub(crate) file: FileId,
    pub(crate) version: Version,
    /// It was made anew, since the active one was of a former version.
    pub(crate) migrated: bool,
    pub(crate) generation: u64,
    pub(crate) bounds: Bounds,
    /// The place behind the heading, where the groups begin.
    pub(crate) start: u64,
    /// The place of the closed gate behind the groups.
    pub(crate) end: u64,
    pub(crate) text: Vec<u8>,
    pub(crate) sessions: Vec<Session>,
}

// Syncs both files: from then on a crash leaves what they read.
fn sync_both<D: Disk>(disk: &mut D) -> Result<(), DiskFault>
    ensures honest { D.honest disk.new → D.honest disk.old }
    ensures stays_honest { OnOk result (D.honest disk.old → D.honest disk.new) }
    ensures leaves { D.honest disk.old → Leaves D.moment D.left disk.old disk.new Same }
    ensures looks { D.honest disk.old
        → OnOk result (Looks D.moment D.left D.seen disk.old disk.new) }
    ensures synced { D.honest disk.old → OnOk result ((file : FileId)
        → Synced D.moment D.left D.seen disk.new file) }
    ensures cause { HasCause (D.failed disk.old) (D.failed disk.new) (IsErr result) }
{
    disk.sync(FileId::A)?;
    disk.sync(FileId::B)?;
    Ok(())
}

// Syncs both files, and reads them.
fn look<D: Disk>(alloc: Global, disk: &mut D) -> Result<(Vec<u8>, Vec<u8>), OpenFault>
    ensures honest { D.honest disk.new → D.honest disk.old }
    ensures stays_honest { ¬ IsErrOf result OpenFault.Device
        → D.honest disk.old → D.honest disk.new }
    ensures ok { D.honest disk.old → IfOk result (λ read. (read.0.items ≡ D.seen disk.old A)
        × (read.1.items ≡ D.seen disk.old B)) }
    ensures synced { D.honest disk.old → OnOk result ((file : FileId)
        → Synced D.moment D.left D.seen disk.new file) }
    ensures leaves { D.honest disk.old → Leaves D.moment D.left disk.old disk.new Same }
    ensures looks { D.honest disk.old → ¬ IsErrOf result OpenFault.Device
        → Looks D.moment D.left D.seen disk.old disk.new }
    ensures cause { HasCause (D.failed disk.old) (D.failed disk.new)
        (IsErrOf result OpenFault.Device) }
    ensures damaged { IsErrOf result OpenFault.Damaged → ⊥ }
    ensures differs { IsErrOf result OpenFault.ConfigDiffers → ⊥ }
    ensures generations { IsErrOf result OpenFault.Generations → ⊥ }
{
    sync_both(disk)?;
    let a = contents(alloc, disk, FileId::A)?;
    let b = contents(alloc, disk, FileId::B)?;
    Ok((a, b))
}

// What was recovered from two files, kept for the store.
fn keep(alloc: Global, found: Recovered<'_>) -> Result<Ready, OpenFault>
    ensures ok { IfOk result (λ r. IsCopied found.entry r) }
    ensures fresh { IfOk result (λ r. r.migrated ≡ false) }
    ensures device { IsErrOf result OpenFault.Device → ⊥ }
    ensures damaged { IsErrOf result OpenFault.Damaged → ⊥ }
    ensures differs { IsErrOf result OpenFault.ConfigDiffers → ⊥ }
    ensures generations { IsErrOf result OpenFault.Generations → ⊥ }
{
    let text = Vec::from_slice(alloc, found.text)?;
    Ok(Ready {
        file: found.file,
        version: found.version,
        migrated: false,
        generation: found.generation,
        bounds: found.bounds,
        start: found.start as u64,
        end: found.end as u64,
        text,
        sessions: found.sessions,
    })
}

// What two files hold, by their bytes, for a store of these bounds.
fn recover_for(
    alloc: Global,
    a: &[u8],
    b: &[u8],
    bounds: &Bounds,
) -> Result<Option<Ready>, OpenFault>
    ensures ok { IfOk result (λ found. IsRecovered bounds.now (pair a.now b.now) found) }
    ensures bounds { IfOk result (λ found. IfSome found (λ r. r.bounds ≡ bounds.now)) }
    ensures fresh { IfOk result (λ found. IfSome found (λ r. r.migrated ≡ false)) }
    ensures damaged { IsErrOf result OpenFault.Damaged → (d : Durable)
        → ¬ Recovers (pair a.now b.now) d }
    ensures differs { IsErrOf result OpenFault.ConfigDiffers
        → (d : Durable) × Recovers (pair a.now b.now) d
        × ¬ IsConfigured bounds.now (pair a.now b.now) }
    ensures device { IsErrOf result OpenFault.Device → ⊥ }
    ensures generations { IsErrOf result OpenFault.Generations → ⊥ }
{
    match recover(alloc, a, b) {
        Ok(None) => Ok(None),
        Ok(Some(found)) => {
            if !found.is_configured(bounds) {
                return Err(OpenFault::ConfigDiffers);
            }
            let ready = keep(alloc, found)?;
            Ok(Some(ready))
        }
        Err(DurableFault::Damaged) => Err(OpenFault::Damaged),
        Err(DurableFault::NoMemory) => Err(OpenFault::NoMemory),
    }
}

// Makes file A, where no file is open: it holds no text and no session.
fn make_first<D: Disk>(alloc: Global, disk: &mut D, bounds: &Bounds) -> Result<Ready, OpenFault>
    requires none { D.honest disk.old → NoneOpen (D.seen disk.old) }
    requires synced { D.honest disk.old → (file : FileId)
        → Synced D.moment D.left D.seen disk.old file }
    ensures honest { D.honest disk.new → D.honest disk.old }
    ensures stays_honest { ¬ IsErrOf result OpenFault.Device
        → D.honest disk.old → D.honest disk.new }
    ensures any_moment { D.honest disk.old
        → LeavesOnly D.moment D.left disk.old disk.new (λ files. Recovers files empty) }
    ensures configured { D.honest disk.old
        → LeavesOnly D.moment D.left disk.old disk.new (IsConfigured bounds.now) }
    ensures ok { D.honest disk.old → IfOk result (λ r. IsFoundFor bounds.now (D.seen disk.new) r) }
    ensures synced { D.honest disk.old → OnOk result ((file : FileId)
        → Synced D.moment D.left D.seen disk.new file) }
    ensures first { D.honest disk.old
        → OnOk result (MakesFirst bounds.now (D.seen disk.old) (D.seen disk.new)) }
    ensures generation { IfOk result (λ r. r.generation ≡ 1) }
    ensures current { IfOk result (λ r. r.version ≡ latest) }
    ensures was { IfOk result (λ r. r.migrated ≡ false) }
    ensures empty { IfOk result (λ r. found_state r ≡ empty) }
    ensures bounds { IfOk result (λ r. r.bounds ≡ bounds.now) }
    ensures stays { ¬ IsErrOf result OpenFault.Device → OnErr result (disk.new ≡ disk.old) }
    ensures cause { HasCause (D.failed disk.old) (D.failed disk.new)
        (IsErrOf result OpenFault.Device) }
    ensures damaged { IsErrOf result OpenFault.Damaged → ⊥ }
    ensures differs { IsErrOf result OpenFault.ConfigDiffers → ⊥ }
    ensures generations { IsErrOf result OpenFault.Generations → ⊥ }
{
    let file = FileId::A;
    let generation = 1;
    bounds.facts();
    heading_fits(generation, bounds, &[], &[]);
    let kept = bounds.copy(alloc)?;
    let bytes = closed_heading(alloc, generation, bounds, &[], &[])?;
    remake(disk, file, &bytes)?;
    // There stands the closed gate that ends `bytes`: the file's own gate is in front of them.
    let end = bytes.len() as u64;
    Ok(Ready {
        file,
        version: Version::LATEST,
        migrated: false,
        generation,
        bounds: kept,
        start: end,
        end,
        text: Vec::new(alloc),
        sessions: Vec::new(alloc),
    })
}

// Makes the file anew that isn't active, of the version that is written, for the state of the active one.
fn migrate<D: Disk>(alloc: Global, disk: &mut D, found: Ready) -> Result<Ready, OpenFault>
    requires found { D.honest disk.old → IsFoundFor found.bounds (D.seen disk.old) found }
    requires synced { D.honest disk.old → (file : FileId)
        → Synced D.moment D.left D.seen disk.old file }
    requires text { length found.text.items ≤ 262144 }
    requires count { length found.sessions.items ≤ 65536 }
    ensures honest { D.honest disk.new → D.honest disk.old }
    ensures stays_honest { ¬ IsErrOf result OpenFault.Device
        → D.honest disk.old → D.honest disk.new }
    ensures any_moment { D.honest disk.old
        → LeavesOnly D.moment D.left disk.old disk.new
        (λ files. Recovers files (found_state found)) }
    ensures configured { D.honest disk.old
        → LeavesOnly D.moment D.left disk.old disk.new (IsConfigured found.bounds) }
    ensures ok { D.honest disk.old
        → IfOk result (λ r. IsFoundFor found.bounds (D.seen disk.new) r) }
    ensures synced { D.honest disk.old → OnOk result ((file : FileId)
        → Synced D.moment D.left D.seen disk.new file) }
    ensures made { D.honest disk.old → OnOk result (IsFresh (D.seen disk.new (other found.file))
        (anew (found.generation + 1) found.bounds (found_state found))) }
    ensures elsewhere { D.honest disk.old → OnOk result (Elsewhere (other found.file)
        (D.seen disk.old) (D.seen disk.new)) }
    ensures had_generation { OnOk result (found.generation + 1 < 2 ^ 64) }
    ensures state { IfOk result (λ r. found_state r ≡ found_state found) }
    ensures current { IfOk result (λ r. r.version ≡ latest) }
    ensures was { IfOk result (λ r. r.migrated ≡ true) }
    ensures bounds { IfOk result (λ r. r.bounds ≡ found.bounds) }
    ensures unwritten { ¬ (found.generation + 1 < 2 ^ 64) → disk.new ≡ disk.old }
    ensures generations { IsErrOf result OpenFault.Generations
        → found.generation ≡ 2 ^ 64 - 1 }
    ensures stays { ¬ IsErrOf result OpenFault.Device → OnErr result (disk.new ≡ disk.old) }
    ensures cause { HasCause (D.failed disk.old) (D.failed disk.new)
        (IsErrOf result OpenFault.Device) }
    ensures damaged { IsErrOf result OpenFault.Damaged → ⊥ }
    ensures differs { IsErrOf result OpenFault.ConfigDiffers → ⊥ }
{
    if found.generation == u64::MAX {
        return Err(OpenFault::Generations);
    }
    let generation = found.generation + 1;
    let bytes = closed_heading(
        alloc,
        generation,
        &found.bounds,
        &found.text,
        &found.sessions,
    )?;
    let file = other(found.file);
    remake(disk, file, &bytes)?;
    // There stands the closed gate that ends `bytes`: the file's own gate is in front of them.
    let end = bytes.len() as u64;
    Ok(Ready {
        file,
        version: Version::LATEST,
        migrated: true,
        generation,
        bounds: found.bounds,
        start: end,
        end,
        text: found.text,
        sessions: found.sessions,
    })
}

// What was found, of the version that is written: where it is of a former one, it is made anew.
fn make_current<D: Disk>(alloc: Global, disk: &mut D, found: Ready) -> Result<Ready, OpenFault>
    requires found { D.honest disk.old → IsFoundFor found.bounds (D.seen disk.old) found }
    requires sound { IsDurable found.bounds (found_state found) }
    requires fresh { found.migrated ≡ false }
    requires synced { D.honest disk.old → (file : FileId)
        → Synced D.moment D.left D.seen disk.old file }
    ensures honest { D.honest disk.new → D.honest disk.old }
    ensures stays_honest { ¬ IsErrOf result OpenFault.Device
        → D.honest disk.old → D.honest disk.new }
    ensures any_moment { D.honest disk.old
        → LeavesOnly D.moment D.left disk.old disk.new
        (λ files. Recovers files (found_state found)) }
    ensures configured { D.honest disk.old
        → LeavesOnly D.moment D.left disk.old disk.new (IsConfigured found.bounds) }
    ensures ok { D.honest disk.old
        → IfOk result (λ r. IsFoundFor found.bounds (D.seen disk.new) r) }
    ensures synced { D.honest disk.old → OnOk result ((file : FileId)
        → Synced D.moment D.left D.seen disk.new file) }
    ensures migrated { D.honest disk.old
        → OnOk result (Migrates found.bounds (D.seen disk.old) (D.seen disk.new)) }
    ensures unwritten { ¬ ((found.version ≢ latest) × (found.generation + 1 < 2 ^ 64))
        → disk.new ≡ disk.old }
    ensures had_generation { OnOk result (found.version ≢ latest
        → found.generation + 1 < 2 ^ 64) }
    ensures state { IfOk result (λ r. found_state r ≡ found_state found) }
    ensures current { IfOk result (λ r. r.version ≡ latest) }
    ensures was { IfOk result (λ r. IsTrue r.migrated ↔ (found.version ≢ latest)) }
    ensures bounds { IfOk result (λ r. r.bounds ≡ found.bounds) }
    ensures generations { IsErrOf result OpenFault.Generations
        → (found.version ≢ latest) × (found.generation ≡ 2 ^ 64 - 1) }
    ensures stays { ¬ IsErrOf result OpenFault.Device → OnErr result (disk.new ≡ disk.old) }
    ensures cause { HasCause (D.failed disk.old) (D.failed disk.new)
        (IsErrOf result OpenFault.Device) }
    ensures damaged { IsErrOf result OpenFault.Damaged → ⊥ }
    ensures differs { IsErrOf result OpenFault.ConfigDiffers → ⊥ }
{
    if found.version.is_latest() {
        return Ok(found);
    }
    migrate(alloc, disk, found)
}

/// What two files hold, for a store of these bounds, with both synced. Where neither gate is open, file A is made anew.
/// Where the active one is of a former version, the other one is made anew for the same state.
///
/// # Errors
///
/// Those of `Store::open`.
pub(crate) fn make_ready<D: Disk>(
    alloc: Global,
    disk: &mut D,
    bounds: &Bounds,
) -> Result<Ready, OpenFault>
    ensures honest { D.honest disk.new → D.honest disk.old }
    ensures stays_honest { ¬ IsErrOf result OpenFault.Device
        → D.honest disk.old → D.honest disk.new }
    ensures any_moment { D.honest disk.old → Leaves D.moment D.left disk.old disk.new Alike }
    ensures configured { D.honest disk.old
        → LeavesNow D.moment D.left disk.old (IsConfigured bounds.now)
        → LeavesOnly D.moment D.left disk.old disk.new (IsConfigured bounds.now) }
    ensures ok { D.honest disk.old → IfOk result (λ r. IsFoundFor bounds.now (D.seen disk.new) r) }
    ensures recovers { D.honest disk.old
        → IfOk result (λ r. Recovers (D.seen disk.old) (found_state r)) }
    ensures sound { IfOk result (λ r. IsDurable bounds.now (found_state r)) }
    ensures had_config { D.honest disk.old
        → OnOk result (IsConfigured bounds.now (D.seen disk.old)) }
    ensures had_generation { D.honest disk.old
        → OnOk result (¬ IsLastFormer bounds.now (D.seen disk.old)) }
    ensures first { D.honest disk.old → NoneOpen (D.seen disk.old)
        → OnOk result (MakesFirst bounds.now (D.seen disk.old) (D.seen disk.new)) }
    ensures generation { D.honest disk.old → NoneOpen (D.seen disk.old)
        → IfOk result (λ r. r.generation ≡ 1) }
    ensures only_looks { D.honest disk.old → ¬ NoneOpen (D.seen disk.old)
        → IsCurrent (D.seen disk.old)
        → OnOk result (Looks D.moment D.left D.seen disk.old disk.new) }
    ensures migrated { D.honest disk.old
        → OnOk result (Migrates bounds.now (D.seen disk.old) (D.seen disk.new)) }
    ensures current { IfOk result (λ r. r.version ≡ latest) }
    ensures was { D.honest disk.old
        → IfOk result (λ r. IsTrue r.migrated ↔ ¬ IsCurrent (D.seen disk.old)) }
    ensures synced { D.honest disk.old → OnOk result ((file : FileId)
        → Synced D.moment D.left D.seen disk.new file) }
    ensures bounds { IfOk result (λ r. r.bounds ≡ bounds.now) }
    ensures damaged { D.honest disk.old → IsErrOf result OpenFault.Damaged → (d : Durable)
        → ¬ Recovers (D.seen disk.old) d }
    ensures differs { D.honest disk.old → IsErrOf result OpenFault.ConfigDiffers
        → (d : Durable) × Recovers (D.seen disk.old) d
        × ¬ IsConfigured bounds.now (D.seen disk.old) }
    ensures generations { D.honest disk.old → IsErrOf result OpenFault.Generations
        → IsLastFormer bounds.now (D.seen disk.old) }
    ensures looks { D.honest disk.old → ¬ IsErrOf result OpenFault.Device
        → OnErr result (Looks D.moment D.left D.seen disk.old disk.new) }
    ensures unwritten { D.honest disk.old → ¬ MayWrite bounds.now (D.seen disk.old)
        → Leaves D.moment D.left disk.old disk.new Same }
    ensures cause { HasCause (D.failed disk.old) (D.failed disk.new)
        (IsErrOf result OpenFault.Device) }
{
    let (a, b) = look(alloc, disk)?;
    match recover_for(alloc, &a, &b, bounds)? {
        Some(found) => make_current(alloc, disk, found),
        None => make_first(alloc, disk, bounds),
    }
}
