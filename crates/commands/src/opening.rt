//! A gateway over the files of a directory, or what is the matter with them.
//!
//! `open` opens the two files as a disk, and a gateway over it; `open_anew` makes the file anew besides that counts, so
//! that nothing rests on what an earlier process wrote. `unopened` tells why there is no disk, `unsuitable` why
//! no gateway opens over it: where the files themselves are refused, `unsound` says what `diagnosis::diagnose` finds.
//! `tell_migration` tells of files that were migrated by the opening.
ghost use Rattle.std.specs.Prelude.{◌≡◌, ◌↔◌, ◌+◌, ◌≤◌, [], ℕ, IfErr, IfOk, IsOk, MatchResult, OnOk, false, true};
ghost use Rattle.std.specs.Io.KnownBytes.{Appends};
ghost use Rattle.durable.specs.Entering.{Durable, IsDurable};
ghost use Rattle.machine.specs.Noted.{IsResumed};
ghost use Rattle.refusals.specs.Words.{IsOfPath, migrated_line};
ghost use Rattle.disk_model.specs.Disk.{Leaves, LeavesNow, LeavesOnly};
ghost use Rattle.disk_model.specs.declared.disk.FileId.{FileId};
ghost use Rattle.durable.specs.Coding.{Heading};
ghost use Rattle.durable.specs.Recovery.{Alike, IsActive, IsConfigured, IsCurrent, Recovers};
ghost use Rattle.snapshot.specs.Store.{Migrates};
ghost use Rattle.commands.specs.Causes.{AnewHasCause};
ghost use Rattle.commands.specs.Faults.{IsOfFiles, IsOfOpening};

use crate::faults::{of_gateway, of_opening};
use checking::bounds;
use diagnosis::{Finding, diagnose};
use disk_model::Disk;
use file_disk::{FileDisk, OpenError};
use gateway::{Gateway, GatewayFault, OpenFault};
use options::{Opening, Sides};
use packet::Bounds;
use refusals::{Refusal, Stop, tell_migrated};
use std::alloc::Global;
use std::io;
use std::io::Write;

// Why the files of a directory can't be opened.
fn unopened(alloc: Global, directory: &str, error: &OpenError) -> Stop
    ensures { IsOfPath result.refusal }
{
    let named = if directory.is_empty() {
        "--dir"
    } else {
        directory
    };
    match error {
        OpenError::NoMemory => Stop::from(Refusal::NoMemory),
        _ => Stop::with(Refusal::File, format!(in alloc; "{named}: {error}")),
    }
}

// What is the matter with the files of a disk, to a gateway with these bounds.
fn unsound_to(
    alloc: Global,
    disk: &mut FileDisk,
    bounds: &Bounds,
    directory: &str,
    refusal: Refusal,
) -> Stop
    ensures { result.refusal ≡ refusal }
{
    match diagnose(alloc, disk, bounds) {
        // A device that reads otherwise the second time: there is nothing to tell of what it read first.
        Ok(Finding::Sound) | Err(_) => Stop::from(refusal),
        Ok(finding) => Stop::with(refusal, format!(in alloc; "{directory}: {finding}")),
    }
}

// What is the matter with the files of a disk, looked at once more. The bounds are made again: the opening took them.
fn unsound(
    alloc: Global,
    disk: &mut FileDisk,
    sides: &Sides<'_>,
    directory: &str,
    refusal: Refusal,
) -> Stop
    ensures { result.refusal ≡ refusal }
{
    match bounds(alloc, sides) {
        Ok(bounds) => unsound_to(alloc, disk, &bounds, directory, refusal),
        Err(_) => Stop::from(refusal),
    }
}

// Why no gateway opens over a disk.
fn unsuitable(
    alloc: Global,
    disk: &mut FileDisk,
    sides: &Sides<'_>,
    directory: &str,
    fault: OpenFault,
) -> Stop
    ensures { IsOfFiles result.refusal }
{
    let refusal = of_opening(fault);
    match fault {
        OpenFault::Damaged | OpenFault::ConfigDiffers => {
            unsound(alloc, disk, sides, directory, refusal)
        }
        OpenFault::Device | OpenFault::Generations | OpenFault::NoMemory => Stop::from(refusal),
    }
}

// Why no gateway opens over a disk whose active file is made anew.
fn unmade(
    alloc: Global,
    disk: &mut FileDisk,
    sides: &Sides<'_>,
    directory: &str,
    fault: AnewFault,
) -> Stop
    ensures { IsOfOpening result.refusal }
{
    match fault {
        AnewFault::Opening(fault) => unsuitable(alloc, disk, sides, directory, fault),
        AnewFault::Making(fault) => Stop::from(of_gateway(fault)),
    }
}

// The files of a directory as a disk.
fn disk_in(rt: &HostRuntime, directory: &str) -> Result<FileDisk, Stop>
    ensures { IfErr result (λ stop. IsOfPath stop.refusal) }
{
    match FileDisk::open(rt, directory) {
        Ok(disk) => Ok(disk),
        Err(error) => Err(unopened(rt.alloc(), directory, &error)),
    }
}

/// Opens a gateway over the files of a directory. `sides` are those that the bounds are made of.
///
/// # Errors
///
/// `File` where the files can't be opened, or another program has them; `Device`, `Damaged`, `ConfigDiffers` or
/// `Generations` where no gateway opens over them; `NoMemory` where memory is refused, to the one or the other.
pub fn open(
    rt: &HostRuntime,
    sides: &Sides<'_>,
    bounds: Bounds,
    opening: Opening<'_>,
) -> Result<Gateway<FileDisk>, Stop>
    ensures causes { IfErr result (λ stop. IsOfFiles stop.refusal) }

    // It begins again from some state that survives, at the opening's moment, and has numbered and held nothing.
    ensures config { IfOk result (λ gateway. gateway.told.config ≡ bounds) }
    ensures resumed { IfOk result (λ gateway. (d : Durable) × IsDurable bounds d
        × IsResumed bounds d opening.entry.moment gateway.told.state) }
    ensures begins { IfOk result (λ gateway. (gateway.told.last ≡ 0)
        × (gateway.told.held ≡ []) × (gateway.fallen ≡ false)) }
{
    let alloc = rt.alloc();
    let disk = disk_in(rt, opening.directory)?;
    match Gateway::open(alloc, disk, bounds, opening.moment) {
        Ok(gateway) => Ok(gateway),
        Err((mut disk, fault)) => {
            Err(unsuitable(alloc, &mut disk, sides, opening.directory, fault))
        }
    }
}

/// Why no gateway opens whose active file is made anew.
#[derive(Clone, Copy, Debug, PartialEq, Eq, Drop)]
pub enum AnewFault {
    /// It doesn't open.
    Opening(OpenFault),
    /// It opened, and the file wasn't made anew.
    Making(GatewayFault),
}

/// Opens a gateway over a disk, and makes the file anew that counts: what is answered from then on rests on what this
/// gateway has written and synced itself, and on nothing that the system may have kept of an earlier one's sync that
/// failed. Files of a former version are made anew by the opening.
///
/// # Errors
///
/// The disk comes back, and why: what `Gateway::open` or `Gateway::compact` answered; of the latter never `Reopen`.
pub fn open_over<D: Disk + Drop>(
    alloc: Global,
    disk: D,
    bounds: Bounds,
    moment: u64,
) -> Result<Gateway<D>, (D, AnewFault)>
    ensures honest { MatchResult result (λ gateway. D.honest disk ↔ D.honest gateway.disk)
        (λ e. D.honest e.0 → D.honest disk) }

    // Whatever a crash leaves since the entry, within the making too, stands for what some pair left at the entry
    // stands for.
    ensures any_moment { D.honest disk
        → MatchResult result (λ gateway. Leaves D.moment D.left disk gateway.disk Alike)
        (λ e. Leaves D.moment D.left disk e.0 Alike) }

    // Where each pair left at the entry has this configuration in its active file, if it has one, so has each since.
    ensures configured { D.honest disk → LeavesNow D.moment D.left disk (IsConfigured bounds)
        → MatchResult result
        (λ gateway. LeavesOnly D.moment D.left disk gateway.disk (IsConfigured bounds))
        (λ e. LeavesOnly D.moment D.left disk e.0 (IsConfigured bounds)) }

    // The state is begun again from what the files stood for, which a crash leaves from now on.
    ensures ok { D.honest disk → IfOk result (λ gateway. (d : Durable) × Recovers (D.seen disk) d
        × IsResumed bounds d moment gateway.told.state
        × LeavesNow D.moment D.left gateway.disk (λ files. Recovers files d)) }

    ensures had_config { D.honest disk → OnOk result (IsConfigured bounds (D.seen disk)) }

    // Where a file was active, the active one has the next generation now: it was made since.
    ensures anew { D.honest disk → (file : FileId) (h : Heading) (d : Durable) (end : ℕ)
        → IsActive (D.seen disk) file h d end → IsCurrent (D.seen disk)
        → IfOk result (λ gateway. gateway.generation ≡ h.generation + 1) }
    ensures grown { IfOk result (λ gateway. gateway.migrated ≡ false → gateway.grown ≡ 0) }
    // A file of a former version stays as it was, and the other one is made anew for its state.
    ensures migrated { D.honest disk
        → IfOk result (λ gateway. Migrates bounds (D.seen disk) (D.seen gateway.disk)) }
    ensures config { IfOk result (λ gateway. gateway.told.config ≡ bounds) }

    // Whatever the disk: the state is one that survives, begun again at the moment.
    ensures resumed { IfOk result (λ gateway. (d : Durable) × IsDurable bounds d
        × IsResumed bounds d moment gateway.told.state) }
    ensures begins { IfOk result (λ gateway. (gateway.told.last ≡ 0)
        × (gateway.told.held ≡ []) × (gateway.fallen ≡ false)) }

    // A fault has its cause, and no call of the disk follows one that has failed.
    ensures cause { IfErr result (λ e. AnewHasCause D.honest D.moment D.left D.seen D.failed bounds
        disk e.0 e.1) }
    ensures by_one { IfErr result (λ e. D.failed e.0 ≤ D.failed disk + 1) }
    ensures no_failure { IfOk result (λ gateway. D.failed gateway.disk ≡ D.failed disk) }
{
    let mut gateway = match Gateway::open(alloc, disk, bounds, moment) {
        Ok(gateway) => gateway,
        Err((disk, fault)) => return Err((disk, AnewFault::Opening(fault))),
    };
    // The opening has made the other file anew, and an older natgw may yet be wanted for this one.
    let is_made = gateway.has_migrated();
    if is_made {
        return Ok(gateway);
    }
    // It carries a fact: the file that counts has the gateway's generation.
    let _stands = !gateway.has_fallen();
    let made = gateway.compact();
    match made {
        Ok(()) => Ok(gateway),
        Err(fault) => Err((gateway.into_disk(), AnewFault::Making(fault))),
    }
}

/// Opens a gateway over the files of a directory, and makes the file anew that counts (`open_over`). `sides` are those
/// that the bounds are made of.
///
/// # Errors
///
/// Those of `open`; and `Device` or `Generations` where the file can't be made anew.
pub fn open_anew(
    rt: &HostRuntime,
    sides: &Sides<'_>,
    bounds: Bounds,
    opening: Opening<'_>,
) -> Result<Gateway<FileDisk>, Stop>
    ensures causes { IfErr result (λ stop. IsOfOpening stop.refusal) }
    ensures anew { IfOk result (λ gateway. gateway.migrated ≡ false → gateway.grown ≡ 0) }
    ensures config { IfOk result (λ gateway. gateway.told.config ≡ bounds) }
    ensures resumed { IfOk result (λ gateway. (d : Durable) × IsDurable bounds d
        × IsResumed bounds d opening.entry.moment gateway.told.state) }
    ensures begins { IfOk result (λ gateway. (gateway.told.last ≡ 0)
        × (gateway.told.held ≡ []) × (gateway.fallen ≡ false)) }
{
    let alloc = rt.alloc();
    let disk = disk_in(rt, opening.directory)?;
    match open_over(alloc, disk, bounds, opening.moment) {
        Ok(gateway) => Ok(gateway),
        Err((mut disk, fault)) => Err(unmade(alloc, &mut disk, sides, opening.directory, fault)),
    }
}

/// Tells on `errors` that the two files were those of an older version of natgw, if the gateway's opening migrated them.
///
/// # Errors
///
/// That of the writer. A part may have been written then.
pub fn tell_migration<E: Write, D: Disk + Drop>(
    gateway: &Gateway<D>,
    errors: &mut E,
) -> io::Result<()>
    ensures told { gateway.now.migrated ≡ true
        → OnOk result (Appends (E.contents errors.old) (E.contents errors.new) migrated_line) }
    ensures quiet { gateway.now.migrated ≡ false → IsOk result × (errors.new ≡ errors.old) }
{
    if gateway.has_migrated() {
        return tell_migrated(errors);
    }
    Ok(())
}
