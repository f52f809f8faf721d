//! What follows for openings of a store one after another: each function is proved to meet its clauses.
ghost use Rattle.std.specs.Prelude.{◌≡◌, ◌≢◌, List, IfErr, IfOk, MatchResult};
ghost use Rattle.packet.specs.Config.{Config};
ghost use Rattle.disk_model.specs.Disk.{LeavesNow};
ghost use Rattle.durable.specs.Entering.{Durable, durable};
ghost use Rattle.durable.specs.Recovery.{Recovers};
ghost use Rattle.snapshot.specs.Reopening.{AreInARow, IsOpening, LeftBehind, Opening, OpeningsKeepTheState};
ghost use Rattle.snapshot.specs.Store.{HasLatest};

use crate::{OpenFault, Opened, Store};
use disk_model::Disk;
use packet::Bounds;
use std::alloc::Global;

/// However many openings were stopped, at whatever moment each, over files of whatever version: what lies there then
/// stands for the state that the files stood for before the first of them, with its configuration.
pub fn openings_keep_the_state<D: Disk>(_: &D)
    ensures { (config : Config) → OpeningsKeepTheState D.moment D.left config }
{}

/// Opens a store (`Store::open`) behind any number of openings that were stopped, and is one like them. It finds the
/// state that the files stood for before the first of them, and from then on a crash leaves files for it whose active one
/// is of the version that is written.
///
/// # Errors
///
/// Those of `Store::open`, but neither `Damaged` nor `ConfigDiffers`.
pub fn open_behind_stops<D: Disk + Drop>(
    alloc: Global,
    disk: D,
    bounds: &Bounds,
) -> Result<Opened<D>, (D, OpenFault)>
    ensures opening { D.honest disk → MatchResult result
        (λ o. IsOpening D.moment D.left bounds.now (record { entry = disk; exit = o.store.disk }))
        (λ e. IsOpening D.moment D.left bounds.now (record { entry = disk; exit = e.0 })) }
    ensures state { D.honest disk → (d : Durable) (openings : List (Opening D))
        → AreInARow D.moment D.left bounds.now d openings
        → LeavesNow D.moment D.left disk (LeftBehind D.moment D.left bounds.now d openings)
        → IfOk result (λ o. (durable o.text.items o.sessions.items ≡ d)
        × LeavesNow D.moment D.left o.store.disk (λ files. Recovers files d × HasLatest files)) }
    ensures refused { D.honest disk → (d : Durable) (openings : List (Opening D))
        → AreInARow D.moment D.left bounds.now d openings
        → LeavesNow D.moment D.left disk (LeftBehind D.moment D.left bounds.now d openings)
        → IfErr result (λ e. (e.1 ≢ OpenFault.Damaged) × (e.1 ≢ OpenFault.ConfigDiffers)) }
{
    Store::open(alloc, disk, bounds)
}
