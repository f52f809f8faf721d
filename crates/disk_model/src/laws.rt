//! What follows for every disk from the clauses of its calls. Each function does nothing: its clause is a theorem,
//! which is proved.
ghost use Rattle.disk_model.specs.Laws.{StaysSynced, StaysSyncedElsewhere, OnlyWidens};

use crate::Disk;

/// A synced file stays synced under calls that only look.
pub fn synced_looks<D: Disk>(_: &D)
    ensures { StaysSynced D.honest D.moment D.left D.seen }
{}

/// A synced file stays synced while the other one is written.
pub fn synced_elsewhere<D: Disk>(_: &D)
    ensures { StaysSyncedElsewhere D.honest D.moment D.left D.seen }
{}

/// What a crash at any moment since an earlier one might have left only widens: with each call it keeps what it had,
/// and of two moments the earlier has all that the later has. So a stop between several calls, or within one of them,
/// leaves only what a crash might have left since they began, by the disk with which they end.
pub fn only_widens<D: Disk>(_: &D)
    ensures { OnlyWidens D.honest D.moment D.left }
{}
