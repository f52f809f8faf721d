//! What follows from the definitions of `specs/Found`, `specs/Lives` and `specs/Visits`: an opening of files that makes
//! its file anew, and clients that are served one after the other, are part of the life of a gateway, as
//! `gateway::laws` speaks of lives.
ghost use Rattle.std.specs.Prelude.{◌≡◌, [], List, IfErr, IfOk, MatchResult};
ghost use Rattle.packet.specs.Config.{Config};
ghost use Rattle.disk_model.specs.Disk.{LeavesNow};
ghost use Rattle.durable.specs.Entering.{Durable};
ghost use Rattle.gateway.specs.Lives.{AreLives, IsLife, Life, NextFinds, Refused, Stopped};
ghost use Rattle.gateway.specs.Living.{RestsInLife};
ghost use Rattle.snapshot.specs.declared.fault.OpenFault.{OpenFault};
ghost use Rattle.commands.specs.Found.{OpeningsFind};
ghost use Rattle.commands.specs.Lives.{TellsBehind, UnseenVisitsAreLives, VisitsAreLives};

use crate::clients::Clients;
use crate::opening::{AnewFault, open_over};
use disk_model::Disk;
use file_disk::DiskFile;
use file_disk::laws::openings_keep_files;
use gateway::Gateway;
use gateway::laws::lives_are_the_models;
use packet::Bounds;
use std::alloc::Global;

/// If a crash leaves of two files only what the next gateway may find, it still does so behind an opening of the
/// directory, which has prepared them (`prepared`) or has failed (`left`). So what a crash leaves of the disk made of
/// them is what `open_over_in_lives` asks for, behind earlier lives. If no earlier life is known, files are found as
/// they read, if both are whole and synced, and stand for a state of this configuration (`read`).
pub fn openings_find<F: DiskFile>(file: &F)
    ensures { (config : Config) → OpeningsFind F.honest F.holds F.leaves config F.lacks_space }
{
    openings_keep_files(file);
}

/// Opens a gateway and makes its file anew (`open_over`), as `serve`, `replay`, `loop` and `tun` do before all else.
/// Stopped within it, or ended by any fault, that is a life; else the gateway that it gives is in its life. Behind
/// earlier lives it tells neither damage nor another configuration.
///
/// # Errors
///
/// Those of `open_over`.
pub fn open_over_in_lives<D: Disk + Drop>(
    alloc: Global,
    disk: D,
    bounds: Bounds,
    moment: u64,
) -> Result<Gateway<D>, (D, AnewFault)>
    ensures stopped { D.honest disk → MatchResult result
        (λ g. IsLife D.honest D.moment D.left D.seen bounds
        (record { disk = disk; opened_at = moment; course = Stopped g.disk }))
        (λ e. IsLife D.honest D.moment D.left D.seen bounds
        (record { disk = disk; opened_at = moment; course = Stopped e.0 })) }
    ensures refused { D.honest disk → IfErr result (λ e. (fault : OpenFault)
        → e.1 ≡ AnewFault.Opening fault → IsLife D.honest D.moment D.left D.seen bounds
        (record { disk = disk; opened_at = moment; course = Refused e.0 fault })) }
    ensures opened { D.honest disk → IfOk result (λ g.
        RestsInLife D.honest D.moment D.left D.seen bounds disk moment g [] [] g) }
    ensures behind { D.honest disk → (first : Durable) (earlier : List (Life D))
        → AreLives D.honest D.moment D.left D.seen bounds first earlier
        → LeavesNow D.moment D.left disk
        (NextFinds D.honest D.moment D.left D.seen bounds first earlier)
        → IfErr result (λ e. TellsBehind D.honest D.moment D.left D.seen bounds first earlier e.1) }
{
    bounds.facts();
    lives_are_the_models(&disk);
    open_over(alloc, disk, bounds, moment)
}

/// Of a gateway that rests in its life and serves clients one after the other (`serve_each`), a stop at any moment is
/// the end of a life: between two clients, while one is served, or after it. Each answer counts as given out that the
/// client had taken by the end of the last turn that began before the stop. After so many visits it rests in the same
/// life, in which it has taken of each client the first of the events that it gave, and the next visit may follow. A
/// service that ends is part of that life too (`ends`). So `gateway::laws::lives_are_the_models` holds of a whole
/// service, of the stops in it, and of the gateways that are opened afterwards. So it does of clients of whom nothing
/// is seen, as `natgw serve` has them (`unseen`).
pub fn visits_are_lives<C: Clients, D: Disk>(_: &C, _: &D)
    ensures visits { VisitsAreLives D.honest D.moment D.left D.seen D.failed C.came C.went C.ended C.left C.missed }
    ensures unseen { UnseenVisitsAreLives D.honest D.moment D.left D.seen D.failed }
{}
