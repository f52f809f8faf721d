//! What follows from the definitions of `specs/Runs`: a run of turns is part of a life, as `gateway::laws` speaks of
//! lives; and its packets are bytes, as laws of packets ask.
ghost use Rattle.carrying.specs.Lives.{CarryRunsAreLives, CarryStopsAreLives, SettledStopsAreLives};
ghost use Rattle.carrying.specs.Runs.{PacketsAreBytes};

use disk_model::Disk;
use machine::laws::events_are_judged_once;

/// A run of turns over a gateway that rests in its life is the end of that life, if it is stopped in its midst, since a
/// turn began and before the next one did. All answers to the events of the turns before count as given out. Just these
/// events were taken when the turn began, and no event counts as taken that came in a later turn (`stops`). Once a turn
/// has settled that didn't fail, all its events count as taken, and its answers as given out (`settled`). A stop after
/// the run is the end of the life too; and unless the gateway has fallen, it rests again (`runs`). So
/// `gateway::laws::lives_are_the_models` holds of the gateway that is opened afterwards.
pub fn stops_are_lives<D: Disk>(_: &D)
    ensures stops { CarryStopsAreLives D.honest D.moment D.left D.seen }
    ensures settled { SettledStopsAreLives D.honest D.moment D.left D.seen }
    ensures runs { CarryRunsAreLives D.honest D.moment D.left D.seen }
{
    events_are_judged_once();
}

/// The packet of each event of turns is bytes, at most 65,535, if what the devices gave is. In a run it is
/// (`lan_packets` and `wan_packets` of `ran` of `Carrier::carry`), so the laws of a packet that ask this (`AreBytes`,
/// as `packet::laws::packets_fit` does) hold of each packet of a run.
pub fn packets_are_bytes()
    ensures { PacketsAreBytes }
{}
