//! What follows from the definitions of `specs/Running`: a run of the edge is part of a life, as `gateway::laws` speaks
//! of lives; and its packets are bytes, as laws of packets ask.
ghost use Rattle.socket_edge.specs.Lives.{EdgeRunsAreLives, EdgeStopsAreLives};
ghost use Rattle.socket_edge.specs.Running.{PacketsAreBytes};

use disk_model::Disk;
use frames::laws::streams_read_exactly;

/// A run of the edge, of a gateway that rests in its life, is a life wherever it is stopped; unless the gateway has
/// fallen, it rests again after the run, and the next one may follow. So `gateway::laws::lives_are_the_models` holds of
/// any runs over one gateway, of the stops in them, and of the gateways that are opened afterwards.
///
/// If the run is stopped in its midst, since a turn began and before the next one did, each answer counts as given out
/// whose frame lies whole in what the peer has taken with the turn, and no event counts as taken that the peer gave
/// later (`stops`).
pub fn runs_are_lives<D: Disk>(_: &D)
    ensures runs { EdgeRunsAreLives D.honest D.moment D.left D.seen }
    ensures stops { EdgeStopsAreLives D.honest D.moment D.left D.seen }
{}

/// The packet of each event that is read from bytes is bytes. What a run reads is (`ran` of `run_with` and `run`), so the
/// laws of a packet that ask this (`AreBytes`, as `packet::laws::packets_fit` does) hold of each packet of a run.
pub fn packets_are_bytes()
    ensures { PacketsAreBytes }
{
    streams_read_exactly();
}
