//! What survives of a core: it begins again from that (`resume_core`), and a snapshot is made of it
//! (`lasting_sessions`).
ghost use Rattle.std.specs.Prelude.{◌≡◌, [], IfOk, map};
ghost use Rattle.durable.specs.Entering.{IsDurable, durable};
ghost use Rattle.machine.specs.Noted.{IsResumed};
ghost use Rattle.sessions.specs.Stilled.{stilled};

use crate::pending::Pending;
use machine::{Core, NoMemory};
use packet::Bounds;
use sessions::Session;
use std::alloc::Global;

// A core that begins again from what survived, with nothing held; the next group will stand at the place.
pub(crate) fn resume_core(
    alloc: Global,
    bounds: Bounds,
    text: Vec<u8>,
    sessions: &[Session],
    moment: u64,
    place: u64,
) -> Result<(Core, Pending), NoMemory>
    requires { IsDurable bounds (durable text.items sessions.now) }
    ensures config { IfOk result (λ r. r.0.config ≡ bounds) }
    ensures state { IfOk result (λ r. IsResumed bounds (durable text.items sessions.now) moment
        r.0.state) }
    ensures pending { IfOk result (λ r. r.1 ≡ record {
      held = [];
      entries = [];
      place = place;
      room = 0;
    }) }
{
    // The core comes last, so that no way out of here lets one go (why: `Core::discard`).
    let Ok(pending) = Pending::new(alloc, place) else {
        return Err(NoMemory);
    };
    match Core::resume(alloc, bounds, text, sessions, moment) {
        Ok(core) => Ok((core, pending)),
        Err(fault) => Err(fault),
    }
}

// The sessions without when their last packets passed.
pub(crate) fn lasting_sessions(core: &Core) -> Result<Vec<Session>, NoMemory>
    ensures { IfOk result (λ sessions. sessions.items ≡ map stilled core.now.state.sessions) }
{
    match core.sessions() {
        Ok(mut sessions) => {
            forget_moments(sessions.as_mut_slice());
            Ok(sessions)
        }
        Err(NoMemory) => Err(NoMemory),
    }
}

// Forgets when the last packets of the sessions passed.
fn forget_moments(sessions: &mut [Session])
    ensures { sessions.new ≡ map stilled sessions.old }
{
    for session in sessions.iter_mut() {
        session.last = 0;
    }
}
