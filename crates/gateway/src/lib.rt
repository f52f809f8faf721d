//! The gateway over a disk: events in, numbered answers out, and what must survive in two files.
//!
//! What an event does to the state is the step of crate `machine`. An answer is held until the entries of its event
//! lie synced in a file (crate `snapshot`); one whose event has none is handed out at once, if none is held before it.
//!
//! - `given`, `fault`: what becomes of an event, and why it isn't taken.
//! - `pending`, `slot`: the answers that are held, and the entries of their events.
//! - `calls`: `Gateway`, to which events are offered (`offer`), or which takes them and tells their answers at once
//!   (`take_packet`, which translates a packet in its caller's bytes, and `take_event`).
//! - `surviving`: a core that begins again from what survived, and what survives of one.
//! - `running`, `in_place`: a run of events over the gateway's calls, event by event.
//! - `laws`: what follows from the definitions of `specs/Standing`.
#![tactic(auto)]

mod calls;
mod fault;
mod given;
mod in_place;
pub mod laws;
mod pending;
pub mod running;
mod slot;
mod surviving;

pub use calls::Gateway;
pub use fault::GatewayFault;
pub use given::{Given, GivenInPlace};
pub use machine::{
    Answer, Bytes, Cause, Coming, Event, Fate, Iface, MOST_AHEAD, NoMemory, Session, What,
};
pub use pending::MOST_HELD;
pub use snapshot::OpenFault;
