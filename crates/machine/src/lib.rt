//! The machine: the state of a gateway, and the step that an event does to it.
//!
//! An event is a ruleset to load, a packet from one of two interfaces, or a moment. `specs/Machine` says what a step
//! is, on plain lists; `Core::step`, and `step_noted` and `take_packet`, by which a gateway takes it, are proved to be
//! it.
//!
//! - `event`, `bytes`: what comes in, and what it is answered.
//! - `fault`: why an event isn't stepped.
//! - `flows`: the sessions with their timers and mappings, which change together. What a packet changes is
//!   the plan of its leg (crate `hairpin`).
//! - `ahead`: among many sessions, a look at what packets and ends of sessions are going to read.
//! - `deed`: what an event does, once its text is read.
//! - `in_force`: the text that loaded last, with its rules.
//! - `state`: `State`, what a step changes: the clock rises and sessions end (`age`), and then the event is answered. A
//!   packet whose session goes on, by a guess, has no plan, and any other goes by one; `answering` does what was found.
//! - `core_state`: `Core`, which has all the state and takes a step for each event (`step`, `step_noted`). Any packet
//!   it also takes where the packet lies, for which no `Event` is made (`take_packet`).
//! - `notes`: where a step notes the entries by which it changes what must survive (crate `durable`).
//! - `noting`: the entries of changes. `specs/Noted` says which an event has, `specs/Sizes` how many bytes.
//! - `laws`: what holds of every step, of every state that is reached, and of where the rules of a text that loads
//!   translate to (`specs/Laws`); what RFC 4787 and RFC 5382 ask of a step (`specs/Requirements`), and in which order
//!   the causes of a drop come (`specs/Order`).
#![tactic(auto)]

mod ahead;
mod answering;
mod bytes;
mod core_state;
mod deed;
mod event;
mod fault;
mod flows;
mod in_force;
pub mod laws;
mod notes;
mod noting;
mod state;

pub use bytes::{Bytes, bytes_fit};
pub use core_state::Core;
pub use event::{Answer, Event, Fate, What};
pub use fault::{NoMemory, StepFault};
pub use hairpin::Cause;
pub use notes::{Notes, Unkept};
pub use packet::Iface;
pub use sessions::{Coming, MOST_AHEAD, Session};
