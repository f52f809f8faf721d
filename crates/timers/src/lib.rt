//! The idle times of sessions: which of them are alive no longer.
//!
//! The sessions that are watched stand in three queues, one for each timeout: 240, 300 and 7440 seconds.
//! Moments never fall, and a session goes to the end of its queue with each later moment; so a queue rises by the
//! last moments, and the sessions that are over are the first ones of it. To watch a session, to touch it
//! and to watch it no longer take constant time; to tell which are over takes time by their number, and
//! looks at no session behind the first one of each queue that is alive. A slot takes 32 bytes, whether a
//! session is watched there or not.
//!
//! - `due`: the sessions that are watched, each under its slot with its last moment and its timeout
//! - `links`: the queues, in one row of links by slot numbers
//! - `cell`: a link as the row keeps it
//! - `walk`: the first ones of a queue, as far as they are over
//! - `ahead`: what touches of several slots would read
//! - `laws`: that a session is over exactly where it isn't alive
//! - `specs/Due`: the idle times, as contracts see them
//!
//! The crate stores slots that a table of sessions gave, and makes none of its own.
#![tactic(auto)]

mod ahead;
mod cell;
mod due;
pub mod laws;
mod links;
mod walk;

pub use due::{Due, Idle};
