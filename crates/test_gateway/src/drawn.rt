//! A thousand events that are drawn from a seed, offered to a gateway over a disk that stops at one of its calls: what
//! is there again is what the machine in memory has after a beginning of them that holds every answered one.
//!
//! - `events`: the events that numbers stand for; `packets`: their packets;
//! - `stops`: the gateway that is stopped.
mod events;
mod packets;
mod stops;
