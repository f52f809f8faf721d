//! The packets of answers, handed to the devices that they leave on.
//!
//! `ToDevices` takes the frames of answers (docs/frames.md). `let_out` hands on each packet that leaves by them, to the
//! device of its interface, in order, each once, and nothing else. In front of it stands the header of its request:
//! what the kernel had left to do stays to be done. A checksum that the kernel had left open is left open still: its
//! field holds the pseudo header's sum of the packet that leaves, to which whoever sends it on adds the rest.
//!
//! - `to_devices`: `ToDevices`, the answers that wait;
//! - `letting_out`: the frames, and the devices;
//! - `releasing`: a packet with its header, as it leaves;
//! - `counts`: how many packets there were;
//! - `laws`: an open checksum comes right.
#![tactic(auto)]

mod counts;
pub mod laws;
mod letting_out;
mod releasing;
mod to_devices;

pub use counts::{CAUSES, Counts, Side};
pub use to_devices::{MOST_BYTES, ToDevices};
