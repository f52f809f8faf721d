//! The packets that devices give, as requests.
//!
//! A turn begins at a moment (`begin`), may load the text of a ruleset (`load`), and takes what the devices have now
//! (`take`). Then `requests` are the frames of all this, in this order, as docs/frames.md has them: none of them is
//! faulty, and their moments never fall. `headers` are what the kernel has left to do of each.
//!
//! - `from_devices`: `FromDevices`, the requests of a turn;
//! - `room`: the bytes of requests, one behind the other;
//! - `framing`: the frame of one request.
#![tactic(auto)]

mod framing;
mod from_devices;
mod room;

pub use from_devices::{FromDevices, LONGEST_TEXT};
pub use room::MOST_BYTES;
