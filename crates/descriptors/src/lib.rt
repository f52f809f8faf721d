//! Whether an open descriptor is that of a TUN device, by what Linux tells of it in `/proc/self/fdinfo` (proc(5)): lines
//! of a key and a value. No other kind of file has a line `iff:` there, which names the device that is attached. So what
//! passes here is no file, and a packet that is written to it overwrites nothing.
//!
//! - `telling`: the lines;
//! - `device`: what a descriptor has to be.
#![tactic(auto)]

mod device;
mod telling;

pub use device::{Unfit, device_of};
