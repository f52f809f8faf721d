//! Packets carried through a gateway, from device to device.
//!
//! A turn (`Carrier::turn`) takes what two devices give, has a gateway answer it, and hands each packet that leaves to
//! its device. It puts `from_devices`, `socket_edge` and `to_devices` together, so what these promise holds from what
//! the devices gave to what they are handed. A run (`Carrier::carry`) is turns one after the other.
//!
//! - `carrier`: `Carrier`, the turn and the run;
//! - `between`: the two devices;
//! - `at_hand`: the requests of a turn, and what takes their answers, as one peer;
//! - `pace`: when a turn is to be;
//! - `drops`: which packets were dropped, at most so many of each moment;
//! - `laws`: what follows of a run that is stopped, and that its packets are bytes.
#![tactic(auto)]

mod at_hand;
mod between;
mod carrier;
mod drops;
pub mod laws;
mod pace;

pub use between::Between;
pub use carrier::Carrier;
pub use drops::{Dropped, Drops};
pub use pace::{Beat, Pace};
