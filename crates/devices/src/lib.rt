//! Devices that IP packets come from and go out on, as `FromDevices` and `ToDevices` know them.
//!
//! A device gives and takes frames of ten bytes and a packet. The ten bytes are the header that the kernel puts there
//! (Linux's `struct virtio_net_hdr`, of which `Header` tells more): what it has left to whoever sends the packet on.
//!
//! - `device`: the trait `Device`, whose clauses say what a device gives and what it is handed;
//! - `tun`: the system's TUN devices, and waiting for them.
#![tactic(auto)]

mod device;
mod tun;

pub use device::{Device, HEADER, Header, LONGEST_FRAME, LONGEST_PACKET, NO_HEADER};
pub use tun::{Readiness, Tun, wait};
