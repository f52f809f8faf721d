//! What `natgw tun` does: packets go through a gateway between two TUN devices, which were handed to the program open.
//! The packets are carried by crate `carrying`; what is beside them is here.
//!
//! - `attaching`: the descriptors, which have to be those of TUN devices;
//! - `clock`: moments, by the system's clocks;
//! - `rules`: the ruleset's file, which is loaded when it changes;
//! - `report`: the counts, in a line and in a file;
//! - `chores`: what goes on beside the packets, once a second;
//! - `running`: the command, put together of all this.
#![tactic(auto)]

mod attaching;
mod chores;
mod clock;
mod report;
mod rules;
mod running;

pub use running::run;
