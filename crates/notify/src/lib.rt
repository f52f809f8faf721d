//! Tells whoever started the program that it is ready, by the protocol of sd_notify(3): a datagram `READY=1` to the
//! Unix socket that the variable NOTIFY_SOCKET names.
//!
//! - `address`: the address of a socket, as the system takes it;
//! - `telling`: the datagram.
#![tactic(auto)]

mod address;
mod telling;

pub use address::{Address, address_of};
pub use telling::tell_ready;
