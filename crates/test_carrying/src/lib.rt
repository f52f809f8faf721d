//! A device in memory, and what is carried between two of them.
//!
//! - `memory`: the device; it shows that devices can be as `Device` says;
//! - `carried`: packets worked by hand that go out and come in.
#![tactic(auto)]

#[cfg(test)]
mod carried;
mod memory;

pub use memory::Memory;
