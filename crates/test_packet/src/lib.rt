//! Packets and configurations, and what is told of each: rows worked by hand, or by a program that tries
//! all 65,535 values of a checksum.
//!
//! The rows stand above the crate that they try, `packet`, so that it is proved once, without them.
//!
//! - `reading`: the fields of a packet, or its first fault;
//! - `each_cut`: packets that are cut at each byte, and headers with each byte set to each value;
//! - `leaving`: packets that leave with other endpoints, byte for byte;
//! - `sums`: their checksums against those of whole sums, over lengths of 28 to 200 bytes, and of 65,535;
//! - `bounds`: configurations, the routes between their interfaces, and counted steps;
//! - `shared`: the packets that more than one of these has.
#![tactic(auto)]

#[cfg(test)]
mod bounds;
#[cfg(test)]
mod each_cut;
#[cfg(test)]
mod leaving;
#[cfg(test)]
mod reading;
#[cfg(test)]
mod shared;
#[cfg(test)]
mod sums;
