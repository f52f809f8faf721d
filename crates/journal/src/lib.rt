//! Groups of entries in a file, each whole on the disk before it counts.
//!
//! A file is one of the two of a disk (`disk_model`): bytes that mean nothing here, and from some place on groups, one
//! right behind the other. A group is the entries that a crash keeps or loses together, as its gate (one byte, open at
//! 01 and closed at any other value), the length of its body (4 bytes, big-endian) and its body, the bytes of these
//! entries; behind the last open group stands a closed gate. A group is written behind the closed gate and synced
//! before its gate is opened, so that a crash leaves it whole or not at all.
//!
//! - `group`: the buffer in which a group's body grows.
//! - `appending`: a group is put behind the others.
//! - `reading`: the bodies of the leading open groups, and that they are read in one way only.
//! - `fault`: why a call is refused.
#![tactic(auto)]

mod appending;
mod fault;
mod group;
mod reading;

pub use appending::{LONGEST_FILE, append};
pub use fault::JournalFault;
pub use group::Group;
pub use reading::{groups, groups_once};
