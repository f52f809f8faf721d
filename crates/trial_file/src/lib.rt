//! Files in memory that behave as the model of one file says, and a directory of two of them. So honest files exist, and
//! a `FileDisk` over them is an honest disk.
//!
//! - `file`: `MemoryFile`. A crash leaves its bytes, or those of the last sync.
//! - `directory`: `MemoryDirectory`, and a disk opened over it.
//! - `witness`: bytes that are written through such a disk come back.
#![tactic(auto)]

mod directory;
mod file;
mod witness;

pub use directory::{MemoryDirectory, opened_disk};
pub use file::MemoryFile;
pub use witness::{disk_over, through};
