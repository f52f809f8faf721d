//! Two files on a device that may stop at any moment: what a read gives, and what a crash may leave.
//!
//! - `disk`: the trait `Disk`, whose clauses and laws are the disk model.
//! - `reading`: all bytes of a file (`contents`).
//! - `synced_write`: a write that is synced (`write_synced`).
//! - `laws`: what follows for every disk.
//!
//! In `specs/`, `Disk` has the words of the model and `Laws` those of its laws. A disk in memory that meets the model
//! is `SimDisk`, in the crate `trial_disk`.
#![tactic(auto)]

mod disk;
pub mod laws;
mod reading;
mod synced_write;

pub use disk::{Disk, DiskFault, FileId};
pub use reading::{ReadFault, contents};
pub use synced_write::write_synced;
