//! Two disks in memory, for tests and trial runs: one that behaves as the disk model says, and one of whose files
//! nothing is promised.
//!
//! - `sim`: `SimDisk`, two files in memory that behave as the model says. It keeps a record of all its writes and syncs
//!   (`record`, `call`), from which follows what a crash may leave, and fails where it is told to (`meter`).
//! - `replay`: what a crash of it leaves; `place`: how a write or a crash puts bytes into its files.
//! - `laws`: which of its calls the meter lets fail.
//! - `trial`: `Trial`, a `SimDisk` of whose files nothing is promised. A caller of `SimDisk` has to prove what its
//!   files hold after each call. Tests look at the bytes instead, and over `Trial` there is nothing to prove. It is
//!   meant to behave as the model says all the same. A meter of its own says which of its calls fail.
//!
//! The words of `specs/` say what a record tells of two files, the outcomes that a crash chooses from, and the calls
//! that fail; no public clause cites `DoneCalls`, nor `Lawful` and `Following`, which serve proofs. The model itself is
//! the crate `disk_model`.
#![tactic(auto)]

mod call;
pub mod laws;
mod meter;
mod place;
mod record;
mod replay;
mod sim;
mod trial;

pub use sim::SimDisk;
pub use trial::Trial;
