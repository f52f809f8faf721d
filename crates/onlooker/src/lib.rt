//! What two files stand for while another program may be writing them: the state of a gateway that runs, seen by
//! somebody who takes no lock and writes nothing.
//!
//! - `readable`: two files that may be read, and the open files of the system.
//! - `looking`: both files looked at, and looked at again as long as one of them is made anew meanwhile.
//! - `fault`: why there is nothing to tell.
//!
//! A look reads the fronts of both files, both files whole, and both fronts once more. What was read counts only if no
//! front has changed. Why that is right is told in docs/crash-safety.md, "Looking on".
#![tactic(auto)]

mod fault;
mod looking;
mod readable;

pub use fault::LookFault;
pub use looking::{FRONT, Seen, look};
pub use readable::{OpenFiles, Readable};
