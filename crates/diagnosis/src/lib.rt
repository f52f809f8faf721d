//! Why the two files of a directory can't be had by a gateway, in words for the people who run it.
//!
//! - `finding`: what two files are together: they stand for a state of this configuration, they are damaged, or they
//!   have another configuration.
//! - `device`: what the two files of a disk are together, once they are read from it.
//! - `reading`: what one file is by itself, or why it holds no state.
//! - `probe`: a file that holds nothing, beside which another one counts by its front alone.
//! - `front`: where the front of a file ends, and whether a state begins there.
//! - `fields`: the parts of a configuration, and which of them differ.
//! - `advice`: what to do about two files that stand for no state, and which file that names.
//! - `words`: what is said of all this, and what to do.
//!
//! What a file holds is read by `durable` alone; the clauses are in its words.
#![tactic(auto)]

mod advice;
mod device;
mod fields;
mod finding;
mod front;
mod probe;
mod reading;
mod words;

pub use advice::{Advice, advice_for, sentence};
pub use device::diagnose;
pub use fields::{Field, differs};
pub use finding::{Damage, Differing, Finding, examine};
pub use reading::{Fault, Held, Reading};
