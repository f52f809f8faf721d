//! A disk over two files of a directory, `natgw.a` and `natgw.b`.
//!
//! - `file`: the trait `DiskFile`, whose clauses are the model of one file.
//! - `two_files`: both files, of which each call asks one.
//! - `disk`: `FileDisk`, which counts the calls and those of them that fail, and looks whether its files are in place.
//! - `preparing`: an empty file is made long, and a file that was opened is synced.
//! - `directory`: the trait `Directory`, and both of its files opened.
//! - `held_file`, `opening`: the files and the directories of the system.
//! - `laws`: what becomes of the bytes of files that are opened.
//!
//! `FileDisk` counts a call, `TwoFiles` makes it of one of the files, under the same name, and `DiskFile` does it as
//! `length`, `read_fully`, `write_fully` or `sync_file`, in full or with a failure.
//!
//! What is proved is proved for every type of files: a `FileDisk` of two honest files is an honest disk, so its wiring,
//! which file a call asks and for what, is in contracts. The crate `trial_file` has files in memory that are honest.
//! Nothing is promised of what the system's files keep: that they are honest is a claim that no proof about a system's
//! calls can make.
//!
//! Of `http_server` only `Log` is used, a list that only proofs read.
#![tactic(auto)]

mod directory;
mod disk;
mod file;
mod held_file;
pub mod laws;
mod opening;
mod preparing;
mod two_files;

pub use directory::{Directory, Left, Unopened, open_in};
pub use disk::FileDisk;
pub use file::DiskFile;
pub use held_file::HeldFile;
pub use opening::{OpenError, Strayed, name_of, others_may_write};
pub use preparing::prepare;
