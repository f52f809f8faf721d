//! Disks, and what is read from them: in memory, for trials, and over the files of a directory.
//!
//! The rows stand above the crates that they try, so that each of these is proved once, without them.
//!
//! - `sim`: what a crash leaves of a disk in memory (`trial_disk`);
//! - `groups`: groups of records and their gates, byte for byte (`journal`);
//! - `trial`: a disk that claims nothing of what it keeps (`trial_disk`);
//! - `files`: two files in a directory, and their locks (`file_disk`);
//! - `places`: names that lead elsewhere (`file_disk`);
//! - `memory_files`: a disk over files in memory (`file_disk`, `trial_file`);
//! - `preparing`: the calls that an opened file gets (`file_disk`);
//! - `findings`: why two files can't be had (`diagnosis`).
#![tactic(auto)]

#[cfg(test)]
mod files;
#[cfg(test)]
mod findings;
#[cfg(test)]
mod groups;
#[cfg(test)]
mod memory_files;
#[cfg(test)]
mod places;
#[cfg(test)]
mod preparing;
#[cfg(test)]
mod sim;
#[cfg(test)]
mod trial;
