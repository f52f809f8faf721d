//! What the commands do over files, sockets and texts, and what is read of them. Nothing but tests stands here.
//!
//! - `shared`: the requests of a first packet and their answers, and directories of a test;
//! - `spelling`: addresses, prefixes and configurations as they are spelled;
//! - `texts`: what `check` finds of texts, and how it explains it;
//! - `files`: what stands in the files, and the sessions that come back; `pool_on_files`: those of two external
//!   addresses;
//! - `looking_on`: what is told of a gateway that is open, and of files that change while they are read;
//! - `serve_and_loop`: requests through sockets; `one_by_one`: clients in memory, one after the other;
//! - `failing`: sockets over a disk of which a call fails;
//! - `order`: the order in which faults are found, and what is left where a command gives up;
//! - `words`: the two lines of each refusal.
#![tactic(auto)]

#[cfg(test)]
mod failing;
#[cfg(test)]
mod files;
#[cfg(test)]
mod looking_on;
#[cfg(test)]
mod one_by_one;
#[cfg(test)]
mod order;
#[cfg(test)]
mod pool_on_files;
#[cfg(test)]
mod serve_and_loop;
#[cfg(test)]
mod shared;
#[cfg(test)]
mod spelling;
#[cfg(test)]
mod texts;
#[cfg(test)]
mod words;
