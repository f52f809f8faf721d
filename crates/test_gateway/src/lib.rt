//! A gateway over a disk: what it hands out and when, the bytes that it writes, and what is there again after each stop
//! and fault. Nothing but tests stands here; bytes and answers are worked by hand or by other programs.
//!
//! - `shared`: the gateway, and lines that several tests begin with;
//! - `words`: events, answers and sessions as lines of text; `script`: lines that are played;
//! - `model`: what the machine in memory makes of events; `told`: how far a gateway comes that is stopped;
//! - `held_rows`: answers that are held; `opening`: what an opening finds; `migrate`: what it makes of files of an older
//!   natgw; `stop_rows`: losses of power in a flush;
//!   `faults`: each refusal, and what stays; `growth`: compaction, and runs; `each_stop`: a long script, stopped or
//!   failing at each call of the disk; `each_growth`: memory that is refused; `each_cut`: texts that are cut, and texts
//!   at a limit; `drawn`: events that are drawn, and stops among them; `full_table`: a core with as many sessions as
//!   there can be, which takes some twenty seconds.
#![tactic(auto)]

#[cfg(test)]
mod drawn;
#[cfg(test)]
mod each_cut;
#[cfg(test)]
mod each_growth;
#[cfg(test)]
mod each_stop;
#[cfg(test)]
mod faults;
#[cfg(test)]
mod full_table;
#[cfg(test)]
mod growth;
#[cfg(test)]
mod held_rows;
#[cfg(test)]
mod migrate;
#[cfg(test)]
mod model;
#[cfg(test)]
mod opening;
#[cfg(test)]
mod script;
#[cfg(test)]
mod shared;
#[cfg(test)]
mod stop_rows;
#[cfg(test)]
mod told;
#[cfg(test)]
mod words;
