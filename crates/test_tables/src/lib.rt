//! The tables of the gateway by themselves, each against what was worked by hand or against a plain list.
//!
//! The rows stand above the crates that they try, so that each of these is proved once, without them.
//!
//! - `ordered`: entries that rise by their keys (`rows`);
//! - `unordered`: entries in no order (`buckets`);
//! - `by_port`: entries of which each has a place of its own (`buckets`);
//! - `members`: sets of values and maps to verdicts (`sets`);
//! - `living`: the table of sessions (`sessions`);
//! - `many`: as many sessions as a table holds, in turned orders;
//! - `idle`: the sessions that are over (`timers`);
//! - `mapped`: the mappings (`mappings`);
//! - `ports`: the ports of an external address (`portpick`);
//! - `lines`: sessions as lines of text (`session_lines`).
#![tactic(auto)]

#[cfg(test)]
mod by_port;
#[cfg(test)]
mod idle;
#[cfg(test)]
mod lines;
#[cfg(test)]
mod living;
#[cfg(test)]
mod many;
#[cfg(test)]
mod mapped;
#[cfg(test)]
mod members;
#[cfg(test)]
mod ordered;
#[cfg(test)]
mod ports;
#[cfg(test)]
mod unordered;
