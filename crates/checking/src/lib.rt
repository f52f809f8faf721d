//! What `natgw check` does, and what each command does before it has a gateway.
//!
//! - `config`: addresses, prefixes and filterings as they are spelled, and the configuration made of them;
//! - `files`: the file that a command reads;
//! - `judging`: whether a ruleset would load.
#![tactic(auto)]

mod config;
mod files;
mod judging;

pub use config::{address, addresses, bounds, filtering, number, prefix, prefixes};
pub use files::{read_file, read_given};
pub use judging::{Checked, check, report};
