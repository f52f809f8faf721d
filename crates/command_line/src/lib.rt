//! The command line of `natgw`: its words become the options of a command, or clap's own answer is printed. What the
//! commands do stands in crate `commands`, of which nothing is known here.
//!
//! - `grammar`: which commands there are, and what each takes;
//! - `help`: what they say of themselves;
//! - `tunnel`: the command `tun`, with all that it takes;
//! - `building`: both as clap takes them;
//! - `parsing`: what the words of a command line come to.
#![tactic(auto)]

mod building;
mod grammar;
mod help;
mod parsing;
mod tunnel;

pub use parsing::{Parsed, parse};
