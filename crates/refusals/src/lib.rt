//! Why a command of `natgw` gives up, and what is told besides.
//!
//! - `refusal`: why, in a word;
//! - `stop`: the two lines that people read then: the word, and what to do; the line on files that were migrated,
//!   and those on a socket that clients may connect to and on a directory that others may write in.
#![tactic(auto)]

mod refusal;
mod stop;

pub use refusal::Refusal;
pub use stop::{Stop, tell, tell_migrated, tell_serving, tell_shared, tell_word};
