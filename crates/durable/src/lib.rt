//! The durable state: the text that was loaded last, and the sessions without when their last packets passed. What
//! changes it, how all of it stands in bytes, and what two files stand for.
//!
//! - `entry`: the entries that change the state.
//! - `encoding`: entries and headings of files put into bytes.
//! - `decoding`: sessions and entries read from bytes.
//! - `recovery`: the state that two files stand for, or why they stand for none.
//! - `heading`: what stands behind the gate of a file: mark, generation, configuration and snapshot.
//! - `bounds`, `texts`: whether a stored configuration is one, or another, and whether a stored text loads under it.
//! - `entering`, `groups`: entries, and groups of them, that change the state which is read.
//! - `fields`: numbers, texts and endpoints in bytes.
//! - `version`: the versions of a file's form. `former`: what only former ones have.
//! - `fault`: why bytes stand for nothing.
//! - `laws`: what the definitions promise, as functions that do nothing.
#![tactic(auto)]

mod bounds;
mod decoding;
mod encoding;
mod entering;
mod entry;
mod fault;
mod fields;
mod former;
mod groups;
mod heading;
pub mod laws;
mod recovery;
mod texts;
mod version;

pub use bounds::same_prefixes;
pub use encoding::{
    BEGIN_LEN, END_LEN, LOAD_FRONT_LEN, RESTART_LEN, SEEN_LEN, begin_code, end_code, endpoint_fits,
    heading_fits, load_front, put_heading, restart_code, seen_code,
};
pub use entry::{Entry, Flow};
pub use fault::DurableFault;
pub use recovery::{Recovered, recover};
pub use version::Version;
