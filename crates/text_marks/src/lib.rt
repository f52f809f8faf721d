//! Reports that show where a ruleset's text can't be loaded: the line with a mark under the place, what stands
//! there, and what could.
//!
//! - `report`: the whole report;
//! - `line`: the line of a text that holds a place;
//! - `mark`: that line as it is shown, with the mark;
//! - `piece`: what stands at a place;
//! - `search`: the place of a fault, of which the reader of rulesets tells the line alone;
//! - `wanted`: what could stand at a place where a text goes wrong;
//! - `sentence`: what is wrong, and what would be right, for each kind of fault;
//! - `texts`: texts put together;
//! - `laws`: what holds of every report.
#![tactic(auto)]

pub mod laws;
mod line;
mod mark;
mod piece;
mod report;
mod search;
mod sentence;
mod texts;
mod wanted;

pub use report::explain;
