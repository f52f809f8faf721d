//! Sets of values, and maps from values to verdicts: what the sides of a ruleset's matches are made of.
//!
//! A value is a number (an address, a port, a protocol, a connection state) or an interface name. An
//! element stands for a range of numbers or for one name, a set for the union of its elements, and a
//! verdict map leads each of its keys, of which no two share a value, to a verdict.
//!
//! - `element`: values, ranges, prefixes as ranges, and elements; `parts`: what these are tested by.
//! - `set`: `Set`, a union of elements, kept as intervals in order; `joining`: how touching ones become one.
//! - `vmap`: `Vmap`, keys with their verdicts, in order.
//! - `search`: the search by halving in either.
//! - `fault`: why a set or a map can't be made.
//! - `laws`: what follows for unions and keys.
#![tactic(auto)]

mod element;
mod fault;
mod joining;
pub mod laws;
mod parts;
mod search;
mod set;
mod vmap;

pub use element::{Element, Pair, Range, Value};
pub use fault::SetFault;
pub use set::{LIMIT, Set};
pub use vmap::Vmap;
