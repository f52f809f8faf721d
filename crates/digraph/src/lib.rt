//! Directed graphs: what paths there are, loops and what is reached.
//!
//! A graph is rows of places: the row at a place has the places that a step leads to from there. Where a
//! function answers an `AllocError`, a growth was refused, and nothing else is wrong.
//!
//! - `nesting`: whether there is a loop, and whether a path has more than so many steps.
//! - `reach`: what places reach.
//! - `strong`: which places reach one another. It only guesses: no contract speaks of it.
//! - `witness`: what shows that there is a loop, or none, whatever was guessed.
//! - `specs/Edges`: a graph of rows, `specs/Paths`: its paths, as contracts see them.
#![tactic(auto)]

mod nesting;
mod reach;
mod strong;
mod witness;

pub use nesting::{has_loop, is_deeper};
pub use reach::mark_reached;
pub use strong::components_of;
