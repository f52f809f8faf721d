//! From the text of a ruleset to its rules, where it loads under a gateway's bounds.
//!
//! The crate `rulesyntax` reads what a text spells, and the crate `rulesets` tests whether it may run. `reading` puts
//! both together: `read` answers the rules of a text, or the least kind of fault that holds of it and the line.
//! `fault_of` and `spelling_fault_of` tell the fault alone, and let the rules go.
#![tactic(auto)]

mod reading;

pub use reading::{fault_of, read, spelling_fault_of};
