//! The tree of a ruleset as its text spells it, and why a text isn't taken.
//!
//! Whoever asks rules, or tests what is spelled, stands on this crate; the crate `rulesyntax`, which reads texts, too.
//!
//! - `tree`: tables, sets, chains, rules, and what they are made of;
//! - `fault`: the reasons for which a text isn't taken, in the order in which they count, and the line.
//!
//! `Line`, the number of a line, is the crate `ruletokens`'.
#![tactic(auto)]

mod fault;
mod tree;

pub use fault::{Kind, LoadFault};
pub use ruletokens::Line;
pub use tree::{
    Base, Chain, ChainType, Dnat, Element, End, Family, Head, Hook, Match, Pair, Policy, Rule, Set,
    SetElements, SetName, SetType, Side, Snat, Spelled, Table, Target, Transport, Value, Verdict,
    Vmap,
};
