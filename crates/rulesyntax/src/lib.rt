//! The syntax of rulesets: the text of a ruleset read as the tree that it spells.
//!
//! `parse`, which stands in `ruleset`, answers the tree exactly where the text spells one, and else what is wrong, and
//! in which line. Trees, and the faults that tell why there is none, are those of the crate `ruletree`; `error` is what
//! the crate's own functions hand on until then: the token that can't stand where it does, or want of memory. Of the
//! one `ruleset` makes a fault with its line.
//!
//! The crate `ruletokens` cuts a text into tokens, `next` and `keyword` read one token, `element` elements
//! and lists with commas, `rule`, `chain`, `set` and `table` what their names say, and `list` what stands
//! apart by semicolons and line ends. What tokens are is said by `ruletokens`, and what they spell in
//! specs/Grammar; of these specs/Text makes what a text spells. No public clause cites specs/Reading and specs/Words.
#![tactic(auto)]

mod chain;
mod element;
mod error;
mod keyword;
mod list;
mod next;
mod rule;
mod ruleset;
mod set;
mod table;

pub use ruleset::{GREATEST_LENGTH, one_ruleset, parse};
