//! Texts of rulesets, and what is told of each: rows worked by hand from the rules of the format.
//!
//! The rows stand above the crates that they try, `rulesyntax`, `rulesets` and `ruletext`, so that those are proved
//! once, without them.
//!
//! - `spelling`: which texts spell a ruleset, and what is wrong with the others;
//! - `loading`: which of them load, and the line and the kind of fault of the others;
//! - `limits`: texts as great as they may be, and greater by one;
//! - `faults`: two faults in one text, texts that are cut, and what is right to answer where memory is refused.
#![tactic(auto)]

#[cfg(test)]
mod faults;
#[cfg(test)]
mod limits;
#[cfg(test)]
mod loading;
#[cfg(test)]
mod spelling;
