//! What rules say of a packet, what the legs of a translation do with it, and what is shown of a faulty text.
//!
//! The rows stand above the crates that they try, so that each of these is proved once, without them.
//!
//! - `shared`: configurations, and the rules of a text;
//! - `beside`: what drawn rulesets come to, beside an evaluation of their rules one by one (`verdict`);
//! - `hooks`: the verdicts of the three hooks (`verdict`);
//! - `legs`: plans and causes before any session has begun (`hairpin`);
//! - `marks`: the place of a fault in a ruleset's text (`text_marks`).
#![tactic(auto)]

#[cfg(test)]
mod beside;
#[cfg(test)]
mod hooks;
#[cfg(test)]
mod legs;
#[cfg(test)]
mod marks;
#[cfg(test)]
mod shared;
