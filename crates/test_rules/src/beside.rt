//! What drawn rulesets come to, beside an evaluation of their rules one by one.
//!
//! - `drawn`: numbers from a seed, and the rules and packets that are drawn by them;
//! - `plain`: what a packet comes to by the rules as they were drawn;
//! - `spelled`: the text that says these rules;
//! - `held`: the two held side by side.
mod drawn;
mod held;
mod plain;
mod spelled;
