//! All three legs of a packet: out, in and hairpin. The crate has its name from the last one alone.
//!
//! A leg says by which sessions a packet passes and how it leaves (a `Plan`), or why it is dropped (a `Cause`).
//! `specs/Legs` says what each comes to, over the sessions as a plain list, and `out_leg`, `in_leg` and `hairpin_leg`
//! are proved to be it. So is `goes_on`, for a packet whose session goes on. These change nothing and take no memory: the
//! crate `machine` does what a plan says (`Flows::carry_out`). It changes `Translations` by that, of which `new` and
//! `reserve` alone take memory.
//!
//! An endpoint is an address with a port. An outside endpoint is what an inside one is called towards its
//! remote one; where nothing is translated the two are the same.
//!
//! - `asking`: what a leg goes by.
//! - `cause`: why a packet is dropped; `plan`: what a packet that passes changes.
//! - `translations`: the mappings and the outside ports that they take, which change together, and the choice of an
//!   outside endpoint.
//! - `filtering`: whom a mapping lets in.
//! - `held`: a packet's session, held or new, and what the rules are asked about the packet.
//! - `outward`: `out_leg`, from an inside endpoint to a remote one.
//! - `inward`: `in_leg`, from a remote endpoint to an outside one.
//! - `hairpinning`: `hairpin_leg`, from an inside endpoint to an outside endpoint of the gateway itself: first out,
//!   then in.
//! - `going`: `goes_on`, for a packet whose session goes on and is told by a guess.
//! - `laws`: what holds of the legs, whatever the rules and sessions.
#![tactic(auto)]

mod asking;
mod cause;
mod filtering;
mod going;
mod hairpinning;
mod held;
mod inward;
pub mod laws;
mod outward;
mod plan;
mod translations;

pub use cause::Cause;
pub use going::{Going, goes_on};
pub use hairpinning::hairpin_leg;
pub use inward::in_leg;
pub use outward::out_leg;
pub use plan::Plan;
pub use translations::Translations;
