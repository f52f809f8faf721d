//! What an event leaves in the files: the entries that do to the durable state what the event's step does to
//! the machine's state.
//!
//! `laws`: the entries of an event do what its step does, they are there, and none is needed where nothing that
//! must survive has changed; a state that is begun again from what survived is sound.
//!
//! The definitions stand in `specs/Noted` of the crate `machine`, which notes these entries as it steps.
#![tactic(auto)]

pub mod laws;
