//! What an event does, once its text is read.
ghost use Rattle.std.specs.Prelude.{◌≡◌, IfOk, IfErr, IsOk};
ghost use Rattle.machine.specs.Sizes.{most_bytes as most_in};
ghost use Rattle.machine.specs.Judged.{AreRulesOf, IsNoLoad, IsRight, brought};

use crate::bytes::Bytes;
use crate::event::What;
use crate::fault::NoMemory;
use crate::notes::MOST_OF_PACKET;
use durable::LOAD_FRONT_LEN;
use packet::{Bounds, Iface};
use ruletext::read;
use ruletree::Kind;
use sqlite_items::Boxed;
use std::alloc::Global;
use verdict::Rules;

/// What an event does, once its text is read.
#[derive(Drop)]
pub enum Deed {
    /// The text loads, and these are its rules. Behind a box they cost the deeds of packets no moves.
    Take(Bytes, Boxed<Rules>),
    /// The text doesn't load.
    Refuse(Bytes),
    /// A packet, and the interface that it came in on.
    Packet(Iface, Bytes),
    /// Nothing but its moment.
    Moment,
}

impl Deed {
    /// What the event brought: the text, the packet, or nothing.
    pub fn into_what(self) -> What
        ensures { result ≡ brought self }
    {
        match self {
            Deed::Take(text, _) => What::Load(text),
            Deed::Refuse(text) => What::Load(text),
            Deed::Packet(iface, bytes) => What::Packet(iface, bytes),
            Deed::Moment => What::Moment,
        }
    }

    /// How many bytes its entries have at most.
    pub fn most_bytes(&self) -> u64
        ensures { result ≡ most_in self.now }
    {
        match self {
            Deed::Take(text, _) => LOAD_FRONT_LEN as u64 + text.as_slice().len() as u64,
            Deed::Refuse(_) => 0,
            Deed::Packet(_, _) => MOST_OF_PACKET,
            Deed::Moment => 0,
        }
    }
}

/// The rules of a text, if it loads.
///
/// # Errors
///
/// `NoMemory` where memory is refused.
pub fn rules_of(alloc: Global, bounds: &Bounds, text: &[u8]) -> Result<Option<Rules>, NoMemory>
    ensures { IfOk result (λ found. AreRulesOf bounds.now text.now found) }
{
    match read(alloc, text, bounds) {
        Ok(loaded) => match Rules::of(alloc, loaded) {
            Ok(rules) => Ok(Some(rules)),
            Err(_) => Err(NoMemory),
        },
        Err(fault) => {
            if fault.kind == Kind::NoMemory {
                return Err(NoMemory);
            }
            Ok(None)
        }
    }
}

// Reads the text. Not compiled into its caller, so that a packet clears no room for rules.
#[inline(never)]
fn judge_load(alloc: Global, bounds: &Bounds, text: Bytes) -> Result<Deed, Bytes>
    ensures brings { IfOk result (λ deed. What.Load text ≡ brought deed) }
    ensures right { IfOk result (λ deed. IsRight bounds.now deed) }
    ensures err { IfErr result (λ e. e ≡ text) }
{
    match rules_of(alloc, bounds, text.as_slice()) {
        Ok(Some(rules)) => match Boxed::new(alloc, rules) {
            Ok(rules) => Ok(Deed::Take(text, rules)),
            Err(_) => Err(text),
        },
        Ok(None) => Ok(Deed::Refuse(text)),
        Err(NoMemory) => Err(text),
    }
}

/// Reads the text, if the event brings one. Nothing but a text takes memory.
///
/// # Errors
///
/// The text comes back where memory to read it is refused.
pub fn judge(alloc: Global, bounds: &Bounds, what: What) -> Result<Deed, Bytes>
    ensures brings { IfOk result (λ deed. what ≡ brought deed) }
    ensures right { IfOk result (λ deed. IsRight bounds.now deed) }
    ensures err { IfErr result (λ text. What.Load text ≡ what) }
    ensures succeeds { IsNoLoad what → IsOk result }
{
    // The text alone comes back. A fault with room for all that an event brings would lie over the packet's place: a
    // compiler then stores the packet in pieces, and the next read of it waits for all of them.
    match what {
        What::Load(text) => judge_load(alloc, bounds, text),
        What::Packet(iface, bytes) => Ok(Deed::Packet(iface, bytes)),
        What::Moment => Ok(Deed::Moment),
    }
}
