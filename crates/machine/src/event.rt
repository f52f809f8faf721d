//! What comes in and what goes out: events, and their answers.
ghost use Rattle.std.specs.Prelude.{◌≡◌, ℕ, List};
ghost use Rattle.packet.specs.Laws.{AreBytes};
ghost use Rattle.packet.specs.declared.endpoint.Iface.{Iface};
ghost use Rattle.machine.specs.Fates.{answer_of};
ghost use Rattle.machine.specs.declared.event.What.TheVariants.{Packet};

use crate::bytes::{Bytes, bytes_fit};
use packet::Iface;

/// What an event brings.
#[derive(Drop)]
pub enum What {
    /// The text of a ruleset, which takes the place of the one in force if it loads.
    Load(Bytes),
    /// A packet from its IPv4 header on, and the interface that it came in on.
    Packet(Iface, Bytes),
    /// Nothing but its moment.
    Moment,
}

/// What comes in, and when.
#[derive(Drop)]
pub struct Event {
    /// Its moment in seconds, from whatever zero the caller takes. One before the clock counts as the clock.
    pub moment: u64,
    /// What it brings.
    pub what: What,
}

impl Event {
    /// What every event keeps: a packet that it brings is bytes, as the laws of packets ask. It does nothing but carry
    /// this.
    pub fn facts(&self)
        ensures bytes { (iface : Iface) (packet : List ℕ) → self.now.what ≡ Packet iface packet
            → AreBytes packet }
    {
        if let What::Packet(_, packet) = &self.what {
            bytes_fit(packet.as_slice());
        }
    }
}

/// What an event is answered.
#[derive(Drop)]
pub enum Answer {
    /// The ruleset is in force.
    Loaded,
    /// The text isn't taken, and the rules stay as they were.
    Refused,
    /// The translated packet, and the interface that it leaves on.
    Forward(Iface, Bytes),
    /// The packet is dropped; the number is that of a `Cause`, 1 to 20.
    Dropped(u8),
    /// The clock has come to the moment.
    Ticked,
}

/// What an event comes to. A packet that leaves lies, translated, where it was brought.
#[derive(Clone, Copy, Drop)]
pub enum Fate {
    /// The packet leaves on this interface, translated.
    Leaves(Iface),
    /// The packet is dropped; the number is that of a `Cause`, 1 to 20.
    Dropped(u8),
    /// The ruleset is in force.
    Loaded,
    /// The text isn't taken, and the rules stay as they were.
    Refused,
    /// The clock has come to the moment.
    Ticked,
}

impl Fate {
    /// What an event is answered that comes to this, with the bytes that its packet has then.
    pub fn answer(self, packet: Bytes) -> Answer
        ensures { result ≡ answer_of self packet }
    {
        match self {
            Fate::Leaves(out) => Answer::Forward(out, packet),
            Fate::Dropped(cause) => Answer::Dropped(cause),
            Fate::Loaded => Answer::Loaded,
            Fate::Refused => Answer::Refused,
            Fate::Ticked => Answer::Ticked,
        }
    }
}
