//! Why a packet is dropped.
ghost use Rattle.std.specs.Prelude.{◌≡◌};
ghost use Rattle.hairpin.specs.Causes.{cause_number};

use packet::{Fault, RouteFault};

/// Why a packet is dropped. The variants stand in the order of their numbers; in which order a leg finds
/// them is said at `out_leg`, `in_leg` and `hairpin_leg`.
#[derive(Clone, Copy, PartialEq, Eq, Drop)]
pub enum Cause {
    /// The bytes aren't a packet that the gateway takes. Numbers 1 to 9.
    Packet(Fault),
    /// The packet has no route. Numbers 10 to 12.
    Route(RouteFault),
    /// No rule sends it on, and no mapping has its destination for its outside endpoint.
    NoMapping,
    /// The mapping doesn't let it in: filtering is by address, and no session of the mapping has its remote endpoint at
    /// the address that the packet comes from (RFC 4787, REQ-8).
    Filtered,
    /// A TCP packet that is not a SYN alone has no session (RFC 5382, section 4).
    NoSession,
    /// The chains at forward, prerouting or postrouting drop it.
    Rule,
    /// The session that it would begin shares protocol, inside and remote endpoint, or protocol, outside and
    /// remote endpoint with another one, or would make the mappings many-to-one.
    Clash,
    /// A hairpin to its sender's own outside endpoint.
    SelfMapped,
    /// No port of the class and parity of its source port (RFC 4787, REQ-3a and REQ-4) is free at the address that its
    /// host or a rule has it leave from; for a host without one, at any external address.
    NoPort,
    /// There would be more than 65,536 sessions.
    TableFull,
}

impl Cause {
    /// The number that an answer names the cause by, 1 to 20.
    pub fn number(self) -> u8
        ensures { result ≡ cause_number self }
    {
        match self {
            Cause::Packet(fault) => fault.number(),
            Cause::Route(fault) => fault.number(),
            Cause::NoMapping => 13,
            Cause::Filtered => 14,
            Cause::NoSession => 15,
            Cause::Rule => 16,
            Cause::Clash => 17,
            Cause::SelfMapped => 18,
            Cause::NoPort => 19,
            Cause::TableFull => 20,
        }
    }
}
