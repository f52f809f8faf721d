//! The mappings, and the outside ports that they take, which change together.
ghost use Rattle.std.specs.Prelude.{◌≡◌, ◌↔◌, ◌⊎◌, ◌+◌, ◌<◌, ◌≤◌, ℕ, Bool, false, OnOk, IfOk, IsOk, IfSome, IfNone, find, Some};
ghost use Rattle.std.specs.List.{Contains};
ghost use Rattle.packet.specs.Config.{IsHead};
ghost use Rattle.packet.specs.Same.{same_endpoint};
ghost use Rattle.packet.specs.declared.endpoint.Endpoint.{Endpoint};
ghost use Rattle.packet.specs.declared.endpoint.Proto.{Proto};
ghost use Rattle.portpick.specs.Choice.{IsTestOf};
ghost use Rattle.portpick.specs.Pool.{endpoint, first_port, near_choice, pool_choice, port_at};
ghost use Rattle.portpick.specs.Taken.{IsTaken};
ghost use Rattle.mappings.specs.Map.{times, mapping as mapping_with, Gains, KeepsOneToOne, SameTimes, Uses};
ghost use Rattle.mappings.specs.declared.map.Mapping.{Mapping};
ghost use Rattle.hairpin.specs.Tallies.{mapping_of, weight};
ghost use Rattle.hairpin.specs.Translations.{HasRoom, IsExternal, IsPlacedIn, IsOutside, IsOutsideOf, TellsTaken};

use mappings::{Map, Mapping};
use packet::{Endpoint, Proto};
use portpick::Ports;
use sessions::Session;
use std::alloc::{AllocError, Global};
use std::marker::Model;

/// The mappings, and the ports that they take at the external addresses, each from the first hold of
/// its mapping to the last release.
#[derive(Drop)]
pub struct Translations {
    map: Map,
    ports: Ports,
}

impl Model for Translations {
    ghost use Rattle.hairpin.specs.Translations.{Translations as View, Follows};

    ghost Value = { View };

    ghost view = { λ t. record {
      external = t.ports.external;
      mappings = t.map;
      port_room = t.ports.room;
    } };

    ghost invariant = { λ t. Follows t.map t.ports };
}

impl Translations {
    /// No mapping. `external` are the external addresses as numbers: 192.0.2.1 is `0xc0000201`.
    ///
    /// # Errors
    ///
    /// `AllocError` where memory is refused.
    pub fn new(alloc: Global, external: &[u32]) -> Result<Translations, AllocError>
        ensures none { IfOk result (λ t. (p : Mapping) → times t.mappings p ≡ 0) }
        ensures external { IfOk result (λ t. t.external ≡ external.now) }
    {
        let addresses = Vec::from_slice(alloc, external)?;
        Ok(Translations {
            map: map_for(alloc, external.len()),
            ports: Ports::new(alloc, addresses),
        })
    }

    /// Makes room for two more mappings, which can then be held without memory.
    ///
    /// # Errors
    ///
    /// `AllocError` where memory is refused, and never where there is that room already. No mapping and no room is
    /// lost then.
    pub fn reserve(&mut self) -> Result<(), AllocError>
        ensures ok { OnOk result (HasRoom 2 self.new) }
        ensures succeeds { HasRoom 2 self.old → IsOk result }
        ensures same { SameTimes self.old.mappings self.new.mappings }
        ensures room { (n : ℕ) → HasRoom n self.old → HasRoom n self.new }
        ensures external { self.new.external ≡ self.old.external }
    {
        self.map.reserve()?;
        self.ports.reserve()
    }

    /// The outside endpoint that stands for this inside endpoint, if it has a mapping. It walks over all mappings: the
    /// legs ask the table of sessions.
    pub fn outside_of(&self, proto: Proto, inside: Endpoint) -> Option<Endpoint>
        ensures found { IfSome result (λ outside.
            0 < times self.now.mappings (mapping_with proto inside outside)) }
        ensures absent { IfNone result ((outside : Endpoint)
            → times self.now.mappings (mapping_with proto inside outside) ≡ 0) }
    {
        self.map.outside_of(proto, inside)
    }

    /// The inside endpoint that this outside endpoint stands for, if it has a mapping.
    pub fn inside_of(&self, proto: Proto, outside: Endpoint) -> Option<Endpoint>
        ensures found { IfSome result (λ inside.
            0 < times self.now.mappings (mapping_with proto inside outside)) }
        ensures absent { IfNone result ((inside : Endpoint)
            → times self.now.mappings (mapping_with proto inside outside) ≡ 0) }
    {
        self.map.inside_of(proto, outside)
    }

    /// The outside endpoint that a new mapping of this inside endpoint most often has: its port at the first external
    /// address.
    pub fn likely_outside(&self, inside: Endpoint) -> Endpoint
        ensures { (first : ℕ) → IsHead first self.now.external → result ≡ endpoint first inside.port }
    {
        let addr = match self.ports.addresses() {
            [first, ..] => *first,
            [] => 0,
        };
        Endpoint {
            addr,
            port: inside.port,
        }
    }

    /// Whether a look into the map tells that a mapping of the outside endpoint is held. It says nothing of what is:
    /// whoever asks of several in turn waits once for the memory that it takes to hold and to release them.
    pub fn seems_mapped(&self, proto: Proto, outside: Endpoint) -> bool {
        self.map.seems_held(proto, outside)
    }

    /// The first free endpoint of an external address for a port of 1 to 65,535, counted from the port on
    /// in its class and parity (RFC 4787, REQ-3a and REQ-4); none where all of these are taken. Any test
    /// that tells which ports are taken leads to the same choice.
    #[inline(always)]
    pub fn choose_at(&self, proto: Proto, addr: u32, port: u16) -> Option<Endpoint>
        requires external { Contains self.now.external addr }
        requires port { 0 < port }
        ensures { (taken : ℕ → ℕ → Bool)
            → IsTestOf (taken addr) (λ q. IsOutside self.now.mappings proto (endpoint addr q))
            → result ≡ port_at taken port addr }
    {
        match self.ports.pick(proto, addr, port) {
            Some(port) => Some(Endpoint { addr, port }),
            None => None,
        }
    }

    // The first external address that a mapping of this host has, of either protocol.
    fn used(&self, host: u32) -> Option<u32>
        ensures choice { (uses : ℕ → Bool) → IsTestOf uses (Uses self.now.mappings host)
            → result ≡ find uses self.now.external }
        ensures listed { IfSome result (λ addr. Contains self.now.external addr) }
    {
        first_used(&self.map, host, self.ports.addresses())
    }

    // What the first external address that has a port for this one gives it.
    fn choose_first(&self, proto: Proto, port: u16) -> Option<Endpoint>
        requires { 0 < port }
        ensures { (taken : ℕ → ℕ → Bool) → TellsTaken self.now proto taken
            → result ≡ first_port taken port self.now.external }
    {
        let mut rest = self.ports.addresses();
        while let [addr, tail @ ..] = rest {
            if let Some(outside) = self.choose_at(proto, *addr, port) {
                return Some(outside);
            }
            rest = tail;
        }
        None
    }

    /// The outside endpoint for an inside one that masquerades, whose port isn't 0: at the first external address that
    /// a mapping of its host has, of either protocol, so that a host stays at one address (RFC 4787, REQ-2), also if no
    /// port is left there; without one, at the first that has a port for it. Any tests that tell which addresses the host
    /// uses and which ports are taken lead to the same choice.
    #[inline(always)]
    pub fn choose_for(&self, proto: Proto, inside: Endpoint) -> Option<Endpoint>
        requires { 0 < inside.port }
        ensures { (uses : ℕ → Bool) (taken : ℕ → ℕ → Bool)
            → IsTestOf uses (Uses self.now.mappings inside.addr) → TellsTaken self.now proto taken
            → result ≡ pool_choice uses taken self.now.external inside.port }
    {
        if let [only] = self.ports.addresses() {
            return self.choose_at(proto, *only, inside.port);
        }
        self.choose_used(proto, inside)
    }

    // As `choose_for`, for several addresses.
    #[inline(never)]
    fn choose_used(&self, proto: Proto, inside: Endpoint) -> Option<Endpoint>
        requires { 0 < inside.port }
        ensures { (uses : ℕ → Bool) (taken : ℕ → ℕ → Bool)
            → IsTestOf uses (Uses self.now.mappings inside.addr) → TellsTaken self.now proto taken
            → result ≡ pool_choice uses taken self.now.external inside.port }
    {
        match self.used(inside.addr) {
            Some(addr) => self.choose_at(proto, addr, inside.port),
            None => self.choose_first(proto, inside.port),
        }
    }

    /// The outside endpoint for an inside one, whose port isn't 0, that sends to an endpoint at the external address
    /// `far`: at the first external address that a mapping of its host has; without one, at `far`.
    pub fn choose_near(&self, proto: Proto, inside: Endpoint, far: u32) -> Option<Endpoint>
        requires port { 0 < inside.port }
        requires far { Contains self.now.external far }
        ensures { (uses : ℕ → Bool) (taken : ℕ → ℕ → Bool)
            → IsTestOf uses (Uses self.now.mappings inside.addr) → TellsTaken self.now proto taken
            → result ≡ near_choice uses taken self.now.external far inside.port }
    {
        if let [_] = self.ports.addresses() {
            return self.choose_at(proto, far, inside.port);
        }
        let addr = self.used(inside.addr).unwrap_or(far);
        self.choose_at(proto, addr, inside.port)
    }

    /// Holds the mapping of the session once more, if it is translated.
    pub fn hold(&mut self, session: &Session)
        requires one_to_one { same_endpoint session.now.inside session.now.outside ≡ false
            → KeepsOneToOne self.old.mappings (mapping_of session.now) }
        requires few { times self.old.mappings (mapping_of session.now) < 65536 }
        requires placed { same_endpoint session.now.inside session.now.outside ≡ false
            → IsExternal self.old.external session.now.outside }
        requires ready { HasRoom 1 self.old }
        ensures counts { (p : Mapping) → times self.new.mappings p
            ≡ times self.old.mappings p + weight p (Some session.now) }
        ensures room { (n : ℕ) → HasRoom (n + 1) self.old → HasRoom n self.new }
        ensures external { self.new.external ≡ self.old.external }
    {
        if session.is_translated() {
            self.hold_mapping(mapping_of(session));
        }
    }

    /// Holds the mapping of the session once less, if it is translated.
    pub fn release(&mut self, session: &Session)
        requires { (p : Mapping) → weight p (Some session.now) ≤ times self.old.mappings p }
        ensures counts { (p : Mapping) → times self.old.mappings p
            ≡ times self.new.mappings p + weight p (Some session.now) }
        ensures room { (n : ℕ) → HasRoom n self.old → HasRoom n self.new }
        ensures external { self.new.external ≡ self.old.external }
    {
        if session.is_translated() {
            self.release_mapping(mapping_of(session));
        }
    }

    /// Holds the mapping once more, for which there is room: it is at an external address, shares neither
    /// endpoint with another mapping of its protocol, and is held fewer than 65,536 times.
    fn hold_mapping(&mut self, mapping: Mapping)
        requires one_to_one { KeepsOneToOne self.old.mappings mapping }
        requires few { times self.old.mappings mapping < 65536 }
        requires placed { IsExternal self.old.external mapping.outside }
        requires room { HasRoom 1 self.old }
        ensures gains { Gains self.old.mappings self.new.mappings mapping }
        ensures room { (n : ℕ) → HasRoom (n + 1) self.old → HasRoom n self.new }
        ensures external { self.new.external ≡ self.old.external }
    {
        take_port(&mut self.ports, mapping);
        self.map.hold_reserved(mapping);
    }

    /// Gives one hold of the mapping back. With the last one the mapping is gone, and its port free.
    fn release_mapping(&mut self, mapping: Mapping)
        requires { 0 < times self.old.mappings mapping }
        ensures loses { Gains self.new.mappings self.old.mappings mapping }
        ensures room { (n : ℕ) → HasRoom n self.old → HasRoom n self.new }
        ensures external { self.new.external ≡ self.old.external }
    {
        if self.map.release_told(mapping) {
            let outside = mapping.outside;
            self.ports.free(mapping.proto, outside.addr, outside.port);
        }
    }
}

// The map of a gateway with so many external addresses: of several it counts who uses which.
fn map_for(alloc: Global, addresses: usize) -> Map
    ensures { (p : Mapping) → times result p ≡ 0 }
{
    if addresses > 1 {
        Map::counting(alloc)
    } else {
        Map::new(alloc)
    }
}

// The first of these addresses that a mapping of the host has.
fn first_used(map: &Map, host: u32, addresses: &[u32]) -> Option<u32>
    ensures choice { (uses : ℕ → Bool) → IsTestOf uses (Uses map.now host)
        → result ≡ find uses addresses.now }
    ensures listed { IfSome result (λ addr. Contains addresses.now addr) }
{
    let mut rest = addresses;
    while let [addr, tail @ ..] = rest {
        if map.uses(host, *addr) {
            return Some(*addr);
        }
        rest = tail;
    }
    None
}

fn mapping_of(session: &Session) -> Mapping
    ensures { result ≡ mapping_of session.now }
{
    Mapping {
        proto: session.proto,
        inside: session.inside,
        outside: session.outside,
    }
}

// Takes the outside port of a mapping that is about to be held, unless an earlier hold has taken it.
fn take_port(ports: &mut Ports, mapping: Mapping)
    requires placed { IsPlacedIn ports.old mapping }
    requires room { 0 < ports.old.room }
    ensures taken { (proto : Proto) (addr port : ℕ) → IsTaken ports.new proto addr port
        ↔ (IsTaken ports.old proto addr port
        ⊎ IsOutsideOf mapping proto (endpoint addr port)) }
    ensures addresses { ports.new.external ≡ ports.old.external }
    ensures room { ports.old.room ≤ ports.new.room + 1 }
{
    ports.take_reserved(mapping.proto, mapping.outside.addr, mapping.outside.port);
}
