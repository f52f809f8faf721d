//! A packet's session, held or new, and what the rules are asked about the packet.
ghost use Rattle.std.specs.Prelude.{◌≡◌, ℕ, List, IfOk, IfErr, IfSome, IfNone, Option, Some, None, slice_index_or, find};
ghost use Rattle.std.specs.Option.{option_map};
ghost use Rattle.packet.specs.Config.{Pool};
ghost use Rattle.packet.specs.declared.endpoint.Endpoint.{Endpoint};
ghost use Rattle.sessions.specs.Laws.{IsMapping};
ghost use Rattle.sessions.specs.Listing.{has_inside, has_outside, listing};
ghost use Rattle.sessions.specs.Table.{at};
ghost use Rattle.sessions.specs.declared.session.Session.{Session};
ghost use Rattle.hairpin.specs.Legs.{needs_session as has_need, passed_by, connection_of as connection_by};
ghost use Rattle.hairpin.specs.Plans.{Gives, IsOf};
ghost use Rattle.hairpin.specs.declared.held.Held.{Held};

use packet::{Endpoint, Flags, Iface, Proto, View};
use sessions::{Change, Opener, Session, Slot, Table, is_syn_alone};
use verdict::{Facts, State};

/// A session that the table holds.
#[derive(Clone, Copy, Drop)]
pub struct Held {
    /// Its slot in the table.
    pub slot: Slot,
    /// The session as it is held, before the packet.
    pub session: Session,
}

/// The session of this inside endpoint and this remote one. Where none is held, the error is the outside endpoint that
/// the translated sessions of the inside endpoint have (RFC 4787, REQ-1), where there are any.
#[inline(always)]
pub fn held_or_mapped(
    table: &Table,
    proto: Proto,
    inside: Endpoint,
    remote: Endpoint,
) -> Result<Held, Option<Endpoint>>
    ensures session { IfOk result (λ h.
        find (has_inside proto inside remote) (listing table.now.held) ≡ Some h.session) }
    ensures slot { IfOk result (λ h. at table.now h.slot ≡ Some h.session) }
    ensures none { IfErr result (λ mapped. find (has_inside proto inside remote)
        (listing table.now.held) ≡ None) }
    ensures mapped { IfErr result (λ mapped. IfSome mapped
        (IsMapping (listing table.now.held) proto inside)) }
    ensures unmapped { IfErr result (λ mapped. IfNone mapped ((outside : Endpoint)
        → ¬ IsMapping (listing table.now.held) proto inside outside)) }
{
    table.facts();
    match table.by_inside_or_mapped(proto, inside, remote) {
        Ok(slot) => match table.get(slot) {
            Some(session) => Ok(Held { slot, session }),
            None => Err(None),
        },
        Err(mapped) => Err(mapped),
    }
}

/// The session of this outside endpoint and this remote one.
pub fn held_outside(
    table: &Table,
    proto: Proto,
    outside: Endpoint,
    remote: Endpoint,
) -> Option<Held>
    ensures session { option_map (λ (h : Held). h.session) result
        ≡ find (has_outside proto outside remote) (listing table.now.held) }
    ensures slot { IfSome result (λ h. at table.now h.slot ≡ Some h.session) }
{
    table.facts();
    match table.by_outside(proto, outside, remote) {
        Some(slot) => match table.get(slot) {
            Some(session) => Some(Held { slot, session }),
            None => None,
        },
        None => None,
    }
}

/// Whether only a session lets the packet pass: it is TCP, and not a SYN alone (RFC 5382, section 4).
pub fn needs_session(view: &View) -> bool
    ensures { result ≡ has_need view.now }
{
    match view.proto {
        Proto::Tcp => !is_syn_alone(view.flags),
        Proto::Udp => false,
    }
}

/// The state that rules see of a packet of the session from this side.
pub fn connection_of(session: &Session, sender: Opener, flags: Flags) -> State
    ensures { result ≡ connection_by session.now sender flags }
{
    if session.restarts(flags) || session.awaits_reply(sender) {
        State::New
    } else {
        State::Established
    }
}

/// What a packet from this side changes of the session that the slot holds.
pub fn change_of(held: &Held, sender: Opener, flags: Flags) -> Change
    ensures gives { (external : Pool) (places : List (Option Session)) (now : ℕ)
        → slice_index_or places held.now.slot None ≡ Some held.now.session
        → Gives external places now result (passed_by held.now.session sender flags now) }
    ensures slot { (slot : ℕ) → IsOf result slot → slot ≡ held.now.slot }
{
    if held.session.restarts(flags) {
        Change::Restart(held.slot, sender)
    } else {
        Change::Seen(held.slot, held.session.shown(sender, flags))
    }
}

/// The session that the packet begins at the moment `now`. Nothing is seen of it yet.
pub fn new_session(
    view: &View,
    opener: Opener,
    inside: Endpoint,
    outside: Endpoint,
    remote: Endpoint,
    now: u64,
) -> Session
    ensures { result ≡ record {
      proto = view.now.proto;
      inside = inside;
      outside = outside;
      remote = remote;
      opener = opener;
      seen = 0;
      last = now;
    } }
{
    Session {
        proto: view.proto,
        inside,
        outside,
        remote,
        opener,
        seen: 0,
        last: now,
    }
}

/// What the rules may ask about the packet between these interfaces, on its way to this endpoint.
pub fn facts_of(view: &View, iif: Iface, oif: Option<Iface>, dst: Endpoint, state: State) -> Facts
    ensures { result ≡ record {
      iif = iif;
      oif = oif;
      src = view.now.src;
      dst = dst;
      proto = view.now.proto;
      state = state;
    } }
{
    Facts {
        iif,
        oif,
        src: view.src,
        dst,
        proto: view.proto,
        state,
    }
}
