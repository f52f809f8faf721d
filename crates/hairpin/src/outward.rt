//! The leg of a packet from an inside endpoint to a remote one.
ghost use Rattle.std.specs.Prelude.{◌≡◌, ◌<◌, ℕ, List, IsTrue, Option, Some, None, Ok, slice_index_or, find};
ghost use Rattle.packet.specs.Config.{Pool, is_inside};
ghost use Rattle.sessions.specs.Listing.{listing};
ghost use Rattle.sessions.specs.declared.session.Session.{Session};
ghost use Rattle.hairpin.specs.Legs.{begun_out as begun_way, maps_inside, out_by, out_leg as out_way, outside_for, outward, passed_by};
ghost use Rattle.hairpin.specs.Plans.{Plans};
ghost use Rattle.hairpin.specs.KeepBounds.{KeepBounds};
ghost use Rattle.hairpin.specs.Tallies.{AreOf};
ghost use Rattle.hairpin.specs.FromInside.{GoesOut, GoesOutNew};

use crate::asking::Asking;
use crate::cause::Cause;
use crate::held::{
    Held, change_of, connection_of, facts_of, held_or_mapped, needs_session, new_session,
};
use crate::plan::Plan;
use crate::translations::Translations;
use packet::{Bounds, Endpoint, Flags, Iface, View};
use sessions::{Change, MOST_SESSIONS, Opener, Session, Table};
use verdict::{Facts, Forwarding, Rules, Source, State, forward, postrouting};

/// How a packet goes out from an inside endpoint (its source) to a remote one, at a moment in seconds.
///
/// A session of the two gives the outside endpoint; without one a mapping of the inside endpoint does
/// (RFC 4787, REQ-1; RFC 5382, REQ-1), and without a mapping the postrouting chains decide. By `snat` it is at the
/// address that the rule names. By `masquerade` it is at the first external address that a mapping of the packet's host
/// has, of either protocol, so that a host stays at one address (RFC 4787, REQ-2); without such a mapping, at the first
/// that has a port for it. The forward chains are asked before that. Nothing is changed, and no memory taken.
///
/// # Errors
///
/// The first cause that holds, in this order: `NoSession`, `Rule` of forward, `Rule` of postrouting, `NoPort`,
/// `TableFull`. A packet of a session has `Rule` of forward alone.
pub fn out_leg(
    bounds: &Bounds,
    rules: &Rules,
    table: &Table,
    translations: &Translations,
    view: &View,
    now: u64,
) -> Result<Plan, Cause>
    requires translations { AreOf bounds.now table.now.held translations.now }
    requires bounded { KeepBounds bounds.now rules.now }
    requires inside { IsTrue (is_inside bounds.now view.now.src.addr) }
    requires port { 0 < view.now.src.port }
    ensures { Plans bounds.now.external table.now.held now result
        (out_way bounds.now rules.now (listing table.now.held) now view.now) }
{
    match held_or_mapped(table, view.proto, view.src, view.dst) {
        Ok(found) => known_out(bounds, rules, &found, view),
        Err(mapped) => {
            let asking = Asking {
                bounds,
                rules,
                table,
                translations,
                view,
                moment: now,
            };
            new_out(&asking, mapped)
        }
    }
}

// How a packet of a session goes out.
fn known_out(bounds: &Bounds, rules: &Rules, found: &Held, view: &View) -> Result<Plan, Cause>
    ensures { (external : Pool) (held : List (Option Session)) (now : ℕ)
        → slice_index_or held found.now.slot None ≡ Some found.now.session
        → Plans external held now result (out_by bounds.now rules.now (listing held) now view.now
        (Some found.now.session)) }
{
    let state = connection_of(&found.session, Opener::Inside, view.flags);
    match forward(rules, bounds, &facts_out(view, state)) {
        Forwarding::Drop => Err(Cause::Rule),
        Forwarding::Pass => Ok(plan_by(found, view.flags)),
    }
}

// How a packet without a session goes out.
fn new_out(asking: &Asking, mapped: Option<Endpoint>) -> Result<Plan, Cause>
    requires { let a = asking.now in GoesOutNew a.bounds.now a.rules.now a.table.now.held
        a.translations.now mapped a.view.now }
    ensures { let a = asking.now in Plans a.bounds.now.external a.table.now.held a.moment result
        (out_by a.bounds.now a.rules.now (listing a.table.now.held) a.moment a.view.now None) }
{
    let view = asking.view;
    if needs_session(view) {
        return Err(Cause::NoSession);
    }
    match forward(asking.rules, asking.bounds, &facts_out(view, State::New)) {
        Forwarding::Drop => Err(Cause::Rule),
        Forwarding::Pass => begun_out(asking, mapped),
    }
}

// How a packet that the forward chains let pass begins a session.
fn begun_out(asking: &Asking, mapped: Option<Endpoint>) -> Result<Plan, Cause>
    requires { let a = asking.now in GoesOutNew a.bounds.now a.rules.now a.table.now.held
        a.translations.now mapped a.view.now }
    ensures { let a = asking.now in Plans a.bounds.now.external a.table.now.held a.moment result
        (begun_way a.bounds.now a.rules.now (listing a.table.now.held) a.moment a.view.now) }
{
    asking.bounds.facts();
    match outside_of_new(asking, mapped) {
        Err(cause) => Err(cause),
        Ok(outside) => {
            if asking.table.count() == MOST_SESSIONS {
                return Err(Cause::TableFull);
            }
            let view = asking.view;
            let moment = asking.moment;
            let session = new_session(view, Opener::Inside, view.src, outside, view.dst, moment);
            Ok(plan_of_new(session))
        }
    }
}

// The outside endpoint of a new session: that of the mapping, or what the rules decide.
fn outside_of_new(asking: &Asking, mapped: Option<Endpoint>) -> Result<Endpoint, Cause>
    requires { let a = asking.now in GoesOutNew a.bounds.now a.rules.now a.table.now.held
        a.translations.now mapped a.view.now }
    ensures { (now : ℕ) → let a = asking.now in let sessions = listing a.table.now.held in
        result ≡ outside_for a.bounds.now a.rules.now sessions now a.view.now
        (find (maps_inside a.view.now.proto a.view.now.src) sessions) }
{
    match mapped {
        Some(outside) => Ok(outside),
        None => outside_by_rules(asking),
    }
}

// The outside endpoint that the rules decide.
fn outside_by_rules(asking: &Asking) -> Result<Endpoint, Cause>
    requires { let a = asking.now in
        GoesOut a.bounds.now a.rules.now a.table.now.held a.translations.now a.view.now }
    ensures { (now : ℕ) → let a = asking.now in result
        ≡ outside_for a.bounds.now a.rules.now (listing a.table.now.held) now a.view.now None }
{
    let translations = asking.translations;
    let view = asking.view;
    asking.bounds.facts();
    match postrouting(asking.rules, asking.bounds, &facts_out(view, State::New)) {
        Source::Drop => Err(Cause::Rule),
        Source::None => Ok(view.src),
        Source::From(addr) => {
            let choice = translations.choose_at(view.proto, addr, view.src.port);
            choice.ok_or(Cause::NoPort)
        }
        Source::Masquerade => {
            let choice = translations.choose_for(view.proto, view.src);
            choice.ok_or(Cause::NoPort)
        }
    }
}

// What the rules may ask about the packet in this state.
fn facts_out(view: &View, state: State) -> Facts
    ensures { result ≡ record {
      iif = Iface.Lan;
      oif = Some Iface.Wan;
      src = view.now.src;
      dst = view.now.dst;
      proto = view.now.proto;
      state = state;
    } }
{
    facts_of(view, Iface::Lan, Some(Iface::Wan), view.dst, state)
}

// The plan of a packet from inside by the session.
fn plan_by(found: &Held, flags: Flags) -> Plan
    ensures { (external : Pool) (held : List (Option Session)) (now : ℕ)
        → slice_index_or held found.now.slot None ≡ Some found.now.session
        → Plans external held now (Ok result)
        (Ok (outward (passed_by found.now.session Opener.Inside flags now))) }
{
    Plan {
        first: change_of(found, Opener::Inside, flags),
        second: None,
        src: found.session.outside,
        dst: found.session.remote,
        iface: Iface::Wan,
    }
}

// The plan of the packet that begins the session.
fn plan_of_new(session: Session) -> Plan
    ensures { result ≡ record {
      first = Change.Begin session;
      second = None;
      src = session.outside;
      dst = session.remote;
      iface = Iface.Wan;
    } }
{
    Plan {
        first: Change::Begin(session),
        second: None,
        src: session.outside,
        dst: session.remote,
        iface: Iface::Wan,
    }
}
