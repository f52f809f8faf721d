//! Both legs of a packet from an inside endpoint to an outside endpoint of the gateway.
//!
//! `hairpin_leg` asks `first_leg` for the session that the packet goes out by (one that is held, or a new one of
//! `first_session`), and `after_first` for the rest: the session that it comes in by (`second_leg`: one that is held,
//! or a new one of `second_session`, to the inside endpoint that the prerouting chains or a mapping tell,
//! `inside_far`), the forward chains (`is_forwarded`), the plan.
ghost use Rattle.std.specs.Prelude.{◌≡◌, ◌↔◌, ◌<◌, ◌≤◌, ◌+◌, ℕ, List, Option, IsTrue, IfErr, IfOk, IfSome, IfNone, Some, None, Ok, Err, slice_index_or, find};
ghost use Rattle.std.specs.Option.{option_map, option_map_or};
ghost use Rattle.std.specs.List.{Contains};
ghost use Rattle.packet.specs.Config.{Config, Pool, is_inside};
ghost use Rattle.ruletree.specs.declared.tree.Spelled.{Spelled};
ghost use Rattle.sessions.specs.Listing.{has_inside, has_outside, listing, put};
ghost use Rattle.sessions.specs.Table.{at, count};
ghost use Rattle.sessions.specs.declared.session.Session.{Session};
ghost use Rattle.verdict.specs.Hooks.{forward_verdict};
ghost use Rattle.hairpin.specs.Legs.{begun_second as begun_second_way, counted, first_by, first_state, forwarded, hairpin_leg as hairpin_way, inside_far as inside_far_way, maps_inside, outside_near as outside_near_way, passed_by, second as second_way, second_by, then_with, through};
ghost use Rattle.hairpin.specs.Plans.{Gives, IsOf, Plans};
ghost use Rattle.hairpin.specs.KeepBounds.{KeepBounds};
ghost use Rattle.hairpin.specs.Tallies.{AreOf};
ghost use Rattle.hairpin.specs.FromInside.{GoesOutFirst, Hairpins, HairpinsNew, IsBehindFirst};
ghost use Rattle.hairpin.specs.declared.held.Held.{Held};

use crate::asking::Asking;
use crate::cause::Cause;
use crate::filtering::mapped_inside;
use crate::held::{
    Held, change_of, connection_of, facts_of, held_or_mapped, held_outside, needs_session,
    new_session,
};
use crate::plan::Plan;
use crate::translations::Translations;
use packet::{Bounds, Endpoint, Flags, Iface, View};
use sessions::{Change, MOST_SESSIONS, Opener, Session, Table, breaks_mapping};
use verdict::{Destination, Forwarding, Rules, State, forward, prerouting};

/// How a packet passes from an inside endpoint (its source) to an outside endpoint of the gateway (its
/// destination, at an external address) and on to the inside endpoint that this stands for, at a moment in
/// seconds (RFC 4787, REQ-9; RFC 5382, REQ-8).
///
/// It goes out by one session and comes in by another, and leaves on lan with its external source (REQ-9a): the leg
/// `hairpin_leg` of specs/Legs. Without a session or a mapping the first session's port is chosen, whatever the rules
/// say, at the first external address that a mapping of the packet's host has (RFC 4787, REQ-2), or else at the
/// destination's. The second leg is that of a packet from the first one's outside endpoint, and is filtered as such
/// (REQ-8). The forward chains see the packet once, between its inside endpoints. Nothing is changed, and no memory
/// taken.
///
/// # Errors
///
/// The first cause that holds, in this order: `NoSession` of the first leg, `NoPort`, `SelfMapped`, `NoSession`
/// of the second one, `Rule` of prerouting, `NoMapping`, `Filtered`, `Clash`, `Rule` of forward, `TableFull`.
pub fn hairpin_leg(
    bounds: &Bounds,
    rules: &Rules,
    table: &Table,
    translations: &Translations,
    view: &View,
    now: u64,
) -> Result<Plan, Cause>
    requires translations { AreOf bounds.now table.now.held translations.now }
    requires bounded { KeepBounds bounds.now rules.now }
    requires ports { (0 < view.now.src.port) × (0 < view.now.dst.port) }
    requires inside { IsTrue (is_inside bounds.now view.now.src.addr) }
    requires external_destination { Contains bounds.now.external view.now.dst.addr }
    ensures { Plans bounds.now.external table.now.held now result
        (hairpin_way bounds.now rules.now (listing table.now.held) now view.now) }
{
    let asking = Asking {
        bounds,
        rules,
        table,
        translations,
        view,
        moment: now,
    };
    match first_leg(&asking) {
        Ok(first) => after_first(&asking, &first),
        Err(cause) => Err(cause),
    }
}

// The session of a leg as it is once the packet has passed, and as it was held before.
#[derive(Clone, Copy, Drop)]
struct Leg {
    session: Session,
    before: Option<Held>,
}

// The session once a packet of it from this side has passed. Of the result only the endpoints are read, which stay; the
// other fields are there for the contract.
fn passed(session: &Session, sender: Opener, flags: Flags, now: u64) -> Session
    ensures { result ≡ passed_by session.now sender flags now }
{
    if session.restarts(flags) {
        Session {
            opener: sender,
            seen: 0,
            last: now,
            ..*session
        }
    } else {
        Session {
            seen: session.seen | session.shown(sender, flags),
            last: now,
            ..*session
        }
    }
}

// The state of the packet, by the first leg's session as it was held.
fn state_of_first(before: &Option<Held>, view: &View) -> State
    ensures { (config : Config) (rules : Spelled) (sessions : List Session) (now : ℕ)
        → result ≡ first_state config rules sessions now view.now
        (option_map (λ (h : Held). h.session) before.now) }
{
    match before {
        Some(held) => connection_of(&held.session, Opener::Inside, view.flags),
        None => State::New,
    }
}

// What the packet makes of the leg's session.
fn change_of_leg(leg: &Leg, sender: Opener, flags: Flags) -> Change
    ensures held { IfSome leg.now.before (λ h. (external : Pool) (places : List (Option Session))
        (now : ℕ) → slice_index_or places h.slot None ≡ Some h.session
        → Gives external places now result (passed_by h.session sender flags now)) }
    ensures slot { IfSome leg.now.before (λ h. (slot : ℕ) → IsOf result slot → slot ≡ h.slot) }
    ensures new { IfNone leg.now.before (result ≡ Change.Begin leg.now.session) }
{
    match &leg.before {
        Some(held) => change_of(held, sender, flags),
        None => Change::Begin(leg.session),
    }
}

// The outside endpoint of a new first session: that of the mapping, or one that is chosen.
fn outside_near(asking: &Asking, mapped: Option<Endpoint>) -> Result<Endpoint, Cause>
    requires { let a = asking.now in
        HairpinsNew a.bounds.now a.table.now.held a.translations.now mapped a.view.now }
    ensures { (rules : Spelled) (now : ℕ) → let a = asking.now in
        let sessions = listing a.table.now.held in
        result ≡ outside_near_way a.bounds.now rules sessions now a.view.now
        (find (maps_inside a.view.now.proto a.view.now.src) sessions) }
{
    asking.bounds.facts();
    match mapped {
        Some(outside) => Ok(outside),
        None => {
            let view = asking.view;
            let translations = asking.translations;
            let choice = translations.choose_near(view.proto, view.src, view.dst.addr);
            choice.ok_or(Cause::NoPort)
        }
    }
}

// A new session that the packet goes out by, where none is held.
fn first_session(asking: &Asking, mapped: Option<Endpoint>) -> Result<Session, Cause>
    requires { let a = asking.now in
        HairpinsNew a.bounds.now a.table.now.held a.translations.now mapped a.view.now }
    ensures { (rules : Spelled) → let a = asking.now in result
        ≡ first_by a.bounds.now rules (listing a.table.now.held) a.moment a.view.now None }
{
    let view = asking.view;
    let now = asking.moment;
    if needs_session(view) {
        return Err(Cause::NoSession);
    }
    match outside_near(asking, mapped) {
        Ok(outside) => Ok(new_session(view, Opener::Inside, view.src, outside, view.dst, now)),
        Err(cause) => Err(cause),
    }
}

// The session that the packet goes out by, held or new.
fn first_leg(asking: &Asking) -> Result<Leg, Cause>
    requires { let a = asking.now in
        Hairpins a.bounds.now a.table.now.held a.translations.now a.view.now }
    ensures session { let a = asking.now in let sessions = listing a.table.now.held in
        let view = a.view.now in (rules : Spelled) → IfOk result (λ leg.
        first_by a.bounds.now rules sessions a.moment view
        (find (has_inside view.proto view.src view.dst) sessions) ≡ Ok leg.session) }
    ensures cause { let a = asking.now in let sessions = listing a.table.now.held in
        let view = a.view.now in (rules : Spelled) → IfErr result (λ cause.
        first_by a.bounds.now rules sessions a.moment view
        (find (has_inside view.proto view.src view.dst) sessions) ≡ Err cause) }
    ensures before { let view = asking.now.view.now in
        IfOk result (λ leg. option_map (λ (h : Held). h.session) leg.before
        ≡ find (has_inside view.proto view.src view.dst) (listing asking.now.table.now.held)) }
    ensures slot { IfOk result (λ leg. IfSome leg.before (λ h. at asking.now.table.now h.slot
        ≡ Some h.session)) }
{
    let view = asking.view;
    match held_or_mapped(asking.table, view.proto, view.src, view.dst) {
        Ok(held) => Ok(Leg {
            session: passed(&held.session, Opener::Inside, view.flags, asking.moment),
            before: Some(held),
        }),
        Err(mapped) => match first_session(asking, mapped) {
            Ok(session) => Ok(Leg {
                session,
                before: None,
            }),
            Err(cause) => Err(cause),
        },
    }
}

// The inside endpoint of a new second session: what the rules say, or that of the mapping, if it lets the first
// session's outside endpoint in. The first session isn't in the table, and isn't one of the mapping either.
fn inside_far(asking: &Asking, first: &Session) -> Result<Endpoint, Cause>
    requires { let a = asking.now in AreOf a.bounds.now a.table.now.held a.translations.now }
    ensures { (now : ℕ) → let a = asking.now in let sessions = listing a.table.now.held in result
        ≡ inside_far_way a.bounds.now a.rules.now sessions now a.view.now first.now sessions }
{
    let Asking {
        bounds,
        rules,
        table,
        translations,
        view,
        ..
    } = *asking;
    let facts = facts_of(view, Iface::Lan, None, view.dst, State::New);
    let remote = first.outside.addr;
    match prerouting(rules, bounds, &facts) {
        Destination::None => mapped_inside(bounds, table, translations, view, remote),
        Destination::To(inside) => Ok(inside),
        Destination::Drop => Err(Cause::Rule),
    }
}

// The second session begins, if it clashes neither with the first nor with one that is held. With the
// first it shares no flow, since their remote endpoints differ.
fn begun_second(
    table: &Table,
    view: &View,
    first: &Session,
    inside: Endpoint,
    now: u64,
) -> Result<Session, Cause>
    requires { GoesOutFirst table.now.held view.now first.now }
    ensures { (config : Config) (rules : Spelled) (sessions : List Session)
        → result ≡ begun_second_way config rules sessions now view.now first.now
        (put first.now (listing table.now.held)) inside }
{
    let session = new_session(view, Opener::Remote, inside, view.dst, first.outside, now);
    if breaks_mapping(&session, first) {
        return Err(Cause::Clash);
    }
    if table.clashes_with(&session) {
        return Err(Cause::Clash);
    }
    Ok(session)
}

// A new session that the packet comes in by, where none is held.
fn second_session(asking: &Asking, first: &Session) -> Result<Session, Cause>
    requires { let a = asking.now in
        IsBehindFirst a.bounds.now a.table.now.held a.translations.now a.view.now first.now }
    ensures { let a = asking.now in let sessions = listing a.table.now.held in
        result ≡ second_by a.bounds.now a.rules.now sessions a.moment a.view.now first.now
        (put first.now sessions) None }
{
    let view = asking.view;
    if needs_session(view) {
        return Err(Cause::NoSession);
    }
    match inside_far(asking, first) {
        Ok(inside) => begun_second(asking.table, view, first, inside, asking.moment),
        Err(cause) => Err(cause),
    }
}

// The session that the packet comes in by, held or new.
fn second_leg(asking: &Asking, first: &Session) -> Result<Leg, Cause>
    requires { let a = asking.now in
        IsBehindFirst a.bounds.now a.table.now.held a.translations.now a.view.now first.now }
    ensures session { let a = asking.now in let sessions = listing a.table.now.held in
        let view = a.view.now in IfOk result (λ leg.
        second_by a.bounds.now a.rules.now sessions a.moment view first.now (put first.now sessions)
        (find (has_outside view.proto view.dst first.now.outside) (put first.now sessions))
        ≡ Ok leg.session) }
    ensures cause { let a = asking.now in let sessions = listing a.table.now.held in
        let view = a.view.now in IfErr result (λ cause.
        second_by a.bounds.now a.rules.now sessions a.moment view first.now (put first.now sessions)
        (find (has_outside view.proto view.dst first.now.outside) (put first.now sessions))
        ≡ Err cause) }
    ensures before { let view = asking.now.view.now in
        IfOk result (λ leg. option_map (λ (h : Held). h.session) leg.before
        ≡ find (has_outside view.proto view.dst first.now.outside)
        (listing asking.now.table.now.held)) }
    ensures slot { IfOk result (λ leg. IfSome leg.before (λ h. at asking.now.table.now h.slot
        ≡ Some h.session)) }
{
    let view = asking.view;
    let before = held_outside(asking.table, view.proto, view.dst, first.outside);
    match &before {
        Some(held) => Ok(Leg {
            session: passed(&held.session, Opener::Remote, view.flags, asking.moment),
            before,
        }),
        None => match second_session(asking, first) {
            Ok(session) => Ok(Leg {
                session,
                before: None,
            }),
            Err(cause) => Err(cause),
        },
    }
}

// Whether the forward chains let the packet pass to this endpoint.
fn is_forwarded(bounds: &Bounds, rules: &Rules, view: &View, dst: Endpoint, state: State) -> bool
    ensures { IsTrue result
        ↔ (forward_verdict bounds.now (record {
          iif = Iface.Lan;
          oif = Some Iface.Lan;
          src = view.now.src;
          dst = dst;
          proto = view.now.proto;
          state = state;
        })
        rules.now ≡ Forwarding.Pass) }
{
    let facts = facts_of(view, Iface::Lan, Some(Iface::Lan), dst, state);
    match forward(rules, bounds, &facts) {
        Forwarding::Pass => true,
        Forwarding::Drop => false,
    }
}

// How many sessions are held once the packet has passed.
fn sessions_after(table: &Table, first: &Leg, second: &Leg) -> usize
    ensures { result ≡ count table.now + option_map_or (λ (h : Held). 0) first.now.before 1
        + option_map_or (λ (h : Held). 0) second.now.before 1 }
{
    table.facts();
    table.count() + news(first) + news(second)
}

// How many sessions the leg begins.
fn news(leg: &Leg) -> usize
    ensures value { result ≡ option_map_or (λ (h : Held). 0) leg.now.before 1 }
    ensures few { result ≤ 1 }
{
    match leg.before {
        Some(_) => 0,
        None => 1,
    }
}

// The way of a packet whose first leg is known.
fn after_first(asking: &Asking, first: &Leg) -> Result<Plan, Cause>
    requires hairpins { let a = asking.now in
        Hairpins a.bounds.now a.table.now.held a.translations.now a.view.now }
    requires before { let view = asking.now.view.now in
        option_map (λ (h : Held). h.session) first.now.before
        ≡ find (has_inside view.proto view.src view.dst) (listing asking.now.table.now.held) }
    requires slot { IfSome first.now.before (λ h. at asking.now.table.now h.slot ≡ Some h.session) }
    requires session { let a = asking.now in let sessions = listing a.table.now.held in
        let view = a.view.now in first_by a.bounds.now a.rules.now sessions a.moment view
        (find (has_inside view.proto view.src view.dst) sessions) ≡ Ok first.now.session }
    ensures { let config = asking.now.bounds.now in let rules = asking.now.rules.now in
        let sessions = listing asking.now.table.now.held in let view = asking.now.view.now in
        let now = asking.now.moment in
        let found = find (has_inside view.proto view.src view.dst) sessions in
        Plans config.external asking.now.table.now.held now result
        (then_with
        (second_way config rules sessions now view first.now.session
        (put first.now.session sessions))
        (λ t. forwarded config rules sessions now view Iface.Lan Iface.Lan view.src t.inside
        (first_state config rules sessions now view found)
        (counted config rules sessions now view (through first.now.session t)))) }
{
    let view = asking.view;
    asking.bounds.facts();
    if first.session.outside == view.dst {
        return Err(Cause::SelfMapped);
    }
    let second = match second_leg(asking, &first.session) {
        Ok(leg) => leg,
        Err(cause) => return Err(cause),
    };
    let state = state_of_first(&first.before, view);
    if !is_forwarded(
        asking.bounds,
        asking.rules,
        view,
        second.session.inside,
        state,
    ) {
        return Err(Cause::Rule);
    }
    if sessions_after(asking.table, first, &second) > MOST_SESSIONS {
        return Err(Cause::TableFull);
    }
    Ok(Plan {
        first: change_of_leg(first, Opener::Inside, view.flags),
        second: Some(change_of_leg(&second, Opener::Remote, view.flags)),
        src: first.session.outside,
        dst: second.session.inside,
        iface: Iface::Lan,
    })
}
