//! The leg of a packet from a remote endpoint to an outside one.
ghost use Rattle.std.specs.Prelude.{◌≡◌, ◌⊎◌, ◌<◌, ◌≤◌, ℕ, List, Option, Some, None, IsTrue, length, slice_index_or};
ghost use Rattle.std.specs.List.{Contains};
ghost use Rattle.packet.specs.Config.{Pool, is_inside};
ghost use Rattle.sessions.specs.Listing.{listing};
ghost use Rattle.sessions.specs.Table.{most_sessions};
ghost use Rattle.sessions.specs.declared.session.Session.{Session};
ghost use Rattle.hairpin.specs.Legs.{begun_in as begun_way, in_by, in_leg as in_way, inside_for};
ghost use Rattle.hairpin.specs.Plans.{Plans};
ghost use Rattle.hairpin.specs.KeepBounds.{KeepBounds};
ghost use Rattle.hairpin.specs.Tallies.{AreOf};
ghost use Rattle.hairpin.specs.Translations.{IsExternal};

use crate::cause::Cause;
use crate::filtering::mapped_inside;
use crate::held::{
    Held, change_of, connection_of, facts_of, held_outside, needs_session, new_session,
};
use crate::plan::Plan;
use crate::translations::Translations;
use packet::{Bounds, Endpoint, Iface, View};
use sessions::{Change, MOST_SESSIONS, Opener, Table};
use verdict::{Destination, Forwarding, Rules, State, forward, prerouting};

/// How a packet comes in from a remote endpoint to an outside one (its destination), at a moment in seconds.
///
/// A session of the two gives the inside endpoint. Without one an inside destination is its own inside
/// endpoint; for an external address the prerouting chains are asked, and where they don't translate, a
/// mapping of the outside endpoint gives it: to whatever remote, if filtering is by endpoint; if it is by address, to one
/// at whose address a session of the mapping has its remote endpoint (RFC 4787, REQ-8; RFC 5382, REQ-3). The
/// forward chains see the inside endpoint. Nothing is changed, and no memory taken.
///
/// # Errors
///
/// The first cause that holds, in this order: `NoSession`, `Rule` of prerouting, `NoMapping`, `Filtered`,
/// `Clash`, `Rule` of forward, `TableFull`. A packet of a session has `Rule` of forward alone.
pub fn in_leg(
    bounds: &Bounds,
    rules: &Rules,
    table: &Table,
    translations: &Translations,
    view: &View,
    now: u64,
) -> Result<Plan, Cause>
    requires translations { AreOf bounds.now table.now.held translations.now }
    requires bounded { KeepBounds bounds.now rules.now }
    requires ports { (0 < view.now.src.port) × (0 < view.now.dst.port) }
    requires routed { IsTrue (is_inside bounds.now view.now.dst.addr)
        ⊎ Contains bounds.now.external view.now.dst.addr }
    ensures { Plans bounds.now.external table.now.held now result
        (in_way bounds.now rules.now (listing table.now.held) now view.now) }
{
    match held_outside(table, view.proto, view.dst, view.src) {
        Some(found) => known_in(bounds, rules, &found, view),
        None => {
            if needs_session(view) {
                return Err(Cause::NoSession);
            }
            let inside = inside_of_new(bounds, rules, table, translations, view)?;
            begun_in(bounds, rules, table, view, inside, now)
        }
    }
}

// How a packet of a session comes in.
fn known_in(bounds: &Bounds, rules: &Rules, found: &Held, view: &View) -> Result<Plan, Cause>
    ensures { (external : Pool) (held : List (Option Session)) (now : ℕ)
        → slice_index_or held found.now.slot None ≡ Some found.now.session
        → Plans external held now result (in_by bounds.now rules.now (listing held) now view.now
        (Some found.now.session)) }
{
    let session = &found.session;
    let state = connection_of(session, Opener::Remote, view.flags);
    let facts = facts_of(view, Iface::Wan, Some(Iface::Lan), session.inside, state);
    match forward(rules, bounds, &facts) {
        Forwarding::Drop => Err(Cause::Rule),
        Forwarding::Pass => Ok(Plan {
            first: change_of(found, Opener::Remote, view.flags),
            second: None,
            src: session.remote,
            dst: session.inside,
            iface: Iface::Lan,
        }),
    }
}

// The inside endpoint of a packet that has no session.
fn inside_of_new(
    bounds: &Bounds,
    rules: &Rules,
    table: &Table,
    translations: &Translations,
    view: &View,
) -> Result<Endpoint, Cause>
    requires { AreOf bounds.now table.now.held translations.now }
    ensures { (now : ℕ)
        → result ≡ inside_for bounds.now rules.now (listing table.now.held) now view.now }
{
    if bounds.is_inside(view.dst.addr) {
        return Ok(view.dst);
    }
    let facts = facts_of(view, Iface::Wan, None, view.dst, State::New);
    match prerouting(rules, bounds, &facts) {
        Destination::Drop => Err(Cause::Rule),
        Destination::To(inside) => Ok(inside),
        Destination::None => mapped_inside(bounds, table, translations, view, view.src.addr),
    }
}

// How a packet comes in that begins a session to this inside endpoint.
fn begun_in(
    bounds: &Bounds,
    rules: &Rules,
    table: &Table,
    view: &View,
    inside: Endpoint,
    now: u64,
) -> Result<Plan, Cause>
    requires few { length (listing table.now.held) ≤ most_sessions }
    requires placed { (inside ≡ view.now.dst) ⊎ IsExternal bounds.now.external view.now.dst }
    ensures { Plans bounds.now.external table.now.held now result
        (begun_way bounds.now rules.now (listing table.now.held) now view.now inside) }
{
    let session = new_session(view, Opener::Remote, inside, view.dst, view.src, now);
    if table.clashes_with(&session) {
        return Err(Cause::Clash);
    }
    let facts = facts_of(view, Iface::Wan, Some(Iface::Lan), inside, State::New);
    match forward(rules, bounds, &facts) {
        Forwarding::Drop => Err(Cause::Rule),
        Forwarding::Pass => {
            if table.count() == MOST_SESSIONS {
                return Err(Cause::TableFull);
            }
            Ok(Plan {
                first: Change::Begin(session),
                second: None,
                src: view.src,
                dst: inside,
                iface: Iface::Lan,
            })
        }
    }
}
