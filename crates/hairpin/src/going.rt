//! A packet whose session goes on, and is told by a guess: nearly all packets are so. `goes_on` finds the session
//! (`glanced_out`, `glanced_in`), asks what the packet shows of it, and has the forward chains decide (`on_out`,
//! `on_in`).
ghost use Rattle.std.specs.Prelude.{◌≡◌, ℕ, List, Option, IfOk, IfSome, Some, None, slice_index_or, find};
ghost use Rattle.packet.specs.Config.{Pool};
ghost use Rattle.sessions.specs.Listing.{has_inside, has_outside, listing};
ghost use Rattle.sessions.specs.Table.{at};
ghost use Rattle.sessions.specs.declared.session.Session.{Session};
ghost use Rattle.hairpin.specs.Going.{Shows, Tells, planned};
ghost use Rattle.hairpin.specs.Legs.{in_by, leg, out_by};
ghost use Rattle.hairpin.specs.Plans.{Plans};

use crate::cause::Cause;
use crate::held::{Held, connection_of, facts_of};
use packet::{Bounds, Endpoint, Iface, Route, View};
use sessions::{Change, Opener, Slot, Table, is_syn_alone};
use verdict::{Forwarding, Rules, forward, passes_all};

/// How a packet leaves whose session goes on.
#[derive(Clone, Copy, PartialEq, Eq, Drop)]
pub struct Going {
    /// The slot of its session.
    pub slot: Slot,
    /// What it shows of the session.
    pub bits: u8,
    /// Whether some of that wasn't seen before.
    pub is_new: bool,
    /// When the last packet of the session passed, in seconds.
    pub last: u64,
    /// The interface that it leaves on.
    pub iface: Iface,
    /// The source that it leaves with.
    pub src: Endpoint,
    /// The destination that it leaves with.
    pub dst: Endpoint,
}

/// How a packet leaves on its route, as `out_leg` and `in_leg` say, if a guess tells its session, and that goes on.
/// `None` says nothing: no guess tells the session, or the packet is a SYN alone or a hairpin.
///
/// # Errors
///
/// `Rule` of forward.
// Compiled into its caller, which needs no place then for what it answers.
#[inline(always)]
pub fn goes_on(
    bounds: &Bounds,
    rules: &Rules,
    table: &Table,
    route: Route,
    view: &View,
) -> Option<Result<Going, Cause>>
    ensures way { (external : Pool) (now : ℕ)
        → IfSome result (λ going. Plans external table.now.held now (planned going)
        (leg bounds.now rules.now (listing table.now.held) now view.now route)) }
    ensures told { IfSome result (λ going. IfOk going (λ g.
        IfSome (at table.now g.slot) (λ s. Tells s g))) }
{
    // A SYN alone seldom has a session, and a guess would wait for memory: the leg looks for it.
    if is_syn_alone(view.flags) {
        return None;
    }
    match route {
        Route::Out => {
            let Some(found) = glanced_out(table, view) else {
                return None;
            };
            let bits = found.session.shown(Opener::Inside, view.flags);
            Some(on_out(bounds, rules, &found, bits, view))
        }
        Route::In => {
            let Some(found) = glanced_in(table, view) else {
                return None;
            };
            let bits = found.session.shown(Opener::Remote, view.flags);
            Some(on_in(bounds, rules, &found, bits, view))
        }
        Route::Hairpin => None,
    }
}

// The session of a packet from inside, where a guess tells it.
#[inline(always)]
fn glanced_out(table: &Table, view: &View) -> Option<Held>
    ensures session { IfSome result (λ h. find (has_inside view.now.proto view.now.src view.now.dst)
        (listing table.now.held) ≡ Some h.session) }
    ensures slot { IfSome result (λ h. at table.now h.slot ≡ Some h.session) }
{
    table.facts();
    let (slot, session) = table.glance_inside(view.proto, view.src, view.dst)?;
    Some(Held { slot, session })
}

// The session of a packet from outside, where a guess tells it.
#[inline(always)]
fn glanced_in(table: &Table, view: &View) -> Option<Held>
    ensures session { IfSome result
        (λ h. find (has_outside view.now.proto view.now.dst view.now.src)
        (listing table.now.held) ≡ Some h.session) }
    ensures slot { IfSome result (λ h. at table.now h.slot ≡ Some h.session) }
{
    table.facts();
    let (slot, session) = table.glance_outside(view.proto, view.dst, view.src)?;
    Some(Held { slot, session })
}

// How a packet goes out by the session that was found, of which it shows these bits.
#[inline(always)]
fn on_out(
    bounds: &Bounds,
    rules: &Rules,
    found: &Held,
    bits: u8,
    view: &View,
) -> Result<Going, Cause>
    requires { Shows found.now.session Opener.Inside view.now.flags bits }
    ensures way { (external : Pool) (held : List (Option Session)) (now : ℕ)
        → slice_index_or held found.now.slot None ≡ Some found.now.session
        → Plans external held now (planned result)
        (out_by bounds.now rules.now (listing held) now view.now (Some found.now.session)) }
    ensures slot { IfOk result (λ g. g.slot ≡ found.now.slot) }
    ensures told { IfOk result (Tells found.now.session) }
{
    let session = &found.session;
    if !passes_all(rules) {
        let state = connection_of(session, Opener::Inside, view.flags);
        let facts = facts_of(view, Iface::Lan, Some(Iface::Wan), view.dst, state);
        if forward(rules, bounds, &facts) == Forwarding::Drop {
            return Err(Cause::Rule);
        }
    }
    Ok(Going {
        slot: found.slot,
        bits,
        is_new: session.seen | bits != session.seen,
        last: session.last,
        iface: Iface::Wan,
        src: session.outside,
        dst: session.remote,
    })
}

// How a packet comes in by the session that was found, of which it shows these bits.
#[inline(always)]
fn on_in(
    bounds: &Bounds,
    rules: &Rules,
    found: &Held,
    bits: u8,
    view: &View,
) -> Result<Going, Cause>
    requires { Shows found.now.session Opener.Remote view.now.flags bits }
    ensures way { (external : Pool) (held : List (Option Session)) (now : ℕ)
        → slice_index_or held found.now.slot None ≡ Some found.now.session
        → Plans external held now (planned result)
        (in_by bounds.now rules.now (listing held) now view.now (Some found.now.session)) }
    ensures slot { IfOk result (λ g. g.slot ≡ found.now.slot) }
    ensures told { IfOk result (Tells found.now.session) }
{
    let session = &found.session;
    if !passes_all(rules) {
        let state = connection_of(session, Opener::Remote, view.flags);
        let facts = facts_of(view, Iface::Wan, Some(Iface::Lan), session.inside, state);
        if forward(rules, bounds, &facts) == Forwarding::Drop {
            return Err(Cause::Rule);
        }
    }
    Ok(Going {
        slot: found.slot,
        bits,
        is_new: session.seen | bits != session.seen,
        last: session.last,
        iface: Iface::Lan,
        src: session.remote,
        dst: session.inside,
    })
}
