//! Whom a mapping lets in (RFC 4787, REQ-8; RFC 5382, REQ-3).
ghost use Rattle.std.specs.Prelude.{◌≡◌, Some, find};
ghost use Rattle.sessions.specs.Listing.{listing};
ghost use Rattle.sessions.specs.declared.session.Session.{Session};
ghost use Rattle.hairpin.specs.Legs.{by_mapping, maps_outside};
ghost use Rattle.hairpin.specs.Tallies.{AreOf};

use crate::cause::Cause;
use crate::translations::Translations;
use packet::{Bounds, Endpoint, Filtering, Proto, View};
use sessions::Table;

/// The inside endpoint of the mapping whose outside endpoint is the packet's destination, if the mapping lets in what
/// comes from this remote address.
///
/// # Errors
///
/// `NoMapping`, or `Filtered`, as `admit` says.
#[inline(always)]
pub fn mapped_inside(
    bounds: &Bounds,
    table: &Table,
    translations: &Translations,
    view: &View,
    remote: u32,
) -> Result<Endpoint, Cause>
    requires { AreOf bounds.now table.now.held translations.now }
    ensures { let sessions = listing table.now.held in
        result ≡ by_mapping bounds.now.filtering sessions remote
        (find (maps_outside view.now.proto view.now.dst) sessions) }
{
    bounds.facts();
    match translations.inside_of(view.proto, view.dst) {
        Some(inside) => admit(bounds, table, view.proto, inside, view.dst, remote),
        None => Err(Cause::NoMapping),
    }
}

/// The inside endpoint of this mapping, if the mapping lets in what comes from this remote address: filtering by endpoint
/// lets in all; by address, those alone at whose address a session of the mapping has its remote endpoint, at whatever
/// port.
///
/// # Errors
///
/// `Filtered`, if the mapping doesn't.
#[inline(always)]
pub fn admit(
    bounds: &Bounds,
    table: &Table,
    proto: Proto,
    inside: Endpoint,
    outside: Endpoint,
    remote: u32,
) -> Result<Endpoint, Cause>
    ensures { (m : Session) → m.proto ≡ proto → m.inside ≡ inside → m.outside ≡ outside
        → result ≡ by_mapping bounds.now.filtering (listing table.now.held) remote (Some m) }
{
    match bounds.filtering() {
        Filtering::Endpoint => Ok(inside),
        Filtering::Address => {
            if table.knows(proto, inside, outside, remote) {
                Ok(inside)
            } else {
                Err(Cause::Filtered)
            }
        }
    }
}
