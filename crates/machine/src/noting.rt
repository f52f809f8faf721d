//! The entries by which a change of a session is noted, or a plan of one or two changes.
//!
//! - Of a change: whether it makes an entry (`makes_entry`), which (`entry_for`, `between`), and that it is noted
//!   (`note`).
//! - Of a plan: whether it makes one (`plan_makes_entry`), and whether it adds a session (`adds_any`), which it needs
//!   room for beside.
//! - Of a packet: room for all its entries (`make_room_for_packet`).
ghost use Rattle.std.specs.Prelude.{◌≡◌, ◌≢◌, ◌↔◌, ◌+◌, ◌<◌, ◌≤◌, [], ℕ, List, IsErrOf, IsOk, IsTrue, OnOk};
ghost use Rattle.packet.specs.Config.{Pool};
ghost use Rattle.durable.specs.Coding.{AreEntries, IsFlow, IsSession};
ghost use Rattle.durable.specs.Entering.{flow_of as flow_in};
ghost use Rattle.hairpin.specs.Plans.{GiveAll, Gives};
ghost use Rattle.machine.specs.Flows.{adds as adds_by, adds_second};
ghost use Rattle.machine.specs.Noted.{between as entries_between, entries_for, entries_for_all};
ghost use Rattle.machine.specs.Outcomes.{Noted, Unnoted};
ghost use Rattle.machine.specs.Sizes.{bytes_of, listed};
ghost use Rattle.sessions.specs.Life.{IsSeen};
ghost use Rattle.sessions.specs.Listing.{listing};
ghost use Rattle.sessions.specs.declared.session.Session.{Session};
ghost use Rattle.sessions.specs.Stilled.{stilled as without_moment};
ghost use Rattle.sessions.specs.Table.{restarted, seen as seen_with};

use crate::fault::StepFault;
use crate::notes::{MOST_OF_PACKET, Notes};
use durable::{Entry, Flow, endpoint_fits};
use hairpin::Plan;
use sessions::{Change, Opener, Session, Table};

/// The flow of a session.
pub fn flow_of(session: &Session) -> Flow
    ensures value { result ≡ flow_in session.now }
    ensures coded { IsFlow result }
{
    endpoint_fits(session.inside);
    endpoint_fits(session.remote);
    Flow {
        proto: session.proto,
        inside: session.inside,
        remote: session.remote,
    }
}

/// The session without the moment of its last packet.
fn stilled(session: &Session) -> Session
    ensures value { result ≡ without_moment session.now }
    ensures coded { IsSeen session.now.proto session.now.seen → IsSession result }
{
    endpoint_fits(session.inside);
    endpoint_fits(session.outside);
    endpoint_fits(session.remote);
    Session {
        last: 0,
        ..*session
    }
}

/// The entry that makes the one session the other, which is of the same flow and outside endpoint; none where they
/// differ at most in their moments.
fn between(old: &Session, new: &Session) -> Option<Entry<'static>>
    requires { IsSeen new.now.proto new.now.seen }
    ensures entry { listed result ≡ entries_between old.now new.now }
    ensures coded { AreEntries (listed result) }
{
    if old.opener == new.opener && old.seen == new.seen {
        return None;
    }
    if old.opener == new.opener && new.seen > 0 {
        return Some(Entry::Seen(flow_of(new), new.seen));
    }
    Some(Entry::Restart(flow_of(new), new.opener, new.seen))
}

// Whether more was seen of the session, with these bits.
fn shows_more(session: &Session, bits: u8) -> bool
    ensures { (now : ℕ) → IsTrue result
        ↔ (entries_between session.now (seen_with session.now bits now) ≢ []) }
{
    session.seen | bits != session.seen
}

// Whether the session isn't as one that begins from this side.
fn restart_changes(session: &Session, opener: Opener) -> bool
    ensures { (now : ℕ) → IsTrue result
        ↔ (entries_between session.now (restarted session.now opener now) ≢ []) }
{
    session.opener != opener || session.seen != 0
}

/// Whether a change of a session makes an entry, so that `entry_for` gives one; the table is that before the change.
/// Of most packets it tells that none has to be made.
pub fn makes_entry(table: &Table, change: &Change) -> bool
    requires { (external : Pool) × (now : ℕ) × (t : Session)
        × Gives external table.now.held now change.now t }
    ensures { (external : Pool) (now : ℕ) (t : Session)
        → Gives external table.now.held now change.now t
        → IsTrue result ↔ (entries_for (listing table.now.held) t ≢ []) }
{
    table.facts();
    match change {
        Change::Begin(_) => true,
        Change::Seen(slot, bits) => match table.get(*slot) {
            Some(session) => shows_more(&session, *bits),
            None => false,
        },
        Change::Restart(slot, opener) => match table.get(*slot) {
            Some(session) => restart_changes(&session, *opener),
            None => false,
        },
    }
}

/// Makes room for the entries of a packet, which are 44 bytes at most; `ready` says that there is room already.
///
/// # Errors
///
/// `Full` only where 44 bytes of entries don't fit; `NoMemory` only where they do, and memory is refused. What is noted
/// stays.
pub fn make_room_for_packet<N: Notes>(ready: bool, notes: &mut N) -> Result<(), StepFault>
    requires room { IsTrue ready → N.keeps notes.old → 44 ≤ N.room notes.old }
    ensures room { OnOk result (N.keeps notes.old → 44 ≤ N.room notes.new) }
    ensures noted { Unnoted N.keeps N.beside N.noted notes.old notes.new }
    ensures full { IsErrOf result StepFault.Full → N.too_many notes.old 44 }
    ensures no_memory { IsErrOf result StepFault.NoMemory → ¬ N.too_many notes.old 44 }
    ensures succeeds { IsTrue ready → IsOk result }
    ensures grants { N.grants notes.old → IsOk result }
{
    if ready {
        return Ok(());
    }
    notes.reserve(0, MOST_OF_PACKET)
}

/// The entry that a change of a session makes, if it makes one; the table is that before the change. Compiled into its
/// callers, of which one knows the kind of change.
#[inline(always)]
pub fn entry_for(table: &Table, change: &Change) -> Option<Entry<'static>>
    requires { (external : Pool) × (now : ℕ) × (t : Session)
        × Gives external table.now.held now change.now t }
    ensures entry { (external : Pool) (now : ℕ) (t : Session)
        → Gives external table.now.held now change.now t
        → listed result ≡ entries_for (listing table.now.held) t }
    ensures coded { AreEntries (listed result) }
{
    table.facts();
    match change {
        Change::Begin(session) => Some(Entry::Begin(stilled(session))),
        Change::Seen(slot, bits) => {
            let session = table.get(*slot)?;
            let seen = session.seen | *bits;
            between(&session, &Session { seen, ..session })
        }
        Change::Restart(slot, opener) => {
            let session = table.get(*slot)?;
            let opener = *opener;
            between(
                &session,
                &Session {
                    opener,
                    seen: 0,
                    ..session
                },
            )
        }
    }
}

/// Notes an entry if there is one, which has a code, and for which there is room. Compiled into its callers, with which
/// an entry needn't be moved.
#[inline(always)]
pub fn note<N: Notes>(notes: &mut N, item: Option<Entry<'_>>)
    requires coded { AreEntries (listed item) }
    requires room { N.keeps notes.old → bytes_of (listed item) ≤ N.room notes.old }
    ensures noted { Noted N.keeps N.beside N.noted notes.old notes.new (listed item.entry) }
    ensures room { N.keeps notes.old
        → N.room notes.old ≤ N.room notes.new + bytes_of (listed item.entry) }
{
    if let Some(entry) = item {
        notes.note(entry);
    }
}

/// Whether the plan makes an entry. A change that adds a session makes one. Of a second change that adds none the table
/// tells it, although it is the table before the first change.
pub fn plan_makes_entry(table: &Table, plan: &Plan) -> bool
    requires { (external : Pool) × (now : ℕ) × (ts : List Session)
        × GiveAll external table.now.held now plan.now.first plan.now.second ts }
    ensures { (external : Pool) (now : ℕ) (ts : List Session)
        → GiveAll external table.now.held now plan.now.first plan.now.second ts
        → IsTrue result ↔ (entries_for_all ts (listing table.now.held) ≢ []) }
{
    table.facts();
    if makes_entry(table, &plan.first) {
        return true;
    }
    match &plan.second {
        Some(second) => {
            if adds(second) > 0 {
                return true;
            }
            makes_entry(table, second)
        }
        None => false,
    }
}

// How many sessions the change adds, 0 or 1.
fn adds(change: &Change) -> usize
    ensures { result ≡ adds_by change.now }
{
    match change {
        Change::Begin(_) => 1,
        Change::Seen(_, _) => 0,
        Change::Restart(_, _) => 0,
    }
}

/// Whether the plan adds a session.
pub fn adds_any(plan: &Plan) -> bool
    ensures { IsTrue result ↔ (0 < adds_by plan.now.first + adds_second plan.now.second) }
{
    if let Some(second) = &plan.second
        && adds(second) > 0
    {
        return true;
    }
    adds(&plan.first) > 0
}
