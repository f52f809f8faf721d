//! The sessions with their timers and mappings, which change together.
//!
//! - `carry_out`: what a plan says, once there is room (`make_room`): one change after the other (`apply_all`,
//!   `apply_noted`, `apply`: `begin`, `see`, `restart`).
//! - `carry_out_going`: a packet of a session that goes on, which shows nothing new of it (`see_again`), or some bit
//!   that is noted (`see_noted`).
//! - `expire_since`, `expire`: those that are no longer alive end, with their entries (`slots_due`, `end_all`,
//!   `end_noted`, `end`).
//! - `new`, `of`: no session, or those that survived (`place`).
//! - `watch`, `touch`: the timers of one.
ghost use Rattle.std.specs.Prelude.{◌≡◌, ◌↔◌, ◌+◌, ◌-◌, ◌*◌, ◌<◌, ◌≤◌, ◌∷◌, [], ℕ, List, true, false, IsErrOf, IsTrue, Some, None, IfOk, OnOk, OnErr, IsOk, IfSome, IsSome, IsSomeAnd, length, map, slice_index};
ghost use Rattle.std.specs.List.{Contains, filter};
ghost use Rattle.std.specs.Option.{option_map};
ghost use Rattle.sessions.specs.Life.{IsSeen, IsTimeout, alive, timeout_of};
ghost use Rattle.sessions.specs.Listing.{In, listing, put};
ghost use Rattle.sessions.specs.Sound.{AreSound};
ghost use Rattle.sessions.specs.Stilled.{at_moment};
ghost use Rattle.sessions.specs.Table.{at, Updates, IsSoundTable, seen as seen_with, restarted};
ghost use Rattle.sessions.specs.declared.session.Change.TheVariants.{Seen};
ghost use Rattle.sessions.specs.declared.session.Session.{Session};
ghost use Rattle.timers.specs.Due.{AreOnce, at as idle_at, IsLatest as IsLatestIdle, Updates as IdleUpdates};
ghost use Rattle.mappings.specs.declared.map.Mapping.{Mapping};
ghost use Rattle.mappings.specs.Map.{times};
ghost use Rattle.hairpin.specs.Going.{Tells, plan_of};
ghost use Rattle.hairpin.specs.Legs.{put_all};
ghost use Rattle.hairpin.specs.Plans.{Became};
ghost use Rattle.hairpin.specs.Tallies.{tally};
ghost use Rattle.machine.specs.Noted.{AreOver, ends, entries_for, entries_for_all, sessions_at};
ghost use Rattle.machine.specs.Sizes.{bytes_of};
ghost use Rattle.machine.specs.Flows.{ChangeGives, IsDue, IsNoneLater, MayJoin, PlanGives, TakesMore, adds as adds_by, adds_second};
ghost use Rattle.machine.specs.Outcomes.{Noted, NotedIfOk, Unnoted};

use crate::ahead::{count_ending, count_mapped};
use crate::fault::StepFault;
use crate::notes::{MOST_OF_PACKET, Notes};
use crate::noting::{adds_any, entry_for, flow_of, make_room_for_packet, note, plan_makes_entry};
use durable::Entry;
use hairpin::{Going, Plan, Translations};
use packet::Bounds;
use sessions::{Change, Coming, MOST_AHEAD, Opener, Session, Slot, Table};
use std::alloc::{AllocError, Global};
use std::marker::Model;
use timers::Due;

/// The sessions that live, with their timers and mappings.
#[derive(Drop)]
pub struct Flows {
    table: Table,
    due: Due,
    translations: Translations,
    /// What the last look at sessions that were to end told. Nothing reads it: it is kept so that a compiler can't
    /// leave the look out.
    looked: usize,
}

impl Model for Flows {
    ghost use Rattle.machine.specs.Flows.{Flows as View, Tied};

    ghost Value = { View };

    ghost view = { λ f. record {
      table = f.table;
      watchable = f.due.watchable;
      translations = f.translations;
    } };

    ghost invariant = { λ f. Tied f.table f.due f.translations.mappings };
}

impl Flows {
    /// No session. `external` are the external addresses as numbers: 192.0.2.1 is `0xc0000201`.
    ///
    /// # Errors
    ///
    /// `AllocError` where memory is refused.
    pub fn new(alloc: Global, external: &[u32]) -> Result<Flows, AllocError>
        ensures none { IfOk result (λ f. (slot : ℕ) → at f.table slot ≡ None) }
        ensures external { IfOk result (λ f. f.translations.external ≡ external.now) }
    {
        let translations = Translations::new(alloc, external)?;
        Ok(Flows {
            table: Table::new(alloc),
            due: Due::new(alloc),
            translations,
            looked: 0,
        })
    }

    /// The sessions, none of which clash, each with its last packet at the moment, in seconds.
    ///
    /// # Errors
    ///
    /// `AllocError` where memory is refused.
    pub fn of(
        alloc: Global,
        bounds: &Bounds,
        sessions: &[Session],
        moment: u64,
    ) -> Result<Flows, AllocError>
        requires { AreSound bounds.now sessions.now }
        ensures sessions { IfOk result (λ f. listing f.table.held
            ≡ map (at_moment moment) sessions.now) }
        ensures external { IfOk result (λ f. f.translations.external ≡ bounds.now.external) }
    {
        let mut flows = Flows::new(alloc, bounds.external())?;
        for session in sessions {
            let moved = Session {
                last: moment,
                ..*session
            };
            match flows.place(moved) {
                Ok(()) => {}
                Err(fault) => {
                    drop(flows);
                    return Err(fault);
                }
            }
        }
        Ok(flows)
    }

    /// The sessions, each under its slot.
    pub fn table(&self) -> &Table
        ensures { result.now ≡ self.now.table }
    {
        &self.table
    }

    /// The mappings, and the outside ports that they take.
    pub fn translations(&self) -> &Translations
        ensures { result.now ≡ self.now.translations }
    {
        &self.translations
    }

    /// What the flows always keep: each mapping is held as often as sessions have it.
    pub fn facts(&self)
        ensures counts { (p : Mapping) → times self.now.translations.mappings p
            ≡ tally p self.now.table.held }
    {
        // What they keep is known once a field is read.
        let _table = &self.table;
    }

    /// The sessions, in the order of protocol number, inside and remote endpoint.
    ///
    /// # Errors
    ///
    /// `AllocError` where memory for the list is refused.
    pub fn list(&self, alloc: Global) -> Result<Vec<Session>, AllocError>
        ensures { IfOk result (λ sessions. sessions.items ≡ listing self.now.table.held) }
    {
        self.table.list(alloc)
    }

    /// How many of these packets seem to be of sessions that are held, or of an inside endpoint that has a mapping. It
    /// says nothing of what is.
    pub fn look_ahead(&self, coming: &[Coming; MOST_AHEAD]) -> usize {
        let slots = self.table.look_ahead(coming);
        let mapped = count_mapped(&self.table, &self.translations, coming, &slots);
        self.due.look_ahead(&slots).saturating_add(mapped)
    }

    /// Looks at what the ends of the sessions of these slots are going to read.
    fn look_over(&mut self, slots: &[Slot])
        ensures { self.new ≡ self.old }
    {
        self.looked = count_ending(&self.table, &self.translations, slots);
    }

    /// Makes room for two more sessions.
    ///
    /// # Errors
    ///
    /// `AllocError` where memory is refused. The sessions stay as they are.
    pub fn reserve(&mut self) -> Result<(), AllocError>
        ensures ok { OnOk result (TakesMore 2 self.new) }
        ensures held { self.new.table.held ≡ self.old.table.held }
        ensures external { self.new.translations.external ≡ self.old.translations.external }
    {
        self.table.reserve()?;
        self.due.reserve(self.table.slots())?;
        self.translations.reserve()
    }

    /// The slots of the sessions that are alive no longer, each once.
    fn slots_due(&self, alloc: Global, now: u64) -> Result<Vec<Slot>, AllocError>
        requires { IsNoneLater self.now.table.held now }
        ensures exactly { IfOk result (λ slots. (slot : ℕ)
            → Contains slots.items slot ↔ IsSomeAnd (at self.now.table slot) (IsDue now)) }
        ensures once { IfOk result (λ slots. AreOnce slots.items) }
        ensures sound { IsSoundTable self.now.table.held }
        ensures succeeds { ((slot : ℕ) → ¬ IsSomeAnd (at self.now.table slot) (IsDue now))
            → IsOk result }
    {
        self.table.facts();
        self.due.due(alloc, now)
    }

    /// A packet of the session of the slot passed.
    fn see(&mut self, slot: Slot, bits: u8, last: u64)
        requires held { IsSome (at self.old.table slot) }
        requires bits { IfSome (at self.old.table slot) (λ s. IsSeen s.proto bits) }
        requires latest { IsNoneLater self.old.table.held last }
        ensures became { (s : Session) → at self.old.table slot ≡ Some s
            → Became self.old.table.held (Change.Seen slot bits) (seen_with s bits last)
            self.new.table.held }
        ensures latest { IsNoneLater self.new.table.held last }
        ensures ready { (n : ℕ) → TakesMore n self.old → TakesMore n self.new }
        ensures external { self.new.translations.external ≡ self.old.translations.external }
    {
        self.table.facts();
        self.table.see(slot, bits, last);
        touch(&self.table, &mut self.due, slot, last);
        self.table.facts();
    }

    /// Begins the session of the slot anew.
    fn restart(&mut self, slot: Slot, opener: Opener, last: u64)
        requires held { IsSome (at self.old.table slot) }
        requires latest { IsNoneLater self.old.table.held last }
        ensures became { (s : Session) → at self.old.table slot ≡ Some s
            → Became self.old.table.held (Change.Restart slot opener) (restarted s opener last)
            self.new.table.held }
        ensures latest { IsNoneLater self.new.table.held last }
        ensures ready { (n : ℕ) → TakesMore n self.old → TakesMore n self.new }
        ensures external { self.new.translations.external ≡ self.old.translations.external }
    {
        self.table.facts();
        self.table.restart(slot, opener, last);
        touch(&self.table, &mut self.due, slot, last);
        self.table.facts();
    }

    /// Takes the session.
    ///
    /// # Errors
    ///
    /// `AllocError` where memory is refused.
    fn place(&mut self, session: Session) -> Result<(), AllocError>
        requires may { MayJoin self.old.translations.external self.old.table.held session }
        requires latest { IsNoneLater self.old.table.held session.last }
        ensures placed { OnOk result (listing self.new.table.held
            ≡ put session (listing self.old.table.held)) }
        ensures external { self.new.translations.external ≡ self.old.translations.external }
    {
        self.reserve()?;
        self.begin(session);
        Ok(())
    }

    /// Takes the session, for which there is room.
    fn begin(&mut self, session: Session)
        requires may { MayJoin self.old.translations.external self.old.table.held session }
        requires ready { TakesMore 1 self.old }
        requires latest { IsNoneLater self.old.table.held session.last }
        ensures became { Became self.old.table.held (Change.Begin session) session
            self.new.table.held }
        ensures latest { IsNoneLater self.new.table.held session.last }
        ensures ready { (n : ℕ) → TakesMore (n + 1) self.old → TakesMore n self.new }
        ensures external { self.new.translations.external ≡ self.old.translations.external }
    {
        self.table.facts();
        let slot = self.table.add_reserved(session);
        watch(&mut self.due, slot, session.last, session.timeout());
        self.translations.hold(&session);
        self.table.facts();
    }

    /// Does what a change says, for which there is room. Compiled into its caller.
    #[inline(always)]
    fn apply(&mut self, change: &Change, now: u64)
        requires latest { IsNoneLater self.old.table.held now }
        requires gives { (t : Session) × ChangeGives self.old now change.now t }
        requires ready { 0 < adds_by change.now → TakesMore 1 self.old }
        ensures became { (t : Session) → ChangeGives self.old now change.now t
            → Became self.old.table.held change.now t self.new.table.held }
        ensures latest { IsNoneLater self.new.table.held now }
        ensures ready { (n : ℕ) → TakesMore (n + adds_by change.now) self.old
            → TakesMore n self.new }
        ensures external { self.new.translations.external ≡ self.old.translations.external }
    {
        match change {
            Change::Begin(session) => self.begin(*session),
            Change::Seen(slot, bits) => self.see(*slot, *bits, now),
            Change::Restart(slot, opener) => self.restart(*slot, *opener, now),
        }
    }

    /// Does what a change says, for which there is room, and notes it. Compiled into its callers, of which one knows
    /// the kind of change, and that it makes an entry.
    #[inline(always)]
    fn apply_noted<N: Notes>(&mut self, change: &Change, now: u64, notes: &mut N)
        requires latest { IsNoneLater self.old.table.held now }
        requires gives { (t : Session) × ChangeGives self.old now change.now t
            × (N.keeps notes.old → bytes_of (entries_for (listing self.old.table.held) t)
            ≤ N.room notes.old) }
        requires ready { 0 < adds_by change.now → TakesMore 1 self.old }
        ensures became { (t : Session) → ChangeGives self.old now change.now t
            → Became self.old.table.held change.now t self.new.table.held }
        ensures latest { IsNoneLater self.new.table.held now }
        ensures ready { (n : ℕ) → TakesMore (n + adds_by change.now) self.old
            → TakesMore n self.new }
        ensures external { self.new.translations.external ≡ self.old.translations.external }
        ensures noted { (t : Session) → ChangeGives self.old now change.now t
            → Noted N.keeps N.beside N.noted notes.old notes.new
            (entries_for (listing self.old.table.held) t) }
        ensures room { (t : Session) → ChangeGives self.old now change.now t
            → N.keeps notes.old → N.room notes.old ≤ N.room notes.new
            + bytes_of (entries_for (listing self.old.table.held) t) }
    {
        let entry = entry_for(&self.table, change);
        self.apply(change, now);
        note(notes, entry);
    }

    /// Does what a plan says, one change after the other, for which there is room, and notes it.
    fn apply_all<N: Notes>(&mut self, plan: &Plan, now: u64, notes: &mut N)
        requires latest { IsNoneLater self.old.table.held now }
        requires give { (ts : List Session) × PlanGives self.old now plan.now ts
            × (N.keeps notes.old → bytes_of (entries_for_all ts (listing self.old.table.held))
            ≤ N.room notes.old) }
        requires ready { 0 < adds_by plan.now.first + adds_second plan.now.second
            → TakesMore 2 self.old }
        ensures noted { (ts : List Session) → PlanGives self.old now plan.now ts
            → Noted N.keeps N.beside N.noted notes.old notes.new
            (entries_for_all ts (listing self.old.table.held)) }
        ensures listing { (ts : List Session) → PlanGives self.old now plan.now ts
            → listing self.new.table.held ≡ put_all ts (listing self.old.table.held) }
        ensures latest { IsNoneLater self.new.table.held now }
        ensures external { self.new.translations.external ≡ self.old.translations.external }
    {
        self.apply_noted(&plan.first, now, notes);
        if let Some(second) = &plan.second {
            self.apply_noted(second, now, notes);
        }
    }

    // Makes room for what the plan says; `ready` says that there is room for two sessions and their entries already.
    fn make_room<N: Notes>(
        &mut self,
        ready: bool,
        plan: &Plan,
        now: u64,
        notes: &mut N,
    ) -> Result<(), StepFault>
        requires give { (ts : List Session) × PlanGives self.old now plan.now ts }
        requires ready { IsTrue ready → TakesMore 2 self.old }
        requires room { IsTrue ready → N.keeps notes.old → 44 ≤ N.room notes.old }
        ensures ready { OnOk result (0 < adds_by plan.now.first + adds_second plan.now.second
            → TakesMore 2 self.new) }
        ensures room { OnOk result ((ts : List Session) → PlanGives self.old now plan.now ts
            → N.keeps notes.old → bytes_of (entries_for_all ts (listing self.old.table.held))
            ≤ N.room notes.new) }
        ensures held { self.new.table.held ≡ self.old.table.held }
        ensures external { self.new.translations.external ≡ self.old.translations.external }
        ensures noted { Unnoted N.keeps N.beside N.noted notes.old notes.new }
        ensures full { IsErrOf result StepFault.Full → N.too_many notes.old 44 }
        ensures no_memory { adds_by plan.now.first + adds_second plan.now.second ≡ 0
            → IsErrOf result StepFault.NoMemory → ¬ N.too_many notes.old 44 }
        ensures succeeds { IsTrue ready → IsOk result }
        ensures adds_none { adds_by plan.now.first + adds_second plan.now.second ≡ 0
            → N.grants notes.old → IsOk result }
        ensures quiet { (ts : List Session) → PlanGives self.old now plan.now ts
            → entries_for_all ts (listing self.old.table.held) ≡ [] → IsOk result }
    {
        self.table.facts();
        if ready {
            return Ok(());
        }
        if !plan_makes_entry(&self.table, plan) {
            return Ok(());
        }
        if adds_any(plan) && self.reserve().is_err() {
            return Err(StepFault::NoMemory);
        }
        notes.reserve(0, MOST_OF_PACKET)
    }

    /// Does what a plan says, at the moment `now`, and notes it; `ready` says that there is room for two sessions
    /// and their entries already.
    ///
    /// # Errors
    ///
    /// `NoMemory` where a session is added or something noted, there is no room for it, and memory is refused;
    /// `Full` only where 44 bytes of entries don't fit. The sessions stay as they are, and what is noted too.
    pub fn carry_out<N: Notes>(
        &mut self,
        ready: bool,
        plan: &Plan,
        now: u64,
        notes: &mut N,
    ) -> Result<(), StepFault>
        requires latest { IsNoneLater self.old.table.held now }
        requires give { (ts : List Session) × PlanGives self.old now plan.now ts }
        requires ready { IsTrue ready → TakesMore 2 self.old }
        requires room { IsTrue ready → N.keeps notes.old → 44 ≤ N.room notes.old }
        ensures ok { OnOk result ((ts : List Session) → PlanGives self.old now plan.now ts
            → listing self.new.table.held ≡ put_all ts (listing self.old.table.held)) }
        ensures err { OnErr result (self.new.table.held ≡ self.old.table.held) }
        ensures external { self.new.translations.external ≡ self.old.translations.external }
        ensures noted { (ts : List Session) → PlanGives self.old now plan.now ts
            → NotedIfOk N.keeps N.beside N.noted result notes.old notes.new
            (entries_for_all ts (listing self.old.table.held)) }
        ensures full { IsErrOf result StepFault.Full → N.too_many notes.old 44 }
        ensures no_memory { adds_by plan.now.first + adds_second plan.now.second ≡ 0
            → IsErrOf result StepFault.NoMemory → ¬ N.too_many notes.old 44 }
        ensures succeeds { IsTrue ready → IsOk result }
        ensures adds_none { adds_by plan.now.first + adds_second plan.now.second ≡ 0
            → N.grants notes.old → IsOk result }
        ensures quiet { (ts : List Session) → PlanGives self.old now plan.now ts
            → entries_for_all ts (listing self.old.table.held) ≡ [] → IsOk result }
    {
        match self.make_room(ready, plan, now, notes) {
            Ok(()) => {
                self.apply_all(plan, now, notes);
                Ok(())
            }
            Err(fault) => Err(fault),
        }
    }

    /// Does what a packet does whose session goes on, at the moment `now`, and notes it; `ready` says that there is
    /// room for its entry already.
    ///
    /// # Errors
    ///
    /// `Full` only where something is noted and 44 bytes of entries don't fit; `NoMemory` only where they do, there is
    /// no room for them yet, and memory is refused. The sessions stay as they are, and what is noted too.
    #[inline(always)]
    pub fn carry_out_going<N: Notes>(
        &mut self,
        ready: bool,
        going: &Going,
        now: u64,
        notes: &mut N,
    ) -> Result<(), StepFault>
        requires latest { IsNoneLater self.old.table.held now }
        requires give { (ts : List Session) × PlanGives self.old now (plan_of going.now) ts }
        requires told { IfSome (at self.old.table going.now.slot) (λ s. Tells s going.now) }
        requires room { IsTrue ready → N.keeps notes.old → 44 ≤ N.room notes.old }
        ensures ok { OnOk result ((ts : List Session)
            → PlanGives self.old now (plan_of going.now) ts
            → listing self.new.table.held ≡ put_all ts (listing self.old.table.held)) }
        ensures err { OnErr result (self.new.table.held ≡ self.old.table.held) }
        ensures external { self.new.translations.external ≡ self.old.translations.external }
        ensures noted { (ts : List Session) → PlanGives self.old now (plan_of going.now) ts
            → NotedIfOk N.keeps N.beside N.noted result notes.old notes.new
            (entries_for_all ts (listing self.old.table.held)) }
        ensures full { IsErrOf result StepFault.Full → N.too_many notes.old 44 }
        ensures no_memory { IsErrOf result StepFault.NoMemory → ¬ N.too_many notes.old 44 }
        ensures succeeds { IsTrue ready → IsOk result }
        ensures grants { N.grants notes.old → IsOk result }
        ensures quiet { (ts : List Session) → PlanGives self.old now (plan_of going.now) ts
            → entries_for_all ts (listing self.old.table.held) ≡ [] → IsOk result }
    {
        self.table.facts();
        if going.is_new {
            return self.see_noted(ready, going.slot, going.bits, now, notes);
        }
        self.see_again(going, now);
        Ok(())
    }

    /// A packet of the session of the slot showed these bits, at the moment `now`; that is noted, as `carry_out_going`
    /// says. Not compiled into its caller: few packets show something new.
    #[inline(never)]
    fn see_noted<N: Notes>(
        &mut self,
        ready: bool,
        slot: Slot,
        bits: u8,
        now: u64,
        notes: &mut N,
    ) -> Result<(), StepFault>
        requires latest { IsNoneLater self.old.table.held now }
        requires gives { (t : Session) × ChangeGives self.old now (Seen slot bits) t }
        requires room { IsTrue ready → N.keeps notes.old → 44 ≤ N.room notes.old }
        ensures ok { OnOk result ((t : Session) → ChangeGives self.old now (Seen slot bits) t
            → listing self.new.table.held ≡ put t (listing self.old.table.held)) }
        ensures err { OnErr result (self.new.table.held ≡ self.old.table.held) }
        ensures external { self.new.translations.external ≡ self.old.translations.external }
        ensures noted { (t : Session) → ChangeGives self.old now (Seen slot bits) t
            → NotedIfOk N.keeps N.beside N.noted result notes.old notes.new
            (entries_for (listing self.old.table.held) t) }
        ensures full { IsErrOf result StepFault.Full → N.too_many notes.old 44 }
        ensures no_memory { IsErrOf result StepFault.NoMemory → ¬ N.too_many notes.old 44 }
        ensures succeeds { IsTrue ready → IsOk result }
        ensures grants { N.grants notes.old → IsOk result }
    {
        make_room_for_packet(ready, notes)?;
        self.apply_noted(&Change::Seen(slot, bits), now, notes);
        Ok(())
    }

    /// A packet passed whose session goes on, at the moment `now`, and that shows nothing new of it.
    #[inline(always)]
    fn see_again(&mut self, going: &Going, now: u64)
        requires latest { IsNoneLater self.old.table.held now }
        requires give { (ts : List Session) × PlanGives self.old now (plan_of going.now) ts }
        requires told { IfSome (at self.old.table going.now.slot) (λ s. Tells s going.now) }
        requires quiet { going.now.is_new ≡ false }
        ensures listing { (ts : List Session) → PlanGives self.old now (plan_of going.now) ts
            → listing self.new.table.held ≡ put_all ts (listing self.old.table.held) }
        ensures external { self.new.translations.external ≡ self.old.translations.external }
    {
        self.table.facts();
        // Most packets come in the second of their session's packet before.
        if going.last == now {
            return;
        }
        self.see(going.slot, going.bits, now);
    }

    /// Ends the session of the slot.
    fn end(&mut self, slot: Slot)
        requires { IsSome (at self.old.table slot) }
        ensures updates { Updates self.old.table self.new.table slot None }
        ensures ready { (n : ℕ) → TakesMore n self.old → TakesMore n self.new }
        ensures external { self.new.translations.external ≡ self.old.translations.external }
    {
        if let Some(session) = self.table.get(slot) {
            self.translations.release(&session);
            self.due.remove(slot);
            self.table.end(slot);
        }
    }

    /// Ends the session of the slot, and notes it.
    fn end_noted<N: Notes>(&mut self, slot: Slot, notes: &mut N)
        requires held { IsSome (at self.old.table slot) }
        requires room { N.keeps notes.old → 14 ≤ N.room notes.old }
        ensures updates { Updates self.old.table self.new.table slot None }
        ensures ready { (n : ℕ) → TakesMore n self.old → TakesMore n self.new }
        ensures external { self.new.translations.external ≡ self.old.translations.external }
        ensures noted { Noted N.keeps N.beside N.noted notes.old notes.new
            (ends (sessions_at self.old.table.held (slot ∷ []))) }
        ensures room { N.keeps notes.old → N.room notes.old ≤ N.room notes.new + 14 }
    {
        if let Some(session) = self.table.get(slot) {
            notes.note(Entry::End(flow_of(&session)));
            self.end(slot);
        }
    }

    /// Ends the sessions of the slots, and notes them.
    fn end_all<N: Notes>(&mut self, slots: &[Slot], notes: &mut N)
        requires held { (k : ℕ) → k < length slots.now
            → IsSome (at self.old.table (slice_index slots.now k)) }
        requires once { AreOnce slots.now }
        requires room { N.keeps notes.old → 14 * length slots.now ≤ N.room notes.old }
        ensures ended { (k : ℕ) → k < length slots.now
            → at self.new.table (slice_index slots.now k) ≡ None }
        ensures others { (slot : ℕ) → ¬ Contains slots.now slot
            → at self.new.table slot ≡ at self.old.table slot }
        ensures sound { IsSoundTable self.new.table.held }
        ensures ready { (n : ℕ) → TakesMore n self.old → TakesMore n self.new }
        ensures external { self.new.translations.external ≡ self.old.translations.external }
        ensures noted { Noted N.keeps N.beside N.noted notes.old notes.new
            (ends (sessions_at self.old.table.held slots.now)) }
        ensures room { N.keeps notes.old
            → N.room notes.old ≤ N.room notes.new + 14 * length slots.now }
    {
        for slot in slots {
            self.end_noted(*slot, notes);
        }
        self.table.facts();
    }

    /// Ends the sessions that are no longer alive at the moment `now`, notes them, and says whether there were any;
    /// then there is room for two more, and for so many bytes of other entries: an event whose first entries are noted
    /// can't be refused any more.
    ///
    /// # Errors
    ///
    /// `NoMemory` where there are any and memory is refused; `Full` only where the entries don't fit. The sessions
    /// stay as they are, and what is noted too.
    fn expire<N: Notes>(
        &mut self,
        alloc: Global,
        now: u64,
        others: u64,
        notes: &mut N,
    ) -> Result<bool, StepFault>
        requires { IsNoneLater self.old.table.held now }
        ensures ok { OnOk result (listing self.new.table.held
            ≡ filter (alive now) (listing self.old.table.held)) }
        ensures err { OnErr result (self.new.table.held ≡ self.old.table.held) }
        ensures external { self.new.translations.external ≡ self.old.translations.external }
        ensures any { IfOk result (λ any. IsTrue any → TakesMore 2 self.new
            × (N.keeps notes.old → others ≤ N.room notes.new)) }
        ensures none { IfOk result (λ any. any ≡ false
            → (self.new.table.held ≡ self.old.table.held) × (notes.new ≡ notes.old)) }
        ensures noted { OnOk result ((gone : List Session)
            × AreOver now (listing self.old.table.held) gone
            × Noted N.keeps N.beside N.noted notes.old notes.new (ends gone)) }
        ensures err_noted { OnErr result (Unnoted N.keeps N.beside N.noted notes.old notes.new) }
        ensures full { IsErrOf result StepFault.Full → (gone : List Session)
            × AreOver now (listing self.old.table.held) gone
            × N.too_many notes.old (14 * length gone + others) }
        ensures succeeds { ((slot : ℕ) → ¬ IsSomeAnd (at self.old.table slot) (IsDue now))
            → IsOk result }
    {
        let slots = match self.slots_due(alloc, now) {
            Ok(slots) => slots,
            Err(_) => return Err(StepFault::NoMemory),
        };
        if slots.is_empty() {
            return Ok(false);
        }
        if self.reserve().is_err() {
            return Err(StepFault::NoMemory);
        }
        notes.reserve(slots.len(), others)?;
        self.look_over(&slots);
        self.end_all(&slots, notes);
        Ok(true)
    }

    /// As `expire`, where all sessions were alive at the moment `clock`: before the clock rises none ends, and nothing
    /// is looked at.
    #[inline(always)]
    pub fn expire_since<N: Notes>(
        &mut self,
        alloc: Global,
        clock: u64,
        now: u64,
        others: u64,
        notes: &mut N,
    ) -> Result<bool, StepFault>
        requires latest { IsNoneLater self.old.table.held now }
        requires live { (s : Session) → In s (listing self.old.table.held) → alive clock s ≡ true }
        ensures ok { OnOk result (listing self.new.table.held
            ≡ filter (alive now) (listing self.old.table.held)) }
        ensures err { OnErr result (self.new.table.held ≡ self.old.table.held) }
        ensures external { self.new.translations.external ≡ self.old.translations.external }
        ensures any { IfOk result (λ any. IsTrue any → TakesMore 2 self.new
            × (N.keeps notes.old → others ≤ N.room notes.new)) }
        ensures none { IfOk result (λ any. any ≡ false
            → (self.new.table.held ≡ self.old.table.held) × (notes.new ≡ notes.old)) }
        ensures noted { OnOk result ((gone : List Session)
            × AreOver now (listing self.old.table.held) gone
            × Noted N.keeps N.beside N.noted notes.old notes.new (ends gone)) }
        ensures err_noted { OnErr result (Unnoted N.keeps N.beside N.noted notes.old notes.new) }
        ensures full { IsErrOf result StepFault.Full → (gone : List Session)
            × AreOver now (listing self.old.table.held) gone
            × N.too_many notes.old (14 * length gone + others) }
        ensures succeeds { ((slot : ℕ) → ¬ IsSomeAnd (at self.old.table slot) (IsDue now))
            → IsOk result }
    {
        if now == clock {
            return Ok(false);
        }
        self.expire(alloc, now, others, notes)
    }
}

fn watch(due: &mut Due, slot: Slot, last: u64, timeout: u64)
    requires free { idle_at due.old slot ≡ None }
    requires timeout { IsTimeout timeout }
    requires latest { IsLatestIdle due.old last }
    requires watchable { slot < due.old.watchable }
    ensures updates { IdleUpdates due.old due.new slot (Some (record {
      last = last;
      timeout = timeout;
    })) }
    ensures ready { due.old.watchable ≤ due.new.watchable }
{
    match due.add(slot, last, timeout) {
        Ok(()) => {}
        Err(_) => unreachable!(),
    }
}

// A packet of the session that the slot holds passed.
fn touch(table: &Table, due: &mut Due, slot: Slot, last: u64)
    requires held { IsSome (at table.now slot) }
    requires watched { IsSome (idle_at due.old slot) }
    requires latest { IsLatestIdle due.old last }
    ensures updates { IdleUpdates due.old due.new slot
        (option_map (λ s. record { last = last; timeout = timeout_of s }) (at table.now slot)) }
    ensures ready { due.new.watchable ≡ due.old.watchable }
{
    if let Some(session) = table.get(slot) {
        due.touch(slot, last, session.timeout());
    }
}
