//! `State`: what a step changes, with the configuration that it reads. A step goes by two calls: the clock rises and
//! the sessions end that are no longer alive (`age`), and then the event is answered at that moment (`answer_deed`,
//! `answer_packet`). If it is refused, no session has ended, and the clock is put back (`put_back`).
//!
//! - `answer_packet`: at once, if a guess tells the packet's session, and that goes on (`hairpin::goes_on`,
//!   `answering::answer_going`), or else by a plan (`answer_by_plan`: `plan_for`, `answering::answer_planned`).
ghost use Rattle.std.specs.Prelude.{◌≡◌, ◌<◌, ◌≤◌, ◌+◌, ◌*◌, [], List, length, OnOk, Ok, IsErrOf, IsTrue, false, IfOk, IfErr, IfSome, IsOk, OnErr};
ghost use Rattle.packet.specs.Fields.{fields};
ghost use Rattle.packet.specs.Route.{route as route_for};
ghost use Rattle.hairpin.specs.Going.{planned};
ghost use Rattle.machine.specs.Core.{state_in};
ghost use Rattle.machine.specs.Fates.{answer_of};
ghost use Rattle.machine.specs.Flows.{IsWay, TakesMore};
ghost use Rattle.machine.specs.Judged.{IsRight, brought};
ghost use Rattle.machine.specs.Machine.{KeepsCount, EndsNone, act, aged, later, leg, on_packet, sent};
ghost use Rattle.machine.specs.Noted.{AreOver, ends, of_deed, of_fields, of_way};
ghost use Rattle.machine.specs.Outcomes.{Noted, NotedIfOk, Unnoted};
ghost use Rattle.machine.specs.Sizes.{most_bytes};
ghost use Rattle.machine.specs.Sound.{IsSoundState};
ghost use Rattle.sessions.specs.declared.session.Session.{Session};

use crate::answering::{answer_going, answer_planned, drop_for};
use crate::bytes::Bytes;
use crate::deed::Deed;
use crate::event::{Answer, Fate, What};
use crate::fault::StepFault;
use crate::flows::Flows;
use crate::in_force::{InForce, note_load, put_in_force};
use crate::notes::Notes;
use hairpin::{Cause, Plan, goes_on, hairpin_leg, in_leg, out_leg};
use packet::{Bounds, Iface, Route, View};
use std::alloc::Global;
use std::marker::Model;

/// The configuration, the text in force with its rules, the sessions, all of which are alive, and the clock.
#[derive(Drop)]
pub(crate) struct State {
    pub(crate) bounds: Bounds,
    pub(crate) in_force: InForce,
    pub(crate) flows: Flows,
    pub(crate) clock: u64,
}

impl Model for State {
    ghost use Rattle.machine.specs.Core.{Parts, IsCore};

    ghost Value = { Parts };

    ghost view = { λ s. record {
      config = s.bounds;
      text = s.in_force.text;
      rules = s.in_force.rules;
      flows = s.flows;
      clock = s.clock;
    } };

    ghost invariant = { λ s. IsCore s.bounds s.in_force.text s.in_force.rules s.flows s.clock };
}

/// The later of two moments.
fn later_of(a: u64, b: u64) -> u64
    ensures { result ≡ later a b }
{
    if a <= b { b } else { a }
}

impl State {
    /// The configuration.
    pub(crate) fn bounds(&self) -> &Bounds
        ensures { result.now ≡ self.now.config }
    {
        &self.bounds
    }

    /// The moment of the clock. All sessions are alive then.
    pub(crate) fn clock(&self) -> u64
        ensures value { result ≡ self.now.clock }
        ensures sound { IsSoundState self.now.config (state_in self.now) }
        ensures live { EndsNone self.now.clock (state_in self.now) }
    {
        self.clock
    }

    /// The clock rises to the moment, in seconds, the sessions that are no longer alive then end and are noted, and it
    /// says whether there were any. If so, there is room for two more, and for so many bytes of other entries: an event
    /// whose first entries are noted can't be refused any more.
    ///
    /// # Errors
    ///
    /// `NoMemory` where there are any and memory is refused; `Full` only where the entries don't fit. Nothing has
    /// changed, and what is noted neither.
    #[inline(always)]
    pub(crate) fn age<N: Notes>(
        &mut self,
        alloc: Global,
        moment: u64,
        others: u64,
        notes: &mut N,
    ) -> Result<bool, StepFault>
        ensures ok { OnOk result (state_in self.new
            ≡ aged (later self.old.clock moment) (state_in self.old)) }
        ensures err { OnErr result (state_in self.new ≡ state_in self.old) }
        ensures config { self.new.config ≡ self.old.config }
        ensures any { IfOk result (λ any. IsTrue any → TakesMore 2 self.new.flows
            × (N.keeps notes.old → others ≤ N.room notes.new)) }
        ensures none { IfOk result (λ any. any ≡ false
            → EndsNone (later self.old.clock moment) (state_in self.old)
            × (notes.new ≡ notes.old)) }
        ensures noted { OnOk result ((gone : List Session)
            × AreOver (later self.old.clock moment) (state_in self.old).sessions gone
            × Noted N.keeps N.beside N.noted notes.old notes.new (ends gone)) }
        ensures err_noted { OnErr result (Unnoted N.keeps N.beside N.noted notes.old notes.new) }
        ensures full { IsErrOf result StepFault.Full → (gone : List Session)
            × AreOver (later self.old.clock moment) (state_in self.old).sessions gone
            × N.too_many notes.old (14 * length gone + others) }
        ensures succeeds { EndsNone (later self.old.clock moment) (state_in self.old)
            → IsOk result }
    {
        self.bounds.facts();
        let now = later_of(self.clock, moment);
        match self
            .flows
            .expire_since(alloc, self.clock, now, others, notes)
        {
            Ok(any) => {
                self.clock = now;
                Ok(any)
            }
            Err(fault) => Err(fault),
        }
    }

    /// Puts the clock back to a moment at which all sessions were alive.
    pub(crate) fn put_back(&mut self, clock: u64)
        requires sound { IsSoundState self.old.config
            (record (state_in self.old) { clock = clock }) }
        requires live { EndsNone clock (record (state_in self.old) { clock = clock }) }
        ensures { self.new ≡ record self.old { clock = clock } }
    {
        self.clock = clock;
    }

    /// Does what the event says, at the clock's moment. `ready` says that some session has ended (`age`): then there is
    /// room already for two more sessions and for the entries of the deed, and it can't be refused.
    pub(crate) fn answer_deed<N: Notes>(
        &mut self,
        ready: bool,
        deed: Deed,
        notes: &mut N,
    ) -> Result<Answer, (What, StepFault)>
        requires right { IsRight self.old.config deed }
        requires ready { IsTrue ready → TakesMore 2 self.old.flows }
        requires room { IsTrue ready → N.keeps notes.old → most_bytes deed ≤ N.room notes.old }
        ensures ok { IfOk result (λ answer. act self.old.config (state_in self.old) deed
            ≡ (state_in self.new, answer)) }
        ensures err { IfErr result (λ e. (e.0 ≡ brought deed)
            × (state_in self.new ≡ state_in self.old)) }
        ensures config { self.new.config ≡ self.old.config }
        ensures ready { IsTrue ready → IsOk result }
        ensures adds_none { KeepsCount (state_in self.old)
            (act self.old.config (state_in self.old) deed) → N.grants notes.old → IsOk result }
        ensures noted { NotedIfOk N.keeps N.beside N.noted result notes.old notes.new
            (of_deed self.old.config (state_in self.old) deed) }
        ensures full { IfErr result (λ e. e.1 ≡ StepFault.Full
            → N.too_many notes.old (most_bytes deed)) }
        ensures no_memory { KeepsCount (state_in self.old)
            (act self.old.config (state_in self.old) deed)
            → IfErr result (λ e. e.1 ≡ StepFault.NoMemory
            → ¬ N.too_many notes.old (most_bytes deed)) }
        ensures quiet { of_deed self.old.config (state_in self.old) deed ≡ [] → IsOk result }
    {
        match deed {
            Deed::Take(text, rules) => {
                if let Err(fault) = note_load(ready, &text, notes) {
                    drop(rules);
                    return Err((What::Load(text), fault));
                }
                put_in_force(&mut self.in_force, text, rules);
                Ok(Answer::Loaded)
            }
            Deed::Refuse(_) => Ok(Answer::Refused),
            Deed::Moment => Ok(Answer::Ticked),
            Deed::Packet(iface, bytes) => {
                let mut packet = bytes.into_vec();
                let comes_to = self.answer_packet(ready, iface, &mut packet, notes);
                let bytes = Bytes::of(packet);
                match comes_to {
                    Ok(fate) => Ok(fate.answer(bytes)),
                    Err(fault) => Err((What::Packet(iface, bytes), fault)),
                }
            }
        }
    }

    /// What a packet comes to, at the clock's moment; `ready` says that there is room for two sessions and their entries
    /// already. One that leaves is translated where it lies.
    // Not compiled into its callers, in which it had too few registers.
    #[inline(never)]
    pub(crate) fn answer_packet<N: Notes>(
        &mut self,
        ready: bool,
        iface: Iface,
        packet: &mut [u8],
        notes: &mut N,
    ) -> Result<Fate, StepFault>
        requires ready { IsTrue ready → TakesMore 2 self.old.flows }
        requires room { IsTrue ready → N.keeps notes.old → 44 ≤ N.room notes.old }
        ensures ok { IfOk result (λ fate. on_packet self.old.config (state_in self.old) iface packet.old
            ≡ (state_in self.new, answer_of fate packet.new)) }
        ensures err { OnErr result ((packet.new ≡ packet.old)
            × (state_in self.new ≡ state_in self.old)) }
        ensures length { length packet.new ≡ length packet.old }
        ensures config { self.new.config ≡ self.old.config }
        ensures ready { IsTrue ready → IsOk result }
        ensures adds_none { KeepsCount (state_in self.old)
            (on_packet self.old.config (state_in self.old) iface packet.old)
            → N.grants notes.old → IsOk result }
        ensures noted { NotedIfOk N.keeps N.beside N.noted result notes.old notes.new
            (of_fields self.old.config (state_in self.old) iface (fields packet.old)) }
        ensures full { IfErr result (λ e. e ≡ StepFault.Full → N.too_many notes.old 44) }
        ensures no_memory { KeepsCount (state_in self.old)
            (on_packet self.old.config (state_in self.old) iface packet.old)
            → IfErr result (λ e. e ≡ StepFault.NoMemory → ¬ N.too_many notes.old 44) }
        ensures quiet { of_fields self.old.config (state_in self.old) iface (fields packet.old) ≡ []
            → IsOk result }
    {
        self.bounds.facts();
        match View::read(packet) {
            Err(fault) => Ok(drop_for(Cause::Packet(fault))),
            Ok(view) => match self.bounds.route(iface, &view) {
                Err(fault) => Ok(drop_for(Cause::Route(fault))),
                Ok(route) => {
                    let rules = &self.in_force.rules;
                    match goes_on(&self.bounds, rules, self.flows.table(), route, &view) {
                        // Nearly all packets are answered here.
                        Some(going) => {
                            answer_going(&mut self.flows, ready, &going, packet, self.clock, notes)
                        }
                        None => {
                            // Put down in memory on this way alone.
                            let view = view;
                            self.answer_by_plan(ready, route, &view, packet, notes)
                        }
                    }
                }
            },
        }
    }

    // What a packet with these fields comes to, on its route, by the plan that is made for it; `ready` says that there is
    // room for two sessions and their entries already. Not compiled into its caller, so that a packet whose session goes
    // on clears no place for a plan.
    #[inline(never)]
    fn answer_by_plan<N: Notes>(
        &mut self,
        ready: bool,
        route: Route,
        view: &View,
        packet: &mut [u8],
        notes: &mut N,
    ) -> Result<Fate, StepFault>
        requires read { fields packet.old ≡ Ok view.now }
        requires routed { (iface : Iface) × (route_for self.old.config iface view.now ≡ Ok route) }
        requires ready { IsTrue ready → TakesMore 2 self.old.flows }
        requires room { IsTrue ready → N.keeps notes.old → 44 ≤ N.room notes.old }
        ensures ok { IfOk result (λ fate. sent (state_in self.old) packet.old
            (leg self.old.config (state_in self.old) view.now route)
            ≡ (state_in self.new, answer_of fate packet.new)) }
        ensures err { OnErr result ((packet.new ≡ packet.old)
            × (state_in self.new ≡ state_in self.old)) }
        ensures length { length packet.new ≡ length packet.old }
        ensures config { self.new.config ≡ self.old.config }
        ensures ready { IsTrue ready → IsOk result }
        ensures adds_none { KeepsCount (state_in self.old) (sent (state_in self.old) packet.old
            (leg self.old.config (state_in self.old) view.now route))
            → N.grants notes.old → IsOk result }
        ensures noted { NotedIfOk N.keeps N.beside N.noted result notes.old notes.new
            (of_way (state_in self.old).sessions
            (leg self.old.config (state_in self.old) view.now route)) }
        ensures full { IfErr result (λ e. e ≡ StepFault.Full → N.too_many notes.old 44) }
        ensures no_memory { KeepsCount (state_in self.old) (sent (state_in self.old) packet.old
            (leg self.old.config (state_in self.old) view.now route))
            → IfErr result (λ e. e ≡ StepFault.NoMemory → ¬ N.too_many notes.old 44) }
        ensures quiet { of_way (state_in self.old).sessions
            (leg self.old.config (state_in self.old) view.now route) ≡ [] → IsOk result }
    {
        let plan = self.plan_for(route, view);
        self.bounds.facts();
        answer_planned(&mut self.flows, ready, &plan, packet, self.clock, notes)
    }

    // The plan of a packet with these fields, on its route, as the leg says. Compiled into its caller, it took fewer
    // instructions.
    #[inline(always)]
    fn plan_for(&self, route: Route, view: &View) -> Result<Plan, Cause>
        requires ports { (0 < view.now.src.port) × (0 < view.now.dst.port) }
        requires routed { (iface : Iface) × (route_for self.now.config iface view.now ≡ Ok route) }
        ensures { IsWay self.now.flows self.now.clock result
            (leg self.now.config (state_in self.now) view.now route) }
    {
        self.flows.facts();
        let bounds = &self.bounds;
        let rules = &self.in_force.rules;
        let table = self.flows.table();
        let translations = self.flows.translations();
        match route {
            Route::Out => out_leg(bounds, rules, table, translations, view, self.clock),
            Route::In => in_leg(bounds, rules, table, translations, view, self.clock),
            Route::Hairpin => hairpin_leg(bounds, rules, table, translations, view, self.clock),
        }
    }
}
