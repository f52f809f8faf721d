//! `Core`: all the state of a gateway (the text in force and its rules, the sessions, the clock), and the step
//! that an event does to it. It gives no numbers and holds nothing: that is for the crates above.
//!
//! - `step_noted`: `judge` reads the text of a load, and then the state does the step (`State::age`,
//!   `State::answer_deed`).
//! - `take_packet`: the step of a packet, where it lies (`State::age`, `State::answer_packet`).
//! - `resume`: begins again from what survived (`in_force_again`, `Flows::of`).
ghost use Rattle.std.specs.Prelude.{◌≡◌, ◌↔◌, ◌+◌, ◌*◌, ◌++◌, [], List, length, IsTrue, IfOk, IfErr, IsOk, OnErr};
ghost use Rattle.packet.specs.Config.{is_config};
ghost use Rattle.machine.specs.Fates.{answer_of};
ghost use Rattle.machine.specs.Judged.{Judged, IsJudged, IsNoLoad};
ghost use Rattle.machine.specs.Machine.{KeepsCount, EndsNone, empty_at, later, step};
ghost use Rattle.durable.specs.Coding.{Entry as Recorded};
ghost use Rattle.durable.specs.Entering.{IsDurable, durable};
ghost use Rattle.machine.specs.Noted.{AreEntriesOf, AreOver, IsResumed};
ghost use Rattle.machine.specs.Sizes.{most_bytes};
ghost use Rattle.sessions.specs.declared.session.Session.{Session};
ghost use Rattle.machine.specs.Sound.{IsSoundState};
ghost use Rattle.machine.specs.declared.event.What.TheVariants.{Packet};

use crate::ahead::is_wide;
use crate::bytes::Bytes;
use crate::deed::judge;
use crate::event::{Answer, Event, Fate, What};
use crate::fault::{NoMemory, StepFault};
use crate::flows::Flows;
use crate::in_force::{InForce, in_force_again};
use crate::notes::{MOST_OF_PACKET, Notes, Unkept};
use crate::state::State;
use packet::{Bounds, Iface};
use sessions::{Coming, MOST_AHEAD, Session};
use std::alloc::Global;
use std::marker::Model;
use verdict::Rules;

/// A gateway without numbers and without a disk: its configuration, and the state that events change.
#[derive(Drop)]
pub struct Core {
    alloc: Global,
    state: State,
}

impl Model for Core {
    ghost use Rattle.machine.specs.Core.{Core as View, state_in};

    ghost Value = { View };

    ghost view = { λ c. record { config = c.state.config; state = state_in c.state } };
}

impl Core {
    /// No rules and no session; the clock stands at the moment, in seconds.
    ///
    /// # Errors
    ///
    /// `NoMemory` where memory is refused; then there is no core.
    pub fn start(alloc: Global, bounds: Bounds, moment: u64) -> Result<Core, NoMemory>
        ensures { IfOk result (λ c. c ≡ record { config = bounds; state = empty_at moment }) }
    {
        match Flows::new(alloc, bounds.external()) {
            Ok(flows) => {
                let in_force = InForce {
                    text: Bytes::of(Vec::new(alloc)),
                    rules: Rules::none(alloc),
                };
                let state = State {
                    bounds,
                    in_force,
                    flows,
                    clock: moment,
                };
                Ok(Core { alloc, state })
            }
            Err(_) => Err(NoMemory),
        }
    }

    /// Begins again from a text and sessions that survived: every session's last packet passed at the moment, in
    /// seconds, which is the clock's.
    ///
    /// # Errors
    ///
    /// `NoMemory` where memory is refused; then there is no core.
    pub fn resume(
        alloc: Global,
        bounds: Bounds,
        text: Vec<u8>,
        sessions: &[Session],
        moment: u64,
    ) -> Result<Core, NoMemory>
        requires { IsDurable bounds (durable text.items sessions.now) }
        ensures config { IfOk result (λ c. c.config ≡ bounds) }
        ensures state { IfOk result (λ c. IsResumed bounds (durable text.items sessions.now)
            moment c.state) }
    {
        let in_force = in_force_again(alloc, &bounds, text)?;
        match Flows::of(alloc, &bounds, sessions, moment) {
            Ok(flows) => {
                let state = State {
                    bounds,
                    in_force,
                    flows,
                    clock: moment,
                };
                Ok(Core { alloc, state })
            }
            Err(_) => Err(NoMemory),
        }
    }

    /// The text that loaded last; before any has, the empty one.
    pub fn text(&self) -> &[u8]
        ensures { result.now ≡ self.now.state.text }
    {
        self.state.in_force.text.as_slice()
    }

    /// The sessions, in the order of protocol number, inside and remote endpoint.
    ///
    /// # Errors
    ///
    /// `NoMemory` where memory for the list is refused. Nothing changes.
    pub fn sessions(&self) -> Result<Vec<Session>, NoMemory>
        ensures { IfOk result (λ sessions. sessions.items ≡ self.now.state.sessions) }
    {
        match self.state.flows.list(self.alloc) {
            Ok(sessions) => Ok(sessions),
            Err(_) => Err(NoMemory),
        }
    }

    /// Drops the core, here, where that is proved already: a crate that drops one itself proves it anew of each part.
    pub fn discard(self) {}

    /// What every core keeps: its bounds are a configuration, and its state is sound. It does nothing but carry these
    /// facts.
    pub fn facts(&self)
        ensures config { IsTrue (is_config self.now.config) }
        ensures sound { IsSoundState self.now.config self.now.state }
    {
        self.state.bounds.facts();
    }

    /// Does a step: the clock rises to the event's moment, the sessions that are no longer alive end, and then
    /// the text is taken or refused, or the packet passes or is dropped.
    ///
    /// # Errors
    ///
    /// `NoMemory` where memory is refused, which happens only where a text is read, or a session ends or begins.
    /// The event comes back, and nothing has changed.
    pub fn step(&mut self, event: Event) -> Result<Answer, (Event, NoMemory)>
        ensures ok { IfOk result (λ answer. (judged : Judged)
            × IsJudged self.old.config event judged
            × (step self.old.config self.old.state judged ≡ (self.new.state, answer))) }
        ensures config { self.new.config ≡ self.old.config }
        ensures err { IfErr result (λ e. (e.0 ≡ event) × (self.new ≡ self.old)) }
        ensures succeeds { IsNoLoad event.what → (judged : Judged)
            → IsJudged self.old.config event judged
            → EndsNone (later self.old.state.clock event.moment) self.old.state
            → KeepsCount self.old.state (step self.old.config self.old.state judged) → IsOk result }
    {
        match self.step_noted(event, &mut Unkept) {
            Ok(answer) => Ok(answer),
            Err((event, _)) => Err((event, NoMemory)),
        }
    }

    /// Does a step, as `step` does, and notes the entries by which it changes what must survive.
    ///
    /// # Errors
    ///
    /// `NoMemory` where memory is refused: for a text that is read, sessions that end or begin, or entries; where no
    /// text comes, and no session ends or begins, only where the entries fit. `Full` only where the entries don't fit:
    /// 14 bytes for each session that ends, and 44 for a packet, however few it needs (two sessions that it begins need
    /// as many), or 5 and the text for a load. One that needs none, where none ends, isn't refused so. The event comes
    /// back, and nothing has changed; nor has what is noted.
    // Compiled into its callers, so that the event isn't put down in memory for it.
    #[inline(always)]
    pub fn step_noted<N: Notes>(
        &mut self,
        event: Event,
        notes: &mut N,
    ) -> Result<Answer, (Event, StepFault)>
        ensures ok { IfOk result (λ answer. (judged : Judged)
            × IsJudged self.old.config event judged
            × (step self.old.config self.old.state judged ≡ (self.new.state, answer))
            × (N.keeps notes.old → (entries : List Recorded)
            × AreEntriesOf self.old.config self.old.state judged entries
            × (N.noted notes.new ≡ N.noted notes.old ++ entries))) }
        ensures config { self.new.config ≡ self.old.config }
        ensures keeps { N.keeps notes.old ↔ N.keeps notes.new }
        ensures beside { N.beside notes.new ≡ N.beside notes.old }
        ensures err { IfErr result (λ e. (e.0 ≡ event) × (self.new ≡ self.old)) }
        ensures err_noted { OnErr result (N.noted notes.new ≡ N.noted notes.old) }
        ensures full { IfErr result (λ e. e.1 ≡ StepFault.Full
            → (judged : Judged) × IsJudged self.old.config event judged
            × (gone : List Session)
            × AreOver (later self.old.state.clock event.moment) self.old.state.sessions gone
            × N.too_many notes.old (14 * length gone + most_bytes judged.deed)) }
        ensures no_memory { IsNoLoad event.what → (judged : Judged)
            → IsJudged self.old.config event judged
            → EndsNone (later self.old.state.clock event.moment) self.old.state
            → KeepsCount self.old.state (step self.old.config self.old.state judged)
            → IfErr result (λ e. e.1 ≡ StepFault.NoMemory
            → ¬ N.too_many notes.old (most_bytes judged.deed)) }
        ensures succeeds { IsNoLoad event.what → (judged : Judged)
            → IsJudged self.old.config event judged
            → EndsNone (later self.old.state.clock event.moment) self.old.state
            → KeepsCount self.old.state (step self.old.config self.old.state judged)
            → N.grants notes.old → IsOk result }
        ensures quiet { IsNoLoad event.what → (judged : Judged)
            → IsJudged self.old.config event judged
            → AreEntriesOf self.old.config self.old.state judged [] → IsOk result }
    {
        let Event { moment, what } = event;
        let clock = self.state.clock();
        let deed = match judge(self.alloc, self.state.bounds(), what) {
            Ok(deed) => deed,
            Err(text) => {
                let what = What::Load(text);
                return Err((Event { moment, what }, StepFault::NoMemory));
            }
        };
        match self.state.age(self.alloc, moment, deed.most_bytes(), notes) {
            Ok(ready) => match self.state.answer_deed(ready, deed, notes) {
                Ok(answer) => Ok(answer),
                Err((what, fault)) => {
                    self.state.put_back(clock);
                    Err((Event { moment, what }, fault))
                }
            },
            Err(fault) => {
                let what = deed.into_what();
                Err((Event { moment, what }, fault))
            }
        }
    }

    /// Does the step of a packet's event, as `step_noted` does, where the packet lies: one that leaves is translated
    /// there, and none of its bytes is copied. The moment is in seconds.
    ///
    /// # Errors
    ///
    /// Those of `step_noted`. Nothing has changed, the packet neither; nor has what is noted.
    #[inline(always)]
    pub fn take_packet<N: Notes>(
        &mut self,
        moment: u64,
        iface: Iface,
        packet: &mut [u8],
        notes: &mut N,
    ) -> Result<Fate, StepFault>
        ensures ok { IfOk result (λ fate. (judged : Judged)
            × IsJudged self.old.config
            (record { moment = moment; what = Packet iface packet.old }) judged
            × (step self.old.config self.old.state judged
            ≡ (self.new.state, answer_of fate packet.new))
            × (N.keeps notes.old → (entries : List Recorded)
            × AreEntriesOf self.old.config self.old.state judged entries
            × (N.noted notes.new ≡ N.noted notes.old ++ entries))) }
        ensures err { OnErr result ((self.new ≡ self.old) × (packet.new ≡ packet.old)
            × (N.noted notes.new ≡ N.noted notes.old)) }
        ensures config { self.new.config ≡ self.old.config }
        ensures keeps { N.keeps notes.old ↔ N.keeps notes.new }
        ensures beside { N.beside notes.new ≡ N.beside notes.old }
        ensures length { length packet.new ≡ length packet.old }
        ensures full { IfErr result (λ e. e ≡ StepFault.Full → (judged : Judged)
            × IsJudged self.old.config
            (record { moment = moment; what = Packet iface packet.old }) judged
            × (gone : List Session)
            × AreOver (later self.old.state.clock moment) self.old.state.sessions gone
            × N.too_many notes.old (14 * length gone + most_bytes judged.deed)) }
        ensures no_memory { (judged : Judged)
            → IsJudged self.old.config
            (record { moment = moment; what = Packet iface packet.old }) judged
            → EndsNone (later self.old.state.clock moment) self.old.state
            → KeepsCount self.old.state (step self.old.config self.old.state judged)
            → IfErr result (λ e. e ≡ StepFault.NoMemory
            → ¬ N.too_many notes.old (most_bytes judged.deed)) }
        ensures succeeds { (judged : Judged)
            → IsJudged self.old.config
            (record { moment = moment; what = Packet iface packet.old }) judged
            → EndsNone (later self.old.state.clock moment) self.old.state
            → KeepsCount self.old.state (step self.old.config self.old.state judged)
            → N.grants notes.old → IsOk result }
        ensures quiet { (judged : Judged)
            → IsJudged self.old.config
            (record { moment = moment; what = Packet iface packet.old }) judged
            → AreEntriesOf self.old.config self.old.state judged [] → IsOk result }
    {
        let clock = self.state.clock();
        match self.state.age(self.alloc, moment, MOST_OF_PACKET, notes) {
            Ok(ready) => match self.state.answer_packet(ready, iface, packet, notes) {
                Ok(fate) => Ok(fate),
                Err(fault) => {
                    self.state.put_back(clock);
                    Err(fault)
                }
            },
            Err(fault) => Err(fault),
        }
    }

    /// Whether so many sessions have been held at once that a processor's near caches don't hold all of them.
    pub fn is_wide(&self) -> bool {
        is_wide(self.state.flows.table())
    }

    /// How many of these packets seem to be of sessions that are held, or of an inside endpoint that has a mapping. It
    /// says nothing of what is: whoever asks before they come waits once for the memory that their steps will read.
    pub fn look_ahead(&self, coming: &[Coming; MOST_AHEAD]) -> usize {
        self.state.flows.look_ahead(coming)
    }
}
