//! `Gateway`: a `Core`, which has all the state and does the steps (crate `machine`), a `Store`, which keeps in two
//! files what must survive of it (crate `snapshot`), and the answers that are held between them (`Pending`).
//!
//! - `open`: `Store::open` reads the files, and `resume_core` has a core begin again from what they stood for.
//! - `offer`: `Core::step_noted` does the step and has `Pending` note its entries; `give` answers at once, or holds.
//! - `take_event`: the same for a load or a moment (`take_whole`), whose answer is told in either case.
//! - `take_packet`: so for a packet where it lies, by `Core::take_packet` and `give`.
//! - `flush`: `Store::commit` syncs the group of `Pending`, and `Pending::release` gives what was held (`sync`).
//! - `settle`: as `flush`, but what was held is let go: its caller has it already.
//! - `compact`: `Store::compact` makes a file of what must survive (`lasting_sessions`), with no groups.
//! - `run`: `running::take_all` does these calls for a list of events.
ghost use Rattle.std.specs.Prelude.{◌≡◌, ◌≢◌, ◌↔◌, ◌⊎◌, ◌+◌, ◌-◌, ◌^◌, ◌<◌, ◌≤◌, ◌++◌, ◌∷◌, [], ℕ, List, IfOk, IfErr, IfNone, IfSome, OnOk, OnErr, OnSome, IsOk, IsErrOf, MatchResult, IsTrue, length, true, false};
ghost use Rattle.packet.specs.Config.{is_config};
ghost use Rattle.disk_model.specs.Disk.{Leaves, LeavesNow, LeavesOnly, Looks, Same, Called, Grew, HasCause};
ghost use Rattle.durable.specs.Coding.{Entry, body_bytes};
ghost use Rattle.durable.specs.Entering.{Durable, IsDurable};
ghost use Rattle.durable.specs.Recovery.{Alike, IsConfigured, IsCurrent, NoneOpen, Recovers};
ghost use Rattle.snapshot.specs.Store.{HasLatest, IsLastFormer, MakesFirst, MayWrite, Migrates, RecoversEither};
ghost use Rattle.machine.specs.Judged.{Judged, IsJudged, IsNoLoad};
ghost use Rattle.machine.specs.Machine.{KeepsCount, EndsNone, later, step};
ghost use Rattle.machine.specs.Sizes.{most_bytes};
ghost use Rattle.machine.specs.Noted.{AreEntriesOf, HasEntry, IsResumed, lasting};
ghost use Rattle.machine.specs.Sound.{IsSoundState};
ghost use Rattle.machine.specs.declared.event.What.TheVariants.{Packet};
ghost use Rattle.gateway.specs.Given.{IsNow, answer_given, packet_of};
ghost use Rattle.gateway.specs.Syncing.{Syncs, end_of};
ghost use Rattle.gateway.specs.Told.{Took, TookAll, TookFirst};
ghost use Rattle.gateway.specs.Kept.{GroupsEndAt, IsAtRest, IsRoomy, IsSafe, IsTooMuch};
ghost use Rattle.machine.specs.declared.event.Answer.{Answer};
ghost use Rattle.gateway.specs.Running.{BreaksOff, CarriesOn, SafeThrough, StopsWithin};
ghost use Rattle.gateway.specs.Taking.{IsNoPacket, Refuses, TakesInPlace};

use crate::fault::{why_not_compacted, why_refused};
use crate::given::{give, parts_of, with_answer};
use crate::pending::{MOST_HELD, Pending};
use crate::running::take_all;
use crate::surviving::{lasting_sessions, resume_core};
use crate::{GatewayFault, Given, GivenInPlace, OpenFault};
use disk_model::Disk;
use machine::laws::events_are_judged_once;
use machine::{Answer, Bytes, Coming, Core, Event, Iface, MOST_AHEAD, NoMemory, What};
use packet::Bounds;
use sessions::Session;
use snapshot::{CommitFault, Opened, Store};
use std::alloc::Global;
use std::marker::Model;

/// The gateway. Events that are taken have the numbers 1, 2, .. since it was opened. Moments are in seconds.
///
/// What must survive is the text that loaded last, and the sessions without when their last packets passed. The answer
/// of an event that changes it is held until a `flush` has synced the change and hands it out, or a `settle` has synced
/// it and lets it go.
#[derive(Drop)]
pub struct Gateway<D: Disk + Drop> {
    alloc: Global,
    store: Store<D>,
    core: Core,
    last: u64,
    pending: Pending,
    migrated: bool,
    /// Whether each answer that is held was told in place.
    in_place: bool,
}

impl<D: Disk + Drop> Model for Gateway<D> {
    ghost use Rattle.std.specs.Prelude.{◌≡◌, ◌+◌, [], length, false, true};
    ghost use Rattle.durable.specs.Coding.{body_bytes};
    ghost use Rattle.gateway.specs.Kept.{Kept, LeadsToPresent};

    ghost Value = { Kept D };

    ghost view = { λ g. record {
      disk = g.store.disk;
      fallen = g.store.fallen;
      generation = g.store.generation;
      grown = g.store.grown;
      migrated = g.migrated;
      in_place = g.in_place;
      filled = g.pending.place + length (body_bytes g.pending.entries);
      told = record {
        config = g.core.config;
        state = g.core.state;
        last = g.last;
        held = g.pending.held;
      };
    } };

    ghost invariant = { λ g. (g.store.config ≡ g.core.config)
        × (g.pending.held ≡ [] → g.pending.entries ≡ [])
        × (g.store.fallen ≡ false → g.pending.place ≡ g.store.end)
        × (g.store.fallen ≡ false → D.honest g.store.disk
        → LeadsToPresent g.core.config (D.seen g.store.disk) g.pending.entries g.core.state)
        × (g.pending.held ≡ [] → g.in_place ≡ true) };
}

impl<D: Disk + Drop> Gateway<D> {
    /// Opens the gateway that two files keep. Nothing is held, and no number is given yet. The last packet of each
    /// session is taken to have passed at this moment, in seconds, which is the clock's. Both files are synced, then
    /// read. Where neither gate is open, file A is made anew, for no text and no session; where the active file is of a
    /// former version, the other one is made anew for the same state.
    ///
    /// # Errors
    ///
    /// The disk comes back. The files stand for what they stood for, and only `Device` and `NoMemory` may change them.
    /// - `Device` if a call of the disk has failed, which is the last one made.
    /// - `Damaged` only if the files, as they read, stand for no state.
    /// - `ConfigDiffers` only if they stand for one, and the active file has another configuration than these bounds.
    /// - `Generations` only if the active file has these bounds, is of a former version, and of the last generation.
    /// - `NoMemory` if memory is refused.
    ///
    /// Such files are always refused so, unless memory is refused or a call of the disk fails.
    pub fn open(
        alloc: Global,
        disk: D,
        bounds: Bounds,
        moment: u64,
    ) -> Result<Gateway<D>, (D, OpenFault)>
        ensures honest { MatchResult result (λ g. D.honest disk ↔ D.honest g.disk)
            (λ e. D.honest e.0 → D.honest disk) }
        ensures stays_honest { IfErr result (λ e. ¬ (e.1 ≡ OpenFault.Device)
            → D.honest disk → D.honest e.0) }

        // Whatever a crash leaves since the entry stands for what some pair left at the entry stands for.
        ensures any_moment { D.honest disk
            → MatchResult result (λ g. Leaves D.moment D.left disk g.disk Alike)
            (λ e. Leaves D.moment D.left disk e.0 Alike) }

        // Where each pair left at the entry has this configuration in its active file, if it has one, so has each
        // since.
        ensures configured { D.honest disk → LeavesNow D.moment D.left disk (IsConfigured bounds)
            → MatchResult result (λ g. LeavesOnly D.moment D.left disk g.disk (IsConfigured bounds))
            (λ e. LeavesOnly D.moment D.left disk e.0 (IsConfigured bounds)) }

        // The state is begun again from what the files stood for, which a crash leaves from now on.
        ensures ok { D.honest disk → IfOk result (λ g. (d : Durable) × Recovers (D.seen disk) d
            × IsResumed bounds d moment g.told.state
            × LeavesNow D.moment D.left g.disk (λ files. Recovers files d)) }
        ensures had_config { D.honest disk → OnOk result (IsConfigured bounds (D.seen disk)) }
        ensures had_generation { D.honest disk → OnOk result (¬ IsLastFormer bounds (D.seen disk)) }

        // If no file is open, file A is made anew, of the first generation. Current files are only looked at.
        ensures first { D.honest disk → NoneOpen (D.seen disk)
            → IfOk result (λ g. MakesFirst bounds (D.seen disk) (D.seen g.disk)) }
        ensures generation { D.honest disk → NoneOpen (D.seen disk)
            → IfOk result (λ g. g.generation ≡ 1) }
        ensures only_looks { D.honest disk → ¬ NoneOpen (D.seen disk) → IsCurrent (D.seen disk)
            → IfOk result (λ g. Looks D.moment D.left D.seen disk g.disk) }

        // Where the active file is of a former version, the other one is made anew for the same state; from then on a
        // crash leaves an active file of the version that is written.
        ensures migrated { D.honest disk
            → IfOk result (λ g. Migrates bounds (D.seen disk) (D.seen g.disk)) }
        ensures was { D.honest disk
            → IfOk result (λ g. IsTrue g.migrated ↔ ¬ IsCurrent (D.seen disk)) }
        ensures current { D.honest disk
            → IfOk result (λ g. LeavesNow D.moment D.left g.disk HasLatest) }
        ensures config { IfOk result (λ g. g.told.config ≡ bounds) }

        // Whatever the disk: the state is one that survives, begun again at the moment.
        ensures resumed { IfOk result (λ g. (d : Durable) × IsDurable bounds d
            × IsResumed bounds d moment g.told.state) }
        ensures last { IfOk result (λ g. g.told.last ≡ 0) }
        ensures none { IfOk result (λ g. g.told.held ≡ []) }
        ensures stands { IfOk result (λ g. g.fallen ≡ false) }
        ensures damaged { D.honest disk → IfErr result (λ e. e.1 ≡ OpenFault.Damaged → (d : Durable)
            → ¬ Recovers (D.seen disk) d) }
        ensures differs { D.honest disk → IfErr result (λ e. e.1 ≡ OpenFault.ConfigDiffers
            → (d : Durable) × Recovers (D.seen disk) d × ¬ IsConfigured bounds (D.seen disk)) }
        ensures generations { D.honest disk → IfErr result (λ e. e.1 ≡ OpenFault.Generations
            → IsLastFormer bounds (D.seen disk)) }
        ensures looks { D.honest disk → IfErr result (λ e. (e.1 ≡ OpenFault.Damaged)
            ⊎ (e.1 ≡ OpenFault.ConfigDiffers) ⊎ (e.1 ≡ OpenFault.Generations)
            → Looks D.moment D.left D.seen disk e.0) }

        // Over all other files nothing is written, whatever is answered and wherever the call is stopped.
        ensures unwritten { D.honest disk → ¬ MayWrite bounds (D.seen disk)
            → MatchResult result (λ g. Leaves D.moment D.left disk g.disk Same)
            (λ e. Leaves D.moment D.left disk e.0 Same) }

        // No call of the disk follows one that has failed, since that one might fail too.
        ensures cause { MatchResult result (λ g. D.failed g.disk ≡ D.failed disk)
            (λ e. HasCause (D.failed disk) (D.failed e.0) (e.1 ≡ OpenFault.Device)) }
    {
        match Store::open(alloc, disk, &bounds) {
            Ok(
                Opened {
                    store,
                    text,
                    sessions,
                    migrated,
                },
            ) => match resume_core(
                alloc,
                bounds,
                text,
                sessions.as_slice(),
                moment,
                store.end(),
            ) {
                Ok((core, pending)) => Ok(Gateway {
                    alloc,
                    store,
                    core,
                    last: 0,
                    pending,
                    migrated,
                    in_place: true,
                }),
                Err(NoMemory) => Err((store.into_disk(), OpenFault::NoMemory)),
            },
            Err(refused) => Err(refused),
        }
    }

    /// Whether the opening found a file of a former version, and made the other one anew for its state.
    pub fn has_migrated(&self) -> bool
        ensures { result ≡ self.now.migrated }
    {
        self.migrated
    }

    /// The text that loaded last; before any has, the empty one.
    pub fn text(&self) -> &[u8]
        ensures { result.now ≡ self.now.told.state.text }
    {
        self.core.text()
    }

    /// The sessions after the last event that was taken, in the order of protocol number, inside and remote endpoint.
    ///
    /// # Errors
    ///
    /// `NoMemory` where memory for the list is refused. Nothing changes.
    pub fn sessions(&self) -> Result<Vec<Session>, NoMemory>
        ensures { IfOk result (λ sessions. sessions.items ≡ self.now.told.state.sessions) }
    {
        self.core.sessions()
    }

    /// What every gateway keeps: its bounds are a configuration, its state is sound, and its last number has 64 bits.
    /// It does nothing but carry these facts.
    pub fn facts(&self)
        ensures config { IsTrue (is_config self.now.told.config) }
        ensures sound { IsSoundState self.now.told.config self.now.told.state }
        ensures last { self.now.told.last < 2 ^ 64 }
    {
        self.core.facts();
        fits(self.last);
    }

    /// The number of the last event that was taken; 0 before any was.
    pub fn last(&self) -> u64
        ensures { result ≡ self.now.told.last }
    {
        self.last
    }

    /// How many answers are held, at most 64.
    pub fn held(&self) -> usize
        ensures value { result ≡ length self.now.told.held }
        ensures few { result ≤ 64 }

        // Their group, and the closed gate behind it, end within the greatest length of a file.
        ensures fits { self.now.told.held ≢ [] → self.now.filled + 6 ≤ 67108864 }
        ensures in_place { self.now.told.held ≡ [] → self.now.in_place ≡ true }
    {
        self.pending.len()
    }

    /// How many bytes of groups the active file has: 5 and the body for each.
    pub fn grown(&self) -> u64
        ensures { result ≡ self.now.grown }
    {
        self.store.grown()
    }

    /// Whether a call of the disk has failed. Then nothing changes any more; `into_disk` gives the disk back.
    pub fn has_fallen(&self) -> bool
        ensures value { result ≡ self.now.fallen }

        // Until then the files stand for one state, whatever a crash leaves now; the present one, where nothing is
        // held.
        ensures stands { result ≡ false → D.honest self.now.disk
            → (durable : Durable) × Recovers (D.seen self.now.disk) durable
            × LeavesNow D.moment D.left self.now.disk (λ files. Recovers files durable) }
        ensures present { result ≡ false → D.honest self.now.disk → self.now.told.held ≡ []
            → Recovers (D.seen self.now.disk) (lasting self.now.told.state) }
        ensures configured { result ≡ false → D.honest self.now.disk
            → LeavesNow D.moment D.left self.now.disk (IsConfigured self.now.told.config) }
        ensures groups { result ≡ false → D.honest self.now.disk → (end : ℕ)
            × GroupsEndAt (D.seen self.now.disk) self.now.generation self.now.grown end
            × (end ≤ self.now.filled) }
        ensures filled { result ≡ false → D.honest self.now.disk → self.now.told.held ≡ []
            → GroupsEndAt (D.seen self.now.disk) self.now.generation self.now.grown
            self.now.filled }
    {
        self.store.has_fallen()
    }

    /// Gives the disk back. Answers that are held are lost. So are the changes of their events, unless a call of the
    /// disk has failed: then all of them are kept, or none.
    pub fn into_disk(self) -> D
        ensures { result ≡ self.disk }
    {
        let Gateway { core, store, .. } = self;
        core.discard();
        store.into_disk()
    }

    /// Takes an event and gives it the next number. It is answered at once exactly where nothing is held and the event
    /// has no entry: no session ends, no text is taken, and nothing that must survive changes; otherwise its answer is
    /// held. No call of the disk is made.
    ///
    /// # Errors
    ///
    /// The event comes back, and nothing has changed: it has no number, the clock stays, and no session ends. The first
    /// three come in this order, and before the others.
    /// - `Reopen` exactly where a call of the disk has failed before.
    /// - `NumbersOut` exactly where the last number was 2^64 - 1.
    /// - `HeldFull` exactly where 64 answers are held.
    /// - `Full` only where the entries that wait, those of this event, and 6 bytes around their group would end past
    ///   the greatest length of a file. The entries of this event are counted as 14 bytes for each session that ends,
    ///   and 44 for a packet, however few it needs (two sessions that it begins need as many), or 5 and the text for a
    ///   text that loads. An event that has no entry isn't refused so.
    /// - `NoMemory` where memory is refused; never where the event brings no text and has no entry. Where it brings no
    ///   text, and no session ends or begins, it comes only where its entries fit; elsewhere it may come although they
    ///   don't.
    #[inline(always)]
    pub fn offer(&mut self, event: Event) -> Result<Given, (Event, GatewayFault)>
        ensures disk { self.new.disk ≡ self.old.disk }
        ensures fallen { self.new.fallen ≡ self.old.fallen }
        ensures generation { self.new.generation ≡ self.old.generation }
        ensures grown { self.new.grown ≡ self.old.grown }
        ensures took { IfOk result (λ given. Took self.old.told self.new.told event given) }
        ensures now { IfOk result (λ given. (judged : Judged)
            → IsJudged self.old.told.config event judged
            → IsNow given ↔ ((self.old.told.held ≡ [])
            × ¬ HasEntry self.old.told.config self.old.told.state judged)) }

        // What waits has grown by the entries of the event.
        ensures filled { OnOk result ((judged : Judged) × (entries : List Entry)
            × IsJudged self.old.told.config event judged
            × AreEntriesOf self.old.told.config self.old.told.state judged entries
            × (self.new.filled ≡ self.old.filled + length (body_bytes entries))) }

        // An answer that it holds is not told.
        ensures in_place { OnOk result (self.new.in_place ≡ true → self.new.told.held ≡ []) }
        ensures err { IfErr result (λ e. (e.0 ≡ event) × (self.new ≡ self.old)) }
        ensures reopen { IfErr result (λ e. (e.1 ≡ GatewayFault.Reopen)
            ↔ (self.old.fallen ≡ true)) }
        ensures stood { OnOk result (self.old.fallen ≡ false) }
        ensures numbers_out { IfErr result (λ e. (e.1 ≡ GatewayFault.NumbersOut)
            ↔ ((self.old.fallen ≡ false) × (self.old.told.last ≡ 2 ^ 64 - 1))) }
        ensures numbers_left { OnOk result (self.old.told.last < 2 ^ 64 - 1) }
        ensures held_full { IfErr result (λ e. (e.1 ≡ GatewayFault.HeldFull)
            ↔ ((self.old.fallen ≡ false) × (self.old.told.last < 2 ^ 64 - 1)
            × (length self.old.told.held ≡ 64))) }
        ensures held_few { OnOk result (length self.old.told.held < 64) }
        ensures full { IfErr result (λ e. e.1 ≡ GatewayFault.Full
            → IsTooMuch self.old.filled self.old.told.config self.old.told.state event) }
        ensures roomy { IsRoomy self.old.filled → IfErr result (λ e. e.1 ≢ GatewayFault.Full) }

        // A full file is told as such, where memory is asked for the entries alone.
        ensures no_memory { IsNoLoad event.what → (judged : Judged)
            → IsJudged self.old.told.config event judged
            → EndsNone (later self.old.told.state.clock event.moment) self.old.told.state
            → KeepsCount self.old.told.state (step self.old.told.config self.old.told.state judged)
            → IfErr result (λ e. e.1 ≡ GatewayFault.NoMemory
            → self.old.filled + most_bytes judged.deed + 6 ≤ 67108864) }
        ensures causes { IfErr result (λ e. (e.1 ≢ GatewayFault.Device)
            × (e.1 ≢ GatewayFault.Generations)) }

        // Where nothing must be noted an event is taken without memory, also behind answers that are held.
        ensures quiet { self.old.fallen ≡ false → self.old.told.last < 2 ^ 64 - 1
            → length self.old.told.held < 64 → IsNoLoad event.what
            → (judged : Judged) → IsJudged self.old.told.config event judged
            → ¬ HasEntry self.old.told.config self.old.told.state judged → IsOk result }
    {
        match self.take_whole(event) {
            Ok((taken, answer)) => {
                self.in_place = self.pending.is_quiet();
                Ok(with_answer(taken, answer))
            }
            Err((event, fault)) => Err((event, fault)),
        }
    }

    // Takes an event as `offer` does. Its answer comes whole, whether it is held or not.
    fn take_whole(&mut self, event: Event) -> Result<(GivenInPlace, Answer), (Event, GatewayFault)>
        ensures ok { IfOk result (λ r. TakesInPlace self.old self.new event r.0 (packet_of r.1)) }
        ensures whole { IfOk result (λ r. (answer_given r.0 (packet_of r.1)).1 ≡ r.1) }
        ensures bodiless { IsNoPacket event.what → IfOk result (λ r. packet_of r.1 ≡ []) }
        ensures err { IfErr result (λ e. (e.0 ≡ event) × (self.new ≡ self.old)) }
        ensures why { IfErr result (λ e. Refuses self.old event e.1) }
        ensures beside { self.new
            ≡ record self.old { told = self.new.told; filled = self.new.filled } }
    {
        if let Some(fault) = self.why_none() {
            return Err((event, fault));
        }
        self.core.facts();
        events_are_judged_once();
        event.facts();
        match self.core.step_noted(event, &mut self.pending) {
            Ok(answer) => {
                self.last += 1;
                let (fate, packet) = parts_of(&answer);
                let taken = give(&mut self.pending, self.last, fate, packet);
                Ok((taken, answer))
            }
            Err((event, fault)) => Err((event, why_refused(fault))),
        }
    }

    // Why no event can be taken, whatever it is.
    #[inline]
    fn why_none(&self) -> Option<GatewayFault>
        ensures reopen { IfSome result (λ e. (e ≡ GatewayFault.Reopen) ↔ (self.now.fallen ≡ true)) }
        ensures numbers_out { IfSome result (λ e. (e ≡ GatewayFault.NumbersOut)
            ↔ ((self.now.fallen ≡ false) × (self.now.told.last ≡ 2 ^ 64 - 1))) }
        ensures held_full { IfSome result (λ e. (e ≡ GatewayFault.HeldFull)
            ↔ ((self.now.fallen ≡ false) × (self.now.told.last < 2 ^ 64 - 1)
            × (length self.now.told.held ≡ 64))) }
        ensures causes { IfSome result (λ e. (e ≡ GatewayFault.Reopen)
            ⊎ (e ≡ GatewayFault.NumbersOut) ⊎ (e ≡ GatewayFault.HeldFull)) }
        ensures none { IfNone result ((self.now.fallen ≡ false)
            × (self.now.told.last < 2 ^ 64 - 1) × (length self.now.told.held < 64)) }
    {
        if self.store.has_fallen() {
            return Some(GatewayFault::Reopen);
        }
        if self.last == u64::MAX {
            return Some(GatewayFault::NumbersOut);
        }
        if self.pending.len() >= MOST_HELD {
            return Some(GatewayFault::HeldFull);
        }
        None
    }

    /// Takes a packet as `offer` does, where it lies: it is translated there, and what it is answered is told, whether
    /// it is answered at once or its answer is held. No call of the disk is made. The moment is in seconds.
    ///
    /// # Errors
    ///
    /// Those of `offer`. Nothing has changed, the packet neither.
    #[inline(always)]
    pub fn take_packet(
        &mut self,
        moment: u64,
        iface: Iface,
        packet: &mut [u8],
    ) -> Result<GivenInPlace, GatewayFault>
        requires short { length packet.old ≤ 65535 }
        ensures ok { IfOk result (λ taken. TakesInPlace self.old self.new
            (record { moment = moment; what = Packet iface packet.old }) taken packet.new) }
        ensures err { OnErr result ((self.new ≡ self.old) × (packet.new ≡ packet.old)) }
        ensures why { IfErr result (λ e. Refuses self.old
            (record { moment = moment; what = Packet iface packet.old }) e) }

        // No more than this has changed. An answer that it holds counts as told.
        ensures beside { self.new
            ≡ record self.old { told = self.new.told; filled = self.new.filled } }
        ensures length { length packet.new ≡ length packet.old }
    {
        if let Some(fault) = self.why_none() {
            return Err(fault);
        }
        self.core.facts();
        events_are_judged_once();
        match self
            .core
            .take_packet(moment, iface, packet, &mut self.pending)
        {
            Ok(fate) => {
                self.last += 1;
                Ok(give(&mut self.pending, self.last, fate, packet))
            }
            Err(fault) => Err(why_refused(fault)),
        }
    }

    /// Takes an event that brings no packet as `offer` does, and tells what it is answered, as `take_packet` does.
    ///
    /// # Errors
    ///
    /// Those of `offer`. The event comes back, and nothing has changed.
    pub fn take_event(&mut self, event: Event) -> Result<GivenInPlace, (Event, GatewayFault)>
        requires bodiless { IsNoPacket event.what }
        ensures ok { IfOk result (λ taken. TakesInPlace self.old self.new event taken []) }
        ensures err { IfErr result (λ e. (e.0 ≡ event) × (self.new ≡ self.old)) }
        ensures why { IfErr result (λ e. Refuses self.old event e.1) }
        ensures beside { self.new
            ≡ record self.old { told = self.new.told; filled = self.new.filled } }
    {
        match self.take_whole(event) {
            Ok((taken, _)) => Ok(taken),
            Err((event, fault)) => Err((event, fault)),
        }
    }

    // A copy of a text.
    pub(crate) fn copy(&self, text: &[u8]) -> Result<Bytes, NoMemory>
        requires { length text.now < 2 ^ 31 }
        ensures { IfOk result (λ bytes. bytes ≡ text.now) }
    {
        let Ok(bytes) = Vec::from_slice(self.alloc, text) else {
            return Err(NoMemory);
        };
        Ok(Bytes::of(bytes))
    }

    /// Whether so many sessions have been held at once that it serves to look ahead.
    pub fn is_wide(&self) -> bool {
        self.core.is_wide()
    }

    /// How many of these packets seem to be of sessions that are held, or of an inside endpoint that has a mapping. It
    /// says nothing of what is: whoever asks before they are offered waits once for the memory that they will need.
    #[inline(never)]
    pub fn look_ahead(&self, coming: &[Coming; MOST_AHEAD]) -> usize {
        self.core.look_ahead(coming)
    }

    /// Writes the entries of all held events as one group, syncs it, and hands out the held answers, in order, each
    /// with its number. Where nothing is held it hands out none, and no call of the disk is made; where it ends well
    /// otherwise, four are. It takes no memory.
    ///
    /// # Errors
    ///
    /// The answers stay held.
    /// - `Reopen` exactly where a call of the disk has failed before. The disk stays.
    /// - `Device` where a call of the disk has failed, which is the last one made. The gateway has fallen.
    pub fn flush(&mut self) -> Result<Vec<(u64, Answer)>, GatewayFault>
        ensures synced { Syncs D.honest D.moment D.left D.seen D.called D.failed self.old self.new
            (end_of result) }
        ensures answers { IfOk result (λ answers. answers.items ≡ self.old.told.held) }
    {
        self.sync(true)
    }

    /// As `flush`, for whoever has the held answers already, as `take_packet` told them: they are let go. It asks
    /// that each answer that is held was told so.
    ///
    /// # Errors
    ///
    /// Those of `flush`. The answers stay held.
    pub fn settle(&mut self) -> Result<(), GatewayFault>
        requires in_place { self.old.in_place ≡ true }
        ensures synced { Syncs D.honest D.moment D.left D.seen D.called D.failed self.old self.new
            (end_of result) }
        ensures in_place { self.new.in_place ≡ true }
    {
        match self.sync(false) {
            Ok(_) => Ok(()),
            Err(fault) => Err(fault),
        }
    }

    // Syncs the group of what is held, and gives the answers, if they are wanted.
    fn sync(&mut self, wanted: bool) -> Result<Vec<(u64, Answer)>, GatewayFault>
        ensures synced { Syncs D.honest D.moment D.left D.seen D.called D.failed self.old self.new
            (end_of result) }
        ensures answers { wanted ≡ true → IfOk result (λ answers. answers.items
            ≡ self.old.told.held) }
        ensures in_place { self.old.in_place ≡ true → self.new.in_place ≡ true }
    {
        if self.store.has_fallen() {
            return Err(GatewayFault::Reopen);
        }
        if self.pending.is_quiet() {
            return Ok(Vec::new(self.alloc));
        }
        match self.store.commit(self.pending.group()) {
            Ok(()) => {
                self.in_place = true;
                Ok(self.pending.release(self.store.end(), wanted))
            }
            Err(CommitFault::Device) => Err(GatewayFault::Device),
            // The group fits its file (`fits` of `Pending::group`).
            Err(CommitFault::Full) => unreachable!(),
        }
    }

    /// Makes the file that isn't active anew, with a snapshot of what must survive, and no groups; then it is the
    /// active one. It asks that nothing is held. No single event is `Full` then. It makes six calls of the disk.
    ///
    /// # Errors
    ///
    /// - `Reopen` exactly where a call of the disk has failed before. Nothing changes.
    /// - `NoMemory` where memory is refused. Nothing changes.
    /// - `Device` where a call of the disk has failed, which is the last one made. The gateway has fallen; the files
    ///   stand for the same state.
    /// - `Generations` only where the active file has the greatest generation, 2^64 - 1. Nothing changes.
    pub fn compact(&mut self) -> Result<(), GatewayFault>
        requires { self.old.told.held ≡ [] }
        ensures honest { D.honest self.new.disk → D.honest self.old.disk }
        ensures stays_honest { self.new.fallen ≡ false
            → D.honest self.old.disk → D.honest self.new.disk }
        ensures told { self.new.told ≡ self.old.told }
        ensures in_place { self.new.in_place ≡ true }

        // A crash at any moment leaves the present state.
        ensures any_moment { self.old.fallen ≡ false → D.honest self.old.disk
            → LeavesOnly D.moment D.left self.old.disk self.new.disk
            (λ files. Recovers files (lasting self.old.told.state)) }
        ensures configured { self.old.fallen ≡ false → D.honest self.old.disk
            → LeavesOnly D.moment D.left self.old.disk self.new.disk
            (IsConfigured self.old.told.config) }
        ensures grown { OnOk result (self.new.grown ≡ 0) }
        ensures generation { OnOk result (self.new.generation ≡ self.old.generation + 1) }
        ensures generations { IsErrOf result GatewayFault.Generations
            → self.old.generation ≡ 2 ^ 64 - 1 }
        ensures roomy { OnOk result (IsRoomy self.new.filled) }
        ensures stays { IfErr result (λ e. e ≢ GatewayFault.Device → self.new ≡ self.old) }
        ensures reopen { IsErrOf result GatewayFault.Reopen ↔ (self.old.fallen ≡ true) }
        ensures fell { IsErrOf result GatewayFault.Device
            ↔ ((self.old.fallen ≡ false) × (self.new.fallen ≡ true)) }
        ensures causes { IfErr result (λ e. (e ≡ GatewayFault.Reopen) ⊎ (e ≡ GatewayFault.NoMemory)
            ⊎ (e ≡ GatewayFault.Device) ⊎ (e ≡ GatewayFault.Generations)) }
        ensures cause { HasCause (D.failed self.old.disk) (D.failed self.new.disk)
            (IsErrOf result GatewayFault.Device) }
        ensures called { D.honest self.old.disk
            → OnOk result (Called 6 (D.called self.old.disk) (D.called self.new.disk)) }
    {
        if self.store.has_fallen() {
            return Err(GatewayFault::Reopen);
        }
        self.core.facts();
        let Ok(sessions) = lasting_sessions(&self.core) else {
            return Err(GatewayFault::NoMemory);
        };
        match self
            .store
            .compact(self.alloc, self.core.text(), sessions.as_slice())
        {
            Ok(()) => {
                self.in_place = true;
                let _ = self.pending.release(self.store.end(), false);
                Ok(())
            }
            Err(fault) => Err(why_not_compacted(fault)),
        }
    }

    /// Takes the events in turn, and hands out the held answers and theirs, in order, each with its number. Where 64
    /// answers are held it flushes; where an event is refused as `Full` it flushes, compacts, and offers the event
    /// again; and it flushes at the end. Room for the answers is asked for first. A running natgw doesn't call it:
    /// `socket_edge` calls the functions of `running`.
    ///
    /// # Errors
    ///
    /// The answers that were handed out so far, and why the run ended: `Reopen`, `NumbersOut`, `NoMemory`, `Device` or
    /// `Generations`. A beginning of the events is taken; those behind it are not, and don't come back. Answers of
    /// events that were taken and are not handed out stay held. `Reopen` comes exactly where a call of the disk had
    /// failed before the run; then nothing changes.
    pub fn run(
        &mut self,
        events: Vec<Event>,
    ) -> Result<Vec<(u64, Answer)>, (Vec<(u64, Answer)>, GatewayFault)>
        ensures honest { D.honest self.new.disk → D.honest self.old.disk }
        ensures stays_honest { self.new.fallen ≡ false
            → D.honest self.old.disk → D.honest self.new.disk }
        ensures ok { IfOk result (λ answers. TookAll self.old.told self.new.told events.items
            answers.items) }
        ensures none { OnOk result (self.new.told.held ≡ []) }
        ensures err { IfErr result (λ e. TookFirst self.old.told self.new.told events.items
            e.0.items) }

        // A crash at any moment leaves what the model has after a beginning of the events.
        ensures any_moment { IsAtRest D.honest self.old
            → LeavesOnly D.moment D.left self.old.disk self.new.disk
            (IsSafe self.old.told.config self.old.told.state events.items 0) }

        // A crash at the exit leaves that of a beginning which holds every event whose answer was handed out.
        ensures at_exit { IsAtRest D.honest self.old → MatchResult result
            (λ answers. LeavesNow D.moment D.left self.new.disk
            (IsSafe self.old.told.config self.old.told.state events.items
            (length answers.items)))
            (λ e. LeavesNow D.moment D.left self.new.disk
            (IsSafe self.old.told.config self.old.told.state events.items (length e.0.items))) }
        ensures within { self.old.fallen ≡ false
            → IfErr result (λ e. StopsWithin D.honest D.moment D.left D.failed self.old self.new
            events.items e.0.items e.1) }

        // Whatever is held when it begins: any run that stood then, whose answers `before` were handed out, goes on to
        // here, or ends here, with these answers handed out behind them; and none of `before` is lost meanwhile.
        ensures carries { IfOk result (λ answers. (before : List (ℕ × Answer))
            → CarriesOn D.honest D.moment D.left D.failed self.old self.new events.items before
            (before ++ answers.items)) }
        ensures breaks { self.old.fallen ≡ false → IfErr result (λ e. (before : List (ℕ × Answer))
            → BreaksOff D.honest D.moment D.left D.failed self.old self.new events.items before
            (before ++ e.0.items) e.1) }
        ensures through { (before : List (ℕ × Answer))
            → SafeThrough D.honest D.moment D.left D.failed self.old self.new events.items before }

        // After a fault what is left holds no event that wasn't taken.
        ensures through_front { self.old.fallen ≡ false → IfErr result (λ e.
            (stops : StopsWithin D.honest D.moment D.left D.failed self.old self.new events.items
            e.0.items e.1)
            × ((before : List (ℕ × Answer)) → SafeThrough D.honest D.moment D.left D.failed
            self.old self.new stops.front before)) }
        ensures configured { self.old.fallen ≡ false → D.honest self.old.disk
            → LeavesOnly D.moment D.left self.old.disk self.new.disk
            (IsConfigured self.old.told.config) }
        ensures reopen { IfErr result (λ e. (e.1 ≡ GatewayFault.Reopen)
            ↔ (self.old.fallen ≡ true)) }
        ensures reopen_stays { self.old.fallen ≡ true → self.new ≡ self.old }
        ensures stood { OnOk result (self.old.fallen ≡ false) }
        ensures stands { OnOk result (self.new.fallen ≡ false) }
        ensures no_failure { OnOk result (D.failed self.new.disk ≡ D.failed self.old.disk) }
        ensures causes { IfErr result (λ e. (e.1 ≢ GatewayFault.HeldFull)
            × (e.1 ≢ GatewayFault.Full)) }
        ensures numbers_out { IfErr result (λ e. e.1 ≡ GatewayFault.NumbersOut
            → self.new.told.last ≡ 2 ^ 64 - 1) }
        ensures fell { IfErr result (λ e. (e.1 ≡ GatewayFault.Device)
            ↔ ((self.old.fallen ≡ false) × (self.new.fallen ≡ true))) }
        ensures device { IfErr result (λ e. e.1 ≡ GatewayFault.Device
            → Grew (D.failed self.old.disk) (D.failed self.new.disk)) }
        ensures by_one { D.failed self.new.disk ≤ D.failed self.old.disk + 1 }
    {
        if self.has_fallen() {
            return Err((Vec::new(self.alloc), GatewayFault::Reopen));
        }
        let Ok(mut answers) = Vec::with_capacity(self.alloc, self.held() + events.len()) else {
            return Err((Vec::new(self.alloc), GatewayFault::NoMemory));
        };
        match take_all(self, events, &mut answers) {
            Ok(()) => Ok(answers),
            Err(fault) => Err((answers, fault)),
        }
    }
}

// A number of this type has 64 bits.
fn fits(number: u64)
    ensures { number < 2 ^ 64 }
{}
