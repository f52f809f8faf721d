//! The store: two files, of which one is active. It is opened (`open`), commits groups (`commit`), and is compacted
//! (`compact`); once a call of its disk has failed it can only give that back (`into_disk`).
ghost use Rattle.std.specs.Prelude.{◌≡◌, ◌∷◌, ◌+◌, ◌-◌, ◌^◌, ◌<◌, ◌≤◌, ◌↔◌, length, IsTrue, MatchResult, IfOk, IfErr, OnOk, IsErrOf, true, false};
ghost use Rattle.disk_model.specs.Disk.{Elsewhere, Leaves, LeavesNow, LeavesOnly, Looks, Put, Same, Called, HasCause};
ghost use Rattle.disk_model.specs.declared.disk.FileId.{FileId};
ghost use Rattle.durable.specs.Coding.{heading_bytes};
ghost use Rattle.durable.specs.Entering.{Durable, IsDurable, durable, BodyEnters};
ghost use Rattle.durable.specs.Laws.{anew, IsFresh};
ghost use Rattle.durable.specs.Recovery.{Alike, IsConfigured, IsCurrent, NoneOpen, Recovers};
ghost use Rattle.journal.specs.Groups.{sealed};
ghost use Rattle.snapshot.specs.Store.{Keeps, RecoversEither, MakesFirst, MayWrite, Migrates, IsLastFormer, HasLatest, BodyFits};

use crate::closed_heading::closed_heading;
use crate::opening::{Ready, make_ready};
use crate::remaking::{other, remake};
use crate::{CommitFault, CompactFault, OpenFault};
use disk_model::{Disk, FileId};
use journal::{Group, JournalFault, append};
use packet::Bounds;
use sessions::Session;
use std::alloc::Global;
use std::marker::Model;

/// A durable state in the two files of a disk. Places and lengths are in bytes.
///
/// Until a call of the disk has failed both files are synced, and one of them is active and holds the state (`Rests`).
#[derive(Drop)]
pub struct Store<D: Disk + Drop> {
    disk: D,
    bounds: Bounds,
    active: FileId,
    generation: u64,
    /// The place behind the heading of the active file, where its groups begin.
    start: u64,
    /// The place of the closed gate behind these groups.
    end: u64,
    fallen: bool,
}

impl<D: Disk + Drop> Model for Store<D> {
    ghost use Rattle.std.specs.Prelude.{◌≡◌, ◌-◌, false};
    ghost use Rattle.durable.specs.Entering.{Durable};
    ghost use Rattle.durable.specs.Recovery.{behind};
    ghost use Rattle.snapshot.specs.Store.{Stored, Rests};

    ghost Value = { Stored D };

    ghost view = { λ s. record {
      disk = s.disk;
      fallen = s.fallen;
      config = s.bounds;
      generation = s.generation;
      grown = s.end - s.start;
      end = s.end;
    } };

    ghost invariant = { λ s. s.fallen ≡ false → D.honest s.disk
        → (d : Durable) × (rests : Rests D.moment D.left D.seen (record {
          disk = s.disk;
          fallen = s.fallen;
          config = s.bounds;
          generation = s.generation;
          grown = s.end - s.start;
          end = s.end;
        }) s.active d) × (s.start ≡ behind rests.heading) };
}

/// A store, and the state that its files held.
#[derive(Drop)]
pub struct Opened<D: Disk + Drop> {
    pub store: Store<D>,
    /// The text that was loaded last, empty where none was.
    pub text: Vec<u8>,
    /// The sessions, in the order of `Table::list`. `last` is 0 in each of them.
    pub sessions: Vec<Session>,
    /// Whether the active file was of a former version, and the other one was made anew for its state.
    pub migrated: bool,
}

impl<D: Disk + Drop> Store<D> {
    /// Opens the store that two files hold. Both are synced, then read. Where neither gate is open, file A is made
    /// anew, for no text and no session. Where the active file is of a former version, the other one is made anew for
    /// the same state. All other files are never written, those of another configuration and damaged ones too.
    ///
    /// # Errors
    ///
    /// The disk comes back.
    ///
    /// - `Device` where a call of the disk has failed, which is the last one made. The files stand for what they stood
    ///   for.
    /// - `Damaged` only where the files, as they read, stand for no state. They are not changed.
    /// - `ConfigDiffers` only where they stand for one, and the active file has another configuration than these
    ///   bounds. They are not changed.
    /// - `Generations` only where the active file has these bounds and is of a former version, and there is no generation
    ///   behind its own. They are not changed.
    /// - `NoMemory` where memory is refused. They are not changed.
    ///
    /// Where the files stand for no state, the active one has another configuration, or it can't be made anew, `Damaged`,
    /// `ConfigDiffers` or `Generations` comes, unless memory is refused or a call of the disk fails.
    pub fn open(alloc: Global, disk: D, bounds: &Bounds) -> Result<Opened<D>, (D, OpenFault)>
        ensures honest { MatchResult result (λ o. D.honest disk ↔ D.honest o.store.disk)
            (λ e. D.honest e.0 → D.honest disk) }
        ensures stays_honest { IfErr result (λ e. ¬ (e.1 ≡ OpenFault.Device)
            → D.honest disk → D.honest e.0) }

        // Whatever a crash leaves since the entry stands for what some pair left at the entry stands for.
        ensures any_moment { D.honest disk
            → MatchResult result (λ o. Leaves D.moment D.left disk o.store.disk Alike)
            (λ e. Leaves D.moment D.left disk e.0 Alike) }

        // Where each pair left at the entry has this configuration in its active file, if it has one, so has each
        // since.
        ensures configured { D.honest disk
            → LeavesNow D.moment D.left disk (IsConfigured bounds.now)
            → MatchResult result
            (λ o. LeavesOnly D.moment D.left disk o.store.disk (IsConfigured bounds.now))
            (λ e. LeavesOnly D.moment D.left disk e.0 (IsConfigured bounds.now)) }

        // It is kept what the files stood for as they read, and that is what is answered.
        ensures ok { D.honest disk
            → IfOk result (λ o. Recovers (D.seen disk) (durable o.text.items o.sessions.items)
            × Keeps D.moment D.left D.seen o.store (durable o.text.items o.sessions.items)) }
        // Over any disk it is a state that a gateway with these bounds may have.
        ensures sound { IfOk result (λ o. IsDurable bounds.now
            (durable o.text.items o.sessions.items)) }
        ensures had_config { D.honest disk → OnOk result (IsConfigured bounds.now (D.seen disk)) }
        ensures had_generation { D.honest disk
            → OnOk result (¬ IsLastFormer bounds.now (D.seen disk)) }

        // Where no file is open, file A is made anew, of the first generation. Where the active one is of the version
        // that is written, both are only looked at.
        ensures first { D.honest disk → NoneOpen (D.seen disk)
            → IfOk result (λ o. MakesFirst bounds.now (D.seen disk) (D.seen o.store.disk)) }
        ensures generation { D.honest disk → NoneOpen (D.seen disk)
            → IfOk result (λ o. o.store.generation ≡ 1) }
        ensures only_looks { D.honest disk → ¬ NoneOpen (D.seen disk) → IsCurrent (D.seen disk)
            → IfOk result (λ o. Looks D.moment D.left D.seen disk o.store.disk) }

        // Where the active file is of a former version, the other one is made anew for the same state, and whatever a
        // crash leaves from then on has an active file of the version that is written.
        ensures migrated { D.honest disk
            → IfOk result (λ o. Migrates bounds.now (D.seen disk) (D.seen o.store.disk)) }
        ensures was { D.honest disk
            → IfOk result (λ o. IsTrue o.migrated ↔ ¬ IsCurrent (D.seen disk)) }
        ensures current { D.honest disk
            → IfOk result (λ o. LeavesNow D.moment D.left o.store.disk HasLatest) }
        ensures stands { IfOk result (λ o. o.store.fallen ≡ false) }
        ensures config { IfOk result (λ o. o.store.config ≡ bounds.now) }
        ensures damaged { D.honest disk → IfErr result (λ e. e.1 ≡ OpenFault.Damaged → (d : Durable)
            → ¬ Recovers (D.seen disk) d) }
        ensures differs { D.honest disk → IfErr result (λ e. e.1 ≡ OpenFault.ConfigDiffers
            → (d : Durable) × Recovers (D.seen disk) d × ¬ IsConfigured bounds.now (D.seen disk)) }
        ensures generations { D.honest disk → IfErr result (λ e. e.1 ≡ OpenFault.Generations
            → IsLastFormer bounds.now (D.seen disk)) }
        ensures looks { D.honest disk → IfErr result (λ e. ¬ (e.1 ≡ OpenFault.Device)
            → Looks D.moment D.left D.seen disk e.0) }

        // Over all other files nothing is written, whatever is answered and wherever the call is stopped.
        ensures unwritten { D.honest disk → ¬ MayWrite bounds.now (D.seen disk)
            → MatchResult result (λ o. Leaves D.moment D.left disk o.store.disk Same)
            (λ e. Leaves D.moment D.left disk e.0 Same) }

        // No call follows one that has failed, since that one might fail too.
        ensures cause { MatchResult result (λ o. D.failed o.store.disk ≡ D.failed disk)
            (λ e. HasCause (D.failed disk) (D.failed e.0) (e.1 ≡ OpenFault.Device)) }
    {
        let mut disk = disk;
        match make_ready(alloc, &mut disk, bounds) {
            Ok(ready) => {
                let Ready {
                    file,
                    version: _,
                    migrated,
                    generation,
                    bounds,
                    start,
                    end,
                    text,
                    sessions,
                } = ready;
                let store = Store {
                    disk,
                    bounds,
                    active: file,
                    generation,
                    start,
                    end,
                    fallen: false,
                };
                Ok(Opened {
                    store,
                    text,
                    sessions,
                    migrated,
                })
            }
            Err(fault) => Err((disk, fault)),
        }
    }

    /// Whether a call of the disk has failed. Then nothing changes any more; `into_disk` gives the disk back.
    pub fn has_fallen(&self) -> bool
        ensures value { result ≡ self.now.fallen }

        // Until then the store has a state and its place, and a crash leaves what the files read.
        ensures stands { result ≡ false → D.honest self.now.disk
            → (d : Durable) × Keeps D.moment D.left D.seen self.now d }
        ensures configured { result ≡ false → D.honest self.now.disk
            → LeavesNow D.moment D.left self.now.disk (IsConfigured self.now.config) }
    {
        self.fallen
    }

    /// How many bytes of groups the active file has: 5 and the body for each.
    pub fn grown(&self) -> u64
        ensures { result ≡ self.now.grown }
    {
        self.end.saturating_sub(self.start)
    }

    /// The place of the closed gate behind the groups of the active file.
    pub fn end(&self) -> u64
        ensures { result ≡ self.now.end }
    {
        self.end
    }

    /// How many calls of the disk have failed since it was made.
    pub fn failures(&self) -> u64
        ensures { result ≡ D.failed self.now.disk }
    {
        self.disk.failures()
    }

    /// Gives the disk back.
    pub fn into_disk(self) -> D
        ensures { result ≡ self.disk }
    {
        let Store { disk, .. } = self;
        disk
    }

    /// Puts a group behind the others of the active file. It asks that its entries fit the state that the files stand
    /// for, one after the other, and that no call of the disk has failed. It makes four calls of the disk, and takes no
    /// memory.
    ///
    /// # Errors
    ///
    /// - `Full` exactly where the group, with the 00 behind it, would end past the greatest length of a file. Nothing
    ///   changes.
    /// - `Device` where a call of the disk has failed, which is the last one made. The store has fallen.
    pub fn commit(&mut self, group: &Group) -> Result<(), CommitFault>
        requires stands { self.old.fallen ≡ false }
        requires fits { D.honest self.old.disk
            → BodyFits self.old.config (D.seen self.old.disk) group.now.body }
        ensures honest { D.honest self.new.disk → D.honest self.old.disk }
        ensures stays_honest { ¬ IsErrOf result CommitFault.Device
            → D.honest self.old.disk → D.honest self.new.disk }

        // A crash at any moment leaves the state from before, or the one with the group.
        ensures any_moment { D.honest self.old.disk → (d e : Durable)
            → Recovers (D.seen self.old.disk) d
            → BodyEnters self.old.config group.now.body d e
            → LeavesOnly D.moment D.left self.old.disk self.new.disk (RecoversEither d e) }
        ensures configured { D.honest self.old.disk
            → LeavesOnly D.moment D.left self.old.disk self.new.disk
            (IsConfigured self.old.config) }

        // After Ok it is kept.
        ensures ok { D.honest self.old.disk → (d e : Durable) → Recovers (D.seen self.old.disk) d
            → BodyEnters self.old.config group.now.body d e
            → OnOk result (Keeps D.moment D.left D.seen self.new e) }

        // One file, the active one, reads as before, but for the open group and the 00 behind it where its groups
        // ended.
        ensures written { D.honest self.old.disk → OnOk result ((file : FileId)
            × Put file self.old.end (1 ∷ sealed group.now.body) (D.seen self.old.disk)
            (D.seen self.new.disk)) }
        ensures config { self.new.config ≡ self.old.config }
        ensures generation { self.new.generation ≡ self.old.generation }
        ensures end { D.honest self.old.disk
            → OnOk result (self.new.end ≡ self.old.end + length group.now.body + 5) }
        ensures grown { D.honest self.old.disk
            → OnOk result (self.new.grown ≡ self.old.grown + length group.now.body + 5) }
        ensures full { IsErrOf result CommitFault.Full
            ↔ 67108864 < self.old.end + length group.now.body + 6 }
        ensures full_stays { IsErrOf result CommitFault.Full → self.new ≡ self.old }
        ensures fell { IsErrOf result CommitFault.Device ↔ self.new.fallen ≡ true }
        ensures called { D.honest self.old.disk
            → OnOk result (Called 4 (D.called self.old.disk) (D.called self.new.disk)) }

        // No call follows one that has failed, since that one might fail too.
        ensures cause { HasCause (D.failed self.old.disk) (D.failed self.new.disk)
            (IsErrOf result CommitFault.Device) }
    {
        match append(&mut self.disk, self.active, self.end, group) {
            Ok(next) => {
                self.end = next;
                Ok(())
            }
            Err(JournalFault::Device) => {
                self.fallen = true;
                Err(CommitFault::Device)
            }
            Err(JournalFault::Full) => Err(CommitFault::Full),
            Err(JournalFault::Damaged | JournalFault::NoMemory) => unreachable!(),
        }
    }

    /// Makes the other file anew with the durable state as its snapshot, and no groups; then it is the active one. The
    /// text is what was loaded last, and the sessions stand in the order of `Table::list`, `last` being 0 in each. It
    /// makes six calls of the disk; all memory is taken before the first.
    ///
    /// # Errors
    ///
    /// - `Generations` exactly where the active file has the greatest generation. Nothing changes.
    /// - `NoMemory` where memory is refused. Nothing changes.
    /// - `Device` where a call of the disk has failed, which is the last one made. The store has fallen; the files
    ///   stand for the same state.
    pub fn compact(
        &mut self,
        alloc: Global,
        text: &[u8],
        sessions: &[Session],
    ) -> Result<(), CompactFault>
        requires stands { self.old.fallen ≡ false }
        requires durable { D.honest self.old.disk
            → Recovers (D.seen self.old.disk) (durable text.now sessions.now) }
        requires text { length text.now ≤ 262144 }
        requires count { length sessions.now ≤ 65536 }
        ensures honest { D.honest self.new.disk → D.honest self.old.disk }
        ensures stays_honest { ¬ IsErrOf result CompactFault.Device
            → D.honest self.old.disk → D.honest self.new.disk }

        // A crash at any moment leaves the one state.
        ensures any_moment { D.honest self.old.disk
            → LeavesOnly D.moment D.left self.old.disk self.new.disk
            (λ files. Recovers files (durable text.now sessions.now)) }
        ensures configured { D.honest self.old.disk
            → LeavesOnly D.moment D.left self.old.disk self.new.disk
            (IsConfigured self.old.config) }

        // After Ok it is kept.
        ensures ok { D.honest self.old.disk
            → OnOk result (Keeps D.moment D.left D.seen self.new (durable text.now sessions.now)) }

        // One file was made anew for it, of the next generation, and the other one is as it was.
        ensures written { D.honest self.old.disk → OnOk result ((file : FileId)
            × IsFresh (D.seen self.new.disk file)
            (anew (self.old.generation + 1) self.old.config (durable text.now sessions.now))
            × Elsewhere file (D.seen self.old.disk) (D.seen self.new.disk)) }
        ensures config { self.new.config ≡ self.old.config }
        ensures generation { OnOk result (self.new.generation ≡ self.old.generation + 1) }
        ensures grown { OnOk result (self.new.grown ≡ 0) }
        ensures end { OnOk result (self.new.end
            ≡ 1 + length (heading_bytes
            (anew (self.old.generation + 1) self.old.config (durable text.now sessions.now)))) }

        // A snapshot of the greatest text, and as many sessions as there may be, ends there.
        ensures small { OnOk result (self.new.end ≤ 1638552) }
        ensures generations { IsErrOf result CompactFault.Generations
            ↔ self.old.generation ≡ 2 ^ 64 - 1 }
        ensures generations_stay { IsErrOf result CompactFault.Generations → self.new ≡ self.old }
        ensures memory_stays { IsErrOf result CompactFault.NoMemory → self.new ≡ self.old }
        ensures fell { IsErrOf result CompactFault.Device ↔ self.new.fallen ≡ true }
        ensures called { D.honest self.old.disk
            → OnOk result (Called 6 (D.called self.old.disk) (D.called self.new.disk)) }

        // No call follows one that has failed, since that one might fail too.
        ensures cause { HasCause (D.failed self.old.disk) (D.failed self.new.disk)
            (IsErrOf result CompactFault.Device) }
    {
        if self.generation == u64::MAX {
            return Err(CompactFault::Generations);
        }
        let generation = self.generation + 1;
        let Ok(bytes) = closed_heading(alloc, generation, &self.bounds, text, sessions) else {
            return Err(CompactFault::NoMemory);
        };
        let file = other(self.active);
        match remake(&mut self.disk, file, &bytes) {
            Ok(()) => {
                self.active = file;
                self.generation = generation;
                // There stands the closed gate that ends `bytes`: the file's own gate is in front of them.
                self.start = bytes.len() as u64;
                self.end = self.start;
                Ok(())
            }
            Err(_) => {
                self.fallen = true;
                Err(CompactFault::Device)
            }
        }
    }
}
