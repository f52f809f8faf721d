//! What a packet comes to: by its session that goes on (`answer_going`), or by a plan (`answer_planned`). It is
//! translated where it lies.
ghost use Rattle.std.specs.Prelude.{◌≡◌, ◌≤◌, [], length, Ok, Result, Some, IsTrue, false, IfOk, IfErr, IfSome, IsOk, IsOkAnd, OnErr};
ghost use Rattle.packet.specs.Fields.{fields};
ghost use Rattle.sessions.specs.Listing.{listing};
ghost use Rattle.sessions.specs.Table.{at};
ghost use Rattle.hairpin.specs.Causes.{cause_number};
ghost use Rattle.hairpin.specs.Going.{Tells, planned};
ghost use Rattle.hairpin.specs.Legs.{Passage};
ghost use Rattle.hairpin.specs.declared.cause.Cause.{Cause};
ghost use Rattle.machine.specs.Core.{IsTransition, AddsNoSession};
ghost use Rattle.machine.specs.Fates.{answer_of};
ghost use Rattle.machine.specs.Flows.{IsNoneLater, IsWay, TakesMore};
ghost use Rattle.machine.specs.Machine.{sent};
ghost use Rattle.machine.specs.Noted.{of_way};
ghost use Rattle.machine.specs.Outcomes.{NotedIfOk};
ghost use Rattle.machine.specs.declared.event.Answer.TheVariants.{Forward};
ghost use Rattle.machine.specs.declared.event.Fate.TheVariants.{Dropped};

use crate::event::Fate;
use crate::fault::StepFault;
use crate::flows::Flows;
use crate::notes::Notes;
use hairpin::{Cause, Going, Plan};
use packet::rewrite;

/// The packet is dropped for this cause.
pub(crate) fn drop_for(cause: Cause) -> Fate
    ensures { result ≡ Dropped (cause_number cause) }
{
    Fate::Dropped(cause.number())
}

// What a plan comes to; `ready` says that there is room for two sessions and their entries already.
pub(crate) fn answer_planned<N: Notes>(
    flows: &mut Flows,
    ready: bool,
    plan: &Result<Plan, Cause>,
    packet: &mut [u8],
    now: u64,
    notes: &mut N,
) -> Result<Fate, StepFault>
    requires read { IsOkAnd (fields packet.old) (λ view. 2 ≤ view.ttl) }
    requires latest { IsNoneLater flows.old.table.held now }
    requires ready { IsTrue ready → TakesMore 2 flows.old }
    requires room { IsTrue ready → N.keeps notes.old → 44 ≤ N.room notes.old }
    requires planned { (way : Result Passage Cause) × IsWay flows.old now plan.now way }
    ensures ok { IfOk result (λ fate. (way : Result Passage Cause)
        → IsWay flows.old now plan.now way
        → IsTransition (λ s. sent s packet.old way) flows.old.table.held flows.new.table.held
        now (answer_of fate packet.new)) }
    ensures err { OnErr result ((packet.new ≡ packet.old)
        × (flows.new.table.held ≡ flows.old.table.held)) }
    ensures length { length packet.new ≡ length packet.old }
    ensures external { flows.new.translations.external ≡ flows.old.translations.external }
    ensures ready { IsTrue ready → IsOk result }
    ensures adds_none { (way : Result Passage Cause) → IsWay flows.old now plan.now way
        → AddsNoSession (λ s. sent s packet.old way) flows.old.table.held now → N.grants notes.old
        → IsOk result }
    ensures noted { (way : Result Passage Cause) → IsWay flows.old now plan.now way
        → NotedIfOk N.keeps N.beside N.noted result notes.old notes.new
        (of_way (listing flows.old.table.held) way) }
    ensures full { IfErr result (λ e. e ≡ StepFault.Full → N.too_many notes.old 44) }
    ensures no_memory { (way : Result Passage Cause) → IsWay flows.old now plan.now way
        → AddsNoSession (λ s. sent s packet.old way) flows.old.table.held now
        → IfErr result (λ e. e ≡ StepFault.NoMemory → ¬ N.too_many notes.old 44) }
    ensures quiet { (way : Result Passage Cause) → IsWay flows.old now plan.now way
        → of_way (listing flows.old.table.held) way ≡ [] → IsOk result }
{
    match plan {
        Err(cause) => Ok(drop_for(*cause)),
        Ok(plan) => {
            flows.table().facts();
            flows.carry_out(ready, plan, now, notes)?;
            rewrite(packet, plan.src, plan.dst);
            Ok(Fate::Leaves(plan.iface))
        }
    }
}

// What a packet comes to whose session goes on; `ready` says that there is room for its entry already.
#[inline(always)]
pub(crate) fn answer_going<N: Notes>(
    flows: &mut Flows,
    ready: bool,
    going: &Result<Going, Cause>,
    packet: &mut [u8],
    now: u64,
    notes: &mut N,
) -> Result<Fate, StepFault>
    requires read { IsOkAnd (fields packet.old) (λ view. 2 ≤ view.ttl) }
    requires latest { IsNoneLater flows.old.table.held now }
    requires room { IsTrue ready → N.keeps notes.old → 44 ≤ N.room notes.old }
    requires planned { (way : Result Passage Cause)
        × IsWay flows.old now (planned going.now) way }
    requires told { IfOk going.now (λ g. IfSome (at flows.old.table g.slot) (λ s. Tells s g)) }
    ensures ok { IfOk result (λ fate. (way : Result Passage Cause)
        → IsWay flows.old now (planned going.now) way
        → IsTransition (λ s. sent s packet.old way) flows.old.table.held flows.new.table.held
        now (answer_of fate packet.new)) }
    ensures err { OnErr result ((packet.new ≡ packet.old)
        × (flows.new.table.held ≡ flows.old.table.held)) }
    ensures length { length packet.new ≡ length packet.old }
    ensures external { flows.new.translations.external ≡ flows.old.translations.external }
    ensures ready { IsTrue ready → IsOk result }
    ensures grants { N.grants notes.old → IsOk result }
    ensures noted { (way : Result Passage Cause) → IsWay flows.old now (planned going.now) way
        → NotedIfOk N.keeps N.beside N.noted result notes.old notes.new
        (of_way (listing flows.old.table.held) way) }
    ensures full { IfErr result (λ e. e ≡ StepFault.Full → N.too_many notes.old 44) }
    ensures no_memory { IfErr result (λ e. e ≡ StepFault.NoMemory → ¬ N.too_many notes.old 44) }
    ensures quiet { (way : Result Passage Cause) → IsWay flows.old now (planned going.now) way
        → of_way (listing flows.old.table.held) way ≡ [] → IsOk result }
{
    match going {
        Err(cause) => Ok(drop_for(*cause)),
        Ok(going) => {
            flows.carry_out_going(ready, going, now, notes)?;
            rewrite(packet, going.src, going.dst);
            Ok(Fate::Leaves(going.iface))
        }
    }
}
