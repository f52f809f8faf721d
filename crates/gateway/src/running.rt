//! A run of events over a gateway's own calls, for those who read the events as they come. What a call comes to is
//! said of any run that stood before it: how far that run is, and what a crash may leave of it.
//!
//! - `stands`: a run of no event
//! - `take`: one more event. Where 64 answers are held `flush_held_full` hands them out first; then `offer` calls
//!   `Gateway::offer`, and where that refuses the event as Full, `take_behind_compaction` compacts and offers it again
//! - `take_all`: several, and a flush behind them (`hand_out`)
//! - `take_packet`, `take_load`, `take_moment` (module `in_place`): one more, in its caller's bytes, where a packet is
//!   translated
//! - `hand_out`: what is held is synced and handed out (`Gateway::flush`)
//! - `settle`: what is held is synced, for those who have its answers (`Gateway::settle`)
//! - `compact`: what is held is handed out, and the files are made short (`Gateway::compact`)
//!
//! `take`, `hand_out` and `compact` put what they hand out behind a list, and never look at what is in it.
ghost use Rattle.std.specs.Prelude.{◌≡◌, ◌≢◌, ◌↔◌, ◌⊎◌, ◌+◌, ◌-◌, ◌^◌, ◌<◌, ◌≤◌, ◌++◌, ◌∷◌, [], ℕ, List, false, length};
ghost use Rattle.std.specs.Prelude.{IfErr, IsTrue, OnErr, OnOk, true, vec_capacity, vec_len};
ghost use Rattle.machine.specs.declared.event.Answer.{Answer};
ghost use Rattle.gateway.specs.Kept.{IsRoomy};
ghost use Rattle.gateway.specs.Given.{handed};
ghost use Rattle.gateway.specs.Running.{BreaksOff, CarriesOn, Ends, FailsBehind, PutsBehind, SafeThrough, SafeWithin, Stands, StopsWithin};

use crate::calls::Gateway;
pub use crate::in_place::{take_load, take_moment, take_packet};
use crate::pending::MOST_HELD;
use crate::{GatewayFault, Given};
use disk_model::Disk;
use machine::{Answer, Event};

/// A gateway that hasn't fallen stands: a run of no event goes from it to itself. It does nothing but carry this fact.
pub fn stands<D: Disk + Drop>(gateway: &Gateway<D>)
    requires { gateway.now.fallen ≡ false }
    ensures { Stands D.honest D.moment D.left D.failed gateway.now gateway.now [] [] }
{
    gateway.has_fallen();
}

// Takes the events in turn, and flushes at the end.
pub(crate) fn take_all<D: Disk + Drop>(
    gateway: &mut Gateway<D>,
    events: Vec<Event>,
    answers: &mut Vec<(u64, Answer)>,
) -> Result<(), GatewayFault>
    requires begun { Stands D.honest D.moment D.left D.failed gateway.old gateway.old [] [] }
    requires empty { answers.old.items ≡ [] }
    requires room { vec_len answers.old + length gateway.old.told.held + length events.items
        ≤ vec_capacity answers.old }
    ensures ok { OnOk result (Ends D.honest D.moment D.left D.failed gateway.old gateway.new
        events.items answers.new.items) }
    ensures none { OnOk result (gateway.new.told.held ≡ []) }
    ensures err { IfErr result (StopsWithin D.honest D.moment D.left D.failed gateway.old
        gateway.new events.items answers.new.items) }
    ensures carries { OnOk result ((before : List (ℕ × Answer))
        → CarriesOn D.honest D.moment D.left D.failed gateway.old gateway.new events.items before
        (before ++ answers.new.items)) }
    ensures breaks { IfErr result (λ e. (before : List (ℕ × Answer))
        → BreaksOff D.honest D.moment D.left D.failed gateway.old gateway.new events.items before
        (before ++ answers.new.items) e) }
    ensures through { (before : List (ℕ × Answer))
        → SafeThrough D.honest D.moment D.left D.failed gateway.old gateway.new events.items
        before }
    ensures through_front { IfErr result (λ e.
        (stops : StopsWithin D.honest D.moment D.left D.failed gateway.old gateway.new events.items
        answers.new.items e)
        × ((before : List (ℕ × Answer)) → SafeThrough D.honest D.moment D.left D.failed
        gateway.old gateway.new stops.front before)) }
    ensures stands { OnOk result (gateway.new.fallen ≡ false) }
    ensures no_failure { OnOk result (D.failed gateway.new.disk ≡ D.failed gateway.old.disk) }
{
    for event in events {
        take(gateway, event, answers)?;
    }
    hand_out(gateway, answers)
}

/// Takes an event: where 64 answers are held it flushes first; where it is refused as `Full` it flushes, compacts, and
/// offers it again. What is answered goes behind the other answers, for which there is room.
///
/// # Errors
///
/// The gateway's fault, `HeldFull` and `Full` never. The event isn't taken, and doesn't come back. What was handed out
/// before it is behind the other answers; unless a call of the disk has failed, the gateway may go on.
pub fn take<D: Disk + Drop>(
    gateway: &mut Gateway<D>,
    event: Event,
    answers: &mut Vec<(u64, Answer)>,
) -> Result<(), GatewayFault>
    requires stands { gateway.old.fallen ≡ false }
    requires room { vec_len answers.old + length gateway.old.told.held + 1
        ≤ vec_capacity answers.old }
    ensures ok { OnOk result (PutsBehind D.honest D.moment D.left D.failed
        gateway.old gateway.new (event ∷ []) answers.old.items answers.new.items) }
    ensures err { IfErr result (λ e. FailsBehind D.honest D.moment D.left D.failed
        gateway.old gateway.new (event ∷ []) answers.old.items answers.new.items e) }
    ensures any_moment { (before : List (ℕ × Answer))
        → SafeWithin D.honest D.moment D.left D.failed gateway.old gateway.new before }
    ensures stands { OnOk result (gateway.new.fallen ≡ false) }
    ensures numbers_out { gateway.old.told.last ≡ 2 ^ 64 - 1
        → IfErr result (λ e. (e ≡ GatewayFault.NumbersOut) ⊎ (e ≡ GatewayFault.Device)) }
    ensures not_taken { OnErr result ((gateway.new.told.state ≡ gateway.old.told.state)
        × (gateway.new.told.last ≡ gateway.old.told.last)) }
    ensures room { vec_len answers.new + length gateway.new.told.held
        ≤ vec_len answers.old + length gateway.old.told.held + 1 }
    ensures capacity { vec_capacity answers.old ≤ vec_capacity answers.new }
{
    flush_held_full(gateway, answers)?;
    let Err((event, fault)) = offer(gateway, event, answers) else {
        return Ok(());
    };
    if is_full(fault) {
        return take_behind_compaction(gateway, event, answers);
    }
    Err(fault)
}

// Flushes and compacts; then there is room for the event, and it is taken.
fn take_behind_compaction<D: Disk + Drop>(
    gateway: &mut Gateway<D>,
    event: Event,
    answers: &mut Vec<(u64, Answer)>,
) -> Result<(), GatewayFault>
    requires stands { gateway.old.fallen ≡ false }
    requires room { vec_len answers.old + length gateway.old.told.held + 1
        ≤ vec_capacity answers.old }
    ensures ok { OnOk result (PutsBehind D.honest D.moment D.left D.failed
        gateway.old gateway.new (event ∷ []) answers.old.items answers.new.items) }
    ensures err { IfErr result (λ e. FailsBehind D.honest D.moment D.left D.failed
        gateway.old gateway.new (event ∷ []) answers.old.items answers.new.items e) }
    ensures any_moment { (before : List (ℕ × Answer))
        → SafeWithin D.honest D.moment D.left D.failed gateway.old gateway.new before }
    ensures stands { OnOk result (gateway.new.fallen ≡ false) }
    ensures not_taken { OnErr result ((gateway.new.told.state ≡ gateway.old.told.state)
        × (gateway.new.told.last ≡ gateway.old.told.last)) }
    ensures room { vec_len answers.new + length gateway.new.told.held
        ≤ vec_len answers.old + length gateway.old.told.held + 1 }
    ensures capacity { vec_capacity answers.old ≤ vec_capacity answers.new }
{
    compact(gateway, answers)?;
    if let Err((_, fault)) = offer(gateway, event, answers) {
        return Err(fault);
    }
    Ok(())
}

/// Flushes and compacts. What is handed out goes behind the other answers, for which there is room.
///
/// # Errors
///
/// The gateway's fault, `HeldFull` and `Full` never. What was handed out before it is behind the other answers; unless
/// a call of the disk has failed, the gateway may go on.
pub fn compact<D: Disk + Drop>(
    gateway: &mut Gateway<D>,
    answers: &mut Vec<(u64, Answer)>,
) -> Result<(), GatewayFault>
    requires stands { gateway.old.fallen ≡ false }
    requires room { vec_len answers.old + length gateway.old.told.held ≤ vec_capacity answers.old }
    ensures ok { OnOk result (PutsBehind D.honest D.moment D.left D.failed
        gateway.old gateway.new [] answers.old.items answers.new.items) }
    ensures err { IfErr result (λ e. FailsBehind D.honest D.moment D.left D.failed
        gateway.old gateway.new [] answers.old.items answers.new.items e) }
    ensures any_moment { (before : List (ℕ × Answer))
        → SafeWithin D.honest D.moment D.left D.failed gateway.old gateway.new before }
    ensures stands { OnOk result (gateway.new.fallen ≡ false) }
    ensures state { gateway.new.told.state ≡ gateway.old.told.state }
    ensures last { gateway.new.told.last ≡ gateway.old.told.last }
    ensures none { OnOk result (gateway.new.told.held ≡ []) }
    ensures roomy { OnOk result (IsRoomy gateway.new.filled) }
    ensures grown { OnOk result (gateway.new.grown ≡ 0) }
    ensures settled { gateway.old.told.held ≡ [] → gateway.new.told.held ≡ [] }
    ensures quiet { gateway.old.told.held ≡ [] → answers.new.items ≡ answers.old.items }
    ensures room { vec_len answers.new + length gateway.new.told.held
        ≡ vec_len answers.old + length gateway.old.told.held }
    ensures capacity { vec_capacity answers.old ≤ vec_capacity answers.new }
{
    hand_out(gateway, answers)?;
    compact_settled(gateway)
}

// Compacts a gateway that holds nothing.
pub(crate) fn compact_settled<D: Disk + Drop>(gateway: &mut Gateway<D>) -> Result<(), GatewayFault>
    requires stands { gateway.old.fallen ≡ false }
    requires none { gateway.old.told.held ≡ [] }
    ensures ok { OnOk result ((before : List (ℕ × Answer))
        → CarriesOn D.honest D.moment D.left D.failed gateway.old gateway.new [] before before) }
    ensures err { IfErr result (λ e. (before : List (ℕ × Answer))
        → BreaksOff D.honest D.moment D.left D.failed gateway.old gateway.new [] before before e) }
    ensures any_moment { (before : List (ℕ × Answer))
        → SafeWithin D.honest D.moment D.left D.failed gateway.old gateway.new before }
    ensures stands { OnOk result (gateway.new.fallen ≡ false) }
    ensures told { gateway.new.told ≡ gateway.old.told }
    ensures in_place { gateway.new.in_place ≡ true }
    ensures roomy { OnOk result (IsRoomy gateway.new.filled) }
    ensures grown { OnOk result (gateway.new.grown ≡ 0) }
{
    gateway.compact()?;
    Ok(())
}

// Flushes where 64 answers are held.
fn flush_held_full<D: Disk + Drop>(
    gateway: &mut Gateway<D>,
    answers: &mut Vec<(u64, Answer)>,
) -> Result<(), GatewayFault>
    requires stands { gateway.old.fallen ≡ false }
    requires room { vec_len answers.old + length gateway.old.told.held ≤ vec_capacity answers.old }
    ensures ok { OnOk result (PutsBehind D.honest D.moment D.left D.failed
        gateway.old gateway.new [] answers.old.items answers.new.items) }
    ensures err { IfErr result (λ e. FailsBehind D.honest D.moment D.left D.failed
        gateway.old gateway.new [] answers.old.items answers.new.items e) }
    ensures any_moment { (before : List (ℕ × Answer))
        → SafeWithin D.honest D.moment D.left D.failed gateway.old gateway.new before }
    ensures device { IfErr result (λ e. e ≡ GatewayFault.Device) }
    ensures stands { OnOk result (gateway.new.fallen ≡ false) }
    ensures state { gateway.new.told.state ≡ gateway.old.told.state }
    ensures last { gateway.new.told.last ≡ gateway.old.told.last }
    ensures few { OnOk result (length gateway.new.told.held < 64) }
    ensures room { vec_len answers.new + length gateway.new.told.held
        ≡ vec_len answers.old + length gateway.old.told.held }
    ensures capacity { vec_capacity answers.old ≤ vec_capacity answers.new }
{
    if gateway.held() < MOST_HELD {
        return Ok(());
    }
    hand_out(gateway, answers)
}

/// Flushes, and puts what was held behind the other answers, for which there is room.
///
/// # Errors
///
/// `Device`: a call of the disk has failed. No answer is handed out.
pub fn hand_out<D: Disk + Drop>(
    gateway: &mut Gateway<D>,
    answers: &mut Vec<(u64, Answer)>,
) -> Result<(), GatewayFault>
    requires stands { gateway.old.fallen ≡ false }
    requires room { vec_len answers.old + length gateway.old.told.held ≤ vec_capacity answers.old }
    ensures ok { OnOk result (PutsBehind D.honest D.moment D.left D.failed
        gateway.old gateway.new [] answers.old.items answers.new.items) }
    ensures err { IfErr result (λ e. FailsBehind D.honest D.moment D.left D.failed
        gateway.old gateway.new [] answers.old.items answers.new.items e) }
    ensures any_moment { (before : List (ℕ × Answer))
        → SafeWithin D.honest D.moment D.left D.failed gateway.old gateway.new before }
    ensures stands { OnOk result (gateway.new.fallen ≡ false) }
    ensures state { gateway.new.told.state ≡ gateway.old.told.state }
    ensures last { gateway.new.told.last ≡ gateway.old.told.last }
    ensures none { OnOk result (gateway.new.told.held ≡ []) }
    ensures items { OnOk result (answers.new.items ≡ answers.old.items ++ gateway.old.told.held) }
    ensures no_items { OnErr result (answers.new.items ≡ answers.old.items) }
    ensures device { IfErr result (λ e. e ≡ GatewayFault.Device) }
    ensures generation { gateway.new.generation ≡ gateway.old.generation }
    ensures settled { gateway.old.told.held ≡ [] → gateway.new.told.held ≡ [] }
    ensures room { vec_len answers.new + length gateway.new.told.held
        ≡ vec_len answers.old + length gateway.old.told.held }
    ensures capacity { vec_capacity answers.old ≤ vec_capacity answers.new }
{
    let held = gateway.flush()?;
    put_all(answers, held);
    Ok(())
}

/// Flushes, for whoever has the answers that are held already, as `take_packet` told them. It asks that each was told
/// so.
///
/// # Errors
///
/// `Device`: a call of the disk has failed. The answers stay held.
#[inline(never)]
pub fn settle<D: Disk + Drop>(gateway: &mut Gateway<D>) -> Result<(), GatewayFault>
    requires stands { gateway.old.fallen ≡ false }
    requires in_place { gateway.old.in_place ≡ true }
    ensures ok { OnOk result ((before : List (ℕ × Answer))
        → CarriesOn D.honest D.moment D.left D.failed gateway.old gateway.new []
        before (before ++ gateway.old.told.held)) }
    ensures err { IfErr result (λ e. (before : List (ℕ × Answer))
        → BreaksOff D.honest D.moment D.left D.failed gateway.old gateway.new []
        before before e) }
    ensures any_moment { (before : List (ℕ × Answer))
        → SafeWithin D.honest D.moment D.left D.failed gateway.old gateway.new before }
    ensures stands { OnOk result (gateway.new.fallen ≡ false) }
    ensures state { gateway.new.told.state ≡ gateway.old.told.state }
    ensures last { gateway.new.told.last ≡ gateway.old.told.last }
    ensures none { OnOk result (gateway.new.told.held ≡ []) }
    ensures stays { OnErr result (gateway.new.told.held ≡ gateway.old.told.held) }
    ensures in_place { gateway.new.in_place ≡ true }
    ensures device { IfErr result (λ e. e ≡ GatewayFault.Device) }
    ensures generation { gateway.new.generation ≡ gateway.old.generation }
{
    gateway.settle()?;
    Ok(())
}

// Offers an event, and hands out its answer where it is answered at once. Compiled into its callers, so that the event
// isn't put down in memory for it.
#[inline(always)]
fn offer<D: Disk + Drop>(
    gateway: &mut Gateway<D>,
    event: Event,
    answers: &mut Vec<(u64, Answer)>,
) -> Result<(), (Event, GatewayFault)>
    requires stands { gateway.old.fallen ≡ false }
    requires few { length gateway.old.told.held < 64 }
    requires room { vec_len answers.old + length gateway.old.told.held + 1
        ≤ vec_capacity answers.old }
    ensures ok { OnOk result (PutsBehind D.honest D.moment D.left D.failed
        gateway.old gateway.new (event ∷ []) answers.old.items answers.new.items) }
    ensures err { IfErr result (λ e. (e.0 ≡ event) × (gateway.new ≡ gateway.old)
        × (answers.new ≡ answers.old)) }
    ensures any_moment { (before : List (ℕ × Answer))
        → SafeWithin D.honest D.moment D.left D.failed gateway.old gateway.new before }
    ensures full { IsRoomy gateway.old.filled → IfErr result (λ e. e.1 ≢ GatewayFault.Full) }
    ensures numbers_out { gateway.old.told.last ≡ 2 ^ 64 - 1
        → IfErr result (λ e. e.1 ≡ GatewayFault.NumbersOut) }
    ensures why { IfErr result (λ e. e.1 ≢ GatewayFault.Full
        → FailsBehind D.honest D.moment D.left D.failed gateway.old gateway.new (event ∷ [])
        answers.old.items answers.new.items e.1) }
    ensures stands { OnOk result (gateway.new.fallen ≡ false) }
    ensures room { vec_len answers.new + length gateway.new.told.held
        ≤ vec_len answers.old + length gateway.old.told.held + 1 }
    ensures capacity { vec_capacity answers.old ≤ vec_capacity answers.new }
{
    gateway.facts();
    let given = gateway.offer(event)?;
    put(answers, given);
    Ok(())
}

pub(crate) fn is_full(fault: GatewayFault) -> bool
    ensures { IsTrue result ↔ (fault ≡ GatewayFault.Full) }
{
    matches!(fault, GatewayFault::Full)
}

// Hands out an answer that was given at once.
fn put(answers: &mut Vec<(u64, Answer)>, given: Given)
    requires { vec_len answers.old + 1 ≤ vec_capacity answers.old }
    ensures items { answers.new.items ≡ answers.old.items ++ handed given }
    ensures capacity { vec_capacity answers.old ≤ vec_capacity answers.new }
{
    if let Given::Now(number, answer) = given {
        let _ = answers.push((number, answer));
    }
}

// Hands out answers that were held.
fn put_all(answers: &mut Vec<(u64, Answer)>, mut held: Vec<(u64, Answer)>)
    requires { vec_len answers.old + length held.items ≤ vec_capacity answers.old }
    ensures items { answers.new.items ≡ answers.old.items ++ held.items }
    ensures capacity { vec_capacity answers.old ≤ vec_capacity answers.new }
{
    let _ = answers.append(&mut held);
}
