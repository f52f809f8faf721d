//! What one read made whole is offered, and its answers are put where their requests stood. The way of one read, as
//! `edge::answer_front` goes it:
//!
//! - `hand_out_held`: answers that the gateway held when the run began are handed out;
//! - `offer_all`: frame after frame is taken where it lies (`Waiting::take_next`), until a `Halt`;
//! - `close`: what is held is synced, and so handed out (`gateway::running::settle`), and `end_at` says what the halt
//!   means for the run. Then `edge` writes the answers (`sending::send_before`);
//! - `compact_grown`: a file that has grown is made short (`Gateway::compact`).
//!
//! In clauses `handed` are the answers whose frames were put among those that may be written.
ghost use Rattle.std.specs.Prelude.{◌≡◌, ◌≢◌, ◌++◌, [], ℕ, List, ◌≤◌, false, true, IfErr, IfOk, OnErr, OnOk};
ghost use Rattle.gateway.specs.Kept.{Kept};
ghost use Rattle.gateway.specs.Running.{BreaksOff, CarriesOn, Stands};
ghost use Rattle.machine.specs.declared.event.Answer.{Answer};
ghost use Rattle.frames.specs.Answers.{frames};
ghost use Rattle.socket_edge.specs.Serving.{Offered, Closed, end_of};

use crate::ahead::Ahead;
use crate::fault::EdgeFault;
use crate::waiting::Waiting;
use disk_model::Disk;
use frames::{Front, HeaderFault, read_front};
use gateway::running::{hand_out, settle};
use gateway::{Answer, Gateway, GatewayFault};
use std::alloc::Global;

/// The most bytes of groups that a file keeps when what was read is answered.
pub const MOST_GROWN: u64 = 1_048_576;

/// Why no more frames are offered.
#[derive(Clone, Copy, Drop)]
pub enum Halt {
    /// No whole frame is left.
    Cut,
    /// The next header is faulty.
    Bad(HeaderFault),
    /// The gateway took no more.
    Refused(GatewayFault),
}

/// What a halt means for the run.
pub fn end_at(halt: Halt) -> Result<(), EdgeFault>
    ensures { result ≡ end_of halt }
{
    match halt {
        Halt::Cut => Ok(()),
        Halt::Bad(HeaderFault::BadKind) => Err(EdgeFault::BadKind),
        Halt::Bad(HeaderFault::BadInterface) => Err(EdgeFault::BadInterface),
        Halt::Bad(HeaderFault::TooLong) => Err(EdgeFault::TooLong),
        Halt::Refused(fault) => Err(EdgeFault::Gateway(fault)),
    }
}

/// Hands out the answers that are held.
///
/// # Errors
///
/// `NoMemory` if memory for them is refused, and `Device` if a call of the disk fails. They stay held.
pub fn hand_out_held<D: Disk + Drop>(
    alloc: Global,
    gateway: &mut Gateway<D>,
) -> Result<Vec<(u64, Answer)>, GatewayFault>
    requires stands { gateway.old.fallen ≡ false }
    ensures ok { IfOk result (λ answers. CarriesOn D.honest D.moment D.left D.failed
        gateway.old gateway.new [] [] answers.items) }
    ensures err { IfErr result (λ e. BreaksOff D.honest D.moment D.left D.failed
        gateway.old gateway.new [] [] [] e) }
    ensures some { OnErr result (gateway.old.told.held ≢ []) }
    ensures none { OnOk result (gateway.new.told.held ≡ []) }
    ensures stands { OnOk result (gateway.new.fallen ≡ false) }
{
    let mut answers = Vec::new(alloc);
    let count = gateway.held();
    if count == 0 {
        return Ok(answers);
    }
    if answers.reserve_exact(count).is_err() {
        return Err(GatewayFault::NoMemory);
    }
    match hand_out(gateway, &mut answers) {
        Ok(()) => Ok(answers),
        Err(fault) => Err(fault),
    }
}

/// Has the gateway take each whole frame at the front, and says why no more. The frames of the answers that are handed
/// out stand behind those that were, and behind them those of the answers that are held.
pub fn offer_all<D: Disk + Drop>(waiting: &mut Waiting, gateway: &mut Gateway<D>) -> Halt
    requires stands { gateway.old.fallen ≡ false }
    requires in_place { gateway.old.in_place ≡ true }
    requires held { waiting.old.held ≡ frames gateway.old.told.held }
    ensures offered { (handed : List (ℕ × Answer))
        × (waiting.new.answered ≡ waiting.old.answered ++ frames handed)
        × ((before : List (ℕ × Answer)) → Offered D.honest D.moment D.left D.failed result
        waiting.old.unanswered waiting.new.unanswered gateway.old gateway.new
        before (before ++ handed)) }
    ensures held { waiting.new.held ≡ frames gateway.new.told.held }
    ensures in_place { gateway.new.in_place ≡ true }
{
    let mut ahead = Ahead::none();
    loop {
        ahead = ahead.next(waiting.unanswered(), gateway);
        match read_front(waiting.unanswered()) {
            Front::Cut => return Halt::Cut,
            Front::Bad(fault) => return Halt::Bad(fault),
            Front::Whole(kind, moment, size) => {
                match waiting.take_next(kind, moment, size, gateway) {
                    Ok(()) => {}
                    Err(fault) => return Halt::Refused(fault),
                }
            }
        }
    }
}

/// Hands out what is held, if the gateway has not fallen, and says what the halt means. Of whatever run began at
/// `start`, and has come over `bytes` to this halt with these bytes left (`Offered`), the first clause says that it is
/// closed by this call (`Closed`).
pub fn close<D: Disk + Drop>(
    halt: Halt,
    waiting: &mut Waiting,
    gateway: &mut Gateway<D>,
) -> Result<(), EdgeFault>
    requires in_place { gateway.old.in_place ≡ true }
    requires held { waiting.old.held ≡ frames gateway.old.told.held }
    ensures closed { (handed : List (ℕ × Answer))
        × (waiting.new.answered ≡ waiting.old.answered ++ frames handed)
        × ((start : Kept D) (bytes rest : List ℕ) (before : List (ℕ × Answer))
        → Stands D.honest D.moment D.left D.failed start start [] []
        → Offered D.honest D.moment D.left D.failed halt bytes rest start gateway.old [] before
        → Closed D.honest D.moment D.left D.failed result bytes rest start gateway.new
        (before ++ handed)) }
    ensures rest { waiting.new.unanswered ≡ waiting.old.unanswered }
{
    if gateway.has_fallen() {
        return end_at(halt);
    }
    match settle(gateway) {
        Err(fault) => Err(EdgeFault::Gateway(fault)),
        Ok(()) => {
            waiting.release();
            end_at(halt)
        }
    }
}

/// Compacts where the file has grown by more than `MOST_GROWN`, which asks that nothing is held.
pub fn compact_grown<D: Disk + Drop>(gateway: &mut Gateway<D>) -> Result<(), GatewayFault>
    requires stands { gateway.old.fallen ≡ false }
    requires none { gateway.old.told.held ≡ [] }
    ensures ok { OnOk result ((before : List (ℕ × Answer))
        → CarriesOn D.honest D.moment D.left D.failed gateway.old gateway.new []
        before before) }
    ensures err { IfErr result (λ e. (before : List (ℕ × Answer))
        → BreaksOff D.honest D.moment D.left D.failed gateway.old gateway.new []
        before before e) }
    ensures stands { OnOk result (gateway.new.fallen ≡ false) }
    ensures none { gateway.new.told.held ≡ [] }
    ensures grown { OnOk result (gateway.new.grown ≤ 1048576) }
{
    if gateway.grown() <= MOST_GROWN {
        return Ok(());
    }
    gateway.compact()?;
    Ok(())
}
