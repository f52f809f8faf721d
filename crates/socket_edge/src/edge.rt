//! A run: what is read is offered, and the answers are written.
//!
//! `run_with` calls `read_once` until the input ends; `run` hands it two streams as one peer. `read_once` reads
//! (`Waiting::read`) and calls `answer_read`. That has `answer_front` answer all that is whole then, and compacts a file
//! that has grown (`serving::compact_grown`). `answer_front` offers frame after frame (`serving::offer_all`), has what
//! is held synced (`serving::close`), and only then writes the answers (`sending::send_before`).
ghost use Rattle.std.specs.Prelude.{◌≡◌, ◌≢◌, ◌↔◌, ℕ, List, [], ◌++◌, ◌+◌, ◌<◌, ◌≤◌, ◌^◌, true, false, IfOk, IfErr, OnOk, length};
ghost use Rattle.std.specs.Io.KnownBytes.{Appends, Consumes, IsAtEnd};
ghost use Rattle.packet.specs.Laws.{AreBytes};
ghost use Rattle.machine.specs.declared.event.Answer.{Answer};
ghost use Rattle.frames.specs.Requests.{next, Cut};
ghost use Rattle.socket_edge.specs.Running.{AnswersFirst, AtEachTurn, Explains, Fares, RunEnded, TurnsEnd, events_in};
ghost use Rattle.socket_edge.specs.Serving.{AsksOnce, ComesByOne, FrontCame, Hands, ReadBy, ReadCame, SentBy, SettledAndSent};
ghost use Rattle.socket_edge.specs.Turns.{Turn, given, taken};

use crate::fault::EdgeFault;
use crate::peer::{Both, Peer};
use crate::sending::send_before;
use crate::serving::{close, compact_grown, hand_out_held, offer_all};
use crate::waiting::{Unread, Waiting};
use disk_model::Disk;
use gateway::running::stands;
use gateway::{Gateway, GatewayFault};
use machine::laws::events_are_judged_once;
use std::alloc::Global;
use std::io::{Read, Write};

/// Whether the input goes on.
#[derive(Clone, Copy, Drop)]
pub enum ReadOutcome {
    /// Bytes came, and all whole frames, of which there are so many, are answered.
    More(u64),
    /// The input is read to its end, and no part of a frame is left.
    End,
}

/// Hands out what the gateway holds, offers the whole frames at the front of `waiting`, and writes all these answers.
/// Says how many frames there were.
fn answer_front<P: Peer, D: Disk + Drop>(
    alloc: Global,
    peer: &mut P,
    gateway: &mut Gateway<D>,
    waiting: &mut Waiting,
) -> Result<u64, EdgeFault>
    requires stands { gateway.old.fallen ≡ false }
    requires sent { waiting.old.answered ≡ [] }
    requires none_held { waiting.old.held ≡ [] }
    ensures came { (handed : List (ℕ × Answer)) × (sent : List ℕ)
        × (hands : Hands P.went peer.old peer.new sent)
        × SettledAndSent D.honest D.moment D.left D.failed result gateway.old gateway.new
        waiting.old.unanswered waiting.new.unanswered handed sent
        × SentBy result hands.turns }
{
    stands(gateway);
    let first = gateway.last();
    let former = match hand_out_held(alloc, gateway) {
        Ok(former) => former,
        Err(fault) => return Err(EdgeFault::Gateway(fault)),
    };
    gateway.held();
    let halt = offer_all(waiting, gateway);
    let closed = close(halt, waiting, gateway);
    send_before(peer, former.as_slice(), waiting.answered())?;
    closed?;
    Ok(gateway.last() - first)
}

/// Offers the whole frames at the front of `waiting`, writes their answers, and compacts where the file has grown.
fn answer_read<P: Peer, D: Disk + Drop>(
    alloc: Global,
    peer: &mut P,
    gateway: &mut Gateway<D>,
    waiting: &mut Waiting,
) -> Result<u64, EdgeFault>
    requires stands { gateway.old.fallen ≡ false }
    requires sent { waiting.old.answered ≡ [] }
    requires none_held { waiting.old.held ≡ [] }
    ensures served { (sent : List ℕ) × (hands : Hands P.went peer.old peer.new sent)
        × FrontCame result gateway.old.told gateway.new.told
        waiting.old.unanswered waiting.new.unanswered sent
        × Fares D.honest D.moment D.left gateway.old gateway.new
        (events_in waiting.old.unanswered) sent
        × ComesByOne D.honest D.moment D.left gateway.old gateway.new
        (events_in waiting.old.unanswered) sent
        × SentBy result hands.turns }
    ensures why { IfErr result (λ e. Explains D.honest D.moment D.left D.failed e gateway.old
        gateway.new) }
    ensures stands { OnOk result (gateway.new.fallen ≡ false) }
    ensures no_failure { OnOk result (D.failed gateway.new.disk ≡ D.failed gateway.old.disk) }
    ensures grown { OnOk result (gateway.new.grown ≤ 1048576) }
{
    let count = answer_front(alloc, peer, gateway, waiting)?;
    stands(gateway);
    events_are_judged_once();
    match compact_grown(gateway) {
        Ok(()) => Ok(count),
        Err(fault) => Err(EdgeFault::Gateway(fault)),
    }
}

/// One read, and all that it makes whole.
fn read_once<P: Peer, D: Disk + Drop>(
    alloc: Global,
    peer: &mut P,
    gateway: &mut Gateway<D>,
    waiting: &mut Waiting,
) -> Result<ReadOutcome, EdgeFault>
    requires stands { gateway.old.fallen ≡ false }
    requires cut { next waiting.old.unanswered ≡ Cut }
    ensures came { (got sent : List ℕ)
        × (asks : AsksOnce P.went peer.old peer.new got sent)
        × ReadCame result gateway.old.told gateway.new.told (waiting.old.unanswered ++ got)
        waiting.new.unanswered sent
        (P.ended peer.new)
        × Fares D.honest D.moment D.left gateway.old gateway.new
        (events_in (waiting.old.unanswered ++ got)) sent
        × ComesByOne D.honest D.moment D.left gateway.old gateway.new
        (events_in (waiting.old.unanswered ++ got)) sent
        × (asks.turns ≡ [] → gateway.new ≡ gateway.old)
        × ReadBy result asks.turns
        × AreBytes got }
    ensures why { IfErr result (λ e. Explains D.honest D.moment D.left D.failed e gateway.old
        gateway.new) }
    ensures stands { OnOk result (gateway.new.fallen ≡ false) }
    ensures no_failure { OnOk result (D.failed gateway.new.disk ≡ D.failed gateway.old.disk) }
    ensures grown { IfOk result (λ outcome. (outcome ≢ ReadOutcome.End)
        → gateway.new.grown ≤ 1048576) }
    ensures stays { IfOk result (λ outcome. outcome ≡ ReadOutcome.End → gateway.new ≡ gateway.old) }
{
    stands(gateway);
    let n = match waiting.read(peer) {
        Ok(n) => n,
        Err(Unread::NoMemory) => return Err(EdgeFault::Gateway(GatewayFault::NoMemory)),
        Err(Unread::Failed) => return Err(EdgeFault::Input),
    };
    if n == 0 {
        if waiting.unanswered().is_empty() {
            return Ok(ReadOutcome::End);
        }
        return Err(EdgeFault::Truncated);
    }
    match answer_read(alloc, peer, gateway, waiting) {
        Ok(count) => Ok(ReadOutcome::More(count)),
        Err(fault) => Err(fault),
    }
}

/// The sum, which has 64 bits.
fn sum(count: u64, more: u64) -> u64
    requires { count + more < 2 ^ 64 }
    ensures { result ≡ count + more }
{
    count + more
}

/// Answers each request that the peer gives, in order, as `run` does of two streams. Each time that it asks the peer
/// for more, the peer has taken the answers to all whole frames that it had given by then, if nothing was held before,
/// and none of them was faulty. So this never waits for a peer that waits for an answer, or to be cut off. The last turn
/// tells why the run ended (`TurnsEnd` of `specs/Running`), and bytes went at each turn before: no call follows one that
/// failed.
///
/// # Errors
///
/// Those of `run`.
pub fn run_with<P: Peer, D: Disk + Drop>(
    alloc: Global,
    peer: &mut P,
    gateway: &mut Gateway<D>,
) -> Result<u64, EdgeFault>
    // By which turns it went, how the run ended, what a crash leaves of it, that answers came first, what a crash
    // leaves that comes between two turns, which turn was the last, and that what the peer gave is bytes.
    ensures ran { (turns : List Turn) × P.went peer.old peer.new turns
        × RunEnded result gateway.old.told gateway.new.told (given turns) (taken turns)
        (P.ended peer.new)
        × Fares D.honest D.moment D.left gateway.old gateway.new (events_in (given turns))
        (taken turns)
        × AnswersFirst gateway.old.told turns
        × AtEachTurn D.honest D.moment D.left gateway.old gateway.new turns
        × TurnsEnd result turns
        × AreBytes (given turns) }
    ensures untouched { gateway.old.fallen ≡ true → peer.new ≡ peer.old }
    ensures why { gateway.old.fallen ≡ false
        → IfErr result (λ e. Explains D.honest D.moment D.left D.failed e gateway.old gateway.new) }
    ensures stands { OnOk result ((gateway.old.fallen ≡ false) × (gateway.new.fallen ≡ false)) }
    ensures no_failure { OnOk result (D.failed gateway.new.disk ≡ D.failed gateway.old.disk) }
    ensures reopen { IfErr result (λ e. (e ≡ EdgeFault.Gateway GatewayFault.Reopen)
        ↔ (gateway.old.fallen ≡ true)) }
    ensures reopen_stays { gateway.old.fallen ≡ true → gateway.new ≡ gateway.old }
    ensures causes { IfErr result (λ e. (e ≢ EdgeFault.Gateway GatewayFault.HeldFull)
        × (e ≢ EdgeFault.Gateway GatewayFault.Full)) }
    ensures compacted { IfOk result (λ count. 0 < count → gateway.new.grown ≤ 1048576) }
{
    if gateway.has_fallen() {
        return Err(EdgeFault::Gateway(GatewayFault::Reopen));
    }
    stands(gateway);
    let mut waiting = Waiting::new(alloc);
    let mut count: u64 = 0;
    for _ in 0..u64::MAX {
        match read_once(alloc, peer, gateway, &mut waiting) {
            Ok(ReadOutcome::More(more)) => {
                gateway.facts();
                count = sum(count, more);
            }
            Ok(ReadOutcome::End) => return Ok(count),
            Err(fault) => return Err(fault),
        }
    }
    stands(gateway);
    Err(EdgeFault::Input)
}

/// Answers each request that the reader gives, in order, until its end or a fault, and says how many there were. What
/// one read of at most 65,536 bytes makes whole is offered, its changes are synced, and its answers are written before
/// the next read. Where the groups of the active file have grown above 1,048,576 bytes then, the gateway is compacted.
///
/// The frames of requests and answers are those of crate `frames` (docs/frames.md).
///
/// # Errors
///
/// - `BadKind`, `BadInterface` or `TooLong` at the first faulty header; what is behind it isn't taken.
/// - `Truncated` where the input ends within a frame.
/// - `Input` where a read fails, or behind 2^64 - 1 reads.
/// - `Output` where a write fails or takes no byte.
/// - `Gateway` with the gateway's fault, or with `NoMemory` where memory of the edge is refused; never with `HeldFull`
///   or `Full`. With `Reopen` exactly where the gateway had fallen before: then nothing is read, and nothing changes.
///
/// The events that the gateway took stay taken. After `Output` a beginning of the answer frames is written,
/// also a part of a frame; after `Gateway` the frames of a beginning of the events, and other answers are held where a
/// call of the disk has failed; after any other fault the frames of all events that were read. Unless a call of the
/// disk has failed, nothing is held where nothing was held before.
pub fn run<R: Read, W: Write, D: Disk + Drop>(
    alloc: Global,
    reader: &mut R,
    writer: &mut W,
    gateway: &mut Gateway<D>,
) -> Result<u64, EdgeFault>
    // What was read and what was written, how the run ended, what a crash leaves of it, and that what was read is
    // bytes.
    ensures ran { (given written : List ℕ)
        × Consumes (R.remaining reader.old) (R.remaining reader.new) given
        × Appends (W.contents writer.old) (W.contents writer.new) written
        × RunEnded result gateway.old.told gateway.new.told given written
        (IsAtEnd (R.remaining reader.new))
        × Fares D.honest D.moment D.left gateway.old gateway.new (events_in given) written
        × AreBytes given }

    // By which turns with the two streams it went: all of `ran` holds of them, and all that `run_with` says of its own.
    ensures each_turn { (turns : List Turn)
        × Consumes (R.remaining reader.old) (R.remaining reader.new) (given turns)
        × Appends (W.contents writer.old) (W.contents writer.new) (taken turns)
        × RunEnded result gateway.old.told gateway.new.told (given turns) (taken turns)
        (IsAtEnd (R.remaining reader.new))
        × Fares D.honest D.moment D.left gateway.old gateway.new (events_in (given turns))
        (taken turns)
        × AnswersFirst gateway.old.told turns
        × AtEachTurn D.honest D.moment D.left gateway.old gateway.new turns
        × TurnsEnd result turns
        × AreBytes (given turns) }
    ensures why { gateway.old.fallen ≡ false
        → IfErr result (λ e. Explains D.honest D.moment D.left D.failed e gateway.old gateway.new) }
    ensures stands { OnOk result ((gateway.old.fallen ≡ false) × (gateway.new.fallen ≡ false)) }
    ensures no_failure { OnOk result (D.failed gateway.new.disk ≡ D.failed gateway.old.disk) }
    ensures reopen { IfErr result (λ e. (e ≡ EdgeFault.Gateway GatewayFault.Reopen)
        ↔ (gateway.old.fallen ≡ true)) }
    ensures reopen_stays { gateway.old.fallen ≡ true → gateway.new ≡ gateway.old }
    ensures causes { IfErr result (λ e. (e ≢ EdgeFault.Gateway GatewayFault.HeldFull)
        × (e ≢ EdgeFault.Gateway GatewayFault.Full)) }
    ensures compacted { IfOk result (λ count. 0 < count → gateway.new.grown ≤ 1048576) }
    ensures untouched { gateway.old.fallen ≡ true → (reader.new ≡ reader.old)
        × (writer.new ≡ writer.old) }
{
    let mut peer = Both { reader, writer };
    run_with(alloc, &mut peer, gateway)
}
