//! Streams of requests, and what the end of one means.
ghost use Rattle.std.specs.Prelude.{◌≡◌, ℕ, List, Result, Err, IsOk, IfErr, OnOk, false, true};
ghost use Rattle.std.specs.Io.KnownBytes.{Appends, Consumes, IsAtEnd};
ghost use Rattle.packet.specs.Laws.{AreBytes};
ghost use Rattle.gateway.specs.declared.fault.GatewayFault.TheVariants as gateway_fault;
ghost use Rattle.refusals.specs.declared.refusal.Refusal.TheVariants.{Output, Reopen};
ghost use Rattle.refusals.specs.Words.{first_line};
ghost use Rattle.commands.specs.Faults.{IsOfGateway, IsOfStream, EndIsToldAs, edge_refusal};
ghost use Rattle.socket_edge.specs.Running.{AnswersFirst, AtEachTurn, Fares, RunEnded, TurnsEnd, events_in};
ghost use Rattle.socket_edge.specs.Turns.{Turn, given, taken};
ghost use Rattle.socket_edge.specs.declared.fault.EdgeFault.{EdgeFault as Fault};
ghost use Rattle.commands.specs.Visits.{EndHasCause};

use crate::faults::{ends_program, of_edge};
use disk_model::Disk;
use gateway::Gateway;
use refusals::{Refusal, tell_word};
use socket_edge::EdgeFault;
use std::alloc::Global;
use std::io::{Read, Write};

/// Answers the requests of one stream.
pub(crate) fn answer_all<R: Read, W: Write, D: Disk + Drop>(
    alloc: Global,
    reader: &mut R,
    writer: &mut W,
    gateway: &mut Gateway<D>,
) -> Result<u64, EdgeFault>
    ensures ran { (given written : List ℕ)
        × Consumes (R.remaining reader.old) (R.remaining reader.new) given
        × Appends (W.contents writer.old) (W.contents writer.new) written
        × RunEnded result gateway.old.told gateway.new.told given written
        (IsAtEnd (R.remaining reader.new))
        × Fares D.honest D.moment D.left gateway.old gateway.new (events_in given) written
        × AreBytes given }
    ensures each_turn { (turns : List Turn)
        × Consumes (R.remaining reader.old) (R.remaining reader.new) (given turns)
        × Appends (W.contents writer.old) (W.contents writer.new) (taken turns)
        × RunEnded result gateway.old.told gateway.new.told (given turns) (taken turns)
        (IsAtEnd (R.remaining reader.new))
        × Fares D.honest D.moment D.left gateway.old gateway.new (events_in (given turns))
        (taken turns)
        × AnswersFirst gateway.old.told turns
        × AtEachTurn D.honest D.moment D.left gateway.old gateway.new turns
        × TurnsEnd result turns
        × AreBytes (given turns) }
    ensures cause { gateway.old.fallen ≡ false
        → EndHasCause D.honest D.moment D.left D.failed result gateway.old gateway.new }
    ensures reopen { gateway.old.fallen ≡ true
        → (result ≡ Err (EdgeFault.Gateway gateway_fault.Reopen)) × (gateway.new ≡ gateway.old)
        × (reader.new ≡ reader.old) × (writer.new ≡ writer.old) }
{
    socket_edge::run(alloc, reader, writer, gateway)
}

/// Answers the requests of one stream, which is all that there is.
///
/// # Errors
///
/// The refusal for the stream's fault. What was answered before is written. `Reopen` if the gateway had fallen before:
/// then nothing is read, and nothing changes.
pub fn replay<R: Read, W: Write, D: Disk + Drop>(
    alloc: Global,
    reader: &mut R,
    writer: &mut W,
    gateway: &mut Gateway<D>,
) -> Result<(), Refusal>
    // What was read and what was written, how the run ended that this tells of, what a crash leaves of it, that what was
    // read is bytes, and why it ended so.
    ensures ran { (ended : Result ℕ Fault) × EndIsToldAs ended result × (given written : List ℕ)
        × Consumes (R.remaining reader.old) (R.remaining reader.new) given
        × Appends (W.contents writer.old) (W.contents writer.new) written
        × RunEnded ended gateway.old.told gateway.new.told given written
        (IsAtEnd (R.remaining reader.new))
        × Fares D.honest D.moment D.left gateway.old gateway.new (events_in given) written
        × AreBytes given
        × (gateway.old.fallen ≡ false
        → EndHasCause D.honest D.moment D.left D.failed ended gateway.old gateway.new) }

    // By which turns with the two streams it went: all of `ran` holds of them, and all that `socket_edge::run_with` says
    // of its own.
    ensures each_turn { (ended : Result ℕ Fault) × EndIsToldAs ended result × (turns : List Turn)
        × Consumes (R.remaining reader.old) (R.remaining reader.new) (given turns)
        × Appends (W.contents writer.old) (W.contents writer.new) (taken turns)
        × RunEnded ended gateway.old.told gateway.new.told (given turns) (taken turns)
        (IsAtEnd (R.remaining reader.new))
        × Fares D.honest D.moment D.left gateway.old gateway.new (events_in (given turns))
        (taken turns)
        × AnswersFirst gateway.old.told turns
        × AtEachTurn D.honest D.moment D.left gateway.old gateway.new turns
        × TurnsEnd ended turns
        × AreBytes (given turns)
        × (gateway.old.fallen ≡ false
        → EndHasCause D.honest D.moment D.left D.failed ended gateway.old gateway.new) }
    ensures reopen { gateway.old.fallen ≡ true → (result ≡ Err Reopen)
        × (gateway.new ≡ gateway.old) × (reader.new ≡ reader.old) × (writer.new ≡ writer.old) }
    ensures causes { IfErr result IsOfStream }
{
    match answer_all(alloc, reader, writer, gateway) {
        Ok(_) => Ok(()),
        Err(fault) => Err(of_edge(fault)),
    }
}

/// What the end of one connection means for the program: it goes on, and the word of a fault is told on `errors`; or it
/// ends, where the gateway has failed.
///
/// # Errors
///
/// The refusal for a fault of the gateway; `Output` where the word can't be told.
pub fn tell_end<W: Write>(ended: Result<u64, EdgeFault>, errors: &mut W) -> Result<(), Refusal>
    ensures well { IsOk ended → IsOk result × (errors.new ≡ errors.old) }
    ensures ends { IfErr ended (λ fault. IsOfGateway fault
        → (result ≡ Err (edge_refusal fault)) × (errors.new ≡ errors.old)) }
    ensures goes_on { IfErr ended (λ fault. ¬ IsOfGateway fault
        → OnOk result (Appends (W.contents errors.old) (W.contents errors.new)
        (first_line (edge_refusal fault)))) }
    ensures only_output { IfErr ended (λ fault. ¬ IsOfGateway fault
        → IfErr result (λ refusal. refusal ≡ Output)) }
{
    let fault = match ended {
        Ok(_) => return Ok(()),
        Err(fault) => fault,
    };
    let refusal = of_edge(fault);
    if ends_program(fault) {
        return Err(refusal);
    }
    match tell_word(errors, refusal) {
        Ok(()) => Ok(()),
        Err(_) => Err(Refusal::Output),
    }
}
