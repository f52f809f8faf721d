//! Writing the frames of answers: one by one those of answers that were held when a run began, and behind them in one
//! piece those that stand in bytes already; or all in one piece, for whoever has the answers alone.
ghost use Rattle.std.specs.Prelude.{◌≡◌, ◌++◌, OnOk, IfErr};
ghost use Rattle.std.specs.Io.KnownBytes.{Appends};
ghost use Rattle.frames.specs.Answers.{answer_body, frame_head, frame, frames};
ghost use Rattle.socket_edge.specs.Progress.{AppendsFront};
ghost use Rattle.socket_edge.specs.Serving.{HandsAll, HandsFront};

use crate::fault::EdgeFault;
use crate::peer::{Both, Peer};
use frames::{byte_of, head_bytes, put_frames};
use gateway::Answer;
use std::alloc::Global;
use std::io;
use std::io::Write;

/// Writes all of the bytes, in as many calls as the peer needs.
fn write_out<P: Peer>(peer: &mut P, bytes: &[u8]) -> Result<(), EdgeFault>
    ensures ok { OnOk result (HandsAll P.went peer.old peer.new bytes.now) }
    ensures err { IfErr result (λ e. (e ≡ EdgeFault.Output)
        × HandsFront P.went peer.old peer.new bytes.now) }
{
    let mut at = 0;
    while at < bytes.len() {
        match peer.write(&bytes[at..]) {
            Ok(0) => return Err(EdgeFault::Output),
            Ok(n) => at += n,
            Err(_) => return Err(EdgeFault::Output),
        }
    }
    Ok(())
}

/// Writes the one and then the other.
fn write_both<P: Peer>(peer: &mut P, first: &[u8], second: &[u8]) -> Result<(), EdgeFault>
    ensures ok { OnOk result (HandsAll P.went peer.old peer.new (first.now
        ++ second.now)) }
    ensures err { IfErr result (λ e. (e ≡ EdgeFault.Output)
        × HandsFront P.went peer.old peer.new (first.now ++ second.now)) }
{
    write_out(peer, first)?;
    write_out(peer, second)
}

fn write_head<P: Peer>(peer: &mut P, number: u64, answer: &Answer) -> Result<(), EdgeFault>
    ensures ok { OnOk result (HandsAll P.went peer.old peer.new
        (frame_head (number, answer.now))) }
    ensures err { IfErr result (λ e. (e ≡ EdgeFault.Output)
        × HandsFront P.went peer.old peer.new
        (frame_head (number, answer.now))) }
{
    let bytes = head_bytes(number, answer);
    write_out(peer, &bytes)
}

fn write_body<P: Peer>(peer: &mut P, answer: &Answer) -> Result<(), EdgeFault>
    ensures ok { OnOk result (HandsAll P.went peer.old peer.new
        (answer_body answer.now)) }
    ensures err { IfErr result (λ e. (e ≡ EdgeFault.Output)
        × HandsFront P.went peer.old peer.new (answer_body answer.now)) }
{
    match answer {
        Answer::Forward(iface, packet) => {
            write_both(peer, &[byte_of(*iface)], packet.as_slice())
        }
        Answer::Dropped(number) => write_out(peer, &[*number]),
        _ => Ok(()),
    }
}

/// Writes a frame without memory.
fn write_frame<P: Peer>(peer: &mut P, number: u64, answer: &Answer) -> Result<(), EdgeFault>
    ensures ok { OnOk result (HandsAll P.went peer.old peer.new
        (frame (number, answer.now))) }
    ensures err { IfErr result (λ e. (e ≡ EdgeFault.Output)
        × HandsFront P.went peer.old peer.new
        (frame (number, answer.now))) }
{
    write_head(peer, number, answer)?;
    write_body(peer, answer)
}

/// Writes the frames of the answers one by one, without memory.
fn send_frames<P: Peer>(peer: &mut P, answers: &[(u64, Answer)]) -> Result<(), EdgeFault>
    ensures ok { OnOk result (HandsAll P.went peer.old peer.new
        (frames answers.now)) }
    ensures err { IfErr result (λ e. (e ≡ EdgeFault.Output)
        × HandsFront P.went peer.old peer.new (frames answers.now)) }
{
    for pair in answers {
        write_frame(peer, pair.0, &pair.1)?;
    }
    Ok(())
}

/// Writes the frames of the answers one by one, in order, and takes no memory.
///
/// # Errors
///
/// `Output` where a write fails or takes no byte. A beginning of the frames is written then, also a
/// part of a frame.
pub fn send<W: Write>(writer: &mut W, answers: &[(u64, Answer)]) -> Result<(), EdgeFault>
    ensures ok { OnOk result (Appends (W.contents writer.old) (W.contents writer.new)
        (frames answers.now)) }
    ensures err { IfErr result (λ e. (e ≡ EdgeFault.Output)
        × AppendsFront (W.contents writer.old) (W.contents writer.new) (frames answers.now)) }
{
    let mut nobody = io::empty();
    let mut peer = Both {
        reader: &mut nobody,
        writer,
    };
    send_frames(&mut peer, answers)
}

/// Writes the frames of the answers, and then the bytes, in order.
///
/// # Errors
///
/// `Output` where a write fails or takes no byte. A beginning of them is written then, also a part of a frame.
pub(crate) fn send_before<P: Peer>(
    peer: &mut P,
    answers: &[(u64, Answer)],
    bytes: &[u8],
) -> Result<(), EdgeFault>
    ensures ok { OnOk result (HandsAll P.went peer.old peer.new (frames answers.now
        ++ bytes.now)) }
    ensures err { IfErr result (λ e. (e ≡ EdgeFault.Output)
        × HandsFront P.went peer.old peer.new (frames answers.now
        ++ bytes.now)) }
{
    send_frames(peer, answers)?;
    write_out(peer, bytes)
}

/// Writes the frames of the answers, in order: in one piece, or part by part where memory for that is refused.
///
/// # Errors
///
/// `Output` where a write fails or takes no byte. A beginning of the frames is written then, also a
/// part of a frame.
pub fn send_all<W: Write>(
    alloc: Global,
    writer: &mut W,
    answers: &[(u64, Answer)],
) -> Result<(), EdgeFault>
    ensures ok { OnOk result (Appends (W.contents writer.old) (W.contents writer.new)
        (frames answers.now)) }
    ensures err { IfErr result (λ e. (e ≡ EdgeFault.Output)
        × AppendsFront (W.contents writer.old) (W.contents writer.new) (frames answers.now)) }
{
    let mut bytes = Vec::new(alloc);
    let mut nobody = io::empty();
    let mut peer = Both {
        reader: &mut nobody,
        writer,
    };
    match put_frames(&mut bytes, answers) {
        Ok(()) => write_out(&mut peer, bytes.as_slice()),
        Err(_) => send_frames(&mut peer, answers),
    }
}
