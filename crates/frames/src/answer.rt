//! The frames of answers: put behind bytes (`put_frames`), or written over the request's own, as far as a packet that
//! lies there already (`write_front`).
ghost use Rattle.std.specs.Prelude.{◌≡◌, ◌≢◌, ◌+◌, ◌<◌, ◌≤◌, ◌^◌, ℕ, List, [], ◌∷◌, ◌++◌, OnOk, OnErr, length, take};
ghost use Rattle.byteorder.specs.Endian.{big_bytes};
ghost use Rattle.machine.specs.Fates.{answer_of};
ghost use Rattle.machine.specs.declared.event.Answer.TheVariants.{Dropped, Forward};
ghost use Rattle.machine.specs.declared.event.Fate.TheVariants.{Leaves};
ghost use Rattle.frames.specs.Answers.{iface_byte, kind_byte, answer_body, frame_head, frame, frames};

use machine::{Answer, Fate, Iface};
use std::alloc::AllocError;

/// The bytes of an answer's frame before its body.
pub const ANSWER_HEAD: usize = 13;

/// The bytes of an answer's frame up to the first one of its body, with it: all before the packet of a forward.
pub const ANSWER_FRONT: usize = ANSWER_HEAD + 1;

fn kind_of(answer: &Answer) -> u8
    ensures { result ≡ kind_byte answer.now }
{
    match answer {
        Answer::Forward(_, _) => 1,
        Answer::Dropped(_) => 2,
        Answer::Loaded => 3,
        Answer::Refused => 4,
        Answer::Ticked => 5,
    }
}

/// The byte of an interface.
pub fn byte_of(iface: Iface) -> u8
    ensures { result ≡ iface_byte iface }
{
    match iface {
        Iface::Lan => 0,
        Iface::Wan => 1,
    }
}

fn body_len(answer: &Answer) -> u32
    ensures { result ≡ length (answer_body answer.now) }
{
    match answer {
        Answer::Forward(_, packet) => 1 + packet.as_slice().len() as u32,
        Answer::Dropped(_) => 1,
        _ => 0,
    }
}

/// The bytes of a frame before its body.
fn head_with(kind: u8, number: u64, len: u32) -> [u8; ANSWER_HEAD]
    ensures { result ≡ kind ∷ big_bytes 8 number ++ big_bytes 4 len }
{
    let mut bytes = [0; ANSWER_HEAD];
    bytes[0] = kind;
    bytes[1..9].copy_from_slice(&number.to_be_bytes());
    bytes[9..13].copy_from_slice(&len.to_be_bytes());
    bytes
}

/// The bytes of an answer's frame before its body.
pub fn head_bytes(number: u64, answer: &Answer) -> [u8; ANSWER_HEAD]
    ensures { result ≡ frame_head (number, answer.now) }
{
    head_with(kind_of(answer), number, body_len(answer))
}

/// The bytes of a frame up to the first one of its body.
fn front_with(head: &[u8; ANSWER_HEAD], first: u8) -> [u8; ANSWER_FRONT]
    ensures { result ≡ head.now ++ first ∷ [] }
{
    let mut bytes = [0; ANSWER_FRONT];
    bytes[..ANSWER_HEAD].copy_from_slice(head);
    bytes[ANSWER_HEAD] = first;
    bytes
}

/// All bytes in front of the packet in the frame of a packet that leaves, whose length is in bytes.
fn forward_front(number: u64, iface: Iface, len: usize) -> [u8; ANSWER_FRONT]
    requires { len < 2 ^ 31 }
    ensures { (packet : List ℕ) → length packet ≡ len
        → result ++ packet ≡ frame (number, Forward iface packet) }
{
    front_with(&head_with(1, number, 1 + len as u32), byte_of(iface))
}

/// The frame of a packet that is dropped, for the cause with this number.
fn drop_frame(number: u64, cause: u8) -> [u8; ANSWER_FRONT]
    ensures { result ≡ frame (number, Dropped cause) }
{
    front_with(&head_with(2, number, 1), cause)
}

/// Puts a frame at the end: all before a packet in one piece. An `Err` may leave a part of it there.
fn put_parts(out: &mut Vec<u8>, number: u64, answer: &Answer) -> Result<(), AllocError>
    ensures ok { OnOk result (out.new.items ≡ out.old.items ++ frame (number, answer.now)) }
    ensures front { take (length out.old.items) out.new.items ≡ out.old.items }
{
    match answer {
        Answer::Forward(iface, packet) => {
            let packet = packet.as_slice();
            out.extend_from_slice(&forward_front(number, *iface, packet.len()))?;
            out.extend_from_slice(packet)?;
            Ok(())
        }
        Answer::Dropped(cause) => {
            out.extend_from_slice(&drop_frame(number, *cause))?;
            Ok(())
        }
        _ => {
            out.extend_from_slice(&head_bytes(number, answer))?;
            Ok(())
        }
    }
}

/// Puts the frame of an answer with this number at the end.
///
/// # Errors
///
/// `AllocError` where memory is refused. The bytes stay as they were.
fn put_frame(out: &mut Vec<u8>, number: u64, answer: &Answer) -> Result<(), AllocError>
    ensures ok { OnOk result (out.new.items ≡ out.old.items ++ frame (number, answer.now)) }
    ensures err { OnErr result (out.new.items ≡ out.old.items) }
{
    let before = out.as_slice().len();
    let put = put_parts(out, number, answer);
    if put.is_err() {
        out.truncate(before);
    }
    put
}

/// Puts the frames of answers at the end, each with its number.
///
/// # Errors
///
/// `AllocError` where memory is refused. The frames of a beginning of the answers are put.
pub fn put_frames(out: &mut Vec<u8>, answers: &[(u64, Answer)]) -> Result<(), AllocError>
    ensures ok { OnOk result (out.new.items ≡ out.old.items ++ frames answers.now) }
    ensures err { OnErr result ((n : ℕ)
        × (out.new.items ≡ out.old.items ++ frames (take n answers.now))) }
{
    for pair in answers {
        put_frame(out, pair.0, &pair.1)?;
    }
    Ok(())
}

/// Writes a frame without a body over the first bytes, and a zero behind it. Says how many bytes the frame has.
fn write_bare(front: &mut [u8], kind: u8, number: u64) -> usize
    requires { length front.old ≡ 14 }
    ensures frame { take result front.new ≡ kind ∷ big_bytes 8 number ++ big_bytes 4 0 }
    ensures size { result ≡ 13 }
    ensures length { length front.new ≡ length front.old }
{
    front.copy_from_slice(&front_with(&head_with(kind, number, 0), 0));
    ANSWER_HEAD
}

/// Writes the frame of an answer over the first 14 bytes of its request's, as far as a packet that leaves: that one
/// has `len` bytes, and lies behind them already. Says how many bytes the frame has, which are no more than the
/// request's. Compiled into its callers, since each request is answered so.
#[inline(always)]
pub fn write_front(front: &mut [u8], number: u64, fate: Fate, len: usize) -> usize
    requires size { length front.old ≡ 14 }
    requires small { len < 2 ^ 31 }
    ensures frame { (packet : List ℕ) → length packet ≡ len
        → take result (front.new ++ packet) ≡ frame (number, answer_of fate packet) }
    ensures within { result ≤ 14 + len }
    ensures size { length front.new ≡ length front.old }
{
    match fate {
        Fate::Leaves(iface) => {
            front.copy_from_slice(&forward_front(number, iface, len));
            ANSWER_FRONT + len
        }
        _ => write_short(front, number, fate),
    }
}

/// As `write_front`, where no packet leaves. Not compiled into its caller: most packets leave.
#[inline(never)]
fn write_short(front: &mut [u8], number: u64, fate: Fate) -> usize
    requires size { length front.old ≡ 14 }
    requires short { (iface : Iface) → fate ≢ Leaves iface }
    ensures frame { (packet : List ℕ) → take result (front.new ++ packet)
        ≡ frame (number, answer_of fate packet) }
    ensures within { result ≤ 14 }
    ensures size { length front.new ≡ length front.old }
{
    match fate {
        Fate::Dropped(cause) => {
            front.copy_from_slice(&drop_frame(number, cause));
            ANSWER_FRONT
        }
        Fate::Loaded => write_bare(front, 3, number),
        Fate::Refused => write_bare(front, 4, number),
        Fate::Ticked => write_bare(front, 5, number),
        Fate::Leaves(_) => unreachable!(),
    }
}
