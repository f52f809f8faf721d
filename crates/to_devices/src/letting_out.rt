//! The packets that leave by the frames of answers.
ghost use Rattle.std.specs.Prelude.{◌≡◌, ◌≤◌, ◌∷◌, ◌++◌, ℕ, Bool, List, IfNone, IfSome, drop, get_or, length, slice_index, take};
ghost use Rattle.std.specs.List.{AllByRecursion, flat_map};
ghost use Rattle.devices.specs.Handing.{Hands};
ghost use Rattle.to_devices.specs.Counting.{AreCounted, counted, leaves_one};
ghost use Rattle.to_devices.specs.Leaving.{leaving, leaving_by, leaving_on, no_header};
ghost use Rattle.to_devices.specs.Replies.{FitsReply, HasNoReply, Reply, reply_frame};

use crate::counts::Counts;
use crate::releasing::release;
use byteorder::{BigEndian, ByteOrder};
use devices::{Device, HEADER, Header, NO_HEADER};

/// The bytes of an answer before its body.
const REPLY_HEAD: usize = 13;

/// The bytes of an answer up to the first one of its body, with it.
const REPLY_FRONT: usize = REPLY_HEAD + 1;

/// The kind of an answer with a packet that leaves.
const FORWARD: u8 = 1;

// How many bytes the answer at the front has, where a whole one stands there.
fn whole_reply(bytes: &[u8]) -> Option<usize>
    ensures some { IfSome result (λ n. (reply : Reply) × FitsReply reply
        × (take n bytes.now ≡ reply_frame reply)) }
    ensures size { IfSome result (λ n. n ≤ length bytes.now) }
    ensures head { IfSome result (λ n. 13 ≤ n) }
    ensures none { IfNone result (HasNoReply bytes.now) }
{
    if bytes.len() < REPLY_HEAD {
        return None;
    }
    let len = BigEndian::read_u32(&bytes[9..]) as usize;
    if bytes.len() - REPLY_HEAD < len {
        return None;
    }
    Some(REPLY_HEAD + len)
}

// The header of the answer with this number among them.
fn header_at(headers: &[Header], number: usize) -> Header
    ensures { result ≡ get_or headers.now number no_header }
{
    if number < headers.len() {
        headers[number]
    } else {
        NO_HEADER
    }
}

// Hands the packet of an answer that leaves on, to the device that the first byte of the body names.
fn hand_on<L: Device, W: Device>(
    frame: &mut [u8],
    header: &Header,
    lan: &mut L,
    wan: &mut W,
    counts: &mut Counts,
)
    requires { 14 ≤ length frame.old }
    ensures lan { Hands (L.handed lan.old) (L.handed lan.new)
        (leaving_on 0 header.now (slice_index frame.old 13 ∷ drop 14 frame.old)) }
    ensures wan { Hands (W.handed wan.old) (W.handed wan.new)
        (leaving_on 1 header.now (slice_index frame.old 13 ∷ drop 14 frame.old)) }
    ensures from_lan { L.coming lan.new ≡ L.coming lan.old }
    ensures from_wan { W.coming wan.new ≡ W.coming wan.old }
    ensures lan_waited { L.waited lan.new ≡ L.waited lan.old }
    ensures wan_waited { W.waited wan.new ≡ W.waited wan.old }
    ensures len { length frame.new ≡ length frame.old }
    ensures counts { (out : Bool) × (counts.new ≡ leaves_one out
        (slice_index frame.old 13 ∷ drop 14 frame.old) counts.old) }
{
    let side = frame[REPLY_HEAD];
    // The header takes the place of what stands before the packet in the frame.
    let leaving = &mut frame[REPLY_FRONT - HEADER..];
    release(leaving, header);
    let len = leaving.len() - HEADER;
    match side {
        0 => counts.lan.leave(len, lan.send(leaving)),
        1 => counts.wan.leave(len, wan.send(leaving)),
        _ => {}
    }
}

// Does what an answer says, to a request that came from wan or didn't.
fn let_one_out<L: Device, W: Device>(
    frame: &mut [u8],
    header: &Header,
    from_wan: bool,
    lan: &mut L,
    wan: &mut W,
    counts: &mut Counts,
)
    requires { 13 ≤ length frame.old }
    ensures lan { (reply : Reply) → frame.old ≡ reply_frame reply
        → Hands (L.handed lan.old) (L.handed lan.new) (leaving_by 0 header.now reply) }
    ensures wan { (reply : Reply) → frame.old ≡ reply_frame reply
        → Hands (W.handed wan.old) (W.handed wan.new) (leaving_by 1 header.now reply) }
    ensures from_lan { L.coming lan.new ≡ L.coming lan.old }
    ensures from_wan { W.coming wan.new ≡ W.coming wan.old }
    ensures lan_waited { L.waited lan.new ≡ L.waited lan.old }
    ensures wan_waited { W.waited wan.new ≡ W.waited wan.old }
    ensures len { length frame.new ≡ length frame.old }
    ensures counts { (reply : Reply) → frame.old ≡ reply_frame reply → (out : Bool)
        × (counts.new ≡ counted from_wan out reply.kind reply.body counts.old) }
{
    if frame[0] != FORWARD {
        counts.tell(frame, from_wan);
        return;
    }
    if frame.len() < REPLY_FRONT {
        return;
    }
    hand_on(frame, header, lan, wan, counts);
}

/// Hands the packets that leave by these answers to the devices of their interfaces, in order, each once. The headers
/// are those of the requests that they answer; where there are fewer, `NO_HEADER`. Of an answer that isn't whole
/// nothing leaves. The bytes mean nothing afterwards. From the one with the number `wan_from` on, counted from 0, the
/// requests came from wan, which only the counts are told. Each answer is counted once.
pub(crate) fn let_all_out<L: Device, W: Device>(
    answers: &mut [u8],
    headers: &[Header],
    wan_from: usize,
    lan: &mut L,
    wan: &mut W,
    counts: &mut Counts,
)
    ensures left { (replies : List Reply) × (rest : List ℕ) × AllByRecursion FitsReply replies
        × (answers.old ≡ flat_map reply_frame replies ++ rest) × HasNoReply rest
        × Hands (L.handed lan.old) (L.handed lan.new) (leaving 0 headers.now replies)
        × Hands (W.handed wan.old) (W.handed wan.new) (leaving 1 headers.now replies)
        × AreCounted wan_from 0 replies counts.old counts.new }
    ensures from_lan { L.coming lan.new ≡ L.coming lan.old }
    ensures from_wan { W.coming wan.new ≡ W.coming wan.old }
    ensures lan_waited { L.waited lan.new ≡ L.waited lan.old }
    ensures wan_waited { W.waited wan.new ≡ W.waited wan.old }
{
    let mut at = 0;
    let mut number = 0;
    while let Some(len) = whole_reply(&answers[at..]) {
        let header = header_at(headers, number);
        let frame = &mut answers[at..at + len];
        let from_wan = wan_from <= number;
        let_one_out(frame, &header, from_wan, lan, wan, counts);
        at += len;
        number += 1;
    }
}
