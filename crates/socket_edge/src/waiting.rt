//! The bytes that were read and aren't answered yet, and in front of them, in the same memory, the frames of answers to
//! those that were: first those that were handed out, and then those that are held. The next read goes right behind
//! them, into memory that is kept.
//!
//! Memory is cleared before it is first read into, and a run may be of one packet. So the first reads ask for 16,384
//! bytes, which hold a turn of short packets, and all behind one that came full ask for 65,536.
//!
//! `read` lets the answers go, and puts what comes behind the bytes that wait. `take_next` has the gateway take the
//! request at their front where it lies (`answering::answer_request`), and moves its answer's frame behind the others.
//! `release` says that the held answers are handed out. `answered` is what may be written.
ghost use Rattle.std.specs.Prelude.{◌≡◌, ◌≢◌, ◌+◌, ◌<◌, ◌≤◌, ◌++◌, ◌∷◌, [], ℕ, List, IfErr, IfOk, OnOk, OnErr, length, take, drop, true, false};
ghost use Rattle.packet.specs.Laws.{AreBytes};
ghost use Rattle.gateway.specs.Running.{BreaksOff, CarriesOn};
ghost use Rattle.machine.specs.declared.event.Answer.{Answer};
ghost use Rattle.machine.specs.declared.event.Event.{Event};
ghost use Rattle.frames.specs.Answers.{frames};
ghost use Rattle.frames.specs.Requests.{IsFront, next, Whole};
ghost use Rattle.socket_edge.specs.Turns.{Gave, ReadFailed};

use crate::answering::answer_request;
use crate::peer::Peer;
use disk_model::Disk;
use frames::{Front, Kind};
use gateway::{Gateway, GatewayFault};
use std::alloc::{AllocError, Global};
use std::marker::Model;

/// The most bytes that one read takes.
const MOST_READ: usize = 65_536;

/// How many bytes a read asks for until one of them came full.
const FIRST_READ: usize = 16_384;

/// Why nothing was read.
#[derive(Clone, Copy, Drop)]
pub enum Unread {
    /// Memory for a read was refused.
    NoMemory,
    /// The read failed.
    Failed,
}

/// The bytes that wait, and the bytes that answer what stood in front of them. Contracts see both as an `Exchange`.
#[derive(Drop)]
pub struct Waiting {
    bytes: Vec<u8>,
    /// Where the frames of answers that were handed out end, and those of held answers begin.
    answered: usize,
    /// Where these end.
    held: usize,
    /// Where the bytes that wait begin.
    start: usize,
    /// Where they end.
    end: usize,
    /// How many bytes the next read asks for.
    asks: usize,
}

impl Model for Waiting {
    ghost use Rattle.std.specs.Prelude.{◌<◌, ◌≤◌, length, take, drop};
    ghost use Rattle.socket_edge.specs.Exchange.{Exchange};

    ghost Value = { Exchange };

    ghost view = { λ w. record {
      answered = take w.answered w.bytes.items;
      held = drop w.answered (take w.held w.bytes.items);
      unanswered = drop w.start (take w.end w.bytes.items);
    } };

    ghost invariant = { λ w. (w.answered ≤ w.held) × (w.held ≤ w.start) × (w.start ≤ w.end)
        × (w.end ≤ length w.bytes.items) × (0 < w.asks) × (w.asks ≤ 65536) };
}

impl Waiting {
    /// No bytes.
    pub fn new(alloc: Global) -> Waiting
        ensures { result ≡ record { answered = []; held = []; unanswered = [] } }
    {
        Waiting {
            bytes: Vec::new(alloc),
            answered: 0,
            held: 0,
            start: 0,
            end: 0,
            asks: FIRST_READ,
        }
    }

    /// The bytes that wait: they were read and aren't answered yet.
    #[inline(always)]
    pub fn unanswered(&self) -> &[u8]
        ensures { result.now ≡ self.now.unanswered }
    {
        &self.bytes.as_slice()[self.start..self.end]
    }

    /// The frames of the answers that were handed out.
    pub fn answered(&self) -> &[u8]
        ensures { result.now ≡ self.now.answered }
    {
        &self.bytes.as_slice()[..self.answered]
    }

    /// Has the gateway take the request at the front, of this kind, this moment in seconds and so many bytes. The frame
    /// of its answer stands behind the others then.
    ///
    /// # Errors
    ///
    /// The gateway's fault. The request isn't taken; answers that were held may be handed out.
    #[inline(always)]
    pub fn take_next<D: Disk + Drop>(
        &mut self,
        kind: Kind,
        moment: u64,
        size: usize,
        gateway: &mut Gateway<D>,
    ) -> Result<(), GatewayFault>
        requires stands { gateway.old.fallen ≡ false }
        requires in_place { gateway.old.in_place ≡ true }
        requires front { IsFront (Front.Whole kind moment size) self.old.unanswered }
        requires held { self.old.held ≡ frames gateway.old.told.held }
        ensures ok { OnOk result ((event : Event) × (handed : List (ℕ × Answer))
            × (next self.old.unanswered ≡ Whole event self.new.unanswered)
            × (self.new.answered ≡ self.old.answered ++ frames handed)
            × ((before : List (ℕ × Answer)) → CarriesOn D.honest D.moment D.left D.failed
            gateway.old gateway.new (event ∷ []) before (before ++ handed))) }
        ensures err { IfErr result (λ e. (event : Event) × (rest : List ℕ)
            × (handed : List (ℕ × Answer))
            × (next self.old.unanswered ≡ Whole event rest)
            × (self.new.answered ≡ self.old.answered ++ frames handed)
            × ((before : List (ℕ × Answer)) → BreaksOff D.honest D.moment D.left D.failed
            gateway.old gateway.new (event ∷ []) before (before ++ handed) e)) }
        ensures held { self.new.held ≡ frames gateway.new.told.held }
        ensures stands { OnOk result (gateway.new.fallen ≡ false) }
        ensures in_place { gateway.new.in_place ≡ true }
    {
        let (bytes, end) = (self.bytes.as_mut_slice(), self.start + size);
        match answer_request(&mut bytes[self.start..end], kind, moment, gateway) {
            Ok(len) => {
                let (last, behind) = (self.held, self.held + len);
                move_down(bytes, self.start, len, last);
                self.answered = held_from(gateway.held(), self.answered, last, behind);
                self.held = behind;
                self.start = end;
                Ok(())
            }
            Err(fault) => {
                self.answered = held_from(gateway.held(), self.answered, self.answered, self.held);
                Err(fault)
            }
        }
    }

    /// Says that the held answers are handed out.
    pub fn release(&mut self)
        ensures { self.new ≡ record self.old {
          answered = self.old.answered ++ self.old.held;
          held = [];
        } }
    {
        self.answered = self.held;
    }

    /// Lets the answers go, asks once for more, at most 65,536 bytes, puts what comes behind the bytes that wait, and
    /// says how many bytes came; none where the input has ended.
    ///
    /// # Errors
    ///
    /// `NoMemory`: the peer wasn't asked. `Failed`: it gave nothing.
    pub fn read<P: Peer>(&mut self, peer: &mut P) -> Result<usize, Unread>
        ensures ok { IfOk result (λ n. (got : List ℕ)
            × P.went peer.old peer.new (Gave got ∷ [])
            × (self.new ≡ record {
              answered = [];
              held = [];
              unanswered = self.old.unanswered ++ got;
            })
            × (n ≡ length got) × (n ≤ 65536) × AreBytes got) }
        ensures end { IfOk result (λ n. n ≡ 0 → P.ended peer.new) }
        ensures err { OnErr result (self.new ≡ record self.old { answered = []; held = [] }) }
        ensures unasked { IfErr result (λ e. e ≡ Unread.NoMemory → peer.new ≡ peer.old) }
        ensures failed { IfErr result (λ e. e ≡ Unread.Failed
            → P.went peer.old peer.new (ReadFailed ∷ [])) }
    {
        self.move_to_front();
        if make_room(&mut self.bytes, self.end, self.asks).is_err() {
            return Err(Unread::NoMemory);
        }
        match read_behind(self.bytes.as_mut_slice(), self.end, self.asks, peer) {
            Ok(n) => {
                self.end += n;
                self.asks = asks_behind(self.asks, n);
                Ok(n)
            }
            Err(fault) => Err(fault),
        }
    }

    /// Lets the answers go, and moves the bytes that wait to the front.
    fn move_to_front(&mut self)
        ensures { self.new ≡ record self.old { answered = []; held = [] } }
    {
        self.answered = 0;
        self.held = 0;
        if self.start > 0 {
            self.bytes
                .as_mut_slice()
                .copy_within(self.start..self.end, 0);
            self.end -= self.start;
            self.start = 0;
        }
    }
}

/// Where the frames of held answers begin behind a call of the gateway that leaves so many held: at `end`, behind all
/// frames, if none is; at the last frame, if its answer alone is; and otherwise where they began before.
#[inline(always)]
fn held_from(count: usize, before: usize, last: usize, end: usize) -> usize
    requires last { before ≤ last }
    requires end { last ≤ end }
    ensures none { count ≡ 0 → result ≡ end }
    ensures one { count ≡ 1 → result ≡ last }
    ensures more { 1 < count → result ≡ before }
    ensures within { result ≤ end }
{
    match count {
        0 => end,
        1 => last,
        _ => before,
    }
}

/// Moves bytes towards the front, to a place that is there already or before them.
#[inline(always)]
fn move_down(bytes: &mut [u8], from: usize, len: usize, to: usize)
    requires within { from + len ≤ length bytes.old }
    requires down { to ≤ from }
    ensures there { take (to + len) bytes.new ≡ take to bytes.old
        ++ take len (drop from bytes.old) }
    ensures behind { drop (from + len) bytes.new ≡ drop (from + len) bytes.old }
    ensures size { length bytes.new ≡ length bytes.old }
{
    // Taken apart, so that a frame which lies in its place already costs one comparison.
    if to < from {
        copy_down(bytes, from, len, to);
    }
}

/// As `move_down`, to a place before them.
#[inline(never)]
fn copy_down(bytes: &mut [u8], from: usize, len: usize, to: usize)
    requires within { from + len ≤ length bytes.old }
    requires down { to ≤ from }
    ensures there { take (to + len) bytes.new ≡ take to bytes.old
        ++ take len (drop from bytes.old) }
    ensures behind { drop (from + len) bytes.new ≡ drop (from + len) bytes.old }
    ensures size { length bytes.new ≡ length bytes.old }
{
    bytes.copy_within(from..from + len, to);
}

/// How many bytes a read asks for behind one that asked for `asked` and got `got`.
fn asks_behind(asked: usize, got: usize) -> usize
    requires some { 0 < asked }
    requires most { asked ≤ 65536 }
    ensures some { 0 < result }
    ensures most { result ≤ 65536 }
    ensures full { got ≡ asked → result ≡ 65536 }
    ensures same { got ≢ asked → result ≡ asked }
{
    if got == asked { MOST_READ } else { asked }
}

/// Makes room for a read of `size` bytes behind the first `len`.
fn make_room(bytes: &mut Vec<u8>, len: usize, size: usize) -> Result<(), AllocError>
    requires within { len ≤ length bytes.old.items }
    requires size { size ≤ 65536 }
    ensures front { take len bytes.new.items ≡ take len bytes.old.items }
    ensures longer { length bytes.old.items ≤ length bytes.new.items }
    ensures most { length bytes.new.items ≢ length bytes.old.items
        → length bytes.new.items ≡ len + size }
    ensures ok { OnOk result (len + size ≤ length bytes.new.items) }
{
    let end = len + size;
    if bytes.as_slice().len() >= end {
        return Ok(());
    }
    bytes.resize(end, 0)
}

/// The proof of `read_behind` needs the range of bytes, which a function over `&[u8]` knows.
fn bytes_fit(bytes: &[u8])
    ensures { AreBytes bytes.now }
{}

/// Asks once for `size` bytes, puts what comes behind the first `len`, and says how many bytes came.
fn read_behind<P: Peer>(
    bytes: &mut [u8],
    len: usize,
    size: usize,
    peer: &mut P,
) -> Result<usize, Unread>
    requires room { len + size ≤ length bytes.old }
    requires some { 0 < size }
    ensures len { length bytes.new ≡ length bytes.old }
    ensures ok { IfOk result (λ n. (got : List ℕ)
        × P.went peer.old peer.new (Gave got ∷ [])
        × (take (len + n) bytes.new ≡ take len bytes.old ++ got) × (n ≡ length got) × (n ≤ size)
        × AreBytes got) }
    ensures end { IfOk result (λ n. n ≡ 0 → P.ended peer.new) }
    ensures err { OnErr result (take len bytes.new ≡ take len bytes.old) }
    ensures failed { IfErr result (λ e. (e ≡ Unread.Failed)
        × P.went peer.old peer.new (ReadFailed ∷ [])) }
{
    let came = peer.read(&mut bytes[len..len + size]);
    bytes_fit(bytes);
    match came {
        Ok(n) => Ok(n),
        Err(_) => Err(Unread::Failed),
    }
}
