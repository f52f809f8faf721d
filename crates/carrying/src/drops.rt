//! The packets of a turn that were dropped, as far as they are to be told of.
ghost use Rattle.std.specs.Prelude.{◌≡◌, ◌+◌, ◌<◌, ◌≤◌, ◌==◌, IfOk, IfSome, if◌then◌else◌, length};
ghost use Rattle.carrying.specs.Noting.{Notes, NotesMore, noted_at};

use byteorder::{BigEndian, ByteOrder};
use std::alloc::{AllocError, Global};
use std::marker::Model;

/// The bytes of a request before its body, and where the length of that stands.
const REQUEST_HEAD: usize = 14;

const REQUEST_LENGTH: usize = 2;

/// The same of an answer.
const ANSWER_HEAD: usize = 13;

const ANSWER_LENGTH: usize = 9;

/// The kind of an answer to a packet that was dropped.
const DROPPED: u8 = 2;

/// The interface of a request from wan.
const WAN: u8 = 1;

/// Of a packet so many bytes are kept: a header of IPv4, and that of TCP.
const MOST_FRONT: usize = 80;

/// The most packets of a turn.
const MOST_NOTED: usize = 256;

/// A packet that was dropped.
#[derive(Clone, Copy, Drop)]
pub struct Dropped {
    /// When it was, in seconds.
    pub moment: u64,
    /// The number of the cause (docs/frames.md).
    pub cause: u8,
    /// Whether it came from wan.
    pub from_wan: bool,
    front: [u8; MOST_FRONT],
    len: usize,
}

impl Dropped {
    /// Its first bytes.
    pub fn packet(&self) -> &[u8] {
        self.front.get(..self.len).unwrap_or(&[])
    }
}

/// Dropped packets, at most so many of each moment. Contracts see how many, as `Noted`.
#[derive(Drop)]
pub struct Drops {
    most: u64,
    moment: u64,
    count: u64,
    noted: Vec<Dropped>,
}

impl Model for Drops {
    ghost use Rattle.std.specs.Prelude.{◌≤◌, length, vec_capacity};
    ghost use Rattle.carrying.specs.Noting.{Noted};

    ghost Value = { Noted };

    ghost view = { λ d. record {
      most = d.most;
      moment = d.moment;
      count = d.count;
      fresh = length d.noted.items;
    } };

    ghost invariant = { λ d. (d.count ≤ d.most) × (256 ≤ vec_capacity d.noted) };
}

// The frame at the front and what is behind it. Its head has so many bytes, and in it, at a place, the length of the
// body.
fn first_frame(bytes: &[u8], head: usize, at: usize) -> Option<(&[u8], &[u8])>
    requires { at + 4 ≤ head }
    ensures { IfSome result (λ parts. length parts.1.now < length bytes.now) }
{
    if bytes.len() < head {
        return None;
    }
    let len = BigEndian::read_u32(&bytes[at..]) as usize;
    if bytes.len() - head < len {
        return None;
    }
    Some(bytes.split_at(head + len))
}

// The packet of a request, if its answer says that it was dropped.
fn dropped_by(moment: u64, request: &[u8], answer: &[u8]) -> Option<Dropped> {
    if request.len() < REQUEST_HEAD || answer.len() <= ANSWER_HEAD || answer[0] != DROPPED {
        return None;
    }
    let packet = &request[REQUEST_HEAD..];
    let len = packet.len().min(MOST_FRONT);
    let mut front = [0; MOST_FRONT];
    front[..len].copy_from_slice(&packet[..len]);
    Some(Dropped {
        moment,
        cause: answer[ANSWER_HEAD],
        from_wan: request[1] == WAN,
        front,
        len,
    })
}

impl Drops {
    /// None yet, and at most so many of each moment.
    pub fn new(alloc: Global, most: u64) -> Result<Drops, AllocError>
        ensures { IfOk result (λ drops. drops
            ≡ record { most = most; moment = 0; count = 0; fresh = 0 }) }
    {
        let mut noted = Vec::new(alloc);
        noted.reserve(MOST_NOTED)?;
        Ok(Drops {
            most,
            moment: 0,
            count: 0,
            noted,
        })
    }

    /// Those of the last turn.
    pub fn noted(&self) -> &[Dropped]
        ensures { length result.now ≡ self.now.fresh }
    {
        self.noted.as_slice()
    }

    // Begins a turn at a moment, in seconds.
    fn begin(&mut self, moment: u64)
        ensures bounded { self.new.count ≤ self.new.most }
        ensures begun { self.new ≡ record self.old {
          moment = moment;
          count = noted_at moment self.old;
          fresh = 0;
        } }
    {
        self.noted.clear();
        if moment != self.moment {
            self.moment = moment;
            self.count = 0;
        }
    }

    // Notes the packet of a request, if its answer says that it was dropped, and one more may be noted.
    fn note_one(&mut self, request: &[u8], answer: &[u8])
        ensures bounded { self.new.count ≤ self.new.most }
        ensures more { NotesMore self.old self.new }
    {
        if self.count >= self.most || self.noted.len() >= MOST_NOTED {
            return;
        }
        let Some(dropped) = dropped_by(self.moment, request, answer) else {
            return;
        };
        self.noted.push_reserved(dropped);
        self.count += 1;
    }

    // Notes the packets of requests that their answers say were dropped.
    fn note_all(&mut self, mut requests: &[u8], mut answers: &[u8])
        requires bounded { self.old.count ≤ self.old.most }
        ensures bounded { self.new.count ≤ self.new.most }
        ensures more { NotesMore self.old self.new }
    {
        while let Some((request, behind)) = first_frame(requests, REQUEST_HEAD, REQUEST_LENGTH) {
            let Some((answer, more)) = first_frame(answers, ANSWER_HEAD, ANSWER_LENGTH) else {
                return;
            };
            self.note_one(request, answer);
            requests = behind;
            answers = more;
        }
    }

    /// Forgets the packets of the turn before, and notes those of a turn at a moment, in seconds, that were dropped, as
    /// far as there may be more of this moment. The frames of the answers are those to the requests, in order.
    pub fn note(&mut self, moment: u64, requests: &[u8], answers: &[u8])
        ensures { Notes moment self.old self.new }
    {
        self.begin(moment);
        if self.most > 0 {
            self.note_all(requests, answers);
        }
    }
}
