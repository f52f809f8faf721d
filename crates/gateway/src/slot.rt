//! A slot for one answer: memory that the copies of packets use one after the other.
ghost use Rattle.std.specs.Prelude.{◌≡◌, ◌≤◌, length, vec_capacity};
ghost use Rattle.machine.specs.Fates.{answer_of};

use machine::{Answer, Bytes, Fate};
use std::alloc::{AllocError, Global};
use std::marker::Model;

/// The longest packet, in bytes: a slot has room for each.
const LONGEST_PACKET: usize = 65535;

/// An answer with its number. It is seen as the two; of a packet that leaves a copy lies in memory that is kept.
#[derive(Drop)]
pub(crate) struct AnswerSlot {
    number: u64,
    fate: Fate,
    packet: Vec<u8>,
}

impl Model for AnswerSlot {
    ghost use Rattle.std.specs.Prelude.{ℕ, ◌≤◌, length, vec_capacity};
    ghost use Rattle.machine.specs.Fates.{answer_of};
    ghost use Rattle.machine.specs.declared.event.Answer.{Answer};

    ghost Value = { ℕ × Answer };

    ghost view = { λ s. (s.number, answer_of s.fate s.packet.items) };

    ghost invariant = { λ s. (length s.packet.items ≤ 65535) × (65535 ≤ vec_capacity s.packet) };
}

impl AnswerSlot {
    /// A slot with room for a packet. What lies in it means nothing yet.
    ///
    /// # Errors
    ///
    /// `AllocError` where memory is refused.
    pub(crate) fn new(alloc: Global) -> Result<AnswerSlot, AllocError> {
        Ok(AnswerSlot {
            number: 0,
            fate: Fate::Dropped(0),
            packet: Vec::with_capacity(alloc, LONGEST_PACKET)?,
        })
    }

    /// Puts down what an event came to, with a copy of its packet, in place of what was there.
    #[inline(always)]
    pub(crate) fn put(&mut self, number: u64, fate: Fate, packet: &[u8])
        requires { length packet.now ≤ 65535 }
        ensures { self.new ≡ (number, answer_of fate packet.now) }
    {
        self.number = number;
        self.fate = fate;
        self.packet.clear();
        let _ = self.packet.extend_from_slice(packet);
    }

    /// The numbered answer, in the memory of the slot.
    pub(crate) fn into_answer(self) -> (u64, Answer)
        ensures { result ≡ self }
    {
        let AnswerSlot {
            number,
            fate,
            packet,
        } = self;
        (number, fate.answer(Bytes::of(packet)))
    }
}
