//! What became of an event that was taken: its answer is handed out at once, or held (`give`).
ghost use Rattle.std.specs.Prelude.{◌≡◌, ◌<◌, ◌≤◌, length};
ghost use Rattle.machine.specs.Fates.{answer_of};
ghost use Rattle.gateway.specs.Given.{answer_given, given_by, packet_of};
ghost use Rattle.gateway.specs.HeldAnswers.{Gives};

use crate::pending::Pending;
use machine::{Answer, Fate};

/// What became of an event that was taken, with its number.
#[derive(Drop)]
pub enum Given {
    /// It is answered.
    Now(u64, Answer),
    /// Its answer is held: the next `flush` that succeeds hands it out, or `settle` lets it go.
    Held(u64),
}

/// What became of an event that was taken in its caller's bytes, with its number. A packet that leaves lies there.
#[derive(Clone, Copy, Drop)]
pub enum GivenInPlace {
    /// It is answered.
    Now(u64, Fate),
    /// Its answer is held: the next `flush` that succeeds hands it out, or `settle` lets it go.
    Held(u64, Fate),
}

// Says what an event comes to at once where no entry waits, and else holds its answer, with a copy of its packet.
#[inline(always)]
pub(crate) fn give(pending: &mut Pending, number: u64, fate: Fate, packet: &[u8]) -> GivenInPlace
    requires few { length pending.old.held < 64 }
    requires short { length packet.now ≤ 65535 }
    ensures gives { Gives pending.old pending.new (given_by result packet.now)
        (number, answer_of fate packet.now) }
    ensures answer { answer_given result packet.now ≡ (number, answer_of fate packet.now) }
{
    if !pending.is_quiet() {
        pending.hold(number, fate, packet);
        return GivenInPlace::Held(number, fate);
    }
    GivenInPlace::Now(number, fate)
}

// What became of an event that was taken, with its answer.
pub(crate) fn with_answer(taken: GivenInPlace, answer: Answer) -> Given
    requires { (answer_given taken (packet_of answer)).1 ≡ answer }
    ensures { result ≡ given_by taken (packet_of answer) }
{
    match taken {
        GivenInPlace::Now(number, _) => Given::Now(number, answer),
        GivenInPlace::Held(number, _) => Given::Held(number),
    }
}

// What an event came to that was answered so, and the bytes that its packet has.
pub(crate) fn parts_of(answer: &Answer) -> (Fate, &[u8])
    ensures whole { answer_of result.0 result.1.now ≡ answer.now }
    ensures packet { result.1.now ≡ packet_of answer.now }
{
    match answer {
        Answer::Forward(iface, packet) => (Fate::Leaves(*iface), packet.as_slice()),
        Answer::Dropped(cause) => (Fate::Dropped(*cause), &[]),
        Answer::Loaded => (Fate::Loaded, &[]),
        Answer::Refused => (Fate::Refused, &[]),
        Answer::Ticked => (Fate::Ticked, &[]),
    }
}
