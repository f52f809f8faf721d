//! Writers that take little at a time, or fail: what they get, and how often they are called.
use crate::pieces::End;
use gateway::{Answer, Bytes, Iface};
use socket_edge::{EdgeFault, send, send_all};
use std::alloc::{AllocError, Global};
use std::io::{self, Write};
use std::process::Abort;
use std::test::Fail;

/// The frames of `answers`.
const FRAMES: [u8; 86] = [
    1, 0, 0, 0, 0, 0, 0, 0, 9, 0, 0, 0, 4, 1, 0x45, 0, 0x1c, 2, 0, 0, 0, 0, 0, 0, 0, 0x0a, 0, 0, 0,
    1, 20, 3, 0, 0, 0, 0, 0, 0, 0, 0x0b, 0, 0, 0, 0, 1, 0, 0, 0, 0, 0, 0, 0, 0x0c, 0, 0, 0, 3, 0,
    0x45, 0x10, 4, 1, 2, 3, 4, 5, 6, 7, 8, 0, 0, 0, 0, 5, 0xff, 0xff, 0xff, 0xff, 0xff, 0xff, 0xff,
    0xff, 0, 0, 0, 0,
];

type Answers = Vec<(u64, Answer)>;

fn to_wan(alloc: Global) -> Result<Answer, AllocError> {
    let packet = Vec::from_slice(alloc, &[0x45, 0, 0x1c])?;
    Ok(Answer::Forward(Iface::Wan, Bytes::of(packet)))
}

fn to_lan(alloc: Global) -> Result<Answer, AllocError> {
    let packet = Vec::from_slice(alloc, &[0x45, 0x10])?;
    Ok(Answer::Forward(Iface::Lan, Bytes::of(packet)))
}

fn put(answers: &mut Answers, number: u64, answer: Answer) -> Result<(), AllocError> {
    answers.push((number, answer))?;
    Ok(())
}

fn put_each_kind(alloc: Global, answers: &mut Answers) -> Result<(), AllocError> {
    put(answers, 9, to_wan(alloc)?)?;
    put(answers, 10, Answer::Dropped(20))?;
    put(answers, 11, Answer::Loaded)?;
    put(answers, 12, to_lan(alloc)?)?;
    put(answers, 0x0102_0304_0506_0708, Answer::Refused)?;
    put(answers, u64::MAX, Answer::Ticked)
}

/// An answer of each kind, with packets of 3 bytes to wan and of 2 to lan.
fn answers(alloc: Global) -> Result<Answers, AllocError> {
    let mut answers = Vec::new(alloc);
    put_each_kind(alloc, &mut answers)?;
    Ok(answers)
}

/// Takes up to `most` bytes a call, and none from the call `last` on.
#[derive(Drop)]
struct Taker {
    got: Vec<u8>,
    calls: usize,
    most: usize,
    last: usize,
    end: End,
}

impl Write for Taker {
    fn write(&mut self, buf: &[u8]) -> io::Result<usize> {
        self.calls = self.calls.saturating_add(1);
        if self.calls < self.last {
            let n = buf.len().min(self.most);
            self.got.extend_from_slice(&buf[..n])?;
            return Ok(n);
        }
        match self.end {
            End::Fails => Err(io::Error::from(io::ErrorKind::BrokenPipe)),
            End::TakesNone => Ok(0),
        }
    }

    fn flush(&mut self) -> io::Result<()> {
        Ok(())
    }
}

/// It has room for all frames, so that it needs no more memory.
fn taking(alloc: Global, most: usize, last: usize, end: End) -> Result<Taker, AllocError> {
    Ok(Taker {
        got: Vec::with_capacity(alloc, FRAMES.len())?,
        calls: 0,
        most,
        last,
        end,
    })
}

/// How sending in one piece ends, of which a test knows no clause.
fn send_whole(
    alloc: Global,
    writer: &mut Taker,
    answers: &[(u64, Answer)],
) -> Result<(), EdgeFault> {
    send_all(alloc, writer, answers)
}

/// How sending in parts ends.
fn send_parts(writer: &mut Taker, answers: &[(u64, Answer)]) -> Result<(), EdgeFault> {
    send(writer, answers)
}

/// Whether sending ends so, in one piece and in parts, and both writers get this.
fn is_sent(
    alloc: Global,
    answers: &[(u64, Answer)],
    (most, last, end): (usize, usize, End),
    ended: &Result<(), EdgeFault>,
    got: &[u8],
) -> Result<bool, AllocError> {
    let mut whole = taking(alloc, most, last, end)?;
    let mut parts = taking(alloc, most, last, end)?;
    let is_whole = send_whole(alloc, &mut whole, answers) == *ended;
    let is_in_parts = send_parts(&mut parts, answers) == *ended;
    let is_got = whole.got.as_slice() == got && parts.got.as_slice() == got;
    Ok(is_whole && is_in_parts && is_got)
}

/// Whether all frames have come in one call, or in this many.
fn is_whole_in(writer: &Taker, calls: usize) -> bool {
    writer.got.as_slice() == &FRAMES[..] && (writer.calls == 1 || writer.calls == calls)
}

/// Whether all is sent, in one call or in this many.
fn is_sent_in(alloc: Global, writer: &mut Taker, answers: &[(u64, Answer)], calls: usize) -> bool {
    send_whole(alloc, writer, answers) == Ok(()) && is_whole_in(writer, calls)
}

/// Whether no call is made where there is no answer.
fn is_quiet(alloc: Global, writer: &mut Taker) -> bool {
    send_whole(alloc, writer, &[]) == Ok(()) && writer.calls == 0
}

#[test]
fn one_call_is_enough(rt: HostRuntime) -> Result<(), Fail> {
    let answers = answers(rt.alloc())?;
    let mut writer = taking(rt.alloc(), usize::MAX, usize::MAX, End::Fails)?;
    let is_sent = is_sent_in(rt.alloc(), &mut writer, answers.as_slice(), 1);
    drop(answers);
    assert!(rt; is_sent);
    Ok(())
}

#[test]
fn no_answer_is_no_call(rt: HostRuntime) -> Result<(), Fail> {
    let mut writer = taking(rt.alloc(), usize::MAX, 0, End::Fails)?;
    assert!(rt; is_quiet(rt.alloc(), &mut writer));
    Ok(())
}

fn send_in_pieces(rt: &impl Abort, alloc: Global, answers: &[(u64, Answer)]) -> Result<(), Fail> {
    for most in &[1, 2, 13, 16, usize::MAX] {
        let writer = (*most, usize::MAX, End::Fails);
        assert!(rt; is_sent(alloc, answers, writer, &Ok(()), &FRAMES)?);
    }
    Ok(())
}

#[test]
fn writes_in_any_pieces(rt: HostRuntime) -> Result<(), Fail> {
    let answers = answers(rt.alloc())?;
    send_in_pieces(&rt, rt.alloc(), answers.as_slice())
}

fn end_at_each_call(
    rt: &impl Abort,
    alloc: Global,
    answers: &[(u64, Answer)],
    end: End,
) -> Result<(), Fail> {
    for taken in 0..FRAMES.len() {
        let writer = (1, taken + 1, end);
        let ended = Err(EdgeFault::Output);
        assert!(rt; is_sent(alloc, answers, writer, &ended, &FRAMES[..taken])?);
    }
    Ok(())
}

#[test]
fn ends_at_the_first_call_that_fails(rt: HostRuntime) -> Result<(), Fail> {
    let answers = answers(rt.alloc())?;
    end_at_each_call(&rt, rt.alloc(), answers.as_slice(), End::Fails)?;
    end_at_each_call(&rt, rt.alloc(), answers.as_slice(), End::TakesNone)
}

/// Holds under `rt try --test --fail-alloc N` for each N: where memory for one piece is refused,
/// the same bytes come in more calls.
#[test]
fn refused_memory(rt: HostRuntime) -> Result<(), Fail> {
    let Ok(answers) = answers(rt.alloc()) else {
        return Ok(());
    };
    let Ok(mut writer) = taking(rt.alloc(), usize::MAX, usize::MAX, End::Fails) else {
        return Ok(());
    };
    // A head for each of six answers, two parts of each of two bodies, and one of one.
    let is_sent = is_sent_in(rt.alloc(), &mut writer, answers.as_slice(), 11);
    drop(answers);
    assert!(rt; is_sent);
    Ok(())
}
