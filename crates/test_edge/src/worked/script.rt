//! A little language of events and answers.
//!
//! Each line has one event, or what is so after the event above it:
//! - `lan 1000 4500..`, `wan 1000 4500..`: a packet that comes in at that moment, in hexadecimal with
//!   spaces for the eye;
//! - `load 1000 table ip t { }`: a ruleset; `at 1000`: a moment;
//! - `= wan 4500..`, `= lan 4500..`: the packet leaves there as this one; `= drop 13`; `= loaded`;
//!   `= refused`; `= ticked`;
//! - `: udp 192.168.1.2:5000 203.0.113.1:5000 198.51.100.7:53 - inside 0 at 1000`: the sessions, joined
//!   by commas: inside, outside, remote, phase, opener, the bits seen, the moment of the last packet.
use crate::shared::{
    ONE, Outside, Trials, close, hex, joined, length_of, opened_as, put_hex, request, run,
    run_over, run_over_as,
};
use gateway::Session;
use packet::{Endpoint, Proto};
use sessions::{Opener, Phase};
use socket_edge::EdgeFault;
use std::alloc::{AllocError, Global};
use std::net::Ipv4Addr;
use std::test::Fail;

/// Bytes in hexadecimal.
fn shown(alloc: Global, bytes: &[u8]) -> Result<String, Fail> {
    let mut text = String::new(alloc);
    for byte in bytes {
        put_byte(alloc, &mut text, *byte)?;
    }
    Ok(text)
}

fn put_byte(alloc: Global, text: &mut String, byte: u8) -> Result<(), Fail> {
    let digits = format!(in alloc; "{byte:02x}")?;
    text.push_str(digits.as_str())?;
    Ok(())
}

fn packet(alloc: Global, iface: u8, moment: u64, text: &str) -> Result<Vec<u8>, Fail> {
    let body = hex(alloc, text)?;
    Ok(request(alloc, 1, iface, moment, body.as_slice())?)
}

fn plain(alloc: Global, kind: u8, moment: u64, text: &str) -> Result<Vec<u8>, Fail> {
    Ok(request(alloc, kind, 0, moment, text.as_bytes())?)
}

/// An answer's frame.
fn answer(alloc: Global, kind: u8, number: u64, body: &[u8]) -> Result<Vec<u8>, AllocError> {
    joined(
        alloc,
        &[&[kind], &number.to_be_bytes(), &length_of(body), body],
    )
}

fn forward(alloc: Global, number: u64, iface: u8, packet: &str) -> Result<Vec<u8>, Fail> {
    let mut body = vec![in alloc; iface]?;
    put_hex(&mut body, packet)?;
    Ok(answer(alloc, 1, number, body.as_slice())?)
}

/// The frame that a line behind `=` stands for.
fn expected(alloc: Global, number: u64, line: &str) -> Result<Vec<u8>, Fail> {
    let (word, rest) = line.split_once(' ').unwrap_or((line, ""));
    match word {
        "lan" => forward(alloc, number, 0, rest),
        "wan" => forward(alloc, number, 1, rest),
        "drop" => dropped(alloc, number, rest),
        _ => without_body(alloc, number, line),
    }
}

fn dropped(alloc: Global, number: u64, cause: &str) -> Result<Vec<u8>, Fail> {
    let cause = cause.parse::<u8>()?;
    Ok(answer(alloc, 2, number, &[cause])?)
}

fn without_body(alloc: Global, number: u64, line: &str) -> Result<Vec<u8>, Fail> {
    let kind = match line {
        "loaded" => 3,
        "refused" => 4,
        "ticked" => 5,
        _ => return Err(Fail::new(format_args!("no answer: {line}"))),
    };
    Ok(answer(alloc, kind, number, &[])?)
}

/// The frame of an event's line: its first word, and what stands behind it.
fn asked(alloc: Global, word: &str, rest: &str) -> Result<Vec<u8>, Fail> {
    let (moment, body) = rest.split_once(' ').unwrap_or((rest, ""));
    let moment = moment.parse::<u64>()?;
    match word {
        "lan" => packet(alloc, 0, moment, body),
        "wan" => packet(alloc, 1, moment, body),
        "load" => plain(alloc, 2, moment, body),
        "at" => plain(alloc, 3, moment, ""),
        _ => Err(Fail::new(format_args!("no event: {word} {rest}"))),
    }
}

fn phase(session: &Session) -> &'static str {
    match (session.proto, session.phase()) {
        (Proto::Udp, _) => "-",
        (Proto::Tcp, Phase::Partial) => "partial",
        (Proto::Tcp, Phase::Established) => "established",
        (Proto::Tcp, Phase::Closing) => "closing",
    }
}

fn proto(session: &Session) -> &'static str {
    match session.proto {
        Proto::Tcp => "tcp",
        Proto::Udp => "udp",
    }
}

fn opener(session: &Session) -> &'static str {
    match session.opener {
        Opener::Inside => "inside",
        Opener::Remote => "remote",
    }
}

fn endpoint(alloc: Global, endpoint: Endpoint) -> Result<String, AllocError> {
    let addr = Ipv4Addr::from_bits(endpoint.addr);
    format!(in alloc; "{addr}:{}", endpoint.port)
}

fn endpoints(alloc: Global, session: &Session) -> Result<String, AllocError> {
    let inside = endpoint(alloc, session.inside)?;
    let outside = endpoint(alloc, session.outside)?;
    let remote = endpoint(alloc, session.remote)?;
    format!(in alloc; "{inside} {outside} {remote}")
}

fn last_use(alloc: Global, session: &Session) -> Result<String, AllocError> {
    format!(in alloc; "{} at {}", session.seen, session.last)
}

fn spelled(alloc: Global, session: &Session) -> Result<String, AllocError> {
    let endpoints = endpoints(alloc, session)?;
    let last_use = last_use(alloc, session)?;
    let (proto, phase, opener) = (proto(session), phase(session), opener(session));
    format!(in alloc; "{proto} {endpoints} {phase} {opener} {last_use}")
}

fn put_session(alloc: Global, all: &mut String, session: &Session) -> Result<(), AllocError> {
    if !all.is_empty() {
        all.push_str(", ")?;
    }
    let session = spelled(alloc, session)?;
    all.push_str(session.as_str())
}

fn put_sessions(alloc: Global, all: &mut String, sessions: &[Session]) -> Result<(), AllocError> {
    for session in sessions {
        put_session(alloc, all, session)?;
    }
    Ok(())
}

/// The sessions of a gateway, as a line behind `:` has them.
fn listed(alloc: Global, gateway: &Trials) -> Result<String, Fail> {
    let sessions = gateway.sessions()?;
    let mut all = String::new(alloc);
    put_sessions(alloc, &mut all, sessions.as_slice())?;
    Ok(all)
}

/// A script on its way: at what gateway, what was asked and what is to be answered in all, and the last answer.
#[derive(Drop)]
struct Stage {
    alloc: Global,
    outside: Outside,
    number: u64,
    written: Vec<u8>,
    all_asked: Vec<u8>,
    all_answers: Vec<u8>,
}

// Something else was found than the line has.
fn differs(number: u64, line: &str, found: &str) -> Result<(), Fail> {
    Err(Fail::new(format_args!("{number}: {line}: {found}")))
}

fn expect_sessions(stage: &Stage, gateway: &Trials, line: &str) -> Result<(), Fail> {
    let sessions = listed(stage.alloc, gateway)?;
    if sessions.as_str() == line {
        return Ok(());
    }
    differs(stage.number, line, sessions.as_str())
}

impl Stage {
    // The frame of the next event.
    fn next(&mut self, word: &str, rest: &str) -> Result<Vec<u8>, Fail> {
        let frame = asked(self.alloc, word, rest)?;
        self.number = self.number.saturating_add(1);
        self.all_asked.extend_from_slice(frame.as_slice())?;
        Ok(frame)
    }

    fn expect_answer(&mut self, line: &str) -> Result<(), Fail> {
        let frame = expected(self.alloc, self.number, line)?;
        self.expect_frame(line, frame.as_slice())
    }

    fn expect_frame(&mut self, line: &str, frame: &[u8]) -> Result<(), Fail> {
        if self.written.as_slice() != frame {
            return self.tell_answer(line);
        }
        self.all_answers.extend_from_slice(frame)?;
        Ok(())
    }

    // The last answer is not the one of this line.
    fn tell_answer(&self, line: &str) -> Result<(), Fail> {
        let written = shown(self.alloc, self.written.as_slice())?;
        differs(self.number, line, written.as_str())
    }
}

fn ask(stage: &mut Stage, gateway: &mut Trials, word: &str, rest: &str) -> Result<(), Fail> {
    let frame = stage.next(word, rest)?;
    let mut reader = frame.as_slice();
    stage.written.clear();
    run(stage.alloc, &mut reader, &mut stage.written, gateway)?;
    Ok(())
}

fn play_line(stage: &mut Stage, gateway: &mut Trials, line: &str) -> Result<(), Fail> {
    let (word, rest) = line.split_once(' ').unwrap_or((line, ""));
    match word {
        "=" => stage.expect_answer(rest),
        ":" => expect_sessions(stage, gateway, rest),
        _ => ask(stage, gateway, word, rest),
    }
}

fn play_lines(stage: &mut Stage, gateway: &mut Trials, part: &str) -> Result<(), Fail> {
    for line in part.lines() {
        play_line(stage, gateway, line)?;
    }
    Ok(())
}

fn play_parts(stage: &mut Stage, gateway: &mut Trials, parts: &[&str]) -> Result<(), Fail> {
    for part in parts {
        play_lines(stage, gateway, part)?;
    }
    Ok(())
}

fn play_both(
    stage: &mut Stage,
    gateway: &mut Trials,
    front: &[&str],
    parts: &[&str],
) -> Result<(), Fail> {
    play_parts(stage, gateway, front)?;
    play_parts(stage, gateway, parts)
}

fn play_anew(stage: &mut Stage, front: &[&str], parts: &[&str]) -> Result<(), Fail> {
    let mut gateway = opened_as(stage.alloc, stage.outside)?;
    let played = play_both(stage, &mut gateway, front, parts);
    close(gateway);
    played
}

// Each event alone, and then all of them in one stream.
fn play_on(stage: &mut Stage, front: &[&str], parts: &[&str]) -> Result<(), Fail> {
    play_anew(stage, front, parts)?;
    let (asked, answers) = (stage.all_asked.as_slice(), stage.all_answers.as_slice());
    let (ended, written) = run_over_as(stage.alloc, asked, stage.outside);
    expect_ended(stage.alloc, ended, &written, Ok(stage.number), answers)
}

/// Plays the parts one behind the other: each event alone, and then all of them in one stream.
///
/// # Errors
///
/// A `Fail` with the number of the event, the line and what came instead; or where a line can't be read.
pub fn play(alloc: Global, parts: &[&str]) -> Result<(), Fail> {
    play_one(alloc, ONE, &[], parts)
}

/// As `play`, at a gateway with these external addresses and this filtering.
///
/// # Errors
///
/// Those of `play`.
pub fn play_as(alloc: Global, outside: Outside, parts: &[&str]) -> Result<(), Fail> {
    play_one(alloc, outside, &[], parts)
}

fn play_one(alloc: Global, outside: Outside, front: &[&str], parts: &[&str]) -> Result<(), Fail> {
    let mut stage = Stage {
        alloc,
        outside,
        number: 0,
        written: Vec::new(alloc),
        all_asked: Vec::new(alloc),
        all_answers: Vec::new(alloc),
    };
    let played = play_on(&mut stage, front, parts);
    drop(stage);
    played
}

/// Plays each of these scripts, the parts of one behind the other.
///
/// # Errors
///
/// Those of the first one that fails.
pub fn play_each(alloc: Global, scripts: &[&[&str]]) -> Result<(), Fail> {
    play_behind(alloc, &[], scripts)
}

/// Plays each of these scripts behind the parts that all of them begin with.
///
/// # Errors
///
/// Those of the first one that fails.
pub fn play_behind(alloc: Global, front: &[&str], scripts: &[&[&str]]) -> Result<(), Fail> {
    for parts in scripts {
        play_one(alloc, ONE, front, parts)?;
    }
    Ok(())
}

/// Plays each of these scripts at a gateway with these external addresses and this filtering.
///
/// # Errors
///
/// Those of the first one that fails.
pub fn play_each_as(alloc: Global, outside: Outside, scripts: &[&[&str]]) -> Result<(), Fail> {
    for parts in scripts {
        play_as(alloc, outside, parts)?;
    }
    Ok(())
}

fn put_expected(alloc: Global, out: &mut Vec<u8>, number: u64, line: &str) -> Result<(), Fail> {
    let frame = expected(alloc, number, line)?;
    out.extend_from_slice(frame.as_slice())?;
    Ok(())
}

/// The frames of the answers in these lines, as those behind `=`, to the events 1, 2, ..
fn frames(alloc: Global, lines: &str) -> Result<Vec<u8>, Fail> {
    let mut out = Vec::new(alloc);
    let mut number = 0_u64;
    for line in lines.lines() {
        number = number.saturating_add(1);
        put_expected(alloc, &mut out, number, line)?;
    }
    Ok(out)
}

/// Runs over a stream in hexadecimal, and expects this end of it and these answers, one on a line.
///
/// # Errors
///
/// A `Fail` with the end and the bytes that came instead; or where the stream or an answer can't be read.
pub fn expect_end(
    alloc: Global,
    stream: &str,
    end: Result<u64, EdgeFault>,
    answers: &str,
) -> Result<(), Fail> {
    let answers = frames(alloc, answers)?;
    let stream = hex(alloc, stream)?;
    let (ended, written) = run_over(alloc, stream.as_slice());
    expect_ended(alloc, ended, &written, end, answers.as_slice())
}

fn expect_ended(
    alloc: Global,
    ended: Result<u64, EdgeFault>,
    written: &[u8],
    end: Result<u64, EdgeFault>,
    answers: &[u8],
) -> Result<(), Fail> {
    if ended == end && written == answers {
        return Ok(());
    }
    tell_end(alloc, ended, written)
}

// A stream ended otherwise, or was answered otherwise.
fn tell_end(alloc: Global, ended: Result<u64, EdgeFault>, written: &[u8]) -> Result<(), Fail> {
    let written = shown(alloc, written)?;
    Err(Fail::new(format_args!("{ended:?}: {written}")))
}
