//! A little language of what is asked of a gateway and what it answers.
//!
//! A line asks, and the lines with `=` behind it are all that is answered:
//! - an event (module `words`) is offered: `now 3 ticked`, `held 1`, or the fault, as `held-full`; the event then came
//!   back as it was;
//! - `place` and an event: it is taken where it lies: `now 3 wan 4500..`, `held 4 loaded`, or the fault; the event then
//!   came back as it was;
//! - `flush`: a line for each answer with its number, or the fault; `compact`: `done`, or the fault;
//! - `held`, `grown`: the number; `rules`: the text; `sessions`: a line for each; `migrated`: whether the opening made a
//!   file anew since the active one was of a former version.
use crate::shared::{
    Answer, Bytes, Event, GatewayFault, Given, GivenInPlace, Iface, SIDES, Sides, TWO_FLUSHED,
    TWO_HELD, Trials, What, disk, left_of, opened_as,
};
use crate::words::{
    event_line, events, given_line, handed_line, put_squeezed, read_event, session_line, squeezed,
    told_line,
};
use std::alloc::{AllocError, Global};
use std::test::Fail;
use trial_disk::Trial;

/// The name of a fault.
pub fn name(fault: GatewayFault) -> &'static str {
    match fault {
        GatewayFault::Reopen => "reopen",
        GatewayFault::NumbersOut => "numbers-out",
        GatewayFault::HeldFull => "held-full",
        GatewayFault::Full => "full",
        GatewayFault::NoMemory => "no-memory",
        GatewayFault::Device => "device",
        GatewayFault::Generations => "generations",
    }
}

/// Offers an event.
pub fn offer(gateway: &mut Trials, event: Event) -> Result<Given, (Event, GatewayFault)> {
    gateway.offer(event)
}

/// Hands out what is held.
pub fn flush(gateway: &mut Trials) -> Result<Vec<(u64, Answer)>, GatewayFault> {
    gateway.flush()
}

/// Compacts, if nothing is held.
pub fn compact(gateway: &mut Trials) -> Option<Result<(), GatewayFault>> {
    if gateway.held() != 0 {
        return None;
    }
    Some(gateway.compact())
}

/// Takes the events in turn.
pub fn run(
    gateway: &mut Trials,
    events: Vec<Event>,
) -> Result<Vec<(u64, Answer)>, (Vec<(u64, Answer)>, GatewayFault)> {
    gateway.run(events)
}

/// What became of an event that was taken where it lies: whether its answer is held, its number and its answer.
pub type Told = (bool, u64, Answer);

fn told(taken: GivenInPlace, packet: Bytes) -> Told {
    match taken {
        GivenInPlace::Now(number, fate) => (false, number, fate.answer(packet)),
        GivenInPlace::Held(number, fate) => (true, number, fate.answer(packet)),
    }
}

fn take_packet(
    gateway: &mut Trials,
    moment: u64,
    iface: Iface,
    packet: Bytes,
) -> Result<Told, (Event, GatewayFault)> {
    let mut bytes = packet.into_vec();
    if bytes.len() > 65535 {
        let what = What::Packet(iface, Bytes::of(bytes));
        return Err((Event { moment, what }, GatewayFault::NoMemory));
    }
    match gateway.take_packet(moment, iface, &mut bytes) {
        Ok(taken) => Ok(told(taken, Bytes::of(bytes))),
        Err(fault) => {
            let what = What::Packet(iface, Bytes::of(bytes));
            Err((Event { moment, what }, fault))
        }
    }
}

fn take_text(
    alloc: Global,
    gateway: &mut Trials,
    moment: u64,
    text: Bytes,
) -> Result<Told, (Event, GatewayFault)> {
    let what = What::Load(text);
    match gateway.take_event(Event { moment, what }) {
        Ok(taken) => Ok(told(taken, Bytes::of(Vec::new(alloc)))),
        Err(refused) => Err(refused),
    }
}

fn take_moment(
    alloc: Global,
    gateway: &mut Trials,
    moment: u64,
) -> Result<Told, (Event, GatewayFault)> {
    let what = What::Moment;
    match gateway.take_event(Event { moment, what }) {
        Ok(taken) => Ok(told(taken, Bytes::of(Vec::new(alloc)))),
        Err(refused) => Err(refused),
    }
}

/// Has an event taken, and told at once. With a fault it comes back as it is then.
pub fn take(
    alloc: Global,
    gateway: &mut Trials,
    event: Event,
) -> Result<Told, (Event, GatewayFault)> {
    let Event { moment, what } = event;
    match what {
        What::Packet(iface, packet) => take_packet(gateway, moment, iface, packet),
        What::Load(text) => take_text(alloc, gateway, moment, text),
        What::Moment => take_moment(alloc, gateway, moment),
    }
}

// Puts a line without its spaces.
fn put_line(out: &mut String, line: &str) -> Result<(), AllocError> {
    put_squeezed(out, line)?;
    out.push_str("\n")
}

fn put_made(out: &mut String, line: Result<String, AllocError>) -> Result<(), AllocError> {
    let line = line?;
    put_line(out, line.as_str())
}

fn put_number(alloc: Global, out: &mut String, number: u64) -> Result<(), AllocError> {
    put_made(out, format!(in alloc; "{number}"))
}

fn put_answers(
    alloc: Global,
    out: &mut String,
    answers: &[(u64, Answer)],
) -> Result<(), AllocError> {
    for (number, answer) in answers {
        put_made(out, handed_line(alloc, *number, answer))?;
    }
    Ok(())
}

// Whether an event is that of a line.
fn is_of_line(alloc: Global, event: &Event, line: &str) -> Result<bool, AllocError> {
    let spelled = event_line(alloc, event)?;
    Ok(squeezed(alloc, spelled.as_str())? == squeezed(alloc, line)?)
}

// Puts a word, if the event came back as it was.
fn put_back(
    alloc: Global,
    out: &mut String,
    event: &Event,
    line: &str,
    word: &str,
) -> Result<(), AllocError> {
    if is_of_line(alloc, event, line)? {
        return put_line(out, word);
    }
    put_line(out, "another event came back")
}

fn ask_event(
    alloc: Global,
    out: &mut String,
    gateway: &mut Trials,
    line: &str,
) -> Result<(), AllocError> {
    let Some(event) = read_event(alloc, line) else {
        return put_line(out, "no event");
    };
    match offer(gateway, event) {
        Ok(given) => put_made(out, given_line(alloc, &given)),
        Err((event, fault)) => put_back(alloc, out, &event, line, name(fault)),
    }
}

fn ask_place(
    alloc: Global,
    out: &mut String,
    gateway: &mut Trials,
    line: &str,
) -> Result<(), AllocError> {
    let Some(event) = read_event(alloc, line) else {
        return put_line(out, "no event");
    };
    match take(alloc, gateway, event) {
        Ok((held, number, answer)) => put_made(out, told_line(alloc, held, number, &answer)),
        Err((event, fault)) => put_back(alloc, out, &event, line, name(fault)),
    }
}

fn ask_flush(alloc: Global, out: &mut String, gateway: &mut Trials) -> Result<(), AllocError> {
    match flush(gateway) {
        Ok(answers) => put_answers(alloc, out, answers.as_slice()),
        Err(fault) => put_line(out, name(fault)),
    }
}

fn ask_compact(out: &mut String, gateway: &mut Trials) -> Result<(), AllocError> {
    match compact(gateway) {
        Some(Ok(())) => put_line(out, "done"),
        Some(Err(fault)) => put_line(out, name(fault)),
        None => put_line(out, "answers are held"),
    }
}

fn ask_rules(out: &mut String, gateway: &Trials) -> Result<(), AllocError> {
    put_line(out, std::str::from_utf8(gateway.text()).unwrap_or("?"))
}

fn ask_sessions(alloc: Global, out: &mut String, gateway: &Trials) -> Result<(), AllocError> {
    let Ok(sessions) = gateway.sessions() else {
        return Err(AllocError);
    };
    for session in sessions.as_slice() {
        put_made(out, session_line(alloc, session))?;
    }
    Ok(())
}

fn ask_migrated(out: &mut String, gateway: &Trials) -> Result<(), AllocError> {
    if gateway.has_migrated() {
        return put_line(out, "yes");
    }
    put_line(out, "no")
}

// Puts all that is answered to a line.
fn ask(
    alloc: Global,
    out: &mut String,
    gateway: &mut Trials,
    line: &str,
) -> Result<(), AllocError> {
    match line {
        "flush" => ask_flush(alloc, out, gateway),
        "compact" => ask_compact(out, gateway),
        "held" => put_number(alloc, out, gateway.held() as u64),
        "grown" => put_number(alloc, out, gateway.grown()),
        "rules" => ask_rules(out, gateway),
        "migrated" => ask_migrated(out, gateway),
        "sessions" => ask_sessions(alloc, out, gateway),
        _ => match line.strip_prefix("place ") {
            Some(line) => ask_place(alloc, out, gateway, line),
            None => ask_event(alloc, out, gateway, line),
        },
    }
}

/// A line, what was answered to it, and what is to be: lines without spaces.
#[derive(Drop)]
struct Talk<'a> {
    alloc: Global,
    asked: &'a str,
    said: String,
    expected: String,
}

fn nothing<'a>(alloc: Global) -> Talk<'a> {
    Talk {
        alloc,
        asked: "",
        said: String::new(alloc),
        expected: String::new(alloc),
    }
}

// All was answered that was to be, and no more.
fn end(talk: &Talk<'_>) -> Result<(), Fail> {
    if talk.said == talk.expected {
        return Ok(());
    }
    let (asked, said, expected) = (talk.asked, &talk.said, &talk.expected);
    Err(Fail::new(format_args!("{asked}: {said}: {expected}")))
}

// Asks a line, or expects it.
fn say<'a>(talk: &mut Talk<'a>, gateway: &mut Trials, line: &'a str) -> Result<(), AllocError> {
    if let Some(expected) = line.strip_prefix('=') {
        return put_line(&mut talk.expected, expected);
    }
    talk.asked = line;
    talk.said.clear();
    talk.expected.clear();
    ask(talk.alloc, &mut talk.said, gateway, line)
}

fn play_line<'a>(talk: &mut Talk<'a>, gateway: &mut Trials, line: &'a str) -> Result<(), Fail> {
    if !line.starts_with('=') {
        end(talk)?;
    }
    Ok(say(talk, gateway, line)?)
}

fn play_lines<'a>(talk: &mut Talk<'a>, gateway: &mut Trials, lines: &'a str) -> Result<(), Fail> {
    for line in lines.lines() {
        play_line(talk, gateway, line)?;
    }
    end(talk)
}

/// Plays the lines.
///
/// # Errors
///
/// A `Fail` with the line that was asked, what came and what was expected; or where memory is refused.
pub fn play(alloc: Global, gateway: &mut Trials, lines: &str) -> Result<(), Fail> {
    let mut talk = nothing(alloc);
    let played = play_lines(&mut talk, gateway, lines);
    drop(talk);
    played
}

/// Plays the lines of each of these.
pub fn play_all(alloc: Global, gateway: &mut Trials, scripts: &[&str]) -> Result<(), Fail> {
    for lines in scripts {
        play(alloc, gateway, lines)?;
    }
    Ok(())
}

/// Opens a gateway over a disk, plays these, and gives back the disk.
pub fn played(alloc: Global, disk: Trial, moment: u64, scripts: &[&str]) -> Result<Trial, Fail> {
    played_as(alloc, SIDES, disk, moment, scripts)
}

/// The same in this configuration.
pub fn played_as(
    alloc: Global,
    sides: Sides,
    disk: Trial,
    moment: u64,
    scripts: &[&str],
) -> Result<Trial, Fail> {
    let mut gateway = opened_as(alloc, sides, disk, moment)?;
    let ended = play_all(alloc, &mut gateway, scripts);
    left_of(gateway, ended)
}

/// The same over a disk that is let go.
pub fn play_over(alloc: Global, disk: Trial, moment: u64, scripts: &[&str]) -> Result<(), Fail> {
    drop(played(alloc, disk, moment, scripts)?);
    Ok(())
}

/// A disk whose files were empty, over which these were played.
pub fn fresh_behind(alloc: Global, scripts: &[&str]) -> Result<Trial, Fail> {
    played(alloc, disk(alloc, b"", b"")?, 1000, scripts)
}

/// Plays these over files that were empty.
pub fn play_fresh(alloc: Global, scripts: &[&str]) -> Result<(), Fail> {
    drop(fresh_behind(alloc, scripts)?);
    Ok(())
}

/// A disk with a text and a session, of which both events are answered.
pub fn two_flushed(alloc: Global) -> Result<Trial, Fail> {
    fresh_behind(alloc, &[TWO_HELD, TWO_FLUSHED])
}

/// Takes the events of these lines in turn, which are all answered, and expects those lines of their answers.
pub fn run_through(
    alloc: Global,
    gateway: &mut Trials,
    asked: &str,
    lines: &str,
) -> Result<(), Fail> {
    match run(gateway, events(alloc, asked)?) {
        Ok(answers) => expect(alloc, answers.as_slice(), lines),
        Err((_, fault)) => Err(fault.into()),
    }
}

fn handed(alloc: Global, answers: &[(u64, Answer)]) -> Result<String, AllocError> {
    let mut out = String::new(alloc);
    put_answers(alloc, &mut out, answers)?;
    Ok(out)
}

fn all_of(alloc: Global, lines: &str) -> Result<String, AllocError> {
    let mut out = String::new(alloc);
    for line in lines.lines() {
        put_line(&mut out, line)?;
    }
    Ok(out)
}

/// Expects these lines of answers with their numbers.
pub fn expect(alloc: Global, answers: &[(u64, Answer)], lines: &str) -> Result<(), Fail> {
    let said = handed(alloc, answers)?;
    let expected = all_of(alloc, lines)?;
    if said == expected {
        return Ok(());
    }
    Err(Fail::new(format_args!("{expected}: {said}")))
}
