//! Events, answers and sessions as lines of text.
//!
//! - `lan 1000 4500..`, `wan 1000 4500..`: a packet that comes in at that moment, in hexadecimal with spaces for the
//!   eye; `load 1000 table ip t { }`: a ruleset; `at 1000`: a moment.
//! - `wan 4500..`, `lan 4500..`: the packet leaves there as this one; `drop 13`; `loaded`; `refused`; `ticked`.
//! - `udp 192.168.1.2:5000 203.0.113.1:5000 198.51.100.7:53 inside 0 at 1000`: a session: inside, outside, remote,
//!   opener, the bits seen, the moment of the last packet.
use crate::shared::{Answer, Bytes, Event, Given, Iface, Session, What};
use packet::{Endpoint, Proto};
use sessions::Opener;
use std::alloc::{AllocError, Global};
use std::net::Ipv4Addr;
use std::test::Fail;

fn digit(byte: u8) -> Option<u8> {
    match byte {
        b'0'..=b'9' => Some(byte - b'0'),
        b'a'..=b'f' => Some(byte - b'a' + 10),
        _ => None,
    }
}

fn byte_of(pair: &[u8]) -> Option<u8> {
    match pair {
        [high, low] => Some(digit(*high)? << 4 | digit(*low)?),
        _ => None,
    }
}

// None where something else stands there, or memory is refused.
fn put_word(out: &mut Vec<u8>, word: &[u8]) -> Option<()> {
    for pair in word.chunks(2) {
        out.push(byte_of(pair)?).ok()?;
    }
    Some(())
}

fn put_words(out: &mut Vec<u8>, text: &str) -> Option<()> {
    for word in text.split_whitespace() {
        put_word(out, word.as_bytes())?;
    }
    Some(())
}

/// Puts the bytes that a text has in hexadecimal behind those that are there.
pub fn put_hex(out: &mut Vec<u8>, text: &str) -> Result<(), Fail> {
    Ok(put_words(out, text).ok_or("not in hexadecimal")?)
}

/// The bytes that a text has in hexadecimal.
pub fn hex(alloc: Global, text: &str) -> Result<Vec<u8>, Fail> {
    Ok(bytes_of(alloc, text).ok_or("not in hexadecimal")?)
}

fn bytes_of(alloc: Global, text: &str) -> Option<Vec<u8>> {
    let mut out = Vec::new(alloc);
    put_words(&mut out, text)?;
    Some(out)
}

/// Puts a text without its spaces.
pub fn put_squeezed(out: &mut String, text: &str) -> Result<(), AllocError> {
    for word in text.split_whitespace() {
        out.push_str(word)?;
    }
    Ok(())
}

/// The text without its spaces.
pub fn squeezed(alloc: Global, text: &str) -> Result<String, AllocError> {
    let mut out = String::new(alloc);
    put_squeezed(&mut out, text)?;
    Ok(out)
}

/// Puts a text that was made.
pub fn put(out: &mut String, text: Result<String, AllocError>) -> Result<(), AllocError> {
    let text = text?;
    out.push_str(text.as_str())
}

/// The first word of a line, and what stands behind it.
fn first_word(line: &str) -> (&str, &str) {
    line.split_once(' ').unwrap_or((line, ""))
}

/// The bytes of a load or a packet: of a text, one more than it may have.
pub fn body(bytes: Vec<u8>) -> Option<Bytes> {
    if bytes.len() > 262_145 {
        return None;
    }
    Some(Bytes::of(bytes))
}

fn packet(alloc: Global, iface: Iface, text: &str) -> Option<What> {
    let bytes = body(bytes_of(alloc, text)?)?;
    Some(What::Packet(iface, bytes))
}

/// The load of a text.
pub fn load(alloc: Global, text: &[u8]) -> Option<What> {
    let bytes = body(Vec::from_slice(alloc, text).ok()?)?;
    Some(What::Load(bytes))
}

fn what(alloc: Global, word: &str, body: &str) -> Option<What> {
    match word {
        "lan" => packet(alloc, Iface::Lan, body),
        "wan" => packet(alloc, Iface::Wan, body),
        "load" => load(alloc, body.as_bytes()),
        "at" => Some(What::Moment),
        _ => None,
    }
}

/// The event of a line, if it has one and there is memory for it.
pub fn read_event(alloc: Global, line: &str) -> Option<Event> {
    let (word, rest) = first_word(line);
    let (moment, body) = first_word(rest);
    let moment = moment.parse::<u64>().ok()?;
    let what = what(alloc, word, body)?;
    Some(Event { moment, what })
}

/// The event of a line.
pub fn event(alloc: Global, line: &str) -> Result<Event, Fail> {
    match read_event(alloc, line) {
        Some(event) => Ok(event),
        None => Err(Fail::new(format_args!("no event: {line}"))),
    }
}

/// The events of these lines.
pub fn events(alloc: Global, lines: &str) -> Result<Vec<Event>, Fail> {
    let mut events = Vec::new(alloc);
    for line in lines.lines() {
        events.push(event(alloc, line)?)?;
    }
    Ok(events)
}

/// The event at another moment, in seconds.
pub fn moved(event: Event, moment: u64) -> Event {
    let what = event.what;
    Event { moment, what }
}

fn name(iface: Iface) -> &'static str {
    match iface {
        Iface::Lan => "lan",
        Iface::Wan => "wan",
    }
}

fn shown(alloc: Global, bytes: &[u8]) -> Result<String, AllocError> {
    let mut text = String::new(alloc);
    for byte in bytes {
        put(&mut text, format!(in alloc; "{byte:02x}"))?;
    }
    Ok(text)
}

/// The line of an event, with no spaces in its body.
pub fn event_line(alloc: Global, event: &Event) -> Result<String, AllocError> {
    let moment = event.moment;
    match &event.what {
        What::Moment => format!(in alloc; "at {moment}"),
        What::Load(text) => load_line(alloc, moment, text.as_slice()),
        What::Packet(iface, bytes) => packet_line(alloc, moment, *iface, bytes.as_slice()),
    }
}

fn load_line(alloc: Global, moment: u64, text: &[u8]) -> Result<String, AllocError> {
    let text = std::str::from_utf8(text).unwrap_or("?");
    format!(in alloc; "load {moment} {text}")
}

fn packet_line(
    alloc: Global,
    moment: u64,
    iface: Iface,
    bytes: &[u8],
) -> Result<String, AllocError> {
    let bytes = shown(alloc, bytes)?;
    format!(in alloc; "{} {moment} {bytes}", name(iface))
}

fn forward_line(alloc: Global, iface: Iface, bytes: &[u8]) -> Result<String, AllocError> {
    let bytes = shown(alloc, bytes)?;
    format!(in alloc; "{} {bytes}", name(iface))
}

/// The line of an answer.
fn answer_line(alloc: Global, answer: &Answer) -> Result<String, AllocError> {
    match answer {
        Answer::Loaded => String::from_str(alloc, "loaded"),
        Answer::Refused => String::from_str(alloc, "refused"),
        Answer::Ticked => String::from_str(alloc, "ticked"),
        Answer::Dropped(cause) => format!(in alloc; "drop {cause}"),
        Answer::Forward(iface, bytes) => forward_line(alloc, *iface, bytes.as_slice()),
    }
}

/// The line of an answer that is handed out, with its number.
pub fn handed_line(alloc: Global, number: u64, answer: &Answer) -> Result<String, AllocError> {
    let answer = answer_line(alloc, answer)?;
    format!(in alloc; "{number} {answer}")
}

fn now_line(alloc: Global, number: u64, answer: &Answer) -> Result<String, AllocError> {
    let handed = handed_line(alloc, number, answer)?;
    format!(in alloc; "now {handed}")
}

/// What became of an event that was taken where it lies: `now 3 ticked`, `held 1 loaded`.
pub fn told_line(
    alloc: Global,
    held: bool,
    number: u64,
    answer: &Answer,
) -> Result<String, AllocError> {
    if !held {
        return now_line(alloc, number, answer);
    }
    let handed = handed_line(alloc, number, answer)?;
    format!(in alloc; "held {handed}")
}

/// What became of an event: `now 3 ticked`, `held 1`.
pub fn given_line(alloc: Global, given: &Given) -> Result<String, AllocError> {
    match given {
        Given::Held(number) => format!(in alloc; "held {number}"),
        Given::Now(number, answer) => now_line(alloc, *number, answer),
    }
}

fn proto(proto: Proto) -> &'static str {
    match proto {
        Proto::Tcp => "tcp",
        Proto::Udp => "udp",
    }
}

fn opener(opener: Opener) -> &'static str {
    match opener {
        Opener::Inside => "inside",
        Opener::Remote => "remote",
    }
}

fn endpoint(alloc: Global, endpoint: Endpoint) -> Result<String, AllocError> {
    let addr = Ipv4Addr::from_bits(endpoint.addr);
    format!(in alloc; "{addr}:{}", endpoint.port)
}

fn endpoints(alloc: Global, session: &Session) -> Result<String, AllocError> {
    let inside = endpoint(alloc, session.inside)?;
    let outside = endpoint(alloc, session.outside)?;
    let remote = endpoint(alloc, session.remote)?;
    format!(in alloc; "{inside} {outside} {remote}")
}

fn last_use(alloc: Global, session: &Session) -> Result<String, AllocError> {
    format!(in alloc; "{} at {}", session.seen, session.last)
}

/// The line of a session.
pub fn session_line(alloc: Global, session: &Session) -> Result<String, AllocError> {
    let endpoints = endpoints(alloc, session)?;
    let last_use = last_use(alloc, session)?;
    let (proto, opener) = (proto(session.proto), opener(session.opener));
    format!(in alloc; "{proto} {endpoints} {opener} {last_use}")
}
