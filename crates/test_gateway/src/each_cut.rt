//! Texts and packets that are cut at each byte, and texts at a limit and past it, offered to a gateway: what is refused
//! leaves the rules as they were.
use crate::script::{flush, offer, play};
use crate::shared::{Answer, Event, Given, MASQUERADE, Trials, close, fresh};
use crate::words::{load, put};
use std::alloc::{AllocError, Global};
use std::process::Abort;
use std::test::*;

const WHOLE: &str = "\
load 1000 table ip nat { chain post { type nat hook postrouting priority srcnat; oifname \"wan\" masquerade; }; }
= held 1
flush
= 1 loaded";

// The text up to a byte, as the event behind that of the whole text.
fn refused(alloc: Global, cut: usize) -> Result<String, AllocError> {
    let number = cut.saturating_add(1);
    let text = MASQUERADE.get(..cut).unwrap_or("");
    format!(in alloc; "load 1000 {text}\n= now {number} refused\nrules\n= {MASQUERADE}")
}

// A packet is translated as before, and the text that is cut to nothing is a ruleset.
const STAYS: &str = "\
lan 1000 4500001c00010000 40118eeb c0a80102 c6336407 13880035 0008003c
= held 102
flush
= 102 wan 4500001c00010000 3f111594 cb007101 c6336407 13880035 000885e4
load 1000
= held 103
flush
= 103 loaded
rules
=
lan 1000 4500001c00010000 40118eea c0a80103 c6336407 13880035 0008003b
= held 104
flush
= 104 wan 4500001c00010000 3f118fea c0a80103 c6336407 13880035 0008003b";

fn cut_at(alloc: Global, gateway: &mut Trials, cut: usize) -> Result<(), Fail> {
    let lines = refused(alloc, cut)?;
    play(alloc, gateway, lines.as_str())
}

fn cut_each(alloc: Global, gateway: &mut Trials) -> Result<(), Fail> {
    play(alloc, gateway, WHOLE)?;
    for cut in 1..=100 {
        cut_at(alloc, gateway, cut)?;
    }
    play(alloc, gateway, STAYS)
}

#[test]
fn each_cut(rt: HostRuntime) -> Result<(), Fail> {
    let mut gateway = fresh(rt.alloc())?;
    let ended = cut_each(rt.alloc(), &mut gateway);
    close(gateway);
    ended
}

const UDP: &str = "4500001c0001000040118eebc0a80102c6336407138800350008003c";

const SYN: &str =
    "450000280001000040068eeac0a80102c63364079c4001bb00000001000000005002ffff26010000";

// The packet up to a byte, as the event with this number.
fn dropped(alloc: Global, packet: &str, cut: usize, number: usize) -> Result<String, AllocError> {
    let bytes = packet.get(..cut.saturating_mul(2)).unwrap_or("?");
    let cause = if cut < 20 { 1 } else { 4 };
    format!(in alloc; "lan 1000 {bytes}\n= now {number} drop {cause}")
}

fn drop_cut(
    alloc: Global,
    gateway: &mut Trials,
    packet: &str,
    cut: usize,
    number: usize,
) -> Result<(), Fail> {
    let lines = dropped(alloc, packet, cut, number)?;
    play(alloc, gateway, lines.as_str())
}

// The packet at each of its bytes, behind so many events.
fn cut_packet(
    alloc: Global,
    gateway: &mut Trials,
    packet: &str,
    before: usize,
) -> Result<(), Fail> {
    for cut in 0..packet.len() / 2 {
        let number = before.saturating_add(cut).saturating_add(1);
        drop_cut(alloc, gateway, packet, cut, number)?;
    }
    Ok(())
}

fn cut_packets(alloc: Global, gateway: &mut Trials) -> Result<(), Fail> {
    cut_packet(alloc, gateway, UDP, 0)?;
    cut_packet(alloc, gateway, SYN, 28)?;
    play(alloc, gateway, NO_SESSION)
}

const NO_SESSION: &str = "\
sessions
grown
= 0
at 1000
= now 69 ticked";

#[test]
fn each_cut_of_packets(rt: HostRuntime) -> Result<(), Fail> {
    let mut gateway = fresh(rt.alloc())?;
    let ended = cut_packets(rt.alloc(), &mut gateway);
    close(gateway);
    ended
}

fn empty_chain(alloc: Global, number: u32) -> Result<String, AllocError> {
    format!(in alloc; "chain c{number} {{ }}\n")
}

// So many chains without a rule.
fn chains(alloc: Global, count: u32) -> Result<String, AllocError> {
    let mut text = String::from_str(alloc, "table t {\n")?;
    for number in 0..count {
        put(&mut text, empty_chain(alloc, number))?;
    }
    text.push_str("}")?;
    Ok(text)
}

// A chain with a rule that leads to the next one by these words.
fn leading_chain(
    alloc: Global,
    words: &str,
    number: u32,
    behind: &str,
) -> Result<String, AllocError> {
    let next = number.saturating_add(1);
    format!(in alloc; "chain c{number} {{ {words} c{next}{behind}; }}\n")
}

// So many chains that lead to the next one, and the last.
fn path(alloc: Global, words: &str, count: u32, behind: &str) -> Result<String, AllocError> {
    let mut text = String::from_str(alloc, "table t {\n")?;
    for number in 0..count {
        put(&mut text, leading_chain(alloc, words, number, behind))?;
    }
    put(&mut text, empty_chain(alloc, count))?;
    text.push_str("}")?;
    Ok(text)
}

// Whether a text is loaded; none where it is neither loaded nor refused.
fn is_loaded(alloc: Global, gateway: &mut Trials, text: &[u8]) -> Option<bool> {
    let moment = 1000;
    let what = load(alloc, text)?;
    match offer(gateway, Event { moment, what }) {
        Ok(Given::Now(_, Answer::Refused)) => Some(false),
        Ok(Given::Held(_)) => Some(is_flushed(gateway)),
        _ => None,
    }
}

fn is_flushed(gateway: &mut Trials) -> bool {
    match flush(gateway) {
        Ok(answers) => matches!(answers.as_slice(), [(_, Answer::Loaded)]),
        Err(_) => false,
    }
}

// The text at the limit is loaded, the other one, which has one thing more, is refused, and the first stays.
fn keeps_to(alloc: Global, gateway: &mut Trials, at: &[u8], past: &[u8]) -> bool {
    is_loaded(alloc, gateway, at) == Some(true)
        && is_loaded(alloc, gateway, past) == Some(false)
        && gateway.text() == at
}

fn look(rt: &impl Abort, alloc: Global, at: &str, past: &str) -> Result<(), Fail> {
    let mut gateway = fresh(alloc)?;
    let is_kept = keeps_to(alloc, &mut gateway, at.as_bytes(), past.as_bytes());
    close(gateway);
    assert!(rt; is_kept, "{} bytes", at.len());
    Ok(())
}

/// A text of as many lines as there may be.
struct Lines {
    before: &'static str,
    line: &'static str,
    count: u32,
    behind: &'static str,
}

// Rules, elements of a set, and bytes.
const LIMITS: [Lines; 3] = [
    Lines {
        before: "table t { chain c {\n",
        line: "drop\n",
        count: 4096,
        behind: "} }",
    },
    Lines {
        before: "table t { set s { type inet_service; elements = {\n",
        line: "1,\n",
        count: 16384,
        behind: "} } }",
    },
    Lines {
        before: "",
        line: "\n",
        count: 262_144,
        behind: "",
    },
];

fn repeated(alloc: Global, lines: &Lines, count: u32) -> Result<String, AllocError> {
    let mut text = String::from_str(alloc, lines.before)?;
    for _ in 0..count {
        text.push_str(lines.line)?;
    }
    text.push_str(lines.behind)?;
    Ok(text)
}

fn limit_of_lines(rt: &impl Abort, alloc: Global, lines: &Lines) -> Result<(), Fail> {
    let at = repeated(alloc, lines, lines.count)?;
    let past = repeated(alloc, lines, lines.count.saturating_add(1))?;
    look(rt, alloc, at.as_str(), past.as_str())
}

fn limit_of_chains(rt: &impl Abort, alloc: Global) -> Result<(), Fail> {
    let at = chains(alloc, 256)?;
    let past = chains(alloc, 257)?;
    look(rt, alloc, at.as_str(), past.as_str())
}

fn limit_of_path(rt: &impl Abort, alloc: Global, words: &str, behind: &str) -> Result<(), Fail> {
    let at = path(alloc, words, 16, behind)?;
    let past = path(alloc, words, 17, behind)?;
    look(rt, alloc, at.as_str(), past.as_str())
}

// The words that lead to a chain, and those behind its name.
const LEADING: [(&str, &str); 3] = [
    ("jump", ""),
    ("goto", ""),
    ("tcp dport vmap { 1 : jump", " }"),
];

#[test]
fn at_the_limits(rt: HostRuntime) -> Result<(), Fail> {
    let alloc = rt.alloc();
    for lines in &LIMITS {
        limit_of_lines(&rt, alloc, lines)?;
    }
    limit_of_chains(&rt, alloc)?;
    for (words, behind) in &LEADING {
        limit_of_path(&rt, alloc, words, behind)?;
    }
    Ok(())
}
