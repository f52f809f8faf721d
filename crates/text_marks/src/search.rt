//! The place of a fault in its line.
//!
//! The reader of rulesets tells the line of a fault alone. A backslash with a newline behind it is a space, so that
//! one may be put between any two tokens of the line: the fault is then told of the next line exactly where its
//! token stands behind. So the reader itself is asked which token is at fault.
ghost use Rattle.std.specs.Prelude.{◌≤◌, ◌<◌, IfOk, length};

use crate::piece::token_length;
use crate::texts::put_all;
use packet::Bounds;
use rulesyntax::GREATEST_LENGTH;
use ruletext::fault_of;
use ruletree::{Kind, LoadFault};
use std::alloc::{AllocError, Global};

/// A token of a text.
#[derive(Clone, Copy, Drop)]
pub(crate) struct Found {
    /// Where it begins, from 0; the text's length where the text ends there.
    pub at: usize,
    /// Where the token before it in its line ends, or its line begins.
    pub behind: usize,
}

/// The bytes of a line of a text.
#[derive(Clone, Copy, Drop)]
struct Extent {
    start: usize,
    end: usize,
}

// What goes on a line behind its end.
const JOINT: &[u8] = b"\\\n";

// Where a line begins, and where its newline stands or the text ends. A line behind the last one stands at the end.
fn extent_of(text: &[u8], number: usize) -> Extent
    ensures order { result.start ≤ result.end }
    ensures within { result.end ≤ length text.now }
{
    let mut start = 0;
    let mut line = 1usize;
    for (at, b) in text.iter().enumerate() {
        if *b == b'\n' {
            if line >= number {
                return Extent { start, end: at };
            }
            line = line.saturating_add(1);
            start = at + 1;
        }
    }
    Extent {
        start,
        end: text.len(),
    }
}

// How many bytes at the front are spaces and comments, unless the line goes on behind its end there.
fn blanks(text: &[u8]) -> usize
    ensures { result ≤ length text.now }
{
    let mut in_comment = false;
    for (at, b) in text.iter().enumerate() {
        match *b {
            b'\n' => return at,
            b' ' | b'\t' | b'\r' => {}
            b'#' => in_comment = true,
            _ => {
                if !in_comment {
                    return at;
                }
            }
        }
    }
    text.len()
}

fn first_token(text: &[u8], extent: Extent) -> Found
    requires order { extent.start ≤ extent.end }
    requires within { extent.end ≤ length text.now }
    ensures start { extent.start ≤ result.behind }
    ensures order { result.behind ≤ result.at }
    ensures within { result.at ≤ length text.now }
{
    Found {
        at: extent.start + blanks(&text[extent.start..]),
        behind: extent.start,
    }
}

fn next_token(text: &[u8], found: Found) -> Found
    requires order { found.behind ≤ found.at }
    requires within { found.at ≤ length text.now }
    ensures further { found.at < length text.now → found.at < result.at }
    ensures order { result.behind ≤ result.at }
    ensures within { result.at ≤ length text.now }
{
    let behind = found.at + token_length(&text[found.at..]);
    Found {
        at: behind + blanks(&text[behind..]),
        behind,
    }
}

// The first token of the line from a place on, or else the last.
fn token_from(text: &[u8], extent: Extent, place: usize) -> Found
    requires order { extent.start ≤ extent.end }
    requires within { extent.end ≤ length text.now }
    ensures order { result.behind ≤ result.at }
    ensures within { result.at ≤ length text.now }
{
    let mut found = first_token(text, extent);
    while found.at < place && found.at < extent.end {
        found = next_token(text, found);
    }
    found
}

// Whether the fault of a text, which is told of this line, is told of a later one where the line goes on behind
// its end here.
fn moves(
    alloc: Global,
    text: &[u8],
    bounds: &Bounds,
    line: usize,
    here: usize,
) -> Result<bool, AllocError>
    requires { here ≤ length text.now }
{
    let (before, behind) = text.split_at(here);
    let mut parted = Vec::new(alloc);
    put_all(&mut parted, &[before, JOINT, behind])?;
    match fault_of(alloc, parted.as_slice(), bounds) {
        Some(fault) => {
            if fault.kind == Kind::NoMemory {
                return Err(AllocError);
            }
            Ok(fault.line.number() > line)
        }
        None => Ok(false),
    }
}

// The token of the line at which the fault is. Where the text has no room for a joint, it is the line's first.
fn token_at_fault(
    alloc: Global,
    text: &[u8],
    bounds: &Bounds,
    line: usize,
) -> Result<Found, AllocError>
    ensures order { IfOk result (λ found. found.behind ≤ found.at) }
    ensures within { IfOk result (λ found. found.at ≤ length text.now) }
{
    let extent = extent_of(text, line);
    let mut low = first_token(text, extent);
    if text.len() > GREATEST_LENGTH - JOINT.len() {
        return Ok(low);
    }
    let mut high = extent.end.saturating_add(1);
    while low.at < high && high - low.at > 1 {
        let middle = low.at + (high - low.at) / 2;
        let token = token_from(text, extent, middle);
        let between = low.at < token.at && token.at < high;
        if between && moves(alloc, text, bounds, line, token.behind)? {
            low = token;
        } else {
            high = middle;
        }
    }
    Ok(low)
}

/// The token of a text at which a fault is that `ruletext::read` tells of the text under these bounds. For `TooLong`
/// it is the first byte that is too many.
///
/// # Errors
///
/// `AllocError` where a growth was refused.
pub(crate) fn place_of(
    alloc: Global,
    text: &[u8],
    bounds: &Bounds,
    fault: &LoadFault,
) -> Result<Found, AllocError>
    ensures order { IfOk result (λ found. found.behind ≤ found.at) }
    ensures within { IfOk result (λ found. found.at ≤ length text.now) }
{
    if fault.kind == Kind::TooLong {
        let at = text.len().min(GREATEST_LENGTH);
        return Ok(Found { at, behind: at });
    }
    token_at_fault(alloc, text, bounds, fault.line.number())
}
