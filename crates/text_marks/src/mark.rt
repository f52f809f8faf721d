//! A line with a mark under a place.
ghost use Rattle.std.specs.Prelude.{◌≡◌, ◌≤◌, ◌++◌, OnOk, IfOk, length, map};
ghost use Rattle.text_marks.specs.Lines.{dots_if, hidden, lead, marked, marked_line, trail, under, visible};

use crate::line::{Spot, spot_of};
use itoa::Buffer;
use std::alloc::{AllocError, Global};

/// The most bytes of a line that are shown.
const WIDTH: usize = 120;

/// How many of them stand before a place in the middle.
const HALF: usize = 60;

// How a byte is shown.
#[tactic(auto, unfolding(crate::specs::Lines::visible))]
fn visible(b: u8) -> u8
    ensures { result ≡ visible b }
{
    match b {
        b'\t' | b' '..=b'~' => b,
        _ => b'?',
    }
}

// What stands below a byte, so that what follows stands below what follows it.
#[tactic(auto, unfolding(crate::specs::Lines::under))]
fn under(b: u8) -> u8
    ensures { result ≡ under b }
{
    if b == b'\t' { b'\t' } else { b' ' }
}

/// Appends bytes as they are shown: printable ASCII and tabs, and `?` for any other byte.
///
/// # Errors
///
/// `AllocError` where a growth was refused. A part may have been appended then.
pub(crate) fn put_visible(out: &mut Vec<u8>, bytes: &[u8]) -> Result<(), AllocError>
    ensures { OnOk result (out.new.items ≡ out.old.items ++ map visible bytes.now) }
{
    for b in bytes {
        out.push(visible(*b))?;
    }
    Ok(())
}

fn put_under(out: &mut Vec<u8>, bytes: &[u8]) -> Result<(), AllocError>
    ensures { OnOk result (out.new.items ≡ out.old.items ++ map under bytes.now) }
{
    for b in bytes {
        out.push(under(*b))?;
    }
    Ok(())
}

/// Appends three dots where something is left out.
///
/// # Errors
///
/// `AllocError` where a growth was refused.
pub(crate) fn put_dots(out: &mut Vec<u8>, cut: bool) -> Result<(), AllocError>
    ensures { OnOk result (out.new.items ≡ out.old.items ++ dots_if cut) }
{
    if cut {
        out.extend_from_slice(b"...")?;
    }
    Ok(())
}

// How many bytes at the front of a line aren't shown.
fn hidden(front: &[u8], rest: &[u8]) -> usize
    ensures value { result ≡ hidden front.now rest.now }
    ensures within { result ≤ length front.now }
{
    let past_half = front.len().saturating_sub(HALF);
    let past_width = (front.len() + rest.len()).saturating_sub(WIDTH);
    past_half.min(past_width)
}

// What is shown of a line before a place.
#[tactic(auto, unfolding(crate::specs::Lines::lead))]
fn lead(alloc: Global, spot: &Spot<'_>) -> Result<Vec<u8>, AllocError>
    ensures { IfOk result (λ shown. shown.items
        ≡ lead spot.now.line spot.now.front.now spot.now.rest.now) }
{
    let start = hidden(spot.front, spot.rest);
    let mut digits = Buffer::new();
    let mut shown = Vec::from_slice(alloc, b"line ")?;
    shown.extend_from_slice(digits.format(spot.line).as_bytes())?;
    shown.extend_from_slice(b": ")?;
    put_dots(&mut shown, start > 0)?;
    put_visible(&mut shown, &spot.front[start..])?;
    Ok(shown)
}

// Appends what is shown of a line from a place on.
#[tactic(auto, unfolding(crate::specs::Lines::trail))]
fn put_trail(out: &mut Vec<u8>, front: &[u8], rest: &[u8]) -> Result<(), AllocError>
    ensures { OnOk result (out.new.items ≡ out.old.items ++ trail front.now rest.now) }
{
    let room = WIDTH.saturating_sub(front.len() - hidden(front, rest));
    let shown = rest.len().min(room);
    put_visible(out, &rest[..shown])?;
    put_dots(out, room < rest.len())?;
    Ok(())
}

// Appends a line, and below it the mark.
fn put_marked_line(
    out: &mut Vec<u8>,
    before: &[u8],
    front: &[u8],
    rest: &[u8],
) -> Result<(), AllocError>
    ensures { OnOk result (out.new.items ≡ out.old.items
        ++ marked_line before.now (trail front.now rest.now)) }
{
    out.extend_from_slice(before)?;
    put_trail(out, front, rest)?;
    out.extend_from_slice(b"\n")?;
    put_under(out, before)?;
    out.extend_from_slice(b"^\n")?;
    Ok(())
}

/// Appends the line of a text that holds a place, with the line's number, and below it a mark under the place. The
/// place is at most the text's length. Of a long line 120 bytes around the place are shown, with dots where it is
/// cut; a byte that is no printable ASCII or tab is shown as `?`.
///
/// # Errors
///
/// `AllocError` where a growth was refused. A part may have been appended then.
pub(crate) fn put_marked(
    alloc: Global,
    out: &mut Vec<u8>,
    text: &[u8],
    at: usize,
) -> Result<(), AllocError>
    requires { at ≤ length text.now }
    ensures { OnOk result (out.new.items ≡ out.old.items ++ marked text.now at) }
{
    let spot = spot_of(text, at);
    let before = lead(alloc, &spot)?;
    put_marked_line(out, before.as_slice(), spot.front, spot.rest)
}
