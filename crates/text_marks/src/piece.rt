//! What stands at a place.
ghost use Rattle.std.specs.Prelude.{◌≡◌, ◌≤◌, ◌<◌, ◌+◌, ◌++◌, OnOk, length};
ghost use Rattle.ruletokens.specs.Tokens.{is_start};
ghost use Rattle.text_marks.specs.Pieces.{goes_on, length_from, named, quoted, run_length, shortened, token_length, with_one};

use crate::mark::{put_dots, put_visible};
use std::alloc::AllocError;

/// The most bytes of a token that are shown.
const MOST_SHOWN: usize = 40;

/// Which bytes go on with a token.
#[derive(Clone, Copy, Drop)]
pub enum Run {
    /// In a name.
    Word,
    /// In a number or an address, right or wrong.
    Numeral,
    /// Between quotes.
    Inner,
}

fn is_start(b: u8) -> bool
    ensures { result ≡ is_start b }
{
    b.is_ascii_alphabetic() || b == b'_'
}

fn goes_on(run: Run, b: u8) -> bool
    ensures { result ≡ goes_on run b }
{
    match run {
        Run::Word => b.is_ascii_alphanumeric() || b == b'_' || b == b'-' || b == b'.' || b == b'/',
        Run::Numeral => b.is_ascii_alphanumeric() || b == b'_' || b == b'.',
        Run::Inner => !(b == b'"') && !(b == b'\n'),
    }
}

fn run_length(run: Run, bytes: &[u8]) -> usize
    ensures value { result ≡ run_length run bytes.now }
    ensures within { result ≤ length bytes.now }
{
    let mut end = 0;
    while end < bytes.len() && goes_on(run, bytes[end]) {
        end += 1;
    }
    end
}

// One more where this byte, which isn't 0, stands behind so many others.
fn with_one(wanted: u8, count: usize, bytes: &[u8]) -> usize
    requires some { 0 < wanted }
    requires within { count ≤ length bytes.now }
    ensures value { result ≡ with_one wanted count bytes.now }
    ensures within { result ≤ length bytes.now }
{
    if count < bytes.len() && bytes[count] == wanted {
        count + 1
    } else {
        count
    }
}

fn length_from(b: u8, behind: &[u8]) -> usize
    ensures value { result ≡ length_from b behind.now }
    ensures some { 0 < result }
    ensures within { result ≤ length behind.now + 1 }
{
    if is_start(b) {
        return run_length(Run::Word, behind) + 1;
    }
    if b.is_ascii_digit() {
        return run_length(Run::Numeral, behind) + 1;
    }
    if b == b'"' {
        return with_one(b'"', run_length(Run::Inner, behind), behind) + 1;
    }
    if b == b'=' || b == b'!' {
        return with_one(b'=', 0, behind) + 1;
    }
    1
}

/// How many bytes the token has that stands at the front of a text: a name, a number or an address, quotes with what
/// they hold, `==` and `!=`, or one byte. No byte is left out of a token, right or wrong.
pub(crate) fn token_length(text: &[u8]) -> usize
    ensures value { result ≡ token_length text.now }
    ensures some { 0 < length text.now → 0 < result }
    ensures within { result ≤ length text.now }
{
    match text {
        [] => 0,
        [first, behind @ ..] => length_from(*first, behind),
    }
}

fn put_shortened(out: &mut Vec<u8>, token: &[u8]) -> Result<(), AllocError>
    ensures { OnOk result (out.new.items ≡ out.old.items ++ shortened token.now) }
{
    let shown = MOST_SHOWN.min(token.len());
    put_visible(out, &token[..shown])?;
    put_dots(out, MOST_SHOWN < token.len())?;
    Ok(())
}

fn put_quoted(out: &mut Vec<u8>, token: &[u8]) -> Result<(), AllocError>
    ensures { OnOk result (out.new.items ≡ out.old.items ++ quoted token.now) }
{
    out.extend_from_slice(b"`")?;
    put_shortened(out, token)?;
    out.extend_from_slice(b"`")?;
    Ok(())
}

/// Appends the token that stands at the front of a text, between backquotes, or which end stands there. Of a long
/// token the first 40 bytes are shown.
///
/// # Errors
///
/// `AllocError` where a growth was refused. A part may have been appended then.
pub(crate) fn put_named(out: &mut Vec<u8>, text: &[u8]) -> Result<(), AllocError>
    ensures { OnOk result (out.new.items ≡ out.old.items ++ named text.now) }
{
    match text {
        [] => out.extend_from_slice(b"the end of the text"),
        [b'\n', ..] => out.extend_from_slice(b"the end of the line"),
        [first, behind @ ..] => put_quoted(out, &text[..length_from(*first, behind)]),
    }
}
