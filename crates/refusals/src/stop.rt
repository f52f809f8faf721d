//! The two lines that people read where a command gives up: the word, and what to do.
ghost use Rattle.std.specs.Prelude.{◌≡◌, ◌++◌, ℕ, List, IsTrue, IfOk, OnErr, None, OnOk, Some, codes, nat_lt};
ghost use Rattle.std.specs.List.{list_all};
ghost use Rattle.std.specs.Io.KnownBytes.{Appends};
ghost use Rattle.std.specs.IoError.{error_kind};
ghost use Rattle.refusals.specs.declared.refusal.Refusal.TheVariants.{NoMemory};
ghost use Rattle.refusals.specs.Words.{IsOfPath, advised, first_line, is_one_line, migrated_line, path_refusal, second_line, sentence_of, serving_line, shared_line};

use crate::Refusal;
use std::alloc::{AllocError, AllocFailed, Global};
use std::io;
use std::io::{ErrorKind, Write};

/// Why a command gives up, and what to do about it.
#[derive(Debug, Drop)]
pub struct Stop {
    /// Why.
    pub refusal: Refusal,
    /// What is the matter and what to do, in one line without its end; none where the word says all that is known.
    pub advice: Option<String>,
}

impl From<Refusal> for Stop {
    ghost from_gives = { λ refusal stop. stop.refusal ≡ refusal };

    fn from(refusal: Refusal) -> Self {
        Stop {
            refusal,
            advice: None,
        }
    }
}

impl From<AllocError> for Stop {
    ghost from_gives = { λ _ stop. stop.refusal ≡ NoMemory };

    fn from(_: AllocError) -> Self {
        Stop::from(Refusal::NoMemory)
    }
}

impl<T: Drop> From<AllocFailed<T>> for Stop {
    ghost from_gives = { λ _ stop. stop.refusal ≡ NoMemory };

    fn from(_: AllocFailed<T>) -> Self {
        Stop::from(Refusal::NoMemory)
    }
}

impl Stop {
    /// A refusal with its line, which is left out where memory for it was refused.
    pub fn with(refusal: Refusal, advice: Result<String, AllocError>) -> Stop
        ensures refusal { result.refusal ≡ refusal }
        ensures advice { IfOk advice (λ line. result.advice ≡ Some line) }
        ensures none { OnErr advice (result.advice ≡ None) }
    {
        Stop {
            refusal,
            advice: advice.ok(),
        }
    }

    /// A call of the system failed on this path: `NoMemory` exactly where memory was refused, otherwise `File`.
    /// `what` says what couldn't be done.
    pub fn at_path(alloc: Global, path: &str, what: &str, error: &io::Error) -> Stop
        ensures refusal { result.refusal ≡ path_refusal (error_kind error.now) }
        ensures of_path { IsOfPath result.refusal }
    {
        match error.kind() {
            ErrorKind::OutOfMemory => Stop::from(Refusal::NoMemory),
            _ => Stop::with(Refusal::File, format!(in alloc; "{path} {what}: {error}")),
        }
    }

    /// The second line, without its end: the advice, or what the word says where there is none, or it isn't one line,
    /// as that may be which tells a path.
    pub fn second_line(&self) -> &str
        ensures says { result.now ≡ second_line self.now }
        ensures one { IsTrue (is_one_line result.now) }
    {
        match &self.advice {
            Some(advice) => shown_or_general(advice.as_str(), self.refusal),
            None => general(self.refusal),
        }
    }
}

fn is_shown(byte: u8) -> bool
    ensures { result ≡ nat_lt 31 byte }
{
    byte > 31
}

fn are_shown(bytes: &[u8]) -> bool
    ensures { result ≡ list_all (nat_lt 31) bytes.now }
{
    bytes.iter().all(|byte| is_shown(*byte))
}

// Whether the bytes can stand in one line.
fn stands_in_a_line(bytes: &[u8]) -> bool
    ensures { result ≡ is_one_line bytes.now }
{
    !bytes.is_empty() && are_shown(bytes)
}

// The advice, or what the word says where that isn't one line.
fn shown_or_general(advice: &str, refusal: Refusal) -> &str
    ensures says { result.now ≡ advised refusal (Some advice.now) }
    ensures one { IsTrue (is_one_line result.now) }
{
    if stands_in_a_line(advice.as_bytes()) {
        return advice;
    }
    general(refusal)
}

// What to do where no more is known than the word.
fn general(refusal: Refusal) -> &'static str
    ensures says { result.now ≡ sentence_of refusal }
    ensures one { IsTrue (is_one_line result.now) }
{
    match refusal {
        Refusal::Config => "the options are no configuration: `natgw --help` tells of them",
        Refusal::File => "a file, a directory or a socket can't be had: look at its path",
        Refusal::Device => {
            "a read, write or sync of natgw.a or natgw.b failed: look into the kernel's log and at the space that is left, then start again"
        }
        Refusal::Full => "natgw.a or natgw.b has no room below 67108864 bytes: start again",
        Refusal::Damaged => {
            "natgw.a and natgw.b hold what natgw didn't write: put both back from one backup, or name another directory"
        }
        Refusal::ConfigDiffers => {
            "the files were written with another configuration: start natgw with that one, or name another directory"
        }
        Refusal::Generations => "the files can't be made anew any more: name a new directory",
        Refusal::NoMemory => "memory was refused: allow natgw more, and start again",
        Refusal::Reopen => "a read, write or sync of natgw.a or natgw.b failed before: start again",
        Refusal::NumbersOut => "the last event had the greatest number: start again",
        Refusal::BadKind => {
            "the first byte of a request is none of 1, 2 and 3: correct what sends the requests"
        }
        Refusal::BadInterface => {
            "the second byte of a packet is neither 0 nor 1, or that of another request isn't 0: correct what sends the requests"
        }
        Refusal::TooLong => {
            "a packet of more than 65535 bytes, a ruleset of more than 262144, or a moment with a body: correct what sends the requests"
        }
        Refusal::Truncated => {
            "the input ends within a request: all whole requests before it are answered, send the rest again"
        }
        Refusal::Input => {
            "the requests can't be read any further: all whole requests before are answered, send the rest again"
        }
        Refusal::Output => {
            "standard output or standard error takes no more: look at what reads it; what was answered stands in the files"
        }
    }
}

/// Writes the first line of a refusal: `natgw: ` and its word.
///
/// # Errors
///
/// That of the writer. A part may have been written then.
pub fn tell_word<W: Write>(writer: &mut W, refusal: Refusal) -> io::Result<()>
    ensures { OnOk result (Appends (W.contents writer.old) (W.contents writer.new)
        (first_line refusal)) }
{
    writer.write_all(b"natgw: ")?;
    writer.write_all(refusal.word().as_bytes())?;
    writer.write_all(b"\n")
}

// Writes both lines, of which the second one is this.
fn tell_lines<W: Write>(writer: &mut W, refusal: Refusal, advice: &str) -> io::Result<()>
    ensures { OnOk result (Appends (W.contents writer.old) (W.contents writer.new)
        (first_line refusal ++ advice.now ++ codes "\n")) }
{
    tell_word(writer, refusal)?;
    writer.write_all(advice.as_bytes())?;
    writer.write_all(b"\n")
}

/// Writes both lines.
///
/// # Errors
///
/// That of the writer. A part may have been written then.
pub fn tell<W: Write>(writer: &mut W, stop: &Stop) -> io::Result<()>
    ensures says { OnOk result (Appends (W.contents writer.old) (W.contents writer.new)
        (first_line stop.now.refusal ++ second_line stop.now ++ codes "\n")) }
    ensures two { OnOk result ((advice : List ℕ) × IsTrue (is_one_line advice)
        × Appends (W.contents writer.old) (W.contents writer.new)
        (first_line stop.now.refusal ++ advice ++ codes "\n")) }
{
    tell_lines(writer, stop.refusal, stop.second_line())
}

/// Writes the line which tells that the files were those of an older version of natgw, and no longer are.
///
/// # Errors
///
/// That of the writer. A part may have been written then.
pub fn tell_migrated<W: Write>(writer: &mut W) -> io::Result<()>
    ensures { OnOk result (Appends (W.contents writer.old) (W.contents writer.new) migrated_line) }
{
    writer.write_all(
        b"the two files are of version 2 from now on: an older natgw calls them damaged\n",
    )
}

// Writes a text between two others.
fn tell_between<W: Write>(writer: &mut W, front: &str, text: &str, end: &str) -> io::Result<()>
    ensures { OnOk result (Appends (W.contents writer.old) (W.contents writer.new)
        (front.now ++ text.now ++ end.now)) }
{
    writer.write_all(front.as_bytes())?;
    writer.write_all(text.as_bytes())?;
    writer.write_all(end.as_bytes())
}

/// Writes the line which tells that others than natgw's user may write in the directory of its files, and where that can
/// stand in one line, which directory.
///
/// # Errors
///
/// That of the writer. A part may have been written then.
pub fn tell_shared<W: Write>(writer: &mut W, path: &str) -> io::Result<()>
    ensures { OnOk result (Appends (W.contents writer.old) (W.contents writer.new)
        (shared_line path.now)) }
{
    if stands_in_a_line(path.as_bytes()) {
        let end = ", and so make natgw forget all: take that from them\n";
        return tell_between(writer, "others may write in ", path, end);
    }
    writer.write_all(
        b"others may write in --dir, and so make natgw forget all: take that from them\n",
    )
}

/// Writes the line which tells that clients may connect: that natgw listens, and where that can stand in one line, at
/// which path.
///
/// # Errors
///
/// That of the writer. A part may have been written then.
pub fn tell_serving<W: Write>(writer: &mut W, path: &str) -> io::Result<()>
    ensures { OnOk result (Appends (W.contents writer.old) (W.contents writer.new)
        (serving_line path.now)) }
{
    if stands_in_a_line(path.as_bytes()) {
        return tell_between(writer, "natgw listens at ", path, "\n");
    }
    writer.write_all(b"natgw listens\n")
}
