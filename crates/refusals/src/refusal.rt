//! Why a command gives up, in a word.
ghost use Rattle.std.specs.Prelude.{◌≡◌};
ghost use Rattle.refusals.specs.declared.refusal.Refusal.TheVariants.{NoMemory};
ghost use Rattle.refusals.specs.Words.{word_of};

use std::alloc::{AllocError, AllocFailed};
use std::error::Error;
use std::fmt;
use std::fmt::{Display, Formatter};

/// Why a command gives up, with status 1. What is shown of it is its word.
#[derive(Clone, Copy, Debug, PartialEq, Eq, Drop)]
pub enum Refusal {
    /// The options are no configuration.
    Config,
    /// A file, a directory or a socket can't be had.
    File,
    /// A call of the disk failed.
    Device,
    /// A file has no room.
    Full,
    /// The files hold something else than a gateway wrote.
    Damaged,
    /// The files are of a gateway with another configuration.
    ConfigDiffers,
    /// No generation is left for a file.
    Generations,
    /// Memory was refused.
    NoMemory,
    /// A call of the disk failed before.
    Reopen,
    /// The last event had the number 2^64 - 1.
    NumbersOut,
    /// A request's kind is none of 1, 2, 3.
    BadKind,
    /// A request's interface is none that its kind has.
    BadInterface,
    /// A request's body is longer than its kind allows.
    TooLong,
    /// The input ends within a frame.
    Truncated,
    /// A read of the requests failed.
    Input,
    /// A write of the answers failed or took no byte, or a line couldn't be printed.
    Output,
}

impl Display for Refusal {
    fn fmt<W: fmt::Write>(&self, f: &mut Formatter<W>) -> fmt::Result {
        f.write_str(self.word())
    }
}

impl Error for Refusal {}

impl From<AllocError> for Refusal {
    ghost from_gives = { λ _ e. e ≡ NoMemory };

    fn from(_: AllocError) -> Self {
        Refusal::NoMemory
    }
}

impl<T: Drop> From<AllocFailed<T>> for Refusal {
    ghost from_gives = { λ _ e. e ≡ NoMemory };

    fn from(_: AllocFailed<T>) -> Self {
        Refusal::NoMemory
    }
}

impl Refusal {
    /// The word that stands on standard error.
    pub fn word(self) -> &'static str
        ensures { result.now ≡ word_of self }
    {
        match self {
            Refusal::Config => "config",
            Refusal::File => "file",
            Refusal::Device => "device",
            Refusal::Full => "full",
            Refusal::Damaged => "damaged",
            Refusal::ConfigDiffers => "config-differs",
            Refusal::Generations => "generations",
            Refusal::NoMemory => "no-memory",
            Refusal::Reopen => "reopen",
            Refusal::NumbersOut => "numbers-out",
            Refusal::BadKind => "bad-kind",
            Refusal::BadInterface => "bad-interface",
            Refusal::TooLong => "too-long",
            Refusal::Truncated => "truncated",
            Refusal::Input => "input",
            Refusal::Output => "output",
        }
    }
}
