//! Why a text is refused, and in which line.
//!
//! The crate `rulesyntax` gives the kinds up to `Family`, and `NoMemory`, and the crate `rulesets` the others.
ghost use Rattle.std.specs.Prelude.{◌≡◌};
ghost use Rattle.ruletree.specs.Reasons.{reason_name};
ghost use Rattle.ruletree.specs.declared.fault.Kind.TheVariants.{NoMemory};

use ruletokens::Line;
use std::alloc::{AllocError, AllocFailed};
use std::fmt;

/// Why a text isn't taken as the rules, in the order in which the reasons count; and lack of memory.
#[derive(Clone, Copy, Debug, PartialEq, Eq, Drop)]
pub enum Kind {
    /// More bytes than `GREATEST_LENGTH` of `rulesyntax`.
    TooLong,
    /// The grammar spells no such text, and neither of the next two says why.
    Syntax,
    /// The grammar spells no such text: it breaks off at a word that it doesn't know at that place.
    Unsupported,
    /// And that word, behind `table`, is one of the families that natgw doesn't have.
    Family,
    /// A rule sends packets to a chain that its table doesn't have, or that has a hook of its own.
    UnknownChain,
    /// A rule asks for a set that its table doesn't have.
    UnknownSet,
    /// A name is given twice, or a set says its type or its elements twice.
    Duplicate,
    /// A packet could go round in chains that lead to each other.
    Loop,
    /// A packet could be sent on more than 16 times, from chain to chain.
    Depth,
    /// A chain, or a translation that it reaches, doesn't belong to the hook.
    WrongHook,
    /// A value, a set or a translation doesn't fit the type that is wanted at its place.
    WrongType,
    /// A new source would not be an external address.
    NotExternal,
    /// A new destination would lie in none of the inside prefixes.
    NotInside,
    /// The text has more chains, rules or elements than there may be.
    Limit,
    /// A verdict map has two answers for some value.
    Overlap,
    /// A growth was refused.
    NoMemory,
}

impl Kind {
    /// The name that reports give it, in small letters, with `-` between words.
    pub fn name(self) -> &'static str
        ensures { result.now ≡ reason_name self }
    {
        match self {
            Kind::TooLong => "too-long",
            Kind::Syntax => "syntax",
            Kind::Unsupported => "unsupported",
            Kind::Family => "family",
            Kind::UnknownChain => "unknown-chain",
            Kind::UnknownSet => "unknown-set",
            Kind::Duplicate => "duplicate",
            Kind::Loop => "loop",
            Kind::Depth => "depth",
            Kind::WrongHook => "wrong-hook",
            Kind::WrongType => "wrong-type",
            Kind::NotExternal => "not-external",
            Kind::NotInside => "not-inside",
            Kind::Limit => "limit",
            Kind::Overlap => "overlap",
            Kind::NoMemory => "no-memory",
        }
    }
}

impl fmt::Display for Kind {
    ghost use Rattle.std.specs.Prelude.{Some};

    ghost output = { λ kind. Some (reason_name kind) };

    fn fmt<W: fmt::Write>(&self, f: &mut fmt::Formatter<W>) -> fmt::Result {
        f.write_str(self.name())
    }
}

/// Why a text isn't taken, and the line of the token or statement at fault.
#[derive(Debug, Drop, thiserror::Error)]
#[error("line {line}: {kind}")]
pub struct LoadFault {
    /// The reason, or lack of memory.
    pub kind: Kind,
    /// It has no meaning where memory was lacking.
    pub line: Line,
}

impl LoadFault {
    /// A growth was refused.
    pub fn no_memory() -> LoadFault
        ensures { result ≡ record { kind = NoMemory; line = tt } }
    {
        LoadFault {
            kind: Kind::NoMemory,
            line: Line::new(1),
        }
    }
}

impl From<AllocError> for LoadFault {
    ghost from_gives = { λ _ e. e ≡ record { kind = NoMemory; line = tt } };

    fn from(_e: AllocError) -> LoadFault {
        LoadFault::no_memory()
    }
}

impl<T: Drop> From<AllocFailed<T>> for LoadFault {
    ghost from_gives = { λ _ e. e ≡ record { kind = NoMemory; line = tt } };

    fn from(_e: AllocFailed<T>) -> LoadFault {
        LoadFault::no_memory()
    }
}
