//! Where and why reading stops.
ghost use Rattle.std.specs.Prelude.{◌≡◌};
ghost use Rattle.rulesyntax.specs.Reading.{IsSyntax};
ghost use Rattle.rulesyntax.specs.declared.error.ReadError.TheVariants.{Memory};

use ruletokens::Token;
use std::alloc::{AllocError, AllocFailed};

/// The first token that can't stand where it does.
#[derive(Clone, Copy, Drop)]
pub struct Spot {
    /// How many tokens there are from it on.
    pub left: usize,
    /// It is another family than `ip` and `inet`, behind `table`.
    pub is_family: bool,
}

/// Why tokens aren't read.
#[derive(Clone, Copy, Drop)]
pub enum ReadError {
    /// A growth was refused.
    Memory,
    /// They spell nothing that may stand there.
    Syntax(Spot),
}

impl ReadError {
    /// That the first of these last tokens of a text can't stand where it does.
    pub fn at(tokens: &[Token]) -> ReadError
        ensures { IsSyntax result }
    {
        ReadError::Syntax(Spot {
            left: tokens.len(),
            is_family: false,
        })
    }
}

impl From<AllocError> for ReadError {
    ghost from_gives = { λ _ e. e ≡ Memory };

    fn from(_e: AllocError) -> ReadError {
        ReadError::Memory
    }
}

impl<T: Drop> From<AllocFailed<T>> for ReadError {
    ghost from_gives = { λ _ e. e ≡ Memory };

    fn from(_e: AllocFailed<T>) -> ReadError {
        ReadError::Memory
    }
}
