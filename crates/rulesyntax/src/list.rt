//! Lists whose items stand apart by NEWLINEs and semicolons.

ghost use Rattle.std.specs.Prelude.{◌≡◌, ◌||◌, Some, false, length, suc, IfOk, IfErr};
ghost use Rattle.rulesyntax.specs.Reading.{Gives, Fails, Step, ends, closes, fill_at, list_from, block_at};

use crate::error::ReadError;
use crate::next::{closed, stop, symbol};
use ruletokens::{Source, Symbol, Token};

/// What a list's items are put into as they come.
pub trait Body: Sized {
    ghost steps: { Step Self };

    /// Puts one item more into it. The answer is whether that ended with a brace, so that nothing
    /// needs to stand behind it.
    fn step<'a>(
        &mut self,
        source: &Source,
        tokens: &'a [Token],
    ) -> Result<(bool, &'a [Token]), ReadError>
        ensures ok { IfOk result (λ x. steps self.old tokens.now
            ≡ Some ((self.new, x.0), x.1.now)) }
        ensures err { IfErr result (λ e. Fails e (steps self.old tokens.now)) };
}

#[tactic(auto, unfolding(crate::specs::Reading::fill_at))]
fn skip_fill(mut tokens: &[Token]) -> &[Token]
    ensures { result.now ≡ fill_at tokens.entry.now }
{
    while let [Token::NewLine | Token::Symbol(Symbol::Semicolon), rest @ ..] = tokens {
        tokens = rest;
    }
    tokens
}

fn ends(tokens: &[Token]) -> bool
    ensures { result ≡ ends tokens.now }
{
    match tokens {
        [] => true,
        [Token::Symbol(Symbol::Close), ..] => true,
        _ => false,
    }
}

fn closes(tokens: &[Token]) -> bool
    ensures { result ≡ closes tokens.now }
{
    match tokens {
        [] => true,
        [Token::Symbol(Symbol::Close), ..] => true,
        [Token::Symbol(Symbol::Semicolon), ..] => true,
        [Token::NewLine, ..] => true,
        _ => false,
    }
}

fn stands_apart(braced: bool, after: &[Token]) -> bool
    ensures { result ≡ (braced || closes after.now) }
{
    braced || closes(after)
}

/// All items up to a closing brace or the end of the tokens, put into `start`.
#[tactic(auto, unfolding(crate::specs::Reading::list_from))]
pub fn list_of<'a, B: Body + Drop>(
    source: &Source,
    start: B,
    tokens: &'a [Token],
) -> Result<(B, &'a [Token]), ReadError>
    ensures { Gives false result (list_from B.steps (suc (length tokens.now)) start tokens.now) }
{
    let mut body = start;
    let mut rest = tokens;
    for _ in 0..tokens.len() + 1 {
        let item = skip_fill(rest);
        if ends(item) {
            return Ok((body, item));
        }
        let (braced, after) = body.step(source, item)?;
        if !stands_apart(braced, after) {
            return Err(stop(false, after));
        }
        rest = after;
    }
    Err(stop(false, rest))
}

/// The items between braces, put into `start`, and the tokens behind.
#[tactic(auto, unfolding(crate::specs::Reading::block_at))]
pub fn block<'a, B: Body + Drop>(
    source: &Source,
    start: B,
    tokens: &'a [Token],
) -> Result<(B, &'a [Token]), ReadError>
    ensures { Gives false result (block_at B.steps start tokens.now) }
{
    let rest = symbol(false, tokens, Symbol::Open)?;
    let (body, rest) = list_of(source, start, rest)?;
    closed(body, false, rest)
}
