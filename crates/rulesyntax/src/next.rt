//! Single tokens. Where `braces` is set they stand between the braces of elements, and NEWLINEs are skipped.
//! Where something must come next and doesn't, the error says where that is.

ghost use Rattle.std.specs.Prelude.{◌≡◌, ◌==◌, false, Some};
ghost use Rattle.rulesyntax.specs.Reading.{Gives, ◌>>=◌ as and_then, Goes, Finds, Eats, Nexts, IsSyntax, seen, skip, next_at, number_at, address_at, name_at, quoted_at, word_at, symbol_at, keyword_at, close_at, is_close, rank};

use crate::error::ReadError;
use crate::keyword::{Keyword, meaning};
use ruletokens::{Line, Source, Symbol, Token};
use sqlite_items::Items;

#[tactic(auto, unfolding(crate::specs::Reading::skip))]
fn skip_lines(mut tokens: &[Token]) -> &[Token]
    ensures { result.now ≡ skip tokens.entry.now }
{
    while let [Token::NewLine, rest @ ..] = tokens {
        tokens = rest;
    }
    tokens
}

fn here(braces: bool, tokens: &[Token]) -> &[Token] {
    if braces { skip_lines(tokens) } else { tokens }
}

/// That the next token can't stand where it does.
pub fn stop(braces: bool, tokens: &[Token]) -> ReadError
    ensures { IsSyntax result }
{
    ReadError::at(here(braces, tokens))
}

/// The line of the next token.
pub fn line(source: &Source, braces: bool, tokens: &[Token]) -> Line {
    source.line(here(braces, tokens))
}

#[tactic(auto, unfolding(crate::specs::Reading::next_at))]
fn front(tokens: &[Token]) -> Option<(&Token, &[Token])>
    ensures { Nexts false result (next_at tokens.now) }
{
    match tokens {
        [] | [Token::Symbol(Symbol::Close), ..] => None,
        [token, rest @ ..] => Some((token, rest)),
    }
}

/// The next token, unless it closes braces, and what stands behind it.
pub fn next(braces: bool, tokens: &[Token]) -> Option<(&Token, &[Token])>
    ensures { Nexts braces result (next_at (seen braces tokens.now)) }
{
    if braces {
        front(skip_lines(tokens))
    } else {
        front(tokens)
    }
}

/// The number that must come next.
#[tactic(auto, unfolding(crate::specs::Reading::number_at, crate::specs::Reading::number_of))]
pub fn number(braces: bool, tokens: &[Token]) -> Result<(u64, &[Token]), ReadError>
    ensures { Gives braces result (number_at (seen braces tokens.now)) }
{
    match next(braces, tokens) {
        Some((Token::Number(number), rest)) => Ok((*number, rest)),
        _ => Err(stop(braces, tokens)),
    }
}

/// The address that must come next; its most significant byte is the first octet.
#[tactic(auto, unfolding(crate::specs::Reading::address_at, crate::specs::Reading::address_of))]
pub fn address(braces: bool, tokens: &[Token]) -> Result<(u32, &[Token]), ReadError>
    ensures { Gives braces result (address_at (seen braces tokens.now)) }
{
    match next(braces, tokens) {
        Some((Token::Address(address), rest)) => Ok((*address, rest)),
        _ => Err(stop(braces, tokens)),
    }
}

/// A copy of the name that must come next.
#[tactic(auto, unfolding(crate::specs::Reading::name_at, crate::specs::Reading::name_of))]
pub fn name<'a>(
    source: &Source,
    braces: bool,
    tokens: &'a [Token],
) -> Result<(Items<u8>, &'a [Token]), ReadError>
    ensures { Gives braces result (name_at (seen braces tokens.now)) }
{
    match next(braces, tokens) {
        Some((Token::Name(name), rest)) => {
            Ok((Items::from_slice(source.alloc, name.as_slice())?, rest))
        }
        _ => Err(stop(braces, tokens)),
    }
}

/// What stands behind the quoted text that must come next.
#[tactic(auto, unfolding(crate::specs::Reading::quoted_at, crate::specs::Reading::quoted_of))]
pub fn quoted(tokens: &[Token]) -> Result<&[Token], ReadError>
    ensures { Goes false result (quoted_at tokens.now) }
{
    match next(false, tokens) {
        Some((Token::Quoted(_), rest)) => Ok(rest),
        _ => Err(stop(false, tokens)),
    }
}

/// What stands behind the word, if it comes next.
#[tactic(auto, unfolding(crate::specs::Reading::word_at, crate::specs::Reading::word_of))]
pub fn eat<'a>(tokens: &'a [Token], word: &[u8]) -> Option<&'a [Token]>
    ensures { Eats false result (word_at word.now tokens.now) }
{
    match next(false, tokens) {
        Some((Token::Name(name), rest)) => {
            if name.as_slice() == word {
                Some(rest)
            } else {
                None
            }
        }
        _ => None,
    }
}

/// What stands behind the word that must come next.
pub fn word<'a>(tokens: &'a [Token], word: &[u8]) -> Result<&'a [Token], ReadError>
    ensures { Goes false result (word_at word.now tokens.now) }
{
    match eat(tokens, word) {
        Some(rest) => Ok(rest),
        None => Err(stop(false, tokens)),
    }
}

#[tactic(auto, unfolding(crate::specs::Reading::rank))]
fn is_same(a: Symbol, b: Symbol) -> bool
    ensures { result ≡ (rank a == rank b) }
{
    a == b
}

/// What stands behind the symbol, if it comes next. It isn't for `}`.
#[tactic(auto, unfolding(crate::specs::Reading::symbol_at, crate::specs::Reading::symbol_of))]
pub fn eat_symbol(braces: bool, tokens: &[Token], symbol: Symbol) -> Option<&[Token]>
    ensures { Eats braces result (symbol_at symbol (seen braces tokens.now)) }
{
    match next(braces, tokens) {
        Some((Token::Symbol(found), rest)) => {
            if is_same(*found, symbol) {
                Some(rest)
            } else {
                None
            }
        }
        _ => None,
    }
}

/// What stands behind the symbol that must come next. It isn't for `}`.
pub fn symbol(braces: bool, tokens: &[Token], symbol: Symbol) -> Result<&[Token], ReadError>
    ensures { Goes braces result (symbol_at symbol (seen braces tokens.now)) }
{
    match eat_symbol(braces, tokens, symbol) {
        Some(rest) => Ok(rest),
        None => Err(stop(braces, tokens)),
    }
}

/// The meaning of the next word, if it has one.
#[tactic(auto, unfolding(crate::specs::Reading::keyword_at, crate::specs::Reading::keyword_of))]
pub fn choice<K: Keyword>(braces: bool, tokens: &[Token]) -> Option<(K, &[Token])>
    ensures { Finds braces result (keyword_at K.words (seen braces tokens.now)) }
{
    match next(braces, tokens) {
        Some((Token::Name(name), rest)) => match meaning::<K>(name.as_slice()) {
            Some(meaning) => Some((meaning, rest)),
            None => None,
        },
        _ => None,
    }
}

/// The meaning of the word that must come next.
pub fn keyword<K: Keyword>(braces: bool, tokens: &[Token]) -> Result<(K, &[Token]), ReadError>
    ensures { Gives braces result (keyword_at K.words (seen braces tokens.now)) }
{
    match choice::<K>(braces, tokens) {
        Some((meaning, rest)) => Ok((meaning, rest)),
        None => Err(stop(braces, tokens)),
    }
}

#[tactic(auto, unfolding(crate::specs::Reading::close_at))]
fn close_here(tokens: &[Token]) -> Result<&[Token], ReadError>
    ensures { Goes false result (close_at tokens.now) }
{
    match tokens {
        [Token::Symbol(Symbol::Close), rest @ ..] => Ok(rest),
        _ => Err(ReadError::at(tokens)),
    }
}

/// What stands behind the closing brace that must come next.
fn close(braces: bool, tokens: &[Token]) -> Result<&[Token], ReadError>
    ensures { Goes false result (close_at (seen braces tokens.now)) }
{
    if braces {
        close_here(skip_lines(tokens))
    } else {
        close_here(tokens)
    }
}

/// What is read, and what stands behind the closing brace that must come next.
pub fn closed<T: Drop>(read: T, braces: bool, tokens: &[Token]) -> Result<(T, &[Token]), ReadError>
    ensures { Gives false result (and_then (close_at (seen braces tokens.now))
        (λ rest. Some (read, rest))) }
{
    let rest = close(braces, tokens)?;
    Ok((read, rest))
}

#[tactic(auto, unfolding(crate::specs::Reading::is_close))]
fn is_close_here(tokens: &[Token]) -> bool
    ensures { result ≡ is_close tokens.now }
{
    match tokens {
        [Token::Symbol(Symbol::Close), ..] => true,
        _ => false,
    }
}

/// Whether a closing brace comes next.
pub fn is_close(braces: bool, tokens: &[Token]) -> bool
    ensures { result ≡ is_close (seen braces tokens.now) }
{
    if braces {
        is_close_here(skip_lines(tokens))
    } else {
        is_close_here(tokens)
    }
}
