//! Elements, and lists with commas between.

ghost use Rattle.std.specs.Prelude.{◌≡◌, ◌&&◌, false, true, length, suc};
ghost use Rattle.ruletokens.specs.declared.token.Symbol.TheVariants.{Open};
ghost use Rattle.rulesyntax.specs.Reading.{Gives, Reader, ◌>>=◌ as and_then, seen, symbol_at, prefix_behind, addresses_behind, address_behind, numbers_behind, number_behind, value_at, element_at, behind_comma, comma_at, entries_from, opened_at, flag_at, is_close};

use crate::error::ReadError;
use crate::keyword::Flag;
use crate::next::{
    address, closed, eat_symbol, is_close, keyword, line, next, number, stop, symbol,
};
use ruletokens::{Source, Symbol, Token};
use ruletree::{Element, Value};
use sqlite_items::Items;

#[tactic(auto, unfolding(crate::specs::Reading::prefix_behind))]
fn prefix(braces: bool, base: u32, tokens: &[Token]) -> Result<(Value, &[Token]), ReadError>
    ensures { Gives braces result (prefix_behind base (seen braces tokens.now)) }
{
    let (length, rest) = number(braces, tokens)?;
    if length <= 32 {
        Ok((Value::Prefix(base, length as u8), rest))
    } else {
        Err(stop(braces, tokens))
    }
}

#[tactic(auto, unfolding(crate::specs::Reading::addresses_behind))]
fn addresses(braces: bool, first: u32, tokens: &[Token]) -> Result<(Value, &[Token]), ReadError>
    ensures { Gives braces result (addresses_behind first (seen braces tokens.now)) }
{
    let (last, rest) = address(braces, tokens)?;
    if first <= last {
        Ok((Value::Addresses(first, last), rest))
    } else {
        Err(stop(braces, tokens))
    }
}

#[tactic(auto, unfolding(crate::specs::Reading::address_behind))]
fn address_value(braces: bool, first: u32, tokens: &[Token]) -> Result<(Value, &[Token]), ReadError>
    ensures { Gives braces result (address_behind first (seen braces tokens.now)) }
{
    if let Some(rest) = eat_symbol(braces, tokens, Symbol::Slash) {
        return prefix(braces, first, rest);
    }
    if let Some(rest) = eat_symbol(braces, tokens, Symbol::Minus) {
        return addresses(braces, first, rest);
    }
    Ok((Value::Address(first), tokens))
}

#[tactic(auto, unfolding(crate::specs::Reading::numbers_behind))]
fn numbers(braces: bool, first: u64, tokens: &[Token]) -> Result<(Value, &[Token]), ReadError>
    ensures { Gives braces result (numbers_behind first (seen braces tokens.now)) }
{
    let (last, rest) = number(braces, tokens)?;
    if first <= last {
        Ok((Value::Numbers(first, last), rest))
    } else {
        Err(stop(braces, tokens))
    }
}

#[tactic(auto, unfolding(crate::specs::Reading::number_behind))]
fn number_value(braces: bool, first: u64, tokens: &[Token]) -> Result<(Value, &[Token]), ReadError>
    ensures { Gives braces result (number_behind first (seen braces tokens.now)) }
{
    match eat_symbol(braces, tokens, Symbol::Minus) {
        Some(rest) => numbers(braces, first, rest),
        None => Ok((Value::Number(first), tokens)),
    }
}

#[tactic(auto, unfolding(crate::specs::Reading::value_at, crate::specs::Reading::value_of))]
fn value<'a>(
    source: &Source,
    braces: bool,
    tokens: &'a [Token],
) -> Result<(Value, &'a [Token]), ReadError>
    ensures { Gives braces result (value_at (seen braces tokens.now)) }
{
    match next(braces, tokens) {
        Some((Token::Address(first), rest)) => address_value(braces, *first, rest),
        Some((Token::Number(first), rest)) => number_value(braces, *first, rest),
        Some((Token::Name(name), rest)) => {
            let name = Items::from_slice(source.alloc, name.as_slice())?;
            Ok((Value::Name(name), rest))
        }
        Some((Token::Quoted(text), rest)) => {
            let text = Items::from_slice(source.alloc, text.as_slice())?;
            Ok((Value::Quoted(text), rest))
        }
        _ => Err(stop(braces, tokens)),
    }
}

/// What stands in a list with commas between.
pub trait Entry: Sized {
    ghost reads: { Reader Self };

    /// The one that must come next.
    fn read<'a>(
        source: &Source,
        braces: bool,
        tokens: &'a [Token],
    ) -> Result<(Self, &'a [Token]), ReadError>
        ensures { Gives braces result (reads (seen braces tokens.now)) };
}

impl Entry for Element {
    ghost reads = { element_at };

    #[tactic(auto, unfolding(crate::specs::Reading::element_at))]
    fn read<'a>(
        source: &Source,
        braces: bool,
        tokens: &'a [Token],
    ) -> Result<(Element, &'a [Token]), ReadError> {
        let line = line(source, braces, tokens);
        let (value, rest) = value(source, braces, tokens)?;
        Ok((Element { line, value }, rest))
    }
}

impl Entry for Flag {
    ghost reads = { flag_at };

    #[tactic(auto, unfolding(crate::specs::Reading::flag_at))]
    fn read<'a>(
        _source: &Source,
        braces: bool,
        tokens: &'a [Token],
    ) -> Result<(Flag, &'a [Token]), ReadError> {
        keyword::<Flag>(braces, tokens)
    }
}

fn is_last(braces: bool, tokens: &[Token]) -> bool
    ensures { result ≡ (braces && is_close (seen braces tokens.now)) }
{
    braces && is_close(braces, tokens)
}

#[tactic(auto, unfolding(crate::specs::Reading::behind_comma))]
fn behind_comma(braces: bool, tokens: &[Token]) -> (bool, &[Token])
    ensures { behind_comma braces (seen braces tokens.now) ≡ (result.0, seen braces result.1.now) }
{
    if is_last(braces, tokens) {
        (false, tokens)
    } else {
        (true, tokens)
    }
}

/// Whether another entry comes, and what stands behind the comma. Only between braces may a comma
/// stand behind the last.
#[tactic(auto, unfolding(crate::specs::Reading::comma_at))]
fn comma(braces: bool, tokens: &[Token]) -> (bool, &[Token])
    ensures { comma_at braces (seen braces tokens.now) ≡ (result.0, seen braces result.1.now) }
{
    match eat_symbol(braces, tokens, Symbol::Comma) {
        Some(rest) => behind_comma(braces, rest),
        None => (false, tokens),
    }
}

/// The entries that must come next, one at least.
#[tactic(auto, unfolding(crate::specs::Reading::entries_from))]
pub fn entries<'a, E: Entry + Drop>(
    source: &Source,
    braces: bool,
    tokens: &'a [Token],
) -> Result<(Items<E>, &'a [Token]), ReadError>
    ensures { Gives braces result (entries_from E.reads braces (suc (length tokens.now))
        (seen braces tokens.now)) }
{
    let mut entries = Items::new(source.alloc);
    let mut rest = tokens;
    for _ in 0..tokens.len() + 1 {
        let (entry, after) = E::read(source, braces, rest)?;
        entries.push(entry)?;
        let (goes_on, after) = comma(braces, after);
        if !goes_on {
            return Ok((entries, after));
        }
        rest = after;
    }
    Err(stop(braces, rest))
}

/// The entries behind an opening brace, and what stands behind the closing one.
#[tactic(auto, unfolding(crate::specs::Reading::opened_at))]
pub fn opened<'a, E: Entry + Drop>(
    source: &Source,
    tokens: &'a [Token],
) -> Result<(Items<E>, &'a [Token]), ReadError>
    ensures { Gives false result (opened_at E.reads tokens.now) }
{
    let (entries, rest) = entries::<E>(source, true, tokens)?;
    closed(entries, true, rest)
}

/// The entries between braces, and what stands behind them.
pub fn braced<'a, E: Entry + Drop>(
    source: &Source,
    tokens: &'a [Token],
) -> Result<(Items<E>, &'a [Token]), ReadError>
    ensures { Gives false result (and_then (symbol_at Open tokens.now) (opened_at E.reads)) }
{
    let rest = symbol(false, tokens, Symbol::Open)?;
    opened::<E>(source, rest)
}
