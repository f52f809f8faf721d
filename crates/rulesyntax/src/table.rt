//! Reads tables, and texts, which are lists of them.

ghost use Rattle.std.specs.Prelude.{◌≡◌, Some, false, IfOk, IfErr};
ghost use Rattle.rulesyntax.specs.declared.keyword.ItemWord.TheVariants as item_word;
ghost use Rattle.rulesyntax.specs.declared.keyword.StatementWord.TheVariants as statement_word;
ghost use Rattle.rulesyntax.specs.Names.{is_reserved};
ghost use Rattle.rulesyntax.specs.Reading.{Gives, Fails, Answers, IsSyntax, item_behind, table_step, family_at, free_name_at, table_behind, flush_behind, statement_behind, text_step, text_at};

use crate::chain::chain;
use crate::error::{ReadError, Spot};
use crate::keyword::{ItemWord, StatementWord, is};
use crate::list::{Body, block, list_of};
use crate::next::{choice, keyword, name, quoted, stop, word};
use crate::set::set;
use ruletokens::{Line, Source, Token};
use ruletree::{Chain, Family, Set, Spelled, Table};
use sqlite_items::Items;

/// What stands in a table so far.
#[derive(Drop)]
pub struct TableBody {
    sets: Items<Set>,
    chains: Items<Chain>,
}

#[tactic(auto, unfolding(crate::specs::Reading::item_behind))]
fn add_set<'a>(
    body: &mut TableBody,
    source: &Source,
    line: Line,
    tokens: &'a [Token],
) -> Result<(bool, &'a [Token]), ReadError>
    ensures ok { IfOk result (λ x. item_behind body.old item_word.Set tokens.now
        ≡ Some ((body.new, x.0), x.1.now)) }
    ensures err { IfErr result (λ e. Fails e (item_behind body.old item_word.Set tokens.now)) }
{
    let (set, rest) = set(source, line, tokens)?;
    body.sets.push(set)?;
    Ok((true, rest))
}

#[tactic(auto, unfolding(crate::specs::Reading::item_behind))]
fn add_chain<'a>(
    body: &mut TableBody,
    source: &Source,
    line: Line,
    tokens: &'a [Token],
) -> Result<(bool, &'a [Token]), ReadError>
    ensures ok { IfOk result (λ x. item_behind body.old item_word.Chain tokens.now
        ≡ Some ((body.new, x.0), x.1.now)) }
    ensures err { IfErr result (λ e. Fails e (item_behind body.old item_word.Chain tokens.now)) }
{
    let (chain, rest) = chain(source, line, tokens)?;
    body.chains.push(chain)?;
    Ok((true, rest))
}

#[tactic(auto, unfolding(crate::specs::Reading::item_behind))]
fn item<'a>(
    body: &mut TableBody,
    source: &Source,
    word: ItemWord,
    line: Line,
    tokens: &'a [Token],
) -> Result<(bool, &'a [Token]), ReadError>
    ensures ok { IfOk result (λ x. item_behind body.old word tokens.now
        ≡ Some ((body.new, x.0), x.1.now)) }
    ensures err { IfErr result (λ e. Fails e (item_behind body.old word tokens.now)) }
{
    match word {
        ItemWord::Comment => {
            let rest = quoted(tokens)?;
            Ok((false, rest))
        }
        ItemWord::Set => add_set(body, source, line, tokens),
        ItemWord::Chain => add_chain(body, source, line, tokens),
    }
}

impl Body for TableBody {
    ghost steps = { table_step };

    #[tactic(auto, unfolding(crate::specs::Reading::table_step))]
    fn step<'a>(
        &mut self,
        source: &Source,
        tokens: &'a [Token],
    ) -> Result<(bool, &'a [Token]), ReadError> {
        let line = source.line(tokens);
        let (word, rest) = keyword::<ItemWord>(false, tokens)?;
        item(self, source, word, line, rest)
    }
}

#[tactic(auto, unfolding(crate::specs::Reading::family_at))]
fn family(tokens: &[Token]) -> (Family, &[Token])
    ensures { family_at tokens.now ≡ (result.0, result.1.now) }
{
    match choice::<Family>(false, tokens) {
        Some((family, rest)) => (family, rest),
        None => (Family::Ip, tokens),
    }
}

fn is_reserved(name: &[u8]) -> bool
    ensures { result ≡ is_reserved name.now }
{
    is(name, b"ip")
        || is(name, b"inet")
        || is(name, b"ip6")
        || is(name, b"arp")
        || is(name, b"bridge")
        || is(name, b"netdev")
}

/// That a table can't have the name in front. Directly behind `table` it is another family.
fn reserved(behind_table: usize, tokens: &[Token]) -> ReadError
    ensures { IsSyntax result }
{
    ReadError::Syntax(Spot {
        left: tokens.len(),
        is_family: tokens.len() == behind_table,
    })
}

#[tactic(auto, unfolding(crate::specs::Reading::free_name_at))]
fn free_name<'a>(
    source: &Source,
    behind_table: usize,
    tokens: &'a [Token],
) -> Result<(Items<u8>, &'a [Token]), ReadError>
    ensures { Gives false result (free_name_at tokens.now) }
{
    let (name, rest) = name(source, false, tokens)?;
    if is_reserved(name.as_slice()) {
        Err(reserved(behind_table, tokens))
    } else {
        Ok((name, rest))
    }
}

/// What stands behind `table`.
#[tactic(auto, unfolding(crate::specs::Reading::table_behind))]
fn table<'a>(
    source: &Source,
    line: Line,
    tokens: &'a [Token],
) -> Result<(Table, &'a [Token]), ReadError>
    ensures { Gives false result (table_behind tokens.now) }
{
    let (family, rest) = family(tokens);
    let (name, rest) = free_name(source, tokens.len(), rest)?;
    let start = TableBody {
        sets: Items::new(source.alloc),
        chains: Items::new(source.alloc),
    };
    let (body, rest) = block(source, start, rest)?;
    let TableBody { sets, chains } = body;
    Ok((
        Table {
            line,
            family,
            name,
            sets,
            chains,
        },
        rest,
    ))
}

/// `flush ruleset`, before every table.
#[tactic(auto, unfolding(crate::specs::Reading::flush_behind))]
fn flush<'a>(
    body: &mut Spelled,
    here: &'a [Token],
    tokens: &'a [Token],
) -> Result<(bool, &'a [Token]), ReadError>
    ensures ok { IfOk result (λ x. flush_behind body.old tokens.now
        ≡ Some ((body.new, x.0), x.1.now)) }
    ensures err { IfErr result (λ e. Fails e (flush_behind body.old tokens.now)) }
{
    if body.tables.len() == 0 {
        let rest = word(tokens, b"ruleset")?;
        Ok((false, rest))
    } else {
        Err(stop(false, here))
    }
}

#[tactic(auto, unfolding(crate::specs::Reading::statement_behind))]
fn add_table<'a>(
    body: &mut Spelled,
    source: &Source,
    line: Line,
    tokens: &'a [Token],
) -> Result<(bool, &'a [Token]), ReadError>
    ensures ok { IfOk result (λ x. statement_behind body.old statement_word.Table tokens.now
        ≡ Some ((body.new, x.0), x.1.now)) }
    ensures err { IfErr result
        (λ e. Fails e (statement_behind body.old statement_word.Table tokens.now)) }
{
    let (table, rest) = table(source, line, tokens)?;
    body.tables.push(table)?;
    Ok((true, rest))
}

#[tactic(auto, unfolding(crate::specs::Reading::statement_behind))]
fn statement<'a>(
    body: &mut Spelled,
    source: &Source,
    word: StatementWord,
    here: &'a [Token],
    tokens: &'a [Token],
) -> Result<(bool, &'a [Token]), ReadError>
    ensures ok { IfOk result (λ x. statement_behind body.old word tokens.now
        ≡ Some ((body.new, x.0), x.1.now)) }
    ensures err { IfErr result (λ e. Fails e (statement_behind body.old word tokens.now)) }
{
    match word {
        StatementWord::Flush => flush(body, here, tokens),
        StatementWord::Table => add_table(body, source, source.line(here), tokens),
    }
}

impl Body for Spelled {
    ghost steps = { text_step };

    #[tactic(auto, unfolding(crate::specs::Reading::text_step))]
    fn step<'a>(
        &mut self,
        source: &Source,
        tokens: &'a [Token],
    ) -> Result<(bool, &'a [Token]), ReadError> {
        let (word, rest) = keyword::<StatementWord>(false, tokens)?;
        statement(self, source, word, tokens, rest)
    }
}

/// The ruleset that all the tokens spell.
#[tactic(auto, unfolding(crate::specs::Reading::text_at))]
pub fn text(source: &Source, tokens: &[Token]) -> Result<Spelled, ReadError>
    ensures { Answers result (text_at tokens.now) }
{
    let start = Spelled {
        tables: Items::new(source.alloc),
    };
    let (spelled, rest) = list_of(source, start, tokens)?;
    if rest.len() == 0 {
        Ok(spelled)
    } else {
        Err(stop(false, rest))
    }
}
