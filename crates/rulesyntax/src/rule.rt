//! Reads rules: matches and counters, an end, a comment.

ghost use Rattle.std.specs.Prelude.{◌≡◌, ◌&&◌, not, false, true, length, suc, nat_le, Some, None, if◌then◌else◌, IfOk, IfErr};
ghost use Rattle.ruletokens.specs.declared.token.Symbol.TheVariants.{Colon};
ghost use Rattle.rulesyntax.specs.declared.keyword.HeadWord.TheVariants as head_word;
ghost use Rattle.rulesyntax.specs.Reading.{Gives, Goes, Finds, seen, verdict_behind, verdict_at, pair_at, meta_head, ip_head, port_head, head_behind, head_at, symbol_at, ◌>>=◌ as and_then, is_state, operator_at, states_side, states_at, one_at, named_behind, several_behind, plain_at, side_at, match_at, amounts_behind, counter_behind, begins_head, begins_vmap, begins_word, begins_part, transport_word, IsSyntax, part_at, with_part, parts_from, no_parts, to_at, port_behind, port_at, dnat_behind, snat_behind, nat_behind, wrapped, verdict_end, vmap_end, end_at, comment_at, is_said, rule_at};

use crate::element::{Entry, braced, entries, opened};
use crate::error::ReadError;
use crate::keyword::{HeadWord, IpWord, MetaWord, NatWord, PortWord, VerdictWord};
use crate::next::{
    address, choice, eat, eat_symbol, keyword, line, name, number, quoted, stop, symbol, word,
};
use ruletokens::{Line, Source, Symbol, Token};
use ruletree::{
    Dnat, Element, End, Head, Match, Pair, Rule, SetName, Side, Snat, Target, Transport, Verdict,
    Vmap,
};
use sqlite_items::Items;

#[tactic(auto, unfolding(crate::specs::Reading::verdict_behind))]
fn verdict_of<'a>(
    source: &Source,
    braces: bool,
    word: VerdictWord,
    line: Line,
    tokens: &'a [Token],
) -> Result<(Verdict, &'a [Token]), ReadError>
    ensures { Gives braces result (verdict_behind word (seen braces tokens.now)) }
{
    match word {
        VerdictWord::Accept => Ok((Verdict::Accept, tokens)),
        VerdictWord::Drop => Ok((Verdict::Drop, tokens)),
        VerdictWord::Return => Ok((Verdict::Return, tokens)),
        VerdictWord::Continue => Ok((Verdict::Continue, tokens)),
        VerdictWord::Jump => {
            let (chain, rest) = name(source, braces, tokens)?;
            Ok((Verdict::Jump(Target { line, chain }), rest))
        }
        VerdictWord::Goto => {
            let (chain, rest) = name(source, braces, tokens)?;
            Ok((Verdict::Goto(Target { line, chain }), rest))
        }
    }
}

#[tactic(auto, unfolding(crate::specs::Reading::verdict_at))]
fn verdict<'a>(
    source: &Source,
    braces: bool,
    tokens: &'a [Token],
) -> Result<(Verdict, &'a [Token]), ReadError>
    ensures { Gives braces result (verdict_at (seen braces tokens.now)) }
{
    let line = line(source, braces, tokens);
    let (word, rest) = keyword::<VerdictWord>(braces, tokens)?;
    verdict_of(source, braces, word, line, rest)
}

/// The verdict behind a colon.
fn colon_verdict<'a>(
    source: &Source,
    braces: bool,
    tokens: &'a [Token],
) -> Result<(Verdict, &'a [Token]), ReadError>
    ensures { Gives braces result (and_then (symbol_at Colon (seen braces tokens.now)) verdict_at) }
{
    let rest = symbol(braces, tokens, Symbol::Colon)?;
    verdict(source, braces, rest)
}

impl Entry for Pair {
    ghost reads = { pair_at };

    #[tactic(auto, using(crate::proofs::Bind::in_turn), unfolding(crate::specs::Reading::pair_at))]
    fn read<'a>(
        source: &Source,
        braces: bool,
        tokens: &'a [Token],
    ) -> Result<(Pair, &'a [Token]), ReadError> {
        let (key, rest) = Element::read(source, braces, tokens)?;
        let (verdict, rest) = colon_verdict(source, braces, rest)?;
        Ok((Pair { key, verdict }, rest))
    }
}

#[tactic(auto, unfolding(crate::specs::Reading::meta_head))]
fn meta_head(word: MetaWord) -> Head
    ensures { result ≡ meta_head word }
{
    match word {
        MetaWord::Iifname | MetaWord::Iif => Head::Iifname,
        MetaWord::Oifname | MetaWord::Oif => Head::Oifname,
        MetaWord::L4proto => Head::Protocol,
    }
}

#[tactic(auto, unfolding(crate::specs::Reading::ip_head))]
fn ip_head(word: IpWord) -> Head
    ensures { result ≡ ip_head word }
{
    match word {
        IpWord::Saddr => Head::Saddr,
        IpWord::Daddr => Head::Daddr,
        IpWord::Protocol => Head::Protocol,
    }
}

#[tactic(auto, unfolding(crate::specs::Reading::port_head))]
fn port_head(transport: Transport, word: PortWord) -> Head
    ensures { result ≡ port_head transport word }
{
    match word {
        PortWord::Sport => Head::Sport(transport),
        PortWord::Dport => Head::Dport(transport),
    }
}

#[tactic(auto, unfolding(crate::specs::Reading::head_behind))]
fn behind_meta(tokens: &[Token]) -> Option<(Head, &[Token])>
    ensures { Finds false result (head_behind head_word.Meta tokens.now) }
{
    match choice::<MetaWord>(false, tokens) {
        Some((word, rest)) => Some((meta_head(word), rest)),
        None => None,
    }
}

#[tactic(auto, unfolding(crate::specs::Reading::head_behind))]
fn behind_ip(tokens: &[Token]) -> Option<(Head, &[Token])>
    ensures { Finds false result (head_behind head_word.Ip tokens.now) }
{
    match choice::<IpWord>(false, tokens) {
        Some((word, rest)) => Some((ip_head(word), rest)),
        None => None,
    }
}

#[tactic(auto, unfolding(crate::specs::Reading::head_behind, crate::specs::Reading::transport_word))]
fn behind_transport(transport: Transport, tokens: &[Token]) -> Option<(Head, &[Token])>
    ensures { Finds false result (head_behind (transport_word transport) tokens.now) }
{
    match choice::<PortWord>(false, tokens) {
        Some((word, rest)) => Some((port_head(transport, word), rest)),
        None => None,
    }
}

#[tactic(auto, unfolding(crate::specs::Reading::head_behind))]
fn behind_ct(tokens: &[Token]) -> Option<(Head, &[Token])>
    ensures { Finds false result (head_behind head_word.Ct tokens.now) }
{
    match eat(tokens, b"state") {
        Some(rest) => Some((Head::State, rest)),
        None => None,
    }
}

#[tactic(auto, unfolding(crate::specs::Reading::head_behind, crate::specs::Reading::transport_word))]
fn head_of(word: HeadWord, tokens: &[Token]) -> Option<(Head, &[Token])>
    ensures { Finds false result (head_behind word tokens.now) }
{
    match word {
        HeadWord::Meta => behind_meta(tokens),
        HeadWord::Ip => behind_ip(tokens),
        HeadWord::Tcp => behind_transport(Transport::Tcp, tokens),
        HeadWord::Udp => behind_transport(Transport::Udp, tokens),
        HeadWord::Ct => behind_ct(tokens),
        HeadWord::Iifname | HeadWord::Iif => Some((Head::Iifname, tokens)),
        HeadWord::Oifname | HeadWord::Oif => Some((Head::Oifname, tokens)),
    }
}

#[tactic(auto, unfolding(crate::specs::Reading::head_at))]
fn head_if(tokens: &[Token]) -> Option<(Head, &[Token])>
    ensures { Finds false result (head_at tokens.now) }
{
    match choice::<HeadWord>(false, tokens) {
        Some((word, rest)) => head_of(word, rest),
        None => None,
    }
}

/// That a head can't go on so: its first word is one, or not.
fn head_stop(tokens: &[Token]) -> ReadError
    ensures { IsSyntax result }
{
    match choice::<HeadWord>(false, tokens) {
        Some((_, rest)) => stop(false, rest),
        None => stop(false, tokens),
    }
}

fn head(tokens: &[Token]) -> Result<(Head, &[Token]), ReadError>
    ensures { Gives false result (head_at tokens.now) }
{
    match head_if(tokens) {
        Some((head, rest)) => Ok((head, rest)),
        None => Err(head_stop(tokens)),
    }
}

fn is_state(head: Head) -> bool
    ensures { result ≡ is_state head }
{
    match head {
        Head::State => true,
        _ => false,
    }
}

/// Whether it is `!=`, and what stands behind the operator, which may be missing.
#[tactic(auto, unfolding(crate::specs::Reading::operator_at))]
fn operator(tokens: &[Token]) -> (bool, &[Token])
    ensures { operator_at tokens.now ≡ (result.0, result.1.now) }
{
    if let Some(rest) = eat_symbol(false, tokens, Symbol::Differs) {
        return (true, rest);
    }
    if let Some(rest) = eat_symbol(false, tokens, Symbol::Equals) {
        return (false, rest);
    }
    (false, tokens)
}

/// The side that these states make: one has no list.
fn states_side(states: Items<Element>) -> Side
    ensures { result ≡ states_side states }
{
    let mut states = states;
    if states.len() == 1 {
        match states.pop() {
            Some(state) => return Side::One(state),
            None => return Side::Several(states),
        }
    }
    Side::Several(states)
}

#[tactic(auto, unfolding(crate::specs::Reading::states_at))]
fn states<'a>(source: &Source, tokens: &'a [Token]) -> Result<(Side, &'a [Token]), ReadError>
    ensures { Gives false result (states_at tokens.now) }
{
    let (states, rest) = entries::<Element>(source, false, tokens)?;
    Ok((states_side(states), rest))
}

#[tactic(auto, unfolding(crate::specs::Reading::one_at))]
fn one<'a>(source: &Source, tokens: &'a [Token]) -> Result<(Side, &'a [Token]), ReadError>
    ensures { Gives false result (one_at tokens.now) }
{
    let (element, rest) = Element::read(source, false, tokens)?;
    Ok((Side::One(element), rest))
}

#[tactic(auto, unfolding(crate::specs::Reading::named_behind))]
fn named<'a>(
    source: &Source,
    line: Line,
    tokens: &'a [Token],
) -> Result<(Side, &'a [Token]), ReadError>
    ensures { Gives false result (named_behind tokens.now) }
{
    let (name, rest) = name(source, false, tokens)?;
    Ok((Side::Named(SetName { line, name }), rest))
}

#[tactic(auto, unfolding(crate::specs::Reading::several_behind))]
fn several<'a>(source: &Source, tokens: &'a [Token]) -> Result<(Side, &'a [Token]), ReadError>
    ensures { Gives false result (several_behind tokens.now) }
{
    let (elements, rest) = opened::<Element>(source, tokens)?;
    Ok((Side::Several(elements), rest))
}

#[tactic(auto, unfolding(crate::specs::Reading::plain_at))]
fn plain<'a>(
    source: &Source,
    is_state: bool,
    tokens: &'a [Token],
) -> Result<(Side, &'a [Token]), ReadError>
    ensures { Gives false result (plain_at is_state tokens.now) }
{
    if let Some(_) = eat(tokens, b"vmap") {
        return Err(stop(false, tokens));
    }
    if is_state {
        states(source, tokens)
    } else {
        one(source, tokens)
    }
}

#[tactic(auto, unfolding(crate::specs::Reading::side_at))]
fn side<'a>(
    source: &Source,
    is_state: bool,
    tokens: &'a [Token],
) -> Result<(Side, &'a [Token]), ReadError>
    ensures { Gives false result (side_at is_state tokens.now) }
{
    if let Some(rest) = eat_symbol(false, tokens, Symbol::At) {
        return named(source, line(source, false, tokens), rest);
    }
    if let Some(rest) = eat_symbol(false, tokens, Symbol::Open) {
        return several(source, rest);
    }
    plain(source, is_state, tokens)
}

#[tactic(auto, unfolding(crate::specs::Reading::match_at))]
fn read_match<'a>(source: &Source, tokens: &'a [Token]) -> Result<(Match, &'a [Token]), ReadError>
    ensures { Gives false result (match_at tokens.now) }
{
    let line = line(source, false, tokens);
    let (head, rest) = head(tokens)?;
    let (negated, rest) = operator(rest);
    let (side, rest) = side(source, is_state(head), rest)?;
    Ok((
        Match {
            line,
            head,
            negated,
            side,
        },
        rest,
    ))
}

#[tactic(auto, unfolding(crate::specs::Reading::amounts_behind))]
fn amounts(tokens: &[Token]) -> Result<&[Token], ReadError>
    ensures { Goes false result (amounts_behind tokens.now) }
{
    let (_, rest) = number(false, tokens)?;
    let rest = word(rest, b"bytes")?;
    let (_, rest) = number(false, rest)?;
    Ok(rest)
}

#[tactic(auto, unfolding(crate::specs::Reading::counter_behind))]
fn counter(tokens: &[Token]) -> Result<&[Token], ReadError>
    ensures { Goes false result (counter_behind tokens.now) }
{
    match eat(tokens, b"packets") {
        Some(rest) => amounts(rest),
        None => Ok(tokens),
    }
}

#[tactic(auto, unfolding(crate::specs::Reading::begins_head))]
fn begins_head(tokens: &[Token]) -> bool
    ensures { result ≡ begins_head tokens.now }
{
    match choice::<HeadWord>(false, tokens) {
        Some(_) => true,
        None => false,
    }
}

#[tactic(auto, unfolding(crate::specs::Reading::begins_word))]
fn begins_word(tokens: &[Token], word: &[u8]) -> bool
    ensures { result ≡ begins_word word.now tokens.now }
{
    match eat(tokens, word) {
        Some(_) => true,
        None => false,
    }
}

#[tactic(auto, unfolding(crate::specs::Reading::begins_vmap))]
fn begins_vmap(tokens: &[Token]) -> bool
    ensures { result ≡ begins_vmap tokens.now }
{
    match head_if(tokens) {
        Some((_, rest)) => begins_word(rest, b"vmap"),
        None => false,
    }
}

fn and_not(a: bool, b: bool) -> bool
    ensures { result ≡ (a && not b) }
{
    a && !b
}

#[tactic(auto, unfolding(crate::specs::Reading::begins_part))]
fn begins_part(tokens: &[Token]) -> bool
    ensures { result ≡ begins_part tokens.now }
{
    if begins_word(tokens, b"counter") {
        return true;
    }
    and_not(begins_head(tokens), begins_vmap(tokens))
}

/// A match, or a counter, which has no effect.
#[derive(Drop)]
pub enum Part {
    Counter,
    Match(Match),
}

/// The matches so far, and whether any part came.
#[derive(Drop)]
pub struct Parts {
    matches: Items<Match>,
    any: bool,
}

#[tactic(auto, unfolding(crate::specs::Reading::part_at))]
fn read_part<'a>(source: &Source, tokens: &'a [Token]) -> Result<(Part, &'a [Token]), ReadError>
    ensures { Gives false result (part_at tokens.now) }
{
    if let Some(rest) = eat(tokens, b"counter") {
        let rest = counter(rest)?;
        return Ok((Part::Counter, rest));
    }
    let (found, rest) = read_match(source, tokens)?;
    Ok((Part::Match(found), rest))
}

fn with_part(parts: Parts, part: Part) -> Result<Parts, ReadError>
    ensures ok { IfOk result (λ new. new ≡ with_part parts part) }
    ensures err { IfErr result (λ e. IsSyntax e → ⊥) }
{
    let Parts { mut matches, .. } = parts;
    if let Part::Match(found) = part {
        matches.push(found)?;
    }
    Ok(Parts { matches, any: true })
}

#[tactic(auto, unfolding(crate::specs::Reading::parts_from))]
fn read_parts<'a>(source: &Source, tokens: &'a [Token]) -> Result<(Parts, &'a [Token]), ReadError>
    ensures { Gives false result (parts_from (suc (length tokens.now)) no_parts tokens.now) }
{
    let mut parts = Parts {
        matches: Items::new(source.alloc),
        any: false,
    };
    let mut rest = tokens;
    for _ in 0..tokens.len() + 1 {
        if !begins_part(rest) {
            return Ok((parts, rest));
        }
        let (part, after) = read_part(source, rest)?;
        parts = with_part(parts, part)?;
        rest = after;
    }
    Err(stop(false, rest))
}

#[tactic(auto, using(crate::proofs::Bind::in_turn), unfolding(crate::specs::Reading::vmap_at, crate::specs::Reading::vmap_end, crate::specs::Reading::wrapped))]
fn vmap<'a>(source: &Source, tokens: &'a [Token]) -> Result<(Option<End>, &'a [Token]), ReadError>
    ensures { Gives false result (wrapped (vmap_end tokens.now)) }
{
    let line = line(source, false, tokens);
    let (head, rest) = head(tokens)?;
    let rest = word(rest, b"vmap")?;
    let (pairs, rest) = braced::<Pair>(source, rest)?;
    Ok((Some(End::Vmap(Vmap { line, head, pairs })), rest))
}

#[tactic(auto, unfolding(crate::specs::Reading::to_at))]
fn to(tokens: &[Token]) -> Result<&[Token], ReadError>
    ensures { Goes false result (to_at tokens.now) }
{
    match eat(tokens, b"ip") {
        Some(rest) => word(rest, b"to"),
        None => word(tokens, b"to"),
    }
}

fn is_port(number: u64) -> bool
    ensures { result ≡ (nat_le 1 number && nat_le number 65535) }
{
    1 <= number && number <= 65535
}

#[tactic(auto, unfolding(crate::specs::Reading::port_behind))]
fn port_number(tokens: &[Token]) -> Result<(Option<u16>, &[Token]), ReadError>
    ensures { Gives false result (port_behind tokens.now) }
{
    let (port, rest) = number(false, tokens)?;
    if is_port(port) {
        Ok((Some(port as u16), rest))
    } else {
        Err(stop(false, tokens))
    }
}

#[tactic(auto, unfolding(crate::specs::Reading::port_at))]
fn port(tokens: &[Token]) -> Result<(Option<u16>, &[Token]), ReadError>
    ensures { Gives false result (port_at tokens.now) }
{
    match eat_symbol(false, tokens, Symbol::Colon) {
        Some(rest) => port_number(rest),
        None => Ok((None, tokens)),
    }
}

#[tactic(auto, unfolding(crate::specs::Reading::dnat_behind, crate::specs::Reading::wrapped))]
fn dnat<'a>(
    source: &Source,
    line: Line,
    tokens: &'a [Token],
) -> Result<(Option<End>, &'a [Token]), ReadError>
    ensures { Gives false result (wrapped (dnat_behind tokens.now)) }
{
    let rest = to(tokens)?;
    let address_line = source.line(rest);
    let (address, rest) = address(false, rest)?;
    let (port, rest) = port(rest)?;
    Ok((
        Some(End::Dnat(Dnat {
            line,
            address_line,
            address,
            port,
        })),
        rest,
    ))
}

#[tactic(auto, unfolding(crate::specs::Reading::snat_behind, crate::specs::Reading::wrapped))]
fn snat<'a>(
    source: &Source,
    line: Line,
    tokens: &'a [Token],
) -> Result<(Option<End>, &'a [Token]), ReadError>
    ensures { Gives false result (wrapped (snat_behind tokens.now)) }
{
    let rest = to(tokens)?;
    let address_line = source.line(rest);
    let (address, rest) = address(false, rest)?;
    Ok((
        Some(End::Snat(Snat {
            line,
            address_line,
            address,
        })),
        rest,
    ))
}

#[tactic(auto, unfolding(crate::specs::Reading::nat_behind, crate::specs::Reading::wrapped))]
fn nat<'a>(
    source: &Source,
    word: NatWord,
    line: Line,
    tokens: &'a [Token],
) -> Result<(Option<End>, &'a [Token]), ReadError>
    ensures { Gives false result (wrapped (nat_behind word tokens.now)) }
{
    match word {
        NatWord::Dnat => dnat(source, line, tokens),
        NatWord::Snat => snat(source, line, tokens),
        NatWord::Masquerade => Ok((Some(End::Masquerade(line)), tokens)),
    }
}

#[tactic(auto, unfolding(crate::specs::Reading::verdict_end, crate::specs::Reading::wrapped))]
fn verdict_end<'a>(
    source: &Source,
    word: VerdictWord,
    line: Line,
    tokens: &'a [Token],
) -> Result<(Option<End>, &'a [Token]), ReadError>
    ensures { Gives false result (wrapped (verdict_end word tokens.now)) }
{
    let (verdict, rest) = verdict_of(source, false, word, line, tokens)?;
    Ok((Some(End::Verdict(verdict)), rest))
}

#[tactic(auto, unfolding(crate::specs::Reading::end_at))]
fn end<'a>(source: &Source, tokens: &'a [Token]) -> Result<(Option<End>, &'a [Token]), ReadError>
    ensures { Gives false result (end_at tokens.now) }
{
    if let Some((word, rest)) = choice::<VerdictWord>(false, tokens) {
        return verdict_end(source, word, source.line(tokens), rest);
    }
    if let Some((word, rest)) = choice::<NatWord>(false, tokens) {
        return nat(source, word, source.line(tokens), rest);
    }
    if begins_head(tokens) {
        return vmap(source, tokens);
    }
    Ok((None, tokens))
}

#[tactic(auto, unfolding(crate::specs::Reading::comment_at))]
fn comment(tokens: &[Token]) -> Result<&[Token], ReadError>
    ensures { Goes false result (comment_at tokens.now) }
{
    match eat(tokens, b"comment") {
        Some(rest) => quoted(rest),
        None => Ok(tokens),
    }
}

fn is_said(parts: &Parts, end: &Option<End>) -> bool
    ensures { result ≡ is_said parts.now end.now }
{
    match end {
        Some(_) => true,
        None => parts.any,
    }
}

/// What is read, if it says anything, and what stands behind its comment.
fn commented<T: Drop>(read: T, is_said: bool, tokens: &[Token]) -> Result<(T, &[Token]), ReadError>
    ensures { Gives false result (if is_said then and_then (comment_at tokens.now)
        (λ rest. Some (read, rest)) else None) }
{
    if !is_said {
        return Err(stop(false, tokens));
    }
    let rest = comment(tokens)?;
    Ok((read, rest))
}

/// The rule that must come next, with a match, a counter or an end at least.
#[tactic(auto, unfolding(crate::specs::Reading::rule_at))]
pub fn rule<'a>(source: &Source, tokens: &'a [Token]) -> Result<(Rule, &'a [Token]), ReadError>
    ensures { Gives false result (rule_at tokens.now) }
{
    let line = source.line(tokens);
    let (parts, rest) = read_parts(source, tokens)?;
    let (end, rest) = end(source, rest)?;
    let is_said = is_said(&parts, &end);
    let Parts { matches, .. } = parts;
    commented(Rule { line, matches, end }, is_said, rest)
}
