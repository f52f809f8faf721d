//! Reads chains: comments, a base with its policy, and then rules.

ghost use Rattle.std.specs.Prelude.{◌≡◌, ◌≤◌, ◌≤ℤ◌, ℤ, pos, neg_ℤ, Some, false, IfOk, IfErr, codes};
ghost use Rattle.rulesyntax.specs.Names.{priority_value};
ghost use Rattle.rulesyntax.specs.Words.{hook_words};
ghost use Rattle.rulesyntax.specs.Reading.{Gives, Fails, ◌>>=◌ as and_then, word_at, keyword_at, amount_at, less_behind, more_behind, named_priority, priority_at, base_behind, with_policy, rule_step, policy_behind, member_behind, chain_step, chain_behind};

use crate::error::ReadError;
use crate::keyword::{MemberWord, PriorityName};
use crate::list::{Body, block};
use crate::next::{choice, eat, eat_symbol, keyword, name, number, quoted, stop, word};
use crate::rule::rule;
use ruletokens::{Line, Source, Symbol, Token};
use ruletree::{Base, Chain, ChainType, Hook, Policy, Rule};
use sqlite_items::Items;

const GREATEST: u64 = 1_000_000_000;

#[tactic(auto, unfolding(crate::specs::Reading::amount_at))]
fn amount(tokens: &[Token]) -> Result<(u64, &[Token]), ReadError>
    ensures value { Gives false result (amount_at tokens.now) }
    ensures small { IfOk result (λ x. x.0 ≤ 1000000000) }
{
    let (amount, rest) = number(false, tokens)?;
    if amount <= GREATEST {
        Ok((amount, rest))
    } else {
        Err(stop(false, tokens))
    }
}

#[tactic(auto, unfolding(crate::specs::Reading::less_behind))]
fn less(value: i64, tokens: &[Token]) -> Result<(i64, &[Token]), ReadError>
    requires low { neg_ℤ (pos 1000) ≤ℤ value }
    requires high { value ≤ℤ pos 1000 }
    ensures { Gives false result (less_behind value tokens.now) }
{
    let (amount, rest) = amount(tokens)?;
    Ok((value - amount as i64, rest))
}

#[tactic(auto, unfolding(crate::specs::Reading::more_behind))]
fn more(value: i64, tokens: &[Token]) -> Result<(i64, &[Token]), ReadError>
    requires low { neg_ℤ (pos 1000) ≤ℤ value }
    requires high { value ≤ℤ pos 1000 }
    ensures { Gives false result (more_behind value tokens.now) }
{
    let (amount, rest) = amount(tokens)?;
    Ok((value + amount as i64, rest))
}

#[tactic(auto, unfolding(crate::specs::Reading::named_priority))]
fn named(value: i64, tokens: &[Token]) -> Result<(i64, &[Token]), ReadError>
    requires low { neg_ℤ (pos 1000) ≤ℤ value }
    requires high { value ≤ℤ pos 1000 }
    ensures { Gives false result (named_priority value tokens.now) }
{
    if let Some(rest) = eat_symbol(false, tokens, Symbol::Minus) {
        return less(value, rest);
    }
    if let Some(rest) = eat_symbol(false, tokens, Symbol::Plus) {
        return more(value, rest);
    }
    Ok((value, tokens))
}

fn value_of(name: PriorityName) -> i64
    ensures value { result ≡ priority_value name }
    ensures low { neg_ℤ (pos 1000) ≤ℤ result }
    ensures high { result ≤ℤ pos 1000 }
{
    match name {
        PriorityName::Raw => -300,
        PriorityName::Mangle => -150,
        PriorityName::Dstnat => -100,
        PriorityName::Filter => 0,
        PriorityName::Security => 50,
        PriorityName::Srcnat => 100,
    }
}

#[tactic(auto, unfolding(crate::specs::Reading::priority_at))]
fn priority(tokens: &[Token]) -> Result<(i64, &[Token]), ReadError>
    ensures { Gives false result (priority_at tokens.now) }
{
    if let Some(rest) = eat_symbol(false, tokens, Symbol::Minus) {
        return less(0, rest);
    }
    if let Some((name, rest)) = choice::<PriorityName>(false, tokens) {
        return named(value_of(name), rest);
    }
    more(0, tokens)
}

/// The hook behind its word.
fn hook(tokens: &[Token]) -> Result<(Hook, &[Token]), ReadError>
    ensures { Gives false result (and_then (word_at (codes "hook") tokens.now)
        (keyword_at hook_words)) }
{
    let rest = word(tokens, b"hook")?;
    keyword::<Hook>(false, rest)
}

/// The priority behind its word.
fn base_priority(tokens: &[Token]) -> Result<(i64, &[Token]), ReadError>
    ensures { Gives false result (and_then (word_at (codes "priority") tokens.now) priority_at) }
{
    let rest = word(tokens, b"priority")?;
    priority(rest)
}

/// What stands behind `type`, without the policy.
#[tactic(auto, using(crate::proofs::Bind::in_turn), unfolding(crate::specs::Reading::base_behind))]
fn base(line: Line, tokens: &[Token]) -> Result<(Base, &[Token]), ReadError>
    ensures { Gives false result (base_behind tokens.now) }
{
    let (kind, rest) = keyword::<ChainType>(false, tokens)?;
    let (hook, rest) = hook(rest)?;
    let (priority, rest) = base_priority(rest)?;
    let policy = Policy::Accept;
    Ok((
        Base {
            line,
            kind,
            hook,
            priority,
            policy,
        },
        rest,
    ))
}

fn set_policy(base: &mut Option<Base>, policy: Policy)
    ensures { base.new ≡ with_policy base.old policy }
{
    if let Some(base) = base {
        base.policy = policy;
    }
}

/// What may come next in a chain besides a rule.
#[derive(Clone, Copy, Drop)]
pub enum Stage {
    /// Comments and a base.
    Start,
    /// The policy of the base.
    Policy,
    /// Nothing.
    Rules,
}

/// What stands in a chain so far.
#[derive(Drop)]
pub struct ChainBody {
    stage: Stage,
    base: Option<Base>,
    rules: Items<Rule>,
}

#[tactic(auto, unfolding(crate::specs::Reading::rule_step))]
fn rule_step<'a>(
    body: &mut ChainBody,
    source: &Source,
    tokens: &'a [Token],
) -> Result<(bool, &'a [Token]), ReadError>
    ensures ok { IfOk result (λ x. rule_step body.old tokens.now
        ≡ Some ((body.new, x.0), x.1.now)) }
    ensures err { IfErr result (λ e. Fails e (rule_step body.old tokens.now)) }
{
    let (rule, rest) = rule(source, tokens)?;
    body.rules.push(rule)?;
    body.stage = Stage::Rules;
    Ok((false, rest))
}

#[tactic(auto, unfolding(crate::specs::Reading::policy_behind))]
fn policy_step<'a>(
    body: &mut ChainBody,
    tokens: &'a [Token],
) -> Result<(bool, &'a [Token]), ReadError>
    ensures ok { IfOk result (λ x. policy_behind body.old tokens.now
        ≡ Some ((body.new, x.0), x.1.now)) }
    ensures err { IfErr result (λ e. Fails e (policy_behind body.old tokens.now)) }
{
    let (policy, rest) = keyword::<Policy>(false, tokens)?;
    set_policy(&mut body.base, policy);
    body.stage = Stage::Rules;
    Ok((false, rest))
}

#[tactic(auto, unfolding(crate::specs::Reading::member_behind))]
fn member<'a>(
    body: &mut ChainBody,
    word: MemberWord,
    line: Line,
    tokens: &'a [Token],
) -> Result<(bool, &'a [Token]), ReadError>
    ensures ok { IfOk result (λ x. member_behind body.old word tokens.now
        ≡ Some ((body.new, x.0), x.1.now)) }
    ensures err { IfErr result (λ e. Fails e (member_behind body.old word tokens.now)) }
{
    match word {
        MemberWord::Comment => {
            let rest = quoted(tokens)?;
            Ok((false, rest))
        }
        MemberWord::Type => {
            let (base, rest) = base(line, tokens)?;
            body.base = Some(base);
            body.stage = Stage::Policy;
            Ok((false, rest))
        }
    }
}

impl Body for ChainBody {
    ghost steps = { chain_step };

    #[tactic(auto, unfolding(crate::specs::Reading::chain_step))]
    fn step<'a>(
        &mut self,
        source: &Source,
        tokens: &'a [Token],
    ) -> Result<(bool, &'a [Token]), ReadError> {
        match self.stage {
            Stage::Start => match choice::<MemberWord>(false, tokens) {
                Some((word, rest)) => member(self, word, source.line(tokens), rest),
                None => rule_step(self, source, tokens),
            },
            Stage::Policy => match eat(tokens, b"policy") {
                Some(rest) => policy_step(self, rest),
                None => rule_step(self, source, tokens),
            },
            Stage::Rules => rule_step(self, source, tokens),
        }
    }
}

/// The chain of which the word `chain`, on this line, is read already.
#[tactic(auto, unfolding(crate::specs::Reading::chain_behind))]
pub fn chain<'a>(
    source: &Source,
    line: Line,
    tokens: &'a [Token],
) -> Result<(Chain, &'a [Token]), ReadError>
    ensures { Gives false result (chain_behind tokens.now) }
{
    let (name, rest) = name(source, false, tokens)?;
    let start = ChainBody {
        stage: Stage::Start,
        base: None,
        rules: Items::new(source.alloc),
    };
    let (body, rest) = block(source, start, rest)?;
    let ChainBody { base, rules, .. } = body;
    Ok((
        Chain {
            line,
            name,
            base,
            rules,
        },
        rest,
    ))
}
