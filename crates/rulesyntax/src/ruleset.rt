//! From a text to the ruleset that it spells.

ghost use Rattle.std.specs.Prelude.{◌≡◌, ◌↔◌, ◌<◌, ◌≤◌, ℕ, List, length, Err, IfOk, IfErr};
ghost use Rattle.rulesyntax.specs.Grammar.{Spells};
ghost use Rattle.rulesyntax.specs.Text.{greatest_length, IsSpelledBy, IsOkOrNoMemory, IsUnreadFor, IsUnspelled, IsUnread, IsOfSyntax, IsFault};
ghost use Rattle.ruletokens.specs.declared.token.Token.{Token};
ghost use Rattle.ruletree.specs.declared.tree.Spelled.{Spelled};
ghost use Rattle.ruletree.specs.declared.fault.Kind.TheVariants.{TooLong};

use crate::error::{ReadError, Spot};
use crate::table::text;
use ruletokens::{Line, Source, Token, one_token_list, tokens};
use ruletree::{Kind, LoadFault, Spelled};
use std::alloc::Global;

/// The most bytes of a text.
pub const GREATEST_LENGTH: usize = 262_144;

fn kind_at(tokens: &[Token], spot: Spot) -> Kind
    ensures { IsUnspelled result }
{
    if spot.is_family {
        return Kind::Family;
    }
    match tokens.get(tokens.len().saturating_sub(spot.left)) {
        Some(Token::Name(_)) => Kind::Unsupported,
        _ => Kind::Syntax,
    }
}

fn fault_at(source: &Source, tokens: &[Token], error: ReadError) -> LoadFault
    ensures { IsFault result error }
{
    match error {
        ReadError::Memory => LoadFault::no_memory(),
        ReadError::Syntax(spot) => LoadFault {
            kind: kind_at(tokens, spot),
            line: source.line_of(spot.left),
        },
    }
}

/// The ruleset that the tokens spell.
fn read(source: &Source, tokens: &[Token]) -> Result<Spelled, LoadFault>
    ensures found { IfOk result (λ rules. Spells rules tokens.now) }
    ensures only { (rules : Spelled) → Spells rules tokens.now → IsOkOrNoMemory rules result }
    ensures kinds { IfErr result (λ fault. IsUnread fault.kind) }
{
    match text(source, tokens) {
        Ok(rules) => Ok(rules),
        Err(error) => Err(fault_at(source, tokens, error)),
    }
}

/// The ruleset that a text spells.
///
/// # Errors
///
/// `TooLong` exactly for more than `GREATEST_LENGTH` bytes, with line 1. `Syntax`, `Unsupported` or `Family`
/// where no ruleset is spelled, with the line of the first token that can't stand where it does; where the
/// text ends too early, that is the number of its newlines plus one. `NoMemory` only where a growth was
/// refused.
pub fn parse(alloc: Global, text: &[u8]) -> Result<Spelled, LoadFault>
    // What is answered is spelled.
    ensures found { IfOk result (λ rules. IsSpelledBy rules text.now) }

    // What is spelled is answered, unless memory runs out.
    ensures only { (rules : Spelled) → IsSpelledBy rules text.now
        → length text.now ≤ greatest_length → IsOkOrNoMemory rules result }
    ensures too_long { (result ≡ Err (record { kind = TooLong; line = tt }))
        ↔ greatest_length < length text.now }
    ensures kinds { IfErr result (λ fault. IsOfSyntax fault.kind) }

    // A fault is true of the text: one of syntax comes only where nothing is spelled.
    ensures refused { IfErr result (λ fault. IsUnreadFor text.now fault.kind) }
{
    if text.len() > GREATEST_LENGTH {
        return Err(LoadFault {
            kind: Kind::TooLong,
            line: Line::new(1),
        });
    }
    let mut lines = Vec::new(alloc);
    let tokens = tokens(alloc, text, &mut lines)?;
    let source = Source { alloc, lines };
    read(&source, tokens.as_slice())
}

/// Tokens spell one ruleset at most, and so does a text.
pub fn one_ruleset()
    ensures tokens { (tokens : List Token) (a b : Spelled) → Spells a tokens
        → Spells b tokens → a ≡ b }
    ensures text { (text : List ℕ) (a b : Spelled) → IsSpelledBy a text
        → IsSpelledBy b text → a ≡ b }
{
    one_token_list();
}
