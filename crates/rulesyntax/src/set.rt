//! Reads sets: lists of lines between braces.

ghost use Rattle.std.specs.Prelude.{◌≡◌, Some, false, IfOk, IfErr};
ghost use Rattle.rulesyntax.specs.Reading.{Gives, Fails, type_behind, elements_behind, line_behind, set_step, set_behind};

use crate::element::{braced, entries};
use crate::error::ReadError;
use crate::keyword::{Flag, LineWord};
use crate::list::{Body, block};
use crate::next::{keyword, name, quoted, symbol};
use ruletokens::{Line, Source, Symbol, Token};
use ruletree::{Element, Set, SetElements, SetType};
use sqlite_items::Items;

/// What stands in a set so far.
#[derive(Drop)]
pub struct SetBody {
    types: Items<SetType>,
    elements: Items<SetElements>,
}

#[tactic(auto, unfolding(crate::specs::Reading::type_behind))]
fn set_type<'a>(
    body: &mut SetBody,
    source: &Source,
    line: Line,
    tokens: &'a [Token],
) -> Result<(bool, &'a [Token]), ReadError>
    ensures ok { IfOk result (λ x. type_behind body.old tokens.now
        ≡ Some ((body.new, x.0), x.1.now)) }
    ensures err { IfErr result (λ e. Fails e (type_behind body.old tokens.now)) }
{
    let name_line = source.line(tokens);
    let (name, rest) = name(source, false, tokens)?;
    body.types.push(SetType {
        line,
        name_line,
        name,
    })?;
    Ok((false, rest))
}

#[tactic(auto, using(crate::proofs::Bind::in_turn), unfolding(crate::specs::Reading::elements_behind))]
fn set_elements<'a>(
    body: &mut SetBody,
    source: &Source,
    line: Line,
    tokens: &'a [Token],
) -> Result<(bool, &'a [Token]), ReadError>
    ensures ok { IfOk result (λ x. elements_behind body.old tokens.now
        ≡ Some ((body.new, x.0), x.1.now)) }
    ensures err { IfErr result (λ e. Fails e (elements_behind body.old tokens.now)) }
{
    let rest = symbol(false, tokens, Symbol::Equal)?;
    let (elements, rest) = braced::<Element>(source, rest)?;
    body.elements.push(SetElements { line, elements })?;
    Ok((false, rest))
}

#[tactic(auto, unfolding(crate::specs::Reading::line_behind))]
fn set_line<'a>(
    body: &mut SetBody,
    source: &Source,
    word: LineWord,
    line: Line,
    tokens: &'a [Token],
) -> Result<(bool, &'a [Token]), ReadError>
    ensures ok { IfOk result (λ x. line_behind body.old word tokens.now
        ≡ Some ((body.new, x.0), x.1.now)) }
    ensures err { IfErr result (λ e. Fails e (line_behind body.old word tokens.now)) }
{
    match word {
        LineWord::Type => set_type(body, source, line, tokens),
        LineWord::Flags => {
            let (_, rest) = entries::<Flag>(source, false, tokens)?;
            Ok((false, rest))
        }
        LineWord::AutoMerge => Ok((false, tokens)),
        LineWord::Elements => set_elements(body, source, line, tokens),
        LineWord::Comment => {
            let rest = quoted(tokens)?;
            Ok((false, rest))
        }
    }
}

impl Body for SetBody {
    ghost steps = { set_step };

    #[tactic(auto, unfolding(crate::specs::Reading::set_step))]
    fn step<'a>(
        &mut self,
        source: &Source,
        tokens: &'a [Token],
    ) -> Result<(bool, &'a [Token]), ReadError> {
        let line = source.line(tokens);
        let (word, rest) = keyword::<LineWord>(false, tokens)?;
        set_line(self, source, word, line, rest)
    }
}

/// The set of which the word `set`, on this line, is read already.
#[tactic(auto, unfolding(crate::specs::Reading::set_behind))]
pub fn set<'a>(
    source: &Source,
    line: Line,
    tokens: &'a [Token],
) -> Result<(Set, &'a [Token]), ReadError>
    ensures { Gives false result (set_behind tokens.now) }
{
    let name_line = source.line(tokens);
    let (name, rest) = name(source, false, tokens)?;
    let start = SetBody {
        types: Items::new(source.alloc),
        elements: Items::new(source.alloc),
    };
    let (body, rest) = block(source, start, rest)?;
    let SetBody { types, elements } = body;
    Ok((
        Set {
            line,
            name_line,
            name,
            types,
            elements,
        },
        rest,
    ))
}
