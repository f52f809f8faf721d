//! The tokens of a text, by longest match.

ghost use Rattle.std.specs.Prelude.{◌≡◌, ◌==◌, ◌≤◌, ◌++◌, ◌∷◌, [], List, ℕ, true, false, length, Some, IfOk, OnOk, IfSome, IfNone};
ghost use Rattle.std.specs.List.{list_all};
ghost use Rattle.ruletokens.specs.Tokens.{is_start, is_in, begins_with, shape_of, single, decimal, address, numeral, found_kind, with_kind, is_plain, IsPiece, IsShaped, AreTokens, with_digit, digits_from, octets, Stops, GoesOn};
ghost use Rattle.ruletokens.specs.declared.token.Token.{Token};
ghost use Rattle.ruletokens.specs.declared.lex.Shape.TheVariants as shape;

use crate::token::{Symbol, Token};
use sqlite_items::Items;
use std::alloc::{AllocError, Global};

/// What a piece of a text may be, by its first byte.
#[derive(Clone, Copy, Drop)]
pub enum Shape {
    Word,
    Numeral,
    Comment,
    Quote,
    Escape,
    Equal,
    Bang,
    Single,
}

/// Which bytes go on with a piece.
#[derive(Clone, Copy, Drop)]
pub enum Class {
    /// In a name.
    Word,
    /// In a number or an address, right or wrong.
    Numeral,
    /// In a line.
    Line,
    /// Between quotes.
    Inner,
    /// Between the dots of an address.
    Part,
}

fn is_start(b: u8) -> bool
    ensures { result ≡ is_start b }
{
    b.is_ascii_alphabetic() || b == b'_'
}

fn is_in(class: Class, b: u8) -> bool
    ensures { result ≡ is_in class b }
{
    match class {
        Class::Word => {
            b.is_ascii_alphanumeric() || b == b'_' || b == b'-' || b == b'.' || b == b'/'
        }
        Class::Numeral => b.is_ascii_alphanumeric() || b == b'_' || b == b'.',
        Class::Line => !(b == b'\n'),
        Class::Inner => !(b == b'"') && !(b == b'\n'),
        Class::Part => !(b == b'.'),
    }
}

fn shape_of(b: u8) -> Shape
    ensures { result ≡ shape_of b }
{
    if is_start(b) {
        Shape::Word
    } else if b.is_ascii_digit() {
        Shape::Numeral
    } else if b == b'#' {
        Shape::Comment
    } else if b == b'"' {
        Shape::Quote
    } else if b == b'\\' {
        Shape::Escape
    } else if b == b'=' {
        Shape::Equal
    } else if b == b'!' {
        Shape::Bang
    } else {
        Shape::Single
    }
}

/// The bytes at the front that are of the class, and those behind.
fn run(class: Class, bytes: &[u8]) -> (&[u8], &[u8])
    ensures parts { bytes.now ≡ result.0.now ++ result.1.now }
    ensures all { list_all (is_in class) result.0.now ≡ true }
    ensures stops { begins_with (is_in class) result.1.now ≡ false }
{
    let mut end = 0;
    while end < bytes.len() && is_in(class, bytes[end]) {
        end += 1;
    }
    bytes.split_at(end)
}

/// What stands before the rest, or the whole text where the rest is longer.
fn passed<'a>(text: &'a [u8], rest: &[u8]) -> &'a [u8] {
    if rest.len() <= text.len() {
        before(text, rest)
    } else {
        text
    }
}

/// What stands before the rest.
fn before<'a>(text: &'a [u8], rest: &[u8]) -> &'a [u8]
    requires { length rest.now ≤ length text.now }
    ensures { (front : List ℕ) → text.now ≡ front ++ rest.now → result.now ≡ front }
{
    let (front, _) = text.split_at(text.len() - rest.len());
    front
}

fn is_plain(digits: &[u8]) -> bool
    ensures { result ≡ is_plain digits.now }
{
    match digits {
        [] => false,
        [_] => true,
        [first, _, ..] => !(*first == b'0'),
    }
}

/// With one digit more, if the number stays within `most`.
fn with_digit(number: u64, digit: u8, most: u64) -> Option<u64>
    ensures { result ≡ with_digit most number digit }
{
    if !digit.is_ascii_digit() {
        return None;
    }
    let sum = number as u128 * 10 + (digit - b'0') as u128;
    if sum <= most as u128 {
        Some(sum as u64)
    } else {
        None
    }
}

#[tactic(auto, unfolding(crate::specs::Tokens::digits_from))]
fn digits(digits: &[u8], most: u64) -> Option<u64>
    ensures { result ≡ digits_from most 0 digits.now }
{
    let mut number = 0;
    let mut rest = digits;
    while let [digit, behind @ ..] = rest {
        match with_digit(number, *digit, most) {
            Some(sum) => number = sum,
            None => return None,
        }
        rest = behind;
    }
    Some(number)
}

/// The number that the bytes are in decimal, with no zero before it.
fn decimal(bytes: &[u8], most: u64) -> Option<u64>
    ensures value { result ≡ decimal most bytes.now }
    ensures small { IfSome result (λ n. n ≤ most) }
{
    if is_plain(bytes) {
        digits(bytes, most)
    } else {
        None
    }
}

/// What stands behind the byte, if it is the first.
fn after(bytes: &[u8], wanted: u8) -> Option<&[u8]>
    ensures some { IfSome result (λ rest. bytes.now ≡ wanted ∷ rest.now) }
    ensures none { IfNone result (begins_with (λ b. b == wanted) bytes.now ≡ false) }
{
    match bytes {
        [first, rest @ ..] => { if *first == wanted { Some(rest) } else { None } }
        [] => None,
    }
}

/// A number up to 255 and the dot behind it, and the bytes behind that.
fn octet(bytes: &[u8]) -> Option<(u64, &[u8])>
    ensures some { IfSome result (λ x. (octets bytes.now ≡ Some x.0 ∷ octets x.1.now)
        × (x.0 ≤ 255)) }
    ensures none { IfNone result (Stops (octets bytes.now)) }
{
    let (part, rest) = run(Class::Part, bytes);
    match after(rest, b'.') {
        Some(behind) => match decimal(part, 255) {
            Some(octet) => Some((octet, behind)),
            None => None,
        },
        None => None,
    }
}

/// A number up to 255 that all the bytes are.
fn last_octet(bytes: &[u8]) -> Option<u64>
    ensures some { IfSome result (λ x. (octets bytes.now ≡ Some x ∷ []) × (x ≤ 255)) }
    ensures none { IfNone result (GoesOn (octets bytes.now)) }
{
    let (part, rest) = run(Class::Part, bytes);
    match after(rest, b'.') {
        Some(_) => None,
        None => decimal(part, 255),
    }
}

/// The IPv4 address that the bytes are; its most significant byte is the first octet.
#[tactic(auto, unfolding(crate::specs::Tokens::address))]
fn address(bytes: &[u8]) -> Option<u32>
    ensures { result ≡ address bytes.now }
{
    let (first, rest) = octet(bytes)?;
    let (second, rest) = octet(rest)?;
    let (third, rest) = octet(rest)?;
    let fourth = last_octet(rest)?;
    Some((((first * 256 + second) * 256 + third) * 256 + fourth) as u32)
}

fn numeral(word: &[u8]) -> Token
    ensures { result ≡ numeral word.now }
{
    match decimal(word, u64::MAX) {
        Some(number) => Token::Number(number),
        None => match address(word) {
            Some(address) => Token::Address(address),
            None => Token::Wrong,
        },
    }
}

fn name<'a>(
    alloc: Global,
    text: &[u8],
    behind: &'a [u8],
) -> Result<(Option<Token>, &'a [u8]), AllocError>
    requires { IsShaped shape.Word text.now behind.now }
    ensures { IfOk result (IsPiece text.now) }
{
    let (_, rest) = run(Class::Word, behind);
    let name = Items::from_slice(alloc, before(text, rest))?;
    Ok((Some(Token::Name(name)), rest))
}

fn number<'a>(text: &[u8], behind: &'a [u8]) -> (Option<Token>, &'a [u8])
    requires { IsShaped shape.Numeral text.now behind.now }
    ensures { IsPiece text.now result }
{
    let (_, rest) = run(Class::Numeral, behind);
    (Some(numeral(before(text, rest))), rest)
}

fn comment<'a>(text: &[u8], behind: &'a [u8]) -> (Option<Token>, &'a [u8])
    requires { IsShaped shape.Comment text.now behind.now }
    ensures { IsPiece text.now result }
{
    let (_, rest) = run(Class::Line, behind);
    (None, rest)
}

/// What stands between quotes. Where the second is missing it is wrong.
fn quoted<'a>(
    alloc: Global,
    text: &[u8],
    behind: &'a [u8],
) -> Result<(Option<Token>, &'a [u8]), AllocError>
    requires { IsShaped shape.Quote text.now behind.now }
    ensures { IfOk result (IsPiece text.now) }
{
    let (inner, rest) = run(Class::Inner, behind);
    match after(rest, b'"') {
        Some(rest) => {
            let inner = Items::from_slice(alloc, inner)?;
            Ok((Some(Token::Quoted(inner)), rest))
        }
        None => Ok((Some(Token::Wrong), rest)),
    }
}

/// A line that goes on behind its end.
fn escape<'a>(text: &[u8], behind: &'a [u8]) -> (Option<Token>, &'a [u8])
    requires { IsShaped shape.Escape text.now behind.now }
    ensures { IsPiece text.now result }
{
    match after(behind, b'\n') {
        Some(rest) => (None, rest),
        None => (Some(Token::Wrong), behind),
    }
}

fn equal<'a>(text: &[u8], behind: &'a [u8]) -> (Option<Token>, &'a [u8])
    requires { IsShaped shape.Equal text.now behind.now }
    ensures { IsPiece text.now result }
{
    match after(behind, b'=') {
        Some(rest) => (Some(Token::Symbol(Symbol::Equals)), rest),
        None => (Some(Token::Symbol(Symbol::Equal)), behind),
    }
}

fn bang<'a>(text: &[u8], behind: &'a [u8]) -> (Option<Token>, &'a [u8])
    requires { IsShaped shape.Bang text.now behind.now }
    ensures { IsPiece text.now result }
{
    match after(behind, b'=') {
        Some(rest) => (Some(Token::Symbol(Symbol::Differs)), rest),
        None => (Some(Token::Wrong), behind),
    }
}

#[tactic(auto, unfolding(crate::specs::Tokens::single))]
fn single(b: u8) -> Option<Token>
    ensures { found_kind result ≡ single b }
{
    match b {
        b'\n' => Some(Token::NewLine),
        b' ' | b'\t' | b'\r' => None,
        b'{' => Some(Token::Symbol(Symbol::Open)),
        b'}' => Some(Token::Symbol(Symbol::Close)),
        b',' => Some(Token::Symbol(Symbol::Comma)),
        b';' => Some(Token::Symbol(Symbol::Semicolon)),
        b':' => Some(Token::Symbol(Symbol::Colon)),
        b'/' => Some(Token::Symbol(Symbol::Slash)),
        b'-' => Some(Token::Symbol(Symbol::Minus)),
        b'+' => Some(Token::Symbol(Symbol::Plus)),
        b'@' => Some(Token::Symbol(Symbol::At)),
        _ => Some(Token::Wrong),
    }
}

/// The piece at the front, and what stands behind it. A space or a comment is no token.
fn piece<'a>(
    alloc: Global,
    text: &[u8],
    first: u8,
    behind: &'a [u8],
) -> Result<(Option<Token>, &'a [u8]), AllocError>
    requires { text.now ≡ first ∷ behind.now }
    ensures { IfOk result (IsPiece text.now) }
{
    match shape_of(first) {
        Shape::Word => name(alloc, text, behind),
        Shape::Numeral => Ok(number(text, behind)),
        Shape::Comment => Ok(comment(text, behind)),
        Shape::Quote => quoted(alloc, text, behind),
        Shape::Escape => Ok(escape(text, behind)),
        Shape::Equal => Ok(equal(text, behind)),
        Shape::Bang => Ok(bang(text, behind)),
        Shape::Single => Ok((single(first), behind)),
    }
}

fn newlines(bytes: &[u8]) -> usize {
    let mut count = 0usize;
    for b in bytes {
        if *b == b'\n' {
            count = count.saturating_add(1);
        }
    }
    count
}

fn add(tokens: &mut Items<Token>, token: Option<Token>) -> Result<(), AllocError>
    ensures { OnOk result ((more : List Token)
        → tokens.new ++ more ≡ tokens.old ++ with_kind (found_kind token) more) }
{
    if let Some(token) = token {
        tokens.push(token)?;
    }
    Ok(())
}

/// The tokens of a text. The line of each is put into `lines`, and that of the end behind them. It fails only
/// where a growth was refused.
pub fn tokens(
    alloc: Global,
    text: &[u8],
    lines: &mut Vec<usize>,
) -> Result<Items<Token>, AllocError>
    ensures found { IfOk result (λ tokens. AreTokens tokens text.now) }
    ensures one { IfOk result (λ tokens. (ts : List Token) → AreTokens ts text.now → ts ≡ tokens) }
{
    let mut tokens = Items::new(alloc);
    let mut rest = text;
    let mut line = 1usize;
    while let [first, behind @ ..] = rest {
        let (token, behind) = piece(alloc, rest, *first, behind)?;
        if token.is_some() {
            lines.push(line)?;
        }
        add(&mut tokens, token)?;
        line = line.saturating_add(newlines(passed(rest, behind)));
        rest = behind;
    }
    lines.push(line)?;
    Ok(tokens)
}

/// A text has one list of tokens, whatever its bytes.
pub fn one_token_list()
    ensures exists { (text : List ℕ) → (tokens : List Token) × AreTokens tokens text }
    ensures unique { (text : List ℕ) (a b : List Token) → AreTokens a text
        → AreTokens b text → a ≡ b }
{}
