//! The tokens of a text. `specs/Tokens` says which bytes each stands for.
use sqlite_items::Items;

/// A token of a text. Spaces and comments are none.
#[derive(Drop)]
pub enum Token {
    /// The bytes of a word, which may be one with a meaning.
    Name(Items<u8>),
    /// What its digits are in decimal.
    Number(u64),
    /// An IPv4 address; its most significant byte is the first octet.
    Address(u32),
    /// The bytes between the quotes.
    Quoted(Items<u8>),
    /// One of the signs of a ruleset.
    Symbol(Symbol),
    /// The end of a line, unless a backslash stands before it.
    NewLine,
    /// Bytes that no ruleset holds.
    Wrong,
}

/// A sign of a ruleset: one byte, or the two of `==` and `!=`.
#[derive(Clone, Copy, PartialEq, Eq, Drop)]
pub enum Symbol {
    /// `{`
    Open,
    /// `}`
    Close,
    Comma,
    Semicolon,
    Colon,
    Slash,
    Minus,
    Plus,
    /// `=`, before the elements of a set.
    Equal,
    /// `==`, in a match.
    Equals,
    /// `!=`
    Differs,
    /// `@`
    At,
}
