//! The tokens of rulesets: a text cut into names, numbers, addresses, quoted strings and symbols.
//!
//! `tokens` cuts a text, whatever its bytes, and puts the line of each token beside it; it fails only where a
//! growth was refused. `token` is what it answers, `line` the number of a line, which reports give, and
//! `source` what readers of tokens are handed: where memory comes from, and the lines. `lex` takes one piece
//! after another off the front. Which bytes a token stands for is said in specs/Tokens, by longest match.
#![tactic(auto)]

mod lex;
mod line;
mod source;
mod token;

pub use lex::{one_token_list, tokens};
pub use line::Line;
pub use source::Source;
pub use token::{Symbol, Token};
