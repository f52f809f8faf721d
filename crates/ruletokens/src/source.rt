//! What every reader is handed.
use crate::line::Line;
use crate::token::Token;
use std::alloc::Global;

/// Where tokens stand in their text, and where what is read is put.
#[derive(Drop)]
pub struct Source {
    /// Where the memory comes from.
    pub alloc: Global,
    /// Of each token, and of the end of the text.
    pub lines: Vec<usize>,
}

impl Source {
    /// The line of the first of these last tokens of the text.
    pub fn line(&self, tokens: &[Token]) -> Line {
        self.line_of(tokens.len())
    }

    /// The line of the token from which on there are so many, or of the end of the text.
    pub fn line_of(&self, left: usize) -> Line {
        let at = self.lines.len().saturating_sub(left.saturating_add(1));
        Line::new(self.lines.get(at).copied().unwrap_or(1))
    }
}
