//! Lines of a text, for reports.
use std::fmt;
use std::marker::Model;

/// The number of a line of a text, from 1. It serves reports alone: contracts see nothing of it.
#[derive(Debug, Drop)]
pub struct Line {
    number: usize,
}

impl Model for Line {
    ghost Value = { Unit {0} };

    ghost view = { λ _. tt };
}

impl Line {
    /// The line of this number, from 1.
    pub fn new(number: usize) -> Line {
        Line { number }
    }

    /// Its number, from 1.
    pub fn number(&self) -> usize {
        self.number
    }

    /// The same line.
    pub fn copied(&self) -> Line {
        Line {
            number: self.number,
        }
    }
}

impl fmt::Display for Line {
    fn fmt<W: fmt::Write>(&self, f: &mut fmt::Formatter<W>) -> fmt::Result {
        write!(f, "{}", self.number)
    }
}
