//! What could stand at a place where a text goes wrong.
//!
//! The parser itself is asked: where the text up to the place is followed by a word that can stand there, the text
//! goes wrong behind that word, at its end, or it is whole.
use crate::line::newlines;
use crate::texts::put_all;
use rulesyntax::GREATEST_LENGTH;
use ruletext::spelling_fault_of;
use ruletree::{Kind, LoadFault};
use std::alloc::{AllocError, Global};

/// A kind of token, and texts of it.
struct Class {
    name: &'static str,
    samples: [&'static str; 3],
}

/// Tokens of which there are many.
const CLASSES: [Class; 3] = [
    Class {
        name: "a number",
        samples: ["1", "65535", "18446744073709551615"],
    },
    Class {
        name: "an address",
        samples: ["192.0.2.1", "0.0.0.0", "255.255.255.255"],
    },
    Class {
        name: "a text in quotes",
        samples: ["\"x\"", "\"x\"", "\"x\""],
    },
];

/// A name without a meaning of its own.
const FREE_NAME: &str = "x";

/// What tells a word with a meaning from a name: it may have this behind it.
const BEHIND_WORDS: [&str; 2] = ["{", FREE_NAME];

/// The names that have a meaning.
const WORDS: [&str; 58] = [
    "flush",
    "ruleset",
    "table",
    "inet",
    "set",
    "chain",
    "comment",
    "type",
    "flags",
    "interval",
    "constant",
    "auto-merge",
    "elements",
    "filter",
    "nat",
    "hook",
    "prerouting",
    "input",
    "forward",
    "output",
    "postrouting",
    "priority",
    "raw",
    "mangle",
    "dstnat",
    "security",
    "srcnat",
    "policy",
    "counter",
    "packets",
    "bytes",
    "meta",
    "iifname",
    "oifname",
    "iif",
    "oif",
    "ip",
    "saddr",
    "daddr",
    "protocol",
    "l4proto",
    "tcp",
    "udp",
    "sport",
    "dport",
    "ct",
    "state",
    "vmap",
    "accept",
    "drop",
    "return",
    "continue",
    "jump",
    "goto",
    "dnat",
    "snat",
    "masquerade",
    "to",
];

/// The other tokens. `\n` stands for the end of a line.
const SIGNS: [&str; 13] = [
    "{", "}", ",", ";", ":", "/", "-", "+", "=", "==", "!=", "@", "\n",
];

// The fault of a text, if it has one.
fn fault_of(alloc: Global, text: &[u8]) -> Result<Option<LoadFault>, AllocError> {
    match spelling_fault_of(alloc, text) {
        Some(fault) => {
            if fault.kind == Kind::NoMemory {
                return Err(AllocError);
            }
            Ok(Some(fault))
        }
        None => Ok(None),
    }
}

// The text up to a place, with this word and what stands behind it.
fn continued(
    alloc: Global,
    before: &[u8],
    word: &str,
    behind: &str,
) -> Result<Vec<u8>, AllocError> {
    let mut text = Vec::new(alloc);
    // Behind the last of them the line goes on behind its end, so that the end of the text has a line of its own.
    put_all(
        &mut text,
        &[
            before,
            b" ",
            word.as_bytes(),
            b" ",
            behind.as_bytes(),
            b"\\\n",
        ],
    )?;
    Ok(text)
}

// Whether the text up to a place goes on with this word and what stands behind it.
fn fits(alloc: Global, before: &[u8], word: &str, behind: &str) -> Result<bool, AllocError> {
    let text = continued(alloc, before, word, behind)?;
    if text.len() > GREATEST_LENGTH {
        return Ok(false);
    }
    match fault_of(alloc, text.as_slice())? {
        Some(fault) => Ok(fault.line.number() > newlines(text.as_slice())),
        None => Ok(true),
    }
}

// Whether the text could end here.
fn may_end(alloc: Global, before: &[u8]) -> Result<bool, AllocError> {
    let fault = fault_of(alloc, before)?;
    Ok(fault.is_none())
}

// What could stand at a place, as it is found out.
#[derive(Drop)]
struct Probe<'a> {
    alloc: Global,
    before: &'a [u8],
    shown: Vec<u8>,
}

impl<'a> Probe<'a> {
    fn fits(&self, word: &str) -> Result<bool, AllocError> {
        fits(self.alloc, self.before, word, "")
    }

    fn fits_any(&self, words: &[&str]) -> Result<bool, AllocError> {
        for word in words {
            if self.fits(word)? {
                return Ok(true);
            }
        }
        Ok(false)
    }

    fn add(&mut self, quote: &[u8], name: &str) -> Result<(), AllocError> {
        let comma: &[u8] = if self.shown.is_empty() { b"" } else { b", " };
        put_all(&mut self.shown, &[comma, quote, name.as_bytes(), quote])
    }

    // Numbers, addresses and texts in quotes.
    fn add_classes(&mut self) -> Result<(), AllocError> {
        for class in &CLASSES {
            if self.fits_any(&class.samples)? {
                self.add(b"", class.name)?;
            }
        }
        Ok(())
    }

    // Whether something may stand behind the word that can't behind a name without a meaning.
    fn has_meaning(&self, word: &str) -> Result<bool, AllocError> {
        for behind in &BEHIND_WORDS {
            if fits(self.alloc, self.before, word, behind)?
                && !fits(self.alloc, self.before, FREE_NAME, behind)?
            {
                return Ok(true);
            }
        }
        Ok(false)
    }

    // The words with a meaning here. Where any name may stand, others aren't worth naming.
    fn add_words(&mut self) -> Result<(), AllocError> {
        let any = self.fits(FREE_NAME)?;
        if any {
            self.add(b"", "a name")?;
        }
        for word in &WORDS {
            if self.fits(word)? && (!any || self.has_meaning(word)?) {
                self.add(b"`", word)?;
            }
        }
        Ok(())
    }

    fn add_signs(&mut self) -> Result<(), AllocError> {
        for sign in &SIGNS {
            if self.fits(sign)? {
                if *sign == "\n" {
                    self.add(b"", "the end of the line")?;
                } else {
                    self.add(b"`", sign)?;
                }
            }
        }
        if may_end(self.alloc, self.before)? {
            self.add(b"", "the end of the text")?;
        }
        Ok(())
    }
}

/// What could stand behind a text, joined by commas: kinds of tokens, and words and signs between backquotes. It is
/// empty where nothing could.
///
/// # Errors
///
/// `AllocError` where a growth was refused.
pub(crate) fn what_fits(alloc: Global, before: &[u8]) -> Result<Vec<u8>, AllocError> {
    let mut probe = Probe {
        alloc,
        before,
        shown: Vec::new(alloc),
    };
    probe.add_words()?;
    probe.add_classes()?;
    probe.add_signs()?;
    Ok(probe.shown)
}
