//! Values, and the ranges and names that they are compared with.
ghost use Rattle.std.specs.Prelude.{◌≤◌};

use crate::parts::{are_same, beside, by_bytes, meet};
use packet::{Prefix, size_of_prefix};
use std::cmp::Ordering;

/// What a packet has where a match looks.
#[derive(Clone, Copy, PartialEq, Eq, Drop)]
pub enum Value<'a> {
    /// A number in host byte order: the most significant byte of an address is its first octet.
    Number(u32),
    /// The bytes of an interface name.
    Name(&'a [u8]),
}

/// The numbers from `low` to `high`, both included.
#[derive(Clone, Copy, Debug, PartialEq, Eq, Drop)]
pub struct Range {
    /// The least.
    pub low: u32,
    /// The greatest, at least `low`.
    pub high: u32,
    pub ghost rises: { low ≤ high },
}

/// A part of a set: a range of numbers, or one interface name.
#[derive(PartialEq, Eq, Drop)]
pub enum Element {
    /// Each number of the range.
    Numbers(Range),
    /// The bytes of the name, which stand for themselves: there are no wildcards.
    Name(Vec<u8>),
}

/// A key of a verdict map, and where it leads.
#[derive(PartialEq, Eq, Drop)]
pub struct Pair<V> {
    /// The values that lead there.
    pub key: Element,
    /// Where they lead.
    pub verdict: V,
}

impl Range {
    ghost use Rattle.std.specs.Prelude.{◌≡◌, ◌↔◌, IsTrue, ℕ};
    ghost use Rattle.packet.specs.Config.{covers};
    ghost use Rattle.sets.specs.Members.{IsWithin};

    /// One number alone.
    pub fn one(number: u32) -> Range
        ensures { (n : ℕ) → IsWithin n result ↔ (n ≡ number) }
    {
        Range {
            low: number,
            high: number,
        }
    }

    /// The numbers from `low` to `high`, both included.
    pub fn new(low: u32, high: u32) -> Range
        requires { low ≤ high }
        ensures low { result.low ≡ low }
        ensures high { result.high ≡ high }
    {
        Range { low, high }
    }

    /// The addresses that have the prefix (RFC 4632, section 3.1); the bits of its address behind its length
    /// count as zero, and a length above 32 is taken as 32.
    pub fn of_prefix(prefix: Prefix) -> Range
        ensures { (addr : ℕ) → IsWithin addr result ↔ IsTrue (covers addr prefix) }
    {
        let size = size_of_prefix(prefix);
        let low = prefix.addr as u64 / size * size;
        Range {
            low: low as u32,
            high: (low + (size - 1)) as u32,
        }
    }
}

impl Element {
    ghost use Rattle.std.specs.Prelude.{◌↔◌, IsTrue};
    ghost use Rattle.sets.specs.Intervals.{StandsBesideElement};
    ghost use Rattle.sets.specs.Members.{fact_of, IsIn, Share};

    /// Where the value stands beside the element: before it (`Less`), in it (`Equal`) or behind it. Numbers
    /// stand before names, and names by their bytes.
    pub(crate) fn compare(&self, value: Value<'_>) -> Ordering
        ensures { StandsBesideElement result (fact_of value.entry) self.now }
    {
        match (value, self) {
            (Value::Number(number), Element::Numbers(range)) => beside(number, *range),
            (Value::Number(_), Element::Name(_)) => Ordering::Less,
            (Value::Name(_), Element::Numbers(_)) => Ordering::Greater,
            (Value::Name(name), Element::Name(own)) => by_bytes(name, own.as_slice()),
        }
    }

    /// Whether the value lies in the element. Names are compared by their bytes.
    pub fn holds(&self, value: Value<'_>) -> bool
        ensures { IsTrue result ↔ IsIn (fact_of value.entry) self.now }
    {
        matches!(self.compare(value), Ordering::Equal)
    }

    /// Whether some value lies in both. A number and a name never share one.
    pub(crate) fn shares_with(&self, other: &Element) -> bool
        ensures { IsTrue result ↔ Share self.now other.now }
    {
        match (self, other) {
            (Element::Numbers(range), Element::Numbers(later)) => meet(*range, *later),
            (Element::Name(name), Element::Name(later)) => are_same(name, later),
            (Element::Numbers(_), Element::Name(_)) => false,
            (Element::Name(_), Element::Numbers(_)) => false,
        }
    }
}
