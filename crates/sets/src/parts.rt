//! The tests that elements are compared by.
ghost use Rattle.std.specs.Prelude.{◌≡◌, ◌↔◌, ◌≤◌, IsTrue};
ghost use Rattle.std.specs.Cmp.Lexicographic.{slice_cmp};
ghost use Rattle.std.specs.Ordering.{nat_cmp};
ghost use Rattle.sets.specs.Intervals.{StandsBeside};

use crate::element::Range;
use std::cmp::Ordering;

/// Where the number stands beside the range: `Equal` within it.
pub fn beside(number: u32, range: Range) -> Ordering
    ensures { StandsBeside result number range }
{
    if number < range.low {
        return Ordering::Less;
    }
    if range.high < number {
        return Ordering::Greater;
    }
    Ordering::Equal
}

/// Neither range ends before the other begins.
pub fn meet(one: Range, other: Range) -> bool
    ensures { IsTrue result ↔ ((one.low ≤ other.high) × (other.low ≤ one.high)) }
{
    one.low <= other.high && other.low <= one.high
}

/// The names have the same bytes.
pub fn are_same(one: &[u8], other: &[u8]) -> bool
    ensures { IsTrue result ↔ (one.now ≡ other.now) }
{
    one == other
}

/// Where the one name stands beside the other: by the first byte in which they differ, and a front before the whole.
pub fn by_bytes(one: &[u8], other: &[u8]) -> Ordering
    ensures { result ≡ slice_cmp nat_cmp one.now other.now }
{
    one.cmp(other)
}
