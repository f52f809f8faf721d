//! The entries for which there was no place, in an order in which those of one bucket lie side by side.
ghost use Rattle.std.specs.Prelude.{◌≡◌, ◌+◌, ◌<◌, ◌≤◌, ℕ, None, Some, IsOk, OnOk, OnErr, IfSome, IfNone};
ghost use Rattle.rows.specs.Held.{at, Puts};
ghost use Rattle.buckets.specs.Places.{spread, number, IsNext, IsPast};

use rows::Rows;
use std::alloc::{AllocError, Global};
use std::marker::Model;

// An odd number near 2^64 over the golden ratio, which spreads numbers that rise.
const SPREAD: u64 = 0x9e37_79b9_7f4a_7c15;

// One more than the greatest key.
const WORD: u128 = 0x1_0000_0000_0000_0000;

/// A number of 24 bits in which all bits of the key have a part. The bits are those in which both a part of the
/// key that rises and its highest bits show.
#[tactic(auto, unfolding(crate::specs::Places::spread))]
pub fn spread(key: u64) -> u64
    ensures same { result ≡ spread key }
    ensures small { result < 16777216 }
{
    key.wrapping_mul(SPREAD) >> 40
}

/// The number of the key in the order of the overflow.
#[tactic(auto, unfolding(crate::specs::Places::number))]
pub fn number(key: u64) -> u128
    ensures same { result ≡ number key }
    ensures small { result < 309485009821345068724781056 }
{
    u128::from(spread(key)) * WORD + u128::from(key)
}

/// Entries, each key at most once, ordered by their numbers.
#[derive(Drop)]
pub struct Overflow {
    rows: Rows,
}

impl Model for Overflow {
    ghost use Rattle.rows.specs.Held.{Entries};
    ghost use Rattle.buckets.specs.Places.{plain_in, AreNumbered};

    ghost Value = { Entries };

    ghost view = { λ o. record {
      held = plain_in o.rows.held;
      room = o.rows.room;
    } };

    ghost invariant = { λ o. AreNumbered o.rows.held };
}

// Most keys have a place. So `get` and `remove` stay apart from their callers, whose own code is short without them.
impl Overflow {
    /// An overflow with no entry. This takes no memory.
    pub fn new(alloc: Global) -> Overflow
        ensures { (key : ℕ) → at result key ≡ None }
    {
        Overflow {
            rows: Rows::new(alloc),
        }
    }

    /// The value of the key, if an entry has it.
    #[inline(never)]
    pub fn get(&self, key: u64) -> Option<usize>
        ensures { result ≡ at self.now key }
    {
        self.rows.get(number(key))
    }

    /// Puts an entry in, whose key no other has.
    ///
    /// # Errors
    ///
    /// As of `Rows::insert`.
    pub fn insert(&mut self, key: u64, value: usize) -> Result<(), AllocError>
        requires { at self.old key ≡ None }
        ensures ok { OnOk result (Puts self.old.held self.new.held key (Some value)) }
        ensures err { OnErr result (self.new.held ≡ self.old.held) }
        ensures succeeds { 0 < self.old.room → IsOk result }
        ensures room_ok { OnOk result (self.old.room ≤ self.new.room + 1) }
        ensures room_err { OnErr result (self.old.room ≤ self.new.room) }
    {
        self.rows.insert(number(key), value)
    }

    /// Takes the entry of the key out, if there is one, and returns its value.
    #[inline(never)]
    pub fn remove(&mut self, key: u64) -> Option<usize>
        ensures value { result ≡ at self.old key }
        ensures gone { Puts self.old.held self.new.held key None }
        ensures room { self.old.room ≤ self.new.room }
    {
        self.rows.remove(number(key))
    }

    /// Makes room for two more entries.
    ///
    /// # Errors
    ///
    /// As of `Rows::reserve`.
    #[inline(always)]
    pub fn reserve(&mut self) -> Result<(), AllocError>
        ensures ok { OnOk result (2 ≤ self.new.room) }
        ensures succeeds { 2 ≤ self.old.room → IsOk result }
        ensures held { self.new.held ≡ self.old.held }
        ensures room { self.old.room ≤ self.new.room }
    {
        self.rows.reserve()
    }

    /// Makes room for one more entry.
    ///
    /// # Errors
    ///
    /// As of `Rows::reserve_one`.
    pub fn reserve_one(&mut self) -> Result<(), AllocError>
        ensures ok { OnOk result (0 < self.new.room) }
        ensures succeeds { 0 < self.old.room → IsOk result }
        ensures held { self.new.held ≡ self.old.held }
        ensures room { self.old.room ≤ self.new.room }
    {
        self.rows.reserve_one()
    }

    /// The key of the first entry whose number isn't below this one.
    pub fn next_from(&self, from: u128) -> Option<u64>
        ensures next { IfSome result (IsNext self.now.held from) }
        ensures past { IfNone result (IsPast self.now.held from) }
    {
        self.rows.facts();
        let entry = self.rows.iter_from(from).next()?;
        Some((entry.key % WORD) as u64)
    }
}
