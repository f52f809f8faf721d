//! A place for an entry.
ghost use Rattle.std.specs.Prelude.{◌≡◌, ◌≤◌, ◌↔◌, IsTrue, None, Some, IfSome, IfNone, IsSomeAnd};
ghost use Rattle.std.specs.Option.{option_map};

use std::marker::Model;

/// A place in 12 bytes: it is empty, or has an entry, whose key lies in two halves. So small a place has no room
/// for a value of more than 32 bits.
#[derive(Drop)]
pub struct Place {
    high: u32,
    low: u32,
    value: u32,
}

const _: () = prove!(size_of::<Place>() == 12);

// One more than the greatest half of a key.
const HALF: u64 = 0x1_0000_0000;

// In an empty place this stands for the value, and no entry has it there.
const NOTHING: u32 = u32::MAX;

impl Model for Place {
    ghost use Rattle.std.specs.Prelude.{Option, None, Some, cond, eqb, ◌+◌, ◌*◌};
    ghost use Rattle.rows.specs.declared.Entry.{Entry as KeyValue};

    ghost Value = { Option KeyValue };

    ghost view = { λ p. cond (eqb p.value 4294967295) None (Some (record {
      key = p.high * 4294967296 + p.low;
      value = p.value;
    })) };
}

impl Place {
    /// A place with no entry.
    pub fn empty() -> Place
        ensures { result ≡ None }
    {
        Place {
            high: 0,
            low: 0,
            value: NOTHING,
        }
    }

    /// A place with this entry, unless its value is too great for one.
    pub fn of(key: u64, value: usize) -> Option<Place>
        ensures filled { IfSome result (λ place. place ≡ Some (record {
          key = key;
          value = value;
        })) }
        ensures great { IfNone result (4294967295 ≤ value) }
    {
        if value >= NOTHING as usize {
            return None;
        }
        Some(Place {
            high: (key / HALF) as u32,
            low: (key % HALF) as u32,
            value: value as u32,
        })
    }

    /// Another place with the same entry, or none.
    pub fn again(&self) -> Place
        ensures { result ≡ self.now }
    {
        Place {
            high: self.high,
            low: self.low,
            value: self.value,
        }
    }

    /// Whether it has no entry.
    pub fn is_empty(&self) -> bool
        ensures { IsTrue result ↔ (self.now ≡ None) }
    {
        self.value == NOTHING
    }

    /// Whether its entry has the key.
    pub fn has(&self, key: u64) -> bool
        ensures { IsTrue result ↔ IsSomeAnd self.now (λ entry. entry.key ≡ key) }
    {
        let is_key = self.low == (key % HALF) as u32 && self.high == (key / HALF) as u32;
        is_key && self.value != NOTHING
    }

    /// Whether it seems to have the key: its lower half is compared alone, and an empty place has one of 0.
    pub fn seems_to_have(&self, key: u64) -> bool {
        self.low == (key % HALF) as u32
    }

    /// The key of its entry.
    pub fn key(&self) -> Option<u64>
        ensures { result ≡ option_map (λ entry. entry.key) self.now }
    {
        if self.value == NOTHING {
            return None;
        }
        Some(self.high as u64 * HALF + self.low as u64)
    }

    /// The value of its entry.
    pub fn value(&self) -> Option<usize>
        ensures { result ≡ option_map (λ entry. entry.value) self.now }
    {
        if self.value == NOTHING {
            return None;
        }
        Some(self.value as usize)
    }
}
