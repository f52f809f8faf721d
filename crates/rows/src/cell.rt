//! An entry as the runs keep it.
ghost use Rattle.std.specs.Prelude.{◌≡◌};

use crate::Entry;
use std::marker::Model;

/// An entry in 24 bytes: its key lies in two halves, since a number of 128 bits would fill it up to 32.
#[derive(Clone, Copy, Drop)]
pub struct Cell {
    high: u64,
    low: u64,
    value: usize,
}

const _: () = prove!(size_of::<Cell>() == 24);

// One more than the greatest half of a key.
const HALF: u128 = 0x1_0000_0000_0000_0000;

impl Model for Cell {
    ghost use Rattle.std.specs.Prelude.{◌+◌, ◌*◌, ◌^◌, ◌<◌, ◌/◌, ◌%◌};
    ghost use Rattle.rows.specs.declared.Entry.{Entry as KeyValue};

    ghost Value = { KeyValue };

    ghost view = { λ c. record { key = c.high * 2 ^ 64 + c.low; value = c.value } };

    ghost invariant = { λ c. c.low < 2 ^ 64 };

    ghost inverse = { λ e. record {
      high = e.key / 2 ^ 64;
      low = e.key % 2 ^ 64;
      value = e.value;
    } };
}

impl Cell {
    /// The entry, to be kept.
    pub fn of(entry: Entry) -> Cell
        ensures { result ≡ entry }
    {
        Cell {
            high: (entry.key / HALF) as u64,
            low: (entry.key % HALF) as u64,
            value: entry.value,
        }
    }

    /// The entry that is kept.
    pub fn entry(&self) -> Entry
        ensures { result ≡ self.now }
    {
        Entry {
            key: self.key(),
            value: self.value,
        }
    }

    /// What the entry goes by.
    pub fn key(&self) -> u128
        ensures { result ≡ self.now.key }
    {
        self.high as u128 * HALF + self.low as u128
    }

    /// The value of the key.
    pub fn value(&self) -> usize
        ensures { result ≡ self.now.value }
    {
        self.value
    }
}
