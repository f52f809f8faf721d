//! The entries in order.
ghost use Rattle.std.specs.Iterator.{YieldsFirst, item_count};
ghost use Rattle.rows.specs.Walk.{rest};

use crate::Entry;
use crate::cell::Cell;
use crate::runs::Run;

/// The entries of rows that are still to come, in rising order. A step takes the next entry of a run.
#[derive(Drop)]
pub struct Walk<'a> {
    pub(crate) entries: &'a [Cell],
    pub(crate) runs: &'a [Run],
}

impl Iterator for Walk<'_> {
    type Item = Entry;

    ghost next_gives = { YieldsFirst rest };

    ghost remaining = { item_count rest };

    fn next(&mut self) -> Option<Entry> {
        while self.entries.is_empty() {
            let (run, runs) = self.runs.split_first()?;
            self.entries = &run.entries;
            self.runs = runs;
        }
        let (entry, entries) = self.entries.split_first()?;
        self.entries = entries;
        Some(entry.entry())
    }
}
