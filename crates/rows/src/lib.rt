//! Rows that rise: an ordered map from keys of 128 bits to slots, for great tables.
//!
//! The entries lie in runs of at most 64, rising by their keys. A look-up counts by steps among the runs and
//! then in one run. An insertion and a removal move the entries of one run alone; a full run is cut in two,
//! and of two neighbours that are thin one takes the other in. A key behind a full run goes into the next
//! one, or a new one, so that keys that rise or fall leave full runs behind them. A run that is no more
//! needed is kept as a spare one, so that room once made stays. Short runs are what churn wants: a change moves at most
//! 1.5 KiB, and the list of the runs, in which a cut puts one more, is short too.
//!
//! - `cell`: an entry as the runs keep it
//! - `runs`: the runs, and what is done to them
//! - `search`: how a run is found, and a place in it
//! - `walk`: the entries in order
//! - `specs/Held`: the entries, as contracts see them
#![tactic(auto)]

ghost use Rattle.std.specs.Prelude.{◌≡◌, [], ◌+◌, ◌<◌, ◌≤◌, ℕ, None, Some, IsOk, IfNone, OnOk, OnErr, OnSome, length};
ghost use Rattle.rows.specs.Held.{at, entries_from, Puts, AreRising};
ghost use Rattle.rows.specs.Walk.{rest};

mod cell;
mod runs;
mod search;
mod walk;

use crate::cell::Cell;
use crate::runs::{Run, add, add_spare, find, take_out, walk_from};
pub use crate::walk::Walk;
use std::alloc::{AllocError, Global};
use std::marker::Model;

/// A key, and its value.
#[derive(Clone, Copy, PartialEq, Eq, Drop)]
pub struct Entry {
    /// What the entries go by.
    pub key: u128,
    /// A slot of the table that the rows serve, or any other number.
    pub value: usize,
}

/// Entries, each key at most once, in rising order.
///
/// A run takes 1.5 KiB. Two neighbours hold more than 32 entries; where keys come in any order a run is some
/// two thirds full, and where they rise or fall it is full.
#[derive(Drop)]
pub struct Rows {
    alloc: Global,
    runs: Vec<Run>,
    spare: Vec<Vec<Cell>>,
}

impl Model for Rows {
    ghost use Rattle.std.specs.Prelude.{length};
    ghost use Rattle.rows.specs.Held.{Entries};
    ghost use Rattle.rows.specs.Order.{held_in, AreSound};

    ghost Value = { Entries };

    ghost view = { λ r. record {
      held = held_in r.runs.items;
      room = length r.spare.items;
    } };

    ghost invariant = { λ r. AreSound r.runs r.spare };
}

impl Rows {
    /// Rows with no entry. This takes no memory.
    pub fn new(alloc: Global) -> Rows
        ensures none { (key : ℕ) → at result key ≡ None }
        ensures empty { result.held ≡ [] }
    {
        Rows {
            alloc,
            runs: Vec::new(alloc),
            spare: Vec::new(alloc),
        }
    }

    /// The value of the key, if an entry has it. It takes a search among the runs, and one in a run: a step for
    /// each 64 runs, and at most some thirty more.
    pub fn get(&self, key: u128) -> Option<usize>
        ensures { result ≡ at self.now key }
    {
        find(&self.runs, key)
    }

    /// Puts an entry in, whose key no other has. It moves the entries of one run, and of the list of the
    /// runs where a full run is cut.
    ///
    /// # Errors
    ///
    /// `AllocError` where memory for it is refused, and never where there is room. The same entries are
    /// held then, and no room is lost.
    pub fn insert(&mut self, key: u128, value: usize) -> Result<(), AllocError>
        requires { at self.old key ≡ None }
        ensures ok { OnOk result (Puts self.old.held self.new.held key (Some value)) }
        ensures counted { OnOk result (length self.new.held ≡ length self.old.held + 1) }
        ensures err { OnErr result (self.new.held ≡ self.old.held) }
        ensures succeeds { 0 < self.old.room → IsOk result }
        ensures room_ok { OnOk result (self.old.room ≤ self.new.room + 1) }
        ensures room_err { OnErr result (self.old.room ≤ self.new.room) }
    {
        self.reserve_one()?;
        add(&mut self.runs, &mut self.spare, Entry { key, value });
        Ok(())
    }

    /// Takes the entry of the key out, if there is one, and returns its value. This takes no memory, and
    /// moves the entries of one run, and of the list of the runs where one is no more needed.
    pub fn remove(&mut self, key: u128) -> Option<usize>
        ensures value { result ≡ at self.old key }
        ensures gone { Puts self.old.held self.new.held key None }
        ensures counted { OnSome result (length self.new.held + 1 ≡ length self.old.held) }
        ensures none { IfNone result (self.new.held ≡ self.old.held) }
        ensures room { self.old.room ≤ self.new.room }
    {
        take_out(&mut self.runs, &mut self.spare, key)
    }

    /// Makes room for two more entries, so that the next two insertions take no memory, whatever is
    /// removed before them.
    ///
    /// # Errors
    ///
    /// `AllocError` where memory is refused, and never where there is room for two already. The same
    /// entries are held in any case, and no room is lost.
    #[inline(always)]
    pub fn reserve(&mut self) -> Result<(), AllocError>
        ensures ok { OnOk result (2 ≤ self.new.room) }
        ensures succeeds { 2 ≤ self.old.room → IsOk result }
        ensures held { self.new.held ≡ self.old.held }
        ensures room { self.old.room ≤ self.new.room }
    {
        if self.spare.len() >= 2 {
            return Ok(());
        }
        self.reserve_two()
    }

    // As `reserve`, which asks before whether there is room already, as there mostly is. Not compiled into its caller.
    #[inline(never)]
    fn reserve_two(&mut self) -> Result<(), AllocError>
        ensures ok { OnOk result (2 ≤ self.new.room) }
        ensures succeeds { 2 ≤ self.old.room → IsOk result }
        ensures held { self.new.held ≡ self.old.held }
        ensures room { self.old.room ≤ self.new.room }
    {
        self.reserve_one()?;
        if self.spare.len() < 2 {
            add_spare(self.alloc, &mut self.runs, &mut self.spare)?;
        }
        Ok(())
    }

    /// Makes room for one more entry, so that the next insertion takes no memory, whatever is removed
    /// before it.
    ///
    /// # Errors
    ///
    /// `AllocError` where memory is refused, and never where there is room. The same entries are held in
    /// any case, and no room is lost.
    pub fn reserve_one(&mut self) -> Result<(), AllocError>
        ensures ok { OnOk result (0 < self.new.room) }
        ensures succeeds { 0 < self.old.room → IsOk result }
        ensures held { self.new.held ≡ self.old.held }
        ensures room { self.old.room ≤ self.new.room }
    {
        if self.spare.is_empty() {
            add_spare(self.alloc, &mut self.runs, &mut self.spare)?;
        }
        Ok(())
    }

    /// The entries in rising order, each once.
    pub fn iter(&self) -> Walk<'_>
        ensures { rest result ≡ self.now.held }
    {
        Walk {
            entries: &[],
            runs: &self.runs,
        }
    }

    /// The entries in rising order, each once, from the first on whose key isn't below this one. That is
    /// found as `get` finds a key.
    pub fn iter_from(&self, key: u128) -> Walk<'_>
        ensures { rest result ≡ entries_from key self.now.held }
    {
        walk_from(&self.runs, key)
    }

    /// What all rows keep: the keys rise.
    pub fn facts(&self)
        ensures { AreRising self.now.held }
    {
        // What rows keep is known once a field of them is read.
        let _runs = &self.runs;
    }
}
