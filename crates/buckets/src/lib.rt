//! Two exact maps from keys of 64 bits to slots, in no order, for great tables: `ByPort`, in which a key has one place,
//! and which has a page of its own, and `Buckets`, of which this page tells.
//!
//! A key is spread over a vector of places, of which eight that lie side by side are a bucket: a look-up reads the
//! places of one bucket, 96 bytes. An entry whose bucket is full, or whose value is too great for a place, lies
//! in the overflow, whose rows are exact and ordered: so nothing rests on how keys spread but time, and of keys
//! that all meet in one bucket each costs a search in rows.
//!
//! In a bucket the entries stand in front of the free places: an entry goes into the first free one, and where one is
//! removed the last of its bucket comes into its place. So a look-up ends at the first free place.
//!
//! Each entry of the overflow has a full bucket, so a key that isn't in its bucket is nowhere if a place there is free,
//! and the overflow is searched only behind a full bucket. So that this stays so, an entry of the overflow comes into
//! the place that a removal frees in a full bucket: the overflow is ordered by buckets, so that one is found by a
//! search. Once a value has come that is too great for a place, this can't be told, and each key that isn't in its
//! bucket is searched in the overflow, until there are more places.
//!
//! - `by_port`: a map in which a key has one place, with buckets behind it
//! - `place`: a place, which is empty or has an entry
//! - `places`: the places and the overflow, and what is done to them
//! - `overflow`: the entries for which there was no place
//! - `specs/Held`: the entries, as contracts see them; `Rows` of crate `rows` has the words for them
//! - `specs/Places` and `specs/ByPort`: how they lie in either map
#![tactic(auto)]

ghost use Rattle.std.specs.Prelude.{◌≡◌, ◌+◌, ◌<◌, ◌≤◌, ℕ, None, Some, IsOk, IsSome, IfOk, OnOk, OnErr};
ghost use Rattle.rows.specs.Held.{at, Puts};
ghost use Rattle.buckets.specs.Held.{KeepsAll};

mod by_port;
mod overflow;
mod place;
mod places;

use crate::overflow::Overflow;
use crate::place::Place;
use crate::places::{add, find, find_or_add, grow, seems_held, take_out};
pub use by_port::ByPort;
use std::alloc::{AllocError, Global};
use std::marker::Model;

/// Entries, each key at most once, in no order.
///
/// A place takes 12 bytes. Where memory was granted, three quarters of the places or fewer have an entry, and
/// after they were made twice as many some three eighths.
#[derive(Drop)]
pub struct Buckets {
    alloc: Global,
    places: Vec<Place>,
    overflow: Overflow,
    // Whether each entry of the overflow surely has a full bucket: it has, unless a value came that is too great for a
    // place.
    are_packed: bool,
    // How many entries there are, by which it is told when places get few. Nothing rests on it but time.
    count: usize,
}

impl Model for Buckets {
    ghost use Rattle.rows.specs.Held.{Entries};
    ghost use Rattle.buckets.specs.Places.{all_in, AreKept};

    ghost Value = { Entries };

    ghost view = { λ b. record {
      held = all_in b.places.items b.overflow.held;
      room = b.overflow.room;
    } };

    ghost invariant = { λ b. AreKept b.places.items b.overflow.held b.are_packed };
}

impl Buckets {
    /// Buckets with no entry. This takes no memory.
    pub fn new(alloc: Global) -> Buckets
        ensures { (key : ℕ) → at result key ≡ None }
    {
        Buckets {
            alloc,
            places: Vec::new(alloc),
            overflow: Overflow::new(alloc),
            are_packed: true,
            count: 0,
        }
    }

    /// The value of the key, if an entry has it. It takes a look at the places of one bucket and, where all of them
    /// have other keys, a search in the overflow.
    pub fn get(&self, key: u64) -> Option<usize>
        ensures { result ≡ at self.now key }
    {
        find(&self.places, &self.overflow, self.are_packed, key)
    }

    /// Whether by a look at two places of its bucket an entry seems to have the key. It says nothing of what is:
    /// whoever asks of several keys in turn waits once for the memory that their look-ups are going to read.
    pub fn seems_held(&self, key: u64) -> bool {
        seems_held(&self.places, key)
    }

    /// Puts an entry in, whose key no other has. It goes into a free place of its bucket, or into the overflow.
    ///
    /// # Errors
    ///
    /// `AllocError` where memory for it is refused, and never where there is room. Each key has the value that it
    /// had then, and no room is lost.
    pub fn insert(&mut self, key: u64, value: usize) -> Result<(), AllocError>
        requires { at self.old key ≡ None }
        ensures ok { OnOk result (Puts self.old.held self.new.held key (Some value)) }
        ensures err { OnErr result (KeepsAll self.old self.new) }
        ensures succeeds { 0 < self.old.room → IsOk result }
        ensures room_ok { OnOk result (self.old.room ≤ self.new.room + 1) }
        ensures room_err { OnErr result (self.old.room ≤ self.new.room) }
    {
        let put = add(
            &mut self.places,
            &mut self.overflow,
            &mut self.are_packed,
            key,
            value,
        );
        count_put(&mut self.count, put.is_ok());
        put
    }

    /// The value of the key, if an entry has it. If none has, an entry with this value is put in, as by `insert`. It
    /// takes one look at the places of the bucket where one of them is free.
    ///
    /// # Errors
    ///
    /// As of `insert`.
    // Callers go on by what was found: compiled into them, the answer isn't put together and taken apart again.
    #[inline(always)]
    pub fn get_or_insert(&mut self, key: u64, value: usize) -> Result<Option<usize>, AllocError>
        ensures found { IfOk result (λ found. found ≡ at self.old key) }
        ensures kept { IfOk result (λ found. IsSome found → self.new ≡ self.old) }
        ensures put { IfOk result (λ found. found ≡ None
            → Puts self.old.held self.new.held key (Some value)) }
        ensures err { OnErr result (KeepsAll self.old self.new) }
        ensures succeeds { 0 < self.old.room → IsOk result }
        ensures room_ok { OnOk result (self.old.room ≤ self.new.room + 1) }
        ensures room_err { OnErr result (self.old.room ≤ self.new.room) }
    {
        let found = find_or_add(
            &mut self.places,
            &mut self.overflow,
            &mut self.are_packed,
            key,
            value,
        )?;
        count_put(&mut self.count, found.is_none());
        Ok(found)
    }

    /// Takes the entry of the key out, if there is one, and returns its value. This takes no memory. Where the bucket
    /// was full, it takes a search in the overflow for an entry that comes into the place.
    pub fn remove(&mut self, key: u64) -> Option<usize>
        ensures value { result ≡ at self.old key }
        ensures gone { Puts self.old.held self.new.held key None }
        ensures room { self.old.room ≤ self.new.room }
    {
        let value = take_out(
            &mut self.places,
            &mut self.overflow,
            &mut self.are_packed,
            key,
        );
        count_out(&mut self.count, value.is_some());
        value
    }

    /// Makes room for two more entries, so that the next two insertions take no memory, whatever is removed
    /// before them. Where three quarters of the places have an entry it makes twice as many, if memory is granted,
    /// and puts all entries there.
    ///
    /// # Errors
    ///
    /// `AllocError` where memory for the two is refused, and never where there is room for two already. Each key
    /// has the value that it had in any case, and no room is lost.
    // Most calls find room. Compiled into its callers, such a call is a few comparisons.
    #[inline(always)]
    pub fn reserve(&mut self) -> Result<(), AllocError>
        ensures ok { OnOk result (2 ≤ self.new.room) }
        ensures succeeds { 2 ≤ self.old.room → IsOk result }
        ensures same { KeepsAll self.old self.new }
        ensures room { self.old.room ≤ self.new.room }
    {
        self.overflow.reserve()?;
        self.make_places();
        Ok(())
    }

    /// Makes room for one more entry, as `reserve` does for two.
    ///
    /// # Errors
    ///
    /// As of `reserve`.
    pub fn reserve_one(&mut self) -> Result<(), AllocError>
        ensures ok { OnOk result (0 < self.new.room) }
        ensures succeeds { 0 < self.old.room → IsOk result }
        ensures same { KeepsAll self.old self.new }
        ensures room { self.old.room ≤ self.new.room }
    {
        self.overflow.reserve_one()?;
        self.make_places();
        Ok(())
    }

    // Makes more places where few are free.
    #[inline(always)]
    fn make_places(&mut self)
        ensures same { KeepsAll self.old self.new }
        ensures room { self.old.room ≤ self.new.room }
    {
        if self.count >= self.places.len() / 4 * 3 {
            self.widen();
        }
    }

    // Makes twice as many places. This is seldom done, and not compiled into its caller.
    #[inline(never)]
    fn widen(&mut self)
        ensures same { KeepsAll self.old self.new }
        ensures room { self.old.room ≤ self.new.room }
    {
        self.are_packed = grow(
            self.alloc,
            &mut self.places,
            &mut self.overflow,
            self.are_packed,
        );
    }
}

#[inline(always)]
fn count_put(count: &mut usize, is_put: bool) {
    if is_put {
        *count = count.saturating_add(1);
    }
}

#[inline(always)]
fn count_out(count: &mut usize, is_out: bool) {
    if is_out {
        *count = count.saturating_sub(1);
    }
}
