//! A map in which a key has one place, said by its port and protocol: for endpoints of one address, of which each has a
//! port of its own.
ghost use Rattle.std.specs.Prelude.{◌≡◌, ◌+◌, ◌<◌, ◌≤◌, ℕ, None, Some, IsOk, IsSome, IfOk, IfSome, IfNone, OnOk, OnErr, length, slice_index_or};
ghost use Rattle.std.specs.Bool.{OnTrue, OnFalse};
ghost use Rattle.rows.specs.Held.{at, value_at, Puts};
ghost use Rattle.buckets.specs.ByPort.{AreAtHome, ArePlaced, place_of};
ghost use Rattle.buckets.specs.Held.{KeepsAll};
ghost use Rattle.buckets.specs.Places.{all_in, entries_in, HasKey, HasNowhere, IsExtended, IsSetTo};

use crate::Buckets;
use crate::place::Place;
use crate::places::add_free;
use std::alloc::{AllocError, Global};
use std::marker::Model;

// A place for each port of each of two protocols.
const PLACES: usize = 131_072;

// So many places are made at once, if there is memory for them: the one that is asked for, and those behind it.
const SPARE: usize = 4_096;

/// Entries, each key at most once, in no order. A key's place is said by its lowest 16 bits, the port of an endpoint,
/// and by bit 48, in which the numbers of TCP and UDP differ. An entry that finds no free place there, or whose value
/// is too great for one, lies in `Buckets`, and stays: so nothing rests on how keys differ but time.
///
/// A place takes 12 bytes, and memory for 131,072 of them is asked for once, by the first `reserve` or `reserve_one`
/// that is granted. An insertion whose place isn't made yet makes it there, those below it, and a few above: so memory
/// of greater places stays untouched.
#[derive(Drop)]
pub struct ByPort {
    places: Vec<Place>,
    others: Buckets,
    // Whether an entry has ever come to the others.
    has_others: bool,
    // Whether memory for the places was asked for. It is asked for once.
    has_asked: bool,
}

impl Model for ByPort {
    ghost use Rattle.rows.specs.Held.{Entries};
    ghost use Rattle.buckets.specs.ByPort.{ArePlaced};
    ghost use Rattle.buckets.specs.Places.{all_in};

    ghost Value = { Entries };

    ghost view = { λ m. record {
      held = all_in m.places.items m.others.held;
      room = m.others.room;
    } };

    ghost invariant = { λ m. ArePlaced m.places.items m.others.held m.has_others };
}

impl ByPort {
    /// No entry. This takes no memory.
    pub fn new(alloc: Global) -> ByPort
        ensures { (key : ℕ) → at result key ≡ None }
    {
        ByPort {
            places: Vec::new(alloc),
            others: Buckets::new(alloc),
            has_others: false,
            has_asked: false,
        }
    }

    /// The value of the key, if an entry has it. It takes a look at one place, and one among the others where an entry
    /// has ever come there and the place hasn't the key.
    #[inline(always)]
    pub fn get(&self, key: u64) -> Option<usize>
        ensures { result ≡ at self.now key }
    {
        find(&self.places, &self.others, self.has_others, key)
    }

    /// Whether by a look at its place an entry seems to have the key. It says nothing of what is: whoever asks of
    /// several keys in turn waits once for the memory that their look-ups are going to read.
    pub fn seems_held(&self, key: u64) -> bool {
        match self.places.get(place_of(key)) {
            Some(place) => place.seems_to_have(key),
            None => false,
        }
    }

    /// Puts an entry in, whose key no other has.
    ///
    /// # Errors
    ///
    /// `AllocError` where memory for it is refused, and never where there is room. Each key has the value that it
    /// had then, and no room is lost.
    #[inline(always)]
    pub fn insert(&mut self, key: u64, value: usize) -> Result<(), AllocError>
        requires { at self.old key ≡ None }
        ensures ok { OnOk result (Puts self.old.held self.new.held key (Some value)) }
        ensures err { OnErr result (KeepsAll self.old self.new) }
        ensures succeeds { 0 < self.old.room → IsOk result }
        ensures room_ok { OnOk result (self.old.room ≤ self.new.room + 1) }
        ensures room_err { OnErr result (self.old.room ≤ self.new.room) }
    {
        add(
            &mut self.places,
            &mut self.others,
            &mut self.has_others,
            key,
            value,
        )
    }

    /// The value of the key, if an entry has it. If none has, an entry with this value is put in, as by `insert`.
    ///
    /// # Errors
    ///
    /// As of `insert`, and never where an entry has the key.
    // Callers go on by what was found: compiled into them, the answer isn't put together and taken apart again.
    #[inline(always)]
    pub fn get_or_insert(&mut self, key: u64, value: usize) -> Result<Option<usize>, AllocError>
        ensures found { IfOk result (λ found. found ≡ at self.old key) }
        ensures kept { IfOk result (λ found. IsSome found → self.new ≡ self.old) }
        ensures put { IfOk result (λ found. found ≡ None
            → Puts self.old.held self.new.held key (Some value)) }
        ensures err { OnErr result (KeepsAll self.old self.new) }
        ensures again { IsSome (at self.old key) → IsOk result }
        ensures succeeds { 0 < self.old.room → IsOk result }
        ensures room_ok { OnOk result (self.old.room ≤ self.new.room + 1) }
        ensures room_err { OnErr result (self.old.room ≤ self.new.room) }
    {
        if let Some(held) = self.get(key) {
            return Ok(Some(held));
        }
        self.insert(key, value)?;
        Ok(None)
    }

    /// Takes the entry of the key out, if there is one, and returns its value. This takes no memory.
    #[inline(always)]
    pub fn remove(&mut self, key: u64) -> Option<usize>
        ensures value { result ≡ at self.old key }
        ensures gone { Puts self.old.held self.new.held key None }
        ensures room { self.old.room ≤ self.new.room }
    {
        take_out(&mut self.places, &mut self.others, self.has_others, key)
    }

    /// Makes room for two more entries, so that the next two insertions take no memory, whatever is removed
    /// before them.
    ///
    /// # Errors
    ///
    /// `AllocError` where memory for the two is refused, and never where there is room for two already. Each key
    /// has the value that it had in any case, and no room is lost.
    #[inline(always)]
    pub fn reserve(&mut self) -> Result<(), AllocError>
        ensures ok { OnOk result (2 ≤ self.new.room) }
        ensures succeeds { 2 ≤ self.old.room → IsOk result }
        ensures same { KeepsAll self.old self.new }
        ensures room { self.old.room ≤ self.new.room }
    {
        self.others.reserve()?;
        ask_for_places(&mut self.places, &mut self.has_asked);
        Ok(())
    }

    /// Makes room for one more entry, as `reserve` does for two.
    ///
    /// # Errors
    ///
    /// As of `reserve`.
    pub fn reserve_one(&mut self) -> Result<(), AllocError>
        ensures ok { OnOk result (0 < self.new.room) }
        ensures succeeds { 0 < self.old.room → IsOk result }
        ensures same { KeepsAll self.old self.new }
        ensures room { self.old.room ≤ self.new.room }
    {
        self.others.reserve_one()?;
        ask_for_places(&mut self.places, &mut self.has_asked);
        Ok(())
    }
}

// Asks for memory for all places, if that wasn't done before.
#[inline(always)]
fn ask_for_places(places: &mut Vec<Place>, has_asked: &mut bool)
    ensures { places.new.items ≡ places.old.items }
{
    if !*has_asked {
        *has_asked = true;
        ask_for_all(places);
    }
}

#[inline(never)]
fn ask_for_all(places: &mut Vec<Place>)
    ensures { places.new.items ≡ places.old.items }
{
    let _ = places.reserve_exact(PLACES);
}

// The place of the key.
#[inline(always)]
fn place_of(key: u64) -> usize
    ensures { result ≡ place_of key }
{
    (key / 0x1_0000_0000_0000 % 2 * 0x1_0000 + key % 0x1_0000) as usize
}

// The value of the key, in its place or among the others.
#[inline(always)]
fn find(places: &[Place], others: &Buckets, has_others: bool, key: u64) -> Option<usize>
    requires { ArePlaced places.now others.now.held has_others }
    ensures { result ≡ value_at (all_in places.now others.now.held) key }
{
    match find_at_home(places, key) {
        Some(value) => Some(value),
        None => find_other(others, has_others, key),
    }
}

// The place of the key, where that has it.
#[inline(always)]
fn home_with(places: &[Place], key: u64) -> Option<usize>
    requires { AreAtHome places.now }
    ensures home { IfSome result (λ home. home ≡ place_of key) }
    ensures within { IfSome result (λ home. home < length places.now) }
    ensures found { IfSome result (HasKey places.now key) }
    ensures absent { IfNone result (HasNowhere places.now key) }
{
    let home = place_of(key);
    if home < places.len() && places[home].has(key) {
        return Some(home);
    }
    None
}

// The value of the key, where its place has it.
#[inline(always)]
fn find_at_home(places: &[Place], key: u64) -> Option<usize>
    requires { AreAtHome places.now }
    ensures { result ≡ value_at (entries_in places.now) key }
{
    let home = home_with(places, key)?;
    places[home].value()
}

// The value of the key among the others, if there are any.
#[inline(always)]
fn find_other(others: &Buckets, has_others: bool, key: u64) -> Option<usize>
    requires { OnFalse has_others ((other : ℕ) → at others.now other ≡ None) }
    ensures { result ≡ at others.now key }
{
    if !has_others {
        return None;
    }
    others.get(key)
}

// Puts an entry in, whose key no other has.
#[inline(always)]
fn add(
    places: &mut Vec<Place>,
    others: &mut Buckets,
    has_others: &mut bool,
    key: u64,
    value: usize,
) -> Result<(), AllocError>
    requires placed { ArePlaced places.old.items others.old.held has_others.old }
    requires absent { value_at (all_in places.old.items others.old.held) key ≡ None }
    ensures placed { ArePlaced places.new.items others.new.held has_others.new }
    ensures ok { OnOk result (Puts (all_in places.old.items others.old.held)
        (all_in places.new.items others.new.held) key (Some value)) }
    ensures err { OnErr result ((other : ℕ)
        → value_at (all_in places.new.items others.new.held) other
        ≡ value_at (all_in places.old.items others.old.held) other) }
    ensures succeeds { 0 < others.old.room → IsOk result }
    ensures room_ok { OnOk result (others.old.room ≤ others.new.room + 1) }
    ensures room_err { OnErr result (others.old.room ≤ others.new.room) }
{
    make_place(places, place_of(key));
    put_in(places, others, has_others, key, value)
}

// Makes the place, if it isn't made yet and has memory.
#[inline(always)]
fn make_place(places: &mut Vec<Place>, place: usize)
    ensures { IsExtended places.old.items places.new.items }
{
    if place >= places.len() {
        lengthen(places, place);
    }
}

// Makes the places up to this one and some more, as far as they have memory: none is asked for.
#[inline(never)]
fn lengthen(places: &mut Vec<Place>, place: usize)
    ensures { IsExtended places.old.items places.new.items }
{
    let wanted = place.saturating_add(SPARE).min(places.capacity());
    let _ = add_free(places, wanted);
}

// Puts an entry in, whose key no other has, into its place or among the others.
#[inline(always)]
fn put_in(
    places: &mut [Place],
    others: &mut Buckets,
    has_others: &mut bool,
    key: u64,
    value: usize,
) -> Result<(), AllocError>
    requires placed { ArePlaced places.old others.old.held has_others.old }
    requires absent { value_at (all_in places.old others.old.held) key ≡ None }
    ensures placed { ArePlaced places.new others.new.held has_others.new }
    ensures ok { OnOk result (Puts (all_in places.old others.old.held)
        (all_in places.new others.new.held) key (Some value)) }
    ensures err { OnErr result ((other : ℕ) → value_at (all_in places.new others.new.held) other
        ≡ value_at (all_in places.old others.old.held) other) }
    ensures succeeds { 0 < others.old.room → IsOk result }
    ensures room_ok { OnOk result (others.old.room ≤ others.new.room + 1) }
    ensures room_err { OnErr result (others.old.room ≤ others.new.room) }
{
    if put_at_home(places, key, value) {
        return Ok(());
    }
    *has_others = true;
    others.insert(key, value)
}

// Puts an entry into the place of its key. Whether the place was free, and the value small enough for it.
#[inline(always)]
fn put_at_home(places: &mut [Place], key: u64, value: usize) -> bool
    ensures free { OnTrue result (slice_index_or places.old (place_of key) None ≡ None) }
    ensures put { OnTrue result (IsSetTo places.old places.new (place_of key)
        (Some (record { key = key; value = value }))) }
    ensures kept { OnFalse result (places.new ≡ places.old) }
{
    let home = place_of(key);
    if home >= places.len() || !places[home].is_empty() {
        return false;
    }
    let Some(filled) = Place::of(key, value) else {
        return false;
    };
    places[home] = filled;
    true
}

// Takes the entry of the key out, if there is one, and returns its value.
#[inline(always)]
fn take_out(places: &mut [Place], others: &mut Buckets, has_others: bool, key: u64) -> Option<usize>
    requires placed { ArePlaced places.old others.old.held has_others }
    ensures placed { ArePlaced places.new others.new.held has_others }
    ensures value { result ≡ value_at (all_in places.old others.old.held) key }
    ensures gone { Puts (all_in places.old others.old.held)
        (all_in places.new others.new.held) key None }
    ensures room { others.old.room ≤ others.new.room }
{
    if let Some(value) = take_from_home(places, key) {
        return Some(value);
    }
    if !has_others {
        return None;
    }
    others.remove(key)
}

// Takes the entry of the key out of its place, if that has it, and returns its value.
#[inline(always)]
fn take_from_home(places: &mut [Place], key: u64) -> Option<usize>
    requires { AreAtHome places.old }
    ensures value { result ≡ value_at (entries_in places.old) key }
    ensures gone { IfSome result (λ _. IsSetTo places.old places.new (place_of key) None) }
    ensures kept { IfNone result (places.new ≡ places.old) }
{
    let home = home_with(places, key)?;
    let value = places[home].value();
    places[home] = Place::empty();
    value
}
