//! The places, in buckets, and the overflow.
ghost use Rattle.std.specs.Prelude.{◌≡◌, ◌≢◌, ◌⊎◌, ◌+◌, ◌*◌, ◌/◌, true, ◌<◌, ◌≤◌, ℕ, None, Some, OnOk, OnErr, IsOk, IsSome, IfSome, IfNone, length, slice_index_or};
ghost use Rattle.std.specs.Bool.{OnTrue, OnFalse};
ghost use Rattle.std.specs.Option.{option_map};
ghost use Rattle.rows.specs.Held.{value_at, Puts};
ghost use Rattle.std.specs.Prelude.{IfOk};
ghost use Rattle.rows.specs.declared.Entry.{Entry as KeyValue};
ghost use Rattle.buckets.specs.Places.{all_in, bucket_of, number, HasAt, HasKey, HasNowhere, AreHome, AreInFront, AreApart, AreSound, IsFreeFor, IsNextFor, EndsSearch, IsFull, IsFilled, ArePacked, ArePackedBut, IsClosed, IsCopied, HaveSame, IsExtended, IsSetTo};

use crate::overflow::{Overflow, number, spread};
use crate::place::Place;
use std::alloc::{AllocError, Global};

// The places of a bucket.
const WIDTH: usize = 8;

// So many places behind the first one of a bucket another line of a cache begins, or has begun: a line has 64 bytes.
const NEXT_LINE: usize = 5;

// No vector has more buckets that are told apart: each is said by its part of a number of 24 bits, so that
// none is said by a division by how many there are, which takes long.
const MOST: usize = 1 << 24;

// The places of a vector that is made first.
const FEWEST: usize = 64;

// Where the bucket of the key begins.
#[tactic(auto, unfolding(crate::specs::Places::bucket_of))]
fn bucket_of(count: usize, key: u64) -> usize
    ensures bucket { result ≡ bucket_of count key }
    ensures small { result < 134217728 }
{
    let spread = spread(key) as usize;
    spread * (count / WIDTH).min(MOST) / MOST * WIDTH
}

// The least number of 24 bits that says this bucket of so many, or a less one: no less number says it.
fn first_spread(count: usize, bucket: usize) -> u64
    requires count { count ≤ 16777216 }
    requires bucket { bucket < 16777216 }
    ensures below { (spread : ℕ) → spread < result → spread * count / 16777216 < bucket }
    ensures small { result < 562949953421312 }
{
    if count == 0 {
        return 0;
    }
    let first = (bucket * MOST).div_ceil(count);
    if first > 0 && (first - 1) * count / MOST >= bucket {
        return 0;
    }
    first as u64
}

// No key whose number is below this one has its bucket here or behind.
#[tactic(auto, unfolding(crate::specs::Places::bucket_of))]
fn first_number(count: usize, bucket: usize) -> u128
    requires { bucket < 134217728 }
    ensures { (key : ℕ) → number key < result → bucket_of count key < bucket }
{
    u128::from(first_spread((count / WIDTH).min(MOST), bucket / WIDTH)) << 64
}

// Where the bucket of the key ends.
fn bucket_end(count: usize, start: usize) -> usize
    requires { start < 134217728 }
    ensures bound { result ≤ count }
    ensures short { result ≤ start + 8 }
    ensures whole { (place : ℕ) → place < start + 8 → place < count → place < result }
{
    (start + WIDTH).min(count)
}

// The place of the entry that has the key.
fn locate(places: &[Place], key: u64) -> Option<usize>
    requires home { AreHome places.now }
    requires front { AreInFront places.now }
    ensures found { IfSome result (HasKey places.now key) }
    ensures absent { IfNone result (HasNowhere places.now key) }
{
    let place = search(places, key)?;
    if places[place].is_empty() {
        return None;
    }
    Some(place)
}

// The place that has the key, or where no place has it the first free one of its bucket, if one is free.
fn search(places: &[Place], key: u64) -> Option<usize>
    requires home { AreHome places.now }
    requires front { AreInFront places.now }
    ensures ends { IfSome result (EndsSearch places.now key) }
    ensures next { IfSome result (λ place. slice_index_or places.now place None ≡ None
        → IsNextFor places.now key place) }
    ensures absent { IfNone result (HasNowhere places.now key) }
{
    let start = bucket_of(places.len(), key);
    let end = bucket_end(places.len(), start);
    let place = search_between(places, start, end, key)?;
    Some(place)
}

// The first place of these that has the key or is free.
fn search_between(places: &[Place], start: usize, end: usize, key: u64) -> Option<usize>
    requires { end ≤ length places.now }
    ensures ends { IfSome result (λ place. HasKey places.now key place
        ⊎ (slice_index_or places.now place None ≡ None)) }
    ensures from { IfSome result (λ place. start ≤ place) }
    ensures to { IfSome result (λ place. place < end) }
    ensures before { IfSome result (λ stop. (place : ℕ) (entry : KeyValue) → start ≤ place
        → place < stop → HasAt places.now place entry → entry.key ≢ key) }
    ensures filled { IfSome result (λ stop. (place : ℕ) → start ≤ place → place < stop
        → slice_index_or places.now place None ≢ None) }
    ensures absent { IfNone result ((place : ℕ) (entry : KeyValue) → start ≤ place → place < end
        → HasAt places.now place entry → entry.key ≢ key) }
{
    let mut place = start;
    while place < end {
        if places[place].has(key) {
            return Some(place);
        }
        if places[place].is_empty() {
            return Some(place);
        }
        place += 1;
    }
    None
}

// The first free place in the bucket of the key.
fn vacant(places: &[Place], key: u64) -> Option<usize>
    ensures free { IfSome result (IsNextFor places.now key) }
    ensures full { IfNone result (IsFull places.now key) }
{
    let start = bucket_of(places.len(), key);
    let end = bucket_end(places.len(), start);
    let place = free_between(places, start, end)?;
    Some(place)
}

// The first free place in the bucket of the key, which stands at this place. In front of an entry none is free, so the
// search begins behind it.
fn vacant_behind(places: &[Place], place: usize, key: u64) -> Option<usize>
    requires home { AreHome places.now }
    requires front { AreInFront places.now }
    requires there { HasKey places.now key place }
    ensures free { IfSome result (IsNextFor places.now key) }
    ensures full { IfNone result (IsFull places.now key) }
{
    let start = bucket_of(places.len(), key);
    let end = bucket_end(places.len(), start);
    let free = free_between(places, place + 1, end)?;
    Some(free)
}

// The first free place of these.
fn free_between(places: &[Place], start: usize, end: usize) -> Option<usize>
    requires { end ≤ length places.now }
    ensures free { IfSome result (λ place. slice_index_or places.now place None ≡ None) }
    ensures from { IfSome result (λ place. start ≤ place) }
    ensures to { IfSome result (λ place. place < end) }
    ensures first { IfSome result (λ free. (place : ℕ) → start ≤ place → place < free
        → slice_index_or places.now place None ≢ None) }
    ensures none { IfNone result ((place : ℕ) → start ≤ place → place < end
        → slice_index_or places.now place None ≢ None) }
{
    let mut place = start;
    while place < end {
        if places[place].is_empty() {
            return Some(place);
        }
        place += 1;
    }
    None
}

/// Whether one of two places of its bucket seems to have the key: the first one, and one behind it that lies in the
/// next line of a cache. Both are read in any case, so that nothing is awaited before the places of another key are
/// asked for.
pub fn seems_held(places: &[Place], key: u64) -> bool {
    let start = bucket_of(places.len(), key);
    has_at(places, start, key) | has_at(places, start + NEXT_LINE, key)
}

fn has_at(places: &[Place], place: usize, key: u64) -> bool {
    match places.get(place) {
        Some(place) => place.seems_to_have(key),
        None => false,
    }
}

/// The value of the key, in a place or in the overflow.
#[inline(always)]
pub fn find(places: &[Place], overflow: &Overflow, are_packed: bool, key: u64) -> Option<usize>
    requires sound { AreSound places.now overflow.now.held }
    requires packed { OnTrue are_packed (ArePacked places.now overflow.now.held) }
    ensures { result ≡ value_at (all_in places.now overflow.now.held) key }
{
    let Some(place) = search(places, key) else {
        return overflow.get(key);
    };
    if let Some(value) = places[place].value() {
        return Some(value);
    }
    if are_packed {
        return None;
    }
    overflow.get(key)
}

/// Puts an entry in, whose key no other has.
pub fn add(
    places: &mut [Place],
    overflow: &mut Overflow,
    are_packed: &mut bool,
    key: u64,
    value: usize,
) -> Result<(), AllocError>
    requires sound { AreSound places.old overflow.old.held }
    requires packed { OnTrue are_packed.old (ArePacked places.old overflow.old.held) }
    requires absent { value_at (all_in places.old overflow.old.held) key ≡ None }
    ensures sound { AreSound places.new overflow.new.held }
    ensures packed { OnTrue are_packed.new (ArePacked places.new overflow.new.held) }
    ensures ok { OnOk result (Puts (all_in places.old overflow.old.held)
        (all_in places.new overflow.new.held) key (Some value)) }
    ensures err { OnErr result (all_in places.new overflow.new.held
        ≡ all_in places.old overflow.old.held) }
    ensures succeeds { 0 < overflow.old.room → IsOk result }
    ensures room_ok { OnOk result (overflow.old.room ≤ overflow.new.room + 1) }
    ensures room_err { OnErr result (overflow.old.room ≤ overflow.new.room) }
{
    if put_in_place(places, key, value) {
        return Ok(());
    }
    *are_packed = are_packed_with(*are_packed, value);
    overflow.insert(key, value)
}

/// The value of the key, in a place or in the overflow; where it is in neither, an entry is put in with this value.
#[inline(always)]
pub fn find_or_add(
    places: &mut [Place],
    overflow: &mut Overflow,
    are_packed: &mut bool,
    key: u64,
    value: usize,
) -> Result<Option<usize>, AllocError>
    requires sound { AreSound places.old overflow.old.held }
    requires packed { OnTrue are_packed.old (ArePacked places.old overflow.old.held) }
    ensures sound { AreSound places.new overflow.new.held }
    ensures packed { OnTrue are_packed.new (ArePacked places.new overflow.new.held) }
    ensures found { IfOk result (λ found. found
        ≡ value_at (all_in places.old overflow.old.held) key) }
    ensures kept { IfOk result (λ found. IsSome found → (places.new ≡ places.old)
        × (overflow.new ≡ overflow.old)) }
    ensures put { IfOk result (λ found. found ≡ None
        → Puts (all_in places.old overflow.old.held) (all_in places.new overflow.new.held) key
        (Some value)) }
    ensures err { OnErr result (all_in places.new overflow.new.held
        ≡ all_in places.old overflow.old.held) }
    ensures succeeds { 0 < overflow.old.room → IsOk result }
    ensures room_ok { OnOk result (overflow.old.room ≤ overflow.new.room + 1) }
    ensures room_err { OnErr result (overflow.old.room ≤ overflow.new.room) }
{
    let Some(place) = search(places, key) else {
        return find_then_add(places, overflow, are_packed, key, value);
    };
    if let Some(held) = places[place].value() {
        return Ok(Some(held));
    }
    if are_packed_with(*are_packed, value) {
        fill(places, place, key, value);
        return Ok(None);
    }
    find_then_add(places, overflow, are_packed, key, value)
}

// As `find_or_add`, by two searches, where the bucket is full, or doesn't tell that the overflow lacks the key.
#[inline(never)]
fn find_then_add(
    places: &mut [Place],
    overflow: &mut Overflow,
    are_packed: &mut bool,
    key: u64,
    value: usize,
) -> Result<Option<usize>, AllocError>
    requires sound { AreSound places.old overflow.old.held }
    requires packed { OnTrue are_packed.old (ArePacked places.old overflow.old.held) }
    ensures sound { AreSound places.new overflow.new.held }
    ensures packed { OnTrue are_packed.new (ArePacked places.new overflow.new.held) }
    ensures found { IfOk result (λ found. found
        ≡ value_at (all_in places.old overflow.old.held) key) }
    ensures kept { IfOk result (λ found. IsSome found → (places.new ≡ places.old)
        × (overflow.new ≡ overflow.old)) }
    ensures put { IfOk result (λ found. found ≡ None
        → Puts (all_in places.old overflow.old.held) (all_in places.new overflow.new.held) key
        (Some value)) }
    ensures err { OnErr result (all_in places.new overflow.new.held
        ≡ all_in places.old overflow.old.held) }
    ensures succeeds { 0 < overflow.old.room → IsOk result }
    ensures room_ok { OnOk result (overflow.old.room ≤ overflow.new.room + 1) }
    ensures room_err { OnErr result (overflow.old.room ≤ overflow.new.room) }
{
    if let Some(held) = find(places, overflow, *are_packed, key) {
        return Ok(Some(held));
    }
    add(places, overflow, are_packed, key, value)?;
    Ok(None)
}

// Puts an entry into this place, the first free one of its bucket.
fn fill(places: &mut [Place], place: usize, key: u64, value: usize)
    requires next { IsNextFor places.old key place }
    requires small { value < 4294967295 }
    ensures { IsSetTo places.old places.new place (Some (record { key = key; value = value })) }
{
    match Place::of(key, value) {
        Some(filled) => places[place] = filled,
        None => unreachable!(),
    }
}

// Whether each entry of the overflow has a full bucket still, where this value goes there from a full one: one
// that is too great for a place goes there from any.
fn are_packed_with(are_packed: bool, value: usize) -> bool
    ensures small { OnTrue result (value < 4294967295) }
    ensures were { OnTrue result (are_packed ≡ true) }
{
    are_packed && value < u32::MAX as usize
}

// Puts an entry into the first free place of its bucket. Whether there was one, and the value small enough for it.
fn put_in_place(places: &mut [Place], key: u64, value: usize) -> bool
    ensures put { OnTrue result ((place : ℕ) × IsNextFor places.old key place
        × IsSetTo places.old places.new place (Some (record { key = key; value = value }))) }
    ensures kept { OnFalse result (places.new ≡ places.old) }
    ensures full { OnFalse result (value < 4294967295 → IsFull places.old key) }
{
    let Some(place) = vacant(places, key) else {
        return false;
    };
    let Some(filled) = Place::of(key, value) else {
        return false;
    };
    places[place] = filled;
    true
}

/// Takes the entry of the key out, if there is one, and returns its value.
pub fn take_out(
    places: &mut [Place],
    overflow: &mut Overflow,
    are_packed: &mut bool,
    key: u64,
) -> Option<usize>
    requires sound { AreSound places.old overflow.old.held }
    requires packed { OnTrue are_packed.old (ArePacked places.old overflow.old.held) }
    ensures sound { AreSound places.new overflow.new.held }
    ensures packed { OnTrue are_packed.new (ArePacked places.new overflow.new.held) }
    ensures value { result ≡ value_at (all_in places.old overflow.old.held) key }
    ensures gone { Puts (all_in places.old overflow.old.held)
        (all_in places.new overflow.new.held) key None }
    ensures room { overflow.old.room ≤ overflow.new.room }
{
    match locate(places, key) {
        Some(place) => take_place(places, overflow, are_packed, place, key),
        None => overflow.remove(key),
    }
}

// Takes the entry of the key out of its place, into which the last entry of the bucket comes. Where the bucket was
// full, an entry of the overflow that belongs there comes into the last place.
fn take_place(
    places: &mut [Place],
    overflow: &mut Overflow,
    are_packed: &mut bool,
    place: usize,
    key: u64,
) -> Option<usize>
    requires sound { AreSound places.old overflow.old.held }
    requires packed { OnTrue are_packed.old (ArePacked places.old overflow.old.held) }
    requires there { HasKey places.old key place }
    ensures sound { AreSound places.new overflow.new.held }
    ensures packed { OnTrue are_packed.new (ArePacked places.new overflow.new.held) }
    ensures value { result ≡ value_at (all_in places.old overflow.old.held) key }
    ensures gone { Puts (all_in places.old overflow.old.held)
        (all_in places.new overflow.new.held) key None }
    ensures room { overflow.old.room ≤ overflow.new.room }
{
    match vacant_behind(places, place, key) {
        Some(free) => close(places, place, free - 1),
        None => {
            let start = bucket_of(places.len(), key);
            let last = bucket_end(places.len(), start) - 1;
            let value = close(places, place, last);
            *are_packed = refill(places, overflow, *are_packed, last, key);
            value
        }
    }
}

// Moves the entry of the last place into this one, whose value it returns.
fn close(places: &mut [Place], place: usize, last: usize) -> Option<usize>
    requires place { place < length places.old }
    requires last { last < length places.old }
    ensures value { result ≡ option_map (λ entry. entry.value)
        (slice_index_or places.old place None) }
    ensures closed { IsClosed places.old places.new place last }
{
    let value = places[place].value();
    places[place] = places[last].again();
    places[last] = Place::empty();
    value
}

// Moves an entry of the overflow into the only free place of its bucket, which is the bucket of this key, if there
// is such an entry. Whether each entry of the overflow has a full bucket then. Few removals come here, and the others
// need fewer registers where this isn't compiled into them.
#[inline(never)]
fn refill(
    places: &mut [Place],
    overflow: &mut Overflow,
    are_packed: bool,
    hole: usize,
    key: u64,
) -> bool
    requires sound { AreSound places.old overflow.old.held }
    requires packed { OnTrue are_packed (ArePackedBut places.old overflow.old.held hole) }
    requires free { IsNextFor places.old key hole }
    ensures sound { AreSound places.new overflow.new.held }
    ensures packed { OnTrue result (ArePacked places.new overflow.new.held) }
    ensures same { (other : ℕ) → value_at (all_in places.new overflow.new.held) other
        ≡ value_at (all_in places.old overflow.old.held) other }
    ensures room { overflow.old.room ≤ overflow.new.room }
{
    if !are_packed {
        return false;
    }
    let bucket = bucket_of(places.len(), key);
    let Some(next) = overflow.next_from(first_number(places.len(), bucket)) else {
        return true;
    };
    let found = bucket_of(places.len(), next);
    if found == bucket {
        return lift_to(places, overflow, hole, next);
    }
    found > bucket
}

/// Makes twice as many places, where memory is granted, and puts the entries there, also those of the overflow
/// for which there is a place now. Each key keeps its value in any case.
/// Whether each entry of the overflow has a full bucket then.
pub fn grow(
    alloc: Global,
    places: &mut Vec<Place>,
    overflow: &mut Overflow,
    are_packed: bool,
) -> bool
    requires sound { AreSound places.old.items overflow.old.held }
    requires packed { OnTrue are_packed (ArePacked places.old.items overflow.old.held) }
    ensures sound { AreSound places.new.items overflow.new.held }
    ensures packed { OnTrue result (ArePacked places.new.items overflow.new.held) }
    ensures same { (key : ℕ) → value_at (all_in places.new.items overflow.new.held) key
        ≡ value_at (all_in places.old.items overflow.old.held) key }
    ensures room { overflow.old.room ≤ overflow.new.room }
{
    let Some(fresh) = moved(alloc, places) else {
        return are_packed;
    };
    *places = fresh;
    lift_each(places, overflow)
}

// The entries of these places in twice as many. Half of a bucket goes where it was and half of it elsewhere, so
// that none has more than it can hold.
fn moved(alloc: Global, places: &[Place]) -> Option<Vec<Place>>
    requires { AreApart places.now }
    ensures { IfSome result (λ fresh. HaveSame places.now fresh.items) }
{
    let wanted = places.len().saturating_mul(2).max(FEWEST);
    let mut fresh = free_places(alloc, wanted).ok()?;
    if !copy_all(places, &mut fresh) {
        return None;
    }
    Some(fresh)
}

// So many free places.
fn free_places(alloc: Global, count: usize) -> Result<Vec<Place>, AllocError>
    ensures { IfOk result (λ places. (k : ℕ) → slice_index_or places.items k None ≡ None) }
{
    let mut places = Vec::with_capacity(alloc, count)?;
    add_free(&mut places, count)?;
    Ok(places)
}

/// Makes free places behind those that are there, until there are so many.
pub fn add_free(places: &mut Vec<Place>, count: usize) -> Result<(), AllocError>
    ensures { IsExtended places.old.items places.new.items }
{
    for _ in places.len()..count {
        places.push(Place::empty())?;
    }
    Ok(())
}

// Puts each entry of the old places into the first free one of its bucket. Whether there was one for each.
fn copy_all(old: &[Place], fresh: &mut [Place]) -> bool
    requires apart { AreApart old.now }
    requires free { (k : ℕ) → slice_index_or fresh.old k None ≡ None }
    ensures { OnTrue result (HaveSame old.now fresh.new) }
{
    for place in old {
        if !copy(place, fresh) {
            return false;
        }
    }
    true
}

// Puts the entry of a place, if it has one, into the first free one of its bucket. Whether there was one.
fn copy(place: &Place, fresh: &mut [Place]) -> bool
    ensures { OnTrue result (IsCopied place.now fresh.old fresh.new) }
{
    let Some(key) = place.key() else {
        return true;
    };
    let Some(free) = vacant(fresh, key) else {
        return false;
    };
    fresh[free] = place.again();
    true
}

// Moves entries of the overflow into free places of their buckets. Whether each that is left has a full one.
// This goes through the overflow in its order. An overflow has fewer entries than there are places; where it had more,
// or a value too great for a place, this ends before it is through.
fn lift_each(places: &mut [Place], overflow: &mut Overflow) -> bool
    requires { AreSound places.old overflow.old.held }
    ensures sound { AreSound places.new overflow.new.held }
    ensures packed { OnTrue result (ArePacked places.new overflow.new.held) }
    ensures same { (key : ℕ) → value_at (all_in places.new overflow.new.held) key
        ≡ value_at (all_in places.old overflow.old.held) key }
    ensures room { overflow.old.room ≤ overflow.new.room }
{
    let mut from = 0;
    for _ in 0..places.len() {
        let Some(key) = overflow.next_from(from) else {
            return true;
        };
        if !lift(places, overflow, key) {
            return false;
        }
        from = number(key) + 1;
    }
    false
}

// Moves the entry of the key from the overflow into a free place of its bucket, unless that is full. Whether the
// key has a full bucket now, or is no more in the overflow.
fn lift(places: &mut [Place], overflow: &mut Overflow, key: u64) -> bool
    requires { AreSound places.old overflow.old.held }
    ensures sound { AreSound places.new overflow.new.held }
    ensures same { (other : ℕ) → value_at (all_in places.new overflow.new.held) other
        ≡ value_at (all_in places.old overflow.old.held) other }
    ensures filled { IsFilled places.old places.new overflow.old.held overflow.new.held }
    ensures settled { OnTrue result ((place : ℕ) → IsFreeFor places.new key place
        → value_at overflow.new.held key ≡ None) }
    ensures room { overflow.old.room ≤ overflow.new.room }
{
    let Some(free) = vacant(places, key) else {
        return true;
    };
    lift_to(places, overflow, free, key)
}

// Moves the entry of the key from the overflow into this place, the first free one of its bucket. Whether there was
// one, and its value small enough.
fn lift_to(places: &mut [Place], overflow: &mut Overflow, place: usize, key: u64) -> bool
    requires sound { AreSound places.old overflow.old.held }
    requires free { IsNextFor places.old key place }
    ensures sound { AreSound places.new overflow.new.held }
    ensures same { (other : ℕ) → value_at (all_in places.new overflow.new.held) other
        ≡ value_at (all_in places.old overflow.old.held) other }
    ensures filled { IsFilled places.old places.new overflow.old.held overflow.new.held }
    ensures taken { OnTrue result (slice_index_or places.new place None ≢ None) }
    ensures gone { OnTrue result (value_at overflow.new.held key ≡ None) }
    ensures room { overflow.old.room ≤ overflow.new.room }
{
    let Some(value) = overflow.get(key) else {
        return false;
    };
    let Some(lifted) = Place::of(key, value) else {
        return false;
    };
    places[place] = lifted;
    overflow.remove(key);
    true
}
