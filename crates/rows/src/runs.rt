//! The runs in which the entries lie.
ghost use Rattle.std.specs.Prelude.{◌≡◌, ◌+◌, ◌<◌, ◌≤◌, ◌++◌, ◌↔◌, [], ℕ, IsTrue, None, Some, OnOk, OnErr, OnSome, IfSome, IfNone, length, vec_capacity, slice_index_or, slice_set, take, drop};
ghost use Rattle.std.specs.List.{AllWithin, insert};
ghost use Rattle.rows.specs.Held.{value_at, entries_from, Puts};
ghost use Rattle.rows.specs.Walk.{rest};
ghost use Rattle.rows.specs.Order.{held_in, AreOrdered, AreKeysRising, AreSound, KeepsSound, IsRunFor, IsGap, IsPlaceFor, IsEntryAt, IsEntryOf, IsFoundAt, IsCut, most, half};
ghost use Rattle.rows.specs.declared.runs.Run.{Run as Span};

use crate::cell::Cell;
use crate::search::count_before;
use crate::{Entry, Walk};
use std::alloc::{AllocError, Global};

/// The most entries of a run, 24 bytes each.
const MOST: usize = 64;

/// Entries that rise, and a bound that none of them is below and that all the earlier runs are below.
#[derive(Drop)]
pub struct Run {
    pub low: u128,
    pub entries: Vec<Cell>,
}

// How many runs have a bound no higher than the key.
fn runs_up_to(runs: &[Run], key: u128) -> usize
    requires { AreOrdered runs.now }
    ensures in_range { result ≤ length runs.now }
    ensures before { AllWithin (λ (r : Run). r.low ≤ key) runs.now 0 result }
    ensures after { AllWithin (λ (r : Run). key < r.low) runs.now result (length runs.now) }
{
    count_before(runs, |run| run.low <= key)
}

// How many entries have a smaller key.
fn place_of(entries: &[Cell], key: u128) -> usize
    requires { AreKeysRising entries.now }
    ensures { IsPlaceFor entries.now key result }
{
    count_before(entries, |entry| entry.key() < key)
}

// The place of the entry that has the key.
fn find_place(entries: &[Cell], key: u128) -> Option<usize>
    requires { AreKeysRising entries.now }
    ensures found { IfSome result (IsEntryAt entries.now key) }
    ensures absent { IfNone result (value_at entries.now key ≡ None) }
{
    let place = place_of(entries, key);
    if place < entries.len() && entries[place].key() == key {
        return Some(place);
    }
    None
}

// The number of the run of the entry that has the key, and its place in there.
fn locate(runs: &[Run], key: u128) -> Option<(usize, usize)>
    requires { AreOrdered runs.now }
    ensures found { IfSome result (λ at. IsFoundAt runs.now key at.0 at.1) }
    ensures absent { IfNone result (value_at (held_in runs.now) key ≡ None) }
{
    let count = runs_up_to(runs, key);
    if count == 0 {
        return None;
    }
    let number = count - 1;
    match find_place(&runs[number].entries, key) {
        Some(place) => Some((number, place)),
        None => None,
    }
}

/// The value of the key.
pub fn find(runs: &[Run], key: u128) -> Option<usize>
    requires { AreOrdered runs.now }
    ensures { result ≡ value_at (held_in runs.now) key }
{
    match locate(runs, key) {
        Some((number, place)) => Some(runs[number].entries[place].value()),
        None => None,
    }
}

/// The entries in order, from the first on whose key isn't below this one.
pub fn walk_from(runs: &[Run], key: u128) -> Walk<'_>
    requires { AreOrdered runs.now }
    ensures { rest result ≡ entries_from key (held_in runs.now) }
{
    let count = runs_up_to(runs, key);
    if count == 0 {
        return Walk { entries: &[], runs };
    }
    let (_, later) = runs.split_at(count);
    let run = &runs[count - 1].entries;
    let (_, entries) = run.split_at(place_of(run, key));
    Walk {
        entries,
        runs: later,
    }
}

/// Puts the entry in, whose key no other has. A spare run is there, should one be needed.
pub fn add(runs: &mut Vec<Run>, spare: &mut Vec<Vec<Cell>>, entry: Entry)
    requires sound { AreSound runs.old spare.old }
    requires spare { 0 < length spare.old.items }
    requires absent { value_at (held_in runs.old.items) entry.key ≡ None }
    ensures sound { AreSound runs.new spare.new }
    ensures puts { Puts (held_in runs.old.items) (held_in runs.new.items) entry.key
        (Some entry.value) }
    ensures counted { length (held_in runs.new.items) ≡ length (held_in runs.old.items) + 1 }
    ensures room { length spare.old.items ≤ length spare.new.items + 1 }
{
    let number = run_with_room(runs, spare, entry.key);
    put(&mut runs[number].entries, entry);
}

// Puts the entry into a run.
fn put(entries: &mut Vec<Cell>, entry: Entry)
    requires rising { AreKeysRising entries.old.items }
    requires few { length entries.old.items < most }
    requires wide { most ≤ vec_capacity entries.old }
    ensures place { (place : ℕ) × IsPlaceFor entries.old.items entry.key place
        × (entries.new.items ≡ insert entries.old.items place entry) }
    ensures wide { most ≤ vec_capacity entries.new }
{
    let place = place_of(entries, entry.key);
    match entries.insert(place, Cell::of(entry)) {
        Ok(()) => {}
        Err(_) => unreachable!(),
    }
}

// The run for the key, once it has room.
fn run_with_room(runs: &mut Vec<Run>, spare: &mut Vec<Vec<Cell>>, key: u128) -> usize
    requires sound { AreSound runs.old spare.old }
    requires spare { 0 < length spare.old.items }
    ensures sound { AreSound runs.new spare.new }
    ensures held { held_in runs.new.items ≡ held_in runs.old.items }
    ensures run { IsRunFor runs.new.items key result }
    ensures few { (d : Span)
        → length (slice_index_or runs.new.items result d).entries.items < most }
    ensures room { length spare.old.items ≤ length spare.new.items + 1 }
{
    let count = runs_up_to(runs, key);
    if is_gap(runs, key, count) {
        begin(runs, spare, count, key);
        return count;
    }
    let number = count - 1;
    if runs[number].entries.len() < MOST {
        return number;
    }
    cut_for(runs, spare, number, key)
}

// Cuts a full run in two. The number of the half that is the run for the key.
#[inline(always)]
fn cut_for(runs: &mut Vec<Run>, spare: &mut Vec<Vec<Cell>>, number: usize, key: u128) -> usize
    requires sound { AreSound runs.old spare.old }
    requires spare { 0 < length spare.old.items }
    requires run { IsRunFor runs.old.items key number }
    requires full { (d : Span)
        → most ≤ length (slice_index_or runs.old.items number d).entries.items }
    ensures sound { AreSound runs.new spare.new }
    ensures held { held_in runs.new.items ≡ held_in runs.old.items }
    ensures run { IsRunFor runs.new.items key result }
    ensures few { (d : Span)
        → length (slice_index_or runs.new.items result d).entries.items < most }
    ensures room { length spare.old.items ≤ length spare.new.items + 1 }
{
    cut(runs, spare, number);
    if runs[number + 1].low <= key {
        return number + 1;
    }
    number
}

// Whether a run may begin at the key: so many runs have a bound no higher, and the last of them is full of
// smaller keys. There it serves keys that come in rising or in falling order, whose runs thus get full.
fn is_gap(runs: &[Run], key: u128, count: usize) -> bool
    requires ordered { AreOrdered runs.now }
    requires in_range { count ≤ length runs.now }
    requires before { AllWithin (λ (r : Span). r.low ≤ key) runs.now 0 count }
    requires after { AllWithin (λ (r : Span). key < r.low) runs.now count (length runs.now) }
    ensures gap { IsTrue result → IsGap runs.now key count }
    ensures some { ¬ IsTrue result → 0 < count }
{
    if count == 0 {
        return true;
    }
    let entries = &runs[count - 1].entries;
    entries.len() >= MOST && place_of(entries, key) == entries.len()
}

// Lets the run of this number begin at the bound, once it has room: the one that begins above it, or, where
// that is full, a new one.
fn begin(runs: &mut Vec<Run>, spare: &mut Vec<Vec<Cell>>, number: usize, low: u128)
    requires sound { AreSound runs.old spare.old }
    requires spare { 0 < length spare.old.items }
    requires gap { IsGap runs.old.items low number }
    ensures sound { AreSound runs.new spare.new }
    ensures held { held_in runs.new.items ≡ held_in runs.old.items }
    ensures run { IsRunFor runs.new.items low number }
    ensures few { (d : Span)
        → length (slice_index_or runs.new.items number d).entries.items < most }
    ensures room { length spare.old.items ≤ length spare.new.items + 1 }
{
    if number < runs.len() && runs[number].entries.len() < MOST {
        lower(runs, number, low);
    } else {
        open(runs, spare, number, low);
    }
}

// Lowers the bound of a run.
fn lower(runs: &mut Vec<Run>, number: usize, low: u128)
    requires { number < length runs.old.items }
    ensures runs { (run : Span) × (run ≡ slice_index_or runs.old.items number run)
        × (runs.new.items ≡ slice_set runs.old.items number (record run { low = low })) }
    ensures capacity { vec_capacity runs.new ≡ vec_capacity runs.old }
{
    runs[number].low = low;
}

// Puts a run with no entry before the one of this number.
fn open(runs: &mut Vec<Run>, spare: &mut Vec<Vec<Cell>>, number: usize, low: u128)
    requires sound { AreSound runs.old spare.old }
    requires spare { 0 < length spare.old.items }
    requires gap { IsGap runs.old.items low number }
    ensures sound { AreSound runs.new spare.new }
    ensures runs { (run : Span) × (runs.new.items ≡ insert runs.old.items number run)
        × (run.low ≡ low) × (run.entries.items ≡ []) }
    ensures room { length spare.old.items ≡ length spare.new.items + 1 }
{
    let Some(entries) = spare.pop() else {
        unreachable!();
    };
    insert_run(runs, number, Run { low, entries });
}

fn insert_run(runs: &mut Vec<Run>, number: usize, run: Run)
    requires in_range { number ≤ length runs.old.items }
    requires room { length runs.old.items < vec_capacity runs.old }
    ensures items { runs.new.items ≡ insert runs.old.items number run }
    ensures capacity { vec_capacity runs.old ≤ vec_capacity runs.new }
{
    match runs.insert(number, run) {
        Ok(()) => {}
        Err(_) => unreachable!(),
    }
}

// Cuts a full run in two.
fn cut(runs: &mut Vec<Run>, spare: &mut Vec<Vec<Cell>>, number: usize)
    requires sound { AreSound runs.old spare.old }
    requires spare { 0 < length spare.old.items }
    requires in_range { number < length runs.old.items }
    requires full { (d : Span)
        → most ≤ length (slice_index_or runs.old.items number d).entries.items }
    ensures sound { AreSound runs.new spare.new }
    ensures cut { IsCut runs.old.items runs.new.items number }
    ensures room { length spare.old.items ≡ length spare.new.items + 1 }
{
    let Some(mut high) = spare.pop() else {
        unreachable!();
    };
    move_high(&mut runs[number].entries, &mut high);
    let low = high[0].key();
    insert_run(runs, number + 1, Run { low, entries: high });
}

// Moves the higher half of the entries.
fn move_high(entries: &mut Vec<Cell>, high: &mut Vec<Cell>)
    requires full { most ≡ length entries.old.items }
    requires wide { most ≤ vec_capacity entries.old }
    requires empty { high.old.items ≡ [] }
    requires high_wide { most ≤ vec_capacity high.old }
    ensures low { entries.new.items ≡ take half entries.old.items }
    ensures high { high.new.items ≡ drop half entries.old.items }
    ensures wide { most ≤ vec_capacity entries.new }
    ensures high_wide { most ≤ vec_capacity high.new }
{
    let (_, back) = entries.split_at(MOST / 2);
    match high.extend_from_slice(back) {
        Ok(()) => {}
        Err(_) => unreachable!(),
    }
    entries.truncate(MOST / 2);
}

/// Takes the entry of the key out, if there is one. A run that is then empty becomes a spare one.
pub fn take_out(runs: &mut Vec<Run>, spare: &mut Vec<Vec<Cell>>, key: u128) -> Option<usize>
    requires sound { AreSound runs.old spare.old }
    ensures sound { AreSound runs.new spare.new }
    ensures value { result ≡ value_at (held_in runs.old.items) key }
    ensures gone { Puts (held_in runs.old.items) (held_in runs.new.items) key None }
    ensures counted { OnSome result (length (held_in runs.new.items) + 1
        ≡ length (held_in runs.old.items)) }
    ensures none { IfNone result (held_in runs.new.items ≡ held_in runs.old.items) }
    ensures room { length spare.old.items ≤ length spare.new.items }
{
    let Some((number, place)) = locate(runs, key) else {
        return None;
    };
    let entry = take_at(runs, number, place);
    settle(runs, spare, number);
    Some(entry.value)
}

// Takes the entry at this place of a run out.
fn take_at(runs: &mut Vec<Run>, number: usize, place: usize) -> Entry
    requires ordered { AreOrdered runs.old.items }
    requires in_range { number < length runs.old.items }
    requires in_run { (d : Span)
        → place < length (slice_index_or runs.old.items number d).entries.items }
    ensures sound { KeepsSound runs.old runs.new }
    ensures entry { (d : Span)
        → IsEntryOf (slice_index_or runs.old.items number d).entries.items place result }
    ensures gone { Puts (held_in runs.old.items) (held_in runs.new.items) result.key None }
    ensures counted { length (held_in runs.new.items) + 1 ≡ length (held_in runs.old.items) }
    ensures number { length runs.new.items ≡ length runs.old.items }
{
    runs[number].entries.remove(place).entry()
}

// Sees to a run from which an entry went: if it is empty it becomes a spare one, and if it and a neighbour
// are no more than half a run they become one, so that many thin runs don't stay.
fn settle(runs: &mut Vec<Run>, spare: &mut Vec<Vec<Cell>>, number: usize)
    requires sound { AreSound runs.old spare.old }
    requires in_range { number < length runs.old.items }
    ensures sound { AreSound runs.new spare.new }
    ensures held { held_in runs.new.items ≡ held_in runs.old.items }
    ensures room { length spare.old.items ≤ length spare.new.items }
{
    if runs[number].entries.is_empty() {
        free(runs, spare, number);
        return;
    }
    if number > 0 && are_few(&runs[number - 1], &runs[number]) {
        join(runs, spare, number - 1);
        return;
    }
    if number < runs.len() - 1 && are_few(&runs[number], &runs[number + 1]) {
        join(runs, spare, number);
    }
}

// Whether the two are no more than half a run.
fn are_few(lower: &Run, higher: &Run) -> bool
    ensures { IsTrue result
        ↔ (length lower.now.entries.items + length higher.now.entries.items ≤ half) }
{
    let most = MOST / 2;
    lower.entries.len() <= most && higher.entries.len() <= most - lower.entries.len()
}

// Moves the entries of the next run into this one. The next one becomes a spare one.
fn join(runs: &mut Vec<Run>, spare: &mut Vec<Vec<Cell>>, number: usize)
    requires sound { AreSound runs.old spare.old }
    requires in_range { number + 1 < length runs.old.items }
    requires few { (d : Span) → length (slice_index_or runs.old.items number d).entries.items
        + length (slice_index_or runs.old.items (number + 1) d).entries.items ≤ half }
    ensures sound { AreSound runs.new spare.new }
    ensures held { held_in runs.new.items ≡ held_in runs.old.items }
    ensures room { length spare.new.items ≡ length spare.old.items + 1 }
{
    let higher = runs.remove(number + 1);
    let mut entries = higher.entries;
    append(&mut runs[number].entries, &mut entries);
    spare.push_reserved(entries);
}

// Moves the entries of the second behind those of the first.
fn append(entries: &mut Vec<Cell>, more: &mut Vec<Cell>)
    requires { length entries.old.items + length more.old.items ≤ vec_capacity entries.old }
    ensures items { entries.new.items ≡ entries.old.items ++ more.old.items }
    ensures empty { more.new.items ≡ [] }
    ensures capacity { vec_capacity entries.old ≤ vec_capacity entries.new }
    ensures more_capacity { vec_capacity more.new ≡ vec_capacity more.old }
{
    match entries.append(more) {
        Ok(()) => {}
        Err(_) => unreachable!(),
    }
}

// Makes an empty run a spare one.
fn free(runs: &mut Vec<Run>, spare: &mut Vec<Vec<Cell>>, number: usize)
    requires sound { AreSound runs.old spare.old }
    requires in_range { number < length runs.old.items }
    requires empty { (d : Span) → (slice_index_or runs.old.items number d).entries.items ≡ [] }
    ensures sound { AreSound runs.new spare.new }
    ensures held { held_in runs.new.items ≡ held_in runs.old.items }
    ensures room { length spare.new.items ≡ length spare.old.items + 1 }
{
    let run = runs.remove(number);
    spare.push_reserved(run.entries);
}

/// Makes one more spare run.
pub fn add_spare(
    alloc: Global,
    runs: &mut Vec<Run>,
    spare: &mut Vec<Vec<Cell>>,
) -> Result<(), AllocError>
    requires { AreSound runs.old spare.old }
    ensures sound { AreSound runs.new spare.new }
    ensures runs { runs.new.items ≡ runs.old.items }
    ensures ok { OnOk result (length spare.new.items ≡ length spare.old.items + 1) }
    ensures err { OnErr result (spare.new.items ≡ spare.old.items) }
{
    runs.reserve(spare.len() + 1)?;
    spare.reserve(runs.len() + 1)?;
    let entries = Vec::with_capacity(alloc, MOST)?;
    spare.push_reserved(entries);
    Ok(())
}
