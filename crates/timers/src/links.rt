//! The row of links: three queues, each a ring of places from its head on and back to it.
ghost use Rattle.std.specs.Prelude.{◌≡◌, ◌+◌, ◌-◌, ◌<◌, ◌≤◌, ℕ, Some, None, OnOk, IsOk, IsSome, IsTrue, length, slice_set};
ghost use Rattle.sessions.specs.Life.{IsTimeout};
ghost use Rattle.timers.specs.Links.{head_of, timeout_in, most_places, link, next, previous, watch, last as last_at, IsPut, IsRow, IsJoined, IsWatchPut, idle_in};

use crate::Idle;
use crate::cell::Cell;
use sessions::Slot;
use std::alloc::AllocError;

/// The first places of the row are the heads of the queues; a slot's place is so many above its number.
pub const HEADS: usize = 3;

/// The queue of the sessions of one timeout.
#[derive(Clone, Copy, Drop)]
pub enum Queue {
    /// 240 seconds.
    Short,
    /// 300 seconds.
    Middle,
    /// 7440 seconds.
    Long,
}

/// What is watched of a slot, with the slot, since none can be made from its number.
#[derive(Clone, Copy, Drop)]
pub struct Watch {
    pub slot: Slot,
    pub last: u64,
    pub queue: Queue,
}

/// A place of the row: the places beside it in its queue, and what is watched there.
#[derive(Clone, Copy, Drop)]
pub struct Link {
    pub previous: usize,
    pub next: usize,
    pub watch: Option<Watch>,
}

impl Queue {
    /// The queue of this timeout.
    pub fn of(timeout: u64) -> Queue
        requires { IsTimeout timeout }
        ensures { timeout_in result ≡ timeout }
    {
        match timeout {
            240 => Queue::Short,
            300 => Queue::Middle,
            _ => Queue::Long,
        }
    }

    /// How many seconds its sessions may be idle.
    pub fn timeout(self) -> u64
        ensures { result ≡ timeout_in self }
    {
        match self {
            Queue::Short => 240,
            Queue::Middle => 300,
            Queue::Long => 7440,
        }
    }

    /// The place of its head.
    pub fn head(self) -> usize
        ensures { result ≡ head_of self }
    {
        match self {
            Queue::Short => 0,
            Queue::Middle => 1,
            Queue::Long => 2,
        }
    }
}

/// Makes the row long enough for each slot below this number, and no longer than that, with nothing watched
/// in the new places.
#[inline(always)]
pub fn grow(links: &mut Vec<Cell>, slots: usize) -> Result<(), AllocError>
    ensures ok { OnOk result (slots ≤ length links.new.items - 3) }
    ensures same { (k : ℕ) → link links.new.items k ≡ link links.old.items k }
    ensures longer { length links.old.items ≤ length links.new.items }
    ensures few { length links.old.items ≤ most_places → length links.new.items ≤ most_places }
    ensures succeeds { slots ≤ length links.old.items - 3 → IsOk result }
{
    if slots <= links.len().saturating_sub(HEADS) {
        return Ok(());
    }
    grow_to(links, slots)
}

// Makes the row longer, so that there is a place for each slot below this number.
#[inline(never)]
fn grow_to(links: &mut Vec<Cell>, slots: usize) -> Result<(), AllocError>
    requires { length links.old.items - 3 < slots }
    ensures ok { OnOk result (slots ≤ length links.new.items - 3) }
    ensures same { (k : ℕ) → link links.new.items k ≡ link links.old.items k }
    ensures longer { length links.old.items ≤ length links.new.items }
    ensures few { length links.old.items ≤ most_places → length links.new.items ≤ most_places }
{
    let places = slots.checked_add(HEADS).ok_or(AllocError)?;
    links.reserve_exact(places - links.len())?;
    grow_past(links, slots - 1)
}

/// Makes the row long enough for a slot of this number, with nothing watched in the new places.
pub fn grow_past(links: &mut Vec<Cell>, number: usize) -> Result<(), AllocError>
    ensures ok { OnOk result (number + 3 < length links.new.items) }
    ensures same { (k : ℕ) → link links.new.items k ≡ link links.old.items k }
    ensures longer { length links.old.items ≤ length links.new.items }
    ensures few { length links.old.items ≤ most_places → length links.new.items ≤ most_places }
    ensures succeeds { number + 3 < length links.old.items → IsOk result }
{
    while links.len().saturating_sub(HEADS) <= number {
        let place = links.len();
        let Ok(place) = u32::try_from(place) else {
            return Err(AllocError);
        };
        links.push(Cell::alone(place))?;
    }
    Ok(())
}

/// Takes a watched slot out of its queue, in constant time.
pub fn cut(links: &mut Vec<Cell>, slot: Slot)
    requires row { IsRow links.old.items }
    requires held { IsSome (watch links.old.items (slot + 3)) }
    ensures row { IsRow links.new.items }
    ensures watch { IsPut (watch links.old.items) (watch links.new.items) (slot + 3) None }
    ensures length { length links.new.items ≡ length links.old.items }
{
    let place = slot.number() + HEADS;
    let before = previous(links, place);
    let behind = next(links, place);
    take_out(links, place, before, behind);
}

/// Puts a slot that isn't watched at the end of the queue of its timeout, in constant time.
pub fn append(links: &mut Vec<Cell>, slot: Slot, idle: Idle)
    requires row { IsRow links.old.items }
    requires inside { slot + 3 < length links.old.items }
    requires free { watch links.old.items (slot + 3) ≡ None }
    requires timeout { IsTimeout idle.timeout }
    requires latest { (k : ℕ) → last_at links.old.items k ≤ idle.last }
    ensures row { IsRow links.new.items }
    ensures idle { IsPut (idle_in links.old.items) (idle_in links.new.items) slot (Some idle) }
    ensures length { length links.new.items ≡ length links.old.items }
{
    let queue = Queue::of(idle.timeout);
    let place = slot.number() + HEADS;
    let end = previous(links, queue.head());
    let last = idle.last;
    put_at_end(links, place, end, Watch { slot, last, queue });
}

/// Moves a watched slot to the end of the queue of its timeout from now on, in constant time. Where it has this
/// moment and timeout already it stays where it is, since no moment is later.
pub fn renew(links: &mut Vec<Cell>, slot: Slot, idle: Idle)
    requires row { IsRow links.old.items }
    requires held { IsSome (watch links.old.items (slot + 3)) }
    requires timeout { IsTimeout idle.timeout }
    requires latest { (k : ℕ) → last_at links.old.items k ≤ idle.last }
    ensures row { IsRow links.new.items }
    ensures idle { IsPut (idle_in links.old.items) (idle_in links.new.items) slot (Some idle) }
    ensures length { length links.new.items ≡ length links.old.items }
{
    if stands(links, slot, idle) {
        return;
    }
    let queue = Queue::of(idle.timeout);
    let place = slot.number() + HEADS;
    let last = idle.last;
    if next(links, place) == queue.head() {
        stay_last(links, place, Watch { slot, last, queue });
        return;
    }
    cut(links, slot);
    append(links, slot, idle);
}

// Whether the slot is watched with this moment and timeout already.
fn stands(links: &[Cell], slot: Slot, idle: Idle) -> bool
    requires { slot + 3 < length links.now }
    ensures { IsTrue result → idle_in links.now slot ≡ Some idle }
{
    match links[slot.number() + HEADS].watch() {
        Some(watch) => watch.last == idle.last && watch.queue.timeout() == idle.timeout,
        None => false,
    }
}

// Gives the last place of a queue another moment. It stays where it is.
fn stay_last(links: &mut Vec<Cell>, place: usize, renewed: Watch)
    requires row { IsRow links.old.items }
    requires held { IsSome (watch links.old.items place) }
    requires last { next links.old.items place ≡ head_of renewed.queue }
    requires place { renewed.slot + 3 ≡ place }
    requires latest { (k : ℕ) → last_at links.old.items k ≤ renewed.last }
    ensures row { IsRow links.new.items }
    ensures watch { IsPut (watch links.old.items) (watch links.new.items) place (Some renewed) }
    ensures length { length links.new.items ≡ length links.old.items }
{
    set_watch(links, place, Some(renewed));
}

// Takes a watched place out from between the two beside it.
fn take_out(links: &mut Vec<Cell>, place: usize, before: usize, behind: usize)
    requires row { IsRow links.old.items }
    requires held { IsSome (watch links.old.items place) }
    requires before { before ≡ previous links.old.items place }
    requires behind { behind ≡ next links.old.items place }
    ensures row { IsRow links.new.items }
    ensures watch { IsPut (watch links.old.items) (watch links.new.items) place None }
    ensures length { length links.new.items ≡ length links.old.items }
{
    join(links, before, behind);
    set_watch(links, place, None);
}

// Puts a slot between the end of its queue and the head.
fn put_at_end(links: &mut Vec<Cell>, place: usize, end: usize, added: Watch)
    requires row { IsRow links.old.items }
    requires inside { place < length links.old.items }
    requires place { added.slot + 3 ≡ place }
    requires end { end ≡ previous links.old.items (head_of added.queue) }
    requires free { watch links.old.items place ≡ None }
    requires latest { (k : ℕ) → last_at links.old.items k ≤ added.last }
    ensures row { IsRow links.new.items }
    ensures watch { IsPut (watch links.old.items) (watch links.new.items) place (Some added) }
    ensures length { length links.new.items ≡ length links.old.items }
{
    let head = added.queue.head();
    join(links, end, place);
    join(links, place, head);
    set_watch(links, place, Some(added));
}

// Lets the first place lead to the second, and the second back.
fn join(links: &mut Vec<Cell>, a: usize, b: usize)
    requires few { length links.old.items ≤ most_places }
    requires a { a < length links.old.items }
    requires b { b < length links.old.items }
    ensures { IsJoined links.old.items links.new.items a b }
{
    set_next(links, a, b);
    set_previous(links, b, a);
}

fn set_next(links: &mut Vec<Cell>, place: usize, to: usize)
    requires inside { place < length links.old.items }
    requires to { to < most_places }
    ensures { links.new.items ≡ slice_set links.old.items place
        (record (link links.old.items place) { next = to }) }
{
    links[place].set_next(to);
}

fn set_previous(links: &mut Vec<Cell>, place: usize, to: usize)
    requires inside { place < length links.old.items }
    requires to { to < most_places }
    ensures { links.new.items ≡ slice_set links.old.items place
        (record (link links.old.items place) { previous = to }) }
{
    links[place].set_previous(to);
}

fn set_watch(links: &mut Vec<Cell>, place: usize, watch: Option<Watch>)
    requires { place < length links.old.items }
    ensures { IsWatchPut links.old.items links.new.items place watch }
{
    links[place].set_watch(watch);
}

/// The place behind this one.
pub fn next(links: &[Cell], place: usize) -> usize
    ensures { result ≡ next links.now place }
{
    if place < links.len() {
        links[place].next()
    } else {
        place
    }
}

// The place before this one.
fn previous(links: &[Cell], place: usize) -> usize
    ensures { result ≡ previous links.now place }
{
    if place < links.len() {
        links[place].previous()
    } else {
        place
    }
}
