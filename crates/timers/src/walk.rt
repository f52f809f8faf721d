//! The walk through a queue from its front on, as far as its sessions are alive no longer.
ghost use Rattle.std.specs.Prelude.{◌≡◌, ◌↔◌, ◌+◌, ◌-◌, ◌<◌, ℕ, IfOk, OnOk, IsOk, IsSomeAnd, IfSome, IfNone, IsTrue};
ghost use Rattle.timers.specs.Due.{IsOver};
ghost use Rattle.timers.specs.Links.{head_of, next, watch, IsRow, idle_by, IsOverAt, IsFound};

use crate::cell::Cell;
use crate::links::{Queue, Watch, next};
use sessions::Slot;
use std::alloc::{AllocError, Global};

/// The slots of the sessions that are alive no longer, each once. It looks at one more of each queue.
pub fn slots_over(alloc: Global, links: &[Cell], now: u64) -> Result<Vec<Slot>, AllocError>
    requires { IsRow links.now }
    ensures due { IfOk result (λ slots. IsFound links.now now 3 slots.items) }
    ensures succeeds { ((k : ℕ) → ¬ IsOverAt links.now now k) → IsOk result }
{
    let mut slots = Vec::new(alloc);
    push_over(&mut slots, links, Queue::Short, now)?;
    push_over(&mut slots, links, Queue::Middle, now)?;
    push_over(&mut slots, links, Queue::Long, now)?;
    Ok(slots)
}

// Adds the slots of the queue whose sessions are alive no longer. It looks at one place more than it adds.
fn push_over(
    slots: &mut Vec<Slot>,
    links: &[Cell],
    queue: Queue,
    now: u64,
) -> Result<(), AllocError>
    requires row { IsRow links.now }
    requires found { IsFound links.now now (head_of queue) slots.old.items }
    ensures ok { OnOk result (IsFound links.now now (head_of queue + 1) slots.new.items) }
    ensures succeeds { ((k : ℕ) → ¬ IsOverAt links.now now k) → IsOk result }
{
    let mut place = next(links, queue.head());
    while let Some(slot) = slot_over(links, place, now) {
        slots.push(slot)?;
        place = next(links, place);
    }
    Ok(())
}

// The slot of the place, where its session is alive no longer.
fn slot_over(links: &[Cell], place: usize, now: u64) -> Option<Slot>
    ensures over { IfSome result (λ slot. IsSomeAnd (watch links.now place) (λ w. (w.slot ≡ slot)
        × IsOver now (idle_by w))) }
    ensures alive { IfNone result (¬ IsOverAt links.now now place) }
{
    if place >= links.len() {
        return None;
    }
    watch_over(&links[place].watch(), now)
}

fn watch_over(watch: &Option<Watch>, now: u64) -> Option<Slot>
    ensures over { IfSome result (λ slot. IsSomeAnd watch.now (λ w. (w.slot ≡ slot)
        × IsOver now (idle_by w))) }
    ensures alive { IfNone result (¬ IsSomeAnd watch.now (λ w. IsOver now (idle_by w))) }
{
    match watch {
        Some(watch) if is_over(watch, now) => Some(watch.slot),
        _ => None,
    }
}

fn is_over(watch: &Watch, now: u64) -> bool
    ensures { IsTrue result ↔ IsOver now (idle_by watch.now) }
{
    watch.queue.timeout() <= now.saturating_sub(watch.last)
}
