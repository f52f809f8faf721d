//! The answers that are held, and the entries of their events.
//!
//! A step of the core asks for room (`reserve`) and then notes its entries (`note`), which `put` makes into the bytes
//! of a group. An answer is held (`hold`) in a slot that stands ready since `reserve`, with a copy of its packet. A sync
//! writes the `group` and lets all of it go (`release`): a flush takes the answers out of their slots (`move_out`), and
//! after a settlement the slots hold others.
ghost use Rattle.std.specs.Prelude.{◌≡◌, ◌≢◌, ◌↔◌, ◌+◌, ◌*◌, ◌<◌, ◌≤◌, ◌^◌, ◌++◌, ◌∷◌, [], length, take, drop, IfOk, IfSome, IfNone, OnOk, IsTrue, true, vec_capacity};
ghost use Rattle.durable.specs.Coding.{IsEntry, AreEntries, entry_bytes, body_bytes};
ghost use Rattle.durable.specs.Viewing.{view};
ghost use Rattle.machine.specs.Fates.{answer_of};

use crate::slot::AnswerSlot;
use durable::{END_LEN, Entry, begin_code, end_code, load_front, restart_code, seen_code};
use journal::{Group, LONGEST_FILE};
use machine::{Answer, Fate, Notes, StepFault};
use std::alloc::{AllocError, Global};
use std::marker::Model;

/// The most answers that a gateway holds.
pub const MOST_HELD: usize = 64;

/// The bytes around the entries of a group: its gate and its length before them, and a closed gate behind.
const AROUND: u64 = 6;

/// The answers that are held, and a group with the entries of their events, which will stand at a place of a file.
#[derive(Drop)]
pub(crate) struct Pending {
    alloc: Global,
    /// The first of these hold the answers, and the others wait for more.
    slots: Vec<AnswerSlot>,
    /// How many of the slots hold an answer.
    used: usize,
    /// No answer, but room for all that are handed out.
    handed: Vec<(u64, Answer)>,
    group: Group,
    /// The place of the closed gate behind the groups of the active file, over which the group's own gate will stand.
    place: u64,
    /// How many more bytes of entries find room.
    room: u64,
}

impl Model for Pending {
    ghost use Rattle.std.specs.Prelude.{take, vec_capacity};
    ghost use Rattle.gateway.specs.HeldAnswers.{HasGroup, HasSlots, HeldAnswers, entries_in};

    ghost Value = { HeldAnswers };

    ghost view = { λ p. record {
      held = take p.used p.slots.items;
      entries = entries_in p.group.body;
      place = p.place;
      room = p.room;
    } };

    ghost invariant = { λ p. HasGroup p.group.body p.group.room p.place p.room
        × HasSlots p.group.body p.room p.slots.items p.used p.handed.items
        (vec_capacity p.handed) };
}

impl Pending {
    /// Nothing is held, and the next group will stand at the place.
    ///
    /// # Errors
    ///
    /// `AllocError` where memory is refused.
    pub(crate) fn new(alloc: Global, place: u64) -> Result<Pending, AllocError>
        ensures { IfOk result (λ p. p ≡ record {
          held = [];
          entries = [];
          place = place;
          room = 0;
        }) }
    {
        let group = Group::new(alloc)?;
        Ok(Pending {
            alloc,
            slots: Vec::new(alloc),
            used: 0,
            handed: Vec::new(alloc),
            group,
            place,
            room: 0,
        })
    }

    /// How many answers are held.
    pub(crate) fn len(&self) -> usize
        ensures value { result ≡ length self.now.held }
        ensures few { result ≤ 64 }
        ensures fits { self.now.held ≢ []
            → self.now.place + length (body_bytes self.now.entries) + 6 ≤ 67108864 }
    {
        self.used
    }

    /// Whether no entry waits. Then no answer is held; and between a gateway's calls none waits where none is held.
    pub(crate) fn is_quiet(&self) -> bool
        ensures value { IsTrue result ↔ (self.now.entries ≡ []) }
        ensures none { IsTrue result → self.now.held ≡ [] }
    {
        self.group.is_empty()
    }

    /// The entries as a group, which fits its file.
    pub(crate) fn group(&self) -> &Group
        ensures body { result.now.body ≡ body_bytes self.now.entries }
        ensures coded { AreEntries self.now.entries }
        ensures fits { self.now.entries ≢ []
            → self.now.place + length result.now.body + 6 ≤ 67108864 }
    {
        &self.group
    }

    /// Holds an answer behind the others, with a copy of its packet. Some entry waits, so there is a slot for it.
    #[inline(never)]
    pub(crate) fn hold(&mut self, number: u64, fate: Fate, packet: &[u8])
        requires some { self.old.entries ≢ [] }
        requires few { length self.old.held < 64 }
        requires short { length packet.now ≤ 65535 }
        ensures held { self.new.held ≡ self.old.held ++ (number, answer_of fate packet.now) ∷ [] }
        ensures entries { self.new.entries ≡ self.old.entries }
        ensures place { self.new.place ≡ self.old.place }
    {
        self.slots[self.used].put(number, fate, packet);
        self.used += 1;
    }

    /// Lets the entries go, and gives the answers, if they are wanted; else these are let go, and their slots hold
    /// others. The next group will stand at the place. It takes no memory.
    pub(crate) fn release(&mut self, place: u64, wanted: bool) -> Vec<(u64, Answer)>
        ensures answers { wanted ≡ true → result.items ≡ self.old.held }
        ensures none { self.new ≡ record { held = []; entries = []; place = place; room = 0 } }
    {
        self.room = 0;
        self.place = place;
        self.group.clear();
        let used = std::mem::replace(&mut self.used, 0);
        if !wanted {
            return Vec::new(self.alloc);
        }
        move_out(&mut self.slots, used, &mut self.handed);
        std::mem::replace(&mut self.handed, Vec::new(self.alloc))
    }
}

impl Notes for Pending {
    ghost use Rattle.std.specs.Prelude.{◌<◌, ◌+◌, length};
    ghost use Rattle.durable.specs.Coding.{body_bytes};

    ghost keeps = { λ _. Unit {0} };

    ghost noted = { λ p. p.entries };

    ghost beside = { λ p. record { place = p.place; held = p.held } };

    ghost room = { λ p. p.room };

    ghost grants = { λ _. ⊥ };

    ghost too_many = { λ p bytes. 67108864 < p.place + length (body_bytes p.entries) + bytes + 6 };

    #[inline(always)]
    fn reserve(&mut self, ends: usize, others: u64) -> Result<(), StepFault> {
        let Some(bytes) = room_for(self.place, self.group.len() as u64, ends as u64, others) else {
            return Err(StepFault::Full);
        };
        if make_places(&mut self.handed).is_err()
            || make_slots(self.alloc, &mut self.slots).is_err()
            || self.group.reserve(bytes as usize).is_err()
        {
            return Err(StepFault::NoMemory);
        }
        self.room = bytes;
        Ok(())
    }

    // Compiled into its callers, which know the kind of the entry, or that it is one of a few.
    #[inline(always)]
    fn note(&mut self, item: Entry<'_>) {
        let before = self.group.len();
        put(&mut self.group, item);
        self.room -= (self.group.len() - before) as u64;
    }
}

// How many bytes the entries take, 14 for each session that ends and those of the others, if they fit the file
// behind those that wait: it takes `LONGEST_FILE` bytes, 67,108,864, at most.
fn room_for(place: u64, waiting: u64, ends: u64, others: u64) -> Option<u64>
    ensures some { IfSome result (λ bytes. (bytes ≡ 14 * ends + others)
        × (place + waiting + bytes + 6 ≤ 67108864)) }
    ensures none { IfNone result (67108864 < place + waiting + (14 * ends + others) + 6) }
{
    if place > LONGEST_FILE
        || waiting > LONGEST_FILE
        || ends > LONGEST_FILE
        || others > LONGEST_FILE
    {
        return None;
    }
    let bytes = END_LEN as u64 * ends + others;
    if place + waiting + bytes + AROUND > LONGEST_FILE {
        return None;
    }
    Some(bytes)
}

// Makes room for all answers that may be handed out.
fn make_places(handed: &mut Vec<(u64, Answer)>) -> Result<(), AllocError>
    ensures items { handed.new.items ≡ handed.old.items }
    ensures ok { OnOk result (64 ≤ vec_capacity handed.new) }
    ensures capacity { vec_capacity handed.old ≤ vec_capacity handed.new }
{
    if handed.capacity() >= MOST_HELD {
        return Ok(());
    }
    handed.reserve(MOST_HELD)
}

// Makes slots for all answers that may be held, behind those that there are.
#[inline(always)]
fn make_slots(alloc: Global, slots: &mut Vec<AnswerSlot>) -> Result<(), AllocError>
    requires { length slots.old.items ≤ 64 }
    ensures ok { OnOk result (length slots.new.items ≡ 64) }
    ensures kept { take (length slots.old.items) slots.new.items ≡ slots.old.items }
    ensures most { length slots.new.items ≤ 64 }
{
    if slots.len() >= MOST_HELD {
        return Ok(());
    }
    make_more_slots(alloc, slots)
}

// As `make_slots`, where there are too few.
#[inline(never)]
fn make_more_slots(alloc: Global, slots: &mut Vec<AnswerSlot>) -> Result<(), AllocError>
    requires { length slots.old.items ≤ 64 }
    ensures ok { OnOk result (length slots.new.items ≡ 64) }
    ensures kept { take (length slots.old.items) slots.new.items ≡ slots.old.items }
    ensures most { length slots.new.items ≤ 64 }
{
    for _ in slots.len()..MOST_HELD {
        let slot = AnswerSlot::new(alloc)?;
        if slots.push(slot).is_err() {
            return Err(AllocError);
        }
    }
    Ok(())
}

// Takes the answers out of the slots that are used, for which there is room.
fn move_out(slots: &mut Vec<AnswerSlot>, used: usize, handed: &mut Vec<(u64, Answer)>)
    requires within { used ≤ length slots.old.items }
    requires none { handed.old.items ≡ [] }
    requires room { used ≤ vec_capacity handed.old }
    ensures handed { handed.new.items ≡ take used slots.old.items }
    ensures slots { slots.new.items ≡ drop used slots.old.items }
{
    for _ in 0..used {
        let _ = handed.push(slots.remove(0).into_answer());
    }
}

// Puts the bytes of an entry behind the others, for which there is room.
#[inline(always)]
fn put(group: &mut Group, item: Entry<'_>)
    requires coded { IsEntry (view item) }
    requires room { length (entry_bytes (view item)) ≤ group.old.room }
    requires fits { length group.old.body + length (entry_bytes (view item)) < 2 ^ 32 }
    ensures body { group.new.body ≡ group.old.body ++ entry_bytes (view item.entry) }
    ensures room { group.old.room ≤ group.new.room + length (entry_bytes (view item.entry)) }
{
    match item {
        Entry::Load(text) => {
            group.put(&load_front(text));
            group.put(text);
        }
        Entry::Begin(session) => group.put(&begin_code(&session)),
        Entry::Seen(flow, seen) => group.put(&seen_code(&flow, seen)),
        Entry::Restart(flow, opener, seen) => group.put(&restart_code(&flow, opener, seen)),
        Entry::End(flow) => group.put(&end_code(&flow)),
    }
}
