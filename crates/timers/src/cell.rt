//! A link as the row keeps it.
ghost use Rattle.std.specs.Prelude.{◌≡◌, ◌^◌, ◌<◌};
ghost use Rattle.timers.specs.KeptWatch.{watch_of};
ghost use Rattle.timers.specs.Links.{alone};

use crate::links::{Queue, Watch};
use sessions::Slot;
use std::marker::Model;

/// A link in 32 bytes: places are numbers of 32 bits, and which queue stands with whether anything is watched.
#[derive(Drop)]
pub struct Cell {
    previous: u32,
    next: u32,
    kept: KeptWatch,
}

/// What is watched at a place, by its queue: the slot, and the second of the last packet.
#[derive(Clone, Copy, Drop)]
pub enum KeptWatch {
    Nothing,
    Short(Slot, u64),
    Middle(Slot, u64),
    Long(Slot, u64),
}

const _: () = prove!(size_of::<Cell>() == 32);

impl Model for Cell {
    ghost use Rattle.timers.specs.declared.links.Link.{Link as Linked};

    ghost Value = { Linked };

    ghost use Rattle.timers.specs.KeptWatch.{watch_of};

    ghost view = { λ c. record { previous = c.previous; next = c.next; watch = watch_of c.kept } };
}

impl Cell {
    /// A place with nothing watched, in no queue.
    pub fn alone(place: u32) -> Cell
        ensures { result ≡ alone place }
    {
        Cell {
            previous: place,
            next: place,
            kept: KeptWatch::Nothing,
        }
    }

    pub fn previous(&self) -> usize
        ensures { result ≡ self.now.previous }
    {
        self.previous as usize
    }

    pub fn next(&self) -> usize
        ensures { result ≡ self.now.next }
    {
        self.next as usize
    }

    pub fn watch(&self) -> Option<Watch>
        ensures { result ≡ self.now.watch }
    {
        watch_of(self.kept)
    }

    pub fn set_previous(&mut self, place: usize)
        requires { place < 2 ^ 32 }
        ensures { self.new ≡ record self.old { previous = place } }
    {
        self.previous = place as u32;
    }

    pub fn set_next(&mut self, place: usize)
        requires { place < 2 ^ 32 }
        ensures { self.new ≡ record self.old { next = place } }
    {
        self.next = place as u32;
    }

    pub fn set_watch(&mut self, watch: Option<Watch>)
        ensures { self.new ≡ record self.old { watch = watch } }
    {
        self.kept = packed(watch);
    }
}

fn watch_of(kept: KeptWatch) -> Option<Watch>
    ensures { result ≡ watch_of kept }
{
    let (slot, last, queue) = match kept {
        KeptWatch::Nothing => return None,
        KeptWatch::Short(slot, last) => (slot, last, Queue::Short),
        KeptWatch::Middle(slot, last) => (slot, last, Queue::Middle),
        KeptWatch::Long(slot, last) => (slot, last, Queue::Long),
    };
    Some(Watch { slot, last, queue })
}

fn packed(watch: Option<Watch>) -> KeptWatch
    ensures { watch_of result ≡ watch }
{
    let Some(Watch { slot, last, queue }) = watch else {
        return KeptWatch::Nothing;
    };
    match queue {
        Queue::Short => KeptWatch::Short(slot, last),
        Queue::Middle => KeptWatch::Middle(slot, last),
        Queue::Long => KeptWatch::Long(slot, last),
    }
}
