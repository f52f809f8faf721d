//! The sessions that are watched, and those of them that have been idle for too long.
ghost use Rattle.std.specs.Prelude.{◌≡◌, ◌-◌, ◌<◌, ◌≤◌, ℕ, Some, None, IfOk, OnOk, OnErr, IsOk, IsSome, length};
ghost use Rattle.sessions.specs.Life.{IsTimeout};
ghost use Rattle.timers.specs.Due.{at, Updates, IsLatest, IsNoneOver, AreDue};
ghost use Rattle.timers.specs.Links.{IsRow};

use crate::ahead::count_joined;
use crate::cell::Cell;
use crate::links::{append, cut, grow, grow_past, renew};
use crate::walk::slots_over;
use sessions::{MOST_AHEAD, Slot};
use std::alloc::{AllocError, Global};
use std::marker::Model;

/// The last moment of a session, and how long it may be idle, in seconds.
#[derive(Clone, Copy, PartialEq, Eq, Drop)]
pub struct Idle {
    /// The second of its last packet.
    pub last: u64,
    /// 240, 300 or 7440 seconds (RFC 4787, REQ-5; RFC 5382, REQ-5).
    pub timeout: u64,
}

/// The idle times of the sessions that are watched, each under its slot.
///
/// The moments that are handed in, in seconds, never fall. `add`, for a slot below what `reserve` was
/// given, `touch`, `remove`, and `due` where all are alive take no memory.
#[derive(Drop)]
pub struct Due {
    links: Vec<Cell>,
}

impl Model for Due {
    ghost use Rattle.std.specs.Prelude.{◌-◌, length};
    ghost use Rattle.timers.specs.Due.{Watched};
    ghost use Rattle.timers.specs.Links.{idles, IsRow};

    ghost Value = { Watched };

    ghost view = { λ d. record {
      idle = idles d.links.items;
      watchable = length d.links.items - 3;
    } };

    ghost invariant = { λ d. IsRow d.links.items };
}

impl Due {
    /// No slot is watched. This takes no memory.
    pub fn new(alloc: Global) -> Due
        ensures { (slot : ℕ) → at result slot ≡ None }
    {
        Due {
            links: Vec::new(alloc),
        }
    }

    /// Makes room for each slot below `slots`. This takes time by the number of slots that are new, or, where
    /// the row moves, by the number of all.
    ///
    /// # Errors
    ///
    /// `AllocError` where a growth was refused, and never where there is that room already. The same slots
    /// are watched in any case, and no room is lost.
    #[inline(always)]
    pub fn reserve(&mut self, slots: usize) -> Result<(), AllocError>
        ensures ok { OnOk result (slots ≤ self.new.watchable) }
        ensures succeeds { slots ≤ self.old.watchable → IsOk result }
        ensures same { (slot : ℕ) → at self.new slot ≡ at self.old slot }
        ensures watchable { self.old.watchable ≤ self.new.watchable }
    {
        grow(&mut self.links, slots)
    }

    /// Watches a slot that isn't watched, with the second of its session's last packet and the seconds
    /// that it may be idle. This takes constant time for a slot for which there is room.
    ///
    /// # Errors
    ///
    /// `AllocError` where a growth was refused, and never for a slot for which there is room. The same
    /// slots are watched then, and no room is lost.
    pub fn add(&mut self, slot: Slot, last: u64, timeout: u64) -> Result<(), AllocError>
        requires free { at self.old slot ≡ None }
        requires timeout { IsTimeout timeout }
        requires latest { IsLatest self.old last }
        ensures ok { OnOk result (Updates self.old self.new slot (Some (record {
          last = last;
          timeout = timeout;
        }))) }
        ensures err { OnErr result ((other : ℕ) → at self.new other ≡ at self.old other) }
        ensures succeeds { slot < self.old.watchable → IsOk result }
        ensures watchable { self.old.watchable ≤ self.new.watchable }
    {
        grow_past(&mut self.links, slot.number())?;
        append(&mut self.links, slot, Idle { last, timeout });
        Ok(())
    }

    /// A packet of a watched slot passed at this second; its session may be idle for so many from then
    /// on. This takes constant time.
    pub fn touch(&mut self, slot: Slot, last: u64, timeout: u64)
        requires held { IsSome (at self.old slot) }
        requires timeout { IsTimeout timeout }
        requires latest { IsLatest self.old last }
        ensures updates { Updates self.old self.new slot (Some (record {
          last = last;
          timeout = timeout;
        })) }
        ensures watchable { self.new.watchable ≡ self.old.watchable }
    {
        renew(&mut self.links, slot, Idle { last, timeout });
    }

    /// Watches a watched slot no longer. This takes constant time.
    pub fn remove(&mut self, slot: Slot)
        requires { IsSome (at self.old slot) }
        ensures updates { Updates self.old self.new slot None }
        ensures watchable { self.new.watchable ≡ self.old.watchable }
    {
        cut(&mut self.links, slot);
    }

    /// How many of the slots of these numbers seem to be watched. It says nothing of what is: whoever asks for several
    /// slots at once waits once for the memory that `touch` is going to read.
    pub fn look_ahead(&self, slots: &[usize; MOST_AHEAD]) -> usize {
        count_joined(&self.links, slots)
    }

    /// The slots of the sessions that are alive no longer at this second, each once, in any order. They
    /// stay watched. This takes time by their number, and looks at one session more of each timeout.
    ///
    /// # Errors
    ///
    /// `AllocError` where a growth was refused, and never where there are none.
    pub fn due(&self, alloc: Global, now: u64) -> Result<Vec<Slot>, AllocError>
        requires { IsLatest self.now now }
        ensures due { IfOk result (λ slots. AreDue self.now now slots.items) }
        ensures succeeds { IsNoneOver self.now now → IsOk result }
    {
        slots_over(alloc, &self.links, now)
    }
}
