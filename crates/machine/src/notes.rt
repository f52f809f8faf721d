//! Where a step notes what it changes of what must survive.
ghost use Rattle.std.specs.Prelude.{◌≡◌, ◌↔◌, ◌+◌, ◌*◌, ◌≤◌, ◌++◌, ◌∷◌, [], ℕ, List, length, OnOk, IsOk, IsErrOf};
ghost use Rattle.durable.specs.Coding.{Entry as Recorded, IsEntry, entry_bytes};
ghost use Rattle.durable.specs.Viewing.{view};
ghost use Rattle.machine.specs.Besides.{Besides};
ghost use Rattle.machine.specs.declared.fault.StepFault.{StepFault};

use crate::fault::StepFault;
use durable::Entry;

/// How many bytes the entries of a packet have at most: a hairpin may begin two sessions, of 22 bytes each.
pub(crate) const MOST_OF_PACKET: u64 = 44;

/// Takes the entries of events, for which it makes room beforehand.
///
/// What is said of the entries is said of notes that keep them; others let them go.
pub trait Notes {
    /// They keep what is noted.
    ghost keeps: { Self → Type 0 };

    /// The entries that were noted, in order.
    ghost noted: { Self → List Recorded };

    /// What they have beside the entries. It stays.
    ghost beside: { Self → Besides };

    /// How many more bytes of entries find room.
    ghost room: { Self → ℕ };

    /// There will be room for anything. Only `Unkept` says so, for `Core::step`, which keeps nothing.
    ghost grants: { Self → Type 0 };

    /// So many bytes more would not fit, however much memory there is.
    ghost too_many: { Self → ℕ → Type 0 };

    /// Makes room for the entries of so many sessions that end, 14 bytes each, and for so many bytes of others.
    ///
    /// # Errors
    ///
    /// `Full` only where these don't fit, and `NoMemory` only where they do, and memory is refused. What is noted
    /// stays.
    fn reserve(&mut self, ends: usize, others: u64) -> Result<(), StepFault>
        ensures keeps { keeps self.old ↔ keeps self.new }
        ensures beside { beside self.new ≡ beside self.old }
        ensures ok { keeps self.old → OnOk result (14 * ends + others ≤ room self.new) }
        ensures noted { noted self.new ≡ noted self.old }
        ensures full { IsErrOf result StepFault.Full → too_many self.old (14 * ends + others) }
        ensures no_memory { IsErrOf result StepFault.NoMemory
            → ¬ too_many self.old (14 * ends + others) }
        ensures succeeds { grants self.old → IsOk result };

    /// Notes an entry, which has a code, and for which there is room. This takes no memory.
    fn note(&mut self, item: Entry<'_>)
        requires coded { keeps self.old → IsEntry (view item) }
        requires room { keeps self.old → length (entry_bytes (view item)) ≤ room self.old }
        ensures keeps { keeps self.old ↔ keeps self.new }
        ensures beside { beside self.new ≡ beside self.old }
        ensures noted { keeps self.old → noted self.new ≡ noted self.old ++ view item.entry ∷ [] }
        ensures room { keeps self.old
            → room self.old ≤ room self.new + length (entry_bytes (view item.entry)) };
}

/// Notes that let every entry go.
#[derive(Drop)]
pub struct Unkept;

impl Notes for Unkept {
    ghost use Rattle.std.specs.Prelude.{[]};

    ghost keeps = { λ _. ⊥ };

    ghost noted = { λ _. [] };

    ghost beside = { λ _. record { place = 0; held = [] } };

    ghost room = { λ _. 0 };

    ghost grants = { λ _. Unit {0} };

    ghost too_many = { λ _ _. ⊥ };

    fn reserve(&mut self, ends: usize, others: u64) -> Result<(), StepFault> {
        Ok(())
    }

    fn note(&mut self, item: Entry<'_>) {}
}
