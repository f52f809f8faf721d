//! What turns go by.
ghost use Rattle.std.specs.Option.{ForSome};
ghost use Rattle.std.specs.Prelude.{◌≡◌, ◌≤◌, ◌∷◌, [], List, Option, None, IfNone, IfSome, length};
ghost use Rattle.devices.specs.Handing.{Waits};
ghost use Rattle.carrying.specs.Asking.{Asked, AsksFor, IsOver, asked_by};

use crate::between::Between;
use crate::drops::Dropped;
use devices::Device;
use to_devices::Counts;

/// What a turn begins with.
#[derive(Drop)]
pub struct Beat {
    /// The moment, in seconds.
    pub moment: u64,
    /// The text of a ruleset that is to be loaded, of at most 262,144 bytes.
    pub text: Option<Vec<u8>>,
    ghost short: { ForSome text (λ bytes. length bytes.items ≤ 262144) },
}

/// Waits for the devices, and asks for turns, each when it is to be. How long it waits, and what it does meanwhile, is
/// its own part: it takes no packet from a device, and hands none to it.
pub trait Pace<L: Device, W: Device> {
    /// The turns that it asks for from here on, where that is known.
    ghost asks: { Self → Option (List Asked) } = { λ _. None };

    /// Waits, and asks for the next turn; `None` ends the run. It is told how many packets there were, and of those of
    /// the turn before that were dropped.
    fn next(
        &mut self,
        devices: &mut Between<L, W>,
        counts: &Counts,
        dropped: &[Dropped],
    ) -> Option<Beat>
        ensures asked { IfSome result (λ beat. AsksFor (asks self.old) (asks self.new)
            (asked_by beat.moment beat.text ∷ [])) }
        ensures over { IfNone result (IsOver (asks self.old) × (asks self.new ≡ asks self.old)) }
        ensures from_lan { L.coming devices.new.lan ≡ L.coming devices.old.lan }
        ensures from_wan { W.coming devices.new.wan ≡ W.coming devices.old.wan }
        ensures to_lan { L.handed devices.new.lan ≡ L.handed devices.old.lan }
        ensures to_wan { W.handed devices.new.wan ≡ W.handed devices.old.wan }
        ensures lan_waits { Waits 1 (L.waited devices.old.lan) (L.waited devices.new.lan) }
        ensures wan_waits { Waits 1 (W.waited devices.old.wan) (W.waited devices.new.wan) };
}
