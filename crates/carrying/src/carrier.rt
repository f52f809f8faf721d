//! A turn: what the devices give is answered, and what leaves is handed to them.
ghost use Rattle.std.specs.Prelude.{◌≡◌, ◌≢◌, ◌-◌, ◌≤◌, ◌<◌, ◌^◌, ◌++◌, ℕ, List, [], None, Some, IfOk, IfErr, IfNone, IfSome, MatchOption, OnOk, false, length};
ghost use Rattle.devices.specs.Handing.{GaveAll};
ghost use Rattle.from_devices.specs.Requests.{begun, with_load};
ghost use Rattle.machine.specs.Machine.{later};
ghost use Rattle.socket_edge.specs.Running.{Answered, EndsBy, Explains, Fares, events_in};
ghost use Rattle.to_devices.specs.Counting.{no_counts};
ghost use Rattle.carrying.specs.Asking.{text_of};
ghost use Rattle.carrying.specs.Carried.{IsOfTurn, Turned};
ghost use Rattle.carrying.specs.Counted.{before_wan, CountsIfOk, CountsTurns};
ghost use Rattle.carrying.specs.Runs.{EachHandsOn, EachTakesAll, Ran, Stood};
ghost use Rattle.carrying.specs.Turns.{Gave, TakesAll, Turn, events_of, gathered, headers_of};

use crate::at_hand::AtHand;
use crate::between::Between;
use crate::drops::{Dropped, Drops};
use crate::pace::{Beat, Pace};
use devices::Device;
use disk_model::Disk;
use from_devices::FromDevices;
use gateway::running::stands;
use gateway::{Gateway, GatewayFault};
use machine::laws::events_are_judged_once;
use packet::Iface;
use socket_edge::EdgeFault;
use std::alloc::{AllocError, Global};
use std::marker::Model;
use to_devices::{Counts, ToDevices};

/// The requests of a turn may have so many bytes once the packets of lan are taken: 64 packets of a link without
/// offloads, or two of the largest. So what was read is still in the processor's cache when it is written.
const MOST_OF_LAN: usize = 163_840;

/// They may have so many bytes in all.
const MOST_OF_ALL: usize = 262_144;

/// What carries packets: the requests of a turn, and their answers. Contracts see its latest moment, in seconds, and
/// how many packets there were.
#[derive(Drop)]
pub struct Carrier {
    alloc: Global,
    from: FromDevices,
    to: ToDevices,
    counts: Counts,
    drops: Drops,
}

impl Model for Carrier {
    ghost use Rattle.carrying.specs.Counted.{Carrying};

    ghost Value = { Carrying };

    ghost view = { λ c. record { told = c.from.told; counts = c.counts } };
}

// Begins a turn at a moment, in seconds, and loads a text, if there is one.
fn open_turn(from: &mut FromDevices, moment: u64, text: Option<&[u8]>)
    requires { IfSome text (λ bytes. length bytes.now ≤ 262144) }
    ensures load { IfSome text.entry (λ bytes. from.new ≡ with_load bytes.now (begun moment from.old)) }
    ensures none { IfNone text.entry (from.new ≡ begun moment from.old) }
    ensures few { length from.new.headers ≤ 2 }
{
    from.begin(moment);
    if let Some(text) = text {
        from.load(text);
    }
}

// Gathers the requests of a turn, and says how many there are before those of wan.
fn gather<L: Device, W: Device>(
    from: &mut FromDevices,
    moment: u64,
    text: Option<&[u8]>,
    devices: &mut Between<L, W>,
) -> usize
    requires { IfSome text (λ bytes. length bytes.now ≤ 262144) }
    ensures gave { (turn : Turn) × (turn.moment ≡ moment)
        × MatchOption text.entry (turn.text ≡ None) (λ bytes. turn.text ≡ Some bytes.now)
        × Gave turn (L.coming devices.old.lan) (L.coming devices.new.lan)
        (W.coming devices.old.wan) (W.coming devices.new.wan)
        × (from.new ≡ gathered turn from.old)
        × TakesAll from.old.told turn
        (GaveAll L.coming L.waited L.has_none devices.old.lan 0 turn.lan)
        (GaveAll W.coming W.waited W.has_none devices.old.wan 0 turn.wan)
        × (result ≡ before_wan from.old.told turn) }
    ensures fits { later from.old.told moment < 2 ^ 64 }
    ensures to_lan { L.handed devices.new.lan ≡ L.handed devices.old.lan }
    ensures to_wan { W.handed devices.new.wan ≡ W.handed devices.old.wan }
    ensures lan_waited { L.waited devices.new.lan ≡ L.waited devices.old.lan }
    ensures wan_waited { W.waited devices.new.wan ≡ W.waited devices.old.wan }
{
    open_turn(from, moment, text);
    let _ = from.moment();
    from.take(Iface::Lan, &mut devices.lan, MOST_OF_LAN);
    let before = from.headers().len();
    from.take(Iface::Wan, &mut devices.wan, MOST_OF_ALL);
    before
}

// Has a gateway answer requests.
fn answer<D: Disk + Drop>(
    alloc: Global,
    requests: &[u8],
    to: &mut ToDevices,
    gateway: &mut Gateway<D>,
) -> Result<(), EdgeFault>
    requires none { to.old ≡ [] }
    ensures ran { (given rest : List ℕ) × (requests.now ≡ given ++ rest)
        × Fares D.honest D.moment D.left gateway.old gateway.new (events_in given) to.new
        × OnOk result ((rest ≡ []) × Answered gateway.old.told gateway.new.told given to.new) }
    ensures why { gateway.old.fallen ≡ false
        → IfErr result (λ e. Explains D.honest D.moment D.left D.failed e gateway.old gateway.new) }
    ensures ended { IfErr result (λ e. (given rest : List ℕ) × (requests.now ≡ given ++ rest)
        × EndsBy e gateway.old.told gateway.new.told given to.new (rest ≡ [])) }
    ensures reads { length requests.now < 2 ^ 64 - 1 → IfErr result (λ e. e ≢ EdgeFault.Input) }
    ensures causes { gateway.old.fallen ≡ false
        → IfErr result (λ e. (e ≢ EdgeFault.Gateway GatewayFault.Reopen)
        × (e ≢ EdgeFault.Gateway GatewayFault.HeldFull) × (e ≢ EdgeFault.Gateway GatewayFault.Full)) }
    ensures stands { OnOk result (gateway.new.fallen ≡ false) }
    ensures no_failure { OnOk result (D.failed gateway.new.disk ≡ D.failed gateway.old.disk) }
    ensures short { length to.new ≤ 1048576 }
{
    let mut peer = AtHand {
        requests,
        answers: to,
    };
    let ended = socket_edge::run_with(alloc, &mut peer, gateway);
    // It has no more answers than have room.
    let _ = to.answers();
    match ended {
        Ok(_) => Ok(()),
        Err(fault) => Err(fault),
    }
}

// Notes which packets of a turn were dropped.
fn note(drops: &mut Drops, from: &FromDevices, to: &ToDevices) {
    drops.note(from.moment(), from.requests(), to.answers());
}

impl Carrier {
    /// Carries nothing yet. No moment will be before this one, in seconds. Of each moment at most so many dropped packets
    /// are noted.
    pub fn new(alloc: Global, moment: u64, most_noted: u64) -> Result<Carrier, AllocError>
        ensures { IfOk result (λ carrier. carrier ≡ record { told = moment; counts = no_counts }) }
    {
        Ok(Carrier {
            alloc,
            from: FromDevices::new(alloc, moment)?,
            to: ToDevices::new(alloc)?,
            counts: Counts::none(),
            drops: Drops::new(alloc, most_noted)?,
        })
    }

    /// How many packets there were.
    pub fn counts(&self) -> &Counts
        ensures { result.now ≡ self.now.counts }
    {
        &self.counts
    }

    /// The packets of the last turn that were dropped, as far as they are noted.
    pub fn dropped(&self) -> &[Dropped] {
        self.drops.noted()
    }

    /// One turn. A moment later than all before is told to the gateway, in seconds; an earlier one counts as the latest.
    /// A ruleset's text is loaded, if there is one. What the devices have now is taken, of each up to 64 packets; the
    /// gateway answers it all; and each packet that leaves is handed to its device. The text has at most 262,144 bytes.
    ///
    /// # Errors
    ///
    /// The gateway's own fault, as `socket_edge::run` has it, or `Output` if the answers have no room, and never one of a
    /// frame or a read. Then nothing is handed on, and what was taken is lost.
    pub fn turn<L: Device, W: Device, D: Disk + Drop>(
        &mut self,
        moment: u64,
        text: Option<&[u8]>,
        devices: &mut Between<L, W>,
        gateway: &mut Gateway<D>,
    ) -> Result<(), EdgeFault>
        requires short { IfSome text (λ bytes. length bytes.now ≤ 262144) }
        requires stands { gateway.old.fallen ≡ false }
        requires none { gateway.old.told.held ≡ [] }
        // What came, and what went; that all that the devices had came, or enough; and what was counted.
        ensures turned { (turn : Turn) × (turn.moment ≡ moment)
            × MatchOption text.entry (turn.text ≡ None) (λ bytes. turn.text ≡ Some bytes.now)
            × Gave turn (L.coming devices.old.lan) (L.coming devices.new.lan)
            (W.coming devices.old.wan) (W.coming devices.new.wan)
            × Turned D.honest D.moment D.left gateway.old gateway.new result
            (events_of self.old.told turn) (headers_of self.old.told turn)
            (L.handed devices.old.lan) (L.handed devices.new.lan)
            (W.handed devices.old.wan) (W.handed devices.new.wan)
            × TakesAll self.old.told turn
            (GaveAll L.coming L.waited L.has_none devices.old.lan 0 turn.lan)
            (GaveAll W.coming W.waited W.has_none devices.old.wan 0 turn.wan)
            × CountsIfOk result self.old.told turn gateway.old.told gateway.new.told
            self.old.counts self.new.counts }
        ensures latest { self.new.told ≡ later self.old.told moment }
        ensures lan_waited { L.waited devices.new.lan ≡ L.waited devices.old.lan }
        ensures wan_waited { W.waited devices.new.wan ≡ W.waited devices.old.wan }
        ensures rests { OnOk result (gateway.new.told.held ≡ []) }
        ensures stands { OnOk result (gateway.new.fallen ≡ false) }
        ensures no_failure { OnOk result (D.failed gateway.new.disk ≡ D.failed gateway.old.disk) }
        ensures why { IfErr result (λ e. Explains D.honest D.moment D.left D.failed e gateway.old
            gateway.new) }
        ensures causes { IfErr result IsOfTurn }
    {
        let wan_from = gather(&mut self.from, moment, text, devices);
        self.to.clear();
        match answer(self.alloc, self.from.requests(), &mut self.to, gateway) {
            Ok(()) => {}
            Err(fault) => return Err(fault),
        }
        note(&mut self.drops, &self.from, &self.to);
        let Between { lan, wan } = devices;
        self.to
            .let_out(self.from.headers(), wan_from, lan, wan, &mut self.counts);
        Ok(())
    }

    // The turn that begins so.
    fn turn_at<L: Device, W: Device, D: Disk + Drop>(
        &mut self,
        beat: &Beat,
        devices: &mut Between<L, W>,
        gateway: &mut Gateway<D>,
    ) -> Result<(), EdgeFault>
        requires stands { gateway.old.fallen ≡ false }
        requires none { gateway.old.told.held ≡ [] }
        ensures turned { (turn : Turn) × (turn.moment ≡ beat.now.moment)
            × (turn.text ≡ text_of beat.now.text)
            × Gave turn (L.coming devices.old.lan) (L.coming devices.new.lan)
            (W.coming devices.old.wan) (W.coming devices.new.wan)
            × Turned D.honest D.moment D.left gateway.old gateway.new result
            (events_of self.old.told turn) (headers_of self.old.told turn)
            (L.handed devices.old.lan) (L.handed devices.new.lan)
            (W.handed devices.old.wan) (W.handed devices.new.wan)
            × TakesAll self.old.told turn
            (GaveAll L.coming L.waited L.has_none devices.old.lan 0 turn.lan)
            (GaveAll W.coming W.waited W.has_none devices.old.wan 0 turn.wan)
            × CountsIfOk result self.old.told turn gateway.old.told gateway.new.told
            self.old.counts self.new.counts }
        ensures latest { self.new.told ≡ later self.old.told beat.now.moment }
        ensures lan_waited { L.waited devices.new.lan ≡ L.waited devices.old.lan }
        ensures wan_waited { W.waited devices.new.wan ≡ W.waited devices.old.wan }
        ensures stands { OnOk result (gateway.new.fallen ≡ false) }
        ensures no_failure { OnOk result (D.failed gateway.new.disk ≡ D.failed gateway.old.disk) }
        ensures why { IfErr result (λ e. Explains D.honest D.moment D.left D.failed e gateway.old
            gateway.new) }
        ensures causes { IfErr result IsOfTurn }
    {
        match &beat.text {
            Some(text) => self.turn(beat.moment, Some(text.as_slice()), devices, gateway),
            None => self.turn(beat.moment, None, devices, gateway),
        }
    }

    /// The turns that the pace asks for, one after the other, each when it is to be, until none is asked for. The packets
    /// of a turn are handed on before the next one is waited for. If this is stopped in its midst, no event of the turns
    /// before is lost, and once the turn under way has settled, none of this turn either.
    ///
    /// # Errors
    ///
    /// Those of `turn`. Of the turn in which it came nothing is handed on.
    pub fn carry<L: Device, W: Device, P: Pace<L, W>, D: Disk + Drop>(
        &mut self,
        pace: &mut P,
        devices: &mut Between<L, W>,
        gateway: &mut Gateway<D>,
    ) -> Result<(), EdgeFault>
        requires stands { gateway.old.fallen ≡ false }
        requires none { gateway.old.told.held ≡ [] }
        // By which turns it went, all that came from the devices in them, which is packets of bytes, and all that went to
        // these; what a stop leaves, also one in the midst; why the last turn failed, if one did; that each took what the
        // devices had; that the answers of each that didn't fail were counted; and that what left in it was handed on in
        // it.
        ensures ran { (run : Ran D.honest D.moment D.left gateway.old gateway.new result self.old.told
            (P.asks pace.old) (P.asks pace.new)
            (L.coming devices.old.lan) (L.coming devices.new.lan)
            (W.coming devices.old.wan) (W.coming devices.new.wan)
            (L.handed devices.old.lan) (L.handed devices.new.lan)
            (W.handed devices.old.wan) (W.handed devices.new.wan))
            × IfErr result (λ e. Explains D.honest D.moment D.left D.failed e run.settled gateway.new)
            × EachTakesAll self.old.told
            (GaveAll L.coming L.waited L.has_none devices.old.lan)
            (GaveAll W.coming W.waited W.has_none devices.old.wan) (run.turns ++ run.failed)
            × CountsTurns self.old.told run.turns gateway.old.told run.settled.told
            self.old.counts self.new.counts
            × EachHandsOn self.old.told
            (Stood L.coming L.handed L.waited W.coming W.handed W.waited devices.old)
            run.turns run.answered }
        ensures causes { IfErr result IsOfTurn }
        ensures stands { OnOk result (gateway.new.fallen ≡ false) }
        ensures no_failure { OnOk result (D.failed gateway.new.disk ≡ D.failed gateway.old.disk) }
    {
        stands(gateway);
        events_are_judged_once();
        for _turn in 0..u64::MAX {
            let Some(beat) = pace.next(devices, &self.counts, self.drops.noted()) else {
                return Ok(());
            };
            match self.turn_at(&beat, devices, gateway) {
                Ok(()) => {}
                Err(fault) => return Err(fault),
            }
        }
        Ok(())
    }
}
