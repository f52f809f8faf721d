//! One more event of a run, taken in its caller's bytes. Whoever calls these has each held answer already, as it was
//! told; so what is held is settled, and nothing is handed out.
//!
//! - `take_packet`: `Gateway::take_packet` takes the packet. If it is refused for want of room, `retake_packet` settles
//!   the held answers (`settle_held_full`), or settles and compacts (`make_room`), and takes it again
//!   (`take_packet_behind_settlement`)
//! - `take_load`, `take_moment`: so does `take_event` an event without a packet, by `Gateway::take_event`
ghost use Rattle.std.specs.Prelude.{◌≡◌, ◌≢◌, ◌⊎◌, ◌-◌, ◌^◌, ◌<◌, ◌≤◌, ◌∷◌, [], ℕ, List, false, length};
ghost use Rattle.std.specs.Prelude.{IfErr, IfOk, OnErr, OnOk, true};
ghost use Rattle.machine.specs.declared.event.Answer.{Answer};
ghost use Rattle.machine.specs.declared.event.What.TheVariants.{Load, Moment, Packet};
ghost use Rattle.gateway.specs.Kept.{IsRoomy};
ghost use Rattle.gateway.specs.Given.{IsNow, answer_given, given_by};
ghost use Rattle.gateway.specs.Running.{Fails, Proceeds, SafeWithin};
ghost use Rattle.gateway.specs.Taking.{IsNoPacket};

use crate::calls::Gateway;
use crate::pending::MOST_HELD;
use crate::running::{compact_settled, is_full, settle};
use crate::{GatewayFault, GivenInPlace};
use disk_model::Disk;
use machine::{Event, Iface, What};

/// Takes a packet where it lies, as `take` takes an event: it is translated there, and what it is answered is told,
/// whether it is answered at once or its answer is held. Where it is refused since 64 answers are held, these are
/// settled, since their caller has them, and it is taken again; where it is refused as `Full` the files are made short
/// too. The moment is in seconds.
///
/// # Errors
///
/// The gateway's fault, `HeldFull` and `Full` never. The packet isn't taken, and lies as it was. Unless a call of the
/// disk has failed, the gateway may go on.
#[inline(always)]
pub fn take_packet<D: Disk + Drop>(
    gateway: &mut Gateway<D>,
    moment: u64,
    iface: Iface,
    packet: &mut [u8],
) -> Result<GivenInPlace, GatewayFault>
    requires stands { gateway.old.fallen ≡ false }
    requires in_place { gateway.old.in_place ≡ true }
    requires short { length packet.old ≤ 65535 }
    ensures ok { IfOk result (λ taken. Proceeds D.honest D.moment D.left D.failed
        gateway.old gateway.new
        (record { moment = moment; what = Packet iface packet.old } ∷ [])
        (answer_given taken packet.new ∷ [])) }
    ensures now { IfOk result (λ taken. IsNow (given_by taken packet.new)
        → gateway.new.told.held ≡ []) }
    ensures err { IfErr result (λ e. Fails D.honest D.moment D.left D.failed
        gateway.old gateway.new
        (record { moment = moment; what = Packet iface packet.old } ∷ []) e) }
    ensures numbers_out { gateway.old.told.last ≡ 2 ^ 64 - 1
        → IfErr result (λ e. e ≡ GatewayFault.NumbersOut) }
    ensures untouched { OnErr result (packet.new ≡ packet.old) }
    ensures any_moment { (before : List (ℕ × Answer))
        → SafeWithin D.honest D.moment D.left D.failed gateway.old gateway.new before }
    ensures stands { OnOk result (gateway.new.fallen ≡ false) }
    ensures in_place { gateway.new.in_place ≡ true }
    ensures length { length packet.new ≡ length packet.old }
{
    match offer_packet(gateway, moment, iface, packet) {
        Ok(taken) => Ok(taken),
        Err(fault) => retake_packet(fault, gateway, moment, iface, packet),
    }
}

// Takes a packet that was refused with this fault, if that was for want of room for its answer or its entries. Compiled
// into its caller, so that a packet that is taken at once needs no place in memory for what this gives.
#[inline(always)]
fn retake_packet<D: Disk + Drop>(
    fault: GatewayFault,
    gateway: &mut Gateway<D>,
    moment: u64,
    iface: Iface,
    packet: &mut [u8],
) -> Result<GivenInPlace, GatewayFault>
    requires refused { fault ≢ GatewayFault.Full → fault ≢ GatewayFault.HeldFull
        → Fails D.honest D.moment D.left D.failed gateway.old gateway.old
        (record { moment = moment; what = Packet iface packet.old } ∷ []) fault }
    requires numbers_out { gateway.old.told.last ≡ 2 ^ 64 - 1 → fault ≡ GatewayFault.NumbersOut }
    requires stands { gateway.old.fallen ≡ false }
    requires in_place { gateway.old.in_place ≡ true }
    requires short { length packet.old ≤ 65535 }
    ensures ok { IfOk result (λ taken. Proceeds D.honest D.moment D.left D.failed
        gateway.old gateway.new
        (record { moment = moment; what = Packet iface packet.old } ∷ [])
        (answer_given taken packet.new ∷ [])) }
    ensures now { IfOk result (λ taken. IsNow (given_by taken packet.new)
        → gateway.new.told.held ≡ []) }
    ensures err { IfErr result (λ e. Fails D.honest D.moment D.left D.failed
        gateway.old gateway.new
        (record { moment = moment; what = Packet iface packet.old } ∷ []) e) }
    ensures numbers_out { gateway.old.told.last ≡ 2 ^ 64 - 1
        → IfErr result (λ e. e ≡ GatewayFault.NumbersOut) }
    ensures untouched { OnErr result (packet.new ≡ packet.old) }
    ensures any_moment { (before : List (ℕ × Answer))
        → SafeWithin D.honest D.moment D.left D.failed gateway.old gateway.new before }
    ensures stands { OnOk result (gateway.new.fallen ≡ false) }
    ensures in_place { gateway.new.in_place ≡ true }
    ensures length { length packet.new ≡ length packet.old }
{
    if !lacks_room(fault) {
        return Err(fault);
    }
    take_packet_behind_settlement(gateway, moment, iface, packet)
}

// Whether there was no room for an answer or for entries.
fn lacks_room(fault: GatewayFault) -> bool
    ensures none { result ≡ false → (fault ≢ GatewayFault.Full) × (fault ≢ GatewayFault.HeldFull) }
    ensures some { result ≡ true → (fault ≡ GatewayFault.Full) ⊎ (fault ≡ GatewayFault.HeldFull) }
{
    matches!(fault, GatewayFault::Full | GatewayFault::HeldFull)
}

// Settles if 64 answers are held, and takes the packet. If it is refused as `Full`, settles and compacts, and takes it
// again: then there is room for it.
#[inline(never)]
fn take_packet_behind_settlement<D: Disk + Drop>(
    gateway: &mut Gateway<D>,
    moment: u64,
    iface: Iface,
    packet: &mut [u8],
) -> Result<GivenInPlace, GatewayFault>
    requires stands { gateway.old.fallen ≡ false }
    requires in_place { gateway.old.in_place ≡ true }
    requires short { length packet.old ≤ 65535 }
    ensures ok { IfOk result (λ taken. Proceeds D.honest D.moment D.left D.failed
        gateway.old gateway.new
        (record { moment = moment; what = Packet iface packet.old } ∷ [])
        (answer_given taken packet.new ∷ [])) }
    ensures now { IfOk result (λ taken. IsNow (given_by taken packet.new)
        → gateway.new.told.held ≡ []) }
    ensures err { IfErr result (λ e. Fails D.honest D.moment D.left D.failed
        gateway.old gateway.new
        (record { moment = moment; what = Packet iface packet.old } ∷ []) e) }
    ensures untouched { OnErr result (packet.new ≡ packet.old) }
    ensures any_moment { (before : List (ℕ × Answer))
        → SafeWithin D.honest D.moment D.left D.failed gateway.old gateway.new before }
    ensures stands { OnOk result (gateway.new.fallen ≡ false) }
    ensures in_place { gateway.new.in_place ≡ true }
    ensures length { length packet.new ≡ length packet.old }
{
    settle_held_full(gateway)?;
    match offer_packet(gateway, moment, iface, packet) {
        Ok(taken) => return Ok(taken),
        Err(fault) => {
            if !is_full(fault) {
                return Err(fault);
            }
        }
    }
    make_room(gateway)?;
    offer_packet(gateway, moment, iface, packet)
}

/// Takes the text of a ruleset, of which it takes a copy, as `take_packet` takes a packet.
///
/// # Errors
///
/// Those of `take_packet`. The text isn't taken.
pub fn take_load<D: Disk + Drop>(
    gateway: &mut Gateway<D>,
    moment: u64,
    text: &[u8],
) -> Result<GivenInPlace, GatewayFault>
    requires stands { gateway.old.fallen ≡ false }
    requires in_place { gateway.old.in_place ≡ true }
    requires short { length text.now < 2 ^ 31 }
    ensures ok { IfOk result (λ taken. Proceeds D.honest D.moment D.left D.failed
        gateway.old gateway.new
        (record { moment = moment; what = Load text.now } ∷ [])
        (answer_given taken [] ∷ [])) }
    ensures now { IfOk result (λ taken. IsNow (given_by taken [])
        → gateway.new.told.held ≡ []) }
    ensures err { IfErr result (λ e. Fails D.honest D.moment D.left D.failed
        gateway.old gateway.new
        (record { moment = moment; what = Load text.now } ∷ []) e) }
    ensures any_moment { (before : List (ℕ × Answer))
        → SafeWithin D.honest D.moment D.left D.failed gateway.old gateway.new before }
    ensures stands { OnOk result (gateway.new.fallen ≡ false) }
    ensures in_place { gateway.new.in_place ≡ true }
{
    let Ok(text) = gateway.copy(text) else {
        return Err(GatewayFault::NoMemory);
    };
    let what = What::Load(text);
    take_event(gateway, Event { moment, what })
}

/// Takes a moment, in seconds, as `take_packet` takes a packet.
///
/// # Errors
///
/// Those of `take_packet`. The moment isn't taken.
pub fn take_moment<D: Disk + Drop>(
    gateway: &mut Gateway<D>,
    moment: u64,
) -> Result<GivenInPlace, GatewayFault>
    requires stands { gateway.old.fallen ≡ false }
    requires in_place { gateway.old.in_place ≡ true }
    ensures ok { IfOk result (λ taken. Proceeds D.honest D.moment D.left D.failed
        gateway.old gateway.new
        (record { moment = moment; what = Moment } ∷ [])
        (answer_given taken [] ∷ [])) }
    ensures now { IfOk result (λ taken. IsNow (given_by taken [])
        → gateway.new.told.held ≡ []) }
    ensures err { IfErr result (λ e. Fails D.honest D.moment D.left D.failed
        gateway.old gateway.new
        (record { moment = moment; what = Moment } ∷ []) e) }
    ensures numbers_out { gateway.old.told.last ≡ 2 ^ 64 - 1
        → IfErr result (λ e. (e ≡ GatewayFault.NumbersOut) ⊎ (e ≡ GatewayFault.Device)) }
    ensures any_moment { (before : List (ℕ × Answer))
        → SafeWithin D.honest D.moment D.left D.failed gateway.old gateway.new before }
    ensures stands { OnOk result (gateway.new.fallen ≡ false) }
    ensures in_place { gateway.new.in_place ≡ true }
{
    let what = What::Moment;
    take_event(gateway, Event { moment, what })
}

// Takes an event that brings no packet.
fn take_event<D: Disk + Drop>(
    gateway: &mut Gateway<D>,
    event: Event,
) -> Result<GivenInPlace, GatewayFault>
    requires stands { gateway.old.fallen ≡ false }
    requires in_place { gateway.old.in_place ≡ true }
    requires bodiless { IsNoPacket event.what }
    ensures ok { IfOk result (λ taken. Proceeds D.honest D.moment D.left D.failed
        gateway.old gateway.new (event ∷ []) (answer_given taken [] ∷ [])) }
    ensures now { IfOk result (λ taken. IsNow (given_by taken [])
        → gateway.new.told.held ≡ []) }
    ensures err { IfErr result (λ e. Fails D.honest D.moment D.left D.failed
        gateway.old gateway.new (event ∷ []) e) }
    ensures numbers_out { gateway.old.told.last ≡ 2 ^ 64 - 1
        → IfErr result (λ e. (e ≡ GatewayFault.NumbersOut) ⊎ (e ≡ GatewayFault.Device)) }
    ensures any_moment { (before : List (ℕ × Answer))
        → SafeWithin D.honest D.moment D.left D.failed gateway.old gateway.new before }
    ensures stands { OnOk result (gateway.new.fallen ≡ false) }
    ensures in_place { gateway.new.in_place ≡ true }
{
    settle_held_full(gateway)?;
    match offer_event(gateway, event) {
        Ok(taken) => Ok(taken),
        Err((event, fault)) => {
            if is_full(fault) {
                return take_event_behind_compaction(gateway, event);
            }
            Err(fault)
        }
    }
}

// Settles and compacts; then there is room for the event, and it is taken.
fn take_event_behind_compaction<D: Disk + Drop>(
    gateway: &mut Gateway<D>,
    event: Event,
) -> Result<GivenInPlace, GatewayFault>
    requires stands { gateway.old.fallen ≡ false }
    requires in_place { gateway.old.in_place ≡ true }
    requires bodiless { IsNoPacket event.what }
    ensures ok { IfOk result (λ taken. Proceeds D.honest D.moment D.left D.failed
        gateway.old gateway.new (event ∷ []) (answer_given taken [] ∷ [])) }
    ensures now { IfOk result (λ taken. IsNow (given_by taken [])
        → gateway.new.told.held ≡ []) }
    ensures err { IfErr result (λ e. Fails D.honest D.moment D.left D.failed
        gateway.old gateway.new (event ∷ []) e) }
    ensures any_moment { (before : List (ℕ × Answer))
        → SafeWithin D.honest D.moment D.left D.failed gateway.old gateway.new before }
    ensures stands { OnOk result (gateway.new.fallen ≡ false) }
    ensures in_place { gateway.new.in_place ≡ true }
{
    make_room(gateway)?;
    match offer_event(gateway, event) {
        Ok(taken) => return Ok(taken),
        Err((_, fault)) => return Err(fault),
    }
}

// Settles where 64 answers are held.
#[inline(always)]
fn settle_held_full<D: Disk + Drop>(gateway: &mut Gateway<D>) -> Result<(), GatewayFault>
    requires stands { gateway.old.fallen ≡ false }
    requires in_place { gateway.old.in_place ≡ true }
    ensures ok { OnOk result (Proceeds D.honest D.moment D.left D.failed gateway.old gateway.new
        [] []) }
    ensures err { IfErr result (λ e. Fails D.honest D.moment D.left D.failed
        gateway.old gateway.new [] e) }
    ensures device { IfErr result (λ e. e ≡ GatewayFault.Device) }
    ensures any_moment { (before : List (ℕ × Answer))
        → SafeWithin D.honest D.moment D.left D.failed gateway.old gateway.new before }
    ensures stands { OnOk result (gateway.new.fallen ≡ false) }
    ensures in_place { gateway.new.in_place ≡ true }
    ensures state { gateway.new.told.state ≡ gateway.old.told.state }
    ensures last { gateway.new.told.last ≡ gateway.old.told.last }
    ensures few { OnOk result (length gateway.new.told.held < 64) }
{
    if gateway.held() < MOST_HELD {
        return Ok(());
    }
    settle(gateway)?;
    Ok(())
}

// Settles what is held, and compacts.
#[inline(never)]
fn make_room<D: Disk + Drop>(gateway: &mut Gateway<D>) -> Result<(), GatewayFault>
    requires stands { gateway.old.fallen ≡ false }
    requires in_place { gateway.old.in_place ≡ true }
    ensures ok { OnOk result (Proceeds D.honest D.moment D.left D.failed gateway.old gateway.new
        [] []) }
    ensures err { IfErr result (λ e. Fails D.honest D.moment D.left D.failed
        gateway.old gateway.new [] e) }
    ensures any_moment { (before : List (ℕ × Answer))
        → SafeWithin D.honest D.moment D.left D.failed gateway.old gateway.new before }
    ensures stands { OnOk result (gateway.new.fallen ≡ false) }
    ensures in_place { gateway.new.in_place ≡ true }
    ensures state { gateway.new.told.state ≡ gateway.old.told.state }
    ensures last { gateway.new.told.last ≡ gateway.old.told.last }
    ensures none { OnOk result (gateway.new.told.held ≡ []) }
    ensures roomy { OnOk result (IsRoomy gateway.new.filled) }
{
    settle(gateway)?;
    compact_settled(gateway)?;
    Ok(())
}

// Has the gateway take a packet.
#[inline(always)]
fn offer_packet<D: Disk + Drop>(
    gateway: &mut Gateway<D>,
    moment: u64,
    iface: Iface,
    packet: &mut [u8],
) -> Result<GivenInPlace, GatewayFault>
    requires stands { gateway.old.fallen ≡ false }
    requires short { length packet.old ≤ 65535 }
    ensures ok { IfOk result (λ taken. Proceeds D.honest D.moment D.left D.failed
        gateway.old gateway.new
        (record { moment = moment; what = Packet iface packet.old } ∷ [])
        (answer_given taken packet.new ∷ [])) }
    ensures now { IfOk result (λ taken. IsNow (given_by taken packet.new)
        → gateway.new.told.held ≡ []) }
    ensures err { IfErr result (λ e. (gateway.new ≡ gateway.old) × (packet.new ≡ packet.old)
        × (e ≢ GatewayFault.Full → e ≢ GatewayFault.HeldFull
        → Fails D.honest D.moment D.left D.failed gateway.old gateway.new
        (record { moment = moment; what = Packet iface packet.old } ∷ []) e)
        × (IsRoomy gateway.old.filled → e ≢ GatewayFault.Full)
        × (length gateway.old.told.held < 64 → e ≢ GatewayFault.HeldFull)) }
    ensures numbers_out { gateway.old.told.last ≡ 2 ^ 64 - 1
        → IfErr result (λ e. e ≡ GatewayFault.NumbersOut) }
    ensures any_moment { (before : List (ℕ × Answer))
        → SafeWithin D.honest D.moment D.left D.failed gateway.old gateway.new before }
    ensures stands { gateway.new.fallen ≡ false }
    ensures in_place { gateway.new.in_place ≡ gateway.old.in_place }
    ensures length { length packet.new ≡ length packet.old }
{
    gateway.facts();
    gateway.take_packet(moment, iface, packet)
}

// Has it take an event that brings no packet.
fn offer_event<D: Disk + Drop>(
    gateway: &mut Gateway<D>,
    event: Event,
) -> Result<GivenInPlace, (Event, GatewayFault)>
    requires stands { gateway.old.fallen ≡ false }
    requires few { length gateway.old.told.held < 64 }
    requires bodiless { IsNoPacket event.what }
    ensures ok { IfOk result (λ taken. Proceeds D.honest D.moment D.left D.failed
        gateway.old gateway.new (event ∷ []) (answer_given taken [] ∷ [])) }
    ensures now { IfOk result (λ taken. IsNow (given_by taken [])
        → gateway.new.told.held ≡ []) }
    ensures err { IfErr result (λ e. (e.0 ≡ event) × (gateway.new ≡ gateway.old)
        × (e.1 ≢ GatewayFault.Full
        → Fails D.honest D.moment D.left D.failed gateway.old gateway.new (event ∷ []) e.1)
        × (IsRoomy gateway.old.filled → e.1 ≢ GatewayFault.Full)) }
    ensures numbers_out { gateway.old.told.last ≡ 2 ^ 64 - 1
        → IfErr result (λ e. e.1 ≡ GatewayFault.NumbersOut) }
    ensures any_moment { (before : List (ℕ × Answer))
        → SafeWithin D.honest D.moment D.left D.failed gateway.old gateway.new before }
    ensures stands { gateway.new.fallen ≡ false }
    ensures in_place { gateway.new.in_place ≡ gateway.old.in_place }
{
    gateway.facts();
    gateway.take_event(event)
}
