//! A request that is answered in its own bytes: the gateway takes it where it lies, and the frame of its answer, which
//! is never longer, is written over its frame.
ghost use Rattle.std.specs.Prelude.{◌≡◌, ◌≢◌, ◌+◌, ◌<◌, ◌≤◌, ◌^◌, ◌++◌, ◌∷◌, [], ℕ, List, IfErr, IfOk, OnOk, length, take, drop, true, false};
ghost use Rattle.machine.specs.declared.event.Answer.{Answer};
ghost use Rattle.machine.specs.declared.event.What.TheVariants.{Load, Moment, Packet};
ghost use Rattle.frames.specs.Answers.{frame};
ghost use Rattle.frames.specs.Requests.{longest, what_of};
ghost use Rattle.gateway.specs.Given.{answer_given};
ghost use Rattle.gateway.specs.Running.{Fails, Proceeds};

use disk_model::Disk;
use frames::{ANSWER_FRONT, Kind, write_front};
use gateway::running::{take_load, take_moment, take_packet};
use gateway::{Gateway, GatewayFault, GivenInPlace, Iface};

/// Has the gateway take the request of this frame, where it lies. Then the first bytes are the frame of its answer,
/// which is held or handed out, and it says how many. The moment is in seconds.
///
/// # Errors
///
/// The gateway's fault. The event isn't taken; answers that were held may be handed out.
#[inline(always)]
pub fn answer_request<D: Disk + Drop>(
    bytes: &mut [u8],
    kind: Kind,
    moment: u64,
    gateway: &mut Gateway<D>,
) -> Result<usize, GatewayFault>
    requires stands { gateway.old.fallen ≡ false }
    requires in_place { gateway.old.in_place ≡ true }
    requires head { 14 ≤ length bytes.old }
    requires longest { length bytes.old ≤ 14 + longest kind }
    ensures ok { IfOk result (λ len. (answer : ℕ × Answer) × (take len bytes.new ≡ frame answer)
        × Proceeds D.honest D.moment D.left D.failed gateway.old gateway.new
        (record { moment = moment; what = what_of kind (drop 14 bytes.old) } ∷ []) (answer ∷ [])) }
    ensures within { IfOk result (λ len. len ≤ length bytes.new) }
    ensures err { IfErr result (Fails D.honest D.moment D.left D.failed gateway.old gateway.new
        (record { moment = moment; what = what_of kind (drop 14 bytes.old) } ∷ [])) }
    ensures stands { OnOk result (gateway.new.fallen ≡ false) }
    ensures in_place { gateway.new.in_place ≡ true }
    ensures length { length bytes.new ≡ length bytes.old }
{
    if let Kind::Packet(iface) = kind {
        return answer_packet(bytes, iface, moment, gateway);
    }
    // Taken apart, so that the answer to a packet needs no place in memory.
    match answer_other(bytes, kind, moment, gateway) {
        Ok(len) => Ok(len),
        Err(fault) => Err(fault),
    }
}

/// As `answer_request`, of a request without a packet.
#[inline(never)]
fn answer_other<D: Disk + Drop>(
    bytes: &mut [u8],
    kind: Kind,
    moment: u64,
    gateway: &mut Gateway<D>,
) -> Result<usize, GatewayFault>
    requires stands { gateway.old.fallen ≡ false }
    requires in_place { gateway.old.in_place ≡ true }
    requires head { 14 ≤ length bytes.old }
    requires longest { length bytes.old ≤ 14 + longest kind }
    requires other { (iface : Iface) → kind ≢ Kind.Packet iface }
    ensures ok { IfOk result (λ len. (answer : ℕ × Answer) × (take len bytes.new ≡ frame answer)
        × Proceeds D.honest D.moment D.left D.failed gateway.old gateway.new
        (record { moment = moment; what = what_of kind (drop 14 bytes.old) } ∷ []) (answer ∷ [])) }
    ensures within { IfOk result (λ len. len ≤ length bytes.new) }
    ensures err { IfErr result (Fails D.honest D.moment D.left D.failed gateway.old gateway.new
        (record { moment = moment; what = what_of kind (drop 14 bytes.old) } ∷ [])) }
    ensures stands { OnOk result (gateway.new.fallen ≡ false) }
    ensures in_place { gateway.new.in_place ≡ true }
    ensures length { length bytes.new ≡ length bytes.old }
{
    match kind {
        Kind::Load => answer_load(bytes, moment, gateway),
        Kind::Moment => answer_moment(bytes, moment, gateway),
        Kind::Packet(_) => unreachable!(),
    }
}

/// As `answer_request`, of a packet.
#[inline(always)]
fn answer_packet<D: Disk + Drop>(
    bytes: &mut [u8],
    iface: Iface,
    moment: u64,
    gateway: &mut Gateway<D>,
) -> Result<usize, GatewayFault>
    requires stands { gateway.old.fallen ≡ false }
    requires in_place { gateway.old.in_place ≡ true }
    requires head { 14 ≤ length bytes.old }
    requires longest { length bytes.old ≤ 14 + 65535 }
    ensures ok { IfOk result (λ len. (answer : ℕ × Answer) × (take len bytes.new ≡ frame answer)
        × Proceeds D.honest D.moment D.left D.failed gateway.old gateway.new
        (record { moment = moment; what = Packet iface (drop 14 bytes.old) } ∷ []) (answer ∷ [])) }
    ensures within { IfOk result (λ len. len ≤ length bytes.new) }
    ensures err { IfErr result (Fails D.honest D.moment D.left D.failed gateway.old gateway.new
        (record { moment = moment; what = Packet iface (drop 14 bytes.old) } ∷ [])) }
    ensures stands { OnOk result (gateway.new.fallen ≡ false) }
    ensures in_place { gateway.new.in_place ≡ true }
    ensures length { length bytes.new ≡ length bytes.old }
{
    // What stands in front of a packet is as long in an answer (13 bytes of head, and the interface) as in a request
    // (14 bytes of head), so it stays in its place: this is `REQUEST_HEAD` too.
    let (front, packet) = bytes.split_at_mut(ANSWER_FRONT);
    match take_packet(gateway, moment, iface, packet) {
        Ok(taken) => Ok(write_given(front, taken, packet.len())),
        Err(fault) => Err(fault),
    }
}

/// As `answer_request`, of the text of a ruleset.
fn answer_load<D: Disk + Drop>(
    bytes: &mut [u8],
    moment: u64,
    gateway: &mut Gateway<D>,
) -> Result<usize, GatewayFault>
    requires stands { gateway.old.fallen ≡ false }
    requires in_place { gateway.old.in_place ≡ true }
    requires head { 14 ≤ length bytes.old }
    requires longest { length bytes.old < 2 ^ 31 }
    ensures ok { IfOk result (λ len. (answer : ℕ × Answer) × (take len bytes.new ≡ frame answer)
        × Proceeds D.honest D.moment D.left D.failed gateway.old gateway.new
        (record { moment = moment; what = Load (drop 14 bytes.old) } ∷ []) (answer ∷ [])) }
    ensures within { IfOk result (λ len. len ≤ length bytes.new) }
    ensures err { IfErr result (Fails D.honest D.moment D.left D.failed gateway.old gateway.new
        (record { moment = moment; what = Load (drop 14 bytes.old) } ∷ [])) }
    ensures stands { OnOk result (gateway.new.fallen ≡ false) }
    ensures in_place { gateway.new.in_place ≡ true }
    ensures length { length bytes.new ≡ length bytes.old }
{
    let (front, text) = bytes.split_at_mut(ANSWER_FRONT);
    match take_load(gateway, moment, text) {
        Ok(taken) => Ok(write_given(front, taken, 0)),
        Err(fault) => Err(fault),
    }
}

/// As `answer_request`, of a moment alone.
fn answer_moment<D: Disk + Drop>(
    bytes: &mut [u8],
    moment: u64,
    gateway: &mut Gateway<D>,
) -> Result<usize, GatewayFault>
    requires stands { gateway.old.fallen ≡ false }
    requires in_place { gateway.old.in_place ≡ true }
    requires head { 14 ≤ length bytes.old }
    ensures ok { IfOk result (λ len. (answer : ℕ × Answer) × (take len bytes.new ≡ frame answer)
        × Proceeds D.honest D.moment D.left D.failed gateway.old gateway.new
        (record { moment = moment; what = Moment } ∷ []) (answer ∷ [])) }
    ensures within { IfOk result (λ len. len ≤ length bytes.new) }
    ensures err { IfErr result (Fails D.honest D.moment D.left D.failed gateway.old gateway.new
        (record { moment = moment; what = Moment } ∷ [])) }
    ensures stands { OnOk result (gateway.new.fallen ≡ false) }
    ensures in_place { gateway.new.in_place ≡ true }
    ensures length { length bytes.new ≡ length bytes.old }
{
    let (front, _) = bytes.split_at_mut(ANSWER_FRONT);
    match take_moment(gateway, moment) {
        Ok(taken) => Ok(write_given(front, taken, 0)),
        Err(fault) => Err(fault),
    }
}

/// Writes the frame of the answer of an event that was taken, as `write_front` does.
#[inline(always)]
fn write_given(front: &mut [u8], taken: GivenInPlace, len: usize) -> usize
    requires size { length front.old ≡ 14 }
    requires small { len < 2 ^ 31 }
    ensures frame { (packet : List ℕ) → length packet ≡ len
        → take result (front.new ++ packet) ≡ frame (answer_given taken packet) }
    ensures within { result ≤ 14 + len }
    ensures size { length front.new ≡ length front.old }
{
    match taken {
        GivenInPlace::Now(number, fate) => write_front(front, number, fate, len),
        GivenInPlace::Held(number, fate) => write_front(front, number, fate, len),
    }
}
