//! The frame of one request.
ghost use Rattle.std.specs.Prelude.{◌≡◌, ◌+◌, ◌<◌, ◌≤◌, ◌^◌, ◌∷◌, ◌++◌, [], ℕ, List, IfNone, IfSome, drop, length, take};
ghost use Rattle.byteorder.specs.Endian.{big_bytes};
ghost use Rattle.packet.specs.Laws.{AreBytes};
ghost use Rattle.devices.specs.Handing.{Gives};
ghost use Rattle.from_devices.specs.Requests.{IsPacket, interface_byte, packet_request, request};

use devices::{Device, HEADER, Header, LONGEST_FRAME};
use packet::Iface;

/// The bytes of a request before its body.
pub const REQUEST_HEAD: usize = 14;

/// The most bytes of a packet's request.
pub const LONGEST_REQUEST: usize = REQUEST_HEAD - HEADER + LONGEST_FRAME;

/// The kind of a request with a packet.
const PACKET: u8 = 1;

/// The kind of a request with the text of a ruleset.
pub const LOAD: u8 = 2;

/// The kind of a request with a moment alone.
pub const MOMENT: u8 = 3;

fn byte_of(iface: Iface) -> u8
    ensures { result ≡ interface_byte iface }
{
    match iface {
        Iface::Lan => 0,
        Iface::Wan => 1,
    }
}

// The bytes of a request before its body, which has so many bytes. The moment is in seconds.
fn head_bytes(kind: u8, iface: u8, len: u32, moment: u64) -> [u8; REQUEST_HEAD]
    ensures { result ≡ kind ∷ iface ∷ big_bytes 4 len ++ big_bytes 8 moment }
{
    let mut bytes = [0; REQUEST_HEAD];
    bytes[0] = kind;
    bytes[1] = iface;
    bytes[2..6].copy_from_slice(&len.to_be_bytes());
    bytes[6..14].copy_from_slice(&moment.to_be_bytes());
    bytes
}

// Makes the request of a body that stands behind the first 14 of these bytes. The moment is in seconds.
#[tactic(auto, unfolding(crate::specs::Requests::request))]
fn put_head(frame: &mut [u8], kind: u8, iface: u8, moment: u64)
    requires head { 14 ≤ length frame.old }
    requires small { length frame.old < 2 ^ 31 }
    ensures { frame.new ≡ request kind iface moment (drop 14 frame.old) }
{
    let (head, body) = frame.split_at_mut(REQUEST_HEAD);
    head.copy_from_slice(&head_bytes(kind, iface, body.len() as u32, moment));
}

/// Makes these bytes the request of a body, which has 14 bytes less. The moment is in seconds.
#[tactic(auto, unfolding(crate::specs::Requests::request))]
pub fn put_request(frame: &mut [u8], kind: u8, moment: u64, body: &[u8])
    requires len { length frame.old ≡ 14 + length body.now }
    requires small { length frame.old < 2 ^ 31 }
    ensures { frame.new ≡ request kind 0 moment body.now }
{
    let (head, rest) = frame.split_at_mut(REQUEST_HEAD);
    head.copy_from_slice(&head_bytes(kind, 0, body.len() as u32, moment));
    rest.copy_from_slice(body);
}

// The header in front of a packet.
fn header_at(frame: &[u8]) -> Header
    requires { 10 ≤ length frame.now }
    ensures { result ≡ take 10 frame.now }
{
    let mut header = [0; HEADER];
    header.copy_from_slice(&frame[..HEADER]);
    header
}

// The proof of `take_packet` needs the range of bytes, which a function over `&[u8]` knows.
fn bytes_fit(bytes: &[u8])
    ensures { AreBytes bytes.now }
{}

/// Makes the request of the next packet that a device gives, if it has one now, at the front of these bytes. Gives the
/// packet's header, and says how many bytes the request has. The moment is in seconds.
pub fn take_packet<D: Device>(
    bytes: &mut [u8],
    iface: Iface,
    moment: u64,
    device: &mut D,
) -> Option<(Header, usize)>
    requires { length bytes.old ≡ 65549 }
    ensures some { IfSome result (λ got. (given : List ℕ)
        × Gives (D.coming device.old) (D.coming device.new) (given ∷ [])
        × (got.0 ≡ take 10 given)
        × (take got.1 bytes.new ≡ packet_request moment iface given)
        × IsPacket given) }
    ensures size { IfSome result (λ got. got.1 ≤ 65549) }
    ensures none { IfNone result ((D.coming device.new ≡ D.coming device.old)
        × D.has_none device.new) }
    ensures handed { D.handed device.new ≡ D.handed device.old }
    ensures waited { D.waited device.new ≡ D.waited device.old }
    ensures len { length bytes.new ≡ length bytes.old }
{
    // The header of the packet comes where the last ten bytes of the request's head are to stand.
    let place = &mut bytes[REQUEST_HEAD - HEADER..];
    let Some(count) = device.receive(place) else {
        return None;
    };
    bytes_fit(place);
    let header = header_at(place);
    let len = count + REQUEST_HEAD - HEADER;
    put_head(&mut bytes[..len], PACKET, byte_of(iface), moment);
    Some((header, len))
}
