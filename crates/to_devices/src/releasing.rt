//! A packet with its header, as it leaves.
ghost use Rattle.std.specs.Prelude.{◌≡◌, ◌+◌, ◌<◌, ◌≤◌, false, drop, length, slice_set};
ghost use Rattle.packet.specs.Fields.{header_length, u16_at};
ghost use Rattle.packet.specs.Sum.{total};
ghost use Rattle.packet.specs.Translated.{checksum_at, pseudo_header, put_u16};
ghost use Rattle.to_devices.specs.Leaving.{leaves_open as leaves_open_of, names_checksum as names_checksum_of, outgoing, released, with_open_sum};

use byteorder::{BigEndian, ByteOrder, LittleEndian};
use devices::{HEADER, Header};

#[tactic(auto, unfolding(packet::specs::Fields::u16_at))]
fn word(bytes: &[u8], at: usize) -> u16
    requires { at + 2 ≤ length bytes.now }
    ensures { result ≡ u16_at at bytes.now }
{
    BigEndian::read_u16(&bytes[at..])
}

#[tactic(auto, unfolding(packet::specs::Translated::put_u16))]
fn put_word(bytes: &mut [u8], at: usize, x: u16)
    requires { at + 2 ≤ length bytes.old }
    ensures { bytes.new ≡ put_u16 at x bytes.old }
{
    BigEndian::write_u16(&mut bytes[at..at + 2], x);
}

#[tactic(auto, unfolding(packet::specs::Fields::header_length))]
fn header_length_of(packet: &[u8]) -> usize
    requires { 20 ≤ length packet.now }
    ensures value { result ≡ header_length packet.now }
    ensures bound { result ≤ 60 }
{
    4 * (packet[0] % 16) as usize
}

// Where the checksum of the transport part stands.
#[tactic(auto, unfolding(packet::specs::Translated::checksum_at))]
fn checksum_place(packet: &[u8]) -> usize
    requires { 20 ≤ length packet.now }
    ensures value { result ≡ checksum_at packet.now }
    ensures bound { result ≤ 76 }
{
    header_length_of(packet) + if packet[9] == 17 { 6 } else { 16 }
}

// Whether the header names the checksum of the transport part.
#[tactic(auto, unfolding(crate::specs::Leaving::names_checksum))]
fn names_checksum(header: &Header, packet: &[u8]) -> bool
    requires { 20 ≤ length packet.now }
    ensures { result ≡ names_checksum_of header.now packet.now }
{
    let start = LittleEndian::read_u16(&header[6..]) as usize;
    let offset = LittleEndian::read_u16(&header[8..]) as usize;
    let length = header_length_of(packet);
    let place = checksum_place(packet);
    length >= 20 && start == length && start + offset == place && place + 2 <= packet.len()
}

// Whether the checksum of the transport part is open.
#[tactic(auto, unfolding(crate::specs::Leaving::leaves_open))]
fn leaves_open(header: &Header, packet: &[u8]) -> bool
    ensures { result ≡ leaves_open_of header.now packet.now }
{
    if header[0] % 2 == 0 {
        return false;
    }
    if packet.len() < 20 {
        return false;
    }
    if 65_535 < packet.len() {
        return false;
    }
    names_checksum(header, packet)
}

// The pseudo header's sum.
fn pseudo_sum(packet: &[u8]) -> u16
    requires header { 20 ≤ header_length packet.now }
    requires whole { header_length packet.now ≤ length packet.now }
    requires short { length packet.now < 65536 }
    ensures { result ≡ total (pseudo_header packet.now) }
{
    let addresses = word(packet, 12) as u32
        + word(packet, 14) as u32
        + word(packet, 16) as u32
        + word(packet, 18) as u32;
    let part = packet.len() - header_length_of(packet);
    ((addresses + packet[9] as u32 + part as u32) % 65_535) as u16
}

// An open checksum becomes the pseudo header's sum of these endpoints.
#[tactic(auto, unfolding(crate::specs::Leaving::with_open_sum))]
fn renew_open(packet: &mut [u8], header: &Header)
    ensures { packet.new ≡ with_open_sum header.now packet.old }
{
    if leaves_open(header, packet) {
        let sum = pseudo_sum(packet);
        let place = checksum_place(packet);
        put_word(packet, place, sum);
    }
}

// Of the flags, whether a checksum is open is all that is said of a packet that leaves.
fn outgoing_of(header: &Header) -> Header
    ensures { result ≡ outgoing header.now }
{
    let mut header = *header;
    header[0] %= 2;
    header
}

/// Makes a packet behind ten bytes what is handed to the device that it leaves on. The header is that of its request.
#[tactic(auto, unfolding(crate::specs::Leaving::released))]
pub fn release(frame: &mut [u8], header: &Header)
    requires { 10 ≤ length frame.old }
    ensures value { frame.new ≡ released header.now (drop 10 frame.old) }
    ensures len { length frame.new ≡ length frame.old }
{
    let (front, packet) = frame.split_at_mut(HEADER);
    renew_open(packet, header);
    front.copy_from_slice(&outgoing_of(header));
}
