//! The request at the front of the bytes.
ghost use Rattle.std.specs.Prelude.{◌≡◌, ◌≤◌, length, drop};
ghost use Rattle.byteorder.specs.Endian.{big_number};
ghost use Rattle.frames.specs.Requests.{without_interface, announced, longest, head_with, head_of, IsFront};

use crate::fault::HeaderFault;
use byteorder::{BigEndian, ByteOrder};
use machine::Iface;
use rulesyntax::GREATEST_LENGTH;

/// The bytes of a request's frame before its body.
pub const REQUEST_HEAD: usize = 14;

/// The most bytes of a packet.
const LONGEST_PACKET: u32 = 65_535;

/// What a request's kind and interface announce.
#[derive(Clone, Copy, Drop)]
pub enum Kind {
    /// Kind 1: a packet from this interface.
    Packet(Iface),
    /// Kind 2: the text of a ruleset.
    Load,
    /// Kind 3: a moment alone.
    Moment,
}

/// The header at the front of the bytes.
#[derive(Clone, Copy, Drop)]
pub enum Head {
    /// Fewer than its 14 bytes are there.
    Cut,
    /// It is faulty.
    Bad(HeaderFault),
    /// The kind, the moment in seconds and the length of the body in bytes.
    Frame(Kind, u64, u32),
}

/// What stands at the front of the bytes.
#[derive(Clone, Copy, Drop)]
pub enum Front {
    /// Less than a frame.
    Cut,
    /// A faulty header.
    Bad(HeaderFault),
    /// A whole frame: its kind, its moment in seconds, and its length in bytes.
    Whole(Kind, u64, usize),
}

fn kind_alone(iface: u8, kind: Kind) -> Result<Kind, HeaderFault>
    ensures { result ≡ without_interface iface kind }
{
    if iface == 0 {
        Ok(kind)
    } else {
        Err(HeaderFault::BadInterface)
    }
}

fn packet_from(iface: u8) -> Result<Kind, HeaderFault>
    ensures { result ≡ announced 1 iface }
{
    if iface == 0 {
        Ok(Kind::Packet(Iface::Lan))
    } else if iface == 1 {
        Ok(Kind::Packet(Iface::Wan))
    } else {
        Err(HeaderFault::BadInterface)
    }
}

// What kind and interface of a header announce.
fn announced_by(kind: u8, iface: u8) -> Result<Kind, HeaderFault>
    ensures { result ≡ announced kind iface }
{
    if kind == 1 {
        packet_from(iface)
    } else if kind == 2 {
        kind_alone(iface, Kind::Load)
    } else if kind == 3 {
        kind_alone(iface, Kind::Moment)
    } else {
        Err(HeaderFault::BadKind)
    }
}

fn longest_of(kind: Kind) -> u32
    ensures { result ≡ longest kind }
{
    match kind {
        Kind::Packet(_) => LONGEST_PACKET,
        Kind::Load => GREATEST_LENGTH as u32,
        Kind::Moment => 0,
    }
}

/// The header at the front, whose 14 bytes are there, by what its kind and interface announce.
#[inline(always)]
fn head_with(kind: Result<Kind, HeaderFault>, bytes: &[u8]) -> Head
    requires { 14 ≤ length bytes.now }
    ensures { result ≡ head_with kind (big_number 4 (drop 2 bytes.now))
        (big_number 8 (drop 6 bytes.now)) }
{
    match kind {
        Err(fault) => Head::Bad(fault),
        Ok(kind) => {
            let len = BigEndian::read_u32(&bytes[2..]);
            if longest_of(kind) < len {
                return Head::Bad(HeaderFault::TooLong);
            }
            Head::Frame(kind, BigEndian::read_u64(&bytes[6..]), len)
        }
    }
}

/// What stands at the front, by its header.
#[inline(always)]
#[tactic(auto, unfolding(crate::specs::Requests::next), using(crate::proofs::Heads::frame_is_short))]
fn front_with(head: Head, bytes: &[u8]) -> Front
    requires { head ≡ head_of bytes.now }
    ensures { IsFront result bytes.now }
{
    match head {
        Head::Cut => Front::Cut,
        Head::Bad(fault) => Front::Bad(fault),
        Head::Frame(kind, moment, len) => {
            let end = REQUEST_HEAD + len as usize;
            if bytes.len() < end {
                return Front::Cut;
            }
            Front::Whole(kind, moment, end)
        }
    }
}

/// What stands at the front. Compiled into its callers, since each frame is read so.
#[inline(always)]
#[tactic(auto, unfolding(crate::specs::Requests::head_of))]
pub fn read_front(bytes: &[u8]) -> Front
    ensures { IsFront result bytes.now }
{
    if bytes.len() < REQUEST_HEAD {
        return front_with(Head::Cut, bytes);
    }
    // Nearly all frames bring a packet.
    if bytes[0] == 1 {
        return front_with(head_with(packet_from(bytes[1]), bytes), bytes);
    }
    read_apart(bytes)
}

/// As `read_other`. It has its place in memory for what that gives, so that its caller needs none.
#[inline(always)]
fn read_apart(bytes: &[u8]) -> Front
    requires { 14 ≤ length bytes.now }
    ensures { IsFront result bytes.now }
{
    read_other(bytes)
}

/// What stands at the front, whose header is there.
#[inline(never)]
#[tactic(auto, unfolding(crate::specs::Requests::head_of))]
fn read_other(bytes: &[u8]) -> Front
    requires { 14 ≤ length bytes.now }
    ensures { IsFront result bytes.now }
{
    front_with(head_with(announced_by(bytes[0], bytes[1]), bytes), bytes)
}
