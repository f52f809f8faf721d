//! Numbers (big-endian), texts and endpoints at the front of bytes: each is answered with what stands behind it, or
//! none where the bytes don't begin with one.
ghost use Rattle.durable.specs.Reading.{Gives, byte_at, number_at, text_at, proto_at, opener_at, filtering_at, endpoint_at};

use byteorder::{BigEndian, ByteOrder};
use packet::{Endpoint, Filtering, Proto};
use sessions::Opener;

/// A byte by itself.
pub fn byte_of(bytes: &[u8]) -> Option<(u8, &[u8])>
    ensures { Gives (λ x. (x.0, x.1.now)) result (byte_at bytes.now) }
{
    match bytes {
        [] => None,
        [byte, rest @ ..] => Some((*byte, rest)),
    }
}

#[tactic(auto, unfolding(crate::specs::Reading::number_at))]
fn u16_of(bytes: &[u8]) -> Option<(u16, &[u8])>
    ensures { Gives (λ x. (x.0, x.1.now)) result (number_at 2 bytes.now) }
{
    if bytes.len() < 2 {
        return None;
    }
    let (_, rest) = bytes.split_at(2);
    Some((BigEndian::read_u16(bytes), rest))
}

#[tactic(auto, unfolding(crate::specs::Reading::number_at))]
pub fn u32_of(bytes: &[u8]) -> Option<(u32, &[u8])>
    ensures { Gives (λ x. (x.0, x.1.now)) result (number_at 4 bytes.now) }
{
    if bytes.len() < 4 {
        return None;
    }
    let (_, rest) = bytes.split_at(4);
    Some((BigEndian::read_u32(bytes), rest))
}

/// A text behind its length, which has four bytes.
#[tactic(auto, unfolding(crate::specs::Reading::text_at, crate::specs::Reading::front_at))]
pub fn text_of(bytes: &[u8]) -> Option<(&[u8], &[u8])>
    ensures { Gives (λ x. (x.0.now, x.1.now)) result (text_at 4 bytes.now) }
{
    let (len, rest) = u32_of(bytes)?;
    let len = len as usize;
    if rest.len() < len {
        return None;
    }
    Some(rest.split_at(len))
}

#[tactic(auto, unfolding(crate::specs::Reading::proto_at))]
pub fn proto_of(bytes: &[u8]) -> Option<(Proto, &[u8])>
    ensures { Gives (λ x. (x.0, x.1.now)) result (proto_at bytes.now) }
{
    let (number, rest) = byte_of(bytes)?;
    let proto = Proto::of_number(number)?;
    Some((proto, rest))
}

#[tactic(auto, unfolding(crate::specs::Reading::opener_at))]
pub fn opener_of(bytes: &[u8]) -> Option<(Opener, &[u8])>
    ensures { Gives (λ x. (x.0, x.1.now)) result (opener_at bytes.now) }
{
    let (code, rest) = byte_of(bytes)?;
    let opener = Opener::of_code(code)?;
    Some((opener, rest))
}

#[tactic(auto, unfolding(crate::specs::Reading::filtering_at))]
pub fn filtering_of(bytes: &[u8]) -> Option<(Filtering, &[u8])>
    ensures { Gives (λ x. (x.0, x.1.now)) result (filtering_at bytes.now) }
{
    let (code, rest) = byte_of(bytes)?;
    let filtering = Filtering::of_code(code)?;
    Some((filtering, rest))
}

#[tactic(auto, unfolding(crate::specs::Reading::endpoint_at))]
pub fn endpoint_of(bytes: &[u8]) -> Option<(Endpoint, &[u8])>
    ensures { Gives (λ x. (x.0, x.1.now)) result (endpoint_at bytes.now) }
{
    let (addr, rest) = u32_of(bytes)?;
    let (port, rest) = u16_of(rest)?;
    Some((Endpoint { addr, port }, rest))
}

/// A byte that is a number of its own width, as a count or a length. It is found as by `byte_of`; contracts see it as
/// they see longer numbers.
#[tactic(auto, unfolding(crate::specs::Reading::number_at))]
pub fn u8_of(bytes: &[u8]) -> Option<(u8, &[u8])>
    ensures { Gives (λ x. (x.0, x.1.now)) result (number_at 1 bytes.now) }
{
    if bytes.len() < 1 {
        return None;
    }
    let (_, rest) = bytes.split_at(1);
    Some((bytes[0], rest))
}

#[tactic(auto, unfolding(crate::specs::Reading::number_at))]
pub fn u64_of(bytes: &[u8]) -> Option<(u64, &[u8])>
    ensures { Gives (λ x. (x.0, x.1.now)) result (number_at 8 bytes.now) }
{
    if bytes.len() < 8 {
        return None;
    }
    let (_, rest) = bytes.split_at(8);
    Some((BigEndian::read_u64(bytes), rest))
}

/// A name behind its length, which has one byte.
#[tactic(auto, unfolding(crate::specs::Reading::text_at, crate::specs::Reading::front_at))]
pub fn name_of(bytes: &[u8]) -> Option<(&[u8], &[u8])>
    ensures { Gives (λ x. (x.0.now, x.1.now)) result (text_at 1 bytes.now) }
{
    let (len, rest) = u8_of(bytes)?;
    let len = len as usize;
    if rest.len() < len {
        return None;
    }
    Some(rest.split_at(len))
}
