//! Packets of UDP and TCP, as words of 16 bits.
use crate::words::body;
use gateway::Bytes;
use std::alloc::{AllocError, Global};

/// An address in two halves, and a port.
#[derive(Clone, Copy)]
pub struct Peer {
    pub high: u16,
    pub low: u16,
    pub port: u16,
}

// The ones' complement of the words' sum.
fn checksum(words: &[u16]) -> u16 {
    let mut sum: u32 = 0;
    for word in words {
        sum = sum.wrapping_add(u32::from(*word));
    }
    65535 - (sum % 65535) as u16
}

fn put_words(bytes: &mut Vec<u8>, words: &[u16]) -> Result<(), AllocError> {
    for word in words {
        bytes.extend_from_slice(&word.to_be_bytes())?;
    }
    Ok(())
}

// Of so many bytes in all, with 64 hops left.
fn put_header(
    bytes: &mut Vec<u8>,
    len: u16,
    hops_and_proto: u16,
    src: Peer,
    dst: Peer,
) -> Result<(), AllocError> {
    let (high, low) = (dst.high, dst.low);
    let sum = checksum(&[0x4500, len, 1, hops_and_proto, src.high, src.low, high, low]);
    put_words(bytes, &[0x4500, len, 1, 0, hops_and_proto, sum])?;
    put_words(bytes, &[src.high, src.low, high, low])
}

// Without a checksum.
fn put_udp(bytes: &mut Vec<u8>, src: Peer, dst: Peer) -> Result<(), AllocError> {
    put_words(bytes, &[src.port, dst.port, 8, 0])
}

fn put_tcp(bytes: &mut Vec<u8>, src: Peer, dst: Peer, flags: u8) -> Result<(), AllocError> {
    let flags = 0x5000 | u16::from(flags);
    let sum = checksum(&[
        src.high, src.low, dst.high, dst.low, 6, 20, src.port, dst.port, 1, flags, 0xffff,
    ]);
    put_words(
        bytes,
        &[src.port, dst.port, 0, 1, 0, 0, flags, 0xffff, sum, 0],
    )
}

/// A packet of UDP; none where memory is refused.
pub fn udp(alloc: Global, src: Peer, dst: Peer) -> Option<Bytes> {
    let mut bytes = Vec::new(alloc);
    put_header(&mut bytes, 28, 0x4011, src, dst).ok()?;
    put_udp(&mut bytes, src, dst).ok()?;
    body(bytes)
}

/// A packet of TCP with these flags; none where memory is refused.
pub fn tcp(alloc: Global, src: Peer, dst: Peer, flags: u8) -> Option<Bytes> {
    let mut bytes = Vec::new(alloc);
    put_header(&mut bytes, 40, 0x4006, src, dst).ok()?;
    put_tcp(&mut bytes, src, dst, flags).ok()?;
    body(bytes)
}
