//! The line of a packet that was dropped. Nothing is proved of its words.
use crate::causes::cause_name;
use crate::reading::{End, TCP, UDP, destination, flags, of_version_four, protocol, source};
use itoa::Buffer;
use std::alloc::AllocError;

/// The names of TCP's flags, from the lowest bit on.
const FLAGS: [&str; 8] = ["fin", "syn", "rst", "psh", "ack", "urg", "ece", "cwr"];

/// What stands where nothing is known.
const NONE: &[u8] = b"-";

fn put_number(out: &mut Vec<u8>, number: u64) -> Result<(), AllocError> {
    let mut digits = Buffer::new();
    out.extend_from_slice(digits.format(number).as_bytes())
}

fn put_word(out: &mut Vec<u8>, word: &str) -> Result<(), AllocError> {
    out.push(b' ')?;
    out.extend_from_slice(word.as_bytes())
}

fn put_address(out: &mut Vec<u8>, address: &[u8]) -> Result<(), AllocError> {
    let mut is_first = true;
    for byte in address {
        if !is_first {
            out.push(b'.')?;
        }
        is_first = false;
        put_number(out, *byte as u64)?;
    }
    Ok(())
}

// Its address, and its port, if there is one.
fn put_end(out: &mut Vec<u8>, end: Option<End<'_>>) -> Result<(), AllocError> {
    out.push(b' ')?;
    let Some(end) = end else {
        return out.extend_from_slice(NONE);
    };
    put_address(out, end.address)?;
    if let Some(port) = end.port {
        out.push(b':')?;
        put_number(out, port as u64)?;
    }
    Ok(())
}

// The name of a protocol, or its number.
fn put_protocol(out: &mut Vec<u8>, protocol: Option<u8>) -> Result<(), AllocError> {
    match protocol {
        Some(TCP) => put_word(out, "tcp"),
        Some(UDP) => put_word(out, "udp"),
        Some(number) => {
            out.push(b' ')?;
            put_number(out, number as u64)
        }
        None => put_word(out, "-"),
    }
}

// The names of the flags that are set, joined by commas.
fn put_flags(out: &mut Vec<u8>, flags: u8) -> Result<(), AllocError> {
    let mut is_first = true;
    for bit in 0..8_usize {
        if flags >> bit & 1 == 1 {
            if !is_first {
                out.push(b',')?;
            }
            is_first = false;
            out.extend_from_slice(FLAGS[bit].as_bytes())?;
        }
    }
    Ok(())
}

fn put_flags_of(out: &mut Vec<u8>, packet: &[u8]) -> Result<(), AllocError> {
    out.push(b' ')?;
    match flags(packet) {
        None | Some(0) => out.extend_from_slice(NONE),
        Some(flags) => put_flags(out, flags),
    }
}

fn put_packet(out: &mut Vec<u8>, packet: &[u8]) -> Result<(), AllocError> {
    put_protocol(out, protocol(packet))?;
    put_end(out, source(packet))?;
    put_end(out, destination(packet))?;
    put_flags_of(out, packet)
}

/// Appends the line of a packet that was dropped, without its end. Its words are `dropped`, the moment in seconds, the
/// name of the cause, the side that it came from, its protocol, its source, its destination, and its flags of TCP; `-`
/// stands for each of the last four that isn't known. Of the packet the first bytes do.
///
/// # Errors
///
/// `AllocError` if memory is refused.
pub fn put_line(
    out: &mut Vec<u8>,
    moment: u64,
    cause: u8,
    side: &str,
    packet: &[u8],
) -> Result<(), AllocError> {
    out.extend_from_slice(b"dropped ")?;
    put_number(out, moment)?;
    put_word(out, cause_name(cause as usize))?;
    put_word(out, side)?;
    put_packet(out, of_version_four(packet).unwrap_or(&[]))
}
