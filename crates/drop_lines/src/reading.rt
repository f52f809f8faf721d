//! What can be read of a packet, whatever is wrong with it.

/// The numbers of the protocols.
pub(crate) const TCP: u8 = 6;

pub(crate) const UDP: u8 = 17;

/// The bytes of a header of IPv4 without options.
const HEADER: usize = 20;

/// An address of IPv4, with its port, if one can be read.
#[derive(Clone, Copy, Drop)]
pub(crate) struct End<'a> {
    pub(crate) address: &'a [u8],
    pub(crate) port: Option<u16>,
}

/// The bytes of a packet of IPv4, as far as they are at hand; none of any other.
pub(crate) fn of_version_four(packet: &[u8]) -> Option<&[u8]> {
    if packet.len() < HEADER || packet[0] / 16 != 4 {
        return None;
    }
    Some(packet)
}

/// The number of its protocol.
pub(crate) fn protocol(packet: &[u8]) -> Option<u8> {
    packet.get(9).copied()
}

// Its transport part, if it is TCP or UDP and no later fragment.
fn transport(packet: &[u8]) -> Option<&[u8]> {
    let is_known = matches!(protocol(packet), Some(TCP | UDP));
    if !is_known || packet.len() < HEADER || packet[6] % 32 != 0 || packet[7] != 0 {
        return None;
    }
    packet.get(4 * (packet[0] % 16) as usize..)
}

fn port_at(packet: &[u8], at: usize) -> Option<u16> {
    match transport(packet)?.get(at..)? {
        [high, low, ..] => Some(u16::from_be_bytes([*high, *low])),
        _ => None,
    }
}

/// Where it came from.
pub(crate) fn source(packet: &[u8]) -> Option<End<'_>> {
    Some(End {
        address: packet.get(12..16)?,
        port: port_at(packet, 0),
    })
}

/// Where it was to go.
pub(crate) fn destination(packet: &[u8]) -> Option<End<'_>> {
    Some(End {
        address: packet.get(16..20)?,
        port: port_at(packet, 2),
    })
}

/// Its flags, if it is TCP.
pub(crate) fn flags(packet: &[u8]) -> Option<u8> {
    if protocol(packet) != Some(TCP) {
        return None;
    }
    transport(packet)?.get(13).copied()
}
