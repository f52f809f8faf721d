//! A device: what it gives, and what it is handed to be let out.
ghost use Rattle.std.specs.Prelude.{◌≡◌, ◌≤◌, ℕ, List, [], ◌∷◌, Option, None, IfNone, IfSome, length};
ghost use Rattle.devices.specs.Handing.{Gave, Hands};

/// The bytes of the header in front of a packet.
pub const HEADER: usize = 10;

/// The most bytes of a packet.
pub const LONGEST_PACKET: usize = 65_535;

/// The most bytes of a header with its packet.
pub const LONGEST_FRAME: usize = HEADER + LONGEST_PACKET;

/// What the kernel has left to whoever sends a packet on: Linux's `struct virtio_net_hdr`, whose numbers have their
/// lowest byte first (`TUNSETVNETLE`). Byte 0 has flags, of which bit 0 says that a checksum is open. Byte 1 says how
/// the packet is to be cut into segments, bytes 2 and 3 how long what goes in front of each of them is, 4 and 5 how
/// many bytes each has. The open checksum sums up all from the place in bytes 6 and 7 on, and stands as many bytes
/// behind that place as bytes 8 and 9 say.
pub type Header = [u8; HEADER];

/// Nothing is left to do.
pub const NO_HEADER: Header = [0; HEADER];

/// A device between which and a gateway IP packets go, each with its header in front.
pub trait Device {
    /// What it gives from here on, each time a header and its packet, where that is known.
    ghost coming: { Self → Option (List (List ℕ)) } = { λ _. None };

    /// How often it was waited for, each time before a turn, where that is known.
    ghost waited: { Self → Option ℕ } = { λ _. None };

    /// It has no packet now, as far as it was asked.
    ghost has_none: { Self → Type 0 };

    /// What it was handed to be let out, where that is known.
    ghost handed: { Self → Option (List (List ℕ)) } = { λ _. None };

    /// Takes the next packet that the device gives, with its header, to the front of the room, and says how many bytes
    /// both have; `None` if it has none now.
    fn receive(&mut self, room: &mut [u8]) -> Option<usize>
        requires room { 65545 ≤ length room.old }
        ensures gave { Gave (coming self.old) (coming self.new) result room.new }
        ensures none { IfNone result (has_none self.new) }
        ensures header { IfSome result (λ n. 10 ≤ n) }
        ensures longest { IfSome result (λ n. n ≤ 65545) }
        ensures handed { handed self.new ≡ handed self.old }
        ensures waited { waited self.new ≡ waited self.old };

    /// Hands a header and its packet to the device, and says whether it lets the packet out. One that is full, down or
    /// gone doesn't, and the packet is lost, as on any link.
    fn send(&mut self, frame: &[u8]) -> bool
        requires header { 10 ≤ length frame.now }
        ensures handed { Hands (handed self.old) (handed self.new) (frame.now ∷ []) }
        ensures coming { coming self.new ≡ coming self.old }
        ensures waited { waited self.new ≡ waited self.old };
}
