//! The address of a Unix socket, as the system takes it.
ghost use Rattle.std.specs.Prelude.{◌≡◌, ◌<◌, ◌≤◌, ◌⊎◌, ◌+◌, IfNone, IfSome, length, take};
ghost use Rattle.notify.specs.Addresses.{address_bytes};

/// The most bytes of a socket's name.
const LONGEST: usize = 107;

/// The address of a Unix socket: Linux's `struct sockaddr_un` at the front of its `struct sockaddr_storage`.
#[derive(Clone, Copy, Drop)]
pub struct Address {
    /// The family, 1, with the lowest byte first, and the name.
    pub bytes: [u8; 128],
    /// How many bytes of it count.
    pub len: u32,
}

/// The address of the socket of a name: a path, or behind an `@` a name in Linux's abstract namespace, where a byte 0
/// stands for the `@`. None for no byte, and for more than 107.
pub fn address_of(name: &[u8]) -> Option<Address>
    ensures fits { IfSome result (λ address. address.len ≤ 109) }
    ensures some { IfSome result (λ address. (address.len ≡ 2 + length name.now)
        × (take (2 + length name.now) address.bytes ≡ address_bytes name.now)) }
    ensures none { IfNone result ((length name.now ≡ 0) ⊎ (107 < length name.now)) }
{
    let len = name.len();
    if len == 0 || len > LONGEST {
        return None;
    }
    let mut bytes = [0; 128];
    bytes[0] = 1;
    bytes[2..2 + len].copy_from_slice(name);
    if bytes[2] == b'@' {
        bytes[2] = 0;
    }
    Some(Address {
        bytes,
        len: 2 + len as u32,
    })
}
