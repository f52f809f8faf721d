//! Bytes that contracts see as a list.
ghost use Rattle.std.specs.Prelude.{◌≡◌, ◌^◌, ◌<◌, length};
ghost use Rattle.packet.specs.Laws.{AreBytes};

use std::marker::Model;

/// What every slice of bytes keeps: each is below 256, as the laws of packets ask. It does nothing but carry this.
pub fn bytes_fit(bytes: &[u8])
    ensures { AreBytes bytes.now }
{}

/// A packet or a text of fewer than 2^31 bytes, seen as the list of them.
#[derive(Drop)]
pub struct Bytes {
    bytes: Vec<u8>,
}

impl Model for Bytes {
    ghost use Rattle.std.specs.Prelude.{List, ℕ, ◌<◌, ◌^◌, length};

    ghost Value = { List ℕ };

    ghost view = { λ a. a.bytes.items };

    ghost invariant = { λ a. length a.bytes.items < 2 ^ 31 };
}

impl Bytes {
    /// These bytes, of which there are fewer than 2^31.
    pub fn of(bytes: Vec<u8>) -> Bytes
        requires { length bytes.items < 2 ^ 31 }
        ensures { result ≡ bytes.items }
    {
        Bytes { bytes }
    }

    /// The bytes.
    pub fn as_slice(&self) -> &[u8]
        ensures value { result.now ≡ self.now }
        ensures small { length self.now < 2 ^ 31 }
    {
        self.bytes.as_slice()
    }

    /// The bytes, in the vector that they came in.
    pub fn into_vec(self) -> Vec<u8>
        ensures { result.items ≡ self }
    {
        self.bytes
    }
}
