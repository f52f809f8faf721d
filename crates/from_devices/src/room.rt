//! The bytes of requests, one behind the other, in memory that is kept.
ghost use Rattle.std.specs.Prelude.{◌≡◌, ◌+◌, ◌≤◌, ◌∷◌, ◌++◌, [], ℕ, List, IfNone, IfOk, IfSome, length, take};
ghost use Rattle.devices.specs.Handing.{Gives};
ghost use Rattle.from_devices.specs.Requests.{IsPacket, packet_request, request};

use crate::framing::{LONGEST_REQUEST, REQUEST_HEAD, put_request, take_packet};
use devices::{Device, Header};
use packet::Iface;
use std::alloc::{AllocError, Global};
use std::marker::Model;

/// The most bytes of the requests of a turn.
pub const MOST_BYTES: usize = 1_048_576;

/// Bytes of requests. Contracts see the bytes.
#[derive(Drop)]
pub struct Room {
    bytes: Vec<u8>,
    /// How many of the bytes are requests.
    end: usize,
}

impl Model for Room {
    ghost use Rattle.std.specs.Prelude.{◌≡◌, ◌≤◌, ℕ, List, length, take};

    ghost Value = { List ℕ };

    ghost view = { λ r. take r.end r.bytes.items };

    ghost invariant = { λ r. (r.end ≤ 1048576) × (length r.bytes.items ≡ 1048576) };
}

impl Room {
    /// No requests.
    pub fn new(alloc: Global) -> Result<Room, AllocError>
        ensures { IfOk result (λ room. room ≡ []) }
    {
        let mut bytes = Vec::new(alloc);
        bytes.resize(MOST_BYTES, 0)?;
        Ok(Room { bytes, end: 0 })
    }

    /// Forgets the requests.
    pub fn clear(&mut self)
        ensures { self.new ≡ [] }
    {
        self.end = 0;
    }

    /// How many bytes there are.
    pub fn len(&self) -> usize
        ensures value { result ≡ length self.now }
        ensures most { result ≤ 1048576 }
    {
        self.end
    }

    /// The bytes.
    pub fn as_slice(&self) -> &[u8]
        ensures { result.now ≡ self.now }
    {
        &self.bytes.as_slice()[..self.end]
    }

    /// Puts the request of a body behind the others. The moment is in seconds.
    pub fn put(&mut self, kind: u8, moment: u64, body: &[u8])
        requires { length self.old + 14 + length body.now ≤ 1048576 }
        ensures { self.new ≡ self.old ++ request kind 0 moment body.now }
    {
        let end = self.end + REQUEST_HEAD + body.len();
        let place = &mut self.bytes.as_mut_slice()[self.end..end];
        put_request(place, kind, moment, body);
        self.end = end;
    }

    /// Puts the request of the next packet that a device gives behind the others, if it has one now, and gives the
    /// packet's header. The moment is in seconds.
    pub fn take<D: Device>(&mut self, iface: Iface, moment: u64, device: &mut D) -> Option<Header>
        requires { length self.old + 65549 ≤ 1048576 }
        ensures some { IfSome result (λ header. (given : List ℕ)
            × Gives (D.coming device.old) (D.coming device.new) (given ∷ [])
            × (header ≡ take 10 given)
            × (self.new ≡ self.old ++ packet_request moment iface given)
            × IsPacket given) }
        ensures none { IfNone result ((D.coming device.new ≡ D.coming device.old)
            × D.has_none device.new
            × (self.new ≡ self.old)) }
        ensures handed { D.handed device.new ≡ D.handed device.old }
        ensures waited { D.waited device.new ≡ D.waited device.old }
    {
        let end = self.end + LONGEST_REQUEST;
        let place = &mut self.bytes.as_mut_slice()[self.end..end];
        match take_packet(place, iface, moment, device) {
            Some(got) => {
                let header = got.0;
                self.end += got.1;
                Some(header)
            }
            None => None,
        }
    }
}
