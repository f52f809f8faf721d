//! The requests of a turn: the moment, the text of a ruleset, and what the devices gave.
ghost use Rattle.std.specs.Prelude.{◌≡◌, ◌⊎◌, ◌+◌, ◌<◌, ◌≤◌, ◌^◌, ◌∷◌, ◌++◌, [], ℕ, List, IfOk, false, true, length, take};
ghost use Rattle.std.specs.List.{AllByRecursion};
ghost use Rattle.devices.specs.Handing.{Gives};
ghost use Rattle.from_devices.specs.Requests.{IsEnough, IsPacket, begun, with_load, with_packets};

use crate::framing::{LOAD, LONGEST_REQUEST, MOMENT};
use crate::room::Room;
use devices::{Device, Header, NO_HEADER};
use packet::Iface;
use std::alloc::{AllocError, Global};
use std::marker::Model;

/// The most requests of a turn.
const MOST_REQUESTS: usize = 256;

/// The most bytes of a ruleset's text.
pub const LONGEST_TEXT: usize = 262_144;

/// The most packets of a device that are taken at a time.
const MOST_TAKEN: usize = 64;

/// What devices gave, as the requests of a turn. Contracts see it as `Gathered`.
#[derive(Drop)]
pub struct FromDevices {
    requests: Room,
    headers: Vec<Header>,
    told: u64,
}

impl Model for FromDevices {
    ghost use Rattle.std.specs.Prelude.{◌≤◌, vec_capacity};
    ghost use Rattle.from_devices.specs.Requests.{Gathered};

    ghost Value = { Gathered };

    ghost view = { λ f. record {
      requests = f.requests;
      headers = f.headers.items;
      told = f.told;
    } };

    ghost invariant = { λ f. 256 ≤ vec_capacity f.headers };
}

impl FromDevices {
    /// No requests. No moment will be before this one, in seconds.
    pub fn new(alloc: Global, moment: u64) -> Result<FromDevices, AllocError>
        ensures { IfOk result (λ from. from
            ≡ record { requests = []; headers = []; told = moment }) }
    {
        let mut headers = Vec::new(alloc);
        headers.reserve(MOST_REQUESTS)?;
        Ok(FromDevices {
            requests: Room::new(alloc)?,
            headers,
            told: moment,
        })
    }

    /// The frames of the requests, one behind the other.
    pub fn requests(&self) -> &[u8]
        ensures { result.now ≡ self.now.requests }
    {
        self.requests.as_slice()
    }

    /// For each request, what the kernel has left to do of its packet; for one without a packet `NO_HEADER`.
    pub fn headers(&self) -> &[Header]
        ensures { result.now ≡ self.now.headers }
    {
        self.headers.as_slice()
    }

    /// The latest moment, in seconds.
    pub fn moment(&self) -> u64
        ensures value { result ≡ self.now.told }
        ensures fits { self.now.told < 2 ^ 64 }
    {
        self.told
    }

    /// Begins a turn at a moment, in seconds: the requests before are forgotten. A moment later than all before is told
    /// by a request; an earlier one counts as the latest.
    #[tactic(auto, unfolding(crate::specs::Requests::request))]
    pub fn begin(&mut self, moment: u64)
        ensures begun { self.new ≡ begun moment self.old }
        ensures short { length self.new.requests ≤ 14 }
        ensures few { length self.new.headers ≤ 1 }
    {
        self.requests.clear();
        self.headers.clear();
        if self.told < moment {
            self.told = moment;
            self.requests.put(MOMENT, moment, &[]);
            self.headers.push_reserved(NO_HEADER);
        }
    }

    /// Puts a request that loads a ruleset behind the others. The text has at most 262,144 bytes.
    pub fn load(&mut self, text: &[u8])
        requires room { length self.old.requests ≤ 262144 }
        requires few { length self.old.headers < 256 }
        requires short { length text.now ≤ 262144 }
        ensures { self.new ≡ with_load text.now self.old }
    {
        self.requests.put(LOAD, self.told, text);
        self.headers.push_reserved(NO_HEADER);
    }

    // Puts the request of the next packet that a device has now behind the others, and says whether there was one.
    fn take_one<D: Device>(&mut self, iface: Iface, device: &mut D) -> bool
        requires room { length self.old.requests + 65549 ≤ 1048576 }
        requires few { length self.old.headers < 256 }
        ensures took { result ≡ true → (given : List ℕ)
            × Gives (D.coming device.old) (D.coming device.new) (given ∷ [])
            × IsPacket given
            × (self.new ≡ with_packets iface (given ∷ []) self.old) }
        ensures none { result ≡ false → (D.coming device.new ≡ D.coming device.old)
            × D.has_none device.new
            × (self.new ≡ self.old) }
        ensures handed { D.handed device.new ≡ D.handed device.old }
        ensures waited { D.waited device.new ≡ D.waited device.old }
    {
        match self.requests.take(iface, self.told, device) {
            Some(header) => {
                self.headers.push_reserved(header);
                true
            }
            None => false,
        }
    }

    /// Puts the requests of packets that a device gives behind the others, in its order: of all that it has now, or of
    /// the first ones, up to 64 and as far as there is room below `most` bytes of requests.
    pub fn take<D: Device>(&mut self, iface: Iface, device: &mut D, most: usize)
        ensures took { (given : List (List ℕ))
            × Gives (D.coming device.old) (D.coming device.new) given
            × AllByRecursion IsPacket given
            × (self.new ≡ with_packets iface given self.old) }
        ensures all { D.has_none device.new ⊎ IsEnough most self.old self.new }
        ensures few { length self.new.headers ≤ length self.old.headers + 64 }
        ensures handed { D.handed device.new ≡ D.handed device.old }
        ensures waited { D.waited device.new ≡ D.waited device.old }
    {
        let most = most.min(crate::room::MOST_BYTES);
        for _taken in 0..MOST_TAKEN {
            if self.requests.len() + LONGEST_REQUEST > most || self.headers.len() >= MOST_REQUESTS {
                return;
            }
            if !self.take_one(iface, device) {
                return;
            }
        }
    }
}
