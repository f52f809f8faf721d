//! How many packets there were. The counts are for people. At the greatest u64 a count stays.
ghost use Rattle.std.specs.Prelude.{◌≡◌, ◌≢◌, ◌≤◌, false, drop, length, slice_index};
ghost use Rattle.to_devices.specs.Counting.{counted, drops_one, handed_on, no_counts, no_packets};

/// How many causes of drops there are, and one more: 0 is none.
pub const CAUSES: usize = 21;

/// The kinds of answers that are counted.
const DROPPED: u8 = 2;

const LOADED: u8 = 3;

const REFUSED: u8 = 4;

/// Where the first byte of an answer's body stands.
const BODY: usize = 13;

/// What became of the packets of a device.
#[derive(Clone, Copy, Debug, PartialEq, Eq, Drop)]
pub struct Side {
    /// How many it let out.
    pub left: u64,
    /// How many bytes these had.
    pub left_bytes: u64,
    /// How many it was handed and didn't let out.
    pub lost: u64,
    /// How many that came from it were dropped, by the number of the cause (docs/frames.md).
    pub dropped: [u64; CAUSES],
}

/// What became of requests.
#[derive(Clone, Copy, Debug, PartialEq, Eq, Drop)]
pub struct Counts {
    /// The device of lan.
    pub lan: Side,
    /// The device of wan.
    pub wan: Side,
    /// How many rulesets were loaded.
    pub loaded: u64,
    /// How many were refused.
    pub refused: u64,
}

impl Side {
    fn none() -> Side
        ensures { result ≡ no_packets }
    {
        Side {
            left: 0,
            left_bytes: 0,
            lost: 0,
            dropped: [0; CAUSES],
        }
    }

    // One more of so many bytes was handed on; whether it was let out.
    pub(crate) fn leave(&mut self, bytes: usize, out: bool)
        ensures { self.new ≡ handed_on out bytes self.old }
    {
        if out {
            self.left = self.left.saturating_add(1);
            self.left_bytes = self.left_bytes.saturating_add(bytes as u64);
        } else {
            self.lost = self.lost.saturating_add(1);
        }
    }

    // One more packet that is dropped.
    fn drop_one(&mut self, frame: &[u8])
        requires { 13 ≤ length frame.now }
        ensures { self.new ≡ drops_one (drop 13 frame.now) self.old }
    {
        if frame.len() <= BODY {
            return;
        }
        let cause = frame[BODY] as usize;
        if cause < CAUSES {
            self.dropped[cause] = self.dropped[cause].saturating_add(1);
        }
    }
}

impl Counts {
    /// There was nothing yet.
    pub fn none() -> Counts
        ensures { result ≡ no_counts }
    {
        Counts {
            lan: Side::none(),
            wan: Side::none(),
            loaded: 0,
            refused: 0,
        }
    }

    // One more answer, by which no packet leaves; whether its request came from wan.
    pub(crate) fn tell(&mut self, frame: &[u8], from_wan: bool)
        requires whole { 13 ≤ length frame.now }
        requires stays { slice_index frame.now 0 ≢ 1 }
        ensures { self.new
            ≡ counted from_wan false (slice_index frame.now 0) (drop 13 frame.now) self.old }
    {
        match frame {
            [LOADED, ..] => self.loaded = self.loaded.saturating_add(1),
            [REFUSED, ..] => self.refused = self.refused.saturating_add(1),
            [DROPPED, ..] if from_wan => self.wan.drop_one(frame),
            [DROPPED, ..] => self.lan.drop_one(frame),
            _ => {}
        }
    }
}
