//! Moments, by the system's clocks. Nothing is proved of what these say.
use libc::types::timespec;

/// Moments in seconds: from a first one on, they go as the steady clock does. Setting the system's clock moves none.
#[derive(Clone, Copy, Drop)]
pub struct Clock {
    /// What the steady clock said at the first moment.
    steady: u64,
    first: u64,
}

// What a clock of the system says, in whole seconds.
fn seconds(clock: i32) -> u64 {
    let mut time = timespec {
        tv_sec: 0,
        tv_nsec: 0,
    };
    libc::clock_gettime(clock, &mut time);
    u64::try_from(time.tv_sec).unwrap_or(0)
}

impl Clock {
    /// The first moment is this one, or of 0 that of the system: the seconds since 1970.
    pub fn new(moment: u64) -> Clock {
        let first = if moment == 0 {
            seconds(libc::CLOCK_REALTIME)
        } else {
            moment
        };
        Clock {
            steady: seconds(libc::CLOCK_MONOTONIC),
            first,
        }
    }

    /// The first moment, in seconds.
    pub fn first(&self) -> u64 {
        self.first
    }

    /// The moment now, in seconds.
    pub fn now(&self) -> u64 {
        let passed = seconds(libc::CLOCK_MONOTONIC).saturating_sub(self.steady);
        self.first.saturating_add(passed)
    }
}
