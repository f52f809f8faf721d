//! The meter of both disks in memory: how many calls there were and how many failed, and which one is to fail.
ghost use Rattle.std.specs.Prelude.{◌≡◌, ◌+◌, ◌≤◌, Some, None};
ghost use Rattle.disk_model.specs.Disk.{Grew};
ghost use Rattle.trial_disk.specs.Metered.{Metered, ticked, failed, turn_of, turn_by, burnt, spent, is_due};
ghost use Rattle.trial_disk.specs.declared.meter.Turn.TheVariants.{Passes, Refused, Cut};

use std::marker::Model;

/// What becomes of a call.
#[derive(Clone, Copy, PartialEq, Eq)]
pub(crate) enum Turn {
    /// It runs.
    Passes,
    /// It fails and touches nothing.
    Refused,
    /// It fails, and a write puts the first half of its bytes.
    Cut,
}

/// Counts calls and failures, and says which call is to fail.
#[derive(Drop)]
pub(crate) struct Meter {
    calls: u64,
    failures: u64,
    fuse: Option<u64>,
    once: Option<u64>,
}

impl Model for Meter {
    ghost use Rattle.trial_disk.specs.Metered.{Metered};

    ghost Value = { Metered };

    ghost view = { λ m. record {
      calls = m.calls;
      failures = m.failures;
      fuse = m.fuse;
      once = m.once;
    } };
}

impl Meter {
    /// No call yet, and none is to fail.
    pub(crate) fn new() -> Meter
        ensures { result ≡ record { calls = 0; failures = 0; fuse = None; once = None } }
    {
        Meter {
            calls: 0,
            failures: 0,
            fuse: None,
            once: None,
        }
    }

    /// How many calls there were, up to the greatest u64.
    pub(crate) fn calls(&self) -> u64
        ensures { result ≡ self.now.calls }
    {
        self.calls
    }

    /// How many calls have failed, up to the greatest u64.
    pub(crate) fn failures(&self) -> u64
        ensures { result ≡ self.now.failures }
    {
        self.failures
    }

    /// This many calls pass from now on, and all later ones are refused.
    pub(crate) fn set_fuse(&mut self, calls: u64)
        ensures { self.new ≡ record self.old { fuse = Some calls } }
    {
        self.fuse = Some(calls);
    }

    /// This many calls pass from now on, and the next one is cut.
    pub(crate) fn set_once(&mut self, calls: u64)
        ensures { self.new ≡ record self.old { once = Some calls } }
    {
        self.once = Some(calls);
    }

    /// No call is to fail from now on.
    pub(crate) fn clear(&mut self)
        ensures { self.new ≡ record self.old { fuse = None; once = None } }
    {
        self.fuse = None;
        self.once = None;
    }

    /// Counts a call, and says what becomes of it.
    pub(crate) fn tick(&mut self) -> Turn
        ensures turn { result ≡ turn_of self.old }
        ensures meter { self.new ≡ ticked self.old }
    {
        let turn = turn_by(self.fuse, self.once);
        self.calls = self.calls.saturating_add(1);
        self.fuse = burnt(self.fuse);
        self.once = spent(self.once);
        turn
    }

    /// Counts a failure.
    pub(crate) fn fail(&mut self)
        ensures meter { self.new ≡ failed self.old }
        ensures later { self.old.failures ≤ self.new.failures }
        ensures by_one { self.new.failures ≤ self.old.failures + 1 }
        ensures grew { Grew self.old.failures self.new.failures }
    {
        self.failures = self.failures.saturating_add(1);
    }
}

fn turn_by(fuse: Option<u64>, once: Option<u64>) -> Turn
    ensures { result ≡ turn_by fuse once }
{
    if is_due(fuse) {
        return Turn::Refused;
    }
    if is_due(once) {
        return Turn::Cut;
    }
    Turn::Passes
}

fn is_due(left: Option<u64>) -> bool
    ensures { result ≡ is_due left }
{
    match left {
        Some(left) => left == 0,
        None => false,
    }
}

fn burnt(fuse: Option<u64>) -> Option<u64>
    ensures { result ≡ burnt fuse }
{
    match fuse {
        Some(left) => Some(left.saturating_sub(1)),
        None => None,
    }
}

fn spent(once: Option<u64>) -> Option<u64>
    ensures { result ≡ spent once }
{
    match once {
        Some(0) => None,
        Some(left) => Some(left - 1),
        None => None,
    }
}
