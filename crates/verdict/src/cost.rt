//! What asking a hook costs.

ghost use Rattle.std.specs.Prelude.{◌≡◌};
ghost use Rattle.verdict.specs.Costs.{raised_by};

use packet::Steps;
use std::marker::Model;

/// How many matches were looked at. To callers it is their number, which stays at 2^64 - 1 once it is there.
#[derive(Clone, Copy, Drop)]
pub struct Looks {
    count: u64,
}

impl Model for Looks {
    ghost use Rattle.std.specs.Prelude.{ℕ};

    ghost Value = { ℕ };

    ghost view = { λ looks. looks.count };

    ghost inverse = { λ n. record { count = n } };
}

impl Looks {
    /// None yet.
    pub fn none() -> Looks
        ensures { result ≡ 0 }
    {
        Looks { count: 0 }
    }

    /// How many there were.
    pub fn count(&self) -> u64
        ensures { result ≡ self.now }
    {
        self.count
    }

    /// So many more.
    #[tactic(auto, unfolding(crate::specs::Costs::raised_by))]
    #[inline(always)]
    pub(crate) fn add(&mut self, more: usize)
        ensures { self.new ≡ raised_by self.old more }
    {
        self.count = self.count.saturating_add(more as u64);
    }
}

/// What it cost to ask a hook. A rule is passed over if a number of the packet tells that it doesn't match. The matches
/// of a rule are looked at up to the first that doesn't hold, and of equal ones one is.
#[derive(Clone, Copy, Drop)]
pub struct Cost {
    /// The rules that were looked at or passed over.
    pub rules: Steps,
    /// The matches of rules that were looked at.
    pub matches: Looks,
}

impl Cost {
    /// Nothing yet.
    pub(crate) fn none() -> Cost
        ensures rules { result.rules ≡ 0 }
        ensures matches { result.matches ≡ 0 }
    {
        Cost {
            rules: Steps::none(),
            matches: Looks::none(),
        }
    }
}
