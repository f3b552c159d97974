//! A count of failures that doesn't wrap.
ghost use Rattle.std.specs.Prelude.{◌≡◌};
ghost use Rattle.counted_io.specs.FailureCounts.{one_more};

use std::marker::Model;

/// How many calls failed. Contracts see the number.
#[derive(Drop)]
pub(crate) struct FailureCount {
    count: u64,
}

impl Model for FailureCount {
    ghost use Rattle.std.specs.Prelude.{ℕ};

    ghost Value = { ℕ };

    ghost view = { λ failures. failures.count };
}

impl FailureCount {
    /// No failures.
    pub(crate) fn none() -> FailureCount
        ensures { result ≡ 0 }
    {
        FailureCount { count: 0 }
    }

    /// One more failure; at `u64::MAX` the count stays.
    pub(crate) fn rise(&mut self)
        ensures { self.new ≡ one_more self.old }
    {
        self.count = self.count.saturating_add(1);
    }

    /// How many failures were counted; it stays at `u64::MAX` once it is there.
    pub(crate) fn get(&self) -> u64
        ensures { result ≡ self.now }
    {
        self.count
    }
}
