//! How a walk is kept from going on for nothing.
ghost use Rattle.std.specs.Prelude.{◌≡◌, ◌≢◌, ℕ};
ghost use Rattle.early_stop.specs.Decisive.{no_place};

/// Says from which place of a source on nothing matters to what the walk is for.
pub trait Stop {
    // These places decide it.
    ghost decides: { Self → ℕ → Type 0 };

    /// A place that decides it; the greatest u64 if none is known.
    fn place(&mut self) -> u64
        ensures decides { result ≢ no_place → decides self.old result }
        ensures still { (c : ℕ) → decides self.new c → decides self.old c };
}

/// Knows no place.
#[derive(Clone, Copy)]
pub struct Never;

impl Stop for Never {
    ghost decides = { λ _ _. ⊥ };

    fn place(&mut self) -> u64 {
        u64::MAX
    }
}
