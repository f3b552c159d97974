//! The segments of a run, as `Cut` needs to know them.
ghost use Rattle.std.specs.Prelude.{◌≡◌, ℕ};
ghost use Rattle.trace.specs.Trace.{Trace};

/// The segments of a run, in a fixed order.
pub trait Segments {
    /// What a segment gives.
    type Outcome;

    ghost count: { Self → ℕ };

    // The walk of a segment's source.
    ghost source: { Self → ℕ → Trace };

    // What a segment would give over a source.
    ghost outcome: { Self → ℕ → Trace → Self.Outcome };

    /// How many segments there are.
    fn segments(&self) -> u32
        ensures { result ≡ count self.now };
}
