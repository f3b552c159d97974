//! What a seat knows, for proofs alone.
ghost use Rattle.std.specs.Prelude.{ℕ, List};
ghost use Rattle.std.specs.Borrow.{ftrue};

use std::marker::Model;

/// Places by their segments. No value of it is made.
pub struct KnownPlaces {
    /// The places that the seat lowered.
    pub ghost lowered: { List (ℕ × ℕ) },
    /// The places that a word was known to have reached: the seat, or one that it was split off from, lowered or saw
    /// them.
    pub ghost known: { List (ℕ × ℕ) },
}

impl Model for KnownPlaces {
    ghost also_owns = { λ _. ftrue };
}
