//! Integers in a row.

ghost use Rattle.std.specs.Int.{w64};
ghost use Rattle.std.specs.Prelude.{◌<◌, ◌≤◌, ◌^◌, ℕ, pos, ◌+ℤ◌, FitsSigned};

/// At most 2^62 integers that count up by one.
#[derive(Clone, Copy)]
pub struct Run {
    pub first: i64,
    pub count: u64,
    ghost few: { count ≤ 2 ^ 62 },
    ghost in_range: { (i : ℕ) → i < count → FitsSigned w64 (first +ℤ pos i) },
}
