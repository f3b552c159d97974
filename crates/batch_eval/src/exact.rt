//! What is looked for in all lanes at once: bounds in which exact operators can't overflow, those of 32 bits, and what
//! a test asks for.

ghost use Rattle.batch_eval.specs.Batches.{holds};
ghost use Rattle.batch_eval.specs.Lanes.{at, gap as gap_of};
ghost use Rattle.std.specs.Int.{w64};
ghost use Rattle.std.specs.Prelude.{◌≡◌, ◌≤◌, ◌<◌, ℕ, ℤ, pos, ◌+ℤ◌, ◌-ℤ◌, ◌*ℤ◌, ◌≤ℤ◌, FitsSigned, IsTrue, length};
ghost use Rattle.std.specs.Prelude.{neg_ℤ};

use crate::lanes::Lanes;
use crate::number_test::NumberTest;

/// The integers from 0 that need no more than 32 bits.
pub(crate) const NATURAL: (i64, i64) = (0, 2_147_483_647);

/// All integers that need no more than 32 bits.
pub(crate) const SHORT: (i64, i64) = (-2_147_483_648, 2_147_483_647);

/// Bounds of two numbers whose sum and whose difference need no more than 64 bits.
pub(crate) fn of_terms() -> (i64, i64)
    ensures ordered { result.0 ≤ℤ result.1 }
    ensures negations { (x : ℤ) → result.0 ≤ℤ x → x ≤ℤ result.1 → FitsSigned w64 (neg_ℤ x) }
    ensures sums { (x y : ℤ) → result.0 ≤ℤ x → x ≤ℤ result.1 → result.0 ≤ℤ y → y ≤ℤ result.1 → FitsSigned w64 (x +ℤ y) }
    ensures differences { (x y : ℤ) → result.0 ≤ℤ x → x ≤ℤ result.1 → result.0 ≤ℤ y → y ≤ℤ result.1
        → FitsSigned w64 (x -ℤ y) }
{
    (i64::MIN / 2, i64::MAX / 2)
}

/// Bounds of two numbers whose product needs no more than 64 bits.
#[tactic(auto, using(crate::proofs::FitLemmas::product_fits))]
pub(crate) fn of_factors() -> (i64, i64)
    ensures ordered { result.0 ≤ℤ result.1 }
    ensures products { (x y : ℤ) → result.0 ≤ℤ x → x ≤ℤ result.1 → result.0 ≤ℤ y → y ≤ℤ result.1
        → FitsSigned w64 (x *ℤ y) }
{
    SHORT
}

/// Whether a number is within two bounds.
pub(crate) fn is_within(bounds: (i64, i64), x: i64) -> bool
    ensures { IsTrue result → (bounds.0 ≤ℤ x) × (x ≤ℤ bounds.1) }
{
    bounds.0 <= x && x <= bounds.1
}

/// Whether each of these lanes is within two bounds. The loop only collects the bits of the distances from the least
/// number, so it may answer no although they are, unless the greatest distance has ones alone.
pub(crate) fn lanes_within<A: Lanes>(a: A, bounds: (i64, i64), live: usize, out: &[i64]) -> bool
    requires bounds { bounds.0 ≤ℤ bounds.1 }
    requires a { live ≤ A.count a }
    requires out { live ≤ length out.now }
    ensures { IsTrue result → (k : ℕ) → k < live
        → (bounds.0 ≤ℤ A.number a (at out.now k) k) × (A.number a (at out.now k) k ≤ℤ bounds.1) }
{
    let (least, greatest) = bounds;
    let mut bits: u64 = 0;
    for i in 0..live {
        bits |= gap(least, a.get(i, out[i]));
    }
    bits <= gap(least, greatest)
}

/// How far a number is from the least one, modulo 2^64.
fn gap(least: i64, x: i64) -> u64
    ensures { result ≡ gap_of least x }
{
    x.cast_unsigned().wrapping_sub(least.cast_unsigned())
}

/// Whether a test is as it is wanted at each of these lanes. There is no early end, so that the
/// loop has no branch.
pub(crate) fn lanes_pass<A: Lanes>(a: A, test: NumberTest, wanted: bool, live: usize) -> bool
    requires { live ≤ A.count a }
    ensures { IsTrue result → (k : ℕ) → k < live
        → holds test (A.number a (pos 0) k) ≡ wanted }
{
    let mut same = true;
    for i in 0..live {
        same = same & (test.holds(a.get(i, 0)) == wanted);
    }
    same
}
