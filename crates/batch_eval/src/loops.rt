//! The loops over lanes, each for any operator and any operands.

ghost use Rattle.batch_eval.specs.Lanes.{Reaches, at};
ghost use Rattle.batch_eval.specs.Reciprocals.{IsWithin};
ghost use Rattle.std.specs.Prelude.{ℕ, ◌<◌, ◌≤◌, length};

use crate::division::Division;
use crate::kernel::Kernel;
use crate::lanes::Lanes;
use crate::reached::{Reached, all};
use crate::reciprocal::Divisor;

/// An operator between two operands at each lane.
pub(crate) fn run<K: Kernel, A: Lanes, B: Lanes>(
    a: A,
    b: B,
    live: usize,
    out: &mut [i64],
) -> Reached
    requires a { live ≤ A.count a }
    requires b { live ≤ B.count b }
    requires out { live ≤ length out.old }
    ensures { Reaches (λ k. K.value (A.number a (at out.old k) k) (B.number b (at out.old k) k))
        (at out.new) live result }
{
    for i in 0..live {
        let old = out[i];
        match K::apply(a.get(i, old), b.get(i, old)) {
            Ok(value) => out[i] = value,
            Err(kind) => {
                return Reached {
                    live: i,
                    fault: Some(kind),
                };
            }
        }
    }
    all(live)
}

/// A division by a divisor with a reciprocal at each lane.
pub(crate) fn divide<D: Division, R: Divisor, A: Lanes>(
    a: A,
    by: R,
    live: usize,
    out: &mut [i64],
) -> Reached
    requires by { R.divides by }
    requires a { live ≤ A.count a }
    requires out { live ≤ length out.old }
    requires within { (k : ℕ) → k < live → IsWithin R.most (A.number a (at out.old k) k) }
    ensures { Reaches (λ k. D.value (A.number a (at out.old k) k) (R.number by)) (at out.new) live result }
{
    for i in 0..live {
        let old = out[i];
        out[i] = D::apply(a.get(i, old), by);
    }
    all(live)
}
