//! Lanes by their flags: the lanes of one kind moved to a register of their own, and two of these registers merged
//! again.

ghost use Rattle.batch_eval.specs.Batches.{holds, wanted, wants};
ghost use Rattle.batch_eval.specs.Lanes.{Reaches, at, is_set as is_set_flag};
ghost use Rattle.lambda_values.specs.declared.fault.FaultKind.{FaultKind};
ghost use Rattle.std.specs.Prelude.{◌≡◌, ℕ, ℤ, ◌<◌, ◌≤◌, IsTrue, Result, false, length, slice_index, true};
ghost use Rattle.std.specs.Prelude.{if◌then◌else◌};

use crate::exact::lanes_pass;
use crate::flag::is_set;
use crate::lanes::{Lanes, Register};
use crate::number_test::NumberTest;
use crate::reached::{Reached, all};

/// How many flags are looked at to find out whether most are set, or whether some are.
pub(crate) const SAMPLE: usize = 128;

/// Whether a flag is as it is wanted.
pub(crate) fn is_wanted(flag: i64, kind: bool) -> bool
    ensures { result ≡ wants kind flag }
{
    if kind { flag != 0 } else { flag == 0 }
}

/// Whether each flag is as it is wanted.
pub(crate) fn all_flags(flags: &[i64], kind: bool, live: usize) -> bool
    requires { live ≤ length flags.now }
    ensures { IsTrue result → (k : ℕ) → k < live → is_set_flag (at flags.now k) ≡ kind }
{
    lanes_pass(Register(flags), NumberTest::is_set(), kind, live)
}

/// Whether no flag is set, as this test says. Mostly one of the first flags is: only if none of them is, it looks at
/// the others.
pub(crate) fn none_set(flags: &[i64], set: NumberTest, live: usize) -> bool
    requires { live ≤ length flags.now }
    ensures { IsTrue result → (k : ℕ) → k < live → holds set (at flags.now k) ≡ false }
{
    let lanes = Register(flags);
    lanes_pass(lanes, set, false, live.min(SAMPLE)) && lanes_pass(lanes, set, false, live)
}

/// The numbers of the lanes whose flag is as it is wanted, one after the other, and how many they are.
pub(crate) fn gather(flags: &[i64], kind: bool, live: usize, xs: &[i64], out: &mut [i64]) -> usize
    requires flags { live ≤ length flags.now }
    requires xs { live ≤ length xs.now }
    requires out { live ≤ length out.old }
    ensures count { result ≡ length (wanted kind flags.now live) }
    ensures within { result ≤ live }
    ensures values { (j : ℕ) → j < result → at out.new j ≡ at xs.now (slice_index (wanted kind flags.now live) j) }
{
    let mut kept = 0;
    for i in 0..live {
        out[kept] = xs[i];
        if is_wanted(flags[i], kind) {
            kept += 1;
        }
    }
    kept
}

/// What an operand came to at the lanes of one kind.
#[derive(Clone, Copy)]
pub(crate) struct Side<'a> {
    pub(crate) values: &'a [i64],
    pub(crate) reached: Reached,
}

/// What was reached at the lanes whose flag is set, and what at the others, as one column, up to the
/// first lane that has no value.
pub(crate) fn merge(
    flags: &[i64],
    live: usize,
    ones: Side<'_>,
    others: Side<'_>,
    out: &mut [i64],
) -> Reached
    requires flags { live ≤ length flags.now }
    requires ones { ones.reached.live ≤ length ones.values.now }
    requires others { others.reached.live ≤ length others.values.now }
    requires out { live ≤ length out.old }
    ensures { (f : ℕ → Result ℤ FaultKind)
        → Reaches (λ j. f (slice_index (wanted true flags.now live) j)) (at ones.entry.values.now)
        (length (wanted true flags.now live)) ones.entry.reached
        → Reaches (λ j. f (slice_index (wanted false flags.now live) j)) (at others.entry.values.now)
        (length (wanted false flags.now live)) others.entry.reached
        → Reaches f (at out.new) live result }
{
    let mut y = 0;
    let mut n = 0;
    for i in 0..live {
        if is_set(flags[i]) {
            if y == ones.reached.live {
                return Reached {
                    live: i,
                    fault: ones.reached.fault,
                };
            }
            out[i] = ones.values[y];
            y += 1;
        } else {
            if n == others.reached.live {
                return Reached {
                    live: i,
                    fault: others.reached.fault,
                };
            }
            out[i] = others.values[n];
            n += 1;
        }
    }
    all(live)
}

/// One operand into the lanes whose number passes a test, and another one into the others.
pub(crate) fn select<A: Lanes, B: Lanes>(
    xs: &[i64],
    set: NumberTest,
    a: A,
    b: B,
    live: usize,
    out: &mut [i64],
)
    requires xs { live ≤ length xs.now }
    requires a { live ≤ A.count a }
    requires b { live ≤ B.count b }
    requires out { live ≤ length out.old }
    ensures { (k : ℕ) → k < live → at out.new k
        ≡ (if holds set (at xs.now k) then A.number a (at out.old k) k else B.number b (at out.old k) k) }
{
    for i in 0..live {
        let old = out[i];
        let one = a.get(i, old);
        let other = b.get(i, old);
        out[i] = one_of(set.holds(xs[i]), one, other);
    }
}

/// The first number, or the other one.
fn one_of(first: bool, one: i64, other: i64) -> i64
    ensures { result ≡ (if first then one else other) }
{
    if first { one } else { other }
}
